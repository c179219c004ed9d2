//! Lines of text under tags: their widths, borders, and wrapping. It re-exports the crates that hold these.
#![tactic(auto)]

pub use tbr_border::{BorderHoriz, BorderSegHoriz, RenderLine};
pub use tbr_model::{CharWidth, WhiteSpace};
pub use tbr_tagged::{
    CellAlign, Chars, Error, IntoIter, Iter, LineEnd, OutOfMemory, TaggedLine, TaggedLineElement,
    TaggedString, TaggedStrings, TooNarrow, UnicodeColumns, always_takes_space, append_spaces,
    is_wordbreak_point, spaces, text_width,
};
pub use tbr_tags::{Meanings, Tag};
pub use tbr_wrap::{EndedLines, WrappedBlock};

pub mod laws;
