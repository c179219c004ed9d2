//! Renderers of blocks of text, and the laws of every list of calls. It re-exports what a caller of renderers needs
//! from the crates below: renderers and stacks, decorators, lines, borders and blocks. Their laws stay there.
#![tactic(auto)]

pub use tbr_annotations::{Annotations, written_out};
pub use tbr_decor::{
    Colour, PlainDecorator, RichAnnotation, RichDecorator, TextDecorator, TrivialDecorator, text,
    usual,
};
pub use tbr_lines::{
    BorderHoriz, BorderSegHoriz, CellAlign, CharWidth, Chars, EndedLines, Error, IntoIter, Iter,
    OutOfMemory, RenderLine, TaggedLine, TaggedLineElement, TaggedString, TaggedStrings, TooNarrow,
    UnicodeColumns, WhiteSpace, WrappedBlock, always_takes_space, is_wordbreak_point, text_width,
};
pub use tbr_renderer::{ImageRenderMode, RenderOptions, Renderer, SubRenderer};
pub use tbr_rows::LineSet;
pub use tbr_stack::{Stack, TextRenderer};

pub mod laws;
