//! Widths of characters, and lines of text under tags.
#![tactic(auto)]

pub use element::{TaggedLineElement, TaggedString};
pub use error::{Error, OutOfMemory, TooNarrow};
pub use iterators::{Chars, IntoIter, Iter, TaggedStrings};
pub use line_end::LineEnd;
pub use padding::{CellAlign, columns_in_front};
pub use space::{always_takes_space, append_spaces, is_wordbreak_point, spaces};
pub use tagged_line::TaggedLine;
pub use width::{STROKE, UnicodeColumns, narrow_in_front, takes_one_column, text_width};

mod edits;
mod element;
mod element_list;
mod elements;
mod error;
mod iterators;
pub mod laws;
mod line_end;
mod padding;
mod space;
mod tagged_line;
mod width;
