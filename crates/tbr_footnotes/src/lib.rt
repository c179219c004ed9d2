//! Footnotes that are cut into lines.
#![tactic(auto)]

pub use footnote_lines::FootnoteLines;

mod footnote_lines;
