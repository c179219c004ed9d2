//! Lines of a renderer for people and programs: for a terminal, as HTML, and as JSON.
#![tactic(auto)]

pub use ambiguous::AmbiguousWide;

mod ambiguous;
pub mod ansi;
pub mod html;
pub mod laws;
pub mod ndjson;
mod target;
mod text;
