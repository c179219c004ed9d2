//! The script's language: streams, refusals and their report, lines, words, numbers, escapes.
#![tactic(auto)]

pub use error::RunError;
pub use escape::unescape;
pub use line::Lines;
pub use number::{parse_byte, parse_number, parse_size};
pub use streams::{Failed, Sink, Source, StdSink, StdSource, write_all};
pub use text_pair::TextPair;
pub use words::Words;

mod error;
mod escape;
mod line;
mod number;
mod streams;
mod text_pair;
mod words;
