//! Lines as a renderer keeps them.
#![tactic(auto)]

pub use kept_lines::KeptLines;

mod kept_lines;
mod prefixed_lines;
