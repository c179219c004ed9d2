//! Tags of text, and what they mean.
#![tactic(auto)]

pub use meanings::Meanings;
pub use tag::Tag;

mod meanings;
mod numbers;
mod plain;
mod tag;
mod text;
mod vector;
