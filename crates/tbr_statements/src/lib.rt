//! What the lines of a script for people ask for, what is open there, and what its errors say.
#![tactic(auto)]

pub use block::Block;
pub use level::{Level, Levels, Notes, Opener, TooWide};
pub use problem::{Kind, Problem, Refusal, Related};
pub use statement::{Statement, is_skipped};
pub use stretch::{Stretch, Stretches};

pub mod advice;
mod block;
mod fault;
mod level;
mod number;
mod placed;
mod problem;
mod statement;
mod stretch;
mod table_cell;
mod words;
