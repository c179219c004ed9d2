//! A program: the commands of a script, done one by one with renderers on a stack.
#![tactic(auto)]

pub use program::Program;

mod closing;
mod opened;
mod pending;
mod prefixes;
mod program;
