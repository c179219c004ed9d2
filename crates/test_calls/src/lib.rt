//! What tests of renderers share: calls as values, what renderers show and tell after them, and what they are told.
#![tactic(auto)]

pub mod calls;
pub mod inside;
pub mod told;
