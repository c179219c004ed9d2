//! Scripts for people: comments, blocks with the decorator's own prefixes, and errors that say what is wrong.
#![tactic(auto)]

pub use script::{Format, Settings, Shown, view};

mod script;
mod session;
mod show;
