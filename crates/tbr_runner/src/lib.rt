//! Runs a script with a renderer.
#![tactic(auto)]

pub use runner::{render, render_shown, run};

mod runner;
