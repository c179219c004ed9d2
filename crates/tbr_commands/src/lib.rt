//! What the lines of a script ask for.
#![tactic(auto)]

pub use begun::Begun;
pub use command::Command;
pub use command::new_cell::NewCell;
pub use opening::{Decorator, Opening};
pub use request::Request;
pub use request::beginning::Beginning;
pub use request::kind::Kind;
pub use request::layout::Layout;
pub use spaces::split_at_space;

mod begun;
mod command;
mod opening;
mod options;
mod request;
mod spaces;
