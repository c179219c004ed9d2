//! Lists of annotations that share what they have in common.
#![tactic(auto)]

pub use annotations::Annotations;
pub use open::OpenAnnotations;
pub use written::written_out;

mod annotations;
mod chain;
mod open;
mod written;
