//! Horizontal borders, and lines as a renderer keeps them.
#![tactic(auto)]

pub use border::{BorderHoriz, BorderSegHoriz};
pub use render_line::RenderLine;

mod border;
pub mod laws;
mod render_line;
