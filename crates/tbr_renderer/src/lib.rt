//! A renderer of blocks of text, one below another.
#![tactic(auto)]

pub use options::{ImageRenderMode, RenderOptions};
pub use renderer::Renderer;
pub use sub::SubRenderer;

mod options;
mod renderer;
mod sub;
