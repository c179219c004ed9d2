//! Tables that find their widths: what is recorded of them is measured, and then drawn.
#![tactic(auto)]

pub use drawn::{Call, Drawn, DrawnCell};
pub use recording::Recording;
pub use ruler::measure;
pub use step::{Step, TableCell};

mod drawing;
mod drawn;
mod drawn_table;
mod grid;
pub mod laws;
mod level;
mod measured_table;
mod measuring;
mod recording;
mod ruler;
mod shape;
mod step;
#[cfg(test)]
mod tests;
