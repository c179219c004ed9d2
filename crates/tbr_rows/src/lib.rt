//! Rows of cells side by side: their places, their lines, and the borders above and below them.
#![tactic(auto)]

pub use columns::Columns;
pub use fitting::Fitting;
pub use line_set::LineSet;
pub use overhang::Overhang;
pub use row::{Row, RowStyle};

mod aligned_lines;
mod borders;
mod cell_lines;
mod column;
mod columns;
mod fitting;
mod gaps;
pub mod laws;
mod line_set;
mod overhang;
mod row;
mod seating;
mod texts;
