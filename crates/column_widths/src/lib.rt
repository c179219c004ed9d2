//! Widths of a table's columns, as browsers decide them.
#![tactic(auto)]

pub use columns::{CellNeed, Columns};
pub use room::Room;

mod columns;
mod fill;
pub mod laws;
mod need;
mod room;
mod share;
#[cfg(test)]
mod tests;
