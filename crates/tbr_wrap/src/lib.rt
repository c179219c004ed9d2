//! Text that is wrapped into lines.
#![tactic(auto)]

pub use block::WrappedBlock;
pub use ended_lines::EndedLines;

mod block;
mod ended_lines;
mod laid_lines;
pub mod laws;
mod plain;
mod run_change;
mod wrapper;
