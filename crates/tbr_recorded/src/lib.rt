//! Commands of a script, recorded for tables that find their widths.
#![tactic(auto)]

pub use recorded::TableScript;
pub use texts::Texts;

mod recorded;
mod steps;
mod texts;
