//! What tests of several crates share: texts of lines, width instances whose widths need no table, and decorators other
//! than those that are shipped.
#![tactic(auto)]

pub mod columns;
pub mod marked;
pub mod odd;
pub mod texts;
