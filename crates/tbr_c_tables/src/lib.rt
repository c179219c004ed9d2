//! What programs in C give to a table from its beginning to its end.
#![tactic(auto)]

pub use given_table::GivenTable;
pub use table_call::TableCall;

mod given_table;
mod open_part;
mod open_parts;
mod table_call;
