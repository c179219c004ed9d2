//! A renderer that C fills call by call and whose lines it takes. `text_block_renderer.c` calls what is exported here,
//! and `text_block_renderer.h` says what each does.
#![tactic(auto)]

mod answers;
mod arguments;
mod calls;
mod drawing;
mod extent;
mod handle;
mod held;
mod options;
mod page;
mod parts;
mod questions;
mod state;
mod table;
mod tables;
mod taking;
mod widths;
