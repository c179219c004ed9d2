//! Whole scripts, for programs in C. `text_block_renderer.c` calls what is exported here, and `text_block_renderer.h`
//! says what it does.
#![tactic(auto)]

mod script;
