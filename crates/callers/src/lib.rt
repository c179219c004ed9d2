//! The callers that the pages of this repository show, proved. `tools/quotes` compares the pages with them.
#![tactic(auto)]

pub mod best_lines;
pub mod counter;
pub mod counting;
pub mod emphasised;
pub mod handed_on;
pub mod help_page;
pub mod letter;
pub mod line_by_line;
pub mod numbers;
pub mod pages;
pub mod report;
pub mod stars;
pub mod two_tags;
