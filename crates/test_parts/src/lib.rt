//! Tests of what renderers are made of: wrapped blocks, tagged lines, borders, rows of cells and decorators. They are
//! worked examples at several widths and types of tags, and every short text against the plain program for the best
//! layout.
#![tactic(auto)]

#[cfg(test)]
mod annotations;
#[cfg(test)]
mod blocks;
#[cfg(test)]
mod borders;
#[cfg(test)]
mod compared;
#[cfg(test)]
mod decorations;
#[cfg(test)]
mod decorators;
#[cfg(test)]
mod edits;
#[cfg(test)]
mod ended;
#[cfg(test)]
mod expected;
#[cfg(test)]
mod joins;
#[cfg(test)]
mod layouts;
#[cfg(test)]
mod markers;
#[cfg(test)]
mod memory;
#[cfg(test)]
mod preserved;
#[cfg(test)]
mod rows;
#[cfg(test)]
mod short_texts;
#[cfg(test)]
mod steps;
#[cfg(test)]
mod tagged;
#[cfg(test)]
mod wrapping;
