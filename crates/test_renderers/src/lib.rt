//! Tests of renderers, alone and on a stack. There are tables of calls on a new one, each with the lines that they
//! leave. There are tests of what renderers answer apart from their lines, of what they refuse, of memory that is
//! refused, and of what is printed of them.
#![tactic(auto)]

#[cfg(test)]
mod blocks;
#[cfg(test)]
mod borders;
#[cfg(test)]
mod colours;
#[cfg(test)]
mod compared;
#[cfg(test)]
mod decorated;
#[cfg(test)]
mod every_call;
#[cfg(test)]
mod expected;
#[cfg(test)]
mod footnotes;
#[cfg(test)]
mod images;
#[cfg(test)]
mod markers;
#[cfg(test)]
mod memory;
#[cfg(test)]
mod narrow;
#[cfg(test)]
mod padding;
#[cfg(test)]
mod prefixes;
#[cfg(test)]
mod preserved;
#[cfg(test)]
mod printed;
#[cfg(test)]
mod refusals;
#[cfg(test)]
mod rows;
#[cfg(test)]
mod stacks;
#[cfg(test)]
mod strikeouts;
#[cfg(test)]
mod sub_blocks;
#[cfg(test)]
mod sub_renderers;
#[cfg(test)]
mod vertical_rows;
#[cfg(test)]
mod wrapping;
