//! Tests of the program over streams in memory: streams that fail, scripts that are cut, and one that isn't text.
#![tactic(auto)]

#[cfg(test)]
mod outcome;
#[cfg(test)]
mod streams;
