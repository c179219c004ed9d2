//! Worked examples as tables: steps on a new block, and what is expected of them.
use crate::steps::{Step, overflowing, padding, pieces, plain, told};
use std::alloc::Global;
use std::process::Abort;
use tbr_lines::{CharWidth, Error, OutOfMemory, UnicodeColumns, WrappedBlock};
use test_support::columns::{EveryOne, NoEmSpace};
use test_support::texts::Voice;

/// A block without text.
#[derive(Clone, Copy)]
pub enum On {
    /// Of this many columns, at least one.
    Columns(usize),
    /// Of this many columns, where each character takes one column, except that U+0336 takes none.
    EveryOne(usize),
    /// Of this many columns, where each character takes one column, except that U+0336 and the em space take none.
    NoEmSpace(usize),
    /// Of five columns, where lines are padded under the second tag.
    Padding,
    /// Of one column, where lines may be wider.
    Overflowing,
}

/// What is expected of steps.
#[derive(Clone, Copy)]
pub enum Expected {
    /// What the steps tell, and then the block's lines with their markers, each with a newline.
    Lines(&'static str),
    /// The pieces of the block's lines, each with its tag.
    Pieces(&'static str),
}

/// Steps on a new block, and what is expected of them.
#[derive(Clone, Copy)]
pub struct Example {
    pub name: &'static str,
    pub on: On,
    pub steps: &'static [Step<'static>],
    pub expected: Expected,
}

/// A block of this many columns.
fn of_columns<W: CharWidth + Drop>(
    rt: &impl Abort,
    alloc: Global,
    width: usize,
) -> Result<WrappedBlock<Voice, W>, OutOfMemory> {
    assert!(rt; 0 < width);
    plain(alloc, width)
}

/// The steps on a block give what is expected.
fn meet_on<W: CharWidth + Drop>(
    rt: &impl Abort,
    alloc: Global,
    block: Result<WrappedBlock<Voice, W>, OutOfMemory>,
    example: Example,
) {
    let Ok(block) = block else {
        panic!(rt; "{}: no memory for a block", example.name)
    };
    let shown = match example.expected {
        Expected::Lines(_) => told(alloc, block, example.steps),
        Expected::Pieces(_) => pieces(alloc, block, example.steps),
    };
    compare(rt, example.name, shown, example.expected)
}

fn compare(rt: &impl Abort, name: &str, shown: Result<String, Error>, expected: Expected) {
    let expected = match expected {
        Expected::Lines(lines) => lines,
        Expected::Pieces(pieces) => pieces,
    };
    match shown {
        Ok(text) => assert_eq!(rt; text.as_str(), expected, "{name}"),
        Err(error) => panic!(rt; "{name}: {error:?}"),
    }
}

fn meet(rt: &impl Abort, alloc: Global, example: Example) {
    match example.on {
        On::Columns(width) => {
            let block = of_columns::<UnicodeColumns>(rt, alloc, width);
            meet_on(rt, alloc, block, example)
        }
        On::EveryOne(width) => {
            let block = of_columns::<EveryOne>(rt, alloc, width);
            meet_on(rt, alloc, block, example)
        }
        On::NoEmSpace(width) => {
            let block = of_columns::<NoEmSpace>(rt, alloc, width);
            meet_on(rt, alloc, block, example)
        }
        On::Padding => meet_on(rt, alloc, padding(alloc), example),
        On::Overflowing => meet_on(rt, alloc, overflowing(alloc), example),
    }
}

/// Each example gives what is expected of it.
pub fn meet_all(rt: &impl Abort, alloc: Global, examples: &[Example]) {
    for example in examples {
        meet(rt, alloc, *example);
    }
}
