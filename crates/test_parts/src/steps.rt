//! Blocks that are called step by step, and what they tell.
ghost use Rattle.std.specs.Prelude.{◌<◌, ◌≡◌, ℕ, List, IfOk};
ghost use Rattle.tbr_tagged.specs.Elements.{marker_element};
ghost use Rattle.tbr_tagged.specs.View.{element_of};

use std::alloc::Global;
use tbr_lines::{
    CharWidth, Error, OutOfMemory, TaggedLine, TaggedLineElement, WhiteSpace, WrappedBlock,
};
use test_support::texts::{Voice, append_marked_line, append_pieces};

/// A call on a block.
#[derive(Clone, Copy)]
pub enum Step<'a> {
    /// A text in this mode joins the run, under the first tag, and the second one where a hard line goes on.
    Normal(&'a str),
    Pre(&'a str),
    PreWrap(&'a str),
    /// A marker of that name joins the run.
    Marker(&'a str),
    /// The run ends.
    Flush,
    /// The markers that trail are taken out: it tells `taken` and their names.
    Take,
    /// A line is handed out: it tells `next` and its text, or `none`.
    Next,
    /// It tells which of `empty`, `start` and `blank` the block says of itself.
    Ask,
}

/// A block that doesn't pad and has no wider lines.
pub fn plain<W: CharWidth + Drop>(
    alloc: Global,
    width: usize,
) -> Result<WrappedBlock<Voice, W>, OutOfMemory>
    requires { 0 < width }
{
    WrappedBlock::new(alloc, width, false, false, Voice::First)
}

/// A block of one column, where lines may be wider.
pub fn overflowing(alloc: Global) -> Result<WrappedBlock<Voice>, OutOfMemory> {
    WrappedBlock::new(alloc, 1, false, true, Voice::First)
}

/// A block of five columns, whose lines are padded under the second tag.
pub fn padding(alloc: Global) -> Result<WrappedBlock<Voice>, OutOfMemory> {
    WrappedBlock::new(alloc, 5, true, false, Voice::Second)
}

/// Takes one step, and appends what it tells.
pub fn take_step<W: CharWidth + Drop>(
    block: &mut WrappedBlock<Voice, W>,
    alloc: Global,
    step: Step<'_>,
    told: &mut String,
) -> Result<(), Error> {
    match step {
        Step::Normal(text) => add(block, WhiteSpace::Normal, text),
        Step::Pre(text) => add(block, WhiteSpace::Pre, text),
        Step::PreWrap(text) => add(block, WhiteSpace::PreWrap, text),
        Step::Marker(name) => mark_with(block, alloc, name),
        Step::Flush => block.flush(),
        Step::Take => take(block, told),
        Step::Next => hand_out(block, told),
        Step::Ask => ask(block, told),
    }
}

/// A text joins the run, in a mode.
pub fn add<W: CharWidth + Drop>(
    block: &mut WrappedBlock<Voice, W>,
    mode: WhiteSpace,
    text: &str,
) -> Result<(), Error> {
    block.add_text(text, mode, &Voice::First, &Voice::Second)
}

/// A marker joins the run.
pub fn mark_with<W: CharWidth + Drop>(
    block: &mut WrappedBlock<Voice, W>,
    alloc: Global,
    name: &str,
) -> Result<(), Error> {
    let marker = marker_of(alloc, name)?;
    block.add_element(marker)
}

fn marker_of<T>(alloc: Global, name: &str) -> Result<TaggedLineElement<T>, OutOfMemory>
    ensures { IfOk result (λ marker. (name : List ℕ) × (element_of marker ≡ marker_element name)) }
{
    let name = String::from_str(alloc, name)?;
    Ok(TaggedLineElement::FragmentStart(name))
}

fn take<W: CharWidth + Drop>(
    block: &mut WrappedBlock<Voice, W>,
    told: &mut String,
) -> Result<(), Error> {
    let markers = block.take_trailing_fragments()?;
    append_taken(told, markers.as_slice())?;
    Ok(())
}

fn append_taken(
    told: &mut String,
    markers: &[TaggedLineElement<Voice>],
) -> Result<(), OutOfMemory> {
    told.push_str("taken ")?;
    for marker in markers {
        if let TaggedLineElement::FragmentStart(name) = marker {
            told.push_str(name.as_str())?;
            told.push(',')?;
        }
    }
    told.push('\n')?;
    Ok(())
}

fn hand_out<W: CharWidth + Drop>(
    block: &mut WrappedBlock<Voice, W>,
    told: &mut String,
) -> Result<(), Error> {
    let line = block.next_line()?;
    append_next(told, &line)?;
    Ok(())
}

fn append_next(told: &mut String, line: &Option<TaggedLine<Voice>>) -> Result<(), OutOfMemory> {
    told.push_str("next ")?;
    match line {
        Some(line) => append_marked_line(told, line),
        None => Ok(told.push_str("none\n")?),
    }
}

fn ask<W: CharWidth + Drop>(
    block: &WrappedBlock<Voice, W>,
    told: &mut String,
) -> Result<(), Error> {
    append_where(told, block.is_empty(), "empty ")?;
    append_where(told, block.at_line_start(), "start ")?;
    append_where(told, block.is_blank(), "blank ")?;
    append_where(told, true, "\n")?;
    Ok(())
}

fn append_where(told: &mut String, holds: bool, word: &str) -> Result<(), OutOfMemory> {
    if holds {
        told.push_str(word)?;
    }
    Ok(())
}

/// What the steps tell, each with a newline.
fn taken_steps<W: CharWidth + Drop>(
    block: &mut WrappedBlock<Voice, W>,
    alloc: Global,
    steps: &[Step<'_>],
) -> Result<String, Error> {
    let mut told = String::new(alloc);
    for step in steps {
        take_step(block, alloc, *step, &mut told)?;
    }
    Ok(told)
}

/// What the steps tell, and then the block's lines with their markers, each with a newline.
pub fn told<W: CharWidth + Drop>(
    alloc: Global,
    mut block: WrappedBlock<Voice, W>,
    steps: &[Step<'_>],
) -> Result<String, Error> {
    let mut all = taken_steps(&mut block, alloc, steps)?;
    for line in &block.into_lines()? {
        append_marked_line(&mut all, line)?;
    }
    Ok(all)
}

/// The pieces of the block's lines after the steps, each with its tag.
pub fn pieces<W: CharWidth + Drop>(
    alloc: Global,
    mut block: WrappedBlock<Voice, W>,
    steps: &[Step<'_>],
) -> Result<String, Error> {
    let mut all = taken_steps(&mut block, alloc, steps)?;
    for line in &block.into_lines()? {
        append_pieces(&mut all, alloc, line)?;
    }
    Ok(all)
}
