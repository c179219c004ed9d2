//! Every short text over a few telling characters and markers. The block's lines are those of the plain program for the
//! best layout, and the markers that are on none of them trail.
ghost use Rattle.std.specs.Prelude.{◌<◌};

use crate::steps::{add, mark_with, plain, told};
use std::alloc::{AllocError, Global};
use std::test::Fail;
use tbr_lines::{Error, OutOfMemory, TaggedLineElement, UnicodeColumns, WhiteSpace, WrappedBlock};
use tbr_model::{Entry, Slot, best_layout, slots};
use test_support::texts::{Voice, append_marker};

/// It means a marker.
const MARK: char = '|';

/// A letter, a space, two characters that look like none, a stroke, a wide character, and a marker.
const ALPHABET: [char; 7] = ['a', ' ', '\u{200b}', '\u{a0}', '\u{336}', '漢', MARK];

/// What a refusal shows. No text of the alphabet gives it.
const REFUSED: &str = "refused";

const LONGEST: u32 = 5;

const WIDEST: usize = 4;

/// The text of a number, its digits to the base seven being characters.
fn numbered(alloc: Global, length: u32, number: u32) -> Result<String, AllocError> {
    let mut text = String::new(alloc);
    let mut left = number;
    for _ in 0..length {
        text.push(ALPHABET[(left % 7) as usize])?;
        left /= 7;
    }
    Ok(text)
}

fn entry(alloc: Global, c: char) -> Result<Entry<u8>, AllocError> {
    if c == MARK {
        let name = String::from_str(alloc, "m")?;
        return Ok(Entry::Marker { name });
    }
    Ok(Entry::Character {
        c,
        tag: 7,
        wrap_tag: 7,
        mode: WhiteSpace::Normal,
    })
}

/// The entries of a text under one annotation.
pub fn entries(alloc: Global, text: &str) -> Result<Vec<Entry<u8>>, AllocError> {
    let mut run = Vec::new(alloc);
    for c in text.chars() {
        run.push(entry(alloc, c)?)?;
    }
    Ok(run)
}

/// The text of a layout's line: its items, and a space at each spaced gap strictly inside it.
fn append_line(all: &mut String, line: &[Slot<'_, u8>]) -> Result<(), OutOfMemory> {
    let mut first = true;
    for slot in line {
        if !first && slot.gap.is_some() {
            all.push(' ')?;
        }
        first = false;
        match slot.entry {
            Entry::Character { c, .. } => all.push(*c)?,
            Entry::Marker { name } => append_marker(all, name.as_str())?,
        }
    }
    all.push('\n')?;
    Ok(())
}

/// Appends the markers that trail: those of the text that aren't items.
fn append_trailing(
    all: &mut String,
    text: &str,
    items: &[Slot<'_, u8>],
) -> Result<(), OutOfMemory> {
    let mut items = items
        .iter()
        .filter(|slot| matches!(slot.entry, Entry::Marker { .. }));
    for c in text.chars() {
        if c == MARK && items.next().is_none() {
            append_marker(all, "m")?;
        }
    }
    Ok(())
}

/// The lines of the best layout by the plain program, each with a newline, and the markers that trail, or that the text
/// has no legal layout.
fn plainly(alloc: Global, width: usize, text: &str) -> Result<String, OutOfMemory> {
    let run = entries(alloc, text)?;
    let Some(cuts) = best_layout::<u8, UnicodeColumns>(alloc, &run, width)? else {
        return Ok(String::from_str(alloc, REFUSED)?);
    };
    let items = slots::<u8, UnicodeColumns>(alloc, &run, width)?;
    let mut all = String::new(alloc);
    let mut from = 0;
    for to in &cuts {
        if let Some(line) = items.get(from..*to)
            && *to > from
        {
            append_line(&mut all, line)?;
        }
        from = *to;
    }
    append_trailing(&mut all, text, items.as_slice())?;
    Ok(all)
}

/// The lines of a block with the text, each with a newline, and the markers that trail.
fn wrapped(alloc: Global, width: usize, text: &str) -> Result<String, Error>
    requires { 0 < width }
{
    let mut block = plain::<UnicodeColumns>(alloc, width)?;
    join_all(&mut block, alloc, text)?;
    let trailing = flushed(&mut block)?;
    let mut all = told(alloc, block, &[])?;
    append_markers(&mut all, trailing.len())?;
    Ok(all)
}

/// The characters and markers of a text join the block's run.
fn join_all(block: &mut WrappedBlock<Voice>, alloc: Global, text: &str) -> Result<(), Error> {
    for c in text.chars() {
        join_one(block, alloc, c)?;
    }
    Ok(())
}

/// The run ends, and its trailing markers are taken out.
fn flushed(block: &mut WrappedBlock<Voice>) -> Result<Vec<TaggedLineElement<Voice>>, Error> {
    block.flush()?;
    Ok(block.take_trailing_fragments()?)
}

fn append_markers(all: &mut String, count: usize) -> Result<(), OutOfMemory> {
    for _ in 0..count {
        append_marker(all, "m")?;
    }
    Ok(())
}

/// One character joins the block's run, or a marker.
fn join_one(block: &mut WrappedBlock<Voice>, alloc: Global, c: char) -> Result<(), Error> {
    if c == MARK {
        return mark_with(block, alloc, "m");
    }
    let mut bytes = [0u8; 4];
    add(block, WhiteSpace::Normal, c.encode_utf8(&mut bytes))
}

/// One character joins the block's run, or a marker, or the block has refused the text.
fn wrapped_or_refused(alloc: Global, width: usize, text: &str) -> Result<String, Error>
    requires { 0 < width }
{
    match wrapped(alloc, width, text) {
        Err(Error::TooNarrow) => Ok(String::from_str(alloc, REFUSED)?),
        lines => lines,
    }
}

/// Whether the block wraps the text as the plain program does.
fn agrees(alloc: Global, width: usize, text: &str) -> Result<bool, Error>
    requires { 0 < width }
{
    let wrapped = wrapped_or_refused(alloc, width, text)?;
    let plain = plainly(alloc, width, text)?;
    Ok(wrapped.as_str() == plain.as_str())
}

fn agrees_on_texts_of(
    alloc: Global,
    rt: &impl std::process::Abort,
    width: usize,
    length: u32,
) -> Result<(), Fail>
    requires { 0 < width }
{
    for number in 0..7u32.saturating_pow(length) {
        let text = numbered(alloc, length, number)?;
        assert!(rt;
            agrees(alloc, width, text.as_str())?,
            "{text:?} at width {width}"
        );
    }
    Ok(())
}

#[test]
fn the_block_wraps_every_short_text_as_the_plain_program_does(rt: HostRuntime) -> Result<(), Fail> {
    let alloc = rt.alloc();
    for width in 1..=WIDEST {
        for length in 0..=LONGEST {
            agrees_on_texts_of(alloc, &rt, width, length)?;
        }
    }
    Ok(())
}

#[test]
fn the_block_wraps_worked_texts_as_the_plain_program_does(rt: HostRuntime) -> Result<(), Fail> {
    let alloc = rt.alloc();
    let texts = [
        "Hello, world.  Superlongwordreally",
        "Hello there boo",
        "Do break a line somewhere in foo\u{200b}bar\u{200b}foo\u{200b}bar\u{200b}foo",
        "Don't break a line between the words Foo\u{a0}and\u{a0}Bar",
        "漢漢漢",
        "aaa bb cc ddddd",
        "abcdefgh ij",
        "o there",
        "a\u{336}b\u{336}c",
        "|ab| |cd |ef|| |",
    ];
    for text in texts {
        for width in 1..=12 {
            assert!(rt; agrees(alloc, width, text)?, "{text:?} at width {width}");
        }
    }
    Ok(())
}
