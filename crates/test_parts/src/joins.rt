//! Borders that are joined and filled step by step.
use std::alloc::Global;
use tbr_lines::{BorderHoriz, CharWidth, OutOfMemory, TaggedLineElement};
use test_support::texts::{Voice, marker, piece};

/// A call on a border.
#[derive(Clone, Copy)]
pub enum Join<'a> {
    Above(usize),
    Below(usize),
    Stretch(usize),
    /// A text of the second tag in front of the cells from there on.
    Text(usize, &'a str),
    Marker(usize, &'a str),
}

/// A border of that width under the first tag.
pub fn border(alloc: Global, width: usize) -> Result<BorderHoriz<Voice>, OutOfMemory> {
    BorderHoriz::new(alloc, width, Voice::First)
}

/// Puts an element in front of the cells from `pos` on, where no other is.
fn put<W: CharWidth>(
    line: &mut BorderHoriz<Voice>,
    pos: usize,
    element: TaggedLineElement<Voice>,
) -> Result<(), OutOfMemory> {
    if line.span_end() <= pos {
        line.add_text_span::<W>(pos, element)?;
    }
    Ok(())
}

fn put_text<W: CharWidth>(
    line: &mut BorderHoriz<Voice>,
    alloc: Global,
    pos: usize,
    text: &str,
) -> Result<(), OutOfMemory> {
    let piece = piece(alloc, text, Voice::Second)?;
    put::<W>(line, pos, TaggedLineElement::Str(piece))
}

fn put_marker<W: CharWidth>(
    line: &mut BorderHoriz<Voice>,
    alloc: Global,
    pos: usize,
    name: &str,
) -> Result<(), OutOfMemory> {
    let marker = marker(alloc, name)?;
    put::<W>(line, pos, marker)
}

/// Makes a call.
pub fn apply<W: CharWidth>(
    line: &mut BorderHoriz<Voice>,
    alloc: Global,
    join: Join<'_>,
) -> Result<(), OutOfMemory> {
    match join {
        Join::Above(at) => line.join_above(at),
        Join::Below(at) => line.join_below(at),
        Join::Stretch(width) => line.stretch_to(width),
        Join::Text(pos, text) => put_text::<W>(line, alloc, pos, text),
        Join::Marker(pos, name) => put_marker::<W>(line, alloc, pos, name),
    }
}

/// A border of that width after the calls.
pub fn joined<W: CharWidth>(
    alloc: Global,
    width: usize,
    joins: &[Join<'_>],
) -> Result<BorderHoriz<Voice>, OutOfMemory> {
    let mut line = border(alloc, width)?;
    for join in joins {
        apply::<W>(&mut line, alloc, *join)?;
    }
    Ok(line)
}

/// What a border of that width shows after each call, each with a newline.
pub fn shown<W: CharWidth>(
    alloc: Global,
    width: usize,
    joins: &[Join<'_>],
) -> Result<String, OutOfMemory> {
    let mut line = border(alloc, width)?;
    let mut all = String::new(alloc);
    for join in joins {
        apply::<W>(&mut line, alloc, *join)?;
        all.push_str(line.to_text()?.as_str())?;
        all.push('\n')?;
    }
    Ok(all)
}
