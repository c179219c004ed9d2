//! Tagged lines that are edited step by step.
use std::alloc::Global;
use tbr_lines::{CellAlign, CharWidth, OutOfMemory, TaggedLine};
use test_support::texts::{Voice, append_elements, marker, piece};

/// A call on a tagged line.
#[derive(Clone, Copy)]
pub enum Edit<'a> {
    /// A text joins the line at its end.
    Text(&'a str, Voice),
    Character(char, Voice),
    /// A text joins the line at its front.
    Front(&'a str, Voice),
    /// A text joins the line at its front, character by character.
    FrontStr(&'a str, Voice),
    Marker(&'a str),
    Pad(usize, Voice),
    Align(usize, CellAlign, Voice),
}

/// Makes an edit.
pub fn apply<W: CharWidth>(
    line: &mut TaggedLine<Voice>,
    alloc: Global,
    edit: Edit<'_>,
) -> Result<(), OutOfMemory> {
    match edit {
        Edit::Text(text, tag) => line.push_str(piece(alloc, text, tag)?),
        Edit::Character(c, tag) => line.push_char(c, &tag),
        Edit::Front(text, tag) => line.insert_front(piece(alloc, text, tag)?),
        Edit::FrontStr(text, tag) => line.insert_front_str(text, tag),
        Edit::Marker(name) => line.push(marker(alloc, name)?),
        Edit::Pad(width, tag) => line.pad_to::<W>(width, &tag),
        Edit::Align(width, align, tag) => line.pad_aligned::<W>(width, align, &tag),
    }
}

/// What the line has after each edit, each with a newline.
pub fn edited<W: CharWidth>(alloc: Global, edits: &[Edit<'_>]) -> Result<String, OutOfMemory> {
    let mut line = TaggedLine::new(alloc);
    let mut all = String::new(alloc);
    for edit in edits {
        apply::<W>(&mut line, alloc, *edit)?;
        append_elements(&mut all, &line)?;
        all.push('\n')?;
    }
    Ok(all)
}

/// A line after these edits.
pub fn line_after<W: CharWidth>(
    alloc: Global,
    edits: &[Edit<'_>],
) -> Result<TaggedLine<Voice>, OutOfMemory> {
    let mut line = TaggedLine::new(alloc);
    for edit in edits {
        apply::<W>(&mut line, alloc, *edit)?;
    }
    Ok(line)
}
