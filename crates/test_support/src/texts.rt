//! Texts of lines, as tests compare them.
ghost use Rattle.std.proofs.Common.{rules};
ghost use Rattle.test_support.specs.Voices.{same_voice, voices_apart};

use std::alloc::Global;
use std::fmt::Debug;
use tbr_lines::{OutOfMemory, TaggedLine, TaggedLineElement, TaggedString};
use tbr_tags::Tag;

/// A second type of tags.
#[derive(Clone, Copy, PartialEq, Eq, Debug)]
pub enum Voice {
    First,
    Second,
}

impl Tag for Voice {
    type Meaning = Voice;

    ghost meaning = { λ v. v };

    ghost same = { same_voice };

    ghost tells = { voices_apart };

    ghost equal_by_meaning = { Prim.search rules };

    ghost copies_equal = { Prim.search rules };
}

/// A piece of text under a tag.
pub fn piece(alloc: Global, s: &str, tag: Voice) -> Result<TaggedString<Voice>, OutOfMemory> {
    let s = String::from_str(alloc, s)?;
    Ok(TaggedString { s, tag })
}

/// A marker of that name.
pub fn marker(alloc: Global, name: &str) -> Result<TaggedLineElement<Voice>, OutOfMemory> {
    let name = String::from_str(alloc, name)?;
    Ok(TaggedLineElement::FragmentStart(name))
}

/// Appends a line's text with its markers, as `<name>`, and a newline.
pub fn append_marked_line<T>(all: &mut String, line: &TaggedLine<T>) -> Result<(), OutOfMemory> {
    for element in line.iter() {
        match element {
            TaggedLineElement::Str(piece) => all.push_str(piece.s.as_str())?,
            TaggedLineElement::FragmentStart(name) => append_marker(all, name.as_str())?,
        }
    }
    all.push('\n')?;
    Ok(())
}

/// Appends a marker as `<name>`.
pub fn append_marker(all: &mut String, name: &str) -> Result<(), OutOfMemory> {
    all.push('<')?;
    all.push_str(name)?;
    all.push('>')?;
    Ok(())
}

/// Appends a line's pieces, each with its tag, and a newline.
pub fn append_pieces<T: Debug>(
    all: &mut String,
    alloc: Global,
    line: &TaggedLine<T>,
) -> Result<(), OutOfMemory> {
    for piece in line.tagged_strings() {
        let text = format!(in alloc; "{}:{:?} ", piece.s.as_str(), piece.tag)?;
        all.push_str(text.as_str())?;
    }
    all.push('\n')?;
    Ok(())
}

/// Appends a line's elements, with `|` between them: each piece's text after the initial of its tag, each marker's name
/// after `#`.
pub fn append_elements(all: &mut String, line: &TaggedLine<Voice>) -> Result<(), OutOfMemory> {
    let mut first = true;
    for element in line.iter() {
        if !first {
            all.push('|')?;
        }
        first = false;
        append_element(all, element)?;
    }
    Ok(())
}

fn append_element(all: &mut String, element: &TaggedLineElement<Voice>) -> Result<(), OutOfMemory> {
    match element {
        TaggedLineElement::Str(piece) => {
            all.push(if piece.tag == Voice::First { '1' } else { '2' })?;
            all.push_str(piece.s.as_str())?;
        }
        TaggedLineElement::FragmentStart(name) => {
            all.push('#')?;
            all.push_str(name.as_str())?;
        }
    }
    Ok(())
}

/// A line's elements.
pub fn elements(alloc: Global, line: &TaggedLine<Voice>) -> Result<String, OutOfMemory> {
    let mut all = String::new(alloc);
    append_elements(&mut all, line)?;
    Ok(all)
}
