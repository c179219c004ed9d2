//! Lines for a terminal, by the control sequences of ECMA-48 and the hyperlinks that most terminals know.
ghost use Rattle.std.specs.Prelude.{◌≡◌, ◌++◌, chars, flat_map, OnOk};
ghost use Rattle.tbr_tagged.specs.View.{chars_of, element_of};
ghost use Rattle.tbr_show.specs.Ansi as model;

use crate::target::{is_followed, push_target};
use crate::text::{push_ascii, push_parts, push_printable};
use tbr_decor::RichAnnotation;
use tbr_tagged::{OutOfMemory, TaggedLine, TaggedLineElement};

/// Appends a line with its newline: each piece without its control characters, between what begins its annotations and
/// what ends them. Markers aren't shown. A link to a target with another scheme than `http`, `https`, `mailto` or `ftp`
/// is underlined, and leads nowhere. If memory is refused, part of the line may have been appended.
pub fn push_line(
    text: &mut String,
    line: &TaggedLine<Vec<RichAnnotation>>,
) -> Result<(), OutOfMemory>
    ensures { OnOk result (chars_of text.new ≡ chars_of text.old ++ model.line line.now) }
{
    for element in line.iter() {
        push_element(text, element)?;
    }
    push_ascii(text, "\n")
}

/// Appends a line with its newline: the characters of its pieces, except for control characters. If memory is refused,
/// part of the line may have been appended.
pub fn push_bare_line<T>(text: &mut String, line: &TaggedLine<T>) -> Result<(), OutOfMemory>
    ensures { OnOk result (chars_of text.new ≡ chars_of text.old ++ model.bare_line line.now) }
{
    for element in line.iter() {
        push_printable(text, element.as_str())?;
    }
    push_ascii(text, "\n")
}

/// Appends an element of a line.
fn push_element(
    text: &mut String,
    element: &TaggedLineElement<Vec<RichAnnotation>>,
) -> Result<(), OutOfMemory>
    ensures { OnOk result (chars_of text.new ≡ chars_of text.old ++ model.element (element_of element.now)) }
{
    match element {
        TaggedLineElement::Str(piece) => push_piece(text, piece.s.as_str(), piece.tag.as_slice()),
        TaggedLineElement::FragmentStart(_) => Ok(()),
    }
}

/// Appends a piece under annotations, as `push_line` shows it. If memory is refused, part of it may have been appended.
pub fn push_piece(
    text: &mut String,
    piece: &str,
    annotations: &[RichAnnotation],
) -> Result<(), OutOfMemory>
    ensures { OnOk result
        (chars_of text.new ≡ chars_of text.old ++ model.piece_shown (chars piece.now) annotations.now) }
{
    push_begins(text, annotations)?;
    push_printable(text, piece)?;
    push_ends(text, annotations)
}

/// Begins annotations.
fn push_begins(text: &mut String, annotations: &[RichAnnotation]) -> Result<(), OutOfMemory>
    ensures { OnOk result (chars_of text.new ≡ chars_of text.old ++ flat_map model.begins annotations.now) }
{
    for annotation in annotations {
        push_begin(text, annotation)?;
    }
    Ok(())
}

/// Ends annotations.
fn push_ends(text: &mut String, annotations: &[RichAnnotation]) -> Result<(), OutOfMemory>
    ensures { OnOk result (chars_of text.new ≡ chars_of text.old ++ flat_map model.ends annotations.now) }
{
    for annotation in annotations {
        push_ascii(text, end(annotation))?;
    }
    Ok(())
}

/// Begins an annotation.
fn push_begin(text: &mut String, annotation: &RichAnnotation) -> Result<(), OutOfMemory>
    ensures { OnOk result (chars_of text.new ≡ chars_of text.old ++ model.begins annotation.now) }
{
    match annotation {
        RichAnnotation::Default | RichAnnotation::Preformat(_) => Ok(()),
        RichAnnotation::Link(target) => push_link(text, target.as_str()),
        RichAnnotation::Image(_) => push_ascii(text, "\u{1b}[2m"),
        RichAnnotation::Emphasis => push_ascii(text, "\u{1b}[3m"),
        RichAnnotation::Strong => push_ascii(text, "\u{1b}[1m"),
        RichAnnotation::Strikeout => push_ascii(text, "\u{1b}[9m"),
        RichAnnotation::Code => push_ascii(text, "\u{1b}[36m"),
        RichAnnotation::Colour(colour) => {
            push_ascii(text, "\u{1b}[38;2;")?;
            push_parts(text, *colour, ";")?;
            push_ascii(text, "m")
        }
        RichAnnotation::BgColour(colour) => {
            push_ascii(text, "\u{1b}[48;2;")?;
            push_parts(text, *colour, ";")?;
            push_ascii(text, "m")
        }
    }
}

/// Begins a link, which is underlined. It leads to its target if that may be followed, and otherwise nowhere.
fn push_link(text: &mut String, target: &str) -> Result<(), OutOfMemory>
    ensures { OnOk result (chars_of text.new ≡ chars_of text.old ++ model.link target.now) }
{
    if !is_followed(target) {
        return push_ascii(text, "\u{1b}[4m\u{1b}]8;;\u{1b}\\");
    }
    push_ascii(text, "\u{1b}[4m\u{1b}]8;;")?;
    push_target(text, target)?;
    push_ascii(text, "\u{1b}\\")
}

/// What ends an annotation.
fn end(annotation: &RichAnnotation) -> &'static str
    ensures { result.now ≡ model.ends annotation.now }
{
    match annotation {
        RichAnnotation::Default | RichAnnotation::Preformat(_) => "",
        RichAnnotation::Link(_) => "\u{1b}]8;;\u{1b}\\\u{1b}[24m",
        RichAnnotation::Image(_) | RichAnnotation::Strong => "\u{1b}[22m",
        RichAnnotation::Emphasis => "\u{1b}[23m",
        RichAnnotation::Strikeout => "\u{1b}[29m",
        RichAnnotation::Code | RichAnnotation::Colour(_) => "\u{1b}[39m",
        RichAnnotation::BgColour(_) => "\u{1b}[49m",
    }
}
