//! Lines as HTML: what is in a `<pre>`, with links, emphasis and colours as elements.
ghost use Rattle.std.specs.Prelude.{◌≡◌, ◌++◌, IsTrue, flat_map, chars, reverse, OnOk};
ghost use Rattle.tbr_tagged.specs.View.{chars_of, element_of};
ghost use Rattle.std.specs.List.{list_all};
ghost use Rattle.std.specs.Char.{is_ascii};
ghost use Rattle.tbr_show.specs.Written.{printable};
ghost use Rattle.tbr_show.specs.Html as model;

use crate::target::{is_followed, push_target};
use crate::text::{push_ascii, push_char, push_parts};
use tbr_decor::{Colour, RichAnnotation};
use tbr_model::CharWidth;
use tbr_tagged::{OutOfMemory, TaggedLine, TaggedLineElement};

/// What comes before the lines, to make them a document of their own.
pub const BEGINNING: &str =
    "<!DOCTYPE html>\n<meta charset=\"utf-8\">\n<style>\npre { font-family: monospace }\npre code { font: inherit }\npre .wide { display: inline-block; width: 2ch }\n</style>\n<pre>\n";

/// What comes after the lines.
pub const END: &str = "</pre>\n";

/// Appends a line with its newline: each piece without its control characters, in the elements of its annotations. A
/// marker becomes the place to which a link to its name leads.
///
/// A character of two columns, with the characters of no columns after it, is in an element of the class `wide`. That
/// is as wide as two characters of one column. A link to a target with another scheme than `http`, `https`, `mailto` or
/// `ftp` leads nowhere.
///
/// It refuses only where memory is refused, and part of the line may then have been appended.
pub fn push_line<W: CharWidth>(
    text: &mut String,
    line: &TaggedLine<Vec<RichAnnotation>>,
) -> Result<(), OutOfMemory>
    ensures { OnOk result (chars_of text.new ≡ chars_of text.old ++ model.line W.columns line.now) }
{
    for element in line.iter() {
        push_element::<W>(text, element)?;
    }
    push_ascii(text, "\n")
}

/// Appends an element of a line.
fn push_element<W: CharWidth>(
    text: &mut String,
    element: &TaggedLineElement<Vec<RichAnnotation>>,
) -> Result<(), OutOfMemory>
    ensures { OnOk result
        (chars_of text.new ≡ chars_of text.old ++ model.element W.columns (element_of element.now)) }
{
    match element {
        TaggedLineElement::Str(piece) => {
            push_piece::<W>(text, piece.s.as_str(), piece.tag.as_slice())
        }
        TaggedLineElement::FragmentStart(name) => push_marker(text, name.as_str()),
    }
}

/// Appends a piece under annotations, as `push_line` shows it. If memory is refused, part of it may have been appended.
pub fn push_piece<W: CharWidth>(
    text: &mut String,
    piece: &str,
    annotations: &[RichAnnotation],
) -> Result<(), OutOfMemory>
    ensures { OnOk result
        (chars_of text.new ≡ chars_of text.old ++ model.piece_shown W.columns (chars piece.now) annotations.now) }
{
    push_begins(text, annotations)?;
    push_shown::<W>(text, piece)?;
    push_ends(text, annotations)
}

/// Appends a marker, as `push_line` shows it. If memory is refused, part of it may have been appended.
pub fn push_marker(text: &mut String, name: &str) -> Result<(), OutOfMemory>
    ensures { OnOk result (chars_of text.new ≡ chars_of text.old ++ model.marker_shown name.now) }
{
    push_ascii(text, "<a id=\"")?;
    push_escaped(text, name)?;
    push_ascii(text, "\"></a>")
}

/// Begins the elements of annotations, one inside the other.
fn push_begins(text: &mut String, annotations: &[RichAnnotation]) -> Result<(), OutOfMemory>
    ensures { OnOk result (chars_of text.new ≡ chars_of text.old ++ flat_map model.begins annotations.now) }
{
    for annotation in annotations {
        push_begin(text, annotation)?;
    }
    Ok(())
}

/// Ends the elements of annotations, the innermost first.
fn push_ends(text: &mut String, annotations: &[RichAnnotation]) -> Result<(), OutOfMemory>
    ensures { OnOk result (chars_of text.new ≡ chars_of text.old ++ flat_map model.ends (reverse annotations.now)) }
{
    for annotation in annotations.iter().rev() {
        push_ascii(text, end(annotation))?;
    }
    Ok(())
}

/// Begins the element of an annotation.
fn push_begin(text: &mut String, annotation: &RichAnnotation) -> Result<(), OutOfMemory>
    ensures { OnOk result (chars_of text.new ≡ chars_of text.old ++ model.begins annotation.now) }
{
    match annotation {
        RichAnnotation::Default | RichAnnotation::Preformat(_) => Ok(()),
        RichAnnotation::Link(target) => push_link(text, target.as_str()),
        RichAnnotation::Image(source) => {
            push_ascii(text, "<span title=\"")?;
            push_address(text, source.as_str())?;
            push_ascii(text, "\">")
        }
        RichAnnotation::Emphasis => push_ascii(text, "<em>"),
        RichAnnotation::Strong => push_ascii(text, "<strong>"),
        RichAnnotation::Strikeout => push_ascii(text, "<s>"),
        RichAnnotation::Code => push_ascii(text, "<code>"),
        RichAnnotation::Colour(colour) => push_coloured(text, "color", *colour),
        RichAnnotation::BgColour(colour) => push_coloured(text, "background-color", *colour),
    }
}

/// What ends the element of an annotation.
fn end(annotation: &RichAnnotation) -> &'static str
    ensures { result.now ≡ model.ends annotation.now }
{
    match annotation {
        RichAnnotation::Default | RichAnnotation::Preformat(_) => "",
        RichAnnotation::Link(_) => "</a>",
        RichAnnotation::Emphasis => "</em>",
        RichAnnotation::Strong => "</strong>",
        RichAnnotation::Strikeout => "</s>",
        RichAnnotation::Code => "</code>",
        RichAnnotation::Image(_) | RichAnnotation::Colour(_) | RichAnnotation::BgColour(_) => {
            "</span>"
        }
    }
}

/// Begins a link, which leads to its target if that may be followed.
fn push_link(text: &mut String, target: &str) -> Result<(), OutOfMemory>
    ensures { OnOk result (chars_of text.new ≡ chars_of text.old ++ model.link target.now) }
{
    if !is_followed(target) {
        return push_ascii(text, "<a>");
    }
    push_ascii(text, "<a href=\"")?;
    push_address(text, target)?;
    push_ascii(text, "\">")
}

/// Appends a target or a source as the value of an attribute.
fn push_address(text: &mut String, address: &str) -> Result<(), OutOfMemory>
    ensures { OnOk result (chars_of text.new ≡ chars_of text.old ++ model.address address.now) }
{
    let mut encoded = String::new(*text.allocator());
    push_target(&mut encoded, address)?;
    push_escaped(text, encoded.as_str())
}

/// Begins text whose property of this name, which is ASCII, is a colour.
fn push_coloured(text: &mut String, property: &str, colour: Colour) -> Result<(), OutOfMemory>
    requires { IsTrue (list_all is_ascii property.now) }
    ensures { OnOk result (chars_of text.new ≡ chars_of text.old ++ model.coloured property.now colour) }
{
    push_ascii(text, "<span style=\"")?;
    push_ascii(text, property)?;
    push_ascii(text, ":rgb(")?;
    push_parts(text, colour, ",")?;
    push_ascii(text, ")\">")
}

/// Appends the characters of a text as HTML writes them, except for control characters.
fn push_escaped(text: &mut String, more: &str) -> Result<(), OutOfMemory>
    ensures { OnOk result
        (chars_of text.new ≡ chars_of text.old ++ flat_map model.escaped (printable (chars more.now))) }
{
    for c in more.chars() {
        if !c.is_control() {
            push_character(text, c)?;
        }
    }
    Ok(())
}

/// Appends a character as HTML writes it.
fn push_character(text: &mut String, c: char) -> Result<(), OutOfMemory>
    ensures { OnOk result (chars_of text.new ≡ chars_of text.old ++ model.escaped c) }
{
    match c {
        '&' => push_ascii(text, "&amp;"),
        '<' => push_ascii(text, "&lt;"),
        '>' => push_ascii(text, "&gt;"),
        '"' => push_ascii(text, "&quot;"),
        '\'' => push_ascii(text, "&#39;"),
        _ => push_char(text, c),
    }
}

/// Appends the characters of a text. Each character of two columns is in an element, with those of no columns after it.
fn push_shown<W: CharWidth>(text: &mut String, more: &str) -> Result<(), OutOfMemory>
    ensures { OnOk result
        (chars_of text.new ≡ chars_of text.old ++ model.shown W.columns (printable (chars more.now))) }
{
    let mut is_wide = false;
    for c in more.chars() {
        if !c.is_control() {
            let width = W::width(c);
            push_ascii(text, between(is_wide, width))?;
            push_character(text, c)?;
            is_wide = is_wide_after(is_wide, width);
        }
    }
    push_ascii(text, between(is_wide, Some(1)))
}

/// What comes before a character of this many columns: it ends the element that is open, if one is, and begins another,
/// if the character needs one.
fn between(is_wide: bool, width: Option<usize>) -> &'static str
    ensures { result.now ≡ model.between is_wide width }
{
    match (is_wide, width) {
        (false, Some(2)) => "<span class=\"wide\">",
        (true, Some(2)) => "</span><span class=\"wide\">",
        (true, Some(1)) => "</span>",
        _ => "",
    }
}

/// Whether an element is open after a character of this many columns.
fn is_wide_after(is_wide: bool, width: Option<usize>) -> bool
    ensures { result ≡ model.is_wide_after is_wide width }
{
    match width {
        Some(2) => true,
        Some(1) => false,
        _ => is_wide,
    }
}
