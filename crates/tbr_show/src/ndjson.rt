//! Lines as JSON, with one object for each line. Calls that write refuse where memory is refused, and part of the line
//! may then have been written.
ghost use Rattle.std.specs.Prelude.{◌≡◌, ◌++◌, ◌<◌, [], chars, flat_map, OnOk};
ghost use Rattle.std.specs.Char.{digit_char};
ghost use Rattle.tbr_tagged.specs.View.{chars_of, element_of};
ghost use Rattle.tbr_tagged.specs.Walks.{piece_of};
ghost use Rattle.tbr_show.specs.Ndjson as model;

use crate::text::{push_ascii, push_char};
use json::Writer;
use tbr_decor::{Colour, RichAnnotation};
use tbr_model::CharWidth;
use tbr_tagged::{OutOfMemory, TaggedLine, TaggedLineElement, TaggedString};

/// Appends a line, which may be a border, as an object, with a newline. The object has the columns of the line, and its
/// pieces and markers in order. For each piece it has text, columns and annotations, the outermost first.
///
/// It refuses where memory is refused, and where the line's columns pass `usize`. Part of the line may then have been
/// appended.
pub fn push_line<W: CharWidth>(
    text: &mut String,
    line: &TaggedLine<Vec<RichAnnotation>>,
    is_border: bool,
) -> Result<(), OutOfMemory>
    ensures { OnOk result (chars_of text.new ≡ chars_of text.old ++ model.line W.columns is_border line.now) }
{
    let mut writer = Writer::new(Vec::new(*text.allocator()));
    write_line::<W>(&mut writer, line, is_border)?;
    push_written(text, writer)?;
    push_ascii(text, "\n")
}

/// Appends what was written, with U+007F to U+009F as escapes. If memory is refused, part of it may have been appended.
pub fn push_written(text: &mut String, writer: Writer) -> Result<(), OutOfMemory>
    requires { writer.before ≡ [] }
    ensures { OnOk result (chars_of text.new ≡ chars_of text.old ++ model.written writer.tokens) }
{
    let bytes = writer.into_inner();
    push_escaped(text, str::from_utf8(bytes.as_slice()).unwrap())
}

/// Writes a line.
fn write_line<W: CharWidth>(
    writer: &mut Writer,
    line: &TaggedLine<Vec<RichAnnotation>>,
    is_border: bool,
) -> Result<(), OutOfMemory>
    ensures tokens { OnOk result
        (writer.new.tokens ≡ writer.old.tokens ++ model.line_tokens W.columns is_border line.now) }
    ensures before { OnOk result (writer.new.before ≡ writer.old.before) }
{
    begin_line(writer, is_border, line.width::<W>()?)?;
    write_elements::<W>(writer, line)?;
    end_line(writer)
}

/// Writes what comes before the pieces of a line of this many columns, which may be a border.
pub fn begin_line(writer: &mut Writer, is_border: bool, columns: usize) -> Result<(), OutOfMemory>
    ensures tokens { OnOk result
        (writer.new.tokens ≡ writer.old.tokens ++ model.begin_tokens is_border columns) }
    ensures before { OnOk result (writer.new.before ≡ writer.old.before) }
{
    writer.begin_object()?;
    writer.key("border")?;
    writer.boolean(is_border)?;
    write_columns(writer, columns)?;
    writer.key("pieces")?;
    writer.begin_array()?;
    Ok(())
}

/// Writes what comes after the pieces of a line.
pub fn end_line(writer: &mut Writer) -> Result<(), OutOfMemory>
    ensures tokens { OnOk result (writer.new.tokens ≡ writer.old.tokens ++ model.end_tokens) }
    ensures before { OnOk result (writer.new.before ≡ writer.old.before) }
{
    writer.end_array()?;
    writer.end_object()?;
    Ok(())
}

/// Writes the elements of a line.
fn write_elements<W: CharWidth>(
    writer: &mut Writer,
    line: &TaggedLine<Vec<RichAnnotation>>,
) -> Result<(), OutOfMemory>
    ensures tokens { OnOk result
        (writer.new.tokens ≡ writer.old.tokens ++ flat_map (model.element_tokens W.columns) line.now) }
    ensures before { OnOk result (writer.new.before ≡ writer.old.before) }
{
    for element in line.iter() {
        write_element::<W>(writer, element)?;
    }
    Ok(())
}

/// Writes the columns that something takes.
fn write_columns(writer: &mut Writer, columns: usize) -> Result<(), OutOfMemory>
    ensures tokens { OnOk result (writer.new.tokens ≡ writer.old.tokens ++ model.columns_tokens columns) }
    ensures before { OnOk result (writer.new.before ≡ writer.old.before) }
{
    writer.key("columns")?;
    writer.u64(columns as u64)?;
    Ok(())
}

/// Writes an element of a line.
fn write_element<W: CharWidth>(
    writer: &mut Writer,
    element: &TaggedLineElement<Vec<RichAnnotation>>,
) -> Result<(), OutOfMemory>
    ensures tokens { OnOk result
        (writer.new.tokens ≡ writer.old.tokens ++ model.element_tokens W.columns (element_of element.now)) }
    ensures before { OnOk result (writer.new.before ≡ writer.old.before) }
{
    match element {
        TaggedLineElement::Str(piece) => write_tagged::<W>(writer, piece),
        TaggedLineElement::FragmentStart(name) => write_marker(writer, name.as_str()),
    }
}

/// Writes a piece of a line.
fn write_tagged<W: CharWidth>(
    writer: &mut Writer,
    piece: &TaggedString<Vec<RichAnnotation>>,
) -> Result<(), OutOfMemory>
    ensures tokens { OnOk result
        (writer.new.tokens ≡ writer.old.tokens ++ model.element_tokens W.columns (piece_of piece.now)) }
    ensures before { OnOk result (writer.new.before ≡ writer.old.before) }
{
    let columns = piece.width::<W>()?;
    write_piece(writer, piece.s.as_str(), columns, piece.tag.as_slice())
}

/// Writes a piece of this many columns under annotations.
pub fn write_piece(
    writer: &mut Writer,
    piece: &str,
    columns: usize,
    annotations: &[RichAnnotation],
) -> Result<(), OutOfMemory>
    ensures tokens { OnOk result
        (writer.new.tokens ≡ writer.old.tokens ++ model.piece_tokens piece.now columns annotations.now) }
    ensures before { OnOk result (writer.new.before ≡ writer.old.before) }
{
    writer.begin_object()?;
    writer.key("text")?;
    writer.string(piece)?;
    write_columns(writer, columns)?;
    writer.key("annotations")?;
    writer.begin_array()?;
    write_annotations(writer, annotations)?;
    writer.end_array()?;
    writer.end_object()?;
    Ok(())
}

/// Writes annotations.
fn write_annotations(writer: &mut Writer, annotations: &[RichAnnotation]) -> Result<(), OutOfMemory>
    ensures tokens { OnOk result
        (writer.new.tokens ≡ writer.old.tokens ++ flat_map model.annotation_tokens annotations.now) }
    ensures before { OnOk result (writer.new.before ≡ writer.old.before) }
{
    for annotation in annotations {
        write_annotation(writer, annotation)?;
    }
    Ok(())
}

/// Writes a marker.
pub fn write_marker(writer: &mut Writer, name: &str) -> Result<(), OutOfMemory>
    ensures tokens { OnOk result (writer.new.tokens ≡ writer.old.tokens ++ model.marker_tokens name.now) }
    ensures before { OnOk result (writer.new.before ≡ writer.old.before) }
{
    writer.begin_object()?;
    writer.key("marker")?;
    writer.string(name)?;
    writer.end_object()?;
    Ok(())
}

/// Writes an annotation.
fn write_annotation(writer: &mut Writer, annotation: &RichAnnotation) -> Result<(), OutOfMemory>
    ensures tokens { OnOk result (writer.new.tokens ≡ writer.old.tokens ++ model.annotation_tokens annotation.now) }
    ensures before { OnOk result (writer.new.before ≡ writer.old.before) }
{
    writer.begin_object()?;
    writer.key("kind")?;
    writer.string(kind(annotation))?;
    write_details(writer, annotation)?;
    writer.end_object()?;
    Ok(())
}

/// The name of an annotation's kind.
fn kind(annotation: &RichAnnotation) -> &'static str
    ensures { result.now ≡ model.kind annotation.now }
{
    match annotation {
        RichAnnotation::Default => "default",
        RichAnnotation::Link(_) => "link",
        RichAnnotation::Image(_) => "image",
        RichAnnotation::Emphasis => "emphasis",
        RichAnnotation::Strong => "strong",
        RichAnnotation::Strikeout => "strikeout",
        RichAnnotation::Code => "code",
        RichAnnotation::Preformat(_) => "preformatted",
        RichAnnotation::Colour(_) => "colour",
        RichAnnotation::BgColour(_) => "background",
    }
}

/// Writes what an annotation has apart from its kind.
fn write_details(writer: &mut Writer, annotation: &RichAnnotation) -> Result<(), OutOfMemory>
    ensures tokens { OnOk result (writer.new.tokens ≡ writer.old.tokens ++ model.details annotation.now) }
    ensures before { OnOk result (writer.new.before ≡ writer.old.before) }
{
    match annotation {
        RichAnnotation::Link(target) => write_text(writer, "target", target.as_str()),
        RichAnnotation::Image(source) => write_text(writer, "source", source.as_str()),
        RichAnnotation::Preformat(is_continued) => {
            writer.key("continued")?;
            writer.boolean(*is_continued)?;
            Ok(())
        }
        RichAnnotation::Colour(colour) | RichAnnotation::BgColour(colour) => {
            write_colour(writer, *colour)
        }
        _ => Ok(()),
    }
}

/// Writes a text under a key.
fn write_text(writer: &mut Writer, key: &str, text: &str) -> Result<(), OutOfMemory>
    ensures tokens { OnOk result (writer.new.tokens ≡ writer.old.tokens ++ model.text_tokens key.now text.now) }
    ensures before { OnOk result (writer.new.before ≡ writer.old.before) }
{
    writer.key(key)?;
    writer.string(text)?;
    Ok(())
}

/// Writes the parts of a colour.
fn write_colour(writer: &mut Writer, colour: Colour) -> Result<(), OutOfMemory>
    ensures tokens { OnOk result (writer.new.tokens ≡ writer.old.tokens ++ model.colour_tokens colour) }
    ensures before { OnOk result (writer.new.before ≡ writer.old.before) }
{
    writer.key("rgb")?;
    writer.begin_array()?;
    writer.u64(u64::from(colour.r))?;
    writer.u64(u64::from(colour.g))?;
    writer.u64(u64::from(colour.b))?;
    writer.end_array()?;
    Ok(())
}

/// Appends JSON, with U+007F to U+009F as escapes. It may have no other control characters.
fn push_escaped(text: &mut String, more: &str) -> Result<(), OutOfMemory>
    ensures { OnOk result (chars_of text.new ≡ chars_of text.old ++ flat_map model.escaped (chars more.now)) }
{
    for c in more.chars() {
        push_character(text, c)?;
    }
    Ok(())
}

/// Appends a character of JSON, or its escape.
fn push_character(text: &mut String, c: char) -> Result<(), OutOfMemory>
    ensures { OnOk result (chars_of text.new ≡ chars_of text.old ++ model.escaped c) }
{
    if !matches!(c, '\u{7f}'..='\u{9f}') {
        return push_char(text, c);
    }
    push_ascii(text, "\\u00")?;
    push_char(text, digit(c as u32 / 16))?;
    push_char(text, digit(c as u32 % 16))
}

/// The hexadecimal digit of a value below 16.
fn digit(value: u32) -> char
    requires { value < 16 }
    ensures { result ≡ digit_char value }
{
    char::from_digit(value, 16).unwrap()
}
