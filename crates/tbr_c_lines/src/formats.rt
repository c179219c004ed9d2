//! A line in the formats of the program `blockview`.
ghost use Rattle.std.specs.Prelude.{◌≡◌, ◌++◌, chars, flat_map, OnOk, IfOk};
ghost use Rattle.tbr_tagged.specs.View.{chars_of};
ghost use Rattle.tbr_show.specs.Ndjson as tokens;
ghost use Rattle.tbr_c_lines.specs.Columns as wide;
ghost use Rattle.tbr_c_lines.specs.Formats as shown;
ghost use Rattle.tbr_c_lines.specs.Line.{what_of};

use crate::fault::Fault;
use crate::line::{Line, Piece, What};
use json::Writer;
use tbr_decor::RichAnnotation;
use tbr_show::{ansi, html, ndjson};
use tbr_tagged::{OutOfMemory, UnicodeColumns, text_width};

/// How lines are shown.
#[derive(Clone, Copy, PartialEq, Eq)]
pub enum Format {
    /// For a terminal.
    Ansi,
    /// What is in a `<pre>`.
    Html,
    /// One object for each line.
    Json,
}

impl Format {
    /// The format of a number. It answers `BadArgument` where there is none.
    pub fn named(number: u32) -> Result<Format, Fault>
        ensures { result ≡ shown.format_named number }
    {
        match number {
            0 => Ok(Format::Ansi),
            1 => Ok(Format::Html),
            2 => Ok(Format::Json),
            _ => Err(Fault::BadArgument),
        }
    }
}

/// Appends a line in a format, without a newline. Where it is `bare`, no annotation is shown.
///
/// It refuses where memory is refused, and where the columns of a piece pass `usize`; part of the line may then have
/// been appended.
pub fn push_line(
    text: &mut String,
    line: &Line,
    format: Format,
    is_bare: bool,
) -> Result<(), OutOfMemory>
    ensures { OnOk result (chars_of text.new ≡ chars_of text.old ++ shown.line_as is_bare format line.now) }
{
    match format {
        Format::Ansi => push_ansi(text, line.pieces(), is_bare),
        Format::Html => push_html(text, line.pieces(), is_bare),
        Format::Json => push_json(text, line, is_bare),
    }
}

/// Appends pieces for a terminal.
fn push_ansi(text: &mut String, pieces: &[Piece], is_bare: bool) -> Result<(), OutOfMemory>
    ensures { OnOk result
        (chars_of text.new ≡ chars_of text.old ++ flat_map (λ p. shown.ansi_of is_bare p.what) pieces.now) }
{
    for piece in pieces {
        push_ansi_piece(text, piece.what(), is_bare)?;
    }
    Ok(())
}

/// Appends a piece for a terminal.
fn push_ansi_piece(text: &mut String, what: &What, is_bare: bool) -> Result<(), OutOfMemory>
    ensures { OnOk result
        (chars_of text.new ≡ chars_of text.old ++ shown.ansi_of is_bare (what_of what.now)) }
{
    match what {
        What::Text {
            text: piece,
            annotations,
        } => ansi::push_piece(text, piece.as_str(), told(annotations, is_bare)),
        What::Marker(_) => Ok(()),
    }
}

/// Appends pieces as HTML.
fn push_html(text: &mut String, pieces: &[Piece], is_bare: bool) -> Result<(), OutOfMemory>
    ensures { OnOk result
        (chars_of text.new ≡ chars_of text.old ++ flat_map (λ p. shown.html_of is_bare p.what) pieces.now) }
{
    for piece in pieces {
        push_html_piece(text, piece.what(), is_bare)?;
    }
    Ok(())
}

/// Appends a piece as HTML.
fn push_html_piece(text: &mut String, what: &What, is_bare: bool) -> Result<(), OutOfMemory>
    ensures { OnOk result
        (chars_of text.new ≡ chars_of text.old ++ shown.html_of is_bare (what_of what.now)) }
{
    match what {
        What::Text {
            text: piece,
            annotations,
        } => {
            html::push_piece::<UnicodeColumns>(text, piece.as_str(), told(annotations, is_bare))
        }
        What::Marker(name) => html::push_marker(text, name.as_str()),
    }
}

/// Appends a line as an object of JSON.
fn push_json(text: &mut String, line: &Line, is_bare: bool) -> Result<(), OutOfMemory>
    ensures { OnOk result (chars_of text.new ≡ chars_of text.old ++ tokens.written (tokens.begin_tokens
        line.now.is_border line.now.columns ++ flat_map (λ p. shown.tokens_of is_bare p.what) line.now.pieces
        ++ tokens.end_tokens)) }
{
    let mut writer = Writer::new(Vec::new(*text.allocator()));
    let size = line.size();
    ndjson::begin_line(&mut writer, size.is_border, size.columns)?;
    write_pieces(&mut writer, line.pieces(), is_bare)?;
    ndjson::end_line(&mut writer)?;
    ndjson::push_written(text, writer)
}

/// Writes pieces as JSON.
fn write_pieces(writer: &mut Writer, pieces: &[Piece], is_bare: bool) -> Result<(), OutOfMemory>
    ensures tokens { OnOk result
        (writer.new.tokens ≡ writer.old.tokens ++ flat_map (λ p. shown.tokens_of is_bare p.what) pieces.now) }
    ensures before { OnOk result (writer.new.before ≡ writer.old.before) }
{
    for piece in pieces {
        write_piece(writer, piece.what(), is_bare)?;
    }
    Ok(())
}

/// Writes a piece as JSON.
fn write_piece(writer: &mut Writer, what: &What, is_bare: bool) -> Result<(), OutOfMemory>
    ensures tokens { OnOk result
        (writer.new.tokens ≡ writer.old.tokens ++ shown.tokens_of is_bare (what_of what.now)) }
    ensures before { OnOk result (writer.new.before ≡ writer.old.before) }
{
    match what {
        What::Text { text, annotations } => {
            let columns = columns_of(text.as_str())?;
            ndjson::write_piece(writer, text.as_str(), columns, told(annotations, is_bare))
        }
        What::Marker(name) => ndjson::write_marker(writer, name.as_str()),
    }
}

/// The columns of a text. It refuses where they pass `usize`.
fn columns_of(text: &str) -> Result<usize, OutOfMemory>
    ensures { IfOk result (λ n. n ≡ wide.columns_of text.now) }
{
    text_width::<UnicodeColumns>(text)
}

/// The annotations that are shown.
fn told(annotations: &Vec<RichAnnotation>, is_bare: bool) -> &[RichAnnotation]
    ensures { result.now ≡ shown.told is_bare annotations.now.items }
{
    if is_bare {
        return &annotations.as_slice()[..0];
    }
    annotations.as_slice()
}
