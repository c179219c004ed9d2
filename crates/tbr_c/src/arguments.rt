//! The commands that arguments of calls stand for. A text is refused with `NotUtf8` if it isn't UTF-8, and with
//! `OutOfMemory` if memory for its copy is refused.
ghost use Rattle.std.specs.Prelude.{◌≡◌, ℕ, List, string_bytes};
ghost use Rattle.tbr_commands.specs.Command as asked;
ghost use Rattle.tbr_commands.specs.Request as request;
ghost use Rattle.tbr_c.specs.Arguments.{Reads, ReadsCommand, text_read, with_text, with_texts, mode_asked, sub_asked, cell_asked, table_cell_asked};
ghost use Rattle.tbr_c.specs.Arguments as read;

use std::alloc::Global;
use std::str;
use tbr_c_lines::Fault;
use tbr_c_tables::TableCall;
use tbr_commands::{Beginning, Command, NewCell, Request};
use tbr_model::WhiteSpace;
use tbr_script::TextPair;
use tbr_tables::TableCell;
use tbr_tagged::CellAlign;

/// A copy of a text.
#[tactic(auto, using(crate::proofs::Texts::read_text, crate::proofs::Texts::read_no_text))]
fn copied(alloc: Global, bytes: &[u8]) -> Result<String, Fault>
    ensures { Reads string_bytes (text_read bytes.now) result }
{
    let Ok(text) = str::from_utf8(bytes) else {
        return Err(Fault::NotUtf8);
    };
    match String::from_str(alloc, text) {
        Ok(copy) => Ok(copy),
        Err(_) => Err(Fault::OutOfMemory),
    }
}

/// Adds a text.
pub fn text(alloc: Global, bytes: &[u8]) -> Result<Command, Fault>
    ensures { ReadsCommand (with_text bytes.now (λ text. asked.ask (request.text text))) result }
{
    Ok(Command::Ask(Request::Text(copied(alloc, bytes)?)))
}

/// Adds a marker.
pub fn marker(alloc: Global, name: &[u8]) -> Result<Command, Fault>
    ensures { ReadsCommand (with_text name.now (λ text. asked.ask (request.fragment text))) result }
{
    Ok(Command::Ask(Request::Fragment(copied(alloc, name)?)))
}

/// Begins a link.
pub fn link(alloc: Global, target: &[u8]) -> Result<Command, Fault>
    ensures { ReadsCommand (with_text target.now asked.link) result }
{
    Ok(Command::Link(copied(alloc, target)?))
}

/// Adds an image.
pub fn image(alloc: Global, source: &[u8], title: &[u8]) -> Result<Command, Fault>
    ensures { let asks = λ (first second : List ℕ). asked.ask (request.image first second) in
        ReadsCommand (with_texts source.now title.now asks) result }
{
    Ok(Command::Ask(Request::Image(TextPair {
        first: copied(alloc, source)?,
        second: copied(alloc, title)?,
    })))
}

/// Closes a level, whose lines are added after prefixes.
pub fn append(alloc: Global, first: &[u8], others: &[u8]) -> Result<Command, Fault>
    ensures { ReadsCommand (with_texts first.now others.now asked.append) result }
{
    Ok(Command::Append(TextPair {
        first: copied(alloc, first)?,
        second: copied(alloc, others)?,
    }))
}

/// Begins the mode of white space of this number. It answers `BadArgument` where there is none.
pub fn mode(number: u32) -> Result<Command, Fault>
    ensures { ReadsCommand (mode_asked number) result }
{
    let mode = mode_named(number)?;
    Ok(Command::Ask(Request::Begin(Beginning::Mode(mode))))
}

pub fn mode_named(number: u32) -> Result<WhiteSpace, Fault>
    ensures { result ≡ read.mode_named number }
{
    match number {
        0 => Ok(WhiteSpace::Normal),
        1 => Ok(WhiteSpace::Pre),
        2 => Ok(WhiteSpace::PreWrap),
        _ => Err(Fault::BadArgument),
    }
}

/// Opens a level. It answers `BadWidth` at 0 columns.
pub fn sub(width: usize) -> Result<Command, Fault>
    ensures { ReadsCommand (sub_asked width) result }
{
    if width == 0 {
        return Err(Fault::BadWidth);
    }
    Ok(Command::Sub(width))
}

/// Opens a cell, with the alignment of this number. It answers `BadWidth` at 0 columns, and `BadArgument` at 0 rows, or
/// where there is no such alignment.
pub fn cell(width: usize, span: usize, alignment: u32) -> Result<Command, Fault>
    ensures { ReadsCommand (cell_asked width span alignment) result }
{
    let align = alignment_named(alignment)?;
    if width == 0 {
        return Err(Fault::BadWidth);
    }
    if span == 0 {
        return Err(Fault::BadArgument);
    }
    Ok(Command::Cell(NewCell { width, span, align }))
}

/// Opens a cell of a table that finds its widths, with the alignment of this number.
pub fn table_cell(columns: usize, rows: usize, alignment: u32) -> Result<TableCall, Fault>
    ensures { result ≡ table_cell_asked columns rows alignment }
{
    let align = alignment_named(alignment)?;
    Ok(TableCall::StartCell(TableCell {
        columns,
        rows,
        align,
    }))
}

fn alignment_named(number: u32) -> Result<CellAlign, Fault>
    ensures { result ≡ read.alignment_named number }
{
    match number {
        0 => Ok(CellAlign::Left),
        1 => Ok(CellAlign::Right),
        2 => Ok(CellAlign::Centre),
        _ => Err(Fault::BadArgument),
    }
}
