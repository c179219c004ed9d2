//! What a line of a script for people asks for.
ghost use Rattle.std.specs.Prelude.{◌≡◌, IfOk, IfSome};
ghost use Rattle.std.specs.Option.{option_map};
ghost use Rattle.tbr_script.specs.Lines.{bytes_of};
ghost use Rattle.tbr_statements.specs.Statement as model;
ghost use Rattle.tbr_statements.specs.Statement.{IsSized, statement_of};
ghost use Rattle.tbr_statements.specs.Read.{item_number_read, argument_read, block_read, statement_read};

use crate::block::Block;
use crate::table_cell::table_cell;
use std::alloc::{AllocError, Global};
use tbr_commands::{Command, split_at_space};
use tbr_script::{parse_number, parse_size};
use tbr_tables::TableCell;

/// What a line after the first command asks for.
#[derive(Debug, Drop)]
pub enum Statement {
    /// A request to `blockrender`.
    Command(Command),
    /// A block opens.
    Open(Block),
    /// The block closes that this command ends.
    Close(&'static str),
    /// A table begins that finds its widths.
    Table,
    /// A cell of such a table opens.
    Cell(TableCell),
    /// Such a table ends.
    EndTable,
}

impl Statement {
    /// What a line asks for, without its newline. `Ok(None)` if it isn't known. It refuses only where memory is
    /// refused.
    pub fn parse(alloc: Global, line: &str) -> Result<Option<Statement>, AllocError>
        ensures read { IfOk result (λ found. option_map statement_of found ≡ statement_read line.now) }
        ensures sized { IfOk result (λ found. IfSome found IsSized) }
    {
        // No command begins so, and such lines come often.
        if line.starts_with("cell auto") {
            return Ok(of_line(line));
        }
        match Command::parse(alloc, line)? {
            Some(command) => Ok(Some(Statement::Command(command))),
            None => Ok(of_line(line)),
        }
    }
}

/// Whether a line asks for nothing: it is empty, or a comment. A comment may have bytes that aren't UTF-8.
pub fn is_skipped(line: Result<&str, &[u8]>) -> bool
    ensures { result ≡ model.is_skipped (bytes_of line.entry) }
{
    let bytes = match line {
        Ok(text) => text.as_bytes(),
        Err(bytes) => bytes,
    };
    bytes.is_empty() || bytes.starts_with(b"#")
}

/// What a line asks for that is no command of `blockrender`.
fn of_line(line: &str) -> Option<Statement>
    ensures read { option_map statement_of result ≡ block_read line.now }
    ensures sized { IfSome result IsSized }
{
    match line {
        "quote" => Some(Statement::Open(Block::Quote)),
        "item" => Some(Statement::Open(Block::Item)),
        "endquote" => Some(Statement::Close("endquote")),
        "enditem" => Some(Statement::Close("enditem")),
        "endordered" => Some(Statement::Close("endordered")),
        "endheading" => Some(Statement::Close("endheading")),
        "table auto" => Some(Statement::Table),
        "endtable" => Some(Statement::EndTable),
        _ => with_argument(line),
    }
}

/// The same of a word and what is after it.
fn with_argument(line: &str) -> Option<Statement>
    ensures { option_map statement_of result ≡ argument_read line.now }
{
    let (word, argument) = split_at_space(line)?;
    match word {
        "ordered" => {
            let number = item_number(argument)?;
            Some(Statement::Open(Block::Ordered(number)))
        }
        "heading" => {
            let level = parse_size(argument)?;
            Some(Statement::Open(Block::Heading(level)))
        }
        "cell" => {
            let cell = table_cell(argument)?;
            Some(Statement::Cell(cell))
        }
        _ => None,
    }
}

/// The number of an item by its digits.
fn item_number(digits: &str) -> Option<i64>
    ensures { result ≡ item_number_read digits.now }
{
    i64::try_from(parse_number(digits)?).ok()
}
