//! Cells of tables that find their widths.
ghost use Rattle.std.specs.Prelude.{◌≡◌};
ghost use Rattle.tbr_statements.specs.TableCell as model;

use tbr_script::{Words, parse_size};
use tbr_tables::TableCell;
use tbr_tagged::CellAlign;

/// The cell that `auto` is, with the rows and the columns that it spans and its alignment, as far as they follow in this
/// order. There is exactly one space between two of them.
pub fn table_cell(writing: &str) -> Option<TableCell>
    ensures { result ≡ model.cell_read writing.now }
{
    let mut words = Words::of(writing);
    if words.next()? != "auto" {
        return None;
    }
    with_rows(words)
}

/// The cell by the words after `auto`.
fn with_rows(mut words: Words<'_>) -> Option<TableCell>
    ensures { result ≡ model.with_rows words.entry }
{
    let Some(word) = words.next() else {
        return Some(cell(1, 1, CellAlign::Left));
    };
    match parse_size(word) {
        Some(rows) => with_columns(rows, words),
        None => aligned(1, 1, word, words),
    }
}

/// The cell of so many rows by the words after these.
fn with_columns(rows: usize, mut words: Words<'_>) -> Option<TableCell>
    ensures { result ≡ model.with_columns rows words.entry }
{
    let Some(word) = words.next() else {
        return Some(cell(rows, 1, CellAlign::Left));
    };
    match parse_size(word) {
        Some(columns) => with_alignment(rows, columns, words),
        None => aligned(rows, 1, word, words),
    }
}

/// The cell of so many rows and columns by the words after these.
fn with_alignment(rows: usize, columns: usize, mut words: Words<'_>) -> Option<TableCell>
    ensures { result ≡ model.with_alignment rows columns words.entry }
{
    let Some(word) = words.next() else {
        return Some(cell(rows, columns, CellAlign::Left));
    };
    aligned(rows, columns, word, words)
}

/// The cell with an alignment that is the last word.
fn aligned(rows: usize, columns: usize, name: &str, mut words: Words<'_>) -> Option<TableCell>
    ensures { result ≡ model.aligned rows columns name.now words.entry }
{
    if words.next().is_some() {
        return None;
    }
    Some(cell(rows, columns, alignment(name)?))
}

/// The alignment of a name.
fn alignment(name: &str) -> Option<CellAlign>
    ensures { result ≡ model.alignment name.now }
{
    match name {
        "left" => Some(CellAlign::Left),
        "right" => Some(CellAlign::Right),
        "centre" => Some(CellAlign::Centre),
        _ => None,
    }
}

/// A cell of so many rows and columns.
fn cell(rows: usize, columns: usize, align: CellAlign) -> TableCell
    ensures { result ≡ model.cell rows columns align }
{
    TableCell {
        columns,
        rows,
        align,
    }
}
