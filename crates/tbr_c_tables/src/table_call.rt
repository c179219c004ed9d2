//! Calls of tables.

use tbr_tables::TableCell;

/// A call of a table that finds its widths.
#[derive(Clone, Copy, Debug, PartialEq, Eq)]
pub enum TableCall {
    /// A table begins.
    StartTable,
    /// A cell of it opens.
    StartCell(TableCell),
    /// That cell closes.
    EndCell,
    /// The row of the cells that came ends.
    EndRow,
    /// The table ends.
    EndTable,
    /// A block opens inside a cell, as wide as a prefix of this many columns leaves.
    StartInside(usize),
}
