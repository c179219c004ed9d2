//! What is recorded of a table.

use tbr_model::WhiteSpace;
use tbr_tagged::CellAlign;

/// A cell of a table that finds its widths.
#[derive(Clone, Copy, Debug, PartialEq, Eq)]
pub struct TableCell {
    /// The columns of the table that it spans, if no cell from above is in the way. As in browsers, 0 counts as 1, and
    /// more than 1,000 as 1,000.
    pub columns: usize,
    /// The rows that it spans, if the table has this many more. 0 counts as 1.
    pub rows: usize,
    /// Where its lines are in its columns.
    pub align: CellAlign,
}

/// A step of what is recorded from the beginning of a table to its end. Tables may be in cells of other tables.
#[derive(Clone, Copy, Debug, PartialEq, Eq)]
pub enum Step {
    /// A text, a link, or anything else that only changes lines by its text.
    Text,
    /// A mode of white space begins.
    BeginMode(WhiteSpace),
    /// The mode that began last ends.
    EndMode,
    /// The open line ends.
    EndLine,
    /// A border of this many columns.
    Border(usize),
    /// A block opens inside, as wide as a prefix of this many columns leaves.
    Inside(usize),
    /// A block of this many columns opens inside.
    Sub(usize),
    /// The block that is open closes. Its lines are added after prefixes of this many columns.
    Append(usize),
    /// A cell of this many columns opens, in a table that doesn't find its widths.
    GivenCell(usize, CellAlign),
    /// That cell closes, and waits.
    EndGivenCell,
    /// The cells that wait are added side by side.
    GivenRow,
    /// The cells that wait are added one below another.
    VerticalRow,
    /// A table begins.
    Table,
    /// A cell of the table opens.
    Cell(TableCell),
    /// That cell closes.
    EndCell,
    /// The row of the cells that were added ends.
    Row,
    /// The table ends.
    EndTable,
}
