//! The calls that draw tables.

use tbr_tagged::CellAlign;

/// A cell to open.
#[derive(Clone, Copy, Debug, PartialEq, Eq)]
pub struct DrawnCell {
    /// Its columns of text, at least 1.
    pub width: usize,
    /// The rows that it takes, at least 1.
    pub rows: usize,
    /// Where its lines are in its columns.
    pub align: CellAlign,
}

/// A call that draws.
#[derive(Clone, Copy, Debug, PartialEq, Eq)]
pub enum Call {
    /// The step itself.
    Given,
    /// A table begins, as a block.
    StartTable,
    /// A border of this many columns.
    Border(usize),
    /// A block of this many columns opens inside.
    Sub(usize),
    /// It closes, and its lines are added after empty prefixes.
    Append,
    /// A cell opens.
    Cell(DrawnCell),
    /// It closes, and waits.
    EndCell,
    /// The cells that wait are added side by side. Borders at their tops and bottoms are merged with those of the row.
    Row,
    /// The cells that wait are added one below another.
    VerticalRow,
    /// The block ends.
    EndBlock,
}

/// A call for a step.
#[derive(Clone, Copy, Debug, PartialEq, Eq)]
pub struct Drawn {
    /// The place of the step, counted from 0.
    pub step: usize,
    /// The call.
    pub call: Call,
}
