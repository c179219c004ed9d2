//! What is known of a table when it is drawn.
ghost use Rattle.std.specs.Prelude.{◌≡◌, ◌≤◌, OnOk};
ghost use Rattle.tbr_tables.specs.Measured.{no_shape, needing};

use column_widths::{CellNeed, Columns};
use std::alloc::Global;
use tbr_tagged::OutOfMemory;

/// The columns of a line between two cells.
const LINE: usize = 1;

/// What is known of a table.
#[derive(Drop)]
pub struct Shape {
    /// How many rows it has.
    pub rows: usize,
    /// What its cells ask of its columns.
    pub columns: Columns,
}

impl Shape {
    /// A table without rows.
    pub fn empty(alloc: Global) -> Shape
        ensures { result ≡ no_shape }
    {
        Shape {
            rows: 0,
            columns: Columns::new(alloc, 0, LINE),
        }
    }

    /// Notes what a cell asks for. There are then at least as many columns as it spans. It refuses where memory is
    /// refused, and where a column passes `usize`.
    pub fn need(&mut self, cell: CellNeed) -> Result<(), OutOfMemory>
        requires { 1 ≤ cell.span }
        ensures { OnOk result (self.new ≡ needing cell self.old) }
    {
        let Some(end) = cell.column.checked_add(cell.span) else {
            return Err(OutOfMemory);
        };
        self.columns.widen(end);
        self.columns.need(cell)?;
        Ok(())
    }
}
