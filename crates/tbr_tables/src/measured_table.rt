//! A table that is measured. Calls refuse where memory is refused, and where a column passes `usize`.
ghost use Rattle.std.specs.Prelude.{◌≡◌, OnOk};
ghost use Rattle.tbr_tables.specs.Measured.{new_table, cell_placed, need_at, cell_needs, table_row_ended};
ghost use Rattle.tbr_tables.specs.Grid.{last_of};

use crate::grid::{Grid, Spot};
use crate::shape::Shape;
use crate::step::TableCell;
use column_widths::{CellNeed, Room};
use std::alloc::Global;
use tbr_tagged::OutOfMemory;

/// A table that is open.
#[derive(Drop)]
pub struct MeasuredTable {
    /// How many tables began before it.
    pub place: usize,
    /// What is known of it.
    pub shape: Shape,
    /// Its open row.
    pub grid: Grid,
}

impl MeasuredTable {
    /// A table that begins after `place` others.
    pub fn begun(alloc: Global, place: usize) -> MeasuredTable
        ensures { result ≡ new_table place }
    {
        MeasuredTable {
            place,
            shape: Shape::empty(alloc),
            grid: Grid::begun(alloc),
        }
    }

    /// Places a cell. It refuses where memory is refused, and where a column passes `usize`.
    pub fn place(&mut self, cell: TableCell) -> Result<(), OutOfMemory>
        ensures { OnOk result (self.new ≡ cell_placed cell self.old) }
    {
        self.grid.pass()?;
        let spot = self.grid.spot(cell.columns, cell.rows)?;
        self.grid.place(spot)
    }

    /// Notes that the cell that was placed last asks for this much, if there is one.
    pub fn need(&mut self, room: Room) -> Result<(), OutOfMemory>
        ensures { OnOk result (self.new ≡ cell_needs room (last_of self.old.grid) self.old) }
    {
        match self.grid.last() {
            Some(spot) => self.shape.need(need_at(spot, room)),
            None => Ok(()),
        }
    }

    /// Ends the open row.
    pub fn end_row(&mut self) -> Result<(), OutOfMemory>
        ensures { OnOk result (self.new ≡ table_row_ended self.old) }
    {
        self.grid.end_row()?;
        self.shape.rows = self.shape.rows.saturating_add(1);
        Ok(())
    }
}

/// What a cell at a place asks of its columns.
fn need_at(spot: Spot, room: Room) -> CellNeed
    ensures { result ≡ need_at spot room }
{
    CellNeed {
        column: spot.column,
        span: spot.end.saturating_sub(spot.column).max(1),
        least: room.least,
        greatest: room.greatest,
    }
}
