//! The columns of a table, and what its cells ask of them.
ghost use Rattle.std.specs.Prelude.{◌≡◌, ◌≤◌, ◌<◌, ◌^◌, ◌-◌, ◌*◌, max, [], ◌∷◌, ◌++◌, ◌↔◌, List, All, length, option_map, IfOk, OnOk, OnErr, IsTrue, SomeIff};
ghost use Rattle.column_widths.specs.Table.{Table, IsWithin};
ghost use Rattle.column_widths.specs.Needs.{needs_of, after_cells, after_cell, is_of};
ghost use Rattle.column_widths.specs.Widths.{widths, lines_of, needed_room};

use crate::fill::fill;
use crate::need::{Bound, Need};
use crate::room::{Room, room_of};
use crate::share::widths_beside_lines;
use std::alloc::{AllocError, Global};
use std::marker::Model;

/// What a cell asks of the columns that it spans.
#[derive(Clone, Copy, Debug, PartialEq, Eq)]
pub struct CellNeed {
    /// Its first column, from 0.
    pub column: usize,
    /// How many columns it spans.
    pub span: usize,
    /// The columns of text that its longest word takes.
    pub least: usize,
    /// The columns of text that its widest line takes.
    pub greatest: usize,
}

/// What a column that no cell spans needs: one column of text.
const UNSPANNED: Need = Need {
    least: 1,
    greatest: 1,
};

/// The columns of a table, and what its cells ask of them.
///
/// A contract sees how many columns there are, what a line between two takes, and the cells in order.
#[derive(Drop)]
pub struct Columns {
    count: usize,
    line: usize,
    cells: Vec<CellNeed>,
}

impl Model for Columns {
    ghost use Rattle.std.specs.Prelude.{◌≤◌, ◌+◌, All};
    ghost use Rattle.column_widths.specs.Table.{Table, IsWithin};

    ghost Value = { Table };

    ghost view = { λ a. record { columns = a.count; line = a.line; cells = a.cells.items } };

    ghost invariant = { λ a. All (IsWithin a.count) a.cells.items };
}

impl Columns {
    /// This many columns without cells, with a line of `line` columns of text between two of them: 1, or 0 where there
    /// are no lines. It takes no memory.
    pub fn new(alloc: Global, count: usize, line: usize) -> Columns
        ensures { result ≡ record { columns = count; line = line; cells = [] } }
    {
        Columns {
            count,
            line,
            cells: Vec::new(alloc),
        }
    }

    /// How many columns there are.
    pub fn count(&self) -> usize
        ensures { result ≡ self.now.columns }
    {
        self.count
    }

    /// Whether a cell spans at least one column, and only columns that exist.
    pub fn can_hold(&self, cell: CellNeed) -> bool
        ensures { IsTrue result ↔ IsWithin self.now.columns cell }
    {
        cell.span >= 1 && cell.span <= self.count && cell.column <= self.count - cell.span
    }

    /// Adds a cell. `can_hold` tells whether it may be added. If memory runs out, nothing changes.
    pub fn need(&mut self, cell: CellNeed) -> Result<(), AllocError>
        requires { IsWithin self.old.columns cell }
        ensures ok { OnOk result (self.new ≡ record self.old { cells = self.old.cells ++ cell ∷ [] }) }
        ensures err { OnErr result (self.new ≡ self.old) }
    {
        self.cells.push(cell)?;
        Ok(())
    }

    /// Adds columns until there are this many. No cell spans the new ones yet.
    pub fn widen(&mut self, count: usize)
        ensures { self.new ≡ record self.old { columns = max self.old.columns count } }
    {
        self.count = self.count.max(count);
    }

    /// The room that the columns need at least, and the most that they can use, lines between columns included. `None`
    /// where one of the two passes `usize`.
    ///
    /// It refuses only where memory runs out.
    pub fn needed_room(&self) -> Result<Option<Room>, AllocError>
        ensures { IfOk result (λ answer. answer ≡ needed_room self.now) }
    {
        let Some(lines) = self.lines() else {
            return Ok(None);
        };
        let alloc = *self.cells.allocator();
        let needs = self.needs(alloc)?;
        Ok(room_of(lines, &needs))
    }

    /// A width for each column in this much room, lines between columns included, or `None` where the least widths
    /// don't fit. The time grows with the cells, with the columns that they span, and with the square of the columns.
    ///
    /// It refuses only where memory runs out.
    pub fn widths(&self, room: usize) -> Result<Option<Vec<usize>>, AllocError>
        ensures { IfOk result (λ answer. option_map (λ w. w.items) answer ≡ widths self.now room) }
    {
        let Some(room) = self.room_beside_lines(room) else {
            return Ok(None);
        };
        let alloc = *self.cells.allocator();
        let needs = self.needs(alloc)?;
        widths_beside_lines(alloc, room, &needs)
    }

    /// What each column needs.
    fn needs(&self, alloc: Global) -> Result<Vec<Need>, AllocError>
        ensures { IfOk result (λ ns. ns.items ≡ needs_of self.now) }
    {
        let cells: &[CellNeed] = &self.cells;
        let mut needs = vec![in alloc; UNSPANNED; self.count]?;
        fill_each(self.line, cells, true, &mut needs);
        fill_each(self.line, cells, false, &mut needs);
        Ok(needs)
    }

    /// What is left of this much room beside the lines, or `None` where they don't fit.
    fn room_beside_lines(&self, room: usize) -> Option<usize>
        ensures { SomeIff result (lines_of self.now ≤ room) (room - lines_of self.now) }
    {
        let lines = self.lines()?;
        room.checked_sub(lines)
    }

    /// The columns of text that the lines between the columns take, or `None` where these pass `usize`.
    fn lines(&self) -> Option<usize>
        ensures { SomeIff result (lines_of self.now < 2 ^ 64) (lines_of self.now) }
    {
        self.line.checked_mul(self.count.saturating_sub(1))
    }
}

/// Whether a cell spans exactly one column, if `alone` is set, and otherwise whether it spans several.
fn is_of(alone: bool, cell: CellNeed) -> bool
    ensures { result ≡ is_of alone cell }
{
    (cell.span == 1) == alone
}

/// Fills the columns that a cell spans.
fn fill_cell(line: usize, cell: CellNeed, needs: &mut [Need])
    requires { IsWithin (length needs.old) cell }
    ensures { needs.new ≡ after_cell line needs.old cell }
{
    let columns = &mut needs[cell.column..cell.column + cell.span];
    fill(Bound::Least, line, cell.least, columns);
    fill(Bound::Greatest, line, cell.greatest, columns);
}

/// Fills the columns of each cell that spans one column, if `alone` is set, and otherwise of each that spans several.
fn fill_each(line: usize, cells: &[CellNeed], alone: bool, needs: &mut [Need])
    requires { All (IsWithin (length needs.old)) cells.now }
    ensures { needs.new ≡ after_cells line cells.now alone needs.old }
{
    for cell in cells {
        if is_of(alone, *cell) {
            fill_cell(line, *cell, needs);
        }
    }
}
