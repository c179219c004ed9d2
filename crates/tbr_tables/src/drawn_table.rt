//! A table that is drawn. Calls refuse where memory is refused, and where a column passes `usize`.
ghost use Rattle.std.specs.Prelude.{◌≡◌, ◌+◌, is_some, option_map, Some, IfOk, OnOk, IfSome};
ghost use Rattle.std.specs.Option.{option_copied};
ghost use Rattle.tbr_tables.specs.Grid.{spot_for};
ghost use Rattle.tbr_tables.specs.Edges.{edges_from, width_between, cell_width};
ghost use Rattle.tbr_tables.specs.Drawn.{no_table, table_of, width_in, with_cell, cell_at, above_passed, row_left};

use crate::drawn::DrawnCell;
use crate::grid::Grid;
use crate::shape::Shape;
use crate::step::TableCell;
use std::alloc::Global;
use std::marker::Model;
use tbr_tagged::OutOfMemory;

/// A level that is open.
#[derive(Clone, Copy, Debug, PartialEq, Eq)]
pub struct DrawnLevel {
    /// Its columns.
    pub room: usize,
    /// Whether its lines are moved to the right.
    pub moves: bool,
}

/// A table that is open.
#[derive(Drop)]
pub struct OpenTable {
    /// Where each column begins, and where one after the last would begin. `None` if the cells of a row are one below
    /// another.
    edges: Option<Vec<usize>>,
    level: DrawnLevel,
    columns: usize,
    /// How many of its rows are left, the open one included.
    rows: usize,
    /// Whether a cell began in the open row.
    has_cell: bool,
    grid: Grid,
}

impl Model for OpenTable {
    ghost use Rattle.std.specs.Prelude.{option_map};
    ghost use Rattle.tbr_tables.specs.Drawn.{DrawnTable};

    ghost Value = { DrawnTable };

    ghost view = { λ t. record {
      edges = option_map (λ edges. edges.items) t.edges;
      level = t.level;
      columns = t.columns;
      rows = t.rows;
      has_cell = t.has_cell;
      grid = t.grid;
    } };
}

impl OpenTable {
    /// A table without rows in a level.
    pub fn empty(alloc: Global, level: DrawnLevel) -> OpenTable
        ensures { result ≡ no_table level }
    {
        OpenTable {
            edges: None,
            level,
            columns: 0,
            rows: 0,
            has_cell: false,
            grid: Grid::begun(alloc),
        }
    }

    /// A table of a shape in a level, or one without rows. It refuses where memory is refused, and where an edge passes
    /// `usize`.
    pub fn of(
        alloc: Global,
        level: DrawnLevel,
        shape: Option<&Shape>,
    ) -> Result<OpenTable, OutOfMemory>
        ensures { IfOk result (λ table. table ≡ table_of level (option_copied shape.entry)) }
    {
        match shape {
            Some(shape) => OpenTable::of_shape(alloc, level, shape),
            None => Ok(OpenTable::empty(alloc, level)),
        }
    }

    /// A table of a shape in a level.
    fn of_shape(alloc: Global, level: DrawnLevel, shape: &Shape) -> Result<OpenTable, OutOfMemory>
        ensures { IfOk result (λ table. table ≡ table_of level (Some shape.now)) }
    {
        let widths = shape.columns.widths(level.room)?;
        let edges = edges(alloc, widths)?;
        Ok(OpenTable {
            edges,
            level,
            columns: shape.columns.count(),
            rows: shape.rows,
            has_cell: false,
            grid: Grid::begun(alloc),
        })
    }

    /// Whether its level is moved to the right.
    pub fn moves(&self) -> bool
        ensures { result ≡ self.now.level.moves }
    {
        self.level.moves
    }

    /// How many columns it has.
    pub fn columns(&self) -> usize
        ensures { result ≡ self.now.columns }
    {
        self.columns
    }

    /// Whether a cell began in the open row.
    pub fn has_cell(&self) -> bool
        ensures { result ≡ self.now.has_cell }
    {
        self.has_cell
    }

    /// Its open row.
    pub fn grid(&self) -> &Grid
        ensures { result.now ≡ self.now.grid }
    {
        &self.grid
    }

    /// Whether its cells are side by side.
    pub fn is_beside(&self) -> bool
        ensures { result ≡ is_some self.now.edges }
    {
        self.edges.is_some()
    }

    /// The columns of text from one of its columns up to another, at least 1.
    pub fn width(&self, column: usize, end: usize) -> usize
        ensures { result ≡ width_in self.now column end }
    {
        match &self.edges {
            Some(edges) => width_between(edges, column, end).max(1),
            None => self.level.room.max(1),
        }
    }

    /// Passes the cells from above that are next.
    pub fn pass(&mut self) -> Result<(), OutOfMemory>
        ensures { OnOk result (self.new ≡ above_passed self.old) }
    {
        self.grid.pass()
    }

    /// Places a cell, and answers how it is drawn.
    pub fn place(&mut self, cell: TableCell) -> Result<DrawnCell, OutOfMemory>
        ensures table { OnOk result (self.new ≡ with_cell cell self.old) }
        ensures cell { IfOk result (λ drawn.
            drawn ≡ cell_at cell (spot_for cell.columns cell.rows self.old.grid) self.old) }
    {
        let spot = self.grid.spot(cell.columns, cell.rows)?;
        let drawn = DrawnCell {
            width: self.width(spot.column, spot.end),
            rows: spot.rows.min(self.rows).max(1),
            align: cell.align,
        };
        self.grid.place(spot)?;
        self.has_cell = true;
        Ok(drawn)
    }

    /// Ends the open row.
    pub fn end_row(&mut self) -> Result<(), OutOfMemory>
        ensures { OnOk result (self.new ≡ row_left self.old) }
    {
        self.grid.end_row()?;
        self.rows = self.rows.saturating_sub(1);
        self.has_cell = false;
        Ok(())
    }
}

/// Where columns of these widths begin, if there are widths.
fn edges(alloc: Global, widths: Option<Vec<usize>>) -> Result<Option<Vec<usize>>, OutOfMemory>
    ensures { IfOk result (λ found. option_map (λ edges. edges.items) found
        ≡ option_map (edges_from 0) (option_map (λ w. w.items) widths)) }
{
    match widths {
        Some(widths) => Ok(Some(edges_of(alloc, &widths)?)),
        None => Ok(None),
    }
}

/// Where columns of these widths begin, with a line between two, and where one after the last would begin.
fn edges_of(alloc: Global, widths: &[usize]) -> Result<Vec<usize>, OutOfMemory>
    ensures { IfOk result (λ edges. edges.items ≡ edges_from 0 widths.now) }
{
    let mut edges = Vec::with_capacity(alloc, widths.len())?;
    let mut edge = 0usize;
    for width in widths {
        edges.push(edge)?;
        let Some(next) = edge_after(edge, *width) else {
            return Err(OutOfMemory);
        };
        edge = next;
    }
    edges.push(edge)?;
    Ok(edges)
}

/// The edge after a column and the line after it, or `None` where it passes `usize`.
fn edge_after(edge: usize, width: usize) -> Option<usize>
    ensures { IfSome result (λ next. next ≡ edge + width + 1) }
{
    edge.checked_add(width)?.checked_add(1)
}

/// The columns of text from one column up to another.
fn width_between(edges: &[usize], column: usize, end: usize) -> usize
    ensures { result ≡ width_between edges.now column end }
{
    let from = edges.get(column).copied().unwrap_or(0);
    let to = edges.get(end).copied().unwrap_or(0);
    to.saturating_sub(from).saturating_sub(1)
}
