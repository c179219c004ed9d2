//! Where the cells of a table are. Calls refuse where memory is refused, and where a column passes `usize`.
ghost use Rattle.std.specs.Prelude.{◌≡◌, ◌≤◌, ◌-◌, ◌++◌, length, IfOk, OnOk};
ghost use Rattle.tbr_tables.specs.Grid as model;
ghost use Rattle.tbr_tables.specs.Grid.{first_row, next_from_above, passed, spot_for, placed, last_of, rest_of_row, row_ended, singles, carried};

use std::alloc::{AllocError, Global};
use std::marker::Model;
use tbr_tagged::OutOfMemory;

/// The most columns that browsers let a cell span.
const MOST_COLUMNS: usize = 1000;

/// The place of a cell in a row.
#[derive(Clone, Copy, Debug, PartialEq, Eq)]
pub struct Spot {
    /// Its first column.
    pub column: usize,
    /// The first column after it.
    pub end: usize,
    /// How many rows it takes from this one on.
    pub rows: usize,
}

/// The open row of a table, with the cells that are placed so far.
#[derive(Drop)]
pub struct Grid {
    alloc: Global,
    /// The first column after the cells that are placed.
    column: usize,
    /// The cells that span this row from above, from left to right.
    above: Vec<Spot>,
    /// How many of them are placed.
    passed: usize,
    /// The cells that are placed, those from above among them, from left to right.
    row: Vec<Spot>,
}

impl Model for Grid {
    ghost use Rattle.std.specs.Prelude.{◌≤◌, drop, length};
    ghost use Rattle.tbr_tables.specs.Grid.{Grid};

    ghost Value = { Grid };

    ghost view = { λ g. record { column = g.column; above = drop g.passed g.above.items; row = g.row.items } };

    ghost invariant = { λ g. g.passed ≤ length g.above.items };
}

impl Grid {
    /// The first row, without cells.
    pub fn begun(alloc: Global) -> Grid
        ensures { result ≡ first_row }
    {
        Grid {
            alloc,
            column: 0,
            above: Vec::new(alloc),
            passed: 0,
            row: Vec::new(alloc),
        }
    }

    /// The cells from above that are next, adjacent to one another.
    pub fn next_from_above(&self) -> &[Spot]
        ensures { result.now ≡ next_from_above self.now }
    {
        let spots = &self.above[self.passed..];
        &spots[..adjacent(self.column, spots)]
    }

    /// Places those cells.
    pub fn pass(&mut self) -> Result<(), OutOfMemory>
        ensures { OnOk result (self.new ≡ passed self.old) }
    {
        let spots = &self.above[self.passed..];
        let count = adjacent(self.column, spots);
        let spots = &spots[..count];
        self.column = end_of(self.column, spots);
        self.row.extend_from_slice(spots)?;
        self.passed += count;
        Ok(())
    }

    /// The place that a cell of this many columns and rows would get next. It ends where a cell from above begins.
    pub fn spot(&self, columns: usize, rows: usize) -> Result<Spot, OutOfMemory>
        ensures { IfOk result (λ spot. spot ≡ spot_for columns rows self.now) }
    {
        let column = self.column;
        let Some(end) = column.checked_add(columns.max(1).min(MOST_COLUMNS)) else {
            return Err(OutOfMemory);
        };
        Ok(Spot {
            column,
            end: before_first(end, &self.above[self.passed..]),
            rows: rows.max(1),
        })
    }

    /// Places a cell.
    pub fn place(&mut self, spot: Spot) -> Result<(), OutOfMemory>
        ensures { OnOk result (self.new ≡ placed spot self.old) }
    {
        self.row.push(spot)?;
        self.column = spot.end;
        Ok(())
    }

    /// The cell that was placed last.
    pub fn last(&self) -> Option<Spot>
        ensures { result ≡ last_of self.now }
    {
        self.row.last().copied()
    }

    /// What fills the row of a table of this many columns: a cell in each column where none is, and the cells from
    /// above.
    pub fn rest(&self, count: usize) -> Result<Vec<Spot>, OutOfMemory>
        ensures { IfOk result (λ spots. spots.items ≡ rest_of_row count self.now) }
    {
        let mut spots = Vec::new(self.alloc);
        let column = fill_between(&mut spots, self.column, &self.above[self.passed..])?;
        fill(&mut spots, column, count)?;
        Ok(spots)
    }

    /// Ends the row. The cells that span more rows are above the next one.
    pub fn end_row(&mut self) -> Result<(), OutOfMemory>
        ensures { OnOk result (self.new ≡ row_ended self.old) }
    {
        let mut above = Vec::new(self.alloc);
        carry(&self.row, &mut above)?;
        carry(&self.above[self.passed..], &mut above)?;
        self.above = above;
        self.passed = 0;
        self.row.clear();
        self.column = 0;
        Ok(())
    }
}

/// How many of these cells follow one another from a column on.
fn adjacent(column: usize, spots: &[Spot]) -> usize
    ensures value { result ≡ model.adjacent column spots.now }
    ensures within { result ≤ length spots.now }
{
    let mut next = column;
    let mut count = 0;
    for spot in spots {
        if spot.column != next {
            return count;
        }
        next = spot.end;
        count += 1;
    }
    count
}

/// This column, or the first column of these cells if that is less.
fn before_first(end: usize, spots: &[Spot]) -> usize
    ensures { result ≡ model.before_first end spots.now }
{
    match spots.first() {
        Some(spot) => end.min(spot.column),
        None => end,
    }
}

/// The first column after these cells, or this one if there are none.
fn end_of(column: usize, spots: &[Spot]) -> usize
    ensures { result ≡ model.end_of column spots.now }
{
    let mut end = column;
    for spot in spots {
        end = spot.end;
    }
    end
}

/// Adds a cell in each of these columns.
fn fill(spots: &mut Vec<Spot>, from: usize, to: usize) -> Result<(), OutOfMemory>
    ensures { OnOk result (spots.new.items ≡ spots.old.items ++ singles from (to - from)) }
{
    for column in from..to {
        spots.push(Spot {
            column,
            end: column + 1,
            rows: 1,
        })?;
    }
    Ok(())
}

/// Adds these cells, and between them a cell in each column. It answers the first column after them.
fn fill_between(spots: &mut Vec<Spot>, from: usize, above: &[Spot]) -> Result<usize, OutOfMemory>
    ensures cells { OnOk result (spots.new.items ≡ spots.old.items ++ model.between from above.now) }
    ensures end { IfOk result (λ column. column ≡ model.end_of from above.now) }
{
    let mut column = from;
    for spot in above {
        fill(spots, column, spot.column)?;
        spots.push(*spot)?;
        column = spot.end;
    }
    Ok(column)
}

/// Adds what is left of these cells for the next row.
fn carry(spots: &[Spot], above: &mut Vec<Spot>) -> Result<(), OutOfMemory>
    ensures { OnOk result (above.new.items ≡ above.old.items ++ carried spots.now) }
{
    for spot in spots {
        if spot.rows > 1 {
            above.push(Spot {
                rows: spot.rows - 1,
                ..*spot
            })?;
        }
    }
    Ok(())
}
