//! What draws tables, step by step.
ghost use Rattle.std.specs.Prelude.{◌≡◌, false, [], ◌∷◌, ◌++◌, slice_get, IfOk, OnOk};
ghost use Rattle.std.specs.Option.{option_copied};
ghost use Rattle.tbr_tables.specs.Drawn.{nothing_drawn, adding, call_at, entered, left, is_moved, given, columns_inside, empty_cells, before_cell, row_end, row_left, table_start, table_end};
ghost use Rattle.tbr_tables.specs.Drawn.{table_begun, table_left, cell_begun, drawn_after, drawing_of};
ghost use Rattle.tbr_tables.specs.Drawn as model;

use crate::drawn::{Call, Drawn, DrawnCell};
use crate::drawn_table::{DrawnLevel, OpenTable};
use crate::grid::Spot;
use crate::shape::Shape;
use crate::step::{Step, TableCell};
use std::alloc::Global;
use std::marker::Model;
use std::mem;
use tbr_tagged::{CellAlign, OutOfMemory};

/// What is drawn after some steps.
#[derive(Drop)]
struct Drawing {
    alloc: Global,
    calls: Vec<Drawn>,
    /// How many tables began.
    begun: usize,
    /// The innermost table that is open.
    table: OpenTable,
    /// The others, the innermost last.
    tables: Vec<OpenTable>,
    /// The innermost level.
    level: DrawnLevel,
    /// The others, the innermost last.
    levels: Vec<DrawnLevel>,
}

impl Model for Drawing {
    ghost use Rattle.std.specs.Prelude.{reverse};
    ghost use Rattle.tbr_tables.specs.Drawn.{Drawing};

    ghost Value = { Drawing };

    ghost view = { λ d. record {
      calls = d.calls.items;
      begun = d.begun;
      table = d.table;
      tables = reverse d.tables.items;
      level = d.level;
      levels = reverse d.levels.items;
    } };
}

/// The calls that draw these steps in this many columns, where their tables have these shapes. It refuses where memory
/// is refused, and where a size passes `usize`.
pub fn drawn(
    alloc: Global,
    shapes: &[Shape],
    room: usize,
    steps: &[Step],
) -> Result<Vec<Drawn>, OutOfMemory>
    ensures { IfOk result (λ calls. calls.items ≡ model.drawn shapes.now room steps.now) }
{
    let drawing = drawing_of(alloc, shapes, room, steps)?;
    Ok(drawing.into_calls())
}

/// What is drawn after these steps.
fn drawing_of(
    alloc: Global,
    shapes: &[Shape],
    room: usize,
    steps: &[Step],
) -> Result<Drawing, OutOfMemory>
    ensures { IfOk result (λ drawing. drawing ≡ drawing_of shapes.now room steps.now) }
{
    let mut drawing = Drawing::begun(alloc, room);
    for (at, step) in steps.iter().enumerate() {
        drawing.step(shapes, at, *step)?;
    }
    Ok(drawing)
}

/// Whether this alignment moves lines to the right.
fn is_moved(align: CellAlign) -> bool
    ensures { result ≡ is_moved align }
{
    match align {
        CellAlign::Left => false,
        CellAlign::Right | CellAlign::Centre => true,
    }
}

impl Drawing {
    /// A drawing of nothing, in this many columns.
    fn begun(alloc: Global, room: usize) -> Drawing
        ensures { result ≡ nothing_drawn room }
    {
        let level = DrawnLevel { room, moves: false };
        Drawing {
            alloc,
            calls: Vec::new(alloc),
            begun: 0,
            table: OpenTable::empty(alloc, level),
            tables: Vec::new(alloc),
            level,
            levels: Vec::new(alloc),
        }
    }

    /// The calls.
    fn into_calls(self) -> Vec<Drawn>
        ensures { result.items ≡ self.calls }
    {
        self.calls
    }

    /// Draws the step at a place.
    fn step(&mut self, shapes: &[Shape], at: usize, step: Step) -> Result<(), OutOfMemory>
        ensures { OnOk result (self.new ≡ drawn_after shapes.now self.old at step) }
    {
        match step {
            Step::Inside(prefix) => self.open_inside(at, prefix),
            Step::Sub(width) => self.enter_given(at, width, false),
            Step::GivenCell(width, align) => self.enter_given(at, width, is_moved(align)),
            Step::Append(_) | Step::EndGivenCell => self.leave_by(at, Call::Given),
            Step::Table => self.begin_table(at, shapes.get(self.begun)),
            Step::Cell(cell) => self.begin_cell(at, cell),
            Step::EndCell => self.leave_by(at, Call::EndCell),
            Step::Row => self.end_row(at),
            Step::EndTable => self.end_table(at),
            _ => self.add(at, Call::Given),
        }
    }

    /// Adds a call for a step.
    fn add(&mut self, at: usize, call: Call) -> Result<(), OutOfMemory>
        ensures { OnOk result (self.new ≡ adding (call_at at call ∷ []) self.old) }
    {
        self.calls.push(Drawn { step: at, call })?;
        Ok(())
    }

    /// Adds a call for a step, if it is asked for.
    fn add_if(&mut self, at: usize, is_asked: bool, call: Call) -> Result<(), OutOfMemory>
        ensures { OnOk result (self.new ≡ adding (model.call_if at is_asked call) self.old) }
    {
        if is_asked {
            self.add(at, call)?;
        }
        Ok(())
    }

    /// Opens a level of this many columns inside.
    fn enter(&mut self, room: usize, moves: bool) -> Result<(), OutOfMemory>
        ensures { OnOk result (self.new ≡ entered room moves self.old) }
    {
        let outside = mem::replace(&mut self.level, DrawnLevel { room, moves });
        self.levels.push(outside)?;
        Ok(())
    }

    /// Opens a level of this many columns inside, by a step of its own.
    fn enter_given(&mut self, at: usize, room: usize, moves: bool) -> Result<(), OutOfMemory>
        ensures { OnOk result (self.new ≡ entered room moves (given at self.old)) }
    {
        self.add(at, Call::Given)?;
        self.enter(room, moves)
    }

    /// Closes the innermost level.
    fn leave(&mut self)
        ensures { self.new ≡ left self.old }
    {
        if let Some(outside) = self.levels.pop() {
            self.level = outside;
        }
    }

    /// Closes the innermost level, after a call.
    fn leave_by(&mut self, at: usize, call: Call) -> Result<(), OutOfMemory>
        ensures { OnOk result (self.new ≡ left (adding (call_at at call ∷ []) self.old)) }
    {
        self.add(at, call)?;
        self.leave();
        Ok(())
    }

    /// Opens a block inside, as wide as a prefix leaves.
    fn open_inside(&mut self, at: usize, prefix: usize) -> Result<(), OutOfMemory>
        ensures { let columns = columns_inside prefix self.old.level.room in OnOk result
            (self.new ≡ entered columns false (adding (call_at at (Call.Sub columns) ∷ []) self.old)) }
    {
        let columns = self.level.room.saturating_sub(prefix).max(1);
        self.add(at, Call::Sub(columns))?;
        self.enter(columns, false)
    }

    /// Begins a table of this shape.
    fn begin_table(&mut self, at: usize, shape: Option<&Shape>) -> Result<(), OutOfMemory>
        ensures { OnOk result (self.new ≡ model.table_begun_of at (option_copied shape.entry) self.old) }
    {
        let table = OpenTable::of(self.alloc, self.level, shape)?;
        self.begun = self.begun.saturating_add(1);
        self.start_table(at, &table)?;
        let outside = mem::replace(&mut self.table, table);
        self.tables.push(outside)?;
        Ok(())
    }

    /// Adds the calls that begin a table.
    fn start_table(&mut self, at: usize, table: &OpenTable) -> Result<(), OutOfMemory>
        ensures { OnOk result (self.new ≡ adding (table_start at table.now) self.old) }
    {
        let width = table.width(0, table.columns());
        self.add(at, Call::StartTable)?;
        self.add_if(at, table.moves(), Call::Sub(width))?;
        self.add_if(at, table.columns() > 0, Call::Border(width))
    }

    /// Adds empty cells.
    fn add_empty(&mut self, at: usize, spots: &[Spot]) -> Result<(), OutOfMemory>
        ensures { OnOk result (self.new ≡ adding (empty_cells at self.old.table spots.now) self.old) }
    {
        for spot in spots {
            self.add_empty_cell(at, *spot)?;
        }
        Ok(())
    }

    /// Adds an empty cell.
    fn add_empty_cell(&mut self, at: usize, spot: Spot) -> Result<(), OutOfMemory>
        ensures { OnOk result (self.new ≡ adding (model.empty_cell at self.old.table spot) self.old) }
    {
        let cell = DrawnCell {
            width: self.table.width(spot.column, spot.end),
            rows: 1,
            align: CellAlign::Left,
        };
        self.add(at, Call::Cell(cell))?;
        self.add(at, Call::EndCell)
    }

    /// Adds the cells from above that are next, if cells are side by side.
    fn add_above(&mut self, at: usize) -> Result<(), OutOfMemory>
        ensures { OnOk result (self.new ≡ adding (before_cell at self.old.table) self.old) }
    {
        if !self.table.is_beside() {
            return Ok(());
        }
        let spots = Vec::from_slice(self.alloc, self.table.grid().next_from_above())?;
        self.add_empty(at, &spots)
    }

    /// Opens a cell of the innermost table.
    fn begin_cell(&mut self, at: usize, cell: TableCell) -> Result<(), OutOfMemory>
        ensures { OnOk result (self.new ≡ cell_begun at cell self.old) }
    {
        self.add_above(at)?;
        self.table.pass()?;
        let drawn = self.table.place(cell)?;
        self.add(at, Call::Cell(drawn))?;
        self.enter(drawn.width, is_moved(cell.align))
    }

    /// Adds the calls that end a row.
    fn finish_row(&mut self, at: usize) -> Result<(), OutOfMemory>
        ensures { OnOk result (self.new ≡ adding (row_end at self.old.table) self.old) }
    {
        if !self.table.is_beside() {
            let has_cell = self.table.has_cell();
            return self.add_if(at, has_cell, Call::VerticalRow);
        }
        let columns = self.table.columns();
        let rest = self.table.grid().rest(columns)?;
        self.add_empty(at, &rest)?;
        self.add(at, Call::Row)
    }

    /// Ends a row.
    fn end_row(&mut self, at: usize) -> Result<(), OutOfMemory>
        ensures { OnOk result
            (self.new ≡ record (adding (row_end at self.old.table) self.old) { table = row_left self.old.table }) }
    {
        self.finish_row(at)?;
        self.table.end_row()
    }

    /// Ends the innermost table, if one is open.
    fn end_table(&mut self, at: usize) -> Result<(), OutOfMemory>
        ensures { OnOk result (self.new ≡ table_left at self.old.tables self.old) }
    {
        let Some(outside) = self.tables.pop() else {
            return Ok(());
        };
        let table = mem::replace(&mut self.table, outside);
        self.add_if(at, table.moves(), Call::Append)?;
        self.add(at, Call::EndBlock)
    }
}
