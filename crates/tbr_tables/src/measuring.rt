//! What the columns of tables need, measured step by step.
ghost use Rattle.std.specs.Prelude.{◌≡◌, chars, length, OnOk, slice_set, IfOk};
ghost use Rattle.column_widths.specs.Widths.{needed_room};
ghost use Rattle.tbr_tables.specs.Ruler.{room_of};
ghost use Rattle.tbr_tables.specs.Measured.{nothing_measured, mode_of, mode_ended, entered, left, lines_come, beside, cell_placed, cell_needs, table_begun, table_left, room_or_none, measured_after};
ghost use Rattle.tbr_tables.specs.Measured as model;
ghost use Rattle.tbr_tables.specs.Numbers.{any_width};
ghost use Rattle.tbr_tables.specs.Level.{with_cell};
ghost use Rattle.tbr_tables.specs.Grid.{last_of};

use crate::level::{Level, exactly};
use crate::measured_table::MeasuredTable;
use crate::shape::Shape;
use crate::step::{Step, TableCell};
use column_widths::Room;
use std::alloc::Global;
use std::marker::Model;
use std::mem;
use tbr_model::{CharWidth, WhiteSpace};
use tbr_tagged::OutOfMemory;

/// What is known after some steps.
#[derive(Drop)]
pub struct Measuring {
    alloc: Global,
    /// The tables that began, in order, each with what was known at its end.
    shapes: Vec<Shape>,
    /// The innermost table that is open.
    table: MeasuredTable,
    /// The others, the innermost last.
    tables: Vec<MeasuredTable>,
    /// The innermost level.
    level: Level,
    /// The others, the innermost last.
    levels: Vec<Level>,
    /// The modes of white space that have begun in all levels.
    modes: Vec<WhiteSpace>,
    /// The most columns that a line of text takes.
    wrap: usize,
}

impl Model for Measuring {
    ghost use Rattle.std.specs.Prelude.{reverse};
    ghost use Rattle.tbr_tables.specs.Measured.{Measured};

    ghost Value = { Measured };

    ghost view = { λ m. record {
      shapes = m.shapes.items;
      table = m.table;
      tables = reverse m.tables.items;
      level = m.level;
      levels = reverse m.levels.items;
      modes = m.modes.items;
      wrap = m.wrap;
    } };
}

impl Measuring {
    /// No step yet. Lines of text take at most `wrap` columns.
    pub fn begun(alloc: Global, wrap: usize) -> Measuring
        ensures { result ≡ nothing_measured wrap }
    {
        Measuring {
            alloc,
            shapes: Vec::new(alloc),
            table: MeasuredTable::begun(alloc, 0),
            tables: Vec::new(alloc),
            level: Level::new(usize::MAX, wrap, 0),
            levels: Vec::new(alloc),
            modes: Vec::new(alloc),
            wrap,
        }
    }

    /// The tables that began, in order.
    pub fn shapes(&self) -> &[Shape]
        ensures { result.now ≡ self.now.shapes }
    {
        &self.shapes
    }

    /// The columns of the longest word and of the widest line of the innermost level.
    pub fn room(&self) -> Room
        ensures { result ≡ room_of self.now.level.ruler }
    {
        self.level.ruler.room()
    }

    /// Adds a step, with its text. It refuses where memory is refused, and where a size passes `usize`.
    pub fn add<W: CharWidth>(&mut self, step: Step, text: &str) -> Result<(), OutOfMemory>
        ensures { OnOk result (self.new ≡ measured_after W.columns self.old step (chars text.now)) }
    {
        match step {
            Step::Text => self.add_text::<W>(text),
            Step::BeginMode(mode) => self.modes.push(mode)?,
            Step::EndMode => self.end_mode(),
            Step::EndLine => self.level.ruler.end_line(),
            Step::Border(width) => self.add_lines(exactly(width)),
            Step::GivenRow => self.level.add_row(),
            Step::VerticalRow => self.level.add_vertical_row(),
            Step::EndGivenCell => self.end_given_cell(),
            Step::Append(prefix) => self.append(prefix),
            Step::Inside(_) => self.enter(self.level.ruler.limit)?,
            Step::Sub(width) => self.enter(width.min(self.level.ruler.limit))?,
            Step::GivenCell(width, _) => self.enter(width)?,
            Step::Table => self.begin_table()?,
            Step::Cell(cell) => self.begin_cell(cell)?,
            Step::EndCell => self.end_cell()?,
            Step::Row => self.table.end_row()?,
            Step::EndTable => self.end_table()?,
        }
        Ok(())
    }

    /// The mode of white space that text has now.
    fn mode(&self) -> WhiteSpace
        ensures { result ≡ mode_of self.now }
    {
        if self.level.modes < self.modes.len() {
            self.modes.last().copied().unwrap_or(WhiteSpace::Normal)
        } else {
            WhiteSpace::Normal
        }
    }

    /// Ends the mode, if it began in the innermost level.
    fn end_mode(&mut self)
        ensures { self.new ≡ mode_ended self.old }
    {
        if self.level.modes < self.modes.len() {
            let _ = self.modes.pop();
        }
    }

    /// Adds a text.
    fn add_text<W: CharWidth>(&mut self, text: &str)
        ensures { self.new ≡ measured_after W.columns self.old Step.Text (chars text.now) }
    {
        let mode = self.mode();
        self.level.ruler.add_text::<W>(mode, text);
    }

    /// Adds lines that take this room.
    fn add_lines(&mut self, room: Room)
        ensures { self.new ≡ lines_come room self.old }
    {
        self.level.ruler.add_lines(room);
    }

    /// Opens a level inside, whose lines take at most `limit` columns.
    fn enter(&mut self, limit: usize) -> Result<(), OutOfMemory>
        ensures { OnOk result (self.new ≡ entered limit self.old) }
    {
        let inside = Level::new(limit, self.wrap, self.modes.len());
        let outside = mem::replace(&mut self.level, inside);
        self.levels.push(outside)?;
        Ok(())
    }

    /// Closes the innermost level, if one is open inside the outermost, and answers what was known of it.
    fn leave(&mut self) -> Level
        ensures level { result ≡ self.old.level }
        ensures after { self.new ≡ left self.old }
    {
        let inside = self.level;
        self.modes.truncate(inside.modes);
        if let Some(outside) = self.levels.pop() {
            self.level = outside;
        }
        inside
    }

    /// Closes the innermost level, and adds its lines after prefixes of this many columns.
    fn append(&mut self, prefix: usize)
        ensures { self.new ≡ lines_come (beside prefix (room_of self.old.level.ruler)) (left self.old) }
    {
        let inside = self.leave();
        self.add_lines(beside(prefix, inside.ruler.room()));
    }

    /// Closes a cell of a given width, which then waits.
    fn end_given_cell(&mut self)
        ensures { let outside = left self.old in
            self.new ≡ record outside { level = with_cell self.old.level.ruler.limit outside.level } }
    {
        let cell = self.leave();
        self.level.add_cell(cell.ruler.limit);
    }

    /// Begins a table.
    fn begin_table(&mut self) -> Result<(), OutOfMemory>
        ensures { OnOk result (self.new ≡ table_begun self.old) }
    {
        let table = MeasuredTable::begun(self.alloc, self.shapes.len());
        self.shapes.push(Shape::empty(self.alloc))?;
        let outside = mem::replace(&mut self.table, table);
        self.tables.push(outside)?;
        Ok(())
    }

    /// Opens a cell of the innermost table.
    fn begin_cell(&mut self, cell: TableCell) -> Result<(), OutOfMemory>
        ensures { OnOk result
            (self.new ≡ entered any_width (record self.old { table = cell_placed cell self.old.table })) }
    {
        self.table.place(cell)?;
        self.enter(usize::MAX)
    }

    /// Closes the cell.
    fn end_cell(&mut self) -> Result<(), OutOfMemory>
        ensures { let outside = left self.old in OnOk result (self.new ≡ record outside {
          table = cell_needs (room_of self.old.level.ruler) (last_of self.old.table.grid) self.old.table;
        }) }
    {
        let inside = self.leave();
        self.table.need(inside.ruler.room())
    }

    /// Ends the innermost table, if one is open.
    fn end_table(&mut self) -> Result<(), OutOfMemory>
        ensures { let room = room_or_none (needed_room self.old.table.shape.columns) in
            OnOk result (self.new ≡ table_left room self.old.tables self.old) }
    {
        let Some(room) = self.table.shape.columns.needed_room()? else {
            return Err(OutOfMemory);
        };
        self.leave_table(room);
        Ok(())
    }

    /// Ends the innermost table, if one is open. It takes this room.
    fn leave_table(&mut self, room: Room)
        ensures { self.new ≡ table_left room self.old.tables self.old }
    {
        let Some(outside) = self.tables.pop() else {
            return;
        };
        let table = mem::replace(&mut self.table, outside);
        self.add_lines(room);
        let MeasuredTable { place, shape, .. } = table;
        set_shape(&mut self.shapes, place, shape);
    }
}

/// The room of lines after a prefix of this many columns.
fn beside(prefix: usize, room: Room) -> Room
    ensures { result ≡ beside prefix room }
{
    Room {
        least: room.least.saturating_add(prefix),
        greatest: room.greatest.saturating_add(prefix),
    }
}

/// Sets what is known of the table at a place, if there is one.
fn set_shape(shapes: &mut Vec<Shape>, place: usize, shape: Shape)
    ensures { shapes.new.items ≡ slice_set shapes.old.items place shape }
{
    if let Some(slot) = shapes.get_mut(place) {
        *slot = shape;
    }
}
