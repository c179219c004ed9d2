//! What is known of a level that is measured.

ghost use Rattle.std.specs.Prelude.{◌≡◌};
ghost use Rattle.tbr_tables.specs.Level.{new_level, with_cell, exactly, cells_added};

use crate::ruler::Ruler;
use column_widths::Room;

/// What is known of a level.
#[derive(Clone, Copy, Debug, PartialEq, Eq)]
pub struct Level {
    /// How wide its lines are.
    pub ruler: Ruler,
    /// How many modes of white space had begun before it.
    pub modes: usize,
    /// The columns of the cells of given widths that wait, side by side with lines between them.
    pub row: usize,
    /// The columns of the widest of them.
    pub widest: usize,
}

impl Level {
    /// A level whose lines take at most `limit` columns, and those of text at most `wrap`, where `modes` modes have
    /// begun.
    pub fn new(limit: usize, wrap: usize, modes: usize) -> Level
        ensures { result ≡ new_level limit wrap modes }
    {
        Level {
            ruler: Ruler::new(limit, wrap),
            modes,
            row: 0,
            widest: 0,
        }
    }

    /// Notes that a cell of this many columns waits.
    pub fn add_cell(&mut self, columns: usize)
        ensures { self.new ≡ with_cell columns self.old }
    {
        let line = self.row.min(1);
        self.row = self.row.saturating_add(line).saturating_add(columns);
        self.widest = self.widest.max(columns);
    }

    /// Adds the cells that wait as lines of this many columns.
    fn add_cells(&mut self, columns: usize)
        ensures { self.new ≡ cells_added columns self.old }
    {
        self.ruler.add_lines(exactly(columns));
        self.row = 0;
        self.widest = 0;
    }

    /// Adds the cells that wait, side by side.
    pub fn add_row(&mut self)
        ensures { self.new ≡ cells_added self.old.row self.old }
    {
        self.add_cells(self.row);
    }

    /// Adds the cells that wait, one below another.
    pub fn add_vertical_row(&mut self)
        ensures { self.new ≡ cells_added self.old.widest self.old }
    {
        self.add_cells(self.widest);
    }
}

/// The room of lines that need exactly this many columns.
pub fn exactly(columns: usize) -> Room
    ensures { result ≡ exactly columns }
{
    Room {
        least: columns,
        greatest: columns,
    }
}
