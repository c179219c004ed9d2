//! The cells that overhang from the rows before.
ghost use Rattle.std.specs.Prelude.{◌≡◌, ◌==◌, ℕ, Bool, List, [], length, map, true, Some, IfOk};
ghost use Rattle.std.specs.List.{list_any};
ghost use Rattle.tbr_rows.specs.Fitting.{fits_with};
ghost use Rattle.tbr_rows.specs.Cells.{AreSideBySide, AreApart, has_lines, row_fits, spot_of, spots_from, with_hanging};

use crate::columns::Columns;
use crate::fitting::Fitting;
use crate::line_set::LineSet;
use crate::seating::seated;
use std::alloc::Global;
use std::collections::LinkedList;
use std::fmt;
use std::marker::Model;
use tbr_tagged::OutOfMemory;
use tbr_tags::Tag;

/// The cells that overhang from the rows before, in order. This is what has to be kept between two rows. A contract
/// sees their list.
#[derive(Debug, Drop)]
pub struct Overhang<T: Eq> {
    cells: LinkedList<LineSet<T>>,
}

impl<T: Eq> Model for Overhang<T> {
    ghost use Rattle.std.specs.Prelude.{List};
    ghost use Rattle.tbr_rows.specs.declared.line_set.LineSet.{LineSet};

    ghost Value = { List (LineSet T) };

    ghost use Rattle.tbr_rows.specs.Cells.{AreApart};

    ghost view = { λ o. o.cells };

    ghost invariant = { λ o. AreApart 0 o.cells };
}

/// Shows each cell on a line of its own.
impl<T: Eq> fmt::Display for Overhang<T> {
    fn fmt<W: fmt::Write>(&self, f: &mut fmt::Formatter<W>) -> fmt::Result {
        for cell in &self.cells {
            writeln!(f, "{cell}")?;
        }
        Ok(())
    }
}

impl<T: Tag> Overhang<T> {
    /// No cells. It takes no memory.
    pub fn new(alloc: Global) -> Overhang<T>
        ensures { result ≡ [] }
    {
        Overhang {
            cells: LinkedList::new(alloc),
        }
    }

    /// Whether there is no cell. It takes no memory.
    pub fn is_empty(&self) -> bool
        ensures { result ≡ (length self.now == 0) }
    {
        self.cells.is_empty()
    }

    /// Whether a cell has lines that it still has to show. They are lost if no more row is added. It takes no memory.
    pub fn has_lines(&self) -> bool
        ensures { result ≡ list_any has_lines self.now }
    {
        self.cells.iter().any(|cell| !cell.lines.is_empty())
    }

    /// A test whether a row has a place for each of these cells. The row's cells are added one by one. It takes no
    /// memory.
    pub fn fitting(&self) -> Fitting<'_, T>
        ensures { (own : List (ℕ × Bool)) → fits_with result own ≡ row_fits self.now (spots_from 0 own) }
    {
        Fitting::of(self.cells.iter())
    }

    /// These cells.
    pub(crate) fn of(cells: LinkedList<LineSet<T>>) -> Overhang<T>
        requires { AreApart 0 cells }
        ensures { result ≡ cells }
    {
        Overhang { cells }
    }

    /// The cells of a row: its own, and these in their places among them.
    pub(crate) fn seat(
        self,
        alloc: Global,
        columns: Columns<T>,
    ) -> Result<Vec<LineSet<T>>, OutOfMemory>
        requires { row_fits self (map spot_of columns) ≡ true }
        ensures cells { IfOk result (λ cells. with_hanging 0 self columns ≡ Some cells.items) }
        ensures side_by_side { IfOk result (λ cells. AreSideBySide 0 cells.items) }
    {
        seated(alloc, columns.cells, self.cells)
    }
}
