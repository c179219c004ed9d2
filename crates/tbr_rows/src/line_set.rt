//! The cells of a row.
ghost use Rattle.std.specs.Prelude.{◌≡◌, IfOk};
ghost use Rattle.tbr_rows.specs.Cells as model;

use crate::cell_lines::CellLines;
use std::alloc::Global;
use std::fmt;
use tbr_tagged::OutOfMemory;
use tbr_tags::Tag;

/// A cell of a row: the column at which it begins, its columns, how many rows it still spans, and the lines that it
/// still has to show.
#[derive(Debug, Drop)]
pub struct LineSet<T: Eq> {
    pub(crate) place: usize,
    pub(crate) width: usize,
    pub(crate) span: usize,
    pub(crate) lines: CellLines<T>,
}

impl<T: Tag> LineSet<T> {
    /// A cell without lines, in one row.
    pub(crate) fn empty(alloc: Global, place: usize, width: usize) -> LineSet<T>
        ensures { result ≡ model.empty_cell place width }
    {
        LineSet {
            place,
            width,
            span: 1,
            lines: CellLines::none(alloc),
        }
    }

    /// The column after the cell. It refuses where that passes `usize`.
    pub(crate) fn end(&self) -> Result<usize, OutOfMemory>
        ensures { IfOk result (λ end. end ≡ model.end_of self.now) }
    {
        self.place.checked_add(self.width).ok_or(OutOfMemory)
    }

    /// How many lines the cell asks of its row: all of its lines, or, if it spans more rows, this row's share of them,
    /// rounded down.
    pub(crate) fn height(&self) -> usize
        ensures { result ≡ model.cell_height self.now }
    {
        if self.span <= 1 {
            self.lines.len()
        } else {
            self.lines.len() / self.span
        }
    }
}

/// Shows where the cell is and how many rows it spans, and then each of its lines between `<` and `>`.
impl<T: Eq> fmt::Display for LineSet<T> {
    fn fmt<W: fmt::Write>(&self, f: &mut fmt::Formatter<W>) -> fmt::Result {
        write!(
            f,
            "{}+{} over {}:{}",
            self.place, self.width, self.span, self.lines
        )
    }
}

/// How many columns cells side by side take. It refuses where that passes `usize`.
pub(crate) fn row_width<T: Tag>(cells: &[LineSet<T>]) -> Result<usize, OutOfMemory>
    ensures { IfOk result (λ width. width ≡ model.row_width cells.now) }
{
    match cells.last() {
        Some(cell) => cell.end(),
        None => Ok(0),
    }
}

/// The place of a cell after these. It refuses where that passes `usize`.
pub(crate) fn next_place<T: Tag>(cells: &[LineSet<T>]) -> Result<usize, OutOfMemory>
    ensures { IfOk result (λ place. place ≡ model.next_place cells.now) }
{
    if cells.is_empty() {
        return Ok(0);
    }
    let Some(place) = row_width(cells)?.checked_add(1) else {
        return Err(OutOfMemory);
    };
    Ok(place)
}
