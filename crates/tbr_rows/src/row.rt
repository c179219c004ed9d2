//! Rows.
ghost use Rattle.std.specs.Prelude.{◌≡◌, map, true, Some, IfOk, OnOk};
ghost use Rattle.std.specs.List.{AllByRecursion as Each};
ghost use Rattle.tbr_tagged.specs.Elements.{IsMerged};
ghost use Rattle.tbr_rows.specs.Cells.{row_fits, spot_of};
ghost use Rattle.tbr_rows.specs.Rows as model;
ghost use Rattle.tbr_border.specs.Border.{SameBorder};
ghost use Rattle.tbr_rows.specs.Rows.{SeenRow, row_of, IsLaidOut};

use crate::borders::{join, merge_first, merge_last, whole};
use crate::column::{Column, height};
use crate::columns::Columns;
use crate::gaps::hang;
use crate::line_set::{LineSet, row_width};
use crate::overhang::Overhang;
use crate::texts::lines_of;
use std::alloc::Global;
use tbr_border::BorderHoriz;
use tbr_model::CharWidth;
use tbr_tagged::{OutOfMemory, TaggedLine};
use tbr_tags::Tag;

/// How a row is drawn.
#[derive(Clone, Copy, PartialEq, Eq, Debug)]
pub struct RowStyle {
    /// Whether `│` separates cells and a border is below the row. Otherwise spaces separate them.
    pub draws_borders: bool,
    /// Whether the first and the last borders of cells are merged into the borders above and below the row.
    pub collapses: bool,
}

impl RowStyle {
    /// What separates two cells.
    fn separator(self) -> char
        ensures { result ≡ model.separator_in self }
    {
        if self.draws_borders { '│' } else { ' ' }
    }

    /// A border, if borders are drawn.
    fn drawn<T: Drop>(self, border: BorderHoriz<T>) -> Option<BorderHoriz<T>>
        ensures { result ≡ model.drawn_in self border }
    {
        if self.draws_borders {
            Some(border)
        } else {
            None
        }
    }
}

/// A row that is laid out.
#[derive(Debug, Drop)]
pub struct Row<T: Eq> {
    /// The border above it, joined and merged.
    pub above: Option<BorderHoriz<T>>,
    /// Its lines.
    pub lines: Vec<TaggedLine<T>>,
    /// The border below it, where borders are drawn.
    pub next: Option<BorderHoriz<T>>,
    /// The cells that overhang into the rows after it.
    pub overhang: Overhang<T>,
}

impl<T: Tag> Columns<T> {
    /// Lays out a row of these cells and of those that overhang, under a border, if there is one. The row must fit, as
    /// [`fits`](Columns::fits) tells. What is drawn is under copies of the tag.
    ///
    /// It refuses only where memory is refused, or where a place or a line's columns pass `usize`. Its arguments are
    /// then dropped.
    pub fn lay_out<W: CharWidth>(
        self,
        alloc: Global,
        hanging: Overhang<T>,
        above: Option<BorderHoriz<T>>,
        style: RowStyle,
        tag: &T,
    ) -> Result<Row<T>, OutOfMemory>
        requires fits { row_fits hanging (map spot_of self) ≡ true }
        ensures row { IfOk result (λ row. (seen : SeenRow T)
            × (row_of T.eq W.columns style tag.now hanging self above ≡ Some seen) × IsLaidOut T.eq row seen) }
        ensures merged { IfOk result (λ row. Each (IsMerged T.eq) row.lines.items) }
    {
        let cells = hanging.seat(alloc, self)?;
        let mut next = plain(alloc, row_width(&cells)?, tag)?;
        let (above, cells) = meet_above(alloc, above, &mut next, cells, style.collapses)?;
        let mut columns = meet_next(alloc, &mut next, cells, style.collapses)?;
        let height = height(&columns);
        let lines = lines_of(alloc, &mut columns, height, style.separator(), tag)?;
        let rest = hang::<T, W>(alloc, columns, &mut next, style.draws_borders, tag)?;
        Ok(Row {
            above,
            lines,
            next: style.drawn(next),
            overhang: Overhang::of(rest),
        })
    }
}

/// A border under a copy of a tag.
fn plain<T: Tag>(alloc: Global, width: usize, tag: &T) -> Result<BorderHoriz<T>, OutOfMemory>
    ensures { IfOk result (λ border. SameBorder T.eq border (model.plain_border width tag.now)) }
{
    BorderHoriz::new(alloc, width, tag.clone()?)
}

/// Joins a row to the border above it, if there is one, and merges into that what collapses.
fn meet_above<T: Tag>(
    alloc: Global,
    above: Option<BorderHoriz<T>>,
    next: &mut BorderHoriz<T>,
    cells: Vec<LineSet<T>>,
    collapses: bool,
) -> Result<(Option<BorderHoriz<T>>, Vec<LineSet<T>>), OutOfMemory>
    ensures above { IfOk result (λ r. r.0 ≡ model.border_above collapses cells.items above) }
    ensures cells { IfOk result (λ r. r.1.items ≡ model.cells_under collapses above cells.items) }
    ensures next { OnOk result (next.new ≡ model.next_under above cells.items next.old) }
{
    let Some(mut border) = above else {
        return Ok((None, cells));
    };
    join(&mut border, next, &cells)?;
    if !collapses {
        return Ok((Some(border), cells));
    }
    let cells = merge_first(alloc, &mut border, cells)?;
    Ok((Some(border), cells))
}

/// Merges what collapses into the border below a row.
fn meet_next<T: Tag>(
    alloc: Global,
    next: &mut BorderHoriz<T>,
    cells: Vec<LineSet<T>>,
    collapses: bool,
) -> Result<Vec<Column<T>>, OutOfMemory>
    ensures columns { IfOk result (λ columns. columns.items ≡ model.columns_shown collapses cells.items) }
    ensures next { OnOk result (next.new ≡ model.next_merged collapses cells.items next.old) }
{
    if collapses {
        merge_last(alloc, next, cells)
    } else {
        whole(alloc, cells)
    }
}
