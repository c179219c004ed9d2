//! The borders above and below a row.
ghost use Rattle.std.specs.Prelude.{◌≡◌, map, fold, IfOk, OnOk};
ghost use Rattle.tbr_border.specs.Cell.{above as top};
ghost use Rattle.tbr_rows.specs.Cells.{separators};
ghost use Rattle.tbr_rows.specs.Borders as model;

use crate::column::Column;
use crate::line_set::{LineSet, row_width};
use std::alloc::Global;
use tbr_border::BorderHoriz;
use tbr_tagged::OutOfMemory;
use tbr_tags::Tag;

/// Joins the separators of a row to the border above it and to the one below. It stretches the border above to the
/// row's width. Where it refuses, both may be joined in part.
pub(crate) fn join<T: Tag>(
    above: &mut BorderHoriz<T>,
    next: &mut BorderHoriz<T>,
    cells: &[LineSet<T>],
) -> Result<(), OutOfMemory>
    ensures above { OnOk result (above.new ≡ model.above_row cells.now above.old) }
    ensures next { OnOk result (next.new ≡ model.joined_at_each top next.old (separators cells.now)) }
{
    for cell in &cells[..cells.len().saturating_sub(1)] {
        let end = cell.end()?;
        above.join_below(end)?;
        next.join_above(end)?;
    }
    above.stretch_to(row_width(cells)?)
}

/// Merges the first borders of cells into the border above their row, and removes them from the lines.
pub(crate) fn merge_first<T: Tag>(
    alloc: Global,
    above: &mut BorderHoriz<T>,
    cells: Vec<LineSet<T>>,
) -> Result<Vec<LineSet<T>>, OutOfMemory>
    ensures above { OnOk result (above.new ≡ fold model.merged_below above.old cells.items) }
    ensures cells { IfOk result (λ rest. rest.items ≡ map model.without_first_border cells.items) }
{
    let mut rest = Vec::with_capacity(alloc, cells.len())?;
    for mut cell in cells {
        if let Some(border) = cell.lines.take_first_border() {
            above.merge_from_below(&border, cell.place)?;
        }
        rest.push(cell)?;
    }
    Ok(rest)
}

/// Merges the last borders of cells into the border below their row, and removes them from the lines.
pub(crate) fn merge_last<T: Tag>(
    alloc: Global,
    next: &mut BorderHoriz<T>,
    cells: Vec<LineSet<T>>,
) -> Result<Vec<Column<T>>, OutOfMemory>
    ensures next { OnOk result (next.new ≡ fold model.merged_above next.old cells.items) }
    ensures columns { IfOk result (λ columns. columns.items ≡ map model.with_last_border_apart cells.items) }
{
    let mut columns = Vec::with_capacity(alloc, cells.len())?;
    for mut cell in cells {
        let bottom = cell.lines.take_last_border();
        if let Some(border) = &bottom {
            next.merge_from_above(border, cell.place)?;
        }
        columns.push(Column { cell, bottom })?;
    }
    Ok(columns)
}

/// Cells of which no border is merged.
pub(crate) fn whole<T: Tag>(
    alloc: Global,
    cells: Vec<LineSet<T>>,
) -> Result<Vec<Column<T>>, OutOfMemory>
    ensures { IfOk result (λ columns. columns.items ≡ map model.whole_column cells.items) }
{
    let mut columns = Vec::with_capacity(alloc, cells.len())?;
    for cell in cells {
        columns.push(Column { cell, bottom: None })?;
    }
    Ok(columns)
}
