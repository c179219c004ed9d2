//! The lines of spanning cells in the border below their row, and what overhangs.
ghost use Rattle.std.specs.Prelude.{◌≡◌, ◌++◌, map, IfOk, OnOk};
ghost use Rattle.tbr_rows.specs.Gaps as model;
ghost use Rattle.tbr_rows.specs.Gaps.{FillsGapIf, FillsGaps};

use crate::column::Column;
use crate::line_set::LineSet;
use std::alloc::Global;
use std::collections::LinkedList;
use tbr_border::BorderHoriz;
use tbr_model::CharWidth;
use tbr_tagged::{OutOfMemory, TaggedLine};
use tbr_tags::Tag;

/// Ends a row. Where borders are drawn, the first line of each spanning cell is put in front of the border below. The
/// rest overhangs.
pub(crate) fn hang<T: Tag, W: CharWidth>(
    alloc: Global,
    columns: Vec<Column<T>>,
    next: &mut BorderHoriz<T>,
    draws: bool,
    tag: &T,
) -> Result<LinkedList<LineSet<T>>, OutOfMemory>
    ensures gaps { OnOk result
        (FillsGaps draws W.columns T.eq tag.now (map model.cell_in columns.items) next.old next.new) }
    ensures rest { IfOk result (λ rest. rest ≡ model.overhang draws (map model.cell_in columns.items)) }
{
    let mut rest = LinkedList::new(alloc);
    for column in columns {
        hang_cell::<T, W>(alloc, column, next, &mut rest, draws, tag)?;
    }
    Ok(rest)
}

/// Ends a row for one cell, and adds what overhangs of it to what overhangs already.
fn hang_cell<T: Tag, W: CharWidth>(
    alloc: Global,
    column: Column<T>,
    next: &mut BorderHoriz<T>,
    rest: &mut LinkedList<LineSet<T>>,
    draws: bool,
    tag: &T,
) -> Result<(), OutOfMemory>
    ensures gap { OnOk result
        (FillsGapIf (model.has_gap draws column.cell) W.columns T.eq tag.now column.cell next.old next.new) }
    ensures rest { OnOk result (rest.new ≡ rest.old ++ model.overhang_of draws column.cell) }
{
    let mut cell = column.cell;
    if cell.span <= 1 {
        return Ok(());
    }
    if draws {
        let text = cell.lines.take_gap_text(alloc, cell.width, tag)?;
        add_text::<T, W>(next, cell.place, text)?;
    }
    cell.span -= 1;
    rest.push_back(cell)?;
    Ok(())
}

/// Puts a text in front of a border, from a place on, or after the texts that are there already.
fn add_text<T: Drop, W: CharWidth>(
    border: &mut BorderHoriz<T>,
    place: usize,
    text: TaggedLine<T>,
) -> Result<(), OutOfMemory>
    ensures { OnOk result (border.new ≡ model.with_elements W.columns place border.old text) }
{
    for element in text {
        let free = place.max(border.span_end());
        border.add_text_span::<W>(free, element)?;
    }
    Ok(())
}
