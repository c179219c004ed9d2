//! How overhanging cells take their places in a row.
ghost use Rattle.std.specs.Prelude.{◌≡◌, IfOk, OnOk};
ghost use Rattle.tbr_rows.specs.Cells as model;

use crate::line_set::{LineSet, next_place};
use std::alloc::Global;
use std::collections::LinkedList;
use tbr_tagged::OutOfMemory;
use tbr_tags::Tag;

/// The cells of a row: its own, and overhanging ones in their places among them. Those that are after all own ones are
/// appended, with an empty cell before them where columns are free.
pub(crate) fn seated<T: Tag>(
    alloc: Global,
    cells: Vec<LineSet<T>>,
    mut hanging: LinkedList<LineSet<T>>,
) -> Result<Vec<LineSet<T>>, OutOfMemory>
    ensures { IfOk result (λ row. row.items ≡ model.seated hanging cells.items) }
{
    if hanging.is_empty() {
        return Ok(cells);
    }
    let mut row = Vec::with_capacity(alloc, cells.len())?;
    for cell in cells {
        row.push(seat(cell, &mut hanging))?;
    }
    append_all(alloc, &mut row, hanging)?;
    Ok(row)
}

/// The cell at a place: the first overhanging one, if that is there, and otherwise the row's own.
fn seat<T: Tag>(cell: LineSet<T>, hanging: &mut LinkedList<LineSet<T>>) -> LineSet<T>
    ensures cell { result ≡ model.taker hanging.old cell }
    ensures waiting { hanging.new ≡ model.still_waiting hanging.old cell }
{
    if stands_first(hanging, cell.place)
        && let Some(first) = hanging.pop_front()
    {
        return first;
    }
    cell
}

/// Whether the first of these cells is at a place.
fn stands_first<T: Tag>(cells: &LinkedList<LineSet<T>>, place: usize) -> bool
    ensures { result ≡ model.stands_first cells.now place }
{
    match cells.front() {
        Some(first) => first.place == place,
        None => false,
    }
}

/// Appends overhanging cells.
fn append_all<T: Tag>(
    alloc: Global,
    row: &mut Vec<LineSet<T>>,
    hanging: LinkedList<LineSet<T>>,
) -> Result<(), OutOfMemory>
    ensures { OnOk result (row.new.items ≡ model.append_all row.old.items hanging) }
{
    for cell in hanging {
        append(alloc, row, cell)?;
    }
    Ok(())
}

/// Appends an overhanging cell, after an empty one where columns are free.
fn append<T: Tag>(
    alloc: Global,
    row: &mut Vec<LineSet<T>>,
    cell: LineSet<T>,
) -> Result<(), OutOfMemory>
    ensures { OnOk result (row.new.items ≡ model.append_cell row.old.items cell) }
{
    let free = next_place(row)?;
    if free < cell.place {
        row.push(LineSet::empty(alloc, free, cell.place - free - 1))?;
    }
    row.push(cell)?;
    Ok(())
}
