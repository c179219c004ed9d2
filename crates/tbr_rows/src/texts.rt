//! The lines of a row.
ghost use Rattle.std.specs.Prelude.{◌≡◌, ◌++◌, map, IfOk, OnOk};
ghost use Rattle.std.specs.List.{AllByRecursion as Each};
ghost use Rattle.tbr_model.specs.Run.{glyph};
ghost use Rattle.tbr_tagged.specs.Elements.{items_of, text_items, SameItems, IsMerged};
ghost use Rattle.tbr_rows.specs.Texts as model;

use crate::column::Column;
use std::alloc::Global;
use tbr_tagged::{OutOfMemory, TaggedLine, TaggedString};
use tbr_tags::Tag;

/// The lines of a row, as many as asked for. It removes them from the cells.
pub(crate) fn lines_of<T: Tag>(
    alloc: Global,
    columns: &mut Vec<Column<T>>,
    height: usize,
    separator: char,
    tag: &T,
) -> Result<Vec<TaggedLine<T>>, OutOfMemory>
    ensures items { IfOk result (λ lines. model.HaveTexts T.eq lines.items
        (model.line_texts (glyph separator tag.now) tag.now columns.old.items height)) }
    ensures merged { IfOk result (λ lines. Each (IsMerged T.eq) lines.items) }
    ensures rest { OnOk result (columns.new.items ≡ map (model.dropped height) columns.old.items) }
{
    let mut lines = Vec::with_capacity(alloc, height)?;
    for _ in 0..height {
        lines.push(line_of(alloc, columns, separator, tag)?)?;
    }
    Ok(lines)
}

/// One line of a row: the first line of each cell, which it removes, or the cell's filler, with a separator between two
/// cells.
fn line_of<T: Tag>(
    alloc: Global,
    columns: &mut Vec<Column<T>>,
    separator: char,
    tag: &T,
) -> Result<TaggedLine<T>, OutOfMemory>
    ensures items { IfOk result (λ line. SameItems T.eq (items_of line)
        (model.line_text (glyph separator tag.now) tag.now columns.old.items 0)) }
    ensures merged { IfOk result (λ line. IsMerged T.eq line) }
    ensures rest { OnOk result (columns.new.items ≡ map (model.dropped 1) columns.old.items) }
{
    let room = room_for(columns);
    let mut line = TaggedLine::new(alloc);
    for i in 0..columns.len() {
        push_separator(&mut line, i, separator, tag)?;
        push_first(&mut line, &mut columns[i], tag)?;
        line.make_room(room);
    }
    Ok(line)
}

/// How many bytes a line of a row usually has: one for each column, and three for each separator.
fn room_for<T: Tag>(columns: &[Column<T>]) -> usize {
    let mut bytes = 0usize;
    for column in columns {
        bytes = bytes.saturating_add(column.cell.width).saturating_add(3);
    }
    bytes
}

/// Appends the separator that comes before a cell, unless that is the first.
fn push_separator<T: Tag>(
    line: &mut TaggedLine<T>,
    cell: usize,
    separator: char,
    tag: &T,
) -> Result<(), OutOfMemory>
    ensures items { OnOk result (SameItems T.eq (items_of line.new)
        (items_of line.old ++ model.separator_before (glyph separator tag.now) cell)) }
    ensures merged { IsMerged T.eq line.old → OnOk result (IsMerged T.eq line.new) }
{
    if cell > 0 {
        line.push_char(separator, tag)?;
    }
    Ok(())
}

/// Appends a cell's first line, which it removes, or its filler.
fn push_first<T: Tag>(
    line: &mut TaggedLine<T>,
    column: &mut Column<T>,
    tag: &T,
) -> Result<(), OutOfMemory>
    ensures items { OnOk result
        (SameItems T.eq (items_of line.new) (items_of line.old ++ model.cell_text tag.now 0 column.old)) }
    ensures merged { IsMerged T.eq line.old → OnOk result (IsMerged T.eq line.new) }
    ensures rest { OnOk result (column.new ≡ model.dropped 1 column.old) }
{
    if column.cell.lines.is_empty() {
        return push_filler(line, column, tag);
    }
    column.cell.lines.move_first(line, tag)
}

/// Appends the filler of a cell that has no line left: the vertical lines above its merged border, or spaces.
fn push_filler<T: Tag>(
    line: &mut TaggedLine<T>,
    column: &Column<T>,
    tag: &T,
) -> Result<(), OutOfMemory>
    ensures items { OnOk result (SameItems T.eq (items_of line.new) (items_of line.old
        ++ text_items (model.filler_above column.now.cell.width column.now.bottom) tag.now)) }
    ensures merged { IsMerged T.eq line.old → OnOk result (IsMerged T.eq line.new) }
{
    let Some(border) = &column.bottom else {
        return line.push_spaces(column.cell.width, tag);
    };
    let s = border.to_vertical_lines_above()?;
    let tag = tag.clone()?;
    line.push_str(TaggedString { s, tag })
}
