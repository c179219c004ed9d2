//! Renderers inside others, which take their lines.
ghost use Rattle.std.specs.Prelude.{◌<◌, IfOk};
ghost use Rattle.std.specs.List.{AllByRecursion as Each};

use std::alloc::Global;
use tbr_decor::TextDecorator;
use tbr_lines::{CellAlign, CharWidth, Error};
use tbr_renderer::{Renderer, SubRenderer};

/// A call on a renderer inside.
#[derive(Clone, Copy)]
pub enum Inner<'a> {
    Text(&'a str),
    Marker(&'a str),
    Line,
    EmptyLine,
    Border,
    Strong,
    EndStrong,
    /// A row of two cells of one column, with these texts.
    Row(&'a str, &'a str),
}

/// A renderer inside: its columns, at least one, and the calls on it.
#[derive(Clone, Copy)]
pub struct Block<'a>(pub usize, pub &'a [Inner<'a>]);

/// A cell: how many rows it spans, at least one, and the renderer inside.
#[derive(Clone, Copy)]
pub struct Cell<'a>(pub usize, pub Block<'a>);

fn make_inner<D: TextDecorator, W: CharWidth>(
    alloc: Global,
    r: &mut SubRenderer<D, W>,
    call: Inner<'_>,
) -> Result<(), Error> {
    match call {
        Inner::Text(text) => r.add_inline_text(text),
        Inner::Marker(name) => r.record_frag_start(name),
        Inner::Line => r.new_line(),
        Inner::EmptyLine => r.add_empty_line(),
        Inner::Border => r.add_horizontal_border(),
        Inner::Strong => r.start_strong(),
        Inner::EndStrong => r.end_strong(),
        Inner::Row(first, second) => append_two(alloc, r, first, second),
    }
}

/// A cell of one column with a text, which may have been refused.
fn narrow_cell<D: TextDecorator, W: CharWidth>(
    r: &SubRenderer<D, W>,
    text: &str,
) -> Result<SubRenderer<D, W>, Error> {
    let mut cell = r.new_sub_renderer(1)?;
    let _ = cell.add_inline_text(text);
    Ok(cell)
}

/// Appends two cells of one column, side by side, where these fit.
fn append_two<D: TextDecorator, W: CharWidth>(
    alloc: Global,
    r: &mut SubRenderer<D, W>,
    first: &str,
    second: &str,
) -> Result<(), Error> {
    let mut cols = Vec::new(alloc);
    cols.push((narrow_cell(r, first)?, 1))?;
    cols.push((narrow_cell(r, second)?, 1))?;
    if !r.row_fits(&cols) {
        return Ok(());
    }
    r.append_columns_with_borders(cols, false)
}

/// A renderer inside after its calls, one of which may have refused. A refusal that it doesn't keep is passed on.
fn inside<D: TextDecorator, W: CharWidth>(
    alloc: Global,
    r: &SubRenderer<D, W>,
    block: Block<'_>,
) -> Result<SubRenderer<D, W>, Error> {
    let Block(width, calls) = block;
    let mut inside = r.new_sub_renderer(width.max(1))?;
    for call in calls {
        if let Err(refusal) = make_inner(alloc, &mut inside, *call)
            && inside.failure().is_none()
        {
            return Err(refusal);
        }
    }
    Ok(inside)
}

/// Appends the lines of a renderer inside, after prefixes, each of which has a bar after it.
pub fn append_block<D: TextDecorator, W: CharWidth>(
    alloc: Global,
    r: &mut SubRenderer<D, W>,
    block: Block<'_>,
    prefixes: &str,
) -> Result<(), Error> {
    let inside = inside(alloc, r, block)?;
    r.append_subrender(inside, prefixes.split_terminator('|'))
}

/// Appends renderers inside, one below another.
pub fn append_row<D: TextDecorator, W: CharWidth>(
    alloc: Global,
    r: &mut SubRenderer<D, W>,
    blocks: &[Block<'_>],
) -> Result<(), Error> {
    let mut cols = Vec::new(alloc);
    for block in blocks {
        cols.push(inside(alloc, r, *block)?)?;
    }
    r.append_vert_row(cols)
}

/// The cells of a row, each with the rows that it spans.
fn columns<D: TextDecorator, W: CharWidth>(
    alloc: Global,
    r: &SubRenderer<D, W>,
    cells: &[Cell<'_>],
) -> Result<Vec<(SubRenderer<D, W>, usize)>, Error>
    ensures { IfOk result (λ cols. Each (λ col. 0 < col.1) cols.items) }
{
    let mut cols = Vec::new(alloc);
    for cell in cells {
        let Cell(span, block) = *cell;
        cols.push((inside(alloc, r, block)?, span.max(1)))?;
    }
    Ok(cols)
}

/// Appends cells as a row side by side, where it fits.
pub fn append_columns<D: TextDecorator, W: CharWidth>(
    alloc: Global,
    r: &mut SubRenderer<D, W>,
    cells: &[Cell<'_>],
    collapse: bool,
) -> Result<(), Error> {
    let cols = columns(alloc, r, cells)?;
    if !r.row_fits(&cols) {
        return Ok(());
    }
    r.append_columns_with_borders(cols, collapse)
}

/// Appends as many cells as there are alignments as a row side by side, each of them aligned. No borders of neighbours
/// are merged.
pub fn append_aligned<D: TextDecorator, W: CharWidth>(
    alloc: Global,
    r: &mut SubRenderer<D, W>,
    cells: &[Cell<'_>],
    aligns: &[CellAlign],
) -> Result<(), Error> {
    let cols = columns(alloc, r, cells)?;
    if aligns.len() != cols.len() || !r.row_fits(&cols) {
        return Ok(());
    }
    r.append_columns_aligned(cols, aligns, false)
}
