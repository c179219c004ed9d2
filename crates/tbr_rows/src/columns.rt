//! The row's own cells.
ghost use Rattle.std.specs.Prelude.{◌≡◌, ◌++◌, ◌∷◌, [], List, map, OnOk, OnErr};
ghost use Rattle.std.specs.List.{AllZip};
ghost use Rattle.tbr_border.specs.declared.render_line.RenderLine.{RenderLine as Line};
ghost use Rattle.tbr_rows.specs.Cells.{AreSideBySide, row_fits, spot_of};
ghost use Rattle.tbr_rows.specs.Filled as model;

use crate::aligned_lines::AlignedLines;
use crate::cell_lines::CellLines;
use crate::line_set::{LineSet, next_place};
use crate::overhang::Overhang;
use std::alloc::Global;
use std::marker::Model;
use tbr_border::RenderLine;
use tbr_model::CharWidth;
use tbr_tagged::{CellAlign, OutOfMemory};
use tbr_tags::Tag;
use tbr_wrap::EndedLines;

/// A row's own cells, side by side. A contract sees their list.
#[derive(Debug, Drop)]
pub struct Columns<T: Eq> {
    pub(crate) cells: Vec<LineSet<T>>,
}

impl<T: Eq> Model for Columns<T> {
    ghost use Rattle.std.specs.Prelude.{List};
    ghost use Rattle.tbr_rows.specs.declared.line_set.LineSet.{LineSet};

    ghost Value = { List (LineSet T) };

    ghost use Rattle.tbr_rows.specs.Cells.{AreSideBySide};

    ghost view = { λ c. c.cells.items };

    ghost invariant = { λ c. AreSideBySide 0 c.cells.items };
}

impl<T: Tag> Columns<T> {
    /// No cells. It takes no memory.
    pub fn new(alloc: Global) -> Columns<T>
        ensures { result ≡ [] }
    {
        Columns {
            cells: Vec::new(alloc),
        }
    }
}

impl<T: Tag> Columns<T> {
    /// Adds a cell of `width` columns, after the others and a separator. It spans `span` rows. Each of its lines is
    /// filled up to its width: a text with spaces under copies of the tag, as the alignment says, and a border with
    /// `─`.
    ///
    /// If memory is refused, or a place or a line's columns pass `usize`, the cell and its lines are dropped, and the
    /// others stay.
    pub fn push<W: CharWidth>(
        &mut self,
        width: usize,
        span: usize,
        align: CellAlign,
        mut lines: Vec<RenderLine<T>>,
        tag: &T,
    ) -> Result<(), OutOfMemory>
        ensures ok { OnOk result ((filled : List (Line T))
            × AllZip (model.FillsLine W.columns T.eq align width tag.now) lines.items filled
            × (self.new ≡ self.old ++ model.cell_after self.old width span filled ∷ [])) }
        ensures side_by_side { AreSideBySide 0 self.new }
        ensures err { OnErr result (self.new ≡ self.old) }
    {
        let place = next_place(&self.cells)?;
        fill_all::<T, W>(&mut lines, width, align, tag)?;
        self.cells.push(LineSet {
            place,
            width,
            span,
            lines: CellLines::of(lines),
        })?;
        Ok(())
    }
}

impl<T: Tag> Columns<T> {
    /// Adds a cell as [`push`](Columns::push) does, of lines that a block has ended. They stay in the block's text
    /// until they are shown.
    ///
    /// If memory is refused, or a place passes `usize`, the cell and its lines are dropped, and the others stay.
    pub fn push_ended<W: CharWidth>(
        &mut self,
        width: usize,
        span: usize,
        align: CellAlign,
        lines: EndedLines<T>,
        tag: &T,
    ) -> Result<(), OutOfMemory>
        ensures ok { OnOk result ((filled : List (Line T))
            × AllZip (model.FillsText W.columns T.eq align width tag.now) lines filled
            × (self.new ≡ self.old ++ model.cell_after self.old width span filled ∷ [])) }
        ensures side_by_side { AreSideBySide 0 self.new }
        ensures err { OnErr result (self.new ≡ self.old) }
    {
        let place = next_place(&self.cells)?;
        let alloc = *self.cells.allocator();
        let lines = AlignedLines::new::<W>(alloc, lines, width, align, tag.clone()?)?;
        self.cells.push(LineSet {
            place,
            width,
            span,
            lines: CellLines::in_text(lines),
        })?;
        Ok(())
    }
}

impl<T: Tag> Columns<T> {
    /// Whether a row of these cells has a place for each cell that overhangs. It takes no memory.
    pub fn fits(&self, hanging: &Overhang<T>) -> bool
        ensures { result ≡ row_fits hanging.now (map spot_of self.now) }
    {
        let mut fitting = hanging.fitting();
        for cell in &self.cells {
            fitting.add(cell.width, cell.lines.is_empty());
        }
        fitting.fits()
    }
}

/// Fills each of these lines up to a width.
fn fill_all<T: Tag, W: CharWidth>(
    lines: &mut [RenderLine<T>],
    width: usize,
    align: CellAlign,
    tag: &T,
) -> Result<(), OutOfMemory>
    ensures { OnOk result (AllZip (model.FillsLine W.columns T.eq align width tag.now) lines.old lines.new) }
{
    for line in lines.iter_mut() {
        fill::<T, W>(line, width, align, tag)?;
    }
    Ok(())
}

/// Fills a line up to a width.
fn fill<T: Tag, W: CharWidth>(
    line: &mut RenderLine<T>,
    width: usize,
    align: CellAlign,
    tag: &T,
) -> Result<(), OutOfMemory>
    ensures { OnOk result (model.FillsLine W.columns T.eq align width tag.now line.old line.new) }
{
    match line {
        RenderLine::Text(text) => text.pad_aligned::<W>(width, align, tag),
        RenderLine::Line(border) => border.stretch_to(width),
    }
}
