//! Rows of cells side by side.
ghost use Rattle.std.specs.Prelude.{◌≡◌, ◌≢◌, ◌≤◌, ◌==◌, ◌++◌, ◌∷◌, [], None, Some, Err, true, not, List, length, map, fold, OnOk, IfOk};
ghost use Rattle.std.specs.Option.{option_map};
ghost use Rattle.std.specs.Cmp.Lexicographic.{pointwise};
ghost use Rattle.std.specs.List.{AllZip, AllByRecursion as Each, list_any};
ghost use Rattle.tbr_annotations.specs.Annotations.{same_annotations};
ghost use Rattle.tbr_border.specs.declared.RenderLine.{RenderLine};
ghost use Rattle.tbr_tagged.specs.Elements.{items_of, IsMerged};
ghost use Rattle.tbr_rows.specs.Filled.{cell_after};
ghost use Rattle.tbr_tagged.specs.declared.Error.TheVariants as E;
ghost use Rattle.tbr_rows.specs.Cells.{AreSideBySide, has_lines, row_fits, spot_of};
ghost use Rattle.tbr_rows.specs.Rows.{row_seen};
ghost use Rattle.tbr_renderer.specs.Renderer.{KeepsSettings, with_line, block_width};
ghost use Rattle.tbr_tagged.specs.Outcome.{done, refused};
ghost use Rattle.tbr_renderer.specs.Outcomes.{and_then, taking};
ghost use Rattle.tbr_renderer.specs.Flush.{EndsBest, after_flush};
ghost use Rattle.tbr_kept_lines.specs.LastBorder.{last_border, before_border};
ghost use Rattle.tbr_renderer.specs.Rows as model;
ghost use Rattle.tbr_renderer.specs.Rows.{GivenCell, cells_handed_out, row_made};

use crate::renderer::Renderer;
use crate::sub::SubRenderer;
use std::mem;
use tbr_annotations::Annotations;
use tbr_border::{BorderHoriz, RenderLine};
use tbr_decor::TextDecorator;
use tbr_kept_lines::KeptLines;
use tbr_model::CharWidth;
use tbr_rows::{Columns, Overhang, Row, RowStyle};
use tbr_tagged::{CellAlign, Error, OutOfMemory, TaggedLine};
use tbr_tags::Tag;

impl<D: TextDecorator, W: CharWidth> SubRenderer<D, W> {
    /// Whether a row of these renderers, each with the rows that it spans, has a place for each cell that overhangs
    /// from the rows before. That is the place of a renderer of the same width without lines and characters, or one
    /// after all of them. It takes no memory, and a failure of this renderer changes nothing. One of `cols` that has
    /// failed gives its place to no cell.
    pub fn row_fits(&self, cols: &Vec<(SubRenderer<D, W>, usize)>) -> bool
        ensures { result ≡ row_fits self.now.hanging (model.spots_of W.columns cols.now.items) }
    {
        let mut fitting = self.hanging.fitting();
        for (col, _) in cols {
            fitting.add(col.width(), col.is_blank());
        }
        fitting.fits()
    }

    /// Whether cells overhang from the rows before. It takes no memory, and a failure changes nothing.
    pub fn has_overhang(&self) -> bool
        ensures { result ≡ not (length self.now.hanging == 0) }
    {
        !self.hanging.is_empty()
    }

    /// Whether a cell that overhangs has lines that no row has shown. They are lost if no more row is added. It takes
    /// no memory, and a failure changes nothing.
    pub fn has_overhanging_lines(&self) -> bool
        ensures { result ≡ list_any has_lines self.now.hanging }
    {
        self.hanging.has_lines()
    }

    /// Whether nothing is in it: it hasn't failed, it has no line, and its open block, if any, holds no character.
    fn is_blank(&self) -> bool
        ensures { result ≡ model.is_blank W.columns self.now }
    {
        self.failure().is_none() && self.has_blank_block() && self.has_no_line()
    }

    /// Whether no block is open, or the open one holds no character.
    fn has_blank_block(&self) -> bool
        requires { self.now.failure ≡ None }
        ensures { result ≡ model.block_is_blank W.columns self.now self.now.block }
    {
        match &self.wrapping {
            Some(block) => block.is_blank(),
            None => true,
        }
    }

    /// Ends the run, and then those of other renderers, and adds a row of their lines. Where alignments are missing,
    /// cells are at the left.
    pub(crate) fn try_append_columns(
        &mut self,
        cols: Vec<(SubRenderer<D, W>, usize)>,
        aligns: &[CellAlign],
        collapses: bool,
    ) -> Result<(), Error>
        requires unfailed { self.old.failure ≡ None }
        requires fits { row_fits self.old.hanging (model.spots_of W.columns cols.items) ≡ true }
        ensures ok { let given = cells_handed_out W.columns cols.items aligns.now in
            let row = row_made (pointwise D.Annotation.same) W.columns collapses in
            OnOk result (taking (after_flush W.columns) given row self.old ≡ done self.new) }
        ensures too_narrow { result ≡ Err E.TooNarrow → and_then (after_flush W.columns self.old)
            (λ _. cells_handed_out W.columns cols.items aligns.now) ≡ refused E.TooNarrow }
        ensures two_columns { 2 ≤ block_width self.old →
            Each (λ col. (col.0.failure ≡ None) × (2 ≤ block_width col.0)) cols.items → result ≢ Err E.TooNarrow }
        ensures best { OnOk result (EndsBest W.columns self.old × Each (λ col. EndsBest W.columns col.0) cols.items) }
        ensures settings { KeepsSettings self.old self.new }
    {
        self.try_flush()?;
        let columns = self.columns_of(cols, aligns)?;
        self.add_row(columns, collapses)?;
        Ok(())
    }

    /// The cells of a row: the lines of renderers, each filled up to its renderer's width.
    fn columns_of(
        &self,
        cols: Vec<(SubRenderer<D, W>, usize)>,
        aligns: &[CellAlign],
    ) -> Result<Columns<Annotations<D::Annotation>>, Error>
        ensures cells { IfOk result (λ columns. (cells : List (GivenCell (List D.Annotation.Meaning)))
            × (cells_handed_out W.columns cols.items aligns.now ≡ done cells)
            × (columns ≡ model.own_cells (pointwise D.Annotation.same) W.columns cells self.now)) }
        ensures free { IfOk result (λ columns. AllZip (model.LeavesFree W.columns) cols.items columns) }
        ensures side_by_side { IfOk result (λ columns. AreSideBySide 0 columns) }
        ensures too_narrow { result ≡ Err E.TooNarrow →
            cells_handed_out W.columns cols.items aligns.now ≡ refused E.TooNarrow }
        ensures two_columns { Each (λ col. (col.0.failure ≡ None) × (2 ≤ block_width col.0)) cols.items →
            result ≢ Err E.TooNarrow }
        ensures best { OnOk result (Each (λ col. EndsBest W.columns col.0) cols.items) }
    {
        let tag = self.tag()?;
        let mut aligns = aligns.iter();
        let mut columns = Columns::new(self.alloc);
        for (col, span) in cols {
            let width = col.width();
            let lines = col.into_kept()?;
            let align = aligns.next().copied().unwrap_or(CellAlign::Left);
            push_cell::<_, W>(&mut columns, lines, width, span, align, &tag)?;
        }
        Ok(columns)
    }

    /// Adds a row of these cells, under the last line if that is a border.
    fn add_row(
        &mut self,
        columns: Columns<Annotations<D::Annotation>>,
        collapses: bool,
    ) -> Result<(), OutOfMemory>
        requires unfailed { self.old.failure ≡ None }
        requires fits { row_fits self.old.hanging (map spot_of columns) ≡ true }
        ensures row { let same = pointwise D.Annotation.same in
            OnOk result (model.row_put_of same W.columns collapses self.old columns ≡ Some self.new) }
        ensures settings { KeepsSettings self.old self.new }
    {
        let style = RowStyle {
            draws_borders: self.options.draw_borders,
            collapses,
        };
        let tag = self.tag()?;
        let hanging = self.take_hanging();
        let above = self.take_border();
        let row = columns.lay_out::<W>(self.alloc, hanging, above, style, &tag)?;
        self.put_row(row)
    }

    /// Takes the cells that overhang.
    fn take_hanging(&mut self) -> Overhang<Annotations<D::Annotation>>
        ensures cells { result ≡ self.old.hanging }
        ensures rest { self.new ≡ record self.old { hanging = [] } }
    {
        mem::replace(&mut self.hanging, Overhang::new(self.alloc))
    }

    /// Takes the last line, if it is a border.
    fn take_border(&mut self) -> Option<BorderHoriz<Annotations<D::Annotation>>>
        requires { self.old.failure ≡ None }
        ensures border { result ≡ last_border self.old.lines }
        ensures rest { self.new ≡ record self.old { lines = before_border self.old.lines } }
    {
        self.lines.take_border()
    }

    /// Adds a row that is laid out. Where memory is refused, it is lost.
    fn put_row(&mut self, row: Row<Annotations<D::Annotation>>) -> Result<(), OutOfMemory>
        requires unfailed { self.old.failure ≡ None }
        requires merged { Each (IsMerged (same_annotations D.Annotation.same)) row.lines.items }
        ensures row { OnOk result (self.new
            ≡ model.with_row_after W.columns self.old (row_seen row)) }
        ensures settings { KeepsSettings self.old self.new }
    {
        self.put_back(row.above)?;
        self.hang(row.overhang);
        self.add_texts(row.lines)?;
        self.add_next(row.next)
    }

    /// Puts a border back, if there is one.
    fn put_back(
        &mut self,
        border: Option<BorderHoriz<Annotations<D::Annotation>>>,
    ) -> Result<(), OutOfMemory>
        requires { self.old.failure ≡ None }
        ensures border { OnOk result
            (self.new ≡ record self.old { lines = self.old.lines ++ model.border_lines border }) }
        ensures settings { KeepsSettings self.old self.new }
    {
        match border {
            Some(border) => self.push_line(RenderLine::Line(border)),
            None => Ok(()),
        }
    }

    /// Keeps the cells that overhang.
    fn hang(&mut self, overhang: Overhang<Annotations<D::Annotation>>)
        ensures { self.new ≡ record self.old { hanging = overhang } }
    {
        self.hanging = overhang;
    }

    /// Adds lines of text.
    pub(crate) fn add_texts(
        &mut self,
        texts: Vec<TaggedLine<Annotations<D::Annotation>>>,
    ) -> Result<(), OutOfMemory>
        requires unfailed { self.old.failure ≡ None }
        requires merged { Each (IsMerged (same_annotations D.Annotation.same)) texts.items }
        ensures lines { OnOk result (self.new ≡ fold (with_line W.columns) self.old
            (map items_of texts.items)) }
        ensures unfailed { OnOk result (self.new.failure ≡ None) }
        ensures settings { KeepsSettings self.old self.new }
    {
        for text in texts {
            self.add_line(text)?;
        }
        Ok(())
    }

    /// Adds a border, if there is one.
    fn add_next(
        &mut self,
        border: Option<BorderHoriz<Annotations<D::Annotation>>>,
    ) -> Result<(), OutOfMemory>
        requires { self.old.failure ≡ None }
        ensures border { let next = border in
            OnOk result (self.new ≡ model.with_next W.columns self.old next) }
        ensures settings { KeepsSettings self.old self.new }
    {
        match border {
            Some(border) => self.add_border(border),
            None => Ok(()),
        }
    }
}

/// Adds a cell of these lines to a row, each filled up to its width. Those in a block's text stay there.
fn push_cell<T: Tag, W: CharWidth>(
    columns: &mut Columns<T>,
    lines: KeptLines<T>,
    width: usize,
    span: usize,
    align: CellAlign,
    tag: &T,
) -> Result<(), OutOfMemory>
    ensures ok { OnOk result ((filled : List (RenderLine T))
        × AllZip (model.FillsKept W.columns T.eq align width tag.now) lines filled
        × (columns.new ≡ columns.old ++ cell_after columns.old width span filled ∷ [])) }
    ensures side_by_side { OnOk result (AreSideBySide 0 columns.new) }
{
    match lines.into_ended() {
        Ok(ended) => columns.push_ended::<W>(width, span, align, ended, tag),
        Err(lines) => columns.push::<W>(width, span, align, lines.into_vec()?, tag),
    }
}
