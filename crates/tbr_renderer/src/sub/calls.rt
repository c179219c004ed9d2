//! The calls of a renderer.
ghost use Rattle.std.specs.Prelude.{◌≡◌, ◌<◌, ◌++◌, ◌∷◌, [], suc, ◌^◌, not, true, None, Some, Err, OnOk, OnErr, IfErr, List, length, ◌≤◌};
ghost use Rattle.tbr_tagged.specs.declared.Error.TheVariants as E;
ghost use Rattle.tbr_renderer.specs.Renderer.{kept_of};
ghost use Rattle.tbr_kept_lines.specs.LastBorder.{without_last};
ghost use Rattle.tbr_renderer.specs.Steps.{block_is_empty, is_empty};
ghost use Rattle.tbr_renderer.specs.Calls.{after, calls_by, IsWide, Takes};
ghost use Rattle.tbr_tagged.specs.Outcome.{done};
ghost use Rattle.tbr_renderer.specs.Outcomes.{gathered};
ghost use Rattle.tbr_renderer.specs.Appended.{handed_out};
ghost use Rattle.tbr_renderer.specs.Flush.{EndsBest};
ghost use Rattle.tbr_rows.specs.Cells.{row_fits};
ghost use Rattle.tbr_renderer.specs.Rows.{cells_handed_out, spots_of};
ghost use Rattle.tbr_decor.specs.Decoration.{decoration_of};
ghost use Rattle.std.specs.List.{AllByRecursion as Each};
ghost use Rattle.tbr_wrap.specs.Runs.{is_some_list};

use crate::renderer::Renderer;
use crate::sub::SubRenderer;
use crate::sub::colours::Ground;
use crate::sub::decorated::{End, Start};
use std::convert::AsStr;
use tbr_annotations::{Annotations, OpenAnnotations};
use tbr_decor::{Colour, TextDecorator};
use tbr_model::{CharWidth, WhiteSpace};
use tbr_tagged::{CellAlign, Error};

impl<D: TextDecorator, W: CharWidth> SubRenderer<D, W> {
    /// Pushes a mode.
    fn push_mode(&mut self, mode: WhiteSpace) -> Result<(), Error>
        ensures ok { OnOk result (self.new ≡ record self.old { modes = self.old.modes ++ mode ∷ [] }) }
        ensures memory { IfErr result (λ e. e ≡ E.OutOfMemory) }
        ensures kept { OnErr result (kept_of self.new ≡ kept_of self.old) }
    {
        self.modes.push(mode)?;
        Ok(())
    }

    /// Removes the mode that was pushed last.
    fn pop_mode(&mut self)
        ensures { self.new ≡ record self.old { modes = without_last self.old.modes } }
    {
        let _ = self.modes.pop();
    }

    /// Whether it has no line.
    pub(crate) fn has_no_line(&self) -> bool
        ensures { result ≡ not (is_some_list self.now.lines) }
    {
        self.lines.is_empty()
    }

    /// Whether no block is open, or the open one is empty.
    fn has_empty_block(&self) -> bool
        requires { self.now.failure ≡ None }
        ensures { let r = self.now in result ≡ block_is_empty W.columns r r.block }
    {
        match &self.wrapping {
            Some(block) => block.is_empty(),
            None => true,
        }
    }

    /// Replaces the annotations of later text.
    fn set_annotations(&mut self, annotations: Annotations<D::Annotation>)
        ensures { self.new
            ≡ record self.old { annotations = annotations } }
    {
        self.annotations = OpenAnnotations::of(annotations);
    }

    /// Begins a preformatted stretch.
    fn deepen(&mut self) -> Result<(), Error>
        ensures ok { OnOk result (self.new ≡ record self.old { preformatted = suc self.old.preformatted }) }
        ensures memory { IfErr result (λ e. e ≡ E.OutOfMemory) }
        ensures kept { OnErr result (kept_of self.new ≡ kept_of self.old) }
        ensures passes { OnErr result (2 ^ 64 ≤ suc self.old.preformatted) }
    {
        let Some(depth) = self.preformatted.checked_add(1) else {
            return Err(Error::OutOfMemory);
        };
        self.preformatted = depth;
        Ok(())
    }
}

impl<D: TextDecorator, W: CharWidth> Renderer for SubRenderer<D, W> {
    ghost use Rattle.tbr_renderer.specs.Renderer.{Renderer as Seen};
    ghost use Rattle.tbr_renderer.specs.Steps.{is_empty};
    ghost use Rattle.tbr_renderer.specs.Appended.{handed_out};
    ghost use Rattle.tbr_renderer.specs.Flush.{EndsBest};
    ghost use Rattle.tbr_decor.specs.Decoration.{decoration_of};
    ghost use Rattle.std.specs.Prelude.{◌≡◌, List, true};
    ghost use Rattle.tbr_rows.specs.Cells.{row_fits};
    ghost use Rattle.tbr_renderer.specs.Rows.{spots_of};
    ghost use Rattle.tbr_renderer.specs.Decorated.{sub_renderer};
    ghost use Rattle.tbr_renderer.specs.Calls.{calls_by};

    ghost Tag = { List D.Annotation.Meaning };

    ghost State = { Seen D D.Annotation.Meaning (List D.Annotation.Meaning) };

    ghost calls = { calls_by W.columns (decoration_of D.TextDecorator D.Annotation.tells) };

    ghost handed_out = { λ r. handed_out W.columns r };

    ghost ends_best = { λ r. EndsBest W.columns r };

    ghost has_places_for = { λ r cols. row_fits r.hanging (spots_of W.columns cols) ≡ true };

    ghost prefix_text = { λ r prefix. D.prefix_text r.decorator prefix };

    ghost sub_renderer = { λ width r. sub_renderer (decoration_of D.TextDecorator D.Annotation.tells) width r };

    ghost is_empty = { λ r. is_empty W.columns r };

    fn add_empty_line(&mut self) -> Result<(), Error> {
        self.refusal()?;
        let done = self.try_add_empty_line();
        self.keep(done)
    }

    fn new_line(&mut self) -> Result<(), Error> {
        self.refusal()?;
        let done = self.try_flush();
        self.keep(done)
    }

    fn new_line_hard(&mut self) -> Result<(), Error> {
        self.refusal()?;
        let done = self.try_break_line();
        self.keep(done)
    }

    fn start_block(&mut self) -> Result<(), Error> {
        self.refusal()?;
        let done = self.try_start_block();
        self.keep(done)
    }

    fn start_table(&mut self) -> Result<(), Error> {
        self.start_block()
    }

    fn end_block(&mut self) {
        if self.failure.is_none() {
            self.block_ended = true;
        }
    }

    fn add_inline_text(&mut self, text: &str) -> Result<(), Error> {
        self.refusal()?;
        let done = self.try_add_text(text);
        self.keep(done)
    }

    fn push_ws(&mut self, ws: WhiteSpace) -> Result<(), Error> {
        self.refusal()?;
        let done = self.push_mode(ws);
        self.keep(done)
    }

    fn pop_ws(&mut self) {
        if self.failure().is_none() {
            self.pop_mode();
        }
    }

    fn push_preformat(&mut self) -> Result<(), Error> {
        self.refusal()?;
        let done = self.deepen();
        self.keep(done)
    }

    fn pop_preformat(&mut self) {
        if self.failure.is_none() {
            self.preformatted -= 1;
        }
    }

    fn record_frag_start(&mut self, name: &str) -> Result<(), Error> {
        self.refusal()?;
        let done = self.try_add_marker(name);
        self.keep(done)
    }

    fn start_link(&mut self, target: &str) -> Result<(), Error> {
        self.begin(Start::Link(target))
    }

    fn end_link(&mut self) -> Result<(), Error> {
        self.finish(End::Link)
    }

    fn start_emphasis(&mut self) -> Result<(), Error> {
        self.begin(Start::Emphasis)
    }

    fn end_emphasis(&mut self) -> Result<(), Error> {
        self.finish(End::Emphasis)
    }

    fn start_strong(&mut self) -> Result<(), Error> {
        self.begin(Start::Strong)
    }

    fn end_strong(&mut self) -> Result<(), Error> {
        self.finish(End::Strong)
    }

    fn start_code(&mut self) -> Result<(), Error> {
        self.begin(Start::Code)
    }

    fn end_code(&mut self) -> Result<(), Error> {
        self.finish(End::Code)
    }

    fn start_superscript(&mut self) -> Result<(), Error> {
        self.begin(Start::Superscript)
    }

    fn end_superscript(&mut self) -> Result<(), Error> {
        self.finish(End::Superscript)
    }

    fn start_strikeout(&mut self) -> Result<(), Error> {
        self.refusal()?;
        let done = self.try_start_strikeout();
        self.keep(done)
    }

    fn end_strikeout(&mut self) -> Result<(), Error> {
        self.refusal()?;
        let done = self.try_end_strikeout();
        self.keep(done)
    }

    fn add_image(&mut self, src: &str, title: &str) -> Result<(), Error> {
        self.refusal()?;
        let done = self.try_add_image(src, title);
        self.keep(done)
    }

    fn add_horizontal_border(&mut self) -> Result<(), Error> {
        self.add_horizontal_border_width(self.width)
    }

    fn add_horizontal_border_width(&mut self, width: usize) -> Result<(), Error> {
        self.refusal()?;
        let done = self.try_add_border(width);
        self.keep(done)
    }

    fn append_subrender<P: AsStr + Drop, I: Iterator<Item = P>>(
        &mut self,
        other: SubRenderer<D, W>,
        prefixes: I,
    ) -> Result<(), Error> {
        self.refusal()?;
        let done = self.try_append_subrender(other, prefixes);
        self.keep(done)
    }

    fn append_vert_row(&mut self, cols: Vec<SubRenderer<D, W>>) -> Result<(), Error>
        ensures takes { let calls = calls_by W.columns (decoration_of D.TextDecorator D.Annotation.tells) in
            let given = gathered (λ col. handed_out W.columns col) cols.items in
            Takes calls given (Each (IsWide calls) cols.items) calls.append_vert_row
            self.old result self.new }
        ensures best { OnOk result (EndsBest W.columns self.old × Each (λ col. EndsBest W.columns col) cols.items) }
    {
        self.refusal()?;
        let done = self.try_append_vert_row(cols);
        self.keep(done)
    }

    fn append_columns_aligned(
        &mut self,
        cols: Vec<(SubRenderer<D, W>, usize)>,
        aligns: &[CellAlign],
        collapse: bool,
    ) -> Result<(), Error>
        requires spans { Each (λ col. 0 < col.1) cols.items }
        requires aligns { length aligns.now ≡ length cols.items }
        requires fits { row_fits self.old.hanging (spots_of W.columns cols.items) ≡ true }
        ensures takes { let calls = calls_by W.columns (decoration_of D.TextDecorator D.Annotation.tells) in
            let given = cells_handed_out W.columns cols.items aligns.now in
            Takes calls given (Each (λ col. IsWide calls col.0) cols.items) (calls.append_row collapse)
            self.old result self.new }
        ensures best { OnOk result (EndsBest W.columns self.old × Each (λ col. EndsBest W.columns col.0) cols.items) }
    {
        self.refusal()?;
        let done = self.try_append_columns(cols, aligns, collapse);
        self.keep(done)
    }

    fn append_columns_with_borders(
        &mut self,
        cols: Vec<(SubRenderer<D, W>, usize)>,
        collapse: bool,
    ) -> Result<(), Error>
        requires spans { Each (λ col. 0 < col.1) cols.items }
        requires fits { row_fits self.old.hanging (spots_of W.columns cols.items) ≡ true }
        ensures takes { let calls = calls_by W.columns (decoration_of D.TextDecorator D.Annotation.tells) in
            let given = cells_handed_out W.columns cols.items [] in
            Takes calls given (Each (λ col. IsWide calls col.0) cols.items) (calls.append_row collapse)
            self.old result self.new }
        ensures best { OnOk result (EndsBest W.columns self.old × Each (λ col. EndsBest W.columns col.0) cols.items) }
    {
        self.refusal()?;
        let done = self.try_append_columns(cols, &[], collapse);
        self.keep(done)
    }

    fn push_colour(&mut self, colour: Colour) -> Result<(), Error> {
        self.refusal()?;
        let done = self.try_push_colour(Ground::Text, colour);
        self.keep(done)
    }

    fn pop_colour(&mut self) {
        if self.failure().is_none() {
            self.take_colour(Ground::Text);
        }
    }

    fn push_bgcolour(&mut self, colour: Colour) -> Result<(), Error> {
        self.refusal()?;
        let done = self.try_push_colour(Ground::Background, colour);
        self.keep(done)
    }

    fn pop_bgcolour(&mut self) {
        if self.failure().is_none() {
            self.take_colour(Ground::Background);
        }
    }

    fn header_prefix(&mut self, level: usize) -> Result<String, Error> {
        Ok(self.decorator.header_prefix(self.alloc, level)?)
    }

    fn quote_prefix(&mut self) -> Result<String, Error> {
        Ok(self.decorator.quote_prefix(self.alloc)?)
    }

    fn unordered_item_prefix(&mut self) -> Result<String, Error> {
        Ok(self.decorator.unordered_item_prefix(self.alloc)?)
    }

    fn ordered_item_prefix(&mut self, i: i64) -> Result<String, Error> {
        Ok(self.decorator.ordered_item_prefix(self.alloc, i)?)
    }

    fn new_sub_renderer(&self, width: usize) -> Result<SubRenderer<D, W>, Error> {
        let decorator = self.decorator.make_subblock_decorator(self.alloc)?;
        let mut sub = SubRenderer::new(self.alloc, width, self.options, decorator);
        sub.set_annotations(self.tag()?);
        Ok(sub)
    }

    fn width(&self) -> usize {
        self.width
    }

    fn empty(&self) -> bool {
        self.failure().is_none() && self.has_no_line() && self.has_empty_block()
    }
}
