//! The end of runs, and the beginning of blocks.
ghost use Rattle.std.specs.Prelude.{◌≡◌, ◌≢◌, ◌≤◌, ◌++◌, None, Err, true, map, fold, IfErr, OnOk};
ghost use Rattle.tbr_wrap.specs.Runs.{is_some_list};
ghost use Rattle.tbr_wrap.specs.Block.{has_no_character, left};
ghost use Rattle.tbr_kept_lines.specs.Line.{text_lines};
ghost use Rattle.tbr_tagged.specs.declared.Error.TheVariants as E;
ghost use Rattle.tbr_renderer.specs.Renderer.{KeepsSettings, with_line, block_width};
ghost use Rattle.tbr_renderer.specs.Flush.{EndsBest, filled_line, AddsAsIs, after_flush};
ghost use Rattle.tbr_renderer.specs.Outcomes.{Tries};
ghost use Rattle.tbr_renderer.specs.Steps.{with_empty_line, after_empty_line, block_started, after_block_start, at_line_start, after_break};

use crate::sub::SubRenderer;
use tbr_annotations::Annotations;
use tbr_decor::TextDecorator;
use tbr_model::CharWidth;
use tbr_tagged::{Error, OutOfMemory, TaggedLine};
use tbr_wrap::{EndedLines, WrappedBlock};

impl<D: TextDecorator, W: CharWidth> SubRenderer<D, W> {
    /// Adds the lines that a block has ended. It refuses only where memory is refused.
    fn add_lines_of(
        &mut self,
        block: WrappedBlock<Annotations<D::Annotation>, W>,
    ) -> Result<(), Error>
        requires unfailed { self.old.failure ≡ None }
        requires block { block.failure ≡ None }
        requires ended { has_no_character W.columns block ≡ true }
        ensures lines { OnOk result (self.new ≡ fold (with_line W.columns) self.old
            (map (filled_line W.columns block) (left W.columns block))) }
        ensures unfailed { OnOk result (self.new.failure ≡ None) }
        ensures memory { IfErr result (λ e. e ≡ E.OutOfMemory) }
        ensures settings { KeepsSettings self.old self.new }
    {
        if block.lines_left() == 0 || !self.adds_as_is(&block) {
            return self.add_each_line_of(block);
        }
        self.push_ended(block.into_ended())?;
        Ok(())
    }

    /// Adds lines that a block has ended as they are. Where memory is refused, lines are lost.
    fn push_ended(
        &mut self,
        ended: EndedLines<Annotations<D::Annotation>>,
    ) -> Result<(), OutOfMemory>
        requires { is_some_list ended ≡ true }
        ensures lines { OnOk result (self.new ≡ record self.old { lines = self.old.lines ++ text_lines ended }) }
        ensures settings { KeepsSettings self.old self.new }
    {
        self.lines.push_ended(ended)
    }

    /// Whether a block's lines are added as they are: they aren't padded, and no marker waits.
    fn adds_as_is(&self, block: &WrappedBlock<Annotations<D::Annotation>, W>) -> bool
        ensures { result ≡ true → AddsAsIs self.now block.now }
    {
        !block.pads() && !self.options.pad_block_width && self.waiting.is_empty()
    }

    /// Adds the lines that a block has ended, one by one. It refuses only where memory is refused.
    fn add_each_line_of(
        &mut self,
        mut block: WrappedBlock<Annotations<D::Annotation>, W>,
    ) -> Result<(), Error>
        requires unfailed { self.old.failure ≡ None }
        requires block { block.failure ≡ None }
        ensures lines { OnOk result (self.new ≡ fold (with_line W.columns) self.old
            (map (filled_line W.columns block) (left W.columns block))) }
        ensures unfailed { OnOk result (self.new.failure ≡ None) }
        ensures memory { IfErr result (λ e. e ≡ E.OutOfMemory) }
        ensures settings { KeepsSettings self.old self.new }
    {
        while let Some(line) = block.next_line()? {
            self.add_line(line)?;
        }
        Ok(())
    }

    /// Ends the run of the open block, if there is one.
    pub(crate) fn try_flush(&mut self) -> Result<(), Error>
        requires { self.old.failure ≡ None }
        ensures tries { Tries (after_flush W.columns) self.old result self.new }
        ensures unfailed { OnOk result (self.new.failure ≡ None) }
        ensures two_columns { 2 ≤ block_width self.old → result ≢ Err E.TooNarrow }
        ensures best { OnOk result (EndsBest W.columns self.old) }
        ensures settings { KeepsSettings self.old self.new }
    {
        let Some(mut block) = self.take_block() else {
            return Ok(());
        };
        block.flush()?;
        let markers = block.take_trailing_fragments()?;
        self.add_lines_of(block)?;
        self.add_waiting(markers)?;
        Ok(())
    }

    /// Ends the run, and adds an empty line.
    pub(crate) fn try_add_empty_line(&mut self) -> Result<(), Error>
        requires { self.old.failure ≡ None }
        ensures tries { Tries (after_empty_line W.columns) self.old result self.new }
        ensures two_columns { 2 ≤ block_width self.old → result ≢ Err E.TooNarrow }
        ensures best { OnOk result (EndsBest W.columns self.old) }
        ensures settings { KeepsSettings self.old self.new }
    {
        self.try_flush()?;
        self.put_empty_line()?;
        Ok(())
    }

    /// Adds an empty line. Text after it begins no block.
    fn put_empty_line(&mut self) -> Result<(), OutOfMemory>
        requires { self.old.failure ≡ None }
        ensures line { OnOk result (self.new ≡ with_empty_line W.columns self.old) }
        ensures unfailed { OnOk result (self.new.failure ≡ None) }
        ensures settings { KeepsSettings self.old self.new }
    {
        self.add_line(TaggedLine::new(self.alloc))?;
        self.set_block_ended(false);
        Ok(())
    }

    /// Ends the run, and begins a block.
    pub(crate) fn try_start_block(&mut self) -> Result<(), Error>
        requires { self.old.failure ≡ None }
        ensures tries { Tries (after_block_start W.columns) self.old result self.new }
        ensures unfailed { OnOk result (self.new.failure ≡ None) }
        ensures columns { OnOk result (block_width self.new ≡ block_width self.old) }
        ensures two_columns { 2 ≤ block_width self.old → result ≢ Err E.TooNarrow }
        ensures best { OnOk result (EndsBest W.columns self.old) }
        ensures settings { KeepsSettings self.old self.new }
    {
        self.try_flush()?;
        self.begin_block()?;
        Ok(())
    }

    /// Begins a block, after an empty line where any line has content.
    fn begin_block(&mut self) -> Result<(), OutOfMemory>
        requires { self.old.failure ≡ None }
        ensures begun { OnOk result (self.new ≡ block_started W.columns self.old) }
        ensures unfailed { OnOk result (self.new.failure ≡ None) }
        ensures settings { KeepsSettings self.old self.new }
    {
        if self.has_content() {
            return self.put_empty_line();
        }
        self.set_block_ended(false);
        Ok(())
    }

    /// Whether no block is open, or its open line and word take no columns.
    fn is_at_line_start(&self) -> bool
        requires { self.now.failure ≡ None }
        ensures { let r = self.now in result ≡ at_line_start W.columns r r.block }
    {
        match &self.wrapping {
            Some(block) => block.at_line_start(),
            None => true,
        }
    }

    /// Ends the run. Where nothing is open that takes columns, it adds an empty line.
    pub(crate) fn try_break_line(&mut self) -> Result<(), Error>
        requires { self.old.failure ≡ None }
        ensures tries { Tries (after_break W.columns) self.old result self.new }
        ensures two_columns { 2 ≤ block_width self.old → result ≢ Err E.TooNarrow }
        ensures best { OnOk result (EndsBest W.columns self.old) }
        ensures settings { KeepsSettings self.old self.new }
    {
        if self.is_at_line_start() {
            return self.try_add_empty_line();
        }
        self.try_flush()
    }
}
