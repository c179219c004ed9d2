//! Borders, and how they become text where lines are padded.
ghost use Rattle.std.specs.Prelude.{◌≡◌, ◌≢◌, ◌≤◌, None, Err, OnOk, IfOk};
ghost use Rattle.tbr_border.specs.Cell.{cell_of};
ghost use Rattle.tbr_tagged.specs.declared.Error.TheVariants as E;
ghost use Rattle.tbr_renderer.specs.Renderer.{KeepsSettings, block_width};
ghost use Rattle.tbr_rows.specs.Meant.{map_border};
ghost use Rattle.tbr_renderer.specs.Appended.{with_border, border_of_cells, with_divider, after_border};
ghost use Rattle.tbr_renderer.specs.Flush.{EndsBest};
ghost use Rattle.tbr_renderer.specs.Outcomes.{Tries};

use crate::sub::SubRenderer;
use tbr_annotations::Annotations;
use tbr_border::{BorderHoriz, BorderSegHoriz, RenderLine};
use tbr_decor::TextDecorator;
use tbr_model::CharWidth;
use tbr_tagged::{Error, OutOfMemory};

impl<D: TextDecorator, W: CharWidth> SubRenderer<D, W> {
    /// Adds a border, as text where lines are padded. Where memory is refused, it is lost.
    pub(crate) fn add_border(
        &mut self,
        border: BorderHoriz<Annotations<D::Annotation>>,
    ) -> Result<(), OutOfMemory>
        requires { self.old.failure ≡ None }
        ensures border { OnOk result (self.new
            ≡ with_border W.columns self.old border) }
        ensures unfailed { OnOk result (self.new.failure ≡ None) }
        ensures settings { KeepsSettings self.old self.new }
    {
        if !self.options.pad_block_width {
            return self.push_line(RenderLine::Line(border));
        }
        let mut line = border.into_tagged_line()?;
        self.fill(&mut line)?;
        self.push_line(RenderLine::Text(line))
    }

    /// A border of `width` cells of one kind, under a copy of the annotations.
    fn border_of(
        &self,
        width: usize,
        cell: BorderSegHoriz,
    ) -> Result<BorderHoriz<Annotations<D::Annotation>>, OutOfMemory>
        ensures { IfOk result (λ border. border
            ≡ border_of_cells (cell_of cell) width self.now) }
    {
        BorderHoriz::new_type(self.alloc, width, cell, self.tag()?)
    }

    /// Ends the run, and adds a border.
    pub(crate) fn try_add_border(&mut self, width: usize) -> Result<(), Error>
        requires { self.old.failure ≡ None }
        ensures tries { Tries (after_border W.columns width) self.old result self.new }
        ensures two_columns { 2 ≤ block_width self.old → result ≢ Err E.TooNarrow }
        ensures best { OnOk result (EndsBest W.columns self.old) }
        ensures settings { KeepsSettings self.old self.new }
    {
        self.try_flush()?;
        let border = self.border_of(width, BorderSegHoriz::Horiz)?;
        self.add_border(border)?;
        Ok(())
    }

    /// Adds a border of the renderer's width and of one kind of cell, where borders are drawn.
    pub(crate) fn add_divider(&mut self, cell: BorderSegHoriz) -> Result<(), OutOfMemory>
        requires { self.old.failure ≡ None }
        ensures divider { OnOk result (self.new
            ≡ with_divider W.columns (cell_of cell) self.old) }
        ensures unfailed { OnOk result (self.new.failure ≡ None) }
        ensures settings { KeepsSettings self.old self.new }
    {
        if !self.options.draw_borders {
            return Ok(());
        }
        let border = self.border_of(self.width, cell)?;
        self.add_border(border)
    }
}
