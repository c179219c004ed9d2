//! Struck out text.
ghost use Rattle.std.specs.Prelude.{◌≡◌, ◌≢◌, ◌<◌, ◌≤◌, true, None, Err, IfErr, OnOk, OnErr};
ghost use Rattle.tbr_tagged.specs.declared.Error.TheVariants as E;
ghost use Rattle.tbr_decor.specs.Decoration.{decoration_of};
ghost use Rattle.tbr_renderer.specs.Renderer.{kept_of, block_width};
ghost use Rattle.tbr_renderer.specs.Decorated.{struck_from, struck_until, after_strikeout_start, after_strikeout_end};
ghost use Rattle.tbr_renderer.specs.Outcomes.{Tries};

use crate::sub::SubRenderer;
use crate::sub::decorated::{End, Start};
use tbr_decor::TextDecorator;
use tbr_model::CharWidth;
use tbr_tagged::Error;

impl<D: TextDecorator, W: CharWidth> SubRenderer<D, W> {
    /// Gives later text one stroke more, if the options ask for strokes.
    fn strike(&mut self) -> Result<(), Error>
        ensures ok { OnOk result (self.new ≡ struck_from self.old) }
        ensures memory { IfErr result (λ e. e ≡ E.OutOfMemory) }
        ensures err { OnErr result (self.new ≡ self.old) }
    {
        if !self.options.use_unicode_strikeout {
            return Ok(());
        }
        let Some(depth) = self.strikeouts.checked_add(1) else {
            return Err(Error::OutOfMemory);
        };
        self.strikeouts = depth;
        Ok(())
    }

    /// Gives later text one stroke less, if the options ask for strokes.
    fn end_strike(&mut self)
        requires { self.old.options.use_unicode_strikeout ≡ true → 0 < self.old.strikeouts }
        ensures ended { self.new ≡ struck_until self.old }
        ensures failure { self.new.failure ≡ self.old.failure }
        ensures columns { block_width self.new ≡ block_width self.old }
    {
        if self.options.use_unicode_strikeout {
            self.strikeouts -= 1;
        }
    }

    /// Sets how many strikeouts are open.
    fn set_strikeouts(&mut self, depth: usize)
        ensures { self.new ≡ record self.old { strikeouts = depth } }
    {
        self.strikeouts = depth;
    }

    /// Opens a strikeout. Characters after the decorator's text have strokes.
    pub(crate) fn try_start_strikeout(&mut self) -> Result<(), Error>
        requires { self.old.failure ≡ None }
        ensures tries { let decoration = decoration_of D.TextDecorator D.Annotation.tells in
            Tries (after_strikeout_start W.columns decoration) self.old result self.new }
        ensures two_columns { 2 ≤ block_width self.old → result ≢ Err E.TooNarrow }
        ensures kept { OnErr result (kept_of self.new ≡ kept_of self.old) }
    {
        self.try_open(Start::Strikeout)?;
        self.strike()
    }

    /// Closes a strikeout. The decorator's text has no strokes of it. Where that is refused, the strikeout stays open.
    pub(crate) fn try_end_strikeout(&mut self) -> Result<(), Error>
        requires unfailed { self.old.failure ≡ None }
        requires open { self.old.options.use_unicode_strikeout ≡ true → 0 < self.old.strikeouts }
        ensures tries { let decoration = decoration_of D.TextDecorator D.Annotation.tells in
            Tries (after_strikeout_end W.columns decoration) self.old result self.new }
        ensures two_columns { 2 ≤ block_width self.old → result ≢ Err E.TooNarrow }
        ensures kept { OnErr result (kept_of self.new ≡ kept_of self.old) }
    {
        let depth = self.strikeouts;
        self.end_strike();
        let done = self.try_close(End::Strikeout);
        if done.is_err() {
            self.set_strikeouts(depth);
        }
        done
    }
}
