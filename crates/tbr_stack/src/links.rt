//! Links that start and end in the top of a stack.
ghost use Rattle.std.specs.Prelude.{◌≡◌, ◌≢◌, ◌<◌, ◌≤◌, None, Some, Err, length, chars, IfOk, IfErr, OnOk, OnErr, MatchResult, is_ok};
ghost use Rattle.tbr_tagged.specs.View.{chars_of};
ghost use Rattle.tbr_tagged.specs.declared.Error.TheVariants as E;
ghost use Rattle.tbr_decor.specs.Decoration.{decoration_of};
ghost use Rattle.tbr_decor.specs.Start as start;
ghost use Rattle.tbr_renderer.specs.Renderer.{block_width, kept_of};
ghost use Rattle.tbr_renderer.specs.Outcomes.{Tries};
ghost use Rattle.tbr_renderer.specs.Calls.{KeepsFailure, Fails, Answers, IsWide, calls_by};
ghost use Rattle.tbr_stack.specs.Top.{failure_of, ChangesTop, OfTop};
ghost use Rattle.tbr_stack.specs.Links.{link_number, open_links, shown_number, after_link_start, after_end_with, after_link_end, StopsToStart, StopsToEnd};

use crate::stack::TextRenderer;
use std::alloc::Global;
use tbr_decor::{TextDecorator, text};
use tbr_model::CharWidth;
use tbr_renderer::{Renderer, SubRenderer};
use tbr_tagged::{Error, OutOfMemory};

impl<D: TextDecorator, W: CharWidth> TextRenderer<D, W> {
    /// Starts a link in the top, and adds its target to the others. It asks for a depth of at least 1.
    ///
    /// It refuses where the top does, and where memory is refused. The top has then failed. A top that had failed
    /// answers the refusal that it keeps, and nothing changes. If memory is refused before the top begins the link, the
    /// link isn't opened. Otherwise it is open, even if the top refuses.
    pub fn start_link(&mut self, target: &str) -> Result<(), Error>
        requires { 0 < length self.old.levels }
        ensures tries { let decoration = decoration_of D.TextDecorator D.Annotation.tells in
            Tries (after_link_start W.columns decoration (chars target.now)) self.old result self.new }
        ensures two_columns { failure_of self.old ≡ None → OfTop (λ r. 2 ≤ block_width r) self.old →
            result ≢ Err E.TooNarrow }
        ensures left { failure_of self.old ≡ None → OnErr result
            (StopsToStart (chars target.now) self.old self.new) }
        ensures kept { KeepsFailure failure_of self.old result self.new }
    {
        self.refusal()?;
        let done = self.open_link(target);
        self.keep(done)?;
        self.top_mut().start_link(target)
    }

    /// Ends the link that was opened last in the top, and closes it. With footnotes its number is added after it as
    /// text. It asks for a depth of at least 1.
    ///
    /// If no link is open in the top, the top's call is made all the same, and no number is added. It refuses where the
    /// top does, and where memory is refused. The top has then failed, and no link was closed. A top that had failed
    /// answers the refusal that it keeps, and nothing changes.
    pub fn end_link(&mut self) -> Result<(), Error>
        requires { 0 < length self.old.levels }
        ensures tries { let make = after_link_end W.columns (decoration_of D.TextDecorator D.Annotation.tells) in
            Tries make self.old result self.new }
        ensures two_columns { failure_of self.old ≡ None → OfTop (λ r. 2 ≤ block_width r) self.old →
            result ≢ Err E.TooNarrow }
        ensures left { failure_of self.old ≡ None → OnErr result
            (StopsToEnd self.old self.new) }
        ensures kept { KeepsFailure failure_of self.old result self.new }
    {
        let number = self.shown_number();
        let alloc = self.alloc();
        end_with(self.top_mut(), alloc, number)?;
        self.close_link();
        Ok(())
    }

    /// The number that is shown where a link ends, if one is.
    fn shown_number(&self) -> Option<usize>
        requires { 0 < length self.now.levels }
        ensures { OfTop (λ r. result ≡ shown_number r (open_links self.now)) self.now }
    {
        if !self.top().options().include_link_footnotes {
            return None;
        }
        self.last_open_link()
    }

    /// Answers the kept refusal of the top, if there is one.
    fn refusal(&self) -> Result<(), Error>
        requires { 0 < length self.now.levels }
        ensures { MatchResult result (λ _. failure_of self.now ≡ None) (λ e. failure_of self.now ≡ Some e) }
    {
        match self.top().failure() {
            Some(e) => Err(e),
            None => Ok(()),
        }
    }

    /// Keeps in the top that memory was refused.
    fn keep(&mut self, done: Result<(), OutOfMemory>) -> Result<(), Error>
        requires depth { 0 < length self.old.levels }
        requires unfailed { failure_of self.old ≡ None }
        ensures result { is_ok result ≡ is_ok done }
        ensures ok { OnOk result (self.new ≡ self.old) }
        ensures memory { IfErr result (λ e. e ≡ E.OutOfMemory) }
        ensures failed { OnErr result
            (ChangesTop (λ r q. q ≡ record r { failure = Some E.OutOfMemory }) self.old self.new) }
    {
        let Err(e) = done else {
            return Ok(());
        };
        self.top_mut().fail(e);
        Err(Error::OutOfMemory)
    }
}

/// Ends a link in a renderer, and adds its number, if one is shown.
fn end_with<D: TextDecorator, W: CharWidth>(
    renderer: &mut SubRenderer<D, W>,
    alloc: Global,
    number: Option<usize>,
) -> Result<(), Error>
    ensures tries { let make = after_end_with W.columns (decoration_of D.TextDecorator D.Annotation.tells) number in
        Tries make renderer.old result renderer.new }
    ensures two_columns { let calls = calls_by W.columns (decoration_of D.TextDecorator D.Annotation.tells) in
        IsWide calls renderer.old → result ≢ Err E.TooNarrow }
    ensures fails { let calls = calls_by W.columns (decoration_of D.TextDecorator D.Annotation.tells) in
        Fails calls renderer.old result renderer.new }
{
    renderer.end_link()?;
    match number {
        Some(k) => add_number(renderer, alloc, k),
        None => Ok(()),
    }
}

/// Adds the number of a link as text. The renderer fails where memory for it is refused.
fn add_number<D: TextDecorator, W: CharWidth>(
    renderer: &mut SubRenderer<D, W>,
    alloc: Global,
    k: usize,
) -> Result<(), Error>
    requires { renderer.old.failure ≡ None }
    ensures answers { let calls = calls_by W.columns (decoration_of D.TextDecorator D.Annotation.tells) in
        Answers calls (calls.add_inline_text (link_number k)) renderer.old result renderer.new }
{
    match text::bracketed_number(alloc, k, 0) {
        Ok(number) => renderer.add_inline_text(number.as_str()),
        Err(e) => {
            renderer.fail(e);
            Err(Error::OutOfMemory)
        }
    }
}
