//! Text that joins the open block.
ghost use Rattle.std.specs.Prelude.{◌≡◌, ◌≢◌, ◌≤◌, ◌++◌, ◌∷◌, [], None, Err, true, false, map, chars, IfOk, IfErr, OnOk, replicate};
ghost use Rattle.tbr_tagged.specs.View.{chars_of};
ghost use Rattle.tbr_tagged.specs.declared.Error.TheVariants as E;
ghost use Rattle.tbr_renderer.specs.Renderer.{KeepsSettings, block_width, may_overflow, last_mode, struck, struck_character, open_block, new_block, stroke, text_annotations, entries_under};
ghost use Rattle.tbr_renderer.specs.Renderer.{entries_of, called, with_events, is_white, ignores};
ghost use Rattle.tbr_renderer.specs.View.{IsFresh, Writes, open_seen};
ghost use Rattle.tbr_renderer.specs.Steps.{after_joining, after_first_text, after_text};
ghost use Rattle.tbr_renderer.specs.Outcomes.{Tries};
ghost use Rattle.tbr_model.specs.Rule.{entry};
ghost use Rattle.tbr_model.specs.Run.{marker_entry};

use crate::sub::SubRenderer;
use std::alloc::Global;
use tbr_annotations::Annotations;
use tbr_decor::TextDecorator;
use tbr_model::{CharWidth, WhiteSpace};
use tbr_tagged::{Error, OutOfMemory, STROKE, TaggedLineElement};
use tbr_wrap::WrappedBlock;

impl<D: TextDecorator, W: CharWidth> SubRenderer<D, W> {
    /// The mode that was pushed last.
    fn mode(&self) -> WhiteSpace
        ensures { result ≡ last_mode self.now.modes }
    {
        match self.modes.last() {
            Some(mode) => *mode,
            None => WhiteSpace::Normal,
        }
    }

    /// The columns of a block.
    fn block_columns(&self) -> usize
        ensures { result ≡ block_width self.now }
    {
        match self.options.wrap_width {
            Some(wrap) => self.width.min(wrap),
            None => self.width,
        }
    }

    /// The annotations of later text.
    pub(crate) fn tag(&self) -> Result<Annotations<D::Annotation>, OutOfMemory>
        ensures { IfOk result (λ tag. tag ≡ self.now.annotations) }
    {
        self.annotations.list()
    }

    /// A block without text.
    fn new_block(&self) -> Result<WrappedBlock<Annotations<D::Annotation>, W>, OutOfMemory>
        ensures fresh { IfOk result (λ b. IsFresh W.columns (block_width self.now) (may_overflow self.now) b) }
        ensures block { IfOk result (λ b.
            open_seen b ≡ new_block self.now) }
    {
        WrappedBlock::new(
            self.alloc,
            self.block_columns(),
            self.options.pad_block_width,
            self.options.allow_width_overflow,
            self.tag()?,
        )
    }

    /// Takes the open block, or a new one.
    fn take_or_new_block(
        &mut self,
    ) -> Result<WrappedBlock<Annotations<D::Annotation>, W>, OutOfMemory>
        requires { self.old.failure ≡ None }
        ensures fresh { IfOk result (λ b. IsFresh W.columns (block_width self.old) (may_overflow self.old) b) }
        ensures block { IfOk result (λ b.
            open_seen b ≡ open_block self.old) }
        ensures rest { OnOk result (self.new ≡ record self.old { block = None }) }
        ensures settings { KeepsSettings self.old self.new }
    {
        match self.take_block() {
            Some(block) => Ok(block),
            None => self.new_block(),
        }
    }

    /// The annotations of a text, and those that it has where its hard line goes on.
    fn text_tags(
        &mut self,
    ) -> Result<(Annotations<D::Annotation>, Annotations<D::Annotation>), OutOfMemory>
        ensures main { IfOk result (λ tags. tags.0 ≡ text_annotations D.preformatted false self.old) }
        ensures continued { IfOk result (λ tags. tags.1 ≡ text_annotations D.preformatted true self.old) }
        ensures same { self.new ≡ self.old }
    {
        if self.preformatted == 0 {
            let tag = self.tag()?;
            return Ok((tag.clone()?, tag));
        }
        let first = self.decorator.decorate_preformat_first(self.alloc)?;
        let continued = self.decorator.decorate_preformat_cont(self.alloc)?;
        self.annotations.with_each(self.alloc, first, continued)
    }

    /// Writes text into a block, in the mode that was pushed last, under these annotations.
    fn write_under(
        &self,
        block: &mut WrappedBlock<Annotations<D::Annotation>, W>,
        text: &str,
        main: &Annotations<D::Annotation>,
        continued: &Annotations<D::Annotation>,
    ) -> Result<(), Error>
        requires fresh { IsFresh W.columns (block_width self.now) (may_overflow self.now) block.old }
        requires main { main.now
            ≡ text_annotations D.preformatted false self.now }
        requires continued { continued.now
            ≡ text_annotations D.preformatted true self.now }
        ensures fresh { OnOk result (IsFresh W.columns (block_width self.now) (may_overflow self.now) block.new) }
        ensures writes { let r = self.now in
            let es = entries_under D.preformatted r (chars text.now) in
            Writes W.columns r (called es) block.old result block.new }
        ensures two_columns { 2 ≤ block_width self.now → result ≢ Err E.TooNarrow }
    {
        block.add_text(text, self.mode(), main, continued)
    }

    /// Writes the empty text into a block.
    fn write_nothing(
        &self,
        block: &mut WrappedBlock<Annotations<D::Annotation>, W>,
    ) -> Result<(), Error>
        requires fresh { IsFresh W.columns (block_width self.now) (may_overflow self.now) block.old }
        ensures fresh { OnOk result (IsFresh W.columns (block_width self.now) (may_overflow self.now) block.new) }
        ensures writes { Writes W.columns self.now (called []) block.old result block.new }
        ensures two_columns { 2 ≤ block_width self.now → result ≢ Err E.TooNarrow }
    {
        block.add_empty_text()
    }

    /// Writes text into a block, with strokes inside strikeouts, under these annotations.
    fn write(
        &self,
        block: &mut WrappedBlock<Annotations<D::Annotation>, W>,
        text: &str,
        main: &Annotations<D::Annotation>,
        continued: &Annotations<D::Annotation>,
    ) -> Result<(), Error>
        requires fresh { IsFresh W.columns (block_width self.now) (may_overflow self.now) block.old }
        requires main { main.now
            ≡ text_annotations D.preformatted false self.now }
        requires continued { continued.now
            ≡ text_annotations D.preformatted true self.now }
        ensures fresh { OnOk result (IsFresh W.columns (block_width self.now) (may_overflow self.now) block.new) }
        ensures writes { let r = self.now in
            let es = entries_of W.columns D.preformatted r (chars text.now) in
            Writes W.columns r (called es) block.old result block.new }
        ensures two_columns { 2 ≤ block_width self.now → result ≢ Err E.TooNarrow }
    {
        if text.is_empty() {
            return self.write_nothing(block);
        }
        if self.strikeouts == 0 {
            return self.write_under(block, text, main, continued);
        }
        let struck = struck_text::<W>(self.alloc, text, self.strikeouts)?;
        self.write_under(block, struck.as_str(), main, continued)
    }

    /// Adds text to the open block, or to a new one.
    fn add_to_block(&mut self, text: &str) -> Result<(), Error>
        requires { self.old.failure ≡ None }
        ensures tries { Tries
            (after_joining W.columns D.preformatted (chars text.now)) self.old result self.new }
        ensures two_columns { 2 ≤ block_width self.old → result ≢ Err E.TooNarrow }
        ensures settings { KeepsSettings self.old self.new }
    {
        let mut block = self.take_or_new_block()?;
        let (main, continued) = self.text_tags()?;
        self.write(&mut block, text, &main, &continued)?;
        self.put_block(block);
        Ok(())
    }

    /// Whether a text is ignored, as white space after the end of a block is.
    fn ignores(&self, text: &str) -> bool
        ensures { result ≡ ignores self.now (chars text.now) }
    {
        self.block_ended && !self.mode().preserve_whitespace() && is_white_text(text)
    }

    /// Whether the next text begins a block.
    fn has_block_ended(&self) -> bool
        ensures { result ≡ self.now.block_ended }
    {
        self.block_ended
    }

    /// Begins a block with text.
    fn begin_with(&mut self, text: &str) -> Result<(), Error>
        requires { self.old.failure ≡ None }
        ensures tries { Tries
            (after_first_text W.columns D.preformatted (chars text.now)) self.old result self.new }
        ensures two_columns { 2 ≤ block_width self.old → result ≢ Err E.TooNarrow }
        ensures settings { KeepsSettings self.old self.new }
    {
        self.try_start_block()?;
        self.add_to_block(text)
    }

    /// Adds text to the open block, or to a new one. After the end of a block it begins one.
    pub(crate) fn try_add_text(&mut self, text: &str) -> Result<(), Error>
        requires { self.old.failure ≡ None }
        ensures tries { Tries
            (after_text W.columns D.preformatted (chars text.now)) self.old result self.new }
        ensures two_columns { 2 ≤ block_width self.old → result ≢ Err E.TooNarrow }
        ensures settings { KeepsSettings self.old self.new }
    {
        if self.ignores(text) {
            return Ok(());
        }
        if self.has_block_ended() {
            return self.begin_with(text);
        }
        self.add_to_block(text)
    }

    /// Puts a marker into the open block, or into a new one.
    pub(crate) fn try_add_marker(&mut self, name: &str) -> Result<(), Error>
        requires { self.old.failure ≡ None }
        ensures ok { OnOk result
            (self.new ≡ with_events self.old (entry (marker_entry name.now) ∷ [])) }
        ensures memory { IfErr result (λ e. e ≡ E.OutOfMemory) }
        ensures settings { KeepsSettings self.old self.new }
    {
        let name = String::from_str(self.alloc, name)?;
        let mut block = self.take_or_new_block()?;
        block.add_element(TaggedLineElement::FragmentStart(name))?;
        self.put_block(block);
        Ok(())
    }
}

/// Whether a text is white space alone.
fn is_white_text(text: &str) -> bool
    ensures { result ≡ is_white (chars text.now) }
{
    text.chars().all(|c| c.is_whitespace())
}

/// The text with strokes, as many as `depth`, after each character that takes columns.
fn struck_text<W: CharWidth>(alloc: Global, text: &str, depth: usize) -> Result<String, OutOfMemory>
    ensures { IfOk result (λ s. chars_of s ≡ struck W.columns depth (chars text.now)) }
{
    let mut s = String::new(alloc);
    for c in text.chars() {
        push_struck::<W>(&mut s, c, depth)?;
    }
    Ok(s)
}

/// Appends a character, with strokes after it if it takes columns.
fn push_struck<W: CharWidth>(s: &mut String, c: char, depth: usize) -> Result<(), OutOfMemory>
    ensures { OnOk result (chars_of s.new ≡ chars_of s.old ++ struck_character W.columns depth c) }
{
    s.push(c)?;
    if W::width(c).unwrap_or(0) == 0 {
        return Ok(());
    }
    push_strokes(s, depth)
}

/// Appends strokes.
fn push_strokes(s: &mut String, count: usize) -> Result<(), OutOfMemory>
    ensures { OnOk result (chars_of s.new ≡ chars_of s.old ++ replicate count stroke) }
{
    for _ in 0..count {
        s.push(STROKE)?;
    }
    Ok(())
}
