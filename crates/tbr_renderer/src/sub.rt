//! A renderer of blocks of text.
ghost use Rattle.std.specs.Prelude.{◌≡◌, ◌≢◌, ◌<◌, [], ◌∷◌, ◌++◌, None, Some, false, ◌-◌, map, IsTrue, ◌↔◌, is_err, max, IfOk, IfErr, OnOk, MatchResult};
ghost use Rattle.std.specs.List.{AllByRecursion as Each};
ghost use Rattle.tbr_tagged.specs.declared.Error.{Error as Refusal};
ghost use Rattle.tbr_tagged.specs.declared.Error.TheVariants as E;
ghost use Rattle.tbr_renderer.specs.Renderer.{KeepsSettings, kept_of, new_renderer, has_content, line_padding, with_filled, with_line, block_width, may_overflow};
ghost use Rattle.tbr_kept_lines.specs.Line.{line_seen};
ghost use Rattle.tbr_renderer.specs.View.{block_seen, IsFresh, IsOpened, AreMarkers, names_of};
ghost use Rattle.tbr_tagged.specs.View.{element_of};
ghost use Rattle.tbr_annotations.specs.Annotations.{same_annotations};
ghost use Rattle.tbr_tagged.specs.Elements.{items_of, SameItems, IsMerged};
ghost use Rattle.tbr_border.specs.RenderLine.{IsMergedText};

use crate::options::RenderOptions;
use crate::renderer::Renderer;
use std::alloc::Global;
use std::marker::Model;
use std::mem;
use tbr_annotations::{Annotations, OpenAnnotations};
use tbr_border::RenderLine;
use tbr_decor::TextDecorator;
use tbr_kept_lines::KeptLines;
use tbr_model::{CharWidth, WhiteSpace};
use tbr_rows::Overhang;
use tbr_tagged::{Error, OutOfMemory, TaggedLine, TaggedLineElement, TooNarrow, UnicodeColumns};
use tbr_tags::Tag;
use tbr_wrap::WrappedBlock;

mod appended;
mod blocks;
mod borders;
mod calls;
mod colours;
mod decorated;
mod images;
mod lines;
mod links;
mod printed;
mod rows;
mod strikeouts;
mod texts;

/// A renderer of a width in columns, whose text is under lists of its decorator's annotations.
#[derive(Drop)]
pub struct SubRenderer<D: TextDecorator, W: CharWidth = UnicodeColumns> {
    alloc: Global,
    width: usize,
    options: RenderOptions,
    decorator: D,
    lines: KeptLines<Annotations<D::Annotation>>,
    /// The open block.
    wrapping: Option<WrappedBlock<Annotations<D::Annotation>, W>>,
    /// Markers that wait for a line of text.
    waiting: Vec<TaggedLineElement<Annotations<D::Annotation>>>,
    /// Whether the next text begins a block.
    block_ended: bool,
    annotations: OpenAnnotations<D::Annotation>,
    modes: Vec<WhiteSpace>,
    strikeouts: usize,
    preformatted: usize,
    failure: Option<Error>,
    /// The cells that overhang from the rows before.
    hanging: Overhang<Annotations<D::Annotation>>,
}

impl<D: TextDecorator, W: CharWidth> Model for SubRenderer<D, W> {
    ghost use Rattle.std.specs.Prelude.{List};
    ghost use Rattle.tbr_renderer.specs.Renderer.{Renderer};

    ghost Value = { Renderer D D.Annotation.Meaning (List D.Annotation.Meaning) };

    ghost use Rattle.tbr_renderer.specs.View.{renderer_of, HoldsRenderer};

    ghost view = { λ r. renderer_of r };

    ghost invariant = { λ r. HoldsRenderer W.columns r };
}

impl<D: TextDecorator, W: CharWidth> SubRenderer<D, W> {
    /// A renderer without text. It asks for a width of at least 1, and a wrap width of at least 1 if there is one. It
    /// takes no memory.
    pub fn new(
        alloc: Global,
        width: usize,
        options: RenderOptions,
        decorator: D,
    ) -> SubRenderer<D, W>
        requires width { 0 < width }
        requires wrap_width { options.wrap_width ≢ Some 0 }
        ensures { result ≡ new_renderer width options decorator }
    {
        SubRenderer {
            alloc,
            width,
            options,
            decorator,
            lines: KeptLines::new(alloc),
            wrapping: None,
            waiting: Vec::new(alloc),
            block_ended: false,
            annotations: OpenAnnotations::new(),
            modes: Vec::new(alloc),
            strikeouts: 0,
            preformatted: 0,
            failure: None,
            hanging: Overhang::new(alloc),
        }
    }

    /// What the renderer is told to do.
    pub fn options(&self) -> &RenderOptions
        ensures { result.now ≡ self.now.options }
    {
        &self.options
    }

    /// The kept refusal, if a call has refused.
    pub fn failure(&self) -> Option<Error>
        ensures { result ≡ self.now.failure }
    {
        self.failure
    }

    /// Makes the renderer fail with `OutOfMemory`, as a call of its own does that is refused memory. A renderer that
    /// has failed keeps its first refusal.
    ///
    /// It is for a caller who was refused memory, and whose renderer must not be filled any further.
    pub fn fail(&mut self, _refusal: OutOfMemory)
        ensures live { self.old.failure ≡ None → self.new ≡ record self.old { failure = Some E.OutOfMemory } }
        ensures failed { (e : Refusal) → self.old.failure ≡ Some e → self.new ≡ self.old }
    {
        if self.failure.is_none() {
            self.failure = Some(Error::OutOfMemory);
        }
    }

    /// How many strikeouts are open.
    pub fn strikeout_depth(&self) -> usize
        ensures { result ≡ self.now.strikeouts }
    {
        self.strikeouts
    }

    /// How many preformatted stretches are open.
    pub fn preformat_depth(&self) -> usize
        ensures { result ≡ self.now.preformatted }
    {
        self.preformatted
    }

    /// The columns that are left after a prefix of `prefix_len` columns, but at least `min_width`.
    ///
    /// It answers `TooNarrow` where fewer than `min_width` are left and lines may not be wider. It takes no memory, and
    /// a failure changes nothing.
    pub fn width_minus(&self, prefix_len: usize, min_width: usize) -> Result<usize, TooNarrow>
        ensures width { IfOk result (λ columns. columns ≡ max min_width (self.now.width - prefix_len)) }
        ensures too_narrow { IsTrue (is_err result)
            ↔ (self.now.width - prefix_len < min_width) × (self.now.options.allow_width_overflow ≡ false) }
    {
        let left = self.width.saturating_sub(prefix_len);
        if left < min_width && !self.options.allow_width_overflow {
            return Err(TooNarrow);
        }
        Ok(left.max(min_width))
    }

    /// Answers the kept refusal, if there is one.
    fn refusal(&self) -> Result<(), Error>
        ensures { MatchResult result (λ _. self.now.failure ≡ None) (λ e. self.now.failure ≡ Some e) }
    {
        match self.failure {
            Some(e) => Err(e),
            None => Ok(()),
        }
    }

    /// Keeps a refusal.
    fn keep(&mut self, done: Result<(), Error>) -> Result<(), Error>
        ensures result { result ≡ done }
        ensures ok { OnOk result (self.new ≡ self.old) }
        ensures failed { IfErr result (λ e. (self.new.failure ≡ Some e) × (kept_of self.new ≡ kept_of self.old)) }
        ensures left { IfErr result (λ e. self.new ≡ record self.old { failure = Some e }) }
        ensures settings { KeepsSettings self.old self.new }
    {
        if let Err(e) = done {
            self.failure = Some(e);
        }
        done
    }

    /// Takes the open block.
    fn take_block(&mut self) -> Option<WrappedBlock<Annotations<D::Annotation>, W>>
        requires { self.old.failure ≡ None }
        ensures block { block_seen result ≡ self.old.block }
        ensures opened { IsOpened W.columns (block_width self.old) (may_overflow self.old) result }
        ensures rest { self.new ≡ record self.old { block = None } }
    {
        self.wrapping.take()
    }

    /// Opens a block again.
    fn put_block(&mut self, block: WrappedBlock<Annotations<D::Annotation>, W>)
        requires { IsFresh W.columns (block_width self.old) (may_overflow self.old) block }
        ensures { self.new ≡ record self.old { block = block_seen (Some block) } }
    {
        self.wrapping = Some(block);
    }

    /// Sets whether the next text begins a block.
    fn set_block_ended(&mut self, ended: bool)
        ensures { self.new ≡ record self.old { block_ended = ended } }
    {
        self.block_ended = ended;
    }

    /// Whether a line has content.
    fn has_content(&self) -> bool
        requires { self.now.failure ≡ None }
        ensures { result ≡ has_content self.now }
    {
        self.lines.has_content()
    }

    /// Adds markers to those that wait.
    fn add_waiting(
        &mut self,
        mut markers: Vec<TaggedLineElement<Annotations<D::Annotation>>>,
    ) -> Result<(), OutOfMemory>
        requires { AreMarkers (map element_of markers.items) }
        ensures waiting { OnOk result
            (self.new ≡ record self.old { waiting = self.old.waiting ++ names_of (map element_of markers.items) }) }
        ensures settings { KeepsSettings self.old self.new }
    {
        self.waiting.append(&mut markers)?;
        Ok(())
    }

    /// Takes the markers that wait.
    fn take_waiting(&mut self) -> Vec<TaggedLineElement<Annotations<D::Annotation>>>
        requires { self.old.failure ≡ None }
        ensures names { names_of (map element_of result.items) ≡ self.old.waiting }
        ensures markers { AreMarkers (map element_of result.items) }
        ensures rest { self.new ≡ record self.old { waiting = [] } }
    {
        mem::replace(&mut self.waiting, Vec::new(self.alloc))
    }

    /// Adds a line as it is. Where memory is refused, the line is lost.
    fn push_line(&mut self, line: RenderLine<Annotations<D::Annotation>>) -> Result<(), OutOfMemory>
        requires { IsMergedText (same_annotations D.Annotation.same) line }
        ensures line { OnOk result (self.new ≡ record self.old { lines = self.old.lines ++ line_seen line ∷ [] }) }
        ensures settings { KeepsSettings self.old self.new }
    {
        self.lines.push(line)
    }

    /// Fills a line up to the renderer's width, where lines are padded.
    fn fill(&self, line: &mut TaggedLine<Annotations<D::Annotation>>) -> Result<(), OutOfMemory>
        ensures items { OnOk result ((items_of line.new)
            ≡ (items_of line.old) ++ line_padding W.columns self.now
            (items_of line.old)) }
        ensures merged { IsMerged (same_annotations D.Annotation.same) line.old →
            OnOk result (IsMerged (same_annotations D.Annotation.same) line.new) }
    {
        if !self.options.pad_block_width {
            return Ok(());
        }
        let tag = self.tag()?;
        line.pad_to::<W>(self.width, &tag)
    }

    /// Adds a line of text after the markers that wait. It is filled, where lines are padded.
    ///
    /// Where memory is refused, the line is lost, and markers may be.
    fn add_line(&mut self, line: TaggedLine<Annotations<D::Annotation>>) -> Result<(), OutOfMemory>
        requires unfailed { self.old.failure ≡ None }
        requires merged { IsMerged (same_annotations D.Annotation.same) line }
        ensures line { OnOk result (self.new
            ≡ with_line W.columns self.old (items_of line)) }
        ensures settings { KeepsSettings self.old self.new }
    {
        if self.waiting.is_empty() {
            return self.add_filled(line);
        }
        let waiting = self.take_waiting();
        let whole = after_markers(self.alloc, waiting, line)?;
        self.add_filled(whole)
    }

    /// Adds a line of text without the markers that wait. It is filled, where lines are padded. Where memory is
    /// refused, the line is lost.
    fn add_filled(
        &mut self,
        mut line: TaggedLine<Annotations<D::Annotation>>,
    ) -> Result<(), OutOfMemory>
        requires { IsMerged (same_annotations D.Annotation.same) line }
        ensures line { OnOk result (self.new
            ≡ with_filled W.columns self.old (items_of line)) }
        ensures settings { KeepsSettings self.old self.new }
    {
        self.fill(&mut line)?;
        self.push_line(RenderLine::Text(line))
    }
}

/// A line with markers in front.
fn after_markers<T: Tag>(
    alloc: Global,
    markers: Vec<TaggedLineElement<T>>,
    line: TaggedLine<T>,
) -> Result<TaggedLine<T>, OutOfMemory>
    requires { IsMerged T.eq line }
    ensures items { IfOk result (λ whole.
        SameItems T.eq (items_of whole) (items_of (map element_of markers.items) ++ items_of line)) }
    ensures merged { IfOk result (λ whole. IsMerged T.eq whole) }
{
    let mut whole = TaggedLine::new(alloc);
    for marker in markers {
        whole.push(marker)?;
    }
    for element in line {
        whole.push(element)?;
    }
    Ok(whole)
}
