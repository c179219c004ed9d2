//! Lines of other renderers.
ghost use Rattle.std.specs.Prelude.{◌≡◌, ◌≢◌, ◌≤◌, ◌++◌, [], true, false, None, Some, Err, List, ℕ, length, replicate, map, fold, take, chars, OnOk, IfOk, IfSome};
ghost use Rattle.std.specs.List.{AllByRecursion as Each};
ghost use Rattle.std.specs.Vec.Iter.{into_iter_items};
ghost use Rattle.tbr_annotations.specs.Annotations.{same_annotations};
ghost use Rattle.tbr_tagged.specs.Elements.{items_of, text_items, IsMerged};
ghost use Rattle.tbr_border.specs.RenderLine.{IsMergedText};
ghost use Rattle.tbr_tagged.specs.declared.Error.TheVariants as E;
ghost use Rattle.tbr_decor.specs.Decoration.{decoration_of};
ghost use Rattle.tbr_kept_lines.specs.Line.{Line, line_seen};
ghost use Rattle.tbr_kept_lines.specs.Prefixed.{as_text, prefixed_lines, Appends};
ghost use Rattle.tbr_renderer.specs.Renderer.{KeepsSettings, with_line, block_width};
ghost use Rattle.tbr_tagged.specs.Outcome.{done, refused};
ghost use Rattle.tbr_renderer.specs.Outcomes.{and_then, gathered, taking};
ghost use Rattle.tbr_renderer.specs.Flush.{EndsBest, after_flush};
ghost use Rattle.tbr_renderer.specs.Calls.{Takes, IsWide, calls_by};
ghost use Rattle.tbr_renderer.specs.Appended.{GivesFirst, AreAlike, alike, texts_of, with_prefixed, with_cell, with_cell_below, with_cells, after_lines, after_cells, handed_out};

use crate::sub::SubRenderer;
use std::alloc::Global;
use std::convert::AsStr;
use std::vec::IntoIter;
use tbr_annotations::Annotations;
use tbr_border::{BorderSegHoriz, RenderLine};
use tbr_decor::TextDecorator;
use tbr_kept_lines::KeptLines;
use tbr_model::CharWidth;
use tbr_tagged::{Error, OutOfMemory, TaggedLine};

impl<D: TextDecorator, W: CharWidth> SubRenderer<D, W> {
    /// A line as text: a border's cells are under a copy of the annotations.
    fn as_text(
        &self,
        line: RenderLine<Annotations<D::Annotation>>,
    ) -> Result<TaggedLine<Annotations<D::Annotation>>, OutOfMemory>
        requires { IsMergedText (same_annotations D.Annotation.same) line }
        ensures items { IfOk result (λ text. (items_of text)
            ≡ as_text (self.now.annotations) (line_seen line)) }
        ensures merged { IfOk result (λ text. IsMerged (same_annotations D.Annotation.same) text) }
    {
        let tag = self.tag()?;
        line.into_tagged_line_with(&tag)
    }

    /// Puts a prefix in front of a text, under a copy of the annotations. An empty one takes no memory.
    fn put_in_front(
        &self,
        text: &mut TaggedLine<Annotations<D::Annotation>>,
        prefix: &str,
    ) -> Result<(), OutOfMemory>
        ensures items { OnOk result ((items_of text.new)
            ≡ text_items (chars prefix.now) (self.now.annotations)
            ++ (items_of text.old)) }
        ensures merged { IsMerged (same_annotations D.Annotation.same) text.old →
            OnOk result (IsMerged (same_annotations D.Annotation.same) text.new) }
    {
        if prefix.is_empty() {
            return Ok(());
        }
        let tag = self.tag()?;
        text.insert_front_str(prefix, tag)
    }

    /// Adds each line after its prefix, until lines or prefixes run out.
    fn add_prefixed<P: AsStr + Drop, I: Iterator<Item = P>>(
        &mut self,
        lines: KeptLines<Annotations<D::Annotation>>,
        prefixes: I,
    ) -> Result<(), OutOfMemory>
        requires unfailed { self.old.failure ≡ None }
        requires prefixes { I.can_next prefixes }
        ensures lines { OnOk result ((given : List P) × GivesFirst I.next_gives (length lines) prefixes given
            × (self.new ≡ with_prefixed W.columns self.old (texts_of P.text given)
            lines)) }
        ensures settings { KeepsSettings self.old self.new }
    {
        let count = lines.len()?;
        let given = first_given(self.alloc, prefixes, count)?;
        if self.keeps_as_is()
            && given.len() == count
            && let Some((first, others)) = first_and_others(&given)
        {
            return self.append_after(lines, first, others);
        }
        self.add_each_after(lines.into_vec()?, given)
    }

    /// Whether kept lines are added as they are: lines aren't padded, and no marker waits.
    fn keeps_as_is(&self) -> bool
        ensures { result ≡ true → (self.now.options.pad_block_width ≡ false) × (self.now.waiting ≡ []) }
    {
        !self.options.pad_block_width && self.waiting.is_empty()
    }

    /// Adds lines as they are kept, the first after one prefix, and each other line after another.
    fn append_after(
        &mut self,
        lines: KeptLines<Annotations<D::Annotation>>,
        first: &str,
        others: &str,
    ) -> Result<(), OutOfMemory>
        requires { (self.old.options.pad_block_width ≡ false) × (self.old.waiting ≡ []) }
        ensures lines { let prefixes = alike (chars first.now) (chars others.now) (length lines) in
            OnOk result (self.new ≡ with_prefixed W.columns self.old prefixes lines) }
        ensures settings { KeepsSettings self.old self.new }
    {
        let tag = self.tag()?;
        self.append_kept(lines, first, others, &tag)
    }

    /// Adds lines as they are kept, after prefixes under copies of the tag.
    fn append_kept(
        &mut self,
        lines: KeptLines<Annotations<D::Annotation>>,
        first: &str,
        others: &str,
        tag: &Annotations<D::Annotation>,
    ) -> Result<(), OutOfMemory>
        ensures rest { OnOk result (self.new ≡ record self.old { lines = self.new.lines }) }
        ensures lines { let prefixed = prefixed_lines tag.now (chars first.now) (chars others.now) lines in
            OnOk result (Appends (same_annotations D.Annotation.same) self.old.lines prefixed self.new.lines) }
        ensures settings { KeepsSettings self.old self.new }
    {
        self.lines.append_prefixed(lines, first, others, tag)
    }

    /// Adds each line as text after its prefix, until lines or prefixes run out.
    fn add_each_after<P: AsStr + Drop>(
        &mut self,
        lines: Vec<RenderLine<Annotations<D::Annotation>>>,
        given: Vec<P>,
    ) -> Result<(), OutOfMemory>
        requires unfailed { self.old.failure ≡ None }
        requires merged { Each (IsMergedText (same_annotations D.Annotation.same)) lines.items }
        ensures lines { OnOk result (self.new ≡ with_prefixed W.columns self.old
            (texts_of P.text given.items) (map line_seen lines.items)) }
        ensures settings { KeepsSettings self.old self.new }
    {
        let mut lines = lines.into_iter();
        for prefix in given {
            let Some(line) = lines.next() else {
                return Ok(());
            };
            let mut text = self.as_text(line)?;
            self.put_in_front(&mut text, prefix.as_str())?;
            self.add_line(text)?;
        }
        Ok(())
    }

    /// Adds lines, the first after one prefix, and each other line after another.
    fn add_after<'a>(
        &mut self,
        lines: KeptLines<Annotations<D::Annotation>>,
        first: &'a str,
        others: &'a str,
    ) -> Result<(), OutOfMemory>
        requires { self.old.failure ≡ None }
        ensures lines { let prefixes = alike (chars first.now) (chars others.now) (length lines) in
            OnOk result (self.new ≡ with_prefixed W.columns self.old prefixes lines) }
        ensures settings { KeepsSettings self.old self.new }
    {
        if self.keeps_as_is() {
            return self.append_after(lines, first, others);
        }
        self.add_texts_after(lines.into_vec()?, first, others)
    }

    /// Adds each line as text, the first after one prefix, and each other line after another.
    fn add_texts_after<'a>(
        &mut self,
        lines: Vec<RenderLine<Annotations<D::Annotation>>>,
        first: &'a str,
        others: &'a str,
    ) -> Result<(), OutOfMemory>
        requires unfailed { self.old.failure ≡ None }
        requires merged { Each (IsMergedText (same_annotations D.Annotation.same)) lines.items }
        ensures lines { let prefixes = alike (chars first.now) (chars others.now) (length lines.items) in
            OnOk result (self.new ≡ with_prefixed W.columns self.old prefixes (map line_seen lines.items)) }
        ensures settings { KeepsSettings self.old self.new }
    {
        let mut prefix = first;
        for line in lines {
            let mut text = self.as_text(line)?;
            self.put_in_front(&mut text, prefix)?;
            self.add_line(text)?;
            prefix = others;
        }
        Ok(())
    }

    /// Adds each line as text.
    fn add_cell(
        &mut self,
        lines: Vec<RenderLine<Annotations<D::Annotation>>>,
    ) -> Result<(), OutOfMemory>
        requires unfailed { self.old.failure ≡ None }
        requires merged { Each (IsMergedText (same_annotations D.Annotation.same)) lines.items }
        ensures lines { OnOk result (self.new ≡ with_cell W.columns self.old
            (map line_seen lines.items)) }
        ensures unfailed { OnOk result (self.new.failure ≡ None) }
        ensures settings { KeepsSettings self.old self.new }
    {
        for line in lines {
            let text = self.as_text(line)?;
            self.add_line(text)?;
        }
        Ok(())
    }

    /// Ends the run, and then that of another renderer, whose lines it adds.
    pub(crate) fn try_append_subrender<P: AsStr + Drop, I: Iterator<Item = P>>(
        &mut self,
        other: SubRenderer<D, W>,
        prefixes: I,
    ) -> Result<(), Error>
        requires unfailed { self.old.failure ≡ None }
        requires prefixes { I.can_next prefixes }
        ensures ok { OnOk result ((lines : List (Line (List D.Annotation.Meaning))) × (given : List P)
            × (handed_out W.columns other ≡ done lines)
            × GivesFirst I.next_gives (length lines) prefixes given
            × (after_lines W.columns (texts_of P.text given) lines self.old
            ≡ done self.new)) }
        ensures too_narrow { result ≡ Err E.TooNarrow → and_then (after_flush W.columns self.old)
            (λ _. handed_out W.columns other) ≡ refused E.TooNarrow }
        ensures two_columns { 2 ≤ block_width self.old → other.failure ≡ None → 2 ≤ block_width other →
            result ≢ Err E.TooNarrow }
        ensures best { OnOk result (EndsBest W.columns self.old × EndsBest W.columns other) }
        ensures settings { KeepsSettings self.old self.new }
    {
        self.try_flush()?;
        let lines = other.into_kept()?;
        self.add_prefixed(lines, prefixes)?;
        Ok(())
    }

    /// Ends the open line, and then that of another renderer, and adds the lines of that one as
    /// [`append_subrender`](Renderer::append_subrender) does: the first one after a prefix of its own, and each other
    /// one after that of the others. A refusal of the other renderer is passed on.
    pub fn append_prefixed<'a>(
        &mut self,
        other: SubRenderer<D, W>,
        first: &'a str,
        others: &'a str,
    ) -> Result<(), Error>
        ensures takes { let calls = calls_by W.columns (decoration_of D.TextDecorator D.Annotation.tells) in
            let prefixes = alike (chars first.now) (chars others.now) in
            Takes calls (handed_out W.columns other) (IsWide calls other)
            (λ lines. calls.append_subrender (prefixes (length lines)) lines) self.old result self.new }
        ensures best { OnOk result (EndsBest W.columns self.old × EndsBest W.columns other) }
    {
        self.refusal()?;
        let done = self.try_append_prefixed(other, first, others);
        self.keep(done)
    }

    /// Ends the run, and then that of another renderer, whose lines it adds after two prefixes.
    fn try_append_prefixed<'a>(
        &mut self,
        other: SubRenderer<D, W>,
        first: &'a str,
        others: &'a str,
    ) -> Result<(), Error>
        requires { self.old.failure ≡ None }
        ensures ok { let prefixes = alike (chars first.now) (chars others.now) in
            let made = taking (after_flush W.columns) (handed_out W.columns other)
            (λ lines. after_lines W.columns (prefixes (length lines)) lines) in
            OnOk result (made self.old ≡ done self.new) }
        ensures too_narrow { result ≡ Err E.TooNarrow → and_then (after_flush W.columns self.old)
            (λ _. handed_out W.columns other) ≡ refused E.TooNarrow }
        ensures two_columns { 2 ≤ block_width self.old → (other.failure ≡ None) × (2 ≤ block_width other) →
            result ≢ Err E.TooNarrow }
        ensures best { OnOk result (EndsBest W.columns self.old × EndsBest W.columns other) }
        ensures settings { KeepsSettings self.old self.new }
    {
        self.try_flush()?;
        let kept = other.into_kept()?;
        self.add_after(kept, first, others)?;
        Ok(())
    }

    /// Ends the run, and adds the lines of other renderers, one below another, with borders between them and after
    /// them.
    pub(crate) fn try_append_vert_row(&mut self, cols: Vec<SubRenderer<D, W>>) -> Result<(), Error>
        requires { self.old.failure ≡ None }
        ensures ok { let given = gathered (λ col. handed_out W.columns col) cols.items in
            let made = taking (after_flush W.columns) given (after_cells W.columns) in
            OnOk result (made self.old ≡ done self.new) }
        ensures too_narrow { result ≡ Err E.TooNarrow → and_then (after_flush W.columns self.old)
            (λ _. gathered (λ col. handed_out W.columns col) cols.items) ≡ refused E.TooNarrow }
        ensures two_columns { 2 ≤ block_width self.old →
            Each (λ col. (col.failure ≡ None) × (2 ≤ block_width col)) cols.items → result ≢ Err E.TooNarrow }
        ensures best { OnOk result (EndsBest W.columns self.old × Each (λ col. EndsBest W.columns col) cols.items) }
        ensures settings { KeepsSettings self.old self.new }
    {
        self.try_flush()?;
        self.add_cells(cols)?;
        self.add_divider(BorderSegHoriz::Horiz)?;
        Ok(())
    }

    /// Adds the lines of renderers, with a border of slashes between each two.
    fn add_cells(&mut self, cols: Vec<SubRenderer<D, W>>) -> Result<(), Error>
        requires { self.old.failure ≡ None }
        ensures ok { OnOk result ((cells : List (List (Line (List D.Annotation.Meaning))))
            × (gathered (λ col. handed_out W.columns col) cols.items ≡ done cells)
            × (self.new ≡ with_cells W.columns self.old cells)) }
        ensures too_narrow { result ≡ Err E.TooNarrow →
            gathered (λ col. handed_out W.columns col) cols.items ≡ refused E.TooNarrow }
        ensures two_columns { Each (λ col. (col.failure ≡ None) × (2 ≤ block_width col)) cols.items →
            result ≢ Err E.TooNarrow }
        ensures unfailed { OnOk result (self.new.failure ≡ None) }
        ensures best { OnOk result (Each (λ col. EndsBest W.columns col) cols.items) }
        ensures settings { KeepsSettings self.old self.new }
    {
        let mut cols = cols.into_iter();
        let Some(first) = cols.next() else {
            return Ok(());
        };
        let lines = first.into_shared_lines()?;
        self.add_cell(lines)?;
        self.add_cells_below(cols)
    }

    /// Adds the lines of each renderer below a border of slashes.
    fn add_cells_below(&mut self, cols: IntoIter<SubRenderer<D, W>>) -> Result<(), Error>
        requires { self.old.failure ≡ None }
        ensures ok { OnOk result ((cells : List (List (Line (List D.Annotation.Meaning))))
            × (gathered (λ col. handed_out W.columns col) (into_iter_items cols) ≡ done cells)
            × (self.new ≡ fold (with_cell_below W.columns) self.old cells)) }
        ensures too_narrow { result ≡ Err E.TooNarrow →
            gathered (λ col. handed_out W.columns col) (into_iter_items cols) ≡ refused E.TooNarrow }
        ensures two_columns { Each (λ col. (col.failure ≡ None) × (2 ≤ block_width col)) (into_iter_items cols) →
            result ≢ Err E.TooNarrow }
        ensures unfailed { OnOk result (self.new.failure ≡ None) }
        ensures best { OnOk result (Each (λ col. EndsBest W.columns col) (into_iter_items cols)) }
        ensures settings { KeepsSettings self.old self.new }
    {
        for col in cols {
            self.add_divider(BorderSegHoriz::HorizVert)?;
            let lines = col.into_shared_lines()?;
            self.add_cell(lines)?;
        }
        Ok(())
    }
}

/// What an iterator gives when it is asked `count` times, or until it has no more.
fn first_given<P: Drop, I: Iterator<Item = P>>(
    alloc: Global,
    mut prefixes: I,
    count: usize,
) -> Result<Vec<P>, OutOfMemory>
    requires { I.can_next prefixes }
    ensures { IfOk result (λ given. GivesFirst I.next_gives count prefixes given.items) }
{
    let mut given = Vec::with_capacity(alloc, count)?;
    for _ in 0..count {
        let Some(prefix) = next_of(&mut prefixes) else {
            return Ok(given);
        };
        given.push(prefix)?;
    }
    Ok(given)
}

/// What an iterator gives next.
fn next_of<P: Drop, I: Iterator<Item = P>>(prefixes: &mut I) -> Option<P>
    requires { I.can_next prefixes.old }
    ensures gives { I.next_gives prefixes.old result prefixes.new }
    ensures goes_on { IfSome result (λ _. I.can_next prefixes.new) }
{
    prefixes.next()
}

/// The first text, and the one that all the others are, if these are equal.
fn first_and_others<P: AsStr>(given: &[P]) -> Option<(&str, &str)>
    ensures { IfSome result (λ r. AreAlike (chars r.0.now) (chars r.1.now) (texts_of P.text given.now)) }
{
    let first = given.first()?.as_str();
    let others = given.last()?.as_str();
    if are_all(&given[1..], others) {
        Some((first, others))
    } else {
        None
    }
}

/// Whether all of these are one text.
fn are_all<P: AsStr>(given: &[P], text: &str) -> bool
    ensures { result ≡ true → texts_of P.text given.now ≡ replicate (length given.now) (chars text.now) }
{
    for prefix in given {
        if prefix.as_str() != text {
            return false;
        }
    }
    true
}
