//! Lines that are handed out.
ghost use Rattle.std.specs.Prelude.{◌≡◌, ◌≢◌, ◌≤◌, None, Some, Err, true, [], ◌++◌, map, IfOk, OnOk, List};
ghost use Rattle.std.specs.List.{AllZip, AllByRecursion as Each};
ghost use Rattle.tbr_tags.specs.Lists.{equal_lists};
ghost use Rattle.tbr_annotations.specs.Annotations.{same_annotations};
ghost use Rattle.tbr_annotations.specs.Written.{WritesOut, vector_meant};
ghost use Rattle.tbr_border.specs.RenderLine.{IsMergedText};
ghost use Rattle.tbr_tagged.specs.declared.Error.{Error as Refusal};
ghost use Rattle.tbr_tagged.specs.declared.Error.TheVariants as E;
ghost use Rattle.tbr_renderer.specs.Renderer.{block_width};
ghost use Rattle.tbr_kept_lines.specs.Line.{line_seen};
ghost use Rattle.tbr_kept_lines.specs.Text.{line_text, lines_text};
ghost use Rattle.tbr_tagged.specs.View.{chars_of};
ghost use Rattle.tbr_renderer.specs.Mapped.{map_line};
ghost use Rattle.tbr_tagged.specs.Outcome.{done, refused};
ghost use Rattle.tbr_renderer.specs.Flush.{EndsBest};
ghost use Rattle.tbr_renderer.specs.Outcomes.{changed};
ghost use Rattle.tbr_renderer.specs.Appended.{handed_out};

use crate::sub::SubRenderer;
use std::alloc::Global;
use std::collections::LinkedList;
use std::mem;
use tbr_annotations::{Annotations, written_out};
use tbr_border::RenderLine;
use tbr_decor::TextDecorator;
use tbr_kept_lines::KeptLines;
use tbr_model::CharWidth;
use tbr_tagged::{Error, OutOfMemory};
use tbr_tags::Tag;

impl<D: TextDecorator, W: CharWidth> SubRenderer<D, W> {
    /// Ends the open line, and hands out all lines. Their pieces are the longest stretches under equal annotations. An
    /// empty renderer has no lines.
    ///
    /// It refuses as `new_line` does. The list takes memory for each line, and for the annotations of each piece. Where
    /// many are open, [`into_shared_lines`](SubRenderer::into_shared_lines) takes less.
    pub fn into_lines(self) -> Result<LinkedList<RenderLine<Vec<D::Annotation>>>, Error>
        ensures lines { IfOk result (λ lines. handed_out W.columns self
            ≡ done (map (map_line (vector_meant D.Annotation.meaning)) (map line_seen lines))) }
        ensures merged { IfOk result (λ lines. Each (IsMergedText (equal_lists D.Annotation.eq)) lines) }
        ensures too_narrow { result ≡ Err E.TooNarrow →
            handed_out W.columns self ≡ refused E.TooNarrow }
        ensures two_columns { self.failure ≡ None → 2 ≤ block_width self → result ≢ Err E.TooNarrow }
        ensures kept { (e : Refusal) → self.failure ≡ Some e → result ≡ Err e }
        ensures best { OnOk result (EndsBest W.columns self) }
    {
        let alloc = self.alloc;
        let lines = self.into_shared_lines()?;
        Ok(all_written_out(alloc, lines)?)
    }

    /// Ends the open line, and hands out all lines under lists of annotations that share what they have in common.
    /// Their pieces are the longest stretches under equal ones. `written_out` gives such a line vectors.
    ///
    /// It refuses as `new_line` does.
    pub fn into_shared_lines(self) -> Result<Vec<RenderLine<Annotations<D::Annotation>>>, Error>
        ensures lines { IfOk result (λ lines. handed_out W.columns self
            ≡ done (map line_seen lines.items)) }
        ensures merged { IfOk result (λ lines. Each (IsMergedText (same_annotations D.Annotation.same)) lines.items) }
        ensures too_narrow { result ≡ Err E.TooNarrow →
            handed_out W.columns self ≡ refused E.TooNarrow }
        ensures two_columns { self.failure ≡ None → 2 ≤ block_width self → result ≢ Err E.TooNarrow }
        ensures kept { (e : Refusal) → self.failure ≡ Some e → result ≡ Err e }
        ensures best { OnOk result (EndsBest W.columns self) }
    {
        Ok(self.into_kept()?.into_vec()?)
    }

    /// Ends the open line, and hands out what is kept.
    ///
    /// It refuses as `new_line` does.
    pub(crate) fn into_kept(mut self) -> Result<KeptLines<Annotations<D::Annotation>>, Error>
        ensures lines { IfOk result (λ lines.
            handed_out W.columns self ≡ done lines) }
        ensures too_narrow { result ≡ Err E.TooNarrow →
            handed_out W.columns self ≡ refused E.TooNarrow }
        ensures two_columns { self.failure ≡ None → 2 ≤ block_width self → result ≢ Err E.TooNarrow }
        ensures kept { (e : Refusal) → self.failure ≡ Some e → result ≡ Err e }
        ensures best { OnOk result (EndsBest W.columns self) }
    {
        self.refusal()?;
        self.try_flush()?;
        Ok(self.take_lines())
    }

    /// Ends the open line, and writes all lines, each with a newline.
    ///
    /// It refuses as `new_line` does.
    pub fn into_string(self) -> Result<String, Error>
        ensures text { IfOk result (λ text.
            changed lines_text (handed_out W.columns self) ≡ done (chars_of text)) }
        ensures too_narrow { result ≡ Err E.TooNarrow →
            handed_out W.columns self ≡ refused E.TooNarrow }
        ensures two_columns { self.failure ≡ None → 2 ≤ block_width self → result ≢ Err E.TooNarrow }
        ensures kept { (e : Refusal) → self.failure ≡ Some e → result ≡ Err e }
        ensures best { OnOk result (EndsBest W.columns self) }
    {
        Ok(self.into_kept()?.into_text()?)
    }

    /// Takes all lines.
    fn take_lines(&mut self) -> KeptLines<Annotations<D::Annotation>>
        ensures { result ≡ self.old.lines }
    {
        mem::replace(&mut self.lines, KeptLines::new(self.alloc))
    }
}

/// These lines in a linked list, with each list of annotations as a vector.
fn all_written_out<A: Tag>(
    alloc: Global,
    lines: Vec<RenderLine<Annotations<A>>>,
) -> Result<LinkedList<RenderLine<Vec<A>>>, OutOfMemory>
    ensures written { IfOk result (λ list. AllZip (WritesOut A.meaning) lines.items list) }
    ensures merged { IfOk result (λ list. Each (IsMergedText (equal_lists A.eq)) list) }
{
    let mut written = LinkedList::new(alloc);
    for line in lines {
        written.push_back(written_out(alloc, line)?)?;
    }
    Ok(written)
}
