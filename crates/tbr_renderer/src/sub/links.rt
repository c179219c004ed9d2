//! The targets of links, listed after a document.
ghost use Rattle.std.specs.Prelude.{◌≡◌, ◌≢◌, None, Some, Err, map, IfOk, IfErr, OnOk, OnErr};
ghost use Rattle.std.specs.List.{AllByRecursion as Each};
ghost use Rattle.tbr_annotations.specs.Annotations.{same_annotations};
ghost use Rattle.tbr_tagged.specs.Elements.{items_of, IsMerged};
ghost use Rattle.tbr_tagged.specs.View.{chars_of};
ghost use Rattle.tbr_tagged.specs.declared.Error.TheVariants as E;
ghost use Rattle.tbr_decor.specs.Change as change;
ghost use Rattle.tbr_decor.specs.Meant.{lines_meant};
ghost use Rattle.tbr_decor.specs.Meant as decor;
ghost use Rattle.tbr_decor.specs.Decoration.{decoration_of};
ghost use Rattle.tbr_renderer.specs.Calls.{calls_by, Fails};
ghost use Rattle.tbr_renderer.specs.Footnotes.{listed, with_footnotes};
ghost use Rattle.tbr_renderer.specs.Footnotes as model;
ghost use Rattle.tbr_renderer.specs.Renderer.{KeepsSettings, kept_of};

use crate::sub::SubRenderer;
use tbr_annotations::Annotations;
use tbr_decor::TextDecorator;
use tbr_footnotes::FootnoteLines;
use tbr_model::CharWidth;
use tbr_tagged::{Error, OutOfMemory, TaggedLine};

impl<D: TextDecorator, W: CharWidth> SubRenderer<D, W> {
    /// The lines that the decorator makes of the targets of links, in their order. Without footnotes it is given no
    /// targets. The targets are dropped.
    ///
    /// The only refusal of its own is `OutOfMemory`, after which the renderer has failed. A renderer that had failed
    /// answers the refusal that it keeps.
    pub fn finalise(&mut self, links: Vec<String>) -> Result<Vec<TaggedLine<D::Annotation>>, Error>
        ensures lines { IfOk result (λ lines. lines_meant D.Annotation.meaning lines.items
            ≡ D.footnotes self.old.decorator (listed self.old.options (map chars_of links.items))) }
        ensures asked { let targets = listed self.old.options (map chars_of links.items) in
            OnOk result (self.new ≡ record self.old {
              decorator = D.after self.old.decorator (change.finalise targets);
            }) }
        ensures memory { self.old.failure ≡ None → result ≢ Err E.TooNarrow }
        ensures left { self.old.failure ≡ None → IfErr result (λ e. self.new ≡ record self.old { failure = Some e }) }
        ensures fails { let decoration = decoration_of D.TextDecorator D.Annotation.tells in
            Fails (calls_by W.columns decoration) self.old result self.new }
    {
        self.refusal()?;
        match self.footnotes(links) {
            Ok(lines) => Ok(lines),
            Err(e) => {
                self.fail(e);
                Err(Error::OutOfMemory)
            }
        }
    }

    /// The decorator's lines for the targets that are listed.
    fn footnotes(
        &mut self,
        links: Vec<String>,
    ) -> Result<Vec<TaggedLine<D::Annotation>>, OutOfMemory>
        ensures lines { IfOk result (λ lines. lines_meant D.Annotation.meaning lines.items
            ≡ D.footnotes self.old.decorator (listed self.old.options (map chars_of links.items))) }
        ensures asked { let targets = listed self.old.options (map chars_of links.items) in
            OnOk result (self.new ≡ record self.old {
              decorator = D.after self.old.decorator (change.finalise targets);
            }) }
        ensures err { OnErr result (self.new ≡ self.old) }
    {
        if !self.options.include_link_footnotes {
            return self.decorator.finalise(self.alloc, Vec::new(self.alloc));
        }
        self.decorator.finalise(self.alloc, links)
    }

    /// Adds footnotes after the lines. Their markers are dropped, newlines become spaces, and each piece is under the
    /// list of its one annotation. Where links are wrapped, a line ends before each character with which it would pass
    /// the renderer's width, even if the line is empty. Each footnote begins a line, and an empty one is an empty line.
    /// Markers that wait come before the lines. Lines are filled where lines are padded. The open run stays open.
    ///
    /// The only refusal of its own is `OutOfMemory`, where memory is refused or the columns of a line pass `usize`. The
    /// renderer has then failed. A renderer that had failed answers the refusal that it keeps.
    pub fn fmt_links(&mut self, links: Vec<TaggedLine<D::Annotation>>) -> Result<(), Error>
        ensures ok { OnOk result (self.new
            ≡ with_footnotes W.columns self.old (lines_meant D.Annotation.meaning links.items)) }
        ensures memory { self.old.failure ≡ None → result ≢ Err E.TooNarrow }
        ensures fails { let decoration = decoration_of D.TextDecorator D.Annotation.tells in
            Fails (calls_by W.columns decoration) self.old result self.new }
    {
        self.refusal()?;
        let done = self.try_fmt_links(links);
        self.keep(done)
    }

    /// Adds footnotes after the lines.
    fn try_fmt_links(&mut self, links: Vec<TaggedLine<D::Annotation>>) -> Result<(), Error>
        requires { self.old.failure ≡ None }
        ensures ok { OnOk result (self.new
            ≡ with_footnotes W.columns self.old (lines_meant D.Annotation.meaning links.items)) }
        ensures memory { IfErr result (λ e. e ≡ E.OutOfMemory) }
        ensures settings { KeepsSettings self.old self.new }
    {
        for link in links {
            let lines = self.footnote_lines(link)?;
            self.add_texts(lines)?;
        }
        Ok(())
    }

    /// The lines of a footnote.
    fn footnote_lines(
        &self,
        link: TaggedLine<D::Annotation>,
    ) -> Result<Vec<TaggedLine<Annotations<D::Annotation>>>, OutOfMemory>
        ensures lines { IfOk result (λ lines. map items_of lines.items
            ≡ model.footnote_lines W.columns self.now (map (decor.meant D.Annotation.meaning) link)) }
        ensures merged { IfOk result (λ lines. Each (IsMerged (same_annotations D.Annotation.same)) lines.items) }
    {
        let mut lines = FootnoteLines::<D, W>::new(self.alloc, self.link_width());
        lines.push_line(link)?;
        lines.finish()
    }

    /// The width to which a footnote's lines are cut, where links are wrapped.
    fn link_width(&self) -> Option<usize>
        ensures { result ≡ model.link_width self.now.options self.now.width }
    {
        if self.options.wrap_links {
            Some(self.width)
        } else {
            None
        }
    }
}
