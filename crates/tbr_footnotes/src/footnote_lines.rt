//! The lines of one footnote.
ghost use Rattle.std.specs.Prelude.{◌≡◌, ◌+◌, ◌∷◌, [], true, unwrap_or, map, chars, IfOk, IfSome, OnOk};
ghost use Rattle.std.specs.List.{AllByRecursion as Each};
ghost use Rattle.tbr_model.specs.Run.{glyph, items_width};
ghost use Rattle.tbr_model.specs.Width.{width_of_text};
ghost use Rattle.tbr_annotations.specs.Annotations.{same_annotations};
ghost use Rattle.tbr_tagged.specs.Elements.{items_of, text_items, IsMerged};
ghost use Rattle.tbr_tagged.specs.View.{chars_of, element_of};
ghost use Rattle.tbr_tagged.specs.Walks.{piece_of};
ghost use Rattle.tbr_decor.specs.Meant.{meant};
ghost use Rattle.tbr_footnotes.specs.Cutting.{nothing_cut, line_ended, appended, extended, with_item, with_items};
ghost use Rattle.tbr_footnotes.specs.Footnote as model;
ghost use Rattle.tbr_footnotes.specs.Footnote.{footnote_items, fits_after};

use std::alloc::Global;
use std::marker::{Model, PhantomData};
use std::mem;
use tbr_annotations::Annotations;
use tbr_decor::TextDecorator;
use tbr_model::CharWidth;
use tbr_tagged::{OutOfMemory, TaggedLine, TaggedLineElement, TaggedString, text_width};

/// The lines of a footnote, to which its characters are added in order. Each character is under the list of its one
/// annotation.
#[derive(Drop)]
pub struct FootnoteLines<D: TextDecorator, W: CharWidth> {
    alloc: Global,
    /// The columns that a line may take, where lines are cut.
    width: Option<usize>,
    /// The lines that have ended.
    ended: Vec<TaggedLine<Annotations<D::Annotation>>>,
    /// The open line.
    held: TaggedLine<Annotations<D::Annotation>>,
    /// The columns that the open line takes.
    columns: usize,
    char_width: PhantomData<W>,
}

impl<D: TextDecorator, W: CharWidth> Model for FootnoteLines<D, W> {
    ghost use Rattle.std.specs.Prelude.{List};
    ghost use Rattle.tbr_footnotes.specs.Cutting.{Cutting, cutting_of, HoldsCutting};

    ghost Value = { Cutting (List D.Annotation.Meaning) };

    ghost view = { λ c. cutting_of c };

    ghost invariant = { λ c. HoldsCutting W.columns D.Annotation.same c };
}

impl<D: TextDecorator, W: CharWidth> FootnoteLines<D, W> {
    /// No characters, and so an empty open line. Lines are cut to a width in columns, or not at all without one. It
    /// takes no memory.
    pub fn new(alloc: Global, width: Option<usize>) -> FootnoteLines<D, W>
        ensures { result ≡ nothing_cut width }
    {
        FootnoteLines {
            alloc,
            width,
            ended: Vec::new(alloc),
            held: TaggedLine::new(alloc),
            columns: 0,
            char_width: PhantomData,
        }
    }

    /// Adds a line's characters. Markers are dropped, and newlines become spaces. The open line ends before each
    /// character that doesn't fit after what the line holds, even if the line is empty.
    ///
    /// It answers `OutOfMemory` where memory is refused, and where the columns of a line pass `usize`. Characters are
    /// then lost.
    pub fn push_line(&mut self, line: TaggedLine<D::Annotation>) -> Result<(), OutOfMemory>
        ensures { OnOk result (self.new
            ≡ with_items W.columns self.old (footnote_items (map (meant D.Annotation.meaning) line))) }
    {
        for element in line {
            self.push_element(element)?;
        }
        Ok(())
    }

    /// Ends the open line, and answers all lines, at least one. Their pieces are the longest stretches under equal
    /// annotations. Where memory is refused, all are lost.
    pub fn finish(mut self) -> Result<Vec<TaggedLine<Annotations<D::Annotation>>>, OutOfMemory>
        ensures lines { IfOk result (λ lines.
            map items_of lines.items ≡ (line_ended self).ended) }
        ensures merged { IfOk result (λ lines. Each (IsMerged (same_annotations D.Annotation.same)) lines.items) }
    {
        self.end_line()?;
        Ok(self.ended)
    }

    /// Adds the characters of a piece, or drops a marker.
    fn push_element(&mut self, element: TaggedLineElement<D::Annotation>) -> Result<(), OutOfMemory>
        ensures { OnOk result (self.new ≡ with_items W.columns self.old
            (footnote_items (meant D.Annotation.meaning (element_of element) ∷ []))) }
    {
        match element {
            TaggedLineElement::Str(piece) => self.push_piece(piece),
            TaggedLineElement::FragmentStart(_) => Ok(()),
        }
    }

    /// Adds the characters of a piece: all at once if they fit, and otherwise one by one.
    fn push_piece(&mut self, piece: TaggedString<D::Annotation>) -> Result<(), OutOfMemory>
        ensures { OnOk result (self.new ≡ with_items W.columns self.old
            (footnote_items (meant D.Annotation.meaning (piece_of piece) ∷ []))) }
    {
        let tag = Annotations::new().with(self.alloc, piece.tag)?;
        match self.columns_with(piece.s.as_str()) {
            Some(columns) => self.extend(TaggedString { s: piece.s, tag }, columns),
            None => self.push_text(piece.s.as_str(), &tag),
        }
    }

    /// The columns of the open line with a text after it. `None` where the text has a newline, or doesn't fit as a
    /// whole.
    fn columns_with(&self, text: &str) -> Option<usize>
        ensures columns { let held = self.now.held in IfSome result (λ columns.
            columns ≡ items_width W.columns held + width_of_text W.columns (chars text.now)) }
        ensures fits { let held = self.now.held in IfSome result (λ _.
            fits_after W.columns self.now.width held (width_of_text W.columns (chars text.now)) ≡ true) }
        ensures unbroken { IfSome result (λ _. map model.unbroken (chars text.now) ≡ chars text.now) }
    {
        let columns = columns_after::<W>(self.columns, text)?;
        match self.width {
            Some(width) if width < columns => None,
            _ => Some(columns),
        }
    }

    /// Adds a piece to the open line, which then takes `columns` columns.
    fn extend(
        &mut self,
        piece: TaggedString<Annotations<D::Annotation>>,
        columns: usize,
    ) -> Result<(), OutOfMemory>
        requires { let held = self.old.held in
            columns ≡ items_width W.columns held + width_of_text W.columns (chars_of piece.s) }
        ensures { OnOk result (self.new
            ≡ extended self.old (text_items (chars_of piece.s) piece.tag)) }
    {
        self.held.push_str(piece)?;
        self.columns = columns;
        Ok(())
    }

    /// Adds the characters of a text under these annotations.
    fn push_text(&mut self, text: &str, tag: &Annotations<D::Annotation>) -> Result<(), OutOfMemory>
        ensures { OnOk result (self.new ≡ with_items W.columns self.old
            (text_items (map model.unbroken (chars text.now)) tag.now)) }
    {
        for c in text.chars() {
            self.push(unbroken(c), tag)?;
        }
        Ok(())
    }

    /// Adds a character, on a new line if it doesn't fit after what the open one holds.
    fn push(&mut self, c: char, tag: &Annotations<D::Annotation>) -> Result<(), OutOfMemory>
        ensures { OnOk result (self.new
            ≡ with_item W.columns self.old (glyph c tag.now)) }
    {
        if !self.fits(c) {
            self.end_line()?;
        }
        self.append(c, tag)
    }

    /// Whether a character fits after what the open line holds.
    fn fits(&self, c: char) -> bool
        ensures { result
            ≡ fits_after W.columns self.now.width self.now.held (unwrap_or (W.columns c) 0) }
    {
        let Some(width) = self.width else {
            return true;
        };
        let more = W::width(c).unwrap_or(0);
        self.columns <= width && more <= width - self.columns
    }

    /// Ends the open line.
    fn end_line(&mut self) -> Result<(), OutOfMemory>
        ensures { OnOk result (self.new ≡ line_ended self.old) }
    {
        self.columns = 0;
        let line = mem::replace(&mut self.held, TaggedLine::new(self.alloc));
        self.ended.push(line)?;
        Ok(())
    }

    /// Adds a character to the open line. It also refuses where the line's columns pass `usize`.
    fn append(&mut self, c: char, tag: &Annotations<D::Annotation>) -> Result<(), OutOfMemory>
        ensures { OnOk result (self.new
            ≡ appended self.old (glyph c tag.now)) }
    {
        let more = W::width(c).unwrap_or(0);
        let Some(columns) = self.columns.checked_add(more) else {
            return Err(OutOfMemory);
        };
        self.held.push_char(c, tag)?;
        self.columns = columns;
        Ok(())
    }
}

/// `before` and the columns of a text together, where the text has no newline. `None` also where that passes `usize`.
fn columns_after<W: CharWidth>(before: usize, text: &str) -> Option<usize>
    ensures columns { IfSome result (λ columns. columns ≡ before + width_of_text W.columns (chars text.now)) }
    ensures unbroken { IfSome result (λ _. map model.unbroken (chars text.now) ≡ chars text.now) }
{
    if text.contains('\n') {
        return None;
    }
    let more = text_width::<W>(text).ok()?;
    before.checked_add(more)
}

/// A newline as a space, and any other character as it is.
fn unbroken(c: char) -> char
    ensures { result ≡ model.unbroken c }
{
    if c == '\n' { ' ' } else { c }
}
