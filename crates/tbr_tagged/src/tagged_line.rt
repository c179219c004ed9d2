//! Lines of text under tags.
ghost use Rattle.std.specs.Prelude.{◌≡◌, ℕ, ◌^◌, ◌≤◌, ◌<◌, ◌++◌, ◌∷◌, ◌⊎◌, [], true, false, max, not, List, Option, chars, fold, map, length, string_len, IfOk, OnOk, OnErr};
ghost use Rattle.tbr_model.specs.Run.{glyph};
ghost use Rattle.std.specs.List.{slice_get};
ghost use Rattle.tbr_tagged.specs.Elements.{Element, items_of, line_width, element_items, is_piece_under, last_of, characters, piece, push_text, push_element, insert_text, text_items};
ghost use Rattle.tbr_tagged.specs.Elements.{SameItems, SameElements, IsMerged};
ghost use Rattle.tbr_tagged.specs.Elements as model;
ghost use Rattle.tbr_tagged.specs.Equal.{equal_lines};
ghost use Rattle.tbr_tagged.specs.Grown.{HasGrown, last_bytes};
ghost use Rattle.tbr_tagged.specs.Mapped.{MapsElements};
ghost use Rattle.tbr_tagged.specs.Padding.{spaces, columns_missing, aligned, aligned_items};
ghost use Rattle.tbr_tagged.specs.Sums.{GivesSum};
ghost use Rattle.tbr_tagged.specs.View.{chars_of, element_of, elements_of};
ghost use Rattle.tbr_tagged.specs.Walks.{elements_left, strings_left, characters_left, pieces_of, piece_of, item_characters};

use crate::edits::{push_copy, push_glyph, push_piece, put_str_in_front, put_text_in_front};
use crate::element::{TaggedLineElement, TaggedString};
use crate::element_list::ElementList;
use crate::error::OutOfMemory;
use crate::iterators::{Chars, IntoIter, Iter, TaggedStrings};
use crate::line_end::LineEnd;
use crate::padding::{CellAlign, columns_in_front, pad, push_spaces};
use std::alloc::Global;
use std::marker::Model;
use tbr_model::CharWidth;
use tbr_tags::Tag;

/// A line of pieces of text, each under its tag, and of markers. A contract sees the list of these elements.
#[derive(Debug, Drop)]
pub struct TaggedLine<T> {
    elements: ElementList<T>,
}

impl<T> Model for TaggedLine<T> {
    ghost use Rattle.std.specs.Prelude.{List};
    ghost use Rattle.tbr_tagged.specs.Elements.{Element};

    ghost Value = { List (Element T) };

    ghost use Rattle.tbr_tagged.specs.Stored.{stored};
    ghost use Rattle.tbr_tagged.specs.View.{elements_of};

    ghost view = { λ a. elements_of (stored a.elements) };
}

impl<T> TaggedLine<T> {
    /// A line without elements. It takes no memory.
    pub fn new(alloc: Global) -> TaggedLine<T>
        ensures { result ≡ [] }
    {
        TaggedLine {
            elements: ElementList::new(alloc),
        }
    }

    /// Whether the line has no piece. Markers don't count.
    pub fn is_empty(&self) -> bool
        ensures { result ≡ not (model.has_piece self.now) }
    {
        !self.elements.has_piece()
    }

    /// The columns that the line takes: the sum over its characters, where one without a width counts 0.
    ///
    /// It takes no memory, and refuses exactly where the sum passes `usize`.
    pub fn width<W: CharWidth>(&self) -> Result<usize, OutOfMemory>
        ensures { GivesSum result (line_width W.columns self.now) }
    {
        self.elements.width::<W>()
    }

    /// The line's characters, without tags and markers. It refuses only where memory is refused.
    pub fn to_text(&self) -> Result<String, OutOfMemory>
        ensures { IfOk result (λ text. chars_of text ≡ characters self.now) }
    {
        let mut text = String::new(self.elements.allocator());
        self.append_to(&mut text)?;
        Ok(text)
    }

    /// Appends the line's characters, without tags and markers, to `text`. Where memory is refused, part of them may
    /// have been appended.
    pub fn append_to(&self, text: &mut String) -> Result<(), OutOfMemory>
        ensures { OnOk result (chars_of text.new ≡ chars_of text.old ++ characters self.now) }
    {
        self.elements.append_to(text)
    }
}

impl<T> TaggedLine<T> {
    /// A line of one piece under a copy of the tag, even for the empty text. It refuses only where memory is refused.
    pub fn from_string(alloc: Global, s: String, tag: &T) -> Result<TaggedLine<T>, OutOfMemory>
    where
        T: Tag,
        ensures { IfOk result (λ line. SameElements T.eq line (piece (chars_of s) tag.now ∷ [])) }
    {
        let tag = tag.clone()?;
        let mut elements = ElementList::new(alloc);
        elements.push(TaggedLineElement::Str(TaggedString { s, tag }))?;
        Ok(TaggedLine { elements })
    }

    /// The line with each tag replaced by what `f` makes of it. Texts, markers and their order stay. It asks that `f`
    /// may be called on every tag. It refuses only where memory is refused, and the line is dropped.
    pub fn map_tag<U: Drop, F: Fn(T) -> U>(self, f: &F) -> Result<TaggedLine<U>, OutOfMemory>
    where
        T: Drop,
        requires { F.IsAlwaysCallable f.now }
        ensures mapped { IfOk result (λ line. MapsElements (F.post f.now) self line) }
        ensures text { IfOk result (λ line. characters line ≡ characters self) }
        ensures width { IfOk result (λ line.
            (columns : ℕ → Option ℕ) → line_width columns line ≡ line_width columns self) }
    {
        let elements = self.elements.map_tag(f)?;
        Ok(TaggedLine { elements })
    }

    /// A copy of the line, with each piece under a copy of its tag. It refuses only where memory is refused.
    pub fn clone(&self) -> Result<TaggedLine<T>, OutOfMemory>
    where
        T: Tag,
        ensures elements { IfOk result (λ line. SameElements T.eq line self.now) }
        ensures equal { IfOk result (λ line. equal_lines T.eq line self.now ≡ true) }
    {
        let elements = self.elements.clone()?;
        Ok(TaggedLine { elements })
    }
}

impl<T: Tag> TaggedLine<T> {
    /// Appends text. It extends the last piece if that is under an equal tag, and otherwise is a piece of its own. The
    /// empty text changes nothing.
    ///
    /// Where memory is refused, the line stays as it was, and the text is dropped. The empty text takes no memory.
    pub fn push_str(&mut self, ts: TaggedString<T>) -> Result<(), OutOfMemory>
        ensures ok { OnOk result (self.new ≡ push_text T.eq self.old (chars_of ts.s) ts.tag) }
        ensures items { OnOk result
            (SameItems T.eq (items_of self.new) (items_of self.old ++ text_items (chars_of ts.s) ts.tag)) }
        ensures merged { IsMerged T.eq self.old → OnOk result (IsMerged T.eq self.new) }
        ensures err { OnErr result (self.new ≡ self.old) }
        ensures some { OnErr result (0 < string_len ts.s) }
    {
        if ts.s.is_empty() {
            return Ok(());
        }
        push_piece(&mut self.elements, ts)
    }

    /// Appends a copy of a text, as [`push_str`](TaggedLine::push_str) does. The empty text changes nothing.
    ///
    /// Where memory is refused, the line stays as it was. The empty text takes no memory.
    pub fn push_text(&mut self, text: &str, tag: T) -> Result<(), OutOfMemory>
        ensures ok { OnOk result (self.new ≡ push_text T.eq self.old (chars text.now) tag) }
        ensures items { OnOk result
            (SameItems T.eq (items_of self.new) (items_of self.old ++ text_items (chars text.now) tag)) }
        ensures merged { IsMerged T.eq self.old → OnOk result (IsMerged T.eq self.new) }
        ensures err { OnErr result (self.new ≡ self.old) }
        ensures some { OnErr result (0 < length text.now) }
    {
        if text.is_empty() {
            return Ok(());
        }
        push_copy(&mut self.elements, text, tag)
    }

    /// Makes room ahead of time for a text of `bytes` bytes, if the line is of one piece, and there is enough memory.
    pub fn make_room(&mut self, bytes: usize)
        ensures { self.new ≡ self.old }
    {
        self.elements.make_room(bytes);
    }

    /// Appends a character. It extends the last piece if that is under an equal tag, and otherwise begins a piece under
    /// a copy of the tag.
    ///
    /// Where memory is refused, the line stays as it was.
    pub fn push_char(&mut self, c: char, tag: &T) -> Result<(), OutOfMemory>
        ensures ok { OnOk result (SameElements T.eq self.new (push_text T.eq self.old (c ∷ []) tag.now)) }
        ensures items { OnOk result (SameItems T.eq (items_of self.new) (items_of self.old ++ glyph c tag.now ∷ [])) }
        ensures merged { IsMerged T.eq self.old → OnOk result (IsMerged T.eq self.new) }
        ensures err { OnErr result (self.new ≡ self.old) }
    {
        push_glyph(&mut self.elements, c, tag)
    }
}

impl<T: Tag> TaggedLine<T> {
    /// Appends an element: text as [`TaggedLine::push_str`] does, and a marker as an element of its own.
    ///
    /// Where memory is refused, the line stays as it was, and the element is dropped. A piece of the empty text takes
    /// no memory.
    pub fn push(&mut self, element: TaggedLineElement<T>) -> Result<(), OutOfMemory>
        ensures ok { OnOk result (self.new ≡ push_element T.eq self.old (element_of element)) }
        ensures items { OnOk result
            (SameItems T.eq (items_of self.new) (items_of self.old ++ element_items (element_of element))) }
        ensures merged { IsMerged T.eq self.old → OnOk result (IsMerged T.eq self.new) }
        ensures err { OnErr result (self.new ≡ self.old) }
        ensures some { OnErr result (0 < length (element_items (element_of element))) }
    {
        match element {
            TaggedLineElement::Str(ts) => self.push_str(ts),
            TaggedLineElement::FragmentStart(name) => {
                self.elements.push(TaggedLineElement::FragmentStart(name))
            }
        }
    }

    /// Appends the elements of another line, each as [`TaggedLine::push`] does.
    ///
    /// Where memory is refused, the line stays as it was, and the other one is dropped. A line without characters and
    /// markers takes no memory.
    pub fn append(&mut self, other: TaggedLine<T>) -> Result<(), OutOfMemory>
        ensures ok { OnOk result (self.new ≡ fold (push_element T.eq) self.old other) }
        ensures items { OnOk result (SameItems T.eq (items_of self.new) (items_of self.old ++ items_of other)) }
        ensures merged { IsMerged T.eq self.old → OnOk result (IsMerged T.eq self.new) }
        ensures err { OnErr result (self.new ≡ self.old) }
        ensures some { OnErr result (0 < length (items_of other)) }
    {
        let end = self.end();
        for element in other {
            if let Err(e) = self.push(element) {
                self.cut_back(end);
                return Err(e);
            }
        }
        Ok(())
    }

    /// Puts text in front. It extends the first piece if that is under an equal tag, and otherwise is a piece of its
    /// own, even if the text is empty.
    ///
    /// The time of a call is in proportion to the line. Building a line by such calls alone takes quadratic time.
    ///
    /// Where memory is refused, the line stays as it was, and the text is dropped. The empty text takes no memory if it
    /// extends the first piece, or is all that the line then has.
    pub fn insert_front(&mut self, ts: TaggedString<T>) -> Result<(), OutOfMemory>
        ensures ok { OnOk result (self.new ≡ insert_text T.eq self.old (chars_of ts.s) ts.tag) }
        ensures items { OnOk result
            (SameItems T.eq (items_of self.new) (text_items (chars_of ts.s) ts.tag ++ items_of self.old)) }
        ensures merged { 0 < string_len ts.s → IsMerged T.eq self.old → OnOk result (IsMerged T.eq self.new) }
        ensures err { OnErr result (self.new ≡ self.old) }
        ensures some { OnErr result (0 < string_len ts.s
            ⊎ (0 < length self.old) × (is_piece_under T.eq (slice_get self.old 0) ts.tag ≡ false)) }
    {
        put_text_in_front(&mut self.elements, ts)?;
        Ok(())
    }

    /// Puts text in front, as [`insert_front`](TaggedLine::insert_front) does. If it extends the first piece, it
    /// usually takes no memory.
    ///
    /// Where memory is refused, the line stays as it was. The empty text takes no memory if it extends the first piece,
    /// or is all that the line then has.
    pub fn insert_front_str(&mut self, text: &str, tag: T) -> Result<(), OutOfMemory>
        ensures ok { OnOk result (self.new ≡ insert_text T.eq self.old (chars text.now) tag) }
        ensures items { OnOk result
            (SameItems T.eq (items_of self.new) (text_items (chars text.now) tag ++ items_of self.old)) }
        ensures merged { 0 < length text.now → IsMerged T.eq self.old → OnOk result (IsMerged T.eq self.new) }
        ensures err { OnErr result (self.new ≡ self.old) }
        ensures some { OnErr result (0 < length text.now
            ⊎ (0 < length self.old) × (is_piece_under T.eq (slice_get self.old 0) tag ≡ false)) }
    {
        put_str_in_front(&mut self.elements, text, tag)?;
        Ok(())
    }
}

impl<T: Tag> TaggedLine<T> {
    /// Appends `count` spaces. They extend the last piece if that is under an equal tag, and otherwise begin a piece
    /// under a copy of the tag.
    ///
    /// Where memory is refused, the line stays as it was. If `count` is 0, it takes no memory.
    pub fn push_spaces(&mut self, count: usize, tag: &T) -> Result<(), OutOfMemory>
        ensures ok { OnOk result (SameElements T.eq self.new (push_text T.eq self.old (spaces count) tag.now)) }
        ensures items { OnOk result
            (SameItems T.eq (items_of self.new) (items_of self.old ++ text_items (spaces count) tag.now)) }
        ensures merged { IsMerged T.eq self.old → OnOk result (IsMerged T.eq self.new) }
        ensures err { OnErr result (self.new ≡ self.old) }
        ensures some { OnErr result (0 < count) }
    {
        push_spaces(&mut self.elements, count, tag)
    }

    /// Fills the line up to `width` columns with spaces after it, under a copy of the tag. A line that is already as
    /// wide stays as it is.
    ///
    /// It refuses where memory is refused, or where the line's columns pass `usize`. The line then stays as it was. A
    /// line that is already as wide takes no memory.
    pub fn pad_to<W: CharWidth>(&mut self, width: usize, tag: &T) -> Result<(), OutOfMemory>
        ensures ok { OnOk result (SameElements T.eq self.new
            (push_text T.eq self.old (spaces (columns_missing W.columns width self.old)) tag.now)) }
        ensures items { OnOk result (SameItems T.eq (items_of self.new)
            (items_of self.old ++ text_items (spaces (columns_missing W.columns width self.old)) tag.now)) }
        ensures width { OnOk result (line_width W.columns self.new ≡ max width (line_width W.columns self.old)) }
        ensures merged { IsMerged T.eq self.old → OnOk result (IsMerged T.eq self.new) }
        ensures unchanged_if_as_wide { width ≤ line_width W.columns self.old → self.new ≡ self.old }
        ensures err { OnErr result (self.new ≡ self.old) }
        ensures narrow { OnErr result
            (line_width W.columns self.old < width ⊎ 2 ^ 64 ≤ line_width W.columns self.old) }
    {
        self.pad_aligned::<W>(width, CellAlign::Left, tag)
    }

    /// Fills the line up to `width` columns with spaces under copies of the tag: after it, in front of it, or on both
    /// sides, as the alignment says. Spaces in front come before the first element, markers included. A line that is
    /// already as wide stays as it is.
    ///
    /// It refuses where memory is refused, or where the line's columns pass `usize`. The line then stays as it was. A
    /// line that is already as wide takes no memory.
    pub fn pad_aligned<W: CharWidth>(
        &mut self,
        width: usize,
        align: CellAlign,
        tag: &T,
    ) -> Result<(), OutOfMemory>
        ensures ok { OnOk result (SameElements T.eq self.new
            (aligned T.eq align self.old (columns_missing W.columns width self.old) tag.now)) }
        ensures items { OnOk result (SameItems T.eq (items_of self.new)
            (aligned_items align (items_of self.old) (columns_missing W.columns width self.old) tag.now)) }
        ensures width { OnOk result (line_width W.columns self.new ≡ max width (line_width W.columns self.old)) }
        ensures merged { IsMerged T.eq self.old → OnOk result (IsMerged T.eq self.new) }
        ensures unchanged_if_as_wide { width ≤ line_width W.columns self.old → self.new ≡ self.old }
        ensures err { OnErr result (self.new ≡ self.old) }
        ensures narrow { OnErr result
            (line_width W.columns self.old < width ⊎ 2 ^ 64 ≤ line_width W.columns self.old) }
    {
        let missing = width.saturating_sub(self.width::<W>()?);
        let front = columns_in_front(align, missing);
        pad(&mut self.elements, front, missing - front, tag)
    }
}

impl<T> TaggedLine<T> {
    /// Where the line ends, so that [`cut_back`](TaggedLine::cut_back) can remove what is added after that.
    pub fn end(&self) -> LineEnd
        ensures elements { result.elements ≡ length self.now }
        ensures bytes { result.bytes ≡ last_bytes (last_of self.now) }
    {
        LineEnd {
            elements: self.elements.len(),
            bytes: self.elements.last_len(),
        }
    }

    /// Removes what was added after this end: elements, and text of the piece that was the last.
    pub fn cut_back(&mut self, end: LineEnd)
    where
        T: Drop,
        ensures { (es : List (Element T)) → length es ≡ end.elements → last_bytes (last_of es) ≡ end.bytes →
            HasGrown es self.old → self.new ≡ es }
    {
        self.elements.cut_back(end.elements, end.bytes);
    }

    /// The elements of the line, in order.
    pub fn iter(&self) -> Iter<'_, T>
        ensures elements { elements_of (elements_left result) ≡ self.now }
        ensures len { length (elements_left result) ≡ length self.now }
    {
        self.elements.iter()
    }

    /// The pieces of the line without its markers, in order.
    pub fn tagged_strings(&self) -> TaggedStrings<'_, T>
        ensures pieces { map piece_of (strings_left result) ≡ pieces_of self.now }
        ensures len { length (strings_left result) ≡ length (pieces_of self.now) }
        ensures fits { length (pieces_of self.now) < 2 ^ 64 }
    {
        TaggedStrings {
            rest: self.elements.iter(),
        }
    }

    /// The characters of the line, in order.
    pub fn chars(&self) -> Chars<'_, T>
        ensures text { characters_left result ≡ characters self.now }
        ensures items { characters_left result ≡ item_characters (items_of self.now) }
    {
        Chars {
            text: "".chars(),
            rest: self.elements.iter(),
        }
    }
}

/// Two lines are equal where they have equal elements, in order.
impl<T: PartialEq> PartialEq for TaggedLine<T> {
    ghost use Rattle.tbr_tagged.specs.Equal.{equal_lines, equal_lines_laws};

    ghost eq = { equal_lines T.eq };

    ghost laws = { equal_lines_laws T.laws };

    fn eq(&self, other: &Self) -> bool {
        self.elements.equals(&other.elements)
    }
}

impl<T: Drop> IntoIterator for TaggedLine<T> {
    type Item = TaggedLineElement<T>;

    type IntoIter = IntoIter<T>;

    ghost use Rattle.std.specs.Prelude.{◌≡◌, length};
    ghost use Rattle.tbr_tagged.specs.View.{elements_of};
    ghost use Rattle.tbr_tagged.specs.Walks.{elements_to_come};

    ghost into_iter_gives = { λ line walk.
        (elements_of (elements_to_come walk) ≡ line) × (length (elements_to_come walk) ≡ length line) };

    fn into_iter(self) -> IntoIter<T> {
        self.elements.into_iter()
    }
}
