//! The elements of a line, as they are stored.
ghost use Rattle.std.specs.Prelude.{◌≡◌, ◌==◌, ◌++◌, ◌∷◌, ◌<◌, [], List, Some, chars, drop, length, slice_get, IfOk, OnOk, OnErr};
ghost use Rattle.tbr_tagged.specs.Elements.{Element, characters, is_piece_under, last_of, line_width, SameElements};
ghost use Rattle.tbr_tagged.specs.Elements as model;
ghost use Rattle.tbr_tagged.specs.Equal.{equal_lines};
ghost use Rattle.tbr_tagged.specs.Grown.{HasGrown, last_bytes};
ghost use Rattle.tbr_tagged.specs.Mapped.{MapsElements};
ghost use Rattle.tbr_tagged.specs.Padding as padding;
ghost use Rattle.tbr_tagged.specs.Restored.{restored};
ghost use Rattle.tbr_tagged.specs.Stored.{stored};
ghost use Rattle.tbr_tagged.specs.Sums.{GivesSum};
ghost use Rattle.tbr_tagged.specs.View.{chars_of, elements_of};
ghost use Rattle.tbr_tagged.specs.Walks.{elements_left, elements_to_come};

use crate::element::{
    TaggedLineElement, cut_text, extend, extend_by_char, extend_by_spaces, extend_front, is_under,
    make_room, prepend, set_text, text_len,
};
use crate::elements;
use crate::error::OutOfMemory;
use crate::iterators::{IntoIter, Iter, Rest};
use std::alloc::Global;
use std::mem;
use tbr_model::CharWidth;
use tbr_tags::Tag;

/// The elements of a line, in order. A single one is kept in place, so that a line of one piece needs no list.
#[derive(Debug, Drop)]
pub enum ElementList<T> {
    /// One element, in place.
    Alone(TaggedLineElement<T>),
    /// Several elements, or none.
    Listed(Vec<TaggedLineElement<T>>),
}

impl<T> ElementList<T> {
    /// No elements. It takes no memory.
    pub fn new(alloc: Global) -> ElementList<T>
        ensures { stored result ≡ [] }
    {
        ElementList::Listed(Vec::new(alloc))
    }

    /// The allocator.
    pub fn allocator(&self) -> Global {
        match self {
            ElementList::Alone(element) => element.allocator(),
            ElementList::Listed(list) => *list.allocator(),
        }
    }

    /// Whether there are no elements.
    fn is_empty(&self) -> bool
        ensures { result ≡ (length (stored self.now) == 0) }
    {
        match self {
            ElementList::Alone(_) => false,
            ElementList::Listed(list) => list.is_empty(),
        }
    }

    /// How many elements there are.
    pub fn len(&self) -> usize
        ensures { result ≡ length (stored self.now) }
    {
        match self {
            ElementList::Alone(_) => 1,
            ElementList::Listed(list) => list.len(),
        }
    }

    /// How many bytes the last element's text takes.
    pub fn last_len(&self) -> usize
        ensures { result ≡ last_bytes (last_of (elements_of (stored self.now))) }
    {
        match self {
            ElementList::Alone(element) => text_len(Some(element)),
            ElementList::Listed(list) => text_len(list.last()),
        }
    }

    /// Whether there is a piece. Markers don't count.
    pub fn has_piece(&self) -> bool
        ensures { result ≡ model.has_piece (elements_of (stored self.now)) }
    {
        match self {
            ElementList::Alone(element) => element.is_piece(),
            ElementList::Listed(list) => elements::has_piece(list),
        }
    }

    /// The columns that the elements take. It takes no memory, and refuses exactly where the sum passes `usize`.
    pub fn width<W: CharWidth>(&self) -> Result<usize, OutOfMemory>
        ensures { GivesSum result (line_width W.columns (elements_of (stored self.now))) }
    {
        match self {
            ElementList::Alone(element) => element.width::<W>(),
            ElementList::Listed(list) => elements::width_of::<T, W>(list),
        }
    }

    /// Appends the characters to `text`. Where memory is refused, part of them may have been appended.
    pub fn append_to(&self, text: &mut String) -> Result<(), OutOfMemory>
        ensures { OnOk result (chars_of text.new ≡ chars_of text.old ++ characters (elements_of (stored self.now))) }
    {
        match self {
            ElementList::Alone(element) => {
                text.push_str(element.as_str())?;
                Ok(())
            }
            ElementList::Listed(list) => elements::append_text(text, list),
        }
    }

    /// The elements, one by one.
    pub fn iter(&self) -> Iter<'_, T>
        ensures { elements_left result ≡ stored self.now }
    {
        match self {
            ElementList::Alone(element) => Iter {
                first: Some(element),
                rest: &[],
            },
            ElementList::Listed(list) => Iter {
                first: None,
                rest: list.as_slice(),
            },
        }
    }

    /// The elements, one by one, by value.
    pub fn into_iter(self) -> IntoIter<T>
        ensures { elements_to_come result ≡ stored self }
    {
        let rest = match self {
            ElementList::Alone(element) => Rest::Alone(Some(element)),
            ElementList::Listed(list) => Rest::Listed(list.into_iter()),
        };
        IntoIter { rest }
    }

    /// Whether the last element is a piece under an equal tag.
    pub fn ends_under(&self, tag: &T) -> bool
    where
        T: Tag,
        ensures { result ≡ is_piece_under T.eq (last_of (elements_of (stored self.now))) tag.now }
    {
        match self {
            ElementList::Alone(element) => is_under(Some(element), tag),
            ElementList::Listed(list) => is_under(list.last(), tag),
        }
    }

    /// Whether the first element is a piece under an equal tag.
    pub fn begins_under(&self, tag: &T) -> bool
    where
        T: Tag,
        ensures { result ≡ is_piece_under T.eq (slice_get (elements_of (stored self.now)) 0) tag.now }
    {
        match self {
            ElementList::Alone(element) => is_under(Some(element), tag),
            ElementList::Listed(list) => is_under(list.first(), tag),
        }
    }

    /// Whether the elements equal others, in order.
    pub fn equals(&self, other: &ElementList<T>) -> bool
    where
        T: PartialEq,
        ensures { result ≡ equal_lines T.eq (elements_of (stored self.now)) (elements_of (stored other.now)) }
    {
        match (self, other) {
            (ElementList::Alone(one), ElementList::Alone(two)) => one == two,
            (ElementList::Alone(one), ElementList::Listed(twos)) => {
                twos.len() == 1 && *one == twos[0]
            }
            (ElementList::Listed(ones), ElementList::Alone(two)) => {
                ones.len() == 1 && ones[0] == *two
            }
            (ElementList::Listed(ones), ElementList::Listed(twos)) => ones == twos,
        }
    }

    /// Appends text to the last element, if that is a piece. Where memory is refused, nothing changes.
    pub fn extend_last(&mut self, text: &str) -> Result<(), OutOfMemory>
        ensures ok { OnOk result
            (elements_of (stored self.new) ≡ model.extend_last (elements_of (stored self.old)) (chars text.now)) }
        ensures err { OnErr result (elements_of (stored self.new) ≡ elements_of (stored self.old)) }
    {
        match self {
            ElementList::Alone(element) => extend(element, text),
            ElementList::Listed(list) => elements::extend_last(list, text),
        }
    }

    /// Appends a character to the last element, if that is a piece. Where memory is refused, nothing changes.
    pub fn extend_last_by_char(&mut self, c: char) -> Result<(), OutOfMemory>
        ensures ok { OnOk result
            (elements_of (stored self.new) ≡ model.extend_last (elements_of (stored self.old)) (c ∷ [])) }
        ensures err { OnErr result (elements_of (stored self.new) ≡ elements_of (stored self.old)) }
    {
        match self {
            ElementList::Alone(element) => extend_by_char(element, c),
            ElementList::Listed(list) => elements::extend_last_by_char(list, c),
        }
    }

    /// Appends spaces to the last element, if that is a piece. Where memory is refused, nothing changes.
    pub fn extend_last_by_spaces(&mut self, count: usize) -> Result<(), OutOfMemory>
        ensures ok { OnOk result (elements_of (stored self.new)
            ≡ model.extend_last (elements_of (stored self.old)) (padding.spaces count)) }
        ensures err { OnErr result (elements_of (stored self.new) ≡ elements_of (stored self.old)) }
    {
        match self {
            ElementList::Alone(element) => extend_by_spaces(element, count),
            ElementList::Listed(list) => elements::extend_last_by_spaces(list, count),
        }
    }

    /// Makes room ahead of time for a text of `bytes` bytes, if there is a single element, and enough memory.
    pub fn make_room(&mut self, bytes: usize)
        ensures { elements_of (stored self.new) ≡ elements_of (stored self.old) }
    {
        if let ElementList::Alone(element) = self {
            make_room(element, bytes);
        }
    }

    /// Puts text in front of the first element's, in place, if it is a piece. Where memory is refused, nothing changes.
    pub fn prepend_first(&mut self, text: &str) -> Result<(), OutOfMemory>
        ensures ok { OnOk result
            (elements_of (stored self.new) ≡ model.extend_first (chars text.now) (elements_of (stored self.old))) }
        ensures err { OnErr result (elements_of (stored self.new) ≡ elements_of (stored self.old)) }
    {
        match self {
            ElementList::Alone(element) => prepend(element, text),
            ElementList::Listed(list) => elements::prepend_first(list, text),
        }
    }

    /// Puts text in front of the first element's, if that is a piece. It answers the text that the piece had. Where
    /// memory is refused, nothing changes, and the text is dropped.
    pub fn extend_first(&mut self, text: String) -> Result<String, OutOfMemory>
        ensures ok { OnOk result (elements_of (stored self.new)
            ≡ model.extend_first (chars_of text) (elements_of (stored self.old))) }
        ensures restores { IfOk result (λ had.
            restored (elements_of (stored self.new)) (Some (chars_of had)) ≡ elements_of (stored self.old)) }
        ensures err { OnErr result (elements_of (stored self.new) ≡ elements_of (stored self.old)) }
    {
        match self {
            ElementList::Alone(element) => extend_front(element, text),
            ElementList::Listed(list) => elements::extend_first(list, text),
        }
    }

    /// Gives the first element another text, if that is a piece.
    pub fn set_first_text(&mut self, text: String)
        ensures { elements_of (stored self.new) ≡ restored (elements_of (stored self.old)) (Some (chars_of text)) }
    {
        match self {
            ElementList::Alone(element) => set_text(element, text),
            ElementList::Listed(list) => elements::set_first_text(list, text),
        }
    }
}

impl<T: Drop> ElementList<T> {
    /// Appends an element. Where memory is refused, nothing changes.
    pub fn push(&mut self, element: TaggedLineElement<T>) -> Result<(), OutOfMemory>
        ensures ok { OnOk result (stored self.new ≡ stored self.old ++ element ∷ []) }
        ensures err { OnErr result (stored self.new ≡ stored self.old) }
    {
        match self {
            ElementList::Listed(list) if list.is_empty() => *self = ElementList::Alone(element),
            ElementList::Listed(list) => list.push(element)?,
            ElementList::Alone(_) => self.push_beside(element)?,
        }
        Ok(())
    }

    /// Appends an element to a single one, and puts both into a list. Where memory is refused, nothing changes.
    fn push_beside(&mut self, element: TaggedLineElement<T>) -> Result<(), OutOfMemory>
        ensures ok { OnOk result (stored self.new ≡ stored self.old ++ element ∷ []) }
        ensures err { OnErr result (stored self.new ≡ stored self.old) }
    {
        let mut list = self.take_list()?;
        let pushed = list.push(element);
        *self = ElementList::Listed(list);
        pushed?;
        Ok(())
    }

    /// Puts an element in front, which takes no memory if there are no others. Where memory is refused, nothing
    /// changes.
    pub fn insert_front(&mut self, element: TaggedLineElement<T>) -> Result<(), OutOfMemory>
        ensures ok { OnOk result (stored self.new ≡ element ∷ stored self.old) }
        ensures err { OnErr result (stored self.new ≡ stored self.old) }
        ensures some { OnErr result (0 < length (stored self.old)) }
    {
        if self.is_empty() {
            *self = ElementList::Alone(element);
            return Ok(());
        }
        let mut list = self.take_list()?;
        let inserted = list.insert(0, element);
        *self = ElementList::Listed(list);
        inserted?;
        Ok(())
    }

    /// Takes the elements out, as a list. Where memory is refused, they stay.
    fn take_list(&mut self) -> Result<Vec<TaggedLineElement<T>>, OutOfMemory>
        ensures ok { IfOk result (λ list. list.items ≡ stored self.old) }
        ensures err { OnErr result (stored self.new ≡ stored self.old) }
    {
        let alloc = self.allocator();
        let room = match self {
            ElementList::Alone(_) => 4,
            ElementList::Listed(_) => 0,
        };
        let mut list = Vec::with_capacity(alloc, room)?;
        match mem::replace(self, ElementList::new(alloc)) {
            ElementList::Alone(element) => {
                list.push_reserved(element);
                Ok(list)
            }
            ElementList::Listed(list) => Ok(list),
        }
    }

    /// Removes all elements after the first `count`, and what the last of these has after its first `bytes` bytes.
    pub fn cut_back(&mut self, count: usize, bytes: usize)
        ensures { (es : List (Element T)) → length es ≡ count → last_bytes (last_of es) ≡ bytes →
            HasGrown es (elements_of (stored self.old)) → elements_of (stored self.new) ≡ es }
    {
        match self {
            ElementList::Alone(element) if count == 0 => {
                *self = ElementList::new(element.allocator());
            }
            ElementList::Alone(element) => cut_text(element, bytes),
            ElementList::Listed(list) => elements::cut_back(list, count, bytes),
        }
    }

    /// Removes the first element, if there is one.
    pub fn remove_front(&mut self)
        ensures { stored self.new ≡ drop 1 (stored self.old) }
    {
        match self {
            ElementList::Alone(element) => *self = ElementList::new(element.allocator()),
            ElementList::Listed(list) => {
                if !list.is_empty() {
                    list.remove(0);
                }
            }
        }
    }

    /// The elements with each tag replaced by what `f` makes of it. It refuses only where memory is refused.
    pub fn map_tag<U: Drop, F: Fn(T) -> U>(self, f: &F) -> Result<ElementList<U>, OutOfMemory>
        requires { F.IsAlwaysCallable f.now }
        ensures { IfOk result (λ mapped.
            MapsElements (F.post f.now) (elements_of (stored self)) (elements_of (stored mapped))) }
    {
        match self {
            ElementList::Alone(element) => Ok(ElementList::Alone(element.map_tag(f))),
            ElementList::Listed(list) => Ok(ElementList::Listed(elements::map_tag(list, f)?)),
        }
    }

    /// Copies of the elements, each piece under a copy of its tag. It refuses only where memory is refused.
    pub fn clone(&self) -> Result<ElementList<T>, OutOfMemory>
    where
        T: Tag,
        ensures { IfOk result (λ copy.
            SameElements T.eq (elements_of (stored copy)) (elements_of (stored self.now))) }
    {
        match self {
            ElementList::Alone(element) => Ok(ElementList::Alone(element.clone()?)),
            ElementList::Listed(list) => Ok(ElementList::Listed(elements::clone(list)?)),
        }
    }
}
