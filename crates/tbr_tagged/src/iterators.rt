//! Walks over the elements, the pieces and the characters of a line.

use crate::element::{TaggedLineElement, TaggedString};
use std::{str, vec};

/// The elements of a line, in order.
#[derive(Drop)]
pub struct Iter<'a, T> {
    /// An element that comes before those of the slice.
    pub(crate) first: Option<&'a TaggedLineElement<T>>,
    pub(crate) rest: &'a [TaggedLineElement<T>],
}

/// The elements of a line, in order, by value.
#[derive(Drop)]
pub struct IntoIter<T> {
    pub(crate) rest: Rest<T>,
}

/// The elements that are left, stored as the line stored them.
#[derive(Drop)]
pub enum Rest<T> {
    /// Those of a line that keeps a single one in place.
    Alone(Option<TaggedLineElement<T>>),
    /// Those of a list.
    Listed(vec::IntoIter<TaggedLineElement<T>>),
}

/// The pieces of a line without its markers, in order.
#[derive(Drop)]
pub struct TaggedStrings<'a, T> {
    pub(crate) rest: Iter<'a, T>,
}

/// The characters of a line, in order.
#[derive(Drop)]
pub struct Chars<'a, T> {
    pub(crate) text: str::Chars<'a>,
    pub(crate) rest: Iter<'a, T>,
}

impl<'a, T> Iterator for Iter<'a, T> {
    type Item = &'a TaggedLineElement<T>;

    ghost use Rattle.std.specs.Iterator.{YieldsFirstRef, item_count};
    ghost use Rattle.tbr_tagged.specs.Walks.{elements_left};

    ghost next_gives = { YieldsFirstRef elements_left };

    ghost remaining = { item_count elements_left };

    fn next(&mut self) -> Option<&'a TaggedLineElement<T>> {
        if let Some(first) = self.first.take() {
            return Some(first);
        }
        let (first, rest) = self.rest.split_first()?;
        self.rest = rest;
        Some(first)
    }
}

impl<T: Drop> Iterator for IntoIter<T> {
    type Item = TaggedLineElement<T>;

    ghost use Rattle.std.specs.Iterator.{YieldsFirst, item_count};
    ghost use Rattle.tbr_tagged.specs.Walks.{elements_to_come};

    ghost next_gives = { YieldsFirst elements_to_come };

    ghost remaining = { item_count elements_to_come };

    fn next(&mut self) -> Option<TaggedLineElement<T>> {
        match &mut self.rest {
            Rest::Alone(element) => element.take(),
            Rest::Listed(list) => list.next(),
        }
    }
}

impl<T: Drop> ExactSizeIterator for IntoIter<T> {
    fn len(&self) -> usize {
        match &self.rest {
            Rest::Alone(element) => element.is_some() as usize,
            Rest::Listed(list) => list.len(),
        }
    }
}

impl<'a, T> Iterator for TaggedStrings<'a, T> {
    type Item = &'a TaggedString<T>;

    ghost use Rattle.std.specs.Iterator.{YieldsFirstRef, item_count};
    ghost use Rattle.tbr_tagged.specs.Walks.{strings_left};

    ghost next_gives = { YieldsFirstRef strings_left };

    ghost remaining = { item_count strings_left };

    fn next(&mut self) -> Option<&'a TaggedString<T>> {
        loop {
            let element = self.rest.next()?;
            if let TaggedLineElement::Str(piece) = element {
                return Some(piece);
            }
        }
    }
}

impl<'a, T> Iterator for Chars<'a, T> {
    type Item = char;

    ghost use Rattle.std.specs.Iterator.{YieldsFirst, item_count};
    ghost use Rattle.tbr_tagged.specs.Walks.{characters_left};

    ghost next_gives = { YieldsFirst characters_left };

    ghost remaining = { item_count characters_left };

    fn next(&mut self) -> Option<char> {
        loop {
            if let Some(c) = self.text.next() {
                return Some(c);
            }
            let element = self.rest.next()?;
            self.text = element.as_str().chars();
        }
    }
}
