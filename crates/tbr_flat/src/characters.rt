//! Characters under tags.
ghost use Rattle.std.specs.Prelude.{◌≡◌, ◌<◌, ◌≤◌, ◌+◌, ◌++◌, ◌∷◌, [], true, List, length, take, drop, chars, string_bytes, MatchOption, OnOk, OnErr, IfOk, IsTrue, ◌↔◌};
ghost use Rattle.std.specs.List.{AllByRecursion as Each};
ghost use Rattle.tbr_model.specs.Run.{Item, glyph, items_width};
ghost use Rattle.tbr_model.specs.Entry.{is_glyph};
ghost use Rattle.tbr_model.specs.Rule.{spaces, without_leading, without_trailing};
ghost use Rattle.tbr_tagged.specs.Elements.{items_of, text_items, SameItems, IsMerged};
ghost use Rattle.tbr_tagged.specs.Grown.{HasGrown};
ghost use Rattle.tbr_tagged.specs.View.{chars_of};
ghost use Rattle.tbr_tagged.specs.Walks.{item_characters};

use crate::tags::Tags;
use crate::text_queue::TextQueue;
use std::alloc::Global;
use std::marker::Model;
use tbr_model::CharWidth;
use tbr_tagged::{OutOfMemory, TaggedLine};
use tbr_tags::Tag;

/// Characters under tags: those that are placed on lines, and after them those of the current word.
///
/// A tag is stored once for neighbouring characters, on however many lines and in however many words. Placing and
/// handing out characters takes time in proportion to their number. A contract sees the characters that are placed and
/// not handed out yet, and those of the word.
#[derive(Drop)]
pub struct Characters<T> {
    placed: TextQueue,
    word: TextQueue,
    /// The tags of both, in order.
    tags: Tags<T>,
}

impl<T> Model for Characters<T> {
    ghost use Rattle.std.specs.Prelude.{◌≡◌, ◌+◌, length};
    ghost use Rattle.tbr_flat.specs.Flat.{Flat, flat};

    ghost Value = { Flat T };

    ghost view = { λ a. flat a.placed a.word a.tags };

    ghost invariant = { λ a. length a.tags ≡ length a.placed + length a.word };
}

impl<T> Characters<T> {
    /// A text without characters. It takes no memory.
    pub fn new(alloc: Global) -> Characters<T>
        ensures { result ≡ record { placed = []; word = [] } }
    {
        Characters {
            placed: TextQueue::new(alloc),
            word: TextQueue::new(alloc),
            tags: Tags::new(alloc),
        }
    }

    /// How many characters the word has.
    pub fn word_len(&self) -> usize
        ensures { result ≡ length self.now.word }
    {
        self.word.len()
    }

    /// Whether the word has no character.
    pub fn is_word_empty(&self) -> bool
        ensures { IsTrue result ↔ (self.now.word ≡ []) }
    {
        self.word_len() == 0
    }

    /// The text that is placed, without its tags.
    pub fn placed_text(&self) -> &str
        ensures { chars result.now ≡ item_characters self.now.placed }
    {
        self.placed.as_str()
    }

    /// Whether no character is placed.
    pub fn is_placed_empty(&self) -> bool
        ensures { IsTrue result ↔ (self.now.placed ≡ []) }
    {
        self.placed.is_empty()
    }

    /// The word's first character.
    pub fn first(&self) -> Option<char>
        ensures { MatchOption result (self.now.word ≡ [])
            (λ c. (a : T) × (rest : List (Item T)) × (self.now.word ≡ glyph c a ∷ rest)) }
    {
        self.word.first()
    }

    /// Changes nothing. Its contract says that all items are characters.
    pub fn holds_characters(&self)
        ensures placed { Each (λ i. is_glyph i ≡ true) self.now.placed }
        ensures word { Each (λ i. is_glyph i ≡ true) self.now.word }
    {
        let _ = &self.tags;
    }

    /// Makes room ahead of time for this many more bytes of placed characters, if there is enough memory.
    pub fn make_room(&mut self, bytes: usize)
        ensures { self.new ≡ self.old }
    {
        self.placed.make_room(bytes);
    }

    /// Places the word. Its time is in proportion to the word's text. If memory is refused, the characters stay as they
    /// were.
    pub fn place_word(&mut self) -> Result<(), OutOfMemory>
        ensures ok { OnOk result (self.new ≡ record { placed = self.old.placed ++ self.old.word; word = [] }) }
        ensures err { OnErr result (self.new ≡ self.old) }
    {
        self.placed.append(&mut self.word)?;
        Ok(())
    }

    /// The columns of the word. It refuses where they pass `usize`.
    pub fn word_width<W: CharWidth>(&self) -> Result<usize, OutOfMemory>
        ensures { IfOk result (λ n. n ≡ items_width W.columns self.now.word) }
    {
        self.word.width::<W>()
    }

    /// Places the word's first characters, at most `most`, as long as they fit into `room` columns. It answers how many
    /// they are, and their columns.
    ///
    /// If memory is refused, the characters stay as they were.
    pub fn place_fitting<W: CharWidth>(
        &mut self,
        most: usize,
        room: usize,
    ) -> Result<(usize, usize), OutOfMemory>
        ensures some { 0 < most → 0 < length self.old.word → items_width W.columns (take 1 self.old.word) ≤ room →
            IfOk result (λ r. 0 < r.0) }
        ensures most { IfOk result (λ r. r.0 ≤ most) }
        ensures within { IfOk result (λ r. r.0 ≤ length self.old.word) }
        ensures room { IfOk result (λ r. r.1 ≤ room) }
        ensures columns { IfOk result (λ r. r.1 ≡ items_width W.columns (take r.0 self.old.word)) }
        ensures placed { IfOk result (λ r. self.new
            ≡ record { placed = self.old.placed ++ take r.0 self.old.word; word = drop r.0 self.old.word }) }
        ensures err { OnErr result (self.new ≡ self.old) }
    {
        let (count, columns) = self.word.move_fitting::<W>(most, room, &mut self.placed)?;
        Ok((count, columns))
    }
}

impl<T: Drop> Characters<T> {
    /// Removes the spaces at the end of the last `last` placed characters, and answers how many they were. Its time is
    /// in proportion to the word's stored tags.
    pub fn trim_placed(&mut self, last: usize) -> usize
        requires { last ≤ length self.old.placed }
        ensures placed { (before line : List (Item T)) → self.old.placed ≡ before ++ line → length line ≡ last →
            (self.new.placed ≡ before ++ without_trailing line)
            × (result + length (without_trailing line) ≡ length line) }
        ensures word { self.new.word ≡ self.old.word }
    {
        let spaces = self.placed.pop_spaces(last);
        self.tags.remove_before(self.word.len(), spaces);
        spaces
    }

    /// Removes the white space at the beginning of the word's first `first` characters, and answers how many characters
    /// it was. Its time is in proportion to the word's stored tags.
    pub fn trim_word(&mut self, first: usize) -> usize
        requires { first ≤ length self.old.word }
        ensures word { (front rest : List (Item T)) → self.old.word ≡ front ++ rest → length front ≡ first →
            (self.new.word ≡ without_leading front ++ rest)
            × (result + length (without_leading front) ≡ length front) }
        ensures placed { self.new.placed ≡ self.old.placed }
    {
        let word = self.word.len();
        let blanks = self.word.pop_blanks(first);
        self.tags.remove_before(word - blanks, blanks);
        blanks
    }
}

impl<T: Tag> Characters<T> {
    /// Adds a character to the word. The tag is copied only if the tag before it isn't equal.
    ///
    /// If memory is refused, the characters may be lost.
    pub fn push(&mut self, c: char, tag: &T) -> Result<(), OutOfMemory>
        ensures { OnOk result ((a : T) × (T.eq a tag.now ≡ true)
            × (self.new ≡ record self.old { word = self.old.word ++ glyph c a ∷ [] })) }
    {
        self.tags.push(tag, 1)?;
        if let Err(e) = self.word.push(c) {
            clear(&mut self.placed, &mut self.word, &mut self.tags);
            return Err(e);
        }
        Ok(())
    }

    /// Adds a text of `count` characters to the word. The tag is copied only if the tag before it isn't equal.
    ///
    /// If memory is refused, the characters may be lost.
    pub fn push_text(&mut self, text: &str, count: usize, tag: &T) -> Result<(), OutOfMemory>
        requires some { 0 < count }
        requires count { count ≡ length (chars text.now) }
        ensures { OnOk result ((a : T) × (T.eq a tag.now ≡ true)
            × (self.new ≡ record self.old { word = self.old.word ++ text_items (chars text.now) a })) }
    {
        self.tags.push(tag, count)?;
        if let Err(e) = self.word.push_str(text, count) {
            clear(&mut self.placed, &mut self.word, &mut self.tags);
            return Err(e);
        }
        Ok(())
    }

    /// Places a text of `count` characters. The word must have none. The tag is copied only if the tag before it isn't
    /// equal.
    ///
    /// If memory is refused, the characters may be lost.
    pub fn place_text(&mut self, text: &str, count: usize, tag: &T) -> Result<(), OutOfMemory>
        requires none { self.old.word ≡ [] }
        requires some { 0 < count }
        requires count { count ≡ length (chars text.now) }
        ensures { OnOk result ((a : T) × (T.eq a tag.now ≡ true)
            × (self.new ≡ record { placed = self.old.placed ++ text_items (chars text.now) a; word = [] })) }
    {
        self.tags.push(tag, count)?;
        if let Err(e) = self.placed.push_str(text, count) {
            clear(&mut self.placed, &mut self.word, &mut self.tags);
            return Err(e);
        }
        Ok(())
    }

    /// Places `count` spaces before the word. Its time is in proportion to the word's stored tags.
    ///
    /// Where the spaces come between characters under one stored tag, that tag is copied, and the word's first
    /// characters are under the copy. If memory is refused, the characters may be lost.
    pub fn push_spaces(&mut self, count: usize, tag: T) -> Result<(), OutOfMemory>
        requires some { 0 < count }
        ensures placed { OnOk result ((a : T) × (T.eq a tag ≡ true)
            × (self.new.placed ≡ self.old.placed ++ spaces count a)) }
        ensures word { OnOk result (SameItems T.eq self.new.word self.old.word) }
    {
        if let Err(e) = self.tags.insert_before(self.word.len(), count, tag) {
            clear(&mut self.placed, &mut self.word, &mut self.tags);
            return Err(e);
        }
        if let Err(e) = self.placed.push_spaces(count) {
            clear(&mut self.placed, &mut self.word, &mut self.tags);
            return Err(e);
        }
        Ok(())
    }

    /// Moves the first placed characters, at most `most` and all under one tag, to the end of a line, and answers how
    /// many they are.
    ///
    /// If memory is refused, the characters may be lost.
    pub fn move_piece(
        &mut self,
        most: usize,
        line: &mut TaggedLine<T>,
    ) -> Result<usize, OutOfMemory>
        requires some { 0 < most }
        requires placed { most ≤ length self.old.placed }
        ensures some { IfOk result (λ n. (0 < n) × (n ≤ most)) }
        ensures items { IfOk result (λ n.
            SameItems T.eq (items_of line.new) (items_of line.old ++ take n self.old.placed)) }
        ensures merged { IsMerged T.eq line.old → OnOk result (IsMerged T.eq line.new) }
        ensures rest { IfOk result (λ n. self.new ≡ record self.old { placed = drop n self.old.placed }) }
        ensures grown { HasGrown line.old line.new }
    {
        let (count, tag) = self.tags.take(most)?;
        match self.placed.move_under(count, tag, line) {
            Ok(()) => Ok(count),
            Err(e) => {
                clear(&mut self.placed, &mut self.word, &mut self.tags);
                Err(e)
            }
        }
    }
}

impl<T: Drop> Characters<T> {
    /// Moves the text of the first placed characters, at most `most` and all under one tag, to the end of another, and
    /// answers how many they are.
    ///
    /// If memory is refused, the characters may be lost.
    pub fn move_text(&mut self, most: usize, text: &mut String) -> Result<usize, OutOfMemory>
        requires some { 0 < most }
        requires placed { most ≤ length self.old.placed }
        ensures some { IfOk result (λ n. (0 < n) × (n ≤ most)) }
        ensures text { IfOk result (λ n.
            chars_of text.new ≡ chars_of text.old ++ item_characters (take n self.old.placed)) }
        ensures rest { IfOk result (λ n. self.new ≡ record self.old { placed = drop n self.old.placed }) }
    {
        let count = self.tags.remove_front(most);
        match self.placed.move_to(count, text) {
            Ok(()) => Ok(count),
            Err(e) => {
                clear(&mut self.placed, &mut self.word, &mut self.tags);
                Err(e)
            }
        }
    }

    /// Forgets all characters.
    pub fn clear(&mut self)
        ensures { self.new ≡ record { placed = []; word = [] } }
    {
        clear(&mut self.placed, &mut self.word, &mut self.tags);
    }
}

/// Forgets all characters and tags.
fn clear<T: Drop>(placed: &mut TextQueue, word: &mut TextQueue, tags: &mut Tags<T>)
    ensures placed { placed.new ≡ [] }
    ensures word { word.new ≡ [] }
    ensures tags { tags.new ≡ [] }
{
    placed.clear();
    word.clear();
    tags.clear();
}
