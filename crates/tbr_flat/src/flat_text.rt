//! Characters under tags and markers.
ghost use Rattle.std.specs.Prelude.{◌≡◌, ◌<◌, ◌≤◌, ◌+◌, ◌++◌, ◌∷◌, [], true, false, List, length, map, take, drop, chars, string_bytes, MatchOption, OnOk, OnErr, IfOk, IsTrue, ◌↔◌};
ghost use Rattle.tbr_model.specs.Run.{Item, glyph, marker, item_width, items_width, has_character};
ghost use Rattle.tbr_model.specs.Rule.{spaces, without_leading, without_trailing};
ghost use Rattle.tbr_model.specs.Markers.{names_in_items};
ghost use Rattle.tbr_tagged.specs.Elements.{SameItems, IsMerged, items_of, marker_element, text_items};
ghost use Rattle.tbr_tagged.specs.Grown.{HasGrown};
ghost use Rattle.tbr_tagged.specs.View.{chars_of, element_of};
ghost use Rattle.tbr_tagged.specs.Walks.{item_characters};
ghost use Rattle.tbr_flat.specs.Walk.{character_in};

use crate::characters::Characters;
use crate::markers::Markers;
use crate::placed_items::PlacedItems;
use std::alloc::Global;
use std::marker::Model;
use tbr_model::CharWidth;
use tbr_tagged::{OutOfMemory, TaggedLine, TaggedLineElement};
use tbr_tags::Tag;

/// Characters under tags and markers: those that are placed on lines, and after them those of the current word.
///
/// Placing a word and handing out a line take time in proportion to their length. A contract sees the items that are
/// placed and not handed out yet, and those of the word.
#[derive(Drop)]
pub struct FlatText<T> {
    alloc: Global,
    text: Characters<T>,
    /// The markers among the placed characters.
    placed: Markers,
    /// The markers among the word's characters.
    word: Markers,
}

impl<T> Model for FlatText<T> {
    ghost use Rattle.std.specs.Prelude.{◌≡◌, length};
    ghost use Rattle.tbr_flat.specs.Flat.{Flat, marked, covered};

    ghost Value = { Flat T };

    ghost view = { λ a. record {
      placed = marked a.text.placed a.placed.markers;
      word = marked a.text.word a.word.markers;
    } };

    ghost invariant = { λ a. (covered a.placed ≡ length a.text.placed) × (covered a.word ≡ length a.text.word) };
}

/// Items that a word begins with.
#[derive(Clone, Copy)]
pub struct Front {
    /// How many they are.
    pub count: usize,
    /// How many of them are markers.
    pub markers: usize,
    /// The columns that they take.
    pub columns: usize,
}

impl<T> FlatText<T> {
    /// A text without items. It takes no memory.
    pub fn new(alloc: Global) -> FlatText<T>
        ensures { result ≡ record { placed = []; word = [] } }
    {
        FlatText {
            alloc,
            text: Characters::new(alloc),
            placed: Markers::new(alloc),
            word: Markers::new(alloc),
        }
    }

    /// Whether the word has a character.
    pub fn has_word(&self) -> bool
        ensures { result ≡ has_character self.now.word }
    {
        self.text.holds_characters();
        !self.text.is_word_empty()
    }

    /// Whether the word has no item.
    fn is_word_empty(&self) -> bool
        ensures { IsTrue result ↔ (self.now.word ≡ []) }
    {
        self.text.is_word_empty() && self.word.len() == 0
    }

    /// Whether a placed item is a character.
    pub fn has_placed(&self) -> bool
        ensures { result ≡ has_character self.now.placed }
    {
        self.text.holds_characters();
        !self.text.is_placed_empty()
    }

    /// Begins a walk over the placed items.
    pub fn items(&self) -> PlacedItems<'_>
        ensures { result ≡ map character_in self.now.placed }
    {
        self.text.holds_characters();
        PlacedItems::new(self.text.placed_text(), self.placed.iter())
    }

    /// How many items the word has. It refuses where they pass `usize`.
    pub fn word_len(&self) -> Result<usize, OutOfMemory>
        ensures { IfOk result (λ n. n ≡ length self.now.word) }
    {
        match self.text.word_len().checked_add(self.word.len()) {
            Some(len) => Ok(len),
            None => Err(OutOfMemory),
        }
    }

    /// The columns of the word. It refuses where they pass `usize`.
    pub fn word_width<W: CharWidth>(&self) -> Result<usize, OutOfMemory>
        ensures { IfOk result (λ n. n ≡ items_width W.columns self.now.word) }
    {
        self.text.word_width::<W>()
    }

    /// The columns of the word's first item.
    pub fn first_width<W: CharWidth>(&self) -> Option<usize>
        ensures { MatchOption result (self.now.word ≡ []) (λ n. (i : Item T) × (rest : List (Item T))
            × (self.now.word ≡ i ∷ rest) × (n ≡ item_width W.columns i)) }
    {
        if self.word.begins_with_marker() {
            return Some(0);
        }
        let c = self.text.first()?;
        Some(W::width(c).unwrap_or(0))
    }

    /// Makes room ahead of time for this many more bytes of placed characters, if there is enough memory.
    pub fn make_room(&mut self, bytes: usize)
        ensures { self.new ≡ self.old }
    {
        self.text.make_room(bytes);
    }

    /// Adds a marker to the word. If memory is refused, the items stay as they were.
    pub fn push_marker(&mut self, name: String) -> Result<(), OutOfMemory>
        ensures { OnOk result (self.new ≡ record self.old { word = self.old.word ++ marker (string_bytes name) ∷ [] }) }
    {
        self.word.push(name)
    }
}

impl<T: Drop> FlatText<T> {
    /// Places the word, and answers how many markers it has. Its time is in proportion to the word's text and markers.
    ///
    /// If memory is refused, the items may be lost.
    pub fn place_word(&mut self) -> Result<usize, OutOfMemory>
        ensures markers { IfOk result (λ n. n ≡ length (names_in_items self.old.word)) }
        ensures placed { OnOk result (self.new ≡ record { placed = self.old.placed ++ self.old.word; word = [] }) }
    {
        self.text.holds_characters();
        let markers = self.word.len();
        self.text.place_word()?;
        if let Err(e) = self.placed.append(&mut self.word) {
            clear(&mut self.text, &mut self.placed, &mut self.word);
            return Err(e);
        }
        Ok(markers)
    }

    /// Places the word's first items, at most `most`: a marker, or characters up to a marker, as long as they fit into
    /// `room` columns. Its time is in proportion to their number.
    ///
    /// If memory is refused, the items may be lost.
    pub fn place_front<W: CharWidth>(
        &mut self,
        most: usize,
        room: usize,
    ) -> Result<Front, OutOfMemory>
        requires { 0 < most }
        ensures some { 0 < length self.old.word → items_width W.columns (take 1 self.old.word) ≤ room →
            IfOk result (λ front. 0 < front.count) }
        ensures most { IfOk result (λ front. front.count ≤ most) }
        ensures within { IfOk result (λ front. front.count ≤ length self.old.word) }
        ensures room { IfOk result (λ front. front.columns ≤ room) }
        ensures columns { IfOk result (λ front.
            front.columns ≡ items_width W.columns (take front.count self.old.word)) }
        ensures markers { IfOk result (λ front.
            front.markers ≡ length (names_in_items (take front.count self.old.word))) }
        ensures placed { IfOk result (λ front. self.new ≡ record {
          placed = self.old.placed ++ take front.count self.old.word;
          word = drop front.count self.old.word;
        }) }
    {
        if let Some(name) = self.word.pop_first() {
            self.placed.push(name)?;
            return Ok(Front {
                count: 1,
                markers: 1,
                columns: 0,
            });
        }
        self.text.holds_characters();
        let longest = self.word.before().min(most);
        let (count, columns) = self.text.place_fitting::<W>(longest, room)?;
        if let Err(e) = self.placed.add_characters(count) {
            clear(&mut self.text, &mut self.placed, &mut self.word);
            return Err(e);
        }
        self.word.remove_first(count);
        Ok(Front {
            count,
            markers: 0,
            columns,
        })
    }

    /// Puts the last `last` placed items in front of the word, if they are markers.
    ///
    /// If memory is refused, a marker may be lost.
    pub fn unplace(&mut self, last: usize) -> Result<(), OutOfMemory>
        ensures { (before line : List (Item T)) → self.old.placed ≡ before ++ line →
            length line ≡ last → has_character line ≡ false →
            OnOk result (self.new ≡ record { placed = before; word = line ++ self.old.word }) }
    {
        self.text.holds_characters();
        for _ in 0..last {
            let Some(name) = self.placed.pop_last() else {
                return Ok(());
            };
            self.word.push_first(name)?;
        }
        Ok(())
    }

    /// Takes out the markers of the word, which must have no character. If memory is refused, markers may be lost.
    pub fn take_markers(&mut self) -> Result<Vec<TaggedLineElement<T>>, OutOfMemory>
        requires { has_character self.old.word ≡ false }
        ensures markers { IfOk result (λ es.
            map element_of es.items ≡ map marker_element (names_in_items self.old.word)) }
        ensures rest { OnOk result (self.new ≡ record self.old { word = [] }) }
    {
        let mut markers = Vec::new(self.alloc);
        while let Some(name) = self.word.pop_first() {
            markers.push(TaggedLineElement::FragmentStart(name))?;
        }
        self.text.holds_characters();
        Ok(markers)
    }

    /// Removes the spaces at the end of the last `most` placed items, back to a marker. It also removes the white space
    /// at the word's beginning, up to a marker. It answers how many placed spaces it removed. Its time is in proportion
    /// to the word's stored tags.
    pub fn trim(&mut self, most: usize) -> usize
        requires { most ≤ length self.old.placed }
        ensures placed { (before line : List (Item T)) → self.old.placed ≡ before ++ line → length line ≡ most →
            (self.new.placed ≡ before ++ without_trailing line)
            × (result + length (without_trailing line) ≡ length line) }
        ensures word { self.new.word ≡ without_leading self.old.word }
    {
        let spaces = self.text.trim_placed(most.min(self.placed.after()));
        let blanks = self.text.trim_word(self.word.before());
        self.placed.remove_last(spaces);
        self.word.remove_first(blanks);
        spaces
    }

    /// Forgets all items.
    pub fn clear(&mut self)
        ensures { self.new ≡ record { placed = []; word = [] } }
    {
        clear(&mut self.text, &mut self.placed, &mut self.word);
    }

    /// Moves the text of the first `items` placed items to the end of another text, and drops their tags and markers.
    /// Its time is in proportion to `items`. If memory is refused, items may be lost.
    pub fn move_text(&mut self, items: usize, text: &mut String) -> Result<(), OutOfMemory>
        requires { items ≤ length self.old.placed }
        ensures text { OnOk result
            (chars_of text.new ≡ chars_of text.old ++ item_characters (take items self.old.placed)) }
        ensures rest { OnOk result (self.new ≡ record self.old { placed = drop items self.old.placed }) }
    {
        let mut left = items;
        while left > 0 {
            left -= self.move_piece(text, left)?;
        }
        Ok(())
    }

    /// Moves the text of the first placed items to the end of another text, and answers how many they are. They are a
    /// marker, which has no text, or at most `most` characters, all under one tag.
    fn move_piece(&mut self, text: &mut String, most: usize) -> Result<usize, OutOfMemory>
        requires some { 0 < most }
        requires placed { most ≤ length self.old.placed }
        ensures some { IfOk result (λ n. (0 < n) × (n ≤ most)) }
        ensures text { IfOk result (λ n.
            chars_of text.new ≡ chars_of text.old ++ item_characters (take n self.old.placed)) }
        ensures rest { IfOk result (λ n. self.new ≡ record self.old { placed = drop n self.old.placed }) }
    {
        if let Some(_name) = self.placed.pop_first() {
            return Ok(1);
        }
        match self.text.move_text(most.min(self.placed.before()), text) {
            Ok(count) => {
                self.placed.remove_first(count);
                Ok(count)
            }
            Err(e) => {
                clear(&mut self.text, &mut self.placed, &mut self.word);
                Err(e)
            }
        }
    }
}

impl<T: Tag> FlatText<T> {
    /// Adds a character to the word. The tag is copied only if the tag before it isn't equal.
    ///
    /// If memory is refused, the items may be lost.
    pub fn push(&mut self, c: char, tag: &T) -> Result<(), OutOfMemory>
        ensures { OnOk result ((a : T) × (T.eq a tag.now ≡ true)
            × (self.new ≡ record self.old { word = self.old.word ++ glyph c a ∷ [] })) }
    {
        self.word.add_characters(1)?;
        if let Err(e) = self.text.push(c, tag) {
            clear(&mut self.text, &mut self.placed, &mut self.word);
            return Err(e);
        }
        Ok(())
    }

    /// Adds a text of `count` characters to the word. The tag is copied only if the tag before it isn't equal.
    ///
    /// If memory is refused, the items may be lost.
    pub fn push_text(&mut self, text: &str, count: usize, tag: &T) -> Result<(), OutOfMemory>
        requires some { 0 < count }
        requires count { count ≡ length (chars text.now) }
        ensures { OnOk result ((a : T) × (T.eq a tag.now ≡ true)
            × (self.new ≡ record self.old { word = self.old.word ++ text_items (chars text.now) a })) }
    {
        self.word.add_characters(count)?;
        if let Err(e) = self.text.push_text(text, count, tag) {
            clear(&mut self.text, &mut self.placed, &mut self.word);
            return Err(e);
        }
        Ok(())
    }

    /// Places the word and then a text of `count` characters, and answers how many markers the word has. The tag is
    /// copied only if the tag before it isn't equal.
    ///
    /// If memory is refused, the items may be lost.
    pub fn place_with(&mut self, text: &str, count: usize, tag: &T) -> Result<usize, OutOfMemory>
        requires some { 0 < count }
        requires count { count ≡ length (chars text.now) }
        ensures markers { IfOk result (λ n. n ≡ length (names_in_items self.old.word)) }
        ensures placed { OnOk result ((a : T) × (T.eq a tag.now ≡ true) × (self.new ≡ record {
          placed = self.old.placed ++ (self.old.word ++ text_items (chars text.now) a);
          word = [];
        })) }
    {
        if !self.is_word_empty() {
            self.push_text(text, count, tag)?;
            return self.place_word();
        }
        self.place_text(text, count, tag)?;
        Ok(0)
    }

    /// Places a text of `count` characters. The word must have no item. If memory is refused, items may be lost.
    fn place_text(&mut self, text: &str, count: usize, tag: &T) -> Result<(), OutOfMemory>
        requires none { self.old.word ≡ [] }
        requires some { 0 < count }
        requires count { count ≡ length (chars text.now) }
        ensures { OnOk result ((a : T) × (T.eq a tag.now ≡ true)
            × (self.new ≡ record { placed = self.old.placed ++ text_items (chars text.now) a; word = [] })) }
    {
        self.placed.add_characters(count)?;
        if let Err(e) = self.text.place_text(text, count, tag) {
            clear(&mut self.text, &mut self.placed, &mut self.word);
            return Err(e);
        }
        Ok(())
    }

    /// Places `count` spaces before the word. Its time is in proportion to the word's stored tags.
    ///
    /// Where the spaces come between characters under one stored tag, that tag is copied, and the word's first
    /// characters are under the copy. If memory is refused, the items may be lost.
    pub fn push_spaces(&mut self, count: usize, tag: T) -> Result<(), OutOfMemory>
        requires some { 0 < count }
        ensures placed { OnOk result ((a : T) × (T.eq a tag ≡ true)
            × (self.new.placed ≡ self.old.placed ++ spaces count a)) }
        ensures word { OnOk result (SameItems T.eq self.new.word self.old.word) }
    {
        self.placed.add_characters(count)?;
        if let Err(e) = self.text.push_spaces(count, tag) {
            clear(&mut self.text, &mut self.placed, &mut self.word);
            return Err(e);
        }
        Ok(())
    }

    /// Hands out the first `items` placed items as a line. Its time is in proportion to their number. If memory is
    /// refused, items may be lost.
    pub fn take_line(&mut self, items: usize) -> Result<TaggedLine<T>, OutOfMemory>
        requires placed { items ≤ length self.old.placed }
        ensures items { IfOk result (λ line. SameItems T.eq (items_of line) (take items self.old.placed)) }
        ensures merged { IfOk result (λ line. IsMerged T.eq line) }
        ensures rest { OnOk result (self.new ≡ record self.old { placed = drop items self.old.placed }) }
    {
        let mut line = TaggedLine::new(self.alloc);
        self.move_line(items, &mut line)?;
        Ok(line)
    }

    /// Moves the first `items` placed items to the end of a line. Its time is in proportion to their number.
    ///
    /// Where memory is refused, the line stays as it was, and the items may be lost.
    pub fn move_line(&mut self, items: usize, line: &mut TaggedLine<T>) -> Result<(), OutOfMemory>
        requires placed { items ≤ length self.old.placed }
        ensures items { OnOk result
            (SameItems T.eq (items_of line.new) (items_of line.old ++ take items self.old.placed)) }
        ensures merged { IsMerged T.eq line.old → OnOk result (IsMerged T.eq line.new) }
        ensures rest { OnOk result (self.new ≡ record self.old { placed = drop items self.old.placed }) }
        ensures err { OnErr result (line.new ≡ line.old) }
    {
        let end = line.end();
        let moved = self.move_elements(items, line);
        if moved.is_err() {
            line.cut_back(end);
        }
        moved
    }

    /// Moves the first `items` placed items to the end of a line. Where memory is refused, part of them may have been
    /// moved.
    fn move_elements(&mut self, items: usize, line: &mut TaggedLine<T>) -> Result<(), OutOfMemory>
        requires placed { items ≤ length self.old.placed }
        ensures items { OnOk result
            (SameItems T.eq (items_of line.new) (items_of line.old ++ take items self.old.placed)) }
        ensures merged { IsMerged T.eq line.old → OnOk result (IsMerged T.eq line.new) }
        ensures rest { OnOk result (self.new ≡ record self.old { placed = drop items self.old.placed }) }
        ensures grown { HasGrown line.old line.new }
    {
        let mut left = items;
        while left > 0 {
            left -= self.move_element(line, left)?;
        }
        Ok(())
    }

    /// Moves the first placed items to the end of a line, and answers how many they are. They are a marker, or at most
    /// `most` characters, all under one tag.
    fn move_element(&mut self, line: &mut TaggedLine<T>, most: usize) -> Result<usize, OutOfMemory>
        requires some { 0 < most }
        requires placed { most ≤ length self.old.placed }
        ensures some { IfOk result (λ n. (0 < n) × (n ≤ most)) }
        ensures items { IfOk result (λ n.
            SameItems T.eq (items_of line.new) (items_of line.old ++ take n self.old.placed)) }
        ensures merged { IsMerged T.eq line.old → OnOk result (IsMerged T.eq line.new) }
        ensures rest { IfOk result (λ n. self.new ≡ record self.old { placed = drop n self.old.placed }) }
        ensures grown { HasGrown line.old line.new }
    {
        if let Some(name) = self.placed.pop_first() {
            line.push(TaggedLineElement::FragmentStart(name))?;
            return Ok(1);
        }
        match self.text.move_piece(most.min(self.placed.before()), line) {
            Ok(count) => {
                self.placed.remove_first(count);
                Ok(count)
            }
            Err(e) => {
                clear(&mut self.text, &mut self.placed, &mut self.word);
                Err(e)
            }
        }
    }
}

/// Forgets all items.
fn clear<T: Drop>(text: &mut Characters<T>, placed: &mut Markers, word: &mut Markers)
    ensures text { text.new ≡ record { placed = []; word = [] } }
    ensures placed { placed.new ≡ record { markers = []; after = 0 } }
    ensures word { word.new ≡ record { markers = []; after = 0 } }
{
    text.clear();
    placed.clear();
    word.clear();
}
