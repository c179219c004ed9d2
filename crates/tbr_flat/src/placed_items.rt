//! A walk over placed items.
ghost use Rattle.std.specs.Prelude.{◌≡◌, ◌≤◌, ◌-◌, ◌^◌, min, take, drop, chars};
ghost use Rattle.std.specs.Option.{option_map};
ghost use Rattle.std.specs.VecDeque.Iter.{deque_iter_rest};
ghost use Rattle.tbr_flat.specs.Walk.{first_given, given, given_width, places_of, places_left};

use crate::markers::Marker;
use std::collections::vec_deque::Iter;
use std::marker::Model;
use std::str::Chars;
use tbr_model::CharWidth;
use tbr_tagged::narrow_in_front;

/// A walk over placed items, which gives their characters. A contract sees what it has still to give: for each item its
/// character, or `None` for a marker.
#[derive(Drop)]
pub struct PlacedItems<'a> {
    characters: Chars<'a>,
    markers: Iter<'a, Marker>,
    /// How many characters come before the next marker, if there is one.
    before: Option<usize>,
}

impl<'a> Model for PlacedItems<'a> {
    ghost use Rattle.std.specs.Prelude.{◌≡◌, ℕ, List, Option, true, chars};
    ghost use Rattle.std.specs.Str.{is_utf8};
    ghost use Rattle.std.specs.Str.Iter.{chars_rest};
    ghost use Rattle.std.specs.VecDeque.Iter.{deque_iter_rest};
    ghost use Rattle.tbr_flat.specs.Walk.{given, places_left};

    ghost Value = { List (Option ℕ) };

    ghost view = { λ a. given (chars (chars_rest a.characters)) (places_left a.before (deque_iter_rest a.markers)) };

    ghost invariant = { λ a. is_utf8 (chars_rest a.characters) ≡ true };
}

impl<'a> PlacedItems<'a> {
    /// A walk over the characters of a text and the markers among them.
    pub(crate) fn new(text: &'a str, mut markers: Iter<'a, Marker>) -> PlacedItems<'a>
        ensures { result ≡ given (chars text.now) (places_of (deque_iter_rest markers.entry)) }
    {
        let before = next_place(&mut markers);
        PlacedItems {
            characters: text.chars(),
            markers,
            before,
        }
    }

    /// Moves past the next item, and answers its character. A marker has none.
    pub fn next_character(&mut self) -> Option<char>
        ensures first { result ≡ first_given self.old }
        ensures rest { self.new ≡ drop 1 self.old }
    {
        if let Some(left) = self.before {
            if left == 0 {
                self.before = next_place(&mut self.markers);
                return None;
            }
            self.before = Some(left - 1);
        }
        self.characters.next()
    }

    /// Moves past the ASCII characters of one column each that come before the next marker and any other character, at
    /// most `most`, and answers how many these are.
    fn skip_narrow<W: CharWidth>(&mut self, most: usize) -> usize
        ensures within { result ≤ most }
        ensures width { given_width W.columns (take result self.old) ≡ result }
        ensures rest { self.new ≡ drop result self.old }
    {
        let most = self.before.unwrap_or(most).min(most);
        let text = self.characters.as_str();
        let count = narrow_in_front::<W>(text, most);
        self.characters = text[count..].chars();
        self.before = left_before(self.before, count);
        count
    }

    /// Moves past the next `count` items, and answers their columns, or `usize::MAX` where these are more.
    pub fn next_width<W: CharWidth>(&mut self, count: usize) -> usize
        ensures width { result ≡ min (given_width W.columns (take count self.old)) (2 ^ 64 - 1) }
        ensures rest { self.new ≡ drop count self.old }
    {
        let narrow = self.skip_narrow::<W>(count);
        let mut width = narrow;
        for _ in narrow..count {
            if let Some(c) = self.next_character() {
                width = width.saturating_add(W::width(c).unwrap_or(0));
            }
        }
        width
    }
}

/// How many characters come before the next marker.
fn next_place(markers: &mut Iter<'_, Marker>) -> Option<usize>
    ensures { places_left result (deque_iter_rest markers.new) ≡ places_of (deque_iter_rest markers.old) }
{
    let marker = markers.next()?;
    Some(marker.before)
}

/// How many characters come before the next marker once so many are passed.
fn left_before(before: Option<usize>, passed: usize) -> Option<usize>
    ensures { result ≡ option_map (λ n. n - passed) before }
{
    let before = before?;
    Some(before.saturating_sub(passed))
}
