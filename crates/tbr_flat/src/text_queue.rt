//! A text that is taken from its front.
ghost use Rattle.std.specs.Prelude.{◌≡◌, ◌<◌, ◌≤◌, ◌+◌, ◌-◌, ◌^◌, ◌++◌, ◌∷◌, [], ℕ, suc, true, false, List, length, take, drop, replicate, chars, string_bytes, MatchOption, OnOk, OnErr};
ghost use Rattle.std.specs.Prelude.{IfOk, IsTrue, ◌↔◌};
ghost use lib.Utf8.{encodes};
ghost use Rattle.std.specs.Char.{is_whitespace};
ghost use Rattle.std.specs.List.{AllByRecursion as Each};
ghost use Rattle.tbr_model.specs.Width.{width_of_text};
ghost use Rattle.tbr_tagged.specs.Elements.{items_of, text_items, SameItems, IsMerged};
ghost use Rattle.tbr_tagged.specs.Grown.{HasGrown};
ghost use Rattle.tbr_tagged.specs.View.{chars_of};

use std::alloc::Global;
use std::marker::Model;
use tbr_model::CharWidth;
use tbr_tagged::{OutOfMemory, TaggedLine, append_spaces, text_width};
use tbr_tags::Tag;

/// Bytes that were taken stay in memory as long as they are fewer than this.
const FEW: usize = 1024;

/// A text that is taken from its front. What is taken is forgotten. A contract sees the characters that are left.
#[derive(Drop)]
pub struct TextQueue {
    text: String,
    /// The byte at which the remaining characters begin.
    start: usize,
    /// How many they are.
    len: usize,
}

impl Model for TextQueue {
    ghost use Rattle.std.specs.Prelude.{ℕ, List, drop, chars, string_bytes};
    ghost use Rattle.tbr_flat.specs.Flat.{IsLeft};

    ghost Value = { List ℕ };

    ghost view = { λ a. chars (drop a.start (string_bytes a.text)) };

    ghost invariant = { λ a. IsLeft (string_bytes a.text) a.start a.len };
}

impl TextQueue {
    /// A text without characters. It takes no memory.
    pub fn new(alloc: Global) -> TextQueue
        ensures { result ≡ [] }
    {
        TextQueue {
            text: String::new(alloc),
            start: 0,
            len: 0,
        }
    }

    /// How many characters are left.
    pub fn len(&self) -> usize
        ensures len { result ≡ length self.now }
        ensures small { result < 2 ^ 63 }
    {
        self.len
    }

    /// Whether none is left.
    pub fn is_empty(&self) -> bool
        ensures { IsTrue result ↔ (self.now ≡ []) }
    {
        self.len() == 0
    }

    /// The text that is left.
    pub fn as_str(&self) -> &str
        ensures { chars result.now ≡ self.now }
    {
        &self.text.as_str()[self.start..]
    }

    /// The first character.
    pub fn first(&self) -> Option<char>
        ensures { MatchOption result (self.now ≡ []) (λ c. (rest : List ℕ) × (self.now ≡ c ∷ rest)) }
    {
        self.as_str().chars().next()
    }

    /// The columns of the text. It refuses where they pass `usize`.
    pub fn width<W: CharWidth>(&self) -> Result<usize, OutOfMemory>
        ensures { IfOk result (λ n. n ≡ width_of_text W.columns self.now) }
    {
        text_width::<W>(self.as_str())
    }

    /// Makes room ahead of time for this many more bytes, if there is enough memory.
    pub fn make_room(&mut self, bytes: usize)
        ensures { self.new ≡ self.old }
    {
        let _ = self.text.reserve(bytes);
    }

    /// Adds a character. If memory is refused, the text stays as it was.
    pub fn push(&mut self, c: char) -> Result<(), OutOfMemory>
        ensures ok { OnOk result (self.new ≡ self.old ++ c ∷ []) }
        ensures err { OnErr result (self.new ≡ self.old) }
    {
        self.text.push(c)?;
        self.len += 1;
        Ok(())
    }

    /// Adds a text of `count` characters. If memory is refused, the text stays as it was.
    pub fn push_str(&mut self, text: &str, count: usize) -> Result<(), OutOfMemory>
        requires { count ≡ length (chars text.now) }
        ensures ok { OnOk result (self.new ≡ self.old ++ chars text.now) }
        ensures err { OnErr result (self.new ≡ self.old) }
    {
        self.text.push_str(text)?;
        self.len += count;
        Ok(())
    }

    /// Adds `count` spaces. If memory is refused, the text stays as it was.
    pub fn push_spaces(&mut self, count: usize) -> Result<(), OutOfMemory>
        ensures ok { OnOk result (self.new ≡ self.old ++ replicate count 32) }
        ensures err { OnErr result (self.new ≡ self.old) }
    {
        // One space, as between two words, is pushed as any character is.
        if count == 1 {
            return self.push(' ');
        }
        append_spaces(&mut self.text, count)?;
        self.len += count;
        Ok(())
    }

    /// Adds all characters of another text, which then has none. If memory is refused, both stay as they were.
    pub fn append(&mut self, other: &mut TextQueue) -> Result<(), OutOfMemory>
        ensures ok { OnOk result ((self.new ≡ self.old ++ other.old) × (other.new ≡ [])) }
        ensures err { OnErr result ((self.new ≡ self.old) × (other.new ≡ other.old)) }
    {
        self.push_str(other.as_str(), other.len())?;
        other.clear();
        Ok(())
    }

    /// Removes the spaces at the end, at most `most`, and answers how many they were.
    pub fn pop_spaces(&mut self, most: usize) -> usize
        ensures most { result ≤ most }
        ensures small { result < 2 ^ 63 }
        ensures spaces { self.old ≡ self.new ++ replicate result 32 }
        ensures all { result < most → (front : List ℕ) → self.old ≡ front ++ replicate (suc result) 32 → ⊥ }
    {
        let count = spaces_at_end(self.as_str(), most);
        self.text.truncate(self.text.len() - count);
        self.len -= count;
        count
    }

    /// Removes the white space at the beginning, at most `most` characters, and answers how many characters it was.
    pub fn pop_blanks(&mut self, most: usize) -> usize
        ensures most { result ≤ most }
        ensures within { result ≤ length self.old }
        ensures blank { Each (λ c. is_whitespace c ≡ true) (take result self.old) }
        ensures all { result < most → (c : ℕ) → (rest : List ℕ) → self.new ≡ c ∷ rest → is_whitespace c ≡ false }
        ensures rest { self.new ≡ drop result self.old }
    {
        let text = self.as_str();
        let count = blanks_in_front(text, most);
        let bytes = self.front_bytes(count);
        self.forget(count, bytes);
        count
    }

    /// How many bytes the first `count` characters take.
    fn front_bytes(&self, count: usize) -> usize
        requires { count ≤ length self.now }
        ensures { result ≡ length (encodes (take count self.now)) }
    {
        let left = self.as_str();
        // Where there are as many bytes as characters, each takes one.
        if left.len() == self.len {
            return count;
        }
        bytes_of(left, count)
    }

    /// Moves the first `count` characters to the end of a line, under a tag. Its time is in proportion to their number.
    ///
    /// If memory is refused, both stay as they were.
    pub fn move_under<T: Tag>(
        &mut self,
        count: usize,
        tag: T,
        line: &mut TaggedLine<T>,
    ) -> Result<(), OutOfMemory>
        requires { count ≤ length self.old }
        ensures items { OnOk result
            (SameItems T.eq (items_of line.new) (items_of line.old ++ text_items (take count self.old) tag)) }
        ensures merged { IsMerged T.eq line.old → OnOk result (IsMerged T.eq line.new) }
        ensures rest { OnOk result (self.new ≡ drop count self.old) }
        ensures err { OnErr result ((self.new ≡ self.old) × (line.new ≡ line.old)) }
        ensures grown { HasGrown line.old line.new }
    {
        let left = self.as_str();
        let bytes = self.front_bytes(count);
        line.push_text(front(left, count, bytes), tag)?;
        self.forget(count, bytes);
        Ok(())
    }

    /// Moves the first `count` characters to the end of another text. Its time is in proportion to their number.
    ///
    /// If memory is refused, both stay as they were.
    pub fn move_to(&mut self, count: usize, text: &mut String) -> Result<(), OutOfMemory>
        requires { count ≤ length self.old }
        ensures text { OnOk result (chars_of text.new ≡ chars_of text.old ++ take count self.old) }
        ensures rest { OnOk result (self.new ≡ drop count self.old) }
        ensures err { OnErr result (self.new ≡ self.old) }
    {
        let left = self.as_str();
        let bytes = self.front_bytes(count);
        text.push_str(front(left, count, bytes))?;
        self.forget(count, bytes);
        Ok(())
    }

    /// Moves the first characters to the end of another text, at most `most`, as long as they fit into `room` columns.
    /// It answers how many they are, and their columns.
    ///
    /// If memory is refused, both stay as they were.
    pub fn move_fitting<W: CharWidth>(
        &mut self,
        most: usize,
        room: usize,
        text: &mut TextQueue,
    ) -> Result<(usize, usize), OutOfMemory>
        ensures some { 0 < most → 0 < length self.old → width_of_text W.columns (take 1 self.old) ≤ room →
            IfOk result (λ r. 0 < r.0) }
        ensures most { IfOk result (λ r. r.0 ≤ most) }
        ensures within { IfOk result (λ r. r.0 ≤ length self.old) }
        ensures room { IfOk result (λ r. r.1 ≤ room) }
        ensures columns { IfOk result (λ r. r.1 ≡ width_of_text W.columns (take r.0 self.old)) }
        ensures text { IfOk result (λ r. text.new ≡ text.old ++ take r.0 self.old) }
        ensures rest { IfOk result (λ r. self.new ≡ drop r.0 self.old) }
        ensures err { OnErr result ((self.new ≡ self.old) × (text.new ≡ text.old)) }
    {
        let left = self.as_str();
        let fitting = fitting::<W>(left, most, room);
        text.push_str(front(left, fitting.count, fitting.bytes), fitting.count)?;
        self.forget(fitting.count, fitting.bytes);
        Ok((fitting.count, fitting.columns))
    }

    /// Forgets the first `count` characters, which are `bytes` bytes.
    #[inline]
    fn forget(&mut self, count: usize, bytes: usize)
        requires count { count ≤ length self.old }
        requires bytes { bytes ≡ length (encodes (take count self.old)) }
        ensures { self.new ≡ drop count self.old }
    {
        self.start += bytes;
        self.len -= count;
        self.give_back();
    }

    /// Frees the memory of what was taken, if that is at least `FEW` bytes, and as many as are left.
    #[inline]
    fn give_back(&mut self)
        ensures { self.new ≡ self.old }
    {
        let left = self.text.len() - self.start;
        if self.start >= FEW && self.start >= left {
            self.begin_anew();
        }
    }

    /// Moves what is left to the beginning, and frees the rest of the memory.
    #[inline(never)]
    fn begin_anew(&mut self)
        ensures { self.new ≡ self.old }
    {
        if self.text.replace_range(0..self.start, "").is_ok() {
            self.text.shrink_to_fit();
            self.start = 0;
        }
    }

    /// Forgets all characters.
    pub fn clear(&mut self)
        ensures { self.new ≡ [] }
    {
        self.text.clear();
        self.start = 0;
        self.len = 0;
    }
}

/// The first `count` characters of a text, which are `bytes` bytes.
#[inline]
fn front(text: &str, count: usize, bytes: usize) -> &str
    requires { bytes ≡ length (encodes (take count (chars text.now))) }
    ensures { chars result.now ≡ take count (chars text.now) }
{
    &text[..bytes]
}

/// How many bytes the first `count` characters take.
fn bytes_of(text: &str, count: usize) -> usize
    requires { count ≤ length (chars text.now) }
    ensures { result ≡ length (encodes (take count (chars text.now))) }
{
    // Where they are ASCII, they needn't be read one by one.
    if text.as_bytes()[..count].is_ascii() {
        return count;
    }
    let mut rest = text.chars();
    for _ in 0..count {
        let _ = rest.next();
    }
    text.len() - rest.as_str().len()
}

/// The first characters of a text: their bytes, their number and their columns.
#[derive(Clone, Copy)]
struct TextFront {
    bytes: usize,
    count: usize,
    columns: usize,
}

/// The first characters of a text, at most `most`, as long as they fit into `room` columns.
fn fitting<W: CharWidth>(text: &str, most: usize, room: usize) -> TextFront
    ensures bytes { result.bytes ≡ length (encodes (take result.count (chars text.now))) }
    ensures some { 0 < most → 0 < length (chars text.now) → width_of_text W.columns (take 1 (chars text.now)) ≤ room →
        0 < result.count }
    ensures most { result.count ≤ most }
    ensures within { result.count ≤ length (chars text.now) }
    ensures room { result.columns ≤ room }
    ensures columns { result.columns ≡ width_of_text W.columns (take result.count (chars text.now)) }
{
    let mut front = TextFront {
        bytes: 0,
        count: 0,
        columns: 0,
    };
    let mut rest = text.chars();
    while front.count < most {
        let Some(c) = rest.next() else {
            return front;
        };
        let width = W::width(c).unwrap_or(0);
        if width > room - front.columns {
            return front;
        }
        front.bytes = text.len() - rest.as_str().len();
        front.count += 1;
        front.columns += width;
    }
    front
}

/// How many spaces are at the end, among the last `most` characters. A space is one byte, and no other character has
/// that byte.
fn spaces_at_end(text: &str, most: usize) -> usize
    ensures most { result ≤ most }
    ensures spaces { (front : List ℕ) × (chars text.now ≡ front ++ replicate result 32) }
    ensures all { result < most → (front : List ℕ) → chars text.now ≡ front ++ replicate (suc result) 32 → ⊥ }
{
    let bytes = text.as_bytes();
    let longest = most.min(bytes.len());
    let mut count = 0;
    while count < longest {
        if bytes[bytes.len() - 1 - count] != b' ' {
            return count;
        }
        count += 1;
    }
    count
}

/// How many characters of white space are at the beginning, at most `most`.
fn blanks_in_front(text: &str, most: usize) -> usize
    ensures most { result ≤ most }
    ensures within { result ≤ length (chars text.now) }
    ensures blank { Each (λ c. is_whitespace c ≡ true) (take result (chars text.now)) }
    ensures all { result < most → (c : ℕ) → (rest : List ℕ) → drop result (chars text.now) ≡ c ∷ rest →
        is_whitespace c ≡ false }
{
    let mut count = 0;
    let mut rest = text.chars();
    while count < most {
        let Some(c) = rest.next() else {
            return count;
        };
        if !c.is_whitespace() {
            return count;
        }
        count += 1;
    }
    count
}
