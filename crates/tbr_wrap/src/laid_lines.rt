//! Lines that are laid. Calls answer `OutOfMemory` where memory is refused or a size passes `usize`; items may then be
//! lost.
ghost use Rattle.std.specs.Prelude.{◌≡◌, ◌≤◌, ◌<◌, ◌+◌, ◌++◌, ◌∷◌, [], ℕ, List, Option, None, Some, true, false, OnOk, IfOk, IfSome, MatchOption, Ok, Err, length, take, drop, chars, Bool};
ghost use Rattle.std.specs.VecDeque.{deque_len};
ghost use Rattle.tbr_model.specs.Run.{Item};
ghost use Rattle.tbr_tagged.specs.Elements.{SameItems, text_items};

use std::alloc::Global;
use std::collections::VecDeque;
use tbr_flat::FlatText;
use tbr_model::CharWidth;
use tbr_tagged::{Error, OutOfMemory, TaggedLine};
use tbr_tags::Tag;

/// The columns from one tab stop to the next.
const TAB_STOP: usize = 8;

/// The items of a block that aren't handed out: those of its ended lines, of the open line, and of the word after it.
#[derive(Drop)]
pub struct LaidLines<T> {
    /// The columns of a line.
    pub width: usize,
    /// Whether a character that is wider than a line goes on a line of its own.
    pub may_overflow: bool,
    pub flat: FlatText<T>,
    /// The ended lines, each by its number of items.
    pub ended: VecDeque<usize>,
    /// The items of the open line.
    pub line_len: usize,
    /// The markers of the open line.
    pub line_markers: usize,
    /// The columns of the open line.
    pub line_width: usize,
    ghost marked: { line_markers ≤ line_len },
    ghost fits: { line_width ≤ width },
    ghost positive: { 0 < width },
    ghost counted: { deque_len ended ≡ length ended.items },
}

impl<T> LaidLines<T> {
    ghost use Rattle.tbr_model.specs.Laid.{nothing_laid};
    ghost use Rattle.tbr_wrap.specs.LaidLines.{HoldsRule};

    /// No lines, and no word. It takes no memory.
    pub fn new(alloc: Global, width: usize, may_overflow: bool) -> LaidLines<T>
        requires { 0 < width }
        ensures holds { (columns : ℕ → Option ℕ) (eq : T → T → Bool) → HoldsRule columns eq result [] [] nothing_laid }
        ensures word { result.flat.word ≡ [] }
        ensures width { result.width ≡ width }
        ensures may_overflow { result.may_overflow ≡ may_overflow }
    {
        LaidLines {
            width,
            may_overflow,
            flat: FlatText::new(alloc),
            ended: VecDeque::new(alloc),
            line_len: 0,
            line_markers: 0,
            line_width: 0,
        }
    }
}

impl<T: Tag> LaidLines<T> {
    ghost use Rattle.tbr_model.specs.Run.{item_width, items_width, has_character};
    ghost use Rattle.tbr_model.specs.Laid.{Laid, extended, end_line, end_if_character, end_if_columns, put_items};
    ghost use Rattle.tbr_model.specs.Rule.{spaces, trimmed, without_leading, put_spaces, put_tab};
    ghost use Rattle.tbr_model.specs.Greedy.{IsNarrow};
    ghost use Rattle.tbr_wrap.specs.LaidLines.{HoldsLaid, HoldsRule, HoldsRuleBefore, LinesFollow, PutsFront, KeepsLimits, LeavesAfterLine};
    ghost use Rattle.tbr_tagged.specs.Elements.{items_of, IsMerged};
    ghost use Rattle.tbr_tagged.specs.declared.error.Error.TheVariants as E;

    /// Ends the open line.
    pub fn end_line(&mut self) -> Result<(), OutOfMemory>
        ensures held { (before : List (List (Item T))) (l : Laid T) → HoldsLaid self.old before l →
            OnOk result (HoldsLaid self.new before (end_line l)) }
        ensures ended { (columns : ℕ → Option ℕ) → LinesFollow columns T.eq self.old self.new result end_line }
        ensures flat { self.new.flat ≡ self.old.flat }
        ensures limits { KeepsLimits self.old self.new }
        ensures line_width { OnOk result (self.new.line_width ≡ 0) }
    {
        self.ended.push_back(self.line_len)?;
        self.line_len = 0;
        self.line_markers = 0;
        self.line_width = 0;
        Ok(())
    }

    /// Whether the open line has a character.
    pub fn has_line(&self) -> bool
        ensures { (before : List (List (Item T))) (l : Laid T) → HoldsLaid self.now before l →
            result ≡ has_character l.line }
    {
        self.line_markers < self.line_len
    }

    /// Ends the open line, if it has a character.
    pub fn end_if_character(&mut self) -> Result<(), OutOfMemory>
        ensures ended { (columns : ℕ → Option ℕ) (before given : List (List (Item T))) (r : Laid T) →
            HoldsRule columns T.eq self.old before given r →
            OnOk result (HoldsRule columns T.eq self.new before given (end_if_character r)
            × (self.new.line_width ≡ 0)) }
        ensures flat { self.new.flat ≡ self.old.flat }
        ensures limits { KeepsLimits self.old self.new }
    {
        if !self.has_line() {
            return Ok(());
        }
        self.end_line()?;
        Ok(())
    }

    /// Ends the open line, if it has columns.
    fn end_if_columns(&mut self) -> Result<(), OutOfMemory>
        ensures ended { (columns : ℕ → Option ℕ) → LinesFollow columns T.eq self.old self.new result end_if_columns }
        ensures flat { self.new.flat ≡ self.old.flat }
        ensures limits { KeepsLimits self.old self.new }
        ensures line_width { OnOk result (self.new.line_width ≡ 0) }
    {
        if self.line_width == 0 {
            return Ok(());
        }
        self.end_line()
    }

    /// Puts the word's first item, of `width` columns, on the open line after items of no width, and ends the line.
    fn place_wide<W: CharWidth>(&mut self, width: usize) -> Result<(), OutOfMemory>
        requires some { 0 < length self.old.flat.word }
        requires width { width ≡ items_width W.columns (take 1 self.old.flat.word) }
        requires blank { self.old.line_width ≡ 0 }
        requires may { self.old.may_overflow ≡ true }
        ensures word { OnOk result (self.new.flat.word ≡ drop 1 self.old.flat.word) }
        ensures placed { (j : Item T) (js : List (Item T)) → SameItems T.eq self.old.flat.word (j ∷ js) →
            self.old.width < item_width W.columns j → LinesFollow W.columns T.eq self.old self.new result (λ r.
            end_line (extended r (j ∷ []) (item_width W.columns j))) }
        ensures limits { KeepsLimits self.old self.new }
    {
        let Some(line_len) = self.line_len.checked_add(1) else {
            return Err(OutOfMemory);
        };
        self.flat.place_front::<W>(1, width)?;
        self.ended.push_back(line_len)?;
        self.line_len = 0;
        self.line_markers = 0;
        Ok(())
    }

    /// Puts the word's first item, of `width` columns, which is wider than a line, after items of no width on a line
    /// that is ended at once. Where no line may be wider, it always answers `TooNarrow`.
    fn put_wide<W: CharWidth>(&mut self, width: usize) -> Result<(), Error>
        requires some { 0 < length self.old.flat.word }
        requires width { width ≡ items_width W.columns (take 1 self.old.flat.word) }
        requires wide { self.old.width < width }
        ensures put { PutsFront W.columns T.eq self.old self.new result }
        ensures too_narrow { result ≡ Err E.TooNarrow → self.old.may_overflow ≡ false }
        ensures narrow { self.old.may_overflow ≡ false → result ≡ Err E.TooNarrow }
        ensures limits { KeepsLimits self.old self.new }
    {
        if !self.may_overflow {
            return Err(Error::TooNarrow);
        }
        self.end_if_columns()?;
        self.place_wide::<W>(width)?;
        Ok(())
    }

    /// Puts the word's first items on the open line, which has room for the first one. They are a marker, or the
    /// characters up to a marker, as many as fit.
    fn place_front<W: CharWidth>(&mut self) -> Result<(), OutOfMemory>
        requires some { 0 < length self.old.flat.word }
        requires room { self.old.line_width + items_width W.columns (take 1 self.old.flat.word) ≤ self.old.width }
        ensures put { PutsFront W.columns T.eq self.old self.new result }
        ensures limits { KeepsLimits self.old self.new }
    {
        let room = self.width - self.line_width;
        let front = self.flat.place_front::<W>(usize::MAX, room)?;
        let Some(line_len) = self.line_len.checked_add(front.count) else {
            return Err(OutOfMemory);
        };
        self.line_len = line_len;
        self.line_markers += front.markers;
        self.line_width += front.columns;
        Ok(())
    }

    /// Puts the word's first items on the open line, or on a new one if the first, of `width` columns, doesn't fit.
    /// Where no line may be wider, and the first item is, it always answers `TooNarrow`.
    fn put_front<W: CharWidth>(&mut self, width: usize) -> Result<(), Error>
        requires some { 0 < length self.old.flat.word }
        requires width { width ≡ items_width W.columns (take 1 self.old.flat.word) }
        ensures put { PutsFront W.columns T.eq self.old self.new result }
        ensures too_narrow { result ≡ Err E.TooNarrow → (self.old.may_overflow ≡ false) × (self.old.width < width) }
        ensures narrow { self.old.may_overflow ≡ false → self.old.width < width → result ≡ Err E.TooNarrow }
        ensures limits { KeepsLimits self.old self.new }
    {
        if width > self.width {
            return self.put_wide::<W>(width);
        }
        if width > self.width - self.line_width {
            self.end_line()?;
        }
        self.place_front::<W>()?;
        Ok(())
    }

    /// Puts the items of a word, line by line. Where no line may be wider, and the word's first item is, it always
    /// answers `TooNarrow`, since it takes no memory before that.
    pub fn put_word<W: CharWidth>(&mut self) -> Result<(), Error>
        ensures put { (js : List (Item T)) → SameItems T.eq self.old.flat.word js →
            LinesFollow W.columns T.eq self.old self.new result (λ r. put_items W.columns self.old.width r js) }
        ensures word { OnOk result (self.new.flat.word ≡ []) }
        ensures too_narrow { result ≡ Err E.TooNarrow →
            (self.old.may_overflow ≡ false) × ¬ (IsNarrow W.columns self.old.width self.old.flat.word) }
        ensures narrow { self.old.may_overflow ≡ false →
            self.old.width < items_width W.columns (take 1 self.old.flat.word) → result ≡ Err E.TooNarrow }
        ensures limits { KeepsLimits self.old self.new }
    {
        while let Some(width) = self.flat.first_width::<W>() {
            self.put_front::<W>(width)?;
        }
        Ok(())
    }

    /// Puts the word, of `width` columns, on the open line.
    pub fn place_word(&mut self, width: usize) -> Result<(), OutOfMemory>
        requires room { self.old.line_width + width ≤ self.old.width }
        ensures placed { (columns : ℕ → Option ℕ) (js : List (Item T)) →
            SameItems T.eq self.old.flat.word js → items_width columns js ≡ width →
            LinesFollow columns T.eq self.old self.new result (λ r. extended r js (items_width columns js)) }
        ensures word { OnOk result (self.new.flat.word ≡ []) }
        ensures limits { KeepsLimits self.old self.new }
    {
        let items = self.flat.word_len()?;
        let Some(line_len) = self.line_len.checked_add(items) else {
            return Err(OutOfMemory);
        };
        let markers = self.flat.place_word()?;
        self.line_len = line_len;
        self.line_markers += markers;
        self.line_width += width;
        Ok(())
    }

    /// Puts the word, and a text of `count` characters after it, on the open line. Together they take `width` columns.
    pub fn place_with(
        &mut self,
        text: &str,
        count: usize,
        width: usize,
        tag: &T,
    ) -> Result<(), OutOfMemory>
        requires some { 0 < count }
        requires count { count ≡ length (chars text.now) }
        requires room { self.old.line_width + width ≤ self.old.width }
        ensures placed { (columns : ℕ → Option ℕ) (a : T) (js : List (Item T)) → T.eq tag.now a ≡ true →
            SameItems T.eq self.old.flat.word js → let is = js ++ text_items (chars text.now) a in
            items_width columns is ≡ width →
            LinesFollow columns T.eq self.old self.new result (λ r. extended r is (items_width columns is)) }
        ensures word { OnOk result (self.new.flat.word ≡ []) }
        ensures limits { KeepsLimits self.old self.new }
    {
        let items = self.flat.word_len()?;
        let Some(with_word) = self.line_len.checked_add(items) else {
            return Err(OutOfMemory);
        };
        let Some(line_len) = with_word.checked_add(count) else {
            return Err(OutOfMemory);
        };
        let markers = self.flat.place_with(text, count, tag)?;
        self.line_len = line_len;
        self.line_markers += markers;
        self.line_width += width;
        Ok(())
    }

    /// Puts `count` spaces on the open line.
    pub fn place_spaces(&mut self, count: usize, tag: T) -> Result<(), OutOfMemory>
        requires some { 0 < count }
        requires room { self.old.line_width + count ≤ self.old.width }
        ensures placed { (columns : ℕ → Option ℕ) (a : T) → columns 32 ≡ Some 1 → T.eq tag a ≡ true →
            LinesFollow columns T.eq self.old self.new result (λ r. extended r (spaces count a) count) }
        ensures word { OnOk result (SameItems T.eq self.new.flat.word self.old.flat.word) }
        ensures line_width { OnOk result (self.new.line_width ≡ self.old.line_width + count) }
        ensures limits { KeepsLimits self.old self.new }
    {
        let Some(line_len) = self.line_len.checked_add(count) else {
            return Err(OutOfMemory);
        };
        self.flat.push_spaces(count, tag)?;
        self.line_len = line_len;
        self.line_width += count;
        Ok(())
    }

    /// Adds `count` spaces, which are placed after the open line, to that line, and ends it if they fill it.
    fn take_spaces(&mut self, count: usize) -> Result<(), OutOfMemory>
        requires some { 0 < count }
        requires room { self.old.line_width + count ≤ self.old.width }
        ensures taken { (columns : ℕ → Option ℕ) (a b : T) → columns 32 ≡ Some 1 → T.eq b a ≡ true →
            (before given : List (List (Item T))) (r : Laid T) (after : List (Item T)) →
            HoldsRuleBefore columns T.eq self.old before given r (spaces count b ++ after) →
            OnOk result (HoldsRuleBefore columns T.eq self.new before given
            (put_spaces self.old.width a count r) after) }
        ensures flat { self.new.flat ≡ self.old.flat }
        ensures room { OnOk result (self.new.line_width < self.new.width) }
        ensures limits { KeepsLimits self.old self.new }
    {
        let Some(line_len) = self.line_len.checked_add(count) else {
            return Err(OutOfMemory);
        };
        self.line_len = line_len;
        self.line_width += count;
        if self.line_width < self.width {
            return Ok(());
        }
        self.ended.push_back(self.line_len)?;
        self.line_len = 0;
        self.line_markers = 0;
        self.line_width = 0;
        Ok(())
    }

    /// Puts `count` spaces on the open line, which has room, and on the next ones. A line that they fill is ended.
    pub fn put_spaces(&mut self, count: usize, tag: T) -> Result<(), OutOfMemory>
        requires some { 0 < count }
        requires room { self.old.line_width < self.old.width }
        ensures put { (columns : ℕ → Option ℕ) (a : T) → columns 32 ≡ Some 1 → T.eq tag a ≡ true →
            LinesFollow columns T.eq self.old self.new result (put_spaces self.old.width a count) }
        ensures word { OnOk result (SameItems T.eq self.new.flat.word self.old.flat.word) }
        ensures limits { KeepsLimits self.old self.new }
    {
        self.flat.push_spaces(count, tag)?;
        let mut left = count;
        while left > 0 {
            let taken = left.min(self.width - self.line_width);
            self.take_spaces(taken)?;
            left -= taken;
        }
        Ok(())
    }

    /// Puts spaces from `column` up to the next tab stop, or up to the end of the line, which is then ended.
    pub fn put_tab(&mut self, column: usize, tag: &T) -> Result<(), OutOfMemory>
        requires within { column < self.old.width }
        requires after { self.old.line_width ≤ column }
        ensures put { (columns : ℕ → Option ℕ) (a : T) → columns 32 ≡ Some 1 → T.eq tag.now a ≡ true →
            LinesFollow columns T.eq self.old self.new result (put_tab self.old.width column a) }
        ensures word { OnOk result (SameItems T.eq self.new.flat.word self.old.flat.word) }
        ensures limits { KeepsLimits self.old self.new }
    {
        let stop = TAB_STOP - column % TAB_STOP;
        let room = self.width - column;
        let tag = tag.clone()?;
        if stop <= room {
            return self.place_spaces(stop, tag);
        }
        self.place_spaces(room, tag)?;
        self.end_line()
    }

    /// Removes the spaces at the open line's end, and the white space at the word's beginning.
    pub fn trim(&mut self)
        requires lays { (columns : ℕ → Option ℕ) × (before : List (List (Item T))) × (given : List (List (Item T)))
            × (r : Laid T) × (columns 32 ≡ Some 1) × HoldsRule columns T.eq self.old before given r }
        ensures trimmed { (columns : ℕ → Option ℕ) (before given : List (List (Item T))) (r : Laid T) →
            columns 32 ≡ Some 1 → HoldsRule columns T.eq self.old before given r →
            HoldsRule columns T.eq self.new before given (trimmed columns r) }
        ensures word { (js : List (Item T)) → SameItems T.eq self.old.flat.word js →
            SameItems T.eq self.new.flat.word (without_leading js) }
        ensures limits { KeepsLimits self.old self.new }
    {
        let removed = self.flat.trim(self.line_len);
        self.line_len -= removed;
        self.line_width -= removed;
    }

    /// Hands out the first ended line, if there is one.
    pub fn take_line(&mut self) -> Result<Option<TaggedLine<T>>, OutOfMemory>
        requires holds { (before : List (List (Item T))) × (l : Laid T) × HoldsLaid self.old before l }
        ensures none { self.old.ended.items ≡ [] → (result ≡ Ok None) × (self.new ≡ self.old) }
        ensures some { IfOk result (λ o. IfSome o (λ _. 0 < length self.old.ended.items)) }
        ensures taken { (before : List (List (Item T))) (l : Laid T) (is : List (Item T))
            (rest : List (List (Item T))) → HoldsLaid self.old before l → before ++ l.done ≡ is ∷ rest →
            IfOk result (λ o. MatchOption o ⊥ (λ line.
            SameItems T.eq (items_of line) is × IsMerged T.eq line × LeavesAfterLine self.old self.new rest l)) }
        ensures limits { KeepsLimits self.old self.new }
    {
        let Some(len) = self.ended.front().copied() else {
            return Ok(None);
        };
        let line = self.flat.take_line(len)?;
        let _ = self.ended.pop_front();
        Ok(Some(line))
    }
}
