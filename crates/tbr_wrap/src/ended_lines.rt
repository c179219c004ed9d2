//! Lines that a block has ended, in one text.
ghost use Rattle.std.specs.Prelude.{◌≡◌, ◌==◌, ◌-◌, ◌++◌, ◌∷◌, [], chars, List, None, Ok, OnOk, OnErr, IfOk, IsSomeAnd, length, map, drop};
ghost use Rattle.std.specs.List.{list_any};
ghost use Rattle.std.specs.VecDeque.{deque_len};
ghost use Rattle.tbr_model.specs.Run.{Item, has_character, items_width};
ghost use Rattle.tbr_tagged.specs.Elements.{SameItems, IsMerged, items_of};
ghost use Rattle.tbr_tagged.specs.View.{chars_of};
ghost use Rattle.tbr_wrap.specs.EndedLines.{AreLines, line_characters, prefixed_characters};

use crate::laid_lines::LaidLines;
use crate::wrapper::Wrapper;
use std::alloc::Global;
use std::collections::VecDeque;
use std::fmt;
use std::marker::Model;
use tbr_flat::PlacedItems;
use tbr_model::CharWidth;
use tbr_tagged::{OutOfMemory, TaggedLine};
use tbr_tags::Tag;

/// Lines that a block has ended, kept in its one text. A line takes a number, and no allocation of its own. A contract
/// sees the lines that are left, each as its items.
#[derive(Drop)]
pub struct EndedLines<T> {
    laid: Box<Wrapper<T>>,
}

impl<T> Model for EndedLines<T> {
    ghost use Rattle.std.specs.Prelude.{◌≡◌, List, length};
    ghost use Rattle.std.specs.VecDeque.{deque_len};
    ghost use Rattle.tbr_model.specs.Run.{Item};
    ghost use Rattle.tbr_wrap.specs.EndedLines.{cut, AreLines};

    ghost Value = { List (List (Item T)) };

    ghost view = { λ a. let lines = a.laid.value.lines in cut lines.ended.items lines.flat.placed };

    ghost invariant = { λ a. let lines = a.laid.value.lines in (deque_len lines.ended ≡ length lines.ended.items)
        × AreLines lines.ended.items lines.flat.placed (cut lines.ended.items lines.flat.placed) };
}

/// Shows each line between `<` and `>` on a line of its own, without its markers.
impl<T> fmt::Display for EndedLines<T> {
    fn fmt<W: fmt::Write>(&self, f: &mut fmt::Formatter<W>) -> fmt::Result {
        self.fmt_between(f, "<", ">\n")
    }
}

/// Prints the characters of the next `count` items.
fn print_items<W: fmt::Write>(
    f: &mut fmt::Formatter<W>,
    items: &mut PlacedItems<'_>,
    count: usize,
) -> fmt::Result {
    for _ in 0..count {
        if let Some(c) = items.next_character() {
            f.write_char(c)?;
        }
    }
    Ok(())
}

impl<T> EndedLines<T> {
    /// Prints each line as `Display` does, the first after one prefix, and each other line after another.
    pub fn fmt_after<'a, W: fmt::Write>(
        &self,
        f: &mut fmt::Formatter<W>,
        first: &'a str,
        others: &'a str,
    ) -> fmt::Result {
        let mut items = self.laid.lines.flat.items();
        let mut prefix = first;
        for len in &self.laid.lines.ended {
            write!(f, "<{prefix}")?;
            print_items(f, &mut items, *len)?;
            f.write_str(">\n")?;
            prefix = others;
        }
        Ok(())
    }

    /// How many columns each line is narrower than a width: 0 if it isn't narrower. It refuses only where memory is
    /// refused.
    pub fn missing<W: CharWidth>(
        &self,
        alloc: Global,
        width: usize,
    ) -> Result<VecDeque<usize>, OutOfMemory>
        ensures missing { IfOk result (λ m. m.items ≡ map (λ is. width - items_width W.columns is) self.now) }
        ensures counted { IfOk result (λ m. deque_len m ≡ length self.now) }
    {
        let mut items = self.laid.lines.flat.items();
        let mut missing = VecDeque::with_capacity(alloc, self.laid.lines.ended.len())?;
        for len in &self.laid.lines.ended {
            missing.push_back(width.saturating_sub(items.next_width::<W>(*len)))?;
        }
        Ok(missing)
    }

    /// Lines of these lengths, made of the first placed items.
    pub(crate) fn new(laid: Box<Wrapper<T>>) -> EndedLines<T>
        requires counted { let ended = laid.value.lines.ended in deque_len ended ≡ length ended.items }
        requires held { let laid = laid.value.lines in
            (lines : List (List (Item T))) × AreLines laid.ended.items laid.flat.placed lines }
        ensures { let laid = laid.value.lines in
            (lines : List (List (Item T))) → AreLines laid.ended.items laid.flat.placed lines → result ≡ lines }
    {
        EndedLines { laid }
    }

    /// How many lines are left.
    pub fn len(&self) -> usize
        ensures { result ≡ length self.now }
    {
        self.laid.lines.ended.len()
    }

    /// Whether none is left.
    pub fn is_empty(&self) -> bool
        ensures { result ≡ (length self.now == 0) }
    {
        self.len() == 0
    }

    /// Prints the text of each line between two others.
    pub fn fmt_between<'a, W: fmt::Write>(
        &self,
        f: &mut fmt::Formatter<W>,
        before: &'a str,
        after: &'a str,
    ) -> fmt::Result {
        let mut items = self.laid.lines.flat.items();
        for len in &self.laid.lines.ended {
            f.write_str(before)?;
            print_items(f, &mut items, *len)?;
            f.write_str(after)?;
        }
        Ok(())
    }

    /// Whether a line has a character.
    pub fn has_character(&self) -> bool
        ensures { result ≡ list_any has_character self.now }
    {
        self.laid.lines.flat.has_placed()
    }
}

impl<T: Drop> EndedLines<T> {
    /// Appends the text of each line and a newline to `text`: the first line after one prefix, and each other line
    /// after another. Where memory is refused, part of them may have been appended.
    pub fn append_after<'a>(
        mut self,
        text: &mut String,
        first: &'a str,
        others: &'a str,
    ) -> Result<(), OutOfMemory>
        ensures { let prefixed = prefixed_characters (chars first.now) (chars others.now) self in
            OnOk result (chars_of text.new ≡ chars_of text.old ++ prefixed) }
    {
        self.append_lines(text, first, others)
    }

    /// Moves the text of each line after its prefix, and a newline, to the end of a text.
    fn append_lines<'a>(
        &mut self,
        text: &mut String,
        first: &'a str,
        others: &'a str,
    ) -> Result<(), OutOfMemory>
        ensures { let prefixed = prefixed_characters (chars first.now) (chars others.now) self.old in
            OnOk result (chars_of text.new ≡ chars_of text.old ++ prefixed) }
    {
        let mut prefix = first;
        while !self.is_empty() {
            append_prefix(text, prefix)?;
            self.append_line(text)?;
            prefix = others;
        }
        Ok(())
    }

    /// Moves the text of the first line, if one is left, and a newline, to the end of a text. Where memory is refused,
    /// lines may be lost.
    fn append_line(&mut self, text: &mut String) -> Result<(), OutOfMemory>
        ensures { (is : List (Item T)) (rest : List (List (Item T))) → self.old ≡ is ∷ rest →
            OnOk result ((chars_of text.new ≡ chars_of text.old ++ line_characters is) × (self.new ≡ rest)) }
    {
        let lines = &mut self.laid.lines;
        let Some(len) = lines.ended.pop_front() else {
            return Ok(());
        };
        if let Err(e) = lines.flat.move_text(len, text) {
            clear(lines);
            return Err(e);
        }
        text.push('\n')?;
        Ok(())
    }
}

impl<T: Tag> EndedLines<T> {
    /// Moves the first line, if one is left, to the end of another. Where memory is refused, that one stays as it was,
    /// and lines may be lost.
    pub fn move_line(&mut self, line: &mut TaggedLine<T>) -> Result<(), OutOfMemory>
        ensures items { (is : List (Item T)) (rest : List (List (Item T))) → self.old ≡ is ∷ rest →
            OnOk result (SameItems T.eq (items_of line.new) (items_of line.old ++ is)) }
        ensures merged { IsMerged T.eq line.old → OnOk result (IsMerged T.eq line.new) }
        ensures rest { OnOk result (self.new ≡ drop 1 self.old) }
        ensures none { self.old ≡ [] → OnOk result (line.new ≡ line.old) }
        ensures err { OnErr result (line.new ≡ line.old) }
    {
        let lines = &mut self.laid.lines;
        let Some(len) = lines.ended.pop_front() else {
            return Ok(());
        };
        let moved = lines.flat.move_line(len, line);
        if moved.is_err() {
            clear(lines);
        }
        moved
    }
}

/// Appends the prefix of a line. The empty text changes nothing.
fn append_prefix(text: &mut String, prefix: &str) -> Result<(), OutOfMemory>
    ensures { OnOk result (chars_of text.new ≡ chars_of text.old ++ chars prefix.now) }
{
    if prefix.is_empty() {
        return Ok(());
    }
    text.push_str(prefix)?;
    Ok(())
}

/// Forgets all lines.
fn clear<T: Drop>(lines: &mut LaidLines<T>)
    ensures flat { lines.new.flat ≡ record { placed = []; word = [] } }
    ensures ended { lines.new.ended.items ≡ [] }
    ensures counted { deque_len lines.new.ended ≡ 0 }
{
    lines.flat.clear();
    lines.ended.clear();
}
