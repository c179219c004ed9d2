//! A block's lines, filled up to a width.
ghost use Rattle.std.specs.Prelude.{◌≡◌, ◌-◌, ◌++◌, ◌∷◌, [], List, length, map, drop, IfOk, OnOk};
ghost use Rattle.tbr_model.specs.Run.{Item, items_width};
ghost use Rattle.tbr_tagged.specs.Elements.{items_of, SameItems, IsMerged};
ghost use Rattle.tbr_tagged.specs.Padding.{aligned_items};

use std::alloc::Global;
use std::collections::VecDeque;
use std::fmt;
use std::marker::Model;
use tbr_model::CharWidth;
use tbr_tagged::{CellAlign, OutOfMemory, TaggedLine, columns_in_front};
use tbr_tags::Tag;
use tbr_wrap::EndedLines;

/// Lines that a block has ended, in its one text, each filled up to a width with spaces under a tag. For each line a
/// number is kept. Its spaces take no memory until it is moved. A contract sees the lines that are left, each as its
/// items.
#[derive(Drop)]
pub(crate) struct AlignedLines<T> {
    ended: EndedLines<T>,
    /// How many columns each line is narrower than the width.
    missing: VecDeque<usize>,
    align: CellAlign,
    tag: T,
}

impl<T> Model for AlignedLines<T> {
    ghost use Rattle.std.specs.Prelude.{◌≡◌, ◌≤◌, List, length};
    ghost use Rattle.std.specs.VecDeque.{deque_len};
    ghost use Rattle.tbr_model.specs.Run.{Item};

    ghost Value = { List (List (Item T)) };

    ghost use Rattle.tbr_rows.specs.AlignedLines.{each_aligned};

    ghost view = { λ l. each_aligned l.align l.tag l.ended l.missing.items };

    ghost invariant = { λ l.
        (deque_len l.missing ≡ length l.missing.items) × (length l.missing.items ≤ length l.ended) };
}

impl<T> AlignedLines<T> {
    /// How many lines are left.
    pub(crate) fn len(&self) -> usize
        ensures { result ≡ length self.now }
    {
        self.missing.len()
    }
}

impl<T: Drop> AlignedLines<T> {
    /// These lines, each filled up to `width` columns as the alignment says, under the tag. It refuses only where
    /// memory is refused.
    pub(crate) fn new<W: CharWidth>(
        alloc: Global,
        ended: EndedLines<T>,
        width: usize,
        align: CellAlign,
        tag: T,
    ) -> Result<AlignedLines<T>, OutOfMemory>
        ensures { IfOk result (λ lines.
            lines ≡ map (λ is. aligned_items align is (width - items_width W.columns is) tag) ended) }
    {
        let missing = ended.missing::<W>(alloc, width)?;
        Ok(AlignedLines {
            ended,
            missing,
            align,
            tag,
        })
    }
}

impl<T: Tag> AlignedLines<T> {
    /// Moves the first line, if one is left, to the end of another. If memory is refused, lines may be lost.
    pub(crate) fn move_line(&mut self, line: &mut TaggedLine<T>) -> Result<(), OutOfMemory>
        ensures items { (is : List (Item T)) (rest : List (List (Item T))) → self.old ≡ is ∷ rest →
            OnOk result (SameItems T.eq (items_of line.new) (items_of line.old ++ is)) }
        ensures merged { IsMerged T.eq line.old → OnOk result (IsMerged T.eq line.new) }
        ensures rest { OnOk result (self.new ≡ drop 1 self.old) }
        ensures none { self.old ≡ [] → OnOk result (line.new ≡ line.old) }
    {
        let Some(missing) = self.missing.pop_front() else {
            return Ok(());
        };
        let front = columns_in_front(self.align, missing);
        line.push_spaces(front, &self.tag)?;
        if let Err(e) = self.ended.move_line(line) {
            self.missing.clear();
            return Err(e);
        }
        line.push_spaces(missing - front, &self.tag)
    }
}

/// Shows each line between `<` and `>`, after a space, without the spaces that fill it.
impl<T> fmt::Display for AlignedLines<T> {
    fn fmt<W: fmt::Write>(&self, f: &mut fmt::Formatter<W>) -> fmt::Result {
        self.ended.fmt_between(f, " <", ">")
    }
}
