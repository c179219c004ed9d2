//! Spaces in front of a line and after it.
ghost use Rattle.std.specs.Prelude.{◌≡◌, ◌+◌, ◌<◌, ◌≤◌, true, IfOk, OnOk, OnErr};
ghost use Rattle.tbr_tagged.specs.Elements.{push_text, SameElements};
ghost use Rattle.tbr_tagged.specs.declared.padding.CellAlign.TheVariants as A;
ghost use Rattle.tbr_tagged.specs.Padding as model;
ghost use Rattle.tbr_tagged.specs.Stored.{stored};
ghost use Rattle.tbr_tagged.specs.View.{chars_of, elements_of};

use crate::edits::{put_in_front, take_from_front};
use crate::element::{TaggedLineElement, TaggedString};
use crate::element_list::ElementList;
use crate::error::OutOfMemory;
use crate::space::spaces;
use std::alloc::Global;
use tbr_tags::Tag;

/// Where a line is placed in more columns than it takes. In the middle, the odd column is on the right.
#[derive(Clone, Copy, PartialEq, Eq, Debug)]
pub enum CellAlign {
    /// At the left, with the spaces after it.
    Left,
    /// At the right, with the spaces in front of it.
    Right,
    /// In the middle, with half of the spaces in front of it, rounded down.
    Centre,
}

/// At the left.
impl Default for CellAlign {
    ghost is_default = { λ align. align ≡ A.Left };

    fn default() -> CellAlign {
        CellAlign::Left
    }
}

/// How many of the `missing` columns of a line are put in front of it.
pub fn columns_in_front(align: CellAlign, missing: usize) -> usize
    ensures value { result ≡ model.columns_in_front align missing }
    ensures bound { result ≤ missing }
{
    match align {
        CellAlign::Left => 0,
        CellAlign::Right => missing,
        CellAlign::Centre => missing / 2,
    }
}

/// Puts `front` spaces in front of the elements and `after` spaces after them, under copies of the tag. Where memory is
/// refused, nothing changes.
pub fn pad<T: Tag>(
    elements: &mut ElementList<T>,
    front: usize,
    after: usize,
    tag: &T,
) -> Result<(), OutOfMemory>
    ensures ok { OnOk result (SameElements T.eq (elements_of (stored elements.new))
        (model.padded T.eq (elements_of (stored elements.old)) front after tag.now)) }
    ensures unchanged_by_none { front + after ≡ 0 →
        elements_of (stored elements.new) ≡ elements_of (stored elements.old) }
    ensures err { OnErr result (elements_of (stored elements.new) ≡ elements_of (stored elements.old)) }
    ensures some { OnErr result (0 < front + after) }
{
    if front == 0 {
        return push_spaces(elements, after, tag);
    }
    let piece = spaces_under(elements.allocator(), front, tag)?;
    let had = put_in_front(elements, piece)?;
    if let Err(e) = push_spaces(elements, after, tag) {
        take_from_front(elements, had);
        return Err(e);
    }
    Ok(())
}

/// Appends `count` spaces under a copy of the tag. Where memory is refused, nothing changes.
pub fn push_spaces<T: Tag>(
    elements: &mut ElementList<T>,
    count: usize,
    tag: &T,
) -> Result<(), OutOfMemory>
    ensures ok { OnOk result (SameElements T.eq (elements_of (stored elements.new))
        (push_text T.eq (elements_of (stored elements.old)) (model.spaces count) tag.now)) }
    ensures unchanged_by_none { count ≡ 0 →
        elements_of (stored elements.new) ≡ elements_of (stored elements.old) }
    ensures err { OnErr result (elements_of (stored elements.new) ≡ elements_of (stored elements.old)) }
    ensures some { OnErr result (0 < count) }
{
    if count == 0 {
        return Ok(());
    }
    if elements.ends_under(tag) {
        return elements.extend_last_by_spaces(count);
    }
    let piece = spaces_under(elements.allocator(), count, tag)?;
    elements.push(TaggedLineElement::Str(piece))
}

/// A text of `count` spaces under a copy of the tag. It refuses only where memory is refused.
fn spaces_under<T: Tag>(
    alloc: Global,
    count: usize,
    tag: &T,
) -> Result<TaggedString<T>, OutOfMemory>
    ensures text { IfOk result (λ ts. chars_of ts.s ≡ model.spaces count) }
    ensures tag { IfOk result (λ ts. T.eq ts.tag tag.now ≡ true) }
{
    let s = spaces(alloc, count)?;
    let tag = tag.clone()?;
    Ok(TaggedString { s, tag })
}
