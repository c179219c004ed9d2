//! Tags of characters, each stored once for neighbouring characters.
ghost use Rattle.std.specs.Prelude.{◌≡◌, ◌<◌, ◌≤◌, ◌+◌, ◌-◌, ◌++◌, [], true, ℕ, suc, List, length, take, drop, replicate, OnOk, OnErr, IfOk};
ghost use Rattle.std.specs.List.{AllZip};
ghost use Rattle.tbr_flat.specs.Tags.{tags_of, IsPlace};

use std::alloc::Global;
use std::collections::VecDeque;
use std::marker::Model;
use tbr_tagged::OutOfMemory;
use tbr_tags::Tag;

/// A tag of neighbouring characters.
#[derive(Drop)]
pub struct RepeatedTag<T> {
    /// How many more characters than the first have it.
    pub more: usize,
    pub tag: T,
}

/// The tags of characters in order, each stored once for neighbouring characters. A contract sees their list.
#[derive(Drop)]
pub struct Tags<T> {
    stored: VecDeque<RepeatedTag<T>>,
}

impl<T> Model for Tags<T> {
    ghost use Rattle.std.specs.Prelude.{List};

    ghost Value = { List T };

    ghost use Rattle.tbr_flat.specs.Tags.{tags_of};

    ghost view = { λ a. tags_of a.stored.items };
}

impl<T> Tags<T> {
    /// No tags. It takes no memory.
    pub fn new(alloc: Global) -> Tags<T>
        ensures { result ≡ [] }
    {
        Tags {
            stored: VecDeque::new(alloc),
        }
    }
}

impl<T: Drop> Tags<T> {
    /// Forgets all tags.
    pub fn clear(&mut self)
        ensures { self.new ≡ [] }
    {
        self.stored.clear();
    }

    /// Removes the first tags that are stored as one, at most `most`, and answers how many they are.
    pub fn remove_front(&mut self, most: usize) -> usize
        requires some { 0 < most }
        requires within { most ≤ length self.old }
        ensures count { (0 < result) × (result ≤ most) }
        ensures rest { self.new ≡ drop result self.old }
    {
        let more = self.stored[0].more;
        if most <= more {
            self.stored[0].more -= most;
            return most;
        }
        self.stored.pop_front();
        more + 1
    }

    /// Removes `count` tags in front of the last `last` ones. Its time is in proportion to the stored tags of all
    /// these.
    pub fn remove_before(&mut self, last: usize, count: usize)
        requires within { last + count ≤ length self.old }
        requires fits { last + count ≤ usize.MAX }
        ensures { self.new
            ≡ take (length self.old - (last + count)) self.old ++ drop (length self.old - last) self.old }
    {
        if count == 0 {
            return;
        }
        let from = place_before(&self.stored, last + count);
        let to = place_before(&self.stored, last);
        if from.nth == to.nth {
            self.stored[from.nth].more -= count;
            return;
        }
        let first = end_at(&mut self.stored, from);
        begin_at(&mut self.stored, to);
        self.stored.drain(first..to.nth);
    }
}

impl<T: Tag> Tags<T> {
    /// Adds a tag `count` times at the end. It is copied only if the tag before it isn't equal.
    ///
    /// If memory is refused, the tags stay as they were.
    pub fn push(&mut self, tag: &T, count: usize) -> Result<(), OutOfMemory>
        requires some { 0 < count }
        ensures ok { OnOk result ((a : T) × (T.eq a tag.now ≡ true) × (self.new ≡ self.old ++ replicate count a)) }
        ensures err { OnErr result (self.new ≡ self.old) }
    {
        let len = self.stored.len();
        if len > 0 && self.stored[len - 1].tag == *tag {
            return lengthen(&mut self.stored[len - 1], count);
        }
        let tag = tag.clone()?;
        let more = count - 1;
        self.stored.push_back(RepeatedTag { more, tag })?;
        Ok(())
    }

    /// Takes the first tags that are stored as one, at most `most`. It answers how many they are, and the tag, which is
    /// copied only if more of these are left.
    ///
    /// If memory is refused, the tags stay as they were.
    pub fn take(&mut self, most: usize) -> Result<(usize, T), OutOfMemory>
        requires some { 0 < most }
        requires within { most ≤ length self.old }
        ensures count { IfOk result (λ r. (0 < r.0) × (r.0 ≤ most)) }
        ensures tags { IfOk result (λ r. (a : T) × (T.eq r.1 a ≡ true) × (take r.0 self.old ≡ replicate r.0 a)) }
        ensures rest { IfOk result (λ r. self.new ≡ drop r.0 self.old) }
        ensures err { OnErr result (self.new ≡ self.old) }
    {
        if most <= self.stored[0].more {
            let first = &mut self.stored[0];
            let tag = first.tag.clone()?;
            first.more -= most;
            return Ok((most, tag));
        }
        let Some(first) = self.stored.pop_front() else {
            return Err(OutOfMemory);
        };
        Ok((first.more + 1, first.tag))
    }

    /// Adds `tag` `count` times before the last `last` tags. Its time is in proportion to the stored tags of these.
    ///
    /// Where it comes between characters under one stored tag, those after it are under a copy of that tag. If memory
    /// is refused, tags may be lost.
    pub fn insert_before(&mut self, last: usize, count: usize, tag: T) -> Result<(), OutOfMemory>
        requires within { last ≤ length self.old }
        requires some { 0 < count }
        ensures { OnOk result ((a : T) × (after : List T) × (T.eq a tag ≡ true)
            × (self.new ≡ take (length self.old - last) self.old ++ (replicate count a ++ after))
            × AllZip (λ x y. T.eq x y ≡ true) after (drop (length self.old - last) self.old)) }
    {
        let place = place_before(&self.stored, last);
        let index = place.nth;
        if index < self.stored.len() && self.stored[index].tag == tag {
            return lengthen(&mut self.stored[index], count);
        }
        let more = count - 1;
        if place.offset > 0 {
            let back = split_off(&mut self.stored[index], place.offset)?;
            self.stored.insert(index + 1, back)?;
            self.stored.insert(index + 1, RepeatedTag { more, tag })?;
            return Ok(());
        }
        if index > 0 && self.stored[index - 1].tag == tag {
            return lengthen(&mut self.stored[index - 1], count);
        }
        self.stored.insert(index, RepeatedTag { more, tag })?;
        Ok(())
    }
}

/// Repeats a tag `count` times more. If the number of its repetitions would pass `usize`, it refuses and changes
/// nothing.
fn lengthen<T>(repeated: &mut RepeatedTag<T>, count: usize) -> Result<(), OutOfMemory>
    ensures ok { OnOk result (repeated.new ≡ record repeated.old { more = repeated.old.more + count }) }
    ensures err { OnErr result (repeated.new ≡ repeated.old) }
{
    let Some(more) = repeated.more.checked_add(count) else {
        return Err(OutOfMemory);
    };
    repeated.more = more;
    Ok(())
}

/// A place among tags: after the first `offset` tags that a stored one stands for.
#[derive(Clone, Copy)]
struct Place {
    nth: usize,
    offset: usize,
}

/// Where the last `last` tags begin.
fn place_before<T>(stored: &VecDeque<RepeatedTag<T>>, last: usize) -> Place
    requires { last ≤ length (tags_of stored.now.items) }
    ensures { IsPlace stored.now.items result.nth result.offset last }
{
    let mut nth = stored.len();
    let mut left = last;
    while left > 0 {
        nth -= 1;
        let more = stored[nth].more;
        if left <= more {
            let offset = more - left + 1;
            return Place { nth, offset };
        }
        left -= more + 1;
    }
    Place { nth, offset: 0 }
}

/// Splits the stored tag at a place, drops what follows in it, and answers which one comes next.
fn end_at<T>(stored: &mut VecDeque<RepeatedTag<T>>, place: Place) -> usize
    requires { (last : ℕ) × IsPlace stored.old.items place.nth place.offset last }
    ensures next { (place.nth ≤ result) × (result ≤ suc place.nth) × (result ≤ length stored.new.items) }
    ensures len { length stored.new.items ≡ length stored.old.items }
    ensures front { tags_of (take result stored.new.items) ≡ tags_of (take place.nth stored.old.items)
        ++ take place.offset (tags_of (drop place.nth stored.old.items)) }
    ensures after { drop (suc place.nth) stored.new.items ≡ drop (suc place.nth) stored.old.items }
{
    if place.offset == 0 {
        return place.nth;
    }
    stored[place.nth].more = place.offset - 1;
    place.nth + 1
}

/// Splits the stored tag at a place, and drops what comes before in it.
fn begin_at<T>(stored: &mut VecDeque<RepeatedTag<T>>, place: Place)
    requires { (last : ℕ) × IsPlace stored.old.items place.nth place.offset last }
    ensures len { length stored.new.items ≡ length stored.old.items }
    ensures front { take place.nth stored.new.items ≡ take place.nth stored.old.items }
    ensures tags { tags_of (drop place.nth stored.new.items)
        ≡ drop place.offset (tags_of (drop place.nth stored.old.items)) }
{
    if place.offset > 0 {
        stored[place.nth].more -= place.offset;
    }
}

/// Ends a stored tag after its first `offset` tags, and answers what came after them, under a copy.
///
/// If memory is refused, it stays as it was.
fn split_off<T: Tag>(
    repeated: &mut RepeatedTag<T>,
    offset: usize,
) -> Result<RepeatedTag<T>, OutOfMemory>
    requires some { 0 < offset }
    requires within { offset ≤ repeated.old.more }
    ensures front { OnOk result (repeated.new ≡ record repeated.old { more = offset - 1 }) }
    ensures back { IfOk result (λ back. (back.more ≡ repeated.old.more - offset)
        × (T.eq back.tag repeated.old.tag ≡ true)) }
    ensures err { OnErr result (repeated.new ≡ repeated.old) }
{
    let tag = repeated.tag.clone()?;
    let more = repeated.more - offset;
    repeated.more = offset - 1;
    Ok(RepeatedTag { more, tag })
}
