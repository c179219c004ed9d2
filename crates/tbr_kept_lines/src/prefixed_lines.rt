//! Lines that a block has ended, after prefixes.
ghost use Rattle.std.specs.Prelude.{◌≡◌, ◌++◌, ◌&&◌, ◌||◌, [], map, length, nat_lt, chars, IfErr, IfOk, OnOk};
ghost use Rattle.std.specs.List.{AllZip, list_any};
ghost use Rattle.tbr_model.specs.Run.{has_character};
ghost use Rattle.tbr_tagged.specs.Elements.{SameItems, IsMerged, items_of, text_items, has_piece};
ghost use Rattle.tbr_tagged.specs.View.{chars_of};
ghost use Rattle.tbr_wrap.specs.EndedLines.{lines_characters};
ghost use Rattle.tbr_kept_lines.specs.Prefixed.{after_prefixes, Pushes};

use std::alloc::Global;
use std::fmt;
use std::marker::Model;
use tbr_border::RenderLine;
use tbr_tagged::{OutOfMemory, TaggedLine};
use tbr_tags::Tag;
use tbr_wrap::EndedLines;

/// Lines that a block has ended, in its one text. They may have prefixes: one for the first line, and another for each
/// other line. These take no memory per line. A contract sees the lines, each as its items.
#[derive(Drop)]
pub(crate) struct PrefixedLines<T: Eq> {
    ended: EndedLines<T>,
    prefixes: Option<Prefixes<T>>,
}

/// What is in front of the first line, and in front of each other line.
#[derive(Drop)]
pub(crate) struct Prefixes<T> {
    first: TaggedLine<T>,
    others: TaggedLine<T>,
}

impl<T: Eq> Model for PrefixedLines<T> {
    ghost use Rattle.std.specs.Prelude.{List};
    ghost use Rattle.tbr_model.specs.Run.{Item};
    ghost use Rattle.tbr_kept_lines.specs.Prefixed.{texts_after};
    ghost use Rattle.tbr_kept_lines.specs.Prefixed.{AreMerged};

    ghost Value = { List (List (Item T)) };

    ghost view = { λ l. texts_after l.prefixes l.ended };

    ghost invariant = { λ l. AreMerged T.eq l.prefixes };
}

impl<T: Tag> PrefixedLines<T> {
    /// These lines, without prefixes.
    pub(crate) fn of(ended: EndedLines<T>) -> PrefixedLines<T>
        ensures { result ≡ ended }
    {
        PrefixedLines {
            ended,
            prefixes: None,
        }
    }

    /// How many lines there are.
    pub(crate) fn len(&self) -> usize
        ensures { result ≡ length self.now }
    {
        self.ended.len()
    }

    /// Whether a line has a character.
    pub(crate) fn has_character(&self) -> bool
        ensures { result ≡ list_any has_character self.now }
    {
        match &self.prefixes {
            Some(prefixes) => prefixes.are_seen(self.ended.len()) || self.ended.has_character(),
            None => self.ended.has_character(),
        }
    }
}

impl<T: Tag> PrefixedLines<T> {
    /// The lines, if they have no prefix. Otherwise it gives them back as they are.
    pub(crate) fn into_ended(self) -> Result<EndedLines<T>, PrefixedLines<T>>
        ensures ended { IfOk result (λ ended. ended ≡ self) }
        ensures kept { IfErr result (λ lines. lines ≡ self) }
    {
        let PrefixedLines { ended, prefixes } = self;
        if prefixes.is_some() {
            return Err(PrefixedLines { ended, prefixes });
        }
        Ok(ended)
    }

    /// Appends the text of each line and a newline to `text`. Where memory is refused, part of them may have been
    /// appended.
    pub(crate) fn append_to(self, text: &mut String) -> Result<(), OutOfMemory>
        ensures { OnOk result (chars_of text.new ≡ chars_of text.old ++ lines_characters self) }
    {
        let PrefixedLines { ended, prefixes } = self;
        let prefixes = prefixes.unwrap_or(Prefixes::none(*text.allocator()));
        let (first, others) = (prefixes.first.to_text()?, prefixes.others.to_text()?);
        ended.append_after(text, first.as_str(), others.as_str())
    }
}

impl<T: Tag> PrefixedLines<T> {
    /// Adds each line to others, by itself. Where memory is refused, lines are lost.
    pub(crate) fn push_to(self, lines: &mut Vec<RenderLine<T>>) -> Result<(), OutOfMemory>
        ensures { OnOk result (Pushes T.eq lines.old.items self lines.new.items) }
    {
        let PrefixedLines { ended, prefixes } = self;
        let Prefixes { first, others } = prefixes.unwrap_or(Prefixes::none(*lines.allocator()));
        push_after(lines, ended, &first, &others)
    }

    /// Puts a text in front of the first line, and another one in front of each other line, under copies of the tag.
    /// Where memory is refused, lines are lost.
    pub(crate) fn put_in_front(
        self,
        alloc: Global,
        first: &str,
        others: &str,
        tag: &T,
    ) -> Result<PrefixedLines<T>, OutOfMemory>
        ensures { let in_front = after_prefixes (text_items (chars first.now) tag.now)
            (text_items (chars others.now) tag.now) self in
            IfOk result (λ lines. AllZip (SameItems T.eq) lines in_front) }
    {
        let PrefixedLines { ended, prefixes } = self;
        let mut prefixes = prefixes.unwrap_or(Prefixes::none(alloc));
        put_in_front(&mut prefixes.first, first, tag)?;
        put_in_front(&mut prefixes.others, others, tag)?;
        Ok(PrefixedLines {
            ended,
            prefixes: Some(prefixes),
        })
    }
}

impl<T> Prefixes<T> {
    /// No prefix for any line.
    fn none(alloc: Global) -> Prefixes<T>
        ensures { result ≡ record { first = []; others = [] } }
    {
        Prefixes {
            first: TaggedLine::new(alloc),
            others: TaggedLine::new(alloc),
        }
    }

    /// Whether any of this many lines has a prefix with a character.
    fn are_seen(&self, lines: usize) -> bool
        ensures { result
            ≡ (nat_lt 0 lines && has_piece self.now.first) || (nat_lt 1 lines && has_piece self.now.others) }
    {
        (lines > 0 && !self.first.is_empty()) || (lines > 1 && !self.others.is_empty())
    }
}

/// Puts text in front of a line, under a copy of the tag. An empty text changes nothing.
pub(crate) fn put_in_front<T: Tag>(
    line: &mut TaggedLine<T>,
    text: &str,
    tag: &T,
) -> Result<(), OutOfMemory>
    ensures items { OnOk result
        (SameItems T.eq (items_of line.new) (text_items (chars text.now) tag.now ++ items_of line.old)) }
    ensures merged { IsMerged T.eq line.old → OnOk result (IsMerged T.eq line.new) }
{
    if text.is_empty() {
        return Ok(());
    }
    line.insert_front_str(text, tag.clone()?)
}

/// Adds the lines that a block has ended, each by itself: the first one after its prefix, and each other one after the
/// other prefix.
fn push_after<'a, T: Tag>(
    lines: &mut Vec<RenderLine<T>>,
    mut ended: EndedLines<T>,
    first: &'a TaggedLine<T>,
    others: &'a TaggedLine<T>,
) -> Result<(), OutOfMemory>
    requires first { IsMerged T.eq first.now }
    requires others { IsMerged T.eq others.now }
    ensures { let texts = after_prefixes (items_of first.now) (items_of others.now) ended in
        OnOk result (Pushes T.eq lines.old.items texts lines.new.items) }
{
    lines.reserve(ended.len())?;
    let mut prefix = first;
    while !ended.is_empty() {
        let mut text = prefix.clone()?;
        ended.move_line(&mut text)?;
        lines.push(RenderLine::Text(text))?;
        prefix = others;
    }
    Ok(())
}

/// Shows each line between `<` and `>` on a line of its own, without its markers.
impl<T: Eq> fmt::Display for PrefixedLines<T> {
    fn fmt<W: fmt::Write>(&self, f: &mut fmt::Formatter<W>) -> fmt::Result {
        let Some(prefixes) = &self.prefixes else {
            return write!(f, "{}", self.ended);
        };
        let (Ok(first), Ok(others)) = (prefixes.first.to_text(), prefixes.others.to_text()) else {
            return Err(fmt::Error);
        };
        self.ended.fmt_after(f, first.as_str(), others.as_str())
    }
}
