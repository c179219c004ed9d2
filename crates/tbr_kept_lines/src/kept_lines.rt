//! Lines as a renderer keeps them.
ghost use Rattle.std.specs.Prelude.{◌≡◌, ◌≢◌, ◌+◌, ◌++◌, chars, ◌∷◌, [], List, None, Some, true, not, map, filter, length, IfOk, IfErr, IfSome, OnErr, OnOk};
ghost use Rattle.std.specs.List.{AllZip, AllByRecursion as Each, list_any};
ghost use Rattle.tbr_tagged.specs.Elements.{SameItems, IsMerged, items_of, text_items};
ghost use Rattle.tbr_border.specs.RenderLine.{IsMergedText};
ghost use Rattle.tbr_wrap.specs.Runs.{is_some_list};
ghost use Rattle.tbr_tagged.specs.View.{chars_of};
ghost use Rattle.tbr_border.specs.declared.RenderLine.TheVariants.{Line as Rule};
ghost use Rattle.tbr_kept_lines.specs.Line.{text, line_seen, line_has_content, text_lines, SameSeen};
ghost use Rattle.tbr_kept_lines.specs.KeptLines.{part_seen, parts_seen, HoldsPart};
ghost use Rattle.tbr_kept_lines.specs.LastBorder as model;
ghost use Rattle.tbr_kept_lines.specs.Text.{line_text, lines_text};
ghost use Rattle.tbr_kept_lines.specs.Prefixed.{as_text, prefixed_lines, Appends};

use crate::prefixed_lines::{PrefixedLines, put_in_front};
use std::alloc::Global;
use std::marker::Model;
use std::{fmt, mem};
use tbr_border::{BorderHoriz, RenderLine};
use tbr_tagged::{OutOfMemory, TaggedLine};
use tbr_tags::Tag;
use tbr_wrap::EndedLines;

/// Lines, each kept by itself or, where a block has ended many, in the block's one text. A contract sees their list.
#[derive(Drop)]
pub struct KeptLines<T: Eq> {
    alloc: Global,
    above: Vec<Part<T>>,
    /// Whether a line of these has content.
    content_above: bool,
    /// The lines after them.
    last: Vec<RenderLine<T>>,
    /// How many of the last lines have content.
    with_content: usize,
}

/// Lines, and after them those that a block has ended.
#[derive(Drop)]
pub struct Part<T: Eq> {
    before: Vec<RenderLine<T>>,
    ended: PrefixedLines<T>,
}

impl<T: Eq> Model for KeptLines<T> {
    ghost use Rattle.std.specs.Prelude.{List};
    ghost use Rattle.tbr_kept_lines.specs.Line.{Line};

    ghost Value = { List (Line T) };

    ghost use Rattle.tbr_kept_lines.specs.KeptLines.{kept_seen, HoldsKept};

    ghost view = { λ k. kept_seen k };

    ghost invariant = { λ k. HoldsKept T.eq k };
}

impl<T: Tag> KeptLines<T> {
    /// No lines. It takes no memory.
    pub fn new(alloc: Global) -> KeptLines<T>
        ensures { result ≡ [] }
    {
        KeptLines {
            alloc,
            above: Vec::new(alloc),
            content_above: false,
            last: Vec::new(alloc),
            with_content: 0,
        }
    }

    /// Whether there is no line.
    pub fn is_empty(&self) -> bool
        ensures { result ≡ not (is_some_list self.now) }
    {
        self.above.is_empty() && self.last.is_empty()
    }

    /// How many lines there are. It refuses where they pass `usize`.
    pub fn len(&self) -> Result<usize, OutOfMemory>
        ensures { IfOk result (λ len. len ≡ length self.now) }
    {
        add(count_lines(&self.above)?, self.last.len())
    }

    /// Whether a line has content: a text with a character, or a border without holes.
    pub fn has_content(&self) -> bool
        ensures { result ≡ list_any line_has_content self.now }
    {
        self.content_above || self.with_content > 0
    }
}

impl<T: Tag> KeptLines<T> {
    /// Adds a line after the others. Its pieces are the longest stretches under equal tags. Where memory is refused, it
    /// is lost.
    pub fn push(&mut self, line: RenderLine<T>) -> Result<(), OutOfMemory>
        requires { IsMergedText T.eq line }
        ensures { OnOk result (self.new ≡ self.old ++ line_seen line ∷ []) }
    {
        let more = usize::from(line.has_content());
        let Some(with_content) = self.with_content.checked_add(more) else {
            return Err(OutOfMemory);
        };
        self.last.push(line)?;
        self.with_content = with_content;
        Ok(())
    }

    /// Adds lines after the others. Their pieces are the longest stretches under equal tags. Where memory is refused,
    /// they are lost.
    pub fn extend(&mut self, lines: Vec<RenderLine<T>>) -> Result<(), OutOfMemory>
        requires { Each (IsMergedText T.eq) lines.items }
        ensures { OnOk result (self.new ≡ self.old ++ map line_seen lines.items) }
    {
        let more = count_content(&lines);
        let Some(with_content) = self.with_content.checked_add(more) else {
            return Err(OutOfMemory);
        };
        append_all(&mut self.last, lines)?;
        self.with_content = with_content;
        Ok(())
    }

    /// Adds the lines that a block has ended, at least one, after the others. They stay in the block's text. Where
    /// memory is refused, lines are lost.
    pub fn push_ended(&mut self, ended: EndedLines<T>) -> Result<(), OutOfMemory>
        requires { is_some_list ended ≡ true }
        ensures { OnOk result (self.new ≡ self.old ++ text_lines ended) }
    {
        self.push_part(PrefixedLines::of(ended))
    }

    /// Adds lines that a block has ended, at least one, after the others. Where memory is refused, lines are lost.
    fn push_part(&mut self, ended: PrefixedLines<T>) -> Result<(), OutOfMemory>
        requires { is_some_list ended ≡ true }
        ensures { OnOk result (self.new ≡ self.old ++ text_lines ended) }
    {
        let has_content = self.has_content() || ended.has_character();
        let before = mem::replace(&mut self.last, Vec::new(self.alloc));
        self.with_content = 0;
        self.above.push(Part { before, ended })?;
        self.content_above = has_content;
        Ok(())
    }

    /// Takes the last line, if it is a border. Any other stays.
    pub fn take_border(&mut self) -> Option<BorderHoriz<T>>
        ensures border { result ≡ model.last_border self.old }
        ensures rest { self.new ≡ model.before_border self.old }
    {
        let border = take_last_border(&mut self.last)?;
        if !border.has_holes() {
            self.with_content -= 1;
        }
        Some(border)
    }

    /// The text of all lines, each with a newline. A border shows its holes too. Where memory is refused, all are lost.
    pub fn into_text(self) -> Result<String, OutOfMemory>
        ensures { IfOk result (λ text. chars_of text ≡ lines_text self) }
    {
        let mut text = String::new(self.alloc);
        append_parts(&mut text, self.above)?;
        append_lines(&mut text, self.last)?;
        Ok(text)
    }
}

impl<T: Tag> KeptLines<T> {
    /// Adds other lines after these, as texts with prefixes: one prefix for the first line, and another for each other
    /// line. Prefixes and the cells of borders are under copies of the tag. Where memory is refused, lines are lost.
    ///
    /// Lines in a block's text stay there, and their prefixes are kept outside it.
    pub fn append_prefixed<'a>(
        &mut self,
        other: KeptLines<T>,
        first: &'a str,
        others: &'a str,
        tag: &T,
    ) -> Result<(), OutOfMemory>
        ensures { let prefixed = prefixed_lines tag.now (chars first.now) (chars others.now) other in
            OnOk result (Appends T.eq self.old prefixed self.new) }
    {
        let KeptLines { above, last, .. } = other;
        let mut next = first;
        for part in above {
            self.append_part(part, next, others, tag)?;
            next = others;
        }
        self.extend_prefixed(last, next, others, tag)
    }

    /// Adds the lines of a part, as texts after prefixes.
    fn append_part<'a>(
        &mut self,
        part: Part<T>,
        first: &'a str,
        others: &'a str,
        tag: &T,
    ) -> Result<(), OutOfMemory>
        requires part { HoldsPart T.eq part }
        ensures { let prefixed = prefixed_lines tag.now (chars first.now) (chars others.now) (part_seen part) in
            OnOk result (Appends T.eq self.old prefixed self.new) }
    {
        let next = if part.before.is_empty() {
            first
        } else {
            others
        };
        self.extend_prefixed(part.before, first, others, tag)?;
        let ended = part.ended.put_in_front(self.alloc, next, others, tag)?;
        self.push_part(ended)
    }

    /// Adds lines as texts after prefixes.
    fn extend_prefixed<'a>(
        &mut self,
        mut lines: Vec<RenderLine<T>>,
        first: &'a str,
        others: &'a str,
        tag: &T,
    ) -> Result<(), OutOfMemory>
        requires lines { Each (IsMergedText T.eq) lines.items }
        ensures { let seen = map line_seen lines.items in
            let prefixed = prefixed_lines tag.now (chars first.now) (chars others.now) seen in
            OnOk result (Appends T.eq self.old prefixed self.new) }
    {
        put_prefixes(self.alloc, &mut lines, first, others, tag)?;
        self.extend(lines)
    }

    /// The lines, if one block has ended all of them and they have no prefix. Otherwise it gives them back as they are.
    /// It takes no memory.
    pub fn into_ended(mut self) -> Result<EndedLines<T>, KeptLines<T>>
        ensures ended { IfOk result (λ ended. text_lines ended ≡ self) }
        ensures kept { IfErr result (λ kept. kept ≡ self) }
    {
        if self.above.len() != 1 || !self.last.is_empty() {
            return Err(self);
        }
        let Some(part) = self.above.pop() else {
            return Err(self);
        };
        match part.into_ended() {
            Ok(ended) => Ok(ended),
            Err(part) => {
                self.above.push_reserved(part);
                Err(self)
            }
        }
    }

    /// All lines, each by itself. Their pieces are the longest stretches under equal tags. Where memory is refused, all
    /// are lost.
    pub fn into_vec(self) -> Result<Vec<RenderLine<T>>, OutOfMemory>
        ensures lines { IfOk result (λ lines. AllZip (SameSeen T.eq) (map line_seen lines.items) self) }
        ensures merged { IfOk result (λ lines. Each (IsMergedText T.eq) lines.items) }
    {
        if self.above.is_empty() {
            return Ok(self.last);
        }
        let mut lines = lines_of(self.alloc, self.above)?;
        append_all(&mut lines, self.last)?;
        Ok(lines)
    }
}

impl<T: Tag> Part<T> {
    /// Its lines, if a block has ended all of them and they have no prefix. Otherwise it gives them back as they are.
    fn into_ended(self) -> Result<EndedLines<T>, Part<T>>
        ensures ended { IfOk result (λ ended. text_lines ended ≡ part_seen self) }
        ensures kept { IfErr result (λ part. part ≡ self) }
    {
        let Part { before, ended } = self;
        if !before.is_empty() {
            return Err(Part { before, ended });
        }
        match ended.into_ended() {
            Ok(ended) => Ok(ended),
            Err(ended) => Err(Part { before, ended }),
        }
    }
}

/// How many lines have content.
fn count_content<T: Tag>(lines: &[RenderLine<T>]) -> usize
    requires { Each (IsMergedText T.eq) lines.now }
    ensures { result ≡ length (filter line_has_content (map line_seen lines.now)) }
{
    let mut count = 0usize;
    for line in lines {
        count += usize::from(line.has_content());
    }
    count
}

/// How many lines parts have. It refuses where they pass `usize`.
fn count_lines<T: Tag>(parts: &[Part<T>]) -> Result<usize, OutOfMemory>
    ensures { IfOk result (λ count. count ≡ length (parts_seen parts.now)) }
{
    let mut count = 0usize;
    for part in parts {
        count = add(count, part.before.len())?;
        count = add(count, part.ended.len())?;
    }
    Ok(count)
}

/// The sum of two numbers. It refuses where that passes `usize`.
fn add(a: usize, b: usize) -> Result<usize, OutOfMemory>
    ensures { IfOk result (λ sum. sum ≡ a + b) }
{
    a.checked_add(b).ok_or(OutOfMemory)
}

/// Takes the last line, if it is a border.
fn take_last_border<T: Drop>(lines: &mut Vec<RenderLine<T>>) -> Option<BorderHoriz<T>>
    ensures some { IfSome result (λ border. lines.old.items ≡ lines.new.items ++ Rule border ∷ []) }
    ensures none { result ≡ None →
        (lines.new ≡ lines.old) × (model.last_border (map line_seen lines.old.items) ≡ None) }
{
    if !is_border(lines.last()) {
        return None;
    }
    border_in(lines.pop())
}

/// The border that a line is, if it is one.
fn border_in<T: Drop>(line: Option<RenderLine<T>>) -> Option<BorderHoriz<T>>
    ensures some { IfSome result (λ border. line ≡ Some (Rule border)) }
    ensures none { result ≡ None → (border : _) → line ≢ Some (Rule border) }
{
    match line {
        Some(RenderLine::Line(border)) => Some(border),
        Some(RenderLine::Text(_)) | None => None,
    }
}

/// Whether a line is a border.
fn is_border<T>(line: Option<&RenderLine<T>>) -> bool
    ensures { result ≡ model.is_border line.entry }
{
    matches!(line, Some(RenderLine::Line(_)))
}

/// The lines of parts, each by itself.
fn lines_of<T: Tag>(alloc: Global, parts: Vec<Part<T>>) -> Result<Vec<RenderLine<T>>, OutOfMemory>
    requires parts { Each (HoldsPart T.eq) parts.items }
    ensures lines { IfOk result (λ lines.
        AllZip (SameSeen T.eq) (map line_seen lines.items) (parts_seen parts.items)) }
    ensures merged { IfOk result (λ lines. Each (IsMergedText T.eq) lines.items) }
{
    let mut lines = Vec::new(alloc);
    for part in parts {
        append_all(&mut lines, part.before)?;
        part.ended.push_to(&mut lines)?;
    }
    Ok(lines)
}

/// Adds items after others. If there are no others, none is moved. Where memory is refused, the others stay.
fn append_all<X: Drop>(items: &mut Vec<X>, mut more: Vec<X>) -> Result<(), OutOfMemory>
    ensures ok { OnOk result (items.new.items ≡ items.old.items ++ more.items) }
    ensures err { OnErr result (items.new.items ≡ items.old.items) }
{
    if items.is_empty() {
        *items = more;
        return Ok(());
    }
    items.append(&mut more)?;
    Ok(())
}

/// Puts a prefix in front of the first line, and another one in front of each other line, under copies of the tag.
fn put_prefixes<'a, T: Tag>(
    alloc: Global,
    lines: &mut [RenderLine<T>],
    first: &'a str,
    others: &'a str,
    tag: &T,
) -> Result<(), OutOfMemory>
    requires lines { Each (IsMergedText T.eq) lines.old }
    ensures seen { let seen = map line_seen lines.old in
        let prefixed = prefixed_lines tag.now (chars first.now) (chars others.now) seen in
        OnOk result (AllZip (SameSeen T.eq) (map line_seen lines.new) prefixed) }
    ensures merged { OnOk result (Each (IsMergedText T.eq) lines.new) }
{
    let mut next = first;
    for line in lines.iter_mut() {
        put_prefix(alloc, line, next, tag)?;
        next = others;
    }
    Ok(())
}

/// Puts a prefix in front of a line, under a copy of the tag. A border becomes text. Where memory is refused, the line
/// is lost.
fn put_prefix<T: Tag>(
    alloc: Global,
    line: &mut RenderLine<T>,
    prefix: &str,
    tag: &T,
) -> Result<(), OutOfMemory>
    requires merged { IsMergedText T.eq line.old }
    ensures seen { let shown = as_text tag.now (line_seen line.old) in
        OnOk result (SameSeen T.eq (line_seen line.new) (text (text_items (chars prefix.now) tag.now ++ shown))) }
    ensures merged { OnOk result (IsMergedText T.eq line.new) }
{
    if let RenderLine::Text(text) = line {
        return put_in_front(text, prefix, tag);
    }
    let border = mem::replace(line, RenderLine::Text(TaggedLine::new(alloc)));
    let mut text = border.into_tagged_line_with(tag)?;
    put_in_front(&mut text, prefix, tag)?;
    *line = RenderLine::Text(text);
    Ok(())
}

/// Appends the text of each line of parts, and a newline to each.
fn append_parts<T: Tag>(text: &mut String, parts: Vec<Part<T>>) -> Result<(), OutOfMemory>
    ensures { OnOk result (chars_of text.new ≡ chars_of text.old ++ lines_text (parts_seen parts.items)) }
{
    for part in parts {
        append_lines(text, part.before)?;
        part.ended.append_to(text)?;
    }
    Ok(())
}

/// Appends the text of each line, and a newline to each.
fn append_lines<T: Drop>(text: &mut String, lines: Vec<RenderLine<T>>) -> Result<(), OutOfMemory>
    ensures { OnOk result (chars_of text.new ≡ chars_of text.old ++ lines_text (map line_seen lines.items)) }
{
    for line in lines {
        append_line(text, &line)?;
    }
    Ok(())
}

/// Appends a line's text and a newline.
fn append_line<T>(text: &mut String, line: &RenderLine<T>) -> Result<(), OutOfMemory>
    ensures { OnOk result (chars_of text.new ≡ chars_of text.old ++ line_text (line_seen line.now)) }
{
    line.append_to(text)?;
    text.push('\n')?;
    Ok(())
}

/// Shows each line on a line of its own: a text between `<` and `>`, a border between `[` and `]`.
impl<T: Eq> fmt::Display for KeptLines<T> {
    fn fmt<F: fmt::Write>(&self, f: &mut fmt::Formatter<F>) -> fmt::Result {
        for part in &self.above {
            print_lines(f, &part.before)?;
            write!(f, "{}", part.ended)?;
        }
        print_lines(f, &self.last)
    }
}

/// Shows the lines as `Display` does, in brackets.
impl<T: Eq> fmt::Debug for KeptLines<T> {
    fn fmt<F: fmt::Write>(&self, f: &mut fmt::Formatter<F>) -> fmt::Result {
        write!(f, "[{self}]")
    }
}

/// Prints each line and a newline.
fn print_lines<T, F: fmt::Write>(
    f: &mut fmt::Formatter<F>,
    lines: &Vec<RenderLine<T>>,
) -> fmt::Result {
    for line in lines {
        print_line(f, line)?;
    }
    Ok(())
}

/// Prints a line and a newline.
fn print_line<T, F: fmt::Write>(f: &mut fmt::Formatter<F>, line: &RenderLine<T>) -> fmt::Result {
    let Ok(text) = line.to_text() else {
        return Err(fmt::Error);
    };
    match line {
        RenderLine::Text(_) => writeln!(f, "<{}>", text.as_str()),
        RenderLine::Line(_) => writeln!(f, "[{}]", text.as_str()),
    }
}
