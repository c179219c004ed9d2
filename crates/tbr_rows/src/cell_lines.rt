//! The lines of a cell.
ghost use Rattle.std.specs.Prelude.{◌≡◌, ◌==◌, ◌++◌, ◌∷◌, [], List, length, drop, IfOk, OnOk};
ghost use Rattle.tbr_border.specs.declared.render_line.RenderLine.{RenderLine as Line};
ghost use Rattle.tbr_tagged.specs.Elements.{items_of, SameItems, IsMerged};
ghost use Rattle.tbr_rows.specs.Borders as borders;
ghost use Rattle.tbr_rows.specs.CellLines as model;
ghost use Rattle.tbr_rows.specs.Cells.{first_line};
ghost use Rattle.tbr_rows.specs.Gaps.{IsGapText};
ghost use Rattle.tbr_border.specs.RenderLine.{items_under};

use crate::aligned_lines::AlignedLines;
use std::alloc::Global;
use std::collections::VecDeque;
use std::fmt;
use std::marker::Model;
use tbr_border::{BorderHoriz, RenderLine};
use tbr_tagged::{OutOfMemory, TaggedLine, spaces};
use tbr_tags::Tag;

/// The lines that a cell still has to show. They are taken from both ends. A contract sees their list.
#[derive(Drop)]
pub(crate) struct CellLines<T: Eq> {
    kept: Kept<T>,
}

/// Lines one by one, or in the text of the block that has ended them.
#[derive(Drop)]
pub(crate) enum Kept<T> {
    Each(VecDeque<RenderLine<T>>),
    InText(AlignedLines<T>),
}

impl<T: Eq> Model for CellLines<T> {
    ghost use Rattle.std.specs.Prelude.{List};
    ghost use Rattle.tbr_border.specs.declared.render_line.RenderLine.{RenderLine};

    ghost Value = { List (RenderLine T) };

    ghost use Rattle.tbr_rows.specs.CellLines.{lines_kept};

    ghost view = { λ c. lines_kept T.eq c.kept };
}

impl<T: Tag> CellLines<T> {
    /// No lines. It takes no memory.
    pub(crate) fn none(alloc: Global) -> CellLines<T>
        ensures { result ≡ [] }
    {
        CellLines {
            kept: Kept::Each(VecDeque::new(alloc)),
        }
    }

    /// These lines. It takes no memory.
    pub(crate) fn of(lines: Vec<RenderLine<T>>) -> CellLines<T>
        ensures { result ≡ lines.items }
    {
        CellLines {
            kept: Kept::Each(VecDeque::from_vec(lines)),
        }
    }

    /// These lines, which stay in the text of their block.
    pub(crate) fn in_text(lines: AlignedLines<T>) -> CellLines<T>
        ensures { result ≡ model.as_lines T.eq lines }
    {
        CellLines {
            kept: Kept::InText(lines),
        }
    }

    /// How many lines there are.
    pub(crate) fn len(&self) -> usize
        ensures { result ≡ length self.now }
    {
        match &self.kept {
            Kept::Each(lines) => lines.len(),
            Kept::InText(lines) => lines.len(),
        }
    }

    /// Whether there is no line.
    pub(crate) fn is_empty(&self) -> bool
        ensures { result ≡ (length self.now == 0) }
    {
        self.len() == 0
    }
}

impl<T: Tag> CellLines<T> {
    /// Takes the first line, if it is a border without holes.
    pub(crate) fn take_first_border(&mut self) -> Option<BorderHoriz<T>>
        ensures border { result ≡ borders.first_mergeable self.old }
        ensures rest { self.new ≡ borders.after_mergeable self.old }
    {
        let Kept::Each(lines) = &mut self.kept else {
            return None;
        };
        take_first(lines)
    }

    /// Takes the last line, if it is a border without holes.
    pub(crate) fn take_last_border(&mut self) -> Option<BorderHoriz<T>>
        ensures border { result ≡ borders.last_mergeable self.old }
        ensures rest { self.new ≡ borders.before_mergeable self.old }
    {
        let Kept::Each(lines) = &mut self.kept else {
            return None;
        };
        take_last(lines)
    }
}

impl<T: Tag> CellLines<T> {
    /// Moves the first line, if there is one, to the end of another. A border's cells are drawn under a copy of the
    /// tag. If memory is refused, lines may be lost.
    pub(crate) fn move_first(
        &mut self,
        line: &mut TaggedLine<T>,
        tag: &T,
    ) -> Result<(), OutOfMemory>
        ensures items { (l : Line T) (rest : List (Line T)) → self.old ≡ l ∷ rest →
            OnOk result (SameItems T.eq (items_of line.new) (items_of line.old ++ items_under tag.now l)) }
        ensures merged { IsMerged T.eq line.old → OnOk result (IsMerged T.eq line.new) }
        ensures rest { OnOk result (self.new ≡ drop 1 self.old) }
        ensures none { self.old ≡ [] → OnOk result (line.new ≡ line.old) }
    {
        let lines = match &mut self.kept {
            Kept::InText(lines) => return lines.move_line(line),
            Kept::Each(lines) => lines,
        };
        let Some(first) = lines.pop_front() else {
            return Ok(());
        };
        line.append(first.into_tagged_line_with(tag)?)
    }

    /// Takes the first line as text, for the border below its row, or spaces of that width if no line is left. If
    /// memory is refused, lines may be lost.
    pub(crate) fn take_gap_text(
        &mut self,
        alloc: Global,
        width: usize,
        tag: &T,
    ) -> Result<TaggedLine<T>, OutOfMemory>
        ensures text { IfOk result (λ text. IsGapText T.eq tag.now width (first_line self.old) text) }
        ensures rest { OnOk result (self.new ≡ drop 1 self.old) }
    {
        match &mut self.kept {
            Kept::Each(lines) => gap_text(alloc, lines.pop_front(), width, tag),
            Kept::InText(lines) => first_in_gap(alloc, lines, width, tag),
        }
    }
}

/// Takes the first line, if it is a border without holes.
fn take_first<T: Drop>(lines: &mut VecDeque<RenderLine<T>>) -> Option<BorderHoriz<T>>
    ensures border { result ≡ borders.first_mergeable lines.old.items }
    ensures rest { lines.new.items ≡ borders.after_mergeable lines.old.items }
{
    if is_mergeable(lines.front())
        && let Some(RenderLine::Line(border)) = lines.pop_front()
    {
        return Some(border);
    }
    None
}

/// Takes the last line, if it is a border without holes.
fn take_last<T: Drop>(lines: &mut VecDeque<RenderLine<T>>) -> Option<BorderHoriz<T>>
    ensures border { result ≡ borders.last_mergeable lines.old.items }
    ensures rest { lines.new.items ≡ borders.before_mergeable lines.old.items }
{
    if is_mergeable(lines.back())
        && let Some(RenderLine::Line(border)) = lines.pop_back()
    {
        return Some(border);
    }
    None
}

/// Whether a line is a border without holes.
fn is_mergeable<T>(line: Option<&RenderLine<T>>) -> bool
    ensures { result ≡ borders.is_mergeable line.entry }
{
    match line {
        Some(RenderLine::Line(border)) => !border.has_holes(),
        _ => false,
    }
}

/// The text of a cell in the border below its row: a line, or spaces if it has none left.
fn gap_text<T: Tag>(
    alloc: Global,
    line: Option<RenderLine<T>>,
    width: usize,
    tag: &T,
) -> Result<TaggedLine<T>, OutOfMemory>
    ensures { IfOk result (λ text. IsGapText T.eq tag.now width line text) }
{
    match line {
        Some(line) => line.into_tagged_line(),
        None => TaggedLine::from_string(alloc, spaces(alloc, width)?, tag),
    }
}

/// The text of a cell in the border below its row, where the cell's lines are in a block's text. That is the first
/// line, which it removes, or spaces if none is left.
fn first_in_gap<T: Tag>(
    alloc: Global,
    lines: &mut AlignedLines<T>,
    width: usize,
    tag: &T,
) -> Result<TaggedLine<T>, OutOfMemory>
    ensures text { IfOk result (λ text.
        IsGapText T.eq tag.now width (first_line (model.as_lines T.eq lines.old)) text) }
    ensures rest { OnOk result (lines.new ≡ drop 1 lines.old) }
{
    if lines.len() == 0 {
        return gap_text(alloc, None, width, tag);
    }
    let mut line = TaggedLine::new(alloc);
    lines.move_line(&mut line)?;
    Ok(line)
}

/// Shows each line between `<` and `>`, after a space.
impl<T: Eq> fmt::Display for CellLines<T> {
    fn fmt<W: fmt::Write>(&self, f: &mut fmt::Formatter<W>) -> fmt::Result {
        match &self.kept {
            Kept::Each(lines) => print_each(f, lines),
            Kept::InText(lines) => write!(f, "{lines}"),
        }
    }
}

/// Shows the lines as `Display` does.
impl<T: Eq> fmt::Debug for CellLines<T> {
    fn fmt<W: fmt::Write>(&self, f: &mut fmt::Formatter<W>) -> fmt::Result {
        write!(f, "{self}")
    }
}

/// Prints each line between `<` and `>`, after a space.
fn print_each<T, W: fmt::Write>(
    f: &mut fmt::Formatter<W>,
    lines: &VecDeque<RenderLine<T>>,
) -> fmt::Result {
    for line in lines {
        let Ok(text) = line.to_text() else {
            return Err(fmt::Error);
        };
        write!(f, " <{}>", text.as_str())?;
    }
    Ok(())
}
