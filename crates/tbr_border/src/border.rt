//! Horizontal borders, with text in front of them.
ghost use Rattle.std.specs.Prelude.{◌≡◌, ◌==◌, ◌+◌, ◌<◌, ◌≤◌, ◌++◌, map, length, replicate, IfOk, OnOk, OnErr};
ghost use Rattle.tbr_tagged.specs.Elements.{items_of, SameItems, IsMerged};
ghost use Rattle.tbr_tagged.specs.View.{chars_of, element_of};
ghost use Rattle.tbr_tagged.specs.Walks.{item_characters};
ghost use Rattle.tbr_border.specs.Cell.{cell_of, cells_of, above, below, side_of, chopped_left, chopped_right, character};
ghost use Rattle.tbr_border.specs.Border as model;
ghost use Rattle.std.specs.List.{AllZip};
ghost use Rattle.tbr_tagged.specs.Mapped.{MapsElement};
ghost use Rattle.tbr_border.specs.Border.{drawn, shown, shown_from, AreInOrder, SameBorder, SameHole};
ghost use Rattle.tbr_border.specs.BorderView.{holes_of};

pub use cell::BorderSegHoriz;
use cell::Side;
use std::alloc::Global;
use std::marker::Model;
use tbr_model::CharWidth;
use tbr_tagged::{OutOfMemory, TaggedLine, TaggedLineElement, TaggedString};
use tbr_tags::Tag;

mod cell;

/// A horizontal border: cells under a tag, and elements in front of some of them. A contract sees its cells as sets of
/// arms, its tag, and the elements as holes, each with its place and its width in columns.
#[derive(Debug, Drop)]
pub struct BorderHoriz<T> {
    shape: Box<Shape<T>>,
}

/// What a border has. It is boxed, so that a border takes no more room among a renderer's lines than a line of text.
#[derive(Debug, Drop)]
struct Shape<T> {
    segments: Vec<BorderSegHoriz>,
    tag: T,
    holes: Vec<Span<T>>,
}

/// An element in front of the cells from a place on.
#[derive(Debug, Drop)]
struct Span<T> {
    place: usize,
    width: usize,
    element: TaggedLineElement<T>,
}

impl<T> Model for BorderHoriz<T> {
    ghost use Rattle.tbr_border.specs.Border.{Border};

    ghost Value = { Border T };

    ghost use Rattle.tbr_border.specs.BorderView.{border_of, SpansFit};

    ghost view = { border_of };

    ghost invariant = { SpansFit };
}

impl<T: Drop> BorderHoriz<T> {
    /// A border of `width` cells `─`, one for each column, without holes. It refuses only where memory is refused.
    pub fn new(alloc: Global, width: usize, tag: T) -> Result<BorderHoriz<T>, OutOfMemory>
        ensures { IfOk result (λ b. b ≡ model.without_holes (replicate width (cell_of BorderSegHoriz.Horiz)) tag) }
    {
        BorderHoriz::new_type(alloc, width, BorderSegHoriz::Horiz, tag)
    }

    /// A border of `width` cells of one kind, without holes. It refuses only where memory is refused.
    pub fn new_type(
        alloc: Global,
        width: usize,
        linetype: BorderSegHoriz,
        tag: T,
    ) -> Result<BorderHoriz<T>, OutOfMemory>
        ensures { IfOk result (λ b. b ≡ model.without_holes (replicate width (cell_of linetype)) tag) }
    {
        let mut segments = Vec::new(alloc);
        segments.resize(width, linetype)?;
        let shape = Shape {
            segments,
            tag,
            holes: Vec::new(alloc),
        };
        Ok(BorderHoriz {
            shape: Box::new(alloc, shape)?,
        })
    }
}

impl<T> BorderHoriz<T> {
    /// Appends cells `─` up to `width` cells.
    ///
    /// If memory is refused, the border stays as it was. A border that is as long already takes none.
    pub fn stretch_to(&mut self, width: usize) -> Result<(), OutOfMemory>
        ensures ok { OnOk result (self.new ≡ model.with_cells (model.stretched width self.old.cells) self.old) }
        ensures err { OnErr result (self.new ≡ self.old) }
        ensures grows { OnErr result (length self.old.cells < width) }
    {
        stretch(&mut self.shape.segments, width)
    }

    /// Stretches the border to `x + 1` cells, and adds the arm up to the cell at `x`.
    ///
    /// If memory is refused, or `x + 1` passes `usize`, the border stays as it was. A border that has the cell takes no
    /// memory.
    pub fn join_above(&mut self, x: usize) -> Result<(), OutOfMemory>
        ensures ok { OnOk result (self.new ≡ model.with_cells (model.joined_at above x self.old.cells) self.old) }
        ensures err { OnErr result (self.new ≡ self.old) }
        ensures grows { OnErr result (length self.old.cells ≤ x) }
    {
        join_at(&mut self.shape.segments, Side::Above, x)
    }

    /// Stretches the border to `x + 1` cells, and adds the arm down to the cell at `x`.
    ///
    /// If memory is refused, or `x + 1` passes `usize`, the border stays as it was. A border that has the cell takes no
    /// memory.
    pub fn join_below(&mut self, x: usize) -> Result<(), OutOfMemory>
        ensures ok { OnOk result (self.new ≡ model.with_cells (model.joined_at below x self.old.cells) self.old) }
        ensures err { OnErr result (self.new ≡ self.old) }
        ensures grows { OnErr result (length self.old.cells ≤ x) }
    {
        join_at(&mut self.shape.segments, Side::Below, x)
    }

    /// Merges a border that is below. It adds an arm down at `pos + i` for each place `i` where the other has one of `┴
    /// ┬ ┼ └ ┘`, also under its holes. This border is stretched up to the last join.
    ///
    /// If memory is refused, or a place passes `usize`, the border stays as it was. A border that reaches the last join
    /// takes no memory.
    pub fn merge_from_below(
        &mut self,
        other: &BorderHoriz<T>,
        pos: usize,
    ) -> Result<(), OutOfMemory>
        ensures ok { OnOk result
            (self.new ≡ model.with_cells (model.merged below self.old.cells pos other.now.cells) self.old) }
        ensures err { OnErr result (self.new ≡ self.old) }
        ensures grows { OnErr result (length self.old.cells < pos + model.joins_end below other.now.cells) }
    {
        merge(
            &mut self.shape.segments,
            Side::Below,
            &other.shape.segments,
            pos,
        )
    }

    /// Merges a border that is above. It adds an arm up at `pos + i` for each place `i` where the other has one of `┴ ┬
    /// ┼ ┌ ┐`, also under its holes. This border is stretched up to the last join.
    ///
    /// If memory is refused, or a place passes `usize`, the border stays as it was. A border that reaches the last join
    /// takes no memory.
    pub fn merge_from_above(
        &mut self,
        other: &BorderHoriz<T>,
        pos: usize,
    ) -> Result<(), OutOfMemory>
        ensures ok { OnOk result
            (self.new ≡ model.with_cells (model.merged above self.old.cells pos other.now.cells) self.old) }
        ensures err { OnErr result (self.new ≡ self.old) }
        ensures grows { OnErr result (length self.old.cells < pos + model.joins_end above other.now.cells) }
    {
        merge(
            &mut self.shape.segments,
            Side::Above,
            &other.shape.segments,
            pos,
        )
    }

    /// Puts an element in front of the cells from `pos` on, for as many columns as it takes. It asks that `pos` is at
    /// least [`span_end`](BorderHoriz::span_end). The border is stretched to the element's end, and the cells beside it
    /// are chopped on the side to it. A marker takes no column.
    ///
    /// If memory is refused, or the element's columns or its end pass `usize`, the border stays as it was and the
    /// element is dropped.
    pub fn add_text_span<W: CharWidth>(
        &mut self,
        pos: usize,
        element: TaggedLineElement<T>,
    ) -> Result<(), OutOfMemory>
    where
        T: Drop,
        requires { model.span_end self.old.holes ≤ pos }
        ensures ok { OnOk result (self.new ≡ model.with_span W.columns pos (element_of element) self.old) }
        ensures err { OnErr result (self.new ≡ self.old) }
    {
        let width = element.width::<W>()?;
        let Some(end) = pos.checked_add(width) else {
            return Err(OutOfMemory);
        };
        let shape = &mut *self.shape;
        shape.holes.push(Span {
            place: pos,
            width,
            element,
        })?;
        if let Err(e) = stretch(&mut shape.segments, end) {
            shape.holes.pop();
            return Err(e);
        }
        open(&mut shape.segments, pos, end);
        Ok(())
    }

    /// The column after the last hole, counted from 0, or 0 if there is none.
    pub fn span_end(&self) -> usize
        ensures { result ≡ model.span_end self.now.holes }
    {
        match self.shape.holes.last() {
            Some(span) => span.place + span.width,
            None => 0,
        }
    }

    /// Whether an element is in front of the cells.
    pub fn has_holes(&self) -> bool
        ensures { result ≡ model.has_holes self.now.holes }
    {
        !self.shape.holes.is_empty()
    }

    /// How many cells the border has.
    pub fn len(&self) -> usize
        ensures { result ≡ length self.now.cells }
    {
        self.shape.segments.len()
    }

    /// Whether the border has no cell.
    pub fn is_empty(&self) -> bool
        ensures { result ≡ (length self.now.cells == 0) }
    {
        self.shape.segments.is_empty()
    }

    /// The text of the line above: `│` above each `┴`, `┼`, `└` and `┘`, also under holes, and spaces elsewhere. It
    /// refuses only where memory is refused.
    pub fn to_vertical_lines_above(&self) -> Result<String, OutOfMemory>
        ensures { IfOk result (λ text. chars_of text ≡ model.lines_above self.now) }
    {
        let segments = &self.shape.segments;
        let mut text = String::new(*segments.allocator());
        for cell in segments {
            text.push(cell.line_above())?;
        }
        Ok(text)
    }
}

/// Appends cells `─` up to `width` cells. If memory is refused, nothing changes.
fn stretch(segments: &mut Vec<BorderSegHoriz>, width: usize) -> Result<(), OutOfMemory>
    ensures ok { OnOk result (cells_of segments.new.items ≡ model.stretched width (cells_of segments.old.items)) }
    ensures len { OnOk result (width ≤ length segments.new.items) }
    ensures longer { length segments.old.items ≤ length segments.new.items }
    ensures err { OnErr result (segments.new.items ≡ segments.old.items) }
    ensures grows { OnErr result (length segments.old.items < width) }
{
    if segments.len() < width {
        segments.resize(width, BorderSegHoriz::Horiz)?;
    }
    Ok(())
}

/// Stretches to `x + 1` cells, and adds an arm to the cell at `x`. If memory is refused, or `x + 1` passes `usize`,
/// nothing changes.
fn join_at(segments: &mut Vec<BorderSegHoriz>, side: Side, x: usize) -> Result<(), OutOfMemory>
    ensures ok { OnOk result
        (cells_of segments.new.items ≡ model.joined_at (side_of side) x (cells_of segments.old.items)) }
    ensures longer { length segments.old.items ≤ length segments.new.items }
    ensures err { OnErr result (segments.new.items ≡ segments.old.items) }
    ensures grows { OnErr result (length segments.old.items ≤ x) }
{
    let Some(width) = x.checked_add(1) else {
        return Err(OutOfMemory);
    };
    stretch(segments, width)?;
    segments[x].join(side);
    Ok(())
}

/// Adds an arm at `pos + i` for each place `i` where the other cells join, and stretches the border up to the last of
/// them. If memory is refused, or a place passes `usize`, nothing changes.
fn merge(
    segments: &mut Vec<BorderSegHoriz>,
    side: Side,
    other: &[BorderSegHoriz],
    pos: usize,
) -> Result<(), OutOfMemory>
    ensures ok { OnOk result (cells_of segments.new.items
        ≡ model.merged (side_of side) (cells_of segments.old.items) pos (cells_of other.now)) }
    ensures longer { length segments.old.items ≤ length segments.new.items }
    ensures err { OnErr result (segments.new.items ≡ segments.old.items) }
    ensures grows { OnErr result
        (length segments.old.items < pos + model.joins_end (side_of side) (cells_of other.now)) }
{
    let count = joins_end(side, other);
    if count == 0 {
        return Ok(());
    }
    let Some(width) = pos.checked_add(count) else {
        return Err(OutOfMemory);
    };
    stretch(segments, width)?;
    join_under(segments, side, other, pos);
    Ok(())
}

/// One past the last cell that joins.
fn joins_end(side: Side, other: &[BorderSegHoriz]) -> usize
    ensures { result ≡ model.joins_end (side_of side) (cells_of other.now) }
{
    let mut end = 0;
    for (i, cell) in other.iter().enumerate() {
        if cell.merges(side) {
            end = i + 1;
        }
    }
    end
}

/// Joins each cell under another that joins.
fn join_under(segments: &mut Vec<BorderSegHoriz>, side: Side, other: &[BorderSegHoriz], pos: usize)
    requires { pos + model.joins_end (side_of side) (cells_of other.now) ≤ length segments.old.items }
    ensures cells { cells_of segments.new.items
        ≡ model.joined_under (side_of side) (cells_of segments.old.items) pos (cells_of other.now) }
    ensures len { length segments.new.items ≡ length segments.old.items }
{
    for (i, cell) in other.iter().enumerate() {
        if cell.merges(side) {
            segments[pos + i].join(side);
        }
    }
}

/// Chops the cells beside the columns from `pos` to `end`.
fn open(segments: &mut Vec<BorderSegHoriz>, pos: usize, end: usize)
    ensures cells { cells_of segments.new.items ≡ model.opened pos end (cells_of segments.old.items) }
    ensures len { length segments.new.items ≡ length segments.old.items }
{
    if pos > 0 {
        chop_right_at(segments, pos - 1);
    }
    chop_left_at(segments, end);
}

/// Removes the arm to the right of the cell at a place, if there is a cell.
fn chop_right_at(segments: &mut Vec<BorderSegHoriz>, place: usize)
    ensures cells { cells_of segments.new.items ≡ model.changed_at chopped_right place (cells_of segments.old.items) }
    ensures len { length segments.new.items ≡ length segments.old.items }
{
    if let Some(cell) = segments.get_mut(place) {
        cell.chop_right();
    }
}

/// Removes the arm to the left of the cell at a place, if there is a cell.
fn chop_left_at(segments: &mut Vec<BorderSegHoriz>, place: usize)
    ensures cells { cells_of segments.new.items ≡ model.changed_at chopped_left place (cells_of segments.old.items) }
    ensures len { length segments.new.items ≡ length segments.old.items }
{
    if let Some(cell) = segments.get_mut(place) {
        cell.chop_left();
    }
}

impl<T> BorderHoriz<T> {
    /// The border's text: for each column what is in front of it, or the cell's character. It refuses only where memory
    /// is refused.
    pub fn to_text(&self) -> Result<String, OutOfMemory>
        ensures { IfOk result (λ text. chars_of text ≡ item_characters (shown self.now.tag self.now)) }
    {
        let mut text = String::new(*self.shape.segments.allocator());
        self.append_to(&mut text)?;
        Ok(text)
    }

    /// Appends the border's text to `text`. If memory is refused, part of it may have been appended.
    pub fn append_to(&self, text: &mut String) -> Result<(), OutOfMemory>
        ensures { OnOk result
            (chars_of text.new ≡ chars_of text.old ++ item_characters (shown self.now.tag self.now)) }
    {
        let shape = &*self.shape;
        let cells = shape.segments.as_slice();
        let mut at = 0;
        for span in &shape.holes {
            draw(text, &cells[at..span.place])?;
            text.push_str(span.element.as_str())?;
            at = span.place + span.width;
        }
        draw(text, &cells[at..])
    }
}

impl<T: Drop> BorderHoriz<T> {
    /// A border of these cells and elements, under the tags that `f` makes of theirs. It asks that `f` may be called on
    /// every tag. It refuses where `f` does, and where memory is refused; the border is dropped.
    #[tactic(auto, using(crate::proofs::HolesInOrder::mapped_order))]
    pub fn try_map_tag<U: Drop, F: Fn(T) -> Result<U, OutOfMemory>>(
        self,
        f: &F,
    ) -> Result<BorderHoriz<U>, OutOfMemory>
        requires { F.IsAlwaysCallable f.now }
        ensures { IfOk result (λ b. model.MapsBorder (model.Gives (F.post f.now)) self b) }
    {
        let Shape {
            segments,
            tag,
            holes,
        } = Box::into_inner(self.shape);
        let alloc = *segments.allocator();
        let holes = mapped_holes(holes, f)?;
        let tag = f(tag)?;
        let shape = Shape {
            segments,
            tag,
            holes,
        };
        Ok(BorderHoriz {
            shape: Box::new(alloc, shape)?,
        })
    }
}

/// These holes, with pieces under the tags that `f` makes of theirs.
fn mapped_holes<T: Drop, U: Drop, F: Fn(T) -> Result<U, OutOfMemory>>(
    holes: Vec<Span<T>>,
    f: &F,
) -> Result<Vec<Span<U>>, OutOfMemory>
    requires { F.IsAlwaysCallable f.now }
    ensures { IfOk result (λ mapped.
        AllZip (model.MapsHole (model.Gives (F.post f.now))) (holes_of holes.items) (holes_of mapped.items)) }
{
    let mut mapped = Vec::with_capacity(*holes.allocator(), holes.len())?;
    for span in holes {
        mapped.push(Span {
            place: span.place,
            width: span.width,
            element: mapped_element(span.element, f)?,
        })?;
    }
    Ok(mapped)
}

/// This element. If it is a piece, it is under the tag that `f` makes of its own.
fn mapped_element<T: Drop, U: Drop, F: Fn(T) -> Result<U, OutOfMemory>>(
    element: TaggedLineElement<T>,
    f: &F,
) -> Result<TaggedLineElement<U>, OutOfMemory>
    requires { F.IsAlwaysCallable f.now }
    ensures { IfOk result (λ mapped.
        MapsElement (model.Gives (F.post f.now)) (element_of element) (element_of mapped)) }
{
    match element {
        TaggedLineElement::Str(TaggedString { s, tag }) => {
            let tag = f(tag)?;
            Ok(TaggedLineElement::Str(TaggedString { s, tag }))
        }
        TaggedLineElement::FragmentStart(name) => Ok(TaggedLineElement::FragmentStart(name)),
    }
}

impl<T: Tag> BorderHoriz<T> {
    /// The border as a line of pieces. Cells are under copies of its tag, and what is in front of them keeps tags and
    /// markers. Pieces are the longest stretches under equal tags. It refuses only where memory is refused.
    pub fn into_tagged_line(self) -> Result<TaggedLine<T>, OutOfMemory>
        ensures items { IfOk result (λ line. SameItems T.eq (items_of line) (shown self.tag self)) }
        ensures merged { IfOk result (λ line. IsMerged T.eq line) }
    {
        let Shape {
            segments,
            tag,
            holes,
        } = Box::into_inner(self.shape);
        flattened(&segments, holes, &tag)
    }

    /// The border as a line of pieces. Cells are under copies of the given tag, and what is in front of them keeps tags
    /// and markers. Pieces are the longest stretches under equal tags. It refuses only where memory is refused.
    pub fn into_tagged_line_with(self, tag: &T) -> Result<TaggedLine<T>, OutOfMemory>
        ensures items { IfOk result (λ line. SameItems T.eq (items_of line) (shown tag.now self)) }
        ensures merged { IfOk result (λ line. IsMerged T.eq line) }
    {
        let Shape {
            segments,
            holes,
            ..
        } = Box::into_inner(self.shape);
        flattened(&segments, holes, tag)
    }

    /// A border of these cells and holes, under copies of their tags. It refuses only where memory is refused.
    pub fn clone(&self) -> Result<BorderHoriz<T>, OutOfMemory>
        ensures { IfOk result (λ b. SameBorder T.eq b self.now) }
    {
        let shape = &*self.shape;
        let alloc = *shape.segments.allocator();
        let holes = copied(alloc, &shape.holes)?;
        let segments = Vec::from_slice(alloc, &shape.segments)?;
        let tag = shape.tag.clone()?;
        let copy = Shape {
            segments,
            tag,
            holes,
        };
        Ok(BorderHoriz {
            shape: Box::new(alloc, copy)?,
        })
    }
}

/// These holes, with pieces under copies of their tags.
fn copied<T: Tag>(alloc: Global, holes: &[Span<T>]) -> Result<Vec<Span<T>>, OutOfMemory>
    ensures { IfOk result (λ copies. AllZip (SameHole T.eq) (holes_of copies.items) (holes_of holes.now)) }
{
    let mut copies = Vec::with_capacity(alloc, holes.len())?;
    for span in holes {
        copies.push(Span {
            place: span.place,
            width: span.width,
            element: span.element.clone()?,
        })?;
    }
    Ok(copies)
}

/// A line of pieces: the cells under copies of the tag, and what is in front of them.
fn flattened<T: Tag>(
    segments: &Vec<BorderSegHoriz>,
    holes: Vec<Span<T>>,
    tag: &T,
) -> Result<TaggedLine<T>, OutOfMemory>
    requires fit { AreInOrder 0 (holes_of holes.items) (length segments.now.items) }
    ensures items { IfOk result (λ line.
        SameItems T.eq (items_of line) (shown_from tag.now (cells_of segments.now.items) 0 (holes_of holes.items))) }
    ensures merged { IfOk result (λ line. IsMerged T.eq line) }
{
    let alloc = *segments.allocator();
    let cells = segments.as_slice();
    let mut line = TaggedLine::new(alloc);
    let mut at = 0;
    for span in holes {
        push_cells(alloc, &mut line, &cells[at..span.place], tag)?;
        line.push(span.element)?;
        at = span.place + span.width;
    }
    push_cells(alloc, &mut line, &cells[at..], tag)?;
    Ok(line)
}

/// Appends the characters of cells under a copy of the tag.
fn push_cells<T: Tag>(
    alloc: Global,
    line: &mut TaggedLine<T>,
    cells: &[BorderSegHoriz],
    tag: &T,
) -> Result<(), OutOfMemory>
    ensures items { OnOk result
        (SameItems T.eq (items_of line.new) (items_of line.old ++ drawn (cells_of cells.now) tag.now)) }
    ensures merged { IsMerged T.eq line.old → OnOk result (IsMerged T.eq line.new) }
{
    if cells.is_empty() {
        return Ok(());
    }
    let mut s = String::new(alloc);
    draw(&mut s, cells)?;
    let tag = tag.clone()?;
    line.push_str(TaggedString { s, tag })
}

/// Cells without a join, as most of a border's are.
const STRAIGHT: [BorderSegHoriz; 8] = [BorderSegHoriz::Horiz; 8];

/// Appends the characters of cells.
fn draw(text: &mut String, cells: &[BorderSegHoriz]) -> Result<(), OutOfMemory>
    ensures { OnOk result (chars_of text.new ≡ chars_of text.old ++ map character (cells_of cells.now)) }
{
    let mut rest = cells;
    while let Some((cell, others)) = rest.split_first() {
        match rest.strip_prefix(&STRAIGHT) {
            Some(after) => {
                text.push_str("────────")?;
                rest = after;
            }
            None => {
                text.push(cell.character())?;
                rest = others;
            }
        }
    }
    Ok(())
}
