//! Lines as a renderer keeps them.
ghost use Rattle.std.specs.Prelude.{◌≡◌, ◌++◌, IfOk, OnOk};
ghost use Rattle.tbr_tagged.specs.Elements.{items_of, SameItems, IsMerged};
ghost use Rattle.tbr_tagged.specs.Walks.{item_characters};
ghost use Rattle.tbr_tagged.specs.View.{chars_of};
ghost use Rattle.tbr_border.specs.RenderLine as model;

use crate::border::BorderHoriz;
use tbr_tagged::{OutOfMemory, TaggedLine};
use tbr_tags::Tag;

/// A line of text, or a border.
#[derive(Debug, Drop)]
pub enum RenderLine<T> {
    /// Pieces of text and markers.
    Text(TaggedLine<T>),
    /// A horizontal border.
    Line(BorderHoriz<T>),
}

impl<T> RenderLine<T> {
    /// The line's text: that of a line of text, or of a border, column by column. It refuses only where memory is
    /// refused.
    pub fn to_text(&self) -> Result<String, OutOfMemory>
        ensures { IfOk result (λ text. chars_of text ≡ item_characters (model.line_items self.now)) }
    {
        match self {
            RenderLine::Text(line) => line.to_text(),
            RenderLine::Line(border) => border.to_text(),
        }
    }

    /// Appends the line's text to `text`. If memory is refused, part of it may have been appended.
    pub fn append_to(&self, text: &mut String) -> Result<(), OutOfMemory>
        ensures { OnOk result (chars_of text.new ≡ chars_of text.old ++ item_characters (model.line_items self.now)) }
    {
        match self {
            RenderLine::Text(line) => line.append_to(text),
            RenderLine::Line(border) => border.append_to(text),
        }
    }

    /// Whether it is a line of text with a piece, or a border without holes. It takes no memory.
    pub fn has_content(&self) -> bool
        ensures { result ≡ model.has_content self.now }
    {
        match self {
            RenderLine::Text(line) => !line.is_empty(),
            RenderLine::Line(border) => !border.has_holes(),
        }
    }
}

impl<T: Tag> RenderLine<T> {
    /// A line of text itself, or a border as a line of pieces, with its cells under copies of its tag. It refuses only
    /// where memory is refused.
    pub fn into_tagged_line(self) -> Result<TaggedLine<T>, OutOfMemory>
        ensures items { IfOk result (λ line. SameItems T.eq (items_of line) (model.line_items self)) }
        ensures text { IfOk result (λ line. model.IsItself self line) }
        ensures merged { model.IsMergedText T.eq self → IfOk result (λ line. IsMerged T.eq line) }
    {
        match self {
            RenderLine::Text(line) => Ok(line),
            RenderLine::Line(border) => border.into_tagged_line(),
        }
    }

    /// A line of text itself, or a border as a line of pieces, with its cells under copies of `tag`. It refuses only
    /// where memory is refused.
    pub fn into_tagged_line_with(self, tag: &T) -> Result<TaggedLine<T>, OutOfMemory>
        ensures items { IfOk result (λ line. SameItems T.eq (items_of line) (model.items_under tag.now self)) }
        ensures merged { model.IsMergedText T.eq self → IfOk result (λ line. IsMerged T.eq line) }
    {
        match self {
            RenderLine::Text(line) => Ok(line),
            RenderLine::Line(border) => border.into_tagged_line_with(tag),
        }
    }

    /// A copy of the line, with pieces and cells under copies of their tags. It refuses only where memory is refused.
    pub fn clone(&self) -> Result<RenderLine<T>, OutOfMemory>
        ensures { IfOk result (λ line. model.SameLine T.eq line self.now) }
    {
        Ok(match self {
            RenderLine::Text(line) => RenderLine::Text(line.clone()?),
            RenderLine::Line(border) => RenderLine::Line(border.clone()?),
        })
    }
}
