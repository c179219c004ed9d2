//! Pieces of text and markers, one by one.
ghost use Rattle.std.specs.Prelude.{◌≡◌, ℕ, ◌∷◌, [], true, List, Option, chars, string_bytes, IfOk, OnOk, OnErr};
ghost use Rattle.std.specs.Option.{option_copied, option_map};
ghost use Rattle.tbr_model.specs.Width.{width_of_text};
ghost use Rattle.tbr_tagged.specs.Elements.{Element, piece, element_width, element_characters, is_piece_under, with_text, text_before, SameElement};
ghost use Rattle.tbr_tagged.specs.Elements as model;
ghost use Rattle.tbr_tagged.specs.Grown.{last_bytes, text_bytes};
ghost use Rattle.tbr_tagged.specs.Mapped.{MapsElement};
ghost use Rattle.tbr_tagged.specs.Padding as padding;
ghost use Rattle.tbr_tagged.specs.Restored.{with_characters};
ghost use Rattle.tbr_tagged.specs.Sums.{GivesSum};
ghost use Rattle.tbr_tagged.specs.View.{chars_of, element_of};

use crate::error::OutOfMemory;
use crate::space::{append_spaces, cut};
use crate::width::text_width;
use std::alloc::Global;
use std::mem;
use tbr_model::CharWidth;
use tbr_tags::Tag;

/// Text under one tag.
#[derive(PartialEq, Debug, Drop)]
pub struct TaggedString<T> {
    /// The text.
    pub s: String,
    /// Its tag.
    pub tag: T,
}

/// Text under one tag, or where a fragment of the document begins.
#[derive(PartialEq, Debug, Drop)]
pub enum TaggedLineElement<T> {
    /// A piece of text.
    Str(TaggedString<T>),
    /// A marker, by its name. It takes no column.
    FragmentStart(String),
}

impl<T> TaggedString<T> {
    /// The columns that the text takes: the sum over its characters, where one without a width counts 0.
    ///
    /// It takes no memory, and refuses exactly where the sum passes `usize`.
    pub fn width<W: CharWidth>(&self) -> Result<usize, OutOfMemory>
        ensures { GivesSum result (width_of_text W.columns (chars_of self.now.s)) }
    {
        text_width::<W>(self.s.as_str())
    }

    /// This text under the tag that `f` makes of its own. It asks that `f` may be called on every tag. It takes no
    /// memory.
    pub fn map_tag<U, F: Fn(T) -> U>(self, f: &F) -> TaggedString<U>
        requires { F.IsAlwaysCallable f.now }
        ensures text { result.s ≡ self.s }
        ensures tag { F.post f.now self.tag result.tag }
    {
        TaggedString {
            s: self.s,
            tag: f(self.tag),
        }
    }

    /// This text under a copy of its tag. It refuses only where memory is refused.
    pub fn clone(&self) -> Result<TaggedString<T>, OutOfMemory>
    where
        T: Tag,
        ensures text { IfOk result (λ copy. string_bytes copy.s ≡ string_bytes self.now.s) }
        ensures tag { IfOk result (λ copy. T.eq copy.tag self.now.tag ≡ true) }
    {
        let s = self.s.clone()?;
        let tag = self.tag.clone()?;
        Ok(TaggedString { s, tag })
    }
}

impl<T> TaggedLineElement<T> {
    /// The columns that the element takes: those of its text, and none for a marker.
    ///
    /// It takes no memory, and refuses exactly where the sum passes `usize`.
    pub fn width<W: CharWidth>(&self) -> Result<usize, OutOfMemory>
        ensures { GivesSum result (element_width W.columns (element_of self.now)) }
    {
        match self {
            TaggedLineElement::Str(piece) => piece.width::<W>(),
            TaggedLineElement::FragmentStart(_) => Ok(0),
        }
    }

    /// Whether it is a piece, and not a marker.
    pub(crate) fn is_piece(&self) -> bool
        ensures { result ≡ model.has_piece (element_of self.now ∷ []) }
    {
        matches!(self, TaggedLineElement::Str(_))
    }

    /// The allocator of its text.
    pub(crate) fn allocator(&self) -> Global {
        match self {
            TaggedLineElement::Str(piece) => *piece.s.allocator(),
            TaggedLineElement::FragmentStart(name) => *name.allocator(),
        }
    }

    /// The element's text, which is empty for a marker.
    pub fn as_str(&self) -> &str
        ensures { chars result.now ≡ element_characters (element_of self.now) }
    {
        match self {
            TaggedLineElement::Str(piece) => piece.s.as_str(),
            TaggedLineElement::FragmentStart(_) => "",
        }
    }

    /// The element with its tag, if it is a piece, replaced by what `f` makes of it. It asks that `f` may be called on
    /// every tag. It takes no memory.
    pub fn map_tag<U, F: Fn(T) -> U>(self, f: &F) -> TaggedLineElement<U>
        requires { F.IsAlwaysCallable f.now }
        ensures mapped { MapsElement (F.post f.now) (element_of self) (element_of result) }
        ensures width { (columns : ℕ → Option ℕ) →
            element_width columns (element_of result) ≡ element_width columns (element_of self) }
    {
        match self {
            TaggedLineElement::Str(piece) => TaggedLineElement::Str(piece.map_tag(f)),
            TaggedLineElement::FragmentStart(name) => TaggedLineElement::FragmentStart(name),
        }
    }

    /// A copy of the element, and of its tag if it is a piece. It refuses only where memory is refused.
    pub fn clone(&self) -> Result<TaggedLineElement<T>, OutOfMemory>
    where
        T: Tag,
        ensures same { IfOk result (λ copy. SameElement T.eq (element_of copy) (element_of self.now)) }
        ensures equal { IfOk result (λ copy. ⟦<TaggedLineElement<T> as PartialEq>⟧.eq copy self.now ≡ true) }
    {
        Ok(match self {
            TaggedLineElement::Str(piece) => TaggedLineElement::Str(piece.clone()?),
            TaggedLineElement::FragmentStart(name) => {
                TaggedLineElement::FragmentStart(name.clone()?)
            }
        })
    }
}

/// Whether it is a piece under an equal tag.
pub fn is_under<T: Tag>(element: Option<&TaggedLineElement<T>>, tag: &T) -> bool
    ensures { result ≡ is_piece_under T.eq (option_map element_of (option_copied element.entry)) tag.now }
{
    match element {
        Some(TaggedLineElement::Str(last)) => last.tag == *tag,
        _ => false,
    }
}

/// Appends text to a piece's; a marker stays. Where memory is refused, nothing changes.
pub fn extend<T>(element: &mut TaggedLineElement<T>, text: &str) -> Result<(), OutOfMemory>
    ensures ok { OnOk result (element_of element.new ≡ with_text (element_of element.old) (chars text.now)) }
    ensures err { OnErr result (element_of element.new ≡ element_of element.old) }
{
    if let TaggedLineElement::Str(last) = element {
        last.s.push_str(text)?;
    }
    Ok(())
}

/// Appends a character to a piece's text; a marker stays. Where memory is refused, nothing changes.
pub fn extend_by_char<T>(element: &mut TaggedLineElement<T>, c: char) -> Result<(), OutOfMemory>
    ensures ok { OnOk result (element_of element.new ≡ with_text (element_of element.old) (c ∷ [])) }
    ensures err { OnErr result (element_of element.new ≡ element_of element.old) }
{
    if let TaggedLineElement::Str(last) = element {
        last.s.push(c)?;
    }
    Ok(())
}

/// Appends `count` spaces to a piece's text; a marker stays. Where memory is refused, nothing changes.
pub fn extend_by_spaces<T>(
    element: &mut TaggedLineElement<T>,
    count: usize,
) -> Result<(), OutOfMemory>
    ensures ok { OnOk result (element_of element.new ≡ with_text (element_of element.old) (padding.spaces count)) }
    ensures err { OnErr result (element_of element.new ≡ element_of element.old) }
{
    if let TaggedLineElement::Str(last) = element {
        append_spaces(&mut last.s, count)?;
    }
    Ok(())
}

/// Makes room ahead of time for a piece's text to have `bytes` bytes, if there is enough memory.
pub fn make_room<T>(element: &mut TaggedLineElement<T>, bytes: usize)
    ensures { element_of element.new ≡ element_of element.old }
{
    if let TaggedLineElement::Str(piece) = element {
        let _ = piece.s.reserve(bytes.saturating_sub(piece.s.len()));
    }
}

/// How many bytes an element's text takes, or 0 if there is no element.
pub fn text_len<T>(element: Option<&TaggedLineElement<T>>) -> usize
    ensures { result ≡ last_bytes (option_map element_of (option_copied element.entry)) }
{
    match element {
        Some(element) => element.as_str().len(),
        None => 0,
    }
}

/// Removes what a piece's text has after its first `bytes` bytes; a marker stays.
pub fn cut_text<T>(element: &mut TaggedLineElement<T>, bytes: usize)
    ensures { (e : Element T) (cs : List ℕ) → text_bytes e ≡ bytes → element_of element.old ≡ with_text e cs →
        element_of element.new ≡ e }
{
    if let TaggedLineElement::Str(piece) = element {
        cut(&mut piece.s, bytes);
    }
}

/// A piece of one character under a copy of the tag. It refuses only where memory is refused.
pub fn new_piece<T: Tag>(
    alloc: Global,
    c: char,
    tag: &T,
) -> Result<TaggedLineElement<T>, OutOfMemory>
    ensures { IfOk result (λ e. SameElement T.eq (element_of e) (piece (c ∷ []) tag.now)) }
{
    let mut s = String::new(alloc);
    s.push(c)?;
    let tag = tag.clone()?;
    Ok(TaggedLineElement::Str(TaggedString { s, tag }))
}

/// Puts text in front of a piece's, and answers the text that the piece had. A marker stays, and the answer is the
/// given text. Where memory is refused, nothing changes, and the text is dropped.
pub fn extend_front<T>(
    element: &mut TaggedLineElement<T>,
    mut text: String,
) -> Result<String, OutOfMemory>
    ensures ok { OnOk result (element_of element.new ≡ text_before (chars_of text) (element_of element.old)) }
    ensures restores { IfOk result (λ had.
        with_characters (element_of element.new) (chars_of had) ≡ element_of element.old) }
    ensures err { OnErr result (element_of element.new ≡ element_of element.old) }
{
    if let TaggedLineElement::Str(first) = element {
        text.push_str(first.s.as_str())?;
        return Ok(mem::replace(&mut first.s, text));
    }
    Ok(text)
}

/// Puts text in front of a piece's, in place; a marker stays. Where memory is refused, nothing changes.
pub fn prepend<T>(element: &mut TaggedLineElement<T>, text: &str) -> Result<(), OutOfMemory>
    ensures ok { OnOk result (element_of element.new ≡ text_before (chars text.now) (element_of element.old)) }
    ensures err { OnErr result (element_of element.new ≡ element_of element.old) }
{
    if let TaggedLineElement::Str(piece) = element {
        piece.s.insert_str(0, text)?;
    }
    Ok(())
}

/// Gives a piece another text; a marker stays.
pub fn set_text<T>(element: &mut TaggedLineElement<T>, text: String)
    ensures { element_of element.new ≡ with_characters (element_of element.old) (chars_of text) }
{
    if let TaggedLineElement::Str(piece) = element {
        piece.s = text;
    }
}
