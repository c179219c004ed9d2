//! Lists of pieces and markers.
ghost use Rattle.std.specs.Prelude.{◌≡◌, ℕ, ◌++◌, ◌∷◌, [], Some, List, chars, length, IfOk, OnOk, OnErr};
ghost use Rattle.tbr_tagged.specs.Elements.{Element, last_of, line_width, characters, SameElements};
ghost use Rattle.tbr_tagged.specs.Elements as model;
ghost use Rattle.tbr_tagged.specs.Grown.{HasGrown, last_bytes};
ghost use Rattle.tbr_tagged.specs.Mapped.{MapsElements};
ghost use Rattle.tbr_tagged.specs.Padding as padding;
ghost use Rattle.tbr_tagged.specs.Restored.{restored};
ghost use Rattle.tbr_tagged.specs.Sums.{GivesSum};
ghost use Rattle.tbr_tagged.specs.View.{chars_of, elements_of};

use crate::element::{
    TaggedLineElement, cut_text, extend, extend_by_char, extend_by_spaces, extend_front, prepend,
    set_text,
};
use crate::error::OutOfMemory;
use crate::width::text_width;
use tbr_model::CharWidth;
use tbr_tags::Tag;

/// Whether a piece is among them.
pub fn has_piece<T>(elements: &[TaggedLineElement<T>]) -> bool
    ensures { result ≡ model.has_piece (elements_of elements.now) }
{
    for element in elements {
        if let TaggedLineElement::Str(_) = element {
            return true;
        }
    }
    false
}

/// The columns that their texts take. It takes no memory, and refuses exactly where the sum passes `usize`.
pub fn width_of<T, W: CharWidth>(elements: &[TaggedLineElement<T>]) -> Result<usize, OutOfMemory>
    ensures { GivesSum result (line_width W.columns (elements_of elements.now)) }
{
    let mut width = 0usize;
    for element in elements {
        if let TaggedLineElement::Str(piece) = element {
            let more = text_width::<W>(piece.s.as_str())?;
            let Some(sum) = width.checked_add(more) else {
                return Err(OutOfMemory);
            };
            width = sum;
        }
    }
    Ok(width)
}

/// Appends their characters, without tags and markers, to `text`. Where memory is refused, part of them may have been
/// appended.
pub fn append_text<T>(
    text: &mut String,
    elements: &[TaggedLineElement<T>],
) -> Result<(), OutOfMemory>
    ensures { OnOk result (chars_of text.new ≡ chars_of text.old ++ characters (elements_of elements.now)) }
{
    for element in elements {
        if let TaggedLineElement::Str(piece) = element {
            text.push_str(piece.s.as_str())?;
        }
    }
    Ok(())
}

/// Appends text to the last element, if that is a piece. Where memory is refused, nothing changes.
pub fn extend_last<T>(
    elements: &mut Vec<TaggedLineElement<T>>,
    text: &str,
) -> Result<(), OutOfMemory>
    ensures ok { OnOk result
        (elements_of elements.new.items ≡ model.extend_last (elements_of elements.old.items) (chars text.now)) }
    ensures err { OnErr result (elements_of elements.new.items ≡ elements_of elements.old.items) }
{
    if elements.is_empty() {
        return Ok(());
    }
    let end = elements.len() - 1;
    extend(&mut elements[end], text)
}

/// Appends a character to the last element, if that is a piece. Where memory is refused, nothing changes.
pub fn extend_last_by_char<T>(
    elements: &mut Vec<TaggedLineElement<T>>,
    c: char,
) -> Result<(), OutOfMemory>
    ensures ok { OnOk result
        (elements_of elements.new.items ≡ model.extend_last (elements_of elements.old.items) (c ∷ [])) }
    ensures err { OnErr result (elements_of elements.new.items ≡ elements_of elements.old.items) }
{
    if elements.is_empty() {
        return Ok(());
    }
    let end = elements.len() - 1;
    extend_by_char(&mut elements[end], c)
}

/// Appends spaces to the last element, if that is a piece. Where memory is refused, nothing changes.
pub fn extend_last_by_spaces<T>(
    elements: &mut Vec<TaggedLineElement<T>>,
    count: usize,
) -> Result<(), OutOfMemory>
    ensures ok { OnOk result
        (elements_of elements.new.items ≡ model.extend_last (elements_of elements.old.items) (padding.spaces count)) }
    ensures err { OnErr result (elements_of elements.new.items ≡ elements_of elements.old.items) }
{
    if elements.is_empty() {
        return Ok(());
    }
    let end = elements.len() - 1;
    extend_by_spaces(&mut elements[end], count)
}

/// Puts text in front of the first element's, in place, if it is a piece. Where memory is refused, nothing changes.
pub fn prepend_first<T>(
    elements: &mut Vec<TaggedLineElement<T>>,
    text: &str,
) -> Result<(), OutOfMemory>
    ensures ok { OnOk result
        (elements_of elements.new.items ≡ model.extend_first (chars text.now) (elements_of elements.old.items)) }
    ensures err { OnErr result (elements_of elements.new.items ≡ elements_of elements.old.items) }
{
    if elements.is_empty() {
        return Ok(());
    }
    prepend(&mut elements[0], text)
}

/// Puts text in front of the first element's, if that is a piece. It answers the text that the piece had. Where memory
/// is refused, nothing changes, and the text is dropped.
pub fn extend_first<T>(
    elements: &mut Vec<TaggedLineElement<T>>,
    text: String,
) -> Result<String, OutOfMemory>
    ensures ok { OnOk result
        (elements_of elements.new.items ≡ model.extend_first (chars_of text) (elements_of elements.old.items)) }
    ensures restores { IfOk result (λ had.
        restored (elements_of elements.new.items) (Some (chars_of had)) ≡ elements_of elements.old.items) }
    ensures err { OnErr result (elements_of elements.new.items ≡ elements_of elements.old.items) }
{
    if elements.is_empty() {
        return Ok(text);
    }
    extend_front(&mut elements[0], text)
}

/// Gives the first element another text, if that is a piece.
pub fn set_first_text<T>(elements: &mut Vec<TaggedLineElement<T>>, text: String)
    ensures { elements_of elements.new.items ≡ restored (elements_of elements.old.items) (Some (chars_of text)) }
{
    if !elements.is_empty() {
        set_text(&mut elements[0], text);
    }
}

/// Removes all elements after the first `count`, and what the last of these has after its first `bytes` bytes.
pub fn cut_back<T: Drop>(elements: &mut Vec<TaggedLineElement<T>>, count: usize, bytes: usize)
    ensures { (es : List (Element T)) → length es ≡ count → last_bytes (last_of es) ≡ bytes →
        HasGrown es (elements_of elements.old.items) → elements_of elements.new.items ≡ es }
{
    elements.truncate(count);
    if elements.is_empty() {
        return;
    }
    let end = elements.len() - 1;
    cut_text(&mut elements[end], bytes);
}

/// The elements with each tag replaced by what `f` makes of it. It refuses only where memory is refused.
pub fn map_tag<T: Drop, U: Drop, F: Fn(T) -> U>(
    elements: Vec<TaggedLineElement<T>>,
    f: &F,
) -> Result<Vec<TaggedLineElement<U>>, OutOfMemory>
    requires { F.IsAlwaysCallable f.now }
    ensures { IfOk result (λ mapped.
        MapsElements (F.post f.now) (elements_of elements.items) (elements_of mapped.items)) }
{
    let mut mapped = Vec::with_capacity(*elements.allocator(), elements.len())?;
    for element in elements {
        mapped.push(element.map_tag(f))?;
    }
    Ok(mapped)
}

/// Copies of the elements, each piece under a copy of its tag. It refuses only where memory is refused.
pub fn clone<T: Tag>(
    elements: &Vec<TaggedLineElement<T>>,
) -> Result<Vec<TaggedLineElement<T>>, OutOfMemory>
    ensures { IfOk result (λ copy. SameElements T.eq (elements_of copy.items) (elements_of elements.now.items)) }
{
    let mut copy = Vec::with_capacity(*elements.allocator(), elements.len())?;
    for element in elements {
        copy.push(element.clone()?)?;
    }
    Ok(copy)
}
