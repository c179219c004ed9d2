//! Text in front of a line's elements and after them.
ghost use Rattle.std.specs.Prelude.{◌≡◌, ◌<◌, ◌∷◌, ◌⊎◌, [], false, chars, length, string_len, IfOk, OnOk, OnErr};
ghost use Rattle.std.specs.List.{slice_get};
ghost use Rattle.std.specs.Option.{option_map};
ghost use Rattle.tbr_tagged.specs.Elements.{is_piece_under, push_text, insert_text, SameElements};
ghost use Rattle.tbr_tagged.specs.Restored.{restored};
ghost use Rattle.tbr_tagged.specs.Stored.{stored};
ghost use Rattle.tbr_tagged.specs.View.{chars_of, elements_of};

use crate::element::{TaggedLineElement, TaggedString, new_piece};
use crate::element_list::ElementList;
use crate::error::OutOfMemory;
use tbr_tags::Tag;

/// The room that a copied text gets beyond its own bytes. A prefix or padding then usually needs no more memory.
const SPARE_ROOM: usize = 24;

/// Appends text that isn't empty. Where memory is refused, nothing changes, and the text is dropped.
pub fn push_piece<T: Tag>(
    elements: &mut ElementList<T>,
    ts: TaggedString<T>,
) -> Result<(), OutOfMemory>
    requires { 0 < string_len ts.s }
    ensures ok { OnOk result (elements_of (stored elements.new)
        ≡ push_text T.eq (elements_of (stored elements.old)) (chars_of ts.s) ts.tag) }
    ensures err { OnErr result (elements_of (stored elements.new) ≡ elements_of (stored elements.old)) }
{
    if elements.ends_under(&ts.tag) {
        return elements.extend_last(ts.s.as_str());
    }
    elements.push(TaggedLineElement::Str(ts))
}

/// Appends a copy of a text that isn't empty. Where it begins a piece, that has room for a prefix or padding. Where
/// memory is refused, nothing changes.
pub fn push_copy<T: Tag>(
    elements: &mut ElementList<T>,
    text: &str,
    tag: T,
) -> Result<(), OutOfMemory>
    requires { 0 < length text.now }
    ensures ok { OnOk result (elements_of (stored elements.new)
        ≡ push_text T.eq (elements_of (stored elements.old)) (chars text.now) tag) }
    ensures err { OnErr result (elements_of (stored elements.new) ≡ elements_of (stored elements.old)) }
{
    if elements.ends_under(&tag) {
        return elements.extend_last(text);
    }
    let room = text.len().saturating_add(SPARE_ROOM);
    let mut s = String::with_capacity(elements.allocator(), room)?;
    s.push_str(text)?;
    elements.push(TaggedLineElement::Str(TaggedString { s, tag }))
}

/// Appends a character under a tag, of which a new piece gets a copy. Where memory is refused, nothing changes.
pub fn push_glyph<T: Tag>(
    elements: &mut ElementList<T>,
    c: char,
    tag: &T,
) -> Result<(), OutOfMemory>
    ensures ok { OnOk result (SameElements T.eq (elements_of (stored elements.new))
        (push_text T.eq (elements_of (stored elements.old)) (c ∷ []) tag.now)) }
    ensures err { OnErr result (elements_of (stored elements.new) ≡ elements_of (stored elements.old)) }
{
    if elements.ends_under(tag) {
        return elements.extend_last_by_char(c);
    }
    let piece = new_piece(elements.allocator(), c, tag)?;
    elements.push(piece)
}

/// Puts text in front. If that extends the first piece, it answers the text that the piece had before. Where memory is
/// refused, nothing changes, and the text is dropped.
pub fn put_in_front<T: Tag>(
    elements: &mut ElementList<T>,
    ts: TaggedString<T>,
) -> Result<Option<String>, OutOfMemory>
    ensures ok { OnOk result (elements_of (stored elements.new)
        ≡ insert_text T.eq (elements_of (stored elements.old)) (chars_of ts.s) ts.tag) }
    ensures restores { IfOk result (λ text. restored (elements_of (stored elements.new)) (option_map chars_of text)
        ≡ elements_of (stored elements.old)) }
    ensures err { OnErr result (elements_of (stored elements.new) ≡ elements_of (stored elements.old)) }
{
    if elements.begins_under(&ts.tag) {
        let text = elements.extend_first(ts.s)?;
        return Ok(Some(text));
    }
    elements.insert_front(TaggedLineElement::Str(ts))?;
    Ok(None)
}

/// Puts text in front, which extends the first piece where that is under an equal tag. Where memory is refused, nothing
/// changes, and the text is dropped. The empty text takes no memory if it extends that piece, or if there is no
/// element.
pub fn put_text_in_front<T: Tag>(
    elements: &mut ElementList<T>,
    ts: TaggedString<T>,
) -> Result<(), OutOfMemory>
    ensures ok { OnOk result (elements_of (stored elements.new)
        ≡ insert_text T.eq (elements_of (stored elements.old)) (chars_of ts.s) ts.tag) }
    ensures err { OnErr result (elements_of (stored elements.new) ≡ elements_of (stored elements.old)) }
    ensures some { OnErr result (0 < string_len ts.s ⊎ (0 < length (elements_of (stored elements.old)))
        × (is_piece_under T.eq (slice_get (elements_of (stored elements.old)) 0) ts.tag ≡ false)) }
{
    if ts.s.is_empty() {
        return put_none_in_front(elements, ts.tag);
    }
    put_in_front(elements, ts)?;
    Ok(())
}

/// Puts text in front, which extends the first piece where that is under an equal tag. Where memory is refused, nothing
/// changes. The empty text takes no memory if it extends that piece, or if there is no element.
pub fn put_str_in_front<T: Tag>(
    elements: &mut ElementList<T>,
    text: &str,
    tag: T,
) -> Result<(), OutOfMemory>
    ensures ok { OnOk result (elements_of (stored elements.new)
        ≡ insert_text T.eq (elements_of (stored elements.old)) (chars text.now) tag) }
    ensures err { OnErr result (elements_of (stored elements.new) ≡ elements_of (stored elements.old)) }
    ensures some { OnErr result (0 < length text.now ⊎ (0 < length (elements_of (stored elements.old)))
        × (is_piece_under T.eq (slice_get (elements_of (stored elements.old)) 0) tag ≡ false)) }
{
    if text.is_empty() {
        return put_none_in_front(elements, tag);
    }
    if elements.begins_under(&tag) {
        return elements.prepend_first(text);
    }
    let s = String::from_str(elements.allocator(), text)?;
    elements.insert_front(TaggedLineElement::Str(TaggedString { s, tag }))
}

/// Puts the empty text in front, unless it extends the first piece. Where memory is refused, nothing changes. If there
/// is no element, it takes no memory.
fn put_none_in_front<T: Tag>(elements: &mut ElementList<T>, tag: T) -> Result<(), OutOfMemory>
    ensures ok { OnOk result (elements_of (stored elements.new)
        ≡ insert_text T.eq (elements_of (stored elements.old)) [] tag) }
    ensures err { OnErr result (elements_of (stored elements.new) ≡ elements_of (stored elements.old)) }
    ensures some { OnErr result ((0 < length (elements_of (stored elements.old)))
        × (is_piece_under T.eq (slice_get (elements_of (stored elements.old)) 0) tag ≡ false)) }
{
    if elements.begins_under(&tag) {
        return Ok(());
    }
    let s = String::new(elements.allocator());
    elements.insert_front(TaggedLineElement::Str(TaggedString { s, tag }))
}

/// Undoes [`put_in_front`], which answered `text`.
pub fn take_from_front<T: Drop>(elements: &mut ElementList<T>, text: Option<String>)
    ensures { elements_of (stored elements.new)
        ≡ restored (elements_of (stored elements.old)) (option_map chars_of text) }
{
    match text {
        Some(text) => elements.set_first_text(text),
        None => elements.remove_front(),
    }
}
