//! The entries of a run.
ghost use Rattle.std.specs.Prelude.{◌≡◌, [], ◌∷◌, if◌then◌else◌, option_copied};
ghost use Rattle.tbr_model.specs.Run as run;
ghost use Rattle.tbr_model.specs.Run.{item_width, items_of, blank_of, is_break_entry};
ghost use Rattle.tbr_model.specs.Regions as regions;
ghost use Rattle.tbr_model.specs.Entry.{entry_value, item_of, is_glyph};

use crate::white_space::WhiteSpace;
use crate::width::CharWidth;

/// An entry of a run: a character or a marker.
#[derive(Drop)]
pub enum Entry<T> {
    /// A character with its main annotation, the one for where its hard line continues, and its mode.
    Character {
        c: char,
        tag: T,
        wrap_tag: T,
        mode: WhiteSpace,
    },
    /// A marker by its name.
    Marker {
        name: String,
    },
}

impl<T> Entry<T> {
    /// The annotation of white space other than U+00A0. `None` for any other entry.
    pub fn blank(&self) -> Option<&T>
        ensures { option_copied result ≡ blank_of (entry_value self.now) }
    {
        match self {
            Entry::Character { c, tag, .. } => { if is_blank(*c) { Some(tag) } else { None } }
            Entry::Marker { .. } => None,
        }
    }

    /// Whether it is a break point: U+200B, or white space other than U+00A0.
    pub fn is_break(&self) -> bool
        ensures { result ≡ is_break_entry (entry_value self.now) }
    {
        match self {
            Entry::Character { c, .. } => is_break(*c),
            Entry::Marker { .. } => false,
        }
    }

    /// Whether it is a kept character, or a marker, and so an item of its word.
    pub fn is_item<W: CharWidth>(&self) -> bool
        ensures { items_of W.columns (entry_value self.now)
            ≡ (if result then item_of (entry_value self.now) ∷ [] else []) }
    {
        match self {
            Entry::Character { c, .. } => W::width(*c).is_some() && !is_break(*c),
            Entry::Marker { .. } => true,
        }
    }

    /// Its columns. A marker, or a character without a width, takes none.
    pub fn width<W: CharWidth>(&self) -> usize
        ensures { result ≡ item_width W.columns (item_of (entry_value self.now)) }
    {
        match self {
            Entry::Character { c, .. } => W::width(*c).unwrap_or(0),
            Entry::Marker { .. } => 0,
        }
    }

    /// Whether it is a character, and not a marker.
    pub fn is_character(&self) -> bool
        ensures { result ≡ is_glyph (item_of (entry_value self.now)) }
    {
        matches!(self, Entry::Character { .. })
    }

    /// Whether it is a kept character of positive width.
    pub fn takes_columns<W: CharWidth>(&self) -> bool
        ensures { result ≡ regions.takes_columns W.columns (entry_value self.now) }
    {
        match self {
            Entry::Character { c, .. } => {
                !is_break(*c) && W::width(*c).is_some_and(|taken| taken > 0)
            }
            Entry::Marker { .. } => false,
        }
    }
}

/// Whether a character is white space other than U+00A0.
fn is_blank(c: char) -> bool
    ensures { result ≡ run.is_blank c }
{
    c.is_whitespace() && c != '\u{a0}'
}

/// Whether a character is U+200B, or white space other than U+00A0.
fn is_break(c: char) -> bool
    ensures { result ≡ run.is_break c }
{
    c == '\u{200b}' || is_blank(c)
}
