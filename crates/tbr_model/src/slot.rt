//! The items of a run, with what is needed to lay them on lines.
ghost use Rattle.std.specs.Prelude.{◌≡◌, ◌||◌};

use crate::entry::Entry;

/// An item of a run, with what is needed to lay it on a line.
#[derive_where(Clone, Copy)]
pub struct Slot<'a, T> {
    /// The entry that the item is.
    pub entry: &'a Entry<T>,
    /// Its width in columns.
    pub width: usize,
    /// The annotation of the space before it, where it begins a word after a spaced gap.
    pub gap: Option<&'a T>,
    /// Whether it begins a word.
    pub begins: bool,
    /// Whether its word is wider than a line.
    pub wider: bool,
}

impl<T> Slot<'_, T> {
    /// Whether a line may begin here: where a word begins, or inside a word wider than a line.
    pub fn may_begin(&self) -> bool
        ensures { result ≡ (self.now.begins || self.now.wider) }
    {
        self.begins || self.wider
    }
}
