//! The parts of a document for which a decorator has a prefix.

/// The parts of a document for which a decorator has a prefix.
#[derive(Clone, Copy, Debug, PartialEq, Eq)]
pub enum DecoratorPrefix {
    /// Each line of a header of a level.
    Header(usize),
    /// Each line of a quoted block.
    Quote,
    /// An item of a list.
    Item,
    /// The item of a list that has this number.
    OrderedItem(i64),
}
