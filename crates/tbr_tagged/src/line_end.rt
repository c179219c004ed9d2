//! Where lines end.

/// Where a line ends, as [`end`](crate::TaggedLine::end) answers it. [`cut_back`](crate::TaggedLine::cut_back) removes
/// what was added after that.
#[derive(Clone, Copy, PartialEq, Eq, Debug)]
pub struct LineEnd {
    /// How many elements the line has.
    pub elements: usize,
    /// How many bytes the text of the last one takes.
    pub bytes: usize,
}
