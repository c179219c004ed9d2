//! Colours.

/// A colour by its red, green and blue parts, each from 0 for none to 255 for all of it.
#[derive(Clone, Copy, PartialEq, Eq, Debug)]
pub struct Colour {
    /// The red part.
    pub r: u8,
    /// The green part.
    pub g: u8,
    /// The blue part.
    pub b: u8,
}
