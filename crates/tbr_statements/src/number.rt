//! Numbers that commands take.
ghost use Rattle.std.specs.Prelude.{◌≡◌, ◌&&◌, nat_le};
ghost use Rattle.tbr_statements.specs.Number as model;

use tbr_script::parse_number;

/// A number that a command takes.
#[derive(Clone, Copy, Debug)]
pub struct Number {
    /// Its name in the form of the command.
    pub name: &'static str,
    /// The least that it may be.
    pub least: usize,
    /// The greatest.
    pub greatest: usize,
}

/// The greatest number of an item.
const GREATEST_ITEM: usize = 0x7fff_ffff_ffff_ffff;

impl Number {
    /// A number from 1 on.
    fn size(name: &'static str) -> Number {
        Number {
            name,
            least: 1,
            greatest: usize::MAX,
        }
    }

    /// A number from 0 on.
    fn up_to(name: &'static str, greatest: usize) -> Number {
        Number {
            name,
            least: 0,
            greatest,
        }
    }

    /// The number that the command of a word takes at a place after it, counted from 0, if it takes one there.
    pub fn of(word: &str, place: usize) -> Option<Number> {
        match (word, place) {
            ("new", 0) => Some(Number::size("W")),
            ("sub", 0) | ("cell", 0) | ("heading", 0) => Some(Number::size("N")),
            ("cell", 1) => Some(Number::size("SPAN")),
            ("cell auto", 0) => Some(Number::size("ROWS")),
            ("cell auto", 1) => Some(Number::size("COLUMNS")),
            ("border", 0) => Some(Number::up_to("N", usize::MAX)),
            ("ordered", 0) => Some(Number::up_to("N", GREATEST_ITEM)),
            ("colour", 0) | ("bg", 0) => Some(Number::up_to("R", 255)),
            ("colour", 1) | ("bg", 1) => Some(Number::up_to("G", 255)),
            ("colour", 2) | ("bg", 2) => Some(Number::up_to("B", 255)),
            _ => None,
        }
    }

    /// The number of the option `wrap=N`.
    pub fn of_wrap() -> Number {
        Number::size("N")
    }

    /// Whether these are digits of such a number.
    pub fn takes(self, digits: &str) -> bool
        ensures { result ≡ model.takes self digits.now }
    {
        match parse_number(digits) {
            Some(number) => self.least <= number && number <= self.greatest,
            None => false,
        }
    }
}
