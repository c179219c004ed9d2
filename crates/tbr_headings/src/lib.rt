//! How long the prefixes of headings are, known before they are made.
#![tactic(auto)]

ghost use Rattle.std.specs.Prelude.{◌≡◌, ◌<◌, ◌^◌, ℕ, length, encode_utf8_all, SomeIff};
ghost use Rattle.tbr_model.specs.Width.{width_of_text};
ghost use Rattle.tbr_decor.specs.Prefix.{header};
ghost use Rattle.tbr_headings.specs.Headings.{marks};

use tbr_decor::{PlainDecorator, RichDecorator, TextDecorator, TrivialDecorator};
use tbr_model::CharWidth;

/// A decorator whose prefix of a heading depends on the level only: that many number signs and a space, or nothing.
pub trait Headings: TextDecorator {
    /// Whether headings are marked with number signs.
    fn are_marked() -> bool
        ensures { (d : Self) → (level : ℕ) → Self.prefix_text d (header level) ≡ marks result level };
}

impl Headings for PlainDecorator {
    fn are_marked() -> bool {
        true
    }
}

impl Headings for TrivialDecorator {
    fn are_marked() -> bool {
        false
    }
}

impl Headings for RichDecorator {
    fn are_marked() -> bool {
        true
    }
}

/// The columns of the prefix of a heading of this level. `None` where they pass `usize`.
pub fn heading_columns<D: Headings, W: CharWidth>(level: usize) -> Option<usize>
    ensures { (d : D) → let columns = width_of_text W.columns (D.prefix_text d (header level)) in
        SomeIff result (columns < 2 ^ 64) columns }
{
    if !D::are_marked() {
        return Some(0);
    }
    let sign = W::width('#').unwrap_or(0);
    let space = W::width(' ').unwrap_or(0);
    match level.checked_mul(sign) {
        Some(signs) => signs.checked_add(space),
        None => None,
    }
}

/// The bytes of the prefix of a heading of this level. `None` where they pass `usize`.
pub fn heading_length<D: Headings>(level: usize) -> Option<usize>
    ensures { (d : D) → let bytes = length (encode_utf8_all (D.prefix_text d (header level))) in
        SomeIff result (bytes < 2 ^ 64) bytes }
{
    if !D::are_marked() {
        return Some(0);
    }
    level.checked_add(1)
}
