//! White space.
ghost use Rattle.std.specs.Prelude.{◌≡◌, ℕ, ◌++◌, List, length, encode_utf8_all, string_bytes, IfOk, OnOk, OnErr};
ghost use Rattle.tbr_model.specs.Run as model;
ghost use Rattle.tbr_tagged.specs.Padding as padding;
ghost use Rattle.tbr_tagged.specs.View.{chars_of};

use crate::error::OutOfMemory;
use std::alloc::Global;

/// The last character that is white space.
const LAST_SPACE: char = '\u{3000}';

/// The spaces that are appended at once.
const SPACES: &str = "                                ";

/// Whether a character takes space wherever it is: it isn't white space, or it is U+00A0.
pub fn always_takes_space(c: char) -> bool
    ensures { result ≡ model.always_takes_space c }
{
    !c.is_whitespace() || c == '\u{a0}'
}

/// Whether a word may end before a character: it is U+200B, or white space other than U+00A0.
pub fn is_wordbreak_point(c: char) -> bool
    ensures { result ≡ model.is_break c }
{
    c <= LAST_SPACE && (c == '\u{200b}' || (c.is_whitespace() && c != '\u{a0}'))
}

/// Removes what a text has after its first characters, which are `bytes` bytes.
pub fn cut(text: &mut String, bytes: usize)
    ensures { (cs ds : List ℕ) → length (encode_utf8_all cs) ≡ bytes → chars_of text.old ≡ cs ++ ds →
        chars_of text.new ≡ cs }
{
    if text.is_char_boundary(bytes) {
        text.truncate(bytes);
    }
}

/// A text of `count` spaces. It refuses only where memory is refused.
pub fn spaces(alloc: Global, count: usize) -> Result<String, OutOfMemory>
    ensures { IfOk result (λ s. chars_of s ≡ padding.spaces count) }
{
    let mut s = String::with_capacity(alloc, count)?;
    append_spaces(&mut s, count)?;
    Ok(s)
}

/// Appends `count` spaces to a text. Where memory is refused, the text stays as it was.
pub fn append_spaces(text: &mut String, count: usize) -> Result<(), OutOfMemory>
    ensures ok { OnOk result (string_bytes text.new ≡ string_bytes text.old ++ padding.spaces count) }
    ensures err { OnErr result (string_bytes text.new ≡ string_bytes text.old) }
{
    text.reserve(count)?;
    let mut left = count;
    while left > 0 {
        let some = left.min(SPACES.len());
        text.push_str(&SPACES[..some])?;
        left -= some;
    }
    Ok(())
}
