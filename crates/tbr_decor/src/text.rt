//! Texts that decorators answer.
ghost use Rattle.std.specs.Prelude.{◌≡◌, ◌++◌, [], chars, codes, IsTrue, IfOk};
ghost use Rattle.std.specs.List.{list_all};
ghost use Rattle.std.specs.Char.{is_ascii};
ghost use Rattle.std.specs.Fmt.{decimal, signed_decimal};
ghost use Rattle.tbr_tagged.specs.View.{chars_of};
ghost use Rattle.tbr_decor.specs.Plain as plain;

use itoa::Buffer;
use std::alloc::Global;
use tbr_tagged::OutOfMemory;

/// The empty text. It takes no memory.
pub fn empty(alloc: Global) -> String
    ensures { chars_of result ≡ [] }
{
    String::new(alloc)
}

/// A copy of a text. It asks that the text is ASCII, and refuses only where memory is refused.
pub fn ascii(alloc: Global, text: &str) -> Result<String, OutOfMemory>
    requires { IsTrue (list_all is_ascii text.now) }
    ensures { IfOk result (λ t. chars_of t ≡ text.now) }
{
    Ok(String::from_str(alloc, text)?)
}

/// A copy of a text. It refuses only where memory is refused.
pub fn copy(alloc: Global, text: &str) -> Result<String, OutOfMemory>
    ensures { IfOk result (λ t. chars_of t ≡ chars text.now) }
{
    Ok(String::from_str(alloc, text)?)
}

/// `level` times `#`, and a space. It refuses only where memory is refused. A size that no text can have is refused
/// before anything is written.
pub fn header(alloc: Global, level: usize) -> Result<String, OutOfMemory>
    ensures { IfOk result (λ t. chars_of t ≡ plain.header_text level) }
{
    let mut text = "#".repeat(alloc, level)?;
    text.push(' ')?;
    Ok(text)
}

/// A number and `. `. It refuses only where memory is refused.
pub fn ordered_item(alloc: Global, i: i64) -> Result<String, OutOfMemory>
    ensures { IfOk result (λ t. chars_of t ≡ signed_decimal i ++ codes ". ") }
{
    Ok(format!(in alloc; "{i}. ")?)
}

/// A number in square brackets, with room for `room` bytes after it. It refuses only where memory is refused.
pub fn bracketed_number(alloc: Global, number: usize, room: usize) -> Result<String, OutOfMemory>
    ensures { IfOk result (λ t. chars_of t ≡ codes "[" ++ decimal number ++ codes "]") }
{
    let mut buffer = Buffer::new();
    let digits = buffer.format(number);
    let mut text = String::with_capacity(alloc, room.saturating_add(digits.len() + 2))?;
    text.push('[')?;
    text.push_str(digits)?;
    text.push(']')?;
    Ok(text)
}

/// A text in square brackets. It refuses only where memory is refused.
pub fn bracketed(alloc: Global, text: &str) -> Result<String, OutOfMemory>
    ensures { IfOk result (λ t. chars_of t ≡ codes "[" ++ chars text.now ++ codes "]") }
{
    Ok(format!(in alloc; "[{text}]")?)
}
