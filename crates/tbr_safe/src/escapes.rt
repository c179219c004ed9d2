//! Control characters as `%` and hexadecimal digits.
ghost use Rattle.std.specs.Prelude.{◌≡◌, ◌++◌, ◌∷◌, [], true, chars, map, string_bytes, IfOk, OnOk};
ghost use Rattle.std.specs.List.{list_any};
ghost use Rattle.std.specs.Char.{is_control};
ghost use Rattle.tbr_tagged.specs.View.{chars_of};
ghost use Rattle.tbr_safe.specs.Escaped.{escaped_character, escaped, escaped_bytes};

use percent_encoding::{CONTROLS, utf8_percent_encode};
use std::alloc::Global;
use tbr_tagged::OutOfMemory;

/// A copy of a text with its control characters escaped: each byte of their UTF-8 becomes `%` and two hexadecimal
/// digits. So U+001B becomes `%1B`, a newline `%0A`, and U+009B `%C2%9B`. It refuses only where memory is refused.
pub fn escape(alloc: Global, text: &str) -> Result<String, OutOfMemory>
    ensures bytes { IfOk result (λ safe. string_bytes safe ≡ escaped_bytes text.now) }
    ensures characters { IfOk result (λ safe. chars_of safe ≡ escaped (chars text.now)) }
{
    let mut safe = String::new(alloc);
    push_escaped(&mut safe, text)?;
    Ok(safe)
}

/// These texts with their control characters escaped, in order. A text without control characters stays as it is, and
/// takes no memory.
pub fn escape_all(texts: Vec<String>) -> Result<Vec<String>, OutOfMemory>
    ensures { IfOk result (λ safe. map chars_of safe.items ≡ map escaped (map chars_of texts.items)) }
{
    let alloc = *texts.allocator();
    let mut safe = Vec::with_capacity(alloc, texts.len())?;
    for text in texts {
        safe.push(escape_one(alloc, text)?)?;
    }
    Ok(safe)
}

/// A text with its control characters escaped.
fn escape_one(alloc: Global, text: String) -> Result<String, OutOfMemory>
    ensures { IfOk result (λ safe. chars_of safe ≡ escaped (chars_of text)) }
{
    if has_control(text.as_str()) {
        escape(alloc, text.as_str())
    } else {
        Ok(text)
    }
}

/// Whether a text has a control character.
fn has_control(text: &str) -> bool
    ensures { result ≡ list_any is_control (chars text.now) }
{
    text.chars().any(|c| c.is_control())
}

/// Appends the characters of a text, control characters escaped. If memory is refused, part of them may have been
/// appended.
fn push_escaped(safe: &mut String, text: &str) -> Result<(), OutOfMemory>
    ensures { OnOk result (chars_of safe.new ≡ chars_of safe.old ++ escaped (chars text.now)) }
{
    for c in text.chars() {
        push_character(safe, c)?;
    }
    Ok(())
}

/// Appends a character, escaped if it is a control character.
fn push_character(safe: &mut String, c: char) -> Result<(), OutOfMemory>
    ensures { OnOk result (chars_of safe.new ≡ chars_of safe.old ++ escaped_character c) }
{
    if c.is_control() {
        push_percent(safe, c)
    } else {
        push_char(safe, c)
    }
}

/// Appends a character as it is.
fn push_char(safe: &mut String, c: char) -> Result<(), OutOfMemory>
    ensures { OnOk result (chars_of safe.new ≡ chars_of safe.old ++ c ∷ []) }
{
    safe.push(c)?;
    Ok(())
}

/// Appends a control character as the bytes of its UTF-8 in hexadecimal digits.
fn push_percent(safe: &mut String, c: char) -> Result<(), OutOfMemory>
    requires { is_control c ≡ true }
    ensures { OnOk result (chars_of safe.new ≡ chars_of safe.old ++ escaped_character c) }
{
    let mut bytes = [0u8; 4];
    utf8_percent_encode(c.encode_utf8(&mut bytes), CONTROLS).append_to(safe)?;
    Ok(())
}
