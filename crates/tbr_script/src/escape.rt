//! Texts of a script.
ghost use Rattle.std.specs.Prelude.{◌≡◌, ◌<◌, ◌≤◌, ◌++◌, None, Some, length, IfOk, IfSome, string_bytes};
ghost use Rattle.std.specs.Option.{option_map, option_and_then};
ghost use Rattle.tbr_script.specs.Read.{in_escape, at_brace, with_character, read_from, text_read};

use crate::number::character;
use memchr::memchr;
use std::alloc::{AllocError, Global};

/// The text with its escapes replaced. `Ok(None)` where a backslash doesn't begin an escape. It refuses only where
/// memory is refused.
pub fn unescape(alloc: Global, writing: &str) -> Result<Option<String>, AllocError>
    ensures { IfOk result (λ found. option_map string_bytes found ≡ text_read writing.now) }
{
    let mut text = String::with_capacity(alloc, writing.len())?;
    let mut rest = writing;
    while let Some((before, after)) = split_at_escape(rest) {
        let Some((c, later)) = escape(after) else {
            return Ok(None);
        };
        text.push_str(before)?;
        text.push(c)?;
        rest = later;
    }
    text.push_str(rest)?;
    Ok(Some(text))
}

/// What comes before the first backslash, and what comes after it.
fn split_at_escape(writing: &str) -> Option<(&str, &str)>
    ensures none { result ≡ None → text_read writing.now ≡ Some writing.now }
    ensures text { IfSome result (λ r. text_read writing.now
        ≡ option_map (λ more. r.0.now ++ more) (read_from in_escape r.1.now)) }
    ensures shorter { IfSome result (λ r. length r.1.now < length writing.now) }
{
    let at = memchr(b'\\', writing.as_bytes())?;
    Some((&writing[..at], &writing[at + 1..]))
}

/// The character of the escape that begins after a backslash, and what follows the escape.
fn escape(after: &str) -> Option<(char, &str)>
    ensures text { option_and_then (λ r. with_character r.0 (text_read r.1.now)) result
        ≡ read_from in_escape after.now }
    ensures shorter { IfSome result (λ r. length r.1.now ≤ length after.now) }
{
    let mut rest = after.chars();
    match rest.next()? {
        'n' => Some(('\n', rest.as_str())),
        't' => Some(('\t', rest.as_str())),
        '\\' => Some(('\\', rest.as_str())),
        'u' => named(rest.as_str()),
        _ => None,
    }
}

/// The character that digits in braces name, and what follows the braces.
fn named(after: &str) -> Option<(char, &str)>
    ensures text { option_and_then (λ r. with_character r.0 (text_read r.1.now)) result
        ≡ read_from at_brace after.now }
    ensures shorter { IfSome result (λ r. length r.1.now ≤ length after.now) }
{
    let (digits, rest) = after.strip_prefix('{')?.split_once('}')?;
    Some((character(digits)?, rest))
}
