//! Two texts of a script.
ghost use Rattle.std.specs.Prelude.{◌≡◌, IfOk, string_bytes};
ghost use Rattle.std.specs.Option.{option_map};
ghost use Rattle.tbr_script.specs.Read as read;

use crate::escape::unescape;
use std::alloc::{AllocError, Global};

/// Two texts that one argument gives. Each may be empty.
#[derive(Debug, Drop)]
pub struct TextPair {
    /// The text before the bar.
    pub first: String,
    /// The text after the bar.
    pub second: String,
}

impl TextPair {
    /// The two texts of an argument, split at the first ` | `, with their escapes replaced. `Ok(None)` where ` | ` is
    /// missing, or one of the two has a bad escape. It refuses only where memory is refused.
    pub fn parse(alloc: Global, writing: &str) -> Result<Option<TextPair>, AllocError>
        ensures { IfOk result (λ found.
            option_map (λ texts. (string_bytes texts.first, string_bytes texts.second)) found
            ≡ read.texts_read writing.now) }
    {
        let Some((first, second)) = split_at_bar(writing) else {
            return Ok(None);
        };
        let Some(first) = unescape(alloc, first)? else {
            return Ok(None);
        };
        let Some(second) = unescape(alloc, second)? else {
            return Ok(None);
        };
        Ok(Some(TextPair { first, second }))
    }
}

/// What is before the first ` | ` of a text, and what is after it. `None` where ` | ` is missing.
fn split_at_bar(text: &str) -> Option<(&str, &str)>
    ensures { option_map (λ parts. (parts.0.now, parts.1.now)) result ≡ read.split_at_bar text.now }
{
    text.split_once(" | ")
}
