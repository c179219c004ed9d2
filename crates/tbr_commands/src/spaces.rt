//! Where a text has its first space.
ghost use Rattle.std.specs.Prelude.{◌≡◌, ◌≢◌, ◌<◌, ℕ, None, length, slice_index, IfSome};
ghost use Rattle.std.specs.Option.{option_map};
ghost use Rattle.tbr_model.specs.Codes.{space_character};
ghost use Rattle.tbr_commands.specs.Read as read;

/// What is before the first space of a text, and what is after it. `None` where the text has no space.
pub fn split_at_space(text: &str) -> Option<(&str, &str)>
    ensures { option_map (λ parts. (parts.0.now, parts.1.now)) result ≡ read.split_at_space text.now }
{
    let at = first_space(text.as_bytes())?;
    Some((&text[..at], &text[at + 1..]))
}

/// Where the first space is. The first word of a line is usually short, so bytes are looked at one by one.
fn first_space(bytes: &[u8]) -> Option<usize>
    ensures none { result ≡ None → (i : ℕ) → i < length bytes.now → slice_index bytes.now i ≢ space_character }
    ensures some { IfSome result (λ at. (at < length bytes.now) × (slice_index bytes.now at ≡ space_character)
        × ((i : ℕ) → i < at → slice_index bytes.now i ≢ space_character)) }
{
    let mut at = 0;
    while at < bytes.len() {
        if bytes[at] == b' ' {
            return Some(at);
        }
        at += 1;
    }
    None
}
