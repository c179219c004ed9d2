//! Lines of a script.
ghost use Rattle.std.specs.Prelude.{◌≡◌, ◌<◌, ◌∷◌, [], length, IfErr, IfSome, MatchOption, IsUtf8};
ghost use Rattle.tbr_script.specs.Script.{lines_of};
ghost use Rattle.tbr_script.specs.Lines.{bytes_of};

use memchr::memchr;
use simdutf8::basic::from_utf8;
use std::marker::Model;

/// What is left of a script, line by line. A script in UTF-8 is tested for that once, and any other line by line.
#[derive(Drop)]
pub struct Lines<'a> {
    rest: Rest<'a>,
}

/// What is left of a script, and whether it is known to be UTF-8.
#[derive(Clone, Copy)]
enum Rest<'a> {
    Text(&'a str),
    Bytes(&'a [u8]),
}

impl<'a> Model for Lines<'a> {
    ghost use Rattle.std.specs.Prelude.{ℕ, List};
    ghost use Rattle.tbr_script.specs.Lines.{left};

    ghost Value = { List ℕ };

    ghost view = { λ lines. left lines.rest };
}

impl<'a> Lines<'a> {
    /// The lines of a script.
    pub fn of(script: &'a [u8]) -> Lines<'a>
        ensures { result ≡ script.now }
    {
        match from_utf8(script) {
            Ok(text) => Lines {
                rest: Rest::Text(text),
            },
            Err(_) => Lines {
                rest: Rest::Bytes(script),
            },
        }
    }

    /// Takes the next line, if there is one, without its newline. A line that isn't UTF-8 is its bytes.
    pub fn next(&mut self) -> Option<Result<&'a str, &'a [u8]>>
        ensures line { MatchOption result ((self.old ≡ []) × (self.new ≡ []))
            (λ line. lines_of self.old ≡ bytes_of line ∷ lines_of self.new) }
        ensures broken { IfSome result (λ line. IfErr line (λ bytes. ¬ (IsUtf8 bytes.now))) }
        ensures shorter { IfSome result (λ _. length self.new < length self.old) }
    {
        match self.rest {
            Rest::Text(text) => {
                let (line, after) = first_of_text(text)?;
                self.rest = Rest::Text(after);
                Some(Ok(line))
            }
            Rest::Bytes(bytes) => {
                let (line, after) = first_of_bytes(bytes)?;
                self.rest = Rest::Bytes(after);
                Some(tested(line))
            }
        }
    }
}

/// The first line of a text, without its newline, and what follows it. `None` where the text is empty.
fn first_of_text(text: &str) -> Option<(&str, &str)>
    ensures line { MatchOption result (text.now ≡ []) (λ r. lines_of text.now ≡ r.0.now ∷ lines_of r.1.now) }
    ensures shorter { IfSome result (λ r. length r.1.now < length text.now) }
{
    if text.is_empty() {
        return None;
    }
    match memchr(b'\n', text.as_bytes()) {
        Some(end) => Some((&text[..end], &text[end + 1..])),
        None => Some((text, "")),
    }
}

/// The same of bytes.
fn first_of_bytes(bytes: &[u8]) -> Option<(&[u8], &[u8])>
    ensures line { MatchOption result (bytes.now ≡ []) (λ r. lines_of bytes.now ≡ r.0.now ∷ lines_of r.1.now) }
    ensures shorter { IfSome result (λ r. length r.1.now < length bytes.now) }
{
    if bytes.is_empty() {
        return None;
    }
    match memchr(b'\n', bytes) {
        Some(end) => Some((&bytes[..end], &bytes[end + 1..])),
        None => Some((bytes, &[])),
    }
}

/// A line as a text, or its bytes where it is none.
fn tested(line: &[u8]) -> Result<&str, &[u8]>
    ensures line { bytes_of result ≡ line.now }
    ensures broken { IfErr result (λ bytes. ¬ (IsUtf8 bytes.now)) }
{
    match from_utf8(line) {
        Ok(text) => Ok(text),
        Err(_) => Err(line),
    }
}
