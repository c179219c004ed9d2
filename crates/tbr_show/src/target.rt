//! Targets of links.
ghost use Rattle.std.specs.Prelude.{◌≡◌, ◌++◌, OnOk};
ghost use Rattle.tbr_tagged.specs.View.{chars_of};
ghost use Rattle.tbr_show.specs.Target.{encoded, is_followed};

use percent_encoding::{AsciiSet, CONTROLS, ascii_set, utf8_percent_encode};
use tbr_tagged::OutOfMemory;

/// The ASCII characters that a URL may not have. Characters beyond ASCII aren't allowed either.
pub const NOT_OF_URLS: AsciiSet = ascii_set!(
    CONTROLS
        .add(b' ')
        .add(b'"')
        .add(b'<')
        .add(b'>')
        .add(b'\\')
        .add(b'^')
        .add(b'`')
        .add(b'{')
        .add(b'|')
        .add(b'}')
);

/// Appends a target. Each byte that a URL may not have becomes `%` and two hexadecimal digits. What is encoded already
/// stays. It refuses only where memory is refused.
pub fn push_target(text: &mut String, target: &str) -> Result<(), OutOfMemory>
    ensures { OnOk result (chars_of text.new ≡ chars_of text.old ++ encoded target.now) }
{
    utf8_percent_encode(target, NOT_OF_URLS).append_to(text)?;
    Ok(())
}

/// Whether a link to a target leads there: the target has no scheme, or `http`, `https`, `mailto` or `ftp`.
pub fn is_followed(target: &str) -> bool
    ensures { result ≡ is_followed target.now }
{
    let bytes = target.as_bytes();
    !bytes.contains(&b':')
        || bytes.starts_with(b"http://")
        || bytes.starts_with(b"https://")
        || bytes.starts_with(b"mailto:")
        || bytes.starts_with(b"ftp://")
}
