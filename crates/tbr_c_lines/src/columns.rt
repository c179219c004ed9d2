//! How wide texts are.
ghost use Rattle.std.specs.Prelude.{◌≡◌, ◌<◌, ◌-◌, ◌^◌, Err, MatchResult};
ghost use Rattle.std.specs.Str.{IsUtf8};
ghost use Rattle.tbr_c_lines.specs.Columns as wide;
ghost use Rattle.tbr_c_lines.specs.declared.fault.Fault.TheVariants as F;

use crate::fault::Fault;
use std::str;
use tbr_tagged::{UnicodeColumns, text_width};

/// How many columns a text takes. Its control characters take none. The call takes no memory.
///
/// It answers `NotUtf8` where the text isn't UTF-8, and `OutOfMemory` where its columns pass `usize`.
pub fn columns_of(text: &[u8]) -> Result<usize, Fault>
    ensures width { IsUtf8 text.now → MatchResult result (λ n. n ≡ wide.columns_of text.now)
        (λ fault. (fault ≡ F.OutOfMemory) × (2 ^ 64 - 1 < wide.columns_of text.now)) }
    ensures not_utf8 { ¬ (IsUtf8 text.now) → result ≡ Err F.NotUtf8 }
{
    let Ok(text) = str::from_utf8(text) else {
        return Err(Fault::NotUtf8);
    };
    Ok(text_width::<UnicodeColumns>(text)?)
}
