//! Answers to questions, each with its status.
ghost use Rattle.std.specs.Prelude.{◌≡◌, MatchResult};
ghost use Rattle.tbr_c_lines.specs.Copied.{IsCopied};
ghost use Rattle.tbr_c_lines.specs.Status.{code_of};
ghost use Rattle.tbr_c.specs.Questions.{Puts};

use tbr_c_lines::{Fault, answer, copy_out, status};

/// Puts a value where C wants it. If there is none, `out` stays as it was.
pub fn put<T: Copy>(found: Result<T, Fault>, out: &mut T) -> u32
    ensures { Puts found out.old out.new result }
{
    status(answer(found, out))
}

/// Copies a text into a buffer, as `copy_out` does. If there is none, the buffer and `needed` stay as they were.
pub fn copy(found: Result<&str, Fault>, out: &mut [u8], needed: &mut usize) -> u32
    ensures { MatchResult found.entry (λ text. IsCopied text.now out.old out.new needed.new result)
        (λ f. (out.new ≡ out.old) × (needed.new ≡ needed.old) × (result ≡ code_of f)) }
{
    match found {
        Ok(text) => status(copy_out(text.as_bytes(), out, needed)),
        Err(fault) => fault.code(),
    }
}
