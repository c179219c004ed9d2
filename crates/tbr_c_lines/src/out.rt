//! Answers that go out to C.
ghost use Rattle.std.specs.Prelude.{◌≡◌, Ok, Err, MatchResult};
ghost use Rattle.tbr_c_lines.specs.Copied.{IsCopied};
ghost use Rattle.tbr_c_lines.specs.Status.{status_of};

use crate::fault::Fault;

/// Copies a text into a buffer, if that has room for all of it, and otherwise answers `BufferTooSmall` and leaves the
/// buffer as it was. In any case `needed` becomes the number of bytes of the text.
pub fn copy_out(text: &[u8], out: &mut [u8], needed: &mut usize) -> Result<(), Fault>
    ensures { IsCopied text.now out.old out.new needed.new (status_of result) }
{
    *needed = text.len();
    if out.len() < text.len() {
        return Err(Fault::BufferTooSmall);
    }
    out[..text.len()].copy_from_slice(text);
    Ok(())
}

/// Puts an answer where C wants it. If it is a refusal, `out` stays as it was.
pub fn answer<T: Copy>(answer: Result<T, Fault>, out: &mut T) -> Result<(), Fault>
    ensures { MatchResult answer (λ value. (result ≡ Ok tt) × (out.new ≡ value))
        (λ fault. (result ≡ Err fault) × (out.new ≡ out.old)) }
{
    match answer {
        Ok(value) => {
            *out = value;
            Ok(())
        }
        Err(fault) => Err(fault),
    }
}
