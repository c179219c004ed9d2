//! Whole scripts.
ghost use Rattle.std.specs.Prelude.{◌≡◌, ◌≢◌, ℕ, List, length, take, Ok};
ghost use Rattle.tbr_tagged.specs.UnicodeColumns.{unicode_columns};
ghost use Rattle.tbr_runner.specs.Scripts.{shown};

use std::alloc::Global;
use tbr_c_lines::Fault;
use tbr_runner::render_shown;
use tbr_script::RunError;
use tbr_tagged::UnicodeColumns;

/// `tbr_answer`.
#[repr(C)]
#[derive(Clone, Copy, Drop)]
pub struct Answer {
    pub status: u32,
    pub line: usize,
    pub length: usize,
}

/// The text of a script, as much of it as the buffer has room for. The length is that of the whole text.
#[unsafe(no_mangle)]
pub extern "C" fn tbr1_render(alloc: Global, script: &[u8], raw: bool, out: &mut [u8]) -> Answer
    ensures room { length out.new ≡ length out.old }
    ensures text { result.status ≡ 0 → (text : List ℕ) × (shown raw unicode_columns script.now ≡ Ok text)
        × (result.length ≡ length text) × (take (length text) out.new ≡ take (length out.old) text) }
{
    match render_shown::<UnicodeColumns, _>(alloc, script, raw) {
        Ok(text) => {
            let text = text.as_bytes();
            let count = text.len().min(out.len());
            out[..count].copy_from_slice(&text[..count]);
            Answer {
                status: 0,
                line: 0,
                length: text.len(),
            }
        }
        Err(e) => refused(e),
    }
}

/// What is answered if a script is refused. No stream fails, since there is none.
fn refused(e: RunError) -> Answer
    ensures { result.status ≢ 0 }
{
    let (fault, line) = match e {
        RunError::TooNarrow => (Fault::TooNarrow, 0),
        RunError::NotACommand(line) => (Fault::NotACommand, line),
        RunError::NothingToEnd(line) => (Fault::NothingToEnd, line),
        RunError::RowDoesNotFit(line) => (Fault::RowDoesNotFit, line),
        RunError::OutOfMemory | RunError::ReadFailed | RunError::WriteFailed => {
            (Fault::OutOfMemory, 0)
        }
    };
    Answer {
        status: fault.code(),
        line,
        length: 0,
    }
}
