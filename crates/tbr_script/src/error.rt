//! Why a script isn't rendered.
ghost use Rattle.std.specs.Prelude.{◌≡◌, ◌||◌, ◌++◌, ◌∷◌, [], is_err};
ghost use Rattle.std.specs.Fmt.{decimal};
ghost use Rattle.tbr_model.specs.Codes.{newline_character};
ghost use Rattle.tbr_script.specs.Streams.{WritesAll};
ghost use Rattle.tbr_script.specs.Refusal.{refusal_of};
ghost use Rattle.tbr_script.specs.declared.error.RunError.TheVariants as E;
ghost use Rattle.tbr_script.specs.Report.{message_of, at_line, status_of};

use crate::streams::{Failed, Sink, write_all};
use std::alloc::{AllocError, AllocFailed};
use tbr_tagged::{Error, OutOfMemory};

/// Why a script isn't rendered. A number is that of the line at fault, counted from 1.
#[derive(Clone, Copy, PartialEq, Eq, Debug)]
pub enum RunError {
    /// A character is wider than the block that it is in.
    TooNarrow,
    /// Memory was refused, or a size passes `usize`.
    OutOfMemory,
    /// The line isn't a command, or isn't allowed there.
    NotACommand(usize),
    /// The line ends what wasn't begun.
    NothingToEnd(usize),
    /// The waiting cells don't fit under the row before.
    RowDoesNotFit(usize),
    /// The script couldn't be read.
    ReadFailed,
    /// The text couldn't be written.
    WriteFailed,
}

impl RunError {
    /// The status with which the program ends.
    pub fn status(self) -> u8
        ensures { result ≡ status_of self }
    {
        match self {
            RunError::TooNarrow | RunError::OutOfMemory => 1,
            RunError::NotACommand(_) | RunError::NothingToEnd(_) | RunError::RowDoesNotFit(_) => 2,
            RunError::ReadFailed | RunError::WriteFailed => 3,
        }
    }

    /// Writes the line that reports the refusal, with its newline.
    ///
    /// It takes no memory. It answers `Failed` only where the sink fails, and then a beginning of the line was written.
    pub fn report<S: Sink>(self, sink: &mut S) -> Result<(), Failed>
        ensures line { WritesAll (S.contents sink.old) (S.contents sink.new) result
            (message_of self ++ newline_character ∷ []) }
        ensures failure { S.failed sink.new ≡ (is_err result || S.failed sink.old) }
    {
        match self {
            RunError::TooNarrow => write_all(sink, b"too narrow\n"),
            RunError::OutOfMemory => write_all(sink, b"out of memory\n"),
            RunError::NotACommand(number) => report_line(sink, number, b"not a command\n"),
            RunError::NothingToEnd(number) => report_line(sink, number, b"nothing to end\n"),
            RunError::RowDoesNotFit(number) => report_line(sink, number, b"row does not fit\n"),
            RunError::ReadFailed => write_all(sink, b"read failed\n"),
            RunError::WriteFailed => write_all(sink, b"write failed\n"),
        }
    }
}

impl From<Error> for RunError {
    ghost from_gives = { λ e r. r ≡ refusal_of e };

    fn from(e: Error) -> RunError {
        match e {
            Error::TooNarrow => RunError::TooNarrow,
            Error::OutOfMemory => RunError::OutOfMemory,
        }
    }
}

impl From<OutOfMemory> for RunError {
    ghost from_gives = { λ _ r. r ≡ E.OutOfMemory };

    fn from(_e: OutOfMemory) -> RunError {
        RunError::OutOfMemory
    }
}

impl From<AllocError> for RunError {
    ghost from_gives = { λ _ r. r ≡ E.OutOfMemory };

    fn from(_e: AllocError) -> RunError {
        RunError::OutOfMemory
    }
}

impl<T: Drop> From<AllocFailed<T>> for RunError {
    ghost from_gives = { λ _ r. r ≡ E.OutOfMemory };

    fn from(_e: AllocFailed<T>) -> RunError {
        RunError::OutOfMemory
    }
}

/// Writes what is said of a line after its number. It refuses where the sink does.
fn report_line<S: Sink>(sink: &mut S, number: usize, what: &[u8]) -> Result<(), Failed>
    ensures line { WritesAll (S.contents sink.old) (S.contents sink.new) result (at_line number what.now) }
    ensures failure { S.failed sink.new ≡ (is_err result || S.failed sink.old) }
{
    write_all(sink, b"line ")?;
    write_decimal(sink, number)?;
    write_all(sink, b": ")?;
    write_all(sink, what)
}

/// Writes a number in decimal digits, without memory.
fn write_decimal<S: Sink>(sink: &mut S, number: usize) -> Result<(), Failed>
    ensures digits { WritesAll (S.contents sink.old) (S.contents sink.new) result (decimal number) }
    ensures failure { S.failed sink.new ≡ (is_err result || S.failed sink.old) }
{
    if number >= 10 {
        write_decimal(sink, number / 10)?;
    }
    write_all(sink, &[b'0' + (number % 10) as u8])
}
