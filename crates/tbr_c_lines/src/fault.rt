//! Why a call did nothing.
ghost use Rattle.std.specs.Prelude.{◌≡◌};
ghost use Rattle.tbr_c_lines.specs.Status.{code_of, status_of, fault_of, fault_of_command};
ghost use Rattle.tbr_c_lines.specs.declared.fault.Fault.TheVariants as F;

use tbr_script::RunError;
use tbr_tagged::{Error, OutOfMemory, TooNarrow};

/// Why a call did nothing. `text_block_renderer.h` has these under the names of its statuses.
#[derive(Clone, Copy, Debug, PartialEq, Eq)]
pub enum Fault {
    /// Memory was refused, or a size passes `usize`.
    OutOfMemory,
    /// A character is wider than the line.
    TooNarrow,
    /// A line of a script isn't a command.
    NotACommand,
    /// What would end wasn't begun.
    NothingToEnd,
    /// The waiting cells are in the way of cells that overhang.
    RowDoesNotFit,
    /// A text isn't UTF-8.
    NotUtf8,
    /// A width of 0 columns.
    BadWidth,
    /// A number that isn't known, or isn't allowed.
    BadArgument,
    /// A level is open, or cells wait.
    StillOpen,
    /// The renderer is finished.
    Finished,
    /// The renderer isn't finished.
    NotFinished,
    /// There is no line.
    NoLine,
    /// There is no such piece.
    NoPiece,
    /// A buffer is smaller than the text that is copied into it.
    BufferTooSmall,
    /// A table is open, and the call has to wait for its end, or for a cell of it.
    InTable,
    /// No table is open that could take a cell.
    NoTable,
}

impl Fault {
    /// The number of its status.
    pub fn code(self) -> u32
        ensures { result ≡ code_of self }
    {
        match self {
            Fault::OutOfMemory => 1,
            Fault::TooNarrow => 2,
            Fault::NotACommand => 3,
            Fault::NothingToEnd => 4,
            Fault::RowDoesNotFit => 5,
            Fault::NotUtf8 => 6,
            Fault::BadWidth => 7,
            Fault::BadArgument => 8,
            Fault::StillOpen => 9,
            Fault::Finished => 10,
            Fault::NotFinished => 11,
            Fault::NoLine => 12,
            Fault::NoPiece => 13,
            Fault::BufferTooSmall => 14,
            Fault::InTable => 16,
            Fault::NoTable => 17,
        }
    }
}

/// The number of the status of a call.
pub fn status(done: Result<(), Fault>) -> u32
    ensures { result ≡ status_of done }
{
    match done {
        Ok(()) => 0,
        Err(fault) => fault.code(),
    }
}

impl From<Error> for Fault {
    ghost from_gives = { λ e fault. fault ≡ fault_of e };

    fn from(e: Error) -> Fault {
        match e {
            Error::OutOfMemory => Fault::OutOfMemory,
            Error::TooNarrow => Fault::TooNarrow,
        }
    }
}

impl From<TooNarrow> for Fault {
    ghost from_gives = { λ _ fault. fault ≡ F.TooNarrow };

    fn from(_e: TooNarrow) -> Fault {
        Fault::TooNarrow
    }
}

impl From<OutOfMemory> for Fault {
    ghost from_gives = { λ _ fault. fault ≡ F.OutOfMemory };

    fn from(_e: OutOfMemory) -> Fault {
        Fault::OutOfMemory
    }
}

/// The fault of a call whose command is refused, without the number of its line. Failures of streams, which no call
/// has, count as `OutOfMemory`.
pub fn of_command(e: RunError) -> Fault
    ensures { result ≡ fault_of_command e }
{
    match e {
        RunError::TooNarrow => Fault::TooNarrow,
        RunError::NotACommand(_) => Fault::StillOpen,
        RunError::NothingToEnd(_) => Fault::NothingToEnd,
        RunError::RowDoesNotFit(_) => Fault::RowDoesNotFit,
        RunError::OutOfMemory | RunError::ReadFailed | RunError::WriteFailed => Fault::OutOfMemory,
    }
}
