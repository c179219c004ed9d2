//! What is wrong with a script.
ghost use Rattle.std.specs.Prelude.{◌≡◌, ◌==◌};
ghost use Rattle.tbr_statements.specs.Problem as model;

use std::alloc::{AllocError, AllocFailed};
use tbr_tagged::{Error, OutOfMemory};

/// The kinds of problems.
#[derive(Clone, Copy, Debug, PartialEq, Eq)]
pub enum Kind {
    /// The line isn't a command, or isn't a first command where it should be, or the script has none.
    NotACommand,
    /// The line ends what isn't open there.
    NothingToEnd,
    /// The script ends inside a block or a cell.
    StillOpen,
    /// A level closes, or the script ends, before the row of cells that wait.
    CellsWait,
    /// A line is in a table that finds its widths and has no place there, or is for such a table alone.
    Misplaced,
    /// Cells of a row are in the way of those that overhang from the rows above, or a table is.
    RowDoesNotFit,
    /// A character is wider than its block.
    TooNarrow,
    /// The prefix of a block leaves it no column.
    NoRoom,
    /// A cell takes more rows than are added, and some of its lines are in no row.
    LinesLost,
    /// Something that began isn't ended where its level closes, or the script ends.
    NotEnded,
    /// A row is wider than the columns that were set instead of those of the script.
    RowTooWide,
}

impl Kind {
    /// The status of a program that finds such a problem: that of `blockrender`, or 0 if the script is shown.
    pub fn status(self) -> u8
        ensures { result ≡ model.status_of self }
    {
        match self {
            Kind::LinesLost | Kind::NotEnded | Kind::RowTooWide => 0,
            Kind::TooNarrow => 1,
            _ => 2,
        }
    }

    /// Whether the script is shown all the same.
    pub fn is_warning(self) -> bool
        ensures { result ≡ (model.status_of self == 0) }
    {
        self.status() == 0
    }
}

/// What is wrong with a script, or what isn't shown as the script says.
#[derive(Debug, Drop)]
pub struct Problem {
    /// Its kind.
    pub kind: Kind,
    /// The line at fault, counted from 1. Where the script ends too early it is the one after the last.
    pub line: usize,
    /// The character of that line where the word at fault begins, counted from 1, if a word is at fault.
    pub column: Option<usize>,
    /// What is wrong with it.
    pub message: String,
    /// Another line to which this is related.
    pub related: Option<Related>,
    /// One way to correct it.
    pub help: String,
}

/// A line to which a problem is related.
#[derive(Clone, Copy, Debug)]
pub struct Related {
    /// The line, counted from 1.
    pub line: usize,
    /// What is there.
    pub note: &'static str,
}

/// Why a script isn't shown.
#[derive(Debug, Drop)]
pub enum Refusal {
    /// Memory was refused, or a size passes `usize`.
    OutOfMemory,
    /// The script is wrong.
    Script(Problem),
}

impl From<AllocError> for Refusal {
    fn from(_e: AllocError) -> Refusal {
        Refusal::OutOfMemory
    }
}

impl<T: Drop> From<AllocFailed<T>> for Refusal {
    fn from(_e: AllocFailed<T>) -> Refusal {
        Refusal::OutOfMemory
    }
}

impl From<OutOfMemory> for Refusal {
    fn from(_e: OutOfMemory) -> Refusal {
        Refusal::OutOfMemory
    }
}
