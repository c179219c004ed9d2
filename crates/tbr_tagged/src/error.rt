//! Refusals.
ghost use Rattle.std.specs.Prelude.{◌≡◌};
ghost use Rattle.tbr_tagged.specs.declared.error.Error.TheVariants as E;

use std::alloc::{AllocError, AllocFailed};

/// A character is wider than the line.
#[derive(Clone, Copy, PartialEq, Eq, Debug)]
pub struct TooNarrow;

/// Memory was refused, or a size passes `usize`.
#[derive(Clone, Copy, PartialEq, Eq, Debug)]
pub struct OutOfMemory;

/// Why a text is refused.
#[derive(Clone, Copy, PartialEq, Eq, Debug)]
pub enum Error {
    /// A character is wider than the line.
    TooNarrow,
    /// Memory was refused, or a size passes `usize`.
    OutOfMemory,
}

impl From<TooNarrow> for Error {
    ghost from_gives = { λ _ e. e ≡ E.TooNarrow };

    fn from(_e: TooNarrow) -> Error {
        Error::TooNarrow
    }
}

impl From<OutOfMemory> for Error {
    ghost from_gives = { λ _ e. e ≡ E.OutOfMemory };

    fn from(_e: OutOfMemory) -> Error {
        Error::OutOfMemory
    }
}

impl From<AllocError> for Error {
    ghost from_gives = { λ _ e. e ≡ E.OutOfMemory };

    fn from(_e: AllocError) -> Error {
        Error::OutOfMemory
    }
}

impl From<AllocError> for OutOfMemory {
    fn from(_e: AllocError) -> OutOfMemory {
        OutOfMemory
    }
}

impl<T: Drop> From<AllocFailed<T>> for OutOfMemory {
    fn from(_e: AllocFailed<T>) -> OutOfMemory {
        OutOfMemory
    }
}

impl<T: Drop> From<AllocFailed<T>> for Error {
    ghost from_gives = { λ _ e. e ≡ E.OutOfMemory };

    fn from(_e: AllocFailed<T>) -> Error {
        Error::OutOfMemory
    }
}
