//! Why bytes are no stack text.

ghost use Rattle.std.specs.Prelude.{◌≡◌};
ghost use Rattle.stack_text.specs.declared.fault.ReadError.TheVariants.{Memory};
ghost use Rattle.stack_text.specs.Faults.{number_of_fault};

use std::alloc::{AllocError, AllocFailed};
use thiserror::Error;

/// The first line that is at fault, and how. Lines count from 1. Within a line `Truncated` comes
/// first, then `BadLine`, `TooMany` and `BadId`. All of this is this project's profile.
#[derive(Clone, Copy, PartialEq, Eq, Debug, Error)]
pub enum FileError {
    /// The line of this number hasn't the form that is due there, or stands after `end`.
    #[error("line {0} has not the form that is due there")]
    BadLine(u64),
    /// The line of this number has an id that is none, is used already, or isn't the one due; or, at
    /// `end`, a background is without a card.
    #[error("line {0} has an id that can't be there, or comes before a card that is due")]
    BadId(u64),
    /// The bytes end before the line feed of a line up to `end`.
    #[error("the text ends before its last line")]
    Truncated,
    /// `next` is over 1,000,001, a count over 10,000, or an object beyond the 10,000th begins.
    #[error("the text has too many objects")]
    TooMany,
}

impl FileError {
    /// The number under which the fault is answered, 1 to 4.
    pub fn number(self) -> u8
        ensures { result ≡ number_of_fault self }
    {
        match self {
            FileError::BadLine(_) => 1,
            FileError::BadId(_) => 2,
            FileError::Truncated => 3,
            FileError::TooMany => 4,
        }
    }
}

/// Why no stack was read.
#[derive(Clone, Copy, PartialEq, Eq, Debug, Error)]
pub enum ReadError {
    /// A growth of memory was refused.
    #[error("out of memory")]
    Memory,
    /// The bytes are no stack text.
    #[error("{0}")]
    File(FileError),
}

impl From<AllocError> for ReadError {
    ghost from_gives = { λ _ e. e ≡ Memory };

    fn from(_e: AllocError) -> ReadError {
        ReadError::Memory
    }
}

impl<T: Drop> From<AllocFailed<T>> for ReadError {
    ghost from_gives = { λ _ e. e ≡ Memory };

    fn from(_e: AllocFailed<T>) -> ReadError {
        ReadError::Memory
    }
}
