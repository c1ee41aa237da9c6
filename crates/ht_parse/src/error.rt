//! Why a text isn't read.

use ht_values::{Failure, Fault};
use thiserror::Error;

/// Why no tree is read.
#[derive(Clone, Copy, PartialEq, Eq, Debug, Error)]
pub enum ParseError {
    /// The text isn't in the grammar. The place, at most the text's length, is a byte at which reading stopped.
    #[error("the text isn't in the grammar, at byte {0}")]
    Syntax(usize),
    /// A growth of memory was refused.
    #[error("out of memory")]
    Memory,
}

/// In a command a text that isn't in the grammar is a fault.
impl From<ParseError> for Failure {
    ghost use Rattle.std.specs.Prelude.{◌≡◌};
    ghost use Rattle.ht_parse.specs.Failures.{failure_of};

    ghost from_gives = { λ error failure. failure ≡ failure_of error };

    fn from(error: ParseError) -> Failure {
        match error {
            ParseError::Syntax(_) => Failure::Fault(Fault::Syntax),
            ParseError::Memory => Failure::Memory,
        }
    }
}
