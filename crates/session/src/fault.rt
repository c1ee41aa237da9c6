//! Why a session isn't opened.

use thiserror::Error;

/// Why a session isn't opened. The first that holds is told.
#[derive(Clone, Copy, PartialEq, Eq, Debug, Error)]
pub enum OpenError {
    /// The steps of a command are 1 to 10,000,000.
    #[error("a command has 1 to 10,000,000 steps")]
    BadSteps,
    /// The depth of the history is 1 to 1,000,000.
    #[error("a history has a depth of 1 to 1,000,000")]
    BadDepth,
    /// Two externals have names that are the same.
    #[error("two externals have names that are the same")]
    DuplicateName,
}
