//! Why a world isn't opened, and why an external isn't plugged in.

use thiserror::Error;

/// Why a world isn't opened.
#[derive(Clone, Copy, Debug, Error, Eq, PartialEq)]
pub enum WorldError {
    #[error("two externals have names that are the same")]
    DuplicateName,
}

/// Why an external isn't plugged in.
#[derive(Clone, Copy, Debug, Error, Eq, PartialEq)]
pub enum PlugError {
    #[error("another external has a name that is the same")]
    DuplicateName,
    #[error("out of memory")]
    Memory,
}
