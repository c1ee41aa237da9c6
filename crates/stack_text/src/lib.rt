//! The text of a stack, in two versions: how it is spelled, how it is read, and that the two agree. It is a crate of
//! definitions and laws, with the words of a line (`number_at`, `spell_into`, `unspell`).
//!
//! - Laws of spelling: bytes are read as a stack exactly where they spell it; they spell one stack at most; what is
//!   written is read; what is read of version 2 is written as it was.
//! - Laws of faults: each proper prefix of a spelling is truncated, and a spelling with a byte more behind it has a bad
//!   line; a fault at a line depends on the lines up to it alone.
#![tactic(auto)]

mod fault;
pub mod law;
mod sheets;
mod words;

pub use fault::{FileError, ReadError};
pub use sheets::{Keeping, Part, PartContent, Version};
pub use words::{number_at, spell_into, unspell};
