//! Stack texts, read and written.
//!
//! - `read` gives the stack that the bytes spell, whole, in version 1 or 2, and the first fault where they spell none.
//! - `write` gives the one text of version 2, and `write_to` writes it to a writer.
//! - Only tested: that `write_to` does so piece by piece.
#![tactic(auto)]

mod backgrounds;
mod blocks;
mod building;
mod document;
mod forms;
mod layers;
mod lines;
mod objects;
mod parts;
mod placed;
mod put;
mod room;
mod sheets;
mod writing;

pub use building::read;
pub use stack_text::{FileError, ReadError, number_at, spell_into, unspell};
pub use writing::{write, write_to};
