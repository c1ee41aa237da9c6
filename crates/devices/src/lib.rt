//! Readers and writers whose failures are counted, those that are waited for, and desks, which keep what is saved.
//!
//! - A reader or a writer whose failures are counted tells the bytes of its device (`Watched`), and so does one that is
//!   waited for where it would block (`Patient`). Not claimed: that it is ready some day.
//! - All bytes are written, or a fault of the device is told, only where the device failed, with the bytes that went
//!   out (`write_to`). All the bytes of a reader are had up to a limit, or it is told why not (`bytes_of`).
//! - A desk keeps the text of a stack that is saved, or counts a failure, and then what it kept before stands (`Desk`).
//!   One that tells the messages that it heard has each last in its list; where it was out of memory for one it doesn't
//!   tell any more. One is in memory (`Shelf`).
#![tactic(auto)]

mod all_bytes;
mod desk;
mod patient;
mod shelf;
mod watched;

pub use all_bytes::{BytesFault, bytes_of};
pub use desk::{Desk, HeardMessage};
pub use patient::Patient;
pub use shelf::Shelf;
pub use watched::{Watched, WriteFault, write_to};
