//! A desk over a file, and the logger that shows the messages of which it hears.
//!
//! - It says that it kept the text of a stack, or counts a failure (`FileDesk`). Whether a file is plain, and the same
//!   as another by its device, number, size and time, is exact (`FileState`).
//! - Only tested: what is in the file, by `./trial` and `object_tests`.
#![tactic(auto)]

mod beside;
mod desk;
mod plain;
mod saving;
mod state;
mod unsaved;

pub use desk::FileDesk;
pub use plain::Plain;
pub use state::FileState;
