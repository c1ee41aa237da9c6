//! The program's words, a whole run over a reader and a writer, and the verdict on each fault that ends it.
//!
//! - `options_of` gives what `clap` finds in the words, exactly, and never a usage fault for words that it takes.
//! - `play` goes from the bytes of a stack to the headline on its run and how that ended, or to the fault; each state
//!   of the list is whole before each line and after it. Where it ends for want of memory, nothing was read, written or
//!   kept.
//! - `play_with_kit` promises the same of a run with the four externals of the kit plugged in, with their first cells:
//!   it is what `card_cli` runs.
//! - `verdict` gives the status and the line of each fault.
#![tactic(auto)]

mod explaining;
mod fault;
mod kit;
mod options;
mod runs;
mod words;

pub use diagnostics::{Checked, Page, file_fault_words, write_line};
pub use fault::{CliFault, cut, verdict};
pub use kit::{check_with_kit, play_with_kit};
pub use options::Options;
pub use runs::{MOST_OF_STACK, play};
pub use words::options_of;
