//! The message path: the objects that a message goes to, the first handler among their scripts, and what comes after
//! the stack.
//!
//! - The path is its definition, and memory is never the answer (`path`; `path_after`, where `pass` goes on).
//!   `first_handler` gives the first handler of a kind and a name on a path, or the fault of a script on the way that
//!   isn't in the grammar.
//! - `next_handler` goes on after the stack: the external of that name, else what is built in, else nobody
//!   (`external_named`, `BuiltIn::named`).
//! - Law: a message finds one handler at most, or one fault (`first_is_one`).
//! - Not claimed: that a script is parsed only where the world keeps no tree of it, which shows nowhere but in time.
#![tactic(auto)]

mod built_in;
mod found;
mod law;
mod next;
mod objects;
mod scripts;

pub use built_in::{BuiltIn, is_system_message};
pub use found::FoundHandler;
pub use law::first_is_one;
pub use next::{Found, external_named, first_handler, next_handler};
pub use objects::{MessagePath, path, path_after};
