//! A session: lines come in, answers go out, and every command can be undone and redone.
//!
//! - `line`, `undo`, `redo`, `undo_to`, `saved`, `plug`, `unplug` and `close` are each one step of a history. A fresh
//!   command's step is one that the rules of the language allow, with its reply, the logs of externals and the weight
//!   of what it replaced.
//! - Typing into a locked field leaves the turns by which the field was found, and nothing else.
//! - Each external has a log (`law_of_logs`), and each turn in it is the one that the table of the externals' type has,
//!   where it has one (`law_of_table`).
//! - Each state of its list is whole at any time (`law_of_states`). What is saved spells the stack, so it is read back
//!   as that stack (`saved`), and no line that saves is refused for memory.
//! - The values of its limits are proved, since clauses name the constants.
#![tactic(auto)]

mod command;
mod fault;
mod limits;
mod moves;
mod queries;
mod reply;
mod running;
mod session;

pub use change_journal::{MOST_DEPTH, PlugError};
pub use command::{Reading, acted_in};
pub use fault::OpenError;
pub use limits::{LAST_NUMBER, LONGEST_LINE, MOST_STEPS};
pub use meaning::{Line, Sent, SentMessage, Shown};
pub use reply::{Bytes, Ending, Refusal, Reply, StackText};
pub use session::Session;
