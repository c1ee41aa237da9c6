//! What HyperTalk means: a rule for each form of the language and each way in which it ends, and the run, the frame and
//! the ends of which the rules speak.
//!
//! - The rules are of expressions, containers, references, statements, repeats, messages along their path, `go`, the
//!   menu, and conversations with externals.
//! - The run of a command, with its steps, properties, lines and messages, is exactly as the rules see it (`Budget`,
//!   `Counter`, `Frame`).
//! - Only tested: what a run remembers of its stop (`Trace`).
#![tactic(auto)]

mod budget;
mod counter;
mod end;
mod frame;
mod item;
mod limits;
mod sent;
mod system;
mod trace;

pub use budget::Budget;
pub use counter::Counter;
pub use end::{Conversed, Ended, How, Stop, Way};
pub use frame::Frame;
pub use item::Item;
pub use limits::{MOST_ARGUMENTS, MOST_NESTED};
pub use sent::{Line, Sent, SentMessage, Shown};
pub use system::SystemMessage;
pub use trace::{OpenCall, Stopped, TextUse, Trace, Unread};
