//! The world: the one present state, the history of states round it, and the only door for changes.
//!
//! - Each call of `World` moves the history exactly as its definition. Going back over an open batch gives the state at
//!   its start, after every call. A step weighs no more than what was replaced. The oldest state falls away in `commit`
//!   alone.
//! - A batch holds a place once between entries that make or remove an object. So it has at most t + s + (s + 1) * p
//!   entries, where s of them make or remove an object, t are turns, and p is the number of different places; a turn
//!   that changes no cell adds none.
//! - Each state is whole: a well-formed stack, globals with folded names and texts, a current card, externals as their
//!   kinds have them (`law_of_states`).
//! - A turn of an external is given to that one, with that input, and its log says so; the other logs stay
//!   (`turn_external`). No undo changes a log. Each external has one (`law_of_logs`), whose turns are those of the
//!   table of its type (`law_of_table`).
#![tactic(auto)]

mod fault;
mod world;

pub use fault::{PlugError, WorldError};
pub use journal_entries::Change;
pub use world::{MOST_DEPTH, World};
