//! Determinism: a run of HyperTalk has one outcome by what a table and the logs tell of the turns of its externals.
//! These are laws over the rules, each the contract of a function that does nothing.
//!
//! - For any table of turns, two runs of the same thing from the same state, neither of which is out of memory, have
//!   the same end, state and run, and their externals took the same turns, if these follow the table and the turns that
//!   the table doesn't have are the same in both (`runs_have_one_outcome`).
//! - So where each external is deterministic by the table a run has one outcome, whatever the logs were before; and
//!   with no table the turns in the logs tell it.
#![tactic(auto)]

mod law;

pub use law::runs_have_one_outcome;
