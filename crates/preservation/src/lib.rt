//! What each run of HyperTalk keeps, as laws over the rules: each is the contract of a function that does nothing.
//!
//! - What a run replaced is read off its derivation (`replaced_line`, `replaced_message`, `replaced_acts`). The batch
//!   weighs no more than that, and its trail is of it (`runs_rise`), so its entries are few (`batches_are_short`).
//! - A run keeps the history round the open batch, and which externals there are (`runs_keep_bases`). No step comes
//!   back, and what was shown and sent stays (`runs_go_on`).
//! - From whole states a run leads to whole states, whatever the externals are, if what it wrote is texts
//!   (`runs_keep_states_whole`).
//! - Each law stands for lines, a message, an action, the reference of a dot line, and an expression.
#![tactic(auto)]

mod law;

pub use law::{batches_are_short, runs_go_on, runs_keep_bases, runs_keep_states_whole, runs_rise};
