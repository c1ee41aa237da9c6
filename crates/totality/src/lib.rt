//! Totality: each run of HyperTalk has an end that the rules allow and that isn't out of memory, whatever its lines,
//! handlers and externals. These are laws over the rules, each the contract of a function that does nothing.
//!
//! - Runs are lines, a message, an action, a dot line's reference, and the value of an expression at most a hundred
//!   calls deep, from any run while a batch is open (`runs_have_an_outcome`). Only typing into a locked field has none.
//! - Externals may answer by any function of their logs, their cells and what they are handed, if it leaves as many
//!   cells and makes texts of texts. From whole states a run of texts has such an end in which each turn is the one
//!   that the function gives, and leads to whole states (`behaviours_have_an_outcome`).
//! - Each log is then the one before with such turns more, and follows each table that the function does
//!   (`behaviours_are_logged`). A table whose turns leave as many cells and make texts of texts is such a function
//!   (`tables_are_behaviours`).
//! - So the function of `definitional_interpreter` has an answer for each run, by the turns that it took.
#![tactic(auto)]

mod law;

pub use law::{
    behaviours_are_logged, behaviours_have_an_outcome, runs_have_an_outcome, tables_are_behaviours,
};
