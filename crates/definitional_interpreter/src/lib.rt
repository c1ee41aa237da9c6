//! A definitional interpreter: `meanings` computes each form of the language with fuel, by the cut of `ht_lex` and the
//! readers of `ht_grammar`. Its laws are the contracts of functions that do nothing.
//!
//! - It takes the turns of externals from a table, or else from a list for each. Where these tell the turns of a run,
//!   it gives the run's end, state and turns, from some fuel on, unless the run is out of memory (`runs_are_computed`).
//! - A deterministic external needs no list; with no table each turn is in one (`nondeterministic_turns_are_known`).
//! - What it gives of an expression, with calls and `value` left unknown, the rules allow, and nothing changes
//!   (`expressions_are_allowed`).
//! - It gives the answers of sixteen rows from their texts, ten in any state and six on a stack of two cards, with 20
//!   or 40 nested parts or any more (`worked_rows_are_computed`). So these are the answers of the rules.
//! - Not claimed: weights of the history; of statements and messages, that the rules allow what too little fuel gives.
#![tactic(auto)]

mod law;

pub use law::{
    expressions_are_allowed, nondeterministic_turns_are_known, runs_are_computed,
    worked_rows_are_computed,
};
