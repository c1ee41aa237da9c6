//! Texts that are read and computed with in one pass, without a tree: those that are made of names, literals, constants,
//! operators, parentheses and calls of functions that are built in. Every other text is parsed first.
//!
//! - A text of `value` has its value by the rules of `meaning`, or its fault; or there is a tree that is left to compute,
//!   and what the rules give of that they give of the text (`meet_text`).
//! - Not claimed: which texts have their value at once, which shows in time alone.
#![tactic(auto)]

mod applied;
mod calls;
mod expr;
mod leaves;
mod plain;
mod text;

pub use text::meet_text;
