//! That each run of HyperTalk leads from whole states to whole states, as laws over the rules: each is the contract of
//! a function that does nothing.
//!
//! - From whole states a run whose trees are of texts leads to whole states, whatever the externals do, and each turn
//!   that these take is of texts (`runs_lead_to_whole_states`).
//! - What is read of a text, a script too, has texts alone (`trees_have_texts`).
#![tactic(auto)]

mod law;

pub use law::{runs_lead_to_whole_states, trees_have_texts};
