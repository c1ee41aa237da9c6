//! What a user does beside typing HyperTalk: `.open`, `.click` and `.type`, run in a world with their messages.
//!
//! - `act` does one of these, or lines of HyperTalk, as the rules of `meaning` allow, or says that the field is locked.
#![tactic(auto)]

mod action;
mod messages;
mod pointer;
mod typing;

pub use action::{Action, act};
