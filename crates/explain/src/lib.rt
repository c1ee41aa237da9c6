//! Why a line faulted or was refused, and where, in words.
//!
//! - It promises nothing but that it is safe and ends: what it writes is for people, and no answer, state or saved text
//!   depends on it.
//! - Only tested: what it writes, by rows.
#![tactic(auto)]

mod stop;
mod typed;
mod words;

pub use stop::explain;
