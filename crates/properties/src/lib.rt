//! The properties of the objects of a stack: reading them as texts, and testing a text that is to be set.
//!
//! - Each property of each kind of object is exactly its text, or the fault in its place (`get`).
//! - A text is exactly the value of a property that may be set, or is handed back with the first fault (`check`).
#![tactic(auto)]

mod flag;
mod name;
mod property_text;
mod setting;

pub use property_text::{get, own_hilite};
pub use setting::check;
