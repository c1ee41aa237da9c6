//! What is told of a text that can't be read on, of a run that stopped and of a file that is refused, in words and with
//! the place; and what of a stack's scripts isn't in the grammar.
//!
//! - It promises nothing but that it is safe and ends: what it writes is for people, and no answer, state or saved text
//!   depends on it.
//! - Only tested: what it writes, by rows.
#![tactic(auto)]

mod file;
mod hint;
mod location;
mod object;
mod page;
mod stopped;
mod survey;

pub use file::{file_fault_words, write_line};
pub use hint::write_hint;
pub use location::{Location, location_in, write_location, write_pointed, write_statement};
pub use object::write_object;
pub use page::Page;
pub use stopped::{StateAfter, write_call, write_front, write_meant, write_unread_text};
pub use survey::{Checked, check};
