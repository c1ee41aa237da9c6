//! Tests of the crates of the language, with ample memory, where no run of the program and no printed tree shows what
//! they do. A crate with tests is proved a second time for them, so they stand here.
//!
//! - It promises no more than to be safe and to end.
#![tactic(auto)]

#[cfg(test)]
mod cases;
#[cfg(test)]
mod parameters;
#[cfg(test)]
mod places;
#[cfg(test)]
mod recent_texts;
#[cfg(test)]
mod searches;
#[cfg(test)]
mod short_texts;
#[cfg(test)]
mod unseen;
