//! Tests of the crates of the world, of the message path and of what runs the language, with ample memory, where no row
//! shows what they do. A crate with tests is proved a second time for them, so they stand here.
//!
//! - It promises no more than to be safe and to end.
#![tactic(auto)]

#[cfg(test)]
mod forgotten;
#[cfg(test)]
mod numbers;
#[cfg(test)]
mod places;
#[cfg(test)]
mod unseen;
#[cfg(test)]
mod worlds;
