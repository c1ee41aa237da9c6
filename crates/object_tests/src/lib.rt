//! Tests of the crates of objects and of externals, and of the desk over a file, with ample memory. A crate with tests
//! is proved a second time for them, so they stand here, above the crates that they try.
//!
//! - It promises no more than to be safe and to end.
#![tactic(auto)]

#[cfg(test)]
mod boxed_externals;
#[cfg(test)]
mod conversations;
#[cfg(test)]
mod file_desks;
#[cfg(test)]
mod files;
#[cfg(test)]
mod kit;
#[cfg(test)]
mod objects;
#[cfg(test)]
mod plain_texts;
#[cfg(test)]
mod room;
#[cfg(test)]
mod spelling;
#[cfg(test)]
mod stacks;
#[cfg(test)]
mod unseen;
