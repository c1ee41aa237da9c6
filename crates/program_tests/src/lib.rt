//! Tests of devices, of the session and of the program's library, with ample memory, where no row shows what they do. A
//! crate with tests is proved a second time for them, so they stand here.
//!
//! - It promises no more than to be safe and to end.
#![tactic(auto)]

#[cfg(test)]
mod all_bytes;
#[cfg(test)]
mod calls;
#[cfg(test)]
mod limits;
#[cfg(test)]
mod nondeterministic;
#[cfg(test)]
mod opened;
#[cfg(test)]
mod slow_devices;
#[cfg(test)]
mod talks;
#[cfg(test)]
mod verdicts;
#[cfg(test)]
mod watched_devices;
#[cfg(test)]
mod words;
