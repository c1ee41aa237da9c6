//! Externals: objects with cells of text that answer a handler, and the patches that take a turn back.
//!
//! - A turn's patch names just what changed. A flip undoes it, and redoes it (`laws_of_flips`).
//! - An external's log has each turn at its end: the cells before it, what was handed in, what was asked, and the cells
//!   after it. A turn that is refused memory leaves the log.
//! - What its type says of turns is a table: each turn of a log is the one that the table has, where it has one
//!   (`HasTable`). A box says nothing.
//! - Names, cells and what is asked are texts (`law_of_external`, `law_of_ask`).
#![tactic(auto)]

mod boxed;
mod external;
mod laws;
mod patch;
mod texts;

pub use external::{Ask, External, HasTable, Input};
pub use laws::{law_of_ask, law_of_external, laws_of_flips};
pub use patch::Patch;
pub use texts::Texts;
