//! The present state, the changes of it, and batches of exchanges that go back over them: what they weigh, and each
//! place once. The crate stands under `change_journal` to keep checks short.
//!
//! - There are nine changes: a global, a text of a field, a hilite, a property, the current card, a new card, a new
//!   background, a new part, a card that goes. Each is a list of entries, prepared with all the room that it needs.
//! - It keeps trees of scripts, each of which is that of its object's script of now (`script_tree`); the scripts have
//!   at most 1,000,000 bytes together, as an invariant says.
//! - Only tested: that a tree is kept, and whether a script is still the one that was read (`script_reading`).
#![tactic(auto)]

mod batch;
mod cards;
mod change;
mod entry;
mod globals;
mod initials;
mod laws;
mod names;
mod numbered_names;
mod open_batch;
mod place_key;
mod place_set;
mod present;
mod renumbering;
mod script_trees;

pub use batch::Batch;
pub use change::{Change, law_of_global, law_of_texts};
pub use entry::{Entry, Prepared};
pub use globals::Globals;
pub use laws::{law_of_externals, law_of_trails};
pub use names::{are_apart, index_of};
pub use open_batch::OpenBatch;
pub use present::Present;
pub use renumbering::Renumbering;
