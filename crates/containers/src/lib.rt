//! The places of HyperTalk that hold a text, as values: a global, a handler's own variable, a field's own text or the
//! shared one, and chunks of these.
//!
//! - `resolve` gives exactly the place, or says that a field keeps no text for its card. `read` gives exactly what is
//!   read, and `read_name` and `standing_in` lend it. `read_number` gives only a number that a name reads.
//! - `write` puts, computes or deletes, as one change of the world's or in the variables, and so does `edit_variable`
//!   for a variable by its name; where it answers a fault or is out of memory nothing has changed. `declare` makes a
//!   name mean a global.
//! - Laws: a write has one outcome, and what it replaces is that of its change (`writes_are_due`); what is written is
//!   what is read there next (`written_is_read`).
#![tactic(auto)]

mod edit;
mod indexed_locals;
mod law;
mod place;
mod reading;
mod standing;
mod store;
mod variables;
mod writing;

pub use edit::Edit;
pub use law::{writes_are_due, written_is_read};
pub use place::{Container, Place, resolve};
pub use reading::{read, read_name, read_number, standing_in};
pub use standing::Standing;
pub use store::Store;
pub use variables::Variables;
pub use writing::{alter_number, declare, edit_variable, put_number, write};
