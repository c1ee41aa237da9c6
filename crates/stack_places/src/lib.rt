//! The places of a stack (a property, a text, a hilite, an object, an order, a list of parts, the next id), and
//! exchanges of the values that stand there.
//!
//! - An exchange puts the entry's value and takes out what stood there, exactly; memory is never its answer.
//! - Laws: what came out goes back; a second value at a place replaces the first; values at two places, of which none
//!   makes or removes an object, are put in either order.
#![tactic(auto)]

mod boxed;
mod entry;
mod laws;

pub use boxed::BoxedObject;
pub use entry::StackEntry;
pub use laws::laws_of_exchanges;
