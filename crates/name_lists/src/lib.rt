//! Names that are met one after another: their folded forms, where each of them stands, and the parameters of a
//! handler, which are known once its script is parsed.
//!
//! - A `FoldedName` is the folded form of a name, which knows a name by a plain comparison (`is_of`).
//! - `NamePlaces` tells where a name stands in a few steps, however many there are.
//! - `Parameters::binding` is a name of parameters, of which each counts once, with the number of the argument that it
//!   gets; `Parameters::places` tells where those stand that aren't among the first few. All calls of a handler share
//!   them.
//! - Not claimed: that calls share the places, which shows nowhere but in time and memory.
#![tactic(auto)]

mod bound_names;
mod folded_name;
mod order;
mod parameters;
mod places;

pub use folded_name::FoldedName;
pub use parameters::{Binding, Parameters};
pub use places::{MOST_SCANNED, NamePlaces};
