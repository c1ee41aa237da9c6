//! References to objects: which card, background, button or field is meant, what may be set in it, and whether a card
//! may go.
//!
//! - A reference finds exactly the object that it means, with the card that is meant, or there is no such object
//!   (`card_found`, `background_found`, `part_met`, `field_named`).
//! - A property is set by exactly one change, which fits each state with the stack, or has its first fault
//!   (`set_change`).
//! - The name of an object is told until it goes (`name_of`), and so is whether a card may go (`may_delete`).
#![tactic(auto)]

mod cards;
mod deletion;
mod order;
mod parts;
mod picking;
mod referent;
mod settings;

pub use cards::{
    background_found, background_met, card_found, card_met, first_card_found, met_here,
    met_if_there,
};
pub use deletion::may_delete;
pub use parts::{
    field_named, layer_meant, part_count, part_met, scope_by, scope_of_background, scope_of_card,
};
pub use picking::ordinal_number;
pub use referent::{PartScope, Pick, Referent, Sought};
pub use settings::{name_of, set_change};
