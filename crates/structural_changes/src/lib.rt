//! What makes and removes objects: a new part, a new card, a new background with its card, and a card that goes, with
//! its background if it was the last card there.
//!
//! - It says where each fits, and what it writes, place by place. Each change is prepared with all the room that it
//!   needs, or is out of memory with the stack as it was (`prepare_new_part`, `prepare_new_card`,
//!   `prepare_new_background`, `prepare_deletion`).
//! - `following_card` is the card that follows one that goes.
//! - Laws: a stack stays well formed (`laws_of_changes`), what becomes current is a card (`laws_of_current_cards`), and
//!   no place is written twice (`laws_of_places`).
#![tactic(auto)]

mod clearing;
mod fitting;
mod laws;
mod making;
mod preparing;
mod removing;

pub use fitting::{fits_deletion, fits_new_part, has_room, is_card};
pub use laws::{laws_of_changes, laws_of_current_cards, laws_of_places};
pub use making::{home_of, prepare_new_background, prepare_new_card, prepare_new_part};
pub use preparing::is_on;
pub use removing::{following, following_card, is_last_of_background, prepare_deletion};
