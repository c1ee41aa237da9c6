//! What the changes keep.

ghost use Rattle.std.specs.Prelude.{◌≡◌, ℕ, ◌+◌, true};
ghost use Rattle.std.specs.List.{IsDistinct};
ghost use Rattle.object_table.specs.Content.{Content};
ghost use Rattle.object_table.specs.Objects.{has_kind, is_card};
ghost use Rattle.object_table.specs.WellFormed.{IsWellFormed};
ghost use Rattle.object_table.specs.declared.object.LayerId.{LayerId};
ghost use Rattle.ht_values.specs.declared.word.PartKind.{PartKind};
ghost use Rattle.structural_changes.specs.Writes.{at_one_place, put_each, writes_of_new_part, writes_of_new_card};
ghost use Rattle.structural_changes.specs.Writes.{writes_of_new_background, writes_of_deletion, fits_new_part};
ghost use Rattle.structural_changes.specs.Writes.{fits_deletion, has_room_for, following};

/// A stack stays well formed when an object is made where it fits, and when a card goes that isn't the only one.
#[tactic(auto, using(crate::proofs::Parts::new_part_fits, crate::proofs::Cards::new_card_fits, crate::proofs::Backgrounds::new_background_fits, crate::proofs::Deletion::deletion_fits))]
pub fn laws_of_changes()
    ensures new_part { (s : Content) (layer : LayerId) (kind : PartKind) → IsWellFormed s → fits_new_part s layer ≡ true
        → IsWellFormed (put_each s (writes_of_new_part s layer kind)) }
    ensures new_card { (s : Content) (card : ℕ) → IsWellFormed s → has_room_for 1 s ≡ true
        → has_kind is_card s card ≡ true → IsWellFormed (put_each s (writes_of_new_card s card)) }
    ensures new_background { (s : Content) (card : ℕ) → IsWellFormed s → has_room_for 2 s ≡ true
        → IsWellFormed (put_each s (writes_of_new_background s card)) }
    ensures deletion { (s : Content) (card : ℕ) → IsWellFormed s → fits_deletion s ≡ true
        → has_kind is_card s card ≡ true → IsWellFormed (put_each s (writes_of_deletion s card)) }
{}

/// What is current then is a card: any card after a new part, the new card, the new background's card, and the card
/// that follows the one that goes.
#[tactic(auto, using(crate::proofs::Parts::cards_stay, crate::proofs::Cards::new_card_is_there, crate::proofs::Backgrounds::new_background_fits, crate::proofs::Deletion::following_is_there))]
pub fn laws_of_current_cards()
    ensures new_part { (s : Content) (layer : LayerId) (kind : PartKind) → IsWellFormed s → fits_new_part s layer ≡ true
        → (card : ℕ) → has_kind is_card (put_each s (writes_of_new_part s layer kind)) card ≡ has_kind is_card s card }
    ensures new_card { (s : Content) (card : ℕ) → IsWellFormed s → has_room_for 1 s ≡ true
        → has_kind is_card s card ≡ true → has_kind is_card (put_each s (writes_of_new_card s card)) s.next ≡ true }
    ensures new_background { (s : Content) (card : ℕ) → IsWellFormed s → has_room_for 2 s ≡ true
        → has_kind is_card (put_each s (writes_of_new_background s card)) (s.next + 1) ≡ true }
    ensures deletion { (s : Content) (card : ℕ) → IsWellFormed s → fits_deletion s ≡ true
        → has_kind is_card s card ≡ true
        → has_kind is_card (put_each s (writes_of_deletion s card)) (following card s.cards) ≡ true }
{}

/// No place stands twice among what a change writes.
pub fn laws_of_places()
    ensures new_part { (s : Content) (layer : LayerId) (kind : PartKind) → IsWellFormed s
        → IsDistinct at_one_place (writes_of_new_part s layer kind) }
    ensures new_card { (s : Content) (card : ℕ) → IsDistinct at_one_place (writes_of_new_card s card) }
    ensures new_background { (s : Content) (card : ℕ) → IsDistinct at_one_place (writes_of_new_background s card) }
    ensures deletion { (s : Content) (card : ℕ) → IsDistinct at_one_place (writes_of_deletion s card) }
{}
