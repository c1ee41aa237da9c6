//! What exchanges are to the places of a stack.

ghost use Rattle.std.specs.Prelude.{◌≡◌, true, false};
ghost use Rattle.object_table.specs.Content.{Content};
ghost use Rattle.stack_places.specs.Places.{put};
ghost use Rattle.stack_places.specs.Exchange.{exchanged, taken, place_of, value_of, of_one_place, is_structural};
ghost use Rattle.stack_places.specs.declared.entry.StackEntry.{StackEntry};

/// An exchange puts the entry's value at its place. Exchanged again, what came out goes back, and the entry is as it
/// was; a second value at a place replaces the first; values at two places are put in either order.
#[tactic(auto, using(crate::proofs::Exchanging::puts, crate::proofs::Exchanging::exchanged_back, crate::proofs::Exchanging::taken_back, crate::proofs::Exchanging::overwritten, crate::proofs::Exchanging::commute))]
pub fn laws_of_exchanges()
    ensures put { (s : Content) (e : StackEntry) → exchanged s e ≡ put s (place_of e) (value_of e) }
    ensures back { (s : Content) (e : StackEntry) → exchanged (exchanged s e) (taken s e) ≡ s }
    ensures again { (s : Content) (e : StackEntry) → taken (exchanged s e) (taken s e) ≡ e }
    ensures over { (s : Content) (e f : StackEntry) → of_one_place e f ≡ true
        → exchanged (exchanged s e) f ≡ exchanged s f }
    ensures apart { (s : Content) (e f : StackEntry) → of_one_place e f ≡ false → is_structural e ≡ false
        → is_structural f ≡ false → exchanged (exchanged s e) f ≡ exchanged (exchanged s f) e }
{}
