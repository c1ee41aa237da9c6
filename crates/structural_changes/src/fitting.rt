//! Where the changes fit.

ghost use Rattle.std.specs.Prelude.{◌≡◌};
ghost use Rattle.object_table.specs.Objects.{has_kind, is_card as is_kind_of_card};
ghost use Rattle.structural_changes.specs.Writes.{has_room_for, fits_new_part as fits_part, fits_deletion as may_go};

use object_table::{Id, Kind, LayerId, Stack};

/// The greatest id that the next object may have.
const LAST_ID: u32 = 1_000_000;

/// How many objects a stack has at most, besides itself.
const MOST_OBJECTS: usize = 10_000;

/// Whether as many objects more can be made: their ids are at most 1,000,000, and at most 10,000 objects live.
pub fn has_room(stack: &Stack, count: u32) -> bool
    ensures { result ≡ has_room_for count stack.now.content }
{
    stack.next_id().saturating_add(count) <= LAST_ID + 1
        && stack.object_count().saturating_add(count as usize) <= MOST_OBJECTS
}

/// Whether a new part fits into a layer.
pub fn fits_new_part(stack: &Stack, layer: LayerId) -> bool
    ensures { result ≡ fits_part stack.now.content layer }
{
    has_room(stack, 1) && stack.parts(layer).is_some()
}

/// Whether a card may go, which isn't the only one.
pub fn fits_deletion(stack: &Stack) -> bool
    ensures { result ≡ may_go stack.now.content }
{
    stack.cards().len() >= 2
}

/// Whether an id is that of a card.
pub fn is_card(stack: &Stack, id: Id) -> bool
    ensures { result ≡ has_kind is_kind_of_card stack.now.content id }
{
    match stack.object(id) {
        Some(object) => matches!(object.kind, Kind::Card { .. }),
        None => false,
    }
}
