//! Whether a card may go.

ghost use Rattle.std.specs.Prelude.{◌≡◌, IsTrue, true};
ghost use Rattle.structural_changes.specs.Writes.{fits_deletion as may_go};
ghost use Rattle.object_references.specs.Deletion as deletion;

use object_table::{Id, Kind, Stack};
use structural_changes::{fits_deletion, home_of, is_last_of_background};

/// Whether an object is there and is kept from deletion.
fn is_kept(stack: &Stack, id: Id) -> bool
    ensures { result ≡ deletion.is_kept stack.now.content id }
{
    match stack.object(id) {
        Some(object) => matches!(
            object.kind,
            Kind::Background { cant_delete: true }
                | Kind::Card {
                    cant_delete: true,
                    ..
                }
        ),
        None => false,
    }
}

/// Whether the current card may go: there is another one, it isn't kept, nor is the background that goes with it.
pub fn may_delete(stack: &Stack, current: Id) -> bool
    ensures answer { result ≡ deletion.may_delete stack.now.content current }
    ensures fits { IsTrue result → may_go stack.now.content ≡ true }
{
    fits_deletion(stack)
        && !is_kept(stack, current)
        && !(is_last_of_background(stack, current) && is_kept(stack, home_of(stack, current)))
}
