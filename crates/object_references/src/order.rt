//! Neighbours in an order of objects.

ghost use Rattle.std.specs.Prelude.{◌≡◌, reverse};
ghost use Rattle.structural_changes.specs.Writes.{following};

use object_table::{Id, IdList};

/// The id right before another in an order, or the last where that is the first one or isn't there; of no ids the other
/// itself.
pub(crate) fn preceding(order: &IdList, place: Id) -> Id
    ensures { result ≡ following place (reverse order.now) }
{
    let ids = order.as_slice();
    let last = ids.last().copied().unwrap_or(place);
    let mut before = last;
    let mut found = last;
    for id in ids {
        if *id == place {
            found = before;
        }
        before = *id;
    }
    found
}
