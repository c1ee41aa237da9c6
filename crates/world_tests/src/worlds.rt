//! Worlds without externals, and which changes fit that no line makes. A world stands in a box, which is dropped by one
//! call.

ghost use Rattle.std.specs.Prelude.{◌≡◌, None, IfSome};

use change_journal::{Change, World};
use ht_values::{PartKind, Text};
use object_table::{LayerId, PropValue};
use stack_file::read;
use std::alloc::Global;
use xkit::KitExternal;

/// A world whose externals would be those of the kit; it has none.
pub(crate) type PlainWorld = World<KitExternal>;

/// A world of the stack that a text spells.
pub(crate) fn world_of(alloc: Global, text: &[u8]) -> Option<Box<PlainWorld>>
    ensures { IfSome result (λ w. w.value.history.start ≡ None) }
{
    let Ok(stack) = read(alloc, text) else {
        return None;
    };
    match World::open(alloc, stack, Vec::new(alloc), 9) {
        Ok(world) => Box::new(alloc, world).ok(),
        Err(_) => None,
    }
}

/// The stack of two cards: the stack is 0, its background 1 with field 3, and its cards are 2 and 4.
pub(crate) const TWO_CARDS: &[u8] =
    b"htstack 2\nnext 5\nname |Demo\nscript 0\nbackgrounds 1\nbackground 1\nname |\ncantDelete false\nscript 0\nparts 1\nfield 3\nname |Note\nvisible true\nlockText false\nsharedText false\nscript 0\nshared 0\ncards 2\ncard 2 1\nname |A\ncantDelete false\nscript 0\nparts 0\ntext 3 0\ncard 4 1\nname |B\ncantDelete false\nscript 0\nparts 0\ntext 3 0\nend\n";

/// One card, whose background has the button 5 and the field 6.
const BUTTON_AND_FIELD: &[u8] = b"htstack 2\nnext 7\nname |\nscript 0\nbackgrounds 1\n\
background 1\nname |\ncantDelete false\nscript 0\nparts 2\n\
button 5\nname |\nvisible true\nsharedHilite false\nhilite true\nscript 0\n\
field 6\nname |\nvisible true\nlockText false\nsharedText true\nscript 0\nshared 0\n\
cards 1\ncard 2 1\nname |\ncantDelete false\nscript 0\nparts 0\nhilite 5 true\ntext 6 0\nend\n";

/// A change of that world, by plain values.
#[derive(Clone, Copy)]
enum TriedChange {
    /// Another card becomes the current one.
    Current(u32),
    NewField(LayerId),
    DeleteCard,
    /// A text of field 6 for a card.
    Text(u32),
    /// A hilite of field 6, which has none.
    Hilite,
    /// The lock of button 5, which has none.
    Lock,
}

/// Whether a change fits. The only card stays, and a text, a hilite, a lock or a layer that isn't there doesn't come.
const TRIED_CHANGES: &[(TriedChange, bool)] = &[
    (TriedChange::Current(2), true),
    (TriedChange::Current(1), false),
    (TriedChange::NewField(LayerId::OfCard(2)), true),
    (TriedChange::NewField(LayerId::OfCard(1)), false),
    (TriedChange::NewField(LayerId::OfBackground(2)), false),
    (TriedChange::DeleteCard, false),
    (TriedChange::Text(1), false),
    (TriedChange::Hilite, false),
    (TriedChange::Lock, false),
];

fn change_of(alloc: Global, tried: TriedChange) -> Change {
    match tried {
        TriedChange::Current(card) => Change::Current(card),
        TriedChange::NewField(layer) => Change::NewPart(layer, PartKind::Field),
        TriedChange::DeleteCard => Change::DeleteCard,
        TriedChange::Text(card) => Change::FieldText(6, card, Text::new(alloc)),
        TriedChange::Hilite => Change::Hilite(6, 2, true),
        TriedChange::Lock => Change::Prop(5, PropValue::LockTextIs(true)),
    }
}

/// How many changes fit, or don't, as it is wanted, before the first that goes otherwise.
fn right_changes(alloc: Global, world: &PlainWorld) -> usize {
    let mut right: usize = 0;
    for (tried, wanted) in TRIED_CHANGES {
        if world.fits(&change_of(alloc, *tried)) != *wanted {
            break;
        }
        right = right.saturating_add(1);
    }
    right
}

/// Whether a global whose name isn't folded fits.
fn fits_unfolded(alloc: Global, world: &PlainWorld) -> Option<bool> {
    let name = Text::from_slice(alloc, b"G").ok()?;
    Some(world.fits(&Change::Global(name, None)))
}

/// How many changes go as it is wanted, and whether the global fits. What holds of a world's states can be called.
fn outcome(alloc: Global) -> Option<(usize, Option<bool>)> {
    let world = world_of(alloc, BUTTON_AND_FIELD)?;
    world.law_of_states();
    world.law_of_table();
    Some((right_changes(alloc, &world), fits_unfolded(alloc, &world)))
}

#[test]
fn what_no_line_makes_does_not_fit(rt: HostRuntime) {
    assert!(rt; outcome(rt.alloc()) == Some((TRIED_CHANGES.len(), Some(false))));
}
