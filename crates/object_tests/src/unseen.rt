//! References and properties, with ample memory, as far as no run of the program shows them: ids without an object,
//! layers of the other kind, a card's field that is met by name alone, the card that is meant with a card or a
//! background, the properties that no text sets, and the text that a refusal hands back. The stack is that of the rows,
//! `two_backgrounds`.

use crate::files::stack_of;
use crate::plain_texts::{Bytes, is_text, text};
use ht_grammar::Layer;
use ht_lex::Ordinal;
use ht_values::{Failure, Fault, PartKind, Prop, Text};
use object_references::*;
use object_table::{Id, LayerId, Stack};
use properties::{check, get};
use std::alloc::Global;

/// A stack with a part of each kind.
pub(crate) const STACK: Bytes = b"htstack 2\nnext 20\nname |Demo\nscript 0\nbackgrounds 2\n\
background 1\nname |X\ncantDelete false\nscript 0\nparts 4\n\
button 5\nname |\nvisible true\nsharedHilite false\nhilite true\nscript 0\n\
button 6\nname |Push\nvisible true\nsharedHilite true\nhilite true\nscript 0\n\
field 7\nname |Note\nvisible true\nlockText false\nsharedText false\nscript 0\nshared 0\n\
field 11\nname |\nvisible true\nlockText false\nsharedText false\nscript 0\nshared 0\n\
background 8\nname |\ncantDelete true\nscript 0\nparts 0\n\
cards 3\n\
card 2 1\nname |A\ncantDelete false\nscript 0\nparts 0\n\
hilite 5 true\nhilite 6 false\ntext 7 0\ntext 11 0\n\
card 4 8\nname |B\ncantDelete false\nscript 0\nparts 0\n\
card 9 1\nname |\ncantDelete true\nscript 0\nparts 2\n\
button 10\nname |Push\nvisible true\nhilite true\nscript 0\n\
field 12\nname |2\nvisible true\nlockText false\nscript 0\ntext 0\n\
hilite 5 false\nhilite 6 false\ntext 7 0\ntext 11 0\nend\n";

/// Whether this object was met with this card, or with object 0 that there is no such object.
fn is_met(met: Result<Referent, Fault>, object: Id, card: Id) -> bool {
    match met {
        Ok(referent) => referent.object == object && referent.card == card,
        Err(fault) => object == 0 && fault == Fault::NoSuchObject,
    }
}

/// Whether the current card is meant with a card or a background that is met.
fn means_current(stack: &Stack) -> bool {
    is_met(card_met(stack, 2, &Sought::Next), 4, 2)
        && is_met(background_met(stack, 4, &Sought::Next), 1, 4)
}

/// Whether a background's id names no layer of a card.
fn has_no_layer(stack: &Stack) -> bool {
    let scope = PartScope {
        layer: LayerId::OfCard(1),
        card: 4,
    };
    let last = Pick::Nth(Ordinal::Last);
    is_met(part_met(stack, PartKind::Field, scope, &last), 0, 4)
        && part_count(stack, LayerId::OfCard(8), PartKind::Button) == 0
}

/// Whether a property is read with this fault.
fn lacks(alloc: Global, stack: &Stack, card: Id, id: Id, prop: Prop, due: Fault) -> bool {
    get(alloc, stack, card, id, prop).err() == Some(Failure::Fault(due))
}

/// Whether an id without an object has no property, and a hilite for no card isn't the shared one.
fn lacks_properties(alloc: Global, stack: &Stack) -> bool {
    lacks(alloc, stack, 2, 13, Prop::Name, Fault::NoSuchProperty)
        && lacks(alloc, stack, 0, 5, Prop::Hilite, Fault::NoSuchObject)
}

/// A text that isn't set in an object, and why.
struct Refused(Id, Prop, Bytes, Fault);

const REFUSED: &[Refused] = &[
    Refused(6, Prop::Visible, b" true", Fault::NotLogical),
    Refused(2, Prop::Visible, b"yes", Fault::NoSuchProperty),
    Refused(10, Prop::SharedHilite, b"true", Fault::NoSuchProperty),
    Refused(7, Prop::ShortName, b"N", Fault::NoSuchProperty),
    Refused(7, Prop::Id, b"7", Fault::NoSuchProperty),
    Refused(2, Prop::Number, b"1", Fault::NoSuchProperty),
    Refused(13, Prop::Name, b"N", Fault::NoSuchProperty),
];

/// Whether a text is handed back with the fault of a row.
fn is_handed_back(stack: &Stack, row: &Refused, text: Text) -> bool {
    match check(stack, row.0, row.1, text) {
        Ok(_) => false,
        Err((text, fault)) => is_text(&text, row.2) && fault == row.3,
    }
}

/// Whether a text is handed back, and not set.
fn is_refused(alloc: Global, stack: &Stack, row: &Refused) -> bool {
    match (text(alloc, row.2), text(alloc, row.2)) {
        (Some(checked), Some(set)) => {
            is_handed_back(stack, row, checked)
                && set_change(stack, met_here(2, row.0), row.1, set).err() == Some(row.3)
        }
        _ => false,
    }
}

#[test]
fn what_no_run_shows_holds(rt: HostRuntime) {
    let stack = stack_of(rt.alloc(), STACK).expect(&rt, "the stack is read");
    let name = text(rt.alloc(), b"2").expect(&rt, "there is memory");
    assert!(rt; means_current(&stack));
    // The field 12 is met by its name on card 9.
    assert!(rt; is_met(field_named(&stack, 9, Layer::Card, &name), 12, 9));
    assert!(rt; has_no_layer(&stack));
    assert!(rt; lacks_properties(rt.alloc(), &stack));
    for row in REFUSED {
        assert!(rt; is_refused(rt.alloc(), &stack, row));
    }
}
