//! Examples, with ample memory: the blank stack, the empty stack, and the stack Demo, whose background 1 has the field
//! 3 Note and whose cards are 2 A and 4 B.

use crate::stacks::{Change, Exchange, Fact, Setting, changed_stack, takes, takes_blank};
use ht_values::PartKind;
use object_table::{Kind, LayerId};
use std::alloc::Global;

const CARD: Kind = Kind::Card {
    background: 1,
    cant_delete: false,
};

const FIELD: Kind = Kind::BackgroundField {
    visible: true,
    lock_text: false,
    shared_text: false,
};

/// What holds of the empty stack, but for the next id, which is changed; its text tells the kinds.
const EMPTY: &[Fact] = &[
    Fact::Object(0, b"", b""),
    Fact::NoObject(3),
    Fact::Counts(2, 5),
    Fact::Orders(&[1], &[2]),
    Fact::Parts(LayerId::OfBackground(1), &[]),
    Fact::Parts(LayerId::OfCard(2), &[]),
];

/// From the empty stack to Demo.
const DEMO: &[Change] = &[
    (Exchange::Next(5, 3), EMPTY),
    (Exchange::Put(0, b"Demo", Kind::Stack, Some(b"")), &[]),
    (Exchange::Put(2, b"A", CARD, Some(b"")), &[]),
    (Exchange::Put(3, b"Note", FIELD, None), &[]),
    (Exchange::Put(4, b"B", CARD, None), &[]),
    (Exchange::Parts(1, &[3]), &[]),
    (Exchange::Parts(4, &[]), &[]),
    (Exchange::Cards(&[2, 4]), DEMO_FACTS),
];

const ON_BACKGROUND: LayerId = LayerId::OfBackground(1);

const DEMO_FACTS: &[Fact] = &[
    Fact::Object(0, b"Demo", b""),
    Fact::Object(3, b"Note", b""),
    Fact::Object(4, b"B", b""),
    Fact::NoObject(5),
    Fact::Counts(4, 5),
    Fact::Orders(&[1], &[2, 4]),
    // A layer is named by its kind.
    Fact::Parts(LayerId::OfBackground(1), &[3]),
    Fact::Parts(LayerId::OfCard(4), &[]),
    Fact::NoLayer(LayerId::OfCard(1)),
    Fact::NoLayer(LayerId::OfBackground(3)),
    Fact::NoLayer(LayerId::OfCard(9)),
    // Cards are numbered from one, and so are objects.
    Fact::CardAt(1, Some(2)),
    Fact::CardAt(2, Some(4)),
    Fact::CardAt(0, None),
    Fact::CardAt(3, None),
    Fact::Number(0, None),
    Fact::Number(1, Some(1)),
    Fact::Number(4, Some(2)),
    Fact::Number(3, Some(1)),
    Fact::Number(5, None),
    // A part is found by its number, by its id and by its name.
    Fact::PartAt(ON_BACKGROUND, PartKind::Field, 1, Some(3)),
    Fact::PartAt(ON_BACKGROUND, PartKind::Field, 0, None),
    Fact::PartAt(ON_BACKGROUND, PartKind::Field, 2, None),
    Fact::PartAt(ON_BACKGROUND, PartKind::Button, 1, None),
    Fact::PartOfId(ON_BACKGROUND, PartKind::Field, 3, Some(3)),
    Fact::PartOfId(ON_BACKGROUND, PartKind::Field, 2, None),
    Fact::PartOfId(LayerId::OfCard(2), PartKind::Field, 3, None),
    Fact::PartOfName(ON_BACKGROUND, PartKind::Field, b"nOTE", Some(3)),
    Fact::PartOfName(ON_BACKGROUND, PartKind::Field, b"Not", None),
    Fact::Text(3, 2, None),
    // An object has the properties of its kind.
    Fact::MaySet(3, Setting::NoName, true),
    Fact::MaySet(3, Setting::SharedText, true),
    Fact::MaySet(3, Setting::Hilite, false),
    Fact::MaySet(4, Setting::CantDelete, true),
    Fact::MaySet(4, Setting::Visible, false),
    Fact::MaySet(5, Setting::NoName, false),
];

const RENUMBERED: &[Change] = &[
    (
        Exchange::Take(3, Some(b"Note")),
        &[Fact::NoObject(3), Fact::Counts(3, 5)],
    ),
    (
        Exchange::Put(6, b"Note", Kind::Stack, None),
        &[Fact::Object(6, b"Note", b"")],
    ),
];

/// Objects that go are not counted.
const TAKEN: &[Change] = &[
    (Exchange::Take(3, Some(b"Note")), &[Fact::Counts(3, 5)]),
    (Exchange::Take(3, None), &[Fact::Counts(3, 5)]),
    (Exchange::Take(9, None), &[Fact::Counts(3, 5)]),
    (Exchange::Take(0, Some(b"Demo")), &[Fact::Counts(3, 5)]),
    (Exchange::Take(4, Some(b"B")), &[Fact::Counts(2, 5)]),
];

/// A field keeps shared and own texts, of which an empty one is a text too.
const TEXTS: &[Change] = &[
    (Exchange::Text(3, 0, Some(b"all"), None), &[]),
    (
        Exchange::Text(3, 2, Some(b"own"), None),
        &[
            Fact::Text(3, 0, Some(b"all")),
            Fact::Text(3, 2, Some(b"own")),
            Fact::Text(3, 4, None),
            Fact::Text(2, 3, None),
        ],
    ),
    (
        Exchange::Text(3, 2, None, Some(b"own")),
        &[Fact::Text(3, 2, None), Fact::Text(3, 0, Some(b"all"))],
    ),
    (
        Exchange::Text(3, 2, Some(b""), None),
        &[Fact::Text(3, 2, Some(b"")), Fact::Text(3, 4, None)],
    ),
    (
        Exchange::Text(3, 2, Some(b"late"), Some(b"")),
        &[Fact::Text(3, 2, Some(b"late"))],
    ),
    (
        Exchange::Text(3, 2, Some(b""), Some(b"late")),
        &[Fact::Text(3, 2, Some(b""))],
    ),
];

/// The texts of a card are found whichever of them came first, also where ids lie between.
const SCATTERED: &[Change] = &[
    (Exchange::Text(90, 2, Some(b"last"), None), &[]),
    (
        Exchange::Text(7, 2, Some(b"first"), None),
        &[Fact::Text(8, 2, None), Fact::Text(90, 2, Some(b"last"))],
    ),
    (
        Exchange::OpenTexts(&[95, 8, 90, 5, 8], 2),
        &[
            Fact::Text(5, 2, None),
            Fact::Text(7, 2, Some(b"first")),
            Fact::Text(8, 2, None),
            Fact::Text(90, 2, Some(b"last")),
            Fact::Text(95, 2, None),
        ],
    ),
    (Exchange::OpenTexts(&[], 3), &[Fact::Text(90, 3, None)]),
    (Exchange::Text(40, 2, Some(b"between"), None), &[]),
    (
        Exchange::Text(8, 2, Some(b"next"), None),
        &[
            Fact::Text(7, 2, Some(b"first")),
            Fact::Text(8, 2, Some(b"next")),
            Fact::Text(9, 2, None),
            Fact::Text(40, 2, Some(b"between")),
            Fact::Text(90, 2, Some(b"last")),
            Fact::Text(40, 4, None),
        ],
    ),
    (
        Exchange::Text(40, 2, Some(b"again"), Some(b"between")),
        &[Fact::Text(40, 2, Some(b"again"))],
    ),
    (
        Exchange::Text(90, 2, None, Some(b"last")),
        &[Fact::Text(90, 2, None), Fact::Text(8, 2, Some(b"next"))],
    ),
];

/// A button keeps shared and own hilites.
const HILITES: &[Change] = &[
    (
        Exchange::Hilite(5, 2, Some(true), None),
        &[Fact::Hilite(5, 2, Some(true)), Fact::Hilite(5, 0, None)],
    ),
    (
        Exchange::OpenHilites(&[4, 5, 6], 2),
        &[
            Fact::Hilite(4, 2, None),
            Fact::Hilite(5, 2, Some(true)),
            Fact::Hilite(6, 2, None),
        ],
    ),
    (
        Exchange::Hilite(5, 2, None, Some(true)),
        &[Fact::Hilite(5, 2, None)],
    ),
];

/// An object of the greatest id stands alone. An empty object has no name and no script.
const FAR: &[Change] = &[
    (
        Exchange::Put(1_000_000, b"Far", Kind::Stack, None),
        &[
            Fact::Object(1_000_000, b"Far", b""),
            Fact::NoObject(999_999),
            Fact::NoObject(0),
            Fact::Counts(1, 1),
        ],
    ),
    (
        Exchange::Put(9, b"", Kind::Background { cant_delete: true }, None),
        &[Fact::Object(9, b"", b""), Fact::Locked(9)],
    ),
];

/// What is done with Demo, beginning anew with each row.
const COURSES: &[&[Change]] = &[
    RENUMBERED,
    TAKEN,
    &[(Exchange::Backgrounds(&[1]), &[Fact::Orders(&[], &[2, 4])])],
    &[(Exchange::Next(7, 5), &[Fact::Counts(4, 7)])],
    TEXTS,
    SCATTERED,
    HILITES,
];

/// Whether Demo, which is made of the empty stack, changes so.
fn demo_takes(alloc: Global, changes: &[Change]) -> bool {
    match changed_stack(alloc, DEMO) {
        Some(mut stack) => takes(alloc, &mut stack, changes),
        None => false,
    }
}

#[test]
fn an_exchange_gives_what_was_there(rt: HostRuntime) {
    assert!(rt; takes_blank(rt.alloc(), FAR));
    for (i, changes) in COURSES.iter().enumerate() {
        assert!(rt; demo_takes(rt.alloc(), changes), "{i}");
    }
}
