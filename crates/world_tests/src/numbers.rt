//! Numbers that are known before anything is computed.

use crate::unseen::put_g;
use crate::worlds::{PlainWorld, TWO_CARDS, world_of};
use ht_values::Text;
use meaning::{Budget, Frame, TextUse};
use primitives::numbers::number_of_operators;
use primitives::values::expression;
use std::alloc::Global;

/// An expression, and the number that is known of it where the global `g` is 1.
type KnownRow = (&'static [u8], Option<i64>);

const KNOWN: &[KnownRow] = &[
    (b"1 + 2 * 3", Some(7)),
    (b"1 * 2 + 3", Some(5)),
    (b"10 - 4 - 3", Some(3)),
    (b"10 - (4 - 3)", Some(9)),
    (b"(7 - 2) * (3 + 1)", Some(20)),
    (b"g + g + g", Some(3)),
    (b"(g + 6)", Some(7)),
    (b"17 mod 5 - 17 div 5", Some(-1)),
    (b"2 ^ 3 ^ 2", Some(512)),
    (b"1 + 4 / 2", Some(3)),
    (b"1 + -g", Some(0)),
    (b"1 + -(2 + 3)", Some(-4)),
    (b"2 * -4 * g", Some(-8)),
    (b"-(2 + 3)", Some(-5)),
    (b"-(-(g + (g * 2)))", Some(3)),
    // So many operators that they stand in a list.
    (
        b"1 + 2 + 3 + 4 + 5 + 6 + 7 + 8 + 9 + 10 - 11 - 12",
        Some(32),
    ),
    (
        b"g * 2 * 2 * 2 * 2 * 2 * 2 * 2 * 2 * 2 * 2 div 3 mod (99 + g)",
        Some(41),
    ),
    (b"1 + 1 + 1 + 1 + 1 + 1 + 1 + 1 + 1 + 1 + 1 + h", None),
    (
        b"9223372036854775807 - 1 - 1 - 1 - 1 - 1 - 1 - 1 - 1 - 1 + 10",
        None,
    ),
    (b"1 & 1 & 1 & 1 & 1 & 1 & 1 & 1 & 1 & 1 & 1", None),
    // A name alone, and one operator between names and numbers, are looked at where they stand.
    (b"g", None),
    (b"g + 6", None),
    // Operators that give no number, or none of these.
    (b"g & g + 1", None),
    (b"1 + 2 < 3 + 4", None),
    (b"1 + 5 / 2", None),
    (b"1 + 2 ^ (0 - 1)", None),
    // Operands that are no numbers.
    (b"1 + h + 1", None),
    (b"1 + -h", None),
    (b"-(h)", None),
    (b"-(g & g)", None),
    (b"not (g = 1)", None),
    (b"1 + \"1\" + 1", None),
    (b"1 + (1 & 1)", None),
    // Faults.
    (b"1 + 7 div 0", None),
    (b"999999999999999999 * 999999999999999999 * 1", None),
    (b"1 + 10 ^ 19", None),
    (b"1 + -(-9223372036854775807 - 1)", None),
];

fn known(world: &PlainWorld, run: &Budget, text: &Text) -> Option<i64> {
    let expr = expression(run, TextUse::Value, text).ok()?;
    number_of_operators(world, &Frame::typed(run.alloc(), 2), &expr)
}

/// The place of the first row of which another number is known.
fn wrong_row(alloc: Global, world: &PlainWorld, run: &Budget) -> Option<usize> {
    for (place, row) in KNOWN.iter().enumerate() {
        let Ok(text) = Text::from_slice(alloc, row.0) else {
            return Some(place);
        };
        if known(world, run, &text) != row.1 {
            return Some(place);
        }
    }
    None
}

#[test]
fn numbers_are_known_at_once(rt: HostRuntime) {
    let mut world = world_of(rt.alloc(), TWO_CARDS).expect(&rt, "the stack is read");
    put_g(rt.alloc(), &mut world).expect(&rt, "there is memory");
    let run = Box::new(rt.alloc(), Budget::new(rt.alloc(), 1)).expect(&rt, "there is memory");
    assert!(rt; wrong_row(rt.alloc(), &world, &run).is_none());
}
