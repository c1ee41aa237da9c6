//! Searches that compare so much in vain that they go on in folded copies.

use crate::cases::{Case, first_unmet};
use ht_values::{Func, Op, Text, Value, binary, built_in};
use std::alloc::Global;

/// Bytes so many times, and bytes at the end.
struct Long(&'static [u8], usize, &'static [u8]);

fn value_of(alloc: Global, long: &Long) -> Option<Value> {
    let mut bytes = Vec::new(alloc);
    for _ in 0..long.1 {
        bytes.extend_from_slice(long.0).ok()?;
    }
    bytes.extend_from_slice(long.2).ok()?;
    Some(Value::of_text(Text::from_vec(bytes).ok()?))
}

/// A run, a text, and the number of the byte at which the run stands first in the text; 0 for none.
struct Sought(Long, Long, i64);

/// Whether the run, which is the first of the two, stands in the text just where it is wanted.
fn is_found(alloc: Global, run_and_text: &[Value; 2], place: i64) -> bool {
    let [run, text] = run_and_text;
    matches!(binary(alloc, Op::IsIn, run, text), Ok(value) if value.truth() == Ok(0 < place))
        && matches!(
            built_in(alloc, Func::Offset, run_and_text),
            Ok(value) if value.number() == Ok(place)
        )
}

impl Case for Sought {
    fn is_met(&self, alloc: Global) -> bool {
        match (value_of(alloc, &self.0), value_of(alloc, &self.1)) {
            (Some(run), Some(text)) => is_found(alloc, &[run, text], self.2),
            _ => false,
        }
    }
}

const SOUGHT: &[Sought] = &[
    Sought(Long(b"aB", 100, b"C"), Long(b"Ab", 500, b"c"), 801),
    Sought(Long(b"aB", 100, b"D"), Long(b"Ab", 500, b"c"), 0),
    Sought(Long(b"A", 1, b"c"), Long(b"a", 600, b"C"), 600),
    Sought(Long(b"A", 1, b"d"), Long(b"a", 600, b"C"), 0),
    Sought(Long(b"A", 15_000, b"b"), Long(b"a", 29_999, b"B"), 15_000),
    Sought(Long(b"A", 15_000, b"b"), Long(b"a", 30_000, b""), 0),
];

#[test]
fn long_searches_find_the_first_place(rt: HostRuntime) {
    assert!(rt; first_unmet(rt.alloc(), SOUGHT) == None);
}
