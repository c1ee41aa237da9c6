//! Which arguments parameters get, and where their names stand.

use crate::cases::{Case, first_unmet, text_of};
use ht_values::Name;
use name_lists::{NamePlaces, Parameters};
use std::alloc::Global;

/// A name of one letter.
fn name_of(alloc: Global, letter: u8) -> Option<Name> {
    Name::new(alloc, text_of(alloc, &[letter])?).ok()
}

/// Parameters whose names have one letter each.
fn parameters_of(alloc: Global, letters: &[u8]) -> Option<Parameters> {
    let mut written = Vec::new(alloc);
    for letter in letters {
        written.push(text_of(alloc, &[*letter])?).ok()?;
    }
    Parameters::new(alloc, written).ok()
}

/// Whether the names that differ get the arguments of these numbers.
fn have_arguments(alloc: Global, parameters: &Parameters, arguments: &[usize]) -> bool {
    if parameters.count() != arguments.len() {
        return false;
    }
    for (place, argument) in arguments.iter().enumerate() {
        match parameters.binding(alloc, place) {
            Ok(binding) => {
                if binding.argument != *argument {
                    return false;
                }
            }
            Err(_) => return false,
        }
    }
    true
}

/// The letters of parameters, and the number of the argument of each that differs.
struct Given(&'static [u8], &'static [usize]);

impl Case for Given {
    fn is_met(&self, alloc: Global) -> bool {
        match parameters_of(alloc, self.0) {
            Some(parameters) => have_arguments(alloc, &parameters, self.1),
            None => false,
        }
    }
}

const GIVEN: &[Given] = &[
    Given(b"", &[]),
    Given(b"ab", &[0, 1]),
    Given(b"abA", &[2, 1]),
    Given(
        b"abcdefghijklmnopqrQ",
        &[0, 1, 2, 3, 4, 5, 6, 7, 8, 9, 10, 11, 12, 13, 14, 15, 18, 17],
    ),
];

#[test]
fn of_one_name_the_last_argument_counts(rt: HostRuntime) {
    assert!(rt; first_unmet(rt.alloc(), GIVEN).is_none());
}

fn places_of(alloc: Global, letters: &[u8]) -> Option<NamePlaces> {
    parameters_of(alloc, letters)?.places(alloc).ok()
}

/// The letters of parameters, a letter that is none of the first sixteen, and its place.
struct Placed(&'static [u8], u8, Option<usize>);

impl Case for Placed {
    fn is_met(&self, alloc: Global) -> bool {
        match (places_of(alloc, self.0), name_of(alloc, self.1)) {
            (Some(places), Some(name)) => places.get(&name) == self.2,
            _ => false,
        }
    }
}

/// More letters than are looked at one by one, of which one comes again.
const MANY: &[u8] = b"zyxwvutsrqponmlkjihgfedcbaZ0123456789";

const PLACED: &[Placed] = &[
    Placed(b"ab", b'z', None),
    Placed(b"abcdefghijklmnopqr", b'z', None),
    Placed(b"abcdefghijklmnopqr", b'q', Some(16)),
    Placed(b"abcdefghijklmnopqr", b'R', Some(17)),
    Placed(MANY, b'a', Some(25)),
    Placed(MANY, b'B', Some(24)),
    Placed(MANY, b'0', Some(26)),
    Placed(MANY, b'9', Some(35)),
    Placed(MANY, b'-', None),
    Placed(MANY, b'!', None),
];

#[test]
fn places_beyond_sixteen_are_kept(rt: HostRuntime) {
    assert!(rt; first_unmet(rt.alloc(), PLACED).is_none());
}
