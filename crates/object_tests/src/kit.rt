//! The externals of the kit and the text tools, each in a box: how they begin, and conversations that no run of the
//! program shows. The text tools aren't in the program of the rows, and the kit gets no answer there to what it hasn't
//! asked.

use crate::boxed_externals::{Made, begins, make_external};
use crate::conversations::{Asked, Profile, Told, Turn, other_turn, takes};
use externals::{Ask, External, law_of_ask, law_of_external, laws_of_flips};
use std::alloc::Global;

const BEGUN: &[(Made, Profile)] = &[
    (
        Made::Count(0),
        Profile {
            name: b"Count",
            kind: 1,
            is_function: true,
            cells: 1,
            text: b"0",
        },
    ),
    (
        Made::Count(-7),
        Profile {
            name: b"Count",
            kind: 1,
            is_function: true,
            cells: 1,
            text: b"-7",
        },
    ),
    (
        Made::Bins,
        Profile {
            name: b"Bins",
            kind: 2,
            is_function: false,
            cells: 16,
            text: b"",
        },
    ),
    (
        Made::Relay,
        Profile {
            name: b"Relay",
            kind: 3,
            is_function: false,
            cells: 2,
            text: b"",
        },
    ),
    (
        Made::Gate,
        Profile {
            name: b"doMenu",
            kind: 4,
            is_function: false,
            cells: 1,
            text: b"0",
        },
    ),
    (
        Made::Replace,
        Profile {
            name: b"Replace",
            kind: 5,
            is_function: true,
            cells: 0,
            text: b"",
        },
    ),
    (
        Made::Table,
        Profile {
            name: b"Table",
            kind: 6,
            is_function: false,
            cells: 64,
            text: b"",
        },
    ),
];

#[test]
fn they_begin_with_their_cells(rt: HostRuntime) {
    for (made, profile) in BEGUN {
        assert!(rt; begins(rt.alloc(), *made, profile));
    }
}

/// A count of nearly the greatest number, and then of that.
const LAST_COUNTS: &[Turn] = &[
    Turn(
        Told::Start(""),
        Asked::Done(b"9223372036854775807"),
        &[(0, b"9223372036854775806", b"9223372036854775807")],
    ),
    Turn(Told::Start(""), Asked::Fail, &[]),
];

const COUNTS: &[Turn] = &[Turn(Told::Answer("", b"1"), Asked::Fail, &[])];

const BINS: &[Turn] = &[Turn(Told::Answer("1,x", b""), Asked::Fail, &[])];

const RELAYED: &[Turn] = &[
    Turn(Told::Answer("5,5", b""), Asked::Fail, &[]),
    Turn(Told::Answer("", b""), Asked::Fail, &[]),
];

const GATED: &[Turn] = &[Turn(Told::Answer("New Card", b""), Asked::Fail, &[])];

const REPLACED: &[Turn] = &[
    Turn(Told::Start("banana,an,AN"), Asked::Done(b"bANANa"), &[]),
    Turn(Told::Start("aaaaa,aa,b"), Asked::Done(b"bba"), &[]),
    Turn(Told::Start("aaa,a,aa"), Asked::Done(b"aaaaaa"), &[]),
    Turn(Told::Start("Bob,b,"), Asked::Done(b"Bo"), &[]),
    Turn(Told::Start("abc,,x"), Asked::Done(b"abc"), &[]),
    Turn(Told::Start("ab,abc,x"), Asked::Done(b"ab"), &[]),
    Turn(Told::Start(",a,x"), Asked::Done(b""), &[]),
    Turn(Told::Start("abc,a"), Asked::Fail, &[]),
    Turn(Told::Start("abc,a,b,c"), Asked::Fail, &[]),
    // A value that is too long fails.
    Turn(Told::Doubled(15_000), Asked::Any, &[]),
    Turn(Told::Doubled(15_001), Asked::Fail, &[]),
];

const KEPT: &[Turn] = &[
    Turn(Told::Start("get,one"), Asked::Done(b""), &[]),
    Turn(
        Told::Start("put,one,1"),
        Asked::Done(b""),
        &[(0, b"", b"one"), (32, b"", b"1")],
    ),
    Turn(
        Told::Start("put,two,"),
        Asked::Done(b""),
        &[(1, b"", b"two")],
    ),
    Turn(
        Told::Start("PUT,ONE,first"),
        Asked::Done(b""),
        &[(32, b"1", b"first")],
    ),
    Turn(Told::Start("get,One"), Asked::Done(b"first"), &[]),
    Turn(
        Told::Start("delete,one"),
        Asked::Done(b""),
        &[(0, b"one", b""), (32, b"first", b"")],
    ),
    Turn(
        Told::Start("put,three,3"),
        Asked::Done(b""),
        &[(0, b"", b"three"), (32, b"", b"3")],
    ),
    Turn(Told::Start("put,,x"), Asked::Fail, &[]),
    Turn(Told::Start("clear,three"), Asked::Fail, &[]),
    Turn(Told::Answer("get,three", b""), Asked::Fail, &[]),
];

const CONVERSATIONS: &[(Made, &[Turn])] = &[
    (Made::Count(i64::MAX - 1), LAST_COUNTS),
    (Made::Count(0), COUNTS),
    (Made::Bins, BINS),
    (Made::Relay, RELAYED),
    (Made::Gate, GATED),
    (Made::Replace, REPLACED),
    (Made::Table, KEPT),
];

#[test]
fn they_converse(rt: HostRuntime) {
    for (i, (made, turns)) in CONVERSATIONS.iter().enumerate() {
        let external = make_external(rt.alloc(), *made);
        assert!(rt; other_turn(rt.alloc(), external, turns).is_none(), "{i}");
    }
}

fn keeps_laws<E: External>(external: Option<E>) -> bool {
    law_of_ask(&Ask::Fail);
    laws_of_flips();
    match external {
        Some(external) => {
            law_of_external(&external);
            true
        }
        None => false,
    }
}

#[test]
fn laws_are_called(rt: HostRuntime) {
    assert!(rt; keeps_laws(make_external(rt.alloc(), Made::Gate)));
}

/// The first of the keys 0 to 99 that an external, if there is one, can't keep.
fn first_that_fails<E: External>(alloc: Global, external: Option<E>) -> Option<i64> {
    let mut external = external?;
    for key in 0..100 {
        if takes(
            alloc,
            &mut external,
            &Turn(Told::Put(key), Asked::Fail, &[]),
        ) {
            return Some(key);
        }
    }
    None
}

#[test]
fn a_table_keeps_32_keys(rt: HostRuntime) {
    let table = make_external(rt.alloc(), Made::Table);
    assert!(rt; first_that_fails(rt.alloc(), table) == Some(32));
}
