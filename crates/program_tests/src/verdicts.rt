//! The verdict on each fault, as this project's profile has it.

use command_line::{CliFault, cut, verdict};
use devices::BytesFault;
use ht_values::Text;
use stack_file::FileError;
use std::alloc::Global;

/// The status and the line for a fault with a stack of this name.
fn told(alloc: Global, fault: &CliFault, name: &[u8]) -> Option<(u8, Text)> {
    let name = cut(alloc, name).ok()?;
    verdict(alloc, fault, &name).ok()
}

/// Whether the verdict on a fault with the stack `a.stack` has this status and line.
fn tells(alloc: Global, fault: &CliFault, status: u8, line: &str) -> bool {
    match told(alloc, fault, b"a.stack") {
        Some((number, text)) => number == status && text.as_slice() == line.as_bytes(),
        None => false,
    }
}

/// A fault without a text of its own.
#[derive(Clone, Copy)]
enum Plain {
    Refused(FileError),
    CannotRead,
    Read,
    Write,
    TooManyLines,
    Memory,
}

fn fault_of(plain: Plain) -> CliFault {
    match plain {
        Plain::Refused(error) => CliFault::Refused(error),
        Plain::CannotRead => CliFault::CannotRead,
        Plain::Read => CliFault::Read,
        Plain::Write => CliFault::Write,
        Plain::TooManyLines => CliFault::TooManyLines,
        Plain::Memory => CliFault::Memory,
    }
}

const FAULTS: &[(Plain, u8, &str)] = &[
    (
        Plain::Refused(FileError::BadLine(3)),
        2,
        "card_cli: stack refused 1 at line 3",
    ),
    (
        Plain::Refused(FileError::BadId(19)),
        2,
        "card_cli: stack refused 2 at line 19",
    ),
    (
        Plain::Refused(FileError::Truncated),
        2,
        "card_cli: stack refused 3",
    ),
    (
        Plain::Refused(FileError::TooMany),
        2,
        "card_cli: stack refused 4",
    ),
    (Plain::CannotRead, 1, "card_cli: cannot read a.stack"),
    (Plain::Read, 1, "card_cli: read fault"),
    (Plain::Write, 1, "card_cli: write fault"),
    (Plain::TooManyLines, 1, "card_cli: too many lines"),
    (Plain::Memory, 1, "card_cli: no memory"),
];

#[test]
fn each_fault_has_its_status_and_line(rt: HostRuntime) {
    for (plain, status, line) in FAULTS {
        assert!(rt;
            tells(rt.alloc(), &fault_of(*plain), *status, line),
            "{line}"
        );
    }
}

/// How long the line is of a stack with a name of 5,000 bytes that can't be read.
fn length_told(alloc: Global) -> Option<usize> {
    let name = vec![in alloc; b'n'; 5_000].ok()?;
    let (_, line) = told(alloc, &CliFault::CannotRead, &name)?;
    Some(line.len())
}

#[test]
fn a_usage_fault_has_its_own_text_and_a_long_name_is_cut_after_4096_bytes(rt: HostRuntime) {
    let usage = cut(rt.alloc(), b"error: no").expect(&rt, "there is memory");
    assert!(rt; tells(rt.alloc(), &CliFault::Usage(usage), 2, "error: no"));
    assert!(rt; length_told(rt.alloc()) == Some(22 + 4_096));
}

/// Of the faults of a file's bytes, one alone is told as such.
#[test]
fn out_of_memory_is_told_as_such(rt: HostRuntime) {
    assert!(rt; matches!(CliFault::from(BytesFault::TooMany), CliFault::CannotRead));
    assert!(rt; matches!(CliFault::from(BytesFault::Device), CliFault::CannotRead));
    assert!(rt; matches!(CliFault::from(BytesFault::Memory), CliFault::Memory));
}
