//! Bytes up to a limit, over readers that give one byte a call and fail in mid-stream.

use crate::slow_devices::Drip;
use devices::{BytesFault, Watched, bytes_of};
use std::alloc::Global;
use std::io::Read;

/// What came of reading, in a word.
fn word_of(outcome: &Result<Vec<u8>, BytesFault>, whole: &[u8]) -> &'static str {
    match outcome {
        Ok(bytes) if bytes.as_slice() == whole => "all",
        Ok(_) => "other bytes",
        Err(BytesFault::TooMany) => "too many",
        Err(BytesFault::Device) => "device",
        Err(BytesFault::Memory) => "memory",
    }
}

/// What came of reading these bytes up to the limit, in a word, and how many calls failed.
fn read_up_to<R: Read>(
    alloc: Global,
    reader: &mut R,
    limit: usize,
    whole: &[u8],
) -> (&'static str, u64) {
    let mut watched = Watched::new(reader);
    let outcome = bytes_of(alloc, &mut watched, limit);
    (word_of(&outcome, whole), watched.failures())
}

/// What came of reading `abcdef` byte after byte, where a call fails.
fn dripped(alloc: Global, limit: usize, fails_at: usize) -> (&'static str, u64) {
    let mut drip = Drip {
        bytes: b"abcdef",
        most: 1,
        calls: 0,
        fails_at,
    };
    read_up_to(alloc, &mut drip, limit, b"abcdef")
}

/// Fails at no call.
const NEVER: usize = 100;

/// A limit, the call that fails, what comes in a word, and how many calls failed.
const ROWS: &[(usize, usize, &str, u64)] = &[
    (100, NEVER, "all", 0),
    (6, NEVER, "all", 0),
    (5, NEVER, "too many", 0),
    (0, NEVER, "too many", 0),
    (6, 0, "device", 1),
    (6, 3, "device", 1),
    (6, 6, "device", 1),
    (5, 6, "too many", 0),
];

#[test]
fn bytes_are_read_whole_up_to_the_limit(rt: HostRuntime) {
    for (limit, fails_at, word, failures) in ROWS {
        assert!(rt;
            dripped(rt.alloc(), *limit, *fails_at) == (*word, *failures),
            "at {limit}, {fails_at}"
        );
    }
}

/// What comes of 20,000 bytes, in a word, and how many are left.
fn left_after(alloc: Global, limit: usize) -> Option<(&'static str, usize)> {
    let bytes = vec![in alloc; b's'; 20_000].ok()?;
    let mut rest = bytes.as_slice();
    let (word, _) = read_up_to(alloc, &mut rest, limit, &bytes);
    Some((word, rest.len()))
}

#[test]
fn one_byte_past_the_limit_is_read_and_none_after_it(rt: HostRuntime) {
    assert!(rt; left_after(rt.alloc(), 10_000) == Some(("too many", 9_999)));
    assert!(rt; left_after(rt.alloc(), 20_000) == Some(("all", 0)));
}
