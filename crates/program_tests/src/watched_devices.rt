//! Examples, with devices that take a byte a call, take nothing, or fail at a call.

use crate::slow_devices::Sip;
use devices::*;
use std::alloc::Global;
use std::io::{Read, Write};

/// A call of a watched device: what it comes to, and how many calls have failed by then.
enum Call {
    Write(&'static [u8], Result<(), WriteFault>, u64),
    /// Whether it is flushed.
    Flush(bool, u64),
}

fn come_to<W: Write>(out: &mut Watched<W>, calls: &[Call]) -> bool {
    for call in calls {
        let (comes, due) = match call {
            Call::Write(bytes, outcome, failures) => (write_to(bytes, out) == *outcome, *failures),
            Call::Flush(is_done, failures) => (out.flush().is_ok() == *is_done, *failures),
        };
        if !comes || out.failures() != due {
            return false;
        }
    }
    true
}

/// A device that takes at most so many bytes a call and fails at a call, what is called on it, the bytes that it has
/// then taken, and how many calls it has answered, where that is known.
struct Row {
    most: usize,
    fails_at: usize,
    calls: &'static [Call],
    taken: &'static [u8],
    answered: Option<usize>,
}

const ROWS: &[Row] = &[
    // A writer that takes a byte a call gets them all.
    Row {
        most: 1,
        fails_at: 100,
        calls: &[Call::Write(b"abc", Ok(()), 0), Call::Flush(true, 0)],
        taken: b"abc",
        answered: Some(4),
    },
    // A writer that takes nothing fails once.
    Row {
        most: 0,
        fails_at: 100,
        calls: &[
            Call::Write(b"abc", Err(WriteFault { written: 0 }), 1),
            Call::Write(b"", Ok(()), 1),
        ],
        taken: b"",
        answered: None,
    },
    // A fault tells the bytes that went out.
    Row {
        most: 2,
        fails_at: 2,
        calls: &[
            Call::Write(b"abcdef", Err(WriteFault { written: 4 }), 1),
            Call::Flush(false, 2),
        ],
        taken: b"abcd",
        answered: Some(2),
    },
];

fn is_so(alloc: Global, row: &Row) -> bool {
    let mut sip = Sip::new(alloc, row.most, row.fails_at);
    let came = come_to(&mut Watched::new(&mut sip), row.calls);
    came && sip.taken.as_slice() == row.taken
        && (row.answered == Some(sip.calls) || row.answered.is_none())
}

#[test]
fn a_watched_writer_tells_what_went_out(rt: HostRuntime) {
    for (i, row) in ROWS.iter().enumerate() {
        assert!(rt; is_so(rt.alloc(), row), "{i}");
    }
}

fn hands_on<R: Read>(watched: &mut Watched<R>) -> bool {
    let mut buf = [0; 2];
    let is_read = matches!(watched.read(&mut buf), Ok(2));
    is_read && watched.failures() == 0 && buf == *b"ab"
}

#[test]
fn a_watched_reader_hands_on_the_bytes(rt: HostRuntime) {
    let mut bytes = b"abc".as_slice();
    assert!(rt; hands_on(&mut Watched::new(&mut bytes)));
}
