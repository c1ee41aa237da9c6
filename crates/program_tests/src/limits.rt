//! Where a run is cut off: by a reader or a writer that fails at a call, and by a line or an input that is too long.

use crate::talks::{Devices, EMPTY, SOUND, Talk, is_met};
use headline::RunFault;
use session::LONGEST_LINE;
use std::alloc::Global;

const LINES: &[u8] = b".where\ngo card 2\n.where\n";

/// What is written where no call fails.
const WHOLE: &[u8] = b"> 2\nok\nok\n> 4\nok\n";

/// How much of it is written once so many lines are read.
const WRITTEN: &[usize] = &[0, 7, 10, 17];

/// The first bytes of what is written.
fn written(bytes: usize) -> &'static [u8] {
    &WHOLE[..bytes.min(WHOLE.len())]
}

/// How much is written once so many bytes are read.
fn written_after(calls: usize) -> usize {
    let read = &LINES[..calls.min(LINES.len())];
    let lines = read.iter().filter(|byte| **byte == b'\n').count();
    WRITTEN[lines.min(3)]
}

/// A run whose reader fails at a call.
fn unread(input: &'static [u8], calls: usize, bytes: usize) -> Talk<'static, 'static> {
    Talk {
        devices: Devices {
            read_fails_at: calls,
            ..SOUND
        },
        input,
        written: written(bytes),
        ran: Err(RunFault::Read),
        failures: (1, 0, 0),
        ..EMPTY
    }
}

/// A run whose writer takes one byte at a time, and fails at a call.
fn unwritten(calls: usize) -> Talk<'static, 'static> {
    Talk {
        devices: Devices {
            most_written: 1,
            write_fails_at: calls,
            ..SOUND
        },
        input: LINES,
        written: written(calls),
        ran: Err(RunFault::Write),
        failures: (0, 1, 0),
        ..EMPTY
    }
}

/// A line that is cut off saves nothing.
#[test]
fn a_reader_that_fails_cuts_a_line_off(rt: HostRuntime) {
    for calls in 0..=LINES.len() {
        let talk = unread(LINES, calls, written_after(calls));
        assert!(rt; is_met(rt.alloc(), &talk) == Some(true), "call {calls}");
    }
    for calls in 0..6 {
        let talk = unread(b".save\n", calls, 0);
        assert!(rt; is_met(rt.alloc(), &talk) == Some(true), "call {calls}");
    }
}

#[test]
fn a_writer_that_fails_cuts_an_answer_off(rt: HostRuntime) {
    for calls in 0..WHOLE.len() {
        let talk = unwritten(calls);
        assert!(rt; is_met(rt.alloc(), &talk) == Some(true), "call {calls}");
    }
}

/// A text, so many times.
fn repeated(alloc: Global, text: &[u8], count: usize) -> Option<Vec<u8>> {
    let mut bytes = Vec::new(alloc);
    for _ in 0..count {
        bytes.extend_from_slice(text).ok()?;
    }
    Some(bytes)
}

/// Whether a line that is too long is skipped.
fn long_line_is_skipped(alloc: Global) -> Option<bool> {
    let mut input = repeated(alloc, b"x", LONGEST_LINE + 1)?;
    input.extend_from_slice(b"\r\n.where\r\n.where").ok()?;
    let talk = Talk {
        input: &input,
        written: b"refused 5\n> 2\nok\n> 2\nok\n",
        ..EMPTY
    };
    is_met(alloc, &talk)
}

#[test]
fn a_line_that_is_too_long_is_skipped(rt: HostRuntime) {
    assert!(rt; long_line_is_skipped(rt.alloc()) == Some(true));
}

/// Whether of one line more than a million as many are answered, and no more.
fn million_lines_are_answered(alloc: Global) -> Option<bool> {
    let input = repeated(alloc, b".\n", 1_000_001)?;
    let written = repeated(alloc, b"refused 3\n", 1_000_000)?;
    let talk = Talk {
        devices: Devices {
            most_read: 4096,
            ..SOUND
        },
        input: &input,
        written: &written,
        ran: Err(RunFault::TooManyLines),
        ..EMPTY
    };
    is_met(alloc, &talk)
}

#[test]
fn a_million_lines_are_answered_and_no_more(rt: HostRuntime) {
    assert!(rt; million_lines_are_answered(rt.alloc()) == Some(true));
}
