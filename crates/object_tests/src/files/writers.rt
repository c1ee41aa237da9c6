//! Stacks that are written to a writer, piece by piece: what it gets, how much at once, and that it is told where the
//! writer fails.

ghost use Rattle.object_table.specs.WellFormed.{IsWellFormed};

use super::limits::{BACKGROUNDS, LONG_SCRIPT, TEN_THOUSAND};
use super::pieces::{Piece, text_of};
use crate::unseen::STACK;
use object_table::Stack;
use stack_file::*;
use std::alloc::Global;
use std::io;
use std::io::{Error, ErrorKind, Write};

/// Takes all bytes, and fails at the call of this number, counted from 0.
#[derive(Drop)]
struct Meter {
    calls: u64,
    fails_at: u64,
    /// The most bytes that it was given at once.
    most: usize,
}

impl Meter {
    fn failing_at(call: u64) -> Meter {
        Meter {
            calls: 0,
            fails_at: call,
            most: 0,
        }
    }
}

impl Write for Meter {
    fn write(&mut self, buf: &[u8]) -> io::Result<usize> {
        if self.calls == self.fails_at {
            return Err(Error::from(ErrorKind::StorageFull));
        }
        self.calls = self.calls.saturating_add(1);
        self.most = self.most.max(buf.len());
        Ok(buf.len())
    }

    fn flush(&mut self) -> io::Result<()> {
        Ok(())
    }
}

/// Whether a vector gets this text of a stack.
fn is_given(alloc: Global, stack: &Stack, due: &[u8]) -> bool
    requires { IsWellFormed stack.now.content }
{
    let mut text = Vec::new(alloc);
    write_to(alloc, stack, &mut text).is_ok() && text.as_slice() == due
}

/// Whether it is told at each of so many calls that the writer fails there.
fn fails_at_each(alloc: Global, stack: &Stack, calls: u64) -> bool
    requires { IsWellFormed stack.now.content }
{
    for call in 0..calls {
        match write_to(alloc, stack, &mut Meter::failing_at(call)) {
            Err(error) if error.kind() == ErrorKind::StorageFull => {}
            _ => return false,
        }
    }
    true
}

/// A text, in how many pieces it is written, and the most bytes that one has.
struct Row {
    text: &'static [Piece],
    calls: u64,
    most: usize,
}

/// The length of a buffer that is full, with the text of the smallest objects behind it.
const MOST: usize = 65_536 + 100;

const ROWS: &[Row] = &[
    Row {
        text: &[Piece::Text(STACK)],
        calls: 1,
        most: 2_000,
    },
    // Ten thousand objects, of 927,784 bytes.
    Row {
        text: TEN_THOUSAND,
        calls: 15,
        most: MOST,
    },
    // Cards and backgrounds without a part, of 562,856 bytes.
    Row {
        text: BACKGROUNDS,
        calls: 9,
        most: MOST,
    },
    // A script of 60,002 bytes.
    Row {
        text: LONG_SCRIPT,
        calls: 1,
        most: MOST,
    },
];

/// Whether a stack is written in so many pieces as a row says, and none has more bytes.
fn is_in_pieces(alloc: Global, stack: &Stack, row: &Row) -> bool
    requires { IsWellFormed stack.now.content }
{
    let mut meter = Meter::failing_at(u64::MAX);
    write_to(alloc, stack, &mut meter).is_ok() && meter.calls == row.calls && meter.most <= row.most
}

/// Whether a text is read and written as a row says.
fn is_right(alloc: Global, row: &Row) -> bool {
    let Some(text) = text_of(alloc, row.text) else {
        return false;
    };
    match read(alloc, &text) {
        Ok(stack) => is_given(alloc, &stack, &text)
            && is_in_pieces(alloc, &stack, row)
            && fails_at_each(alloc, &stack, row.calls),
        Err(_) => false,
    }
}

#[test]
fn a_stack_is_written_piece_by_piece(rt: HostRuntime) {
    for (i, row) in ROWS.iter().enumerate() {
        assert!(rt; is_right(rt.alloc(), row), "{i}");
    }
}
