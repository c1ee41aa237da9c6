//! The text of a stack of two cards on one background, which has one field: with each byte changed, and cut at each
//! place. And the text of the empty stack.

use super::pieces::{Piece, text_of};
use super::{fault_of, is_written, writes};
use crate::plain_texts::Bytes;
use object_table::Stack;
use stack_file::*;
use std::alloc::Global;

const TWO_CARDS: Bytes = b"next 5\nname |Demo\nscript 0\nbackgrounds 1\n\
background 1\nname |\ncantDelete false\nscript 0\nparts 1\n\
field 3\nname |Note\nvisible true\nlockText false\nsharedText false\nscript 0\nshared 0\n\
cards 2\n\
card 2 1\nname |A\ncantDelete false\nscript 0\nparts 0\ntext 3 0\n\
card 4 1\nname |B\ncantDelete false\nscript 0\nparts 0\ntext 3 0\nend\n";

const FIRST: &[Piece] = &[Piece::Text(b"htstack 1\n"), Piece::Text(TWO_CARDS)];

const SECOND: &[Piece] = &[Piece::Text(b"htstack 2\n"), Piece::Text(TWO_CARDS)];

/// The first place at which a text with this byte is neither refused for what is in it nor written as it is, if there
/// is one.
fn first_other_place(alloc: Global, text: &mut Vec<u8>, byte: u8) -> Option<usize> {
    for place in 0..text.len() {
        let old = text[place];
        text[place] = byte;
        if fault_of(alloc, text).is_none() && !is_written(alloc, text) {
            return Some(place);
        }
        text[place] = old;
    }
    None
}

const BYTES: &[u8] = &[0, b'\r', b'|', b'9', 255];

#[test]
fn a_changed_text_is_refused_or_written_as_it_is(rt: HostRuntime) {
    let mut text = text_of(rt.alloc(), SECOND).expect(&rt, "there is memory");
    for byte in BYTES {
        assert!(rt;
            first_other_place(rt.alloc(), &mut text, *byte).is_none(),
            "byte {byte}"
        );
    }
}

/// Whether each part of a text up to its end is truncated.
fn are_truncated(alloc: Global, text: &[u8]) -> bool {
    for cut in 0..text.len() {
        if fault_of(alloc, &text[..cut]) != Some(FileError::Truncated) {
            return false;
        }
    }
    true
}

#[test]
fn each_part_of_a_text_is_truncated(rt: HostRuntime) {
    let text = text_of(rt.alloc(), FIRST).expect(&rt, "there is memory");
    assert!(rt; are_truncated(rt.alloc(), &text));
}

const EMPTY: Bytes = b"htstack 2\nnext 3\nname |\nscript 0\nbackgrounds 1\n\
background 1\nname |\ncantDelete false\nscript 0\nparts 0\n\
cards 1\ncard 2 1\nname |\ncantDelete false\nscript 0\nparts 0\nend\n";

#[test]
fn the_empty_stack_is_written_in_version_2(rt: HostRuntime) {
    let alloc = rt.alloc();
    assert!(rt; matches!(Stack::new(alloc), Ok(stack) if writes(alloc, &stack, EMPTY)));
}
