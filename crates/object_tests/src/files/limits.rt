//! Stack texts at their limits.

use super::pieces::{LAYER, Piece, text_of};
use super::{Due, comes_to};
use crate::stacks::Fact;
use stack_file::*;

const FIELD: &[u8] =
    b"\nname |\nvisible true\nlockText false\nsharedText false\nscript 0\nshared 0\n";

/// A stack of background 1 with 9,998 fields, and of card 2.
pub(super) const TEN_THOUSAND: &[Piece] = &[
    Piece::Text(b"htstack 2\nnext 10001\nname |\nscript 0\nbackgrounds 1\n"),
    Piece::Text(b"background 1\nname |\ncantDelete false\nscript 0\nparts 9998\n"),
    Piece::Numbers(b"field ", 3, 9_998, FIELD),
    Piece::Text(b"cards 1\ncard 2 1"),
    Piece::Text(LAYER),
    Piece::Numbers(b"text ", 3, 9_998, b" 0\n"),
    Piece::Text(b"end\n"),
];

/// The same with one field more.
const ONE_MORE: &[Piece] = &[
    Piece::Text(b"htstack 2\nnext 10002\nname |\nscript 0\nbackgrounds 1\n"),
    Piece::Text(b"background 1\nname |\ncantDelete false\nscript 0\nparts 9999\n"),
    Piece::Numbers(b"field ", 3, 9_999, FIELD),
    Piece::Text(b"cards 1\ncard 2 1"),
    Piece::Text(LAYER),
    Piece::Numbers(b"text ", 3, 9_999, b" 0\n"),
    Piece::Text(b"end\n"),
];

/// A stack of 5,000 backgrounds, with a card each.
pub(super) const BACKGROUNDS: &[Piece] = &[
    Piece::Text(b"htstack 2\nnext 10001\nname |\nscript 0\nbackgrounds 5000\n"),
    Piece::Numbers(b"background ", 1, 5_000, LAYER),
    Piece::Text(b"cards 5000\n"),
    Piece::Cards(5_001, 1, 5_000),
    Piece::Text(b"end\n"),
];

/// The empty stack up to its script, and from there on.
const START: &[u8] = b"htstack 2\nnext 3\nname |\n";

const END: &[u8] = b"backgrounds 1\nbackground 1\nname |\ncantDelete false\nscript 0\nparts 0\n\
cards 1\ncard 2 1\nname |\ncantDelete false\nscript 0\nparts 0\nend\n";

/// The empty stack with a script of 30,000 returns.
pub(super) const LONG_SCRIPT: &[Piece] = &[
    Piece::Text(START),
    Piece::Text(b"script 30001\n"),
    Piece::Repeated(30_001, b"|\n"),
    Piece::Text(END),
];

/// The empty stack with a script of one byte more.
const LONGER_SCRIPT: &[Piece] = &[
    Piece::Text(START),
    Piece::Text(b"script 30001\n"),
    Piece::Repeated(30_000, b"|\n"),
    Piece::Text(b"|a\n"),
    Piece::Text(END),
];

/// The empty stack with a script of every byte, in two lines: one before the return, and one behind it.
const EVERY_BYTE: &[Piece] = &[
    Piece::Text(START),
    Piece::Text(b"script 2\n|"),
    Piece::Spelled(0, 12),
    Piece::Text(b"\n|"),
    Piece::Spelled(14, 255),
    Piece::Text(b"\n"),
    Piece::Text(END),
];

const EMPTY_PIECE: &[Piece] = &[
    Piece::Text(START),
    Piece::Text(b"script 1\n|\n"),
    Piece::Text(END),
];

const LONE_RETURN: &[Piece] = &[
    Piece::Text(START),
    Piece::Text(b"script 1\n|\\0d\n"),
    Piece::Text(END),
];

const LIMITS: &[(&[Piece], Due)] = &[
    // Ten thousand objects are read, and one more is too many.
    (TEN_THOUSAND, Due::Stack(&[Fact::Counts(10_000, 10_001)])),
    (ONE_MORE, Due::Fault(FileError::TooMany)),
    (
        BACKGROUNDS,
        Due::Stack(&[
            Fact::BackgroundCount(5_000),
            Fact::CardAt(5_000, Some(10_000)),
        ]),
    ),
    // A script has thirty thousand bytes, and no more.
    (LONG_SCRIPT, Due::Kept(&[Fact::ScriptLength(0, 30_000)])),
    (LONGER_SCRIPT, Due::Fault(FileError::BadLine(30_005))),
    // One empty piece is no text.
    (EMPTY_PIECE, Due::Fault(FileError::BadLine(5))),
    (LONE_RETURN, Due::Fault(FileError::BadLine(5))),
    (EVERY_BYTE, Due::Kept(&[Fact::EveryByte(0)])),
];

#[test]
fn limits_are_kept(rt: HostRuntime) {
    for (i, (pieces, due)) in LIMITS.iter().enumerate() {
        let text = text_of(rt.alloc(), pieces).expect(&rt, "there is memory");
        assert!(rt; comes_to(rt.alloc(), &text, due), "{i}");
    }
}
