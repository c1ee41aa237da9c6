//! Pieces of which stack texts are made.

use crate::plain_texts::Bytes;
use itoa::Buffer;
use stack_file::*;
use std::alloc::{AllocError, Global};

/// A piece of a stack text.
pub(super) enum Piece {
    Text(Bytes),
    /// This, so many times.
    Repeated(u32, Bytes),
    /// A key, a number from the first one on, and what follows it, so many times.
    Numbers(Bytes, u32, u32, Bytes),
    /// The cards from an id on, each of the next background, so many times.
    Cards(u32, u32, u32),
    /// The bytes from the first to the last one, spelled.
    Spelled(u8, u8),
}

/// What a card or a background has in its text, behind its ids.
pub(super) const LAYER: Bytes = b"\nname |\ncantDelete false\nscript 0\nparts 0\n";

/// How often a piece is written.
fn times(piece: &Piece) -> u32 {
    match piece {
        Piece::Text(_) => 1,
        Piece::Repeated(count, _) | Piece::Numbers(_, _, count, _) | Piece::Cards(_, _, count) =>
            *count,
        Piece::Spelled(first, last) => u32::from(*last).saturating_sub(u32::from(*first)) + 1,
    }
}

/// Writes a key, a number and what follows it.
fn push_number(text: &mut Vec<u8>, key: &[u8], number: u32, rest: &[u8]) -> Result<(), AllocError> {
    text.extend_from_slice(key)?;
    text.extend_from_slice(Buffer::new().format(number).as_bytes())?;
    text.extend_from_slice(rest)
}

/// Writes a piece for the time of this number, from 0.
fn push_once(text: &mut Vec<u8>, piece: &Piece, time: u32) -> Result<(), AllocError> {
    match piece {
        Piece::Text(bytes) | Piece::Repeated(_, bytes) => text.extend_from_slice(bytes),
        Piece::Numbers(key, first, _, rest) => {
            push_number(text, key, first.saturating_add(time), rest)
        }
        Piece::Cards(card, background, _) => {
            push_number(text, b"card ", card.saturating_add(time), b" ")?;
            push_number(text, b"", background.saturating_add(time), LAYER)
        }
        Piece::Spelled(first, _) => spell_into(text, &[first.wrapping_add((time % 256) as u8)]),
    }
}

/// Writes pieces, one after the other.
fn push_all(text: &mut Vec<u8>, pieces: &[Piece]) -> Result<(), AllocError> {
    for piece in pieces {
        for time in 0..times(piece) {
            push_once(text, piece, time)?;
        }
    }
    Ok(())
}

/// The text of these pieces, one after the other; none where memory is refused.
pub(super) fn text_of(alloc: Global, pieces: &[Piece]) -> Option<Vec<u8>> {
    let mut text = Vec::new(alloc);
    push_all(&mut text, pieces).ok()?;
    Some(text)
}
