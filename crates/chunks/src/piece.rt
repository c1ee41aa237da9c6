//! Where the pieces of a text stand, and how many there are.

ghost use Rattle.std.specs.Prelude.{◌≡◌, ◌≤◌, ◌+◌, length, slice_get, map, [], ◌∷◌};
ghost use Rattle.chunks.specs.Pieces.{count as count_of, spans, spans_from};

use crate::chunk::Span;
use crate::delimited::{delimited_at, delimited_count};
use crate::word_pieces::{word_at, word_count};
use ht_values::ChunkKind;

/// Where the byte stands that has so many before it.
fn char_at(text: &[u8], before: usize) -> Option<Span>
    ensures { result ≡ slice_get (spans_from 0 0 (map (λ b. b ∷ []) text.now)) before }
{
    if before < text.len() {
        Some(Span {
            start: before,
            after: before + 1,
        })
    } else {
        None
    }
}

/// Where the piece of the kind stands that has so many before it.
#[tactic(auto, using(crate::proofs::Scans::char_spans, crate::proofs::Scans::word_spans, crate::proofs::Scans::item_spans, crate::proofs::Scans::line_spans))]
pub(crate) fn place(text: &[u8], kind: ChunkKind, delimiter: u8, before: usize) -> Option<Span>
    ensures { result ≡ slice_get (spans delimiter kind text.now) before }
{
    match kind {
        ChunkKind::Char => char_at(text, before),
        ChunkKind::Word => word_at(text, before),
        ChunkKind::Item => delimited_at(text, delimiter, before),
        ChunkKind::Line => delimited_at(text, 13, before),
    }
}

/// How many pieces of the kind a text has.
#[tactic(auto, using(crate::proofs::Scans::char_count, crate::proofs::Scans::word_count, crate::proofs::Scans::item_count, crate::proofs::Scans::line_count))]
pub(crate) fn count(text: &[u8], kind: ChunkKind, delimiter: u8) -> usize
    ensures value { result ≡ count_of delimiter kind text.now }
    ensures few { result ≤ length text.now + 1 }
{
    match kind {
        ChunkKind::Char => text.len(),
        ChunkKind::Word => word_count(text),
        ChunkKind::Item => delimited_count(text, delimiter),
        ChunkKind::Line => delimited_count(text, 13),
    }
}
