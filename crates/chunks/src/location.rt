//! Where the part of a text stands that a chunk reads.

ghost use Rattle.std.specs.Prelude.{◌≡◌, ◌≤◌, ◌<◌, ◌+◌, ◌^◌, length, IfSome};
ghost use Rattle.chunks.specs.declared.chunk.Index.TheVariants as index;
ghost use Rattle.chunks.specs.Laws.{IsCutBy};
ghost use Rattle.chunks.specs.Pieces.{count as count_of, first_from, found, last_to, number_at as number_at_of, read};
ghost use Rattle.chunks.specs.Pieces.{spans, stretch as stretch_of};

use crate::chunk::{Chunk, Index, Span};
use crate::piece;
use ht_values::ChunkKind;

/// The least number of a piece from an index on.
fn first_number(index: Index, many: usize) -> usize
    ensures { result ≡ first_from (number_at_of many index) }
{
    match index {
        Index::At(number) => if number < 1 { 1 } else { number as usize },
        Index::Last => many.max(1),
    }
}

/// The greatest number of a piece up to an index.
fn last_number(index: Index, many: usize) -> usize
    ensures { result ≡ last_to many (number_at_of many index) }
{
    match index {
        Index::At(number) => if number < 1 {
            0
        } else {
            many.min(number as usize)
        },
        Index::Last => many,
    }
}

/// The number that an index means, where the last piece has this number.
pub(crate) fn number_at(index: Index, last: usize) -> i64
    requires { last < 2 ^ 63 }
    ensures { result ≡ number_at_of last index }
{
    match index {
        Index::At(number) => number,
        Index::Last => last as i64,
    }
}

/// The part from one piece to another, both counted from 1.
#[tactic(auto, using(crate::proofs::Order::stretch_within))]
pub(crate) fn stretch(
    text: &[u8],
    kind: ChunkKind,
    delimiter: u8,
    first: usize,
    last: usize,
) -> Option<Span>
    ensures value { result ≡ stretch_of (spans delimiter kind text.now) first last }
    ensures cut { IfSome result (IsCutBy text.now) }
{
    stretch_places(text, kind, delimiter, first, last)
}

/// From the start of one piece to the end of another, both counted from 1.
fn stretch_places(
    text: &[u8],
    kind: ChunkKind,
    delimiter: u8,
    first: usize,
    last: usize,
) -> Option<Span>
    ensures { result ≡ stretch_of (spans delimiter kind text.now) first last }
{
    if last < first {
        return None;
    }
    let start = piece::place(text, kind, delimiter, first.saturating_sub(1))?;
    if first == last {
        return Some(start);
    }
    let end = piece::place(text, kind, delimiter, last.saturating_sub(1))?;
    Some(Span {
        start: start.start,
        after: end.after,
    })
}

/// The one piece of this number.
#[tactic(auto, using(crate::proofs::Single::single_none, crate::proofs::Single::single_there))]
fn single(text: &[u8], kind: ChunkKind, delimiter: u8, number: i64) -> Option<Span>
    ensures { result ≡ found delimiter (record { kind = kind; from = index.At number; to = index.At number }) text.now }
{
    if number < 1 {
        return None;
    }
    piece::place(text, kind, delimiter, number as usize - 1)
}

/// The pieces from one index to another.
#[tactic(auto, unfolding(crate::specs::Pieces::found))]
fn several(text: &[u8], chunk: &Chunk, delimiter: u8) -> Option<Span>
    ensures { result ≡ found delimiter chunk.now text.now }
{
    let many = count(text, chunk.kind, delimiter);
    let first = first_number(chunk.from, many);
    let last = last_number(chunk.to, many);
    stretch(text, chunk.kind, delimiter, first, last)
}

/// The part of a text that a chunk reads, from the start of its first piece to the end of its last; `None` where no
/// piece is read. The delimiter is that of items. It takes no memory.
#[tactic(auto, using(crate::proofs::Order::found_within))]
pub fn find(text: &[u8], chunk: &Chunk, delimiter: u8) -> Option<Span>
    ensures value { result ≡ found delimiter chunk.now text.now }
    ensures cut { IfSome result (IsCutBy text.now) }
{
    match (chunk.from, chunk.to) {
        (Index::At(from), Index::At(to)) if from == to => {
            single(text, chunk.kind, delimiter, from)
        }
        _ => several(text, chunk, delimiter),
    }
}

/// How many pieces of a kind a text has. The delimiter is that of items. It takes no memory.
pub fn count(text: &[u8], kind: ChunkKind, delimiter: u8) -> usize
    ensures value { result ≡ count_of delimiter kind text.now }
    ensures few { result ≤ length text.now + 1 }
{
    piece::count(text, kind, delimiter)
}

/// The part of a text that a chunk reads, lent; of no bytes where no piece is read. The delimiter is that of items. It
/// takes no memory.
pub fn part<'a>(text: &'a [u8], chunk: &Chunk, delimiter: u8) -> &'a [u8]
    ensures value { result.now ≡ read delimiter chunk.now text.now }
    ensures within { length result.now ≤ length text.now }
{
    match find(text, chunk, delimiter) {
        Some(span) => &text[span.start..span.after],
        None => &[],
    }
}
