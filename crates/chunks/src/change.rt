//! Reading, putting and deleting chunks of texts.

ghost use Rattle.std.specs.Prelude.{◌≡◌, ◌≤◌, ◌+◌, ◌++◌, length, replicate, IfOk, ◌-◌, max};
ghost use Rattle.ht_values.specs.Outcome.{Gives, within_limit};
ghost use Rattle.ht_values.specs.declared.text.TheConstants.{LIMIT};
ghost use Rattle.chunks.specs.Change as change;
ghost use Rattle.chunks.specs.Laws.{IsCutBy};
ghost use Rattle.chunks.specs.Pieces as pieces;

use crate::chunk::{Chunk, Span};
use crate::location::{count, find, number_at, part, stretch};
use ht_values::{
    ChunkKind, Failure, Fault, IN_PLACE, LIMIT, Text, Where, joined, joined_fitting,
    without_front_spaces,
};
use std::alloc::{AllocError, Global};

/// The text that a chunk reads: from the start of its first piece to the end of its last, and of no bytes where it
/// reads no piece. The delimiter is that of items.
pub fn take(alloc: Global, text: &Text, chunk: &Chunk, delimiter: u8) -> Result<Text, AllocError>
    ensures { IfOk result (λ t. t ≡ pieces.read delimiter chunk.now text.now) }
{
    Text::fitting(alloc, part(text.as_slice(), chunk, delimiter))
}

/// Two parts without the delimiter between them: the one after what goes, or else the one before it.
fn without_delimiter<'a>(before: &'a [u8], after: &'a [u8]) -> (&'a [u8], &'a [u8])
    ensures value { result.0.now ++ result.1.now ≡ change.joined_up before.now after.now }
    ensures fits { length result.0.now + length result.1.now ≤ length before.now + length after.now }
{
    if after.is_empty() {
        (&before[..before.len().saturating_sub(1)], after)
    } else {
        (before, &after[1..])
    }
}

/// What is left before and after the pieces that go.
fn rest_of<'a>(kind: ChunkKind, before: &'a [u8], after: &'a [u8]) -> (&'a [u8], &'a [u8])
    ensures value { result.0.now ++ result.1.now ≡ change.closed_up kind before.now after.now }
    ensures fits { length result.0.now + length result.1.now ≤ length before.now + length after.now }
{
    match kind {
        ChunkKind::Char => (before, after),
        ChunkKind::Word => (before, without_front_spaces(after)),
        ChunkKind::Item => without_delimiter(before, after),
        ChunkKind::Line => without_delimiter(before, after),
    }
}

/// The text after a chunk is deleted; nothing where the chunk reads no piece, so that nothing changes. Lines and items
/// go with the delimiter after them or, at the end, with the one before them; words go with the spaces after them.
pub fn delete(
    alloc: Global,
    text: &Text,
    chunk: &Chunk,
    delimiter: u8,
) -> Result<Option<Text>, AllocError>
    ensures { IfOk result (λ t. t ≡ change.removed delimiter chunk.now text.now) }
{
    delete_in(alloc, text.as_slice(), chunk, delimiter)
}

/// The bytes after a chunk of them is deleted, as a text; nothing where the chunk reads no piece.
#[tactic(auto, unfolding(crate::specs::Change::removed))]
pub(crate) fn delete_in(
    alloc: Global,
    text: &[u8],
    chunk: &Chunk,
    delimiter: u8,
) -> Result<Option<Text>, AllocError>
    requires { length text.now ≤ LIMIT }
    ensures { IfOk result (λ t. t ≡ change.removed delimiter chunk.now text.now) }
{
    match find(text, chunk, delimiter) {
        Some(span) => {
            let (before, after) = rest_of(chunk.kind, &text[..span.start], &text[span.after..]);
            Ok(Some(joined_fitting(alloc, before, b"", after)?))
        }
        None => Ok(None),
    }
}

/// A text with a part of it changed.
fn changed(
    alloc: Global,
    text: &[u8],
    span: Span,
    place: Where,
    new: &[u8],
) -> Result<Text, Failure>
    requires { IsCutBy text.now span }
    ensures { Gives result (within_limit
        (pieces.left text.now span ++ change.placed place new.now (pieces.middle text.now span)
        ++ pieces.right text.now span)) }
{
    match place {
        Where::Into => joined(alloc, &text[..span.start], new, &text[span.after..]),
        Where::Before => joined(alloc, &text[..span.start], new, &text[span.start..]),
        Where::After => joined(alloc, &text[..span.after], new, &text[span.after..]),
    }
}

/// The byte that stands at the end of a text before what is put past its pieces, and how often.
fn padding(kind: ChunkKind, delimiter: u8, many: usize, first: usize, text: &[u8]) -> (u8, usize)
    ensures { replicate result.1 result.0 ≡ change.padding delimiter kind many first text.now }
{
    match kind {
        ChunkKind::Char => (delimiter, 0),
        ChunkKind::Word => (b' ', if text.is_empty() { 0 } else { 1 }),
        ChunkKind::Item => (delimiter, first.saturating_sub(many.max(1))),
        ChunkKind::Line => (13, first.saturating_sub(many.max(1))),
    }
}

/// A text with a byte added at its end so many times, and then another text.
fn appended(
    alloc: Global,
    text: &[u8],
    byte: u8,
    copies: usize,
    new: &[u8],
) -> Result<Text, Failure>
    ensures { Gives result (within_limit (text.now ++ replicate copies byte ++ new.now)) }
{
    if copies <= IN_PLACE {
        let between = [byte; IN_PLACE];
        return joined(alloc, text, &between[..copies], new);
    }
    if LIMIT < text.len()
        || LIMIT < copies
        || LIMIT < new.len()
        || LIMIT < text.len() + copies + new.len()
    {
        return Err(Failure::Fault(Fault::TooLong));
    }
    let mut bytes = Vec::with_capacity(alloc, text.len() + copies + new.len())?;
    bytes.extend_from_slice(text)?;
    bytes.resize(text.len() + copies, byte)?;
    bytes.extend_from_slice(new)?;
    Text::from_vec(bytes)
}

/// The text after another text is put into a chunk, before it or after it. A first index below 1, or a last one below
/// the first, is `BadArgument`; an outcome over 30,000 bytes is `TooLong`. `last` is at least 1. Past the end of the
/// text, items and lines are filled up with delimiters, and a word is put after a space: this is the project's profile,
/// as are the faults.
pub fn put(
    alloc: Global,
    text: &Text,
    chunk: &Chunk,
    place: Where,
    new: &Text,
    delimiter: u8,
) -> Result<Text, Failure>
    ensures { Gives result (change.put delimiter chunk.now place new.now text.now) }
{
    put_in(
        alloc,
        text.as_slice(),
        chunk,
        place,
        new.as_slice(),
        delimiter,
    )
}

/// The bytes after others are put into a chunk of them, before it or after it, as a text.
#[tactic(auto, unfolding(crate::specs::Change::put))]
pub(crate) fn put_in(
    alloc: Global,
    text: &[u8],
    chunk: &Chunk,
    place: Where,
    new: &[u8],
    delimiter: u8,
) -> Result<Text, Failure>
    requires { length text.now ≤ LIMIT }
    ensures { Gives result (change.put delimiter chunk.now place new.now text.now) }
{
    let many = count(text, chunk.kind, delimiter);
    let from = number_at(chunk.from, many.max(1));
    let to = number_at(chunk.to, many.max(1));
    if from < 1 || to < from {
        return Err(Failure::Fault(Fault::BadArgument));
    }
    let first = from as usize;
    match stretch(text, chunk.kind, delimiter, first, many.min(to as usize)) {
        Some(span) => changed(alloc, text, span, place, new),
        None => {
            let (byte, copies) = padding(chunk.kind, delimiter, many, first, text);
            appended(alloc, text, byte, copies, new)
        }
    }
}
