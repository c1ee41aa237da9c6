//! Chunks of chunks, the nearest to the container first.

ghost use Rattle.std.specs.Prelude.{◌≡◌, ◌≤◌, length, IfOk};
ghost use Rattle.ht_values.specs.Outcome.{Gives, within_limit};
ghost use Rattle.ht_values.specs.declared.text.TheConstants.{LIMIT};
ghost use Rattle.ht_values.specs.declared.word.Where.TheVariants.{Into};
ghost use Rattle.chunks.specs.Change.{placed as placed_of, put as put_of};
ghost use Rattle.chunks.specs.Nested.{deleted_within, put_within as put_within_of, read_within, removed_within};

use crate::change::{delete_in, put_in};
use crate::chunk::Chunk;
use crate::location::part;
use ht_values::{Failure, Text, Where, joined};
use std::alloc::{AllocError, Global};

/// The part of a text that the chunks read, each in what the one before it read, lent. The delimiter is that of items.
/// It takes no memory.
pub fn part_within<'a>(text: &'a [u8], chunks: &[Chunk], delimiter: u8) -> &'a [u8]
    ensures value { result.now ≡ read_within delimiter chunks.now text.now }
    ensures within { length result.now ≤ length text.now }
{
    match chunks {
        [] => text,
        [chunk, inner @ ..] => part_within(part(text, chunk, delimiter), inner, delimiter),
    }
}

/// The text that the chunks read, each in what the one before it read.
pub fn take_within(
    alloc: Global,
    text: &Text,
    chunks: &[Chunk],
    delimiter: u8,
) -> Result<Text, AllocError>
    ensures { IfOk result (λ t. t ≡ read_within delimiter chunks.now text.now) }
{
    Text::fitting(alloc, part_within(text.as_slice(), chunks, delimiter))
}

/// A text put in the place of bytes, before them or after them.
fn placed(alloc: Global, text: &[u8], place: Where, new: Text) -> Result<Text, Failure>
    ensures { Gives result (within_limit (placed_of place new text.now)) }
{
    match place {
        Where::Into => {
            let _fits = new.len();
            Ok(new)
        }
        Where::Before => joined(alloc, new.as_slice(), b"", text),
        Where::After => joined(alloc, text, b"", new.as_slice()),
    }
}

/// The bytes after what a chunk reads has become another text, as a text.
fn put_back(
    alloc: Global,
    text: &[u8],
    chunk: &Chunk,
    new: &Text,
    delimiter: u8,
) -> Result<Text, Failure>
    requires { length text.now ≤ LIMIT }
    ensures { Gives result (put_of delimiter chunk.now Into new.now text.now) }
{
    put_in(alloc, text, chunk, Where::Into, new.as_slice(), delimiter)
}

/// The text after another is put at the innermost chunk, whose outcome is put into the chunk around it, and so on;
/// without a chunk at the whole text. The faults are those of `put`, the innermost first.
pub fn put_within(
    alloc: Global,
    text: &Text,
    chunks: &[Chunk],
    place: Where,
    new: Text,
    delimiter: u8,
) -> Result<Text, Failure>
    ensures { Gives result (put_within_of delimiter chunks.now place new text.now) }
{
    put_inside(alloc, text.as_slice(), chunks, place, new, delimiter)
}

/// The bytes after a text is put at the innermost chunk, as a text.
fn put_inside(
    alloc: Global,
    text: &[u8],
    chunks: &[Chunk],
    place: Where,
    new: Text,
    delimiter: u8,
) -> Result<Text, Failure>
    requires { length text.now ≤ LIMIT }
    ensures { Gives result (put_within_of delimiter chunks.now place new text.now) }
{
    match chunks {
        [] => placed(alloc, text, place, new),
        [chunk] => put_in(alloc, text, chunk, place, new.as_slice(), delimiter),
        [chunk, inner @ ..] => {
            let inside = part(text, chunk, delimiter);
            let inside = put_inside(alloc, inside, inner, place, new, delimiter)?;
            put_back(alloc, text, chunk, &inside, delimiter)
        }
    }
}

/// The text after the innermost chunk is deleted; nothing where it isn't found, or where there is no chunk: then
/// nothing changes. The faults are those of `put` into the chunks around it.
pub fn delete_within(
    alloc: Global,
    text: &Text,
    chunks: &[Chunk],
    delimiter: u8,
) -> Result<Option<Text>, Failure>
    ensures { Gives result (deleted_within delimiter chunks.now text.now) }
{
    match chunks {
        [] => Ok(None),
        [chunk, inner @ ..] => delete_inside(alloc, text.as_slice(), chunk, inner, delimiter),
    }
}

/// The bytes after the innermost chunk is deleted, as a text; nothing where it isn't found.
fn delete_inside(
    alloc: Global,
    text: &[u8],
    chunk: &Chunk,
    inner: &[Chunk],
    delimiter: u8,
) -> Result<Option<Text>, Failure>
    requires { length text.now ≤ LIMIT }
    ensures { Gives result (removed_within delimiter chunk.now inner.now text.now) }
{
    match inner {
        [] => Ok(delete_in(alloc, text, chunk, delimiter)?),
        [next, rest @ ..] => {
            let inside = part(text, chunk, delimiter);
            match delete_inside(alloc, inside, next, rest, delimiter)? {
                Some(inside) => Ok(Some(put_back(alloc, text, chunk, &inside, delimiter)?)),
                None => Ok(None),
            }
        }
    }
}
