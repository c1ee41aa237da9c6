//! Edits of the text of a container.

ghost use Rattle.std.specs.Prelude.{[], Ok};
ghost use Rattle.ht_values.specs.Operators.{binary as binary_of};
ghost use Rattle.ht_values.specs.Outcome.{Gives};
ghost use Rattle.chunks.specs.Nested.{deleted_within, put_within as put_within_of, read_within};
ghost use Rattle.containers.specs.Edits.{edited};
ghost use Rattle.containers.specs.Standing.{standing_text};

use crate::standing::Standing;
use chunks::{Chunk, delete_within, put_within, take_within};
use ht_values::{Failure, Op, Text, Value, Where, binary, law_of_value};
use std::alloc::Global;

/// What is done to the text of a container, or to the part that its chunks read.
#[derive(Drop)]
pub enum Edit {
    /// A value is put in its place, before it or after it.
    Put(Where, Value),
    /// It becomes what an operator gives of it and of an operand.
    Alter(Op, Value),
    /// The part is deleted, with its delimiter. Where it isn't found, or there are no chunks, nothing changes.
    Delete,
}

impl Edit {
    /// The value after the edit; nothing where the edit changes nothing.
    pub(crate) fn edited(
        self,
        alloc: Global,
        standing: Standing<'_>,
        chunks: &[Chunk],
        delimiter: u8,
    ) -> Result<Option<Value>, Failure>
        ensures { Gives result (edited delimiter chunks.now self (standing_text standing.entry)) }
    {
        match self {
            Edit::Put(place, new) => Ok(Some(placed(
                alloc, standing, chunks, place, new, delimiter,
            )?)),
            Edit::Alter(op, operand) => {
                let value = altered(alloc, standing, chunks, op, &operand, delimiter)?;
                Ok(Some(placed(alloc, standing, chunks, Where::Into, value, delimiter)?))
            }
            Edit::Delete => deleted(alloc, standing, chunks, delimiter),
        }
    }
}

/// The whole after a value is put. A value that is put for the whole moves in.
fn placed(
    alloc: Global,
    standing: Standing<'_>,
    chunks: &[Chunk],
    place: Where,
    new: Value,
    delimiter: u8,
) -> Result<Value, Failure>
    ensures { Gives result (put_within_of delimiter chunks.now place new (standing_text standing.entry)) }
{
    match (place, chunks) {
        (Where::Into, []) => {
            law_of_value(&new);
            Ok(new)
        }
        _ => {
            let new = new.into_text(alloc)?;
            with_text(alloc, standing, chunks, place, new, delimiter)
        }
    }
}

/// The whole after a text is put.
fn with_text(
    alloc: Global,
    standing: Standing<'_>,
    chunks: &[Chunk],
    place: Where,
    new: Text,
    delimiter: u8,
) -> Result<Value, Failure>
    ensures { Gives result (put_within_of delimiter chunks.now place new (standing_text standing.entry)) }
{
    let text = match standing {
        Standing::Text(text) => put_within(alloc, text, chunks, place, new, delimiter)?,
        Standing::Value(value) => put_within(
            alloc,
            value.spelled(alloc)?.text(),
            chunks,
            place,
            new,
            delimiter,
        )?,
    };
    Ok(Value::of_text(text))
}

/// What chunks read; without chunks, an equal value.
pub(crate) fn part(
    alloc: Global,
    standing: Standing<'_>,
    chunks: &[Chunk],
    delimiter: u8,
) -> Result<Value, Failure>
    ensures { Gives result (Ok (read_within delimiter chunks.now (standing_text standing.entry))) }
{
    if chunks.is_empty() {
        return Ok(standing.copied(alloc)?);
    }
    let text = match standing {
        Standing::Text(text) => take_within(alloc, text, chunks, delimiter)?,
        Standing::Value(value) => take_within(
            alloc,
            value.spelled(alloc)?.text(),
            chunks,
            delimiter,
        )?,
    };
    Ok(Value::of_text(text))
}

/// What an operator gives of what the chunks read, and of an operand. Without chunks the whole is lent, not copied.
fn altered(
    alloc: Global,
    standing: Standing<'_>,
    chunks: &[Chunk],
    op: Op,
    operand: &Value,
    delimiter: u8,
) -> Result<Value, Failure>
    ensures { Gives result (binary_of op
        (read_within delimiter chunks.now (standing_text standing.entry)) operand.now) }
{
    match chunks {
        [] => standing.altered(alloc, op, operand),
        _ => binary(
            alloc,
            op,
            &part(alloc, standing, chunks, delimiter)?,
            operand,
        ),
    }
}

/// The whole after a part is deleted; nothing where it isn't found.
fn deleted(
    alloc: Global,
    standing: Standing<'_>,
    chunks: &[Chunk],
    delimiter: u8,
) -> Result<Option<Value>, Failure>
    ensures { Gives result (deleted_within delimiter chunks.now (standing_text standing.entry)) }
{
    let text = match standing {
        Standing::Text(text) => delete_within(alloc, text, chunks, delimiter)?,
        Standing::Value(value) => delete_within(
            alloc,
            value.spelled(alloc)?.text(),
            chunks,
            delimiter,
        )?,
    };
    match text {
        Some(text) => Ok(Some(Value::of_text(text))),
        None => Ok(None),
    }
}
