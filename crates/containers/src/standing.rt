//! Texts and values that are lent where they stand.

ghost use Rattle.std.specs.Prelude.{◌≡◌, ◌++◌, ℕ, List, Err, IfErr, IfOk, Ok, OnErr, OnOk};
ghost use Rattle.ht_values.specs.Operators.{binary as binary_of};
ghost use Rattle.ht_values.specs.Outcome.{Gives, within_limit};
ghost use Rattle.chunks.specs.Pieces.{read};
ghost use Rattle.containers.specs.Standing.{standing_text};

use chunks::{Chunk, take};
use ht_values::{Failure, Op, Text, Value, binary, joined};
use std::alloc::{AllocError, Global};

/// What stands at a place: the text of a global or of a field, or the value of a handler's own variable.
#[derive(Clone, Copy)]
pub enum Standing<'a> {
    Text(&'a Text),
    Value(&'a Value),
}

impl Standing<'_> {
    /// An equal value.
    pub fn copied(&self, alloc: Global) -> Result<Value, AllocError>
        ensures { IfOk result (λ v. v ≡ standing_text self.now) }
    {
        match self {
            Standing::Text(text) => Value::copied(alloc, text),
            Standing::Value(value) => value.try_clone(alloc),
        }
    }

    /// What a chunk reads of it. The delimiter is that of items.
    pub fn part(&self, alloc: Global, chunk: &Chunk, delimiter: u8) -> Result<Value, AllocError>
        ensures { IfOk result (λ v. v ≡ read delimiter chunk.now (standing_text self.now)) }
    {
        let text = match self {
            Standing::Text(text) => take(alloc, text, chunk, delimiter)?,
            Standing::Value(value) => take(alloc, value.spelled(alloc)?.text(), chunk, delimiter)?,
        };
        Ok(Value::of_text(text))
    }

    /// Adds bytes and it at the end of a value, as `Value::append_parts` does.
    #[inline(always)]
    pub fn append_to(&self, alloc: Global, value: &mut Value, between: &[u8]) -> Result<(), Failure>
        ensures ok { OnOk result
            (within_limit (value.old ++ between.now ++ standing_text self.now) ≡ Ok value.new) }
        ensures fault { IfErr result (λ e. Gives {A = List ℕ} (Err e)
            (within_limit (value.old ++ between.now ++ standing_text self.now))) }
        ensures err { OnErr result (value.new ≡ value.old) }
    {
        match self {
            Standing::Text(text) => value.append_parts(alloc, between, text.as_slice()),
            Standing::Value(new) => value.append_value(alloc, between, new),
        }
    }

    /// It and another, one after another, with bytes between, as `joined` of `ht_values` joins them. Both are lent.
    pub fn joined(
        &self,
        alloc: Global,
        between: &[u8],
        right: &Standing<'_>,
    ) -> Result<Value, Failure>
        ensures { Gives result (within_limit (standing_text self.now ++ between.now ++ standing_text right.now)) }
    {
        match self {
            Standing::Text(text) => right.joined_to(alloc, text.as_slice(), between),
            Standing::Value(value) => {
                right.joined_to(alloc, value.spelled(alloc)?.text().as_slice(), between)
            }
        }
    }

    /// Bytes, bytes between, and it, one after another.
    fn joined_to(&self, alloc: Global, left: &[u8], between: &[u8]) -> Result<Value, Failure>
        ensures { Gives result (within_limit (left.now ++ between.now ++ standing_text self.now)) }
    {
        let text = match self {
            Standing::Text(text) => joined(alloc, left, between, text.as_slice())?,
            Standing::Value(value) => {
                joined(
                    alloc,
                    left,
                    between,
                    value.spelled(alloc)?.text().as_slice(),
                )?
            }
        };
        Ok(Value::of_text(text))
    }

    /// What an operator gives of it and of an operand.
    pub(crate) fn altered(&self, alloc: Global, op: Op, operand: &Value) -> Result<Value, Failure>
        ensures { Gives result (binary_of op (standing_text self.now) operand.now) }
    {
        match self {
            Standing::Text(text) => binary(alloc, op, &Value::copied(alloc, text)?, operand),
            Standing::Value(value) => binary(alloc, op, value, operand),
        }
    }
}
