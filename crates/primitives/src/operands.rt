//! Operands, which are read where they stand.

ghost use Rattle.std.specs.Prelude.{◌≡◌, pos, [], ◌∷◌, Ok, Err, IfOk, MatchResult};
ghost use Rattle.ht_values.specs.Functions.{built_in as built_in_of};
ghost use Rattle.ht_values.specs.Outcome.{and_then};
ghost use Rattle.ht_values.specs.Text.{numeral as numeral_of};
ghost use Rattle.chunks.specs.Pieces.{count as count_of, read as read_pieces};
ghost use Rattle.containers.specs.Standing.{standing_text};
ghost use Rattle.meaning.specs.Values.{Yields};
ghost use Rattle.primitives.specs.Given.{given};
ghost use Rattle.primitives.specs.Operands.{operand_text};

use crate::arguments::Arguments;
use crate::places::{field_text, variable};
use crate::values::call_function;
use change_journal::World;
use chunks::{Chunk, count};
use containers::{Container, Standing, read_name, resolve, standing_in};
use externals::External;
use ht_values::{ChunkKind, Fault, Func, Name, Text, Value};
use meaning::{Budget, Frame, Stop};
use object_references::Referent;
use std::alloc::AllocError;
use std::mem;

/// What an operand is once all that it computes is computed, before its text is read.
#[derive(Drop)]
pub enum Operand<'a> {
    /// A value that was computed.
    Value(Value),
    /// A name: its value, or its spelling, is lent.
    Name(&'a Name),
    /// A field, with the card with which it was met: its text is lent.
    Field(Referent),
}

/// What stands at an operand, lent; fault 3 where it is a field that keeps no text for its card. It takes no memory.
fn standing<'a, E: External>(
    world: &'a World<E>,
    run: &Budget,
    frame: &'a Frame,
    operand: &'a Operand<'_>,
) -> Result<Standing<'a>, Fault>
    ensures { MatchResult result (λ s. operand_text world.now.history.now frame.now.variables run.now.delimiter
        operand.now ≡ Ok (standing_text s))
        (λ e. operand_text world.now.history.now frame.now.variables run.now.delimiter operand.now ≡ Err e) }
{
    match operand {
        Operand::Value(value) => Ok(Standing::Value(value)),
        Operand::Name(name) => Ok(read_name(world, &frame.variables, name)),
        Operand::Field(field) => {
            let container = Container::Field(field.object, field.card);
            let place = resolve(run.alloc(), world, &frame.variables, container)?;
            match standing_in(world, &frame.variables, &place) {
                Some(standing) => Ok(standing),
                None => Err(Fault::NoSuchObject),
            }
        }
    }
}

/// How long a text is, as a value.
#[tactic(auto, unfolding(ht_values::specs::Functions::built_in))]
fn length_of(run: &Budget, standing: Standing<'_>) -> Result<Value, AllocError>
    ensures { IfOk result (λ v. built_in_of Func.Length (standing_text standing.entry ∷ []) ≡ Ok v) }
{
    let length = match standing {
        Standing::Text(text) => text.len(),
        Standing::Value(value) => value.spelled(run.alloc())?.text().len(),
    };
    Ok(Value::of_number(length as i64))
}

/// How many pieces of a kind a text has, as a value.
fn count_in(run: &Budget, standing: Standing<'_>, kind: ChunkKind) -> Result<Value, AllocError>
    ensures { IfOk result (λ v. v ≡ numeral_of (pos (count_of run.now.delimiter kind (standing_text standing.entry)))) }
{
    let number = match standing {
        Standing::Text(text) => count(text.as_slice(), kind, run.delimiter()),
        Standing::Value(value) => {
            count(
                value.spelled(run.alloc())?.text().as_slice(),
                kind,
                run.delimiter(),
            )
        }
    };
    Ok(Value::of_number(number as i64))
}

/// The value of an operand; fault 3 where it is a field that keeps no text for its card. A name's and a field's are
/// copied.
#[tactic(auto, using(meaning::proofs::Rules::yields_rules))]
fn operand_value<E: External>(
    world: &World<E>,
    run: &Budget,
    frame: &Frame,
    operand: Operand<'_>,
) -> Result<Value, Stop>
    ensures { Yields (operand_text world.now.history.now frame.now.variables run.now.delimiter operand.entry) result }
{
    match operand {
        Operand::Value(value) => Ok(value),
        Operand::Name(name) => {
            let mut value = Value::of_number(0);
            variable(world, run, frame, name, &mut value)?;
            Ok(value)
        }
        Operand::Field(field) => field_text(world, run, frame, field),
    }
}

/// The text of an operand, as one of its own; fault 3 where it is a field that keeps no text for its card.
#[tactic(auto, using(meaning::proofs::Rules::yields_rules))]
pub fn operand_into_text<E: External>(
    world: &World<E>,
    run: &Budget,
    frame: &Frame,
    operand: Operand<'_>,
) -> Result<Text, Stop>
    ensures { Yields (operand_text world.now.history.now frame.now.variables run.now.delimiter operand.entry) result }
{
    Ok(operand_value(world, run, frame, operand)?.into_text(run.alloc())?)
}

/// Writes pieces of an operand, which is lent; fault 3 where it is a field that keeps no text for its card.
#[tactic(auto, using(meaning::proofs::Rules::yields_rules))]
#[inline(never)]
pub fn operand_part<E: External>(
    world: &World<E>,
    run: &Budget,
    frame: &Frame,
    operand: &Operand<'_>,
    pieces: &Chunk,
    value: &mut Value,
) -> Result<(), Stop>
    ensures { Yields (and_then (operand_text world.now.history.now frame.now.variables run.now.delimiter operand.now)
        (λ t. Ok (read_pieces run.now.delimiter pieces.now t))) (given result value.new) }
{
    match standing(world, run, frame, operand) {
        Ok(standing) => {
            *value = standing.part(run.alloc(), pieces, run.delimiter())?;
            Ok(())
        }
        Err(fault) => Err(Stop::Fault(fault)),
    }
}

/// Writes pieces of a value over it.
#[tactic(auto, using(meaning::proofs::Rules::yields_rules))]
#[inline(never)]
pub fn take_part(run: &Budget, value: &mut Value, pieces: &Chunk) -> Result<(), Stop>
    ensures { Yields (Ok (read_pieces run.now.delimiter pieces.now value.old)) (given result value.new) }
{
    *value = Standing::Value(value).part(run.alloc(), pieces, run.delimiter())?;
    Ok(())
}

/// Writes how many pieces of a kind an operand has, which is lent; fault 3 where it is a field that keeps no text for
/// its card.
#[tactic(auto, using(meaning::proofs::Rules::yields_rules))]
#[inline(never)]
pub fn operand_count<E: External>(
    world: &World<E>,
    run: &Budget,
    frame: &Frame,
    operand: &Operand<'_>,
    kind: ChunkKind,
    value: &mut Value,
) -> Result<(), Stop>
    ensures { Yields (and_then (operand_text world.now.history.now frame.now.variables run.now.delimiter operand.now)
        (λ t. Ok (numeral_of (pos (count_of run.now.delimiter kind t))))) (given result value.new) }
{
    match standing(world, run, frame, operand) {
        Ok(standing) => {
            *value = count_in(run, standing, kind)?;
            Ok(())
        }
        Err(fault) => Err(Stop::Fault(fault)),
    }
}

/// Writes what a function gives of a value over it, or its first fault.
#[tactic(auto, using(meaning::proofs::Rules::yields_rules))]
#[inline(never)]
pub fn apply_function(run: &Budget, function: Func, value: &mut Value) -> Result<(), Stop>
    ensures { Yields (built_in_of function (value.old ∷ [])) (given result value.new) }
{
    match function {
        Func::Length => {
            *value = length_of(run, Standing::Value(value))?;
            Ok(())
        }
        _ => apply_to_one(run, function, value),
    }
}

/// Writes what a function gives of a value over it, by way of a list of arguments.
#[tactic(auto, using(meaning::proofs::Rules::yields_rules))]
fn apply_to_one(run: &Budget, function: Func, value: &mut Value) -> Result<(), Stop>
    ensures { Yields (built_in_of function (value.old ∷ [])) (given result value.new) }
{
    let operand = mem::replace(value, Value::of_number(0));
    *value = call_function(run, function, &Arguments::of_one(run.alloc(), operand))?;
    Ok(())
}

/// Writes what a function gives of one operand, or its first fault; fault 3 where the operand is a field that keeps no
/// text for its card. For its length an operand is lent.
#[tactic(auto, using(meaning::proofs::Rules::yields_rules))]
#[inline(never)]
pub fn call_of_operand<E: External>(
    world: &World<E>,
    run: &Budget,
    frame: &Frame,
    function: Func,
    operand: Operand<'_>,
    value: &mut Value,
) -> Result<(), Stop>
    ensures { Yields (and_then (operand_text world.now.history.now frame.now.variables run.now.delimiter operand.entry)
        (λ t. built_in_of function (t ∷ []))) (given result value.new) }
{
    match function {
        Func::Length => match standing(world, run, frame, &operand) {
            Ok(standing) => {
                *value = length_of(run, standing)?;
                Ok(())
            }
            Err(fault) => Err(Stop::Fault(fault)),
        },
        _ => {
            *value = operand_value(world, run, frame, operand)?;
            apply_to_one(run, function, value)
        }
    }
}
