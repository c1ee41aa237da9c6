//! The functions of texts alone.

ghost use Rattle.std.specs.Prelude.{◌≡◌, pos, unsigned_abs, IfOk, length as length_of};
ghost use Rattle.std.specs.Int.{int_max, int_min};
ghost use Rattle.ht_values.specs.Functions.{best, built_in as built_in_of, character as character_of};
ghost use Rattle.ht_values.specs.Functions.{first_byte as first_byte_of, offset as offset_of};
ghost use Rattle.ht_values.specs.Number.{number_of as number_of_text, ranged};
ghost use Rattle.ht_values.specs.Outcome.{Gives, and_then};

use crate::applied::in_numerals;
use crate::failure::Failure;
use crate::fault::Fault;
use crate::operator::Func;
use crate::search::place_of;
use crate::text::Text;
use crate::value::Value;
use std::alloc::{AllocError, Global};

/// A number without its sign.
fn size_of(text: &Value) -> Result<i64, Fault>
    ensures { result ≡ and_then (number_of_text text.now) (λ x. ranged (pos (unsigned_abs x))) }
{
    let x = text.number()?;
    x.checked_abs().ok_or(Fault::OutOfRange)
}

/// The greatest of the numbers of one text or more.
fn greatest(first: &Value, rest: &[Value]) -> Result<i64, Fault>
    ensures { result ≡ best int_max first.now rest.now }
{
    let mut greatest = first.number()?;
    for text in rest {
        greatest = greatest.max(text.number()?);
    }
    Ok(greatest)
}

/// The least of the numbers of one text or more.
fn least(first: &Value, rest: &[Value]) -> Result<i64, Fault>
    ensures { result ≡ best int_min first.now rest.now }
{
    let mut least = first.number()?;
    for text in rest {
        least = least.min(text.number()?);
    }
    Ok(least)
}

/// How many bytes a value has.
fn length(alloc: Global, value: &Value) -> Result<i64, AllocError>
    ensures { IfOk result (λ n. n ≡ pos (length_of value.now)) }
{
    Ok(value.spelled(alloc)?.text().len() as i64)
}

/// The number of the first byte.
fn first_byte(alloc: Global, value: &Value) -> Result<i64, Failure>
    ensures { Gives result (first_byte_of value.now) }
{
    match value.spelled(alloc)?.text().as_slice() {
        [first, ..] => Ok(i64::from(*first)),
        [] => Err(Failure::Fault(Fault::BadArgument)),
    }
}

/// The text of one byte of this number.
fn character(alloc: Global, number: i64) -> Result<Value, Failure>
    ensures { Gives result (character_of number) }
{
    if number < 0 || 255 < number {
        return Err(Failure::Fault(Fault::BadArgument));
    }
    Ok(Value::of_text(Text::fitting(alloc, &[number as u8])?))
}

/// The first place, counted from 1, at which a run of the text is the same as the other; 0 for none, and for an empty
/// run.
fn place_number(alloc: Global, run: &Text, text: &Text) -> i64
    ensures { result ≡ pos (offset_of run.now text.now) }
{
    if run.len() == 0 {
        return 0;
    }
    match place_of(alloc, run, text) {
        Some(place) => place as i64 + 1,
        None => 0,
    }
}

fn offset(alloc: Global, run: &Value, text: &Value) -> Result<i64, AllocError>
    ensures { IfOk result (λ n. n ≡ pos (offset_of run.now text.now)) }
{
    let run = run.spelled(alloc)?;
    let text = text.spelled(alloc)?;
    Ok(place_number(alloc, run.text(), text.text()))
}

/// What a function gives of its arguments: its value, a fault of the command, or `Memory` where a growth was refused.
/// Another number of arguments than the function has is `BadArgument`; arguments are converted from left to right. The
/// functions are those of HyperTalk 2.x; `value` isn't among them, since it computes.
#[tactic(auto, unfolding(crate::specs::Functions::built_in))]
pub fn built_in(alloc: Global, func: Func, arguments: &[Value]) -> Result<Value, Failure>
    ensures { Gives result (built_in_of func arguments.now) }
{
    match (func, arguments) {
        (Func::Abs, [number]) => in_numerals(size_of(number)),
        (Func::Max, [first, rest @ ..]) => in_numerals(greatest(first, rest)),
        (Func::Min, [first, rest @ ..]) => in_numerals(least(first, rest)),
        (Func::Length, [text]) => Ok(Value::of_number(length(alloc, text)?)),
        (Func::CharToNum, [text]) => Ok(Value::of_number(first_byte(alloc, text)?)),
        (Func::NumToChar, [number]) => character(alloc, number.number()?),
        (Func::Offset, [run, text]) => Ok(Value::of_number(offset(alloc, run, text)?)),
        _ => Err(Failure::Fault(Fault::BadArgument)),
    }
}
