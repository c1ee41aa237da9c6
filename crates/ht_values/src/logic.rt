//! Truth values, and how they are spelled.

ghost use Rattle.std.specs.Prelude.{◌≡◌, ◌&&◌, ◌||◌, not, IfOk, IsOk, Ok};
ghost use Rattle.ht_values.specs.Operators.{on_truths, truth_of as truth_of_text, word_of};
ghost use Rattle.ht_values.specs.Outcome.{and_then};

use crate::failure::Failure;
use crate::fault::Fault;
use crate::text::Text;
use crate::value::Value;
use std::alloc::{AllocError, Global};

/// The truth value of a text that is the same as `true` or `false`; else `NotLogical`.
pub fn truth_of(text: &Text) -> Result<bool, Fault>
    ensures { result ≡ truth_of_text text.now }
{
    let word = text.as_slice();
    if word.eq_ignore_ascii_case(b"true") {
        Ok(true)
    } else if word.eq_ignore_ascii_case(b"false") {
        Ok(false)
    } else {
        Err(Fault::NotLogical)
    }
}

/// A truth value as a text, `true` or `false`. It takes no memory, and is never refused.
pub(crate) fn word_text(alloc: Global, truth: bool) -> Result<Text, AllocError>
    ensures value { IfOk result (λ t. t ≡ word_of truth) }
    ensures made { IsOk result }
{
    let word: &[u8] = if truth { b"true" } else { b"false" };
    Text::fitting(alloc, word)
}

/// A truth value as a text, `true` or `false`. It takes no memory, and is never refused.
pub fn in_word(alloc: Global, truth: bool) -> Result<Text, Failure>
    ensures { result ≡ Ok (word_of truth) }
{
    Ok(word_text(alloc, truth)?)
}

/// Whether both are true. Both are converted, the left one first.
pub(crate) fn conjunction(left: &Value, right: &Value) -> Result<bool, Fault>
    ensures { result ≡ on_truths (λ x y. x && y) left.now right.now }
{
    let x = left.truth()?;
    let y = right.truth()?;
    Ok(x && y)
}

/// Whether one is true. Both are converted, the left one first.
pub(crate) fn disjunction(left: &Value, right: &Value) -> Result<bool, Fault>
    ensures { result ≡ on_truths (λ x y. x || y) left.now right.now }
{
    let x = left.truth()?;
    let y = right.truth()?;
    Ok(x || y)
}

/// Whether it isn't true.
pub(crate) fn negation(operand: &Value) -> Result<bool, Fault>
    ensures { result ≡ and_then (truth_of_text operand.now) (λ x. Ok (not x)) }
{
    let x = operand.truth()?;
    Ok(!x)
}
