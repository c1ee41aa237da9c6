//! What operators give of values.

ghost use Rattle.std.specs.Prelude.{◌≡◌, ◌++◌, IfOk};
ghost use Rattle.ht_values.specs.Operators.{binary as binary_of, in_numerals as in_numerals_of};
ghost use Rattle.ht_values.specs.Operators.{in_words as in_words_of, is_in as is_in_of, unary as unary_of};
ghost use Rattle.ht_values.specs.Outcome.{Gives, within_limit};

use crate::arithmetic::{
    cut_quotient, difference, negated, power, product, quotient, remainder, sum,
};
use crate::comparison::{are_equal, is_a, order_of};
use crate::failure::Failure;
use crate::fault::Fault;
use crate::join::joined;
use crate::logic::{conjunction, disjunction, negation};
use crate::operator::{Op, UnOp};
use crate::search::is_in;
use crate::value::Value;
use std::alloc::{AllocError, Global};

/// The numeral of a number, or the fault in its place.
pub(crate) fn in_numerals(number: Result<i64, Fault>) -> Result<Value, Failure>
    ensures { Gives result (in_numerals_of number) }
{
    Ok(Value::of_number(number?))
}

/// The word of a truth value, or the fault in its place.
fn in_words(truth: Result<bool, Fault>) -> Result<Value, Failure>
    ensures { Gives result (in_words_of truth) }
{
    Ok(Value::of_truth(truth?))
}

/// What an operator of two operands gives: its value, a fault of the command, or `Memory` where a growth was refused.
/// Both operands are converted, the left one first; a divisor of 0 comes before a quotient that isn't exact, and the
/// range of 64 bits last. The operators are those of HyperTalk 2.x; whole numbers and the order of faults are this
/// project's profile.
#[tactic(auto, unfolding(crate::specs::Operators::binary))]
pub fn binary(alloc: Global, op: Op, left: &Value, right: &Value) -> Result<Value, Failure>
    ensures { Gives result (binary_of op left.now right.now) }
{
    match op {
        Op::Or => in_words(disjunction(left, right)),
        Op::And => in_words(conjunction(left, right)),
        Op::Equal => Ok(Value::of_truth(are_equal(alloc, left, right)?)),
        Op::NotEqual => Ok(Value::of_truth(!are_equal(alloc, left, right)?)),
        Op::Less => Ok(Value::of_truth(order_of(alloc, left, right)?.is_lt())),
        Op::Greater => Ok(Value::of_truth(order_of(alloc, left, right)?.is_gt())),
        Op::LessOrEqual => Ok(Value::of_truth(order_of(alloc, left, right)?.is_le())),
        Op::GreaterOrEqual => Ok(Value::of_truth(order_of(alloc, left, right)?.is_ge())),
        Op::Contains => Ok(Value::of_truth(contains(alloc, left, right)?)),
        Op::IsIn => Ok(Value::of_truth(contains(alloc, right, left)?)),
        Op::IsNotIn => Ok(Value::of_truth(!contains(alloc, right, left)?)),
        Op::Join => joined_values(alloc, left, b"", right),
        Op::JoinSpaced => joined_values(alloc, left, b" ", right),
        Op::Add => in_numerals(sum(left, right)),
        Op::Subtract => in_numerals(difference(left, right)),
        Op::Multiply => in_numerals(product(left, right)),
        Op::Divide => in_numerals(quotient(left, right)),
        Op::Div => in_numerals(cut_quotient(left, right)),
        Op::Mod => in_numerals(remainder(left, right)),
        Op::Power => in_numerals(power(left, right)),
    }
}

/// Whether a run of the text is the same as another.
fn contains(alloc: Global, text: &Value, run: &Value) -> Result<bool, AllocError>
    ensures { IfOk result (λ b. b ≡ is_in_of run.now text.now) }
{
    let text = text.spelled(alloc)?;
    let run = run.spelled(alloc)?;
    Ok(is_in(alloc, run.text(), text.text()))
}

/// Two values, one after another, with bytes between.
fn joined_values(
    alloc: Global,
    left: &Value,
    between: &[u8],
    right: &Value,
) -> Result<Value, Failure>
    ensures { Gives result (within_limit (left.now ++ between.now ++ right.now)) }
{
    let left = left.spelled(alloc)?;
    let right = right.spelled(alloc)?;
    let text = joined(
        alloc,
        left.text().as_slice(),
        between,
        right.text().as_slice(),
    )?;
    Ok(Value::of_text(text))
}

/// What an operator of one operand gives: its value, or a fault of the command. It takes no memory.
#[tactic(auto, unfolding(crate::specs::Operators::unary))]
pub fn unary(op: UnOp, operand: &Value) -> Result<Value, Fault>
    ensures { result ≡ unary_of op operand.now }
{
    match op {
        UnOp::Minus => Ok(Value::of_number(negated(operand)?)),
        UnOp::Not => Ok(Value::of_truth(negation(operand)?)),
        UnOp::IsA(kind) => Ok(Value::of_truth(is_a(kind, operand))),
        UnOp::IsNotA(kind) => Ok(Value::of_truth(!is_a(kind, operand))),
    }
}
