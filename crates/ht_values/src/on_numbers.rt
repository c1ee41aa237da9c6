//! Operators on numbers that aren't made values first.

ghost use Rattle.std.specs.Prelude.{◌≡◌, IfSome, Ok};
ghost use Rattle.ht_values.specs.Operators.{binary as binary_of, number_by as number_by_of, truth_by as truth_by_of};
ghost use Rattle.ht_values.specs.Operators.{exact_quotient, power, word_of};
ghost use Rattle.std.specs.Result.{result_ok};
ghost use Rattle.ht_values.specs.Text.{numeral as numeral_of};

use crate::arithmetic::{cut, exact, raised, rest_of};
use crate::operator::Op;

/// The number that an operator of arithmetic gives of two numbers. `None` where it gives a fault, and for each other
/// operator. It takes no memory.
#[inline]
pub fn number_by(op: Op, left: i64, right: i64) -> Option<i64>
    ensures value { result ≡ number_by_of op left right }
    ensures meaning { IfSome result (λ n. binary_of op (numeral_of left) (numeral_of right) ≡ Ok (numeral_of n)) }
{
    computed(op, left, right)
}

#[inline(always)]
fn computed(op: Op, left: i64, right: i64) -> Option<i64>
    ensures { result ≡ number_by_of op left right }
{
    match op {
        Op::Add => left.checked_add(right),
        Op::Subtract => left.checked_sub(right),
        Op::Multiply => left.checked_mul(right),
        Op::Divide => exact_number(left, right),
        Op::Div => cut(left, right).ok(),
        Op::Mod => rest_of(left, right).ok(),
        Op::Power => power_number(left, right),
        Op::Or
        | Op::And
        | Op::Equal
        | Op::NotEqual
        | Op::Less
        | Op::Greater
        | Op::LessOrEqual
        | Op::GreaterOrEqual
        | Op::Contains
        | Op::IsIn
        | Op::IsNotIn
        | Op::Join
        | Op::JoinSpaced => None,
    }
}

/// A quotient that is exact, if there is one. It is out of line, so that sums pay nothing for it.
#[inline(never)]
fn exact_number(left: i64, right: i64) -> Option<i64>
    ensures { result ≡ result_ok (exact_quotient left right) }
{
    exact(left, right).ok()
}

/// A power, if it is in range. It is out of line, so that sums pay nothing for it.
#[inline(never)]
fn power_number(left: i64, right: i64) -> Option<i64>
    ensures { result ≡ result_ok (power left right) }
{
    raised(left, right).ok()
}

/// The truth value that a comparison gives of two numbers. `None` for each other operator. It takes no memory.
#[inline]
pub fn truth_by(op: Op, left: i64, right: i64) -> Option<bool>
    ensures value { result ≡ truth_by_of op left right }
    ensures meaning { IfSome result (λ b. binary_of op (numeral_of left) (numeral_of right) ≡ Ok (word_of b)) }
{
    compared(op, left, right)
}

#[inline(always)]
fn compared(op: Op, left: i64, right: i64) -> Option<bool>
    ensures { result ≡ truth_by_of op left right }
{
    match op {
        Op::Equal => Some(left == right),
        Op::NotEqual => Some(left != right),
        Op::Less => Some(left < right),
        Op::Greater => Some(left > right),
        Op::LessOrEqual => Some(left <= right),
        Op::GreaterOrEqual => Some(left >= right),
        Op::Or
        | Op::And
        | Op::Contains
        | Op::IsIn
        | Op::IsNotIn
        | Op::Join
        | Op::JoinSpaced
        | Op::Add
        | Op::Subtract
        | Op::Multiply
        | Op::Divide
        | Op::Div
        | Op::Mod
        | Op::Power => None,
    }
}
