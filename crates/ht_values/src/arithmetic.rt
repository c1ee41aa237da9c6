//! Arithmetic on the numbers of values: the left operand is converted first.

ghost use Rattle.std.specs.Prelude.{◌≡◌, ◌≤◌, ◌+ℤ◌, ◌-ℤ◌, ◌*ℤ◌, neg_ℤ};
ghost use Rattle.std.specs.Int.{int_pow};
ghost use Rattle.ht_values.specs.Number.{number_of as number_of_text, ranged};
ghost use Rattle.ht_values.specs.Operators.{on_numbers, exact_quotient as exact_quotient_of};
ghost use Rattle.ht_values.specs.Operators.{cut_quotient as cut_quotient_of, remainder as remainder_of};
ghost use Rattle.ht_values.specs.Operators.{power as power_of};
ghost use Rattle.ht_values.specs.Outcome.{and_then};

use crate::fault::Fault;
use crate::value::Value;

/// `-x`.
pub(crate) fn negated(operand: &Value) -> Result<i64, Fault>
    ensures { result ≡ and_then (number_of_text operand.now) (λ x. ranged (neg_ℤ x)) }
{
    let x = operand.number()?;
    x.checked_neg().ok_or(Fault::OutOfRange)
}

/// `x + y`.
pub(crate) fn sum(left: &Value, right: &Value) -> Result<i64, Fault>
    ensures { result ≡ on_numbers (λ x y. ranged (x +ℤ y)) left.now right.now }
{
    let x = left.number()?;
    let y = right.number()?;
    x.checked_add(y).ok_or(Fault::OutOfRange)
}

/// `x - y`.
pub(crate) fn difference(left: &Value, right: &Value) -> Result<i64, Fault>
    ensures { result ≡ on_numbers (λ x y. ranged (x -ℤ y)) left.now right.now }
{
    let x = left.number()?;
    let y = right.number()?;
    x.checked_sub(y).ok_or(Fault::OutOfRange)
}

/// `x * y`.
pub(crate) fn product(left: &Value, right: &Value) -> Result<i64, Fault>
    ensures { result ≡ on_numbers (λ x y. ranged (x *ℤ y)) left.now right.now }
{
    let x = left.number()?;
    let y = right.number()?;
    x.checked_mul(y).ok_or(Fault::OutOfRange)
}

/// What is left of a division of two numbers. It never overflows: the least number by -1 leaves 0.
pub(crate) fn rest_of(x: i64, y: i64) -> Result<i64, Fault>
    ensures { result ≡ remainder_of x y }
{
    match y {
        0 => Err(Fault::DivideByZero),
        -1 => Ok(0),
        _ => Ok(x % y),
    }
}

/// A quotient, cut toward zero.
pub(crate) fn cut(x: i64, y: i64) -> Result<i64, Fault>
    ensures { result ≡ cut_quotient_of x y }
{
    if y == 0 {
        return Err(Fault::DivideByZero);
    }
    x.checked_div(y).ok_or(Fault::OutOfRange)
}

/// A quotient that is exact, or `NotExact`.
pub(crate) fn exact(x: i64, y: i64) -> Result<i64, Fault>
    ensures { result ≡ exact_quotient_of x y }
{
    if rest_of(x, y)? == 0 {
        cut(x, y)
    } else {
        Err(Fault::NotExact)
    }
}

/// `x / y`, which is exact or `NotExact`.
pub(crate) fn quotient(left: &Value, right: &Value) -> Result<i64, Fault>
    ensures { result ≡ on_numbers exact_quotient_of left.now right.now }
{
    let x = left.number()?;
    let y = right.number()?;
    exact(x, y)
}

/// `x div y`.
pub(crate) fn cut_quotient(left: &Value, right: &Value) -> Result<i64, Fault>
    ensures { result ≡ on_numbers cut_quotient_of left.now right.now }
{
    let x = left.number()?;
    let y = right.number()?;
    cut(x, y)
}

/// `x mod y`.
pub(crate) fn remainder(left: &Value, right: &Value) -> Result<i64, Fault>
    ensures { result ≡ on_numbers remainder_of left.now right.now }
{
    let x = left.number()?;
    let y = right.number()?;
    rest_of(x, y)
}

/// A power whose exponent is so high that it is in range only for -1, 0 and 1.
#[tactic(auto, using(crate::proofs::Powers::far_zero, crate::proofs::Powers::far_one, crate::proofs::Powers::far_even, crate::proofs::Powers::far_odd, crate::proofs::Powers::far_other))]
fn far_power(base: i64, exponent: u64) -> Result<i64, Fault>
    requires { 64 ≤ exponent }
    ensures { result ≡ ranged (int_pow base exponent) }
{
    match base {
        0 | 1 => Ok(base),
        -1 if exponent % 2 == 0 => Ok(1),
        -1 => Ok(-1),
        _ => Err(Fault::OutOfRange),
    }
}

/// A power of two numbers.
pub(crate) fn raised(base: i64, exponent: i64) -> Result<i64, Fault>
    ensures { result ≡ power_of base exponent }
{
    if exponent < 0 {
        return Err(Fault::BadArgument);
    }
    let exponent = exponent as u64;
    if exponent < 64 {
        base.checked_pow(exponent as u32).ok_or(Fault::OutOfRange)
    } else {
        far_power(base, exponent)
    }
}

/// `x ^ y`.
pub(crate) fn power(left: &Value, right: &Value) -> Result<i64, Fault>
    ensures { result ≡ on_numbers power_of left.now right.now }
{
    let base = left.number()?;
    let exponent = right.number()?;
    raised(base, exponent)
}
