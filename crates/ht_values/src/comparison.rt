//! Comparisons: as numbers where both are numerals, else as texts.

ghost use Rattle.std.specs.Prelude.{◌≡◌, IfOk, IsTrue, SomeIff};
ghost use Rattle.ht_values.specs.Number.{value_of};
ghost use Rattle.ht_values.specs.Operators.{are_equal as are_equal_of, are_numerals, is_a as is_a_of};
ghost use Rattle.ht_values.specs.Operators.{order_of as order_of_texts, text_order};
ghost use Rattle.ht_values.specs.Text.{same};

use crate::operator::ValueType;
use crate::text::Text;
use crate::value::Value;
use std::alloc::{AllocError, Global};
use std::cmp::Ordering;

/// The numbers of two numerals.
fn both_numerals(left: &Value, right: &Value) -> Option<(i64, i64)>
    ensures { SomeIff result (IsTrue (are_numerals left.now right.now)) (value_of left.now, value_of right.now) }
{
    let x = left.numeral()?;
    let y = right.numeral()?;
    Some((x, y))
}

/// Whether two texts are the same.
fn are_same_texts(left: &Text, right: &Text) -> bool
    ensures { result ≡ same left.now right.now }
{
    left.same(right)
}

/// Whether the texts of two values are the same.
fn are_same(alloc: Global, left: &Value, right: &Value) -> Result<bool, AllocError>
    ensures { IfOk result (λ b. b ≡ same left.now right.now) }
{
    let left = left.spelled(alloc)?;
    let right = right.spelled(alloc)?;
    Ok(are_same_texts(left.text(), right.text()))
}

/// Whether two values are equal. It takes memory only to spell a number beside a text.
#[tactic(auto, using(crate::proofs::Sames::equal_as_texts))]
pub(crate) fn are_equal(alloc: Global, left: &Value, right: &Value) -> Result<bool, AllocError>
    ensures { IfOk result (λ b. b ≡ are_equal_of left.now right.now) }
{
    match both_numerals(left, right) {
        Some((x, y)) => Ok(x == y),
        None => are_same(alloc, left, right),
    }
}

/// How two values stand in order. It takes memory only to spell a number beside a text.
pub(crate) fn order_of(alloc: Global, left: &Value, right: &Value) -> Result<Ordering, AllocError>
    ensures { IfOk result (λ o. o ≡ order_of_texts left.now right.now) }
{
    match both_numerals(left, right) {
        Some((x, y)) => Ok(x.cmp(&y)),
        None => {
            let left = left.spelled(alloc)?;
            let right = right.spelled(alloc)?;
            Ok(order_of_bytes(left.text().as_slice(), right.text().as_slice()))
        }
    }
}

/// How two texts stand in order, by their folded bytes.
fn order_of_bytes(left: &[u8], right: &[u8]) -> Ordering
    ensures { result ≡ text_order left.now right.now }
{
    left.iter()
        .map(|byte| byte.to_ascii_lowercase())
        .cmp(right.iter().map(|byte| byte.to_ascii_lowercase()))
}

/// Whether a value is of a type.
pub(crate) fn is_a(kind: ValueType, value: &Value) -> bool
    ensures { result ≡ is_a_of kind value.now }
{
    match kind {
        ValueType::Number | ValueType::Integer => value.numeral().is_some(),
        ValueType::Logical => value.truth().is_ok(),
    }
}
