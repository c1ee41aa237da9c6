//! What operators give of values, where they give something. Where they don't, what then stands in the place isn't said.

ghost use Rattle.std.specs.Prelude.{◌≡◌, ◌≤◌, length, IfSome, Ok};
ghost use Rattle.ht_values.specs.Operators.{binary as binary_of, unary as unary_of};
ghost use Rattle.ht_values.specs.Text.{numeral as numeral_of};
ghost use Rattle.ht_values.specs.declared.text.TheConstants.{LIMIT};
ghost use Rattle.containers.specs.Places.{read_name as read_name_of};

use change_journal::World;
use containers::{read_name, read_number};
use externals::External;
use ht_lex::to_text;
use ht_values::{Name, Op, UnOp, Value, number_by, plain_number};
use meaning::{Budget, Frame};
use primitives::chains::{apply_in_chain, apply_name_in_chain};
use primitives::values::apply_one;

/// What an operator gives of two operands, written over the left one, where it gives something.
#[tactic(auto, using(crate::proofs::Operators::yielded))]
pub(crate) fn apply_at_once(run: &Budget, op: Op, left: &mut Value, right: &Value) -> Option<()>
    ensures { IfSome result (λ _. binary_of op left.old right.now ≡ Ok left.new) }
{
    if let Some(number) = number_of_two(op, left, right) {
        *left = Value::of_number(number);
        return Some(());
    }
    apply_in_chain(run, op, left, right).ok()?;
    Some(())
}

/// The number that an operator gives of two values that are kept as numbers.
#[inline(always)]
fn number_of_two(op: Op, left: &Value, right: &Value) -> Option<i64>
    ensures { IfSome result (λ n. binary_of op left.now right.now ≡ Ok (numeral_of n)) }
{
    let x = left.kept_number()?;
    let y = right.kept_number()?;
    number_by(op, x, y)
}

/// What an operator gives of a value and of what a name reads, written over the value, where it gives something. What is
/// joined is lent where it stands.
#[tactic(auto, unfolding(ht_values::specs::Operators::binary))]
pub(crate) fn apply_name_at_once<E: External>(
    world: &World<E>,
    run: &Budget,
    frame: &Frame,
    op: Op,
    left: &mut Value,
    name: &Name,
) -> Option<()>
    ensures { IfSome result (λ _. binary_of op left.old (read_name_of world.now.history.now frame.now.variables name.now)
        ≡ Ok left.new) }
{
    match op {
        Op::Join => {
            let right = read_name(world, &frame.variables, name);
            right.append_to(run.alloc(), left, b"").ok()
        }
        Op::JoinSpaced => {
            let right = read_name(world, &frame.variables, name);
            right.append_to(run.alloc(), left, b" ").ok()
        }
        _ => compute_with_name(world, run, frame, op, left, name),
    }
}

/// The same of an operator that computes and doesn't join.
#[inline(always)]
#[tactic(auto, using(crate::proofs::Operators::yielded))]
fn compute_with_name<E: External>(
    world: &World<E>,
    run: &Budget,
    frame: &Frame,
    op: Op,
    left: &mut Value,
    name: &Name,
) -> Option<()>
    ensures { IfSome result (λ _. binary_of op left.old (read_name_of world.now.history.now frame.now.variables name.now)
        ≡ Ok left.new) }
{
    if let Some(number) = number_with_name(world, frame, op, left, name) {
        *left = Value::of_number(number);
        return Some(());
    }
    apply_name_in_chain(world, run, frame, op, left, name).ok()?;
    Some(())
}

/// The number that such an operator gives, where the value and what the name reads are kept as numbers.
#[inline]
fn number_with_name<E: External>(
    world: &World<E>,
    frame: &Frame,
    op: Op,
    left: &Value,
    name: &Name,
) -> Option<i64>
    ensures { IfSome result (λ n. binary_of op left.now
        (read_name_of world.now.history.now frame.now.variables name.now) ≡ Ok (numeral_of n)) }
{
    let x = left.kept_number()?;
    let y = read_number(world, &frame.variables, name)?;
    number_by(op, x, y)
}

/// What an operator gives of a value and of digits, written over the value, where it gives something.
#[tactic(auto, unfolding(ht_values::specs::Operators::binary))]
pub(crate) fn apply_digits_at_once(
    run: &Budget,
    op: Op,
    left: &mut Value,
    digits: &[u8],
) -> Option<()>
    requires { length digits.now ≤ LIMIT }
    ensures { IfSome result (λ _. binary_of op left.old digits.now ≡ Ok left.new) }
{
    match op {
        Op::Join => left.append_parts(run.alloc(), b"", digits).ok(),
        Op::JoinSpaced => left.append_parts(run.alloc(), b" ", digits).ok(),
        _ => {
            let right = digits_value(run, digits)?;
            apply_at_once(run, op, left, &right)
        }
    }
}

/// The value of digits.
fn digits_value(run: &Budget, digits: &[u8]) -> Option<Value>
    requires { length digits.now ≤ LIMIT }
    ensures { IfSome result (λ v. v ≡ digits.now) }
{
    match plain_number(digits) {
        Some(number) => Some(Value::of_number(number)),
        None => Some(Value::of_text(to_text(run.alloc(), digits).ok()?)),
    }
}

/// What an operator gives of one operand, written over it, where it gives something.
#[tactic(auto, using(crate::proofs::Operators::yielded))]
pub(crate) fn apply_one_at_once(run: &Budget, op: UnOp, operand: &mut Value) -> Option<()>
    ensures { IfSome result (λ _. unary_of op operand.old ≡ Ok operand.new) }
{
    apply_one(run, op, operand).ok()?;
    Some(())
}
