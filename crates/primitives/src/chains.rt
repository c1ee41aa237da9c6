//! What operators give of what is lent, and those of a long chain. A call may also be out of memory, which is
//! `Stop::Memory`.

ghost use Rattle.std.specs.Prelude.{◌≡◌};
ghost use Rattle.ht_values.specs.Operators.{binary as binary_of};
ghost use Rattle.containers.specs.Places.{read_name as read_name_of};
ghost use Rattle.meaning.specs.Values.{Yields};
ghost use Rattle.primitives.specs.Given.{given};

use crate::joins::{fit, join_behind, join_name, join_names};
use crate::places::variable;
use crate::values::apply;
use change_journal::World;
use containers::Standing;
use externals::External;
use ht_values::{Name, Op, Value};
use meaning::{Budget, Frame, Stop};

/// Writes what an operator gives of two operands over the left one, as `apply` does. What `&` or `&&` joins to a text
/// goes behind it, into room that grows with it, so that a long chain of joins doesn't copy its text again and again.
#[tactic(auto, using(meaning::proofs::Rules::yields_rules), unfolding(ht_values::specs::Operators::binary))]
#[inline(never)]
pub fn apply_in_chain(run: &Budget, op: Op, left: &mut Value, right: &Value) -> Result<(), Stop>
    ensures { Yields (binary_of op left.old right.now) (given result left.new) }
{
    match op {
        Op::Join => join_behind(run, left, b"", Standing::Value(right)),
        Op::JoinSpaced => join_behind(run, left, b" ", Standing::Value(right)),
        _ => apply(run, op, left, right),
    }
}

/// Writes what an operator gives of an operand and of what a name reads over the operand, as `apply_in_chain` does. What
/// is joined is lent where it stands, and isn't copied first.
#[tactic(auto, using(meaning::proofs::Rules::yields_rules), unfolding(ht_values::specs::Operators::binary))]
#[inline(always)]
pub fn apply_name_in_chain<E: External>(
    world: &World<E>,
    run: &Budget,
    frame: &Frame,
    op: Op,
    left: &mut Value,
    name: &Name,
) -> Result<(), Stop>
    ensures { Yields (binary_of op left.old (read_name_of world.now.history.now frame.now.variables name.now))
        (given result left.new) }
{
    match op {
        Op::Join => join_name(world, run, frame, left, b"", name),
        Op::JoinSpaced => join_name(world, run, frame, left, b" ", name),
        _ => apply_copied(world, run, frame, op, left, name),
    }
}

/// Writes what an operator gives of an operand and of what a name reads over the operand, as `apply` does. A text that
/// grew so is kept in no more memory than it needs.
#[tactic(auto, using(meaning::proofs::Rules::yields_rules))]
#[inline(never)]
pub fn apply_name<E: External>(
    world: &World<E>,
    run: &Budget,
    frame: &Frame,
    op: Op,
    left: &mut Value,
    name: &Name,
) -> Result<(), Stop>
    ensures { Yields (binary_of op left.old (read_name_of world.now.history.now frame.now.variables name.now))
        (given result left.new) }
{
    apply_name_in_chain(world, run, frame, op, left, name)?;
    fit(run, left);
    Ok(())
}

/// Writes what an operator gives of an operand and of a copy of what a name reads over the operand.
#[tactic(auto, using(meaning::proofs::Rules::yields_rules))]
#[inline(never)]
fn apply_copied<E: External>(
    world: &World<E>,
    run: &Budget,
    frame: &Frame,
    op: Op,
    left: &mut Value,
    name: &Name,
) -> Result<(), Stop>
    ensures { Yields (binary_of op left.old (read_name_of world.now.history.now frame.now.variables name.now))
        (given result left.new) }
{
    let mut operand = Value::of_number(0);
    variable(world, run, frame, name, &mut operand)?;
    apply(run, op, left, &operand)
}

/// Writes what an operator gives of what two names read. What is joined is lent where it stands.
#[tactic(auto, using(meaning::proofs::Rules::yields_rules), unfolding(ht_values::specs::Operators::binary))]
#[inline(always)]
pub(crate) fn binary_of_names<E: External>(
    world: &World<E>,
    run: &Budget,
    frame: &Frame,
    op: Op,
    left: &Name,
    right: &Name,
    value: &mut Value,
) -> Result<(), Stop>
    ensures { Yields (binary_of op (read_name_of world.now.history.now frame.now.variables left.now)
        (read_name_of world.now.history.now frame.now.variables right.now)) (given result value.new) }
{
    match op {
        Op::Join => join_names(world, run, frame, left, b"", right, value),
        Op::JoinSpaced => join_names(world, run, frame, left, b" ", right, value),
        _ => {
            variable(world, run, frame, left, value)?;
            apply_copied(world, run, frame, op, value, right)
        }
    }
}
