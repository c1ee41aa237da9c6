//! What operators give of their operands.

ghost use Rattle.std.specs.Prelude.{◌≡◌, ◌≤◌, IsSome};
ghost use Rattle.ht_grammar.specs.Trees as tree;
ghost use Rattle.ht_grammar.specs.Depth.{depth, max_depth};
ghost use Rattle.ht_tree.specs.View.{binary_of, chain_of, left_nested_of, right_nested_of, unary_of};
ghost use Rattle.containers.specs.Base.{base};
ghost use Rattle.meaning.specs.Meaning.{Val};
ghost use Rattle.primitives.specs.Given.{given};
ghost use Rattle.interp.specs.Joining.{JoinsOperand};
ghost use Rattle.interp.specs.Keeps.{Keeps};

use crate::expr::eval;
use change_journal::World;
use externals::External;
use ht_tree::{Binary, Chain, Expr, ExprForm, LeftNested, RightNested, Unary};
use ht_values::{Op, Value};
use meaning::{Budget, Frame, Stop};
use primitives::chains::{apply_in_chain, apply_name, apply_name_in_chain};
use primitives::joins::fit;
use primitives::numbers::{are_plain, binary_of_plain};
use primitives::values::{apply, apply_one};

/// Two operands from left to right, and what the operator gives.
#[cycle(run)]
#[tactic(auto, using(meaning::proofs::Rules::val_binary_rules))]
#[inline(never)]
pub(crate) fn binary<E: External>(
    world: &mut World<E>,
    run: &mut Budget,
    frame: &Frame,
    nested: u32,
    joined: &Binary,
    value: &mut Value,
) -> Result<(), Stop>
    requires nested { nested ≤ 100 }
    requires deep { depth (binary_of joined.now) ≤ max_depth }
    requires open { IsSome (base world.old.history).start }
    ensures meaning { Val world.old.history run.old frame.now nested (binary_of joined.now)
        (given result value.new) world.new.history run.new }
    ensures keeps { Keeps world.old.history run.old world.new.history run.new }
{
    keep_apart!(binary(world, run, frame, nested, joined, value));
    let Binary { op, left, right } = joined;
    operands(world, run, frame, nested, *op, left, right, value)
}

/// What an operator gives of two operands, from left to right.
#[cycle(run)]
#[tactic(auto, using(crate::proofs::Nested::operands_rules))]
#[inline(always)]
pub(crate) fn operands<E: External>(
    world: &mut World<E>,
    run: &mut Budget,
    frame: &Frame,
    nested: u32,
    op: Op,
    left: &Expr,
    right: &Expr,
    value: &mut Value,
) -> Result<(), Stop>
    requires nested { nested ≤ 100 }
    requires left { depth left.now ≤ max_depth }
    requires right { depth right.now ≤ max_depth }
    requires open { IsSome (base world.old.history).start }
    ensures meaning { Val world.old.history run.old frame.now nested (tree.binary op left.now right.now)
        (given result value.new) world.new.history run.new }
    ensures keeps { Keeps world.old.history run.old world.new.history run.new }
{
    if are_plain(left, right) {
        return binary_of_plain(world, run, frame, nested, op, left, right, value);
    }
    eval(world, run, frame, nested, left, value)?;
    let mut operand = Value::of_number(0);
    join_last(world, run, frame, nested, op, right, &mut operand, value)
}

/// Two operands, what their operator gives, a third operand, and what the second operator gives.
#[cycle(run)]
#[tactic(auto, using(crate::proofs::Nested::left_nested_rules))]
#[inline(never)]
pub(crate) fn left_nested<E: External>(
    world: &mut World<E>,
    run: &mut Budget,
    frame: &Frame,
    nested: u32,
    both: &LeftNested,
    value: &mut Value,
) -> Result<(), Stop>
    requires nested { nested ≤ 100 }
    requires deep { depth (left_nested_of both.now) ≤ max_depth }
    requires open { IsSome (base world.old.history).start }
    ensures meaning { Val world.old.history run.old frame.now nested (left_nested_of both.now)
        (given result value.new) world.new.history run.new }
    ensures keeps { Keeps world.old.history run.old world.new.history run.new }
{
    keep_apart!(left_nested(world, run, frame, nested, both, value));
    eval(world, run, frame, nested, &both.left, value)?;
    let mut operand = Value::of_number(0);
    join(
        world,
        run,
        frame,
        nested,
        both.first,
        &both.middle,
        &mut operand,
        value,
    )?;
    join_last(
        world,
        run,
        frame,
        nested,
        both.second,
        &both.right,
        &mut operand,
        value,
    )
}

/// An operand, what the second operator gives of the other two, and what the first operator gives of both.
#[cycle(run)]
#[tactic(auto, using(meaning::proofs::Rules::val_binary_rules))]
#[inline(never)]
pub(crate) fn right_nested<E: External>(
    world: &mut World<E>,
    run: &mut Budget,
    frame: &Frame,
    nested: u32,
    both: &RightNested,
    value: &mut Value,
) -> Result<(), Stop>
    requires nested { nested ≤ 100 }
    requires deep { depth (right_nested_of both.now) ≤ max_depth }
    requires open { IsSome (base world.old.history).start }
    ensures meaning { Val world.old.history run.old frame.now nested (right_nested_of both.now)
        (given result value.new) world.new.history run.new }
    ensures keeps { Keeps world.old.history run.old world.new.history run.new }
{
    keep_apart!(right_nested(world, run, frame, nested, both, value));
    eval(world, run, frame, nested, &both.left, value)?;
    let mut operand = Value::of_number(0);
    operands(
        world,
        run,
        frame,
        nested,
        both.second,
        &both.middle,
        &both.right,
        &mut operand,
    )?;
    apply(run, both.first, value, &operand)
}

/// Operands from left to right, and what each operator gives of what those before it gave. A text that grew so is kept
/// in no more memory than it needs.
#[cycle(run)]
#[inline(never)]
pub(crate) fn chain<E: External>(
    world: &mut World<E>,
    run: &mut Budget,
    frame: &Frame,
    nested: u32,
    operators: &Chain,
    value: &mut Value,
) -> Result<(), Stop>
    requires nested { nested ≤ 100 }
    requires deep { depth (chain_of operators.now) ≤ max_depth }
    requires open { IsSome (base world.old.history).start }
    ensures meaning { Val world.old.history run.old frame.now nested (chain_of operators.now)
        (given result value.new) world.new.history run.new }
    ensures keeps { Keeps world.old.history run.old world.new.history run.new }
{
    keep_apart!(chain(world, run, frame, nested, operators, value));
    keep_apart!(Ok(fit(run, value)));
    eval(world, run, frame, nested, &operators.left, value)?;
    let mut operand = Value::of_number(0);
    eval(world, run, frame, nested, &operators.right, &mut operand)?;
    apply_in_chain(run, operators.op, value, &operand)?;
    for joined in &operators.joined {
        join(
            world,
            run,
            frame,
            nested,
            joined.op,
            &joined.operand,
            &mut operand,
            value,
        )?;
    }
    fit(run, value);
    Ok(())
}

/// An operand, and what its operator gives of what stands before it. What a name reads is joined where it stands, and any
/// other operand is written in a place first.
#[cycle(run)]
#[tactic(auto, using(crate::proofs::Nested::join_rules))]
#[inline(always)]
pub(crate) fn join<E: External>(
    world: &mut World<E>,
    run: &mut Budget,
    frame: &Frame,
    nested: u32,
    op: Op,
    e: &Expr,
    operand: &mut Value,
    value: &mut Value,
) -> Result<(), Stop>
    requires nested { nested ≤ 100 }
    requires deep { depth e.now ≤ max_depth }
    requires open { IsSome (base world.old.history).start }
    ensures meaning { JoinsOperand world.old.history run.old frame.now nested op value.old e.now
        (given result value.new) world.new.history run.new }
    ensures keeps { Keeps world.old.history run.old world.new.history run.new }
{
    match e.form() {
        ExprForm::Name(name) => apply_name_in_chain(world, run, frame, op, value, name),
        _ => {
            eval(world, run, frame, nested, e, operand)?;
            apply_in_chain(run, op, value, operand)
        }
    }
}

/// The same of an operand that is the last: nothing is joined behind it, so a text that grew is kept in no more memory
/// than it needs.
#[cycle(run)]
#[tactic(auto, using(crate::proofs::Nested::join_rules))]
#[inline(always)]
pub(crate) fn join_last<E: External>(
    world: &mut World<E>,
    run: &mut Budget,
    frame: &Frame,
    nested: u32,
    op: Op,
    e: &Expr,
    operand: &mut Value,
    value: &mut Value,
) -> Result<(), Stop>
    requires nested { nested ≤ 100 }
    requires deep { depth e.now ≤ max_depth }
    requires open { IsSome (base world.old.history).start }
    ensures meaning { JoinsOperand world.old.history run.old frame.now nested op value.old e.now
        (given result value.new) world.new.history run.new }
    ensures keeps { Keeps world.old.history run.old world.new.history run.new }
{
    match e.form() {
        ExprForm::Name(name) => apply_name(world, run, frame, op, value, name),
        _ => {
            eval(world, run, frame, nested, e, operand)?;
            apply(run, op, value, operand)
        }
    }
}

/// An operand, and what the operator gives.
#[cycle(run)]
#[tactic(auto, using(meaning::proofs::Rules::val_unary_rules))]
#[inline(never)]
pub(crate) fn unary<E: External>(
    world: &mut World<E>,
    run: &mut Budget,
    frame: &Frame,
    nested: u32,
    operator: &Unary,
    value: &mut Value,
) -> Result<(), Stop>
    requires nested { nested ≤ 100 }
    requires deep { depth (unary_of operator.now) ≤ max_depth }
    requires open { IsSome (base world.old.history).start }
    ensures meaning { Val world.old.history run.old frame.now nested (unary_of operator.now)
        (given result value.new) world.new.history run.new }
    ensures keeps { Keeps world.old.history run.old world.new.history run.new }
{
    keep_apart!(unary(world, run, frame, nested, operator, value));
    eval(world, run, frame, nested, &operator.operand, value)?;
    apply_one(run, operator.op, value)
}
