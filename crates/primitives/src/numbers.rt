//! What is computed at once of names and literals that are numbers.

ghost use Rattle.std.specs.Prelude.{◌≡◌, ℕ, true, IsSome, IfSome, IfNone, Ok};
ghost use Rattle.ht_grammar.specs.Trees as tree;
ghost use Rattle.ht_tree.specs.View.{chain_of};
ghost use Rattle.ht_values.specs.Operators.{unary as unary_of};
ghost use Rattle.ht_values.specs.Text.{numeral as numeral_of};
ghost use Rattle.change_journal.specs.History.{History};
ghost use Rattle.containers.specs.Base.{base};
ghost use Rattle.meaning.specs.Meaning.{Alters, NumberVal, TruthVal, Val};
ghost use Rattle.meaning.specs.State.{RunState};
ghost use Rattle.primitives.specs.Atoms.{is_atom};
ghost use Rattle.primitives.specs.Given.{given, then_next};

use crate::atoms::atom;
use crate::chains::binary_of_names;
use crate::places::{alter_variable, variable};
use crate::values::{apply, apply_one, by_numbers};
use change_journal::World;
use containers::read_number;
use externals::External;
use ht_tree::{Chain, Container, ContainerKind, Expr, ExprForm};
use ht_values::{Name, Op, UnOp, Value, number_by, truth_by, unary};
use meaning::{Budget, Frame, Stop};

/// The number that a name or a literal is, where that is known without memory; `None` for every other expression.
#[tactic(auto, using(meaning::proofs::Rules::val_rules))]
#[inline]
fn kept_number<E: External>(world: &World<E>, frame: &Frame, e: &Expr) -> Option<i64>
    ensures { IfSome result (λ n. (r : RunState) (d : ℕ)
        → Val world.now.history r frame.now d e.now (Ok (numeral_of n)) world.now.history r) }
{
    match e.form() {
        ExprForm::Number(number) => Some(number),
        ExprForm::Name(name) => read_number(world, &frame.variables, name),
        _ => None,
    }
}

/// Whether an operator gives a number of numbers, as it then does of 1 and 1. Where it doesn't, its operands needn't be
/// looked at.
#[inline(always)]
fn gives_numbers(op: Op) -> bool {
    number_by(op, 1, 1).is_some()
}

/// The operator of a chain that joins last. It binds least, so it alone tells whether the chain may give a number.
#[inline(always)]
fn outermost(chain: &Chain) -> Op {
    match chain.joined.last() {
        Some(joined) => joined.op,
        None => chain.op,
    }
}

/// The number that an operator of one operand gives of a number, where it gives one.
#[inline(never)]
fn number_by_unary(op: UnOp, number: i64) -> Option<i64>
    ensures { IfSome result (λ n. unary_of op (numeral_of number) ≡ Ok (numeral_of n)) }
{
    let value = unary(op, &Value::of_number(number)).ok()?;
    value.kept_number()
}

/// The number that an expression is, where it is made of names and literals that are numbers and each operator gives
/// one; `None` for every other expression. It takes no memory.
#[cycle(sums)]
#[tactic(auto, using(meaning::proofs::Rules::val_rules))]
#[inline(never)]
fn number_at_once<E: External>(world: &World<E>, frame: &Frame, e: &Expr) -> Option<i64>
    ensures { IfSome result (λ n. (r : RunState) (d : ℕ)
        → Val world.now.history r frame.now d e.now (Ok (numeral_of n)) world.now.history r) }
{
    match e.form() {
        ExprForm::Paren(inner) => number_at_once(world, frame, inner),
        ExprForm::UnaryOfName(op, name) => {
            let x = read_number(world, &frame.variables, name)?;
            number_by_unary(op, x)
        }
        ExprForm::UnaryOfNumber(op, number) => number_by_unary(op, number),
        ExprForm::Unary(one) if one.op == UnOp::Minus => {
            let x = number_at_once(world, frame, &one.operand)?;
            number_by_unary(one.op, x)
        }
        ExprForm::Binary(both) if gives_numbers(both.op) => {
            let x = number_at_once(world, frame, &both.left)?;
            let y = number_at_once(world, frame, &both.right)?;
            number_by(both.op, x, y)
        }
        ExprForm::LeftNested(both) if gives_numbers(both.second) => {
            let x = number_at_once(world, frame, &both.left)?;
            let y = number_at_once(world, frame, &both.middle)?;
            let nested = number_by(both.first, x, y)?;
            let z = number_at_once(world, frame, &both.right)?;
            number_by(both.second, nested, z)
        }
        ExprForm::RightNested(both) if gives_numbers(both.first) => {
            let x = number_at_once(world, frame, &both.left)?;
            let y = number_at_once(world, frame, &both.middle)?;
            let z = number_at_once(world, frame, &both.right)?;
            let nested = number_by(both.second, y, z)?;
            number_by(both.first, x, nested)
        }
        ExprForm::Chain(chain) if gives_numbers(outermost(chain)) => {
            number_of_chain(world, frame, chain)
        }
        _ => kept_number(world, frame, e),
    }
}

/// The number that a chain of operators gives, where its operands are numbers at once and each operator gives one.
#[cycle(sums)]
#[tactic(auto, using(meaning::proofs::Rules::val_rules))]
#[inline(never)]
fn number_of_chain<E: External>(world: &World<E>, frame: &Frame, chain: &Chain) -> Option<i64>
    ensures { IfSome result (λ n. (r : RunState) (d : ℕ)
        → Val world.now.history r frame.now d (chain_of chain.now) (Ok (numeral_of n)) world.now.history r) }
{
    let x = number_at_once(world, frame, &chain.left)?;
    let y = number_at_once(world, frame, &chain.right)?;
    let mut number = number_by(chain.op, x, y)?;
    for joined in &chain.joined {
        let next = number_of_operand(world, frame, &joined.operand)?;
        number = number_by(joined.op, number, next)?;
    }
    Some(number)
}

/// The number that an operand is at once. Most are names and literals, for which nothing is called.
#[cycle(sums)]
#[tactic(auto, using(meaning::proofs::Rules::val_rules))]
#[inline(always)]
fn number_of_operand<E: External>(world: &World<E>, frame: &Frame, e: &Expr) -> Option<i64>
    ensures { IfSome result (λ n. (r : RunState) (d : ℕ)
        → Val world.now.history r frame.now d e.now (Ok (numeral_of n)) world.now.history r) }
{
    if is_plain(e) {
        kept_number(world, frame, e)
    } else {
        number_at_once(world, frame, e)
    }
}

/// The number that an expression of more than one operator is at once; `None` for every other one. It takes no memory.
/// What it looked at in vain is computed again: whoever asks it of an expression asks it of no operand of that.
#[inline]
pub fn number_of_operators<E: External>(world: &World<E>, frame: &Frame, e: &Expr) -> Option<i64>
    ensures { IfSome result (λ n. (r : RunState) (d : ℕ)
        → Val world.now.history r frame.now d e.now (Ok (numeral_of n)) world.now.history r) }
{
    match e.form() {
        ExprForm::Binary(both) if are_plain(&both.left, &both.right) => None,
        ExprForm::Binary(_)
        | ExprForm::LeftNested(_)
        | ExprForm::RightNested(_)
        | ExprForm::Chain(_)
        | ExprForm::Unary(_)
        | ExprForm::Paren(_) => number_at_once(world, frame, e),
        _ => None,
    }
}

/// The number that an expression means, where it is known at once. It takes no memory.
#[tactic(auto, using(meaning::proofs::Rules::numberval_rules))]
#[inline(never)]
pub fn known_number<E: External>(world: &World<E>, frame: &Frame, e: &Expr) -> Option<i64>
    ensures { IfSome result (λ n. (r : RunState) (d : ℕ)
        → NumberVal world.now.history r frame.now d e.now (Ok n) world.now.history r) }
{
    let number = Value::of_number(number_at_once(world, frame, e)?);
    number.number().ok()
}

/// What an operator gives of two operands that are kept as numbers, where that is a number or a truth value. It takes
/// no memory.
#[tactic(auto, using(meaning::proofs::Rules::val_binary_rules))]
fn known_value<E: External>(
    world: &World<E>,
    frame: &Frame,
    op: Op,
    left: &Expr,
    right: &Expr,
) -> Option<Value>
    ensures { IfSome result (λ v. (r : RunState) (d : ℕ) → Val world.now.history r frame.now d
        (tree.binary op left.now right.now) (Ok v) world.now.history r) }
{
    let x = kept_number(world, frame, left)?;
    let y = kept_number(world, frame, right)?;
    by_numbers(op, x, y)
}

/// Whether two operands that are numbers at once compare so, where a condition is that. It takes no memory.
#[tactic(auto, using(meaning::proofs::Rules::val_binary_rules, meaning::proofs::Rules::truthval_rules))]
#[inline(never)]
pub fn known_truth<E: External>(world: &World<E>, frame: &Frame, e: &Expr) -> Option<bool>
    ensures { IfSome result (λ b. (r : RunState) (d : ℕ)
        → TruthVal world.now.history r frame.now d e.now (Ok b) world.now.history r) }
{
    let ExprForm::Binary(binary) = e.form() else {
        return None;
    };
    let x = number_at_once(world, frame, &binary.left)?;
    let y = number_at_once(world, frame, &binary.right)?;
    truth_by(binary.op, x, y)
}

/// Whether both expressions are names or numbers, which ask for no other's value.
pub fn are_plain(left: &Expr, right: &Expr) -> bool
    ensures { result ≡ true → (is_atom left.now ≡ true) × (is_atom right.now ≡ true) }
{
    is_plain(left) && is_plain(right)
}

/// Whether an expression is a name or a number.
#[inline]
pub fn is_plain(e: &Expr) -> bool
    ensures { result ≡ true → is_atom e.now ≡ true }
{
    match e.form() {
        ExprForm::Number(_) | ExprForm::Name(_) => true,
        _ => false,
    }
}

/// Writes what an operator gives of a name.
#[tactic(auto, using(meaning::proofs::Rules::val_rules, meaning::proofs::Rules::val_unary_rules))]
#[inline(never)]
pub fn unary_of_name<E: External>(
    world: &World<E>,
    run: &Budget,
    frame: &Frame,
    nested: u32,
    op: UnOp,
    name: &Name,
    value: &mut Value,
) -> Result<(), Stop>
    ensures { Val world.now.history run.now frame.now nested (tree.unary op (tree.name name.now))
        (given result value.new) world.now.history run.now }
{
    variable(world, run, frame, name, value)?;
    apply_one(run, op, value)
}

/// Writes what an operator gives of a number.
#[tactic(auto, using(meaning::proofs::Rules::val_rules, meaning::proofs::Rules::val_unary_rules))]
#[inline(never)]
pub fn unary_of_number<E: External>(
    world: &World<E>,
    run: &Budget,
    frame: &Frame,
    nested: u32,
    op: UnOp,
    number: i64,
    value: &mut Value,
) -> Result<(), Stop>
    ensures { Val world.now.history run.now frame.now nested (tree.unary op (tree.number (numeral_of number)))
        (given result value.new) world.now.history run.now }
{
    *value = Value::of_number(number);
    apply_one(run, op, value)
}

/// Writes what an operator gives of two operands that ask for no other's value. Those that are kept as numbers are
/// computed with at once.
#[tactic(auto, using(meaning::proofs::Rules::val_binary_rules))]
#[inline(never)]
pub fn binary_of_plain<E: External>(
    world: &World<E>,
    run: &Budget,
    frame: &Frame,
    nested: u32,
    op: Op,
    left: &Expr,
    right: &Expr,
    value: &mut Value,
) -> Result<(), Stop>
    requires left { is_atom left.now ≡ true }
    requires right { is_atom right.now ≡ true }
    ensures { Val world.now.history run.now frame.now nested (tree.binary op left.now right.now)
        (given result value.new) world.now.history run.now }
{
    if is_join(op) {
        return join_of_plain(world, run, frame, nested, op, left, right, value);
    }
    match known_value(world, frame, op, left, right) {
        Some(known) => {
            *value = known;
            Ok(())
        }
        None => binary_of_atoms(world, run, frame, nested, op, left, right, value),
    }
}

/// Whether an operator joins texts: then its operands aren't looked at as numbers.
#[inline(always)]
fn is_join(op: Op) -> bool {
    matches!(op, Op::Join | Op::JoinSpaced)
}

/// Writes what an operator gives of two operands that ask for no other's value. What two names read is lent where the
/// operator joins it.
#[tactic(auto, using(crate::proofs::Names::names_rules))]
#[inline(never)]
fn join_of_plain<E: External>(
    world: &World<E>,
    run: &Budget,
    frame: &Frame,
    nested: u32,
    op: Op,
    left: &Expr,
    right: &Expr,
    value: &mut Value,
) -> Result<(), Stop>
    requires left { is_atom left.now ≡ true }
    requires right { is_atom right.now ≡ true }
    ensures { Val world.now.history run.now frame.now nested (tree.binary op left.now right.now)
        (given result value.new) world.now.history run.now }
{
    let ExprForm::Name(first) = left.form() else {
        return binary_of_atoms(world, run, frame, nested, op, left, right, value);
    };
    let ExprForm::Name(second) = right.form() else {
        return binary_of_atoms(world, run, frame, nested, op, left, right, value);
    };
    binary_of_names(world, run, frame, op, first, second, value)
}

/// Writes what an operator gives of two operands that ask for no other's value, whatever they are. It stands for
/// itself, so that numbers pay nothing for it.
#[tactic(auto, using(meaning::proofs::Rules::val_binary_rules))]
#[inline(never)]
fn binary_of_atoms<E: External>(
    world: &World<E>,
    run: &Budget,
    frame: &Frame,
    nested: u32,
    op: Op,
    left: &Expr,
    right: &Expr,
    value: &mut Value,
) -> Result<(), Stop>
    requires left { is_atom left.now ≡ true }
    requires right { is_atom right.now ≡ true }
    ensures { Val world.now.history run.now frame.now nested (tree.binary op left.now right.now)
        (given result value.new) world.now.history run.now }
{
    atom(world, run, frame, left, value)?;
    let mut operand = Value::of_number(0);
    atom(world, run, frame, right, &mut operand)?;
    apply(run, op, value, &operand)
}

/// Arithmetic on a variable by an operand that is a number at once; `None` where the operand is none, or the container
/// is no variable, and then nothing changes.
#[tactic(auto, using(meaning::proofs::Rules::alters_rules, meaning::proofs::Rules::resolves_rules))]
#[inline(never)]
pub fn alter_by_number<E: External>(
    world: &mut World<E>,
    run: &Budget,
    frame: &mut Frame,
    op: Op,
    value: &Expr,
    container: &Container,
) -> Option<Result<(), Stop>>
    requires open { IsSome (base world.old.history).start }
    ensures meaning { IfSome result (λ o. (d : ℕ)
        → Alters world.old.history run.now frame.old d op value.now container.now (then_next o)
        world.new.history run.now frame.new) }
    ensures none { IfNone result ((world.new ≡ world.old) × (frame.new ≡ frame.old)) }
    ensures base { base world.new.history ≡ base world.old.history }
{
    let ContainerKind::Variable(name) = container.kind() else {
        return None;
    };
    let number = number_at_once(world, frame, value)?;
    Some(alter_variable(world, run, frame, name, op, Value::of_number(number)))
}
