//! Expressions whose value asks for no other's. A call may also be out of memory, which is `Stop::Memory`.

ghost use Rattle.std.specs.Prelude.{◌≡◌, ℕ, true};
ghost use Rattle.ht_grammar.specs.Trees as tree;
ghost use Rattle.ht_tree.specs.View.{count_of, expr_of};
ghost use Rattle.meaning.specs.declared.frame.Frame.{Frame};
ghost use Rattle.meaning.specs.Meaning.{Val};
ghost use Rattle.primitives.specs.Atoms.{counts_objects, is_atom};
ghost use Rattle.primitives.specs.Given.{given};

use crate::objects::{parts_here, target_name};
use crate::places::variable;
use crate::values::{constant_value, numeral, return_sign};
use change_journal::World;
use externals::External;
use ht_tree::{Count, Expr, ExprForm, ExprKind};
use ht_values::Value;
use meaning::{Budget, Frame, Stop};

/// Writes the value of an expression that has no other one, and no reference, in it; fault 3 where it is `the target`,
/// which is gone.
#[tactic(auto, using(meaning::proofs::Rules::val_rules))]
#[inline(never)]
pub fn atom<E: External>(
    world: &World<E>,
    run: &Budget,
    frame: &Frame,
    e: &Expr,
    value: &mut Value,
) -> Result<(), Stop>
    requires { is_atom e.now ≡ true }
    ensures { (d : ℕ) → Val world.now.history run.now frame.now d e.now (given result value.new) world.now.history
        run.now }
{
    match e.form() {
        ExprForm::Number(number) => {
            *value = Value::of_number(number);
            Ok(())
        }
        ExprForm::Name(name) => {
            variable(world, run, frame, name, value)?;
            Ok(())
        }
        ExprForm::Digits(text) | ExprForm::Quoted(text) => {
            *value = Value::copied(run.alloc(), text)?;
            Ok(())
        }
        ExprForm::Constant(constant) => {
            *value = constant_value(run, constant)?;
            Ok(())
        }
        ExprForm::Kind(kind) => {
            *value = other_atom(world, run, frame, kind)?;
            Ok(())
        }
        _ => unreachable!(),
    }
}

/// The value of an atom that is a word of the language.
#[tactic(auto, using(meaning::proofs::Rules::val_rules))]
#[inline(always)]
fn other_atom<E: External>(
    world: &World<E>,
    run: &Budget,
    frame: &Frame,
    kind: &ExprKind,
) -> Result<Value, Stop>
    requires { is_atom (expr_of kind.now) ≡ true }
    ensures { (d : ℕ) → Val world.now.history run.now frame.now d (expr_of kind.now) result world.now.history run.now }
{
    match kind {
        ExprKind::Return => Ok(return_sign(run)?),
        ExprKind::Result => Ok(run.result().try_clone(run.alloc())?),
        ExprKind::Target => target_name(world, run, frame),
        ExprKind::RunProperty(property) => Ok(run.property(*property)?),
        _ => unreachable!(),
    }
}

/// Writes how many cards, backgrounds or parts there are.
#[tactic(auto, using(meaning::proofs::Rules::val_number_of_cards_rules, meaning::proofs::Rules::val_number_of_backgrounds_rules, meaning::proofs::Rules::val_number_of_parts_rules))]
#[inline(never)]
pub fn object_count<E: External>(
    world: &World<E>,
    run: &Budget,
    count: &Count,
    value: &mut Value,
) -> Result<(), Stop>
    requires { counts_objects (count_of count.now) ≡ true }
    ensures { (f : Frame) (d : ℕ) → Val world.now.history run.now f d (tree.number_of (count_of count.now))
        (given result value.new) world.now.history run.now }
{
    match count {
        Count::Cards => {
            *value = numeral(run, world.stack().cards().len())?;
            Ok(())
        }
        Count::Backgrounds => {
            *value = numeral(run, world.stack().backgrounds().len())?;
            Ok(())
        }
        Count::Parts(layer, kind) => {
            *value = numeral(run, parts_here(world, *layer, *kind))?;
            Ok(())
        }
        Count::PiecesOf(_, _) | Count::OfObject(_) => unreachable!(),
    }
}
