//! Functions of an operand, and values of texts.

ghost use Rattle.std.specs.Prelude.{◌≡◌, ◌≤◌, IsSome, Ok, true};
ghost use Rattle.ht_grammar.specs.Trees as tree;
ghost use Rattle.ht_grammar.specs.Depth.{depth, max_depth};
ghost use Rattle.ht_tree.specs.View.{expr_of};
ghost use Rattle.change_journal.specs.History.{History};
ghost use Rattle.containers.specs.Base.{base};
ghost use Rattle.meaning.specs.State.{RunState};
ghost use Rattle.meaning.specs.Meaning.{TextVal, Val};
ghost use Rattle.primitives.specs.Given.{given};
ghost use Rattle.interp.specs.Forms.{is_function};
ghost use Rattle.interp.specs.Keeps.{Keeps};

use crate::expr::{eval, eval_whole, is_lent, meet_operand, text_taken};
use change_journal::World;
use externals::External;
use ht_grammar::FunctionWord;
use ht_tree::ExprKind;
use ht_values::{Text, Value};
use meaning::{Budget, Frame, Stop, TextUse};
use one_pass::meet_text;
use primitives::operands::{apply_function, call_of_operand, operand_into_text};
use primitives::values::leaving_text;

/// `the length of` and the like, and `the value of`.
#[cycle(run)]
#[tactic(auto, using(meaning::proofs::Rules::val_function_rules))]
#[inline(never)]
pub(crate) fn function_of<E: External>(
    world: &mut World<E>,
    run: &mut Budget,
    frame: &Frame,
    nested: u32,
    kind: &ExprKind,
    value: &mut Value,
) -> Result<(), Stop>
    requires nested { nested ≤ 100 }
    requires form { is_function (expr_of kind.now) ≡ true }
    requires deep { depth (expr_of kind.now) ≤ max_depth }
    requires open { IsSome (base world.old.history).start }
    ensures meaning { Val world.old.history run.old frame.now nested (expr_of kind.now)
        (given result value.new) world.new.history run.new }
    ensures keeps { Keeps world.old.history run.old world.new.history run.new }
{
    keep_apart!(function_of(world, run, frame, nested, kind, value));
    match kind {
        ExprKind::Function(word, operand) => {
            if is_lent(operand) {
                return lent_function(world, run, frame, nested, kind, value);
            }
            eval(world, run, frame, nested, operand, value)?;
            function_over(world, run, frame, nested, *word, value)
        }
        _ => unreachable!(),
    }
}

/// A function of an operand, which is met now.
#[cycle(run)]
#[tactic(auto, using(crate::proofs::Operands::function_rules))]
#[inline(never)]
pub(crate) fn lent_function<E: External>(
    world: &mut World<E>,
    run: &mut Budget,
    frame: &Frame,
    nested: u32,
    kind: &ExprKind,
    value: &mut Value,
) -> Result<(), Stop>
    requires nested { nested ≤ 100 }
    requires form { is_function (expr_of kind.now) ≡ true }
    requires deep { depth (expr_of kind.now) ≤ max_depth }
    requires open { IsSome (base world.old.history).start }
    ensures meaning { Val world.old.history run.old frame.now nested (expr_of kind.now)
        (given result value.new) world.new.history run.new }
    ensures keeps { Keeps world.old.history run.old world.new.history run.new }
{
    keep_apart!(lent_function(world, run, frame, nested, kind, value));
    match kind {
        ExprKind::Function(word, operand) => {
            let x = meet_operand(world, run, frame, nested, operand)?;
            match word.func() {
                Some(function) => call_of_operand(world, run, frame, function, x, value),
                None => {
                    let text = operand_into_text(world, run, frame, x)?;
                    text_value(world, run, frame, nested, &text, value)
                }
            }
        }
        _ => unreachable!(),
    }
}

/// A function of a value that was computed, over which it is written.
#[cycle(run)]
#[tactic(auto, using(meaning::proofs::Rules::val_function_rules))]
#[inline(never)]
pub(crate) fn function_over<E: External>(
    world: &mut World<E>,
    run: &mut Budget,
    frame: &Frame,
    nested: u32,
    word: FunctionWord,
    value: &mut Value,
) -> Result<(), Stop>
    requires nested { nested ≤ 100 }
    requires open { IsSome (base world.old.history).start }
    ensures meaning { (w : History) (r : RunState) (x : tree.Expr)
        → Val w r frame.now nested x (Ok value.old) world.old.history run.old
        → Val w r frame.now nested (tree.function word x) (given result value.new) world.new.history run.new }
    ensures keeps { Keeps world.old.history run.old world.new.history run.new }
{
    keep_apart!(function_over(world, run, frame, nested, word, value));
    match word.func() {
        Some(function) => apply_function(run, function, value),
        None => {
            let text = text_taken(run, value)?;
            text_value(world, run, frame, nested, &text, value)
        }
    }
}

/// The value of a text that is an expression: a step, and one level deeper.
#[cycle(run)]
#[tactic(auto, using(crate::proofs::Nested::text_rules))]
#[inline(never)]
pub(crate) fn text_value<E: External>(
    world: &mut World<E>,
    run: &mut Budget,
    frame: &Frame,
    nested: u32,
    text: &Text,
    value: &mut Value,
) -> Result<(), Stop>
    requires nested { nested ≤ 100 }
    requires open { IsSome (base world.old.history).start }
    ensures meaning { TextVal world.old.history run.old frame.now nested text.now (given result value.new)
        world.new.history run.new }
    ensures keeps { Keeps world.old.history run.old world.new.history run.new }
{
    let Some(e) = meet_text(world, run, frame, nested, text, value)? else {
        return Ok(());
    };
    // Called for its clause alone: a tree is at most 100 levels deep.
    let _depth = e.depth();
    match eval_whole(world, run, frame, nested + 1, &e, value) {
        Ok(()) => Ok(()),
        Err(stop) => Err(leaving_text(run, TextUse::Value, text, stop)),
    }
}
