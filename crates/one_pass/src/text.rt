//! Whole texts.

ghost use Rattle.std.specs.Prelude.{◌≡◌, ◌≤◌, ◌<◌, [], true, false, IfErr, IfOk, Ok};
ghost use Rattle.containers.specs.Base.{base};
ghost use Rattle.meaning.specs.declared.end.Stop.TheVariants as stop;
ghost use Rattle.one_pass.specs.Computed.{ComputedText, TextMeans};
ghost use Rattle.one_pass.specs.Meeting.{MeetsText, tree_met};

use crate::calls::charge;
use crate::expr::{LAST_RANK, MOST_DEEP, operand};
use crate::plain::{is_plain, may_be_plain};
use change_journal::World;
use externals::External;
use ht_lex::{Cursor, lex};
use ht_tree::Expr;
use ht_values::{Fault, Text, Value};
use meaning::{Budget, Frame, MOST_NESTED, Stop, TextUse};
use primitives::joins::fit;
use primitives::values::expression;
use std::rc::Rc;

/// A text of `value` takes its step, and may not be nested too deeply. Where it is met for the first time, and can be
/// computed as it is read, its value is written in the place; else the tree is handed back that is left to compute, in
/// a call more. Fault 11 where no step is left, fault 12 where it is nested too deeply, fault 1 where it isn't an
/// expression; `Memory` where a growth was refused.
#[tactic(auto, using(crate::proofs::Meets::met_memory, crate::proofs::Meets::met_no_step, crate::proofs::Meets::met_too_deep, crate::proofs::Meets::met_value, crate::proofs::Meets::met_syntax, crate::proofs::Meets::met_tree))]
pub fn meet_text<E: External>(
    world: &mut World<E>,
    run: &mut Budget,
    frame: &Frame,
    nested: u32,
    text: &Text,
    value: &mut Value,
) -> Result<Option<Rc<Expr>>, Stop>
    requires { nested ≤ 100 }
    ensures meaning { MeetsText world.old.history run.old frame.now nested text.now (tree_met (λ x. x.value) result)
        value.new world.new.history run.new }
    ensures keeps { (base world.new.history ≡ base world.old.history) × (run.new.left ≤ run.old.left) }
    ensures spent { IfOk result (λ _. (run.new.left < run.old.left) × (nested < 100)) }
{
    run.step()?;
    if nested == MOST_NESTED {
        return Err(Stop::Fault(Fault::TooDeep));
    }
    if run.texts().meet_expression(run.alloc(), text)
        && value_in_one_pass(world, run, frame, text, value)?
    {
        return Ok(None);
    }
    let tree = expression(run, TextUse::Value, text)?;
    Ok(Some(tree))
}

/// Writes the value of a text that is an expression, and tells whether it could: `false` where the text isn't made of
/// what is computed with as it is read, where it or a part has no value, where memory was refused, and where it calls
/// more functions than there are steps. Then nothing has changed, and what stands in the place isn't said. The steps of
/// its calls are taken, and their messages are noted; where there is no memory for a note, that is `Memory`.
fn value_in_one_pass<E: External>(
    world: &mut World<E>,
    run: &mut Budget,
    frame: &Frame,
    text: &Text,
    value: &mut Value,
) -> Result<bool, Stop>
    ensures done { result ≡ Ok true → TextMeans world.old.history run.old frame.now text.now value.new run.new }
    ensures left { result ≡ Ok false → run.new ≡ run.old }
    ensures memory { IfErr result (λ z. z ≡ stop.Memory) }
    ensures fewer { run.new.left ≤ run.old.left }
    ensures same { world.new ≡ world.old }
{
    let mut calls = Vec::new(run.alloc());
    if !computed(world, run, frame, text, &mut calls, value) {
        run.trace().forget();
        return Ok(false);
    }
    if (run.left() as usize) < calls.len() {
        return Ok(false);
    }
    charge(run, &calls, frame.me)?;
    fit(run, value);
    Ok(true)
}

/// Writes the value of a text that is an expression, and lists the functions that it calls, if it can.
#[tactic(auto, using(crate::proofs::Texts::computed_text))]
fn computed<E: External>(
    world: &mut World<E>,
    run: &Budget,
    frame: &Frame,
    text: &Text,
    calls: &mut Vec<Text>,
    value: &mut Value,
) -> bool
    requires { calls.old.items ≡ [] }
    ensures computed { result ≡ true → ComputedText world.old.history frame.now text.now value.new calls.new.items }
    ensures same { world.new ≡ world.old }
{
    if !may_be_plain(text) {
        return false;
    }
    let _size = text.len();
    let Ok(tokens) = lex(run.alloc(), text) else {
        return false;
    };
    let mut cursor = Cursor::new(&tokens);
    if !is_plain(world, run, frame, &cursor) {
        return false;
    }
    let depth = operand(
        world,
        run,
        frame,
        calls,
        &mut cursor,
        MOST_DEEP,
        LAST_RANK,
        value,
    );
    depth.is_some() && cursor.peek().is_none()
}
