//! Conversations with externals.

ghost use Rattle.std.specs.Prelude.{◌≡◌, ◌≤◌, ◌<◌, IsSome, length, true};
ghost use Rattle.containers.specs.Base.{base};
ghost use Rattle.interp.specs.Views.{asks_back};
ghost use Rattle.meaning.specs.Meaning.{CallsBack, Converses};
ghost use Rattle.interp.specs.Keeps.{Keeps};

use crate::expr::eval_text;
use crate::stmt::run_block;
use change_journal::World;
use externals::{Ask, External, Input};
use ht_values::{Fault, Text, Value};
use meaning::{Budget, Conversed, Frame, MOST_ARGUMENTS, MOST_NESTED, Stop, TextUse};
use primitives::arguments::Arguments;
use primitives::messages::{start, take_turn};
use primitives::places::{set_field, set_global};
use primitives::values::{expression, leaving_text, lines};

/// A conversation with an external: its arguments are counted, then the depth is tested. Its turns are one level
/// deeper, with a step before each.
#[cycle(run)]
#[tactic(auto, using(meaning::proofs::Rules::converses_rules, meaning::proofs::Rules::talks_rules))]
#[inline(never)]
pub(crate) fn converse<E: External>(
    world: &mut World<E>,
    run: &mut Budget,
    nested: u32,
    number: usize,
    values: &Arguments,
) -> Result<Conversed, Stop>
    requires nested { nested ≤ 100 }
    requires there { number < length (base world.old.history).titles }
    requires open { IsSome (base world.old.history).start }
    ensures meaning { Converses world.old.history run.old nested number values.now result world.new.history run.new }
    ensures keeps { Keeps world.old.history run.old world.new.history run.new }
{
    if MOST_ARGUMENTS < values.len() {
        return Err(Stop::Fault(Fault::BadArgument));
    }
    if nested == MOST_NESTED {
        return Err(Stop::Fault(Fault::TooDeep));
    }
    let mut next = start(run, values)?;
    loop {
        run.step()?;
        match take_turn(world, number, &next)? {
            Ask::Done(value, passes) => return Ok(Conversed { value, passes }),
            Ask::Fail => return Err(Stop::Fault(Fault::ExternalFault)),
            ask => next = call_back(world, run, nested + 1, ask)?,
        }
    }
}

/// A call-back, and the answer that is handed in at the next turn.
#[cycle(run)]
#[tactic(auto, using(meaning::proofs::Rules::callsback_rules))]
#[inline(never)]
pub(crate) fn call_back<E: External>(
    world: &mut World<E>,
    run: &mut Budget,
    nested: u32,
    ask: Ask,
) -> Result<Input, Stop>
    requires nested { nested ≤ 100 }
    requires asks { asks_back ask ≡ true }
    requires open { IsSome (base world.old.history).start }
    ensures meaning { CallsBack world.old.history run.old nested ask result world.new.history run.new }
    ensures keeps { Keeps world.old.history run.old world.new.history run.new }
{
    match ask {
        Ask::SendCardMessage(note, text) => {
            let lines = lines(run, TextUse::CallBack, &text)?;
            let mut frame = Frame::typed(run.alloc(), world.current());
            // Called for its clause alone: a tree is at most 100 levels deep.
            let _depth = lines.depth();
            let mut unused = Value::of_number(0);
            match run_block(world, run, &mut frame, nested, &lines.items, &mut unused) {
                Ok(_) => Ok(Input::Answer(note, Text::new(run.alloc()))),
                Err(stop) => Err(leaving_text(run, TextUse::CallBack, &text, stop)),
            }
        }
        Ask::EvalExpr(note, text) => {
            let e = expression(run, TextUse::CallBack, &text)?;
            let frame = Frame::typed(run.alloc(), world.current());
            // Called for its clause alone: a tree is at most 100 levels deep.
            let _depth = e.depth();
            match eval_text(world, run, &frame, nested, &e) {
                Ok(value) => Ok(Input::Answer(note, value)),
                Err(stop) => Err(leaving_text(run, TextUse::CallBack, &text, stop)),
            }
        }
        Ask::SetGlobal(note, name, value) => set_global(world, run, nested, note, name, value),
        Ask::SetFieldByName(note, on_card, name, value) => {
            set_field(world, run, nested, note, on_card, &name, value)
        }
        Ask::Done(_, _) | Ask::Fail => unreachable!(),
    }
}
