//! Commands: typed lines, messages that are sent to an object by themselves, and references of dot lines.

ghost use Rattle.std.specs.Prelude.{◌≡◌, ◌≤◌, [], IsSome};
ghost use Rattle.ht_grammar.specs.Depth.{max_depth, part_depth};
ghost use Rattle.ht_tree.specs.StatementView.{stmts_of};
ghost use Rattle.ht_tree.specs.View.{part_of};
ghost use Rattle.containers.specs.Base.{base};
ghost use Rattle.meaning.specs.Ends.{end_of, led_to};
ghost use Rattle.meaning.specs.Meaning.{Line, Message, Refers};

use crate::message::send;
use crate::reference::meet_part;
use crate::stmt::run_block;
use change_journal::World;
use externals::External;
use ht_grammar::HandlerKind;
use ht_tree::{Part, Stmts};
use ht_values::{Text, Value};
use meaning::{Budget, Ended, Frame, Stop};
use object_table::Id;
use primitives::arguments::Arguments;

/// Runs the lines of a typed command in the open batch: `me` and `the target` are the card that is current as it
/// begins, and every variable is a global. What it shows and sends, and the steps that are left, stand in the budget,
/// also where it ends by a fault; a fault keeps what was changed before it. Where it is out of memory nothing is said
/// of the present state: the batch is to be rolled back. Whatever it answers, the history round the batch and the state
/// at its start are kept.
#[tactic(auto, using(meaning::proofs::Rules::line_rules))]
pub fn run_line<E: External>(
    world: &mut World<E>,
    run: &mut Budget,
    lines: &Stmts,
) -> Result<Ended, Stop>
    requires open { IsSome (base world.old.history).start }
    ensures meaning { Line world.old.history run.old (stmts_of lines.now.items.items) (end_of result)
        world.new.history run.new }
    ensures fewer { run.new.left ≤ run.old.left }
    ensures base { base world.new.history ≡ base world.old.history }
{
    let mut frame = Frame::typed(run.alloc(), world.current());
    // Called for its clause alone: a tree is at most 100 levels deep.
    let _depth = lines.depth();
    let mut unused = Value::of_number(0);
    match run_block(world, run, &mut frame, 0, &lines.items, &mut unused) {
        Ok(_) => Ok(Ended::Done),
        Err(Stop::Exited) => Ok(Ended::Exited),
        Err(Stop::Fault(fault)) => Err(Stop::Fault(fault)),
        Err(Stop::Memory) => Err(Stop::Memory),
    }
}

/// Sends a message without arguments to an object in the open batch, with a step of its own. All else is as for a typed
/// line.
#[tactic(auto, using(meaning::proofs::Rules::message_rules))]
pub fn send_message<E: External>(
    world: &mut World<E>,
    run: &mut Budget,
    object: Id,
    name: &Text,
) -> Result<Ended, Stop>
    requires open { IsSome (base world.old.history).start }
    ensures meaning { Message world.old.history run.old object name.now [] (end_of result) world.new.history run.new }
    ensures fewer { run.new.left ≤ run.old.left }
    ensures base { base world.new.history ≡ base world.old.history }
{
    let frame = Frame::typed(run.alloc(), world.current());
    let values = Arguments::new(run.alloc());
    let mut unused = Value::of_number(0);
    match send(
        world,
        run,
        &frame,
        0,
        object,
        name,
        &values,
        HandlerKind::Command,
        &mut unused,
    ) {
        Ok(_) => Ok(Ended::Done),
        Err(Stop::Exited) => Ok(Ended::Exited),
        Err(Stop::Fault(fault)) => Err(Stop::Fault(fault)),
        Err(Stop::Memory) => Err(Stop::Memory),
    }
}

/// Finds the part that the reference of a dot line means, in the open batch: `me` and `the target` are the card that is
/// current as it begins, and every variable is a global. `None` where a call in it ends by `exit to HyperCard`; where
/// there is no such part it is fault 3. All else is as for a typed line.
#[tactic(auto, using(meaning::proofs::Rules::refers_rules))]
pub fn find_ref<E: External>(
    world: &mut World<E>,
    run: &mut Budget,
    part: &Part,
) -> Result<Option<Id>, Stop>
    requires deep { part_depth (part_of part.now) ≤ max_depth }
    requires open { IsSome (base world.old.history).start }
    ensures meaning { Refers world.old.history run.old (part_of part.now) (led_to result) world.new.history run.new }
    ensures fewer { run.new.left ≤ run.old.left }
    ensures base { base world.new.history ≡ base world.old.history }
{
    let frame = Frame::typed(run.alloc(), world.current());
    match meet_part(world, run, &frame, 0, part) {
        Ok(met) => Ok(Some(met.object)),
        Err(Stop::Exited) => Ok(None),
        Err(Stop::Fault(fault)) => Err(Stop::Fault(fault)),
        Err(Stop::Memory) => Err(Stop::Memory),
    }
}
