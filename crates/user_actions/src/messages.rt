//! Messages that a dot line sends.

ghost use Rattle.std.specs.Prelude.{◌≡◌, ◌≤◌, IsSome};
ghost use Rattle.containers.specs.Base.{base};
ghost use Rattle.meaning.specs.Actions.{opening_stack};
ghost use Rattle.meaning.specs.Ends.{end_of};
ghost use Rattle.meaning.specs.Meaning.{Tells, TellsAll};

use change_journal::World;
use externals::External;
use interp::send_message;
use meaning::{Budget, Ended, Stop, SystemMessage};
use object_table::Id;

/// A message of the system to an object; none while lockMessages is true.
#[tactic(auto, using(meaning::proofs::Rules::tells_rules))]
pub(crate) fn tell<E: External>(
    world: &mut World<E>,
    run: &mut Budget,
    object: Id,
    message: SystemMessage,
) -> Result<Ended, Stop>
    requires open { IsSome (base world.old.history).start }
    ensures meaning { Tells world.old.history run.old object message (end_of result) world.new.history run.new }
    ensures fewer { run.new.left ≤ run.old.left }
    ensures base { base world.new.history ≡ base world.old.history }
{
    if run.lock_messages() {
        return Ok(Ended::Done);
    }
    let name = message.text(run.alloc())?;
    send_message(world, run, object, &name)
}

/// Messages of the system, each to the card that is current at that moment.
#[tactic(auto, using(meaning::proofs::Rules::tellsall_rules))]
fn tell_all<E: External>(
    world: &mut World<E>,
    run: &mut Budget,
    messages: &[SystemMessage],
) -> Result<Ended, Stop>
    requires open { IsSome (base world.old.history).start }
    ensures meaning { TellsAll world.old.history run.old messages.now (end_of result) world.new.history run.new }
    ensures fewer { run.new.left ≤ run.old.left }
    ensures base { base world.new.history ≡ base world.old.history }
{
    match messages {
        [] => Ok(Ended::Done),
        [message, rest @ ..] => match tell(world, run, world.current(), *message)? {
            Ended::Exited => Ok(Ended::Exited),
            Ended::Done => tell_all(world, run, rest),
        },
    }
}

/// `.open`
pub(crate) fn open_stack<E: External>(world: &mut World<E>, run: &mut Budget) -> Result<Ended, Stop>
    requires open { IsSome (base world.old.history).start }
    ensures meaning { TellsAll world.old.history run.old opening_stack (end_of result) world.new.history run.new }
    ensures fewer { run.new.left ≤ run.old.left }
    ensures base { base world.new.history ≡ base world.old.history }
{
    let messages = [
        SystemMessage::OpenStack,
        SystemMessage::OpenBackground,
        SystemMessage::OpenCard,
    ];
    tell_all(world, run, &messages)
}
