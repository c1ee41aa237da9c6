//! Messages of the system, `go` and the menu.

ghost use Rattle.std.specs.Prelude.{◌≤◌, IsSome};
ghost use Rattle.containers.specs.Base.{base};
ghost use Rattle.meaning.specs.Meaning.{Goes, Menu, System, Systems};
ghost use Rattle.interp.specs.Keeps.{Keeps};

use crate::message::send;
use change_journal::{Change, World};
use externals::External;
use ht_grammar::HandlerKind;
use ht_values::{Fault, Value};
use meaning::{Budget, Frame, Item, Stop, SystemMessage};
use object_references::may_delete;
use object_table::Id;
use primitives::arguments::Arguments;
use primitives::objects::{
    add, closing, has_other_background, make, new_background_messages, new_card_messages,
    new_layer, opening,
};
use primitives::values::empty;
use structural_changes::home_of;

/// A message of the system to an object; none while lockMessages is true.
#[cycle(run)]
#[tactic(auto, using(meaning::proofs::Rules::system_rules))]
#[inline(never)]
pub(crate) fn system<E: External>(
    world: &mut World<E>,
    run: &mut Budget,
    frame: &Frame,
    nested: u32,
    object: Id,
    message: SystemMessage,
) -> Result<Value, Stop>
    requires nested { nested ≤ 100 }
    requires open { IsSome (base world.old.history).start }
    ensures meaning { System world.old.history run.old frame.now nested object message result
        world.new.history run.new }
    ensures keeps { Keeps world.old.history run.old world.new.history run.new }
{
    if run.lock_messages() {
        return Ok(empty(run));
    }
    let name = message.text(run.alloc())?;
    let values = Arguments::new(run.alloc());
    let mut value = empty(run);
    send(
        world,
        run,
        frame,
        nested,
        object,
        &name,
        &values,
        HandlerKind::Command,
        &mut value,
    )?;
    Ok(value)
}

/// Messages of the system, each to the card that is current at that moment.
#[cycle(run)]
#[tactic(auto, using(meaning::proofs::Rules::systems_rules))]
pub(crate) fn systems<E: External>(
    world: &mut World<E>,
    run: &mut Budget,
    frame: &Frame,
    nested: u32,
    messages: &[SystemMessage],
) -> Result<Value, Stop>
    requires nested { nested ≤ 100 }
    requires open { IsSome (base world.old.history).start }
    ensures meaning { Systems world.old.history run.old frame.now nested messages.now result world.new.history run.new }
    ensures keeps { Keeps world.old.history run.old world.new.history run.new }
{
    for message in messages {
        let _ = system(world, run, frame, nested, world.current(), *message)?;
    }
    Ok(empty(run))
}

/// `go` to a card.
#[cycle(run)]
#[tactic(auto, using(meaning::proofs::Rules::goes_rules))]
#[inline(never)]
pub(crate) fn go<E: External>(
    world: &mut World<E>,
    run: &mut Budget,
    frame: &Frame,
    nested: u32,
    card: Id,
) -> Result<Value, Stop>
    requires nested { nested ≤ 100 }
    requires open { IsSome (base world.old.history).start }
    ensures meaning { Goes world.old.history run.old frame.now nested card result world.new.history run.new }
    ensures keeps { Keeps world.old.history run.old world.new.history run.new }
{
    if card == world.current() {
        return Ok(empty(run));
    }
    let differs = has_other_background(world, card);
    let _ = systems(world, run, frame, nested, closing(differs))?;
    let arrives = Change::Current(card);
    if !world.fits(&arrives) {
        return Err(Stop::Fault(Fault::NoSuchObject));
    }
    make(world, arrives)?;
    systems(world, run, frame, nested, opening(differs))
}

/// The items of `doMenu`.
#[cycle(run)]
#[tactic(auto, using(meaning::proofs::Rules::menu_rules))]
#[inline(never)]
pub(crate) fn menu<E: External>(
    world: &mut World<E>,
    run: &mut Budget,
    frame: &Frame,
    nested: u32,
    item: Item,
) -> Result<Value, Stop>
    requires nested { nested ≤ 100 }
    requires open { IsSome (base world.old.history).start }
    ensures meaning { Menu world.old.history run.old frame.now nested item result world.new.history run.new }
    ensures keeps { Keeps world.old.history run.old world.new.history run.new }
{
    match item {
        Item::NewCard => {
            let _ = systems(world, run, frame, nested, closing(false))?;
            add(world, Change::NewCard)?;
            systems(world, run, frame, nested, new_card_messages())
        }
        Item::NewBackground => {
            let _ = systems(world, run, frame, nested, closing(true))?;
            add(world, Change::NewBackground)?;
            systems(world, run, frame, nested, new_background_messages())
        }
        Item::NewPart(kind) => {
            add(world, Change::NewPart(new_layer(world, run), kind))?;
            Ok(empty(run))
        }
        Item::DeleteCard => {
            let background = home_of(world.stack(), world.current());
            if !may_delete(world.stack(), world.current()) {
                return Err(Stop::Fault(Fault::CantDelete));
            }
            make(world, Change::DeleteCard)?;
            let differs = background != home_of(world.stack(), world.current());
            systems(world, run, frame, nested, opening(differs))
        }
    }
}
