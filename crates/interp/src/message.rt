//! Messages.

ghost use Rattle.std.specs.Prelude.{◌≤◌, IsSome};
ghost use Rattle.ht_grammar.specs.Trees as tree;
ghost use Rattle.ht_grammar.specs.Depth.{depth, depths, max_depth};
ghost use Rattle.ht_tree.specs.View.{exprs_of};
ghost use Rattle.containers.specs.Base.{base};
ghost use Rattle.meaning.specs.Meaning.{Along, BuiltInGives, Calls, Outside, Sends};
ghost use Rattle.primitives.specs.Given.{given};
ghost use Rattle.interp.specs.Keeps.{Keeps};

use crate::conversation::converse;
use crate::expr::{argument, arguments};
use crate::functions::text_value;
use crate::stmt::run_block;
use crate::system::menu;
use change_journal::World;
use externals::External;
use ht_grammar::HandlerKind;
use ht_tree::{Expr, Exprs};
use ht_values::{Fault, Text, Value};
use meaning::{Budget, Frame, MOST_NESTED, Stop};
use msg_path::{BuiltIn, MessagePath, path, path_after};
use object_table::Id;
use primitives::arguments::Arguments;
use primitives::messages::{
    bind, ends_message, external, find, is_ignored, item_named, leaving, not_understood, only_text,
    returned,
};
use primitives::values::{call_function, empty};

/// The arguments are computed, then the message is sent to an object. What it gives is written in a place of the
/// caller's.
#[cycle(run)]
#[tactic(auto, using(meaning::proofs::Rules::calls_rules))]
#[inline(never)]
pub(crate) fn calls<E: External>(
    world: &mut World<E>,
    run: &mut Budget,
    frame: &Frame,
    nested: u32,
    object: Id,
    name: &Text,
    list: &Exprs,
    kind: HandlerKind,
    value: &mut Value,
) -> Result<(), Stop>
    requires nested { nested ≤ 100 }
    requires deep { depths (exprs_of list.now.items.items) ≤ max_depth }
    requires open { IsSome (base world.old.history).start }
    ensures meaning { Calls world.old.history run.old frame.now nested object name.now (exprs_of list.now.items.items)
        kind (given result value.new) world.new.history run.new }
    ensures keeps { Keeps world.old.history run.old world.new.history run.new }
{
    let mut values = Arguments::new(run.alloc());
    arguments(world, run, frame, nested, &list.items, &mut values)?;
    send(
        world, run, frame, nested, object, name, &values, kind, value,
    )
}

/// A message is sent without arguments. What it gives is written in a place of the caller's.
#[cycle(run)]
#[tactic(auto, using(crate::proofs::Nested::bare_rules))]
#[inline(never)]
pub(crate) fn calls_bare<E: External>(
    world: &mut World<E>,
    run: &mut Budget,
    frame: &Frame,
    nested: u32,
    name: &Text,
    kind: HandlerKind,
    value: &mut Value,
) -> Result<(), Stop>
    requires nested { nested ≤ 100 }
    requires open { IsSome (base world.old.history).start }
    ensures meaning { Calls world.old.history run.old frame.now nested frame.now.me name.now tree.none kind
        (given result value.new) world.new.history run.new }
    ensures keeps { Keeps world.old.history run.old world.new.history run.new }
{
    let values = Arguments::new(run.alloc());
    send(
        world, run, frame, nested, frame.me, name, &values, kind, value,
    )
}

/// The only argument is computed, then the message is sent. What it gives is written in a place of the caller's.
#[cycle(run)]
#[tactic(auto, using(crate::proofs::Nested::only_rules))]
#[inline(never)]
pub(crate) fn calls_of<E: External>(
    world: &mut World<E>,
    run: &mut Budget,
    frame: &Frame,
    nested: u32,
    name: &Text,
    only: &Expr,
    kind: HandlerKind,
    value: &mut Value,
) -> Result<(), Stop>
    requires nested { nested ≤ 100 }
    requires deep { depth only.now ≤ max_depth }
    requires open { IsSome (base world.old.history).start }
    ensures meaning { Calls world.old.history run.old frame.now nested frame.now.me name.now
        (tree.more only.now tree.none) kind (given result value.new) world.new.history run.new }
    ensures keeps { Keeps world.old.history run.old world.new.history run.new }
{
    let mut values = Arguments::new(run.alloc());
    argument(world, run, frame, nested, only, value)?;
    values.push(value)?;
    send(
        world, run, frame, nested, frame.me, name, &values, kind, value,
    )
}

/// Sends a message to an object: a step, then along its path.
#[cycle(run)]
#[tactic(auto, using(meaning::proofs::Rules::sends_rules))]
#[inline(never)]
pub(crate) fn send<E: External>(
    world: &mut World<E>,
    run: &mut Budget,
    frame: &Frame,
    nested: u32,
    object: Id,
    name: &Text,
    values: &Arguments,
    kind: HandlerKind,
    value: &mut Value,
) -> Result<(), Stop>
    requires nested { nested ≤ 100 }
    requires open { IsSome (base world.old.history).start }
    ensures meaning { Sends world.old.history run.old frame.now nested object name.now values.now kind
        (given result value.new) world.new.history run.new }
    ensures keeps { Keeps world.old.history run.old world.new.history run.new }
{
    run.step()?;
    run.note(name, object)?;
    let path = path(world.stack(), world.current(), object);
    along(
        world, run, frame, nested, object, path, name, values, kind, value,
    )
}

/// Sends a message along a path. A handler that passes it lets it go on behind its object.
#[cycle(run)]
#[tactic(auto, using(meaning::proofs::Rules::along_rules))]
pub(crate) fn along<E: External>(
    world: &mut World<E>,
    run: &mut Budget,
    frame: &Frame,
    nested: u32,
    object: Id,
    path: MessagePath,
    name: &Text,
    values: &Arguments,
    kind: HandlerKind,
    value: &mut Value,
) -> Result<(), Stop>
    requires nested { nested ≤ 100 }
    requires open { IsSome (base world.old.history).start }
    ensures meaning { Along world.old.history run.old frame.now nested object path name.now values.now kind
        (given result value.new) world.new.history run.new }
    ensures keeps { Keeps world.old.history run.old world.new.history run.new }
{
    let mut rest = path;
    loop {
        match find(world, run, rest.as_slice(), kind, name)? {
            None => return outside(world, run, frame, nested, name, values, kind, value),
            Some(found) => {
                if nested == MOST_NESTED {
                    return Err(Stop::Fault(Fault::TooDeep));
                }
                let mut inner = Frame::of_handler(run.alloc(), found.object(), object);
                bind(run, &found, values, &mut inner)?;
                // Called for its clause alone: a tree is at most 100 levels deep.
                let _depth = found.handler().lines.depth();
                let ended = run_block(
                    world,
                    run,
                    &mut inner,
                    nested + 1,
                    &found.handler().lines.items,
                    value,
                );
                let way = match ended {
                    Ok(way) => way,
                    Err(stop) => return Err(leaving(world, run, &found, stop)),
                };
                if ends_message(run, kind, way, value) {
                    return Ok(());
                }
                rest = path_after(world.stack(), world.current(), found.object());
            }
        }
    }
}

/// A message that no script handles: an external of that name, then what is built in.
#[cycle(run)]
#[tactic(auto, using(meaning::proofs::Rules::outside_rules))]
#[inline(never)]
pub(crate) fn outside<E: External>(
    world: &mut World<E>,
    run: &mut Budget,
    frame: &Frame,
    nested: u32,
    name: &Text,
    values: &Arguments,
    kind: HandlerKind,
    value: &mut Value,
) -> Result<(), Stop>
    requires nested { nested ≤ 100 }
    requires open { IsSome (base world.old.history).start }
    ensures meaning { Outside world.old.history run.old frame.now nested name.now values.now kind
        (given result value.new) world.new.history run.new }
    ensures keeps { Keeps world.old.history run.old world.new.history run.new }
{
    match external(world, kind, name) {
        None => answer(world, run, frame, nested, name, values, kind, value),
        Some(i) => {
            let done = converse(world, run, nested, i, values)?;
            if done.passes {
                answer(world, run, frame, nested, name, values, kind, value)
            } else {
                *value = Value::of_text(done.value);
                returned(run, kind, value);
                Ok(())
            }
        }
    }
}

/// What is built in, what is ignored, and what nobody understands.
#[cycle(run)]
#[tactic(auto, using(meaning::proofs::Rules::builtingives_rules))]
#[inline(never)]
pub(crate) fn answer<E: External>(
    world: &mut World<E>,
    run: &mut Budget,
    frame: &Frame,
    nested: u32,
    name: &Text,
    values: &Arguments,
    kind: HandlerKind,
    value: &mut Value,
) -> Result<(), Stop>
    requires nested { nested ≤ 100 }
    requires open { IsSome (base world.old.history).start }
    ensures meaning { BuiltInGives world.old.history run.old frame.now nested name.now values.now kind
        (given result value.new) world.new.history run.new }
    ensures keeps { Keeps world.old.history run.old world.new.history run.new }
{
    match BuiltIn::named(kind, name) {
        Some(BuiltIn::Value) => match only_text(run, values)? {
            Some(text) => text_value(world, run, frame, nested, &text, value),
            None => Err(Stop::Fault(Fault::BadArgument)),
        },
        Some(BuiltIn::Function(function)) => {
            *value = call_function(run, function, values)?;
            Ok(())
        }
        Some(BuiltIn::DoMenu) => match item_named(run, values)? {
            Some(item) => {
                *value = menu(world, run, frame, nested, item)?;
                Ok(())
            }
            None => Err(Stop::Fault(Fault::BadArgument)),
        },
        None if is_ignored(kind, name) => {
            *value = empty(run);
            Ok(())
        }
        None => Err(not_understood(run, name)),
    }
}
