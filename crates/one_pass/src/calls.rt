//! Calls of functions that are built in.

ghost use Rattle.std.specs.Prelude.{◌≡◌, ◌<◌, ◌≤◌, length, IfErr, IfSome, OnOk, Some};
ghost use Rattle.msg_path.specs.BuiltIns.{built_in_named};
ghost use Rattle.meaning.specs.declared.end.Stop.TheVariants as stop;
ghost use Rattle.one_pass.specs.Computed.{CallGives, IsUnhandled, after, called as called_once};

use change_journal::World;
use externals::External;
use ht_grammar::HandlerKind;
use ht_values::{Func, Text, Value};
use meaning::{Budget, Frame, Stop};
use msg_path::{BuiltIn, path};
use object_table::Id;
use primitives::arguments::Arguments;
use primitives::messages::{external, find};
use primitives::values::call_function;

/// What a call of a function gives that is built in, where no script and no external handles it; `None` for every other
/// call, and where it gives a fault.
#[tactic(auto, using(crate::proofs::Called::built_in_gives))]
pub(crate) fn call_gives<E: External>(
    world: &mut World<E>,
    run: &Budget,
    frame: &Frame,
    name: &Text,
    values: &Arguments,
) -> Option<Value>
    ensures given { IfSome result (λ v. CallGives world.old.history frame.now name.now values.now v) }
    ensures same { world.new ≡ world.old }
{
    let function = unhandled(world, run, frame, name)?;
    let value = call_function(run, function, values).ok()?;
    Some(value)
}

/// The function that is built in by a name, where no script and no external handles it.
#[tactic(auto)]
pub(crate) fn unhandled<E: External>(
    world: &mut World<E>,
    run: &Budget,
    frame: &Frame,
    name: &Text,
) -> Option<Func>
    ensures found { IfSome result (λ f. IsUnhandled world.old.history frame.now name.now f) }
    ensures same { world.new ≡ world.old }
{
    let function = built_in(name)?;
    let path = path(world.stack(), world.current(), frame.me);
    let found = find(world, run, path.as_slice(), HandlerKind::Function, name).ok()?;
    if found.is_some() || external(world, HandlerKind::Function, name).is_some() {
        return None;
    }
    Some(function)
}

/// The function of texts alone that is built in by this name.
pub(crate) fn built_in(name: &Text) -> Option<Func>
    ensures { IfSome result (λ f. built_in_named HandlerKind.Function name.now ≡ Some (BuiltIn.Function f)) }
{
    match BuiltIn::named(HandlerKind::Function, name)? {
        BuiltIn::Function(function) => Some(function),
        BuiltIn::Value | BuiltIn::DoMenu => None,
    }
}

/// Takes the steps of calls, for which there are enough, and notes their messages.
pub(crate) fn charge(run: &mut Budget, calls: &[Text], me: Id) -> Result<(), Stop>
    requires { length calls.now ≤ run.old.left }
    ensures done { OnOk result (run.new ≡ after me calls.now run.old) }
    ensures memory { IfErr result (λ z. z ≡ stop.Memory) }
    ensures fewer { run.new.left ≤ run.old.left }
{
    let mut rest = calls;
    while let [name, later @ ..] = rest {
        charge_one(run, name, me)?;
        rest = later;
    }
    Ok(())
}

/// Takes the step of a call, and notes its message.
fn charge_one(run: &mut Budget, name: &Text, me: Id) -> Result<(), Stop>
    requires { 0 < run.old.left }
    ensures done { OnOk result (run.new ≡ called_once me run.old name.now) }
    ensures memory { IfErr result (λ z. z ≡ stop.Memory) }
    ensures fewer { run.new.left ≤ run.old.left }
{
    run.step()?;
    run.note(name, me)?;
    Ok(())
}
