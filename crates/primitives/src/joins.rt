//! What `&` and `&&` join. A call may also be out of memory, which is `Stop::Memory`.

ghost use Rattle.std.specs.Prelude.{◌≡◌, ◌++◌, OnOk};
ghost use Rattle.ht_values.specs.Outcome.{within_limit};
ghost use Rattle.containers.specs.Places.{read_name as read_name_of};
ghost use Rattle.containers.specs.Standing.{standing_text};
ghost use Rattle.meaning.specs.Values.{Yields};
ghost use Rattle.primitives.specs.Given.{given};

use change_journal::World;
use containers::{Standing, read_name};
use externals::External;
use ht_values::{Failure, IN_PLACE, Name, Value, text_of};
use meaning::{Budget, Frame, Stop};
use std::alloc::AllocError;

/// Joins what stands somewhere behind a value, with bytes between.
#[tactic(auto, using(meaning::proofs::Rules::yields_rules))]
#[inline(always)]
pub(crate) fn join_behind(
    run: &Budget,
    left: &mut Value,
    between: &[u8],
    right: Standing<'_>,
) -> Result<(), Stop>
    ensures { Yields (within_limit (left.old ++ between.now ++ standing_text right.entry)) (given result left.new) }
{
    match right.append_to(run.alloc(), left, between) {
        Ok(()) => Ok(()),
        Err(Failure::Fault(fault)) => {
            mean_both(run, Standing::Value(left), right);
            Err(Stop::Fault(fault))
        }
        Err(Failure::Memory) => Err(Stop::Memory),
    }
}

/// Joins what a name reads behind a value, with bytes between.
#[tactic(auto, using(meaning::proofs::Rules::yields_rules))]
#[inline(never)]
pub(crate) fn join_name<E: External>(
    world: &World<E>,
    run: &Budget,
    frame: &Frame,
    left: &mut Value,
    between: &[u8],
    name: &Name,
) -> Result<(), Stop>
    ensures { Yields (within_limit (left.old ++ between.now
        ++ read_name_of world.now.history.now frame.now.variables name.now)) (given result left.new) }
{
    join_behind(run, left, between, read_name(world, &frame.variables, name))
}

/// Writes what two names read, one after another, with bytes between.
#[tactic(auto, using(meaning::proofs::Rules::yields_rules))]
#[inline(never)]
pub(crate) fn join_names<E: External>(
    world: &World<E>,
    run: &Budget,
    frame: &Frame,
    left: &Name,
    between: &[u8],
    right: &Name,
    value: &mut Value,
) -> Result<(), Stop>
    ensures { Yields (within_limit (read_name_of world.now.history.now frame.now.variables left.now ++ between.now
        ++ read_name_of world.now.history.now frame.now.variables right.now)) (given result value.new) }
{
    let left = read_name(world, &frame.variables, left);
    let right = read_name(world, &frame.variables, right);
    *value = joined(run, left, between, right)?;
    Ok(())
}

/// Writes two values, one after another, with bytes between, over the left one. Short ones are joined where the left one
/// is; longer ones in a text that has room for them and no more.
#[tactic(auto, using(meaning::proofs::Rules::yields_rules))]
#[inline(never)]
pub(crate) fn join_values(
    run: &Budget,
    left: &mut Value,
    between: &[u8],
    right: &Value,
) -> Result<(), Stop>
    ensures { Yields (within_limit (left.old ++ between.now ++ right.now)) (given result left.new) }
{
    if is_short(run, left) && is_short(run, right) {
        return join_short(run, left, between, right);
    }
    *left = joined(run, Standing::Value(left), between, Standing::Value(right))?;
    Ok(())
}

/// The same of short values.
#[tactic(auto, using(meaning::proofs::Rules::yields_rules))]
fn join_short(run: &Budget, left: &mut Value, between: &[u8], right: &Value) -> Result<(), Stop>
    ensures { Yields (within_limit (left.old ++ between.now ++ right.now)) (given result left.new) }
{
    spell(run, left)?;
    join_behind(run, left, between, Standing::Value(right))?;
    fit(run, left);
    Ok(())
}

/// Whether a value is a number, or a text so short that it can stand in place.
fn is_short(run: &Budget, value: &Value) -> bool {
    if value.kept_number().is_some() {
        return true;
    }
    match value.spelled(run.alloc()) {
        Ok(spelling) => spelling.text().len() <= IN_PLACE,
        Err(_) => false,
    }
}

/// Keeps a number as its digits. The value stays.
fn spell(run: &Budget, value: &mut Value) -> Result<(), AllocError>
    ensures { OnOk result (value.new ≡ value.old) }
{
    if let Some(number) = value.kept_number() {
        *value = Value::of_text(text_of(run.alloc(), number)?);
    }
    Ok(())
}

/// What stands at two places, one after another, with bytes between.
#[tactic(auto, using(meaning::proofs::Rules::yields_rules))]
fn joined(
    run: &Budget,
    left: Standing<'_>,
    between: &[u8],
    right: Standing<'_>,
) -> Result<Value, Stop>
    ensures { Yields (within_limit (standing_text left.entry ++ between.now ++ standing_text right.entry)) result }
{
    match left.joined(run.alloc(), between, &right) {
        Ok(joined) => Ok(joined),
        Err(Failure::Fault(fault)) => {
            mean_both(run, left, right);
            Err(Stop::Fault(fault))
        }
        Err(Failure::Memory) => Err(Stop::Memory),
    }
}

/// Remembers that these operands were meant.
#[inline(never)]
fn mean_both(run: &Budget, left: Standing<'_>, right: Standing<'_>) {
    mean(run, left);
    mean(run, right);
}

/// Remembers that what stands somewhere was meant.
fn mean(run: &Budget, standing: Standing<'_>) {
    match standing {
        Standing::Text(text) => run.trace().mean_text(text),
        Standing::Value(value) => run.trace().mean(value),
    }
}

/// Gives back the room that a text which grew doesn't need, unless memory for a copy is refused. The value stays.
#[inline(never)]
pub fn fit(run: &Budget, value: &mut Value)
    ensures { value.new ≡ value.old }
{
    if value.kept_number().is_some() {
        return;
    }
    if let Ok(fitted) = value.try_clone(run.alloc()) {
        *value = fitted;
    }
}
