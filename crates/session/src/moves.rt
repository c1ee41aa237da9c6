//! Moves of the cursor to places of the history.

ghost use Rattle.std.specs.Prelude.{◌≡◌, ◌<◌, ◌≤◌, None, IfSome, length};
ghost use Rattle.session.specs.Moves.{back_by, forth_by, undone, redone, undone_to, places_to as places_back_to};
ghost use Rattle.session.specs.Moves.{MovesTo};
ghost use Rattle.session.specs.Stamped.{numbers_of, DescendFrom};

use crate::reply::Refusal;
use change_journal::World;
use externals::External;

/// Goes back by as many places.
fn flip_back_by<E: External>(world: &mut World<E>, places: usize)
    requires closed { world.old.history.start ≡ None }
    requires there { places ≤ length world.old.history.past }
    ensures moved { world.new.history ≡ back_by places world.old.history }
    ensures closed { world.new.history.start ≡ None }
{
    for _ in 0..places {
        world.flip_back();
    }
}

/// Goes forth by as many places.
fn flip_forth_by<E: External>(world: &mut World<E>, places: usize)
    requires closed { world.old.history.start ≡ None }
    requires there { places ≤ length world.old.history.future }
    ensures moved { world.new.history ≡ forth_by places world.old.history }
    ensures closed { world.new.history.start ≡ None }
{
    for _ in 0..places {
        world.flip_forth();
    }
}

pub fn go_back<E: External>(world: &mut World<E>, places: u32) -> Result<(), Refusal>
    requires { world.old.history.start ≡ None }
    ensures moved { MovesTo (undone places world.old.history) Refusal.NothingToUndo
        world.old.history result world.new.history }
    ensures closed { world.new.history.start ≡ None }
{
    if world.undoable() < places as usize {
        return Err(Refusal::NothingToUndo);
    }
    flip_back_by(world, places as usize);
    Ok(())
}

pub fn go_forth<E: External>(world: &mut World<E>, places: u32) -> Result<(), Refusal>
    requires { world.old.history.start ≡ None }
    ensures moved { MovesTo (redone places world.old.history) Refusal.NothingToRedo
        world.old.history result world.new.history }
    ensures closed { world.new.history.start ≡ None }
{
    if world.redoable() < places as usize {
        return Err(Refusal::NothingToRedo);
    }
    flip_forth_by(world, places as usize);
    Ok(())
}

/// How far back the last state stands whose number is at most this, by bisection.
fn places_to<E: External>(world: &World<E>, number: u32) -> Option<usize>
    requires { DescendFrom world.now.history.stamp (numbers_of world.now.history.past) }
    ensures places { result ≡ places_back_to number world.now.history }
    ensures there { IfSome result (λ i. i ≤ length world.now.history.past) }
{
    let mut far = world.undoable();
    if number < world.stamp(far) {
        return None;
    }
    let mut near = 0;
    while near < far {
        let middle = near + (far - near) / 2;
        if number < world.stamp(middle) {
            near = middle + 1;
        } else {
            far = middle;
        }
    }
    Some(far)
}

pub fn go_back_to<E: External>(world: &mut World<E>, number: u32) -> Result<(), Refusal>
    requires closed { world.old.history.start ≡ None }
    requires stamped { DescendFrom world.old.history.stamp (numbers_of world.old.history.past) }
    ensures moved { MovesTo (undone_to number world.old.history) Refusal.NothingToUndo
        world.old.history result world.new.history }
    ensures closed { world.new.history.start ≡ None }
{
    match places_to(world, number) {
        None | Some(0) => Err(Refusal::NothingToUndo),
        Some(places) => {
            flip_back_by(world, places);
            Ok(())
        }
    }
}
