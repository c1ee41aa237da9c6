//! Names of globals that were given up: no row shows that they go, and what stays keeps its value.

ghost use Rattle.std.specs.Prelude.{◌≡◌, None, IfSome, IsSome};

use crate::unseen::make;
use crate::worlds::{PlainWorld, world_of};
use change_journal::Change;
use ht_values::Text;
use std::alloc::Global;

/// A stack of one card.
const ONE_CARD: &[u8] =
    b"htstack 2\nnext 3\nname |\nscript 0\nbackgrounds 1\nbackground 1\nname |\ncantDelete false\nscript 0\nparts 0\ncards 1\ncard 2 1\nname |\ncantDelete false\nscript 0\nparts 0\nend\n";

/// A name of so many bytes.
fn name_of(alloc: Global, length: usize) -> Option<Text> {
    let bytes = vec![in alloc; b'n'; length].ok()?;
    Text::from_slice(alloc, &bytes).ok()
}

/// Gives the global whose name has so many bytes a value, in a batch that it begins.
fn begin_put(alloc: Global, world: &mut PlainWorld, length: usize) -> Option<()>
    requires { world.old.history.start ≡ None }
    ensures { IfSome result (λ _. IsSome world.new.history.start) }
{
    let change = Change::Global(name_of(alloc, length)?, Text::from_slice(alloc, b"v").ok());
    world.begin(1).ok()?;
    make(world, change)
}

/// Gives the global whose name has so many bytes a value, in a batch of its own.
fn put(alloc: Global, world: &mut PlainWorld, length: usize) -> Option<()>
    requires { world.old.history.start ≡ None }
    ensures { IfSome result (λ _. world.new.history.start ≡ None) }
{
    begin_put(alloc, world, length)?;
    world.commit();
    Some(())
}

/// Whether the global whose name has so many bytes has a value.
fn has_value(alloc: Global, world: &PlainWorld, length: usize) -> Option<bool> {
    let name = name_of(alloc, length)?;
    Some(world.global(name.as_slice()).is_some())
}

/// Gives globals a value, whose names have from `first` bytes to less than `end`, each in a batch that is given up.
fn put_and_give_up(alloc: Global, world: &mut PlainWorld, first: usize, end: usize) -> Option<()>
    requires { world.old.history.start ≡ None }
    ensures { IfSome result (λ _. world.new.history.start ≡ None) }
{
    for length in first..end {
        begin_put(alloc, world, length)?;
        world.roll_back();
    }
    Some(())
}

/// Goes back over the last batch, if there is one.
fn undo(world: &mut PlainWorld)
    requires { world.old.history.start ≡ None }
{
    if world.undoable() > 0 {
        world.flip_back();
    }
}

/// How many names there are once 61 were given up, and two have values. And whether the last of these has its value:
/// then, and once it was undone.
fn names_and_values(alloc: Global, world: &mut PlainWorld) -> Option<(usize, [bool; 2])>
    requires { world.old.history.start ≡ None }
{
    put_and_give_up(alloc, world, 29_000, 29_001)?;
    put(alloc, world, 5)?;
    put_and_give_up(alloc, world, 29_001, 29_061)?;
    put(alloc, world, 6)?;
    let count = world.name_count();
    let kept = has_value(alloc, world, 6)?;
    undo(world);
    Some((count, [kept, has_value(alloc, world, 6)?]))
}

#[test]
fn names_that_were_given_up_go(rt: HostRuntime) {
    let mut world = world_of(rt.alloc(), ONE_CARD).expect(&rt, "the stack is read");
    let (count, values) = names_and_values(rt.alloc(), &mut world).expect(&rt, "there is memory");
    assert!(rt; count < 40 && values == [true, false]);
}
