//! Room for texts of cards that went: no row shows that it is given back.

use object_table::{Id, Stack};
use std::alloc::{AllocError, Global};
use std::collections::BTreeSet;
use std::ops::Range;

/// The ids of so many fields, from 0.
fn fields(alloc: Global, count: Id) -> Result<Vec<Id>, AllocError> {
    let mut fields = Vec::new(alloc);
    for field in 0..count {
        fields.push(field)?;
    }
    Ok(fields)
}

/// Makes room for the texts of these fields for each of these cards, and tells whether that is much.
fn open_each(stack: &mut Stack, fields: &[Id], cards: Range<Id>) -> Result<bool, AllocError> {
    for card in cards {
        stack.open_texts(fields, card)?;
    }
    Ok(stack.has_much_room())
}

/// Gives back the room for all but these cards, and tells whether much is left.
fn close_all_but(alloc: Global, stack: &mut Stack, cards: Range<Id>) -> Result<bool, AllocError> {
    let mut kept = BTreeSet::new(alloc);
    for card in cards {
        kept.insert(card)?;
    }
    stack.close_others(&kept);
    Ok(stack.has_much_room())
}

/// Whether there is much room once 101,000 texts are open, once none is, once as many are open again, and once these
/// were kept and the first ones are open beside them: as many as need no look after one that gave nothing back.
fn much_room(alloc: Global) -> Result<[bool; 5], AllocError> {
    let fields = fields(alloc, 1_000)?;
    let mut stack = Stack::new(alloc)?;
    let first = open_each(&mut stack, &fields, 10..111)?;
    let closed = close_all_but(alloc, &mut stack, 0..0)?;
    let again = open_each(&mut stack, &fields, 200..301)?;
    let kept = close_all_but(alloc, &mut stack, 200..301)?;
    let beside = open_each(&mut stack, &fields, 10..111)?;
    Ok([first, closed, again, kept, beside])
}

#[test]
fn room_is_given_back(rt: HostRuntime) {
    let told = much_room(rt.alloc()).expect(&rt, "there is memory");
    assert!(rt; told == [true, false, true, false, false]);
}
