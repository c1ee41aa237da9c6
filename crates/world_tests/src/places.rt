//! An exchange that changes nothing, and which entries are structural. That the values of all other places go to and
//! fro, the rows show, which compare the whole stack on the way back and forth.

use object_table::{Kind, Object, PropValue, Stack};
use stack_places::{BoxedObject, StackEntry};
use std::alloc::Global;

const FIELD: Kind = Kind::BackgroundField {
    visible: true,
    lock_text: false,
    shared_text: false,
};

/// Gives the stack a field, of id 3.
fn put_field(alloc: Global, stack: &mut Stack) -> bool {
    let mut object = Some(Object::empty(alloc, FIELD));
    if stack.open_slot(3).is_err() {
        return false;
    }
    stack.swap_object(3, &mut object);
    true
}

/// Whether a hilite, which no field has, stays in its entry.
#[tactic(auto, unfolding(stack_places::specs::Exchange::IsReady))]
fn leaves_hilite(stack: &mut Stack) -> bool {
    let mut entry = StackEntry::Prop(3, PropValue::HiliteIs(true));
    entry.exchange(stack);
    matches!(&entry, StackEntry::Prop(3, PropValue::HiliteIs(true)))
}

#[test]
fn a_property_that_is_not_there_stays_in_its_entry(rt: HostRuntime) {
    let mut stack = Stack::new(rt.alloc()).expect(&rt, "there is memory");
    assert!(rt; put_field(rt.alloc(), &mut stack) && leaves_hilite(&mut stack));
}

#[test]
fn objects_alone_are_structural(rt: HostRuntime) {
    let object = BoxedObject::new(rt.alloc(), None).expect(&rt, "there is memory");
    assert!(rt; StackEntry::Object(3, object).is_structural());
    assert!(rt; !StackEntry::NextId(7).is_structural());
}
