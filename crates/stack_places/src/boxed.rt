//! Objects in boxes of their own, so that an entry stays small.

ghost use Rattle.std.specs.Prelude.{◌≡◌, true, IfOk};
ghost use Rattle.std.specs.FinMap as map;
ghost use Rattle.std.specs.FinSet as set;
ghost use Rattle.object_table.specs.Maps.{put_option};

use object_table::{Id, Object, Stack};
use std::alloc::{AllocError, Global};
use std::marker::Model;

/// An object, or none, in a box.
#[derive(Drop)]
pub struct BoxedObject {
    object: Box<Option<Object>>,
}

impl Model for BoxedObject {
    ghost use Rattle.std.specs.Prelude.{Option};
    ghost use Rattle.object_table.specs.declared.object.Object.{Object};

    ghost Value = { Option Object };

    ghost view = { λ b. b.object.value };
}

impl BoxedObject {
    /// The object, or none, in a box.
    pub fn new(alloc: Global, object: Option<Object>) -> Result<BoxedObject, AllocError>
        ensures { IfOk result (λ b. b ≡ object) }
    {
        let object = Box::new(alloc, object)?;
        Ok(BoxedObject { object })
    }

    /// Exchanges the object of an id with this one.
    pub(crate) fn exchange(&mut self, stack: &mut Stack, id: Id)
        requires { set.contains stack.old.room.slots id ≡ true }
        ensures value { self.new ≡ map.get stack.old.content.objects id }
        ensures stack { stack.new ≡ record stack.old
            { content = record stack.old.content { objects = put_option stack.old.content.objects id self.old } } }
    {
        stack.swap_object(id, &mut self.object);
    }
}
