//! Slots of the ids that are open.

ghost use Rattle.std.specs.Prelude.{◌≡◌, [], true, OnOk, OnErr, OnSome, Some, is_some, option_copied, option_map};
ghost use Rattle.std.specs.Prelude.{option_and_then};
ghost use Rattle.std.specs.FinMap as map;
ghost use Rattle.std.specs.FinSet as set;
ghost use Rattle.object_table.specs.Maps.{put_option};
ghost use Rattle.object_table.specs.Setting.{value_in, with_value};
ghost use Rattle.object_table.specs.Slots.{slots_of, slot_at};

use crate::ids::{Id, IdList};
use crate::object::Object;
use crate::pages::Pages;
use crate::property::PropValue;
use std::alloc::{AllocError, Global};
use std::marker::Model;
use std::mem;

/// What an id stands for: an object and, where it is a layer, the list of its parts.
#[derive(Drop)]
pub(crate) struct Slot {
    pub(crate) object: Option<Object>,
    pub(crate) parts: Option<IdList>,
}

/// A slot for each id that is open, in the order in which they were opened, with the number of each id's slot, counted
/// from 1, and how many objects live besides the stack. So an id is found in a few steps, whichever others are open.
#[derive(Drop)]
pub(crate) struct SlotTable {
    slots: Vec<(Id, Slot)>,
    numbers: Pages,
    live: usize,
}

impl Model for SlotTable {
    ghost use Rattle.std.specs.Prelude.{◌≡◌};
    ghost use Rattle.std.specs.FinMap.{len, remove};
    ghost use Rattle.object_table.specs.Slots.{Slots, coded_slots, slots_of, objects_in, AreNumbered};

    ghost Value = { Slots };

    ghost coded = { coded_slots };

    ghost view = { λ t. slots_of t.slots.items };

    ghost invariant = { λ t. (t.live ≡ len (remove (objects_in t.slots.items) 0))
        × AreNumbered t.numbers.pages.items t.slots.items };
}

/// The slot with a number.
fn slot_with(slots: &[(Id, Slot)], number: u32) -> Option<&Slot>
    ensures { option_copied result ≡ slot_at slots.now number }
{
    let place = (number as usize).checked_sub(1)?;
    Some(&slots.get(place)?.1)
}

impl SlotTable {
    /// The table of no slots. It takes no memory.
    pub(crate) fn new(alloc: Global) -> SlotTable
        ensures { result ≡ slots_of [] }
    {
        SlotTable {
            slots: Vec::new(alloc),
            numbers: Pages::new(alloc),
            live: 0,
        }
    }

    pub(crate) fn object(&self, id: Id) -> Option<&Object>
        ensures value { option_copied result ≡ map.get self.now.objects id }
        ensures room { OnSome result (set.contains self.now.ids id ≡ true) }
    {
        slot_with(&self.slots, self.numbers.get(id))?
            .object
            .as_ref()
    }

    pub(crate) fn parts(&self, id: Id) -> Option<&IdList>
        ensures { option_copied result ≡ map.get self.now.parts id }
    {
        slot_with(&self.slots, self.numbers.get(id))?.parts.as_ref()
    }

    /// How many objects live besides the stack.
    pub(crate) fn object_count(&self) -> usize
        ensures { result ≡ map.len (map.remove self.now.objects 0) }
    {
        self.live
    }

    /// Makes room for an id.
    pub(crate) fn open(&mut self, id: Id) -> Result<(), AllocError>
        ensures ok { OnOk result (self.new ≡ record self.old { ids = set.insert self.old.ids id }) }
        ensures inside { OnOk result (set.contains self.new.ids id ≡ true) }
        ensures err { OnErr result (self.new ≡ self.old) }
    {
        if self.numbers.get(id) > 0 {
            return Ok(());
        }
        self.slots.reserve(1)?;
        let Ok(number) = u32::try_from(self.slots.len() + 1) else {
            return Err(AllocError);
        };
        self.numbers.set(id, number)?;
        let slot = Slot {
            object: None,
            parts: None,
        };
        self.slots.push_reserved((id, slot));
        Ok(())
    }

    pub(crate) fn swap_object(&mut self, id: Id, object: &mut Option<Object>)
        requires { set.contains self.old.ids id ≡ true }
        ensures value { object.new ≡ map.get self.old.objects id }
        ensures slots { self.new ≡ record self.old { objects = put_option self.old.objects id object.old } }
    {
        let added = object.is_some();
        let place = self.numbers.get(id) as usize - 1;
        mem::swap(&mut self.slots[place].1.object, object);
        if id != 0 {
            let others = self.live - usize::from(object.is_some());
            // What is added fits: no more objects live than slots are open.
            prove!(others <= self.slots.len());
            self.live = others + usize::from(added);
        }
    }

    /// Exchanges a value of a property with the object's own. The object is there, and has that property.
    pub(crate) fn swap_value(&mut self, id: Id, value: &mut PropValue)
        requires { is_some (option_and_then (value_in value.old) (map.get self.old.objects id)) ≡ true }
        ensures value { option_and_then (value_in value.old) (map.get self.old.objects id) ≡ Some value.new }
        ensures slots { self.new ≡ record self.old {
          objects = put_option self.old.objects id (option_map (with_value value.old) (map.get self.old.objects id));
        } }
    {
        let place = self.numbers.get(id) as usize - 1;
        match &mut self.slots[place].1.object {
            Some(object) => object.swap_value(value),
            None => unreachable!(),
        }
    }

    pub(crate) fn swap_parts(&mut self, id: Id, parts: &mut Option<IdList>)
        requires { set.contains self.old.ids id ≡ true }
        ensures value { parts.new ≡ map.get self.old.parts id }
        ensures slots { self.new ≡ record self.old { parts = put_option self.old.parts id parts.old } }
    {
        let place = self.numbers.get(id) as usize - 1;
        mem::swap(&mut self.slots[place].1.parts, parts);
    }
}
