//! The stack: slots by id, the two orders and the next id.

ghost use Rattle.std.specs.Prelude.{◌≡◌, true, option_copied, is_some, OnSome, IfOk, OnOk, OnErr, Some};
ghost use Rattle.std.specs.FinMap as map;
ghost use Rattle.std.specs.FinSet as set;
ghost use Rattle.std.specs.List.{AllByRecursion};
ghost use Rattle.object_table.specs.Opened.{with_parts};
ghost use Rattle.object_table.specs.Pairs.{Pair};
ghost use Rattle.object_table.specs.PartContents.{text_at, hilite_at};
ghost use Rattle.object_table.specs.Maps.{put_option};
ghost use Rattle.object_table.specs.Numbers.{at_number};
ghost use Rattle.object_table.specs.Objects.{object_at, object_count as objects_counted, parts_at};
ghost use Rattle.object_table.specs.Layers.{layer_parts};
ghost use Rattle.object_table.specs.Setting.{value_at, may_set, with_value_at};
ghost use Rattle.object_table.specs.Empty.{empty_stack, blank_stack};
ghost use Rattle.object_table.specs.Table.{no_room, KeepsRoom};
ghost use Rattle.object_table.specs.WellFormed.{IsWellFormed};

use crate::field_text::FieldText;
use crate::ids::{Id, IdList};
use crate::object::{Kind, LayerId, Object};
use crate::pair_table::PairTable;
use crate::property::PropValue;
use crate::slot_table::SlotTable;
use ht_values::Text;
use std::alloc::{AllocError, Global};
use std::collections::BTreeSet;
use std::marker::Model;
use std::mem;

/// The objects of a stack by id, the orders of its backgrounds and cards, the parts of each layer, the texts
/// of fields and the hilites of buttons, and the next id; beside these its room, the ids and pairs of ids that
/// are open. An exchange takes no memory: its id or pair has to be in the room, and `open_slot`, `open_text`,
/// `open_hilite`, `open_texts` and `open_hilites` widen it beforehand. What a stack holds is in its room.
///
/// A field of a card has one text, for that card. A field of a background has one for each card of its
/// background and a shared one, and a button of a background so has hilites; what is shared stands where the
/// card is 0.
///
/// A stack as such may be not well formed; `Stack::new` gives a well formed one, and `Stack::blank` one that is to be
/// filled.
pub struct Stack {
    slots: SlotTable,
    backgrounds: IdList,
    cards: IdList,
    texts: PairTable<FieldText>,
    hilites: PairTable<bool>,
    next: u32,
    /// What is lent for a text of a field that is empty.
    empty: Text,
}

/// Written here and not derived, so that no crate above proves anew how it is dropped.
impl Drop for Stack {
    fn drop(self) {
        let Stack {
            slots: _,
            backgrounds: _,
            cards: _,
            texts: _,
            hilites: _,
            next: _,
            empty: _,
        } = self;
    }
}

impl Model for Stack {
    ghost use Rattle.object_table.specs.Opened.{values_in, open_in};
    ghost use Rattle.object_table.specs.Rows.{entries_of};
    ghost use Rattle.object_table.specs.Table.{Table, coded_table};

    ghost Value = { Table };

    ghost coded = { coded_table };

    ghost view = { λ s. record {
      content = record {
        objects = s.slots.objects;
        backgrounds = s.backgrounds;
        cards = s.cards;
        parts = s.slots.parts;
        texts = values_in (entries_of s.texts);
        hilites = values_in (entries_of s.hilites);
        next = s.next;
      };
      room = record {
        slots = s.slots.ids;
        texts = open_in (entries_of s.texts);
        hilites = open_in (entries_of s.hilites);
      };
    } };

    ghost use Rattle.std.specs.Prelude.{◌≡◌, []};

    ghost invariant = { λ s. s.empty ≡ [] };
}

impl Stack {
    /// The empty stack: background 1 and card 2 on it, all without name, script and parts, and every flag
    /// false. The next id is 3.
    pub fn new(alloc: Global) -> Result<Stack, AllocError>
        ensures content { IfOk result (λ s. s.content ≡ empty_stack) }
        ensures well_formed { IfOk result (λ s. IsWellFormed s.content) }
    {
        let card = Kind::Card {
            background: 1,
            cant_delete: false,
        };
        let background = Kind::Background { cant_delete: false };
        let mut slots = SlotTable::new(alloc);
        slots.open(2)?;
        slots.swap_object(2, &mut Some(Object::empty(alloc, card)));
        slots.swap_parts(2, &mut Some(IdList::new(alloc)));
        slots.open(1)?;
        slots.swap_object(1, &mut Some(Object::empty(alloc, background)));
        slots.swap_parts(1, &mut Some(IdList::new(alloc)));
        slots.open(0)?;
        slots.swap_object(0, &mut Some(Object::empty(alloc, Kind::Stack)));
        Ok(Stack {
            slots,
            backgrounds: IdList::from_vec(vec![in alloc; 1]?),
            cards: IdList::from_vec(vec![in alloc; 2]?),
            texts: PairTable::new(alloc),
            hilites: PairTable::new(alloc),
            next: 3,
            empty: Text::new(alloc),
        })
    }

    /// The stack of no object, not even itself, with no room, for a reader that fills it. It isn't well formed. The
    /// next id is 1. It takes no memory.
    pub fn blank(alloc: Global) -> Stack
        ensures content { result.content ≡ blank_stack }
        ensures room { result.room ≡ no_room }
    {
        Stack {
            slots: SlotTable::new(alloc),
            backgrounds: IdList::new(alloc),
            cards: IdList::new(alloc),
            texts: PairTable::new(alloc),
            hilites: PairTable::new(alloc),
            next: 1,
            empty: Text::new(alloc),
        }
    }

    /// The object of an id, with its name, its script, its flags and, of a card, its background. `None`
    /// where there is none.
    pub fn object(&self, id: Id) -> Option<&Object>
        ensures value { option_copied result ≡ object_at self.now.content id }
        ensures room { OnSome result (set.contains self.now.room.slots id ≡ true) }
    {
        self.slots.object(id)
    }

    /// How many objects live, without the stack itself.
    pub fn object_count(&self) -> usize
        ensures { result ≡ objects_counted self.now.content }
    {
        self.slots.object_count()
    }

    /// The parts of a layer in the order of their making. `None` where there is no such card or background.
    pub fn parts(&self, layer: LayerId) -> Option<&IdList>
        ensures { option_copied result ≡ layer_parts self.now.content layer }
    {
        let object = self.object(layer.id())?;
        if object.kind.is_of(layer) {
            self.list_at(layer.id())
        } else {
            None
        }
    }

    /// The ids of a layer's parts, none where the id has no list of parts.
    pub(crate) fn parts_at(&self, layer: Id) -> &[Id]
        ensures { result.now ≡ parts_at self.now.content layer }
    {
        match self.list_at(layer) {
            Some(parts) => parts.as_slice(),
            None => &[],
        }
    }

    fn list_at(&self, id: Id) -> Option<&IdList>
        ensures { option_copied result ≡ map.get self.now.content.parts id }
    {
        self.slots.parts(id)
    }

    /// The text of a field for a card, or for 0 its shared text. `None` where there is no such text.
    pub fn text(&self, field: Id, card: Id) -> Option<&Text>
        ensures value { option_copied result ≡ text_at self.now.content field card }
        ensures room { OnSome result (set.contains self.now.room.texts (field, card) ≡ true) }
    {
        let text = self.texts.get(field, card)?;
        Some(text.text(&self.empty))
    }

    /// The hilite of a background's button for a card, or for 0 its shared hilite. `None` where there is no such
    /// hilite.
    pub fn hilite(&self, button: Id, card: Id) -> Option<bool>
        ensures value { result ≡ hilite_at self.now.content button card }
        ensures room { OnSome result (set.contains self.now.room.hilites (button, card) ≡ true) }
    {
        self.hilites.get(button, card).copied()
    }

    /// The card with a number, counted from 1 in the stack's order.
    pub fn card_at(&self, number: usize) -> Option<Id>
        ensures { result ≡ at_number self.now.content.cards number }
    {
        self.cards.at_number(number)
    }

    /// The id that the next object gets.
    pub fn next_id(&self) -> Id
        ensures { result ≡ self.now.content.next }
    {
        self.next
    }

    /// The backgrounds in their order.
    pub fn backgrounds(&self) -> &IdList
        ensures { result.now ≡ self.now.content.backgrounds }
    {
        &self.backgrounds
    }

    /// The cards in the stack's order.
    pub fn cards(&self) -> &IdList
        ensures { result.now ≡ self.now.content.cards }
    {
        &self.cards
    }

    /// Makes room for an id, its object and its list of parts. Nothing else changes, and nothing where a growth is
    /// refused.
    pub fn open_slot(&mut self, id: Id) -> Result<(), AllocError>
        ensures ok { OnOk result (self.new ≡ record self.old {
          room = record self.old.room { slots = set.insert self.old.room.slots id };
        }) }
        ensures inside { OnOk result (set.contains self.new.room.slots id ≡ true) }
        ensures err { OnErr result (self.new ≡ self.old) }
    {
        self.slots.open(id)
    }

    /// Makes room for the text of a field for a card, or for 0 for its shared text. Nothing else changes, and
    /// nothing where a growth is refused.
    pub fn open_text(&mut self, field: Id, card: Id) -> Result<(), AllocError>
        ensures ok { OnOk result (self.new ≡ record self.old {
          room = record self.old.room { texts = set.insert self.old.room.texts (field, card) };
        }) }
        ensures inside { OnOk result (set.contains self.new.room.texts (field, card) ≡ true) }
        ensures err { OnErr result (self.new ≡ self.old) }
    {
        self.texts.open(field, card)
    }

    /// Makes room for the hilite of a button for a card, or for 0 for its shared hilite. Nothing else changes,
    /// and nothing where a growth is refused.
    pub fn open_hilite(&mut self, button: Id, card: Id) -> Result<(), AllocError>
        ensures ok { OnOk result (self.new ≡ record self.old {
          room = record self.old.room { hilites = set.insert self.old.room.hilites (button, card) };
        }) }
        ensures inside { OnOk result (set.contains self.new.room.hilites (button, card) ≡ true) }
        ensures err { OnErr result (self.new ≡ self.old) }
    {
        self.hilites.open(button, card)
    }

    /// Makes room for the text of each of these fields for a card, or for 0 for their shared texts, all at once.
    /// Nothing else changes, and nothing where a growth is refused.
    pub fn open_texts(&mut self, fields: &[Id], card: Id) -> Result<(), AllocError>
        ensures ok { OnOk result (self.new ≡ record self.old {
          room = record self.old.room { texts = with_parts self.old.room.texts fields.now card };
        }) }
        ensures inside { OnOk result (AllByRecursion (λ field.
            set.contains self.new.room.texts (field, card) ≡ true) fields.now) }
        ensures err { OnErr result (self.new ≡ self.old) }
    {
        self.texts.open_each(fields, card)
    }

    /// Makes room for the hilite of each of these buttons for a card, or for 0 for their shared hilites, all at once.
    /// Nothing else changes, and nothing where a growth is refused.
    pub fn open_hilites(&mut self, buttons: &[Id], card: Id) -> Result<(), AllocError>
        ensures ok { OnOk result (self.new ≡ record self.old {
          room = record self.old.room { hilites = with_parts self.old.room.hilites buttons.now card };
        }) }
        ensures inside { OnOk result (AllByRecursion (λ button.
            set.contains self.new.room.hilites (button, card) ≡ true) buttons.now) }
        ensures err { OnErr result (self.new ≡ self.old) }
    {
        self.hilites.open_each(buttons, card)
    }

    /// Whether so much was opened that it is worth a look what can be closed. That shows nowhere but in time and in
    /// memory, so no clause tells when.
    pub fn has_much_room(&self) -> bool {
        self.texts.has_many_pairs() || self.hilites.has_many_pairs()
    }

    /// Gives back the room for the texts and the hilites of cards that aren't among these and have none. What a stack
    /// holds stays, and so does all other room.
    pub fn close_others(&mut self, cards: &BTreeSet<Id>)
        ensures content { self.new.content ≡ self.old.content }
        ensures room { KeepsRoom cards.now self.old.room self.new.room }
    {
        self.texts.close_others(cards);
        self.hilites.close_others(cards);
    }

    /// What a stack holds of texts and hilites is in its room, at any time. It does nothing.
    pub fn law_of_room(&self)
        ensures texts { (p : Pair) → is_some (map.get self.now.content.texts p) ≡ true
            → set.contains self.now.room.texts p ≡ true }
        ensures hilites { (p : Pair) → is_some (map.get self.now.content.hilites p) ≡ true
            → set.contains self.now.room.hilites p ≡ true }
    {
        self.texts.law_of_room();
        self.hilites.law_of_room();
    }

    /// Exchanges the object of an id, `None` where there is none, with a value.
    pub fn swap_object(&mut self, id: Id, object: &mut Option<Object>)
        requires { set.contains self.old.room.slots id ≡ true }
        ensures value { object.new ≡ map.get self.old.content.objects id }
        ensures stack { self.new ≡ record self.old {
          content = record self.old.content {
            objects = put_option self.old.content.objects id object.old;
          };
        } }
    {
        self.slots.swap_object(id, object);
    }

    /// Exchanges the list of an id's parts, `None` where it has none, with a value.
    pub fn swap_parts(&mut self, id: Id, parts: &mut Option<IdList>)
        requires { set.contains self.old.room.slots id ≡ true }
        ensures value { parts.new ≡ map.get self.old.content.parts id }
        ensures stack { self.new ≡ record self.old {
          content = record self.old.content {
            parts = put_option self.old.content.parts id parts.old;
          };
        } }
    {
        self.slots.swap_parts(id, parts);
    }

    /// Exchanges the text of a field for a card, or for 0 its shared text, with a value, where `None` stands for
    /// no text.
    pub fn swap_text(&mut self, field: Id, card: Id, text: &mut Option<FieldText>)
        requires { set.contains self.old.room.texts (field, card) ≡ true }
        ensures value { text.new ≡ text_at self.old.content field card }
        ensures stack { self.new ≡ record self.old {
          content = record self.old.content {
            texts = put_option self.old.content.texts (field, card) text.old;
          };
        } }
    {
        self.texts.swap(field, card, text);
    }

    /// Exchanges the hilite of a background's button for a card, or for 0 its shared hilite, with a value, where
    /// `None` stands for no hilite.
    pub fn swap_hilite(&mut self, button: Id, card: Id, hilite: &mut Option<bool>)
        requires { set.contains self.old.room.hilites (button, card) ≡ true }
        ensures value { hilite.new ≡ hilite_at self.old.content button card }
        ensures stack { self.new ≡ record self.old {
          content = record self.old.content {
            hilites = put_option self.old.content.hilites (button, card) hilite.old;
          };
        } }
    {
        self.hilites.swap(button, card, hilite);
    }

    /// Exchanges a property of an object with a value of it. The object is there, and has that property.
    pub fn swap_prop(&mut self, id: Id, value: &mut PropValue)
        requires { may_set self.old.content id value.old ≡ true }
        ensures value { value_at self.old.content id value.old ≡ Some value.new }
        ensures stack { self.new ≡ record self.old { content = with_value_at self.old.content id value.old } }
    {
        self.slots.swap_value(id, value);
    }

    /// Whether this is a value of a property that may be set: the object is there, and has that property.
    pub fn may_set(&self, id: Id, value: &PropValue) -> bool
        ensures { result ≡ may_set self.now.content id value.now }
    {
        match self.object(id) {
            Some(object) => object.may_set(value),
            None => false,
        }
    }

    /// Exchanges the order of the cards with another.
    pub fn swap_order(&mut self, cards: &mut IdList)
        ensures value { cards.new ≡ self.old.content.cards }
        ensures stack { self.new ≡ record self.old {
          content = record self.old.content {
            cards = cards.old;
          };
        } }
    {
        mem::swap(&mut self.cards, cards);
    }

    /// Exchanges the order of the backgrounds with another.
    pub fn swap_backgrounds(&mut self, backgrounds: &mut IdList)
        ensures value { backgrounds.new ≡ self.old.content.backgrounds }
        ensures stack { self.new ≡ record self.old {
          content = record self.old.content {
            backgrounds = backgrounds.old;
          };
        } }
    {
        mem::swap(&mut self.backgrounds, backgrounds);
    }

    /// Exchanges the next id with another.
    pub fn swap_next(&mut self, next: &mut Id)
        ensures value { next.new ≡ self.old.content.next }
        ensures stack { self.new ≡ record self.old {
          content = record self.old.content {
            next = next.old;
          };
        } }
    {
        mem::swap(&mut self.next, next);
    }
}
