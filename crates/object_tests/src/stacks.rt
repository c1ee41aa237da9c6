//! Stacks by plain values: what is put into one, and what holds of one.

use crate::plain_texts::{Bytes, is_text_or_none, text};
use ht_values::{PartKind, Text};
use object_table::{
    FieldText, Id, IdList, Kind, LayerId, Object, ObjectName, PropValue, Stack, Which,
};
use std::alloc::Global;

/// What holds of a stack.
pub(crate) enum Fact {
    /// An object has this name and this script.
    Object(Id, Bytes, Bytes),
    NoObject(Id),
    /// An object is a background that can't be deleted.
    Locked(Id),
    Parts(LayerId, &'static [Id]),
    NoLayer(LayerId),
    /// A field has this text for a card, or none.
    Text(Id, Id, Option<Bytes>),
    /// A button has this hilite for a card, or none.
    Hilite(Id, Id, Option<bool>),
    /// The backgrounds and the cards.
    Orders(&'static [Id], &'static [Id]),
    /// How many objects there are, and the next id.
    Counts(usize, Id),
    BackgroundCount(usize),
    ScriptLength(Id, usize),
    /// A script has every byte, in order.
    EveryByte(Id),
    /// The card of a number.
    CardAt(usize, Option<Id>),
    /// The number of an object.
    Number(Id, Option<usize>),
    PartAt(LayerId, PartKind, usize, Option<Id>),
    PartOfId(LayerId, PartKind, usize, Option<Id>),
    PartOfName(LayerId, PartKind, Bytes, Option<Id>),
    /// Whether a value may be set in an object.
    MaySet(Id, Setting, bool),
}

/// A value that is set: no name, or a flag that is true.
#[derive(Clone, Copy)]
pub(crate) enum Setting {
    NoName,
    Visible,
    Hilite,
    SharedText,
    CantDelete,
}

fn is_object(object: Option<&Object>, name: &[u8], script: &[u8]) -> bool {
    match object {
        Some(object) => object.name.as_text().as_slice() == name
            && object.script.as_slice() == script,
        None => false,
    }
}

fn are_every_byte(bytes: &[u8]) -> bool {
    for (i, byte) in bytes.iter().enumerate() {
        if i != *byte as usize {
            return false;
        }
    }
    bytes.len() == 256
}

fn value_of(alloc: Global, setting: Setting) -> PropValue {
    match setting {
        Setting::NoName => PropValue::NameIs(Text::new(alloc)),
        Setting::Visible => PropValue::VisibleIs(true),
        Setting::Hilite => PropValue::HiliteIs(true),
        Setting::SharedText => PropValue::SharedTextIs(true),
        Setting::CantDelete => PropValue::CantDeleteIs(true),
    }
}

fn holds(alloc: Global, stack: &Stack, fact: &Fact) -> bool {
    match fact {
        Fact::Object(id, name, script) => is_object(stack.object(*id), name, script),
        Fact::NoObject(id) => stack.object(*id).is_none(),
        Fact::Locked(id) => matches!(
            stack.object(*id),
            Some(Object {
                kind: Kind::Background { cant_delete: true },
                ..
            })
        ),
        Fact::Parts(layer, parts) => {
            matches!(stack.parts(*layer), Some(list) if list.as_slice() == *parts)
        }
        Fact::NoLayer(layer) => stack.parts(*layer).is_none(),
        Fact::Text(field, card, due) => {
            is_text_or_none(stack.text(*field, *card).map(Text::as_slice), *due)
        }
        Fact::Hilite(button, card, due) => stack.hilite(*button, *card) == *due,
        Fact::Orders(backgrounds, cards) => {
            stack.backgrounds().as_slice() == *backgrounds && stack.cards().as_slice() == *cards
        }
        Fact::Counts(objects, next) => {
            stack.object_count() == *objects && stack.next_id() == *next
        }
        Fact::BackgroundCount(count) => stack.backgrounds().len() == *count,
        Fact::ScriptLength(id, length) => {
            matches!(stack.object(*id), Some(object) if object.script.len() == *length)
        }
        Fact::EveryByte(id) => {
            matches!(stack.object(*id), Some(object) if are_every_byte(object.script.as_slice()))
        }
        Fact::CardAt(number, due) => stack.card_at(*number) == *due,
        Fact::Number(id, due) => stack.number(*id) == *due,
        Fact::PartAt(layer, kind, number, due) => {
            stack.find_part(*layer, *kind, Which::Number(*number)) == *due
        }
        Fact::PartOfId(layer, kind, id, due) => {
            stack.find_part(*layer, *kind, Which::Id(*id)) == *due
        }
        Fact::PartOfName(layer, kind, name, due) => matches!(
            text(alloc, name),
            Some(name) if stack.find_part(*layer, *kind, Which::Name(&name)) == *due
        ),
        Fact::MaySet(id, setting, due) => stack.may_set(*id, &value_of(alloc, *setting)) == *due,
    }
}

pub(crate) fn hold(alloc: Global, stack: &Stack, facts: &[Fact]) -> bool {
    for fact in facts {
        if !holds(alloc, stack, fact) {
            return false;
        }
    }
    true
}

/// An exchange: what is put, and what was there, where that is looked at.
pub(crate) enum Exchange {
    /// An object of this name, and the name of the one that was there.
    Put(Id, Bytes, Kind, Option<Bytes>),
    /// No object, and the name of the one that was there.
    Take(Id, Option<Bytes>),
    /// The parts of a card or a background.
    Parts(Id, &'static [Id]),
    /// The cards.
    Cards(&'static [Id]),
    /// No backgrounds, and those that were there.
    Backgrounds(&'static [Id]),
    Next(Id, Id),
    /// The text of a field for a card.
    Text(Id, Id, Option<Bytes>, Option<Bytes>),
    /// The hilite of a button for a card.
    Hilite(Id, Id, Option<bool>, Option<bool>),
    /// Room for the texts of fields for a card.
    OpenTexts(&'static [Id], Id),
    /// Room for the hilites of buttons for a card.
    OpenHilites(&'static [Id], Id),
}

/// Whether this is an object of this name without a script, or with `None` none.
fn is_named(object: &Option<Object>, due: Option<&[u8]>) -> bool {
    match object {
        Some(object) => match due {
            Some(name) => object.name.as_text().as_slice() == name && object.script.len() == 0,
            None => false,
        },
        None => due.is_none(),
    }
}

fn object(alloc: Global, name: &[u8], kind: Kind) -> Option<Object> {
    let mut object = Object::empty(alloc, kind);
    object.name = ObjectName::new(text(alloc, name)?);
    Some(object)
}

fn takes_object(stack: &mut Stack, id: Id, mut object: Option<Object>, was: Option<&[u8]>) -> bool {
    if stack.open_slot(id).is_err() {
        return false;
    }
    stack.swap_object(id, &mut object);
    is_named(&object, was)
}

fn takes_text(
    stack: &mut Stack,
    field: Id,
    card: Id,
    mut text: Option<FieldText>,
    was: Option<&[u8]>,
) -> bool {
    if stack.open_text(field, card).is_err() {
        return false;
    }
    stack.swap_text(field, card, &mut text);
    is_text_or_none(text.as_ref().map(FieldText::as_slice), was)
}

fn text_or_none(alloc: Global, bytes: Option<&[u8]>) -> Option<FieldText> {
    FieldText::new(alloc, text(alloc, bytes?)?).ok()
}

fn takes_hilite(
    stack: &mut Stack,
    button: Id,
    card: Id,
    mut hilite: Option<bool>,
    was: Option<bool>,
) -> bool {
    if stack.open_hilite(button, card).is_err() {
        return false;
    }
    stack.swap_hilite(button, card, &mut hilite);
    hilite == was
}

fn id_list(alloc: Global, ids: &[Id]) -> Option<IdList> {
    Some(IdList::from_vec(Vec::from_slice(alloc, ids).ok()?))
}

fn takes_parts(stack: &mut Stack, id: Id, mut parts: Option<IdList>) -> bool {
    match stack.open_slot(id) {
        Ok(()) => {
            stack.swap_parts(id, &mut parts);
            true
        }
        Err(_) => false,
    }
}

fn takes_cards(stack: &mut Stack, cards: Option<IdList>) -> bool {
    match cards {
        Some(mut cards) => {
            stack.swap_order(&mut cards);
            true
        }
        None => false,
    }
}

fn takes_backgrounds(stack: &mut Stack, mut backgrounds: IdList, was: &[Id]) -> bool {
    stack.swap_backgrounds(&mut backgrounds);
    backgrounds.as_slice() == was
}

fn takes_next(stack: &mut Stack, mut next: Id, was: Id) -> bool {
    stack.swap_next(&mut next);
    next == was
}

fn exchanges(alloc: Global, stack: &mut Stack, exchange: &Exchange) -> bool {
    match exchange {
        Exchange::Put(id, name, kind, was) => {
            takes_object(stack, *id, object(alloc, name, *kind), *was)
        }
        Exchange::Take(id, was) => takes_object(stack, *id, None, *was),
        Exchange::Parts(id, parts) => takes_parts(stack, *id, id_list(alloc, parts)),
        Exchange::Cards(cards) => takes_cards(stack, id_list(alloc, cards)),
        Exchange::Backgrounds(was) => takes_backgrounds(stack, IdList::new(alloc), was),
        Exchange::Next(id, was) => takes_next(stack, *id, *was),
        Exchange::Text(field, card, bytes, was) => {
            takes_text(stack, *field, *card, text_or_none(alloc, *bytes), *was)
        }
        Exchange::Hilite(button, card, lit, was) => takes_hilite(stack, *button, *card, *lit, *was),
        Exchange::OpenTexts(fields, card) => stack.open_texts(fields, *card).is_ok(),
        Exchange::OpenHilites(buttons, card) => stack.open_hilites(buttons, *card).is_ok(),
    }
}

/// An exchange, and what holds after it.
pub(crate) type Change = (Exchange, &'static [Fact]);

pub(crate) fn takes(alloc: Global, stack: &mut Stack, changes: &[Change]) -> bool {
    for (exchange, facts) in changes {
        if !exchanges(alloc, stack, exchange) || !hold(alloc, stack, facts) {
            return false;
        }
    }
    true
}

/// The empty stack. It stands in a box, which is dropped by one call.
fn empty_stack(alloc: Global) -> Option<Box<Stack>> {
    Box::new(alloc, Stack::new(alloc).ok()?).ok()
}

/// The empty stack after some changes; none where one of them isn't as it says.
pub(crate) fn changed_stack(alloc: Global, changes: &[Change]) -> Option<Box<Stack>> {
    let mut stack = empty_stack(alloc)?;
    takes(alloc, &mut stack, changes).then_some(stack)
}

pub(crate) fn takes_blank(alloc: Global, changes: &[Change]) -> bool {
    takes(alloc, &mut Stack::blank(alloc), changes)
}
