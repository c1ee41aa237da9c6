//! The changes that make objects, prepared.

ghost use Rattle.std.specs.Prelude.{◌≡◌, IfOk, [], ◌∷◌, ◌++◌, Some, true, false};
ghost use Rattle.object_table.specs.Empty.{empty_object};
ghost use Rattle.object_table.specs.declared.object.Kind.TheVariants.{Card};
ghost use Rattle.object_table.specs.Objects.{has_kind, is_card, parts_at};
ghost use Rattle.object_table.specs.Layers.{layer_id};
ghost use Rattle.object_table.specs.WellFormed.{IsWellFormed};
ghost use Rattle.structural_changes.specs.Prepared.{Adds, Opens};
ghost use Rattle.structural_changes.specs.Writes.{new_part, kept_for, insert_after};
ghost use Rattle.structural_changes.specs.Writes.{writes_of_new_part, fits_new_part, has_room_for, home};
ghost use Rattle.structural_changes.specs.Writes.{writes_of_new_card, writes_of_new_background};

use crate::preparing::{
    add_entry, add_hilites, add_hilites_of, add_texts, add_texts_of, cards_of, parts_of,
};
use ht_values::{PartKind, Text};
use object_table::{Id, IdList, Kind, LayerId, Object, ObjectName, Stack};
use stack_places::{BoxedObject, StackEntry};
use std::alloc::{AllocError, Global};

/// The id of a card or a background.
fn id_of(layer: LayerId) -> Id
    ensures { result ≡ layer_id layer }
{
    match layer {
        LayerId::OfCard(id) | LayerId::OfBackground(id) => id,
    }
}

/// A list with one id more.
fn with_last(alloc: Global, list: &[Id], id: Id) -> Result<IdList, AllocError>
    ensures { IfOk result (λ l. l ≡ list.now ++ id ∷ []) }
{
    let mut longer = Vec::from_slice(alloc, list)?;
    longer.push(id)?;
    Ok(IdList::from_vec(longer))
}

/// The parts of a layer with one more.
fn parts_with(alloc: Global, stack: &Stack, layer: LayerId, part: Id) -> Result<IdList, AllocError>
    requires { fits_new_part stack.now.content layer ≡ true }
    ensures { IfOk result (λ l. l ≡ parts_at stack.now.content (layer_id layer) ++ part ∷ []) }
{
    match stack.parts(layer) {
        Some(parts) => with_last(alloc, parts.as_slice(), part),
        None => with_last(alloc, &[], part),
    }
}

/// A new part of a layer.
fn part_of(alloc: Global, layer: LayerId, kind: PartKind) -> Result<Object, AllocError>
    ensures { IfOk result (λ o. o ≡ new_part layer kind) }
{
    let name = match kind {
        PartKind::Button => Text::fitting(alloc, b"New Button")?,
        PartKind::Field => Text::new(alloc),
    };
    let kind = match (layer, kind) {
        (LayerId::OfCard(_), PartKind::Button) => Kind::CardButton {
            visible: true,
            hilite: false,
        },
        (LayerId::OfCard(_), PartKind::Field) => Kind::CardField {
            visible: true,
            lock_text: false,
        },
        (LayerId::OfBackground(_), PartKind::Button) => Kind::BackgroundButton {
            visible: true,
            shared_hilite: true,
        },
        (LayerId::OfBackground(_), PartKind::Field) => Kind::BackgroundField {
            visible: true,
            lock_text: false,
            shared_text: false,
        },
    };
    Ok(Object {
        name: ObjectName::new(name),
        script: Text::new(alloc),
        kind,
    })
}

/// What a part of a layer keeps something for.
fn cards_kept_for(alloc: Global, stack: &Stack, layer: LayerId) -> Result<Vec<Id>, AllocError>
    requires { IsWellFormed stack.now.content }
    ensures { IfOk result (λ cards. cards.items ≡ kept_for stack.now.content layer) }
{
    let mut cards = Vec::new(alloc);
    match layer {
        LayerId::OfCard(card) => cards.push(card)?,
        LayerId::OfBackground(background) => {
            cards.push(0)?;
            cards.extend_from_slice(&cards_of(alloc, stack, background)?)?;
        }
    }
    Ok(cards)
}

/// The entries of a new part, with all the room that they need. The stack holds what it held, and has more room, also
/// where a growth is refused.
pub fn prepare_new_part(
    alloc: Global,
    stack: &mut Stack,
    layer: LayerId,
    kind: PartKind,
) -> Result<Vec<StackEntry>, AllocError>
    requires well_formed { IsWellFormed stack.old.content }
    requires fits { fits_new_part stack.old.content layer ≡ true }
    ensures opens { Opens stack.old stack.new }
    ensures entries { IfOk result (λ entries. Adds stack.old stack.new [] entries.items
        (writes_of_new_part stack.old.content layer kind)) }
{
    let part = stack.next_id();
    let parts = parts_with(alloc, stack, layer, part)?;
    let object = BoxedObject::new(alloc, Some(part_of(alloc, layer, kind)?))?;
    let cards = cards_kept_for(alloc, stack, layer)?;
    let mut entries = Vec::new(alloc);
    add_entry(stack, &mut entries, StackEntry::NextId(part + 1))?;
    add_entry(stack, &mut entries, StackEntry::Object(part, object))?;
    add_entry(
        stack,
        &mut entries,
        StackEntry::Parts(id_of(layer), Some(parts)),
    )?;
    match (layer, kind) {
        (_, PartKind::Field) => add_texts(stack, &mut entries, part, &cards)?,
        (LayerId::OfBackground(_), PartKind::Button) => {
            add_hilites(stack, &mut entries, part, &cards)?;
        }
        (LayerId::OfCard(_), PartKind::Button) => {}
    }
    Ok(entries)
}

/// An order with an id right after another, or last where that isn't there.
#[tactic(auto, using(crate::proofs::Orders::inserted))]
fn order_with(alloc: Global, order: &IdList, place: Id, id: Id) -> Result<IdList, AllocError>
    ensures { IfOk result (λ l. l ≡ insert_after place id order.now) }
{
    let ids = order.as_slice();
    let at = order.number_of(place).unwrap_or(ids.len()).min(ids.len());
    let mut longer = Vec::from_slice(alloc, &ids[..at])?;
    longer.push(id)?;
    longer.extend_from_slice(&ids[at..])?;
    Ok(IdList::from_vec(longer))
}

/// A new card of a background.
fn card_on(alloc: Global, background: Id) -> Object
    ensures { result ≡ empty_object (Card background false) }
{
    let kind = Kind::Card {
        background,
        cant_delete: false,
    };
    Object::empty(alloc, kind)
}

/// The entries of a new card on the background of another card, behind which it stands, with all the room that they
/// need. The stack holds what it held; where a growth is refused its room may be wider.
pub fn prepare_new_card(
    alloc: Global,
    stack: &mut Stack,
    card: Id,
) -> Result<Vec<StackEntry>, AllocError>
    requires well_formed { IsWellFormed stack.old.content }
    requires fits { has_room_for 1 stack.old.content ≡ true }
    requires card { has_kind is_card stack.old.content card ≡ true }
    ensures opens { Opens stack.old stack.new }
    ensures entries { IfOk result (λ entries. Adds stack.old stack.new [] entries.items
        (writes_of_new_card stack.old.content card)) }
{
    let new = stack.next_id();
    let background = home_of(stack, card);
    let order = order_with(alloc, stack.cards(), card, new)?;
    let fields = parts_of(alloc, stack, background, PartKind::Field)?;
    let buttons = parts_of(alloc, stack, background, PartKind::Button)?;
    let object = BoxedObject::new(alloc, Some(card_on(alloc, background)))?;
    let mut entries = Vec::new(alloc);
    add_entry(stack, &mut entries, StackEntry::NextId(new + 1))?;
    add_entry(stack, &mut entries, StackEntry::Object(new, object))?;
    add_entry(stack, &mut entries, StackEntry::CardOrder(order))?;
    add_entry(
        stack,
        &mut entries,
        StackEntry::Parts(new, Some(IdList::new(alloc))),
    )?;
    add_texts_of(stack, &mut entries, &fields, new)?;
    add_hilites_of(stack, &mut entries, &buttons, new)?;
    Ok(entries)
}

/// The background of a card, or 0 where there is no such card.
pub fn home_of(stack: &Stack, card: Id) -> Id
    ensures { result ≡ home stack.now.content card }
{
    match stack.object(card) {
        Some(object) => match object.kind {
            Kind::Card { background, .. } => background,
            _ => 0,
        },
        None => 0,
    }
}

/// The entries of a new background, which is the last one, and of its card, which stands behind another card, with all
/// the room that they need. The stack holds what it held; where a growth is refused its room may be wider.
pub fn prepare_new_background(
    alloc: Global,
    stack: &mut Stack,
    card: Id,
) -> Result<Vec<StackEntry>, AllocError>
    requires well_formed { IsWellFormed stack.old.content }
    requires fits { has_room_for 2 stack.old.content ≡ true }
    ensures opens { Opens stack.old stack.new }
    ensures entries { IfOk result (λ entries. Adds stack.old stack.new [] entries.items
        (writes_of_new_background stack.old.content card)) }
{
    let new = stack.next_id();
    let order = order_with(alloc, stack.cards(), card, new + 1)?;
    let backgrounds = with_last(alloc, stack.backgrounds().as_slice(), new)?;
    let background = Object::empty(alloc, Kind::Background { cant_delete: false });
    let background = BoxedObject::new(alloc, Some(background))?;
    let object = BoxedObject::new(alloc, Some(card_on(alloc, new)))?;
    let mut entries = Vec::new(alloc);
    add_entry(stack, &mut entries, StackEntry::NextId(new + 2))?;
    add_entry(stack, &mut entries, StackEntry::Object(new, background))?;
    add_entry(stack, &mut entries, StackEntry::Object(new + 1, object))?;
    add_entry(stack, &mut entries, StackEntry::CardOrder(order))?;
    add_entry(
        stack,
        &mut entries,
        StackEntry::BackgroundOrder(backgrounds),
    )?;
    add_entry(
        stack,
        &mut entries,
        StackEntry::Parts(new, Some(IdList::new(alloc))),
    )?;
    add_entry(
        stack,
        &mut entries,
        StackEntry::Parts(new + 1, Some(IdList::new(alloc))),
    )?;
    Ok(entries)
}
