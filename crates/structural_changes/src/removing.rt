//! The change that removes a card, prepared.

ghost use Rattle.std.specs.Prelude.{◌≡◌, OnOk, IfOk, [], ◌∷◌, ◌++◌, ◌||◌, map, filter, true, if◌then◌else◌};
ghost use Rattle.std.specs.FinMap.{keys};
ghost use Rattle.std.specs.List.{AllByRecursion};
ghost use Rattle.object_table.specs.Objects.{has_kind, is_background, is_card, parts_at};
ghost use Rattle.object_table.specs.WellFormed.{IsWellFormed};
ghost use Rattle.stack_places.specs.Places.{background_order, ids};
ghost use Rattle.structural_changes.specs.Prepared.{Adds, Opens, has_content, pairs_kept};
ghost use Rattle.structural_changes.specs.Writes.{write, without as order_without, following as next_in, home};
ghost use Rattle.structural_changes.specs.Writes.{ids_where, is_last_card, goes_as_layer, goes_as_part};
ghost use Rattle.structural_changes.specs.Writes.{goes_as_content, fits_deletion, writes_of_deletion};

use crate::clearing::{clear_hilites, clear_objects, clear_parts, clear_texts};
use crate::making::home_of;
use crate::preparing::{add_entry, is_on, parts_on};
use ht_values::PartKind;
use object_table::{Id, IdList, LayerId, Stack};
use stack_places::StackEntry;
use std::alloc::{AllocError, Global};

/// The id right behind another in an order, or the first where that is the last one or isn't there; of no ids the other
/// itself.
pub fn following(order: &IdList, place: Id) -> Id
    ensures { result ≡ next_in place order.now }
{
    let ids = order.as_slice();
    let behind = order.number_of(place).unwrap_or(0);
    if behind < ids.len() {
        ids[behind]
    } else {
        ids.first().copied().unwrap_or(place)
    }
}

/// The card right behind another in the stack's order, or the first card where that is the last one. It is what becomes
/// current when that card goes.
pub fn following_card(stack: &Stack, card: Id) -> Id
    ensures { result ≡ next_in card stack.now.content.cards }
{
    following(stack.cards(), card)
}

/// Whether no other card is on a card's background, which goes with it then.
pub fn is_last_of_background(stack: &Stack, card: Id) -> bool
    ensures { result ≡ is_last_card stack.now.content card }
{
    let background = home_of(stack, card);
    for other in stack.cards().as_slice() {
        if *other != card && is_on(stack, background, *other) {
            return false;
        }
    }
    true
}

/// An order without an id.
fn without(alloc: Global, order: &IdList, id: Id) -> Result<IdList, AllocError>
    ensures { IfOk result (λ l. l ≡ order_without id order.now) }
{
    let mut shorter = IdList::new(alloc);
    for other in order.as_slice() {
        if *other != id {
            shorter.push(*other)?;
        }
    }
    Ok(shorter)
}

/// The layers that go with a card: the card, and its background with its last card.
fn layers_with(alloc: Global, stack: &Stack, card: Id, last: bool) -> Result<Vec<Id>, AllocError>
    requires { last ≡ is_last_card stack.now.content card }
    ensures { IfOk result (λ layers. layers.items ≡ card
        ∷ (if is_last_card stack.now.content card then home stack.now.content card ∷ [] else [])) }
{
    if last {
        Vec::from_slice(alloc, &[card, home_of(stack, card)])
    } else {
        Vec::from_slice(alloc, &[card])
    }
}

/// The parts that go with a card's background, none where it stays.
fn parts_with_background(stack: &Stack, card: Id, last: bool) -> &[Id]
    requires background { has_kind is_background stack.now.content (home stack.now.content card) ≡ true }
    requires last { last ≡ is_last_card stack.now.content card }
    ensures { result.now ≡ (if is_last_card stack.now.content card then parts_at stack.now.content
        (home stack.now.content card) else []) }
{
    if last {
        parts_on(stack, LayerId::OfBackground(home_of(stack, card)))
    } else {
        &[]
    }
}

/// The ids of the layers that go with a card.
fn layers_that_go(alloc: Global, stack: &Stack, card: Id, last: bool) -> Result<Vec<Id>, AllocError>
    requires well_formed { IsWellFormed stack.now.content }
    requires card { has_kind is_card stack.now.content card ≡ true }
    requires last { last ≡ is_last_card stack.now.content card }
    ensures { IfOk result (λ layers. layers.items
        ≡ filter (goes_as_layer stack.now.content card) (keys stack.now.content.parts)) }
{
    let mut layers = layers_with(alloc, stack, card, last)?;
    layers.sort_unstable();
    layers.dedup();
    Ok(layers)
}

/// The ids of the objects that go with a card.
fn objects_that_go(
    alloc: Global,
    stack: &Stack,
    card: Id,
    last: bool,
) -> Result<Vec<Id>, AllocError>
    requires well_formed { IsWellFormed stack.now.content }
    requires card { has_kind is_card stack.now.content card ≡ true }
    requires last { last ≡ is_last_card stack.now.content card }
    ensures { IfOk result (λ objects. objects.items
        ≡ ids_where stack.now.content (λ id. goes_as_layer stack.now.content card id || goes_as_part stack.now.content
        card id)) }
{
    let mut objects = layers_with(alloc, stack, card, last)?;
    objects.extend_from_slice(parts_on(stack, LayerId::OfCard(card)))?;
    objects.extend_from_slice(parts_with_background(stack, card, last))?;
    objects.sort_unstable();
    objects.dedup();
    Ok(objects)
}

/// Whether a part keeps something for a card, or for 0: a field a text, a button a hilite.
fn keeps_for(stack: &Stack, kind: PartKind, part: Id, card: Id) -> bool
    ensures { result ≡ has_content kind stack.now.content (part, card) }
{
    match kind {
        PartKind::Button => stack.hilite(part, card).is_some(),
        PartKind::Field => stack.text(part, card).is_some(),
    }
}

/// Adds what these parts keep for a card, or for 0.
fn add_kept(
    stack: &Stack,
    found: &mut Vec<(Id, Id)>,
    kind: PartKind,
    parts: &[Id],
    card: Id,
) -> Result<(), AllocError>
    ensures { OnOk result (found.new.items ≡ found.old.items
        ++ filter (has_content kind stack.now.content) (map (λ part. (part, card)) parts.now)) }
{
    for part in parts {
        if keeps_for(stack, kind, *part, card) {
            found.push((*part, card))?;
        }
    }
    Ok(())
}

/// What goes with a card of the texts or of the hilites, each by its part and its card, or 0.
fn contents_that_go(
    alloc: Global,
    stack: &Stack,
    kind: PartKind,
    card: Id,
    last: bool,
) -> Result<Vec<(Id, Id)>, AllocError>
    requires well_formed { IsWellFormed stack.now.content }
    requires card { has_kind is_card stack.now.content card ≡ true }
    requires last { last ≡ is_last_card stack.now.content card }
    ensures contents { IfOk result (λ contents. contents.items
        ≡ filter (goes_as_content stack.now.content card) (pairs_kept kind stack.now.content)) }
    ensures kept { IfOk result (λ contents. AllByRecursion (λ p. has_content kind stack.now.content p ≡ true)
        contents.items) }
{
    let background = LayerId::OfBackground(home_of(stack, card));
    let mut found = Vec::new(alloc);
    add_kept(
        stack,
        &mut found,
        kind,
        parts_on(stack, LayerId::OfCard(card)),
        card,
    )?;
    add_kept(stack, &mut found, kind, parts_on(stack, background), card)?;
    add_kept(
        stack,
        &mut found,
        kind,
        parts_with_background(stack, card, last),
        0,
    )?;
    found.sort_unstable();
    found.dedup();
    Ok(found)
}

/// Adds an order of backgrounds without a card's, where that goes.
fn leave_background(
    alloc: Global,
    stack: &mut Stack,
    entries: &mut Vec<StackEntry>,
    card: Id,
    last: bool,
) -> Result<(), AllocError>
    requires { last ≡ is_last_card stack.old.content card }
    ensures adds { OnOk result (Adds stack.old stack.new entries.old.items entries.new.items
        (if is_last_card stack.old.content card then write background_order
        (ids (order_without (home stack.old.content card) stack.old.content.backgrounds)) ∷ [] else [])) }
    ensures opens { Opens stack.old stack.new }
{
    if !last {
        return Ok(());
    }
    let backgrounds = without(alloc, stack.backgrounds(), home_of(stack, card))?;
    add_entry(stack, entries, StackEntry::BackgroundOrder(backgrounds))
}

/// The entries of a card that goes, and of its background where no other card is on it, with all the room that they
/// need. The stack holds what it held, and has more room, also where a growth is refused.
pub fn prepare_deletion(
    alloc: Global,
    stack: &mut Stack,
    card: Id,
) -> Result<Vec<StackEntry>, AllocError>
    requires well_formed { IsWellFormed stack.old.content }
    requires fits { fits_deletion stack.old.content ≡ true }
    requires card { has_kind is_card stack.old.content card ≡ true }
    ensures opens { Opens stack.old stack.new }
    ensures entries { IfOk result (λ entries. Adds stack.old stack.new [] entries.items
        (writes_of_deletion stack.old.content card)) }
{
    let last = is_last_of_background(stack, card);
    let cards = without(alloc, stack.cards(), card)?;
    let objects = objects_that_go(alloc, stack, card, last)?;
    let layers = layers_that_go(alloc, stack, card, last)?;
    let texts = contents_that_go(alloc, stack, PartKind::Field, card, last)?;
    let hilites = contents_that_go(alloc, stack, PartKind::Button, card, last)?;
    let mut entries = Vec::new(alloc);
    add_entry(stack, &mut entries, StackEntry::CardOrder(cards))?;
    leave_background(alloc, stack, &mut entries, card, last)?;
    clear_objects(alloc, stack, &mut entries, &objects)?;
    clear_parts(stack, &mut entries, &layers)?;
    clear_texts(stack, &mut entries, &texts)?;
    clear_hilites(stack, &mut entries, &hilites)?;
    Ok(entries)
}
