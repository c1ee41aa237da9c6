//! Entries for the changes: all that grows is taken here, so that the exchanges can't fail.

ghost use Rattle.std.specs.Prelude.{◌≡◌, ◌+◌, ◌<◌, vec_len, vec_capacity, OnOk, IfOk, [], ◌∷◌, Some, true, false};
ghost use Rattle.stack_places.specs.Exchange.{IsReady};
ghost use Rattle.stack_places.specs.Places.{field_text, text};
ghost use Rattle.structural_changes.specs.Prepared.{Adds, Opens, write_of};
ghost use Rattle.structural_changes.specs.Writes.{write, empty_texts, false_hilites, texts_of, hilites_of, is_card_of};
ghost use Rattle.structural_changes.specs.Writes.{is_part_of, keeps, ids_where};
ghost use Rattle.object_table.specs.Layers.{is_of_layer, layer_id};
ghost use Rattle.object_table.specs.Objects.{has_kind, is_background, parts_at};
ghost use Rattle.object_table.specs.WellFormed.{IsWellFormed};

use ht_values::PartKind;
use object_table::{FieldText, Id, Kind, LayerId, Stack};
use stack_places::StackEntry;
use std::alloc::{AllocError, Global};

/// Makes room for the value at an entry's place.
#[tactic(auto, unfolding(stack_places::specs::Exchange::IsReady))]
fn open_place(stack: &mut Stack, entry: &StackEntry) -> Result<(), AllocError>
    ensures ready { OnOk result (IsReady stack.new.room entry.now) }
    ensures opens { Opens stack.old stack.new }
{
    match entry {
        StackEntry::FieldText(field, card, _) => stack.open_text(*field, *card),
        StackEntry::Hilite(button, card, _) => stack.open_hilite(*button, *card),
        StackEntry::Object(id, _) => stack.open_slot(*id),
        StackEntry::Parts(layer, _) => stack.open_slot(*layer),
        _ => Ok(()),
    }
}

/// Adds an entry, with its room.
pub(crate) fn add_entry(
    stack: &mut Stack,
    entries: &mut Vec<StackEntry>,
    entry: StackEntry,
) -> Result<(), AllocError>
    ensures adds { OnOk result (Adds stack.old stack.new entries.old.items entries.new.items (write_of entry ∷ [])) }
    ensures opens { Opens stack.old stack.new }
{
    open_place(stack, &entry)?;
    entries.push(entry)?;
    Ok(())
}

/// Adds an entry that finds its room. There is a place for it.
pub(crate) fn add_ready(stack: &Stack, entries: &mut Vec<StackEntry>, entry: StackEntry)
    requires ready { IsReady stack.now.room entry }
    requires place { vec_len entries.old < vec_capacity entries.old }
    ensures adds { Adds stack.now stack.now entries.old.items entries.new.items (write_of entry ∷ []) }
    ensures len { vec_len entries.new ≡ vec_len entries.old + 1 }
    ensures capacity { vec_capacity entries.new ≡ vec_capacity entries.old }
{
    let _ = stack;
    entries.push_reserved(entry);
}

/// Adds an empty text of a field for a card, or for 0.
fn add_text(
    stack: &mut Stack,
    entries: &mut Vec<StackEntry>,
    field: Id,
    card: Id,
) -> Result<(), AllocError>
    ensures adds { OnOk result (Adds stack.old stack.new entries.old.items entries.new.items
        (write (field_text field card) (text []) ∷ [])) }
    ensures opens { Opens stack.old stack.new }
{
    let text = Some(FieldText::empty());
    let entry = StackEntry::FieldText(field, card, text);
    add_entry(stack, entries, entry)
}

/// Adds an empty text of a field for each of these cards.
pub(crate) fn add_texts(
    stack: &mut Stack,
    entries: &mut Vec<StackEntry>,
    field: Id,
    cards: &[Id],
) -> Result<(), AllocError>
    ensures adds { OnOk result (Adds stack.old stack.new entries.old.items entries.new.items
        (empty_texts field cards.now)) }
    ensures opens { Opens stack.old stack.new }
{
    entries.reserve(cards.len())?;
    for card in cards {
        add_text(stack, entries, field, *card)?;
    }
    Ok(())
}

/// Adds a false hilite of a button for each of these cards.
pub(crate) fn add_hilites(
    stack: &mut Stack,
    entries: &mut Vec<StackEntry>,
    button: Id,
    cards: &[Id],
) -> Result<(), AllocError>
    ensures adds { OnOk result (Adds stack.old stack.new entries.old.items entries.new.items
        (false_hilites button cards.now)) }
    ensures opens { Opens stack.old stack.new }
{
    entries.reserve(cards.len())?;
    for card in cards {
        add_entry(
            stack,
            entries,
            StackEntry::Hilite(button, *card, Some(false)),
        )?;
    }
    Ok(())
}

/// Whether an id is that of a card of a background.
pub fn is_on(stack: &Stack, background: Id, id: Id) -> bool
    ensures { result ≡ is_card_of stack.now.content background id }
{
    match stack.object(id) {
        Some(object) =>
            matches!(object.kind, Kind::Card { background: home, .. } if home == background),
        None => false,
    }
}

/// The cards of a background, by their ids.
pub(crate) fn cards_of(alloc: Global, stack: &Stack, background: Id) -> Result<Vec<Id>, AllocError>
    requires { IsWellFormed stack.now.content }
    ensures { IfOk result (λ cards. cards.items
        ≡ ids_where stack.now.content (is_card_of stack.now.content background)) }
{
    let mut cards = Vec::new(alloc);
    for card in stack.cards().as_slice() {
        if is_on(stack, background, *card) {
            cards.push(*card)?;
        }
    }
    cards.sort_unstable();
    cards.dedup();
    Ok(cards)
}

/// Whether an object is a part of a background that keeps something for each card: a field its texts, a button its
/// hilites.
fn is_kept(stack: &Stack, kind: PartKind, id: Id) -> bool
    ensures { result ≡ has_kind (keeps kind) stack.now.content id }
{
    match stack.object(id) {
        Some(object) => match kind {
            PartKind::Button => matches!(object.kind, Kind::BackgroundButton { .. }),
            PartKind::Field => matches!(object.kind, Kind::BackgroundField { .. }),
        },
        None => false,
    }
}

/// The parts of a layer, in their order.
pub(crate) fn parts_on(stack: &Stack, layer: LayerId) -> &[Id]
    requires { has_kind (is_of_layer layer) stack.now.content (layer_id layer) ≡ true }
    ensures { result.now ≡ parts_at stack.now.content (layer_id layer) }
{
    match stack.parts(layer) {
        Some(parts) => parts.as_slice(),
        None => &[],
    }
}

/// The fields or the buttons of a background, by their ids.
pub(crate) fn parts_of(
    alloc: Global,
    stack: &Stack,
    background: Id,
    kind: PartKind,
) -> Result<Vec<Id>, AllocError>
    requires { has_kind is_background stack.now.content background ≡ true }
    ensures { IfOk result (λ parts. parts.items
        ≡ ids_where stack.now.content (is_part_of (keeps kind) stack.now.content background)) }
{
    let mut found = Vec::new(alloc);
    for part in parts_on(stack, LayerId::OfBackground(background)) {
        if is_kept(stack, kind, *part) {
            found.push(*part)?;
        }
    }
    found.sort_unstable();
    found.dedup();
    Ok(found)
}

/// Adds an empty text for a card of each of these fields.
pub(crate) fn add_texts_of(
    stack: &mut Stack,
    entries: &mut Vec<StackEntry>,
    fields: &[Id],
    card: Id,
) -> Result<(), AllocError>
    ensures adds { OnOk result (Adds stack.old stack.new entries.old.items entries.new.items
        (texts_of fields.now card)) }
    ensures opens { Opens stack.old stack.new }
{
    stack.open_texts(fields, card)?;
    entries.reserve(fields.len())?;
    for field in fields {
        let text = Some(FieldText::empty());
        add_ready(stack, entries, StackEntry::FieldText(*field, card, text));
    }
    Ok(())
}

/// Adds a false hilite for a card of each of these buttons.
pub(crate) fn add_hilites_of(
    stack: &mut Stack,
    entries: &mut Vec<StackEntry>,
    buttons: &[Id],
    card: Id,
) -> Result<(), AllocError>
    ensures adds { OnOk result (Adds stack.old stack.new entries.old.items entries.new.items
        (hilites_of buttons.now card)) }
    ensures opens { Opens stack.old stack.new }
{
    stack.open_hilites(buttons, card)?;
    entries.reserve(buttons.len())?;
    for button in buttons {
        add_ready(
            stack,
            entries,
            StackEntry::Hilite(*button, card, Some(false)),
        );
    }
    Ok(())
}
