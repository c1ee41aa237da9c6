//! The backgrounds of a text, looked up by their ids.

ghost use Rattle.std.specs.Prelude.{◌≡◌, map, IfOk};
ghost use Rattle.std.specs.List.{list_all};
ghost use Rattle.stack_text.specs.Document.{sheet_ids, parts_of, contains_id, background_or, backgrounds_of};
ghost use Rattle.stack_file.specs.Views.{sheet_seen};

use crate::placed::PlacedIds;
use crate::sheets::SheetLines;
use object_table::{Id, Kind};
use stack_text::Part;
use std::alloc::{AllocError, Global};

/// Backgrounds in their order. Each is found at once, by its id.
#[derive(Drop)]
pub(crate) struct Backgrounds<'a> {
    pub(crate) list: &'a [SheetLines],
    ids: PlacedIds,
    ghost placed: { ids ≡ sheet_ids (map sheet_seen list.now) },
}

fn ids_of(alloc: Global, backgrounds: &[SheetLines]) -> Result<PlacedIds, AllocError>
    ensures { IfOk result (λ p. p ≡ sheet_ids (map sheet_seen backgrounds.now)) }
{
    let mut ids = PlacedIds::new(alloc);
    for background in backgrounds {
        ids.push(background.id)?;
    }
    Ok(ids)
}

impl<'a> Backgrounds<'a> {
    pub(crate) fn new(alloc: Global, list: &'a [SheetLines]) -> Result<Backgrounds<'a>, AllocError>
        ensures { IfOk result (λ b. b.list.now ≡ list.now) }
    {
        let ids = ids_of(alloc, list)?;
        Ok(Backgrounds { list, ids })
    }

    pub(crate) fn contains(&self, id: Id) -> bool
        ensures { result ≡ contains_id id (sheet_ids (map sheet_seen self.now.list.now)) }
    {
        self.ids.contains(id)
    }

    /// The parts of a background, none where it isn't there.
    pub(crate) fn parts_of(&self, id: Id) -> &'a [Part]
        ensures { result.now ≡ parts_of (map sheet_seen self.now.list.now) id }
    {
        match self.ids.place_of(id) {
            Some(place) => &self.list[place].parts,
            None => &[],
        }
    }
}

/// The background that a card is on.
pub(crate) fn background_of(kind: Kind) -> Id
    ensures { result ≡ background_or kind }
{
    match kind {
        Kind::Card { background, .. } => background,
        _ => 0,
    }
}

/// The background of each card, in the order of the cards.
fn owners_of(alloc: Global, cards: &[SheetLines]) -> Result<PlacedIds, AllocError>
    ensures { IfOk result (λ p. p ≡ backgrounds_of (map sheet_seen cards.now)) }
{
    let mut owners = PlacedIds::new(alloc);
    for card in cards {
        owners.push(background_of(card.object.kind))?;
    }
    Ok(owners)
}

/// Whether each background is among the owners.
fn each_among(backgrounds: &[SheetLines], owners: &PlacedIds) -> bool
    ensures { result ≡ list_all (λ b. contains_id b.id owners.now) (map sheet_seen backgrounds.now) }
{
    for background in backgrounds {
        if !owners.contains(background.id) {
            return false;
        }
    }
    true
}

/// Whether each background has a card.
pub(crate) fn each_has_card(
    alloc: Global,
    backgrounds: &[SheetLines],
    cards: &[SheetLines],
) -> Result<bool, AllocError>
    ensures { IfOk result (λ x. x ≡ list_all (λ b. contains_id b.id (backgrounds_of (map sheet_seen cards.now)))
        (map sheet_seen backgrounds.now)) }
{
    let owners = owners_of(alloc, cards)?;
    Ok(each_among(backgrounds, &owners))
}
