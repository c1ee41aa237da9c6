//! The cards whose texts and hilites entries exchange.

ghost use Rattle.std.specs.Prelude.{◌≡◌, true, OnOk, IfSome};
ghost use Rattle.std.specs.BTreeSet.{contains};
ghost use Rattle.std.specs.Ordering.{nat_cmp};
ghost use Rattle.stack_places.specs.Exchange.{card_of};
ghost use Rattle.journal_entries.specs.Cards.{IsAmong, AreAmong, HasAll};

use crate::entry::Entry;
use object_table::Id;
use stack_places::StackEntry;
use std::alloc::AllocError;
use std::collections::BTreeSet;

/// Adds a card.
pub(crate) fn add_card(cards: &mut BTreeSet<Id>, card: Id) -> Result<(), AllocError>
    ensures added { OnOk result (contains nat_cmp cards.new card ≡ true) }
    ensures more { HasAll cards.old cards.new }
{
    cards.insert(card)?;
    Ok(())
}

/// Adds the card of an entry, if it has one.
#[tactic(auto, unfolding(crate::specs::Cards::IsAmong))]
fn add_card_of(cards: &mut BTreeSet<Id>, entry: &Entry) -> Result<(), AllocError>
    ensures among { OnOk result (IsAmong cards.new entry.now) }
    ensures more { HasAll cards.old cards.new }
{
    match entry {
        Entry::Stack(entry) => match entry.card() {
            Some(card) => add_card(cards, card),
            None => Ok(()),
        },
        Entry::Global(_, _) | Entry::Current(_) | Entry::External(_, _) => Ok(()),
    }
}

/// Adds the card of each of these entries, if it has one.
pub(crate) fn add_each_card(cards: &mut BTreeSet<Id>, entries: &[Entry]) -> Result<(), AllocError>
    ensures among { OnOk result (AreAmong cards.new entries.now) }
    ensures more { HasAll cards.old cards.new }
{
    for i in 0..entries.len() {
        add_card_of(cards, &entries[i])?;
    }
    Ok(())
}
