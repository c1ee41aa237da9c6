//! A batch: what goes back over the changes and turns of one command.

ghost use Rattle.std.specs.Prelude.{◌≡◌, [], ◌∷◌, true, IfOk, IfErr, OnOk};
ghost use Rattle.journal_entries.specs.Cards.{AreAmong, HasAll};
ghost use Rattle.journal_entries.specs.Exchange.{back, back_taken, exchanged, forth, forth_taken, taken, shape_of};
ghost use Rattle.journal_entries.specs.Exchange.{AreReady, IsReady};
ghost use Rattle.journal_entries.specs.BatchEntries.{entries_in, needs_no_list};
ghost use Rattle.journal_entries.specs.Renumbered.{IsOf, IsMore, AreNeeded, batch_renumbered};

use crate::cards::{add_card, add_each_card};
use crate::entry::Entry;
use crate::present::Present;
use crate::renumbering::{Renumbering, need_each, renumber_each};
use externals::External;
use ht_values::Text;
use object_table::{FieldText, Id};
use stack_places::StackEntry;
use std::alloc::AllocError;
use std::collections::BTreeSet;
use std::marker::Model;
use std::mem;

/// Most lines that change something write one global or one field, or go to a card. Such an entry needs no list: a
/// global's, with a value or without, where a `u32` numbers it, that of the current card, of a field's text or of none,
/// or of a hilite. `Several` may hold any number of entries.
#[derive(Drop)]
enum BatchEntries {
    Value(u32, Text),
    NoValue(u32),
    Current(u32),
    FieldText(Id, Id, FieldText),
    NoFieldText(Id, Id),
    Hilite(Id, Id, Option<bool>),
    Several(Vec<Entry>),
}

/// Entries in the order in which they were made, with the number of the line that they belong to.
pub struct Batch {
    number: u32,
    entries: BatchEntries,
}

/// Written here and not derived, so that no crate above proves anew how it is dropped.
impl Drop for Batch {
    fn drop(self) {
        let Batch {
            number: _,
            entries: _,
        } = self;
    }
}

/// The history keeps one for each line.
const _: () = prove!(size_of::<Batch>() <= 40);

impl Model for Batch {
    ghost use Rattle.journal_entries.specs.Exchange.{BatchView};
    ghost use Rattle.journal_entries.specs.BatchEntries.{entries_in};

    ghost Value = { BatchView };

    ghost view = { λ b. record { number = b.number; entries = entries_in b.entries } };
}

impl Batch {
    /// The batch of these entries.
    pub(crate) fn of(number: u32, entries: Vec<Entry>) -> Batch
        ensures { result ≡ record { number = number; entries = entries.items } }
    {
        Batch {
            number,
            entries: batch_entries(entries),
        }
    }

    /// The number of its line.
    pub fn number(&self) -> u32
        ensures { result ≡ self.now.number }
    {
        self.number
    }

    /// Goes back over all entries, from the last to the first.
    pub fn go_back<E: External>(&mut self, present: &mut Present<E>)
        requires { AreReady (shape_of present.old) self.old.entries }
        ensures state { present.new ≡ record present.old
            { state = back present.old.names present.old.state self.old.entries } }
        ensures entries { self.new ≡ record self.old
            { entries = back_taken present.old.names present.old.state self.old.entries } }
    {
        let entries = mem::replace(&mut self.entries, BatchEntries::NoValue(0));
        self.entries = match alone_in(entries) {
            Ok(entry) => swapped(present, entry),
            Err(mut entries) => {
                present.go_back(&mut entries);
                BatchEntries::Several(entries)
            }
        };
    }

    /// Goes forth over all entries, from the first to the last.
    pub fn go_forth<E: External>(&mut self, present: &mut Present<E>)
        requires { AreReady (shape_of present.old) self.old.entries }
        ensures state { present.new ≡ record present.old
            { state = forth present.old.names present.old.state self.old.entries } }
        ensures entries { self.new ≡ record self.old
            { entries = forth_taken present.old.names present.old.state self.old.entries } }
    {
        let entries = mem::replace(&mut self.entries, BatchEntries::NoValue(0));
        self.entries = match alone_in(entries) {
            Ok(entry) => swapped(present, entry),
            Err(mut entries) => {
                present.go_forth(&mut entries);
                BatchEntries::Several(entries)
            }
        };
    }

    /// The names of the globals of its entries are needed. Where memory was refused what was needed still is.
    #[tactic(auto, unfolding(crate::specs::Exchange::IsReady, crate::specs::Renumbered::IsNeeded))]
    pub fn need<E: External>(
        &self,
        renumbering: &mut Renumbering,
        present: &Present<E>,
    ) -> Result<(), AllocError>
        requires ready { AreReady (shape_of present.now) self.now.entries }
        requires of { IsOf present.now.names renumbering.old }
        ensures of { IsOf present.now.names renumbering.new }
        ensures needed { OnOk result (AreNeeded renumbering.new self.now.entries) }
        ensures more { IsMore renumbering.old renumbering.new }
    {
        match &self.entries {
            BatchEntries::Value(i, _) => present.need_global(renumbering, *i as usize),
            BatchEntries::NoValue(i) => present.need_global(renumbering, *i as usize),
            BatchEntries::Several(entries) => need_each(renumbering, present, entries),
            BatchEntries::Current(_)
            | BatchEntries::FieldText(_, _, _)
            | BatchEntries::NoFieldText(_, _)
            | BatchEntries::Hilite(_, _, _) => Ok(()),
        }
    }

    /// Its entries get the new numbers of their globals' names.
    #[tactic(auto, unfolding(crate::specs::Renumbered::IsNeeded, crate::specs::Renumbered::renumbered))]
    pub fn renumber(&mut self, renumbering: &Renumbering)
        requires { AreNeeded renumbering.now self.old.entries }
        ensures { self.new ≡ batch_renumbered renumbering.now self.old }
    {
        match &mut self.entries {
            BatchEntries::Value(i, _) => *i = renumbering.number(*i as usize),
            BatchEntries::NoValue(i) => *i = renumbering.number(*i as usize),
            BatchEntries::Several(entries) => renumber_each(entries, renumbering),
            BatchEntries::Current(_)
            | BatchEntries::FieldText(_, _, _)
            | BatchEntries::NoFieldText(_, _)
            | BatchEntries::Hilite(_, _, _) => {}
        }
    }

    /// Adds the cards whose texts and hilites its entries exchange. Where memory was refused what was there is there.
    #[tactic(auto, unfolding(crate::specs::Cards::IsAmong, stack_places::specs::Exchange::card_of))]
    pub fn add_cards(&self, cards: &mut BTreeSet<Id>) -> Result<(), AllocError>
        ensures among { OnOk result (AreAmong cards.new self.now.entries) }
        ensures more { HasAll cards.old cards.new }
    {
        match &self.entries {
            BatchEntries::FieldText(_, card, _) => add_card(cards, *card)?,
            BatchEntries::NoFieldText(_, card) => add_card(cards, *card)?,
            BatchEntries::Hilite(_, card, _) => add_card(cards, *card)?,
            BatchEntries::Several(entries) => add_each_card(cards, entries)?,
            BatchEntries::Value(_, _) | BatchEntries::NoValue(_) | BatchEntries::Current(_) => {}
        }
        Ok(())
    }
}

/// The entries as a batch keeps them. A list gives back what it doesn't fill, or stays as it is where the smaller block
/// is refused.
fn batch_entries(mut entries: Vec<Entry>) -> BatchEntries
    ensures { entries_in result ≡ entries.items }
{
    entries.shrink_to_fit();
    if !is_alone(&entries) {
        return BatchEntries::Several(entries);
    }
    match entries.pop() {
        Some(entry) => alone(entry),
        None => unreachable!(),
    }
}

/// Whether these are one entry, which needs no list.
fn is_alone(entries: &[Entry]) -> bool
    ensures { result ≡ needs_no_list entries.now }
{
    match entries {
        [Entry::Global(i, _)] => *i <= u32::MAX as usize,
        [Entry::Current(_)] => true,
        [Entry::Stack(entry)] => matches!(
            entry,
            StackEntry::FieldText(_, _, _) | StackEntry::Hilite(_, _, _)
        ),
        _ => false,
    }
}

/// An entry that needs no list, as a batch keeps it.
fn alone(entry: Entry) -> BatchEntries
    requires { needs_no_list (entry ∷ []) ≡ true }
    ensures { entries_in result ≡ entry ∷ [] }
{
    match entry {
        Entry::Global(i, Some(value)) => BatchEntries::Value(i as u32, value),
        Entry::Global(i, None) => BatchEntries::NoValue(i as u32),
        Entry::Current(card) => BatchEntries::Current(card),
        Entry::Stack(StackEntry::FieldText(field, card, Some(text))) => {
            BatchEntries::FieldText(field, card, text)
        }
        Entry::Stack(StackEntry::FieldText(field, card, None)) => {
            BatchEntries::NoFieldText(field, card)
        }
        Entry::Stack(StackEntry::Hilite(button, card, hilite)) => {
            BatchEntries::Hilite(button, card, hilite)
        }
        _ => unreachable!(),
    }
}

/// The entry that a batch holds without a list; else the list.
fn alone_in(entries: BatchEntries) -> Result<Entry, Vec<Entry>>
    ensures entry { IfOk result (λ e. entries_in entries ≡ e ∷ []) }
    ensures alone { IfOk result (λ e. needs_no_list (e ∷ []) ≡ true) }
    ensures list { IfErr result (λ list. entries_in entries ≡ list.items) }
{
    match entries {
        BatchEntries::Value(i, value) => Ok(Entry::Global(i as usize, Some(value))),
        BatchEntries::NoValue(i) => Ok(Entry::Global(i as usize, None)),
        BatchEntries::Current(card) => Ok(Entry::Current(card)),
        BatchEntries::FieldText(field, card, text) => {
            Ok(Entry::Stack(StackEntry::FieldText(field, card, Some(text))))
        }
        BatchEntries::NoFieldText(field, card) => {
            Ok(Entry::Stack(StackEntry::FieldText(field, card, None)))
        }
        BatchEntries::Hilite(button, card, hilite) => {
            Ok(Entry::Stack(StackEntry::Hilite(button, card, hilite)))
        }
        BatchEntries::Several(entries) => Err(entries),
    }
}

/// An entry that needs no list after its exchange.
#[tactic(auto, using(crate::proofs::Alone::stays_alone))]
fn swapped<E: External>(present: &mut Present<E>, entry: Entry) -> BatchEntries
    requires alone { needs_no_list (entry ∷ []) ≡ true }
    requires ready { IsReady (shape_of present.old) entry }
    ensures state { present.new ≡ record present.old
        { state = exchanged present.old.names present.old.state entry } }
    ensures entry { entries_in result ≡ taken present.old.names present.old.state entry ∷ [] }
{
    let mut entry = entry;
    present.exchange(&mut entry);
    alone(entry)
}
