//! The batch of the line that runs.

ghost use Rattle.std.specs.Prelude.{◌≡◌, ℕ, ◌<◌, ◌≤◌, ◌+◌, max, vec_len, vec_capacity, true, false, List, [], ◌∷◌};
ghost use Rattle.std.specs.Prelude.{◌++◌, length, IfOk, IfSome, OnErr, OnOk, Option, Some};
ghost use Rattle.ht_values.specs.Text.{numeral};
ghost use Rattle.externals.specs.Cells.{IsPatch, Changes};
ghost use Rattle.journal_entries.specs.State.{IsState, seen_at};
ghost use Rattle.journal_entries.specs.Changes.{fits};
ghost use Rattle.journal_entries.specs.declared.change.Change.TheVariants as made_change;
ghost use Rattle.journal_entries.specs.Changing.{Makes, holds_one, kept, kept_in_turn, kept_turn};
ghost use Rattle.journal_entries.specs.Indexed.{IsIndexed, is_held as is_held_in};
ghost use Rattle.journal_entries.specs.Keys.{key_of as key_of_entry};
ghost use Rattle.journal_entries.specs.PlaceSets.{has_place, IsBounded};
ghost use Rattle.journal_entries.specs.declared.place_key.PlaceKey.{PlaceKey};
ghost use Rattle.journal_entries.specs.Turning.{Grows, Turns, logs_after};
ghost use Rattle.journal_entries.specs.Exchange.{back, forth, exchanged, of_one_place, taken, shape_of, AreReady};
ghost use Rattle.journal_entries.specs.Exchange.{IsReady};

use crate::batch::Batch;
use crate::change::Change;
use crate::entry::{Entry, Prepared, is_structural_entry};
use crate::place_key::key_of;
use crate::place_set::PlaceSet;
use crate::present::Present;
use externals::{Ask, External, Input, Patch};
use ht_values::Text;
use std::alloc::{AllocError, Global};
use std::marker::Model;

/// A batch that grows. Beside its entries stands the set of the places that the segment since the latest structural
/// entry has, so that it is known at once whether it has an entry of a place.
pub struct OpenBatch {
    number: u32,
    entries: Vec<Entry>,
    places: PlaceSet,
}

/// Written here and not derived, so that no crate above proves anew how it is dropped.
impl Drop for OpenBatch {
    fn drop(self) {
        let OpenBatch {
            number: _,
            entries: _,
            places: _,
        } = self;
    }
}

impl Model for OpenBatch {
    ghost use Rattle.journal_entries.specs.Exchange.{BatchView};
    ghost use Rattle.journal_entries.specs.Indexed.{IsIndexed};

    ghost Value = { BatchView };

    ghost view = { λ b. record { number = b.number; entries = b.entries.items } };

    ghost invariant = { λ b. IsIndexed b.entries.items b.places };
}

impl OpenBatch {
    /// A batch of no entry. It takes no memory.
    pub fn new(alloc: Global, number: u32) -> OpenBatch
        ensures { result ≡ record { number = number; entries = [] } }
    {
        OpenBatch {
            number,
            entries: Vec::new(alloc),
            places: PlaceSet::new(alloc),
        }
    }

    /// The number of its line.
    pub fn number(&self) -> u32
        ensures { result ≡ self.now.number }
    {
        self.number
    }

    /// The batch, which grows no more. It gives back what it doesn't fill, and needs no memory for that.
    pub fn close(self) -> Batch
        ensures { result ≡ self }
    {
        let OpenBatch {
            number,
            entries,
            places: _,
        } = self;
        Batch::of(number, entries)
    }

    /// Goes back over all entries, from the last to the first. It takes no memory.
    pub fn give_up<E: External>(self, present: &mut Present<E>)
        requires { AreReady (shape_of present.old) self.entries }
        ensures { present.new ≡ record present.old { state = back present.old.names present.old.state self.entries } }
    {
        let OpenBatch {
            number: _,
            mut entries,
            places: _,
        } = self;
        present.go_back(&mut entries);
    }

    /// Makes an exchange and keeps what comes out, unless the place has its entry already.
    fn write<E: External>(
        &mut self,
        present: &mut Present<E>,
        entry: Entry,
    ) -> Result<(), AllocError>
        requires { IsReady (shape_of present.old) entry }
        ensures state { OnOk result (present.new ≡ record present.old
            { state = exchanged present.old.names present.old.state entry }) }
        ensures entries { OnOk result (self.new ≡ record self.old
            { entries = kept self.old.entries entry (taken present.old.names present.old.state entry) }) }
        ensures state_err { OnErr result (present.new ≡ present.old) }
        ensures entries_err { OnErr result (self.new ≡ self.old) }
    {
        match make_room(&mut self.entries, &mut self.places, &entry) {
            Ok(held) => {
                write_reserved(&mut self.entries, &mut self.places, present, entry, held);
                Ok(())
            }
            Err(refused) => {
                drop(entry);
                Err(refused)
            }
        }
    }

    /// Makes exchanges, from the first to the last, and keeps of what comes out what the places have no entry for. They
    /// are made where the entries stand, which then go over to the batch together. These make or remove an object, after
    /// which no place waits, and few come before that: so what waits needn't be sorted.
    fn write_each<E: External>(
        &mut self,
        present: &mut Present<E>,
        mut entries: Vec<Entry>,
    ) -> Result<(), AllocError>
        requires { AreReady (shape_of present.old) entries.items }
        ensures state { OnOk result (present.new ≡ record present.old
            { state = forth present.old.names present.old.state entries.items }) }
        ensures entries { OnOk result (self.new ≡ record self.old
            { entries = kept_in_turn present.old.names present.old.state self.old.entries entries.items }) }
        ensures state_err { OnErr result (present.new ≡ present.old) }
        ensures entries_err { OnErr result (self.new ≡ self.old) }
    {
        reserve(&mut self.entries, entries.len())?;
        self.places.reserve(entries.len())?;
        exchange_each(&self.entries, &mut self.places, present, &mut entries);
        add_reserved(&mut self.entries, entries);
        Ok(())
    }

    /// Makes a change. It keeps what the change replaces, unless the place has its entry already.
    pub fn make<E: External>(
        &mut self,
        present: &mut Present<E>,
        alloc: Global,
        change: Change,
    ) -> Result<(), AllocError>
        requires state { IsState present.old.state }
        requires fits { fits present.old.state change ≡ true }
        ensures ok { OnOk result (Makes present.old present.new self.old self.new change) }
        ensures err { OnErr result (Grows present.old present.new × (self.new ≡ self.old)) }
    {
        match present.prepare(alloc, change)? {
            Prepared::One(entry) => self.write(present, entry),
            Prepared::Several(entries) => self.write_each(present, entries),
        }
    }

    /// Gives a global a value, or none, as its change does. Where a number is handed over, the value is its numeral.
    pub fn put_global<E: External>(
        &mut self,
        present: &mut Present<E>,
        name: &[u8],
        value: Option<Text>,
        number: Option<i64>,
    ) -> Result<(), AllocError>
        requires fits { fits present.old.state (made_change.Global name.now value) ≡ true }
        requires known { IfSome number (λ n. value ≡ Some (numeral n)) }
        ensures ok { OnOk result (Makes present.old present.new self.old self.new (made_change.Global name.now value)) }
        ensures err { OnErr result (Grows present.old present.new × (self.new ≡ self.old)) }
    {
        let i = present.number_global(name)?;
        let mut value = value;
        if is_last_global(&self.entries, i) {
            present.swap_global(i, &mut value, number);
            return Ok(());
        }
        self.write(present, Entry::Global(i, value))
    }

    /// Gives an external one turn and keeps its patch, if that names a cell. Where memory was refused nothing changes.
    pub fn turn<E: External>(
        &mut self,
        present: &mut Present<E>,
        i: usize,
        alloc: Global,
        input: &Input,
    ) -> Result<Ask, AllocError>
        requires { i < length present.old.state.externals }
        ensures turn { OnOk result (Turns present.old.state present.new.state i) }
        ensures entry { OnOk result ((p : Changes) × IsPatch (seen_at present.old.state i).cells
            (seen_at present.new.state i).cells p
            × (self.new ≡ record self.old { entries = kept_turn self.old.entries i p })) }
        ensures present { IfOk result (λ ask. present.new ≡ record present.old {
          state = present.new.state;
          logs = logs_after present.old.logs present.old.state present.new.state i input.now ask;
        }) }
        ensures err { OnErr result (self.new ≡ self.old) }
        ensures present_err { OnErr result (present.new ≡ present.old) }
    {
        reserve(&mut self.entries, 1)?;
        let (ask, patch) = present.turn(i, alloc, input)?;
        if patch.len() > 0 {
            keep_turn(&mut self.entries, &self.places, i, patch);
        }
        Ok(ask)
    }
}

/// Makes room for more entries. The first two times they get theirs exactly, since most batches have one entry or two.
fn reserve(entries: &mut Vec<Entry>, more: usize) -> Result<(), AllocError>
    ensures items { entries.new.items ≡ entries.old.items }
    ensures len { vec_len entries.new ≡ vec_len entries.old }
    ensures room { OnOk result (vec_len entries.old + more ≤ vec_capacity entries.new) }
    ensures exact { vec_len entries.old < 2
        → OnOk result (vec_capacity entries.new ≡ max (vec_capacity entries.old) (vec_len entries.old + more)) }
{
    if entries.len() < 2 {
        entries.reserve_exact(more)
    } else {
        entries.reserve(more)
    }
}

/// Makes room for an entry, unless its place has one already, which comes out.
fn make_room(
    entries: &mut Vec<Entry>,
    places: &mut PlaceSet,
    entry: &Entry,
) -> Result<bool, AllocError>
    requires indexed { IsIndexed entries.old.items places.old }
    ensures held { IfOk result (λ held. held ≡ holds_one entry.now entries.old.items) }
    ensures items { entries.new.items ≡ entries.old.items }
    ensures indexed { IsIndexed entries.new.items places.new }
    ensures place { IfOk result (λ held. held ≡ false → vec_len entries.new < vec_capacity entries.new) }
    ensures room { IfOk result (λ held. held ≡ false → vec_len places.new.waiting < vec_capacity places.new.waiting) }
{
    sort_for(places, entry)?;
    if is_found(places, entry) {
        return Ok(true);
    }
    reserve(entries, 1)?;
    places.reserve(1)?;
    Ok(false)
}

/// Sorts the places where else each would be looked at to find that of an entry.
fn sort_for(places: &mut PlaceSet, entry: &Entry) -> Result<(), AllocError>
    ensures has { (q : PlaceKey) → has_place places.new q ≡ has_place places.old q }
    ensures greatest { places.new.greatest ≡ places.old.greatest }
{
    match key_of(entry) {
        Some(key) => {
            if places.may_have(&key) {
                places.sort()?;
            }
        }
        None => {}
    }
    Ok(())
}

/// Whether the latest entry is of the numbered global, as it is where a loop changes one. Then it is exchanged alone.
fn is_last_global(entries: &[Entry], i: usize) -> bool
    ensures { result ≡ true → (v : Option (List ℕ)) → holds_one (Entry.Global i v) entries.now ≡ true }
{
    match entries.last() {
        Some(last) => is_of_global(last, i),
        None => false,
    }
}

/// Whether an entry is of the numbered global.
#[tactic(auto, unfolding(crate::specs::Exchange::of_one_place))]
fn is_of_global(entry: &Entry, i: usize) -> bool
    ensures { result ≡ true → (v : Option (List ℕ)) → of_one_place (Entry.Global i v) entry.now ≡ true }
{
    match entry {
        Entry::Global(j, _) => i == *j,
        _ => false,
    }
}

/// Whether the place of an entry is here, if it has one.
fn is_found(places: &PlaceSet, entry: &Entry) -> bool
    requires { IsBounded places.now }
    ensures { result ≡ is_held_in (has_place places.now) (key_of_entry entry.now) }
{
    match key_of(entry) {
        Some(key) => places.has(&key),
        None => false,
    }
}

/// Adds the place of an entry that stands behind others. There is room for it.
fn add_place(places: &mut PlaceSet, entry: &Entry)
    requires bounded { IsBounded places.old }
    requires room { vec_len places.old.waiting < vec_capacity places.old.waiting }
    ensures indexed { (es : List Entry) → IsIndexed es places.old → IsIndexed (es ++ entry.now ∷ []) places.new }
    ensures waiting { vec_len places.new.waiting ≤ vec_len places.old.waiting + 1 }
    ensures capacity { vec_capacity places.new.waiting ≡ vec_capacity places.old.waiting }
{
    match key_of(entry) {
        Some(key) => places.add(key),
        None => {
            if is_structural_entry(entry) {
                places.clear();
            }
        }
    }
}

/// Adds an entry. There is room for it.
fn keep(entries: &mut Vec<Entry>, places: &mut PlaceSet, entry: Entry)
    requires place { vec_len entries.old < vec_capacity entries.old }
    requires room { vec_len places.old.waiting < vec_capacity places.old.waiting }
    requires indexed { IsIndexed entries.old.items places.old }
    ensures items { entries.new.items ≡ entries.old.items ++ entry ∷ [] }
    ensures indexed { IsIndexed entries.new.items places.new }
    ensures len { vec_len entries.new ≡ vec_len entries.old + 1 }
    ensures capacity { vec_capacity entries.new ≡ vec_capacity entries.old }
    ensures waiting { vec_len places.new.waiting ≤ vec_len places.old.waiting + 1 }
    ensures room { vec_capacity places.new.waiting ≡ vec_capacity places.old.waiting }
{
    add_place(places, &entry);
    entries.push_reserved(entry);
}

/// Makes exchanges, from the first to the last, where the entries stand. Those go whose place has its entry among these
/// and those before them already. There is room for the places of all.
fn exchange_each<E: External>(
    before: &[Entry],
    places: &mut PlaceSet,
    present: &mut Present<E>,
    entries: &mut Vec<Entry>,
)
    requires ready { AreReady (shape_of present.old) entries.old.items }
    requires indexed { IsIndexed before.now places.old }
    requires room { vec_len places.old.waiting + length entries.old.items ≤ vec_capacity places.old.waiting }
    ensures state { present.new ≡ record present.old
        { state = forth present.old.names present.old.state entries.old.items } }
    ensures items { before.now ++ entries.new.items
        ≡ kept_in_turn present.old.names present.old.state before.now entries.old.items }
    ensures indexed { IsIndexed (before.now ++ entries.new.items) places.new }
    ensures few { length entries.new.items ≤ length entries.old.items }
{
    let _ = before;
    let mut i = 0;
    while i < entries.len() {
        let held = is_found(places, &entries[i]);
        present.exchange(&mut entries[i]);
        if held {
            drop(entries.remove(i));
        } else {
            add_place(places, &entries[i]);
            i += 1;
        }
    }
}

/// Adds entries. There is room for them.
fn add_reserved(entries: &mut Vec<Entry>, more: Vec<Entry>)
    requires { vec_len entries.old + length more.items ≤ vec_capacity entries.old }
    ensures { entries.new.items ≡ entries.old.items ++ more.items }
{
    let mut more = more;
    match entries.append(&mut more) {
        Ok(()) => {}
        Err(_) => unreachable!(),
    }
}

/// Makes an exchange and keeps what comes out, unless the place has its entry already. Where it has none, there is
/// room.
fn write_reserved<E: External>(
    entries: &mut Vec<Entry>,
    places: &mut PlaceSet,
    present: &mut Present<E>,
    mut entry: Entry,
    held: bool,
)
    requires ready { IsReady (shape_of present.old) entry }
    requires held { held ≡ holds_one entry entries.old.items }
    requires place { held ≡ false → vec_len entries.old < vec_capacity entries.old }
    requires room { held ≡ false → vec_len places.old.waiting < vec_capacity places.old.waiting }
    requires indexed { IsIndexed entries.old.items places.old }
    ensures state { present.new ≡ record present.old { state = exchanged present.old.names present.old.state entry } }
    ensures items { entries.new.items ≡ kept entries.old.items entry (taken present.old.names present.old.state entry) }
    ensures indexed { IsIndexed entries.new.items places.new }
    ensures len { vec_len entries.new ≤ vec_len entries.old + 1 }
    ensures capacity { vec_capacity entries.new ≡ vec_capacity entries.old }
    ensures waiting { vec_len places.new.waiting ≤ vec_len places.old.waiting + 1 }
    ensures room { vec_capacity places.new.waiting ≡ vec_capacity places.old.waiting }
{
    present.exchange(&mut entry);
    if held {
        return;
    }
    keep(entries, places, entry);
}

/// Adds the patch of an external's turn, which has no place.
fn keep_turn(entries: &mut Vec<Entry>, places: &PlaceSet, i: usize, patch: Patch)
    requires place { vec_len entries.old < vec_capacity entries.old }
    requires indexed { IsIndexed entries.old.items places.now }
    ensures items { entries.new.items ≡ entries.old.items ++ Entry.External i patch ∷ [] }
    ensures indexed { IsIndexed entries.new.items places.now }
{
    let _ = places;
    entries.push_reserved(Entry::External(i, patch));
}
