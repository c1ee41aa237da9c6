//! The world: one present state, and the batches that lead back and forth from it.

ghost use Rattle.std.specs.Prelude.{◌≡◌, ◌<◌, ◌≤◌, [], ◌∷◌, ◌++◌, length, true, IsErr, Some, None};
ghost use Rattle.std.specs.Prelude.{IsSome, IfSome, IfOk, IfErr, OnErr, OnOk, is_ok, map, option_map};
ghost use Rattle.std.specs.Prelude.{option_copied, slice_index_or, slice_get};
ghost use Rattle.std.specs.FinMap as finite;
ghost use Rattle.ht_values.specs.Text.{numeral};
ghost use Rattle.ht_values.specs.declared.text.TheConstants.{LIMIT};
ghost use Rattle.ht_grammar.specs.Reads.{Reads, ReadsScript};
ghost use Rattle.ht_tree.specs.ScriptView.{script_of};
ghost use Rattle.object_table.specs.WellFormed.{IsWellFormed};
ghost use Rattle.object_table.specs.Objects.{has_kind, is_card};
ghost use Rattle.journal_entries.specs.State.{seen_by, seen_at, first_state, titles_of, has_name, index_of};
ghost use Rattle.journal_entries.specs.State.{are_apart as apart_titles};
ghost use Rattle.journal_entries.specs.Named.{listed, numbered, Lists};
ghost use Rattle.journal_entries.specs.Changes.{fits};
ghost use Rattle.journal_entries.specs.ScriptTrees.{object_script};
ghost use Rattle.journal_entries.specs.declared.change.Change.TheVariants as made_change;
ghost use Rattle.journal_entries.specs.Trails.{IsOnce, IsShort, different, places_in};
ghost use Rattle.change_journal.specs.History.{IsHistory, alone, begun, committed, rolled_back, flipped_back};
ghost use Rattle.change_journal.specs.History.{flipped_forth, plugged, unplugged, stamp_at, FollowTable};
ghost use Rattle.std.specs.VecDeque.{deque_len, deque_capacity};
ghost use Rattle.journal_entries.specs.Exchange.{shape_of};
ghost use Rattle.journal_entries.specs.Renumbered.{IsOf, HasValued};
ghost use Rattle.change_journal.specs.Batches.{newest, oldest_of, AllReady, AllNeeded, AllAmong};
ghost use Rattle.change_journal.specs.Batches.{batches_renumbered};
ghost use Rattle.change_journal.specs.Rising.{Made, TookTurn};
ghost use Rattle.change_journal.specs.declared.world.TheConstants.{MOST_DEPTH};

use crate::fault::{PlugError, WorldError};
use externals::{Ask, External, HasTable, Input, law_of_ask, law_of_external};
use ht_tree::Script;
use ht_values::{Text, text_of};
use journal_entries::{
    Batch, Change, OpenBatch, Present, Renumbering, are_apart, law_of_externals, law_of_global,
    law_of_texts,
};
use object_table::{Id, Stack};
use std::alloc::{AllocError, Global};
use std::collections::{BTreeSet, VecDeque};
use std::marker::Model;
use std::rc::Rc;

/// The most states that can stand before the present one.
pub const MOST_DEPTH: u32 = 1_000_000;

// Clauses name this constant and not its value, so the value is proved here.
const _: () = prove!(MOST_DEPTH == 1_000_000);

/// The room for as many batches is never given back, so that a short history isn't moved again and again.
const FEW_BATCHES: usize = 1_000;

/// The present state of a stack, its globals, its current card and its externals, with the history of states
/// round it. Nothing else writes: a change or a turn of an external is made in an open batch, which `commit`
/// makes a state of the history and `roll_back` gives up.
///
/// `roll_back`, the flips, `unplug` and the readers take no memory, and `commit` needs none.
pub struct World<E: External> {
    present: Present<E>,
    batches: VecDeque<Batch>,
    cursor: usize,
    open: Option<OpenBatch>,
    oldest: u32,
    depth: u32,
    alloc: Global,
}

/// Written here and not derived, so that no crate above proves anew how it is dropped.
impl<E: External> Drop for World<E> {
    fn drop(self) {
        let World {
            present: _,
            batches: _,
            cursor: _,
            open: _,
            oldest: _,
            depth: _,
            alloc: _,
        } = self;
    }
}

impl<E: External> Model for World<E> {
    ghost use Rattle.std.specs.VecDeque.{deque_capacity};
    ghost use Rattle.change_journal.specs.History.{WorldView, coded_world_view};
    ghost use Rattle.change_journal.specs.Batches.{history_of, IsSound};

    ghost Value = { WorldView };

    ghost coded = { coded_world_view };

    ghost view = { λ w. record {
      history = history_of
          (record {
            present = w.present;
            oldest = w.oldest;
            depth = w.depth;
            batches = w.batches.items;
            cursor =
                w.cursor;
          }) w.«open»;
      names = w.present.names;
    } };

    ghost invariant = { λ w. IsSound
        (record {
          present = w.present;
          oldest = w.oldest;
          depth = w.depth;
          batches = w.batches.items;
          cursor = w.cursor;
        }) (deque_capacity w.batches) w.«open» };
}

impl<E: External> World<E> {
    /// A world of one state: the stack, no global, its first card, and the externals with their cells of now.
    /// At most `depth` states, from 1 to 1,000,000, will stand before the present one. `DuplicateName` where two
    /// externals have names that are the same; then the stack and the externals come back. It takes no memory.
    pub fn open(
        alloc: Global,
        stack: Stack,
        externals: Vec<E>,
        depth: u32,
    ) -> Result<World<E>, (WorldError, Stack, Vec<E>)>
        requires low { 1 ≤ depth }
        requires high { depth ≤ MOST_DEPTH }
        requires stack { IsWellFormed stack.content }
        ensures apart { is_ok result ≡ apart_titles (map E.title externals.items) }
        ensures ok { IfOk result (λ w. w.history ≡ alone
            (first_state stack.content (map (seen_by E.title E.sort E.answers_calls E.cells) externals.items)) 0 depth
            (map E.log externals.items)) }
        ensures err { IfErr result (λ e. (e.0 ≡ WorldError.DuplicateName) × (e.1 ≡ stack)
            × (e.2.items ≡ externals.items)) }
    {
        if !are_apart(&externals) {
            return Err((WorldError::DuplicateName, stack, externals));
        }
        law_of_externals(&externals);
        let first = stack.card_at(1).unwrap_or(0);
        Ok(World {
            present: Present::new(alloc, stack, first, externals),
            batches: VecDeque::new(alloc),
            cursor: 0,
            open: None,
            oldest: 0,
            depth,
            alloc,
        })
    }

    /// The stack.
    pub fn stack(&self) -> &Stack
        ensures content { result.now.content ≡ self.now.history.now.stack }
        ensures well_formed { IsWellFormed result.now.content }
    {
        self.present.stack()
    }

    /// The tree of an object's script, if it is kept: that of the script of now. With it comes the number of the first
    /// reading of that script, as `script_reading` tells it.
    pub fn script_tree(&self, id: Id) -> Option<(u64, &Rc<Script>)>
        ensures { IfSome result (λ r. Reads ReadsScript (object_script self.now.history.now.stack id)
            (script_of r.1.now.value)) }
    {
        self.present.script_tree(id)
    }

    /// The number of the first reading of an object's script, if its tree was kept. It stays while the script does,
    /// also where the tree goes; no other script gets it. No clause says so, since the history has no readings.
    pub fn script_reading(&self, id: Id) -> Option<u64> {
        self.present.script_reading(id)
    }

    /// Keeps the tree of an object's script until that script changes, or until those that are kept after it take its
    /// room. It shows nowhere but in time.
    pub fn keep_script_tree(&mut self, id: Id, tree: Rc<Script>) -> Result<(), AllocError>
        requires { Reads ReadsScript (object_script self.old.history.now.stack id) (script_of tree.value) }
        ensures { self.new ≡ self.old }
    {
        self.present.keep_script_tree(id, tree)
    }

    /// The value of a global, by its folded name, if it has one.
    pub fn global(&self, name: &[u8]) -> Option<&Text>
        ensures { option_copied result ≡ finite.get self.now.history.now.globals name.now }
    {
        self.present.global(name)
    }

    /// The number whose numeral the value of a global is, by its folded name, where that is known without reading the
    /// value: that of the global to which `put_global_number` gave one last, until another global gets a value.
    pub fn known_number(&self, name: &[u8]) -> Option<i64>
        ensures { IfSome result (λ n. finite.get self.now.history.now.globals name.now ≡ Some (numeral n)) }
    {
        self.present.known_number(name)
    }

    /// How many globals have a value. `global_at` gives each of them once, in an order that isn't fixed.
    pub fn global_count(&self) -> usize
        ensures count { result ≡ length (listed self.now.names self.now.history.now.globals) }
        ensures each { Lists (listed self.now.names self.now.history.now.globals) self.now.history.now.globals }
    {
        self.present.global_count()
    }

    /// How many names of globals have numbers, with a value or without.
    /// `global_numbered` gives each global that has a value once, at the number of its name, in constant time.
    pub fn name_count(&self) -> usize
        ensures count { result ≡ length self.now.names }
        ensures each { Lists (listed self.now.names self.now.history.now.globals) self.now.history.now.globals }
    {
        self.present.name_count()
    }

    /// The global with a number, from 0: its name and its value, if it has one.
    pub fn global_numbered(&self, i: usize) -> Option<(&[u8], &Text)>
        requires { i < length self.now.names }
        ensures { option_map (λ p. (p.0.now, p.1.now)) result ≡ numbered self.now.names self.now.history.now.globals i }
    {
        self.present.global_numbered(i)
    }

    /// A global that has a value: its name and its value. They are counted from 0. It goes over the numbers of the
    /// names from the first one.
    pub fn global_at(&self, i: usize) -> (&[u8], &Text)
        requires { i < length (listed self.now.names self.now.history.now.globals) }
        ensures { slice_get (listed self.now.names self.now.history.now.globals) i ≡ Some (result.0.now, result.1.now) }
    {
        self.present.global_at(i)
    }

    /// The id of the card that is current.
    pub fn current(&self) -> u32
        ensures value { result ≡ self.now.history.now.current }
        ensures card { has_kind is_card self.now.history.now.stack result ≡ true }
    {
        self.present.current()
    }

    /// How many externals there are.
    pub fn external_count(&self) -> usize
        ensures { result ≡ length self.now.history.now.externals }
    {
        self.present.external_count()
    }

    /// The i-th external in the order of plugging, from 0.
    pub fn external(&self, i: usize) -> &E
        requires { i < length self.now.history.now.externals }
        ensures seen { seen_by E.title E.sort E.answers_calls E.cells result.now ≡ seen_at self.now.history.now i }
        ensures log { E.log result.now ≡ slice_index_or self.now.history.logs i [] }
    {
        self.present.external(i)
    }

    /// How many states stand before the cursor.
    pub fn undoable(&self) -> usize
        ensures count { result ≡ length self.now.history.past }
        ensures few { result ≤ self.now.history.depth }
    {
        let World { cursor, .. } = self;
        *cursor
    }

    /// How many states stand after the cursor.
    pub fn redoable(&self) -> usize
        ensures { result ≡ length self.now.history.future }
    {
        self.batches.len() - self.cursor
    }

    /// The number of the line that added the state i before the cursor; 0 is the state at the cursor.
    pub fn stamp(&self, i: usize) -> u32
        requires { i ≤ length self.now.history.past }
        ensures { result ≡ stamp_at self.now.history i }
    {
        if i < self.cursor {
            self.batches[self.cursor - 1 - i].number()
        } else {
            self.oldest
        }
    }

    /// Whether a change fits: a global goes by its folded name, a text, a hilite and a property are there already,
    /// what becomes current is a card, ids go up to 1,000,000 and objects to 10,000, a new part's layer is there, and
    /// a card goes where there is a second one.
    pub fn fits(&self, change: &Change) -> bool
        ensures { result ≡ fits self.now.history.now change.now }
    {
        self.present.fits(change)
    }

    /// Opens a batch for the line of this number, and takes the memory that `commit` needs. Where it was refused
    /// nothing changes.
    pub fn begin(&mut self, number: u32) -> Result<(), AllocError>
        requires { self.old.history.start ≡ None }
        ensures ok { OnOk result (self.new.history ≡ begun self.old.history number) }
        ensures err { OnErr result (self.new.history ≡ self.old.history) }
    {
        self.batches.reserve(1)?;
        self.open = Some(OpenBatch::new(self.alloc, number));
        Ok(())
    }

    /// Makes a change. Where memory was refused nothing changes, and the change is dropped.
    pub fn make(&mut self, change: Change) -> Result<(), AllocError>
        requires open { IsSome self.old.history.start }
        requires fits { fits self.old.history.now change ≡ true }
        ensures ok { OnOk result (Made self.old.history self.new.history change) }
        ensures err { OnErr result (self.new.history ≡ self.old.history) }
    {
        law_of_texts(&change);
        match &mut self.open {
            Some(batch) => batch.make(&mut self.present, self.alloc, change),
            None => unreachable!(),
        }
    }

    /// Gives a global a value, or none, by its folded name of at most 30,000 bytes, as its change does. Where the name
    /// was met before, it takes no memory but that of an entry. Where memory was refused nothing changes, and the value
    /// is dropped.
    pub fn put_global(&mut self, name: &[u8], value: Option<Text>) -> Result<(), AllocError>
        requires open { IsSome self.old.history.start }
        requires short { length name.now ≤ LIMIT }
        requires fits { fits self.old.history.now (made_change.Global name.now value) ≡ true }
        ensures ok { OnOk result (Made self.old.history self.new.history (made_change.Global name.now value)) }
        ensures err { OnErr result (self.new.history ≡ self.old.history) }
    {
        self.put(name, value, None)
    }

    /// Gives a global the numeral of a number, by its folded name of at most 30,000 bytes, as its change does. Where
    /// memory was refused nothing changes.
    pub fn put_global_number(&mut self, name: &[u8], number: i64) -> Result<(), AllocError>
        requires open { IsSome self.old.history.start }
        requires short { length name.now ≤ LIMIT }
        requires fits { fits self.old.history.now (made_change.Global name.now (Some (numeral number))) ≡ true }
        ensures ok { OnOk result (Made self.old.history self.new.history
            (made_change.Global name.now (Some (numeral number)))) }
        ensures err { OnErr result (self.new.history ≡ self.old.history) }
    {
        let value = text_of(self.alloc, number)?;
        self.put(name, Some(value), Some(number))
    }

    /// Gives a global a value, or none. Where a number is handed over, the value is its numeral.
    fn put(
        &mut self,
        name: &[u8],
        value: Option<Text>,
        number: Option<i64>,
    ) -> Result<(), AllocError>
        requires open { IsSome self.old.history.start }
        requires short { length name.now ≤ LIMIT }
        requires fits { fits self.old.history.now (made_change.Global name.now value) ≡ true }
        requires known { IfSome number (λ n. value ≡ Some (numeral n)) }
        ensures ok { OnOk result (Made self.old.history self.new.history (made_change.Global name.now value)) }
        ensures err { OnErr result (self.new.history ≡ self.old.history) }
    {
        law_of_global(name, &value);
        match &mut self.open {
            Some(batch) => batch.put_global(&mut self.present, name, value, number),
            None => unreachable!(),
        }
    }

    /// Gives the i-th external one turn, which its log has then at its end. Where memory was refused nothing changes.
    pub fn turn_external(&mut self, i: usize, input: &Input) -> Result<Ask, AllocError>
        requires open { IsSome self.old.history.start }
        requires there { i < length self.old.history.now.externals }
        ensures ok { IfOk result (λ ask. TookTurn self.old.history self.new.history i input.now ask) }
        ensures err { OnErr result (self.new.history ≡ self.old.history) }
    {
        let ask = match &mut self.open {
            Some(batch) => batch.turn(&mut self.present, i, self.alloc, input)?,
            None => unreachable!(),
        };
        law_of_external(self.present.external(i));
        law_of_ask(&ask);
        Ok(ask)
    }

    /// The open batch leads back from a new state of the history, what stood after the cursor goes, and so does
    /// the oldest state where more than `depth` would stand before it. The batch has each place once between two
    /// entries that make or remove an object, before the first and after the last. So with s of these and t of turns it
    /// holds at most t + s + (s + 1) * p entries, where p is how many different places they have.
    pub fn commit(&mut self)
        requires { IsSome self.old.history.start }
        ensures history { self.new.history ≡ committed self.old.history }
        ensures once { IfSome self.old.history.start (λ o. IsOnce o.trail) }
        ensures short { IfSome self.old.history.start (λ o. IsShort o.trail (different (places_in o.trail))) }
    {
        let count = self.batches.len();
        self.close_batch();
        self.forget_names();
        // Room is needed as long as no batch went.
        if self.batches.len() <= count {
            self.forget_room();
        }
    }

    /// The open batch leads back from a new state of the history.
    fn close_batch(&mut self)
        requires { IsSome self.old.history.start }
        ensures history { self.new.history ≡ committed self.old.history }
        ensures once { IfSome self.old.history.start (λ o. IsOnce o.trail) }
        ensures short { IfSome self.old.history.start (λ o. IsShort o.trail (different (places_in o.trail))) }
    {
        if let Some(batch) = self.open.take() {
            let batch = batch.close();
            self.batches.truncate(self.cursor);
            self.oldest = keep(&mut self.batches, self.oldest, self.depth, batch);
            self.cursor = self.batches.len();
        }
    }

    /// Names of globals that no state of the history needs go, where there may be many. If memory for that is refused
    /// they stay until the next time.
    fn forget_names(&mut self)
        requires { self.old.history.start ≡ None }
        ensures { self.new.history ≡ self.old.history }
    {
        if !self.present.has_many_names() {
            return;
        }
        match needed_names(&self.present, &self.batches, self.alloc) {
            Ok(renumbering) => {
                renumber_each(&mut self.batches, &renumbering);
                self.present.renumber(renumbering);
            }
            Err(_) => {}
        }
    }

    /// The room for texts and hilites of cards that no state of the history has goes, where there may be much. If
    /// memory for that is refused it stays until the next time.
    fn forget_room(&mut self)
        requires { self.old.history.start ≡ None }
        ensures { self.new.history ≡ self.old.history }
    {
        if !self.present.has_much_room() {
            return;
        }
        match exchanged_cards(&self.batches, self.alloc) {
            Ok(cards) => self.present.close_others(&cards),
            Err(_) => {}
        }
    }

    /// The open batch is given up: the state at its beginning is the present one again.
    pub fn roll_back(&mut self)
        requires { IsSome self.old.history.start }
        ensures { self.new.history ≡ rolled_back self.old.history }
    {
        if let Some(batch) = self.open.take() {
            batch.give_up(&mut self.present);
        }
    }

    /// Moves the cursor to the state before. No script runs and no external takes a turn.
    pub fn flip_back(&mut self)
        requires closed { self.old.history.start ≡ None }
        requires there { 0 < length self.old.history.past }
        ensures { self.new.history ≡ flipped_back self.old.history }
    {
        self.cursor -= 1;
        self.batches[self.cursor].go_back(&mut self.present);
    }

    /// Moves the cursor to the state after. No script runs and no external takes a turn.
    pub fn flip_forth(&mut self)
        requires closed { self.old.history.start ≡ None }
        requires there { 0 < length self.old.history.future }
        ensures { self.new.history ≡ flipped_forth self.old.history }
    {
        self.batches[self.cursor].go_forth(&mut self.present);
        self.cursor += 1;
    }

    /// Adds an external, with its cells of now, to every state of the history. `DuplicateName` where another has
    /// a name that is the same, `Memory` where it is out of memory; either hands the external back, and then nothing
    /// changes.
    pub fn plug(&mut self, external: E) -> Result<(), (PlugError, E)>
        requires { self.old.history.start ≡ None }
        ensures ok { OnOk result (self.new.history
            ≡ plugged self.old.history (seen_by E.title E.sort E.answers_calls E.cells external)
            (E.log external)) }
        ensures err { IfErr result (λ e. (e.1 ≡ external) × (self.new.history ≡ self.old.history)) }
        ensures duplicate { IfErr result
            (λ e. e.0 ≡ PlugError.DuplicateName
            → has_name (E.title external) (titles_of self.old.history.now.externals) ≡ true) }
        ensures apart { has_name (E.title external) (titles_of self.old.history.now.externals) ≡ true
            → IfErr result (λ e. e.0 ≡ PlugError.DuplicateName) × IsErr result }
    {
        if self.present.has_external(external.name()) {
            return Err((PlugError::DuplicateName, external));
        }
        law_of_external(&external);
        match self.present.plug(external) {
            Ok(()) => {}
            Err(external) => return Err((PlugError::Memory, external)),
        }
        Ok(())
    }

    /// Takes out the external whose name is the same, and hands it out as it is: it takes no turn. The history is
    /// then the present state alone, which keeps its number. Where no external has the name nothing changes.
    pub fn unplug(&mut self, name: &Text) -> Option<E>
        requires { self.old.history.start ≡ None }
        ensures history { self.new.history ≡ unplugged name.now self.old.history }
        ensures external { option_map (seen_by E.title E.sort E.answers_calls E.cells) result
            ≡ option_map (seen_at self.old.history.now) (index_of name.now (titles_of self.old.history.now.externals)) }
        ensures log { option_map E.log result
            ≡ option_map (λ i. slice_index_or self.old.history.logs i [])
            (index_of name.now (titles_of self.old.history.now.externals)) }
    {
        let i = self.present.external_number(name)?;
        self.oldest = self.stamp(0);
        self.batches.clear();
        self.batches.shrink_to_fit();
        self.cursor = 0;
        Some(self.present.unplug(i))
    }

    /// What holds of every state of the history, at any time. It does nothing.
    pub fn law_of_states(&self)
        ensures { IsHistory self.now.history }
    {
        let _ = &self.present;
    }

    /// Each external has a log, at any time. It does nothing.
    pub fn law_of_logs(&self)
        ensures { length self.now.history.logs ≡ length self.now.history.now.externals }
    {
        self.present.law_of_logs();
    }

    /// The externals in the order of plugging, with their cells of now.
    pub fn close(self) -> Vec<E>
        ensures seen { map (seen_by E.title E.sort E.answers_calls E.cells) result.items ≡ self.history.now.externals }
        ensures logs { map E.log result.items ≡ self.history.logs }
    {
        let World {
            present,
            batches: _,
            cursor: _,
            open: _,
            oldest: _,
            depth: _,
            alloc: _,
        } = self;
        present.into_externals()
    }
}

impl<E: HasTable> World<E> {
    /// Each turn of a log is the one that the table of the externals' type has, where it has one, at any time. It does
    /// nothing.
    pub fn law_of_table(&self)
        ensures { FollowTable E.turn_table self.now.history }
    {
        self.present.law_of_table();
    }
}

/// New numbers for the names of globals that have a value or that these batches exchange.
fn needed_names<E: External>(
    present: &Present<E>,
    batches: &VecDeque<Batch>,
    alloc: Global,
) -> Result<Renumbering, AllocError>
    requires { AllReady (shape_of present.now) batches.now.items }
    ensures of { IfOk result (λ r. IsOf present.now.names r) }
    ensures valued { IfOk result (λ r. HasValued present.now.names present.now.state.globals r) }
    ensures needed { IfOk result (λ r. AllNeeded r batches.now.items) }
{
    let mut renumbering = present.renumbering(alloc)?;
    for i in 0..batches.len() {
        batches[i].need(&mut renumbering, present)?;
    }
    Ok(renumbering)
}

/// The cards, and 0 for what is shared, whose texts and hilites these batches exchange.
fn exchanged_cards(batches: &VecDeque<Batch>, alloc: Global) -> Result<BTreeSet<Id>, AllocError>
    ensures { IfOk result (λ cards. AllAmong cards batches.now.items) }
{
    let mut cards = BTreeSet::new(alloc);
    for i in 0..batches.len() {
        batches[i].add_cards(&mut cards)?;
    }
    Ok(cards)
}

/// The batches get the new numbers of their globals' names.
fn renumber_each(batches: &mut VecDeque<Batch>, renumbering: &Renumbering)
    requires { AllNeeded renumbering.now batches.old.items }
    ensures { batches.new.items ≡ batches_renumbered renumbering.now batches.old.items }
{
    for i in 0..batches.len() {
        batches[i].renumber(renumbering);
    }
}

/// Adds a batch, the newest, and drops the oldest one where there are then more than `depth`. The number of the
/// oldest state that can still be gone back to comes out, where `oldest` was it before.
fn keep(batches: &mut VecDeque<Batch>, oldest: u32, depth: u32, batch: Batch) -> u32
    requires { deque_len batches.old < deque_capacity batches.old }
    ensures batches { batches.new.items ≡ newest depth (batches.old.items ++ batch ∷ []) }
    ensures oldest { result ≡ oldest_of depth oldest (batches.old.items ++ batch ∷ []) }
{
    batches.push_back_reserved(batch);
    give_back(batches);
    if batches.len() <= depth as usize {
        return oldest;
    }
    match batches.pop_front() {
        Some(first) => first.number(),
        None => unreachable!(),
    }
}

/// Gives back most of the room where many batches went and less than a quarter of it is filled.
fn give_back(batches: &mut VecDeque<Batch>)
    ensures items { batches.new.items ≡ batches.old.items }
    ensures len { deque_len batches.new ≡ deque_len batches.old }
{
    if batches.capacity() > FEW_BATCHES && batches.len() < batches.capacity() / 4 {
        batches.shrink_to(batches.len().saturating_mul(2));
    }
}
