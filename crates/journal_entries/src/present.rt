//! The present state: the stack, the globals, the current card and the externals.

ghost use Rattle.std.specs.Prelude.{◌≡◌, ℕ, ◌<◌, ◌≤◌, List, [], ◌∷◌, ◌++◌, length, ◌+◌, true, take, drop, IfOk, IfErr};
ghost use Rattle.std.specs.Prelude.{IfSome, OnErr, OnOk, slice_index_or, option_copied, option_map, map, slice_get};
ghost use Rattle.std.specs.Prelude.{Option, Some, IsSome};
ghost use Rattle.std.specs.FinMap as finite;
ghost use Rattle.ht_grammar.specs.Reads.{Reads, ReadsScript};
ghost use Rattle.ht_tree.specs.ScriptView.{script_of};
ghost use Rattle.ht_values.specs.Text.{numeral};
ghost use Rattle.externals.specs.Cells.{IsPatch};
ghost use Rattle.externals.specs.Log.{Follows};
ghost use Rattle.object_table.specs.Table.{KeepsRoom};
ghost use Rattle.stack_places.specs.Exchange as places;
ghost use Rattle.journal_entries.specs.State.{IsState, seen_by, seen_at, titles_of, has_name as has_title};
ghost use Rattle.journal_entries.specs.State.{index_of as index_of_title};
ghost use Rattle.journal_entries.specs.Named.{listed, numbered, Lists};
ghost use Rattle.journal_entries.specs.ScriptTrees.{object_script};
ghost use Rattle.journal_entries.specs.declared.script_trees.TheConstants.{MOST_KEPT_BYTES};
ghost use Rattle.journal_entries.specs.Cards.{with_room};
ghost use Rattle.journal_entries.specs.Changes.{fits};
ghost use Rattle.journal_entries.specs.declared.change.Change.TheVariants as made_change;
ghost use Rattle.journal_entries.specs.Exchange.{exchanged, taken, back, back_taken, forth, forth_taken, shape_of};
ghost use Rattle.journal_entries.specs.Exchange.{IsReady, AreReady};
ghost use Rattle.journal_entries.specs.Renumbered.{IsOf, IsMore, HasValued, number_in};
ghost use Rattle.journal_entries.specs.Turning.{Grows, Prepares, Turns, entries_of, logs_after};

use crate::change::Change;
use crate::entry::{Entry, Prepared};
use crate::globals::Globals;
use crate::names::{has_name, index_of};
use crate::renumbering::Renumbering;
use crate::script_trees::ScriptTrees;
use externals::{Ask, External, HasTable, Input, Patch};
use ht_tree::Script;
use ht_values::{PartKind, Text};
use object_table::{FieldText, Id, LayerId, Stack};
use stack_places::StackEntry;
use std::alloc::{AllocError, Global};
use std::collections::BTreeSet;
use std::marker::Model;
use std::mem;
use std::rc::Rc;
use structural_changes::{
    fits_deletion, fits_new_part, following_card, has_room, is_card, prepare_deletion,
    prepare_new_background, prepare_new_card, prepare_new_part,
};

/// The present state, which contracts see beside the names of globals that have numbers and the externals'
/// logs. It keeps trees of scripts that were parsed, which no contract sees.
pub struct Present<E: External> {
    stack: Stack,
    trees: ScriptTrees,
    globals: Globals,
    current: u32,
    externals: Vec<E>,
}

/// Written here and not derived, so that no crate above proves anew how it is dropped.
impl<E: External> Drop for Present<E> {
    fn drop(self) {
        let Present {
            stack: _,
            trees: _,
            globals: _,
            current: _,
            externals: _,
        } = self;
    }
}

impl<E: External> Model for Present<E> {
    ghost use Rattle.std.specs.Prelude.{map};
    ghost use Rattle.journal_entries.specs.State.{seen_by};
    ghost use Rattle.journal_entries.specs.Exchange.{PresentView, coded_present_view};
    ghost use Rattle.journal_entries.specs.ScriptTrees.{AreTrees, IsCounted, trees_in};

    ghost Value = { PresentView };

    ghost coded = { coded_present_view };

    ghost view = { λ p. record {
      state = record {
        stack = p.stack.content;
        globals = p.globals.texts;
        current = p.current;
        externals = map (seen_by E.title E.sort E.answers_calls E.cells) p.externals.items;
      };
      names = p.globals.names;
      logs = map E.log p.externals.items;
      room = p.stack.room;
    } };

    ghost invariant = { λ p. AreTrees p.stack.content (trees_in p.trees) × IsCounted p.trees };
}

impl<E: External> Present<E> {
    /// The state of a stack with no global. It takes no memory.
    pub fn new(alloc: Global, stack: Stack, current: u32, externals: Vec<E>) -> Present<E>
        ensures { result ≡ record {
          state = record {
            stack = stack.content;
            globals = finite.empty;
            current = current;
            externals = map
                (seen_by E.title E.sort E.answers_calls E.cells) externals.items;
          };
          names = [];
          logs = map E.log externals.items;
          room = stack.room;
        } }
    {
        Present {
            stack,
            trees: ScriptTrees::new(alloc),
            globals: Globals::new(alloc),
            current,
            externals,
        }
    }

    /// Exchanges the value of one place, or the cells of one external.
    #[tactic(auto, unfolding(crate::specs::Exchange::exchanged, crate::specs::Exchange::taken, crate::specs::Exchange::IsReady))]
    pub fn exchange(&mut self, entry: &mut Entry)
        requires { IsReady (shape_of self.old) entry.old }
        ensures state { self.new ≡ record self.old { state = exchanged self.old.names self.old.state entry.old } }
        ensures entry { entry.new ≡ taken self.old.names self.old.state entry.old }
    {
        match entry {
            Entry::Global(i, value) => self.swap_global(*i, value, None),
            Entry::Current(current) => mem::swap(&mut self.current, current),
            Entry::Stack(entry) => self.exchange_in_stack(entry),
            Entry::External(i, patch) => self.externals[*i].flip(patch),
        }
    }

    /// Exchanges the value of one place of the stack. The tree of a script that may change goes.
    fn exchange_in_stack(&mut self, entry: &mut StackEntry)
        requires { places.IsReady self.old.room entry.old }
        ensures state { self.new ≡ record self.old
            { state = record self.old.state { stack = places.exchanged self.old.state.stack entry.old } } }
        ensures entry { entry.new ≡ places.taken self.old.state.stack entry.old }
    {
        self.trees.forget(entry);
        entry.exchange(&mut self.stack);
    }

    /// Exchanges the value of the numbered global. Where a number is handed over, the value is its numeral.
    #[tactic(auto, unfolding(crate::specs::Exchange::exchanged, crate::specs::Exchange::taken))]
    pub(crate) fn swap_global(&mut self, i: usize, value: &mut Option<Text>, number: Option<i64>)
        requires there { i < length self.old.names }
        requires known { IfSome number (λ n. value.old ≡ Some (numeral n)) }
        ensures state { self.new ≡ record self.old
            { state = exchanged self.old.names self.old.state (Entry.Global i value.old) } }
        ensures entry { Entry.Global i value.new ≡ taken self.old.names self.old.state (Entry.Global i value.old) }
    {
        self.globals.swap(i, value, number);
    }

    /// Exchanges the entries from the last to the first.
    pub fn go_back(&mut self, entries: &mut [Entry])
        requires { AreReady (shape_of self.old) entries.old }
        ensures state { self.new ≡ record self.old { state = back self.old.names self.old.state entries.old } }
        ensures entries { entries.new ≡ back_taken self.old.names self.old.state entries.old }
    {
        let mut i = entries.len();
        while i > 0 {
            i -= 1;
            self.exchange(&mut entries[i]);
        }
    }

    /// Exchanges the entries from the first to the last.
    pub fn go_forth(&mut self, entries: &mut [Entry])
        requires { AreReady (shape_of self.old) entries.old }
        ensures state { self.new ≡ record self.old { state = forth self.old.names self.old.state entries.old } }
        ensures entries { entries.new ≡ forth_taken self.old.names self.old.state entries.old }
    {
        for i in 0..entries.len() {
            self.exchange(&mut entries[i]);
        }
    }

    /// The number of a global's name, which gets one if it has none. It takes no memory where the name has one.
    #[tactic(auto, unfolding(crate::specs::Exchange::exchanged, crate::specs::Exchange::taken, crate::specs::Exchange::mark_of, crate::specs::Exchange::entry_weight, crate::specs::Exchange::IsReady, crate::specs::Places::put, crate::specs::Turning::IsNumbered))]
    pub(crate) fn number_global(&mut self, name: &[u8]) -> Result<usize, AllocError>
        ensures entry { IfOk result (λ i. (v : Option (List ℕ))
            → Prepares self.new (made_change.Global name.now v) (Entry.Global i v ∷ [])) }
        ensures there { IfOk result (λ i. i < length self.new.names) }
        ensures grows { Grows self.old self.new }
    {
        self.globals.number(name)
    }

    /// Whether it is time to look for names of globals that nothing needs. That shows nowhere but in time and memory,
    /// so no clause tells it.
    pub fn has_many_names(&self) -> bool {
        self.globals.are_many()
    }

    /// New numbers for the names of the globals that have a value. No other name is needed so far.
    pub fn renumbering(&self, alloc: Global) -> Result<Renumbering, AllocError>
        ensures of { IfOk result (λ r. IsOf self.now.names r) }
        ensures valued { IfOk result (λ r. HasValued self.now.names self.now.state.globals r) }
    {
        self.globals.renumbering(alloc)
    }

    /// The name of a number is needed. Where memory was refused what was needed still is.
    pub(crate) fn need_global(
        &self,
        renumbering: &mut Renumbering,
        i: usize,
    ) -> Result<(), AllocError>
        requires there { i < length self.now.names }
        requires of { IsOf self.now.names renumbering.old }
        ensures of { IsOf self.now.names renumbering.new }
        ensures needed { OnOk result (IsSome (number_in renumbering.new i)) }
        ensures more { IsMore renumbering.old renumbering.new }
    {
        renumbering.need(&self.globals, i)
    }

    /// The names of globals get their new numbers, and those that aren't needed go.
    pub fn renumber(&mut self, renumbering: Renumbering)
        requires of { IsOf self.old.names renumbering }
        requires valued { HasValued self.old.names self.old.state.globals renumbering }
        ensures { self.new ≡ record self.old { names = renumbering.names } }
    {
        self.globals.renumber(renumbering);
    }

    /// Whether so much of the stack was opened that it is worth a look what can be closed. That shows nowhere but in
    /// time and in memory, so no clause tells when.
    pub fn has_much_room(&self) -> bool {
        self.stack.has_much_room()
    }

    /// Gives back the room for the texts and the hilites of cards that aren't among these and have none.
    pub fn close_others(&mut self, cards: &BTreeSet<Id>)
        ensures same { self.new ≡ with_room self.old self.new.room }
        ensures room { KeepsRoom cards.now self.old.room self.new.room }
    {
        self.stack.close_others(cards);
    }

    /// The entry that gives a global a value, or none. It takes no memory where the name has a number.
    fn prepare_global(&mut self, name: &Text, value: Option<Text>) -> Result<Entry, AllocError>
        ensures entry { IfOk result (λ e. Prepares self.new (made_change.Global name.now value) (e ∷ [])) }
        ensures grows { Grows self.old self.new }
    {
        Ok(Entry::Global(self.number_global(name.as_slice())?, value))
    }

    /// The entry that gives a field a text for a card.
    #[tactic(auto, unfolding(crate::specs::Exchange::exchanged, crate::specs::Exchange::taken, crate::specs::Exchange::mark_of, crate::specs::Exchange::entry_weight, crate::specs::Exchange::IsReady, crate::specs::Places::put, crate::specs::Turning::IsNumbered))]
    fn prepare_text(
        &mut self,
        alloc: Global,
        field: Id,
        card: Id,
        text: Text,
    ) -> Result<Entry, AllocError>
        requires { fits self.old.state (made_change.FieldText field card text) ≡ true }
        ensures entry { IfOk result (λ e. Prepares self.new (made_change.FieldText field card text) (e ∷ [])) }
        ensures grows { Grows self.old self.new }
    {
        let text = FieldText::new(alloc, text)?;
        self.stack.open_text(field, card)?;
        let entry = StackEntry::FieldText(field, card, Some(text));
        Ok(Entry::Stack(entry))
    }

    /// The entry that gives a button a hilite for a card.
    #[tactic(auto, unfolding(crate::specs::Exchange::exchanged, crate::specs::Exchange::taken, crate::specs::Exchange::mark_of, crate::specs::Exchange::entry_weight, crate::specs::Exchange::IsReady, crate::specs::Places::put, crate::specs::Turning::IsNumbered))]
    fn prepare_hilite(&mut self, button: Id, card: Id, hilite: bool) -> Result<Entry, AllocError>
        requires { fits self.old.state (made_change.Hilite button card hilite) ≡ true }
        ensures entry { IfOk result (λ e. Prepares self.new (made_change.Hilite button card hilite) (e ∷ [])) }
        ensures grows { Grows self.old self.new }
    {
        self.stack.open_hilite(button, card)?;
        let entry = StackEntry::Hilite(button, card, Some(hilite));
        Ok(Entry::Stack(entry))
    }

    /// Grows what a change needs, and hands out the entries that make it.
    #[tactic(auto, unfolding(crate::specs::Exchange::exchanged, crate::specs::Exchange::taken, crate::specs::Exchange::mark_of, crate::specs::Exchange::entry_weight, crate::specs::Exchange::IsReady, crate::specs::Places::put, crate::specs::Turning::IsNumbered))]
    pub fn prepare(&mut self, alloc: Global, change: Change) -> Result<Prepared, AllocError>
        requires state { IsState self.old.state }
        requires fits { fits self.old.state change ≡ true }
        ensures entries { IfOk result (λ p. Prepares self.new change (entries_of p)) }
        ensures grows { Grows self.old self.new }
    {
        match change {
            Change::Global(name, value) => self.prepare_global(&name, value).map(Prepared::One),
            Change::FieldText(field, card, text) => {
                self.prepare_text(alloc, field, card, text)
                    .map(Prepared::One)
            }
            Change::Hilite(button, card, hilite) => {
                self.prepare_hilite(button, card, hilite).map(Prepared::One)
            }
            Change::Prop(id, value) => Ok(Prepared::One(Entry::Stack(StackEntry::Prop(id, value)))),
            Change::Current(card) => Ok(Prepared::One(Entry::Current(card))),
            Change::NewCard => self.prepare_new_card(alloc).map(Prepared::Several),
            Change::NewBackground => self.prepare_new_background(alloc).map(Prepared::Several),
            Change::NewPart(layer, kind) => {
                self.prepare_new_part(alloc, layer, kind)
                    .map(Prepared::Several)
            }
            Change::DeleteCard => self.prepare_deletion(alloc).map(Prepared::Several),
        }
    }

    /// The entries of a new card.
    fn prepare_new_card(&mut self, alloc: Global) -> Result<Vec<Entry>, AllocError>
        requires state { IsState self.old.state }
        requires fits { fits self.old.state Change.NewCard ≡ true }
        ensures entries { IfOk result (λ entries. Prepares self.new Change.NewCard entries.items) }
        ensures grows { Grows self.old self.new }
    {
        let next = self.stack.next_id();
        let made = prepare_new_card(alloc, &mut self.stack, self.current)?;
        entries_with_current(alloc, made, next)
    }

    /// The entries of a new background and its card.
    fn prepare_new_background(&mut self, alloc: Global) -> Result<Vec<Entry>, AllocError>
        requires state { IsState self.old.state }
        requires fits { fits self.old.state Change.NewBackground ≡ true }
        ensures entries { IfOk result (λ entries. Prepares self.new Change.NewBackground entries.items) }
        ensures grows { Grows self.old self.new }
    {
        let next = self.stack.next_id();
        let made = prepare_new_background(alloc, &mut self.stack, self.current)?;
        entries_with_current(alloc, made, next + 1)
    }

    /// The entries of a new part.
    fn prepare_new_part(
        &mut self,
        alloc: Global,
        layer: LayerId,
        kind: PartKind,
    ) -> Result<Vec<Entry>, AllocError>
        requires state { IsState self.old.state }
        requires fits { fits self.old.state (Change.NewPart layer kind) ≡ true }
        ensures entries { IfOk result (λ entries. Prepares self.new (Change.NewPart layer kind) entries.items) }
        ensures grows { Grows self.old self.new }
    {
        let made = prepare_new_part(alloc, &mut self.stack, layer, kind)?;
        stack_entries(alloc, made)
    }

    /// The entries of the current card's deletion.
    fn prepare_deletion(&mut self, alloc: Global) -> Result<Vec<Entry>, AllocError>
        requires state { IsState self.old.state }
        requires fits { fits self.old.state Change.DeleteCard ≡ true }
        ensures entries { IfOk result (λ entries. Prepares self.new Change.DeleteCard entries.items) }
        ensures grows { Grows self.old self.new }
    {
        let next = following_card(&self.stack, self.current);
        let gone = prepare_deletion(alloc, &mut self.stack, self.current)?;
        current_with_entries(alloc, next, gone)
    }

    /// Gives an external one turn, which its log has then at its end. Where memory was refused nothing changes.
    pub fn turn(
        &mut self,
        i: usize,
        alloc: Global,
        input: &Input,
    ) -> Result<(Ask, Patch), AllocError>
        requires { i < length self.old.state.externals }
        ensures turn { OnOk result (Turns self.old.state self.new.state i) }
        ensures patch { IfOk result (λ r. IsPatch (seen_at self.old.state i).cells
            (seen_at self.new.state i).cells r.1) }
        ensures present { IfOk result (λ r. self.new ≡ record self.old {
          state = self.new.state;
          logs = logs_after self.old.logs self.old.state self.new.state i input.now r.0;
        }) }
        ensures err { OnErr result (self.new ≡ self.old) }
    {
        self.externals[i].turn(alloc, input)
    }

    /// The tree of an object's script, if it is kept: that of the script of now. With it comes the number of the first
    /// reading of that script, as `script_reading` tells it.
    pub fn script_tree(&self, id: Id) -> Option<(u64, &Rc<Script>)>
        ensures { IfSome result (λ r. Reads ReadsScript (object_script self.now.state.stack id)
            (script_of r.1.now.value)) }
    {
        self.trees.get(id)
    }

    /// The number of the first reading of an object's script, if its tree was kept. It stays while the script does,
    /// also where the tree goes; no other script gets it.
    pub fn script_reading(&self, id: Id) -> Option<u64> {
        self.trees.first_reading(id)
    }

    /// Keeps the tree of an object's script until that script changes, or until the trees that are kept after it take
    /// up the room. It shows nowhere but in time.
    pub fn keep_script_tree(&mut self, id: Id, tree: Rc<Script>) -> Result<(), AllocError>
        requires { Reads ReadsScript (object_script self.old.state.stack id) (script_of tree.value) }
        ensures { self.new ≡ self.old }
    {
        let bytes = script_length(&self.stack, id);
        self.trees.keep(id, tree, bytes)
    }

    /// The stack.
    pub fn stack(&self) -> &Stack
        ensures { result.now.content ≡ self.now.state.stack }
    {
        &self.stack
    }

    /// The card that is current.
    pub fn current(&self) -> u32
        ensures { result ≡ self.now.state.current }
    {
        self.current
    }

    /// The value of a global, if it has one.
    pub fn global(&self, name: &[u8]) -> Option<&Text>
        ensures { option_copied result ≡ finite.get self.now.state.globals name.now }
    {
        self.globals.get(name)
    }

    /// The number whose numeral the value of a global is, where that is known without reading the value.
    pub fn known_number(&self, name: &[u8]) -> Option<i64>
        ensures { IfSome result (λ n. finite.get self.now.state.globals name.now ≡ Some (numeral n)) }
    {
        self.globals.known_number(name)
    }

    /// How many globals have a value.
    pub fn global_count(&self) -> usize
        ensures count { result ≡ length (listed self.now.names self.now.state.globals) }
        ensures each { Lists (listed self.now.names self.now.state.globals) self.now.state.globals }
    {
        self.globals.count()
    }

    /// How many names of globals have numbers, with a value or without.
    /// `global_numbered` gives each global that has a value once, at the number of its name.
    pub fn name_count(&self) -> usize
        ensures count { result ≡ length self.now.names }
        ensures each { Lists (listed self.now.names self.now.state.globals) self.now.state.globals }
    {
        self.globals.name_count()
    }

    /// The global with a number, from 0: its name and its value, if it has one.
    pub fn global_numbered(&self, i: usize) -> Option<(&[u8], &Text)>
        requires { i < length self.now.names }
        ensures { option_map (λ p. (p.0.now, p.1.now)) result ≡ numbered self.now.names self.now.state.globals i }
    {
        self.globals.numbered(i)
    }

    /// The i-th global that has a value, from 0: its name and its value.
    pub fn global_at(&self, i: usize) -> (&[u8], &Text)
        requires { i < length (listed self.now.names self.now.state.globals) }
        ensures { slice_get (listed self.now.names self.now.state.globals) i ≡ Some (result.0.now, result.1.now) }
    {
        self.globals.at(i)
    }

    /// The i-th external, from 0.
    pub fn external(&self, i: usize) -> &E
        requires { i < length self.now.state.externals }
        ensures seen { seen_by E.title E.sort E.answers_calls E.cells result.now ≡ seen_at self.now.state i }
        ensures log { E.log result.now ≡ slice_index_or self.now.logs i [] }
    {
        &self.externals[i]
    }

    /// How many externals there are.
    pub fn external_count(&self) -> usize
        ensures { result ≡ length self.now.state.externals }
    {
        self.externals.len()
    }

    /// Each external has a log. It does nothing.
    pub fn law_of_logs(&self)
        ensures { length self.now.logs ≡ length self.now.state.externals }
    {
        let _ = &self.externals;
    }

    /// Whether a change fits.
    pub fn fits(&self, change: &Change) -> bool
        ensures { result ≡ fits self.now.state change.now }
    {
        match change {
            Change::Global(name, _) => name.is_folded(),
            Change::FieldText(field, card, _) => self.stack.text(*field, *card).is_some(),
            Change::Hilite(button, card, _) => self.stack.hilite(*button, *card).is_some(),
            Change::Prop(id, value) => self.stack.may_set(*id, value),
            Change::Current(card) => is_card(&self.stack, *card),
            Change::NewCard => has_room(&self.stack, 1),
            Change::NewBackground => has_room(&self.stack, 2),
            Change::NewPart(layer, _) => fits_new_part(&self.stack, *layer),
            Change::DeleteCard => fits_deletion(&self.stack),
        }
    }

    /// The number of the external whose name is the same.
    pub fn external_number(&self, name: &Text) -> Option<usize>
        ensures { result ≡ index_of_title name.now (titles_of self.now.state.externals) }
    {
        index_of(&self.externals, name)
    }

    /// Whether an external has a name that is the same.
    pub fn has_external(&self, name: &Text) -> bool
        ensures { result ≡ has_title name.now (titles_of self.now.state.externals) }
    {
        has_name(&self.externals, name)
    }

    /// Adds an external, or hands it back where a growth was refused.
    pub fn plug(&mut self, external: E) -> Result<(), E>
        ensures ok { OnOk result (self.new ≡ record self.old {
          state = record self.old.state {
            externals = self.old.state.externals
                ++ seen_by E.title E.sort E.answers_calls E.cells external ∷ [];
          };
          logs = self.old.logs ++ E.log external ∷ [];
        }) }
        ensures err { IfErr result (λ e. (e ≡ external) × (self.new ≡ self.old)) }
    {
        match self.externals.push(external) {
            Ok(()) => Ok(()),
            Err(refused) => Err(refused.value),
        }
    }

    /// Takes out the i-th external, from 0, as it is: it takes no turn.
    pub fn unplug(&mut self, i: usize) -> E
        requires { i < length self.old.state.externals }
        ensures seen { seen_by E.title E.sort E.answers_calls E.cells result ≡ seen_at self.old.state i }
        ensures log { E.log result ≡ slice_index_or self.old.logs i [] }
        ensures present { self.new ≡ record self.old {
          state = record self.old.state {
            externals = take i self.old.state.externals
                ++ drop (i + 1) self.old.state.externals;
          };
          logs = take i self.old.logs ++ drop (i + 1) self.old.logs;
        } }
    {
        self.externals.remove(i)
    }

    /// The externals, in order.
    pub fn into_externals(self) -> Vec<E>
        ensures seen { map (seen_by E.title E.sort E.answers_calls E.cells) result.items ≡ self.state.externals }
        ensures logs { map E.log result.items ≡ self.logs }
    {
        let Present {
            stack: _,
            trees: _,
            globals: _,
            current: _,
            externals,
        } = self;
        externals
    }
}

/// How many bytes the script of an object has, which is empty where there is no such object.
fn script_length(stack: &Stack, id: Id) -> usize
    ensures value { result ≡ length (object_script stack.now.content id) }
    ensures few { result ≤ MOST_KEPT_BYTES }
{
    match stack.object(id) {
        Some(object) => object.script.len(),
        None => 0,
    }
}

/// Entries of the stack, as a list of entries.
fn stack_entries(alloc: Global, made: Vec<StackEntry>) -> Result<Vec<Entry>, AllocError>
    ensures { IfOk result (λ entries. entries.items ≡ map (λ e. Entry.Stack e) made.items) }
{
    let mut entries = Vec::new(alloc);
    add_each(&mut entries, made)?;
    Ok(entries)
}

/// Entries of the stack, and then that of the card that becomes current.
fn entries_with_current(
    alloc: Global,
    made: Vec<StackEntry>,
    current: Id,
) -> Result<Vec<Entry>, AllocError>
    ensures { IfOk result (λ entries. entries.items ≡ map (λ e. Entry.Stack e) made.items
        ++ Entry.Current current ∷ []) }
{
    let mut entries = Vec::with_capacity(alloc, made.len().saturating_add(1))?;
    add_each(&mut entries, made)?;
    entries.push(Entry::Current(current))?;
    Ok(entries)
}

/// The entry of the card that becomes current, and then entries of the stack.
fn current_with_entries(
    alloc: Global,
    current: Id,
    gone: Vec<StackEntry>,
) -> Result<Vec<Entry>, AllocError>
    ensures { IfOk result (λ entries. entries.items ≡ Entry.Current current ∷ map (λ e. Entry.Stack e) gone.items) }
{
    let mut entries = Vec::with_capacity(alloc, gone.len().saturating_add(1))?;
    entries.push(Entry::Current(current))?;
    add_each(&mut entries, gone)?;
    Ok(entries)
}

/// Adds entries of the stack.
fn add_each(entries: &mut Vec<Entry>, more: Vec<StackEntry>) -> Result<(), AllocError>
    ensures { OnOk result (entries.new.items ≡ entries.old.items ++ map (λ e. Entry.Stack e) more.items) }
{
    entries.reserve(more.len())?;
    for entry in more {
        entries.push_reserved(Entry::Stack(entry));
    }
    Ok(())
}

impl<E: HasTable> Present<E> {
    /// Each turn of a log is the one that the table of the externals' type has, where it has one. It does nothing.
    pub fn law_of_table(&self)
        ensures { (i : ℕ) → i < length self.now.state.externals
            → Follows E.turn_table (seen_at self.now.state i).sort (slice_index_or self.now.logs i []) }
    {
        let _ = &self.externals;
    }
}
