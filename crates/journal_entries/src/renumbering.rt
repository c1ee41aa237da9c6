//! New numbers for the names of globals that are needed.

ghost use Rattle.std.specs.Prelude.{◌≡◌, ◌<◌, [], length, replicate, None, IfOk, OnOk, IsSome};
ghost use Rattle.std.specs.FinMap as finite;
ghost use Rattle.journal_entries.specs.Exchange.{IsReady, AreReady, shape_of};
ghost use Rattle.journal_entries.specs.Renumbered.{IsOf, IsMore, IsNeeded, AreNeeded, number_in, new_number};
ghost use Rattle.journal_entries.specs.Renumbered.{renumbered, all_renumbered};

use crate::entry::Entry;
use crate::globals::Globals;
use crate::present::Present;
use externals::External;
use std::alloc::{AllocError, Global};
use std::marker::Model;

/// New numbers for those names of globals that were needed so far. Where a present state takes them (`renumber`), all
/// other names go.
#[derive(Drop)]
pub struct Renumbering {
    /// Beside each old number the new one, if its name is needed.
    numbers: Vec<Option<u32>>,
    /// The names by their new numbers. None has a value yet.
    globals: Globals,
}

impl Model for Renumbering {
    ghost use Rattle.std.specs.Prelude.{◌≡◌};
    ghost use Rattle.std.specs.FinMap as finite;
    ghost use Rattle.journal_entries.specs.Renumbered.{RenumberingView};

    ghost Value = { RenumberingView };

    ghost view = { λ r. record { numbers = r.numbers.items; names = r.globals.names } };

    ghost invariant = { λ r. r.globals.texts ≡ finite.empty };
}

impl Renumbering {
    /// As many old numbers, of which none is needed.
    pub(crate) fn new(alloc: Global, count: usize) -> Result<Renumbering, AllocError>
        ensures { IfOk result (λ r. r ≡ record { numbers = replicate count None; names = [] }) }
    {
        Ok(Renumbering {
            numbers: vec![in alloc; None; count]?,
            globals: Globals::new(alloc),
        })
    }

    /// The name of an old number is needed. Where memory was refused what was needed still is.
    pub(crate) fn need(&mut self, globals: &Globals, i: usize) -> Result<(), AllocError>
        requires there { i < length globals.now.names }
        requires of { IsOf globals.now.names self.old }
        ensures of { IsOf globals.now.names self.new }
        ensures needed { OnOk result (IsSome (number_in self.new i)) }
        ensures more { IsMore self.old self.new }
    {
        if self.numbers[i].is_some() {
            return Ok(());
        }
        let number = self.globals.number(globals.name(i))?;
        let number = narrow(number)?;
        self.numbers[i] = Some(number);
        Ok(())
    }

    /// The new number of an old one whose name is needed.
    pub(crate) fn number(&self, i: usize) -> u32
        requires { IsSome (number_in self.now i) }
        ensures { result ≡ new_number self.now i }
    {
        match self.numbers[i] {
            Some(number) => number,
            None => unreachable!(),
        }
    }

    /// The new numbers beside the old ones, and the names by their new numbers, without values.
    pub(crate) fn into_parts(self) -> (Vec<Option<u32>>, Globals)
        ensures numbers { result.0.items ≡ self.numbers }
        ensures globals { result.1 ≡ record { texts = finite.empty; names = self.names } }
    {
        let Renumbering { numbers, globals } = self;
        (numbers, globals)
    }
}

/// A number of a name that fits a batch's entry.
fn narrow(number: usize) -> Result<u32, AllocError>
    ensures { IfOk result (λ n. n ≡ number) }
{
    match u32::try_from(number) {
        Ok(number) => Ok(number),
        Err(_) => Err(AllocError),
    }
}

/// The name of an entry's global is needed.
#[tactic(auto, unfolding(crate::specs::Exchange::IsReady, crate::specs::Renumbered::IsNeeded))]
fn need_entry<E: External>(
    renumbering: &mut Renumbering,
    present: &Present<E>,
    entry: &Entry,
) -> Result<(), AllocError>
    requires ready { IsReady (shape_of present.now) entry.now }
    requires of { IsOf present.now.names renumbering.old }
    ensures of { IsOf present.now.names renumbering.new }
    ensures needed { OnOk result (IsNeeded renumbering.new entry.now) }
    ensures more { IsMore renumbering.old renumbering.new }
{
    match entry {
        Entry::Global(i, _) => present.need_global(renumbering, *i),
        Entry::Current(_) | Entry::Stack(_) | Entry::External(_, _) => Ok(()),
    }
}

/// The names of the globals of these entries are needed.
pub(crate) fn need_each<E: External>(
    renumbering: &mut Renumbering,
    present: &Present<E>,
    entries: &[Entry],
) -> Result<(), AllocError>
    requires ready { AreReady (shape_of present.now) entries.now }
    requires of { IsOf present.now.names renumbering.old }
    ensures of { IsOf present.now.names renumbering.new }
    ensures needed { OnOk result (AreNeeded renumbering.new entries.now) }
    ensures more { IsMore renumbering.old renumbering.new }
{
    for i in 0..entries.len() {
        need_entry(renumbering, present, &entries[i])?;
    }
    Ok(())
}

/// The entry gets the new number of its global's name.
#[tactic(auto, unfolding(crate::specs::Renumbered::IsNeeded, crate::specs::Renumbered::renumbered))]
fn renumber_entry(entry: &mut Entry, renumbering: &Renumbering)
    requires { IsNeeded renumbering.now entry.old }
    ensures { entry.new ≡ renumbered renumbering.now entry.old }
{
    match entry {
        Entry::Global(i, _) => *i = renumbering.number(*i) as usize,
        Entry::Current(_) | Entry::Stack(_) | Entry::External(_, _) => {}
    }
}

/// The entries get the new numbers of their globals' names.
pub(crate) fn renumber_each(entries: &mut [Entry], renumbering: &Renumbering)
    requires { AreNeeded renumbering.now entries.old }
    ensures { entries.new ≡ all_renumbered renumbering.now entries.old }
{
    for i in 0..entries.len() {
        renumber_entry(&mut entries[i], renumbering);
    }
}
