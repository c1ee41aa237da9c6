//! The globals: their names, numbered in the order in which they come, and their values.

ghost use Rattle.std.specs.Prelude.{◌≡◌, ℕ, ◌<◌, [], length, true, IfOk, IfSome, slice_index_or};
ghost use Rattle.std.specs.Prelude.{slice_get, Some, option_copied, option_map};
ghost use Rattle.std.specs.FinMap as finite;
ghost use Rattle.ht_values.specs.Text.{numeral};
ghost use Rattle.object_table.specs.Maps.{put_option};
ghost use Rattle.journal_entries.specs.Named.{Named, Extends, IsNumberOf, Lists, listed, numbered};
ghost use Rattle.journal_entries.specs.Renumbered.{IsOf, HasValued};

use crate::initials::Initials;
use crate::numbered_names::NumberedNames;
use crate::renumbering::Renumbering;
use ht_values::Text;
use std::alloc::{AllocError, Global};
use std::marker::Model;
use std::mem;

/// What a name takes of memory beside its bytes, which may be there twice, roughly.
const NAME_BYTES: usize = 128;

/// What names may take of memory before those that nothing needs are looked for.
const FEW_NAME_BYTES: usize = 1_000_000;

/// Texts by name. A name keeps its number from the time it is first met, also while it has no value, until all names
/// are numbered anew. The name that was exchanged last is remembered, since a loop tends to read and write one global,
/// and with it the number whose numeral its value is, where that was known. Of the names that begin with one byte too the
/// one that was exchanged last is remembered, so that few of those that a loop reads are looked for among all.
#[derive(Drop)]
pub struct Globals {
    names: NumberedNames,
    initials: Initials,
    values: Vec<Option<Text>>,
    live: usize,
    last: usize,
    last_number: Option<i64>,
    /// What the names take of memory, and what they may take before they are numbered anew.
    name_bytes: usize,
    most_name_bytes: usize,
    alloc: Global,
}

impl Model for Globals {
    ghost use Rattle.std.specs.Prelude.{◌≡◌, length, map, count_by, is_some, slice_index_or, IfSome, Some, None};
    ghost use Rattle.ht_values.specs.Text.{numeral};
    ghost use Rattle.std.specs.FinMap as finite;
    ghost use Rattle.journal_entries.specs.Named.{Named, coded_named, entries_of, AreDistinct};
    ghost use Rattle.journal_entries.specs.Initials.{MayHaveAll};

    ghost Value = { Named };

    ghost coded = { coded_named };

    ghost view = { λ g. record { texts = finite.from_entries (entries_of g.names g.values.items); names = g.names } };

    ghost invariant = { λ g. (length g.names ≡ length g.values.items)
        × AreDistinct g.names × (g.live ≡ count_by is_some g.values.items)
        × IfSome g.last_number (λ n. slice_index_or g.values.items g.last None ≡ Some (numeral n))
        × MayHaveAll g.initials g.names };
}

impl Globals {
    pub fn new(alloc: Global) -> Globals
        ensures { result ≡ record { texts = finite.empty; names = [] } }
    {
        Globals {
            names: NumberedNames::new(alloc),
            initials: Initials::new(),
            values: Vec::new(alloc),
            live: 0,
            last: 0,
            last_number: None,
            name_bytes: 0,
            most_name_bytes: FEW_NAME_BYTES,
            alloc,
        }
    }

    /// Whether the name with this number, if there is one, is this name.
    fn is_at(&self, i: usize, name: &[u8]) -> bool
        ensures { result ≡ true → (i < length self.now.names) × (slice_index_or self.now.names i [] ≡ name.now) }
    {
        match self.names.get(i) {
            Some(numbered) => numbered == name,
            None => false,
        }
    }

    /// The number of a name, if it has one. By its first byte most names are told that have none, and the number of most
    /// others is.
    #[inline(always)]
    fn number_of(&self, name: &[u8]) -> Option<usize>
        ensures { IsNumberOf self.now.names name.now result }
    {
        if !self.initials.may_have(name) {
            return None;
        }
        let likely = self.initials.likely_number(name);
        if self.is_at(likely, name) {
            return Some(likely);
        }
        self.number_among_all(name)
    }

    /// The number of a name, if it has one. It is out of line, since few names are looked for so.
    #[inline(never)]
    fn number_among_all(&self, name: &[u8]) -> Option<usize>
        ensures { IsNumberOf self.now.names name.now result }
    {
        self.names.number_of(name)
    }

    /// The number of a name, which gets one if it has none. No value changes. It takes no memory where the name has
    /// one.
    pub fn number(&mut self, name: &[u8]) -> Result<usize, AllocError>
        ensures number { IfOk result (λ i. (i < length self.new.names)
            × (slice_index_or self.new.names i [] ≡ name.now)) }
        ensures same { self.new.texts ≡ self.old.texts }
        ensures wider { Extends self.old.names self.new.names }
        ensures only { IfOk result (λ i. (j : ℕ) → j < length self.new.names
            → slice_index_or self.new.names j [] ≡ slice_index_or self.new.names i [] → j ≡ i) }
    {
        match self.number_of(name) {
            Some(i) => return Ok(i),
            None => {}
        }
        let i = self.values.len();
        self.values.reserve(1)?;
        self.names.push(self.alloc, name)?;
        self.initials.add(name);
        self.last_number = None;
        self.name_bytes = with_name(self.name_bytes, name.len());
        self.values.push_reserved(None);
        Ok(i)
    }

    /// Exchanges the value of the numbered name. Where a number is handed over, the value is its numeral, and
    /// `known_number` tells it until the next exchange.
    pub fn swap(&mut self, i: usize, value: &mut Option<Text>, number: Option<i64>)
        requires there { i < length self.old.names }
        requires known { IfSome number (λ n. value.old ≡ Some (numeral n)) }
        ensures value { value.new ≡ finite.get self.old.texts (slice_index_or self.old.names i []) }
        ensures texts { self.new ≡ record self.old
            { texts = put_option self.old.texts (slice_index_or self.old.names i []) value.old } }
    {
        let added = value.is_some();
        mem::swap(&mut self.values[i], value);
        self.initials.used(self.names.name(i), i);
        self.last = i;
        self.last_number = number;
        self.live = self.live - usize::from(value.is_some()) + usize::from(added);
    }

    /// The value of a name, if it has one.
    pub fn get(&self, name: &[u8]) -> Option<&Text>
        ensures { option_copied result ≡ finite.get self.now.texts name.now }
    {
        match self.number_of(name) {
            Some(i) => self.values[i].as_ref(),
            None => None,
        }
    }

    /// The number whose numeral the value of a name is, where that is known without reading the value.
    pub fn known_number(&self, name: &[u8]) -> Option<i64>
        ensures { IfSome result (λ n. finite.get self.now.texts name.now ≡ Some (numeral n)) }
    {
        if self.last_number.is_some() && self.is_at(self.last, name) {
            self.last_number
        } else {
            None
        }
    }

    /// How many names have numbers, with a value or without. `numbered` gives each name that has a value once, at its
    /// number.
    pub fn name_count(&self) -> usize
        ensures count { result ≡ length self.now.names }
        ensures each { Lists (listed self.now.names self.now.texts) self.now.texts }
    {
        self.values.len()
    }

    /// How many names have a value.
    pub fn count(&self) -> usize
        ensures count { result ≡ length (listed self.now.names self.now.texts) }
        ensures each { Lists (listed self.now.names self.now.texts) self.now.texts }
    {
        self.live
    }

    /// The numbered name with its value, if it has one.
    pub fn numbered(&self, i: usize) -> Option<(&[u8], &Text)>
        requires { i < length self.now.names }
        ensures { option_map (λ p. (p.0.now, p.1.now)) result ≡ numbered self.now.names self.now.texts i }
    {
        match &self.values[i] {
            Some(value) => Some((self.names.name(i), value)),
            None => None,
        }
    }

    /// The i-th name that has a value, from 0, in the order of their numbers, with its value. It goes over the numbers
    /// from the first one.
    pub fn at(&self, i: usize) -> (&[u8], &Text)
        requires { i < length (listed self.now.names self.now.texts) }
        ensures { slice_get (listed self.now.names self.now.texts) i ≡ Some (result.0.now, result.1.now) }
    {
        let mut left = i;
        for number in 0..self.values.len() {
            match self.numbered(number) {
                Some(found) => {
                    if left == 0 {
                        return found;
                    }
                    left -= 1;
                }
                None => {}
            }
        }
        unreachable!()
    }

    /// Whether it is time to look for names that nothing needs. That shows nowhere but in time and memory, so no clause
    /// tells it.
    pub(crate) fn are_many(&self) -> bool {
        self.name_bytes > self.most_name_bytes
    }

    /// The next time is when the names take twice as much as now, and some more.
    fn put_off(&mut self)
        ensures { self.new ≡ self.old }
    {
        self.most_name_bytes = twice_and_more(self.name_bytes);
    }

    /// The name of a number.
    pub(crate) fn name(&self, i: usize) -> &[u8]
        requires { i < length self.now.names }
        ensures { result.now ≡ slice_index_or self.now.names i [] }
    {
        self.names.name(i)
    }

    /// New numbers for the names that have a value. No other name is needed so far.
    pub(crate) fn renumbering(&self, alloc: Global) -> Result<Renumbering, AllocError>
        ensures of { IfOk result (λ r. IsOf self.now.names r) }
        ensures valued { IfOk result (λ r. HasValued self.now.names self.now.texts r) }
    {
        let mut renumbering = Renumbering::new(alloc, self.values.len())?;
        for i in 0..self.values.len() {
            if self.values[i].is_some() {
                renumbering.need(self, i)?;
            }
        }
        Ok(renumbering)
    }

    /// The names get their new numbers, and those that aren't needed go.
    pub(crate) fn renumber(&mut self, renumbering: Renumbering)
        requires of { IsOf self.old.names renumbering }
        requires valued { HasValued self.old.names self.old.texts renumbering }
        ensures { self.new ≡ record self.old { names = renumbering.names } }
    {
        let (numbers, mut globals) = renumbering.into_parts();
        for i in 0..self.values.len() {
            match numbers[i] {
                Some(number) => globals.swap(number as usize, &mut self.values[i], None),
                None => {}
            }
        }
        globals.put_off();
        *self = globals;
    }
}

/// What names take with one more, of this length.
fn with_name(bytes: usize, length: usize) -> usize {
    bytes
        .saturating_add(length.saturating_mul(2))
        .saturating_add(NAME_BYTES)
}

/// Twice as much, and some more.
fn twice_and_more(bytes: usize) -> usize {
    bytes.saturating_mul(2).saturating_add(FEW_NAME_BYTES)
}
