//! Values at the parts of a card.

ghost use Rattle.std.specs.Prelude.{◌≡◌, ◌+◌, ◌<◌, ◌≤◌, ℕ, [], length, true, cond, nat_eq, OnOk, OnErr, OnSome, IfOk};
ghost use Rattle.std.specs.Prelude.{IfErr, Some, is_none, is_some, option_copied, option_and_then, vec_len};
ghost use Rattle.std.specs.Prelude.{vec_capacity};
ghost use Rattle.std.specs.List.{list_all};
ghost use Rattle.object_table.specs.Objects.{contains_id};
ghost use Rattle.object_table.specs.Rows.{entry_at, ids_in, AreRising, IsAt, IsGapFor, opened_at};

use crate::ids::Id;
use std::alloc::{AllocError, Global};
use std::marker::Model;
use std::mem;

/// A value, or none, at each part that is open, in the order of their ids.
#[derive(Drop)]
pub(crate) struct Row<X> {
    places: Vec<(Id, Option<X>)>,
    /// Where the latest exchange was, since most changes go from part to part.
    latest: usize,
}

impl<X> Model for Row<X> {
    ghost use Rattle.std.specs.Prelude.{ℕ, List, Option};
    ghost use Rattle.object_table.specs.Rows.{ids_in, AreRising};

    ghost Value = { List (ℕ × Option X) };

    ghost view = { λ r. r.places.items };

    ghost invariant = { λ r. AreRising (ids_in r.places.items) };
}

impl<X: Drop> Row<X> {
    /// The row of no parts. It takes no memory.
    pub(crate) fn new(alloc: Global) -> Row<X>
        ensures { result ≡ [] }
    {
        Row {
            places: Vec::new(alloc),
            latest: 0,
        }
    }

    pub(crate) fn get(&self, part: Id) -> Option<&X>
        ensures value { option_copied result ≡ option_and_then (λ v. v) (entry_at self.now part) }
        ensures open { OnSome result (is_some (entry_at self.now part) ≡ true) }
    {
        match self.place_of(part) {
            Ok(place) => self.places[place].1.as_ref(),
            Err(_) => None,
        }
    }

    /// How many parts are open.
    pub(crate) fn len(&self) -> usize
        ensures { result ≡ length self.now }
    {
        self.places.len()
    }

    /// Whether no part has a value.
    pub(crate) fn is_vacant(&self) -> bool
        ensures { result ≡ list_all (λ e. is_none e.1) self.now }
    {
        self.places.iter().all(|place| place.1.is_none())
    }

    /// Opens a part: a value that stands there stays. It gives how many weren't open before.
    pub(crate) fn open(&mut self, part: Id) -> Result<usize, AllocError>
        ensures ok { OnOk result ((c : ℕ) → entry_at self.new c
            ≡ cond (nat_eq part c) (opened_at (entry_at self.old part)) (entry_at self.old c)) }
        ensures err { OnErr result (self.new ≡ self.old) }
    {
        match self.place_of(part) {
            Ok(_) => Ok(0),
            Err(place) => {
                self.places.insert(place, (part, None))?;
                Ok(1)
            }
        }
    }

    /// Opens each of these parts: the values that stand there stay. It gives how many weren't open before. Where a
    /// growth is refused nothing changes.
    pub(crate) fn open_each(&mut self, parts: &[Id]) -> Result<usize, AllocError>
        ensures ok { OnOk result ((c : ℕ) → entry_at self.new c
            ≡ cond (contains_id c parts.now) (opened_at (entry_at self.old c)) (entry_at self.old c)) }
        ensures err { OnErr result (self.new ≡ self.old) }
    {
        let before = self.places.len();
        open_each_in(&mut self.places, parts)?;
        Ok(self.places.len().saturating_sub(before))
    }

    pub(crate) fn swap(&mut self, part: Id, value: &mut Option<X>)
        requires { is_some (entry_at self.old part) ≡ true }
        ensures value { Some value.new ≡ entry_at self.old part }
        ensures row { (c : ℕ) → entry_at self.new c ≡ cond (nat_eq part c) (Some value.old) (entry_at self.old c) }
    {
        match self.place_of(part) {
            Ok(place) => {
                self.latest = place;
                mem::swap(&mut self.places[place].1, value);
            }
            Err(_) => unreachable!(),
        }
    }

    /// Where a part is, or where it would go. It is looked for first where most are: right behind the latest exchange,
    /// behind all, there again, and where it is if the ids follow each other.
    fn place_of(&self, part: Id) -> Result<usize, usize>
        ensures found { IfOk result (IsAt (ids_in self.now) part) }
        ensures absent { IfErr result (IsGapFor (ids_in self.now) part) }
    {
        let beside = self.latest.saturating_add(1);
        if self.is_at(beside, part) {
            return Ok(beside);
        }
        if is_behind_all(&self.places, part) {
            return Err(self.places.len());
        }
        if self.is_at(self.latest, part) {
            return Ok(self.latest);
        }
        let guess = self.place_without_gaps(part);
        if self.is_at(guess, part) {
            return Ok(guess);
        }
        searched(&self.places, part)
    }

    /// Where a part is if the ids of the parts follow each other; else any number.
    #[inline]
    fn place_without_gaps(&self, part: Id) -> usize {
        match self.places.first() {
            Some(first) => part.saturating_sub(first.0) as usize,
            None => 0,
        }
    }

    /// Whether a part is at a place.
    #[inline]
    fn is_at(&self, place: usize, part: Id) -> bool
        ensures { result ≡ true → IsAt (ids_in self.now) part place }
    {
        match self.places.get(place) {
            Some(found) => found.0 == part,
            None => false,
        }
    }
}

/// Whether all parts come before this one.
#[inline]
fn is_behind_all<X>(places: &[(Id, Option<X>)], part: Id) -> bool
    requires { AreRising (ids_in places.now) }
    ensures { result ≡ true → IsGapFor (ids_in places.now) part (length places.now) }
{
    match places.last() {
        Some(last) => last.0 < part,
        None => true,
    }
}

/// Where a part is, or where it would go, by halves.
fn searched<X>(places: &[(Id, Option<X>)], part: Id) -> Result<usize, usize>
    requires { AreRising (ids_in places.now) }
    ensures found { IfOk result (IsAt (ids_in places.now) part) }
    ensures absent { IfErr result (IsGapFor (ids_in places.now) part) }
{
    places.binary_search_by_key(&part, |place| place.0)
}

/// Opens a part. There is room for it.
fn open_in<X: Drop>(places: &mut Vec<(Id, Option<X>)>, part: Id)
    requires rising { AreRising (ids_in places.old.items) }
    requires room { vec_len places.old < vec_capacity places.old }
    ensures rising { AreRising (ids_in places.new.items) }
    ensures entries { (c : ℕ) → entry_at places.new.items c
        ≡ cond (nat_eq part c) (opened_at (entry_at places.old.items part)) (entry_at places.old.items c) }
    ensures len { vec_len places.new ≤ vec_len places.old + 1 }
    ensures capacity { vec_capacity places.old ≤ vec_capacity places.new }
{
    if is_behind_all(places, part) {
        places.push_reserved((part, None));
        return;
    }
    if let Err(place) = searched(places, part) {
        match places.insert(place, (part, None)) {
            Ok(()) => {}
            Err(_) => unreachable!(),
        }
    }
}

/// Opens each of these parts. The room for all is taken at once.
fn open_each_in<X: Drop>(places: &mut Vec<(Id, Option<X>)>, parts: &[Id]) -> Result<(), AllocError>
    requires { AreRising (ids_in places.old.items) }
    ensures rising { AreRising (ids_in places.new.items) }
    ensures ok { OnOk result ((c : ℕ) → entry_at places.new.items c
        ≡ cond (contains_id c parts.now) (opened_at (entry_at places.old.items c)) (entry_at places.old.items c)) }
    ensures err { OnErr result (places.new.items ≡ places.old.items) }
{
    places.reserve(parts.len())?;
    for part in parts {
        open_in(places, *part);
    }
    Ok(())
}
