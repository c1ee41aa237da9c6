//! The places that a batch has entries of.

ghost use Rattle.std.specs.Prelude.{◌≡◌, ◌<◌, ◌≤◌, ◌+◌, ◌||◌, vec_len, vec_capacity, false, OnOk};
ghost use Rattle.journal_entries.specs.PlaceSets.{has_place, is_within, IsBounded};
ghost use Rattle.journal_entries.specs.SameKey.{same_key};
ghost use Rattle.journal_entries.specs.declared.place_key.PlaceKey.{PlaceKey};

use crate::place_key::PlaceKey;
use std::alloc::{AllocError, Global};
use std::collections::BTreeSet;

/// Places, each added once. What is added waits in a list until a place is looked up that doesn't come above all of
/// them; then it is sorted. Most changes write their places in order, and none of those is looked up or sorted.
#[derive(Drop)]
pub(crate) struct PlaceSet {
    sorted: BTreeSet<PlaceKey>,
    waiting: Vec<PlaceKey>,
    greatest: Option<PlaceKey>,
}

impl PlaceSet {
    /// No place. It takes no memory.
    pub(crate) fn new(alloc: Global) -> PlaceSet
        ensures has { (q : PlaceKey) → has_place result q ≡ false }
        ensures bounded { IsBounded result }
    {
        PlaceSet {
            sorted: BTreeSet::new(alloc),
            waiting: Vec::new(alloc),
            greatest: None,
        }
    }

    /// Whether a place may be here: one that comes above the greatest isn't.
    pub(crate) fn may_have(&self, key: &PlaceKey) -> bool
        ensures { result ≡ is_within self.now.greatest key.now }
    {
        match &self.greatest {
            Some(greatest) => key.cmp(greatest).is_le(),
            None => false,
        }
    }

    /// Whether a place is here. It looks at each that waits, unless the place comes above them.
    pub(crate) fn has(&self, key: &PlaceKey) -> bool
        requires { IsBounded self.now }
        ensures { result ≡ has_place self.now key.now }
    {
        self.may_have(key) && (self.sorted.contains(key) || self.waiting.contains(key))
    }

    /// Makes room for more places.
    pub(crate) fn reserve(&mut self, more: usize) -> Result<(), AllocError>
        ensures has { (q : PlaceKey) → has_place self.new q ≡ has_place self.old q }
        ensures greatest { self.new.greatest ≡ self.old.greatest }
        ensures room { OnOk result (vec_len self.new.waiting + more ≤ vec_capacity self.new.waiting) }
    {
        self.waiting.reserve(more)
    }

    /// Sorts what waits. Where memory is refused all that was here is here.
    pub(crate) fn sort(&mut self) -> Result<(), AllocError>
        ensures has { (q : PlaceKey) → has_place self.new q ≡ has_place self.old q }
        ensures greatest { self.new.greatest ≡ self.old.greatest }
    {
        for i in 0..self.waiting.len() {
            self.sorted.insert(self.waiting[i])?;
        }
        self.waiting.clear();
        Ok(())
    }

    /// Adds a place. There is room for it.
    pub(crate) fn add(&mut self, key: PlaceKey)
        requires bounded { IsBounded self.old }
        requires room { vec_len self.old.waiting < vec_capacity self.old.waiting }
        ensures has { (q : PlaceKey) → has_place self.new q ≡ has_place self.old q || same_key key q }
        ensures bounded { IsBounded self.new }
        ensures len { vec_len self.new.waiting ≡ vec_len self.old.waiting + 1 }
        ensures capacity { vec_capacity self.new.waiting ≡ vec_capacity self.old.waiting }
    {
        if !self.may_have(&key) {
            self.greatest = Some(key);
        }
        self.waiting.push_reserved(key);
    }

    /// Takes all places out, and keeps the room.
    pub(crate) fn clear(&mut self)
        ensures has { (q : PlaceKey) → has_place self.new q ≡ false }
        ensures bounded { IsBounded self.new }
        ensures len { vec_len self.new.waiting ≡ 0 }
        ensures capacity { vec_capacity self.new.waiting ≡ vec_capacity self.old.waiting }
    {
        self.sorted.clear();
        self.waiting.clear();
        self.greatest = None;
    }
}
