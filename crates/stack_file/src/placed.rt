//! Ids in the order in which they come.

ghost use Rattle.std.specs.Prelude.{◌≡◌, ◌==◌, ◌∷◌, ◌++◌, [], length, position, OnOk};
ghost use Rattle.stack_text.specs.Document.{contains_id};

use object_table::Id;
use std::alloc::{AllocError, Global};
use std::collections::BTreeMap;
use std::marker::Model;

/// Ids in the order in which they came. Where one came first is told in a few steps, whichever ids came.
#[derive(Drop)]
pub(crate) struct PlacedIds {
    ids: Vec<Id>,
    places: BTreeMap<Id, usize>,
}

impl Model for PlacedIds {
    ghost use Rattle.std.specs.Prelude.{◌≡◌, ◌==◌, ℕ, List, position};
    ghost use Rattle.std.specs.Map.{lookup};
    ghost use Rattle.std.specs.Ordering.{nat_cmp, eq_by_cmp};

    ghost Value = { List ℕ };

    ghost view = { λ p. p.ids.items };

    ghost invariant = { λ p. (id : ℕ) → lookup (eq_by_cmp nat_cmp id) p.places.entries
        ≡ position (λ x. x == id) p.ids.items };
}

impl PlacedIds {
    pub(crate) fn new(alloc: Global) -> PlacedIds
        ensures { result ≡ [] }
    {
        PlacedIds {
            ids: Vec::new(alloc),
            places: BTreeMap::new(alloc),
        }
    }

    pub(crate) fn len(&self) -> usize
        ensures { result ≡ length self.now }
    {
        self.ids.len()
    }

    /// Where an id came first, counted from 0.
    pub(crate) fn place_of(&self, id: Id) -> Option<usize>
        ensures { result ≡ position (λ x. x == id) self.now }
    {
        self.places.get(&id).copied()
    }

    pub(crate) fn contains(&self, id: Id) -> bool
        ensures { result ≡ contains_id id self.now }
    {
        self.place_of(id).is_some()
    }

    /// Adds an id at the end.
    pub(crate) fn push(&mut self, id: Id) -> Result<(), AllocError>
        ensures { OnOk result (self.new ≡ self.old ++ id ∷ []) }
    {
        if self.places.contains_key(&id) {
            self.ids.push(id)?;
            return Ok(());
        }
        self.ids.reserve(1)?;
        self.places.insert(id, self.ids.len())?;
        self.ids.push_reserved(id);
        Ok(())
    }
}
