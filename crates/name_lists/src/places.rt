//! Where names stand.

ghost use Rattle.std.specs.Prelude.{◌≡◌, ℕ, List, Some, None, true, if◌then◌else◌, IfOk, OnOk, OnErr};
ghost use Rattle.std.specs.Str.{bytes_eq};
ghost use Rattle.ht_values.specs.Text.{folded, same};
ghost use Rattle.name_lists.specs.Parameters.{bindings_of, names_bound};
ghost use Rattle.name_lists.specs.Places.{place_in, place_kept, place_of_name};

use crate::bound_names::BoundNames;
use ht_values::Name;
use std::alloc::{AllocError, Global};
use std::collections::BTreeMap;
use std::marker::Model;
use std::rc::Rc;

/// How many names are looked at one by one.
pub const MOST_SCANNED: usize = 16;

const _: () = prove!(MOST_SCANNED == 16);

/// Places of names, by their folded forms.
#[derive(Drop)]
pub(crate) struct PlaceMap {
    entries: BTreeMap<Vec<u8>, usize>,
}

impl PlaceMap {
    /// No places. It takes no memory.
    pub(crate) fn new(alloc: Global) -> PlaceMap
        ensures { (name : List ℕ) → place_in result name ≡ None }
    {
        PlaceMap {
            entries: BTreeMap::new(alloc),
        }
    }

    /// The place of the names with this folded form, if one is kept.
    pub(crate) fn get(&self, form: &[u8]) -> Option<usize>
        ensures { (name : List ℕ) → form.now ≡ folded name → result ≡ place_in self.now name }
    {
        self.entries.get(form).copied()
    }

    /// Keeps the place of the names with this folded form. Where memory was refused nothing changes.
    pub(crate) fn keep(
        &mut self,
        alloc: Global,
        form: &[u8],
        place: usize,
    ) -> Result<(), AllocError>
        ensures ok { OnOk result ((other : List ℕ) → place_in self.new other
            ≡ (if bytes_eq form.now (folded other) then Some place else place_in self.old other)) }
        ensures err { OnErr result ((other : List ℕ) → place_in self.new other ≡ place_in self.old other) }
    {
        let key = Vec::from_slice(alloc, form)?;
        self.entries.insert(key, place)?;
        Ok(())
    }
}

/// Places of names, of which some are shared: of the parameters, with all calls of a handler.
pub struct NamePlaces {
    own: PlaceMap,
    shared: Option<Rc<BoundNames>>,
}

/// Written here and not derived, so that it is proved once how they are dropped.
impl Drop for NamePlaces {
    fn drop(self) {
        let NamePlaces { own: _, shared: _ } = self;
    }
}

/// Contracts see the names that have places, each with its place.
impl Model for NamePlaces {
    ghost use Rattle.std.specs.Prelude.{◌++◌, ℕ, List, option_map};
    ghost use Rattle.name_lists.specs.Places.{pairs_in, pairs_shared};

    ghost Value = { List (List ℕ × ℕ) };

    ghost view = { λ p. pairs_in p.own ++ pairs_shared (option_map (λ r. r.value) p.shared) };
}

impl NamePlaces {
    /// No places. It takes no memory.
    pub fn new(alloc: Global) -> NamePlaces
        ensures { (name : List ℕ) → place_kept result name ≡ None }
    {
        NamePlaces {
            own: PlaceMap::new(alloc),
            shared: None,
        }
    }

    /// Those of parameters, which are shared, alone. It takes no memory.
    #[inline]
    pub(crate) fn of_shared(alloc: Global, shared: Rc<BoundNames>) -> NamePlaces
        ensures { (name : List ℕ) → place_kept result name
            ≡ place_of_name name (names_bound (bindings_of shared.value)) }
    {
        NamePlaces {
            own: PlaceMap::new(alloc),
            shared: Some(shared),
        }
    }

    /// The place of a name, if one is kept.
    pub fn get(&self, name: &Name) -> Option<usize>
        ensures { result ≡ place_kept self.now name.now }
    {
        if let Some(place) = self.own.get(name.folded()) {
            return Some(place);
        }
        match &self.shared {
            Some(names) => names.place_of(name),
            None => None,
        }
    }

    /// Keeps the place of a name, beside those that are shared. Where memory was refused nothing changes.
    pub fn keep(&mut self, alloc: Global, name: &Name, place: usize) -> Result<(), AllocError>
        ensures ok { OnOk result ((other : List ℕ) → place_kept self.new other
            ≡ (if same name.now other then Some place else place_kept self.old other)) }
        ensures err { OnErr result ((other : List ℕ) → place_kept self.new other ≡ place_kept self.old other) }
    {
        self.own.keep(alloc, name.folded(), place)
    }
}
