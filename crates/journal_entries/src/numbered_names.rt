//! Names, each once, numbered in the order in which they come.

ghost use Rattle.std.specs.Prelude.{◌≡◌, ℕ, ◌<◌, List, [], ◌∷◌, ◌++◌, length, true, None, OnOk, OnErr, slice_index_or};
ghost use Rattle.std.specs.Prelude.{slice_get, option_map, IfSome, ◌^◌};
ghost use Rattle.journal_entries.specs.Named.{IsNumberOf};

use indexmap::IndexSet;
use std::alloc::{AllocError, Global};
use std::collections::BTreeMap;
use std::marker::Model;

/// So many names are found by a hash. Whoever writes a stack knows its seed, and can choose names that are all compared
/// then. Those that come later are found by their order.
const FEW: usize = 1_000;

/// Names that are found by their order, whatever they are in few comparisons.
#[derive(Drop)]
struct OrderedNames {
    names: Vec<Vec<u8>>,
    numbers: BTreeMap<Vec<u8>, usize>,
}

impl Model for OrderedNames {
    ghost use Rattle.std.specs.Prelude.{ℕ, List, map};
    ghost use Rattle.std.specs.Ordering.{nat_cmp};
    ghost use Rattle.std.specs.Cmp.Lexicographic.{slice_cmp};
    ghost use Rattle.std.specs.BTreeMap.{get_by};
    ghost use Rattle.journal_entries.specs.Named.{IsNumberOf};

    ghost Value = { List (List ℕ) };

    ghost view = { λ o. map (λ k. k.items) o.names.items };

    ghost invariant = { λ o. (name : List ℕ)
        → IsNumberOf (map (λ k. k.items) o.names.items) name (get_by (λ k. slice_cmp nat_cmp name k.items) o.numbers) };
}

impl OrderedNames {
    /// No names. It takes no memory.
    fn new(alloc: Global) -> OrderedNames
        ensures { result ≡ [] }
    {
        OrderedNames {
            names: Vec::new(alloc),
            numbers: BTreeMap::new(alloc),
        }
    }

    fn is_empty(&self) -> bool
        ensures { result ≡ true → self.now ≡ [] }
    {
        self.names.is_empty()
    }

    /// The name with a number, if there is one.
    fn get(&self, number: usize) -> Option<&[u8]>
        ensures { option_map (λ name. name.now) result ≡ slice_get self.now number }
    {
        match self.names.get(number) {
            Some(name) => Some(name.as_slice()),
            None => None,
        }
    }

    /// The number of a name, if it has one.
    fn number_of(&self, name: &[u8]) -> Option<usize>
        ensures value { IsNumberOf self.now name.now result }
        ensures small { IfSome result (λ i. i < 2 ^ 63) }
    {
        self.numbers.get(name).copied()
    }

    /// Adds a name that isn't there. Where memory was refused nothing changes.
    fn push(&mut self, alloc: Global, name: &[u8]) -> Result<(), AllocError>
        requires { IsNumberOf self.old name.now None }
        ensures ok { OnOk result (self.new ≡ self.old ++ name.now ∷ []) }
        ensures err { OnErr result (self.new ≡ self.old) }
    {
        let number = self.names.len();
        let kept = Vec::from_slice(alloc, name)?;
        let key = Vec::from_slice(alloc, name)?;
        self.names.reserve(1)?;
        self.numbers.insert(key, number)?;
        self.names.push_reserved(kept);
        Ok(())
    }
}

/// Names, each once, with their numbers.
#[derive(Drop)]
pub(crate) struct NumberedNames {
    few: IndexSet<Vec<u8>>,
    /// Those that came when there were enough to be found by their order.
    more: OrderedNames,
}

impl Model for NumberedNames {
    ghost use Rattle.std.specs.Prelude.{ℕ, List, map, ◌++◌};

    ghost Value = { List (List ℕ) };

    ghost view = { λ n. map (λ k. k.items) n.few.keys ++ n.more };
}

impl NumberedNames {
    /// No names. It takes no memory.
    pub(crate) fn new(alloc: Global) -> NumberedNames
        ensures { result ≡ [] }
    {
        NumberedNames {
            few: IndexSet::new(alloc),
            more: OrderedNames::new(alloc),
        }
    }

    /// The name with a number, if there is one.
    pub(crate) fn get(&self, number: usize) -> Option<&[u8]>
        ensures { option_map (λ name. name.now) result ≡ slice_get self.now number }
    {
        match self.few.get_index(number) {
            Some(name) => Some(name.as_slice()),
            None => self.more.get(number - self.few.len()),
        }
    }

    /// The name with a number.
    pub(crate) fn name(&self, number: usize) -> &[u8]
        requires { number < length self.now }
        ensures { result.now ≡ slice_index_or self.now number [] }
    {
        match self.get(number) {
            Some(name) => name,
            None => unreachable!(),
        }
    }

    /// The number of a name, if it has one.
    pub(crate) fn number_of(&self, name: &[u8]) -> Option<usize>
        ensures { IsNumberOf self.now name.now result }
    {
        match self.few.get_index_of(name) {
            Some(number) => Some(number),
            None => match self.more.number_of(name) {
                Some(number) => Some(self.few.len() + number),
                None => None,
            },
        }
    }

    /// Adds a name that isn't there, whose number is how many there were. Where memory was refused nothing changes.
    pub(crate) fn push(&mut self, alloc: Global, name: &[u8]) -> Result<(), AllocError>
        requires { IsNumberOf self.old name.now None }
        ensures ok { OnOk result (self.new ≡ self.old ++ name.now ∷ []) }
        ensures err { OnErr result (self.new ≡ self.old) }
    {
        if self.few.len() < FEW && self.more.is_empty() {
            self.few.insert_full(Vec::from_slice(alloc, name)?)?;
            Ok(())
        } else {
            self.more.push(alloc, name)
        }
    }
}
