//! Ids, and lists of them.

ghost use Rattle.std.specs.Prelude.{◌≡◌, ℕ, ◌<◌, List, [], ◌∷◌, ◌++◌, length, OnOk, OnErr, slice_get, Some, IfSome};
ghost use Rattle.std.specs.Prelude.{position, ◌==◌, ◌^◌};
ghost use Rattle.object_table.specs.Numbers.{at_number, number_in};

use std::alloc::{AllocError, Global};
use std::marker::Model;

/// The name of an object for as long as it lives: 0 is the stack itself, the others are 1 to 1,000,000.
pub type Id = u32;

/// A list of ids, which contracts see as a list of numbers.
#[derive(Drop)]
pub struct IdList {
    items: Vec<u32>,
}

impl Model for IdList {
    ghost Value = { List ℕ };

    ghost view = { λ t. t.items.items };
}

impl IdList {
    /// The list of no ids. It takes no memory.
    pub fn new(alloc: Global) -> IdList
        ensures { result ≡ [] }
    {
        IdList {
            items: Vec::new(alloc),
        }
    }

    /// The list of these ids. It takes no memory.
    pub fn from_vec(items: Vec<Id>) -> IdList
        ensures { result ≡ items.items }
    {
        IdList { items }
    }

    /// Adds an id at the end. Where a growth is refused the list is as before.
    pub fn push(&mut self, id: Id) -> Result<(), AllocError>
        ensures ok { OnOk result (self.new ≡ self.old ++ id ∷ []) }
        ensures err { OnErr result (self.new ≡ self.old) }
    {
        self.items.push(id)?;
        Ok(())
    }

    /// How many ids the list has.
    pub fn len(&self) -> usize
        ensures { result ≡ length self.now }
    {
        self.items.len()
    }

    /// The id at a place, counted from 0.
    pub fn at(&self, i: usize) -> Id
        requires { i < length self.now }
        ensures { slice_get self.now i ≡ Some result }
    {
        self.items[i]
    }

    /// The id with a number, counted from 1.
    pub fn at_number(&self, number: usize) -> Option<Id>
        ensures { result ≡ at_number self.now number }
    {
        let i = number.checked_sub(1)?;
        self.items.get(i).copied()
    }

    /// The number of the first place where an id stands, counted from 1.
    pub fn number_of(&self, id: Id) -> Option<usize>
        ensures value { result ≡ number_in id self.now }
        ensures stands_there { IfSome result (λ number. at_number self.now number ≡ Some id) }
    {
        Some(self.place_of(id)? + 1)
    }

    fn place_of(&self, id: Id) -> Option<usize>
        ensures value { result ≡ position (λ x. x == id) self.now }
        ensures within { IfSome result (λ i. i < length self.now) }
        ensures short { length self.now < 2 ^ 64 }
    {
        self.items.iter().position(|item| *item == id)
    }

    /// The ids in their order.
    pub fn as_slice(&self) -> &[Id]
        ensures { result.now ≡ self.now }
    {
        &self.items
    }
}
