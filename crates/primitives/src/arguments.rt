//! The values of arguments.

ghost use Rattle.std.specs.Prelude.{◌≡◌, [], ◌∷◌, ◌++◌, IfOk, OnOk, length};
ghost use Rattle.primitives.specs.Listed.{listed};

use ht_values::Value;
use std::alloc::{AllocError, Global};
use std::marker::Model;
use std::{mem, slice};

/// For how many values there is room where there is a second one.
const ROOM: usize = 4;

/// Values in their order: a single one takes no memory.
#[derive(Drop)]
pub(crate) enum Listed {
    Nothing,
    One(Value),
    All(Vec<Value>),
}

/// Values that are handed over with a message, in their order.
pub struct Arguments {
    values: Listed,
    alloc: Global,
}

/// Written here and not derived, so that no crate above proves anew how it is dropped.
impl Drop for Arguments {
    // Else each place that drops them has a copy of them in its frame.
    #[inline(always)]
    fn drop(self) {
        let Arguments {
            values: _,
            alloc: _,
        } = self;
    }
}

impl Model for Arguments {
    ghost use Rattle.std.specs.Prelude.{List, ℕ};
    ghost use Rattle.primitives.specs.Listed.{listed};

    ghost Value = { List (List ℕ) };

    ghost view = { λ a. listed a.values };
}

impl Arguments {
    /// No arguments. It takes no memory.
    pub fn new(alloc: Global) -> Arguments
        ensures { result ≡ [] }
    {
        Arguments {
            values: Listed::Nothing,
            alloc,
        }
    }

    /// Adds a value at their end, which is taken out of its place. The first takes no memory. It is out of line: else
    /// the frame of who evaluates an argument has a place more for its value.
    #[inline(never)]
    pub fn push(&mut self, place: &mut Value) -> Result<(), AllocError>
        ensures { OnOk result (self.new ≡ self.old ++ place.old ∷ []) }
    {
        let value = mem::replace(place, Value::of_number(0));
        match &self.values {
            Listed::Nothing => {
                self.values = Listed::One(value);
                Ok(())
            }
            Listed::One(_) | Listed::All(_) => self.push_behind(value),
        }
    }

    /// Adds another at their end, where there is one at least.
    fn push_behind(&mut self, value: Value) -> Result<(), AllocError>
        ensures { OnOk result (self.new ≡ self.old ++ value ∷ []) }
    {
        if let Listed::All(items) = &mut self.values {
            items.push(value)?;
            return Ok(());
        }
        let values = mem::replace(&mut self.values, Listed::Nothing);
        self.values = with_last(self.alloc, values, value)?;
        Ok(())
    }

    /// One argument. It takes no memory.
    pub fn of_one(alloc: Global, value: Value) -> Arguments
        ensures { result ≡ value ∷ [] }
    {
        Arguments {
            values: Listed::One(value),
            alloc,
        }
    }

    /// How many there are.
    pub fn len(&self) -> usize
        ensures { result ≡ length self.now }
    {
        self.as_slice().len()
    }

    /// The arguments as a slice.
    pub fn as_slice(&self) -> &[Value]
        ensures { result.now ≡ self.now }
    {
        match &self.values {
            Listed::Nothing => &[],
            Listed::One(value) => slice::from_ref(value),
            Listed::All(items) => items,
        }
    }
}

/// Values with another at their end. The first takes no memory.
fn with_last(alloc: Global, values: Listed, value: Value) -> Result<Listed, AllocError>
    ensures { IfOk result (λ l. listed l ≡ listed values ++ value ∷ []) }
{
    match values {
        Listed::Nothing => Ok(Listed::One(value)),
        Listed::One(first) => Ok(Listed::All(both(alloc, first, value)?)),
        Listed::All(mut items) => {
            items.push(value)?;
            Ok(Listed::All(items))
        }
    }
}

/// Two values.
fn both(alloc: Global, first: Value, second: Value) -> Result<Vec<Value>, AllocError>
    ensures { IfOk result (λ v. v.items ≡ first ∷ second ∷ []) }
{
    let mut items = Vec::with_capacity(alloc, ROOM)?;
    items.push(first)?;
    items.push(second)?;
    Ok(items)
}
