//! The names of parameters with what calls need of them.

ghost use Rattle.std.specs.Prelude.{◌≡◌, ◌<◌, length, IfOk};
ghost use Rattle.std.specs.List.{HoldsAt};
ghost use Rattle.name_lists.specs.Places.{place_of_name};
ghost use Rattle.name_lists.specs.Parameters.{arguments_of, bindings_of, names_bound};

use crate::folded_name::FoldedName;
use crate::order::{MOST_UNORDERED, order_of, scanned, searched};
use crate::parameters::Binding;
use ht_values::{Name, Text};
use std::alloc::{AllocError, Global};
use std::marker::Model;

/// The names of parameters as they are written, and in little memory what all calls need of them.
pub(crate) struct BoundNames {
    written: Vec<Text>,
    /// Of each name that differs, the number of its argument: where it is written last.
    arguments: Vec<usize>,
    /// The places of those in the order of their folded forms, if they are many.
    order: Vec<usize>,
}

/// Written here and not derived, so that it is proved once how they are dropped.
impl Drop for BoundNames {
    fn drop(self) {
        let BoundNames {
            written: _,
            arguments: _,
            order: _,
        } = self;
    }
}

impl Model for BoundNames {
    ghost use Rattle.std.specs.Prelude.{◌≡◌, ◌<◌, ℕ, List, length};
    ghost use Rattle.name_lists.specs.Parameters.{arguments_of, bindings_of, names_bound};
    ghost use Rattle.name_lists.specs.Order.{IsOrderOf};
    ghost use Rattle.name_lists.specs.declared.order.TheConstants.{MOST_UNORDERED};

    ghost Value = { List (List ℕ) };

    ghost view = { λ n. n.written.items };

    ghost invariant = { λ n. (n.arguments.items ≡ arguments_of n.written.items)
        × (MOST_UNORDERED < length n.arguments.items
        → IsOrderOf (names_bound (bindings_of n.written.items)) n.order.items) };
}

impl BoundNames {
    /// These names, with the numbers of their arguments.
    pub(crate) fn new(
        alloc: Global,
        written: Vec<Text>,
        arguments: Vec<usize>,
    ) -> Result<BoundNames, AllocError>
        requires { arguments.items ≡ arguments_of written.items }
        ensures { IfOk result (λ n. n ≡ written.items) }
    {
        let order = order_of(alloc, &written, &arguments)?;
        Ok(BoundNames {
            written,
            arguments,
            order,
        })
    }

    /// The names as they are written.
    pub(crate) fn written(&self) -> &[Text]
        ensures { result.now ≡ self.now }
    {
        &self.written
    }

    /// How many names differ.
    #[inline]
    pub(crate) fn count(&self) -> usize
        ensures { result ≡ length (bindings_of self.now) }
    {
        self.arguments.len()
    }

    /// The name at a place, with the number of its argument.
    #[inline]
    pub(crate) fn binding(&self, alloc: Global, place: usize) -> Result<Binding, AllocError>
        requires { place < length (bindings_of self.now) }
        ensures { IfOk result (λ b. HoldsAt (λ x. x ≡ b) (bindings_of self.now) place) }
    {
        let argument = self.arguments[place];
        let name = FoldedName::of_text(alloc, &self.written[argument])?;
        Ok(Binding { name, argument })
    }

    /// The place of the name that is the same.
    pub(crate) fn place_of(&self, name: &Name) -> Option<usize>
        ensures { result ≡ place_of_name name.now (names_bound (bindings_of self.now)) }
    {
        let name = name.text().as_slice();
        if self.arguments.len() > MOST_UNORDERED {
            searched(&self.written, &self.arguments, &self.order, name)
        } else {
            scanned(&self.written, &self.arguments, name)
        }
    }
}
