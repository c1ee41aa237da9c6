//! What containers use of a world.

ghost use Rattle.std.specs.Prelude.{◌≡◌, ◌≤◌, true, length, Some, IfSome, IsSome, OnOk, OnErr, option_copied};
ghost use Rattle.std.specs.FinMap as finite;
ghost use Rattle.ht_values.specs.Text.{numeral};
ghost use Rattle.ht_values.specs.declared.text.TheConstants.{LIMIT};
ghost use Rattle.journal_entries.specs.Changes.{fits};
ghost use Rattle.journal_entries.specs.declared.change.Change.TheVariants as made_change;
ghost use Rattle.change_journal.specs.Rising.{Made};

use change_journal::{Change, World};
use externals::External;
use ht_values::Text;
use object_table::Stack;
use std::alloc::AllocError;

/// What has a history whose present state is read and changed, as a world has, whatever its externals are.
pub trait Store {
    ghost use Rattle.change_journal.specs.History.{History};

    ghost history: { Self → History };

    /// The stack.
    fn stack(&self) -> &Stack
        ensures { result.now.content ≡ (history self.now).now.stack };

    /// The value of a global, by its folded name, if it has one.
    fn global(&self, name: &[u8]) -> Option<&Text>
        ensures { option_copied result ≡ finite.get (history self.now).now.globals name.now };

    /// The number whose numeral the value of a global is, by its folded name, where that is known without reading the
    /// value.
    fn known_number(&self, name: &[u8]) -> Option<i64>
        ensures { IfSome result (λ n. finite.get (history self.now).now.globals name.now ≡ Some (numeral n)) };

    /// Gives a global a value, or none, by its folded name of at most 30,000 bytes, in the open batch. Where memory was
    /// refused nothing changes.
    fn put_global(&mut self, name: &[u8], value: Option<Text>) -> Result<(), AllocError>
        requires open { IsSome (history self.old).start }
        requires short { length name.now ≤ LIMIT }
        requires fits { fits (history self.old).now (made_change.Global name.now value) ≡ true }
        ensures ok { OnOk result (Made (history self.old) (history self.new) (made_change.Global name.now value)) }
        ensures err { OnErr result (history self.new ≡ history self.old) };

    /// Gives a global the numeral of a number, by its folded name of at most 30,000 bytes, in the open batch. Where
    /// memory was refused nothing changes.
    fn put_global_number(&mut self, name: &[u8], number: i64) -> Result<(), AllocError>
        requires open { IsSome (history self.old).start }
        requires short { length name.now ≤ LIMIT }
        requires fits { fits (history self.old).now (made_change.Global name.now (Some (numeral number))) ≡ true }
        ensures ok { OnOk result (Made (history self.old) (history self.new)
            (made_change.Global name.now (Some (numeral number)))) }
        ensures err { OnErr result (history self.new ≡ history self.old) };

    /// Makes a change in the open batch. Where memory was refused nothing changes.
    fn make(&mut self, change: Change) -> Result<(), AllocError>
        requires open { IsSome (history self.old).start }
        requires fits { fits (history self.old).now change ≡ true }
        ensures ok { OnOk result (Made (history self.old) (history self.new) change) }
        ensures err { OnErr result (history self.new ≡ history self.old) };
}

impl<E: External> Store for World<E> {
    ghost history = { λ w. w.history };

    fn stack(&self) -> &Stack {
        World::stack(self)
    }

    fn global(&self, name: &[u8]) -> Option<&Text> {
        World::global(self, name)
    }

    fn known_number(&self, name: &[u8]) -> Option<i64> {
        World::known_number(self, name)
    }

    fn put_global(&mut self, name: &[u8], value: Option<Text>) -> Result<(), AllocError> {
        World::put_global(self, name, value)
    }

    fn put_global_number(&mut self, name: &[u8], number: i64) -> Result<(), AllocError> {
        World::put_global_number(self, name, number)
    }

    fn make(&mut self, change: Change) -> Result<(), AllocError> {
        World::make(self, change)
    }
}
