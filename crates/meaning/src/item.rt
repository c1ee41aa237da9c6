//! The items of the menu.

use ht_values::PartKind;

/// An item that `doMenu` names.
#[derive(Clone, Copy, PartialEq, Eq, Debug)]
pub enum Item {
    NewCard,
    NewBackground,
    /// A button or a field.
    NewPart(PartKind),
    DeleteCard,
}
