//! Places as keys, in an order.

ghost use Rattle.std.specs.Prelude.{◌≡◌};
ghost use Rattle.journal_entries.specs.Keys.{key_of as key_of_entry, stack_key, property_of as property_by};

use crate::entry::Entry;
use object_table::{Id, PropValue};
use stack_places::StackEntry;

/// The properties that may be set, in an order.
#[derive(Clone, Copy, Eq, Ord, PartialEq, PartialOrd)]
pub(crate) enum PropertyKey {
    Name,
    Script,
    Visible,
    Hilite,
    SharedHilite,
    LockText,
    SharedText,
    CantDelete,
}

/// The place that an entry replaces, where it neither makes or removes an object nor belongs to an external. The order
/// is that in which most changes write their places.
#[derive(Clone, Copy, Eq, Ord, PartialEq, PartialOrd)]
pub(crate) enum PlaceKey {
    NextId,
    CardOrder,
    BackgroundOrder,
    Parts(Id),
    /// A property of an object.
    Property(Id, PropertyKey),
    /// A field and a card, or 0.
    FieldText(Id, Id),
    /// A button and a card, or 0.
    CardHilite(Id, Id),
    CurrentCard,
    /// The number of a global's name.
    Global(usize),
}

/// The place of an entry, if it has one.
pub(crate) fn key_of(entry: &Entry) -> Option<PlaceKey>
    ensures { result ≡ key_of_entry entry.now }
{
    match entry {
        Entry::Global(i, _) => Some(PlaceKey::Global(*i)),
        Entry::Current(_) => Some(PlaceKey::CurrentCard),
        Entry::Stack(entry) => stack_key_of(entry),
        Entry::External(_, _) => None,
    }
}

fn stack_key_of(entry: &StackEntry) -> Option<PlaceKey>
    ensures { result ≡ stack_key entry.now }
{
    match entry {
        StackEntry::Prop(id, value) => Some(PlaceKey::Property(*id, property_of(value))),
        StackEntry::FieldText(field, card, _) => Some(PlaceKey::FieldText(*field, *card)),
        StackEntry::Hilite(button, card, _) => Some(PlaceKey::CardHilite(*button, *card)),
        StackEntry::Object(_, _) => None,
        StackEntry::CardOrder(_) => Some(PlaceKey::CardOrder),
        StackEntry::BackgroundOrder(_) => Some(PlaceKey::BackgroundOrder),
        StackEntry::Parts(layer, _) => Some(PlaceKey::Parts(*layer)),
        StackEntry::NextId(_) => Some(PlaceKey::NextId),
    }
}

/// The property that a value is for.
fn property_of(value: &PropValue) -> PropertyKey
    ensures { result ≡ property_by value.now }
{
    match value {
        PropValue::NameIs(_) => PropertyKey::Name,
        PropValue::ScriptIs(_) => PropertyKey::Script,
        PropValue::VisibleIs(_) => PropertyKey::Visible,
        PropValue::HiliteIs(_) => PropertyKey::Hilite,
        PropValue::SharedHiliteIs(_) => PropertyKey::SharedHilite,
        PropValue::LockTextIs(_) => PropertyKey::LockText,
        PropValue::SharedTextIs(_) => PropertyKey::SharedText,
        PropValue::CantDeleteIs(_) => PropertyKey::CantDelete,
    }
}
