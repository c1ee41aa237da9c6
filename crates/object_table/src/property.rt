//! The properties of objects.

use ht_values::Text;

/// A property that may be set, with a value of its type.
#[derive(Drop)]
pub enum PropValue {
    NameIs(Text),
    ScriptIs(Text),
    VisibleIs(bool),
    HiliteIs(bool),
    SharedHiliteIs(bool),
    LockTextIs(bool),
    SharedTextIs(bool),
    CantDeleteIs(bool),
}
