//! The changes of a state.

ghost use Rattle.std.specs.Prelude.{◌≤◌, ◌<◌, length, All};
ghost use Rattle.ht_values.specs.declared.text.TheConstants.{LIMIT};
ghost use Rattle.journal_entries.specs.Changes.{HasTexts};
ghost use Rattle.journal_entries.specs.declared.change.Change.TheVariants as made_change;

use ht_values::{PartKind, Text, law_of_text};
use object_table::{Id, LayerId, PropValue};

/// A change of the present state.
#[derive(Drop)]
pub enum Change {
    /// A global, by its folded name, gets this value, or none.
    Global(Text, Option<Text>),
    /// A text of a field that is there: for a card, or for 0 the text that the cards share.
    FieldText(Id, Id, Text),
    /// A hilite of a background's button that is there: for a card, or for 0 the hilite that the cards share.
    Hilite(Id, Id, bool),
    /// A property of an object, which has that property.
    Prop(Id, PropValue),
    /// The card of this id becomes the current one.
    Current(Id),
    /// A card on the background of the current one, behind which it stands. It becomes the current one.
    NewCard,
    /// A background, the last one, and its card, which stands behind the current one and becomes the current one.
    NewBackground,
    /// A button or a field, the last part of a card or of a background.
    NewPart(LayerId, PartKind),
    /// The current card goes, and its background with it if it is the last card there. The card that follows becomes
    /// the current one.
    DeleteCard,
}

/// What the texts of a change are by their type.
pub fn law_of_texts(change: &Change)
    ensures { HasTexts change.now }
{
    match change {
        Change::Global(name, value) => law_of_global(name.as_slice(), value),
        Change::FieldText(_, _, text)
        | Change::Prop(_, PropValue::NameIs(text))
        | Change::Prop(_, PropValue::ScriptIs(text)) => law_of_text(text),
        Change::Hilite(_, _, _)
        | Change::Prop(_, _)
        | Change::Current(_)
        | Change::NewCard
        | Change::NewBackground
        | Change::NewPart(_, _)
        | Change::DeleteCard => {}
    }
}

/// What the name, of at most 30,000 bytes, and the value of a global's change are by their types.
pub fn law_of_global(name: &[u8], value: &Option<Text>)
    requires short { length name.now ≤ LIMIT }
    ensures { HasTexts (made_change.Global name.now value.now) }
{
    law_of_bytes(name);
    if let Some(text) = value {
        law_of_text(text);
    }
}

/// A byte is known to be one as it is read, so this reads them all; nothing is done with them, so a compiler may take
/// the loop out.
fn law_of_bytes(bytes: &[u8])
    ensures { All (λ b. b < 256) bytes.now }
{
    for byte in bytes {
        let _read = *byte;
    }
}
