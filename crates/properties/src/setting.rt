//! Testing what is to be set.

ghost use Rattle.std.specs.Prelude.{◌≡◌};
ghost use Rattle.ht_values.specs.Operators.{truth_of as truth_of_text};
ghost use Rattle.object_table.specs.Objects.{has_kind, is_button as is_button_kind, is_field as is_field_kind};
ghost use Rattle.properties.specs.Setting as setting;

use crate::flag::{cant_delete, shared_hilite, shared_text};
use ht_values::{Fault, Prop, Text, truth_of};
use object_table::{Id, Kind, PropValue, Stack};

/// The value that a text is for a property that may be set, or the text handed back with a fault: `NoSuchProperty`
/// where there is no such object, it has no such property or it may not be set, else `NotLogical` where the property is
/// a truth value and the text is none. It takes no memory.
pub fn check(stack: &Stack, id: Id, prop: Prop, text: Text) -> Result<PropValue, (Text, Fault)>
    ensures { result ≡ setting.handed_back text (setting.value_for stack.now.content id prop text) }
{
    if is_settable(stack, id, prop) {
        value_by(prop, text)
    } else {
        Err((text, Fault::NoSuchProperty))
    }
}

fn is_settable(stack: &Stack, id: Id, prop: Prop) -> bool
    ensures { result ≡ has_kind (setting.may_be_set prop) stack.now.content id }
{
    match stack.object(id) {
        Some(object) => may_be_set(prop, object.kind),
        None => false,
    }
}

fn may_be_set(prop: Prop, kind: Kind) -> bool
    ensures { result ≡ setting.may_be_set prop kind }
{
    match prop {
        Prop::Name | Prop::Script => true,
        Prop::Visible => is_button(kind) || is_field(kind),
        Prop::Hilite => is_button(kind),
        Prop::SharedHilite => shared_hilite(kind).is_some(),
        Prop::LockText => is_field(kind),
        Prop::SharedText => shared_text(kind).is_some(),
        Prop::CantDelete => cant_delete(kind).is_some(),
        Prop::ShortName | Prop::Id | Prop::ShortId | Prop::Number => false,
    }
}

fn is_button(kind: Kind) -> bool
    ensures { result ≡ is_button_kind kind }
{
    matches!(
        kind,
        Kind::CardButton { .. } | Kind::BackgroundButton { .. }
    )
}

fn is_field(kind: Kind) -> bool
    ensures { result ≡ is_field_kind kind }
{
    matches!(kind, Kind::CardField { .. } | Kind::BackgroundField { .. })
}

fn value_by(prop: Prop, text: Text) -> Result<PropValue, (Text, Fault)>
    ensures { result ≡ setting.handed_back text (setting.value_by prop text) }
{
    match prop {
        Prop::Name => Ok(PropValue::NameIs(text)),
        Prop::Script => Ok(PropValue::ScriptIs(text)),
        Prop::Visible => Ok(PropValue::VisibleIs(truth(text)?)),
        Prop::Hilite => Ok(PropValue::HiliteIs(truth(text)?)),
        Prop::SharedHilite => Ok(PropValue::SharedHiliteIs(truth(text)?)),
        Prop::LockText => Ok(PropValue::LockTextIs(truth(text)?)),
        Prop::SharedText => Ok(PropValue::SharedTextIs(truth(text)?)),
        Prop::CantDelete => Ok(PropValue::CantDeleteIs(truth(text)?)),
        Prop::ShortName | Prop::Id | Prop::ShortId | Prop::Number => {
            Err((text, Fault::NoSuchProperty))
        }
    }
}

fn truth(text: Text) -> Result<bool, (Text, Fault)>
    ensures { result ≡ setting.handed_back text (truth_of_text text) }
{
    match truth_of(&text) {
        Ok(truth) => Ok(truth),
        Err(fault) => Err((text, fault)),
    }
}
