//! Properties of objects that a reference found, as they are read and set.

ghost use Rattle.std.specs.Prelude.{◌≡◌, IfOk};
ghost use Rattle.ht_values.specs.Outcome.{Gives};
ghost use Rattle.object_table.specs.Objects.{has_kind, is_background_button as is_button_of_background};
ghost use Rattle.object_references.specs.Settings as settings;

use crate::cards::met_if_there;
use crate::referent::Referent;
use ht_values::{Failure, Fault, Prop, Text};
use journal_entries::Change;
use object_table::{Id, Kind, PropValue, Stack};
use properties::{check, get, own_hilite};
use std::alloc::Global;

/// The name property of an object. A fault is `NoSuchObject` if it was deleted, and `TooLong` if the name with its kind
/// is over 30,000 bytes; else it is `Memory` if a growth was refused.
pub fn name_of(alloc: Global, stack: &Stack, current: Id, id: Id) -> Result<Text, Failure>
    ensures { Gives result (settings.name_of stack.now.content current id) }
{
    let meant = met_if_there(stack, current, id)?;
    get(alloc, stack, meant.card, meant.object, Prop::Name)
}

fn is_background_button(stack: &Stack, id: Id) -> bool
    ensures { result ≡ has_kind is_button_of_background stack.now.content id }
{
    match stack.object(id) {
        Some(object) => matches!(object.kind, Kind::BackgroundButton { .. }),
        None => false,
    }
}

fn shares_hilite(stack: &Stack, button: Id) -> bool
    ensures { result ≡ settings.shares_hilite stack.now.content button }
{
    match stack.object(button) {
        Some(object) => matches!(
            object.kind,
            Kind::BackgroundButton {
                shared_hilite: true,
                ..
            }
        ),
        None => false,
    }
}

/// A hilite of a background's button for a card, or with 0 the shared one; `kept` tells whether there is one.
fn hilite_change(kept: bool, button: Id, card: Id, lit: bool) -> Result<Change, Fault>
    ensures { result ≡ settings.hilite_change kept button card lit }
{
    if kept {
        Ok(Change::Hilite(button, card, lit))
    } else {
        Err(Fault::NoSuchObject)
    }
}

fn background_hilite(stack: &Stack, meant: Referent, lit: bool) -> Result<Change, Fault>
    ensures { result ≡ settings.background_hilite stack.now.content meant lit }
{
    let button = meant.object;
    if shares_hilite(stack, button) {
        hilite_change(stack.hilite(button, 0).is_some(), button, 0, lit)
    } else {
        let kept = own_hilite(stack, meant.card, button).is_some();
        hilite_change(kept, button, meant.card, lit)
    }
}

/// The change that gives an object a value.
fn change_of(stack: &Stack, meant: Referent, value: PropValue) -> Result<Change, Fault>
    ensures { result ≡ settings.change_of stack.now.content meant value }
{
    match value {
        PropValue::HiliteIs(lit) if is_background_button(stack, meant.object) => {
            background_hilite(stack, meant, lit)
        }
        value => Ok(Change::Prop(meant.object, value)),
    }
}

/// The change that sets a property to a text. It fits each state with this stack. `NoSuchProperty` where the object has
/// no such property or it may not be set, then `NotLogical` where the property is a truth value and the text is none,
/// then `NoSuchObject` where a background's button keeps no hilite for the card. It takes no memory.
pub fn set_change(stack: &Stack, meant: Referent, prop: Prop, text: Text) -> Result<Change, Fault>
    ensures change { result ≡ settings.setting stack.now.content meant prop text }
    ensures fits { IfOk result (settings.FitsIn stack.now.content) }
{
    match check(stack, meant.object, prop, text) {
        Ok(value) => change_of(stack, meant, value),
        Err((_, fault)) => Err(fault),
    }
}
