//! Reading properties.

ghost use Rattle.std.specs.Prelude.{◌≡◌};
ghost use Rattle.ht_values.specs.Operators.{in_words};
ghost use Rattle.ht_values.specs.Outcome.{Gives};
ghost use Rattle.properties.specs.PropertyText as properties;

use crate::flag::{cant_delete, lock_text, shared_hilite, shared_text, visible};
use crate::name::{full_name, own_id, short_id, short_name};
use ht_values::{Failure, Fault, Prop, Text, in_word};
use itoa::Buffer;
use object_table::{Id, Kind, Object, Stack};
use std::alloc::Global;

/// The text of a property of the object with an id; `card` is the card whose hilite is meant if the object is a
/// background's button that shares none. A fault is `NoSuchProperty` if there is no such object or it has no such
/// property, `NoSuchObject` if the card isn't of the button's background (0 is no card), and `TooLong` for a name that
/// with its kind is over 30,000 bytes; else it is `Memory` if a growth was refused.
pub fn get(alloc: Global, stack: &Stack, card: Id, id: Id, prop: Prop) -> Result<Text, Failure>
    ensures { Gives result (properties.property_of stack.now.content card id prop) }
{
    match stack.object(id) {
        Some(object) => property_by(alloc, stack, card, id, object, prop),
        None => Err(Failure::Fault(Fault::NoSuchProperty)),
    }
}

fn property_by(
    alloc: Global,
    stack: &Stack,
    card: Id,
    id: Id,
    object: &Object,
    prop: Prop,
) -> Result<Text, Failure>
    ensures { Gives result (properties.property_by stack.now.content card id object.now prop) }
{
    let kind = object.kind;
    match prop {
        Prop::Name => full_name(alloc, id, object),
        Prop::ShortName => short_name(alloc, id, object),
        Prop::Id => in_digits(alloc, own_id(kind, id)),
        Prop::ShortId => in_digits(alloc, short_id(kind, id)),
        Prop::Number => in_digits(alloc, stack.number(id)),
        Prop::Script => Ok(object.script.try_clone(alloc)?),
        Prop::Visible => flag(alloc, visible(kind)),
        Prop::Hilite => in_words_of(alloc, hilite(stack, card, id, kind)),
        Prop::SharedHilite => flag(alloc, shared_hilite(kind)),
        Prop::LockText => flag(alloc, lock_text(kind)),
        Prop::SharedText => flag(alloc, shared_text(kind)),
        Prop::CantDelete => flag(alloc, cant_delete(kind)),
    }
}

fn in_digits(alloc: Global, number: Option<usize>) -> Result<Text, Failure>
    ensures { Gives result (properties.in_digits number) }
{
    let number = number.ok_or(Fault::NoSuchProperty)?;
    let mut buffer = Buffer::new();
    Ok(Text::fitting(alloc, buffer.format(number).as_bytes())?)
}

fn in_words_of(alloc: Global, truth: Result<bool, Fault>) -> Result<Text, Failure>
    ensures { Gives result (in_words truth) }
{
    in_word(alloc, truth?)
}

fn flag(alloc: Global, flag: Option<bool>) -> Result<Text, Failure>
    ensures { Gives result (properties.flag flag) }
{
    in_words_of(alloc, flag.ok_or(Fault::NoSuchProperty))
}

fn hilite(stack: &Stack, card: Id, id: Id, kind: Kind) -> Result<bool, Fault>
    ensures { result ≡ properties.hilite_for stack.now.content card id kind }
{
    match kind {
        Kind::CardButton { hilite, .. } => Ok(hilite),
        Kind::BackgroundButton { shared_hilite, .. } => {
            let kept = if shared_hilite {
                stack.hilite(id, 0)
            } else {
                own_hilite(stack, card, id)
            };
            kept.ok_or(Fault::NoSuchObject)
        }
        Kind::Stack
        | Kind::Background { .. }
        | Kind::Card { .. }
        | Kind::CardField { .. }
        | Kind::BackgroundField { .. } => Err(Fault::NoSuchProperty),
    }
}

/// A card's own hilite of a button of its background. Id 0 is no card: under it stands the hilite that is shared.
pub fn own_hilite(stack: &Stack, card: Id, id: Id) -> Option<bool>
    ensures { result ≡ properties.own_hilite stack.now.content card id }
{
    if card == 0 {
        None
    } else {
        stack.hilite(id, card)
    }
}
