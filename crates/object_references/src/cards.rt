//! Cards and backgrounds by reference, and objects with the card that is meant.

ghost use Rattle.std.specs.Prelude.{◌≡◌, find};
ghost use Rattle.structural_changes.specs.Writes.{is_card_of};
ghost use Rattle.object_references.specs.References as references;

use crate::order::preceding;
use crate::picking::picked;
use crate::referent::{Referent, Sought};
use ht_values::Fault;
use object_table::{Id, IdList, Stack};
use structural_changes::{following, home_of, is_on};

/// The one of an order that is looked for from the one here.
fn sought_in(stack: &Stack, order: &IdList, here: Id, sought: &Sought) -> Option<Id>
    ensures { result ≡ references.sought_in stack.now.content order.now here sought.now }
{
    match sought {
        Sought::This => Some(here),
        Sought::Next => Some(following(order, here)),
        Sought::Previous => Some(preceding(order, here)),
        Sought::Picked(pick) => picked(stack, order, pick),
    }
}

/// The card that is looked for, where `current` is the current one. The next and the previous are cyclic.
/// `NoSuchObject` where there is none.
pub fn card_found(stack: &Stack, current: Id, sought: &Sought) -> Result<Id, Fault>
    ensures { result ≡ references.card_found stack.now.content current sought.now }
{
    sought_in(stack, stack.cards(), current, sought).ok_or(Fault::NoSuchObject)
}

/// The background that is looked for; this one is that of the current card. `NoSuchObject` where there is none.
pub fn background_found(stack: &Stack, current: Id, sought: &Sought) -> Result<Id, Fault>
    ensures { result ≡ references.background_found stack.now.content current sought.now }
{
    let here = home_of(stack, current);
    sought_in(stack, stack.backgrounds(), here, sought).ok_or(Fault::NoSuchObject)
}

/// The first card of a background. `NoSuchObject` where it has none.
fn first_card(stack: &Stack, background: Id) -> Result<Id, Fault>
    ensures { result ≡ references.first_card stack.now.content background }
{
    first_on(stack, stack.cards().as_slice(), background).ok_or(Fault::NoSuchObject)
}

fn first_on(stack: &Stack, cards: &[Id], background: Id) -> Option<Id>
    ensures { result ≡ find (is_card_of stack.now.content background) cards.now }
{
    cards
        .iter()
        .copied()
        .find(|card| is_on(stack, background, *card))
}

/// The card to go to for the background that is looked for: its first one. `NoSuchObject` where there is none.
pub fn first_card_found(stack: &Stack, current: Id, sought: &Sought) -> Result<Id, Fault>
    ensures { result ≡ references.first_card_found stack.now.content current sought.now }
{
    first_card(stack, background_found(stack, current, sought)?)
}

/// An object, met with the current card.
pub fn met_here(current: Id, object: Id) -> Referent
    ensures { result ≡ references.met_here current object }
{
    Referent {
        object,
        card: current,
    }
}

/// An object that may have been deleted, met with the current card. `NoSuchObject` where it is gone.
pub fn met_if_there(stack: &Stack, current: Id, object: Id) -> Result<Referent, Fault>
    ensures { result ≡ references.met_if_there stack.now.content current object }
{
    if stack.object(object).is_some() {
        Ok(met_here(current, object))
    } else {
        Err(Fault::NoSuchObject)
    }
}

/// The card that is looked for, met with the current one. `NoSuchObject` where there is none.
pub fn card_met(stack: &Stack, current: Id, sought: &Sought) -> Result<Referent, Fault>
    ensures { result ≡ references.card_met stack.now.content current sought.now }
{
    Ok(met_here(current, card_found(stack, current, sought)?))
}

/// The background that is looked for, met with the current card. `NoSuchObject` where there is none.
pub fn background_met(stack: &Stack, current: Id, sought: &Sought) -> Result<Referent, Fault>
    ensures { result ≡ references.background_met stack.now.content current sought.now }
{
    Ok(met_here(current, background_found(stack, current, sought)?))
}
