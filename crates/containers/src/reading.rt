//! Reading variables and containers.

ghost use Rattle.std.specs.Prelude.{◌≡◌, [], Ok, Err, IfSome, MatchOption, MatchResult, None, Some};
ghost use Rattle.std.specs.FinMap as finite;
ghost use Rattle.ht_values.specs.Text.{numeral as numeral_of};
ghost use Rattle.ht_values.specs.Outcome.{Gives};
ghost use Rattle.containers.specs.Places.{read_name as read_name_of, text_in as text_in_of, whole as whole_of};
ghost use Rattle.containers.specs.Edits.{read_at};
ghost use Rattle.containers.specs.Standing.{standing_text};

use crate::edit::part;
use crate::place::{Place, Storage};
use crate::standing::Standing;
use crate::store::Store;
use crate::variables::{NameMeaning, Variables};
use ht_values::{Failure, Fault, Name, Text, Value, plain_number};
use std::alloc::Global;

/// What a name reads as an expression, lent: the value of its variable, or its spelling where that has none. It takes
/// no memory.
#[inline(always)]
pub fn read_name<'a, W: Store>(
    world: &'a W,
    variables: &'a Variables,
    name: &'a Name,
) -> Standing<'a>
    ensures { standing_text result ≡ read_name_of (W.history world.now).now variables.now name.now }
{
    match variables.meaning_of(name) {
        NameMeaning::Own(value) => Standing::Value(value),
        NameMeaning::Unknown => Standing::Text(name.text()),
        NameMeaning::Global => match world.global(name.folded()) {
            Some(text) => Standing::Text(text),
            None => Standing::Text(name.text()),
        },
    }
}

/// The number whose numeral a name reads as an expression, where its variable is kept as a number, or is a global whose
/// value is the numeral of one without a sign; `None` where it isn't known so. It takes no memory.
#[inline]
pub fn read_number<W: Store>(world: &W, variables: &Variables, name: &Name) -> Option<i64>
    ensures { IfSome result (λ n. read_name_of (W.history world.now).now variables.now name.now ≡ numeral_of n) }
{
    match variables.meaning_of(name) {
        NameMeaning::Own(value) => value.kept_number(),
        NameMeaning::Unknown => None,
        NameMeaning::Global => plain_number(world.global(name.folded())?.as_slice()),
    }
}

/// What stands at a place, whole, lent: a variable may have no value. It takes no memory.
pub fn standing_in<'a, W: Store>(
    world: &'a W,
    variables: &'a Variables,
    place: &Place<'_>,
) -> Option<Standing<'a>>
    ensures { MatchOption result (text_in_of (W.history world.now).now variables.now place.now.storage ≡ None)
        (λ s. text_in_of (W.history world.now).now variables.now place.now.storage ≡ Some (standing_text s)) }
{
    match &place.storage {
        Storage::Global(name) => Some(Standing::Text(world.global(name.folded())?)),
        Storage::Own(name) => Some(Standing::Value(variables.own_value(name)?)),
        Storage::Field(field, card) => Some(Standing::Text(world.stack().text(*field, *card)?)),
    }
}

/// The whole text of a container: `empty` where it is a variable without a value, `NoSuchObject` where it is a text of
/// a field that isn't there.
pub(crate) fn whole<'a, W: Store>(
    world: &'a W,
    variables: &'a Variables,
    place: &Place<'_>,
    empty: &'a Text,
) -> Result<Standing<'a>, Fault>
    requires { empty.now ≡ [] }
    ensures { MatchResult result (λ s. whole_of (W.history world.now).now variables.now place.now.storage
        ≡ Ok (standing_text s)) (λ e. whole_of (W.history world.now).now variables.now place.now.storage ≡ Err e) }
{
    match (standing_in(world, variables, place), &place.storage) {
        (Some(standing), _) => Ok(standing),
        (None, Storage::Field(_, _)) => Err(Fault::NoSuchObject),
        (None, _) => Ok(Standing::Text(empty)),
    }
}

/// What a container reads: what its chunks read of its text, which is empty for a variable without a value. The
/// delimiter is that of items. `NoSuchObject` where it is a text of a field that isn't there any more.
pub fn read<W: Store>(
    alloc: Global,
    world: &W,
    variables: &Variables,
    place: &Place<'_>,
    delimiter: u8,
) -> Result<Value, Failure>
    ensures { Gives result (read_at (W.history world.now).now variables.now delimiter place.now) }
{
    let empty = Text::new(alloc);
    let standing = whole(world, variables, place, &empty)?;
    part(alloc, standing, &place.chunks, delimiter)
}
