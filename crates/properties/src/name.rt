//! Names and ids of objects.

ghost use Rattle.std.specs.Prelude.{◌≡◌, Ok};
ghost use Rattle.ht_values.specs.Outcome.{Gives, within_limit};
ghost use Rattle.properties.specs.Names as names;

use ht_values::{Failure, Text, joined};
use itoa::Buffer;
use object_table::{Id, Kind, Object};
use std::alloc::Global;

fn words_of(kind: Kind) -> &'static [u8]
    ensures { result.now ≡ names.words_of kind }
{
    match kind {
        Kind::Stack => b"stack",
        Kind::Background { .. } => b"bkgnd",
        Kind::Card { .. } => b"card",
        Kind::CardButton { .. } => b"card button",
        Kind::BackgroundButton { .. } => b"bkgnd button",
        Kind::CardField { .. } => b"card field",
        Kind::BackgroundField { .. } => b"bkgnd field",
    }
}

fn is_nameless(object: &Object) -> bool
    ensures { result ≡ names.is_nameless object.now.kind object.now.name }
{
    match object.kind {
        Kind::Stack => false,
        Kind::Background { .. }
        | Kind::Card { .. }
        | Kind::CardButton { .. }
        | Kind::BackgroundButton { .. }
        | Kind::CardField { .. }
        | Kind::BackgroundField { .. } => object.name.as_text().len() == 0,
    }
}

fn by_id(alloc: Global, kind: Kind, id: Id) -> Result<Text, Failure>
    ensures { Gives result (Ok (names.by_id kind id)) }
{
    let mut buffer = Buffer::new();
    joined(alloc, words_of(kind), b" id ", buffer.format(id).as_bytes())
}

fn by_name(alloc: Global, kind: Kind, name: &Text) -> Result<Text, Failure>
    ensures { Gives result (within_limit (names.by_name kind name.now)) }
{
    let mut text = Text::new(alloc);
    text.append(words_of(kind))?;
    text.append(b" \"")?;
    text.append(name.as_slice())?;
    text.append(b"\"")?;
    Ok(text)
}

/// The name with its kind; of an object without a name its id with its kind.
pub(crate) fn full_name(alloc: Global, id: Id, object: &Object) -> Result<Text, Failure>
    ensures { Gives result (within_limit (names.full_name object.now.kind id object.now.name)) }
{
    if is_nameless(object) {
        by_id(alloc, object.kind, id)
    } else {
        by_name(alloc, object.kind, object.name.as_text())
    }
}

/// The bare name; of an object without a name its id with its kind.
pub(crate) fn short_name(alloc: Global, id: Id, object: &Object) -> Result<Text, Failure>
    ensures { Gives result (Ok (names.short_name object.now.kind id object.now.name)) }
{
    if is_nameless(object) {
        by_id(alloc, object.kind, id)
    } else {
        Ok(object.name.as_text().try_clone(alloc)?)
    }
}

pub(crate) fn own_id(kind: Kind, id: Id) -> Option<usize>
    ensures { result ≡ names.own_id kind id }
{
    match kind {
        Kind::Stack | Kind::Card { .. } => None,
        Kind::Background { .. }
        | Kind::CardButton { .. }
        | Kind::BackgroundButton { .. }
        | Kind::CardField { .. }
        | Kind::BackgroundField { .. } => Some(id as usize),
    }
}

pub(crate) fn short_id(kind: Kind, id: Id) -> Option<usize>
    ensures { result ≡ names.short_id kind id }
{
    match kind {
        Kind::Stack => None,
        Kind::Background { .. }
        | Kind::Card { .. }
        | Kind::CardButton { .. }
        | Kind::BackgroundButton { .. }
        | Kind::CardField { .. }
        | Kind::BackgroundField { .. } => Some(id as usize),
    }
}
