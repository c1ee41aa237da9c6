//! Containers, and the places where their texts stand.

ghost use Rattle.std.specs.Prelude.{◌≡◌, [], ◌∷◌, ◌++◌, IfOk, Ok, false};
ghost use Rattle.ht_values.specs.Outcome.{and_then};
ghost use Rattle.containers.specs.Places.{place_of, field_text, text_met, is_shared as is_shared_in};

use crate::store::Store;
use crate::variables::Variables;
use chunks::Chunk;
use ht_values::{Fault, Name};
use object_table::{Id, Kind, Stack};
use std::alloc::{AllocError, Global};
use std::marker::Model;

/// What a container is, once its reference is found.
#[derive(Clone, Copy)]
pub enum Container<'a> {
    /// A variable, by its name.
    Variable(&'a Name),
    /// A field, by its id, and the card that it was met with: its owner, or else the current one.
    Field(Id, Id),
}

/// What holds a text: a global or a variable of the handler's own, by its name, or a field for a card, 0 standing for
/// the shared text.
#[derive(Clone, Copy)]
pub(crate) enum Storage<'a> {
    Global(&'a Name),
    Own(&'a Name),
    Field(Id, Id),
}

/// A place whose text is read and written: a variable, a text of a field, or chunks of these.
#[derive(Drop)]
pub struct Place<'a> {
    pub(crate) storage: Storage<'a>,
    pub(crate) chunks: Vec<Chunk>,
}

impl<'a> Model for Place<'a> {
    ghost use Rattle.containers.specs.Places.{PlaceView, storage_view};

    ghost Value = { PlaceView };

    ghost view = { λ p. record { storage = storage_view p.storage; chunks = p.chunks.items } };
}

/// The place of a container, without chunks yet. A name means a global or a variable of the handler's own; a field's
/// text is the one that its cards share, where they share it, else that of the card. `NoSuchObject` where the field
/// keeps no text for the card: a background's field is read and written only with a card of that background. It takes
/// no memory.
pub fn resolve<'a, W: Store>(
    alloc: Global,
    world: &W,
    variables: &Variables,
    container: Container<'a>,
) -> Result<Place<'a>, Fault>
    ensures { result ≡ place_of (W.history world.now).now.stack variables.now container.entry }
{
    let storage = match container {
        Container::Variable(name) if variables.is_global(name) => Storage::Global(name),
        Container::Variable(name) => Storage::Own(name),
        Container::Field(field, card) => {
            Storage::Field(field, card_of_text(world.stack(), field, card)?)
        }
    };
    Ok(Place {
        storage,
        chunks: Vec::new(alloc),
    })
}

/// The card under which the text of a field stands that is met with a card, 0 for the shared text.
fn card_of_text(stack: &Stack, field: Id, card: Id) -> Result<Id, Fault>
    ensures { and_then result (λ c. Ok (field_text field c)) ≡ text_met stack.now.content field card }
{
    if card == 0 || stack.text(field, card).is_none() {
        return Err(Fault::NoSuchObject);
    }
    Ok(if is_shared(stack, field) { 0 } else { card })
}

/// Whether the cards share the text of a field.
fn is_shared(stack: &Stack, field: Id) -> bool
    ensures { result ≡ is_shared_in stack.now.content field }
{
    match stack.object(field) {
        Some(object) => match object.kind {
            Kind::BackgroundField { shared_text, .. } => shared_text,
            Kind::Stack
            | Kind::Background { .. }
            | Kind::Card { .. }
            | Kind::CardButton { .. }
            | Kind::BackgroundButton { .. }
            | Kind::CardField { .. } => false,
        },
        None => false,
    }
}

impl<'a> Place<'a> {
    /// A chunk of what the place's chunks read.
    pub fn with(mut self, chunk: Chunk) -> Result<Place<'a>, AllocError>
        ensures { IfOk result (λ p. p ≡
            record { storage = self.entry.storage; chunks = self.entry.chunks ++ chunk ∷ [] }) }
    {
        self.chunks.push(chunk)?;
        Ok(self)
    }

    /// Its chunks, the nearest to the container first.
    pub fn chunks(&self) -> &[Chunk]
        ensures { result.now ≡ self.now.chunks }
    {
        &self.chunks
    }
}
