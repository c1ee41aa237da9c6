//! The message path of an object.

ghost use Rattle.std.specs.Prelude.{◌≡◌, ◌≤◌, length, drop};
ghost use Rattle.object_table.specs.Objects.{background_at};
ghost use Rattle.msg_path.specs.Path.{path as path_of, path_after as path_after_object};
ghost use Rattle.msg_path.specs.declared.objects.TheConstants.{MOST_OBJECTS};

use arrayvec::ArrayVec;
use object_table::{Id, Kind, Stack};
use std::marker::Model;

/// The most objects on a path: a part, a card, its background and the stack.
pub const MOST_OBJECTS: usize = 4;

/// The ids of the objects on a path, which contracts see as a list. It takes no memory.
#[derive(Drop)]
pub struct MessagePath {
    ids: ArrayVec<Id, MOST_OBJECTS>,
}

impl Model for MessagePath {
    ghost use Rattle.std.specs.Prelude.{ℕ, List};

    ghost Value = { List ℕ };

    ghost view = { λ p. p.ids.items };
}

impl MessagePath {
    fn of(ids: &[Id]) -> MessagePath
        requires { length ids.now ≤ MOST_OBJECTS }
        ensures { result ≡ ids.now }
    {
        match ArrayVec::try_from(ids) {
            Ok(ids) => MessagePath { ids },
            Err(_) => unreachable!(),
        }
    }

    /// The ids, the first object of the path first; at most 4.
    pub fn as_slice(&self) -> &[Id]
        ensures value { result.now ≡ self.now }
        ensures fits { length self.now ≤ MOST_OBJECTS }
    {
        self.ids.as_slice()
    }

    /// The path without its first object.
    fn rest(&self) -> MessagePath
        ensures { result ≡ drop 1 self.now }
    {
        match self.as_slice() {
            [_, rest @ ..] => MessagePath::of(rest),
            [] => MessagePath::of(&[]),
        }
    }
}

/// The background of a card; `None` where this is no card.
fn background_of(stack: &Stack, card: Id) -> Option<Id>
    ensures { result ≡ background_at stack.now.content card }
{
    match stack.object(card)?.kind {
        Kind::Card { background, .. } => Some(background),
        Kind::Stack
        | Kind::Background { .. }
        | Kind::CardButton { .. }
        | Kind::BackgroundButton { .. }
        | Kind::CardField { .. }
        | Kind::BackgroundField { .. } => None,
    }
}

/// The path of an object, in the state of now: a part is followed by the current card, a card by its background, and a
/// background by the stack, which is 0. An object that is gone has the stack alone. It takes no memory.
pub fn path(stack: &Stack, current: Id, object: Id) -> MessagePath
    ensures { result ≡ path_of stack.now.content current object }
{
    let Some(found) = stack.object(object) else {
        return MessagePath::of(&[0]);
    };
    match found.kind {
        Kind::Stack => MessagePath::of(&[object]),
        Kind::Background { .. } => MessagePath::of(&[object, 0]),
        Kind::Card { background, .. } => MessagePath::of(&[object, background, 0]),
        Kind::CardButton { .. }
        | Kind::BackgroundButton { .. }
        | Kind::CardField { .. }
        | Kind::BackgroundField { .. } => match background_of(stack, current) {
            Some(background) => MessagePath::of(&[object, current, background, 0]),
            None => MessagePath::of(&[object, 0]),
        },
    }
}

/// Where `pass` goes on, in the state of now: after `me` on its path, and on all of that path where `me` is gone. It
/// takes no memory.
pub fn path_after(stack: &Stack, current: Id, me: Id) -> MessagePath
    ensures { result ≡ path_after_object stack.now.content current me }
{
    let path = path(stack, current, me);
    if stack.object(me).is_some() {
        path.rest()
    } else {
        path
    }
}
