//! Texts that are typed into a field.

ghost use Rattle.std.specs.Prelude.{◌≡◌, ◌≤◌, IsSome};
ghost use Rattle.ht_grammar.specs.Depth.{max_depth, part_depth};
ghost use Rattle.ht_tree.specs.View.{part_of};
ghost use Rattle.containers.specs.Base.{base};
ghost use Rattle.meaning.specs.Actions.{leaving_message as message_on_leaving, locks_text};
ghost use Rattle.meaning.specs.Ends.{end_of};
ghost use Rattle.meaning.specs.Meaning.{TypesOver};
ghost use Rattle.meaning.specs.Places.{field_text as text_of_field};
ghost use Rattle.meaning.specs.Values.{Yields};
ghost use Rattle.user_actions.specs.Views.{TypingEnds};

use crate::messages::tell;
use change_journal::World;
use externals::External;
use ht_tree::Part;
use ht_values::{Text, Value};
use interp::find_ref;
use meaning::{Budget, Ended, Frame, Stop, SystemMessage};
use object_references::{Referent, met_here};
use object_table::{Id, Kind, Stack};
use primitives::places::{field_place, field_text, put_at};

/// Whether the text of a field is locked against typing.
fn is_locked(stack: &Stack, field: Id) -> bool
    ensures { result ≡ locks_text stack.now.content field }
{
    match stack.object(field) {
        Some(object) => match object.kind {
            Kind::CardField { lock_text, .. } | Kind::BackgroundField { lock_text, .. } =>
                lock_text,
            Kind::Stack
            | Kind::Background { .. }
            | Kind::Card { .. }
            | Kind::CardButton { .. }
            | Kind::BackgroundButton { .. } => false,
        },
        None => false,
    }
}

/// The text of a field for the card with which it was met; fault 3 where it keeps none.
#[tactic(auto, using(meaning::proofs::Rules::yields_rules))]
fn text_of<E: External>(
    world: &World<E>,
    run: &Budget,
    frame: &Frame,
    field: Referent,
) -> Result<Text, Stop>
    ensures { Yields (text_of_field world.now.history.now frame.now.variables run.now.delimiter field) result }
{
    Ok(field_text(world, run, frame, field)?.into_text(run.alloc())?)
}

/// The message with which a field is left.
fn leaving_message(old: &Text, new: &Text) -> SystemMessage
    ensures { result ≡ message_on_leaving old.now new.now }
{
    if old.as_slice() == new.as_slice() {
        SystemMessage::ExitField
    } else {
        SystemMessage::CloseField
    }
}

/// A text takes the place of the one that a field has for a card, and the field is left. Nothing happens where the
/// field or the card is gone.
#[tactic(auto, using(meaning::proofs::Rules::typesover_rules))]
fn type_over<E: External>(
    world: &mut World<E>,
    run: &mut Budget,
    field: Referent,
    text: &Text,
) -> Result<Ended, Stop>
    requires open { IsSome (base world.old.history).start }
    ensures meaning { TypesOver world.old.history run.old field text.now (end_of result) world.new.history run.new }
    ensures fewer { run.new.left ≤ run.old.left }
    ensures base { base world.new.history ≡ base world.old.history }
{
    let mut frame = Frame::typed(run.alloc(), world.current());
    let place = match field_place(world, run, &frame, field) {
        Ok(place) => place,
        Err(Stop::Fault(_)) => return Ok(Ended::Done),
        Err(_) => return Err(Stop::Memory),
    };
    let old = match text_of(world, run, &frame, field) {
        Ok(old) => old,
        Err(Stop::Fault(_)) => return Ok(Ended::Done),
        Err(_) => return Err(Stop::Memory),
    };
    let message = leaving_message(&old, text);
    let new = Value::copied(run.alloc(), text)?;
    put_at(world, run, &mut frame, &place, new)?;
    tell(world, run, field.object, message)
}

/// `.type`; `None` where the field is locked.
#[tactic(auto, using(meaning::proofs::Rules::typesinto_rules))]
pub(crate) fn type_text<E: External>(
    world: &mut World<E>,
    run: &mut Budget,
    text: &Text,
    part: &Part,
) -> Result<Option<Ended>, Stop>
    requires deep { part_depth (part_of part.now) ≤ max_depth }
    requires open { IsSome (base world.old.history).start }
    ensures meaning { TypingEnds world.old.history run.old text.now
        (part_of part.now) result world.new.history run.new }
    ensures fewer { run.new.left ≤ run.old.left }
    ensures base { base world.new.history ≡ base world.old.history }
{
    let Some(object) = find_ref(world, run, part)? else {
        return Ok(Some(Ended::Exited));
    };
    if is_locked(world.stack(), object) {
        return Ok(None);
    }
    let field = met_here(world.current(), object);
    match tell(world, run, object, SystemMessage::OpenField)? {
        Ended::Done => Ok(Some(type_over(world, run, field, text)?)),
        Ended::Exited => Ok(Some(Ended::Exited)),
    }
}
