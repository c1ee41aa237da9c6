//! Variables, fields and containers, as the rules read and write them.

ghost use Rattle.std.specs.Prelude.{◌≡◌, ℕ, [], IsSome, IsOk, IfOk, OnOk, Ok, option_copied, false, true};
ghost use Rattle.ht_values.specs.Text.{numeral as numeral_of};
ghost use Rattle.ht_values.specs.declared.word.Where.TheVariants.{Into};
ghost use Rattle.containers.specs.Base.{base};
ghost use Rattle.containers.specs.declared.edit.Edit.TheVariants.{Alter, Put};
ghost use Rattle.containers.specs.Places.{named, read_name as read_name_of, whole as whole_text};
ghost use Rattle.meaning.specs.Places.{Assigns, DeclaresAll, Edits, Sets, Stores};
ghost use Rattle.meaning.specs.Places.{field_named_place as place_of_field_named};
ghost use Rattle.meaning.specs.Places.{field_place as place_of_field, field_text as text_of_field, it_name};
ghost use Rattle.meaning.specs.Places.{nth_piece as nth_piece_of, pieces_at as pieces_at_numbers};
ghost use Rattle.meaning.specs.Places.{variable_place as place_of_variable};
ghost use Rattle.change_journal.specs.History.{History};
ghost use Rattle.externals.specs.declared.external.Ask.TheVariants as ask;
ghost use Rattle.meaning.specs.Meaning.{CallsBack};
ghost use Rattle.meaning.specs.Repeats.{is_over};
ghost use Rattle.meaning.specs.Values.{Yields};

use crate::meant::{mean_edit, mean_edit_of_variable, mean_untrue, operand_of, untrue_text};
use crate::objects::make;
use change_journal::World;
use chunks::{Chunk, Index};
use containers::{
    Container, Edit, Place, Standing, alter_number, declare, put_number, read, read_name, resolve,
    standing_in, write,
};
use externals::{External, Input, Texts};
use ht_grammar::Layer;
use ht_lex::{Ordinal, is_name};
use ht_values::{ChunkKind, Failure, Fault, Name, Op, Prop, Text, Value, Where, law_of_value};
use meaning::{Budget, Counter, Frame, Stop};
use object_references::{Referent, field_named, set_change};
use std::alloc::{AllocError, Global};

/// The pieces from one number to another.
pub fn pieces_at(kind: ChunkKind, from: i64, to: i64) -> Chunk
    ensures { result ≡ pieces_at_numbers kind from to }
{
    Chunk {
        kind,
        from: Index::At(from),
        to: Index::At(to),
    }
}

/// The one piece of an ordinal.
pub fn nth_piece(ordinal: Ordinal, kind: ChunkKind) -> Chunk
    ensures { result ≡ nth_piece_of ordinal kind }
{
    let index = match ordinal.from_first() {
        Some(number) => Index::At(i64::from(number)),
        None => Index::Last,
    };
    Chunk {
        kind,
        from: index,
        to: index,
    }
}

/// Writes what a name reads.
#[inline(always)]
pub(crate) fn variable<E: External>(
    world: &World<E>,
    run: &Budget,
    frame: &Frame,
    name: &Name,
    value: &mut Value,
) -> Result<(), AllocError>
    ensures { OnOk result (value.new ≡ read_name_of world.now.history.now frame.now.variables name.now) }
{
    match read_name(world, &frame.variables, name) {
        Standing::Value(found) => *value = copied(run, found)?,
        Standing::Text(text) => value.copy_from(run.alloc(), text)?,
    }
    Ok(())
}

/// An equal value. One that is kept as a number is most often read.
#[inline]
fn copied(run: &Budget, value: &Value) -> Result<Value, AllocError>
    ensures { IfOk result (λ v. v ≡ value.now) }
{
    match value.kept_number() {
        Some(number) => Ok(Value::of_number(number)),
        None => value.try_clone(run.alloc()),
    }
}

/// The place of a variable.
#[inline(never)]
pub fn variable_place<'a, E: External>(
    world: &World<E>,
    run: &Budget,
    frame: &Frame,
    name: &'a Name,
) -> Place<'a>
    ensures { result ≡ place_of_variable frame.now.variables name.now }
{
    match resolve(
        run.alloc(),
        world,
        &frame.variables,
        Container::Variable(name),
    ) {
        Ok(place) => place,
        Err(_) => unreachable!(),
    }
}

/// The place of a field's text, for the card with which it was met; fault 3 where it keeps no text for that card. It
/// takes no memory.
#[tactic(auto, using(meaning::proofs::Rules::yields_rules))]
#[inline(never)]
pub fn field_place<'a, E: External>(
    world: &World<E>,
    run: &Budget,
    frame: &Frame,
    field: Referent,
) -> Result<Place<'a>, Stop>
    ensures place { Yields (place_of_field world.now.history.now field) result }
    ensures whole { IfOk result (λ p. p.chunks ≡ []) }
{
    let container = Container::Field(field.object, field.card);
    Ok(resolve(run.alloc(), world, &frame.variables, container)?)
}

/// The text of a field for the card with which it was met; fault 3 where it keeps none.
#[tactic(auto, using(meaning::proofs::Rules::yields_rules))]
#[inline(never)]
pub fn field_text<E: External>(
    world: &World<E>,
    run: &Budget,
    frame: &Frame,
    field: Referent,
) -> Result<Value, Stop>
    ensures { Yields (text_of_field world.now.history.now frame.now.variables run.now.delimiter field) result }
{
    let container = Container::Field(field.object, field.card);
    let place = resolve(run.alloc(), world, &frame.variables, container)?;
    let text = read(
        run.alloc(),
        world,
        &frame.variables,
        &place,
        run.delimiter(),
    )?;
    Ok(text)
}

/// Edits a container in the open batch. After a fault nothing has changed.
#[tactic(auto, using(meaning::proofs::Rules::edits_rules))]
#[inline(never)]
pub fn edit<E: External>(
    world: &mut World<E>,
    run: &Budget,
    frame: &mut Frame,
    place: Place<'_>,
    edit: Edit,
) -> Result<(), Stop>
    requires open { IsSome (base world.old.history).start }
    ensures meaning { Edits world.old.history frame.old run.now.delimiter place.entry edit result world.new.history
        frame.new }
    ensures base { base world.new.history ≡ base world.old.history }
{
    let operand = operand_of(run, &edit);
    match write(
        run.alloc(),
        world,
        &mut frame.variables,
        &place,
        edit,
        run.delimiter(),
    ) {
        Ok(()) => Ok(()),
        Err(Failure::Fault(fault)) => {
            mean_edit(world, run, frame, &place, operand, fault);
            Err(Stop::Fault(fault))
        }
        Err(Failure::Memory) => Err(Stop::Memory),
    }
}

/// Edits a variable in the open batch. After a fault nothing has changed.
#[tactic(auto, using(meaning::proofs::Rules::edits_rules, crate::proofs::Stored::stores_edit))]
#[inline(never)]
pub fn edit_variable<E: External>(
    world: &mut World<E>,
    run: &Budget,
    frame: &mut Frame,
    name: &Name,
    edit: Edit,
) -> Result<(), Stop>
    requires open { IsSome (base world.old.history).start }
    ensures meaning { Edits world.old.history frame.old run.now.delimiter
        (place_of_variable frame.old.variables name.now) edit result world.new.history frame.new }
    ensures base { base world.new.history ≡ base world.old.history }
{
    match edit {
        Edit::Put(Where::Into, value) => {
            law_of_value(&value);
            Ok(put_into(world, run, frame, name, value)?)
        }
        Edit::Alter(op, operand) => alter_variable(world, run, frame, name, op, operand),
        edit => edit_named(world, run, frame, name, edit),
    }
}

/// Computes with a variable, in the open batch. Two numbers of which one is the handler's own are computed with where
/// it stands.
#[tactic(auto, using(meaning::proofs::Rules::edits_rules))]
pub(crate) fn alter_variable<E: External>(
    world: &mut World<E>,
    run: &Budget,
    frame: &mut Frame,
    name: &Name,
    op: Op,
    operand: Value,
) -> Result<(), Stop>
    requires open { IsSome (base world.old.history).start }
    ensures meaning { Edits world.old.history frame.old run.now.delimiter
        (place_of_variable frame.old.variables name.now) (Alter op operand) result world.new.history frame.new }
    ensures base { base world.new.history ≡ base world.old.history }
{
    if alter_numbers(world, frame, name, op, &operand)? {
        return Ok(());
    }
    edit_named(world, run, frame, name, Edit::Alter(op, operand))
}

/// Computes with a variable, where two numbers are computed with as such, and says whether they are.
#[tactic(auto, using(meaning::proofs::Rules::edits_rules))]
fn alter_numbers<E: External>(
    world: &mut World<E>,
    frame: &mut Frame,
    name: &Name,
    op: Op,
    operand: &Value,
) -> Result<bool, AllocError>
    requires open { IsSome (base world.old.history).start }
    ensures altered { IfOk result (λ b. b ≡ true → (d : ℕ) → Edits world.old.history frame.old d
        (place_of_variable frame.old.variables name.now) (Alter op operand.now) (Ok tt) world.new.history frame.new) }
    ensures not { IfOk result (λ b. b ≡ false
        → (world.new.history ≡ world.old.history) × (frame.new ≡ frame.old)) }
    ensures base { base world.new.history ≡ base world.old.history }
{
    alter_number(world, &mut frame.variables, name, op, operand)
}

/// Edits a variable by what stands there.
#[tactic(auto, using(meaning::proofs::Rules::edits_rules))]
#[inline(never)]
fn edit_named<E: External>(
    world: &mut World<E>,
    run: &Budget,
    frame: &mut Frame,
    name: &Name,
    edit: Edit,
) -> Result<(), Stop>
    requires open { IsSome (base world.old.history).start }
    ensures meaning { Edits world.old.history frame.old run.now.delimiter
        (place_of_variable frame.old.variables name.now) edit result world.new.history frame.new }
    ensures base { base world.new.history ≡ base world.old.history }
{
    let operand = operand_of(run, &edit);
    match containers::edit_variable(
        run.alloc(),
        world,
        &mut frame.variables,
        name,
        edit,
        run.delimiter(),
    ) {
        Ok(()) => Ok(()),
        Err(Failure::Fault(fault)) => {
            mean_edit_of_variable(world, run, frame, name, operand, fault);
            Err(Stop::Fault(fault))
        }
        Err(Failure::Memory) => Err(Stop::Memory),
    }
}

/// Puts a number into a variable of the handler's own that has a value, and says whether there is one.
#[tactic(auto, using(meaning::proofs::Rules::edits_rules))]
fn put_kept(frame: &mut Frame, name: &Name, new: &Value) -> bool
    ensures put { result ≡ true → (w : History) (d : ℕ)
        → Edits w frame.old d (place_of_variable frame.old.variables name.now) (Put Into new.now) (Ok tt) w frame.new }
    ensures not { result ≡ false → frame.new ≡ frame.old }
{
    match new.kept_number() {
        Some(number) => put_number(&mut frame.variables, name, number),
        None => false,
    }
}

/// Puts a value into a variable, in the open batch. A number goes into its place, without an edit.
fn put_into<E: External>(
    world: &mut World<E>,
    run: &Budget,
    frame: &mut Frame,
    name: &Name,
    new: Value,
) -> Result<(), AllocError>
    requires open { IsSome (base world.old.history).start }
    ensures meaning { OnOk result (Stores world.old.history frame.old (named frame.old.variables name.now) new
        world.new.history frame.new) }
    ensures base { base world.new.history ≡ base world.old.history }
{
    law_of_value(&new);
    if put_kept(frame, name, &new) {
        return Ok(());
    }
    put_by_edit(world, run, frame, name, new)
}

/// Puts a value into a variable, in the open batch, by an edit. It stands for itself, so that a number that has its
/// place pays nothing for it.
#[inline(never)]
fn put_by_edit<E: External>(
    world: &mut World<E>,
    run: &Budget,
    frame: &mut Frame,
    name: &Name,
    new: Value,
) -> Result<(), AllocError>
    requires open { IsSome (base world.old.history).start }
    ensures meaning { OnOk result (Stores world.old.history frame.old (named frame.old.variables name.now) new
        world.new.history frame.new) }
    ensures base { base world.new.history ≡ base world.old.history }
{
    law_of_value(&new);
    let put = Edit::Put(Where::Into, new);
    match containers::edit_variable(
        run.alloc(),
        world,
        &mut frame.variables,
        name,
        put,
        run.delimiter(),
    ) {
        Ok(()) => Ok(()),
        Err(Failure::Memory) => Err(AllocError),
        Err(Failure::Fault(_)) => unreachable!(),
    }
}

/// Puts a value in place of the text that stands at a place without chunks, in the open batch.
#[inline(never)]
pub fn put_at<E: External>(
    world: &mut World<E>,
    run: &Budget,
    frame: &mut Frame,
    place: &Place<'_>,
    new: Value,
) -> Result<(), AllocError>
    requires open { IsSome (base world.old.history).start }
    requires whole { place.now.chunks ≡ [] }
    requires stands { IsOk (whole_text world.old.history.now frame.old.variables place.now.storage) }
    ensures meaning { OnOk result
        (Stores world.old.history frame.old place.now.storage new world.new.history frame.new) }
    ensures base { base world.new.history ≡ base world.old.history }
{
    law_of_value(&new);
    let put = Edit::Put(Where::Into, new);
    match write(
        run.alloc(),
        world,
        &mut frame.variables,
        place,
        put,
        run.delimiter(),
    ) {
        Ok(()) => Ok(()),
        Err(Failure::Memory) => Err(AllocError),
        Err(Failure::Fault(_)) => unreachable!(),
    }
}

/// `it`.
fn it(alloc: Global) -> Result<Name, AllocError>
    ensures { IfOk result (λ n. n ≡ it_name) }
{
    Name::new(alloc, Text::fitting(alloc, b"it")?)
}

/// Puts a value into `it`, in the open batch.
#[inline(never)]
pub fn put_into_it<E: External>(
    world: &mut World<E>,
    run: &Budget,
    frame: &mut Frame,
    new: Value,
) -> Result<(), AllocError>
    requires open { IsSome (base world.old.history).start }
    ensures meaning { OnOk result (Stores world.old.history frame.old (named frame.old.variables it_name) new
        world.new.history frame.new) }
    ensures base { base world.new.history ≡ base world.old.history }
{
    let it = it(run.alloc())?;
    put_into(world, run, frame, &it, new)
}

/// Puts the number of a turn into the variable of a repeat, where it has one, in the open batch.
#[tactic(auto, using(meaning::proofs::Rules::assigns_rules))]
#[inline(never)]
pub fn assign<E: External>(
    world: &mut World<E>,
    run: &Budget,
    frame: &mut Frame,
    variable: Option<&Name>,
    turn: &Counter,
) -> Result<(), AllocError>
    requires open { IsSome (base world.old.history).start }
    requires turns { is_over turn.now ≡ false }
    ensures meaning { OnOk result (Assigns world.old.history frame.old (option_copied variable.entry)
        (numeral_of turn.now.at) world.new.history frame.new) }
    ensures base { base world.new.history ≡ base world.old.history }
{
    match variable {
        Some(name) => put_into(world, run, frame, name, turn.value()),
        None => Ok(()),
    }
}

/// `global`: names mean globals from here on in this handler.
#[tactic(auto, using(meaning::proofs::Rules::declares_rules))]
#[inline(never)]
pub fn declare_globals<E: External>(
    world: &mut World<E>,
    run: &Budget,
    frame: &mut Frame,
    names: &[Name],
) -> Result<(), AllocError>
    requires open { IsSome (base world.old.history).start }
    ensures meaning { OnOk result (DeclaresAll world.old.history frame.old names.now world.new.history frame.new) }
    ensures base { base world.new.history ≡ base world.old.history }
{
    for name in names {
        declare(run.alloc(), world, &mut frame.variables, name)?;
    }
    Ok(())
}

/// Sets a property of an object, in the open batch, or is the first fault of the property and its value.
#[tactic(auto, using(meaning::proofs::Rules::sets_rules))]
#[inline(never)]
pub fn set_property<E: External>(
    world: &mut World<E>,
    run: &Budget,
    object: Referent,
    property: Prop,
    text: Text,
) -> Result<(), Stop>
    requires open { IsSome (base world.old.history).start }
    ensures meaning { Sets world.old.history object property text result world.new.history }
    ensures base { base world.new.history ≡ base world.old.history }
{
    let untrue = untrue_text(run, property, &text);
    match set_change(world.stack(), object, property, text) {
        Ok(change) => {
            make(world, change)?;
            Ok(())
        }
        Err(fault) => {
            mean_untrue(run, untrue, fault);
            Err(Stop::Fault(fault))
        }
    }
}

/// Sets a global for an external, in the open batch. A name that can't be a variable's is the fault of a bad argument.
#[tactic(auto, using(meaning::proofs::Rules::callsback_setglobal_rules))]
#[inline(never)]
pub fn set_global<E: External>(
    world: &mut World<E>,
    run: &Budget,
    nested: u32,
    note: Texts,
    name: Text,
    value: Text,
) -> Result<Input, Stop>
    requires open { IsSome (base world.old.history).start }
    ensures meaning { CallsBack world.old.history run.now nested (ask.SetGlobal note name value) result
        world.new.history run.now }
    ensures base { base world.new.history ≡ base world.old.history }
{
    if !is_name(name.as_slice()) {
        return Err(Stop::Fault(Fault::BadArgument));
    }
    let name = Name::new(run.alloc(), name)?;
    let mut frame = Frame::typed(run.alloc(), world.current());
    put_into(world, run, &mut frame, &name, Value::of_text(value))?;
    Ok(Input::Answer(note, Text::new(run.alloc())))
}

/// The place of the first field of a name, on the current card or on its background; fault 3 where there is none, or
/// no text stands there.
#[tactic(auto, using(meaning::proofs::Rules::yields_rules))]
fn field_named_place<'a, E: External>(
    world: &World<E>,
    run: &Budget,
    frame: &Frame,
    on_card: bool,
    name: &Text,
) -> Result<Place<'a>, Stop>
    ensures place { Yields (place_of_field_named world.now.history.now frame.now.variables on_card name.now) result }
    ensures whole { IfOk result (λ p. p.chunks ≡ []) }
{
    let layer = if on_card {
        Layer::Card
    } else {
        Layer::Background
    };
    let field = field_named(world.stack(), world.current(), layer, name)?;
    let place = field_place(world, run, frame, field)?;
    match standing_in(world, &frame.variables, &place) {
        Some(_) => Ok(place),
        None => Err(Stop::Fault(Fault::NoSuchObject)),
    }
}

/// Sets the first field of a name for an external, in the open batch; fault 3 where there is none.
#[tactic(auto, using(meaning::proofs::Rules::callsback_setfieldbyname_rules))]
#[inline(never)]
pub fn set_field<E: External>(
    world: &mut World<E>,
    run: &Budget,
    nested: u32,
    note: Texts,
    on_card: bool,
    name: &Text,
    value: Text,
) -> Result<Input, Stop>
    requires open { IsSome (base world.old.history).start }
    ensures meaning { CallsBack world.old.history run.now nested (ask.SetFieldByName note on_card name.now value) result
        world.new.history run.now }
    ensures base { base world.new.history ≡ base world.old.history }
{
    let mut frame = Frame::typed(run.alloc(), world.current());
    let place = field_named_place(world, run, &frame, on_card, name)?;
    put_at(world, run, &mut frame, &place, Value::of_text(value))?;
    Ok(Input::Answer(note, Text::new(run.alloc())))
}
