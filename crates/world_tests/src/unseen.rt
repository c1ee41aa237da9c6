//! What no run of the program shows: what laws promise, trees that are kept, a batch that is given up, fields to which
//! no line leads, what a run tells of itself while it lasts, and a message by itself that isn't of the system. What
//! owns much hands it to a function that borrows it.

ghost use Rattle.std.specs.Prelude.{◌≡◌, IfSome, IsSome, None};

use crate::worlds::{PlainWorld, TWO_CARDS, world_of};
use change_journal::Change;
use containers::{writes_are_due, written_is_read};
use ht_grammar::HandlerKind;
use ht_values::{Fault, Text, Value};
use interp::send_message;
use journal_entries::{law_of_externals, law_of_trails};
use meaning::{Budget, Frame, Stop};
use msg_path::{Found, first_is_one, next_handler};
use object_references::Referent;
use object_table::{Id, PropValue};
use primitives::places::{field_place, field_text};
use stack_places::laws_of_exchanges;
use std::alloc::Global;
use structural_changes::{laws_of_changes, laws_of_current_cards, laws_of_places};
use xkit::KitExternal;

#[test]
fn laws_are_promised(_rt: HostRuntime) {
    writes_are_due();
    written_is_read();
    first_is_one();
    laws_of_changes();
    laws_of_current_cards();
    laws_of_places();
    laws_of_exchanges();
    law_of_trails();
    law_of_externals::<KitExternal>(&[]);
}

fn text(alloc: Global, bytes: &[u8]) -> Option<Text> {
    Text::from_slice(alloc, bytes).ok()
}

const FOO: &[u8] = b"on foo\rput 1\rend foo\r";

/// Makes a change in the open batch.
pub(crate) fn make(world: &mut PlainWorld, change: Change) -> Option<()>
    requires { IsSome world.old.history.start }
    ensures { IfSome result (λ _. IsSome world.new.history.start) }
{
    if world.fits(&change) {
        world.make(change).ok()
    } else {
        drop(change);
        None
    }
}

/// Gives an object a script, in the open batch.
fn set_script(alloc: Global, world: &mut PlainWorld, id: Id, script: &[u8]) -> Option<()>
    requires { IsSome world.old.history.start }
    ensures { IfSome result (λ _. IsSome world.new.history.start) }
{
    let script = text(alloc, script)?;
    make(world, Change::Prop(id, PropValue::ScriptIs(script)))
}

/// Begins a batch, and gives card 2 a script.
fn begin_with(alloc: Global, world: &mut PlainWorld, script: &[u8]) -> Option<()>
    requires { world.old.history.start ≡ None }
    ensures { IfSome result (λ _. IsSome world.new.history.start) }
{
    world.begin(1).ok()?;
    set_script(alloc, world, 2, script)
}

/// Whether `foo` meets the handler of one line in the script of card 2.
fn meets_foo(alloc: Global, world: &mut PlainWorld) -> Option<bool>
    ensures { world.new.history ≡ world.old.history }
{
    let name = text(alloc, b"foo")?;
    let met = next_handler(alloc, world, &[2], HandlerKind::Command, &name);
    Some(match &met {
        Ok(Found::Handler(found)) => found.object() == 2 && found.handler().lines.items.len() == 1,
        _ => false,
    })
}

/// Makes a card with a script of 30,000 bytes, which is read as a message comes along.
fn add_read_script(alloc: Global, world: &mut PlainWorld, script: &[u8]) -> Option<()>
    requires { IsSome world.old.history.start }
    ensures { IfSome result (λ _. IsSome world.new.history.start) }
{
    make(world, Change::NewCard)?;
    let card = world.current();
    set_script(alloc, world, card, script)?;
    let name = text(alloc, b"foo")?;
    next_handler(alloc, world, &[card], HandlerKind::Command, &name).ok()?;
    Some(())
}

/// Makes so many cards with scripts of 30,000 bytes, which are comments.
fn add_read_scripts(alloc: Global, world: &mut PlainWorld, count: u32) -> Option<()>
    requires { IsSome world.old.history.start }
{
    let script = vec![in alloc; b'-'; 30_000].ok()?;
    for _ in 0..count {
        add_read_script(alloc, world, &script)?;
    }
    Some(())
}

/// What changes beside a script that was parsed.
#[derive(Clone, Copy)]
enum Beside {
    /// The card loses its name.
    NoName,
    ScriptOf(Id),
    /// So many other scripts are read, of 30,000 bytes each.
    Reading(u32),
}

/// Whether the tree of card 2's script, once parsed, is kept over a change.
fn is_kept_over(alloc: Global, world: &mut PlainWorld, beside: Beside) -> Option<bool>
    requires { world.old.history.start ≡ None }
{
    begin_with(alloc, world, FOO)?;
    let is_met = meets_foo(alloc, world)?;
    match beside {
        Beside::NoName => make(world, Change::Prop(2, PropValue::NameIs(Text::new(alloc))))?,
        Beside::ScriptOf(id) => set_script(alloc, world, id, FOO)?,
        Beside::Reading(count) => add_read_scripts(alloc, world, count)?,
    }
    Some(is_met && world.script_tree(2).is_some())
}

fn keeps(alloc: Global, beside: Beside) -> Option<bool> {
    let mut world = world_of(alloc, TWO_CARDS)?;
    is_kept_over(alloc, &mut world, beside)
}

#[test]
fn a_tree_is_kept_until_its_script_changes_or_many_are_read(rt: HostRuntime) {
    assert!(rt; keeps(rt.alloc(), Beside::NoName) == Some(true));
    assert!(rt; keeps(rt.alloc(), Beside::ScriptOf(1)) == Some(true));
    assert!(rt; keeps(rt.alloc(), Beside::ScriptOf(2)) == Some(false));
    assert!(rt; keeps(rt.alloc(), Beside::Reading(33)) == Some(true));
    assert!(rt; keeps(rt.alloc(), Beside::Reading(34)) == Some(false));
}

/// Whether `foo` is met while card 2 has another script, and once that was given up.
fn meets_in_turn(alloc: Global, world: &mut PlainWorld, script: &[u8]) -> Option<[bool; 2]>
    requires { world.old.history.start ≡ None }
{
    begin_with(alloc, world, FOO)?;
    world.commit();
    begin_with(alloc, world, script)?;
    let is_met = meets_foo(alloc, world)?;
    world.roll_back();
    Some([is_met, meets_foo(alloc, world)?])
}

fn met_and_given_up(alloc: Global, script: &[u8]) -> Option<[bool; 2]> {
    let mut world = world_of(alloc, TWO_CARDS)?;
    meets_in_turn(alloc, &mut world, script)
}

#[test]
fn a_script_that_comes_back_is_parsed_anew(rt: HostRuntime) {
    for script in [b"on foo\rend foo\r".as_slice(), b"on foo".as_slice()] {
        assert!(rt; met_and_given_up(rt.alloc(), script) == Some([false, true]));
    }
}

/// Gives the global `g` a value, in a batch of its own.
pub(crate) fn put_g(alloc: Global, world: &mut PlainWorld) -> Option<()>
    requires { world.old.history.start ≡ None }
{
    let change = Change::Global(text(alloc, b"g")?, text(alloc, b"1"));
    world.begin(1).ok()?;
    make(world, change)
}

/// Whether the globals that have a value are `g` alone.
fn lists_g(world: &PlainWorld) -> bool {
    if world.global_count() != 1 {
        return false;
    }
    let (name, value) = world.global_at(0);
    name == b"g".as_slice() && value.as_slice() == b"1".as_slice()
}

#[test]
fn a_global_is_listed(rt: HostRuntime) {
    let mut world = world_of(rt.alloc(), TWO_CARDS).expect(&rt, "the stack is read");
    put_g(rt.alloc(), &mut world).expect(&rt, "there is memory");
    assert!(rt; lists_g(&world));
}

/// A field, a card, and the fault of the field's place and of its text for that card.
type FieldRow = (Id, Id, Option<Stop>);

const GONE: Option<Stop> = Some(Stop::Fault(Fault::NoSuchObject));

const FIELDS: &[FieldRow] = &[
    (3, 2, None),
    (3, 9, GONE),
    (3, 1, GONE),
    (3, 0, GONE),
    (9, 2, GONE),
    (2, 2, GONE),
];

fn has_due_faults(world: &PlainWorld, run: &Budget, frame: &Frame, row: &FieldRow) -> bool {
    let (object, card, due) = *row;
    let field = Referent { object, card };
    field_place(world, run, frame, field).err() == due
        && field_text(world, run, frame, field).err() == due
}

/// The first field that has another fault.
fn wrong_field(world: &PlainWorld, run: &Budget, frame: &Frame) -> Option<Id> {
    for row in FIELDS {
        if !has_due_faults(world, run, frame, row) {
            return Some(row.0);
        }
    }
    None
}

#[test]
fn fields_that_keep_no_text(rt: HostRuntime) {
    let world = world_of(rt.alloc(), TWO_CARDS).expect(&rt, "the stack is read");
    let run = run_of(rt.alloc(), 1).expect(&rt, "there is memory");
    assert!(rt; wrong_field(&world, &run, &Frame::typed(rt.alloc(), 2)).is_none());
}

/// Whether a run of one step takes it, and no other.
fn takes_one_step(run: &mut Budget) -> bool {
    run.left() == 1
        && run.step().is_ok()
        && run.left() == 0
        && run.step() == Err(Stop::Fault(Fault::StepLimit))
}

fn shows_seven(run: &mut Budget) -> bool {
    run.shown().as_slice().is_empty()
        && run.show(&Value::of_number(7)).is_ok()
        && matches!(run.shown().as_slice(), [line] if line.as_slice() == b"7".as_slice())
}

fn notes_one(run: &mut Budget, name: &Text) -> bool {
    run.sent().len() == 0
        && run.note(name, 4).is_ok()
        && run.sent().len() == 1
        && run.sent().at(0).object() == 4
}

/// The run of a command with so many steps, in a box.
fn run_of(alloc: Global, steps: u32) -> Option<Box<Budget>> {
    Box::new(alloc, Budget::new(alloc, steps)).ok()
}

#[test]
fn a_run_tells_what_it_did(rt: HostRuntime) {
    let name = text(rt.alloc(), b"f").expect(&rt, "there is memory");
    let mut run = run_of(rt.alloc(), 1).expect(&rt, "there is memory");
    assert!(rt; takes_one_step(&mut run) && shows_seven(&mut run) && notes_one(&mut run, &name));
}

/// Whether a message that is sent to card 2 by itself ends well, and is noted.
#[tactic(auto, using(containers::proofs::Bases::is_open), unfolding(containers::specs::Base::base))]
fn is_noted(world: &mut PlainWorld, run: &mut Budget, name: &Text) -> bool
    requires { world.old.history.start ≡ None }
{
    if world.begin(1).is_err() {
        return false;
    }
    let ended = send_message(world, run, 2, name);
    ended.is_ok() && run.sent().len() == 1
}

fn is_sent(alloc: Global, name: &[u8]) -> Option<bool> {
    let name = text(alloc, name)?;
    let mut run = run_of(alloc, 10)?;
    let mut world = world_of(alloc, TWO_CARDS)?;
    Some(is_noted(&mut world, &mut run, &name))
}

#[test]
fn a_message_is_sent_by_itself(rt: HostRuntime) {
    assert!(rt; is_sent(rt.alloc(), b"mouseUp") == Some(true));
    assert!(rt; is_sent(rt.alloc(), b"foo") == Some(false));
}
