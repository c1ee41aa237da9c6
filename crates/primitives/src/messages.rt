//! Messages, handlers and externals, as the rules find and end them.

ghost use Rattle.std.specs.Prelude.{◌≡◌, ◌<◌, [], ◌∷◌, ◌++◌, length, true, false, IsSome, IfOk, IfSome};
ghost use Rattle.std.specs.Prelude.{OnOk, Some};
ghost use Rattle.externals.specs.declared.external.Ask.TheVariants as ask;
ghost use Rattle.externals.specs.declared.external.Input.TheVariants as input;
ghost use Rattle.change_journal.specs.Rising.{TookTurn};
ghost use Rattle.containers.specs.Base.{base};
ghost use Rattle.msg_path.specs.BuiltIns.{calls_function, external_named as external_by_name};
ghost use Rattle.ht_values.specs.Text.{entry};
ghost use Rattle.meaning.specs.Menu.{item_named as item_by_name, items as menu_items};
ghost use Rattle.meaning.specs.Messages.{Finds, is_ignored as ignores, only as only_of, parameters_of};
ghost use Rattle.meaning.specs.Repeats.{ends, returned as returned_by};
ghost use Rattle.meaning.specs.State.{handler_frame as frame_of_handler};
ghost use Rattle.primitives.specs.Given.{how_of};

use crate::arguments::Arguments;
use crate::values::empty;
use change_journal::World;
use externals::{Ask, External, Input, Texts};
use ht_grammar::HandlerKind;
use ht_lex::is_same;
use ht_values::{Failure, Fault, PartKind, Text, Value};
use meaning::{Budget, Frame, Item, Stop, Way};
use msg_path::{FoundHandler, external_named, first_handler, is_system_message};
use object_table::Id;
use std::alloc::AllocError;
use std::mem;

/// The first handler of a kind and a name on a path; `None` where there is none. A script on the way that isn't in the
/// grammar is the fault of syntax.
#[tactic(auto, using(meaning::proofs::Rules::finds_rules))]
#[inline(never)]
pub fn find<E: External>(
    world: &mut World<E>,
    run: &Budget,
    path: &[Id],
    kind: HandlerKind,
    name: &Text,
) -> Result<Option<FoundHandler>, Stop>
    ensures found { Finds world.old.history.now.stack path.now kind name.now result }
    ensures world { world.new ≡ world.old }
{
    match first_handler(run.alloc(), world, path, kind, name) {
        Ok(found) => Ok(found),
        Err(Failure::Fault(fault)) => {
            run.trace().unread_script(path);
            Err(Stop::Fault(fault))
        }
        Err(Failure::Memory) => Err(Stop::Memory),
    }
}

/// The same stop, which is remembered to leave a handler.
#[inline(never)]
pub fn leaving<E: External>(
    world: &World<E>,
    run: &Budget,
    found: &FoundHandler,
    stop: Stop,
) -> Stop
    ensures { result ≡ stop }
{
    let handler = found.handler();
    run.trace().leave_handler(
        found.object(),
        handler.kind,
        &handler.name,
        found.is_current(world),
    );
    stop
}

/// The stop of a message of this name that nobody understands.
#[inline(never)]
pub fn not_understood(run: &Budget, name: &Text) -> Stop
    ensures { result ≡ Stop.Fault Fault.CantUnderstand }
{
    run.trace().mean_text(name);
    Stop::Fault(Fault::CantUnderstand)
}

/// Gives the parameters of a handler the arguments, in its frame.
#[inline(never)]
pub fn bind(
    run: &Budget,
    found: &FoundHandler,
    values: &Arguments,
    frame: &mut Frame,
) -> Result<(), AllocError>
    ensures { OnOk result (frame.new ≡ frame_of_handler frame.old.me frame.old.target
        (parameters_of found.now.handler) values.now) }
{
    frame.bind(run.alloc(), &found.handler().parameters, values.as_slice())
}

/// A handler or an external has returned the value in a place: it stays there for a function, and is `the result` for a
/// command, which gives an empty one.
#[inline(never)]
pub fn returned(run: &mut Budget, kind: HandlerKind, value: &mut Value)
    ensures meaning { returned_by kind value.old run.old ≡ record { value = value.new; run = run.new } }
    ensures left { run.new.left ≡ run.old.left }
{
    match kind {
        HandlerKind::Command => {
            let none = empty(run);
            run.set_result(mem::replace(value, none));
        }
        HandlerKind::Function => {}
    }
}

/// Whether a handler ends the message by the end of its lines, and doesn't pass it. Then what it gives stands in the
/// place in which it wrote what it returns, if it does.
#[inline(always)]
pub fn ends_message(run: &mut Budget, kind: HandlerKind, way: Way, value: &mut Value) -> bool
    ensures passed { result ≡ false → way ≡ Way.Pass }
    ensures ended { result ≡ true → ends kind (how_of way value.old) run.old
        ≡ Some (record { value = value.new; run = run.new }) }
    ensures same { result ≡ false → run.new ≡ run.old }
    ensures left { run.new.left ≡ run.old.left }
{
    match way {
        Way::Pass => return false,
        Way::Returns => returned(run, kind, value),
        Way::Next | Way::Exit | Way::ExitRepeat | Way::NextRepeat => *value = empty(run),
    }
    true
}

/// The number of the external that a message means.
#[tactic(auto, using(crate::proofs::Turns::is_titled))]
pub fn external<E: External>(world: &World<E>, kind: HandlerKind, name: &Text) -> Option<usize>
    ensures value { result ≡ external_by_name world.now.history.now.externals (calls_function kind) name.now }
    ensures there { IfSome result (λ i. i < length (base world.now.history).titles) }
{
    let is_function = match kind {
        HandlerKind::Command => false,
        HandlerKind::Function => true,
    };
    external_named(world, is_function, name)
}

/// Whether a message is ignored where nothing handles it: a message of the system is, a call of a function never.
pub fn is_ignored(kind: HandlerKind, name: &Text) -> bool
    ensures { result ≡ ignores kind name.now }
{
    match kind {
        HandlerKind::Command => is_system_message(name),
        HandlerKind::Function => false,
    }
}

/// The item of the menu that the arguments of `doMenu` name, in any case; `None` where they don't name just one.
#[inline(never)]
pub fn item_named(run: &Budget, values: &Arguments) -> Result<Option<Item>, AllocError>
    ensures { IfOk result (λ i. i ≡ item_by_name values.now) }
{
    match values.as_slice() {
        [value] => {
            let name = value.spelled(run.alloc())?;
            Ok(item(name.text().as_slice()))
        }
        _ => Ok(None),
    }
}

/// The text of the one argument, where there is just one.
#[inline(never)]
pub fn only_text(run: &Budget, values: &Arguments) -> Result<Option<Text>, AllocError>
    ensures { IfOk result (λ t. t ≡ only_of values.now) }
{
    match values.as_slice() {
        [value] => Ok(Some(copied_text(run, value)?)),
        _ => Ok(None),
    }
}

/// The text of a value, as one of its own.
fn copied_text(run: &Budget, value: &Value) -> Result<Text, AllocError>
    ensures { IfOk result (λ t. t ≡ value.now) }
{
    value.try_clone(run.alloc())?.into_text(run.alloc())
}

/// The item of the menu of that name, in any case.
fn item(name: &[u8]) -> Option<Item>
    ensures { result ≡ entry menu_items name.now }
{
    if is_same(b"New Card", name) {
        Some(Item::NewCard)
    } else if is_same(b"New Background", name) {
        Some(Item::NewBackground)
    } else if is_same(b"New Button", name) {
        Some(Item::NewPart(PartKind::Button))
    } else if is_same(b"New Field", name) {
        Some(Item::NewPart(PartKind::Field))
    } else if is_same(b"Delete Card", name) {
        Some(Item::DeleteCard)
    } else {
        None
    }
}

/// What an external is told as a conversation begins.
#[inline(never)]
pub fn start(run: &Budget, values: &Arguments) -> Result<Input, AllocError>
    ensures { IfOk result (λ i. i ≡ input.Start values.now) }
{
    let mut texts = Texts::new(run.alloc());
    for value in values.as_slice() {
        push(&mut texts, copied_text(run, value)?)?;
    }
    Ok(Input::Start(texts))
}

fn push(texts: &mut Texts, text: Text) -> Result<(), AllocError>
    ensures { OnOk result (texts.new ≡ texts.old ++ text ∷ []) }
{
    match texts.push(text) {
        Ok(()) => Ok(()),
        Err(_) => Err(AllocError),
    }
}

/// A turn of an external, in the open batch. Where it is out of memory, the state at the start of the batch is kept all
/// the same.
#[tactic(auto, using(containers::proofs::Bases::took_keeps, containers::proofs::Bases::is_open, crate::proofs::Turns::is_there))]
#[inline(never)]
pub fn take_turn<E: External>(
    world: &mut World<E>,
    number: usize,
    input: &Input,
) -> Result<Ask, AllocError>
    requires open { IsSome (base world.old.history).start }
    requires there { number < length (base world.old.history).titles }
    ensures ok { IfOk result (λ a. TookTurn world.old.history world.new.history number input.now a) }
    ensures base { base world.new.history ≡ base world.old.history }
{
    world.turn_external(number, input)
}
