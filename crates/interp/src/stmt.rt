//! Statements.

ghost use Rattle.std.specs.Prelude.{◌≡◌, ◌≤◌, ◌<◌, ℕ, IsSome, IfOk, true};
ghost use Rattle.ht_grammar.specs.Statements as stm;
ghost use Rattle.ht_grammar.specs.Trees as tree;
ghost use Rattle.ht_grammar.specs.Depth.{chunk_depth, container_depth, depth, destination_depth, ref_depth};
ghost use Rattle.ht_grammar.specs.Depth.{stmt_depth, stmts_depth, max_depth};
ghost use Rattle.ht_tree.specs.StatementView.{destination_of, stmts_of};
ghost use Rattle.ht_tree.specs.View.{chunk_of, ref_of};
ghost use Rattle.containers.specs.Base.{base};
ghost use Rattle.change_journal.specs.History.{History};
ghost use Rattle.meaning.specs.declared.frame.Frame.{Frame};
ghost use Rattle.meaning.specs.Meaning.{Alters, Block, Form, Val};
ghost use Rattle.meaning.specs.State.{RunState};
ghost use Rattle.primitives.specs.Given.{how_given, given, then_next};
ghost use Rattle.interp.specs.Heads.{is_plain, is_when};
ghost use Rattle.interp.specs.Keeps.{Keeps};

use crate::expr::{eval_text, eval_whole, truth_value, value_of};
use crate::message::{calls, calls_bare, calls_of};
use crate::pieces::{edit_container, pieces, resolve};
use crate::reference::{lead, meet};
use crate::repeat::{repeat_counted, repeat_forever, repeat_times, repeat_while};
use crate::system::go;
use change_journal::World;
use containers::Edit;
use externals::External;
use ht_grammar::{HandlerKind, RunProp};
use ht_tree::{Chunk, Container, Destination, Expr, Head, Ref, Stmt, StmtForm, StmtKind};
use ht_values::{Fault, Op, Prop, Value, Where};
use meaning::{Budget, Frame, MOST_NESTED, Stop, TextUse, Way};
use primitives::numbers::alter_by_number;
use primitives::places::{declare_globals, edit, put_into_it, set_property};
use primitives::values::{
    empty, ends_block, leaving_text, lines, message, set_run_property, stopping,
};
use std::mem;

/// How statements end, a step before each.
#[cycle(run)]
#[tactic(auto, using(crate::proofs::Blocks::block_rules))]
#[inline(always)]
pub(crate) fn run_block<E: External>(
    world: &mut World<E>,
    run: &mut Budget,
    frame: &mut Frame,
    nested: u32,
    lines: &[Stmt],
    returned: &mut Value,
) -> Result<Way, Stop>
    requires nested { nested ≤ 100 }
    requires deep { stmts_depth (stmts_of lines.now) ≤ max_depth }
    requires open { IsSome (base world.old.history).start }
    ensures meaning { Block world.old.history run.old frame.old nested (stmts_of lines.now)
        (how_given result returned.new) world.new.history run.new frame.new }
    ensures passes { IfOk result (λ way. way ≡ Way.Pass → run.new.left < run.old.left) }
    ensures keeps { Keeps world.old.history run.old world.new.history run.new }
{
    for stmt in lines {
        match run.step() {
            Ok(()) => {}
            Err(stop) => return Err(stopping(run, stmt, stop)),
        }
        let ended = run_stmt(world, run, frame, nested, stmt, returned);
        if let Err(stop) = ended {
            return Err(stopping(run, stmt, stop));
        }
        if ends_block(ended) {
            return ended;
        }
    }
    Ok(Way::Next)
}

/// How a statement ends, whose step was taken. This is joined with the block in which the statement stands, so that a
/// block in a block takes no frame of the choice among all others.
#[cycle(run)]
#[tactic(auto, using(meaning::proofs::Rules::form_rules))]
#[inline(always)]
pub(crate) fn run_stmt<E: External>(
    world: &mut World<E>,
    run: &mut Budget,
    frame: &mut Frame,
    nested: u32,
    stmt: &Stmt,
    returned: &mut Value,
) -> Result<Way, Stop>
    requires nested { nested ≤ 100 }
    requires deep { stmt_depth stmt.now ≤ max_depth }
    requires open { IsSome (base world.old.history).start }
    ensures meaning { Form world.old.history run.old frame.old nested stmt.now
        (how_given result returned.new) world.new.history run.new frame.new }
    ensures keeps { Keeps world.old.history run.old world.new.history run.new }
{
    let StmtForm::Kind(kind) = stmt.form() else {
        return run_plain(world, run, frame, nested, stmt, returned);
    };
    match kind {
        StmtKind::When(_, _) => when(world, run, frame, nested, stmt, returned),
        StmtKind::Repeat(Head::Forever, _) => {
            repeat_forever(world, run, frame, nested, stmt, returned)
        }
        StmtKind::Repeat(Head::Times(_), _) => {
            repeat_times(world, run, frame, nested, stmt, returned)
        }
        StmtKind::Repeat(Head::While(_), _) => {
            repeat_while(world, run, frame, nested, stmt, returned)
        }
        StmtKind::Repeat(Head::Until(_), _) => {
            repeat_while(world, run, frame, nested, stmt, returned)
        }
        StmtKind::Repeat(Head::CountedUp(_), _) => {
            repeat_counted(world, run, frame, nested, stmt, returned)
        }
        StmtKind::Repeat(Head::CountedDown(_), _) => {
            repeat_counted(world, run, frame, nested, stmt, returned)
        }
        _ => run_plain(world, run, frame, nested, stmt, returned),
    }
}

/// How a statement ends that is no block.
#[cycle(run)]
#[tactic(auto, using(meaning::proofs::Rules::form_rules))]
#[inline(never)]
pub(crate) fn run_plain<E: External>(
    world: &mut World<E>,
    run: &mut Budget,
    frame: &mut Frame,
    nested: u32,
    stmt: &Stmt,
    returned: &mut Value,
) -> Result<Way, Stop>
    requires nested { nested ≤ 100 }
    requires plain { is_plain stmt.now ≡ true }
    requires deep { stmt_depth stmt.now ≤ max_depth }
    requires open { IsSome (base world.old.history).start }
    ensures meaning { Form world.old.history run.old frame.old nested stmt.now
        (how_given result returned.new) world.new.history run.new frame.new }
    ensures keeps { Keeps world.old.history run.old world.new.history run.new }
{
    keep_apart!(run_plain(world, run, frame, nested, stmt, returned));
    let kind = match stmt.form() {
        StmtForm::Bare(name) => {
            let kind = HandlerKind::Command;
            calls_bare(world, run, frame, nested, name.text(), kind, returned)?;
            return Ok(Way::Next);
        }
        StmtForm::CommandOf(call) => {
            let (name, argument) = (call.name.text(), &call.argument);
            let kind = HandlerKind::Command;
            calls_of(world, run, frame, nested, name, argument, kind, returned)?;
            return Ok(Way::Next);
        }
        StmtForm::Command(call) => {
            let (name, list) = (call.name.text(), &call.arguments);
            let kind = HandlerKind::Command;
            calls(
                world, run, frame, nested, frame.me, name, list, kind, returned,
            )?;
            return Ok(Way::Next);
        }
        StmtForm::Kind(kind) => kind,
    };
    match kind {
        StmtKind::Put(value) => {
            let met = eval_whole(world, run, frame, nested, value, returned);
            shown(run, met, returned)?;
        }
        StmtKind::PutIn(place, value, container) => {
            put(world, run, frame, nested, *place, value, container)?;
        }
        StmtKind::Get(value) => {
            let met = eval_whole(world, run, frame, nested, value, returned);
            got(world, run, frame, met, returned)?;
        }
        StmtKind::Set(property, reference, value) => {
            set(world, run, frame, nested, *property, reference, value)?;
        }
        StmtKind::SetRun(property, value) => {
            let met = eval_whole(world, run, frame, nested, value, returned);
            run_set(run, *property, met, returned)?;
        }
        StmtKind::Add(value, container) => {
            alter(world, run, frame, nested, Op::Add, value, container)?;
        }
        StmtKind::Subtract(value, container) => {
            alter(world, run, frame, nested, Op::Subtract, value, container)?;
        }
        StmtKind::Multiply(container, value) => {
            alter(world, run, frame, nested, Op::Multiply, value, container)?;
        }
        StmtKind::Divide(container, value) => {
            alter(world, run, frame, nested, Op::Divide, value, container)?;
        }
        StmtKind::Delete(chunk, container) => {
            delete(world, run, frame, nested, chunk, container)?;
        }
        StmtKind::Do(text) => return run_do(world, run, frame, nested, text, returned),
        StmtKind::Send(text, reference) => {
            run_send(world, run, frame, nested, text, reference)?;
        }
        StmtKind::Go(destination) => run_go(world, run, frame, nested, destination)?,
        StmtKind::Global(names) => declare_globals(world, run, frame, &names.items)?,
        StmtKind::ExitRepeat => return Ok(Way::ExitRepeat),
        StmtKind::NextRepeat => return Ok(Way::NextRepeat),
        StmtKind::ExitToHyperCard => return Err(Stop::Exited),
        StmtKind::Exit(_) => return Ok(Way::Exit),
        StmtKind::Pass(_) => return Ok(Way::Pass),
        StmtKind::ReturnNothing => {
            *returned = empty(run);
            return Ok(Way::Returns);
        }
        StmtKind::ReturnValue(value) => {
            eval_whole(world, run, frame, nested, value, returned)?;
            return Ok(Way::Returns);
        }
        StmtKind::Command(name, list) => {
            let kind = HandlerKind::Command;
            calls(
                world, run, frame, nested, frame.me, name, list, kind, returned,
            )?;
        }
        StmtKind::CommandOf(name, only) => {
            let kind = HandlerKind::Command;
            calls_of(world, run, frame, nested, name, only, kind, returned)?;
        }
        StmtKind::When(_, _) | StmtKind::Repeat(_, _) => unreachable!(),
    }
    Ok(Way::Next)
}

/// `put` alone: a value is shown as a line, if it was computed.
#[tactic(auto, using(meaning::proofs::Rules::form_put_rules))]
#[inline(never)]
fn shown(run: &mut Budget, met: Result<(), Stop>, value: &Value) -> Result<(), Stop>
    ensures meaning { (w w1 : History) (r : RunState) (f : Frame) (d : ℕ) (x : tree.Expr)
        → Val w r f d x (given met value.now) w1 run.old → Form w r f d (stm.put x) (then_next result) w1 run.new f }
    ensures steps { run.new.left ≡ run.old.left }
{
    met?;
    run.show(value)?;
    Ok(())
}

/// `get`: a value becomes that of `it`, if it was computed.
#[tactic(auto, using(meaning::proofs::Rules::form_get_rules))]
#[inline(never)]
fn got<E: External>(
    world: &mut World<E>,
    run: &Budget,
    frame: &mut Frame,
    met: Result<(), Stop>,
    value: &mut Value,
) -> Result<(), Stop>
    requires open { IsSome (base world.old.history).start }
    ensures meaning { (w : History) (r : RunState) (d : ℕ) (x : tree.Expr)
        → Val w r frame.old d x (given met value.old) world.old.history run.now
        → Form w r frame.old d (stm.get x) (then_next result) world.new.history run.now frame.new }
    ensures base { base world.new.history ≡ base world.old.history }
{
    met?;
    let value = mem::replace(value, Value::of_number(0));
    put_into_it(world, run, frame, value)?;
    Ok(())
}

/// `set` of a property of the run to a value, if it was computed.
#[tactic(auto, using(meaning::proofs::Rules::form_set_run_rules))]
#[inline(never)]
fn run_set(
    run: &mut Budget,
    property: RunProp,
    met: Result<(), Stop>,
    value: &mut Value,
) -> Result<(), Stop>
    ensures meaning { (w w1 : History) (r : RunState) (f : Frame) (d : ℕ) (x : tree.Expr)
        → Val w r f d x (given met value.old) w1 run.old
        → Form w r f d (stm.set_run property x) (then_next result) w1 run.new f }
    ensures steps { run.new.left ≡ run.old.left }
{
    met?;
    let value = mem::replace(value, Value::of_number(0));
    let text = value.into_text(run.alloc())?;
    set_run_property(run, property, &text)?;
    Ok(())
}

/// `put` into a container, before it or after it.
#[cycle(run)]
#[tactic(auto, using(crate::proofs::Edits::put_rules))]
#[inline(never)]
pub(crate) fn put<E: External>(
    world: &mut World<E>,
    run: &mut Budget,
    frame: &mut Frame,
    nested: u32,
    place: Where,
    value: &Expr,
    container: &Container,
) -> Result<(), Stop>
    requires nested { nested ≤ 100 }
    requires value { depth value.now < max_depth }
    requires container { container_depth container.now < max_depth }
    requires open { IsSome (base world.old.history).start }
    ensures meaning { Form world.old.history run.old frame.old nested (stm.put_in place value.now container.now)
        (then_next result) world.new.history run.new frame.new }
    ensures keeps { Keeps world.old.history run.old world.new.history run.new }
{
    let new = value_of(world, run, frame, nested, value)?;
    let put = Edit::Put(place, new);
    edit_container(world, run, frame, nested, container, put)?;
    Ok(())
}

/// `set` of a property of an object.
#[cycle(run)]
#[tactic(auto, using(meaning::proofs::Rules::form_set_rules))]
#[inline(never)]
pub(crate) fn set<E: External>(
    world: &mut World<E>,
    run: &mut Budget,
    frame: &mut Frame,
    nested: u32,
    property: Prop,
    reference: &Ref,
    value: &Expr,
) -> Result<(), Stop>
    requires nested { nested ≤ 100 }
    requires reference { ref_depth (ref_of reference.now) < max_depth }
    requires value { depth value.now < max_depth }
    requires open { IsSome (base world.old.history).start }
    ensures meaning { Form world.old.history run.old frame.old nested
        (stm.set property (ref_of reference.now) value.now) (then_next result) world.new.history run.new frame.new }
    ensures keeps { Keeps world.old.history run.old world.new.history run.new }
{
    let value = eval_text(world, run, frame, nested, value)?;
    let referent = meet(world, run, frame, nested, reference)?;
    set_property(world, run, referent, property, value)?;
    Ok(())
}

/// Arithmetic on a container. An operand that is kept as a number alters a variable at once.
#[cycle(run)]
#[tactic(auto, using(crate::proofs::Edits::alter_rules))]
#[inline(never)]
pub(crate) fn alter<E: External>(
    world: &mut World<E>,
    run: &mut Budget,
    frame: &mut Frame,
    nested: u32,
    op: Op,
    value: &Expr,
    container: &Container,
) -> Result<(), Stop>
    requires nested { nested ≤ 100 }
    requires value { depth value.now < max_depth }
    requires container { container_depth container.now < max_depth }
    requires open { IsSome (base world.old.history).start }
    ensures meaning { Alters world.old.history run.old frame.old nested op value.now container.now (then_next result)
        world.new.history run.new frame.new }
    ensures keeps { Keeps world.old.history run.old world.new.history run.new }
{
    if let Some(done) = alter_by_number(world, run, frame, op, value, container) {
        return done;
    }
    let operand = value_of(world, run, frame, nested, value)?;
    let change = Edit::Alter(op, operand);
    edit_container(world, run, frame, nested, container, change)?;
    Ok(())
}

/// `delete` of pieces of a container.
#[cycle(run)]
#[tactic(auto, using(meaning::proofs::Rules::form_delete_rules))]
#[inline(never)]
pub(crate) fn delete<E: External>(
    world: &mut World<E>,
    run: &mut Budget,
    frame: &mut Frame,
    nested: u32,
    chunk: &Chunk,
    container: &Container,
) -> Result<(), Stop>
    requires nested { nested ≤ 100 }
    requires chunk { chunk_depth (chunk_of chunk.now) < max_depth }
    requires container { container_depth container.now < max_depth }
    requires open { IsSome (base world.old.history).start }
    ensures meaning { Form world.old.history run.old frame.old nested (stm.delete (chunk_of chunk.now) container.now)
        (then_next result) world.new.history run.new frame.new }
    ensures keeps { Keeps world.old.history run.old world.new.history run.new }
{
    let pieces = pieces(world, run, frame, nested, chunk)?;
    let to = resolve(world, run, frame, nested, container)?.with(pieces)?;
    edit(world, run, frame, to, Edit::Delete)?;
    Ok(())
}

/// `do`: a text is run as lines, one level deeper.
#[cycle(run)]
#[tactic(auto, using(meaning::proofs::Rules::form_do_rules, meaning::proofs::Rules::dotext_rules))]
#[inline(never)]
pub(crate) fn run_do<E: External>(
    world: &mut World<E>,
    run: &mut Budget,
    frame: &mut Frame,
    nested: u32,
    text: &Expr,
    returned: &mut Value,
) -> Result<Way, Stop>
    requires nested { nested ≤ 100 }
    requires deep { depth text.now < max_depth }
    requires open { IsSome (base world.old.history).start }
    ensures meaning { Form world.old.history run.old frame.old nested (stm.do_ text.now)
        (how_given result returned.new) world.new.history run.new frame.new }
    ensures keeps { Keeps world.old.history run.old world.new.history run.new }
{
    let text = eval_text(world, run, frame, nested, text)?;
    if nested == MOST_NESTED {
        return Err(Stop::Fault(Fault::TooDeep));
    }
    let lines = lines(run, TextUse::Do, &text)?;
    // Called for its clause alone: a tree is at most 100 levels deep.
    let _depth = lines.depth();
    match run_block(world, run, frame, nested + 1, &lines.items, returned) {
        Ok(way) => Ok(way),
        Err(stop) => Err(leaving_text(run, TextUse::Do, &text, stop)),
    }
}

/// `send`: the text, then the object, then the message.
#[cycle(run)]
#[tactic(auto, using(meaning::proofs::Rules::form_send_rules, meaning::proofs::Rules::sendstext_rules))]
#[inline(never)]
pub(crate) fn run_send<E: External>(
    world: &mut World<E>,
    run: &mut Budget,
    frame: &mut Frame,
    nested: u32,
    text: &Expr,
    reference: &Ref,
) -> Result<(), Stop>
    requires nested { nested ≤ 100 }
    requires text { depth text.now < max_depth }
    requires reference { ref_depth (ref_of reference.now) < max_depth }
    requires open { IsSome (base world.old.history).start }
    ensures meaning { Form world.old.history run.old frame.old nested (stm.send text.now (ref_of reference.now))
        (then_next result) world.new.history run.new frame.new }
    ensures keeps { Keeps world.old.history run.old world.new.history run.new }
{
    let text = eval_text(world, run, frame, nested, text)?;
    let referent = meet(world, run, frame, nested, reference)?;
    let message = message(run, &text)?;
    // Called for its clause alone: a tree is at most 100 levels deep.
    let _depth = message.depth();
    let mut unused = Value::of_number(0);
    calls(
        world,
        run,
        frame,
        nested,
        referent.object,
        &message.name,
        &message.arguments,
        HandlerKind::Command,
        &mut unused,
    )?;
    Ok(())
}

/// `go` to a card or a background.
#[cycle(run)]
#[tactic(auto, using(meaning::proofs::Rules::form_go_rules))]
#[inline(never)]
pub(crate) fn run_go<E: External>(
    world: &mut World<E>,
    run: &mut Budget,
    frame: &mut Frame,
    nested: u32,
    destination: &Destination,
) -> Result<(), Stop>
    requires nested { nested ≤ 100 }
    requires deep { destination_depth (destination_of destination.now) ≤ max_depth }
    requires open { IsSome (base world.old.history).start }
    ensures meaning { Form world.old.history run.old frame.old nested (stm.go (destination_of destination.now))
        (then_next result) world.new.history run.new frame.new }
    ensures keeps { Keeps world.old.history run.old world.new.history run.new }
{
    let card = lead(world, run, frame, nested, destination)?;
    let _ = go(world, run, frame, nested, card)?;
    Ok(())
}

/// `if`.
#[cycle(run)]
#[tactic(auto, using(meaning::proofs::Rules::form_when_rules))]
#[inline(never)]
pub(crate) fn when<E: External>(
    world: &mut World<E>,
    run: &mut Budget,
    frame: &mut Frame,
    nested: u32,
    stmt: &Stmt,
    returned: &mut Value,
) -> Result<Way, Stop>
    requires nested { nested ≤ 100 }
    requires form { is_when stmt.now ≡ true }
    requires deep { stmt_depth stmt.now ≤ max_depth }
    requires open { IsSome (base world.old.history).start }
    ensures meaning { Form world.old.history run.old frame.old nested stmt.now
        (how_given result returned.new) world.new.history run.new frame.new }
    ensures keeps { Keeps world.old.history run.old world.new.history run.new }
{
    keep_apart!(when(world, run, frame, nested, stmt, returned));
    match stmt.form() {
        StmtForm::Kind(StmtKind::When(condition, branches)) => {
            if truth_value(world, run, frame, nested, condition)? {
                run_block(world, run, frame, nested, &branches.lines.items, returned)
            } else {
                run_block(
                    world,
                    run,
                    frame,
                    nested,
                    &branches.otherwise.items,
                    returned,
                )
            }
        }
        _ => unreachable!(),
    }
}
