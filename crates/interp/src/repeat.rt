//! Repeats.

ghost use Rattle.std.specs.Prelude.{◌≡◌, ◌≤◌, ◌<◌, IsSome, option_copied, true};
ghost use Rattle.ht_grammar.specs.Statements as stm;
ghost use Rattle.ht_grammar.specs.Depth.{depth, stmt_depth, stmts_depth, max_depth};
ghost use Rattle.ht_tree.specs.StatementView.{stmts_of};
ghost use Rattle.containers.specs.Base.{base};
ghost use Rattle.meaning.specs.Meaning.{Bounds, Counts, Endless, Form, While};
ghost use Rattle.primitives.specs.Given.{how_given};
ghost use Rattle.interp.specs.Heads.{counted, is_counted, is_forever, is_times, is_while};
ghost use Rattle.interp.specs.Keeps.{Keeps};

use crate::expr::{eval, truth_value};
use crate::numbers::number_value;
use crate::stmt::run_block;
use change_journal::World;
use externals::External;
use ht_tree::{Counting, Expr, Head, Stmt, StmtForm, StmtKind, Stmts};
use ht_values::{Name, Value};
use meaning::{Budget, Counter, Frame, Stop, Way};
use primitives::places::assign;
use primitives::values::{counter, ends_repeat, goes_on};

/// A repeat as often as a number says.
#[cycle(run)]
#[tactic(auto, using(meaning::proofs::Rules::form_repeat_times_rules))]
#[inline(never)]
pub(crate) fn repeat_times<E: External>(
    world: &mut World<E>,
    run: &mut Budget,
    frame: &mut Frame,
    nested: u32,
    stmt: &Stmt,
    returned: &mut Value,
) -> Result<Way, Stop>
    requires nested { nested ≤ 100 }
    requires form { is_times stmt.now ≡ true }
    requires deep { stmt_depth stmt.now ≤ max_depth }
    requires open { IsSome (base world.old.history).start }
    ensures meaning { Form world.old.history run.old frame.old nested stmt.now
        (how_given result returned.new) world.new.history run.new frame.new }
    ensures keeps { Keeps world.old.history run.old world.new.history run.new }
{
    keep_apart!(repeat_times(world, run, frame, nested, stmt, returned));
    match stmt.form() {
        StmtForm::Kind(StmtKind::Repeat(Head::Times(times), lines)) => {
            let times = number_value(world, run, frame, nested, times)?;
            let counter = Counter::new(1, times, false);
            turns(
                world,
                run,
                frame,
                nested,
                None,
                counter,
                &lines.items,
                returned,
            )
        }
        _ => unreachable!(),
    }
}

/// A repeat from a number up or down to another.
#[cycle(run)]
#[tactic(auto, using(meaning::proofs::Rules::form_rules))]
#[inline(never)]
pub(crate) fn repeat_counted<E: External>(
    world: &mut World<E>,
    run: &mut Budget,
    frame: &mut Frame,
    nested: u32,
    stmt: &Stmt,
    returned: &mut Value,
) -> Result<Way, Stop>
    requires nested { nested ≤ 100 }
    requires form { is_counted stmt.now ≡ true }
    requires deep { stmt_depth stmt.now ≤ max_depth }
    requires open { IsSome (base world.old.history).start }
    ensures meaning { Form world.old.history run.old frame.old nested stmt.now
        (how_given result returned.new) world.new.history run.new frame.new }
    ensures keeps { Keeps world.old.history run.old world.new.history run.new }
{
    match stmt.form() {
        StmtForm::Kind(StmtKind::Repeat(Head::CountedUp(counting), lines)) => {
            let Counting { name, from, to } = &**counting;
            counted_turns(
                world, run, frame, nested, name, from, to, false, lines, returned,
            )
        }
        StmtForm::Kind(StmtKind::Repeat(Head::CountedDown(counting), lines)) => {
            let Counting { name, from, to } = &**counting;
            counted_turns(
                world, run, frame, nested, name, from, to, true, lines, returned,
            )
        }
        _ => unreachable!(),
    }
}

/// The turns of a repeat from a number up or down to another.
#[cycle(run)]
#[tactic(auto, using(meaning::proofs::Rules::form_repeat_counted_up_rules, meaning::proofs::Rules::form_repeat_counted_down_rules))]
#[inline(always)]
pub(crate) fn counted_turns<E: External>(
    world: &mut World<E>,
    run: &mut Budget,
    frame: &mut Frame,
    nested: u32,
    name: &Name,
    from: &Expr,
    to: &Expr,
    is_down: bool,
    lines: &Stmts,
    returned: &mut Value,
) -> Result<Way, Stop>
    requires nested { nested ≤ 100 }
    requires from { depth from.now < max_depth }
    requires to { depth to.now < max_depth }
    requires lines { stmts_depth (stmts_of lines.now.items.items) < max_depth }
    requires open { IsSome (base world.old.history).start }
    ensures meaning { Form world.old.history run.old frame.old nested
        (stm.repeat (counted is_down name.now from.now to.now) (stmts_of lines.now.items.items))
        (how_given result returned.new) world.new.history run.new frame.new }
    ensures keeps { Keeps world.old.history run.old world.new.history run.new }
{
    let counter = bounds(world, run, frame, nested, from, to, is_down)?;
    turns(
        world,
        run,
        frame,
        nested,
        Some(name),
        counter,
        &lines.items,
        returned,
    )
}

/// The bounds of a repeat with a variable: both are computed, then both are converted.
#[cycle(run)]
#[tactic(auto, using(meaning::proofs::Rules::bounds_rules))]
#[inline(never)]
pub(crate) fn bounds<E: External>(
    world: &mut World<E>,
    run: &mut Budget,
    frame: &Frame,
    nested: u32,
    from: &Expr,
    to: &Expr,
    is_down: bool,
) -> Result<Counter, Stop>
    requires nested { nested ≤ 100 }
    requires from { depth from.now < max_depth }
    requires to { depth to.now < max_depth }
    requires open { IsSome (base world.old.history).start }
    ensures meaning { Bounds world.old.history run.old frame.now nested from.now to.now is_down result world.new.history
        run.new }
    ensures keeps { Keeps world.old.history run.old world.new.history run.new }
{
    keep_apart!(bounds(world, run, frame, nested, from, to, is_down));
    let mut first = Value::of_number(0);
    eval(world, run, frame, nested, from, &mut first)?;
    let mut last = Value::of_number(0);
    eval(world, run, frame, nested, to, &mut last)?;
    counter(run, &first, &last, is_down)
}

/// A repeat without a condition.
#[cycle(run)]
#[tactic(auto, using(meaning::proofs::Rules::form_rules))]
#[inline(never)]
pub(crate) fn repeat_forever<E: External>(
    world: &mut World<E>,
    run: &mut Budget,
    frame: &mut Frame,
    nested: u32,
    stmt: &Stmt,
    returned: &mut Value,
) -> Result<Way, Stop>
    requires nested { nested ≤ 100 }
    requires form { is_forever stmt.now ≡ true }
    requires deep { stmt_depth stmt.now ≤ max_depth }
    requires open { IsSome (base world.old.history).start }
    ensures meaning { Form world.old.history run.old frame.old nested stmt.now
        (how_given result returned.new) world.new.history run.new frame.new }
    ensures keeps { Keeps world.old.history run.old world.new.history run.new }
{
    keep_apart!(repeat_forever(world, run, frame, nested, stmt, returned));
    match stmt.form() {
        StmtForm::Kind(StmtKind::Repeat(Head::Forever, lines)) => {
            endless_turns(world, run, frame, nested, &lines.items, returned)
        }
        _ => unreachable!(),
    }
}

/// The turns of a repeat without a condition.
#[cycle(run)]
#[tactic(auto, using(crate::proofs::Blocks::endless_rules))]
#[inline(always)]
pub(crate) fn endless_turns<E: External>(
    world: &mut World<E>,
    run: &mut Budget,
    frame: &mut Frame,
    nested: u32,
    lines: &[Stmt],
    returned: &mut Value,
) -> Result<Way, Stop>
    requires nested { nested ≤ 100 }
    requires lines { stmts_depth (stmts_of lines.now) < max_depth }
    requires open { IsSome (base world.old.history).start }
    ensures meaning { Endless world.old.history run.old frame.old nested (stmts_of lines.now)
        (how_given result returned.new) world.new.history run.new frame.new }
    ensures keeps { Keeps world.old.history run.old world.new.history run.new }
{
    loop {
        run.step()?;
        let mut ended = run_block(world, run, frame, nested, lines, returned);
        if ends_repeat(&mut ended) {
            return ended;
        }
    }
}

/// A repeat as long as a condition is so, or until it is.
#[cycle(run)]
#[tactic(auto, using(meaning::proofs::Rules::form_rules))]
#[inline(never)]
pub(crate) fn repeat_while<E: External>(
    world: &mut World<E>,
    run: &mut Budget,
    frame: &mut Frame,
    nested: u32,
    stmt: &Stmt,
    returned: &mut Value,
) -> Result<Way, Stop>
    requires nested { nested ≤ 100 }
    requires form { is_while stmt.now ≡ true }
    requires deep { stmt_depth stmt.now ≤ max_depth }
    requires open { IsSome (base world.old.history).start }
    ensures meaning { Form world.old.history run.old frame.old nested stmt.now
        (how_given result returned.new) world.new.history run.new frame.new }
    ensures keeps { Keeps world.old.history run.old world.new.history run.new }
{
    keep_apart!(repeat_while(world, run, frame, nested, stmt, returned));
    match stmt.form() {
        StmtForm::Kind(StmtKind::Repeat(Head::While(condition), lines)) => turns_while(
            world,
            run,
            frame,
            nested,
            true,
            condition,
            &lines.items,
            returned,
        ),
        StmtForm::Kind(StmtKind::Repeat(Head::Until(condition), lines)) => turns_while(
            world,
            run,
            frame,
            nested,
            false,
            condition,
            &lines.items,
            returned,
        ),
        _ => unreachable!(),
    }
}

/// The turns of a repeat by a condition, as long as it is so or isn't.
#[cycle(run)]
#[tactic(auto, using(crate::proofs::Blocks::while_rules))]
#[inline(always)]
pub(crate) fn turns_while<E: External>(
    world: &mut World<E>,
    run: &mut Budget,
    frame: &mut Frame,
    nested: u32,
    wanted: bool,
    condition: &Expr,
    lines: &[Stmt],
    returned: &mut Value,
) -> Result<Way, Stop>
    requires nested { nested ≤ 100 }
    requires condition { depth condition.now < max_depth }
    requires lines { stmts_depth (stmts_of lines.now) < max_depth }
    requires open { IsSome (base world.old.history).start }
    ensures meaning { While world.old.history run.old frame.old nested wanted condition.now (stmts_of lines.now)
        (how_given result returned.new) world.new.history run.new frame.new }
    ensures keeps { Keeps world.old.history run.old world.new.history run.new }
{
    loop {
        run.step()?;
        let truth = truth_value(world, run, frame, nested, condition)?;
        if !goes_on(wanted, truth) {
            return Ok(Way::Next);
        }
        let mut ended = run_block(world, run, frame, nested, lines, returned);
        if ends_repeat(&mut ended) {
            return ended;
        }
    }
}

/// A repeat over numbers, with a variable or without one.
#[cycle(run)]
#[tactic(auto, using(crate::proofs::Blocks::counts_rules))]
#[inline(always)]
pub(crate) fn turns<E: External>(
    world: &mut World<E>,
    run: &mut Budget,
    frame: &mut Frame,
    nested: u32,
    variable: Option<&Name>,
    counter: Counter,
    lines: &[Stmt],
    returned: &mut Value,
) -> Result<Way, Stop>
    requires nested { nested ≤ 100 }
    requires lines { stmts_depth (stmts_of lines.now) < max_depth }
    requires open { IsSome (base world.old.history).start }
    ensures meaning { Counts world.old.history run.old frame.old nested (option_copied variable.entry) counter
        (stmts_of lines.now) (how_given result returned.new) world.new.history run.new frame.new }
    ensures keeps { Keeps world.old.history run.old world.new.history run.new }
{
    let mut turn = counter;
    loop {
        run.step()?;
        if turn.is_over() {
            return Ok(Way::Next);
        }
        assign(world, run, frame, variable, &turn)?;
        let mut ended = run_block(world, run, frame, nested, lines, returned);
        if ends_repeat(&mut ended) {
            return ended;
        }
        turn.step();
    }
}
