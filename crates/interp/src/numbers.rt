//! Expressions that are converted to numbers.

ghost use Rattle.std.specs.Prelude.{◌≤◌, ◌<◌, IsSome};
ghost use Rattle.ht_grammar.specs.Trees as tree;
ghost use Rattle.ht_grammar.specs.Depth.{depth, max_depth};
ghost use Rattle.containers.specs.Base.{base};
ghost use Rattle.meaning.specs.Meaning.{NumberVal};
ghost use Rattle.meaning.specs.Places.{pieces_at as pieces_at_numbers};
ghost use Rattle.interp.specs.Operands.{TakesNumber};
ghost use Rattle.interp.specs.Keeps.{Keeps};

use crate::expr::{eval, part_of};
use change_journal::World;
use externals::External;
use ht_tree::{Chunk, Expr, ExprForm, ExprKind};
use ht_values::{ChunkKind, Value};
use meaning::{Budget, Frame, Stop};
use primitives::numbers::known_number;
use primitives::values::number;

/// An expression that is converted to a number. A chunk isn't computed as a value first, so an index in an index takes
/// one frame of this function, and none of `eval`.
#[cycle(run)]
#[tactic(auto, using(meaning::proofs::Rules::numberval_rules))]
#[inline(never)]
pub(crate) fn number_value<E: External>(
    world: &mut World<E>,
    run: &mut Budget,
    frame: &Frame,
    nested: u32,
    e: &Expr,
) -> Result<i64, Stop>
    requires nested { nested ≤ 100 }
    requires deep { depth e.now < max_depth }
    requires open { IsSome (base world.old.history).start }
    ensures meaning { NumberVal world.old.history run.old frame.now nested e.now result world.new.history run.new }
    ensures keeps { Keeps world.old.history run.old world.new.history run.new }
{
    match e.form() {
        ExprForm::Kind(ExprKind::Chunk(Chunk::Piece(kind, index), text)) => {
            piece_number(world, run, frame, nested, *kind, index, text)
        }
        ExprForm::Kind(ExprKind::Chunk(Chunk::Pieces(kind, bounds), text)) => {
            let (first, last) = (&bounds.first, &bounds.last);
            pieces_number(world, run, frame, nested, *kind, first, last, text)
        }
        _ => plain_number(world, run, frame, nested, e),
    }
}

/// An expression that is computed as a value, and then converted to a number.
#[cycle(run)]
#[tactic(auto, using(meaning::proofs::Rules::numberval_rules))]
#[inline(never)]
pub(crate) fn plain_number<E: External>(
    world: &mut World<E>,
    run: &mut Budget,
    frame: &Frame,
    nested: u32,
    e: &Expr,
) -> Result<i64, Stop>
    requires nested { nested ≤ 100 }
    requires deep { depth e.now < max_depth }
    requires open { IsSome (base world.old.history).start }
    ensures meaning { NumberVal world.old.history run.old frame.now nested e.now result world.new.history run.new }
    ensures keeps { Keeps world.old.history run.old world.new.history run.new }
{
    keep_apart!(plain_number(world, run, frame, nested, e));
    if let Some(number) = known_number(world, frame, e) {
        return Ok(number);
    }
    let mut value = Value::of_number(0);
    eval(world, run, frame, nested, e, &mut value)?;
    number(run, &value)
}

/// A piece of a text by its number, which is converted to a number.
#[cycle(run)]
#[tactic(auto, using(crate::proofs::Operands::chunk_number_rules))]
#[inline(always)]
pub(crate) fn piece_number<E: External>(
    world: &mut World<E>,
    run: &mut Budget,
    frame: &Frame,
    nested: u32,
    kind: ChunkKind,
    index: &Expr,
    text: &Expr,
) -> Result<i64, Stop>
    requires nested { nested ≤ 100 }
    requires index { depth index.now < max_depth }
    requires text { depth text.now < max_depth }
    requires open { IsSome (base world.old.history).start }
    ensures meaning { NumberVal world.old.history run.old frame.now nested
        (tree.chunk (tree.piece kind index.now) text.now) result world.new.history run.new }
    ensures keeps { Keeps world.old.history run.old world.new.history run.new }
{
    let at = number_value(world, run, frame, nested, index)?;
    part_number(world, run, frame, nested, kind, at, at, text)
}

/// Pieces of a text, from one number to another, which are converted to a number.
#[cycle(run)]
#[tactic(auto, using(crate::proofs::Operands::chunk_number_rules))]
#[inline(never)]
pub(crate) fn pieces_number<E: External>(
    world: &mut World<E>,
    run: &mut Budget,
    frame: &Frame,
    nested: u32,
    kind: ChunkKind,
    first: &Expr,
    last: &Expr,
    text: &Expr,
) -> Result<i64, Stop>
    requires nested { nested ≤ 100 }
    requires first { depth first.now < max_depth }
    requires last { depth last.now < max_depth }
    requires text { depth text.now < max_depth }
    requires open { IsSome (base world.old.history).start }
    ensures meaning { NumberVal world.old.history run.old frame.now nested
        (tree.chunk (tree.pieces kind first.now last.now) text.now) result world.new.history run.new }
    ensures keeps { Keeps world.old.history run.old world.new.history run.new }
{
    let from = number_value(world, run, frame, nested, first)?;
    let to = number_value(world, run, frame, nested, last)?;
    part_number(world, run, frame, nested, kind, from, to, text)
}

/// Pieces, which are computed, of a text, which isn't, converted to a number.
#[cycle(run)]
#[tactic(auto, using(crate::proofs::Operands::part_number_rules))]
#[inline(never)]
pub(crate) fn part_number<E: External>(
    world: &mut World<E>,
    run: &mut Budget,
    frame: &Frame,
    nested: u32,
    kind: ChunkKind,
    from: i64,
    to: i64,
    text: &Expr,
) -> Result<i64, Stop>
    requires nested { nested ≤ 100 }
    requires deep { depth text.now < max_depth }
    requires open { IsSome (base world.old.history).start }
    ensures meaning { TakesNumber world.old.history run.old frame.now nested (pieces_at_numbers kind from to) text.now
        result world.new.history run.new }
    ensures keeps { Keeps world.old.history run.old world.new.history run.new }
{
    let mut value = Value::of_number(0);
    part_of(world, run, frame, nested, kind, from, to, text, &mut value)?;
    number(run, &value)
}
