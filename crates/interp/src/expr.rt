//! The values of expressions.

ghost use Rattle.std.specs.Prelude.{◌≡◌, ◌≤◌, ◌<◌, IsSome, IfOk, Ok, true};
ghost use Rattle.ht_values.specs.Text.{numeral};
ghost use Rattle.ht_grammar.specs.Trees as tree;
ghost use Rattle.ht_grammar.specs.Depth.{depth, depths, part_depth, ref_depth, max_depth};
ghost use Rattle.ht_tree.specs.View.{expr_of, exprs_of, part_of as part_of_tree, ref_of};
ghost use Rattle.chunks.specs.Pieces.{read};
ghost use Rattle.containers.specs.Base.{base};
ghost use Rattle.meaning.specs.Values.{Yields};
ghost use Rattle.meaning.specs.Meaning.{TruthVal, Val, Vals};
ghost use Rattle.meaning.specs.Places.{pieces_at as pieces_at_numbers};
ghost use Rattle.primitives.specs.Given.{given};
ghost use Rattle.interp.specs.Forms.{is_count_of_pieces, is_nth_piece, is_piece, is_pieces};
ghost use Rattle.interp.specs.Forms.{is_property, is_there_is};
ghost use Rattle.interp.specs.Operands.{MeetsOperand, TakesPart};
ghost use Rattle.interp.specs.Keeps.{Keeps};

use crate::functions::function_of;
use crate::message::{calls, calls_bare, calls_of};
use crate::numbers::number_value;
use crate::operators::{binary, chain, left_nested, right_nested, unary};
use crate::reference::{meet, meet_part};
use change_journal::World;
use externals::External;
use ht_grammar::HandlerKind;
use ht_tree::{Binary, Chunk, Count, Expr, ExprForm, ExprKind, Part, Ref};
use ht_values::{ChunkKind, Prop, Text, Value};
use meaning::{Budget, Frame, Stop};
use primitives::arguments::Arguments;
use primitives::atoms::{atom, object_count};
use primitives::numbers::{
    are_plain, binary_of_plain, known_truth, number_of_operators, unary_of_name, unary_of_number,
};
use primitives::objects::property;
use primitives::operands::{Operand, operand_count, operand_part, take_part};
use primitives::parens::bare;
use primitives::places::{field_text, nth_piece, pieces_at};
use primitives::values::{there, truth};
use std::alloc::AllocError;
use std::mem;

/// Writes the value of an expression in a place of its caller's, so that a level of a tree has one place for a value.
/// Where there is no value, what stands in the place isn't said. Parentheses are passed over first: they take no frame.
#[cycle(run)]
#[tactic(auto)]
#[inline(always)]
pub(crate) fn eval<E: External>(
    world: &mut World<E>,
    run: &mut Budget,
    frame: &Frame,
    nested: u32,
    e: &Expr,
    value: &mut Value,
) -> Result<(), Stop>
    requires nested { nested ≤ 100 }
    requires deep { depth e.now ≤ max_depth }
    requires open { IsSome (base world.old.history).start }
    ensures meaning { Val world.old.history run.old frame.now nested e.now (given result value.new) world.new.history
        run.new }
    ensures keeps { Keeps world.old.history run.old world.new.history run.new }
{
    eval_bare(world, run, frame, nested, bare(e), value)
}

/// Writes the value of an expression: which form it has is looked at, each arm is one call. What nests is handed on
/// whole and not by its parts: a last call of six arguments is a jump, and takes no room beside what it calls.
#[cycle(run)]
#[tactic(auto, using(meaning::proofs::Rules::val_rules))]
#[inline(never)]
pub(crate) fn eval_bare<E: External>(
    world: &mut World<E>,
    run: &mut Budget,
    frame: &Frame,
    nested: u32,
    e: &Expr,
    value: &mut Value,
) -> Result<(), Stop>
    requires nested { nested ≤ 100 }
    requires deep { depth e.now ≤ max_depth }
    requires open { IsSome (base world.old.history).start }
    ensures meaning { Val world.old.history run.old frame.now nested e.now (given result value.new) world.new.history
        run.new }
    ensures keeps { Keeps world.old.history run.old world.new.history run.new }
{
    keep_apart!(eval_bare(world, run, frame, nested, e, value));
    let kind = match e.form() {
        ExprForm::Number(number) => {
            set_number(value, number);
            return Ok(());
        }
        ExprForm::Name(_) | ExprForm::Digits(_) | ExprForm::Quoted(_) | ExprForm::Constant(_) =>
            return atom(world, run, frame, e, value),
        ExprForm::BareCall(name) => {
            let function = HandlerKind::Function;
            return calls_bare(world, run, frame, nested, name.text(), function, value);
        }
        ExprForm::CallOf(call) => {
            let (name, argument) = (call.name.text(), &call.argument);
            let function = HandlerKind::Function;
            return calls_of(world, run, frame, nested, name, argument, function, value);
        }
        ExprForm::Paren(inner) => return eval(world, run, frame, nested, inner, value),
        ExprForm::UnaryOfName(op, name) => {
            keep_apart!(unary_of_name(world, run, frame, nested, op, name, value));
            return unary_of_name(world, run, frame, nested, op, name, value);
        }
        ExprForm::UnaryOfNumber(op, number) => {
            keep_apart!(unary_of_number(world, run, frame, nested, op, number, value));
            return unary_of_number(world, run, frame, nested, op, number, value);
        }
        ExprForm::Unary(operator) => {
            return unary(world, run, frame, nested, operator, value);
        }
        ExprForm::Binary(joined) if are_plain(&joined.left, &joined.right) => {
            let Binary { op, left, right } = joined;
            return binary_of_plain(world, run, frame, nested, *op, left, right, value);
        }
        ExprForm::Binary(joined) => return binary(world, run, frame, nested, joined, value),
        ExprForm::LeftNested(both) => {
            return left_nested(world, run, frame, nested, both, value);
        }
        ExprForm::RightNested(both) => {
            return right_nested(world, run, frame, nested, both, value);
        }
        ExprForm::Chain(operators) => {
            return chain(world, run, frame, nested, operators, value);
        }
        ExprForm::Kind(kind) => kind,
    };
    match kind {
        ExprKind::Call(name, list) => {
            let function = HandlerKind::Function;
            calls(
                world, run, frame, nested, frame.me, name, list, function, value,
            )
        }
        ExprKind::CallOf(name, only) => {
            let function = HandlerKind::Function;
            calls_of(world, run, frame, nested, name, only, function, value)
        }
        ExprKind::ThereIs(_, _) => there_is(world, run, frame, nested, kind, value),
        ExprKind::Chunk(Chunk::Piece(_, _), _) => {
            piece_of(world, run, frame, nested, kind, value)
        }
        ExprKind::Chunk(Chunk::Pieces(_, _), _) => {
            pieces_of(world, run, frame, nested, kind, value)
        }
        ExprKind::Chunk(Chunk::NthPiece(_, _), _) => {
            nth_piece_of(world, run, frame, nested, kind, value)
        }
        ExprKind::Field(part) => field_of(world, run, frame, nested, part, value),
        ExprKind::NumberOf(Count::PiecesOf(_, _)) => {
            count_of_pieces(world, run, frame, nested, kind, value)
        }
        ExprKind::NumberOf(Count::OfObject(reference)) => {
            number_of_object(world, run, frame, nested, reference, value)
        }
        ExprKind::NumberOf(count) => object_count(world, run, count, value),
        ExprKind::Property(_, _) => property_of(world, run, frame, nested, kind, value),
        ExprKind::Function(_, _) => function_of(world, run, frame, nested, kind, value),
        _ => atom(world, run, frame, e, value),
    }
}

/// Writes the value of an expression that is no operand of another. Where it is operators of numbers alone, they are
/// computed with at once: that is tried here and at no operand, so that what it tries in vain is computed only twice.
#[cycle(run)]
#[tactic(auto, using(meaning::proofs::Rules::val_rules))]
#[inline(always)]
pub(crate) fn eval_whole<E: External>(
    world: &mut World<E>,
    run: &mut Budget,
    frame: &Frame,
    nested: u32,
    e: &Expr,
    value: &mut Value,
) -> Result<(), Stop>
    requires nested { nested ≤ 100 }
    requires deep { depth e.now ≤ max_depth }
    requires open { IsSome (base world.old.history).start }
    ensures meaning { Val world.old.history run.old frame.now nested e.now (given result value.new) world.new.history
        run.new }
    ensures keeps { Keeps world.old.history run.old world.new.history run.new }
{
    match number_of_operators(world, frame, e) {
        Some(number) => {
            set_number(value, number);
            Ok(())
        }
        None => eval(world, run, frame, nested, e, value),
    }
}

/// The value of an expression.
#[cycle(run)]
#[tactic(auto, using(meaning::proofs::Rules::val_rules))]
#[inline(always)]
pub(crate) fn value_of<E: External>(
    world: &mut World<E>,
    run: &mut Budget,
    frame: &Frame,
    nested: u32,
    e: &Expr,
) -> Result<Value, Stop>
    requires nested { nested ≤ 100 }
    requires deep { depth e.now ≤ max_depth }
    requires open { IsSome (base world.old.history).start }
    ensures meaning { Val world.old.history run.old frame.now nested e.now result world.new.history run.new }
    ensures keeps { Keeps world.old.history run.old world.new.history run.new }
{
    let mut value = Value::of_number(0);
    eval_whole(world, run, frame, nested, e, &mut value)?;
    Ok(value)
}

/// The value of an expression, as a text of its own.
#[cycle(run)]
#[tactic(auto, using(crate::proofs::Operands::text_rules))]
#[inline(always)]
pub(crate) fn eval_text<E: External>(
    world: &mut World<E>,
    run: &mut Budget,
    frame: &Frame,
    nested: u32,
    e: &Expr,
) -> Result<Text, Stop>
    requires nested { nested ≤ 100 }
    requires deep { depth e.now ≤ max_depth }
    requires open { IsSome (base world.old.history).start }
    ensures meaning { Val world.old.history run.old frame.now nested e.now result world.new.history run.new }
    ensures keeps { Keeps world.old.history run.old world.new.history run.new }
{
    let mut value = Value::of_number(0);
    eval_whole(world, run, frame, nested, e, &mut value)?;
    Ok(text_taken(run, &mut value)?)
}

/// A value as a text of its own. What then stands in the place isn't said.
#[inline(never)]
pub(crate) fn text_taken(run: &Budget, value: &mut Value) -> Result<Text, AllocError>
    ensures { IfOk result (λ t. t ≡ value.old) }
{
    mem::replace(value, Value::of_number(0)).into_text(run.alloc())
}

/// `there is`.
#[cycle(run)]
#[tactic(auto, using(meaning::proofs::Rules::val_there_is_rules))]
#[inline(never)]
pub(crate) fn there_is<E: External>(
    world: &mut World<E>,
    run: &mut Budget,
    frame: &Frame,
    nested: u32,
    kind: &ExprKind,
    value: &mut Value,
) -> Result<(), Stop>
    requires nested { nested ≤ 100 }
    requires form { is_there_is (expr_of kind.now) ≡ true }
    requires deep { depth (expr_of kind.now) ≤ max_depth }
    requires open { IsSome (base world.old.history).start }
    ensures meaning { Val world.old.history run.old frame.now nested (expr_of kind.now)
        (given result value.new) world.new.history run.new }
    ensures keeps { Keeps world.old.history run.old world.new.history run.new }
{
    keep_apart!(there_is(world, run, frame, nested, kind, value));
    match kind {
        ExprKind::ThereIs(is_no, reference) => {
            let met = meet(world, run, frame, nested, reference);
            *value = there(run, *is_no, met)?;
            Ok(())
        }
        _ => unreachable!(),
    }
}

/// The text of a field.
#[cycle(run)]
#[tactic(auto, using(meaning::proofs::Rules::val_field_rules))]
#[inline(never)]
pub(crate) fn field_of<E: External>(
    world: &mut World<E>,
    run: &mut Budget,
    frame: &Frame,
    nested: u32,
    part: &Part,
    value: &mut Value,
) -> Result<(), Stop>
    requires nested { nested ≤ 100 }
    requires deep { part_depth (part_of_tree part.now) ≤ max_depth }
    requires open { IsSome (base world.old.history).start }
    ensures meaning { Val world.old.history run.old frame.now nested (tree.field (part_of_tree part.now))
        (given result value.new) world.new.history run.new }
    ensures keeps { Keeps world.old.history run.old world.new.history run.new }
{
    keep_apart!(field_of(world, run, frame, nested, part, value));
    let referent = meet_part(world, run, frame, nested, part)?;
    *value = field_text(world, run, frame, referent)?;
    Ok(())
}

/// A property of an object.
#[cycle(run)]
#[tactic(auto, using(meaning::proofs::Rules::val_property_rules))]
#[inline(never)]
pub(crate) fn property_of<E: External>(
    world: &mut World<E>,
    run: &mut Budget,
    frame: &Frame,
    nested: u32,
    kind: &ExprKind,
    value: &mut Value,
) -> Result<(), Stop>
    requires nested { nested ≤ 100 }
    requires form { is_property (expr_of kind.now) ≡ true }
    requires deep { depth (expr_of kind.now) ≤ max_depth }
    requires open { IsSome (base world.old.history).start }
    ensures meaning { Val world.old.history run.old frame.now nested (expr_of kind.now)
        (given result value.new) world.new.history run.new }
    ensures keeps { Keeps world.old.history run.old world.new.history run.new }
{
    keep_apart!(property_of(world, run, frame, nested, kind, value));
    match kind {
        ExprKind::Property(name, reference) => {
            let referent = meet(world, run, frame, nested, reference)?;
            *value = property(world, run, referent, *name)?;
            Ok(())
        }
        _ => unreachable!(),
    }
}

/// An operand whose text is read next: what a name or a field reads isn't copied.
#[cycle(run)]
#[tactic(auto, using(crate::proofs::Operands::met_rules))]
#[inline(always)]
pub(crate) fn meet_operand<'a, E: External>(
    world: &mut World<E>,
    run: &mut Budget,
    frame: &Frame,
    nested: u32,
    e: &'a Expr,
) -> Result<Operand<'a>, Stop>
    requires nested { nested ≤ 100 }
    requires deep { depth e.now ≤ max_depth }
    requires open { IsSome (base world.old.history).start }
    ensures meaning { MeetsOperand world.old.history run.old frame.now nested e.now result world.new.history run.new }
    ensures keeps { Keeps world.old.history run.old world.new.history run.new }
{
    match e.form() {
        ExprForm::Name(name) => Ok(Operand::Name(name)),
        ExprForm::Kind(ExprKind::Field(part)) => {
            let referent = meet_part(world, run, frame, nested, part)?;
            Ok(Operand::Field(referent))
        }
        _ => {
            let mut value = Value::of_number(0);
            eval(world, run, frame, nested, e, &mut value)?;
            Ok(Operand::Value(value))
        }
    }
}

/// A piece of a text by its number.
#[cycle(run)]
#[tactic(auto, using(crate::proofs::Operands::chunk_rules))]
#[inline(never)]
pub(crate) fn piece_of<E: External>(
    world: &mut World<E>,
    run: &mut Budget,
    frame: &Frame,
    nested: u32,
    kind: &ExprKind,
    value: &mut Value,
) -> Result<(), Stop>
    requires nested { nested ≤ 100 }
    requires form { is_piece (expr_of kind.now) ≡ true }
    requires deep { depth (expr_of kind.now) ≤ max_depth }
    requires open { IsSome (base world.old.history).start }
    ensures meaning { Val world.old.history run.old frame.now nested (expr_of kind.now)
        (given result value.new) world.new.history run.new }
    ensures keeps { Keeps world.old.history run.old world.new.history run.new }
{
    keep_apart!(piece_of(world, run, frame, nested, kind, value));
    match kind {
        ExprKind::Chunk(Chunk::Piece(pieces, index), text) => {
            let at = number_value(world, run, frame, nested, index)?;
            part_of(world, run, frame, nested, *pieces, at, at, text, value)
        }
        _ => unreachable!(),
    }
}

/// Pieces of a text, from one number to another.
#[cycle(run)]
#[tactic(auto, using(crate::proofs::Operands::chunk_rules))]
#[inline(never)]
pub(crate) fn pieces_of<E: External>(
    world: &mut World<E>,
    run: &mut Budget,
    frame: &Frame,
    nested: u32,
    kind: &ExprKind,
    value: &mut Value,
) -> Result<(), Stop>
    requires nested { nested ≤ 100 }
    requires form { is_pieces (expr_of kind.now) ≡ true }
    requires deep { depth (expr_of kind.now) ≤ max_depth }
    requires open { IsSome (base world.old.history).start }
    ensures meaning { Val world.old.history run.old frame.now nested
        (expr_of kind.now) (given result value.new) world.new.history run.new }
    ensures keeps { Keeps world.old.history run.old world.new.history run.new }
{
    keep_apart!(pieces_of(world, run, frame, nested, kind, value));
    match kind {
        ExprKind::Chunk(Chunk::Pieces(pieces, bounds), text) => {
            let from = number_value(world, run, frame, nested, &bounds.first)?;
            let to = number_value(world, run, frame, nested, &bounds.last)?;
            part_of(world, run, frame, nested, *pieces, from, to, text, value)
        }
        _ => unreachable!(),
    }
}

/// A piece of a text by its ordinal.
#[cycle(run)]
#[tactic(auto, using(crate::proofs::Operands::chunk_rules))]
#[inline(never)]
pub(crate) fn nth_piece_of<E: External>(
    world: &mut World<E>,
    run: &mut Budget,
    frame: &Frame,
    nested: u32,
    kind: &ExprKind,
    value: &mut Value,
) -> Result<(), Stop>
    requires nested { nested ≤ 100 }
    requires form { is_nth_piece (expr_of kind.now) ≡ true }
    requires deep { depth (expr_of kind.now) ≤ max_depth }
    requires open { IsSome (base world.old.history).start }
    ensures meaning { Val world.old.history run.old frame.now nested (expr_of kind.now)
        (given result value.new) world.new.history run.new }
    ensures keeps { Keeps world.old.history run.old world.new.history run.new }
{
    keep_apart!(nth_piece_of(world, run, frame, nested, kind, value));
    match kind {
        ExprKind::Chunk(Chunk::NthPiece(ordinal, pieces), text) => {
            let text = meet_operand(world, run, frame, nested, text)?;
            operand_part(
                world,
                run,
                frame,
                &text,
                &nth_piece(*ordinal, *pieces),
                value,
            )
        }
        _ => unreachable!(),
    }
}

/// Pieces, which are computed, of a text, which isn't. What a name or a field reads is lent.
#[cycle(run)]
#[tactic(auto, using(crate::proofs::Operands::part_rules))]
#[inline(always)]
pub(crate) fn part_of<E: External>(
    world: &mut World<E>,
    run: &mut Budget,
    frame: &Frame,
    nested: u32,
    kind: ChunkKind,
    from: i64,
    to: i64,
    text: &Expr,
    value: &mut Value,
) -> Result<(), Stop>
    requires nested { nested ≤ 100 }
    requires deep { depth text.now < max_depth }
    requires open { IsSome (base world.old.history).start }
    ensures meaning { TakesPart world.old.history run.old frame.now nested (pieces_at_numbers kind from to) text.now
        (given result value.new) world.new.history run.new }
    ensures keeps { Keeps world.old.history run.old world.new.history run.new }
{
    if is_lent(text) {
        return lent_part(world, run, frame, nested, kind, from, to, text, value);
    }
    eval(world, run, frame, nested, text, value)?;
    part_over(run, value, kind, from, to)
}

/// Whether an expression is a name or a field: what these read isn't copied.
#[inline]
pub(crate) fn is_lent(e: &Expr) -> bool {
    matches!(
        e.form(),
        ExprForm::Name(_) | ExprForm::Kind(ExprKind::Field(_))
    )
}

/// Writes pieces of a value over it.
#[inline(never)]
fn part_over(
    run: &Budget,
    value: &mut Value,
    kind: ChunkKind,
    from: i64,
    to: i64,
) -> Result<(), Stop>
    ensures { Yields (Ok (read run.now.delimiter (pieces_at_numbers kind from to) value.old)) (given result value.new) }
{
    take_part(run, value, &pieces_at(kind, from, to))
}

/// Pieces of an operand, which is met now.
#[cycle(run)]
#[tactic(auto, using(crate::proofs::Operands::part_rules))]
#[inline(never)]
pub(crate) fn lent_part<E: External>(
    world: &mut World<E>,
    run: &mut Budget,
    frame: &Frame,
    nested: u32,
    kind: ChunkKind,
    from: i64,
    to: i64,
    text: &Expr,
    value: &mut Value,
) -> Result<(), Stop>
    requires nested { nested ≤ 100 }
    requires deep { depth text.now < max_depth }
    requires open { IsSome (base world.old.history).start }
    ensures meaning { TakesPart world.old.history run.old frame.now nested (pieces_at_numbers kind from to) text.now
        (given result value.new) world.new.history run.new }
    ensures keeps { Keeps world.old.history run.old world.new.history run.new }
{
    let text = meet_operand(world, run, frame, nested, text)?;
    operand_part(world, run, frame, &text, &pieces_at(kind, from, to), value)
}

/// `the number of` pieces of a text.
#[cycle(run)]
#[tactic(auto, using(crate::proofs::Operands::count_rules))]
#[inline(never)]
pub(crate) fn count_of_pieces<E: External>(
    world: &mut World<E>,
    run: &mut Budget,
    frame: &Frame,
    nested: u32,
    kind: &ExprKind,
    value: &mut Value,
) -> Result<(), Stop>
    requires nested { nested ≤ 100 }
    requires form { is_count_of_pieces (expr_of kind.now) ≡ true }
    requires deep { depth (expr_of kind.now) ≤ max_depth }
    requires open { IsSome (base world.old.history).start }
    ensures meaning { Val world.old.history run.old frame.now nested (expr_of kind.now)
        (given result value.new) world.new.history run.new }
    ensures keeps { Keeps world.old.history run.old world.new.history run.new }
{
    keep_apart!(count_of_pieces(world, run, frame, nested, kind, value));
    match kind {
        ExprKind::NumberOf(count) => {
            keep_apart!(object_count(world, run, count, value));
            match count {
                Count::PiecesOf(pieces, text) => {
                    let text = meet_operand(world, run, frame, nested, text)?;
                    operand_count(world, run, frame, &text, *pieces, value)
                }
                _ => unreachable!(),
            }
        }
        _ => unreachable!(),
    }
}

/// `the number of` an object.
#[cycle(run)]
#[tactic(auto, using(meaning::proofs::Rules::val_number_of_of_object_rules))]
#[inline(never)]
pub(crate) fn number_of_object<E: External>(
    world: &mut World<E>,
    run: &mut Budget,
    frame: &Frame,
    nested: u32,
    reference: &Ref,
    value: &mut Value,
) -> Result<(), Stop>
    requires nested { nested ≤ 100 }
    requires deep { ref_depth (ref_of reference.now) < max_depth }
    requires open { IsSome (base world.old.history).start }
    ensures meaning { Val world.old.history run.old frame.now nested
        (tree.number_of (tree.of_object (ref_of reference.now))) (given result value.new) world.new.history run.new }
    ensures keeps { Keeps world.old.history run.old world.new.history run.new }
{
    keep_apart!(number_of_object(world, run, frame, nested, reference, value));
    let referent = meet(world, run, frame, nested, reference)?;
    *value = property(world, run, referent, Prop::Number)?;
    Ok(())
}

/// The values of expressions from left to right, after those that are there.
#[cycle(run)]
#[tactic(auto, using(meaning::proofs::Rules::vals_rules))]
#[inline(always)]
pub(crate) fn arguments<E: External>(
    world: &mut World<E>,
    run: &mut Budget,
    frame: &Frame,
    nested: u32,
    list: &[Expr],
    values: &mut Arguments,
) -> Result<(), Stop>
    requires nested { nested ≤ 100 }
    requires deep { depths (exprs_of list.now) ≤ max_depth }
    requires open { IsSome (base world.old.history).start }
    ensures meaning { Vals world.old.history run.old frame.now nested (exprs_of list.now) values.old
        (given result values.new) world.new.history run.new }
    ensures keeps { Keeps world.old.history run.old world.new.history run.new }
{
    let mut value = Value::of_number(0);
    keep_apart!(Ok(values.push(&mut value)?));
    for e in list {
        argument(world, run, frame, nested, e, &mut value)?;
        values.push(&mut value)?;
    }
    Ok(())
}

/// Writes the value of an argument. Long lists are mostly of names, which take no turn through the forms.
#[cycle(run)]
#[tactic(auto, using(meaning::proofs::Rules::val_rules))]
#[inline(always)]
pub(crate) fn argument<E: External>(
    world: &mut World<E>,
    run: &mut Budget,
    frame: &Frame,
    nested: u32,
    e: &Expr,
    value: &mut Value,
) -> Result<(), Stop>
    requires nested { nested ≤ 100 }
    requires deep { depth e.now ≤ max_depth }
    requires open { IsSome (base world.old.history).start }
    ensures meaning { Val world.old.history run.old frame.now nested e.now (given result value.new) world.new.history
        run.new }
    ensures keeps { Keeps world.old.history run.old world.new.history run.new }
{
    match e.form() {
        ExprForm::Name(_) => atom(world, run, frame, e, value),
        _ => eval_whole(world, run, frame, nested, e, value),
    }
}

/// A condition. Two numbers that are compared are looked at where they are kept.
#[cycle(run)]
#[tactic(auto, using(meaning::proofs::Rules::truthval_rules))]
#[inline(never)]
pub(crate) fn truth_value<E: External>(
    world: &mut World<E>,
    run: &mut Budget,
    frame: &Frame,
    nested: u32,
    e: &Expr,
) -> Result<bool, Stop>
    requires nested { nested ≤ 100 }
    requires deep { depth e.now < max_depth }
    requires open { IsSome (base world.old.history).start }
    ensures meaning { TruthVal world.old.history run.old frame.now nested e.now result world.new.history run.new }
    ensures keeps { Keeps world.old.history run.old world.new.history run.new }
{
    if let Some(truth) = known_truth(world, frame, e) {
        return Ok(truth);
    }
    let mut value = Value::of_number(0);
    eval(world, run, frame, nested, e, &mut value)?;
    truth(run, &value)
}

/// Puts a number in the place of a value. It is out of line: what stood there is dropped, which takes room in a frame.
#[inline(never)]
fn set_number(value: &mut Value, number: i64)
    ensures { value.new ≡ numeral number }
{
    *value = Value::of_number(number);
}
