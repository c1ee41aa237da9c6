//! Expressions that are computed with as they are read. Each function tells how many levels the expression has, or `None`
//! where it can't be computed with so; what then stands in the place for its value isn't said. The functions that were
//! called are put behind those that are there.

ghost use Rattle.std.specs.Prelude.{◌≡◌, ◌<◌, ◌≤◌, ◌+◌, max, IfSome, Some, true};
ghost use Rattle.ht_lex.specs.Token.{first_kind, later};
ghost use Rattle.ht_lex.specs.declared.key.Key.TheVariants as k;
ghost use Rattle.ht_lex.specs.declared.key.TokenKind.TheVariants as kind;
ghost use Rattle.ht_grammar.specs.Depth.{max_depth};
ghost use Rattle.ht_grammar.specs.Expressions as e;
ghost use Rattle.ht_values.specs.declared.operator.Op.TheVariants as o;
ghost use Rattle.one_pass.specs.Computed.{Computed, ComputedAll, ComputedRight};

use crate::applied::{apply_at_once, apply_one_at_once};
use crate::calls::call_gives;
use crate::leaves::{
    apply_to_name, apply_to_number, is_alone, take_constant, take_name, take_number, take_quoted,
};
use change_journal::World;
use externals::External;
use ht_expressions::{LeadingOperator, take_operator};
use ht_lex::{Cursor, Key, TokenKind, to_text};
use ht_values::{Op, Text, UnOp, Value};
use meaning::{Budget, Frame};
use primitives::arguments::Arguments;

/// An expression has at most so many levels.
pub(crate) const MOST_DEEP: u8 = 100;

/// The rank of the operators that join last.
pub(crate) const LAST_RANK: u8 = 7;

/// One level more than the deeper of two, unless that is too deep.
fn above(left: u8, right: u8) -> Option<u8>
    ensures { IfSome result (λ n. (max left right < max_depth) × (n ≡ max left right + 1)) }
{
    let deeper = left.max(right);
    if deeper < MOST_DEEP {
        Some(deeper + 1)
    } else {
        None
    }
}

/// Whether a rank is one from this up to that.
fn is_among(rank: u8, from: u8, to: u8) -> bool
    ensures { result ≡ true → (0 < rank) × (from ≤ rank) × (rank ≤ to) }
{
    0 < rank && from <= rank && rank <= to
}

/// Whether no operator follows, as most often behind an operand.
#[inline(always)]
fn is_end(next: Option<TokenKind>) -> bool {
    match next {
        None | Some(TokenKind::Key(Key::CommaSign | Key::RightParen)) => true,
        _ => false,
    }
}

/// Operands and the operators up to this rank between them.
#[cycle(pass)]
#[tactic(auto, using(crate::proofs::Operators::as_operand, crate::proofs::Operators::looser, crate::proofs::Operators::joined))]
pub(crate) fn operand<E: External>(
    world: &mut World<E>,
    run: &Budget,
    frame: &Frame,
    calls: &mut Vec<Text>,
    tokens: &mut Cursor<'_>,
    room: u8,
    below: u8,
    value: &mut Value,
) -> Option<u8>
    ensures computed { IfSome result (λ n. Computed world.old.history frame.now (e.rank below) tokens.old calls.old.items
        value.new n tokens.new calls.new.items) }
    ensures same { world.new ≡ world.old }
{
    let mut depth = first_operand(world, run, frame, calls, tokens, room, value)?;
    let mut level = 0;
    for _turn in 0..MOST_DEEP {
        if is_end(tokens.peek()) {
            return Some(depth);
        }
        let before = tokens.mark();
        match take_operator(tokens) {
            LeadingOperator::Infix(rank, op) if is_among(rank, level, below) => {
                let right = right_operand(
                    world,
                    run,
                    frame,
                    calls,
                    tokens,
                    room,
                    rank - 1,
                    op,
                    value,
                )?;
                depth = above(depth, right)?;
                level = rank;
            }
            _ => {
                *tokens = before;
                return Some(depth);
            }
        }
    }
    None
}

/// What stands before the first operator. Most often that is a name or a number alone.
#[cycle(pass)]
#[tactic(auto, using(crate::proofs::Operators::as_operand, crate::proofs::Operators::as_power, crate::proofs::Operators::as_prefixed))]
fn first_operand<E: External>(
    world: &mut World<E>,
    run: &Budget,
    frame: &Frame,
    calls: &mut Vec<Text>,
    tokens: &mut Cursor<'_>,
    room: u8,
    value: &mut Value,
) -> Option<u8>
    ensures computed { IfSome result (λ n. Computed world.old.history frame.now (e.rank 0) tokens.old calls.old.items
        value.new n tokens.new calls.new.items) }
    ensures same { world.new ≡ world.old }
{
    match tokens.peek() {
        Some(TokenKind::Name) if is_alone(tokens, 0) => take_name(world, run, frame, tokens, value),
        Some(TokenKind::Number) if is_alone(tokens, 0) => take_number(run, tokens, value),
        _ => power(world, run, frame, calls, tokens, room, value),
    }
}

/// The right operand of an operator, and what the operator gives: it is written over the left operand. Most often the
/// operand is a name or a number alone.
#[cycle(pass)]
#[tactic(auto, using(crate::proofs::Operators::right_of, crate::proofs::Operators::right_looser))]
fn right_operand<E: External>(
    world: &mut World<E>,
    run: &Budget,
    frame: &Frame,
    calls: &mut Vec<Text>,
    tokens: &mut Cursor<'_>,
    room: u8,
    below: u8,
    op: Op,
    value: &mut Value,
) -> Option<u8>
    ensures computed { IfSome result (λ n. ComputedRight world.old.history frame.now (e.rank below) op value.old
        tokens.old calls.old.items value.new n tokens.new calls.new.items) }
    ensures same { world.new ≡ world.old }
{
    match tokens.peek() {
        Some(TokenKind::Name) if is_alone(tokens, below) => {
            apply_to_name(world, run, frame, tokens, op, value)
        }
        Some(TokenKind::Number) if is_alone(tokens, below) => {
            apply_to_number(run, tokens, op, value)
        }
        _ => {
            let room = room.checked_sub(1)?;
            let mut right = Value::of_number(0);
            let depth = operand(world, run, frame, calls, tokens, room, below, &mut right)?;
            apply_at_once(run, op, value, &right)?;
            Some(depth)
        }
    }
}

/// A factor with what stands before it, and the power of it.
#[cycle(pass)]
#[tactic(auto, using(crate::proofs::Operators::as_power, crate::proofs::Operators::raised))]
fn power<E: External>(
    world: &mut World<E>,
    run: &Budget,
    frame: &Frame,
    calls: &mut Vec<Text>,
    tokens: &mut Cursor<'_>,
    room: u8,
    value: &mut Value,
) -> Option<u8>
    ensures computed { IfSome result (λ n. Computed world.old.history frame.now e.power tokens.old calls.old.items
        value.new n tokens.new calls.new.items) }
    ensures same { world.new ≡ world.old }
{
    let depth = prefixed(world, run, frame, calls, tokens, room, value)?;
    match tokens.peek() {
        Some(TokenKind::Key(Key::Caret)) => {
            tokens.skip();
            let right = exponent(world, run, frame, calls, tokens, room, value)?;
            let depth = above(depth, right)?;
            Some(depth)
        }
        _ => Some(depth),
    }
}

/// The exponent of a power, and the power: it is written over the base. Most often the exponent is a name or a number
/// alone.
#[cycle(pass)]
#[tactic(auto, using(crate::proofs::Operators::right_of))]
fn exponent<E: External>(
    world: &mut World<E>,
    run: &Budget,
    frame: &Frame,
    calls: &mut Vec<Text>,
    tokens: &mut Cursor<'_>,
    room: u8,
    value: &mut Value,
) -> Option<u8>
    ensures computed { IfSome result (λ n. ComputedRight world.old.history frame.now e.power o.Power value.old tokens.old
        calls.old.items value.new n tokens.new calls.new.items) }
    ensures same { world.new ≡ world.old }
{
    match tokens.peek() {
        Some(TokenKind::Name) if is_alone(tokens, 0) => {
            apply_to_name(world, run, frame, tokens, Op::Power, value)
        }
        Some(TokenKind::Number) if is_alone(tokens, 0) => {
            apply_to_number(run, tokens, Op::Power, value)
        }
        _ => {
            let room = room.checked_sub(1)?;
            let mut right = Value::of_number(0);
            let depth = power(world, run, frame, calls, tokens, room, &mut right)?;
            apply_at_once(run, Op::Power, value, &right)?;
            Some(depth)
        }
    }
}

/// A factor with what stands before it. Most often nothing does.
#[cycle(pass)]
#[inline(always)]
#[tactic(auto, using(crate::proofs::Operators::as_prefixed))]
fn prefixed<E: External>(
    world: &mut World<E>,
    run: &Budget,
    frame: &Frame,
    calls: &mut Vec<Text>,
    tokens: &mut Cursor<'_>,
    room: u8,
    value: &mut Value,
) -> Option<u8>
    ensures computed { IfSome result (λ n. Computed world.old.history frame.now e.prefixed tokens.old calls.old.items
        value.new n tokens.new calls.new.items) }
    ensures same { world.new ≡ world.old }
{
    match tokens.peek() {
        Some(TokenKind::Key(Key::Minus | Key::Not)) => {
            behind_prefix(world, run, frame, calls, tokens, room, value)
        }
        _ => primary(world, run, frame, calls, tokens, room, value),
    }
}

/// A factor with `-` or `not` before it, and what that gives.
#[cycle(pass)]
#[tactic(auto, using(crate::proofs::Operators::under_minus, crate::proofs::Operators::under_not))]
fn behind_prefix<E: External>(
    world: &mut World<E>,
    run: &Budget,
    frame: &Frame,
    calls: &mut Vec<Text>,
    tokens: &mut Cursor<'_>,
    room: u8,
    value: &mut Value,
) -> Option<u8>
    ensures computed { IfSome result (λ n. Computed world.old.history frame.now e.prefixed tokens.old calls.old.items
        value.new n tokens.new calls.new.items) }
    ensures same { world.new ≡ world.old }
{
    let room = room.checked_sub(1)?;
    match tokens.peek() {
        Some(TokenKind::Key(Key::Minus)) => {
            tokens.skip();
            let depth = prefixed(world, run, frame, calls, tokens, room, value)?;
            apply_one_at_once(run, UnOp::Minus, value)?;
            let depth = above(depth, depth)?;
            Some(depth)
        }
        Some(TokenKind::Key(Key::Not)) => {
            tokens.skip();
            let depth = prefixed(world, run, frame, calls, tokens, room, value)?;
            apply_one_at_once(run, UnOp::Not, value)?;
            let depth = above(depth, depth)?;
            Some(depth)
        }
        _ => None,
    }
}

/// A literal, a constant, a name, a call or an expression in parentheses.
#[cycle(pass)]
fn primary<E: External>(
    world: &mut World<E>,
    run: &Budget,
    frame: &Frame,
    calls: &mut Vec<Text>,
    tokens: &mut Cursor<'_>,
    room: u8,
    value: &mut Value,
) -> Option<u8>
    ensures computed { IfSome result (λ n. Computed world.old.history frame.now e.primary tokens.old calls.old.items
        value.new n tokens.new calls.new.items) }
    ensures same { world.new ≡ world.old }
{
    match tokens.peek() {
        Some(TokenKind::Name) => match tokens.second() {
            Some(TokenKind::Key(Key::LeftParen)) => {
                let room = room.checked_sub(1)?;
                call(world, run, frame, calls, tokens, room, value)
            }
            _ => take_name(world, run, frame, tokens, value),
        },
        Some(TokenKind::Number) => take_number(run, tokens, value),
        Some(TokenKind::Quoted) => take_quoted(run, tokens, value),
        Some(TokenKind::Key(Key::LeftParen)) => {
            let room = room.checked_sub(1)?;
            in_parens(world, run, frame, calls, tokens, room, value)
        }
        Some(TokenKind::Key(Key::Constant(constant))) => {
            take_constant(run, tokens, constant, value)
        }
        _ => None,
    }
}

/// An expression in parentheses, at the first of them.
#[cycle(pass)]
#[tactic(auto, using(crate::proofs::Operators::in_parens))]
fn in_parens<E: External>(
    world: &mut World<E>,
    run: &Budget,
    frame: &Frame,
    calls: &mut Vec<Text>,
    tokens: &mut Cursor<'_>,
    room: u8,
    value: &mut Value,
) -> Option<u8>
    requires { first_kind tokens.old ≡ Some (kind.Key k.LeftParen) }
    ensures computed { IfSome result (λ n. Computed world.old.history frame.now e.primary tokens.old calls.old.items
        value.new n tokens.new calls.new.items) }
    ensures same { world.new ≡ world.old }
{
    tokens.skip();
    let depth = operand(world, run, frame, calls, tokens, room, LAST_RANK, value)?;
    match tokens.peek() {
        Some(TokenKind::Key(Key::RightParen)) => {
            tokens.skip();
            let depth = above(depth, depth)?;
            Some(depth)
        }
        _ => None,
    }
}

/// A call, at its name: of a function that is built in, and that no script and no external handles.
#[cycle(pass)]
#[tactic(auto, using(crate::proofs::Called::bare_call, crate::proofs::Called::call))]
fn call<E: External>(
    world: &mut World<E>,
    run: &Budget,
    frame: &Frame,
    calls: &mut Vec<Text>,
    tokens: &mut Cursor<'_>,
    room: u8,
    value: &mut Value,
) -> Option<u8>
    requires name { first_kind tokens.old ≡ Some kind.Name }
    requires paren { first_kind (later tokens.old) ≡ Some (kind.Key k.LeftParen) }
    ensures computed { IfSome result (λ n. Computed world.old.history frame.now e.primary tokens.old calls.old.items
        value.new n tokens.new calls.new.items) }
    ensures same { world.new ≡ world.old }
{
    let name = to_text(run.alloc(), tokens.take()).ok()?;
    tokens.skip();
    let mut values = Arguments::new(run.alloc());
    if let Some(TokenKind::Key(Key::RightParen)) = tokens.peek() {
        tokens.skip();
        *value = call_gives(world, run, frame, &name, &values)?;
        calls.push(name).ok()?;
        return Some(1);
    }
    let depth = list(world, run, frame, calls, tokens, room, &mut values)?;
    if let Some(TokenKind::Key(Key::RightParen)) = tokens.peek() {
        tokens.skip();
        *value = call_gives(world, run, frame, &name, &values)?;
        calls.push(name).ok()?;
        let depth = above(depth, depth)?;
        return Some(depth);
    }
    None
}

/// Expressions with commas between. Their values are put behind those that are there.
#[cycle(pass)]
#[tactic(auto, using(crate::proofs::Lists::no_values, crate::proofs::Lists::with_comma, crate::proofs::Lists::with_last))]
fn list<E: External>(
    world: &mut World<E>,
    run: &Budget,
    frame: &Frame,
    calls: &mut Vec<Text>,
    tokens: &mut Cursor<'_>,
    room: u8,
    values: &mut Arguments,
) -> Option<u8>
    ensures computed { IfSome result (λ n. ComputedAll world.old.history frame.now tokens.old calls.old.items values.old
        values.new n tokens.new calls.new.items) }
    ensures same { world.new ≡ world.old }
{
    let mut deepest = 0u8;
    let mut value = Value::of_number(0);
    for _turn in 0..tokens.left() {
        let depth = operand(
            world, run, frame, calls, tokens, room, LAST_RANK, &mut value,
        )?;
        values.push(&mut value).ok()?;
        deepest = deepest.max(depth);
        match tokens.peek() {
            Some(TokenKind::Key(Key::CommaSign)) => tokens.skip(),
            _ => return Some(deepest),
        }
    }
    None
}
