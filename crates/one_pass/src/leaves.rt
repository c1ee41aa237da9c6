//! Operands of one token.

ghost use Rattle.std.specs.Prelude.{◌≡◌, ◌≤◌, ℕ, List, length, IfSome, Some};
ghost use Rattle.ht_values.specs.declared.text.TheConstants.{LIMIT};
ghost use Rattle.ht_lex.specs.Token.{first_kind};
ghost use Rattle.ht_lex.specs.declared.key.Key.TheVariants as k;
ghost use Rattle.ht_lex.specs.declared.key.TokenKind.TheVariants as kind;
ghost use Rattle.ht_grammar.specs.Expressions as e;
ghost use Rattle.change_journal.specs.History.{History};
ghost use Rattle.containers.specs.Standing.{standing_text};
ghost use Rattle.meaning.specs.declared.frame.Frame.{Frame};
ghost use Rattle.one_pass.specs.Computed.{Computed, ComputedRight};

use crate::applied::{apply_digits_at_once, apply_name_at_once};
use change_journal::World;
use containers::{Standing, read_name};
use externals::External;
use ht_expressions::end_rank;
use ht_lex::{Constant, Cursor, Key, TokenKind, to_name, to_text};
use ht_values::{Op, Value, plain_number};
use meaning::{Budget, Frame};

/// Whether nothing goes on with a name or a number where operators up to this rank are read.
#[inline(always)]
pub(crate) fn is_alone(tokens: &Cursor<'_>, rank: u8) -> bool {
    rank < end_rank(tokens.second())
}

/// What an operator gives of a value and of a name, which isn't called, written over the value.
#[tactic(auto, using(crate::proofs::Operators::name_right))]
pub(crate) fn apply_to_name<E: External>(
    world: &World<E>,
    run: &Budget,
    frame: &Frame,
    tokens: &mut Cursor<'_>,
    op: Op,
    value: &mut Value,
) -> Option<u8>
    requires { first_kind tokens.old ≡ Some kind.Name }
    ensures { IfSome result (λ n. (calls : List (List ℕ)) → ComputedRight world.now.history frame.now e.power op value.old
        tokens.old calls value.new n tokens.new calls) }
{
    let bytes = tokens.take();
    match tokens.shared_name(run.alloc(), bytes) {
        Some(name) => apply_name_at_once(world, run, frame, op, value, &name)?,
        None => {
            let name = to_name(run.alloc(), bytes).ok()?;
            apply_name_at_once(world, run, frame, op, value, &name)?;
        }
    }
    Some(1)
}

/// What an operator gives of a value and of a number, written over the value.
#[tactic(auto, using(crate::proofs::Operators::number_right))]
pub(crate) fn apply_to_number(
    run: &Budget,
    tokens: &mut Cursor<'_>,
    op: Op,
    value: &mut Value,
) -> Option<u8>
    requires { first_kind tokens.old ≡ Some kind.Number }
    ensures { IfSome result (λ n. (w : History) (f : Frame) (calls : List (List ℕ)) → ComputedRight w f e.power
        op value.old tokens.old calls value.new n tokens.new calls) }
{
    apply_digits_at_once(run, op, value, tokens.take())?;
    Some(1)
}

/// What a name reads, which isn't called.
#[tactic(auto, using(crate::proofs::Operators::name_alone))]
pub(crate) fn take_name<E: External>(
    world: &World<E>,
    run: &Budget,
    frame: &Frame,
    tokens: &mut Cursor<'_>,
    value: &mut Value,
) -> Option<u8>
    requires { first_kind tokens.old ≡ Some kind.Name }
    ensures { IfSome result (λ n. (calls : List (List ℕ)) → Computed world.now.history frame.now e.primary tokens.old
        calls value.new n tokens.new calls) }
{
    let is_joined = is_joined_next(tokens);
    let bytes = tokens.take();
    match tokens.shared_name(run.alloc(), bytes) {
        Some(name) => copy(
            run,
            read_name(world, &frame.variables, &name),
            is_joined,
            value,
        )?,
        None => {
            let name = to_name(run.alloc(), bytes).ok()?;
            copy(
                run,
                read_name(world, &frame.variables, &name),
                is_joined,
                value,
            )?;
        }
    }
    Some(1)
}

/// Whether what the tokens begin with is joined to what stands behind it.
#[inline(always)]
fn is_joined_next(tokens: &Cursor<'_>) -> bool {
    match tokens.second() {
        Some(TokenKind::Key(Key::Ampersand | Key::DoubleAmpersand)) => true,
        _ => false,
    }
}

/// Writes a copy of what stands somewhere. A text that is joined next stays one, also where it spells a number.
#[inline(always)]
fn copy(run: &Budget, standing: Standing<'_>, is_joined: bool, value: &mut Value) -> Option<()>
    ensures { IfSome result (λ _. value.new ≡ standing_text standing.entry) }
{
    match standing {
        Standing::Text(text) if is_joined => {
            *value = Value::of_text(text.try_clone(run.alloc()).ok()?);
            Some(())
        }
        Standing::Text(text) => value.copy_from(run.alloc(), text).ok(),
        Standing::Value(own) => copy_own(run, own, value),
    }
}

/// Writes a copy of a value.
fn copy_own(run: &Budget, own: &Value, value: &mut Value) -> Option<()>
    ensures { IfSome result (λ _. value.new ≡ own.now) }
{
    match own.kept_number() {
        Some(number) => *value = Value::of_number(number),
        None => *value = own.try_clone(run.alloc()).ok()?,
    }
    Some(())
}

/// A number, which is its digits.
#[tactic(auto, using(crate::proofs::Operators::number_alone))]
pub(crate) fn take_number(run: &Budget, tokens: &mut Cursor<'_>, value: &mut Value) -> Option<u8>
    requires { first_kind tokens.old ≡ Some kind.Number }
    ensures { IfSome result (λ n. (w : History) (f : Frame) (calls : List (List ℕ)) → Computed w f e.primary tokens.old
        calls value.new n tokens.new calls) }
{
    let is_joined = is_joined_next(tokens);
    write_digits(run, tokens.take(), is_joined, value)?;
    Some(1)
}

/// Writes the value of digits. Digits that are joined next stay a text.
#[inline(always)]
fn write_digits(run: &Budget, digits: &[u8], is_joined: bool, value: &mut Value) -> Option<()>
    requires { length digits.now ≤ LIMIT }
    ensures { IfSome result (λ _. value.new ≡ digits.now) }
{
    match plain_number(digits) {
        Some(number) if !is_joined => *value = Value::of_number(number),
        _ => *value = Value::of_text(to_text(run.alloc(), digits).ok()?),
    }
    Some(())
}

/// A text in quotes.
#[tactic(auto, using(crate::proofs::Operators::quoted_alone))]
pub(crate) fn take_quoted(run: &Budget, tokens: &mut Cursor<'_>, value: &mut Value) -> Option<u8>
    requires { first_kind tokens.old ≡ Some kind.Quoted }
    ensures { IfSome result (λ n. (w : History) (f : Frame) (calls : List (List ℕ)) → Computed w f e.primary tokens.old
        calls value.new n tokens.new calls) }
{
    let quoted = tokens.take();
    *value = Value::of_text(to_text(run.alloc(), quoted).ok()?);
    Some(1)
}

/// What a constant stands for.
#[tactic(auto, using(crate::proofs::Operators::constant_alone))]
pub(crate) fn take_constant(
    run: &Budget,
    tokens: &mut Cursor<'_>,
    constant: Constant,
    value: &mut Value,
) -> Option<u8>
    requires { first_kind tokens.old ≡ Some (kind.Key (k.Constant constant)) }
    ensures { IfSome result (λ n. (w : History) (f : Frame) (calls : List (List ℕ)) → Computed w f e.primary tokens.old
        calls value.new n tokens.new calls) }
{
    tokens.skip();
    *value = Value::of_text(to_text(run.alloc(), constant.bytes()).ok()?);
    Some(1)
}
