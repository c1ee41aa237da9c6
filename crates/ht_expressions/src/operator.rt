//! Operators after their left operand.

ghost use Rattle.std.specs.Prelude.{◌≡◌};
ghost use Rattle.ht_grammar.specs.Fronts as f;
ghost use Rattle.ht_expressions.specs.Fronts.{operator_view, rank_of, end_rank};

use crate::contextual_keywords::asked_type;
use ht_lex::{Cursor, Key, TokenKind};
use ht_values::{Op, UnOp};

/// An operator after its left operand.
#[derive(Clone, Copy, Debug)]
pub enum LeadingOperator {
    /// One between two operands, with its rank: `or` is of rank 7, and `*` of 1.
    Infix(u8, Op),
    /// `is a` or `is not a`, and a type.
    Test(UnOp),
    /// What is no operator.
    Neither,
}

/// `=`, `<>` and `is` are of one rank.
pub(crate) const EQUALITY: u8 = 5;

/// A rank above those of all operators.
const NO_RANK: u8 = 8;

/// Goes on after `is not`.
#[tactic(auto, unfolding(ht_grammar::specs::Fronts::operator_after_is_not))]
fn take_is_not(tokens: &mut Cursor<'_>) -> LeadingOperator
    ensures { operator_view result tokens.new ≡ f.operator_after_is_not tokens.old }
{
    match tokens.peek() {
        Some(TokenKind::Key(Key::In)) => {
            tokens.skip();
            LeadingOperator::Infix(4, Op::IsNotIn)
        }
        _ => match asked_type(tokens) {
            None => LeadingOperator::Infix(EQUALITY, Op::NotEqual),
            Some(value_type) => {
                tokens.skip();
                tokens.skip();
                LeadingOperator::Test(UnOp::IsNotA(value_type))
            }
        },
    }
}

/// Goes on after `is`.
#[tactic(auto, unfolding(ht_grammar::specs::Fronts::operator_after_is))]
#[inline(never)]
fn take_is(tokens: &mut Cursor<'_>) -> LeadingOperator
    ensures { operator_view result tokens.new ≡ f.operator_after_is tokens.old }
{
    match tokens.peek() {
        Some(TokenKind::Key(Key::In)) => {
            tokens.skip();
            LeadingOperator::Infix(4, Op::IsIn)
        }
        Some(TokenKind::Key(Key::Not)) => {
            tokens.skip();
            take_is_not(tokens)
        }
        _ => match asked_type(tokens) {
            None => LeadingOperator::Infix(EQUALITY, Op::Equal),
            Some(value_type) => {
                tokens.skip();
                tokens.skip();
                LeadingOperator::Test(UnOp::IsA(value_type))
            }
        },
    }
}

/// Goes past the operator that the tokens begin with, or past one token where there is none.
#[tactic(auto, unfolding(ht_grammar::specs::Fronts::leading_operator))]
#[inline(always)]
pub fn take_operator(tokens: &mut Cursor<'_>) -> LeadingOperator
    ensures { operator_view result tokens.new ≡ f.leading_operator tokens.old }
{
    let kind = tokens.peek();
    tokens.skip();
    match kind {
        Some(TokenKind::Key(Key::Or)) => LeadingOperator::Infix(7, Op::Or),
        Some(TokenKind::Key(Key::And)) => LeadingOperator::Infix(6, Op::And),
        Some(TokenKind::Key(Key::Equal)) => LeadingOperator::Infix(EQUALITY, Op::Equal),
        Some(TokenKind::Key(Key::NotEqual)) => LeadingOperator::Infix(EQUALITY, Op::NotEqual),
        Some(TokenKind::Key(Key::Is)) => take_is(tokens),
        Some(TokenKind::Key(Key::Less)) => LeadingOperator::Infix(4, Op::Less),
        Some(TokenKind::Key(Key::Greater)) => LeadingOperator::Infix(4, Op::Greater),
        Some(TokenKind::Key(Key::LessEqual)) => LeadingOperator::Infix(4, Op::LessOrEqual),
        Some(TokenKind::Key(Key::GreaterEqual)) => LeadingOperator::Infix(4, Op::GreaterOrEqual),
        Some(TokenKind::Key(Key::Contains)) => LeadingOperator::Infix(4, Op::Contains),
        Some(TokenKind::Key(Key::Ampersand)) => LeadingOperator::Infix(3, Op::Join),
        Some(TokenKind::Key(Key::DoubleAmpersand)) => LeadingOperator::Infix(3, Op::JoinSpaced),
        Some(TokenKind::Key(Key::Plus)) => LeadingOperator::Infix(2, Op::Add),
        Some(TokenKind::Key(Key::Minus)) => LeadingOperator::Infix(2, Op::Subtract),
        Some(TokenKind::Key(Key::Star)) => LeadingOperator::Infix(1, Op::Multiply),
        Some(TokenKind::Key(Key::Slash)) => LeadingOperator::Infix(1, Op::Divide),
        Some(TokenKind::Key(Key::Div)) => LeadingOperator::Infix(1, Op::Div),
        Some(TokenKind::Key(Key::Mod)) => LeadingOperator::Infix(1, Op::Mod),
        _ => LeadingOperator::Neither,
    }
}

/// The rank of the operator that a token of this kind is by itself, 8 if any expression ends before it, and else 0. A
/// name or a literal before it is an operand by itself, unless this is 0.
#[inline(always)]
pub fn end_rank(next: Option<TokenKind>) -> u8
    ensures { result ≡ end_rank next }
{
    match next {
        None => 8,
        Some(TokenKind::Eol) => 8,
        Some(TokenKind::Key(Key::CommaSign)) => 8,
        Some(TokenKind::Key(Key::RightParen)) => 8,
        Some(TokenKind::Key(Key::Or)) => 7,
        Some(TokenKind::Key(Key::And)) => 6,
        Some(TokenKind::Key(Key::Equal)) => 5,
        Some(TokenKind::Key(Key::NotEqual)) => 5,
        Some(TokenKind::Key(Key::Less)) => 4,
        Some(TokenKind::Key(Key::Greater)) => 4,
        Some(TokenKind::Key(Key::LessEqual)) => 4,
        Some(TokenKind::Key(Key::GreaterEqual)) => 4,
        Some(TokenKind::Key(Key::Contains)) => 4,
        Some(TokenKind::Key(Key::Ampersand)) => 3,
        Some(TokenKind::Key(Key::DoubleAmpersand)) => 3,
        Some(TokenKind::Key(Key::Plus)) => 2,
        Some(TokenKind::Key(Key::Minus)) => 2,
        Some(TokenKind::Key(Key::Star)) => 1,
        Some(TokenKind::Key(Key::Slash)) => 1,
        Some(TokenKind::Key(Key::Div)) => 1,
        Some(TokenKind::Key(Key::Mod)) => 1,
        _ => 0,
    }
}

/// The rank of the operator that the tokens begin with, and 8 where there is none. Most are told by one token.
#[tactic(auto, using(crate::proofs::Leaves::known_rank))]
#[inline(always)]
pub(crate) fn leading_rank(tokens: &Cursor<'_>) -> u8
    ensures { result ≡ rank_of (f.leading_operator tokens.now) }
{
    let known = end_rank(tokens.peek());
    if 0 < known {
        known
    } else {
        looked_up_rank(tokens)
    }
}

/// The same, of tokens that are looked through.
#[inline(never)]
fn looked_up_rank(tokens: &Cursor<'_>) -> u8
    ensures { result ≡ rank_of (f.leading_operator tokens.now) }
{
    let mut ahead = tokens.mark();
    match take_operator(&mut ahead) {
        LeadingOperator::Infix(rank, _) => rank,
        LeadingOperator::Test(_) => EQUALITY,
        LeadingOperator::Neither => NO_RANK,
    }
}
