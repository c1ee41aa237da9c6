//! Ends of lines, small words that may be there, and what statements and expressions begin with.

ghost use Rattle.std.specs.Prelude.{◌≡◌, Some, None, true, false};
ghost use Rattle.ht_grammar.specs.Ends as ends;
ghost use Rattle.ht_grammar.specs.Lines as spec;

use ht_lex::{Cursor, Key, TokenKind, is_same};

/// Goes past the ends of lines.
pub(crate) fn skip_ends(tokens: &mut Cursor<'_>)
    ensures { tokens.new ≡ ends.past_ends tokens.old }
{
    for _turn in 0..tokens.left() {
        match tokens.peek() {
            Some(TokenKind::Eol) => tokens.skip(),
            _ => return,
        }
    }
}

/// Goes past the end of a line and those after it, and tells whether one was there. The end of the text is one.
#[tactic(auto, unfolding(ht_grammar::specs::Ends::ended))]
pub(crate) fn eat_ends(tokens: &mut Cursor<'_>) -> bool
    ensures found { result ≡ true → ends.ended tokens.old ≡ Some tokens.new }
    ensures none { result ≡ false → ends.ended tokens.old ≡ None }
{
    match tokens.peek() {
        None => true,
        Some(TokenKind::Eol) => {
            tokens.skip();
            skip_ends(tokens);
            true
        }
        _ => false,
    }
}

/// Goes past `for`, if it is there.
pub(crate) fn skip_for(tokens: &mut Cursor<'_>)
    ensures { tokens.new ≡ ends.past_for tokens.old }
{
    if let Some(TokenKind::Key(Key::For)) = tokens.peek() {
        tokens.skip();
    }
}

/// Goes past `to`, if it is there.
pub(crate) fn skip_to(tokens: &mut Cursor<'_>)
    ensures { tokens.new ≡ ends.past_to tokens.old }
{
    if let Some(TokenKind::Key(Key::To)) = tokens.peek() {
        tokens.skip();
    }
}

/// Goes past `times`, if it is there.
#[tactic(auto, unfolding(ht_grammar::specs::Ends::past_times))]
pub(crate) fn skip_times(tokens: &mut Cursor<'_>)
    ensures { tokens.new ≡ ends.past_times tokens.old }
{
    if let Some(TokenKind::Name) = tokens.peek() {
        if is_same(tokens.text(), b"times") {
            tokens.skip();
        }
    }
}

/// Whether a statement on one line begins so.
pub(crate) fn begins_simple(kind: Option<TokenKind>) -> bool
    ensures { result ≡ spec.begins_simple kind }
{
    match kind {
        Some(TokenKind::Name) => true,
        Some(TokenKind::Key(Key::Put)) => true,
        Some(TokenKind::Key(Key::Get)) => true,
        Some(TokenKind::Key(Key::Set)) => true,
        Some(TokenKind::Key(Key::Add)) => true,
        Some(TokenKind::Key(Key::Subtract)) => true,
        Some(TokenKind::Key(Key::Multiply)) => true,
        Some(TokenKind::Key(Key::Divide)) => true,
        Some(TokenKind::Key(Key::Delete)) => true,
        Some(TokenKind::Key(Key::Do)) => true,
        Some(TokenKind::Key(Key::Send)) => true,
        Some(TokenKind::Key(Key::Go)) => true,
        Some(TokenKind::Key(Key::Global)) => true,
        Some(TokenKind::Key(Key::Exit)) => true,
        Some(TokenKind::Key(Key::Next)) => true,
        Some(TokenKind::Key(Key::Pass)) => true,
        Some(TokenKind::Key(Key::Return)) => true,
        _ => false,
    }
}

/// Whether a statement begins so.
pub(crate) fn begins_statement(kind: Option<TokenKind>) -> bool
    ensures { result ≡ spec.begins_statement kind }
{
    match kind {
        Some(TokenKind::Key(Key::If)) => true,
        Some(TokenKind::Key(Key::Repeat)) => true,
        _ => begins_simple(kind),
    }
}

/// Whether an expression begins so.
pub(crate) fn begins_expr(kind: Option<TokenKind>) -> bool
    ensures { result ≡ spec.begins_expr kind }
{
    match kind {
        Some(TokenKind::Name) => true,
        Some(TokenKind::Number) => true,
        Some(TokenKind::Quoted) => true,
        Some(TokenKind::Key(Key::LeftParen)) => true,
        Some(TokenKind::Key(Key::Minus)) => true,
        Some(TokenKind::Key(Key::Not)) => true,
        Some(TokenKind::Key(Key::There)) => true,
        Some(TokenKind::Key(Key::The)) => true,
        Some(TokenKind::Key(Key::Number)) => true,
        Some(TokenKind::Key(Key::Return)) => true,
        Some(TokenKind::Key(Key::Card)) => true,
        Some(TokenKind::Key(Key::Background)) => true,
        Some(TokenKind::Key(Key::Piece(_))) => true,
        Some(TokenKind::Key(Key::Part(_))) => true,
        Some(TokenKind::Key(Key::Ordinal(_))) => true,
        Some(TokenKind::Key(Key::Constant(_))) => true,
        _ => false,
    }
}
