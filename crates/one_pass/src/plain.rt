//! Which texts are worth a try. Nothing is claimed of that: it shows in time alone.

ghost use Rattle.std.specs.Prelude.{◌≡◌, ◌≤◌, length};
ghost use Rattle.ht_values.specs.declared.text.TheConstants.{LIMIT};

use crate::calls::unhandled;
use change_journal::World;
use externals::External;
use ht_lex::{Cursor, Key, TokenKind, to_text};
use ht_values::Text;
use meaning::{Budget, Frame};
use memchr::memmem;

/// Whether a text may be one: a word that stands in most others isn't in it. So they aren't cut into tokens for nothing.
pub(crate) fn may_be_plain(text: &Text) -> bool {
    let bytes = text.as_slice();
    memmem::find(bytes, b" of ").is_none() && memmem::find(bytes, b" is ").is_none()
}

/// Whether tokens are all of a kind that is computed with as it is read, and each function that they call is built in
/// and handled by nobody. So what is tried in vain is no more than what ends by a fault.
pub(crate) fn is_plain<E: External>(
    world: &mut World<E>,
    run: &Budget,
    frame: &Frame,
    tokens: &Cursor<'_>,
) -> bool
    ensures { world.new ≡ world.old }
{
    let mut ahead = tokens.mark();
    let mut known = Text::new(run.alloc());
    for _turn in 0..tokens.left() {
        match ahead.peek() {
            Some(TokenKind::Name) => {
                if let Some(TokenKind::Key(Key::LeftParen)) = ahead.second() {
                    if !is_known(world, run, frame, ahead.text(), &mut known) {
                        return false;
                    }
                }
            }
            Some(TokenKind::Number | TokenKind::Quoted) => {}
            Some(TokenKind::Key(key)) if is_plain_key(key) => {}
            _ => return false,
        }
        ahead.skip();
    }
    true
}

/// Whether a function is the one that is known, or another that is built in and handled by nobody, which is known then.
fn is_known<E: External>(
    world: &mut World<E>,
    run: &Budget,
    frame: &Frame,
    name: &[u8],
    known: &mut Text,
) -> bool
    requires { length name.now ≤ LIMIT }
    ensures { world.new ≡ world.old }
{
    if known.as_slice() == name {
        return true;
    }
    let Ok(name) = to_text(run.alloc(), name) else {
        return false;
    };
    if unhandled(world, run, frame, &name).is_none() {
        return false;
    }
    *known = name;
    true
}

/// Whether a word or a symbol stands for an operator or a constant, or is a parenthesis or a comma.
fn is_plain_key(key: Key) -> bool {
    match key {
        Key::LeftParen
        | Key::RightParen
        | Key::CommaSign
        | Key::Plus
        | Key::Minus
        | Key::Star
        | Key::Slash
        | Key::Caret
        | Key::Ampersand
        | Key::DoubleAmpersand
        | Key::Equal
        | Key::NotEqual
        | Key::Less
        | Key::Greater
        | Key::LessEqual
        | Key::GreaterEqual
        | Key::And
        | Key::Or
        | Key::Not
        | Key::Contains
        | Key::Div
        | Key::Mod
        | Key::Constant(_) => true,
        _ => false,
    }
}
