//! Where tokens begin, and where a text that isn't in the grammar stops being read.

use crate::cases::{Case, first_unmet, text_of};
use ht_lex::{Key, TokenKind, Tokens, lex};
use ht_parse::{
    ParseError, parse_expr, parse_lines, parse_message, parse_part, parse_script, parse_type,
};
use ht_values::Text;
use std::alloc::Global;

/// What a text is read as.
#[derive(Clone, Copy)]
enum Whole {
    Script,
    Lines,
    Expression,
    Part,
    Typing,
    Message,
}

use Whole::{Expression, Lines, Message, Part, Script, Typing};

/// Why the text is not read so, if it isn't.
fn error_of(alloc: Global, whole: Whole, text: &Text) -> Option<ParseError> {
    match whole {
        Whole::Script => parse_script(alloc, text).err(),
        Whole::Lines => parse_lines(alloc, text).err(),
        Whole::Expression => parse_expr(alloc, text).err(),
        Whole::Part => parse_part(alloc, text).err(),
        Whole::Typing => parse_type(alloc, text).err(),
        Whole::Message => parse_message(alloc, text).err(),
    }
}

/// What a text is not, and from one place to another where its error is told.
struct Broken(Whole, &'static [u8], usize, usize);

impl Case for Broken {
    fn is_met(&self, alloc: Global) -> bool {
        let error = match text_of(alloc, self.1) {
            Some(text) => error_of(alloc, self.0, &text),
            None => None,
        };
        matches!(error, Some(ParseError::Syntax(place)) if self.2 <= place && place <= self.3)
    }
}

const BROKEN: &[Broken] = &[
    Broken(Expression, b"1 +", 0, 3),
    Broken(Expression, b"(((7))", 0, 6),
    Broken(Script, b"on mouseUp\rend mouseDown\r", 0, 25),
    Broken(Lines, b"return 1", 0, 8),
    Broken(Lines, b"exit repeat", 0, 11),
    Broken(Part, b"button 1 of card 2", 0, 18),
    Broken(Typing, b"\"x\" into button 1", 0, 17),
    Broken(Message, b"put 1", 0, 5),
    // Where no token begins, the place is the first byte after the tokens and the spaces before.
    Broken(Expression, b"1 + \"", 4, 4),
    Broken(Lines, b"put \"a", 4, 4),
    Broken(Lines, b"put \"a\rb\"", 4, 4),
    Broken(Lines, b"ab \xC2x", 3, 3),
    Broken(Lines, b"a\xC2", 1, 1),
    Broken(Lines, b"1 + #2 $", 4, 4),
    Broken(Lines, b"\x00", 0, 0),
];

/// A text, the number of a token, where it begins, its kind and its bytes.
struct Placed(&'static [u8], usize, usize, TokenKind, &'static [u8]);

fn is_among(tokens: &Tokens<'_>, row: &Placed) -> bool {
    if tokens.len() <= row.1 {
        return false;
    }
    let token = tokens.at(row.1);
    token.start == row.2 && token.kind == row.3 && token.text == row.4
}

impl Case for Placed {
    fn is_met(&self, alloc: Global) -> bool {
        match text_of(alloc, self.0) {
            Some(text) => matches!(lex(alloc, &text), Ok(tokens) if is_among(&tokens, self)),
            None => false,
        }
    }
}

const PUT_ONE: &[u8] = b"put 1 -- x";

const WORDS: &[u8] = b"12ab_1\t\"it's -- x\"";

const PLACED: &[Placed] = &[
    Placed(PUT_ONE, 0, 0, TokenKind::Key(Key::Put), b"put"),
    Placed(PUT_ONE, 1, 4, TokenKind::Number, b"1"),
    Placed(WORDS, 0, 0, TokenKind::Number, b"12"),
    Placed(WORDS, 1, 2, TokenKind::Name, b"ab_1"),
    Placed(WORDS, 2, 7, TokenKind::Quoted, b"\"it's -- x\""),
];

#[test]
fn places_of_tokens_and_of_errors(rt: HostRuntime) {
    assert!(rt; first_unmet(rt.alloc(), BROKEN) == None);
    assert!(rt; first_unmet(rt.alloc(), PLACED) == None);
}
