//! What a text begins with: a token, or what stands between tokens.

ghost use Rattle.std.specs.Prelude.{◌≡◌, ◌≤◌, ◌<◌, length, map, slice_index, true};
ghost use Rattle.ht_lex.specs.Words as words;
ghost use Rattle.ht_lex.specs.Lexemes as lexemes;

use crate::key::{Key, TokenKind};
use crate::names::{begins_word, byte_at, goes_on_word, key_of};

/// What a text begins with, and how many bytes that takes.
#[derive(Clone, Copy, Debug)]
pub(crate) enum Lexeme {
    /// Blanks, a continued line or a comment.
    Gap(usize),
    Token(TokenKind, usize),
    /// No token and no gap.
    Nothing,
}

/// The symbols, each before those that it begins with.
const SYMBOLS: &[(&[u8], Key)] = &[
    (b"&&", Key::DoubleAmpersand),
    (b"<>", Key::NotEqual),
    (b"<=", Key::LessEqual),
    (b">=", Key::GreaterEqual),
    (b"&", Key::Ampersand),
    (b"(", Key::LeftParen),
    (b")", Key::RightParen),
    (b",", Key::CommaSign),
    (b"+", Key::Plus),
    (b"-", Key::Minus),
    (b"*", Key::Star),
    (b"/", Key::Slash),
    (b"^", Key::Caret),
    (b"=", Key::Equal),
    (b"<", Key::Less),
    (b">", Key::Greater),
    (b"\xB2", Key::LessEqual),
    (b"\xB3", Key::GreaterEqual),
    (b"\xAD", Key::NotEqual),
];

/// Bytes that go on with what others of their class began.
#[derive(Clone, Copy)]
enum Class {
    Blank,
    Digit,
    Word,
    Commented,
    Quotable,
}

fn is_in(class: Class, byte: u8) -> bool
    ensures { result ≡ lexemes.is_in class byte }
{
    match class {
        Class::Blank => byte == b' ' || byte == b'\t',
        Class::Digit => byte.is_ascii_digit(),
        Class::Word => goes_on_word(byte),
        Class::Commented => byte != b'\r',
        Class::Quotable => byte != b'"' && byte != b'\r',
    }
}

/// The first place from `place` on whose byte isn't of the class.
fn past(class: Class, text: &[u8], place: usize) -> usize
    requires { place ≤ length text.now }
    ensures value { result ≡ lexemes.past class text.now place }
    ensures within { (place ≤ result) × (result ≤ length text.now) }
    ensures moves { place < length text.now → lexemes.is_in class (slice_index text.now place) ≡ true → place < result }
{
    let mut end = place;
    while end < text.len() && is_in(class, text[end]) {
        end += 1;
    }
    end
}

/// The first row whose symbol the text begins with.
fn symbol_among(mut rows: &[(&[u8], Key)], text: &[u8]) -> Lexeme
    ensures { result ≡ lexemes.symbol_among (map (λ row. (row.0.now, row.1)) rows.entry.now) text.now }
{
    while let [row, later @ ..] = rows {
        if text.starts_with(row.0) {
            return Lexeme::Token(TokenKind::Key(row.1), row.0.len());
        }
        rows = later;
    }
    Lexeme::Nothing
}

/// The key of a byte that is a symbol and begins nothing longer. Most symbols are told so, without the table.
#[inline(always)]
fn single(byte: u8) -> Option<Key>
    ensures { result ≡ lexemes.single byte }
{
    match byte {
        b'(' => Some(Key::LeftParen),
        b')' => Some(Key::RightParen),
        b',' => Some(Key::CommaSign),
        b'+' => Some(Key::Plus),
        b'*' => Some(Key::Star),
        b'/' => Some(Key::Slash),
        b'^' => Some(Key::Caret),
        b'=' => Some(Key::Equal),
        _ => None,
    }
}

/// A symbol that another byte may make longer.
fn symbol_lexeme(text: &[u8]) -> Lexeme
    ensures value { result ≡ lexemes.symbol_lexeme text.now }
    ensures within { lexemes.FitsIn text.now result }
{
    let first = byte_at(text, 0);
    if first == b'-' {
        return Lexeme::Token(TokenKind::Key(Key::Minus), 1);
    }
    if first == b'&' {
        return ampersand_lexeme(text);
    }
    symbol_among(SYMBOLS, text)
}

/// `&` or `&&`.
fn ampersand_lexeme(text: &[u8]) -> Lexeme
    requires { slice_index text.now 0 ≡ 38 }
    ensures value { result ≡ lexemes.symbol_lexeme text.now }
    ensures within { lexemes.FitsIn text.now result }
{
    if byte_at(text, 1) == b'&' {
        return Lexeme::Token(TokenKind::Key(Key::DoubleAmpersand), 2);
    }
    Lexeme::Token(TokenKind::Key(Key::Ampersand), 1)
}

fn kind_of_word(word: &[u8]) -> TokenKind
    ensures { result ≡ words.kind_of_word word.now }
{
    match key_of(word) {
        Some(key) => TokenKind::Key(key),
        None => TokenKind::Name,
    }
}

/// A word, whose first byte is known to be one.
fn word_lexeme(text: &[u8]) -> Lexeme
    requires { 0 < length text.now }
    ensures value { result ≡ lexemes.word_lexeme text.now }
    ensures within { lexemes.FitsIn text.now result }
{
    let end = past(Class::Word, text, 1);
    Lexeme::Token(kind_of_word(&text[..end]), end)
}

/// Bytes in quotes. A return ends the line before the second quote, and then no token begins here.
fn quoted_lexeme(text: &[u8]) -> Lexeme
    requires { 0 < length text.now }
    ensures value { result ≡ lexemes.quoted_lexeme text.now }
    ensures within { lexemes.FitsIn text.now result }
{
    let end = past(Class::Quotable, text, 1);
    if byte_at(text, end) == b'"' {
        Lexeme::Token(TokenKind::Quoted, end + 1)
    } else {
        Lexeme::Nothing
    }
}

/// The byte 0xC2, blanks and a return: the line goes on.
fn continued_lexeme(text: &[u8]) -> Lexeme
    requires { 0 < length text.now }
    ensures value { result ≡ lexemes.continued_lexeme text.now }
    ensures within { lexemes.FitsIn text.now result }
{
    let end = past(Class::Blank, text, 1);
    if byte_at(text, end) == b'\r' {
        Lexeme::Gap(end + 1)
    } else {
        Lexeme::Nothing
    }
}

/// What a text that isn't empty begins with. The pieces begin with bytes of their own, so words and symbols of one byte,
/// the commonest, are looked for first.
pub(crate) fn first_lexeme(text: &[u8]) -> Lexeme
    requires { 0 < length text.now }
    ensures value { result ≡ lexemes.first_lexeme text.now }
    ensures within { lexemes.FitsIn text.now result }
{
    let first = text[0];
    if begins_word(first) {
        return word_lexeme(text);
    }
    match single(first) {
        Some(key) => Lexeme::Token(TokenKind::Key(key), 1),
        None => other_lexeme(text),
    }
}

/// What a text begins with that is no word and no symbol of one byte.
#[tactic(auto, unfolding(crate::specs::Lexemes::other_lexeme))]
fn other_lexeme(text: &[u8]) -> Lexeme
    requires { 0 < length text.now }
    ensures value { result ≡ lexemes.other_lexeme text.now }
    ensures within { lexemes.FitsIn text.now result }
{
    let first = text[0];
    if is_in(Class::Blank, first) {
        Lexeme::Gap(past(Class::Blank, text, 0))
    } else if first == b'\r' {
        Lexeme::Token(TokenKind::Eol, 1)
    } else if is_in(Class::Digit, first) {
        Lexeme::Token(TokenKind::Number, past(Class::Digit, text, 0))
    } else if first == b'"' {
        quoted_lexeme(text)
    } else if first == 0xc2 {
        continued_lexeme(text)
    } else if text.starts_with(b"--") {
        Lexeme::Gap(past(Class::Commented, text, 0))
    } else {
        symbol_lexeme(text)
    }
}
