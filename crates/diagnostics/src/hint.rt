//! What stands at a place where a text can't be read on, and what could stand there.

use crate::page::Page;
use ht_lex::{Key, LexError, Span, TokenKind, lex};
use ht_values::Text;
use std::alloc::Global;

/// The word that a statement needs that begins with this key.
fn needed(first: TokenKind) -> Option<(Key, &'static [u8])> {
    match first {
        TokenKind::Key(Key::If) => Some((Key::Then, b"`then`")),
        TokenKind::Key(Key::Set) | TokenKind::Key(Key::Add) | TokenKind::Key(Key::Send) => {
            Some((Key::To, b"`to`"))
        }
        TokenKind::Key(Key::Subtract) => Some((Key::From, b"`from`")),
        TokenKind::Key(Key::Multiply) | TokenKind::Key(Key::Divide) => Some((Key::By, b"`by`")),
        _ => None,
    }
}

/// The operators and words that a value has to follow.
const BEFORE_VALUES: &[Key] = &[
    Key::Plus,
    Key::Minus,
    Key::Star,
    Key::Slash,
    Key::Caret,
    Key::Ampersand,
    Key::DoubleAmpersand,
    Key::Equal,
    Key::NotEqual,
    Key::Less,
    Key::Greater,
    Key::LessEqual,
    Key::GreaterEqual,
    Key::And,
    Key::Or,
    Key::Div,
    Key::Mod,
    Key::Contains,
    Key::CommaSign,
    Key::LeftParen,
    Key::Of,
    Key::If,
    Key::Put,
    Key::Get,
    Key::Until,
    Key::While,
];

/// Whether a value has to follow a token.
fn wants_value(kind: TokenKind) -> bool {
    matches!(kind, TokenKind::Key(key) if BEFORE_VALUES.contains(&key))
}

/// The bytes of a text at which a token stands.
pub(crate) fn bytes_of<'a>(text: &'a [u8], span: &Span) -> &'a [u8] {
    text.get(usize::from(span.start)..usize::from(span.stop))
        .unwrap_or(b"")
}

/// The tokens of a line that stand before a place.
fn line_before(spans: &[Span], at: usize) -> &[Span] {
    let end = spans
        .iter()
        .take_while(|span| usize::from(span.start) < at)
        .count();
    let before = spans.get(..end).unwrap_or(spans);
    match before.iter().rposition(|span| span.kind == TokenKind::Eol) {
        Some(last) => before.get(last.saturating_add(1)..).unwrap_or(before),
        None => before,
    }
}

/// How often a key stands among tokens.
fn count_of(line: &[Span], key: Key) -> usize {
    line.iter()
        .filter(|span| span.kind == TokenKind::Key(key))
        .count()
}

/// What the tokens of a line want behind them, where that is known.
fn wanted(line: &[Span]) -> Option<&'static [u8]> {
    let first = line.first()?;
    let last = line.last()?;
    if wants_value(last.kind) {
        return Some(b"a value");
    }
    if count_of(line, Key::RightParen) < count_of(line, Key::LeftParen) {
        return Some(b"`)`");
    }
    if first.kind == TokenKind::Key(Key::Else) && last.kind == TokenKind::Key(Key::Then) {
        return Some(b"the end of the line");
    }
    match needed(first.kind) {
        Some((key, word)) if count_of(line, key) == 0 => Some(word),
        _ => None,
    }
}

/// What stands at a place.
fn write_found(page: &mut Page, text: &[u8], found: Option<&Span>) {
    match found {
        None => page.word(b"the text ends"),
        Some(span) => match span.kind {
            TokenKind::Eol => page.word(b"the line ends"),
            _ => {
                page.word(b"there stands `");
                let token = bytes_of(text, span);
                page.spelled(token.get(..40).unwrap_or(token));
                page.word(b"`");
            }
        },
    }
}

/// Whether a token is the first of its line.
fn is_first(spans: &[Span], number: usize) -> bool {
    match number.checked_sub(1) {
        None => true,
        Some(before) => match spans.get(before) {
            Some(span) => span.kind == TokenKind::Eol,
            None => false,
        },
    }
}

/// Whether a token is the last of its line.
fn is_last(spans: &[Span], number: usize) -> bool {
    match spans.get(number.saturating_add(1)) {
        Some(span) => span.kind == TokenKind::Eol,
        None => true,
    }
}

/// The innermost block that is open before a place, by the token that begins it: `on`, `function`, `repeat`, or an `if`
/// whose line ends with `then`. None where no block is open, or there is no memory to tell.
fn open_block(alloc: Global, spans: &[Span], at: usize) -> Option<usize> {
    let mut open: Vec<usize> = Vec::new(alloc);
    let mut condition = None;
    for (number, span) in spans.iter().enumerate() {
        if at <= usize::from(span.start) {
            break;
        }
        let TokenKind::Key(key) = span.kind else {
            continue;
        };
        match key {
            Key::On | Key::Function | Key::Repeat if is_first(spans, number) => {
                open.push(number).ok()?;
            }
            Key::If if is_first(spans, number) => condition = Some(number),
            Key::Else if is_first(spans, number) => condition = None,
            Key::Then if is_last(spans, number) => {
                if let Some(begin) = condition {
                    open.push(begin).ok()?;
                    condition = None;
                }
            }
            Key::End if is_first(spans, number) => {
                let _ = open.pop();
            }
            _ => {}
        }
    }
    open.last().copied()
}

/// `expected ..`, where a block is open that has to end.
fn write_open(page: &mut Page, text: &[u8], spans: &[Span], block: usize) {
    let Some(begin) = spans.get(block) else {
        return;
    };
    page.word(b"; expected `end ");
    match begin.kind {
        TokenKind::Key(Key::If) => page.word(b"if"),
        TokenKind::Key(Key::Repeat) => page.word(b"repeat"),
        _ => {
            if let Some(name) = spans.get(block.saturating_add(1)) {
                page.spelled(bytes_of(text, name));
            }
        }
    }
    page.word(b"`");
}

/// Whether a block may have to end at a token: at the end of the text, and where another block begins or ends.
fn ends_block(found: Option<&Span>) -> bool {
    match found {
        None => true,
        Some(span) => matches!(
            span.kind,
            TokenKind::Key(Key::End | Key::On | Key::Function | Key::If | Key::Repeat | Key::Else)
        ),
    }
}

/// Whether a line says so far that a block ends.
fn is_end(line: &[Span]) -> bool {
    match line.first() {
        Some(span) => span.kind == TokenKind::Key(Key::End),
        None => false,
    }
}

/// What no token begins with.
fn write_strange(page: &mut Page, rest: &[u8]) {
    match rest.first() {
        Some(b'"') => page.word(b"a quote begins here that isn't closed on its line"),
        Some(b'.') => page.word(b"there stands `.`; numbers are whole here"),
        Some(byte) => {
            page.word(b"there stands `");
            page.spelled(&[*byte]);
            page.word(b"`, which begins no word, number or sign");
        }
        None => page.word(b"the text ends"),
    }
}

/// A line that says what stands at a place of a text that can't be read on from there, and what could.
pub fn write_hint(page: &mut Page, alloc: Global, text: &Text, at: usize) {
    page.word(b"\n  ");
    match lex(alloc, text) {
        Ok(tokens) => {
            let spans = tokens.spans();
            let found = spans.iter().find(|span| at <= usize::from(span.start));
            write_found(page, text.as_slice(), found);
            let line = line_before(spans, at);
            if let Some(word) = wanted(line) {
                page.word(b"; expected ");
                page.word(word);
            } else if ends_block(found) || is_end(line) {
                // Blocks are counted up to `end`, where the line begins with that.
                let end = match line.first() {
                    Some(first) if is_end(line) => usize::from(first.start),
                    _ => at,
                };
                if let Some(block) = open_block(alloc, spans, end) {
                    write_open(page, text.as_slice(), spans, block);
                }
            }
        }
        Err(LexError::Syntax(place)) => {
            write_strange(page, text.as_slice().get(place..).unwrap_or(b""));
        }
        Err(LexError::Memory) => {}
    }
}
