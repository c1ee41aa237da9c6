//! The tokens of a text.

ghost use Rattle.std.specs.Prelude.{◌≡◌, ◌≤◌, ◌<◌, length, slice_range};
ghost use Rattle.ht_values.specs.declared.text.TheConstants.{LIMIT};
ghost use Rattle.std.specs.List.{HoldsAt};

use crate::key::TokenKind;
use crate::shared_names::SharedNames;
use std::alloc::Global;
use std::marker::Model;
use thiserror::Error;

/// A kind of token, and where one stands in the text: from the byte `start` up to the byte `stop`. A text has so few
/// bytes that 16 bits hold each place, so that the tokens of a long text take little memory.
#[derive(Clone, Copy, PartialEq, Eq, Debug)]
pub struct Span {
    pub kind: TokenKind,
    pub start: u16,
    pub stop: u16,
}

impl Span {
    /// The span of a token of a text, from the byte `start` up to the byte `stop`.
    #[inline(always)]
    pub(crate) fn new(kind: TokenKind, start: usize, stop: usize) -> Span
        requires begins { start ≤ LIMIT }
        requires ends { stop ≤ LIMIT }
        ensures { result ≡ record { kind = kind; start = start; stop = stop } }
    {
        Span {
            kind,
            start: start as u16,
            stop: stop as u16,
        }
    }
}

/// A token: its kind, its slice of the text, and the place of its first byte there.
#[derive(Clone, Copy, Debug)]
pub struct Token<'a> {
    pub kind: TokenKind,
    pub text: &'a [u8],
    pub start: usize,
}

/// Why a text has no tokens.
#[derive(Clone, Copy, PartialEq, Eq, Debug, Error)]
pub enum LexError {
    /// The place of the first byte at which no token begins.
    #[error("no token begins at byte {0}")]
    Syntax(usize),
    /// A growth of memory was refused.
    #[error("out of memory")]
    Memory,
}

/// The tokens of a text, in order. Contracts see the text and the spans of its tokens.
#[derive(Drop)]
pub struct Tokens<'a> {
    text: &'a [u8],
    spans: Vec<Span>,
    names: SharedNames,
}

impl<'a> Model for Tokens<'a> {
    ghost use Rattle.std.specs.Prelude.{length};
    ghost use Rattle.ht_lex.specs.Tokens.{Lexed, InOrder};

    ghost Value = { Lexed };

    ghost view = { λ t. record { text = t.text.now; spans = t.spans.items } };

    ghost invariant = { λ t. InOrder 0 t.spans.items (length t.text.now) };
}

impl<'a> Tokens<'a> {
    ghost use Rattle.ht_lex.specs.Tokens.{InOrder};

    /// The tokens that stand at these spans of a text.
    pub(crate) fn new(alloc: Global, text: &'a [u8], spans: Vec<Span>) -> Tokens<'a>
        requires { InOrder 0 spans.items (length text.now) }
        ensures { result ≡ record { text = text.now; spans = spans.items } }
    {
        let names = SharedNames::new(alloc);
        Tokens { text, spans, names }
    }

    /// The names that the text shares.
    pub(crate) fn names(&self) -> &SharedNames {
        &self.names
    }

    /// How many tokens the text has. A return is one; the end of the text isn't.
    pub fn len(&self) -> usize
        ensures { result ≡ length self.now.spans }
    {
        self.spans.len()
    }

    /// The text whose tokens they are.
    pub fn text(&self) -> &'a [u8]
        ensures { result.now ≡ self.now.text }
    {
        self.text
    }

    /// Where the tokens stand in the text, in order.
    pub fn spans(&self) -> &[Span]
        ensures value { result.now ≡ self.now.spans }
        ensures ordered { InOrder 0 self.now.spans (length self.now.text) }
    {
        &self.spans
    }

    /// The token at a place in the order, from 0.
    pub fn at(&self, place: usize) -> Token<'a>
        requires { place < length self.now.spans }
        ensures kind { HoldsAt (λ span. result.kind ≡ span.kind) self.now.spans place }
        ensures start { HoldsAt (λ span. result.start ≡ span.start) self.now.spans place }
        ensures text { HoldsAt (λ span. result.text.now ≡ slice_range self.now.text span.start span.stop) self.now.spans
            place }
    {
        let span = self.spans[place];
        Token {
            kind: span.kind,
            text: &self.text[usize::from(span.start)..usize::from(span.stop)],
            start: usize::from(span.start),
        }
    }
}
