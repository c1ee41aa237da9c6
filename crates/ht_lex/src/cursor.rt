//! A place in the tokens of a text.

ghost use Rattle.std.specs.Prelude.{◌≡◌, ◌≤◌, length, true, false, IfSome};
ghost use Rattle.ht_values.specs.declared.text.TheConstants.{LIMIT};
ghost use Rattle.ht_lex.specs.Tokens.{tokens_of};
ghost use Rattle.ht_lex.specs.Token.{first_kind, first_text, later, inner, is_key};

use crate::key::{Key, TokenKind};
use crate::shared_names::SharedNames;
use crate::tokens::{Span, Tokens};
use ht_values::Name;
use std::alloc::Global;
use std::marker::Model;
use std::rc::Rc;

/// The tokens from a place on, which contracts see as the grammar does.
#[derive(Drop)]
pub struct Cursor<'a> {
    text: &'a [u8],
    spans: &'a [Span],
    names: &'a SharedNames,
}

impl<'a> Model for Cursor<'a> {
    ghost use Rattle.std.specs.Prelude.{List};
    ghost use Rattle.ht_lex.specs.Token.{Token};

    ghost Value = { List Token };

    ghost use Rattle.ht_lex.specs.Place.{tokens_left, IsPlaced};

    ghost view = { tokens_left };

    ghost invariant = { IsPlaced };
}

impl<'a> Cursor<'a> {
    /// The first of the tokens.
    #[tactic(auto, using(crate::proofs::Placed::spans_placed, crate::proofs::Placed::spans_few))]
    pub fn new(tokens: &'a Tokens<'a>) -> Cursor<'a>
        requires { length tokens.now.text ≤ LIMIT }
        ensures { result ≡ tokens_of tokens.now }
    {
        Cursor {
            text: tokens.text(),
            spans: tokens.spans(),
            names: tokens.names(),
        }
    }

    /// The same place.
    pub fn mark(&self) -> Cursor<'a>
        ensures { result ≡ self.now }
    {
        Cursor {
            text: self.text,
            spans: self.spans,
            names: self.names,
        }
    }

    /// How many tokens there are from here on.
    pub fn left(&self) -> usize
        ensures value { result ≡ length self.now }
        ensures few { result ≤ LIMIT }
    {
        self.spans.len()
    }

    /// Where the first token begins, in bytes from the beginning of the text; at the end how many bytes the text has.
    /// No clause says so: contracts see tokens, and not where they stand.
    pub fn place(&self) -> usize {
        match self.spans {
            [] => self.text.len(),
            [first, ..] => usize::from(first.start),
        }
    }

    /// The kind of the first token; none at the end.
    pub fn peek(&self) -> Option<TokenKind>
        ensures { result ≡ first_kind self.now }
    {
        match self.spans {
            [] => None,
            [first, ..] => Some(first.kind),
        }
    }

    /// The kind of the second token.
    pub fn second(&self) -> Option<TokenKind>
        ensures { result ≡ first_kind (later self.now) }
    {
        let mut ahead = self.mark();
        ahead.skip();
        ahead.peek()
    }

    /// The kind of the third token.
    pub fn third(&self) -> Option<TokenKind>
        ensures { result ≡ first_kind (later (later self.now)) }
    {
        let mut ahead = self.mark();
        ahead.skip();
        ahead.second()
    }

    /// Whether the first token is this key.
    #[tactic(auto, unfolding(crate::specs::Token::is_key))]
    pub fn is_at(&self, key: Key) -> bool
        ensures { result ≡ is_key key (first_kind self.now) }
    {
        match self.peek() {
            Some(TokenKind::Key(found)) => found == key,
            _ => false,
        }
    }

    /// Goes past the first token, if it is this key, and tells whether it is.
    pub fn eat(&mut self, key: Key) -> bool
        ensures there { result ≡ is_key key (first_kind self.old) }
        ensures past { result ≡ true → self.new ≡ later self.old }
        ensures stays { result ≡ false → self.new ≡ self.old }
    {
        let is_there = self.is_at(key);
        if is_there {
            self.skip();
        }
        is_there
    }

    /// Goes past the first token.
    pub fn skip(&mut self)
        ensures { self.new ≡ later self.old }
    {
        match self.spans {
            [] => {}
            [_, rest @ ..] => self.spans = rest,
        }
    }

    /// The text of the first token, without quotes. A key and a return have none.
    pub fn text(&self) -> &'a [u8]
        ensures text { result.now ≡ first_text self.now }
        ensures short { length result.now ≤ LIMIT }
    {
        match self.spans {
            [] => &self.text[..0],
            [first, ..] => {
                let start = usize::from(first.start);
                let stop = usize::from(first.stop);
                match first.kind {
                    TokenKind::Name | TokenKind::Number => &self.text[start..stop],
                    TokenKind::Quoted => inside(&self.text[start..], stop - start),
                    TokenKind::Key(_) | TokenKind::Eol => &self.text[..0],
                }
            }
        }
    }

    /// The name of these bytes, if the text shares it: one that comes again and again takes memory once, and so does a
    /// short text in quotes. No clause says which names are shared.
    #[inline(always)]
    pub fn shared_name(&self, alloc: Global, bytes: &[u8]) -> Option<Rc<Name>>
        requires { length bytes.now ≤ LIMIT }
        ensures { IfSome result (λ name. name.value ≡ bytes.now) }
    {
        self.names.next(alloc, bytes)
    }

    /// The text of the first token, which it goes past.
    pub fn take(&mut self) -> &'a [u8]
        ensures text { result.now ≡ first_text self.old }
        ensures short { length result.now ≤ LIMIT }
        ensures after { self.new ≡ later self.old }
    {
        let text = self.text();
        self.skip();
        text
    }
}

/// What lies between the first and the last of the first `size` bytes.
fn inside(text: &[u8], size: usize) -> &[u8]
    requires some { 1 ≤ size }
    requires within { size ≤ length text.now }
    ensures value { result.now ≡ inner text.now size }
    ensures shorter { length result.now ≤ length text.now }
{
    let end = 1 + size.saturating_sub(2);
    &text[1..end]
}
