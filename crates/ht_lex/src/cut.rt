//! Cutting a text into tokens.

ghost use Rattle.std.specs.Prelude.{◌≡◌, ◌<◌, ℕ, List, length, IfOk, IfErr};
ghost use Rattle.ht_lex.specs.declared.tokens.Span.{Span};
ghost use Rattle.ht_lex.specs.Tokens.{Cuts, IsCut, InOrder};
ghost use Rattle.ht_lex.specs.Answer.{Fails, Answers};

use crate::lexeme::{Lexeme, first_lexeme};
use crate::tokens::{LexError, Span, Tokens};
use ht_values::Text;
use std::alloc::Global;

/// The tokens of a text, at each place the longest. Blanks, comments and continued lines stand between them.
/// `Syntax` carries the place of the first byte at which no token begins; `Memory` where a growth was refused.
pub fn lex(alloc: Global, text: &Text) -> Result<Tokens<'_>, LexError>
    ensures found { IfOk result (λ tokens. IsCut text.now tokens.spans) }
    ensures source { IfOk result (λ tokens. tokens.text ≡ text.now) }
    ensures ordered { IfOk result (λ tokens. InOrder 0 tokens.spans (length text.now)) }
    ensures stuck { IfErr result (λ error. Fails text.now error) }
    ensures only { (spans : List Span) (stop : ℕ) → Cuts text.now 0 spans stop
        → Answers (λ tokens. tokens.spans) text.now spans stop result }
{
    let text = text.as_slice();
    let mut spans = Vec::new(alloc);
    let mut place = 0;
    while place < text.len() {
        match first_lexeme(&text[place..]) {
            Lexeme::Gap(size) => place += size,
            Lexeme::Token(kind, size) => {
                let stop = place + size;
                let span = Span::new(kind, place, stop);
                spans.push(span).map_err(|_| LexError::Memory)?;
                place = stop;
            }
            Lexeme::Nothing => return Err(LexError::Syntax(place)),
        }
    }
    Ok(Tokens::new(alloc, text, spans))
}
