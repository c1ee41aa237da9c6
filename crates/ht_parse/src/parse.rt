//! Texts, whole.

ghost use Rattle.std.specs.Prelude.{◌≡◌, ◌≤◌, length, slice_get};
ghost use Rattle.ht_grammar.specs.Reads.{ReadsExpr, ReadsLines, ReadsScript, ReadsPart, ReadsType, ReadsMessage};
ghost use Rattle.ht_tree.specs.View.{part_of};
ghost use Rattle.ht_tree.specs.StatementView.{stmts_of};
ghost use Rattle.ht_tree.specs.ScriptView.{script_of, message_of, typing_of};
ghost use Rattle.ht_parse.specs.Answer.{Lexes, Places, Parses};
ghost use Rattle.ht_parse.specs.Stops.{start_or_end, error_at};

use crate::error::ParseError;
use crate::whole::{clicked_part, expression, script, sent_message, typed_lines, typed_text};
use ht_grammar::{
    expressions_are_read_exactly, lines_are_read_exactly, messages_are_read_exactly,
    parts_are_read_exactly, scripts_are_read_exactly, typing_is_read_exactly,
};
use ht_lex::{Cursor, LexError, Stop, Tokens, lex};
use ht_tree::{Expr, Message, Part, Script, Stmts, Typing};
use ht_values::Text;
use std::alloc::Global;

/// The tokens of a text.
fn tokens_of(alloc: Global, text: &Text) -> Result<Tokens<'_>, ParseError>
    ensures { Lexes text.now result }
{
    // A text fits, and so do its tokens.
    let _size = text.len();
    match lex(alloc, text) {
        Ok(tokens) => Ok(tokens),
        Err(LexError::Syntax(place)) => Err(ParseError::Syntax(place)),
        Err(LexError::Memory) => Err(ParseError::Memory),
    }
}

/// Where a token begins, or the end of the text after the last.
fn place_of(tokens: &Tokens<'_>, token: usize) -> usize
    ensures value { result ≡ start_or_end (length tokens.now.text) (slice_get tokens.now.spans token) }
    ensures within { result ≤ length tokens.now.text }
{
    let end = tokens.text().len();
    match tokens.spans().get(token) {
        Some(span) => usize::from(span.start).min(end),
        None => end,
    }
}

/// The error of a reader that stopped with so many tokens left.
fn error_of(tokens: &Tokens<'_>, left: usize, stop: Stop) -> ParseError
    ensures value { result ≡ error_at tokens.now left stop }
    ensures within { Places (length tokens.now.text) stop result }
{
    match stop {
        Stop::Memory => ParseError::Memory,
        Stop::Syntax => ParseError::Syntax(place_of(tokens, tokens.len().saturating_sub(left))),
    }
}

/// The script that a text is. `Syntax` where it is none, `Memory` where a growth was refused.
pub fn parse_script(alloc: Global, text: &Text) -> Result<Script, ParseError>
    ensures { Parses script_of ReadsScript text.now result }
{
    scripts_are_read_exactly();
    let tokens = tokens_of(alloc, text)?;
    let mut cursor = Cursor::new(&tokens);
    match script(alloc, &mut cursor) {
        Ok(script) => Ok(script),
        Err(stop) => Err(error_of(&tokens, cursor.left(), stop)),
    }
}

/// The lines that a typed command, the text of `do` or that of a call-back is. `Syntax` where it is none, `Memory`
/// where a growth was refused.
pub fn parse_lines(alloc: Global, text: &Text) -> Result<Stmts, ParseError>
    ensures { Parses (λ x. stmts_of x.items.items) ReadsLines text.now result }
{
    lines_are_read_exactly();
    let tokens = tokens_of(alloc, text)?;
    let mut cursor = Cursor::new(&tokens);
    match typed_lines(alloc, &mut cursor) {
        Ok(lines) => Ok(lines),
        Err(stop) => Err(error_of(&tokens, cursor.left(), stop)),
    }
}

/// The expression that a text is. `Syntax` where it is none, `Memory` where a growth was refused.
pub fn parse_expr(alloc: Global, text: &Text) -> Result<Expr, ParseError>
    ensures { Parses (λ x. x) ReadsExpr text.now result }
{
    expressions_are_read_exactly();
    let tokens = tokens_of(alloc, text)?;
    let mut cursor = Cursor::new(&tokens);
    match expression(alloc, &mut cursor) {
        Ok(expr) => Ok(expr),
        Err(stop) => Err(error_of(&tokens, cursor.left(), stop)),
    }
}

/// The button or field that a text refers to, without an owner: one to be clicked. `Syntax` where it refers to none,
/// `Memory` where a growth was refused.
pub fn parse_part(alloc: Global, text: &Text) -> Result<Part, ParseError>
    ensures { Parses part_of ReadsPart text.now result }
{
    parts_are_read_exactly();
    let tokens = tokens_of(alloc, text)?;
    let mut cursor = Cursor::new(&tokens);
    match clicked_part(alloc, &mut cursor) {
        Ok(part) => Ok(part),
        Err(stop) => Err(error_of(&tokens, cursor.left(), stop)),
    }
}

/// A text in quotes, `into` and a field without an owner: what is typed, and where. `Syntax` where the text is none,
/// `Memory` where a growth was refused.
pub fn parse_type(alloc: Global, text: &Text) -> Result<Typing, ParseError>
    ensures { Parses typing_of ReadsType text.now result }
{
    typing_is_read_exactly();
    let tokens = tokens_of(alloc, text)?;
    let mut cursor = Cursor::new(&tokens);
    match typed_text(alloc, &mut cursor) {
        Ok(typing) => Ok(typing),
        Err(stop) => Err(error_of(&tokens, cursor.left(), stop)),
    }
}

/// The message that the text of `send` is: a name, and arguments after it. `Syntax` where it is none, `Memory` where a
/// growth was refused.
pub fn parse_message(alloc: Global, text: &Text) -> Result<Message, ParseError>
    ensures { Parses message_of ReadsMessage text.now result }
{
    messages_are_read_exactly();
    let tokens = tokens_of(alloc, text)?;
    let mut cursor = Cursor::new(&tokens);
    match sent_message(alloc, &mut cursor) {
        Ok(message) => Ok(message),
        Err(stop) => Err(error_of(&tokens, cursor.left(), stop)),
    }
}
