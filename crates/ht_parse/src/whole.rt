//! Whole lists of tokens: scripts, lines, expressions, references and texts of `send`.

ghost use Rattle.std.specs.Prelude.{◌<◌, ◌≤◌, ◌+◌, Some, None};
ghost use Rattle.ht_lex.specs.Token.{first_kind, later};
ghost use Rattle.ht_grammar.specs.Depth.{message_depth, max_depth};
ghost use Rattle.ht_grammar.specs.Reading as r;
ghost use Rattle.ht_grammar.specs.Whole as spec;
ghost use Rattle.ht_grammar.specs.Lines as line;
ghost use Rattle.ht_tree.specs.View.{part_of};
ghost use Rattle.ht_tree.specs.StatementView.{stmts_of};
ghost use Rattle.ht_tree.specs.ScriptView.{handler_of, script_of, message_of, typing_of};
ghost use Rattle.ht_expressions.specs.Answer.{Reads};
ghost use Rattle.ht_parse.specs.Answer.{IsWhole};
ghost use Rattle.ht_parse.specs.Lists.{handler_depth};

use crate::container::names;
use crate::context::Context;
use crate::line_words::{eat_ends, skip_ends};
use crate::lines::lines;
use ht_expressions::{WHOLE, arguments, part, read};
use ht_grammar::HandlerKind;
use ht_lex::{Cursor, Key, Stop, TokenKind, is_same, to_text};
use ht_tree::{Expr, Exprs, Handler, Message, Owner, Part, Script, Stmts, Typing};
use ht_values::{PartKind, Text};
use name_lists::Parameters;
use std::alloc::Global;

/// How many levels a tree may have.
const MAX_DEPTH: usize = 100;

/// The expression that the tokens are.
pub(crate) fn expression(alloc: Global, tokens: &mut Cursor<'_>) -> Result<Expr, Stop>
    ensures { IsWhole (λ x. x) (r.expression tokens.old) result }
{
    let expr = read(alloc, tokens, WHOLE, MAX_DEPTH)?;
    match tokens.peek() {
        None => Ok(expr),
        Some(_) => Err(Stop::Syntax),
    }
}

/// The lines that the tokens are.
pub(crate) fn typed_lines(alloc: Global, tokens: &mut Cursor<'_>) -> Result<Stmts, Stop>
    ensures { IsWhole (λ x. stmts_of x.items.items) (line.typed_lines tokens.old) result }
{
    skip_ends(tokens);
    let at_large = Context {
        in_repeat: false,
        handler: None,
    };
    let found = lines(alloc, tokens, at_large, MAX_DEPTH)?;
    match tokens.peek() {
        None => Ok(found),
        Some(_) => Err(Stop::Syntax),
    }
}

/// Parameters, if there are any.
fn parameters(alloc: Global, tokens: &mut Cursor<'_>) -> Result<Parameters, Stop>
    ensures { Reads (λ names. names) (λ names. 0) 0 (spec.params_by (first_kind tokens.old) tokens.old) result
        tokens.new }
{
    match tokens.peek() {
        Some(TokenKind::Name) => {
            let turns = tokens.left();
            let names = names(alloc, tokens, turns)?;
            Ok(Parameters::new(alloc, names)?)
        }
        _ => Ok(Parameters::none()),
    }
}

/// The name after `end`, which is the handler's.
fn end_name(tokens: &mut Cursor<'_>, handler: Handler) -> Result<Handler, Stop>
    requires { handler_depth (handler_of handler) ≤ max_depth }
    ensures { Reads handler_of handler_depth max_depth
        (spec.name_by (first_kind tokens.old) handler.name (handler_of handler) tokens.old) result tokens.new }
{
    match tokens.peek() {
        Some(TokenKind::Name) => {
            if !is_same(handler.name.as_slice(), tokens.take()) {
                return Err(Stop::Syntax);
            }
            if !eat_ends(tokens) {
                return Err(Stop::Syntax);
            }
            Ok(handler)
        }
        _ => Err(Stop::Syntax),
    }
}

/// The lines of a handler, from the end of its first line on.
fn body(
    alloc: Global,
    tokens: &mut Cursor<'_>,
    kind: HandlerKind,
    name: Text,
    parameters: Parameters,
) -> Result<Handler, Stop>
    ensures { Reads handler_of handler_depth max_depth (spec.body_at kind name parameters tokens.old) result
        tokens.new }
{
    if !eat_ends(tokens) {
        return Err(Stop::Syntax);
    }
    let context = Context {
        in_repeat: false,
        handler: Some(name.as_slice()),
    };
    let body = lines(alloc, tokens, context, MAX_DEPTH)?;
    if !tokens.eat(Key::End) {
        return Err(Stop::Syntax);
    }
    let handler = Handler {
        kind,
        name,
        parameters,
        lines: body,
    };
    end_name(tokens, handler)
}

/// A handler, after `on` or `function`.
fn named(alloc: Global, tokens: &mut Cursor<'_>, kind: HandlerKind) -> Result<Handler, Stop>
    ensures { Reads handler_of handler_depth max_depth (spec.named_by (first_kind tokens.old) kind tokens.old) result
        tokens.new }
{
    match tokens.peek() {
        Some(TokenKind::Name) => {
            let name = to_text(alloc, tokens.take())?;
            let parameters = parameters(alloc, tokens)?;
            body(alloc, tokens, kind, name, parameters)
        }
        _ => Err(Stop::Syntax),
    }
}

fn handler(alloc: Global, tokens: &mut Cursor<'_>) -> Result<Handler, Stop>
    ensures { Reads handler_of handler_depth max_depth (spec.handler_by (first_kind tokens.old) tokens.old) result
        tokens.new }
{
    match tokens.peek() {
        Some(TokenKind::Key(Key::On)) => {
            tokens.skip();
            named(alloc, tokens, HandlerKind::Command)
        }
        Some(TokenKind::Key(Key::Function)) => {
            tokens.skip();
            named(alloc, tokens, HandlerKind::Function)
        }
        _ => Err(Stop::Syntax),
    }
}

/// The script that the tokens are.
pub(crate) fn script(alloc: Global, tokens: &mut Cursor<'_>) -> Result<Script, Stop>
    ensures { IsWhole script_of (spec.script tokens.old) result }
{
    let turns = tokens.left() + 1;
    skip_ends(tokens);
    let mut found = Script::new(alloc);
    for _turn in 0..turns {
        if tokens.peek().is_none() {
            return Ok(found);
        }
        let handler = handler(alloc, tokens)?;
        found = found.with(handler)?;
    }
    Err(Stop::Syntax)
}

/// The part that the tokens are, if it has no owner.
pub(crate) fn clicked_part(alloc: Global, tokens: &mut Cursor<'_>) -> Result<Part, Stop>
    ensures { IsWhole part_of (spec.clicked_part tokens.old) result }
{
    let part = part(alloc, tokens, MAX_DEPTH)?;
    if tokens.peek().is_some() {
        return Err(Stop::Syntax);
    }
    if part.depth() > MAX_DEPTH {
        return Err(Stop::Syntax);
    }
    unowned(part)
}

/// The part, if it has no owner.
fn unowned(part: Part) -> Result<Part, Stop>
    ensures { IsWhole part_of (spec.unowned (Some (part_of part))) result }
{
    let is_unowned = matches!(part.owner(), Owner::NoOwner);
    is_unowned.then_some(part).ok_or(Stop::Syntax)
}

/// The text to be typed and its field, that the tokens are.
pub(crate) fn typed_text(alloc: Global, tokens: &mut Cursor<'_>) -> Result<Typing, Stop>
    ensures { IsWhole typing_of (spec.typed_text tokens.old) result }
{
    match tokens.peek() {
        Some(TokenKind::Quoted) => {
            let text = to_text(alloc, tokens.take())?;
            into_field(alloc, tokens, text)
        }
        _ => Err(Stop::Syntax),
    }
}

/// `into` and a field.
fn into_field(alloc: Global, tokens: &mut Cursor<'_>, text: Text) -> Result<Typing, Stop>
    ensures { IsWhole typing_of (spec.into_by (first_kind tokens.old) text (later tokens.old)) result }
{
    match tokens.peek() {
        Some(TokenKind::Key(Key::Into)) => {
            tokens.skip();
            let field = clicked_part(alloc, tokens)?;
            let is_field = matches!(field.kind(), PartKind::Field);
            is_field
                .then_some(Typing { text, field })
                .ok_or(Stop::Syntax)
        }
        _ => Err(Stop::Syntax),
    }
}

/// The arguments of a message.
fn message_with_arguments(
    alloc: Global,
    tokens: &mut Cursor<'_>,
    name: Text,
) -> Result<Message, Stop>
    ensures { IsWhole message_of (r.not_too_deep message_depth
        (r.all_of (spec.message_by (first_kind tokens.old) name tokens.old))) result }
{
    match tokens.peek() {
        None => Ok(Message {
            name,
            arguments: Exprs::new(alloc),
        }),
        Some(_) => {
            let turns = tokens.left();
            let arguments = arguments(alloc, tokens, turns, MAX_DEPTH)?;
            if tokens.peek().is_some() {
                return Err(Stop::Syntax);
            }
            Ok(Message { name, arguments })
        }
    }
}

/// The message that the tokens are.
pub(crate) fn sent_message(alloc: Global, tokens: &mut Cursor<'_>) -> Result<Message, Stop>
    ensures { IsWhole message_of (spec.sent_message tokens.old) result }
{
    match tokens.peek() {
        Some(TokenKind::Name) => {
            let name = to_text(alloc, tokens.take())?;
            message_with_arguments(alloc, tokens, name)
        }
        _ => Err(Stop::Syntax),
    }
}
