//! Containers, and names with commas between.

ghost use Rattle.std.specs.Prelude.{◌<◌, ◌≤◌, ◌+◌};
ghost use Rattle.ht_lex.specs.Stops.{Gives};
ghost use Rattle.ht_lex.specs.Token.{first_kind, later};
ghost use Rattle.ht_grammar.specs.Trees as t;
ghost use Rattle.ht_grammar.specs.Reading as r;
ghost use Rattle.ht_grammar.specs.Depth.{container_depth, max_depth};
ghost use Rattle.ht_grammar.specs.Lines as spec;
ghost use Rattle.ht_tree.specs.ContainerView.{container_of};
ghost use Rattle.ht_expressions.specs.Answer.{Reads};

use ht_expressions::{chunk_head, eat_of, field};
use ht_lex::{Cursor, Key, Stop, TokenKind, to_name, to_text};
use ht_tree::{Container, ContainerKind};
use ht_values::Text;
use std::alloc::Global;

/// The container of this kind, unless memory is refused.
fn to_container(alloc: Global, kind: ContainerKind) -> Result<Container, Stop>
    requires { container_depth (container_of kind) ≤ max_depth }
    ensures { Gives (container_of kind) result }
{
    Ok(Container::new(alloc, kind)?)
}

/// A container of at most `depth` levels.
#[cycle(container)]
#[tactic(auto, using(crate::proofs::Deeper::no_container, crate::proofs::Deeper::container_deeper))]
pub(crate) fn container(
    alloc: Global,
    tokens: &mut Cursor<'_>,
    depth: usize,
) -> Result<Container, Stop>
    requires { depth ≤ max_depth }
    ensures { Reads (λ c. c) container_depth depth (spec.container depth tokens.old) result tokens.new }
{
    if depth == 0 {
        return Err(Stop::Syntax);
    }
    let depth = depth - 1;
    match tokens.peek() {
        Some(TokenKind::Name) => {
            let name = to_name(alloc, tokens.take())?;
            to_container(alloc, ContainerKind::Variable(name))
        }
        Some(TokenKind::Key(Key::Part(_))) => in_field(alloc, tokens, depth),
        Some(TokenKind::Key(Key::Card)) => in_field(alloc, tokens, depth),
        Some(TokenKind::Key(Key::Background)) => in_field(alloc, tokens, depth),
        Some(TokenKind::Key(Key::Ordinal(_))) => at_ordinal(alloc, tokens, depth),
        _ => in_chunk(alloc, tokens, depth),
    }
}

/// The text of a field.
fn in_field(alloc: Global, tokens: &mut Cursor<'_>, depth: usize) -> Result<Container, Stop>
    requires { depth < max_depth }
    ensures { Reads (λ c. c) container_depth (depth + 1)
        (r.made t.in_field (r.field_at (r.read depth) depth tokens.old)) result tokens.new }
{
    let field = field(alloc, tokens, depth)?;
    to_container(alloc, ContainerKind::Field(field))
}

/// Pieces of a container or a field, at an ordinal.
#[cycle(container)]
fn at_ordinal(alloc: Global, tokens: &mut Cursor<'_>, depth: usize) -> Result<Container, Stop>
    requires { depth < max_depth }
    ensures { Reads (λ c. c) container_depth (depth + 1)
        (spec.ordinal_container (spec.container depth) depth (first_kind (later tokens.old)) tokens.old) result
        tokens.new }
{
    match tokens.second() {
        Some(TokenKind::Key(Key::Piece(_))) => in_chunk(alloc, tokens, depth),
        _ => in_field(alloc, tokens, depth),
    }
}

/// Pieces of a container.
#[cycle(container)]
fn in_chunk(alloc: Global, tokens: &mut Cursor<'_>, depth: usize) -> Result<Container, Stop>
    requires { depth < max_depth }
    ensures { Reads (λ c. c) container_depth (depth + 1) (spec.chunk_container (spec.container depth) depth tokens.old)
        result tokens.new }
{
    let chunk = chunk_head(alloc, tokens, depth)?;
    if !eat_of(tokens) {
        return Err(Stop::Syntax);
    }
    let whole = container(alloc, tokens, depth)?;
    to_container(alloc, ContainerKind::Chunk(chunk, whole))
}

/// One name or more, at most so many, as they are spelled. The list takes no more memory than it needs, also while it
/// grows.
pub(crate) fn names(alloc: Global, tokens: &mut Cursor<'_>, turns: usize) -> Result<Vec<Text>, Stop>
    ensures { Reads (λ names. names.items) (λ names. 0) 0 (spec.names_at turns tokens.old) result tokens.new }
{
    let mut found = Vec::with_capacity(alloc, count_of_names(tokens))?;
    for _turn in 0..turns {
        match tokens.peek() {
            Some(TokenKind::Name) => {
                let name = to_text(alloc, tokens.take())?;
                found.push(name)?;
            }
            _ => return Err(Stop::Syntax),
        }
        match tokens.peek() {
            Some(TokenKind::Key(Key::CommaSign)) => tokens.skip(),
            _ => return Ok(found),
        }
    }
    Err(Stop::Syntax)
}

/// How many names there are with commas between: for so many there is made room, and no clause tells it.
fn count_of_names(tokens: &Cursor<'_>) -> usize {
    let mut ahead = tokens.mark();
    let most = tokens.left();
    for count in 0..most {
        if !matches!(ahead.peek(), Some(TokenKind::Name)) {
            return count;
        }
        ahead.skip();
        if !ahead.eat(Key::CommaSign) {
            return count + 1;
        }
    }
    most
}
