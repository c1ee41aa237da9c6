//! Reading expressions, and the parts of statements that hold expressions.

ghost use Rattle.std.specs.Prelude.{◌+◌, ◌<◌, ◌≤◌};
ghost use Rattle.ht_grammar.specs.Trees as t;
ghost use Rattle.ht_grammar.specs.Depth.{depths, chunk_depth, part_depth, ref_depth, selector_depth, max_depth};
ghost use Rattle.ht_grammar.specs.Reading as spec;
ghost use Rattle.ht_tree.specs.View.{exprs_of, chunk_of, part_of, ref_of, selector_of};
ghost use Rattle.ht_expressions.specs.Answer.{Reads, ReadsExpr};
ghost use Rattle.ht_expressions.specs.Nests.{IsRanked, level_of};

use crate::grammar::{Grammar, Level};
use ht_lex::{Cursor, Stop};
use ht_tree::{Chunk, Expr, Exprs, Part, Ref, Selector};
use std::alloc::Global;

/// An expression of at most `depth` levels, which ends before what can't belong to it. `Syntax` where the tokens begin
/// none, `Memory` where a growth was refused; the tokens are gone past in part then.
#[tactic(auto, using(crate::proofs::Deeper::none_read, crate::proofs::Deeper::read_deeper), unfolding(ht_grammar::specs::Reading::level_at))]
pub fn read(
    alloc: Global,
    tokens: &mut Cursor<'_>,
    level: Level,
    depth: usize,
) -> Result<Expr, Stop>
    requires shallow { depth ≤ max_depth }
    requires ranked { IsRanked level }
    ensures { ReadsExpr depth (spec.read depth (level_of level) tokens.old) result tokens.new }
{
    if depth == 0 {
        return Err(Stop::Syntax);
    }
    let grammar = Grammar {
        alloc,
        depth: depth - 1,
        read,
    };
    match level {
        Level::Primary => grammar.primary(tokens),
        Level::Factor => grammar.factor(tokens),
        Level::Prefixed => grammar.prefixed(tokens),
        Level::Power => grammar.power(tokens),
        Level::Rank(rank) => grammar.rank(tokens, rank),
    }
}

/// Expressions with commas between, at most `turns`.
pub fn arguments(
    alloc: Global,
    tokens: &mut Cursor<'_>,
    turns: usize,
    depth: usize,
) -> Result<Exprs, Stop>
    requires { depth ≤ max_depth }
    ensures { Reads (λ xs. exprs_of xs.items.items) depths depth
        (spec.list_at (spec.read depth) depth turns t.none tokens.old) result tokens.new }
{
    Grammar { alloc, depth, read }.list(tokens, turns)
}

/// Which pieces of a text, up to `of`.
pub fn chunk_head(alloc: Global, tokens: &mut Cursor<'_>, depth: usize) -> Result<Chunk, Stop>
    requires { depth ≤ max_depth }
    ensures { Reads chunk_of chunk_depth depth (spec.chunk_at (spec.read depth) depth tokens.old) result tokens.new }
{
    Grammar { alloc, depth, read }.chunk_head(tokens)
}

/// A button or a field, whose parts have at most `depth` levels.
pub fn part(alloc: Global, tokens: &mut Cursor<'_>, depth: usize) -> Result<Part, Stop>
    requires { depth ≤ max_depth }
    ensures { Reads part_of part_depth (depth + 1) (spec.part_at (spec.read depth) depth tokens.old) result tokens.new }
{
    Grammar { alloc, depth, read }.part(tokens)
}

/// A field, whose parts have at most `depth` levels.
pub fn field(alloc: Global, tokens: &mut Cursor<'_>, depth: usize) -> Result<Part, Stop>
    requires { depth ≤ max_depth }
    ensures { Reads part_of part_depth (depth + 1)
        (spec.field_at (spec.read depth) depth tokens.old) result tokens.new }
{
    Grammar { alloc, depth, read }.field(tokens)
}

/// A reference to an object, of at most `depth` levels.
pub fn reference(alloc: Global, tokens: &mut Cursor<'_>, depth: usize) -> Result<Ref, Stop>
    requires { depth ≤ max_depth }
    ensures { Reads ref_of ref_depth depth (spec.inner_ref (spec.read depth) depth tokens.old) result tokens.new }
{
    Grammar { alloc, depth, read }.inner_reference(tokens)
}

/// A card or a background, whose word is the second token or the first.
pub fn selector(alloc: Global, tokens: &mut Cursor<'_>, depth: usize) -> Result<Selector, Stop>
    requires { depth ≤ max_depth }
    ensures { Reads selector_of selector_depth depth (spec.selector_at (spec.read depth) depth tokens.old) result
        tokens.new }
{
    Grammar { alloc, depth, read }.selector(tokens)
}
