//! The rules take the reader of an expression's parts as a parameter, so that each is proved by itself.

ghost use Rattle.std.specs.Prelude.{◌<◌, ◌≤◌, ◌+◌, length};
ghost use Rattle.ht_values.specs.declared.text.TheConstants.{LIMIT};
ghost use Rattle.ht_lex.specs.Stops.{Gives};
ghost use Rattle.ht_grammar.specs.Trees as t;
ghost use Rattle.ht_grammar.specs.Depth.{depth, max_depth};
ghost use Rattle.ht_grammar.specs.Reading as spec;
ghost use Rattle.ht_tree.specs.View.{expr_of};
ghost use Rattle.ht_expressions.specs.Answer.{ReadsExpr};
ghost use Rattle.ht_expressions.specs.Nests.{Nests, IsRanked, level_of};

use ht_lex::{Cursor, Stop, to_name};
use ht_tree::{Expr, ExprKind};
use std::alloc::Global;

/// A part of the grammar that is read as an expression.
#[derive(Clone, Copy, Debug)]
pub enum Level {
    /// Operators up to this rank, from 0 to 7.
    Rank(u8),
    Power,
    Prefixed,
    Factor,
    Primary,
}

/// The rank of the operators that join last.
pub(crate) const LAST_RANK: u8 = 7;

/// A whole expression.
pub const WHOLE: Level = Level::Rank(LAST_RANK);

/// The expression of this kind, unless memory is refused.
#[inline(always)]
pub(crate) fn to_expr(alloc: Global, kind: ExprKind) -> Result<Expr, Stop>
    requires { depth (expr_of kind) ≤ max_depth }
    ensures { Gives (expr_of kind) result }
{
    Ok(Expr::new(alloc, kind)?)
}

/// The expression of a name of these bytes, unless memory is refused.
pub(crate) fn to_name_expr(alloc: Global, bytes: &[u8]) -> Result<Expr, Stop>
    requires { length bytes.now ≤ LIMIT }
    ensures { Gives (t.name bytes.now) result }
{
    let name = to_name(alloc, bytes)?;
    Ok(Expr::of_name(alloc, name)?)
}

/// The rules of expressions with at most `depth + 1` levels, whose parts `read` reads.
#[derive(Clone, Copy)]
pub(crate) struct Grammar<F> {
    pub alloc: Global,
    /// How many levels a part may have.
    pub depth: usize,
    pub read: F,
}

impl<F: Fn(Global, &mut Cursor<'_>, Level, usize) -> Result<Expr, Stop>> Grammar<F> {
    /// A part of an expression.
    pub(crate) fn read(&self, tokens: &mut Cursor<'_>, level: Level) -> Result<Expr, Stop>
        requires nests { Nests self.now.depth (F.pre self.now.read) (F.post self.now.read) }
        requires ranked { IsRanked level }
        ensures { ReadsExpr self.now.depth (spec.read self.now.depth (level_of level) tokens.old) result tokens.new }
    {
        (self.read)(self.alloc, tokens, level, self.depth)
    }
}
