//! Expressions: operators, what stands before a factor, and primaries.

ghost use Rattle.std.specs.Prelude.{◌≡◌, ◌<◌, ◌≤◌, ◌+◌, length, true, Some};
ghost use Rattle.ht_values.specs.declared.text.TheConstants.{LIMIT};
ghost use Rattle.ht_lex.specs.Stops.{Gives};
ghost use Rattle.ht_lex.specs.Token.{first_kind, first_text, later};
ghost use Rattle.ht_lex.specs.declared.key.Key.TheVariants as k;
ghost use Rattle.ht_lex.specs.declared.key.TokenKind.TheVariants as kind;
ghost use Rattle.ht_grammar.specs.Trees as t;
ghost use Rattle.ht_grammar.specs.Depth.{depth, depths, max_depth};
ghost use Rattle.ht_grammar.specs.Expressions as e;
ghost use Rattle.ht_grammar.specs.Reading as spec;
ghost use Rattle.ht_tree.specs.View.{expr_of, exprs_of};
ghost use Rattle.ht_expressions.specs.Answer.{Reads, ReadsExpr};
ghost use Rattle.ht_expressions.specs.Fronts as f;
ghost use Rattle.ht_expressions.specs.Nests.{Nests};

use crate::grammar::{Grammar, LAST_RANK, Level, to_expr, to_name_expr};
use crate::operator::{EQUALITY, LeadingOperator, end_rank, leading_rank, take_operator};
use ht_lex::{Cursor, Key, Stop, TokenKind, to_text};
use ht_tree::{Expr, ExprKind, Exprs};
use ht_values::{Op, Text, UnOp, plain_number};
use std::alloc::Global;

/// Goes past a number. The numeral of one takes no memory.
#[inline(always)]
fn take_number(alloc: Global, tokens: &mut Cursor<'_>) -> Result<Expr, Stop>
    ensures value { Gives (t.number (first_text tokens.old)) result }
    ensures after { tokens.new ≡ later tokens.old }
{
    let digits = tokens.take();
    match plain_number(digits) {
        Some(number) => Ok(Expr::of_number(number)),
        None => other_digits(alloc, tokens, digits),
    }
}

/// The expression of digits that aren't the numeral of a number. They take no memory if the text shares them.
#[inline(never)]
fn other_digits(alloc: Global, tokens: &Cursor<'_>, digits: &[u8]) -> Result<Expr, Stop>
    requires { length digits.now ≤ LIMIT }
    ensures { Gives (t.number digits.now) result }
{
    match tokens.shared_name(alloc, digits) {
        Some(shared) => Ok(Expr::of_shared_digits(shared)),
        None => Ok(Expr::of_digits(alloc, to_text(alloc, digits)?)?),
    }
}

/// Goes past a text. It takes no memory if the text that is read shares it.
#[inline(always)]
fn take_quoted(alloc: Global, tokens: &mut Cursor<'_>) -> Result<Expr, Stop>
    ensures value { Gives (t.quoted (first_text tokens.old)) result }
    ensures after { tokens.new ≡ later tokens.old }
{
    let quoted = tokens.take();
    match tokens.shared_name(alloc, quoted) {
        Some(shared) => Ok(Expr::of_shared_quoted(shared)),
        None => Ok(Expr::of_quoted(alloc, to_text(alloc, quoted)?)?),
    }
}

/// Goes past a name that isn't called. It takes no memory if the text shares it.
#[inline(always)]
fn take_name(alloc: Global, tokens: &mut Cursor<'_>) -> Result<Expr, Stop>
    ensures value { Gives (t.name (first_text tokens.old)) result }
    ensures after { tokens.new ≡ later tokens.old }
{
    let name = tokens.take();
    match tokens.shared_name(alloc, name) {
        Some(name) => Ok(Expr::of_shared(name)),
        None => to_name_expr(alloc, name),
    }
}

/// The call of a name with these arguments. It takes less memory if the text shares the name.
fn called(alloc: Global, tokens: &Cursor<'_>, name: &[u8], arguments: Exprs) -> Result<Expr, Stop>
    requires short { length name.now ≤ LIMIT }
    requires fits { depth (t.call name.now (exprs_of arguments.items.items)) ≤ max_depth }
    ensures { Gives (t.call name.now (exprs_of arguments.items.items)) result }
{
    match tokens.shared_name(alloc, name) {
        Some(name) => Ok(Expr::call(alloc, name, arguments)?),
        None => {
            let name = to_text(alloc, name)?;
            to_expr(alloc, ExprKind::call(name, arguments))
        }
    }
}

/// Goes past the name of a call without arguments. It takes no memory if the text shares it.
fn take_bare_call(alloc: Global, tokens: &mut Cursor<'_>) -> Result<Expr, Stop>
    ensures value { Gives (t.call (first_text tokens.old) t.none) result }
    ensures after { tokens.new ≡ later tokens.old }
{
    let name = tokens.take();
    match tokens.shared_name(alloc, name) {
        Some(name) => Ok(Expr::bare_call(name)),
        None => {
            let name = to_text(alloc, name)?;
            to_expr(alloc, ExprKind::Call(name, Exprs::new(alloc)))
        }
    }
}

/// Whether nothing after a name or a literal goes on with it where operators up to this rank are read.
#[inline(always)]
fn is_lone(tokens: &Cursor<'_>, rank: u8) -> bool
    ensures { result ≡ true → rank < f.end_rank (first_kind (later tokens.now)) }
{
    rank < end_rank(tokens.second())
}

/// An expression, where `)` follows.
#[tactic(auto, unfolding(ht_grammar::specs::Reading::closed))]
#[inline(always)]
fn closed(tokens: &mut Cursor<'_>, expr: Expr) -> Result<Expr, Stop>
    ensures { ReadsExpr (depth expr) (spec.closed expr tokens.old) result tokens.new }
{
    match tokens.peek() {
        Some(TokenKind::Key(Key::RightParen)) => {
            tokens.skip();
            Ok(expr)
        }
        _ => Err(Stop::Syntax),
    }
}

impl<F: Fn(Global, &mut Cursor<'_>, Level, usize) -> Result<Expr, Stop>> Grammar<F> {
    /// A part with operators up to this rank. One of a single token, as most operands and most elements of long lists
    /// are, isn't read through the ranks.
    // In a list the rank is known, and then only what ends an element is looked for.
    #[tactic(auto, using(crate::proofs::Leaves::lone_number, crate::proofs::Leaves::lone_quoted, crate::proofs::Leaves::lone_name))]
    #[inline(always)]
    fn operand(&self, tokens: &mut Cursor<'_>, rank: u8) -> Result<Expr, Stop>
        requires nests { Nests self.now.depth (F.pre self.now.read) (F.post self.now.read) }
        requires ranked { rank ≤ 7 }
        ensures { ReadsExpr self.now.depth (spec.read self.now.depth (e.rank rank) tokens.old) result tokens.new }
    {
        if self.depth == 0 || !is_lone(tokens, rank) {
            return self.read(tokens, Level::Rank(rank));
        }
        match tokens.peek() {
            Some(TokenKind::Number) => take_number(self.alloc, tokens),
            Some(TokenKind::Quoted) => take_quoted(self.alloc, tokens),
            Some(TokenKind::Name) => take_name(self.alloc, tokens),
            _ => self.read(tokens, Level::Rank(rank)),
        }
    }

    /// Expressions with commas between, at most so many.
    pub(crate) fn list(&self, tokens: &mut Cursor<'_>, turns: usize) -> Result<Exprs, Stop>
        requires { Nests self.now.depth (F.pre self.now.read) (F.post self.now.read) }
        ensures { Reads (λ xs. exprs_of xs.items.items) depths self.now.depth
            (spec.list_at (spec.read self.now.depth) self.now.depth turns t.none tokens.old) result tokens.new }
    {
        let mut found = Exprs::new(self.alloc);
        for _turn in 0..turns {
            let expr = self.operand(tokens, LAST_RANK)?;
            found = found.with(expr)?;
            match tokens.peek() {
                Some(TokenKind::Key(Key::CommaSign)) => tokens.skip(),
                _ => return Ok(found.fitted()),
            }
        }
        Err(Stop::Syntax)
    }

    /// A call, at its name.
    fn call(&self, tokens: &mut Cursor<'_>) -> Result<Expr, Stop>
        requires nests { Nests self.now.depth (F.pre self.now.read) (F.post self.now.read) }
        requires shallow { self.now.depth < max_depth }
        ensures { ReadsExpr (self.now.depth + 1)
            (spec.call_by (spec.read self.now.depth) self.now.depth (first_kind (later (later tokens.old)))
            (first_text tokens.old) (later (later tokens.old))) result tokens.new }
    {
        match tokens.third() {
            Some(TokenKind::Key(Key::RightParen)) => {
                let call = take_bare_call(self.alloc, tokens)?;
                tokens.skip();
                tokens.skip();
                Ok(call)
            }
            _ => {
                let name = tokens.take();
                tokens.skip();
                let turns = tokens.left();
                let arguments = self.list(tokens, turns)?;
                let call = called(self.alloc, tokens, name, arguments)?;
                closed(tokens, call)
            }
        }
    }

    /// A name or a call, at its name.
    #[inline(always)]
    fn named(&self, tokens: &mut Cursor<'_>) -> Result<Expr, Stop>
        requires nests { Nests self.now.depth (F.pre self.now.read) (F.post self.now.read) }
        requires shallow { self.now.depth < max_depth }
        ensures { ReadsExpr (self.now.depth + 1)
            (spec.named_by (spec.read self.now.depth) self.now.depth (first_kind (later tokens.old))
            (first_text tokens.old) (later tokens.old)) result tokens.new }
    {
        match tokens.second() {
            Some(TokenKind::Key(Key::LeftParen)) => self.call(tokens),
            _ => take_name(self.alloc, tokens),
        }
    }

    /// An expression in parentheses, at the first of them.
    pub(crate) fn in_parens(&self, tokens: &mut Cursor<'_>) -> Result<Expr, Stop>
        requires nests { Nests self.now.depth (F.pre self.now.read) (F.post self.now.read) }
        requires shallow { self.now.depth < max_depth }
        ensures { ReadsExpr (self.now.depth + 1)
            (spec.primary_by (spec.read self.now.depth) self.now.depth (Some (kind.Key k.LeftParen)) tokens.old)
            result tokens.new }
    {
        tokens.skip();
        let inner = self.operand(tokens, LAST_RANK)?;
        let inner = Expr::in_parens(self.alloc, inner)?;
        closed(tokens, inner)
    }

    /// A literal, a constant, a name, a call or an expression in parentheses.
    #[tactic(auto, unfolding(ht_grammar::specs::Reading::primary_at))]
    pub(crate) fn primary(&self, tokens: &mut Cursor<'_>) -> Result<Expr, Stop>
        requires nests { Nests self.now.depth (F.pre self.now.read) (F.post self.now.read) }
        requires shallow { self.now.depth < max_depth }
        ensures { ReadsExpr (self.now.depth + 1) (spec.primary_at (spec.read self.now.depth) self.now.depth tokens.old)
            result tokens.new }
    {
        match tokens.peek() {
            Some(TokenKind::Number) => take_number(self.alloc, tokens),
            Some(TokenKind::Quoted) => take_quoted(self.alloc, tokens),
            Some(TokenKind::Name) => self.named(tokens),
            Some(TokenKind::Key(Key::LeftParen)) => self.in_parens(tokens),
            Some(TokenKind::Key(Key::Constant(constant))) => {
                tokens.skip();
                Ok(Expr::of_constant(constant))
            }
            Some(TokenKind::Key(Key::Return)) => {
                tokens.skip();
                to_expr(self.alloc, ExprKind::Return)
            }
            _ => Err(Stop::Syntax),
        }
    }

    /// An expression under a unary operator.
    pub(crate) fn unary(&self, tokens: &mut Cursor<'_>, op: UnOp) -> Result<Expr, Stop>
        requires nests { Nests self.now.depth (F.pre self.now.read) (F.post self.now.read) }
        requires shallow { self.now.depth < max_depth }
        ensures { ReadsExpr (self.now.depth + 1)
            (spec.made (t.unary op) (spec.read self.now.depth e.prefixed tokens.old)) result tokens.new }
    {
        let operand = self.read(tokens, Level::Prefixed)?;
        Ok(Expr::unary(self.alloc, op, operand)?)
    }

    /// `^` after its base: it joins from the right.
    #[tactic(auto, unfolding(ht_grammar::specs::Reading::power_end))]
    fn power_end(&self, tokens: &mut Cursor<'_>, base: Expr) -> Result<Expr, Stop>
        requires nests { Nests self.now.depth (F.pre self.now.read) (F.post self.now.read) }
        requires shallow { self.now.depth < max_depth }
        requires fits { depth base ≤ self.now.depth + 1 }
        ensures { ReadsExpr (self.now.depth + 1)
            (spec.power_end (spec.read self.now.depth) self.now.depth base tokens.old) result tokens.new }
    {
        match tokens.peek() {
            Some(TokenKind::Key(Key::Caret)) => {
                if base.depth() > self.depth {
                    return Err(Stop::Syntax);
                }
                tokens.skip();
                let exponent = self.read(tokens, Level::Power)?;
                self.binary(Op::Power, base, exponent)
            }
            _ => Ok(base),
        }
    }

    #[inline(always)]
    fn binary(&self, op: Op, left: Expr, right: Expr) -> Result<Expr, Stop>
        requires low { self.now.depth < max_depth }
        requires left { depth left ≤ self.now.depth }
        requires right { depth right ≤ self.now.depth }
        ensures { Gives (t.binary op left right) result }
    {
        Ok(Expr::binary(self.alloc, op, left, right)?)
    }

    /// A factor with what stands before it: nothing, where it is a name or a literal or is in parentheses.
    #[tactic(auto, unfolding(ht_grammar::specs::Reading::prefixed_at, ht_grammar::specs::Reading::factor_at, ht_grammar::specs::Reading::primary_at))]
    #[inline(always)]
    fn base(&self, tokens: &mut Cursor<'_>) -> Result<Expr, Stop>
        requires nests { Nests self.now.depth (F.pre self.now.read) (F.post self.now.read) }
        requires shallow { self.now.depth < max_depth }
        ensures { ReadsExpr (self.now.depth + 1) (spec.prefixed_at (spec.read self.now.depth) self.now.depth tokens.old)
            result tokens.new }
    {
        match tokens.peek() {
            Some(TokenKind::Name) => self.named(tokens),
            Some(TokenKind::Number) => self.primary(tokens),
            Some(TokenKind::Quoted) => self.primary(tokens),
            Some(TokenKind::Key(Key::LeftParen)) => self.in_parens(tokens),
            _ => self.prefixed(tokens),
        }
    }

    #[tactic(auto, unfolding(ht_grammar::specs::Reading::power_at))]
    pub(crate) fn power(&self, tokens: &mut Cursor<'_>) -> Result<Expr, Stop>
        requires nests { Nests self.now.depth (F.pre self.now.read) (F.post self.now.read) }
        requires shallow { self.now.depth < max_depth }
        ensures { ReadsExpr (self.now.depth + 1) (spec.power_at (spec.read self.now.depth) self.now.depth tokens.old)
            result tokens.new }
    {
        let base = self.base(tokens)?;
        self.power_end(tokens, base)
    }

    /// Joins what comes after an operator of rank `below + 1`.
    #[tactic(auto, unfolding(ht_grammar::specs::Reading::join_at))]
    fn join(&self, tokens: &mut Cursor<'_>, below: u8, op: Op, left: Expr) -> Result<Expr, Stop>
        requires nests { Nests self.now.depth (F.pre self.now.read) (F.post self.now.read) }
        requires shallow { self.now.depth < max_depth }
        requires ranked { below < 7 }
        ensures { ReadsExpr (self.now.depth + 1)
            (spec.join_at (spec.read self.now.depth) self.now.depth below op left tokens.old) result tokens.new }
    {
        if left.depth() > self.depth {
            return Err(Stop::Syntax);
        }
        let right = self.operand(tokens, below)?;
        self.binary(op, left, right)
    }

    /// Asks for the type of what comes before.
    #[tactic(auto, unfolding(ht_grammar::specs::Reading::asked_at))]
    fn asked(&self, tokens: &Cursor<'_>, op: UnOp, left: Expr) -> Result<Expr, Stop>
        requires { self.now.depth < max_depth }
        ensures { ReadsExpr (self.now.depth + 1)
            (spec.asked_at (spec.read self.now.depth) self.now.depth op left tokens.now) result tokens.now }
    {
        if left.depth() > self.depth {
            return Err(Stop::Syntax);
        }
        Ok(Expr::unary(self.alloc, op, left)?)
    }

    /// Joins operators of rank `below + 1` from the left.
    fn chain(&self, tokens: &mut Cursor<'_>, below: u8, first: Expr) -> Result<Expr, Stop>
        requires nests { Nests self.now.depth (F.pre self.now.read) (F.post self.now.read) }
        requires shallow { self.now.depth < max_depth }
        requires ranked { below < 7 }
        requires fits { depth first ≤ self.now.depth + 1 }
        ensures { ReadsExpr (self.now.depth + 1)
            (spec.chain_at (spec.read self.now.depth) self.now.depth below (self.now.depth + 2) first tokens.old) result
            tokens.new }
    {
        let mut left = first;
        for _turn in 0..self.depth + 2 {
            let before = tokens.mark();
            match take_operator(tokens) {
                LeadingOperator::Infix(rank, op) if rank == below + 1 => {
                    left = self.join(tokens, below, op, left)?;
                }
                LeadingOperator::Test(op) if EQUALITY == below + 1 => {
                    left = self.asked(tokens, op, left)?;
                }
                _ => {
                    *tokens = before;
                    return Ok(left.fitted());
                }
            }
        }
        Err(Stop::Syntax)
    }

    /// Operators up to this rank. A rank is joined only where an operator of it comes, since most expressions have few
    /// or none.
    pub(crate) fn rank(&self, tokens: &mut Cursor<'_>, rank: u8) -> Result<Expr, Stop>
        requires nests { Nests self.now.depth (F.pre self.now.read) (F.post self.now.read) }
        requires shallow { self.now.depth < max_depth }
        requires ranked { rank ≤ 7 }
        ensures { ReadsExpr (self.now.depth + 1)
            (spec.rank_at (spec.read self.now.depth) self.now.depth rank tokens.old) result tokens.new }
    {
        let mut left = self.power(tokens)?;
        let mut next = leading_rank(tokens);
        if rank < next {
            return Ok(left);
        }
        for below in 0..rank {
            if next == below + 1 {
                left = self.chain(tokens, below, left)?;
                next = leading_rank(tokens);
            }
        }
        Ok(left)
    }
}
