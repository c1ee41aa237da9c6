//! Statements over several lines.

ghost use Rattle.std.specs.Prelude.{◌≡◌, ◌<◌, ◌≤◌, ◌+◌, Some, true};
ghost use Rattle.ht_lex.specs.declared.key.Key.TheVariants as k;
ghost use Rattle.ht_lex.specs.Stops.{Gives};
ghost use Rattle.ht_lex.specs.Token.{first_kind, later, is_key};
ghost use Rattle.ht_grammar.specs.Statements as s;
ghost use Rattle.ht_grammar.specs.Depth.{depth, head_depth, stmt_depth, stmts_depth, max_depth};
ghost use Rattle.ht_grammar.specs.Expressions as e;
ghost use Rattle.ht_grammar.specs.Reading as r;
ghost use Rattle.ht_grammar.specs.Lines as spec;
ghost use Rattle.ht_grammar.specs.Ends as ends;
ghost use Rattle.ht_grammar.specs.Grammar.{at_large, inside_repeat};
ghost use Rattle.ht_tree.specs.StatementView.{head_of, stmts_of};
ghost use Rattle.ht_expressions.specs.Answer.{Reads};
ghost use Rattle.ht_parse.specs.Contexts.{context_of};
ghost use Rattle.ht_parse.specs.Answer.{GivesLines};
ghost use Rattle.ht_parse.specs.Blocks.{statement_of, else_if_of};

use crate::context::Context;
use crate::line_words::{
    begins_simple, begins_statement, eat_ends, skip_ends, skip_for, skip_times,
};
use crate::simple::Simple;
use ht_lex::{Cursor, Key, Stop, TokenKind, is_same, to_name};
use ht_tree::{Branches, Counting, Expr, Head, Stmt, StmtKind, Stmts};
use ht_values::Name;
use std::alloc::Global;

impl Simple {
    /// The bound of a counted repeat, after `to`.
    fn counted_up(&self, tokens: &mut Cursor<'_>, name: Name, from: Expr) -> Result<Head, Stop>
        requires shallow { self.now.depth < max_depth }
        requires fits { depth from ≤ self.now.depth }
        ensures { Reads head_of head_depth self.now.depth
            (r.made (s.counted_up name from) (r.read self.now.depth e.whole tokens.old)) result tokens.new }
    {
        let to = self.expr(tokens)?;
        let counting = Counting { name, from, to };
        Ok(Head::CountedUp(Box::new(self.alloc, counting)?))
    }

    /// The bound of a counted repeat, after `down`.
    fn counted_down(&self, tokens: &mut Cursor<'_>, name: Name, from: Expr) -> Result<Head, Stop>
        requires shallow { self.now.depth < max_depth }
        requires fits { depth from ≤ self.now.depth }
        ensures { Reads head_of head_depth self.now.depth
            (spec.after_key k.To (λ m. r.made (s.counted_down name from) (r.read self.now.depth e.whole m)) tokens.old)
            result tokens.new }
    {
        let to = self.value_after(tokens, Key::To)?;
        let counting = Counting { name, from, to };
        Ok(Head::CountedDown(Box::new(self.alloc, counting)?))
    }

    /// The bound of a counted repeat, after its first number.
    fn bound(&self, tokens: &mut Cursor<'_>, name: Name, from: Expr) -> Result<Head, Stop>
        requires shallow { self.now.depth < max_depth }
        requires fits { depth from ≤ self.now.depth }
        ensures { Reads head_of head_depth self.now.depth
            (spec.bound_by self.now.depth at_large name from (first_kind tokens.old) tokens.old) result tokens.new }
    {
        match tokens.peek() {
            Some(TokenKind::Key(Key::To)) => {
                tokens.skip();
                self.counted_up(tokens, name, from)
            }
            Some(TokenKind::Name) => {
                if is_same(tokens.take(), b"down") {
                    self.counted_down(tokens, name, from)
                } else {
                    Err(Stop::Syntax)
                }
            }
            _ => Err(Stop::Syntax),
        }
    }

    /// A counted repeat, after `with`.
    fn counted(&self, tokens: &mut Cursor<'_>) -> Result<Head, Stop>
        requires { self.now.depth < max_depth }
        ensures { Reads head_of head_depth self.now.depth
            (spec.with_by self.now.depth at_large (first_kind tokens.old) tokens.old) result tokens.new }
    {
        match tokens.peek() {
            Some(TokenKind::Name) => {
                let name = to_name(self.alloc, tokens.take())?;
                let from = self.value_after(tokens, Key::Equal)?;
                self.bound(tokens, name, from)
            }
            _ => Err(Stop::Syntax),
        }
    }

    /// How often, after `repeat`.
    #[tactic(auto, unfolding(ht_grammar::specs::Lines::head_at))]
    fn head(&self, tokens: &mut Cursor<'_>) -> Result<Head, Stop>
        requires { self.now.depth < max_depth }
        ensures { Reads head_of head_depth self.now.depth (spec.head_at self.now.depth at_large tokens.old) result
            tokens.new }
    {
        match tokens.peek() {
            None => Ok(Head::Forever),
            Some(TokenKind::Eol) => Ok(Head::Forever),
            Some(TokenKind::Key(Key::Forever)) => {
                tokens.skip();
                Ok(Head::Forever)
            }
            Some(TokenKind::Key(Key::While)) => {
                tokens.skip();
                Ok(Head::While(self.expr(tokens)?))
            }
            Some(TokenKind::Key(Key::Until)) => {
                tokens.skip();
                Ok(Head::Until(self.expr(tokens)?))
            }
            Some(TokenKind::Key(Key::With)) => {
                tokens.skip();
                self.counted(tokens)
            }
            _ => {
                skip_for(tokens);
                let times = self.expr(tokens)?;
                skip_times(tokens);
                Ok(Head::Times(times))
            }
        }
    }

    /// A statement of at most `depth` levels.
    fn within(&self, tokens: &mut Cursor<'_>, context: Context<'_>) -> Result<Stmt, Stop>
        requires { self.now.depth < max_depth }
        ensures { Reads (λ x. x) stmt_depth self.now.depth
            (spec.simple_within self.now.depth (context_of context.entry) tokens.old) result tokens.new }
    {
        if self.depth == 0 {
            return Err(Stop::Syntax);
        }
        Simple {
            alloc: self.alloc,
            depth: self.depth - 1,
            place: tokens.place(),
        }
        .statement(tokens, context)
    }

    /// The statements of one line.
    fn one(&self, stmt: Stmt) -> Result<Stmts, Stop>
        ensures { GivesLines (s.also stmt s.stop) result }
    {
        Ok(Stmts::new(self.alloc).with(stmt)?.fitted())
    }

    /// What is done if a condition holds, and what is done otherwise.
    fn when(&self, condition: Expr, lines: Stmts, otherwise: Stmts) -> Result<Stmt, Stop>
        requires shallow { self.now.depth < max_depth }
        requires condition { depth condition ≤ self.now.depth }
        requires lines { stmts_depth (stmts_of lines.items.items) ≤ self.now.depth }
        requires otherwise { stmts_depth (stmts_of otherwise.items.items) ≤ self.now.depth }
        ensures { Gives (s.when condition (stmts_of lines.items.items) (stmts_of otherwise.items.items)) result }
    {
        let branches = Box::new(self.alloc, Branches { lines, otherwise })?;
        self.stmt(StmtKind::When(condition, branches))
    }

    /// An `else` after a statement on the line of `then`, where a statement stands on its line.
    fn short_end(
        &self,
        tokens: &mut Cursor<'_>,
        context: Context<'_>,
        condition: Expr,
        stmt: Stmt,
    ) -> Result<Stmt, Stop>
        requires shallow { self.now.depth < max_depth }
        requires condition { depth condition ≤ self.now.depth }
        requires stmt { stmt_depth stmt ≤ self.now.depth }
        ensures { Reads (λ x. x) stmt_depth (self.now.depth + 1)
            (spec.short_end (spec.blocks self.now.depth) self.now.depth (context_of context.entry) condition stmt
            tokens.old) result tokens.new }
    {
        let lines = self.one(stmt)?;
        let before = tokens.mark();
        skip_ends(tokens);
        if tokens.is_at(Key::Else) && begins_simple(tokens.second()) {
            tokens.skip();
            let otherwise = self.one(self.within(tokens, context)?)?;
            return self.when(condition, lines, otherwise);
        }
        *tokens = before;
        let otherwise = Stmts::new(self.alloc);
        self.when(condition, lines, otherwise)
    }
}

/// Goes past ends of lines and `then`.
fn expect_then(tokens: &mut Cursor<'_>) -> bool
    ensures there { result ≡ is_key k.Then (first_kind (ends.past_ends tokens.old)) }
    ensures past { result ≡ true → tokens.new ≡ later (ends.past_ends tokens.old) }
{
    skip_ends(tokens);
    tokens.eat(Key::Then)
}

/// Lines of statements of at most `depth` levels, as many as there are.
#[cycle(lines)]
pub(crate) fn lines(
    alloc: Global,
    tokens: &mut Cursor<'_>,
    context: Context<'_>,
    depth: usize,
) -> Result<Stmts, Stop>
    requires { depth ≤ max_depth }
    ensures { Reads (λ x. stmts_of x.items.items) stmts_depth depth
        (spec.blocks depth spec.lines (context_of context.entry) tokens.old) result tokens.new }
{
    let mut found = Stmts::new(alloc);
    for _turn in 0..tokens.left() + 1 {
        if !begins_statement(tokens.peek()) {
            return Ok(found.fitted());
        }
        let stmt = statement(alloc, tokens, context, depth)?;
        if !eat_ends(tokens) {
            return Err(Stop::Syntax);
        }
        found = found.with(stmt)?;
    }
    Err(Stop::Syntax)
}

/// A statement of at most `depth` levels.
#[cycle(lines)]
#[tactic(auto, using(crate::proofs::Deeper::no_statement, crate::proofs::Deeper::statement_deeper), unfolding(ht_grammar::specs::Lines::stmt_at))]
fn statement(
    alloc: Global,
    tokens: &mut Cursor<'_>,
    context: Context<'_>,
    depth: usize,
) -> Result<Stmt, Stop>
    requires { depth ≤ max_depth }
    ensures { Reads (λ x. x) stmt_depth depth (statement_of depth (context_of context.entry) tokens.old) result
        tokens.new }
{
    if depth == 0 {
        return Err(Stop::Syntax);
    }
    let rules = Simple {
        alloc,
        depth: depth - 1,
        place: tokens.place(),
    };
    match tokens.peek() {
        Some(TokenKind::Key(Key::If)) => {
            tokens.skip();
            when(rules, tokens, context)
        }
        Some(TokenKind::Key(Key::Repeat)) => {
            tokens.skip();
            repeat(rules, tokens, context)
        }
        _ => rules.statement(tokens, context),
    }
}

/// After `if`.
#[cycle(lines)]
fn when(rules: Simple, tokens: &mut Cursor<'_>, context: Context<'_>) -> Result<Stmt, Stop>
    requires { rules.depth < max_depth }
    ensures { Reads (λ x. x) stmt_depth (rules.depth + 1)
        (r.and_then (r.read rules.depth e.whole tokens.old)
        (λ c. spec.then_at (λ m. spec.then_by (spec.blocks rules.depth) rules.depth (context_of context.entry)
        (first_kind m) c m))) result tokens.new }
{
    let condition = rules.expr(tokens)?;
    if !expect_then(tokens) {
        return Err(Stop::Syntax);
    }
    then_part(rules, tokens, context, condition)
}

/// After `then`.
#[cycle(lines)]
fn then_part(
    rules: Simple,
    tokens: &mut Cursor<'_>,
    context: Context<'_>,
    condition: Expr,
) -> Result<Stmt, Stop>
    requires shallow { rules.depth < max_depth }
    requires fits { depth condition ≤ rules.depth }
    ensures { Reads (λ x. x) stmt_depth (rules.depth + 1)
        (spec.then_by (spec.blocks rules.depth) rules.depth (context_of context.entry) (first_kind tokens.old) condition
        tokens.old) result tokens.new }
{
    match tokens.peek() {
        None => long(rules, tokens, context, condition),
        Some(TokenKind::Eol) => long(rules, tokens, context, condition),
        _ => {
            let stmt = rules.within(tokens, context)?;
            rules.short_end(tokens, context, condition, stmt)
        }
    }
}

/// The lines of `then`, from the end of its line up to `end if`.
#[cycle(lines)]
fn long(
    rules: Simple,
    tokens: &mut Cursor<'_>,
    context: Context<'_>,
    condition: Expr,
) -> Result<Stmt, Stop>
    requires shallow { rules.depth < max_depth }
    requires fits { depth condition ≤ rules.depth }
    ensures { Reads (λ x. x) stmt_depth (rules.depth + 1)
        (spec.long_at (spec.blocks rules.depth) rules.depth (context_of context.entry) condition tokens.old) result
        tokens.new }
{
    if !eat_ends(tokens) {
        return Err(Stop::Syntax);
    }
    let then_lines = lines(rules.alloc, tokens, context, rules.depth)?;
    let else_lines = otherwise(rules.alloc, tokens, context, rules.depth)?;
    rules.when(condition, then_lines, else_lines)
}

/// After `repeat`.
#[cycle(lines)]
#[tactic(auto, unfolding(ht_grammar::specs::Lines::head_at))]
fn repeat(rules: Simple, tokens: &mut Cursor<'_>, context: Context<'_>) -> Result<Stmt, Stop>
    requires { rules.depth < max_depth }
    ensures { Reads (λ x. x) stmt_depth (rules.depth + 1)
        (r.and_then (spec.head_at rules.depth (context_of context.entry) tokens.old)
        (λ h m. spec.ended_then (ends.ended m)
        (λ l. r.and_then (spec.blocks rules.depth spec.lines (inside_repeat (context_of context.entry)) l)
        (λ ss. spec.after_key k.End (spec.after_key k.Repeat (λ c. Some (s.repeat h ss, c))))))) result tokens.new }
{
    let head = rules.head(tokens)?;
    if !eat_ends(tokens) {
        return Err(Stop::Syntax);
    }
    let body = lines(rules.alloc, tokens, context.inside_repeat(), rules.depth)?;
    if !tokens.eat(Key::End) {
        return Err(Stop::Syntax);
    }
    if !tokens.eat(Key::Repeat) {
        return Err(Stop::Syntax);
    }
    rules.stmt(StmtKind::Repeat(head, body))
}

/// What comes after the lines of `then`, up to `end if`.
#[cycle(lines)]
#[tactic(auto, using(crate::proofs::Deeper::otherwise_of))]
fn otherwise(
    alloc: Global,
    tokens: &mut Cursor<'_>,
    context: Context<'_>,
    depth: usize,
) -> Result<Stmts, Stop>
    requires { depth ≤ max_depth }
    ensures { Reads (λ x. stmts_of x.items.items) stmts_depth depth
        (spec.blocks depth spec.otherwise (context_of context.entry) tokens.old) result tokens.new }
{
    match tokens.peek() {
        Some(TokenKind::Key(Key::End)) => {
            tokens.skip();
            if !tokens.eat(Key::If) {
                return Err(Stop::Syntax);
            }
            Ok(Stmts::new(alloc))
        }
        Some(TokenKind::Key(Key::Else)) => {
            tokens.skip();
            else_part(alloc, tokens, context, depth)
        }
        _ => Err(Stop::Syntax),
    }
}

/// After `else`.
#[cycle(lines)]
#[tactic(auto, using(crate::proofs::Deeper::lines_of))]
fn else_part(
    alloc: Global,
    tokens: &mut Cursor<'_>,
    context: Context<'_>,
    depth: usize,
) -> Result<Stmts, Stop>
    requires { depth ≤ max_depth }
    ensures { Reads (λ x. stmts_of x.items.items) stmts_depth depth
        (spec.else_by (statement_of depth) (else_if_of depth) (first_kind tokens.old) (context_of context.entry)
        tokens.old) result tokens.new }
{
    match tokens.peek() {
        Some(TokenKind::Key(Key::If)) => {
            tokens.skip();
            let stmt = else_if(alloc, tokens, context, depth)?;
            Ok(Stmts::new(alloc).with(stmt)?.fitted())
        }
        _ => {
            if !eat_ends(tokens) {
                return Err(Stop::Syntax);
            }
            let found = lines(alloc, tokens, context, depth)?;
            if !tokens.eat(Key::End) {
                return Err(Stop::Syntax);
            }
            if !tokens.eat(Key::If) {
                return Err(Stop::Syntax);
            }
            Ok(found)
        }
    }
}

/// After `else if`.
#[cycle(lines)]
#[tactic(auto, using(crate::proofs::Deeper::no_else_if, crate::proofs::Deeper::else_if_deeper))]
fn else_if(
    alloc: Global,
    tokens: &mut Cursor<'_>,
    context: Context<'_>,
    depth: usize,
) -> Result<Stmt, Stop>
    requires { depth ≤ max_depth }
    ensures { Reads (λ x. x) stmt_depth depth
        (else_if_of depth (context_of context.entry) tokens.old) result tokens.new }
{
    if depth == 0 {
        return Err(Stop::Syntax);
    }
    let rules = Simple {
        alloc,
        depth: depth - 1,
        place: tokens.place(),
    };
    let condition = rules.expr(tokens)?;
    if !expect_then(tokens) {
        return Err(Stop::Syntax);
    }
    long(rules, tokens, context, condition)
}
