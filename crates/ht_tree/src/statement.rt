//! Statements.

ghost use Rattle.std.specs.Prelude.{◌≡◌, ◌+◌, ◌≤◌, max, IfOk};
ghost use Rattle.ht_grammar.specs.Statements as s;
ghost use Rattle.ht_grammar.specs.Trees as tree;
ghost use Rattle.ht_grammar.specs.Depth.{depth as expr_depth, destination_depth, head_depth, stmt_depth, stmts_depth};
ghost use Rattle.ht_grammar.specs.Depth.{max_depth};
ghost use Rattle.ht_tree.specs.View.{exprs_of};
ghost use Rattle.ht_tree.specs.StatementView.{destination_of, form_of, head_of, stmt_of, stmts_of, with_stmt};

use crate::call::{CallOf, CallWith};
use crate::chunk::Chunk;
use crate::container::Container;
use crate::expr::{Expr, Exprs, FEW};
use crate::reference::{Ref, Selector};
use ht_grammar::RunProp;
use ht_values::{Name, Prop, Text, Where};
use std::alloc::{AllocError, Global};
use std::marker::Model;
use std::rc::Rc;

/// Names of variables, one after another.
#[derive(Drop)]
pub struct Names {
    pub items: Vec<Name>,
}

/// Where `go` goes.
pub enum Destination {
    ToCard(Selector),
    ToBackground(Selector),
}

/// Written here and not derived, so that no crate above proves anew how it is dropped.
impl Drop for Destination {
    fn drop(self) {
        match self {
            Destination::ToCard(_) => {}
            Destination::ToBackground(_) => {}
        }
    }
}

/// How often `repeat` does its lines.
pub enum Head {
    Forever,
    Times(Expr),
    While(Expr),
    Until(Expr),
    /// From the first number up to the second.
    CountedUp(Box<Counting>),
    /// From the first number down to the second.
    CountedDown(Box<Counting>),
}

/// The variable of a counted repeat, and the numbers from which and to which it counts.
pub struct Counting {
    pub name: Name,
    pub from: Expr,
    pub to: Expr,
}

/// Written here and not derived, so that no crate above proves anew how it is dropped.
impl Drop for Counting {
    fn drop(self) {
        let Counting {
            name: _,
            from: _,
            to: _,
        } = self;
    }
}

/// Written here and not derived, so that no crate above proves anew how it is dropped.
impl Drop for Head {
    fn drop(self) {
        match self {
            Head::Forever => {}
            Head::Times(_) => {}
            Head::While(_) => {}
            Head::Until(_) => {}
            Head::CountedUp(_) => {}
            Head::CountedDown(_) => {}
        }
    }
}

/// A statement, at most 100 levels deep. It remembers where it stands in its text, which contracts don't see.
#[cycle(statement)]
pub struct Stmt {
    form: Form,
}

/// How a statement is kept, with its place, and beside its depth.
#[cycle(statement)]
#[derive(Drop)]
enum Form {
    /// A command without arguments, whose name others may have too.
    Bare(u32, Rc<Name>),
    /// A command with one argument, by such a name.
    CommandOf(u8, u32, Box<CallOf>),
    /// A command with several arguments, by such a name.
    Command(u8, u32, Box<CallWith>),
    Kind(u8, u32, Box<StmtKind>),
}

/// What a statement is, to look at.
#[derive(Clone, Copy)]
pub enum StmtForm<'a> {
    /// A command without arguments, by its name.
    Bare(&'a Name),
    /// A command with one argument.
    CommandOf(&'a CallOf),
    /// A command with several arguments.
    Command(&'a CallWith),
    Kind(&'a StmtKind),
}

/// Written here and not derived, so that no crate above proves anew how a tree is dropped.
impl Drop for Stmt {
    #[cycle(statement)]
    fn drop(self) {
        let Stmt { form: _ } = self;
    }
}

/// What a statement is, with its parts. A command is of this kind too, if its name isn't shared.
#[cycle(statement)]
#[derive(Drop)]
pub enum StmtKind {
    /// `put` alone, which shows a line.
    Put(Expr),
    PutIn(Where, Expr, Container),
    Get(Expr),
    Set(Prop, Box<Ref>, Expr),
    SetRun(RunProp, Expr),
    Add(Expr, Container),
    Subtract(Expr, Container),
    Multiply(Container, Expr),
    Divide(Container, Expr),
    /// Pieces of a container's text are deleted.
    Delete(Chunk, Container),
    Do(Expr),
    Send(Expr, Box<Ref>),
    Go(Destination),
    /// One name or more.
    Global(Names),
    ExitRepeat,
    NextRepeat,
    ExitToHyperCard,
    Exit(Text),
    Pass(Text),
    ReturnNothing,
    ReturnValue(Expr),
    Command(Text, Exprs),
    /// A command with one argument.
    CommandOf(Text, Expr),
    /// `if`.
    When(Expr, Box<Branches>),
    Repeat(Head, Stmts),
}

/// Most statements are of small kinds, and each takes the room of the largest.
const _: () = prove!(
    size_of::<Stmt>() <= 16 && size_of::<StmtKind>() <= 56 && size_of::<CallWith>() <= 40
);

/// What is done if a condition holds, and what is done otherwise.
#[cycle(statement)]
#[derive(Drop)]
pub struct Branches {
    pub lines: Stmts,
    pub otherwise: Stmts,
}

/// Statements, one after another.
#[cycle(statement)]
#[derive(Drop)]
pub struct Stmts {
    pub items: Vec<Stmt>,
}

impl Model for Stmt {
    ghost use Rattle.ht_grammar.specs.Statements as s;

    ghost Value = { s.Stmt };

    ghost use Rattle.std.specs.Prelude.{List, []};
    ghost use Rattle.std.specs.Coded.{codes, code_by};
    ghost use Rattle.std.proofs.Common.{ap};
    ghost use Rattle.ht_tree.specs.contracts.expr.Expr as expr;
    ghost use Rattle.ht_tree.specs.contracts.container.Container as container;
    ghost use Rattle.ht_tree.specs.Codes.{coded_exprs, coded_chunk, coded_selector, coded_ref};
    ghost use Rattle.ht_tree.specs.StatementCode.{Mark, run, stmt_on, stmt_marks, stmt_back};

    ghost coded = { code_by (List Mark)
        (Prim.hlevel (
          codes,
          expr.the_row.coded,
          container.the_row.coded,
          coded_exprs (Prim.hlevel codes),
          coded_chunk
              (Prim.hlevel codes),
          coded_selector (Prim.hlevel codes),
          coded_ref (Prim.hlevel codes),
        )) (λ x. stmt_marks x [])
        (λ ms. stmt_on (run ms [])) (λ x. ap stmt_on (stmt_back x [] [])) };

    ghost use Rattle.ht_grammar.specs.Depth.{stmt_depth};
    ghost use Rattle.ht_tree.specs.StatementView.{kept_stmt, knows_depth};

    ghost view = { λ x. kept_stmt x.form };

    ghost invariant = { λ x. knows_depth x.form };

    ghost size = { stmt_depth };

    ghost use Rattle.ht_tree.specs.StatementFalls.{form_falls};

    ghost size_decreases = { λ x h. form_falls x.form };
}

impl Names {
    /// The names of these spellings. An error where memory was refused.
    pub fn new(alloc: Global, spellings: &[Text]) -> Result<Names, AllocError>
        ensures { IfOk result (λ names. names.items.items ≡ spellings.now) }
    {
        let mut items = Vec::with_capacity(alloc, spellings.len())?;
        for spelling in spellings {
            let copy = spelling.try_clone(alloc)?;
            items.push(Name::new(alloc, copy)?)?;
        }
        Ok(Names { items })
    }
}

impl Destination {
    /// One more than the depth of its card or background.
    pub fn depth(&self) -> usize
        ensures value { result ≡ destination_depth (destination_of self.now) }
        ensures limit { result ≤ max_depth + 1 }
    {
        match self {
            Destination::ToCard(selector) => selector.depth() + 1,
            Destination::ToBackground(selector) => selector.depth() + 1,
        }
    }
}

impl Head {
    /// The depth of its deepest expression, 0 where there is none.
    pub fn depth(&self) -> usize
        ensures value { result ≡ head_depth (head_of self.now) }
        ensures limit { result ≤ max_depth }
    {
        match self {
            Head::Forever => 0,
            Head::Times(times) => times.depth(),
            Head::While(condition) => condition.depth(),
            Head::Until(condition) => condition.depth(),
            Head::CountedUp(counting) => counting.depth(),
            Head::CountedDown(counting) => counting.depth(),
        }
    }
}

impl Counting {
    fn depth(&self) -> usize
        ensures value { result ≡ max (expr_depth self.now.from) (expr_depth self.now.to) }
        ensures limit { result ≤ max_depth }
    {
        self.from.depth().max(self.to.depth())
    }
}

impl Stmt {
    /// The command of this name, without arguments, and where it begins, in bytes from the beginning of its text. It
    /// takes no memory.
    pub fn bare(name: Rc<Name>, place: usize) -> Stmt
        ensures { result ≡ s.command name.value tree.none }
    {
        Stmt {
            form: Form::Bare(kept_place(place), name),
        }
    }

    /// The command of this name with these arguments, which is at most 100 levels deep, and where it begins, in bytes
    /// from the beginning of its text.
    pub fn command(
        alloc: Global,
        name: Rc<Name>,
        arguments: Exprs,
        place: usize,
    ) -> Result<Stmt, AllocError>
        requires { stmt_depth (s.command name.value (exprs_of arguments.items.items)) ≤ max_depth }
        ensures { IfOk result (λ made. made ≡ s.command name.value (exprs_of arguments.items.items)) }
    {
        let depth = (arguments.depth() + 1) as u8;
        let place = kept_place(place);
        let form = match arguments.only() {
            Ok(argument) => {
                Form::CommandOf(depth, place, Box::new(alloc, CallOf { name, argument })?)
            }
            Err(arguments) => {
                Form::Command(depth, place, Box::new(alloc, CallWith { name, arguments })?)
            }
        };
        Ok(Stmt { form })
    }

    /// The statement of a kind, which is at most 100 levels deep, and where it begins, in bytes from the beginning of
    /// its text.
    pub fn new(alloc: Global, kind: StmtKind, place: usize) -> Result<Stmt, AllocError>
        requires { stmt_depth (stmt_of kind) ≤ max_depth }
        ensures { IfOk result (λ made. made ≡ stmt_of kind) }
    {
        let depth = kind.depth() as u8;
        Ok(Stmt {
            form: Form::Kind(depth, kept_place(place), Box::new(alloc, kind)?),
        })
    }

    /// What it is, with its parts.
    #[inline(always)]
    pub fn form(&self) -> StmtForm<'_>
        ensures { form_of result ≡ self.now }
    {
        match &self.form {
            Form::Bare(_, name) => StmtForm::Bare(name),
            Form::CommandOf(_, _, call) => StmtForm::CommandOf(call),
            Form::Command(_, _, call) => StmtForm::Command(call),
            Form::Kind(_, _, kind) => StmtForm::Kind(kind),
        }
    }

    /// The greatest number of nodes on a way down, at most 100.
    pub fn depth(&self) -> usize
        ensures value { result ≡ stmt_depth self.now }
        ensures limit { result ≤ max_depth }
    {
        match &self.form {
            Form::Bare(_, _) => 1,
            Form::CommandOf(depth, _, _) | Form::Command(depth, _, _) | Form::Kind(depth, _, _) =>
                *depth as usize,
        }
    }

    /// Where it begins, in bytes from the beginning of its text, as it was told when it was made. No clause says so.
    pub fn place(&self) -> usize {
        match &self.form {
            Form::Bare(place, _)
            | Form::CommandOf(_, place, _)
            | Form::Command(_, place, _)
            | Form::Kind(_, place, _) => *place as usize,
        }
    }
}

/// A place as a statement keeps it.
fn kept_place(place: usize) -> u32 {
    u32::try_from(place).unwrap_or(u32::MAX)
}

impl StmtKind {
    /// The command of a name with these arguments.
    pub fn command(name: Text, arguments: Exprs) -> StmtKind
        ensures { stmt_of result ≡ s.command name (exprs_of arguments.items.items) }
    {
        match arguments.only() {
            Ok(argument) => StmtKind::CommandOf(name, argument),
            Err(arguments) => StmtKind::Command(name, arguments),
        }
    }

    fn depth(&self) -> usize
        ensures { result ≡ stmt_depth (stmt_of self.now) }
    {
        match self {
            StmtKind::Global(_)
            | StmtKind::ExitRepeat
            | StmtKind::NextRepeat
            | StmtKind::ExitToHyperCard
            | StmtKind::Exit(_)
            | StmtKind::Pass(_)
            | StmtKind::ReturnNothing => 1,
            StmtKind::Put(value)
            | StmtKind::Get(value)
            | StmtKind::SetRun(_, value)
            | StmtKind::Do(value)
            | StmtKind::ReturnValue(value) => value.depth() + 1,
            StmtKind::PutIn(_, value, container)
            | StmtKind::Add(value, container)
            | StmtKind::Subtract(value, container)
            | StmtKind::Multiply(container, value)
            | StmtKind::Divide(container, value) => value.depth().max(container.depth()) + 1,
            StmtKind::Set(_, reference, value) | StmtKind::Send(value, reference) => {
                reference.depth().max(value.depth()) + 1
            }
            StmtKind::Delete(chunk, container) => chunk.depth().max(container.depth()) + 2,
            StmtKind::Go(destination) => destination.depth() + 1,
            StmtKind::Command(_, arguments) => arguments.depth() + 1,
            StmtKind::CommandOf(_, argument) => argument.depth() + 1,
            StmtKind::When(condition, branches) => condition.depth().max(branches.depth()) + 1,
            StmtKind::Repeat(head, lines) => head.depth().max(lines.depth()) + 1,
        }
    }
}

impl Branches {
    fn depth(&self) -> usize
        ensures value { result ≡ max (stmts_depth (stmts_of self.now.lines.items.items))
            (stmts_depth (stmts_of self.now.otherwise.items.items)) }
        ensures limit { result ≤ max_depth }
    {
        self.lines.depth().max(self.otherwise.depth())
    }
}

impl Stmts {
    /// No statements.
    pub fn new(alloc: Global) -> Stmts
        ensures { stmts_of result.items.items ≡ s.stop }
    {
        Stmts {
            items: Vec::new(alloc),
        }
    }

    /// The statements with another at their end. An error where a growth of memory was refused.
    #[tactic(auto, using(crate::proofs::Lists::stmts_with))]
    pub fn with(mut self, stmt: Stmt) -> Result<Stmts, AllocError>
        ensures { IfOk result (λ stmts. stmts_of stmts.items.items ≡ with_stmt (stmts_of self.items.items) stmt) }
    {
        if self.items.len() < FEW {
            self.items.reserve_exact(1)?;
        }
        self.items.push(stmt)?;
        Ok(self)
    }

    /// The same statements, in no more memory than they need.
    pub fn fitted(mut self) -> Stmts
        ensures { result.items.items ≡ self.items.items }
    {
        self.items.shrink_to_fit();
        self
    }

    /// The depth of the deepest, 0 where there is none.
    pub fn depth(&self) -> usize
        ensures value { result ≡ stmts_depth (stmts_of self.now.items.items) }
        ensures limit { result ≤ max_depth }
    {
        let mut deepest = 0;
        let mut rest = self.items.as_slice();
        while let [first, later @ ..] = rest {
            deepest = deepest.max(first.depth());
            rest = later;
        }
        deepest
    }
}
