//! Expressions.

ghost use Rattle.std.specs.Prelude.{◌≡◌, ◌+◌, ◌≤◌, ◌<◌, IfOk, IfErr};
ghost use Rattle.ht_grammar.specs.Trees as t;
ghost use Rattle.ht_grammar.specs.Depth.{depth, depths, max_depth};
ghost use Rattle.ht_grammar.specs.Reading.{snoc};
ghost use Rattle.ht_tree.specs.View.{IsDepthOf, expr_of, exprs_of, chain_of, form_of};
ghost use Rattle.ht_tree.specs.View.{is_binary_of, is_left_nested_of, is_only_of};
ghost use Rattle.ht_values.specs.Text.{numeral};

use crate::call::CallOf;
use crate::chunk::Chunk;
use crate::operators::{Binary, Chain, Joined, LeftNested, RightNested, Unary};
use crate::reference::{Count, Part, Ref};
use ht_grammar::{FunctionWord, RunProp};
use ht_lex::Constant;
use ht_values::{Name, Op, Prop, Text, UnOp};
use std::alloc::{AllocError, Global};
use std::marker::Model;
use std::rc::Rc;

/// An expression, at most 100 levels deep.
#[cycle(tree)]
pub struct Expr {
    form: Form,
}

/// How an expression is kept: a number and a constant take no memory, and what is written most often no more than its
/// own, since a text has room for thousands of these. What has expressions in it stands beside its depth.
#[cycle(tree)]
#[derive(Drop)]
enum Form {
    Number(i64),
    /// Other digits: with a zero in front, or too many for a number.
    Digits(Box<Text>),
    Quoted(Box<Text>),
    Constant(Constant),
    Name(Box<Name>),
    /// Digits that other expressions may have too.
    SharedDigits(Rc<Name>),
    /// A text in quotes that other expressions may have too.
    SharedQuoted(Rc<Name>),
    /// A name that other expressions may have too.
    Shared(Rc<Name>),
    /// An operator with such a name.
    UnaryOfName(UnOp, Rc<Name>),
    /// An operator with the numeral of a number.
    UnaryOfNumber(UnOp, i64),
    /// A call without arguments, by such a name.
    BareCall(Rc<Name>),
    /// A call with one argument, by such a name.
    CallOf(u8, Box<CallOf>),
    Paren(u8, Box<Expr>),
    Unary(u8, Box<Unary>),
    Binary(u8, Box<Binary>),
    LeftNested(u8, Box<LeftNested>),
    RightNested(u8, Box<RightNested>),
    Chain(u8, Box<Chain>),
    /// Any other kind.
    Kind(u8, Box<ExprKind>),
}

/// Most of a script's tree is expressions and their kinds. What is rare and large stands in boxes of its own.
const _: () = prove!(
    size_of::<Expr>() <= 16
        && size_of::<Unary>() <= 24
        && size_of::<Binary>() <= 40
        && size_of::<CallOf>() <= 24
);

const _: () = prove!(
    size_of::<LeftNested>() <= 56 && size_of::<RightNested>() <= 56 && size_of::<ExprKind>() <= 56
);

const _: () = prove!(size_of::<Chain>() <= 64 && size_of::<Joined>() <= 24);

/// Written here and not derived, so that no crate above proves anew how a tree is dropped.
impl Drop for Expr {
    // Else each place that drops one has a copy of a node in its frame.
    #[cycle(tree)]
    #[inline(never)]
    fn drop(self) {
        let Expr { form: _ } = self;
    }
}

/// What an expression is, to look at.
#[derive(Clone, Copy)]
pub enum ExprForm<'a> {
    /// Digits that are the numeral of a number.
    Number(i64),
    /// Other digits: with a zero in front, or too many for a number.
    Digits(&'a Text),
    Quoted(&'a Text),
    Constant(Constant),
    Name(&'a Name),
    /// An operator with a name.
    UnaryOfName(UnOp, &'a Name),
    /// An operator with the numeral of a number.
    UnaryOfNumber(UnOp, i64),
    /// A call without arguments.
    BareCall(&'a Name),
    /// A call with one argument.
    CallOf(&'a CallOf),
    Paren(&'a Expr),
    Unary(&'a Unary),
    Binary(&'a Binary),
    LeftNested(&'a LeftNested),
    RightNested(&'a RightNested),
    Chain(&'a Chain),
    Kind(&'a ExprKind),
}

/// What any other expression is, with its parts. A call without arguments or with one is of this kind too, if its name
/// isn't shared.
#[cycle(tree)]
#[derive(Drop)]
pub enum ExprKind {
    /// The constant `return`.
    Return,
    Call(Text, Exprs),
    /// A call with one argument.
    CallOf(Text, Expr),
    /// `there is a`, or with true `there is no`.
    ThereIs(bool, Box<Ref>),
    /// Pieces of an expression's text.
    Chunk(Chunk, Expr),
    /// The text of a field.
    Field(Part),
    Result,
    Target,
    NumberOf(Count),
    Property(Prop, Box<Ref>),
    RunProperty(RunProp),
    /// `the length of`, and the like.
    Function(FunctionWord, Expr),
}

/// Operators that are nested so deeply stand in a list: it takes less memory than their nodes if there are eight of them.
const LONG: u8 = 9;

/// So many elements of a list take exactly their room while it grows. What a longer one has too much is given back.
pub(crate) const FEW: usize = 4;

/// Expressions with commas between.
#[cycle(tree)]
#[derive(Drop)]
pub struct Exprs {
    pub items: Vec<Expr>,
}

impl Model for Expr {
    ghost use Rattle.ht_grammar.specs.Trees as t;

    ghost Value = { t.Expr };

    ghost use Rattle.std.specs.Prelude.{List, []};
    ghost use Rattle.std.specs.Coded.{codes, code_by};
    ghost use Rattle.ht_tree.specs.Postfix.{Mark, run, expr_on, expr_marks, expr_back};
    ghost use Rattle.std.proofs.Common.{ap};

    ghost coded = { code_by (List Mark) (Prim.hlevel codes) (λ x. expr_marks x []) (λ ms. expr_on (run ms []))
        (λ x. ap expr_on (expr_back x [] [])) };

    ghost use Rattle.ht_grammar.specs.Depth as d;
    ghost use Rattle.ht_tree.specs.View.{kept_form, knows_depth};

    ghost view = { λ e. kept_form e.form };

    ghost invariant = { λ e. knows_depth e.form };

    ghost size = { d.depth };

    ghost use Rattle.ht_tree.specs.Falls.{form_falls};

    ghost size_decreases = { λ e h. form_falls e.form };
}

impl Expr {
    /// The numeral of a number. It takes no memory.
    pub fn of_number(number: i64) -> Expr
        ensures { result ≡ t.number (numeral number) }
    {
        Expr {
            form: Form::Number(number),
        }
    }

    /// Digits with a zero in front, or too many for a number.
    pub fn of_digits(alloc: Global, digits: Text) -> Result<Expr, AllocError>
        ensures { IfOk result (λ e. e ≡ t.number digits) }
    {
        Ok(Expr {
            form: Form::Digits(Box::new(alloc, digits)?),
        })
    }

    /// A text in quotes.
    pub fn of_quoted(alloc: Global, text: Text) -> Result<Expr, AllocError>
        ensures { IfOk result (λ e. e ≡ t.quoted text) }
    {
        Ok(Expr {
            form: Form::Quoted(Box::new(alloc, text)?),
        })
    }

    /// Digits that other expressions may have too. They take no memory.
    pub fn of_shared_digits(digits: Rc<Name>) -> Expr
        ensures { result ≡ t.number digits.value }
    {
        Expr {
            form: Form::SharedDigits(digits),
        }
    }

    /// A text in quotes that other expressions may have too. It takes no memory.
    pub fn of_shared_quoted(text: Rc<Name>) -> Expr
        ensures { result ≡ t.quoted text.value }
    {
        Expr {
            form: Form::SharedQuoted(text),
        }
    }

    /// A constant. It takes no memory.
    pub fn of_constant(constant: Constant) -> Expr
        ensures { result ≡ t.constant constant }
    {
        Expr {
            form: Form::Constant(constant),
        }
    }

    /// A name.
    pub fn of_name(alloc: Global, name: Name) -> Result<Expr, AllocError>
        ensures { IfOk result (λ e. e ≡ t.name name) }
    {
        Ok(Expr {
            form: Form::Name(Box::new(alloc, name)?),
        })
    }

    /// A name that other expressions may have too. It takes no memory.
    pub fn of_shared(name: Rc<Name>) -> Expr
        ensures { result ≡ t.name name.value }
    {
        Expr {
            form: Form::Shared(name),
        }
    }

    /// A call without arguments, by a name that others may have too. It takes no memory.
    pub fn bare_call(name: Rc<Name>) -> Expr
        ensures { result ≡ t.call name.value t.none }
    {
        Expr {
            form: Form::BareCall(name),
        }
    }

    /// A call with these arguments, at most 100 levels deep, by a name that others may have too. One argument alone
    /// takes less memory with it than with a name of its own.
    pub fn call(alloc: Global, name: Rc<Name>, arguments: Exprs) -> Result<Expr, AllocError>
        requires { depth (t.call name.value (exprs_of arguments.items.items)) ≤ max_depth }
        ensures { IfOk result (λ e. e ≡ t.call name.value (exprs_of arguments.items.items)) }
    {
        match arguments.only() {
            Ok(argument) => Expr::call_of(alloc, name, argument),
            Err(arguments) => {
                let name = name.text().try_clone(alloc)?;
                Expr::new(alloc, ExprKind::Call(name, arguments))
            }
        }
    }

    /// A call with one argument.
    fn call_of(alloc: Global, name: Rc<Name>, argument: Expr) -> Result<Expr, AllocError>
        requires { depth argument < max_depth }
        ensures { IfOk result (λ e. e ≡ t.call name.value (t.more argument t.none)) }
    {
        let depth = (argument.depth() + 1) as u8;
        Ok(Expr {
            form: Form::CallOf(depth, Box::new(alloc, CallOf { name, argument })?),
        })
    }

    /// An expression in parentheses, which is at most 100 levels deep with them.
    pub fn in_parens(alloc: Global, inner: Expr) -> Result<Expr, AllocError>
        requires { depth inner < max_depth }
        ensures { IfOk result (λ e. e ≡ t.paren inner) }
    {
        let depth = (inner.depth() + 1) as u8;
        Ok(Expr {
            form: Form::Paren(depth, Box::new(alloc, inner)?),
        })
    }

    /// An operator with its operand, at most 100 levels deep. It takes no memory if the operand is a number or a name
    /// that others may have too.
    pub fn unary(alloc: Global, op: UnOp, operand: Expr) -> Result<Expr, AllocError>
        requires { depth operand < max_depth }
        ensures { IfOk result (λ e. e ≡ t.unary op operand) }
    {
        let depth = (operand.depth() + 1) as u8;
        let Expr { form } = operand;
        let form = match form {
            Form::Shared(name) => Form::UnaryOfName(op, name),
            Form::Number(number) => Form::UnaryOfNumber(op, number),
            form => {
                let operand = Expr { form };
                Form::Unary(depth, Box::new(alloc, Unary { op, operand })?)
            }
        };
        Ok(Expr { form })
    }

    /// An operator with its operands, at most 100 levels deep. Where many join from the left they stand in a list, so
    /// most operators of a long chain take a place there and nothing else.
    #[inline(always)]
    pub fn binary(alloc: Global, op: Op, left: Expr, right: Expr) -> Result<Expr, AllocError>
        requires left { depth left < max_depth }
        requires right { depth right < max_depth }
        ensures { IfOk result (λ e. e ≡ t.binary op left right) }
    {
        let depth = (left.depth().max(right.depth()) + 1) as u8;
        let Expr { form } = left;
        match form {
            Form::Chain(_, mut chain) => {
                chain.join(op, right)?;
                Ok(Expr {
                    form: Form::Chain(depth, chain),
                })
            }
            form => Expr::node(alloc, depth, op, Expr { form }, right),
        }
    }

    /// An operator with its operands, so many levels deep. An operand that is an operator with its own stands together
    /// with it, if it doesn't with another; the operators of an operand that is nested deeply become a list.
    #[inline(never)]
    fn node(alloc: Global, depth: u8, op: Op, left: Expr, right: Expr) -> Result<Expr, AllocError>
        requires { IsDepthOf (t.binary op left right) depth }
        ensures { IfOk result (λ e. e ≡ t.binary op left right) }
    {
        let form = match left.unrolled(alloc)? {
            Ok(mut chain) => {
                chain.join(op, right)?;
                Form::Chain(depth, Box::new(alloc, chain)?)
            }
            Err(left) => match left.into_binary() {
                Ok(within) => Form::LeftNested(depth, Box::new(alloc, within.then(op, right))?),
                Err(left) => match right.into_binary() {
                    Ok(within) => {
                        Form::RightNested(depth, Box::new(alloc, within.after(op, left))?)
                    }
                    Err(right) => Form::Binary(depth, Box::new(alloc, Binary { op, left, right })?),
                },
            },
        };
        Ok(Expr { form })
    }

    /// Its operators as a list, if they are nested deeply enough to become one; else the expression.
    #[inline(always)]
    fn unrolled(self, alloc: Global) -> Result<Result<Chain, Expr>, AllocError>
        ensures chain { IfOk result (λ r. IfOk r (λ chain. chain_of chain ≡ self)) }
        ensures other { IfOk result (λ r. IfErr r (λ e. e ≡ self)) }
    {
        let Expr { form } = self;
        match form {
            Form::LeftNested(depth, nested) if LONG <= depth => {
                Ok(Ok(Box::into_inner(nested).unrolled(alloc)?))
            }
            form => Ok(Err(Expr { form })),
        }
    }

    /// The same expression, in no more memory than it needs.
    pub fn fitted(self) -> Expr
        ensures { result ≡ self }
    {
        let Expr { form } = self;
        match form {
            Form::Chain(depth, mut chain) => {
                chain.joined.shrink_to_fit();
                Expr {
                    form: Form::Chain(depth, chain),
                }
            }
            form => Expr { form },
        }
    }

    /// Its two operators with their operands, if it is such a node; else the expression.
    pub(crate) fn into_left_nested(self) -> Result<LeftNested, Expr>
        ensures { is_left_nested_of self result }
    {
        let Expr { form } = self;
        match form {
            Form::LeftNested(_, nested) => Ok(Box::into_inner(nested)),
            form => Err(Expr { form }),
        }
    }

    /// Its operator with the operands, if it is one that stands by itself; else the expression.
    fn into_binary(self) -> Result<Binary, Expr>
        ensures { is_binary_of self result }
    {
        let Expr { form } = self;
        match form {
            Form::Binary(_, binary) => Ok(Box::into_inner(binary)),
            form => Err(Expr { form }),
        }
    }

    /// The expression of any other kind, which is at most 100 levels deep.
    #[inline(always)]
    pub fn new(alloc: Global, kind: ExprKind) -> Result<Expr, AllocError>
        requires { depth (expr_of kind) ≤ max_depth }
        ensures { IfOk result (λ e. e ≡ expr_of kind) }
    {
        let depth = kind.depth() as u8;
        Ok(Expr {
            form: Form::Kind(depth, Box::new(alloc, kind)?),
        })
    }

    /// What it is, with its parts.
    #[inline(always)]
    pub fn form(&self) -> ExprForm<'_>
        ensures { form_of result ≡ self.now }
    {
        match &self.form {
            Form::Number(number) => ExprForm::Number(*number),
            Form::Digits(digits) => ExprForm::Digits(digits),
            Form::Quoted(text) => ExprForm::Quoted(text),
            Form::Constant(constant) => ExprForm::Constant(*constant),
            Form::Name(name) => ExprForm::Name(name),
            Form::SharedDigits(digits) => ExprForm::Digits(digits.text()),
            Form::SharedQuoted(text) => ExprForm::Quoted(text.text()),
            Form::Shared(name) => ExprForm::Name(name),
            Form::UnaryOfName(op, name) => ExprForm::UnaryOfName(*op, name),
            Form::UnaryOfNumber(op, number) => ExprForm::UnaryOfNumber(*op, *number),
            Form::BareCall(name) => ExprForm::BareCall(name),
            Form::CallOf(_, call) => ExprForm::CallOf(call),
            Form::Paren(_, inner) => ExprForm::Paren(inner),
            Form::Unary(_, unary) => ExprForm::Unary(unary),
            Form::Binary(_, binary) => ExprForm::Binary(binary),
            Form::LeftNested(_, nested) => ExprForm::LeftNested(nested),
            Form::RightNested(_, nested) => ExprForm::RightNested(nested),
            Form::Chain(_, chain) => ExprForm::Chain(chain),
            Form::Kind(_, kind) => ExprForm::Kind(kind),
        }
    }

    /// The greatest number of nodes on a way down, at most 100.
    pub fn depth(&self) -> usize
        ensures value { result ≡ depth self.now }
        ensures limit { result ≤ max_depth }
    {
        match &self.form {
            Form::Number(_)
            | Form::Digits(_)
            | Form::Quoted(_)
            | Form::Constant(_)
            | Form::Name(_)
            | Form::SharedDigits(_)
            | Form::SharedQuoted(_)
            | Form::Shared(_)
            | Form::BareCall(_) => 1,
            Form::UnaryOfName(_, _) | Form::UnaryOfNumber(_, _) => 2,
            Form::CallOf(depth, _)
            | Form::Paren(depth, _)
            | Form::Unary(depth, _)
            | Form::Binary(depth, _)
            | Form::LeftNested(depth, _)
            | Form::RightNested(depth, _)
            | Form::Chain(depth, _)
            | Form::Kind(depth, _) => *depth as usize,
        }
    }
}

impl ExprKind {
    /// The call of a function with these arguments.
    pub fn call(name: Text, arguments: Exprs) -> ExprKind
        ensures { expr_of result ≡ t.call name (exprs_of arguments.items.items) }
    {
        match arguments.only() {
            Ok(argument) => ExprKind::CallOf(name, argument),
            Err(arguments) => ExprKind::Call(name, arguments),
        }
    }

    #[inline(always)]
    fn depth(&self) -> usize
        ensures { result ≡ depth (expr_of self.now) }
    {
        match self {
            ExprKind::Return | ExprKind::Result | ExprKind::Target | ExprKind::RunProperty(_) => 1,
            ExprKind::Call(_, arguments) => arguments.depth() + 1,
            ExprKind::CallOf(_, argument) => argument.depth() + 1,
            ExprKind::ThereIs(_, reference) => reference.depth() + 1,
            ExprKind::Chunk(chunk, text) => chunk.depth().max(text.depth()) + 1,
            ExprKind::Field(part) => part.depth(),
            ExprKind::NumberOf(count) => count.depth() + 1,
            ExprKind::Property(_, reference) => reference.depth() + 1,
            ExprKind::Function(_, operand) => operand.depth() + 1,
        }
    }
}

impl Exprs {
    /// No expressions.
    pub fn new(alloc: Global) -> Exprs
        ensures { exprs_of result.items.items ≡ t.none }
    {
        Exprs {
            items: Vec::new(alloc),
        }
    }

    /// The list with another expression at its end. An error where a growth of memory was refused.
    #[tactic(auto, using(crate::proofs::Lists::exprs_snoc))]
    pub fn with(mut self, expr: Expr) -> Result<Exprs, AllocError>
        ensures { IfOk result (λ exprs. exprs_of exprs.items.items ≡ snoc (exprs_of self.items.items) expr) }
    {
        if self.items.len() < FEW {
            self.items.reserve_exact(1)?;
        }
        self.items.push(expr)?;
        Ok(self)
    }

    /// The expression, where there is one alone; else the list.
    pub(crate) fn only(mut self) -> Result<Expr, Exprs>
        ensures { is_only_of self.items.items result }
    {
        if self.items.len() != 1 {
            return Err(self);
        }
        match self.items.pop() {
            Some(expr) => Ok(expr),
            None => Err(self),
        }
    }

    /// The same list, in no more memory than it needs.
    pub fn fitted(mut self) -> Exprs
        ensures { result.items.items ≡ self.items.items }
    {
        self.items.shrink_to_fit();
        self
    }

    /// The depth of the deepest, 0 where there is none.
    pub fn depth(&self) -> usize
        ensures value { result ≡ depths (exprs_of self.now.items.items) }
        ensures limit { result ≤ max_depth }
    {
        let mut deepest = 0;
        let mut rest = self.items.as_slice();
        while let [first, later @ ..] = rest {
            deepest = deepest.max(first.depth());
            rest = later;
        }
        deepest
    }
}
