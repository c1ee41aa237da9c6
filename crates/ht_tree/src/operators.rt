//! Operators with their operands.

ghost use Rattle.std.specs.Prelude.{◌≡◌, IfOk};
ghost use Rattle.ht_grammar.specs.Trees as t;
ghost use Rattle.ht_tree.specs.View.{binary_of, left_nested_of, right_nested_of, chain_of};

use crate::expr::Expr;
use ht_values::{Op, UnOp};
use std::alloc::{AllocError, Global};

/// An operator with its operand.
#[cycle(tree)]
pub struct Unary {
    pub op: UnOp,
    pub operand: Expr,
}

/// Written here and not derived, so that no crate above proves anew how it is dropped.
impl Drop for Unary {
    #[cycle(tree)]
    fn drop(self) {
        let Unary { op: _, operand: _ } = self;
    }
}

/// An operator with its operands.
#[cycle(tree)]
pub struct Binary {
    pub op: Op,
    pub left: Expr,
    pub right: Expr,
}

/// Written here and not derived, so that no crate above proves anew how it is dropped.
impl Drop for Binary {
    #[cycle(tree)]
    fn drop(self) {
        let Binary {
            op: _,
            left: _,
            right: _,
        } = self;
    }
}

/// Two operators, in the order in which they are written, of which the first joins the left operand of the second.
/// They stand together, since each by itself would take half as much memory again.
#[cycle(tree)]
pub struct LeftNested {
    pub first: Op,
    pub second: Op,
    pub left: Expr,
    pub middle: Expr,
    pub right: Expr,
}

/// Written here and not derived, so that no crate above proves anew how it is dropped.
impl Drop for LeftNested {
    #[cycle(tree)]
    fn drop(self) {
        let LeftNested {
            first: _,
            second: _,
            left: _,
            middle: _,
            right: _,
        } = self;
    }
}

/// Two operators, in the order in which they are written, of which the second joins the right operand of the first.
#[cycle(tree)]
pub struct RightNested {
    pub first: Op,
    pub second: Op,
    pub left: Expr,
    pub middle: Expr,
    pub right: Expr,
}

/// Written here and not derived, so that no crate above proves anew how it is dropped.
impl Drop for RightNested {
    #[cycle(tree)]
    fn drop(self) {
        let RightNested {
            first: _,
            second: _,
            left: _,
            middle: _,
            right: _,
        } = self;
    }
}

/// An operator with its right operand.
#[cycle(tree)]
pub struct Joined {
    pub op: Op,
    pub operand: Expr,
}

/// Written here and not derived, so that no crate above proves anew how it is dropped.
impl Drop for Joined {
    #[cycle(tree)]
    fn drop(self) {
        let Joined { op: _, operand: _ } = self;
    }
}

/// Operators in the order in which they are written, each of which joins what those before it give.
#[cycle(tree)]
pub struct Chain {
    pub op: Op,
    pub left: Expr,
    pub right: Expr,
    /// The operators after the first.
    pub joined: Vec<Joined>,
}

/// Written here and not derived, so that no crate above proves anew how it is dropped.
impl Drop for Chain {
    #[cycle(tree)]
    fn drop(self) {
        let Chain {
            op: _,
            left: _,
            right: _,
            joined: _,
        } = self;
    }
}

impl Chain {
    /// One operator, with some room for others.
    pub(crate) fn new(alloc: Global, op: Op, left: Expr, right: Expr) -> Result<Chain, AllocError>
        ensures { IfOk result (λ chain. chain_of chain ≡ t.binary op left right) }
    {
        let mut joined = Vec::new(alloc);
        joined.reserve_exact(ROOM)?;
        Ok(Chain {
            op,
            left,
            right,
            joined,
        })
    }

    /// Joins an operator behind the others.
    #[tactic(auto, using(crate::proofs::Chains::joined_snoc))]
    pub(crate) fn join(&mut self, op: Op, operand: Expr) -> Result<(), AllocError>
        ensures { IfOk result (λ _. chain_of self.new ≡ t.binary op (chain_of self.old) operand) }
    {
        self.joined.push(Joined { op, operand })?;
        Ok(())
    }
}

/// So many operators a chain has room for at first.
const ROOM: usize = 16;

impl LeftNested {
    /// Its operators as a list, with those that are nested in it in the same way.
    pub(crate) fn unrolled(self, alloc: Global) -> Result<Chain, AllocError>
        ensures { IfOk result (λ chain. chain_of chain ≡ left_nested_of self) }
    {
        let LeftNested {
            first,
            second,
            left,
            middle,
            right,
        } = self;
        let mut chain = match left.into_left_nested() {
            Ok(inner) => {
                let mut chain = inner.unrolled(alloc)?;
                chain.join(first, middle)?;
                chain
            }
            Err(left) => Chain::new(alloc, first, left, middle)?,
        };
        chain.join(second, right)?;
        Ok(chain)
    }
}

impl Binary {
    /// It with an operator that joins what it gives.
    pub(crate) fn then(self, second: Op, last: Expr) -> LeftNested
        ensures { left_nested_of result ≡ t.binary second (binary_of self) last }
    {
        let Binary { op, left, right } = self;
        LeftNested {
            first: op,
            second,
            left,
            middle: right,
            right: last,
        }
    }

    /// It behind an operator whose right operand is what it gives.
    pub(crate) fn after(self, first: Op, start: Expr) -> RightNested
        ensures { right_nested_of result ≡ t.binary first start (binary_of self) }
    {
        let Binary { op, left, right } = self;
        RightNested {
            first,
            second: op,
            left: start,
            middle: left,
            right,
        }
    }
}
