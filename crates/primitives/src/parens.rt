//! Parentheses.

ghost use Rattle.std.specs.Prelude.{◌≡◌, ◌≤◌, ℕ, List, Result, false};
ghost use Rattle.ht_grammar.specs.Depth.{depth};
ghost use Rattle.change_journal.specs.History.{History};
ghost use Rattle.meaning.specs.declared.end.Stop.{Stop};
ghost use Rattle.meaning.specs.declared.frame.Frame.{Frame};
ghost use Rattle.meaning.specs.Meaning.{Val};
ghost use Rattle.meaning.specs.State.{RunState};
ghost use Rattle.primitives.specs.Atoms.{is_in_parens};

use ht_tree::{Expr, ExprForm};

/// What stands within the parentheses around an expression, however many; itself where there are none. Its value is
/// that of the whole.
#[tactic(auto, using(meaning::proofs::Rules::val_paren_rules))]
#[inline]
pub fn bare(e: &Expr) -> &Expr
    ensures value { (w w1 : History) (r r1 : RunState) (f : Frame) (d : ℕ) (o : Result (List ℕ) Stop)
        → Val w r f d result.now o w1 r1 → Val w r f d e.now o w1 r1 }
    ensures bare { is_in_parens result.now ≡ false }
    ensures depth { depth result.now ≤ depth e.now }
{
    let mut rest = e;
    while let ExprForm::Paren(inner) = rest.form() {
        rest = inner;
    }
    rest
}
