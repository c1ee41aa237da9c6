//! What the path promises.

ghost use Rattle.msg_path.specs.Laws.{FirstIsOne};

use ht_grammar::scripts_are_read_exactly;

/// A message finds one handler at most on a path, or one fault.
#[tactic(auto, using(crate::proofs::One::first_one))]
pub fn first_is_one()
    ensures { FirstIsOne }
{
    scripts_are_read_exactly();
}
