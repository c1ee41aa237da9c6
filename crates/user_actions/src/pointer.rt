//! Clicks on a part.

ghost use Rattle.std.specs.Prelude.{◌≡◌, ◌≤◌, IsSome};
ghost use Rattle.ht_grammar.specs.Depth.{max_depth, part_depth};
ghost use Rattle.ht_tree.specs.View.{part_of};
ghost use Rattle.containers.specs.Base.{base};
ghost use Rattle.meaning.specs.Ends.{end_of};
ghost use Rattle.meaning.specs.Meaning.{Clicks};

use crate::messages::tell;
use change_journal::World;
use externals::External;
use ht_tree::Part;
use interp::find_ref;
use meaning::{Budget, Ended, Stop, SystemMessage};

/// `.click`
#[tactic(auto, using(meaning::proofs::Rules::clicks_rules))]
pub(crate) fn click<E: External>(
    world: &mut World<E>,
    run: &mut Budget,
    part: &Part,
) -> Result<Ended, Stop>
    requires deep { part_depth (part_of part.now) ≤ max_depth }
    requires open { IsSome (base world.old.history).start }
    ensures meaning { Clicks world.old.history run.old (part_of part.now) (end_of result) world.new.history run.new }
    ensures fewer { run.new.left ≤ run.old.left }
    ensures base { base world.new.history ≡ base world.old.history }
{
    let Some(object) = find_ref(world, run, part)? else {
        return Ok(Ended::Exited);
    };
    match tell(world, run, object, SystemMessage::MouseDown)? {
        Ended::Done if world.stack().object(object).is_some() => {
            tell(world, run, object, SystemMessage::MouseUp)
        }
        ended => Ok(ended),
    }
}
