//! A user's command, whatever it is.

ghost use Rattle.std.specs.Prelude.{◌≡◌, ◌≤◌, IsSome};
ghost use Rattle.containers.specs.Base.{base};
ghost use Rattle.user_actions.specs.Views.{ActionEnds, Fits, action_of};

use crate::messages::open_stack;
use crate::pointer::click;
use crate::typing::type_text;
use change_journal::World;
use externals::External;
use ht_tree::{Part, Stmts, Typing};
use interp::run_line;
use meaning::{Budget, Ended, Stop};

/// A command of a user.
pub enum Action {
    /// Lines of HyperTalk.
    RunLines(Stmts),
    /// openStack, openBackground and openCard are sent, each to the card that is current then.
    OpenStack,
    /// mouseDown is sent to a part, and mouseUp where it is still there.
    Click(Part),
    /// openField is sent to a field. Where it and the card that was current as it was found are still there, the text
    /// becomes its text for that card, or its shared text; then closeField is sent if a byte changed, and exitField if
    /// none did.
    TypeText(Typing),
}

/// Written here and not derived, so that no crate above proves anew how it is dropped.
impl Drop for Action {
    fn drop(self) {
        match self {
            Action::RunLines(_) => {}
            Action::OpenStack => {}
            Action::Click(_) => {}
            Action::TypeText(_) => {}
        }
    }
}

/// Does in the open batch what a user wants, as its meaning says: up to the first message that ends by a fault or by
/// `exit to HyperCard`. A message takes a step, and the system sends none while lockMessages is true. `None` where a
/// text is typed into a field that is locked: then all that the reference did is to be rolled back. What it shows and
/// sends, and the steps that are left, stand in the budget, also where it ends by a fault; a fault keeps what was
/// changed before it. Where it is out of memory nothing is said of the present state: the batch is to be rolled back.
/// Whatever it answers, the history round the batch and the state at its start are kept.
#[tactic(auto, using(meaning::proofs::Rules::acts_rules))]
pub fn act<E: External>(
    world: &mut World<E>,
    run: &mut Budget,
    action: &Action,
) -> Result<Option<Ended>, Stop>
    requires fits { Fits (action_of action.now) }
    requires open { IsSome (base world.old.history).start }
    ensures meaning { ActionEnds world.old.history run.old (action_of action.now) result world.new.history run.new }
    ensures fewer { run.new.left ≤ run.old.left }
    ensures base { base world.new.history ≡ base world.old.history }
{
    match action {
        Action::RunLines(lines) => Ok(Some(run_line(world, run, lines)?)),
        Action::OpenStack => Ok(Some(open_stack(world, run)?)),
        Action::Click(part) => Ok(Some(click(world, run, part)?)),
        Action::TypeText(typing) => type_text(world, run, &typing.text, &typing.field),
    }
}
