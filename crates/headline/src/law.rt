//! What lines, calls and runs do to the list of whole states: the headline as laws over the definitions.

ghost use Rattle.headline.specs.Unzipped.{LinesFollow, MovesFollow, PlugsFollow, OpensFollow, RunsFollow, StopsFollow};
ghost use Rattle.headline.specs.Unzipped.{TablesFollow, SavesFollow, MessagesFollow};
ghost use Rattle.headline.specs.Whole.{RunsStayWhole, StopsStayWhole, SavesSpell};

use stack_text::law::written_is_read;

/// A fresh command, however it ended, replaces all after the cursor by a state that its meaning allows,
/// undo and redo only move the cursor, and a line refused for memory changes nothing but its number.
pub fn lines_follow()
    ensures { LinesFollow }
{}

/// The calls that undo and redo move the cursor as the lines do.
pub fn moves_follow()
    ensures { MovesFollow }
{}

/// An external that is plugged in joins each state; one that is unplugged leaves the present state alone.
pub fn plugs_follow()
    ensures { PlugsFollow }
{}

/// A session begins with one state.
pub fn opens_follow()
    ensures { OpensFollow }
{}

/// Where the turns of a session's externals follow a table, those of the list do.
pub fn tables_follow()
    ensures { TablesFollow }
{}

/// A run that ended did to the list what the headline says, line after line.
pub fn runs_follow()
    ensures { RunsFollow }
{}

/// A run that stopped did so as far as it came.
pub fn stops_follow()
    ensures { StopsFollow }
{}

/// Beside a desk whose count of failures didn't rise all that was saved is kept.
pub fn saves_follow()
    ensures { SavesFollow }
{}

/// A desk that tells in the end what it heard has heard of each message of each line, in their order, once.
pub fn messages_follow()
    ensures { MessagesFollow }
{}

/// Along a run, however it ended, each state of the list is whole, before each line and after it.
pub fn runs_stay_whole()
    ensures ended { RunsStayWhole }
    ensures stopped { StopsStayWhole }
{}

/// What a line saves of a whole state spells its stack, and is read back as it.
pub fn saves_spell()
    ensures { SavesSpell }
{
    written_is_read();
}
