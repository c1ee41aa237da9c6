//! Laws of transcripts: of the answers to lines, none of which is refused for memory or for its file.

ghost use Rattle.transcripts.specs.Laws.{TranscriptsExist, OutputsExist, TranscriptsExistBy, OutputsExistBy};
ghost use Rattle.transcripts.specs.Laws.{BehavioursFollowTables, TranscriptsAreOne, OutputsAreOne};
ghost use Rattle.transcripts.specs.Laws.{TablesTellTurns, LogsTellTurns, KitIsDeterministic, TranscriptsStayWhole};
ghost use Rattle.transcripts.specs.Laws.{OutputsStayWhole, TranscriptsGoOn, TablesTellTranscripts};
ghost use Rattle.transcripts.specs.Replies.{RepliesAreOne, RepliesExist, RepliesExistBy, RepliesStayWhole};
ghost use Rattle.totality.specs.Tables.{IsTable};
ghost use Rattle.xkit.specs.Table.{kit_table};

use definitional_interpreter::{nondeterministic_turns_are_known, runs_are_computed};
use ht_grammar::texts_are_read_exactly;
use totality::{behaviours_are_logged, behaviours_have_an_outcome, runs_have_an_outcome};
use whole_states::{runs_lead_to_whole_states, trees_have_texts};

/// Each fresh command has a reply, with a state after it, in any state and with any number of steps; but for a text
/// that is typed into a locked field.
pub fn replies_exist()
    ensures { RepliesExist }
{
    runs_have_an_outcome();
}

/// For each behaviour of the externals, in a whole state each fresh command whose texts are texts has a reply in which
/// each turn is that of the behaviour; but for a text that is typed into a locked field.
pub fn replies_exist_by_behaviours()
    ensures { RepliesExistBy }
{
    behaviours_have_an_outcome();
    behaviours_are_logged();
}

/// Two replies to one fresh command, at one moment, whose turns of externals are told by one table and the same turns
/// beside it, are the same, and so is what they leave.
pub fn replies_are_one()
    ensures { RepliesAreOne }
{
    runs_are_computed();
}

/// Whatever the externals do, a fresh command whose texts are texts leads from a whole state to a whole one.
pub fn replies_stay_whole()
    ensures { RepliesStayWhole }
{
    runs_lead_to_whole_states();
}

/// Each turn of the kit's table leaves as many cells and makes texts of texts: so the table is a behaviour of the kit's
/// externals, by which lines have answers.
pub fn kit_is_a_table()
    ensures { IsTable kit_table }
{}

/// Along a transcript the externals stay, and each log only grows.
pub fn transcripts_go_on()
    ensures { TranscriptsGoOn }
{}

/// Whatever the externals do, a transcript of lines of bytes leads from whole states to whole states.
pub fn transcripts_stay_whole()
    ensures lines { TranscriptsStayWhole }
    ensures input { OutputsStayWhole }
{
    replies_stay_whole();
    trees_have_texts();
}

/// Whatever behaviour the externals have, from whole states lines of bytes have a transcript in which each turn is that
/// of the behaviour. Where the behaviour is as a table says, logs that follow the table go on to follow it.
pub fn transcripts_exist_by_behaviours()
    ensures lines { TranscriptsExistBy }
    ensures input { OutputsExistBy }
    ensures tables { BehavioursFollowTables }
{
    replies_exist_by_behaviours();
    replies_stay_whole();
    trees_have_texts();
    texts_are_read_exactly();
}

/// Each list of lines, and so each input, has a transcript, from any list of states on, if the cursor stands on one of
/// them, and from any desk.
pub fn transcripts_exist()
    ensures lines { TranscriptsExist }
    ensures input { OutputsExist }
{
    replies_exist();
    texts_are_read_exactly();
}

/// Two transcripts of the same lines are the same, and so are the states, the cursor, the logs and the saved text after
/// them, where the turns of the externals are told by one table and the same turns beside it. The table alone tells
/// them where it has each turn of each kind, as that of the kit's four has, and without a table the logs do.
pub fn transcripts_are_one()
    ensures lines { TranscriptsAreOne }
    ensures input { OutputsAreOne }
    ensures tables { TablesTellTurns }
    ensures table { TablesTellTranscripts }
    ensures kit { KitIsDeterministic }
    ensures logs { LogsTellTurns }
{
    replies_are_one();
    runs_are_computed();
    nondeterministic_turns_are_known();
    texts_are_read_exactly();
}
