//! Laws of outcomes that exist.

ghost use Rattle.totality.specs.Laws.{LinesHaveAnOutcome, MessagesHaveAnOutcome, ActionsHaveAnOutcome};
ghost use Rattle.totality.specs.Laws.{ReferencesHaveAnOutcome, ValuesHaveAnOutcome};
ghost use Rattle.totality.specs.Laws.{LinesHaveAnOutcomeBy, MessagesHaveAnOutcomeBy, ActionsHaveAnOutcomeBy};
ghost use Rattle.totality.specs.Laws.{ReferencesHaveAnOutcomeBy, ValuesHaveAnOutcomeBy};
ghost use Rattle.totality.specs.Laws.{BehavioursAreLogged, BehavioursFollowTables};
ghost use Rattle.totality.specs.Tables.{TablesAreBehaviours};

use ht_grammar::texts_are_read_exactly;
use whole_states::runs_lead_to_whole_states;

/// For each behaviour of the externals that keeps their number of cells and makes texts of texts, lines, a message, an
/// action, the reference of a dot line or the value of an expression, of texts, have an end that the rules allow and
/// that isn't out of memory, from whole states while a batch is open; each turn is that of the behaviour, and each
/// state after it is whole; but for a text that is typed into a locked field.
pub fn behaviours_have_an_outcome()
    ensures lines { LinesHaveAnOutcomeBy }
    ensures messages { MessagesHaveAnOutcomeBy }
    ensures actions { ActionsHaveAnOutcomeBy }
    ensures references { ReferencesHaveAnOutcomeBy }
    ensures values { ValuesHaveAnOutcomeBy }
{
    texts_are_read_exactly();
    runs_lead_to_whole_states();
}

/// Where a behaviour is followed, the log of each external is the one before with turns more, each of which is that of
/// the behaviour by the log and the cells before it; so where the behaviour is as a table says, they follow the table.
pub fn behaviours_are_logged()
    ensures turns { BehavioursAreLogged }
    ensures tables { BehavioursFollowTables }
{}

/// A table whose turns leave as many cells and make texts of texts is a behaviour, for externals of any kinds: so there
/// is an outcome whose turns follow the table.
pub fn tables_are_behaviours()
    ensures { TablesAreBehaviours }
{}

/// Lines, a message, an action, the reference of a dot line or the value of an expression have an end that the rules
/// allow and that isn't out of memory, while a batch is open, whatever they are and whatever the state; but for a text
/// that is typed into a locked field.
pub fn runs_have_an_outcome()
    ensures lines { LinesHaveAnOutcome }
    ensures messages { MessagesHaveAnOutcome }
    ensures actions { ActionsHaveAnOutcome }
    ensures references { ReferencesHaveAnOutcome }
    ensures values { ValuesHaveAnOutcome }
{
    texts_are_read_exactly();
}
