//! A run has one outcome, by what is told of its externals.

ghost use Rattle.determinism.specs.Laws.{LinesHaveOneOutcome, MessagesHaveOneOutcome, ActionsHaveOneOutcome};
ghost use Rattle.determinism.specs.Laws.{ReferencesHaveOneOutcome, ValuesHaveOneOutcome};

use ht_grammar::texts_are_read_exactly;

/// For any table of turns, two runs of the same lines, message, action, reference of a dot line or expression from the
/// same state, neither of which is out of memory, have the same end, state, run and turns of externals, where these
/// follow the table and took the same turns of those that the table doesn't have. So where each external is
/// deterministic by the table a run has one outcome, and else the logs of the others tell it.
pub fn runs_have_one_outcome()
    ensures lines { LinesHaveOneOutcome }
    ensures messages { MessagesHaveOneOutcome }
    ensures actions { ActionsHaveOneOutcome }
    ensures references { ReferencesHaveOneOutcome }
    ensures values { ValuesHaveOneOutcome }
{
    texts_are_read_exactly();
}
