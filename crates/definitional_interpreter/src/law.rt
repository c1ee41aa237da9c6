//! A function computes a run, by what is told of its externals.

ghost use Rattle.definitional_interpreter.specs.Alone.{ExpressionsAreAllowed};
ghost use Rattle.definitional_interpreter.specs.Laws.{LinesAreComputed, MessagesAreComputed, ActionsAreComputed};
ghost use Rattle.definitional_interpreter.specs.Laws.{ReferencesAreComputed, ValuesAreComputed};
ghost use Rattle.definitional_interpreter.specs.Laws.{DeterministicKindsHaveNoTurnsToTell};
ghost use Rattle.definitional_interpreter.specs.Laws.{WithNoTableAllTurnsHaveToBeTold};
ghost use Rattle.definitional_interpreter.specs.Rows.{Sum, Quotient, NoNumber, FaultAfterLines, Choice, Repeated};
ghost use Rattle.definitional_interpreter.specs.Rows.{Chunks, NoExpression, ExitToHyperCard, Delimiter};
ghost use Rattle.definitional_interpreter.specs.Rows.{GlobalVariable, Repeats, Function, Passed, FaultThreeDeep};
ghost use Rattle.definitional_interpreter.specs.Rows.{Conversation};

use ht_grammar::texts_are_read_exactly;

/// Rows of the language that were worked by hand: the function gives the answers that they say.
pub fn worked_rows_are_computed()
    ensures sum { Sum }
    ensures quotient { Quotient }
    ensures no_number { NoNumber }
    ensures fault_after_lines { FaultAfterLines }
    ensures choice { Choice }
    ensures repeated { Repeated }
    ensures chunk { Chunks }
    ensures no_expression { NoExpression }
    ensures exit_to_hypercard { ExitToHyperCard }
    ensures delimiter { Delimiter }
    ensures global_variable { GlobalVariable }
    ensures repeats { Repeats }
    ensures function { Function }
    ensures passed { Passed }
    ensures fault_three_deep { FaultThreeDeep }
    ensures conversation { Conversation }
{}

/// What an expression that sends no message comes to by the function, the rules allow, and nothing changes.
pub fn expressions_are_allowed()
    ensures { ExpressionsAreAllowed }
{}

/// Where an external is deterministic by the table, no turn of it has to be told beside it; with no table each has.
pub fn nondeterministic_turns_are_known()
    ensures deterministic { DeterministicKindsHaveNoTurnsToTell }
    ensures no_table { WithNoTableAllTurnsHaveToBeTold }
{}

/// What the rules allow of lines, a message, an action, the reference of a dot line or an expression is what the
/// function gives, with enough fuel, where the run isn't out of memory, and each turn of its externals is told: by a
/// table, which the turns follow, or else by the turns that stand beside it.
pub fn runs_are_computed()
    ensures lines { LinesAreComputed }
    ensures messages { MessagesAreComputed }
    ensures actions { ActionsAreComputed }
    ensures references { ReferencesAreComputed }
    ensures values { ValuesAreComputed }
{
    texts_are_read_exactly();
}
