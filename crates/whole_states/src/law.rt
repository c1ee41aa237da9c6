//! What is read, computed and written of texts is texts, and whole states lead to whole states.

ghost use Rattle.whole_states.specs.Laws.{LinesLeadToWhole, MessagesLeadToWhole, ActionsLeadToWhole};
ghost use Rattle.whole_states.specs.Laws.{ReferencesLeadToWhole, ValuesLeadToWhole};
ghost use Rattle.whole_states.specs.Texts.{ExpressionsHaveTexts, TypedLinesHaveTexts, SentMessagesHaveTexts};
ghost use Rattle.whole_states.specs.Texts.{ScriptsHaveTexts, ClickedPartsHaveTexts, TypedTextsHaveTexts};

use chunks::parts_cut;

/// A text that is read as a tree gives it texts alone: an expression, lines, a message, a script, a part that is
/// clicked, and a text that is typed into a field.
pub fn trees_have_texts()
    ensures expressions { ExpressionsHaveTexts }
    ensures lines { TypedLinesHaveTexts }
    ensures messages { SentMessagesHaveTexts }
    ensures scripts { ScriptsHaveTexts }
    ensures parts { ClickedPartsHaveTexts }
    ensures typed { TypedTextsHaveTexts }
{}

/// From a history each state of which is whole, whatever its externals do, each run that the rules allow leads to one
/// each state of which is whole, and the turns of its externals are of texts, unless it is out of memory: lines, a
/// message, an action, the reference of a dot line and an expression, whose trees and arguments are texts.
pub fn runs_lead_to_whole_states()
    ensures lines { LinesLeadToWhole }
    ensures messages { MessagesLeadToWhole }
    ensures actions { ActionsLeadToWhole }
    ensures references { ReferencesLeadToWhole }
    ensures values { ValuesLeadToWhole }
{
    parts_cut();
}
