//! Laws over the rules of HyperTalk. Each holds of lines, of a message, of an action, of the reference of a dot line
//! and of an expression.

ghost use Rattle.preservation.specs.Laws.{LinesKeepBases, MessagesKeepBases, ActionsKeepBases, ReferencesKeepBases};
ghost use Rattle.preservation.specs.Laws.{ValuesKeepBases};
ghost use Rattle.preservation.specs.Laws.{LinesRise, MessagesRise, ActionsRise, ReferencesRise, ValuesRise};
ghost use Rattle.preservation.specs.Laws.{LinesGoOn, MessagesGoOn, ActionsGoOn, ReferencesGoOn, ValuesGoOn};
ghost use Rattle.preservation.specs.Laws.{LinesStayWhole, MessagesStayWhole, ActionsStayWhole, ReferencesStayWhole};
ghost use Rattle.preservation.specs.Laws.{ValuesStayWhole};
ghost use Rattle.preservation.specs.Laws.{BatchesAreShort};

/// A run that doesn't run out of memory leaves what stands round the open batch: the states before and after the
/// cursor, their numbers, the state that the batch began with, and which externals there are.
#[tactic(auto, using(crate::proofs::Bases::base_line, crate::proofs::Bases::base_message, crate::proofs::Bases::base_acts, crate::proofs::Bases::base_refers, crate::proofs::Bases::base_val))]
pub fn runs_keep_bases()
    ensures lines { LinesKeepBases }
    ensures messages { MessagesKeepBases }
    ensures actions { ActionsKeepBases }
    ensures references { ReferencesKeepBases }
    ensures values { ValuesKeepBases }
{}

/// The open batch weighs no more after it than what the run replaced, and its trail is the one after that.
#[tactic(auto, using(crate::proofs::Rises::rises_line, crate::proofs::Rises::rises_message, crate::proofs::Rises::rises_acts, crate::proofs::Rises::rises_refers, crate::proofs::Rises::rises_val))]
pub fn runs_rise()
    ensures lines { LinesRise }
    ensures messages { MessagesRise }
    ensures actions { ActionsRise }
    ensures references { ReferencesRise }
    ensures values { ValuesRise }
{}

/// A batch has few entries for the different places that its run replaced.
#[tactic(auto, using(crate::proofs::Trails::short_after))]
pub fn batches_are_short()
    ensures { BatchesAreShort }
{}

/// A run takes steps and gives none back, and what it has shown and sent stays.
#[tactic(auto, using(crate::proofs::Runs::goes_line, crate::proofs::Runs::goes_message, crate::proofs::Runs::goes_acts, crate::proofs::Runs::goes_refers, crate::proofs::Runs::goes_val))]
pub fn runs_go_on()
    ensures lines { LinesGoOn }
    ensures messages { MessagesGoOn }
    ensures actions { ActionsGoOn }
    ensures references { ReferencesGoOn }
    ensures values { ValuesGoOn }
{}

/// A run leads from whole states to whole states, if what it wrote is texts, whatever the externals are: the stack
/// stays well formed, globals keep folded names, the current card is there, and externals are as their kinds have them.
#[tactic(auto, using(crate::proofs::Wholes::whole_line, crate::proofs::Wholes::whole_message, crate::proofs::Wholes::whole_acts, crate::proofs::Wholes::whole_refers, crate::proofs::Wholes::whole_val))]
pub fn runs_keep_states_whole()
    ensures lines { LinesStayWhole }
    ensures messages { MessagesStayWhole }
    ensures actions { ActionsStayWhole }
    ensures references { ReferencesStayWhole }
    ensures values { ValuesStayWhole }
{}
