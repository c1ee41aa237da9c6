//! The options of the program.

ghost use Rattle.std.specs.Prelude.{◌≤◌};
ghost use Rattle.change_journal.specs.declared.world.TheConstants.{MOST_DEPTH};
ghost use Rattle.session.specs.declared.limits.TheConstants.{MOST_STEPS};

/// What the words of the program say: `STACK [--steps N] [--depth D] [--watch] [--explain] [--check]`.
#[derive(Debug, Drop)]
pub struct Options {
    /// The path of the stack.
    pub stack: String,
    /// How many steps a command may take, 1 to 10,000,000.
    pub steps: u32,
    /// How many places the history keeps, 1 to 1,000,000.
    pub depth: u32,
    /// Whether the messages that are sent are shown.
    pub watch: bool,
    /// Whether it is told why lines fault or are refused.
    pub explain: bool,
    /// Whether the scripts are looked at, and nothing is run.
    pub check: bool,
    ghost some_steps: { 1 ≤ steps },
    ghost few_steps: { steps ≤ MOST_STEPS },
    ghost some_depth: { 1 ≤ depth },
    ghost few_depth: { depth ≤ MOST_DEPTH },
}
