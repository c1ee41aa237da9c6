//! The log of an external. It takes no memory, and its methods do nothing at run time.

ghost use Rattle.std.specs.Prelude.{◌≡◌, ℕ, [], ◌∷◌, ◌++◌};
ghost use Rattle.std.specs.Borrow.{ftrue};
ghost use Rattle.externals.specs.Turns.{TurnTable};
ghost use Rattle.externals.specs.Log.{Log, Follows, IsTurnOf, coded_log};

use crate::cells::Cells;
use externals::{Ask, Input};
use std::marker::Model;
use std::snapshot::Snapshot;

/// The turns that an external took, the first one first, which contracts see as `turns`. Only proofs read them.
///
/// An external holds one, which it makes with `new`. It gives `turns` as its log, and records each turn once its cells
/// are those after it.
#[derive(Drop)]
#[non_exhaustive]
pub struct TurnLog {
    pub ghost turns: { Log } by { coded_log },
}

impl Model for TurnLog {
    ghost also_owns = { λ _. ftrue };
}

impl TurnLog {
    /// A log of no turn, which follows each table.
    pub fn new() -> TurnLog
        ensures { result.turns ≡ [] }
    {
        TurnLog {}
    }

    /// Adds a turn at the end: the cells before it, of which the turn made a snapshot first, what came in, what was
    /// asked, and the cells after it. A log that follows a table still does, if the turn is that of the table.
    pub fn record(&mut self, before: &Snapshot<Cells>, input: &Input, ask: &Ask, cells: &Cells)
        ensures turns { self.new.turns ≡ self.old.turns
            ++ (record { before = before.now.value; input = input.now; ask = ask.now; cells = cells.now }) ∷ [] }
        ensures follows { (table : TurnTable) (kind : ℕ) → Follows table kind self.old.turns
            → IsTurnOf table kind
            (record { before = before.now.value; input = input.now; ask = ask.now; cells = cells.now })
            → Follows table kind self.new.turns }
    {
        *self = TurnLog::with(self, before, input, ask, cells);
    }

    /// The log with a turn more at its end.
    fn with(
        _log: &TurnLog,
        _before: &Snapshot<Cells>,
        _input: &Input,
        _ask: &Ask,
        _cells: &Cells,
    ) -> TurnLog
        ensures { result.turns ≡ _log.now.turns
            ++ (record { before = _before.now.value; input = _input.now; ask = _ask.now; cells = _cells.now }) ∷ [] }
    {
        TurnLog {}
    }
}
