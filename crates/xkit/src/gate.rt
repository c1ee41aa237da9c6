//! Gate: a command that passes every other message on.

ghost use Rattle.std.specs.Prelude.{◌≡◌, length, IfOk, OnErr};
ghost use Rattle.xkit.specs.Table.{gate_turn};
ghost use Rattle.xkit.specs.Steps.{Takes};

use crate::cells::Cells;
use crate::turn_result::{TurnResult, changed, unchanged};
use externals::{Ask, Input};
use ht_values::Text;
use std::alloc::Global;

/// One turn: a message stops at an open gate, and passes a shut one.
pub(crate) fn turned(cells: &mut Cells, alloc: Global, input: &Input) -> TurnResult
    requires { length cells.old ≡ 1 }
    ensures ok { IfOk result (λ r. Takes (gate_turn cells.old input.now) cells.old cells.new r.0 r.1) }
    ensures err { OnErr result (cells.new ≡ cells.old) }
    ensures count { length cells.new ≡ length cells.old }
{
    if let Input::Answer(_, _) = input {
        return Ok(unchanged(alloc, Ask::Fail));
    }
    if cells.has(0, b"0") {
        let passing = Text::fitting(alloc, b"1")?;
        changed(cells, alloc, 0, passing, Ask::Done(Text::new(alloc), false))
    } else if cells.has(0, b"1") {
        let stopping = Text::fitting(alloc, b"0")?;
        changed(cells, alloc, 0, stopping, Ask::Done(Text::new(alloc), true))
    } else {
        Ok(unchanged(alloc, Ask::Fail))
    }
}
