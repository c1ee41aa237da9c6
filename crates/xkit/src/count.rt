//! Count: a function that counts its calls.

ghost use Rattle.std.specs.Prelude.{◌≡◌, length, IfOk, OnErr};
ghost use Rattle.xkit.specs.Table.{after, counter_turn, number_in};
ghost use Rattle.xkit.specs.Steps.{Takes};

use crate::cells::Cells;
use crate::turn_result::{TurnResult, changed, number, unchanged};
use externals::{Ask, Input};
use ht_values::{Text, text_of};
use std::alloc::Global;

/// The number after the one that a text spells.
fn next_number(text: &Text) -> Option<i64>
    ensures { result ≡ after (number_in text.now) }
{
    let number = number(text)?;
    if number < i64::MAX {
        Some(number + 1)
    } else {
        None
    }
}

/// One turn: a call counts the cell up and tells the count.
pub(crate) fn turned(cells: &mut Cells, alloc: Global, input: &Input) -> TurnResult
    requires { length cells.old ≡ 1 }
    ensures ok { IfOk result (λ r. Takes (counter_turn cells.old input.now) cells.old cells.new r.0 r.1) }
    ensures err { OnErr result (cells.new ≡ cells.old) }
    ensures count { length cells.new ≡ length cells.old }
{
    if let Input::Answer(_, _) = input {
        return Ok(unchanged(alloc, Ask::Fail));
    }
    match next_number(cells.at(0)) {
        Some(next) => {
            let count = text_of(alloc, next)?;
            let told = count.try_clone(alloc)?;
            changed(cells, alloc, 0, count, Ask::Done(told, false))
        }
        None => Ok(unchanged(alloc, Ask::Fail)),
    }
}
