//! Bins: a command that keeps texts under numbers.

ghost use Rattle.std.specs.Prelude.{◌≡◌, ◌<◌, [], length, false, IfOk, OnErr, slice_index_or, slice_set};
ghost use Rattle.xkit.specs.Table.{bin_of, bins_turn, number_in};
ghost use Rattle.xkit.specs.Steps.{Takes};

use crate::cells::Cells;
use crate::turn_result::{TurnResult, changed, number, unchanged};
use externals::{Ask, Input, Texts};
use ht_values::Text;
use std::alloc::Global;

/// The cell of the bin that a text numbers from 1 to 16.
fn bin(text: &Text) -> Option<usize>
    ensures { result ≡ bin_of (number_in text.now) }
{
    let number = number(text)?;
    if 1 <= number && number <= 16 {
        Some(number as usize - 1)
    } else {
        None
    }
}

/// One turn: a start with a bin and a text keeps the text there and tells the old one.
pub(crate) fn turned(cells: &mut Cells, alloc: Global, input: &Input) -> TurnResult
    requires { length cells.old ≡ 16 }
    ensures ok { IfOk result (λ r. Takes (bins_turn cells.old input.now) cells.old cells.new r.0 r.1) }
    ensures err { OnErr result (cells.new ≡ cells.old) }
    ensures count { length cells.new ≡ length cells.old }
{
    match input {
        Input::Start(args) if args.len() == 2 => kept(cells, alloc, args),
        _ => Ok(unchanged(alloc, Ask::Fail)),
    }
}

fn kept(cells: &mut Cells, alloc: Global, args: &Texts) -> TurnResult
    requires cells { length cells.old ≡ 16 }
    requires args { length args.now ≡ 2 }
    ensures ok { IfOk result (λ r. Takes (bins_turn cells.old (Input.Start args.now)) cells.old cells.new r.0 r.1) }
    ensures err { OnErr result (cells.new ≡ cells.old) }
    ensures count { length cells.new ≡ length cells.old }
{
    match bin(args.at(0)) {
        Some(cell) => exchanged(cells, alloc, cell, args.at(1)),
        None => Ok(unchanged(alloc, Ask::Fail)),
    }
}

/// Keeps a text in a cell, from 0, and tells the one that was there.
fn exchanged(cells: &mut Cells, alloc: Global, cell: usize, text: &Text) -> TurnResult
    requires { cell < length cells.old }
    ensures ok { IfOk result (λ r. Takes
        (Ask.Done (slice_index_or cells.old cell []) false, slice_set cells.old cell text.now)
        cells.old cells.new r.0 r.1) }
    ensures err { OnErr result (cells.new ≡ cells.old) }
    ensures count { length cells.new ≡ length cells.old }
{
    let old = cells.at(cell).try_clone(alloc)?;
    let new = text.try_clone(alloc)?;
    changed(cells, alloc, cell, new, Ask::Done(old, false))
}
