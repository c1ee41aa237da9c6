//! What a turn answers: what is asked, with the patch of what changed.

ghost use Rattle.std.specs.Prelude.{◌≡◌, ℕ, ◌<◌, ◌++◌, List, [], ◌∷◌, length, IfOk, OnOk, OnErr, slice_set};
ghost use Rattle.xkit.specs.Table.{number_in};
ghost use Rattle.xkit.specs.Steps.{Takes};

use crate::cells::Cells;
use externals::{Ask, Patch, Texts};
use ht_values::{Text, numeral};
use std::alloc::{AllocError, Global};

/// What a turn answers, unless it is out of memory.
pub type TurnResult = Result<(Ask, Patch), AllocError>;

/// What a turn answers that asks this and changes no cell. It takes no memory.
pub fn unchanged(alloc: Global, ask: Ask) -> (Ask, Patch)
    ensures { (cells : List (List ℕ)) → Takes (ask, cells) cells cells result.0 result.1 }
{
    (ask, Patch::new(alloc))
}

/// Gives one cell, from 0, a text, for a turn that asks this and changes no other cell. Out of memory the cells are as
/// they were.
pub fn changed(cells: &mut Cells, alloc: Global, cell: usize, text: Text, ask: Ask) -> TurnResult
    requires { cell < length cells.old }
    ensures ok { IfOk result (λ r. Takes (ask, slice_set cells.old cell text) cells.old cells.new r.0 r.1) }
    ensures err { OnErr result (cells.new ≡ cells.old) }
    ensures count { length cells.new ≡ length cells.old }
{
    let patch = cells.change(alloc, cell, text)?;
    Ok((ask, patch))
}

/// The number that a text spells.
#[tactic(auto, unfolding(crate::specs::Table::number_in))]
pub(crate) fn number(text: &Text) -> Option<i64>
    ensures { result ≡ number_in text.now }
{
    numeral(text)
}

/// Adds a text to a list.
pub(crate) fn add(texts: &mut Texts, text: Text) -> Result<(), AllocError>
    ensures { OnOk result (texts.new ≡ texts.old ++ text ∷ []) }
{
    match texts.push(text) {
        Ok(()) => Ok(()),
        Err(_) => Err(AllocError),
    }
}
