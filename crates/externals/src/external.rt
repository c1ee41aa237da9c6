//! What an external is: its name, kind and cells, and what it does at a turn.

ghost use Rattle.std.specs.Prelude.{◌≡◌, ℕ, ◌<◌, ◌++◌, Bool, List, [], ◌∷◌, length, IfOk, OnErr, slice_get, Some};
ghost use Rattle.externals.specs.Cells.{flipped, taken_out, IsProper, IsPatch};

use crate::patch::Patch;
use crate::texts::Texts;
use ht_values::Text;
use std::alloc::{AllocError, Global};

/// What an external is told at a turn.
pub enum Input {
    /// A handler called it with these arguments.
    Start(Texts),
    /// The call-back with this note has this value.
    Answer(Texts, Text),
}

/// Written here and not derived, so that no crate above proves anew how it is dropped.
impl Drop for Input {
    // Else each place that drops one has a copy of it in its frame.
    #[inline(always)]
    fn drop(self) {
        match self {
            Input::Start(_) => {}
            Input::Answer(_, _) => {}
        }
    }
}

/// What an external wants after a turn: a call-back, whose answer comes with the same note, or an end. The first member
/// of a call-back is its note.
#[derive(Drop)]
pub enum Ask {
    /// Run the text as a typed line.
    SendCardMessage(Texts, Text),
    /// Compute the text as an expression.
    EvalExpr(Texts, Text),
    /// Put the value (second) into the global of this name (first).
    SetGlobal(Texts, Text, Text),
    /// Put the value into the first field of this name, on the card (`true`) or its background (`false`).
    SetFieldByName(Texts, bool, Text, Text),
    /// The conversation ends with this value; with `true` the message is passed on and the value dropped.
    Done(Text, bool),
    /// The conversation ends by the fault of an external.
    Fail,
}

/// An object with cells of text, its lasting state, that is called by name from a handler.
///
/// Its name, its kind, whether it is a function and how many cells it has never change. Only `turn` and
/// `flip` change cells.
///
/// Its log is what it did: each of its turns, with its cells before it, what it was handed, what it asked and its cells
/// after it. Only proofs read it. It is no cell, and no flip takes a turn out of it.
pub trait External: Drop {
    ghost use Rattle.externals.specs.Log.{Log};

    ghost title: { Self → List ℕ };

    ghost sort: { Self → ℕ };

    ghost answers_calls: { Self → Bool };

    ghost cells: { Self → List (List ℕ) };

    ghost log: { Self → Log };

    /// The name by which handlers call it.
    fn name(&self) -> &Text
        ensures { result.now ≡ title self.now };

    /// Its kind, which never changes: 1 to 4 for those of the kit.
    fn kind(&self) -> u32
        ensures { result ≡ sort self.now };

    /// Whether it answers function calls; else it answers commands.
    fn is_function(&self) -> bool
        ensures { result ≡ answers_calls self.now };

    /// How many cells it has.
    fn cell_count(&self) -> usize
        ensures { result ≡ length (cells self.now) };

    /// The i-th cell, from 0.
    fn cell(&self, i: usize) -> &Text
        requires { i < length (cells self.now) }
        ensures { slice_get (cells self.now) i ≡ Some result.now };

    /// One turn of a conversation. The patch names just the cells that changed, each once, with its old text. The log
    /// has then this turn more at its end. Where memory was refused the cells and the log are as before.
    fn turn(&mut self, alloc: Global, input: &Input) -> Result<(Ask, Patch), AllocError>
        ensures patch { IfOk result (λ r. IsPatch (cells self.old) (cells self.new) r.1) }
        ensures err { OnErr result (cells self.new ≡ cells self.old) }
        ensures log { IfOk result (λ r. log self.new ≡ log self.old ++ (record {
          before = cells self.old;
          input = input.now;
          ask = r.0;
          cells = cells self.new;
        }) ∷ []) }
        ensures log_err { OnErr result (log self.new ≡ log self.old) }
        ensures title { title self.new ≡ title self.old }
        ensures sort { sort self.new ≡ sort self.old }
        ensures flag { answers_calls self.new ≡ answers_calls self.old };

    /// Exchanges the cells that a patch names, each of its own and named once, with the patch's texts.
    fn flip(&mut self, patch: &mut Patch)
        requires { IsProper (length (cells self.old)) patch.old }
        ensures cells { cells self.new ≡ flipped (cells self.old) patch.old }
        ensures patch { patch.new ≡ taken_out (cells self.old) patch.old }
        ensures log { log self.new ≡ log self.old }
        ensures title { title self.new ≡ title self.old }
        ensures sort { sort self.new ≡ sort self.old }
        ensures flag { answers_calls self.new ≡ answers_calls self.old };
}

/// What the type of an external says of turns, in one table for all externals of the type: where the table has a turn
/// for a kind, cells and an input, this is the one that is taken, so each turn of a log is that of the table. A type
/// that says nothing has `no_table`.
pub trait HasTable: External {
    ghost use Rattle.externals.specs.Turns.{TurnTable};
    ghost use Rattle.externals.specs.Log.{Follows};

    ghost turn_table: { TurnTable };

    ghost follows: { (x : Self) → Follows turn_table (Self.External.sort x) (Self.External.log x) };
}
