//! What flips of patches do and what each external is, for the layers above.

ghost use Rattle.std.specs.Prelude.{◌≡◌, ℕ, List, length};
ghost use Rattle.std.specs.List.{AllByRecursion};
ghost use Rattle.ht_values.specs.Text.{IsText};
ghost use Rattle.externals.specs.Cells.{Changes, flipped, taken_out, IsProper, IsPatch, IsExternal};
ghost use Rattle.externals.specs.Turns.{AskTexts};

use crate::external::{Ask, External};
use crate::texts::Texts;
use ht_values::{Text, law_of_text};

/// A flip of what came out takes a flip back, and the patch after it is the first one again. The patch of a
/// turn flips the new cells to the old ones.
pub fn laws_of_flips()
    ensures back { (cells : List (List ℕ)) (p : Changes) → IsProper (length cells) p
        → flipped (flipped cells p) (taken_out cells p) ≡ cells }
    ensures again { (cells : List (List ℕ)) (p : Changes) → IsProper (length cells) p
        → taken_out (flipped cells p) (taken_out cells p) ≡ p }
    ensures proper { (n : ℕ) (cells : List (List ℕ)) (p : Changes) → IsProper n p → IsProper n (taken_out cells p) }
    ensures turn { (old new : List (List ℕ)) (p : Changes) → IsPatch old new p → flipped new p ≡ old }
{}

/// What an external is by its types. A text is known to be one as its bytes are read, so this reads the name and
/// all cells; nothing is done with them.
pub fn law_of_external<E: External>(external: &E)
    ensures { IsExternal
        (record {
          title = E.title external.now;
          sort = E.sort external.now;
          answers_calls = E.answers_calls
              external.now;
          cells = E.cells external.now;
        }) }
{
    law_of_text(external.name());
    for i in 0..external.cell_count() {
        law_of_text(external.cell(i));
    }
}

/// What is asked is texts, as its types say.
pub fn law_of_ask(ask: &Ask)
    ensures { AskTexts ask.now }
{
    match ask {
        Ask::SendCardMessage(note, text) | Ask::EvalExpr(note, text) => law_of_call_back(
            note, text,
        ),
        Ask::SetGlobal(note, name, value) | Ask::SetFieldByName(note, _, name, value) => {
            law_of_text(name);
            law_of_call_back(note, value);
        }
        Ask::Done(value, _) => law_of_text(value),
        Ask::Fail => {}
    }
}

/// A note is texts, and so is what stands beside it.
fn law_of_call_back(note: &Texts, text: &Text)
    ensures note { AllByRecursion IsText note.now }
    ensures text { IsText text.now }
{
    for i in 0..note.len() {
        law_of_text(note.at(i));
    }
    law_of_text(text);
}
