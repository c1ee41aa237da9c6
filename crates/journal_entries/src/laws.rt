//! How many entries a batch has at most, and what externals are.

ghost use Rattle.std.specs.Prelude.{List, map, All};
ghost use Rattle.externals.specs.Cells.{IsExternal};
ghost use Rattle.journal_entries.specs.State.{seen_by};
ghost use Rattle.journal_entries.specs.Places.{Place};
ghost use Rattle.journal_entries.specs.Trails.{Mark, IsOnce, AreAmong, IsShort, different};

use externals::{External, law_of_external};

/// Where each place stands once between two structural entries, before the first and after the last, and the
/// entries are of p different places, a batch with s structural entries has at most s + (s + 1) * p entries.
pub fn law_of_trails()
    ensures { (trail : List Mark) (places : List Place) → IsOnce trail → AreAmong places trail
        → IsShort trail (different places) }
{}

/// What externals are by their types. It reads their names and cells, and does nothing with them.
pub fn law_of_externals<E: External>(externals: &[E])
    ensures { All IsExternal (map (seen_by E.title E.sort E.answers_calls E.cells) externals.now) }
{
    for external in externals {
        law_of_external(external);
    }
}
