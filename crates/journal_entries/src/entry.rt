//! An entry of a batch: what one exchange needs.

ghost use Rattle.std.specs.Prelude.{◌≡◌};
ghost use Rattle.journal_entries.specs.Exchange.{is_structural};

use externals::Patch;
use ht_values::Text;
use stack_places::StackEntry;

/// A place with the value that isn't there now, or an external's number with a patch: at most 48 bytes, beside the
/// texts and lists and what stands in boxes.
#[derive(Drop)]
pub enum Entry {
    /// The number of a global's name.
    Global(usize, Option<Text>),
    Current(u32),
    Stack(StackEntry),
    External(usize, Patch),
}

/// Batches are lists of entries, so the largest one counts for all.
const _: () = prove!(size_of::<Entry>() <= 48);

/// The entries that make a change, ready to be exchanged.
#[derive(Drop)]
pub enum Prepared {
    /// Those of a change of one place, without a list of their own.
    One(Entry),
    Several(Vec<Entry>),
}

/// Whether the entry makes or removes an object.
#[tactic(auto, unfolding(crate::specs::Exchange::is_structural))]
pub fn is_structural_entry(entry: &Entry) -> bool
    ensures { result ≡ is_structural entry.now }
{
    match entry {
        Entry::Stack(entry) => entry.is_structural(),
        Entry::Global(_, _) | Entry::Current(_) | Entry::External(_, _) => false,
    }
}
