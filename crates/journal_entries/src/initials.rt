//! The bytes that names begin with.

ghost use Rattle.std.specs.Prelude.{◌≡◌, ℕ, List, slice_index, true};
ghost use Rattle.journal_entries.specs.Initials.{may_have};

use std::marker::Model;

/// How many bytes there are.
const BYTES: usize = 256;

/// Beside each byte whether a name was added that begins with it, so that most names that weren't are told at once, and
/// the number of the one that was used last, which is most often looked for.
#[derive(Drop)]
pub(crate) struct Initials {
    seen: [bool; BYTES],
    numbers: [u32; BYTES],
}

impl Model for Initials {
    ghost use Rattle.std.specs.Prelude.{List, Bool};

    ghost Value = { List Bool };

    ghost view = { λ i. i.seen };
}

impl Initials {
    /// No name.
    pub(crate) fn new() -> Initials {
        Initials {
            seen: [false; BYTES],
            numbers: [0; BYTES],
        }
    }

    /// Whether this name may have been added; one that was may have been.
    #[inline(always)]
    pub(crate) fn may_have(&self, name: &[u8]) -> bool
        ensures { result ≡ may_have self.now name.now }
    {
        self.seen[usize::from(initial(name))]
    }

    /// Adds a name.
    pub(crate) fn add(&mut self, name: &[u8])
        ensures added { may_have self.new name.now ≡ true }
        ensures kept { (other : List ℕ) → may_have self.old other ≡ true → may_have self.new other ≡ true }
    {
        self.seen[usize::from(initial(name))] = true;
    }

    /// The number that a name probably has. No clause tells it: who asks looks whether it is so.
    #[inline(always)]
    pub(crate) fn likely_number(&self, name: &[u8]) -> usize {
        self.numbers[usize::from(initial(name))] as usize
    }

    /// A name of this number is used.
    pub(crate) fn used(&mut self, name: &[u8], number: usize)
        ensures { self.new ≡ self.old }
    {
        if let Ok(number) = u32::try_from(number) {
            self.numbers[usize::from(initial(name))] = number;
        }
    }
}

/// The first byte of a name, 0 where it has none.
#[inline(always)]
fn initial(name: &[u8]) -> u8
    ensures { result ≡ slice_index name.now 0 }
{
    match name {
        [] => 0,
        [first, ..] => *first,
    }
}
