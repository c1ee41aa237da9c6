//! Bytes so few that they stand in their own place, which takes no memory.

ghost use Rattle.std.specs.Prelude.{◌≡◌, ◌≤◌, ◌+◌, ◌++◌, ℕ, List, [], length, take};
ghost use Rattle.ht_values.specs.Text.{folded as folded_of};
ghost use Rattle.ht_values.specs.declared.few_bytes.TheConstants.{IN_PLACE};

use std::marker::Model;

/// How many bytes stand in their own place.
pub const IN_PLACE: usize = 22;

// Contracts name the number, so it is said a second time: another one is refused here.
const _: () = prove!(IN_PLACE == 22);

/// At most 22 bytes, which contracts see as their list.
#[derive(Drop)]
pub(crate) struct FewBytes {
    count: u8,
    place: [u8; IN_PLACE],
}

impl Model for FewBytes {
    ghost Value = { List ℕ };

    ghost view = { λ few. take few.count few.place };

    ghost invariant = { λ few. few.count ≤ IN_PLACE };
}

impl FewBytes {
    /// No bytes.
    pub(crate) fn new() -> FewBytes
        ensures { result ≡ [] }
    {
        FewBytes {
            count: 0,
            place: [0; IN_PLACE],
        }
    }

    /// A copy of bytes, which are few enough.
    pub(crate) fn copied(bytes: &[u8]) -> FewBytes
        requires { length bytes.now ≤ IN_PLACE }
        ensures { result ≡ bytes.now }
    {
        let mut few = FewBytes::new();
        few.append(bytes);
        few
    }

    /// The same bytes in another place. The whole place is copied, which is faster than to look how much of it is used.
    #[inline]
    pub(crate) fn duplicate(&self) -> FewBytes
        ensures { result ≡ self.now }
    {
        FewBytes {
            count: self.count,
            place: self.place,
        }
    }

    /// Adds bytes at the end, where there is room for them.
    pub(crate) fn append(&mut self, bytes: &[u8])
        requires { length self.old + length bytes.now ≤ IN_PLACE }
        ensures { self.new ≡ self.old ++ bytes.now }
    {
        let old = usize::from(self.count);
        let new = old + bytes.len();
        self.place[old..new].copy_from_slice(bytes);
        self.count = new as u8;
    }

    /// Folds A-Z to a-z.
    pub(crate) fn fold(&mut self)
        ensures { self.new ≡ folded_of self.old }
    {
        self.place.make_ascii_lowercase();
    }

    /// The bytes.
    #[inline]
    pub(crate) fn as_slice(&self) -> &[u8]
        ensures value { result.now ≡ self.now }
        ensures fits { length self.now ≤ IN_PLACE }
    {
        &self.place[..usize::from(self.count)]
    }

    /// How many there are.
    #[inline]
    pub(crate) fn len(&self) -> usize
        ensures value { result ≡ length self.now }
        ensures fits { length self.now ≤ IN_PLACE }
    {
        self.as_slice().len()
    }
}
