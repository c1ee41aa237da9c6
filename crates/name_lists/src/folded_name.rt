//! Folded forms of names.

ghost use Rattle.std.specs.Prelude.{◌≡◌, ◌≤◌, length, take, IfOk};
ghost use Rattle.std.specs.Str.{bytes_eq};
ghost use Rattle.ht_values.specs.Text.{folded, same};
ghost use Rattle.name_lists.specs.declared.folded_name.TheConstants.{MOST_INLINE};

use ht_values::{Name, Text};
use smallvec::SmallVec;
use std::alloc::{AllocError, Global};
use std::marker::Model;

/// The longest name that takes no memory of its own, in bytes.
const MOST_INLINE: usize = 16;

/// The folded form of a name, which contracts see as its bytes. So a name is known by a plain comparison. A short one
/// takes no memory.
pub struct FoldedName {
    bytes: SmallVec<u8, MOST_INLINE>,
}

/// Written here and not derived, so that it is proved once how it is dropped.
impl Drop for FoldedName {
    fn drop(self) {
        let FoldedName { bytes: _ } = self;
    }
}

impl Model for FoldedName {
    ghost use Rattle.std.specs.Prelude.{◌≡◌, ℕ, List, true};
    ghost use Rattle.ht_values.specs.Text.{is_folded};

    ghost Value = { List ℕ };

    ghost view = { λ n. n.bytes.items };

    ghost invariant = { λ n. is_folded n.bytes.items ≡ true };
}

impl FoldedName {
    /// The folded form of a name.
    #[tactic(auto, using(ht_values::proofs::Folding::folded_is_folded))]
    pub fn of(alloc: Global, name: &Name) -> Result<FoldedName, AllocError>
        ensures { IfOk result (λ n. n ≡ folded name.now) }
    {
        Ok(FoldedName {
            bytes: SmallVec::from_slice(alloc, name.folded())?,
        })
    }

    /// The folded form of the name that a text spells.
    #[tactic(auto, using(ht_values::proofs::Folding::folded_is_folded))]
    #[inline]
    pub fn of_text(alloc: Global, name: &Text) -> Result<FoldedName, AllocError>
        ensures { IfOk result (λ n. n ≡ folded name.now) }
    {
        Ok(FoldedName {
            bytes: folded_copy(alloc, name.as_slice())?,
        })
    }

    /// A copy of it, which takes memory only where the name is longer than 16 bytes.
    #[inline]
    pub fn try_clone(&self, alloc: Global) -> Result<FoldedName, AllocError>
        ensures { IfOk result (λ n. n ≡ self.now) }
    {
        Ok(FoldedName {
            bytes: SmallVec::from_slice(alloc, self.bytes.as_slice())?,
        })
    }

    /// Whether a name is the same.
    #[inline]
    pub fn is_of(&self, name: &Name) -> bool
        ensures { result ≡ same self.now name.now }
    {
        self.has_form(name.folded())
    }

    /// Whether bytes are its form: the folded form of a name, which is looked for among many, is lent once.
    #[tactic(auto, using(ht_values::proofs::Folding::folded_stays))]
    #[inline]
    pub fn has_form(&self, form: &[u8]) -> bool
        ensures { result ≡ bytes_eq (folded self.now) form.now }
    {
        self.bytes.as_slice() == form
    }

    /// Its bytes, which are their own folded form.
    #[tactic(auto, using(ht_values::proofs::Folding::folded_stays))]
    #[inline]
    pub(crate) fn form(&self) -> &[u8]
        ensures value { result.now ≡ self.now }
        ensures form { result.now ≡ folded self.now }
    {
        self.bytes.as_slice()
    }
}

/// A copy of bytes with A-Z folded to a-z, and nothing else. It takes no memory where they are few.
#[inline]
fn folded_copy(alloc: Global, bytes: &[u8]) -> Result<SmallVec<u8, MOST_INLINE>, AllocError>
    ensures { IfOk result (λ copy. copy.items ≡ folded bytes.now) }
{
    if bytes.len() > MOST_INLINE {
        return folded_long(alloc, bytes);
    }
    let place = folded_in_place(bytes);
    SmallVec::from_slice(alloc, &place[..bytes.len()])
}

/// So few bytes with A-Z folded to a-z, and others behind them. The whole place is folded, which is faster than to fold
/// as many bytes as there are.
#[inline]
fn folded_in_place(bytes: &[u8]) -> [u8; MOST_INLINE]
    requires { length bytes.now ≤ MOST_INLINE }
    ensures { take (length bytes.now) result ≡ folded bytes.now }
{
    let mut place = [0; MOST_INLINE];
    place[..bytes.len()].copy_from_slice(bytes);
    place.make_ascii_lowercase();
    place
}

/// The same of more bytes. It is out of line, so that a few are copied in a few instructions.
#[inline(never)]
fn folded_long(alloc: Global, bytes: &[u8]) -> Result<SmallVec<u8, MOST_INLINE>, AllocError>
    ensures { IfOk result (λ copy. copy.items ≡ folded bytes.now) }
{
    let mut copy = SmallVec::from_slice(alloc, bytes)?;
    copy.as_mut_slice().make_ascii_lowercase();
    Ok(copy)
}
