//! Names, with their folded form.

ghost use Rattle.std.specs.Prelude.{◌≡◌, ◌≤◌, length, take, IfOk, true};
ghost use Rattle.ht_values.specs.Text.{folded as folded_of, is_folded};
ghost use Rattle.ht_values.specs.FoldedForm.{form_in, IsInRoom};
ghost use Rattle.ht_values.specs.declared.name.TheConstants.{SHORT};
ghost use Rattle.ht_values.specs.declared.text.TheConstants.{LIMIT};

use crate::text::Text;
use std::alloc::{AllocError, Global};
use std::marker::Model;

/// How many bytes a name has at most whose folded form stands in its own place.
const SHORT: usize = 15;

/// A name as it is spelled, which contracts see as its bytes. It keeps its folded form, so that what goes by folded
/// names is found without memory.
pub struct Name {
    spelling: Text,
    folded: FoldedForm,
}

/// Where the folded form of a spelling stands.
#[derive(Drop)]
enum FoldedForm {
    /// It is the spelling: most names are spelled in small letters.
    Spelled,
    /// It is as many of these bytes as the spelling has.
    InPlace([u8; SHORT]),
    Boxed(Box<Text>),
}

// A text has room for thousands of names.
const _: () = prove!(size_of::<Name>() <= 40);

/// Written here and not derived, so that no crate above proves anew how it is dropped.
impl Drop for Name {
    fn drop(self) {
        let Name {
            spelling: _,
            folded: _,
        } = self;
    }
}

impl Model for Name {
    ghost use Rattle.std.specs.Prelude.{◌≡◌, ℕ, List};
    ghost use Rattle.ht_values.specs.Text.{folded as folded_of};
    ghost use Rattle.ht_values.specs.FoldedForm.{form_in, IsInRoom};

    ghost Value = { List ℕ };

    ghost view = { λ n. n.spelling };

    ghost invariant = { λ n. (form_in n.spelling n.folded ≡ folded_of n.spelling) × IsInRoom n.spelling n.folded };
}

impl Name {
    /// The name of this spelling. It takes memory only where the spelling isn't folded and has over 15 bytes.
    #[inline]
    pub fn new(alloc: Global, spelling: Text) -> Result<Name, AllocError>
        ensures { IfOk result (λ n. n ≡ spelling) }
    {
        if spelling.is_folded() {
            return Ok(Name::of_folded(spelling));
        }
        let folded = folded_form(alloc, &spelling)?;
        Ok(Name { spelling, folded })
    }

    /// The name of a spelling that is folded: no byte is one of A-Z. It takes no memory.
    #[tactic(auto, using(crate::proofs::Folding::folded_stays))]
    #[inline(always)]
    pub fn of_folded(spelling: Text) -> Name
        requires { is_folded spelling ≡ true }
        ensures { result ≡ spelling }
    {
        Name {
            spelling,
            folded: FoldedForm::Spelled,
        }
    }

    /// The name as it is spelled.
    pub fn text(&self) -> &Text
        ensures { result.now ≡ self.now }
    {
        &self.spelling
    }

    /// The name with A-Z folded to a-z, at most 30,000 bytes.
    #[inline]
    pub fn folded(&self) -> &[u8]
        ensures value { result.now ≡ folded_of self.now }
        ensures fits { length result.now ≤ LIMIT }
    {
        match &self.folded {
            FoldedForm::Spelled => self.spelling.as_slice(),
            FoldedForm::InPlace(place) => &place[..self.spelling.len()],
            FoldedForm::Boxed(form) => form.as_slice(),
        }
    }
}

/// A spelling with A-Z folded to a-z. It is out of line, so that a name of small letters is made in a few instructions.
#[inline(never)]
fn folded_form(alloc: Global, spelling: &Text) -> Result<FoldedForm, AllocError>
    ensures form { IfOk result (λ form. form_in spelling.now form ≡ folded_of spelling.now) }
    ensures room { IfOk result (λ form. IsInRoom spelling.now form) }
{
    if spelling.len() <= SHORT {
        return Ok(FoldedForm::InPlace(folded_in_place(spelling.as_slice())));
    }
    Ok(FoldedForm::Boxed(Box::new(alloc, spelling.folded(alloc)?)?))
}

/// So few bytes with A-Z folded to a-z, and others behind them.
fn folded_in_place(bytes: &[u8]) -> [u8; SHORT]
    requires { length bytes.now ≤ SHORT }
    ensures { take (length bytes.now) result ≡ folded_of bytes.now }
{
    let mut place = [0; SHORT];
    place[..bytes.len()].copy_from_slice(bytes);
    place.make_ascii_lowercase();
    place
}
