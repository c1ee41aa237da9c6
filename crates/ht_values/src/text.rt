//! Texts: at most 30,000 bytes, any bytes, one byte a character.

ghost use Rattle.std.specs.Prelude.{◌≡◌, ◌≤◌, ◌<◌, ◌↔◌, ◌+◌, ◌++◌, ℕ, List, [], length, All, IfOk, IfErr, IfSome, IsOk};
ghost use Rattle.std.specs.Prelude.{OnOk, OnErr, Ok, Err, IsErrOf, IsTrue};
ghost use Rattle.ht_values.specs.Outcome.{Gives, within_limit};
ghost use Rattle.ht_values.specs.Text.{Same, IsText, folded as folded_of, is_folded as is_folded_text, numeral, same};
ghost use Rattle.ht_values.specs.declared.few_bytes.TheConstants.{IN_PLACE};
ghost use Rattle.ht_values.specs.declared.text.TheConstants.{LIMIT};

use crate::failure::Failure;
use crate::fault::{Fault, TextError};
use crate::few_bytes::{FewBytes, IN_PLACE};
use itoa::Buffer;
use std::alloc::{AllocError, Global};
use std::marker::Model;

/// The greatest length of a text, in bytes.
pub const LIMIT: usize = 30_000;

// Contracts name the limit, so the number is said a second time: another one is refused here.
const _: () = prove!(LIMIT == 30_000);

/// The least room for the bytes of a text once they take memory, so that not each growth takes more.
const ROOM: usize = 64;

/// The bytes of a short text. Short texts are mostly names that differ, and one pass tells that soonest.
const SHORT: usize = 32;

/// How a text keeps its bytes: few in its own place, and more in a list. The list stands in a box, so that no text is
/// larger than the three words of a list.
#[derive(Drop)]
enum Held {
    InPlace(FewBytes),
    Boxed(Box<Vec<u8>>),
}

/// A value of HyperTalk, which contracts see as its list of bytes. It takes memory only where it has over 22 bytes.
pub struct Text {
    held: Held,
    alloc: Global,
}

// Texts stand in many types, which are bounded by this.
const _: () = prove!(size_of::<Text>() <= 24);

/// Written here and not derived, so that no crate above proves anew how it is dropped.
impl Drop for Text {
    // Else each place that drops one has a copy of it in its frame.
    #[inline(always)]
    fn drop(self) {
        let Text { held: _, alloc: _ } = self;
    }
}

impl Model for Text {
    ghost use Rattle.std.specs.Prelude.{List, ℕ};

    ghost Value = { List ℕ };

    ghost use Rattle.ht_values.specs.Held.{IsHeld, bytes_in};

    ghost view = { λ t. bytes_in t.held };

    ghost invariant = { λ t. IsHeld t.held };
}

impl Text {
    /// The text of no bytes. It takes no memory.
    pub fn new(alloc: Global) -> Text
        ensures { result ≡ [] }
    {
        Text {
            held: Held::InPlace(FewBytes::new()),
            alloc,
        }
    }

    /// A text of these bytes. `TooLong` where they are over 30,000, else `Memory` where a growth was refused. It takes
    /// no memory where the text has at most 22 bytes.
    pub fn from_slice(alloc: Global, bytes: &[u8]) -> Result<Text, TextError>
        ensures ok { IfOk result (λ t. t ≡ bytes.now) }
        ensures fits { IfOk result (λ t. length t ≤ LIMIT) }
        ensures long { LIMIT < length bytes.now → result ≡ Err TextError.TooLong }
        ensures too_long { IsErrOf result TextError.TooLong → LIMIT < length bytes.now }
        ensures short { length bytes.now ≤ IN_PLACE → IsOk result }
    {
        if LIMIT < bytes.len() {
            return Err(TextError::TooLong);
        }
        match Text::fitting(alloc, bytes) {
            Ok(text) => Ok(text),
            Err(_) => Err(TextError::Memory),
        }
    }

    /// The text of at most 22 bytes, which stand in its own place. It takes no memory.
    #[inline(always)]
    pub fn copied_in_place(alloc: Global, bytes: &[u8]) -> Text
        requires { length bytes.now ≤ IN_PLACE }
        ensures { result ≡ bytes.now }
    {
        Text::in_place(alloc, FewBytes::copied(bytes))
    }

    /// A text of these bytes, which are known to fit. It takes no memory where the text has at most 22 bytes.
    #[inline]
    pub fn fitting(alloc: Global, bytes: &[u8]) -> Result<Text, AllocError>
        requires { length bytes.now ≤ LIMIT }
        ensures value { IfOk result (λ t. t ≡ bytes.now) }
        ensures short { length bytes.now ≤ IN_PLACE → IsOk result }
    {
        if bytes.len() <= IN_PLACE {
            return Ok(Text::copied_in_place(alloc, bytes));
        }
        Text::boxed_copy(alloc, bytes)
    }

    /// The text of these bytes. At most 22 are copied, which takes no memory; more are taken over, which takes a box.
    /// `TooLong` where they are over 30,000, else `Memory` where the box was refused.
    pub fn from_vec(bytes: Vec<u8>) -> Result<Text, Failure>
        ensures value { Gives result (within_limit bytes.items) }
        ensures short { length bytes.items ≤ IN_PLACE → IsOk result }
    {
        if LIMIT < bytes.len() {
            return Err(Failure::Fault(Fault::TooLong));
        }
        Ok(Text::fitting_vec(bytes)?)
    }

    /// The text of these bytes, which are known to fit. At most 22 are copied, which takes no memory; more are taken
    /// over, which takes a box.
    pub fn fitting_vec(bytes: Vec<u8>) -> Result<Text, AllocError>
        requires { length bytes.items ≤ LIMIT }
        ensures value { IfOk result (λ t. t ≡ bytes.items) }
        ensures short { length bytes.items ≤ IN_PLACE → IsOk result }
    {
        let alloc = *bytes.allocator();
        if bytes.len() <= IN_PLACE {
            return Ok(Text::copied_in_place(alloc, &bytes));
        }
        Text::boxed(alloc, bytes)
    }

    /// The text of so few bytes that they stand in its own place.
    pub(crate) fn in_place(alloc: Global, few: FewBytes) -> Text
        ensures { result ≡ few }
    {
        Text {
            held: Held::InPlace(few),
            alloc,
        }
    }

    /// The text of more bytes than stand in its own place.
    fn boxed(alloc: Global, bytes: Vec<u8>) -> Result<Text, AllocError>
        requires long { IN_PLACE < length bytes.items }
        requires fits { length bytes.items ≤ LIMIT }
        ensures { IfOk result (λ t. t ≡ bytes.items) }
    {
        Ok(Text {
            held: Held::Boxed(Box::new(alloc, bytes)?),
            alloc,
        })
    }

    /// A copy of more bytes than stand in a text's own place. It is out of line, so that a short text is made in a few
    /// instructions.
    #[inline(never)]
    fn boxed_copy(alloc: Global, bytes: &[u8]) -> Result<Text, AllocError>
        requires long { IN_PLACE < length bytes.now }
        requires fits { length bytes.now ≤ LIMIT }
        ensures { IfOk result (λ t. t ≡ bytes.now) }
    {
        Text::boxed(alloc, Vec::from_slice(alloc, bytes)?)
    }

    /// An equal text. It takes no memory where the text has at most 22 bytes.
    #[inline]
    pub fn try_clone(&self, alloc: Global) -> Result<Text, AllocError>
        ensures value { IfOk result (λ t. t ≡ self.now) }
        ensures short { length self.now ≤ IN_PLACE → IsOk result }
    {
        match &self.held {
            Held::InPlace(few) => Ok(Text::in_place(alloc, few.duplicate())),
            Held::Boxed(bytes) => Text::boxed_copy(alloc, bytes),
        }
    }

    /// The text with A-Z folded to a-z, and nothing else. It takes no memory where the text has at most 22 bytes.
    pub fn folded(&self, alloc: Global) -> Result<Text, AllocError>
        ensures value { IfOk result (λ t. t ≡ folded_of self.now) }
        ensures short { length self.now ≤ IN_PLACE → IsOk result }
    {
        let mut copy = self.try_clone(alloc)?;
        copy.fold();
        Ok(copy)
    }

    /// Folds A-Z to a-z.
    fn fold(&mut self)
        ensures { self.new ≡ folded_of self.old }
    {
        match &mut self.held {
            Held::InPlace(few) => few.fold(),
            Held::Boxed(bytes) => bytes.make_ascii_lowercase(),
        }
    }

    /// Whether the text is folded: no byte is one of A-Z.
    pub fn is_folded(&self) -> bool
        ensures { result ≡ is_folded_text self.now }
    {
        self.as_slice()
            .iter()
            .all(|byte| !byte.is_ascii_uppercase())
    }

    /// The bytes of a text that takes no memory.
    #[inline(always)]
    pub(crate) fn few(&self) -> Option<&FewBytes>
        ensures { IfSome result (λ few. few.now ≡ self.now) }
    {
        match &self.held {
            Held::InPlace(few) => Some(few),
            Held::Boxed(_) => None,
        }
    }

    /// Adds bytes at the end, as `append_parts` does.
    pub fn append(&mut self, bytes: &[u8]) -> Result<(), Failure>
        ensures ok { OnOk result (within_limit (self.old ++ bytes.now) ≡ Ok self.new) }
        ensures fault { IfErr result (λ e. Gives {A = List ℕ} (Err e) (within_limit (self.old ++ bytes.now))) }
        ensures err { OnErr result (self.new ≡ self.old) }
        ensures short { length self.old + length bytes.now ≤ IN_PLACE → IsOk result }
    {
        self.append_parts(b"", bytes)
    }

    /// Adds two parts at the end, one after another. `TooLong` where the text would be over 30,000 bytes, else `Memory`
    /// where a growth was refused; the text is then as it was. It takes no memory where the text then has at most 22
    /// bytes.
    pub fn append_parts(&mut self, between: &[u8], bytes: &[u8]) -> Result<(), Failure>
        ensures ok { OnOk result (within_limit (self.old ++ between.now ++ bytes.now) ≡ Ok self.new) }
        ensures fault { IfErr result
            (λ e. Gives {A = List ℕ} (Err e) (within_limit (self.old ++ between.now ++ bytes.now))) }
        ensures err { OnErr result (self.new ≡ self.old) }
        ensures short { length self.old + length between.now + length bytes.now ≤ IN_PLACE → IsOk result }
    {
        let left = LIMIT - self.len();
        if left < between.len() || left - between.len() < bytes.len() {
            return Err(Failure::Fault(Fault::TooLong));
        }
        match &mut self.held {
            Held::InPlace(few) => {
                if few.len() + between.len() + bytes.len() <= IN_PLACE {
                    few.append(between);
                    few.append(bytes);
                } else {
                    let alloc = self.alloc;
                    let list = grown(alloc, few.as_slice(), between, bytes)?;
                    *self = Text::boxed(alloc, list)?;
                }
            }
            Held::Boxed(list) => {
                if list.capacity() - list.len() < between.len() + bytes.len() {
                    **list = grown(self.alloc, list, between, bytes)?;
                } else {
                    if !between.is_empty() {
                        list.extend_from_slice(between)?;
                    }
                    list.extend_from_slice(bytes)?;
                }
            }
        }
        Ok(())
    }

    /// The bytes of the text.
    #[inline]
    pub fn as_slice(&self) -> &[u8]
        ensures value { result.now ≡ self.now }
        ensures fits { length self.now ≤ LIMIT }
    {
        match &self.held {
            Held::InPlace(few) => few.as_slice(),
            Held::Boxed(bytes) => bytes,
        }
    }

    /// How many bytes the text has.
    #[inline]
    pub fn len(&self) -> usize
        ensures value { result ≡ length self.now }
        ensures fits { length self.now ≤ LIMIT }
    {
        match &self.held {
            Held::InPlace(few) => few.len(),
            Held::Boxed(bytes) => bytes.len(),
        }
    }

    /// Whether the text is equal to this word after A-Z is folded to a-z.
    pub(crate) fn is(&self, word: &[u8]) -> bool
        ensures { result ≡ same word.now self.now }
    {
        word.eq_ignore_ascii_case(self.as_slice())
    }

    /// Whether two texts are equal after A-Z is folded to a-z.
    #[inline]
    pub fn same(&self, other: &Text) -> bool
        ensures { IsTrue result ↔ Same self.now other.now }
    {
        let left = self.as_slice();
        let right = other.as_slice();
        if SHORT < left.len() {
            return are_same_long(left, right);
        }
        left.eq_ignore_ascii_case(right)
    }
}

/// A new list of three parts, one after another, with room for as many bytes more. A text that grows gets a new list,
/// since the C library gives small blocks that came back to new lists, and not to one that grows.
#[inline(never)]
fn grown(alloc: Global, left: &[u8], between: &[u8], right: &[u8]) -> Result<Vec<u8>, AllocError>
    requires { length left.now + length between.now + length right.now ≤ LIMIT }
    ensures { IfOk result (λ list. list.items ≡ left.now ++ between.now ++ right.now) }
{
    let room = room_for(left.len() + between.len() + right.len());
    list_of_parts(alloc, room, left, between, right)
}

/// A list of three parts, one after another, that begins with room for so many bytes.
pub(crate) fn list_of_parts(
    alloc: Global,
    room: usize,
    left: &[u8],
    between: &[u8],
    right: &[u8],
) -> Result<Vec<u8>, AllocError>
    ensures { IfOk result (λ list. list.items ≡ left.now ++ between.now ++ right.now) }
{
    let mut list = Vec::with_capacity(alloc, room)?;
    list.extend_from_slice(left)?;
    list.extend_from_slice(between)?;
    list.extend_from_slice(right)?;
    Ok(list)
}

/// The room that a list of so many bytes gets which grows: for twice as many, at least for some, and for no more than a
/// text may have.
fn room_for(count: usize) -> usize
    requires { count ≤ LIMIT }
{
    (2 * count).max(ROOM).min(LIMIT)
}

/// Whether two long texts are equal after A-Z is folded to a-z. They are first compared as they stand: where they are
/// equal, that takes a twentieth of the time. Not inlined, so that `same` stays small.
#[inline(never)]
fn are_same_long(left: &[u8], right: &[u8]) -> bool
    ensures { IsTrue result ↔ Same left.now right.now }
{
    left == right || left.eq_ignore_ascii_case(right)
}

/// A copy of bytes with A-Z folded to a-z, and nothing else.
pub(crate) fn folded_copy(alloc: Global, bytes: &[u8]) -> Result<Vec<u8>, AllocError>
    ensures { IfOk result (λ copy. copy.items ≡ folded_of bytes.now) }
{
    let mut copy = Vec::from_slice(alloc, bytes)?;
    copy.make_ascii_lowercase();
    Ok(copy)
}

/// What a text is by its definition. A byte is known to be one as it is read, so this reads them all; nothing is done
/// with them, so a compiler may take the loop out.
pub fn law_of_text(text: &Text)
    ensures { IsText text.now }
{
    law_of_bytes(text.as_slice());
}

fn law_of_bytes(bytes: &[u8])
    ensures { All (λ b. b < 256) bytes.now }
{
    for byte in bytes {
        let _read = *byte;
    }
}

/// The numeral of a number. It has at most 20 bytes, so it takes no memory, and is never refused.
pub fn text_of(alloc: Global, number: i64) -> Result<Text, AllocError>
    ensures value { IfOk result (λ t. t ≡ numeral number) }
    ensures made { IsOk result }
{
    let mut digits = Buffer::new();
    Text::fitting(alloc, digits.format(number).as_bytes())
}
