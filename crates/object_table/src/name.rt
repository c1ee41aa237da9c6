//! Names of objects, and names that are sought.

ghost use Rattle.std.specs.Prelude.{◌≡◌};
ghost use Rattle.ht_values.specs.Text.{same};
ghost use Rattle.object_table.specs.Keys.{keyed as keyed_by, key_of as key_of_name};

use ht_values::Text;
use std::marker::Model;
use std::mem;

/// An odd number, half of whose bits are ones.
const FACTOR: u128 = 0x2360_ed05_1fc6_5da4_4385_df64_9fcc_f645;

/// A key with one byte more, which is folded.
fn keyed(key: u128, byte: u8) -> u128
    ensures { result ≡ keyed_by key byte }
{
    (key ^ u128::from(byte.to_ascii_lowercase()))
        .wrapping_mul(FACTOR)
        .rotate_left(53)
}

/// The key of a name: names that are the same have the same one, and few others do.
fn key_of(name: &Text) -> u128
    ensures { result ≡ key_of_name name.now }
{
    let mut key = 1;
    for byte in name.as_slice() {
        key = keyed(key, *byte);
    }
    key
}

/// The name of an object, which contracts see as its text. Beside that it keeps the text's key, so that a search passes
/// a name by in one step, however long it is and however late it differs.
#[derive(Drop)]
pub struct ObjectName {
    text: Text,
    key: u128,
}

impl Model for ObjectName {
    ghost use Rattle.std.specs.Prelude.{◌≡◌, ℕ, List};
    ghost use Rattle.object_table.specs.Keys.{key_of};

    ghost Value = { List ℕ };

    ghost view = { λ n. n.text };

    ghost invariant = { λ n. n.key ≡ key_of n.text };
}

impl ObjectName {
    /// The name with this text. It takes no memory.
    pub fn new(text: Text) -> ObjectName
        ensures { result ≡ text }
    {
        let key = key_of(&text);
        ObjectName { text, key }
    }

    /// The text of the name.
    pub fn as_text(&self) -> &Text
        ensures { result.now ≡ self.now }
    {
        &self.text
    }

    /// Exchanges the text of the name with another.
    pub(crate) fn swap_text(&mut self, text: &mut Text)
        ensures name { self.new ≡ text.old }
        ensures text { text.new ≡ self.old }
    {
        self.key = key_of(text);
        mem::swap(&mut self.text, text);
    }

    /// Whether this is the name that is sought.
    #[tactic(auto, using(crate::proofs::Keys::other_key))]
    pub(crate) fn same(&self, sought: &SoughtName<'_>) -> bool
        ensures { result ≡ same self.now sought.now }
    {
        self.key == sought.key && self.text.same(sought.text)
    }
}

/// A name that is sought among those of objects, with its key.
#[derive(Drop)]
pub(crate) struct SoughtName<'a> {
    text: &'a Text,
    key: u128,
}

impl<'a> Model for SoughtName<'a> {
    ghost use Rattle.std.specs.Prelude.{◌≡◌, ℕ, List};
    ghost use Rattle.object_table.specs.Keys.{key_of};

    ghost Value = { List ℕ };

    ghost view = { λ n. n.text.now };

    ghost invariant = { λ n. n.key ≡ key_of n.text.now };
}

impl<'a> SoughtName<'a> {
    pub(crate) fn new(text: &'a Text) -> SoughtName<'a>
        ensures { result ≡ text.now }
    {
        SoughtName {
            text,
            key: key_of(text),
        }
    }
}
