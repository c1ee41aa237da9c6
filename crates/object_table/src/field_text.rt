//! The text of a field, as a stack keeps it.

ghost use Rattle.std.specs.Prelude.{◌≡◌, [], IfOk, IsOk};

use ht_values::Text;
use std::alloc::{AllocError, Global};
use std::marker::Model;

/// A text of a field. Most fields of most cards are empty: such a text takes no memory, and any other has a box, so
/// that what keeps many of them stays small.
#[derive(Drop)]
pub struct FieldText {
    held: Held,
}

/// The bytes of a text, if it has any.
#[derive(Drop)]
enum Held {
    Nothing,
    Text(Box<Text>),
}

impl Model for FieldText {
    ghost use Rattle.std.specs.Prelude.{ℕ, List};
    ghost use Rattle.object_table.specs.FieldTexts.{text_in};

    ghost Value = { List ℕ };

    ghost view = { λ f. text_in f.held };
}

impl FieldText {
    /// The text of no bytes. It takes no memory.
    pub fn empty() -> FieldText
        ensures { result ≡ [] }
    {
        FieldText {
            held: Held::Nothing,
        }
    }

    /// A text, to be kept. An empty one takes no memory.
    pub fn new(alloc: Global, text: Text) -> Result<FieldText, AllocError>
        ensures value { IfOk result (λ f. f ≡ text) }
        ensures empty { text ≡ [] → IsOk result }
    {
        if text.len() == 0 {
            return Ok(FieldText::empty());
        }
        Ok(FieldText {
            held: Held::Text(Box::new(alloc, text)?),
        })
    }

    /// The bytes of the text.
    pub fn as_slice(&self) -> &[u8]
        ensures { result.now ≡ self.now }
    {
        match &self.held {
            Held::Nothing => b"",
            Held::Text(text) => text.as_slice(),
        }
    }

    /// The text; where it is empty, the empty one that is handed over.
    pub(crate) fn text<'a>(&'a self, empty: &'a Text) -> &'a Text
        requires { empty.now ≡ [] }
        ensures { result.now ≡ self.now }
    {
        match &self.held {
            Held::Nothing => empty,
            Held::Text(text) => text,
        }
    }
}
