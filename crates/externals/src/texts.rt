//! A list of texts: the arguments that an external is started with, or the note that it gives with a call-back.

ghost use Rattle.std.specs.Prelude.{◌≡◌, ℕ, ◌<◌, List, [], ◌∷◌, ◌++◌, length, IfErr, OnOk, slice_get, Some};

use ht_values::Text;
use std::alloc::Global;
use std::marker::Model;

/// Texts in order, which contracts see as their list: arguments, or a note, which comes again with the answer.
#[derive(Drop)]
pub struct Texts {
    items: Vec<Text>,
}

impl Model for Texts {
    ghost Value = { List (List ℕ) };

    ghost view = { λ t. t.items.items };
}

impl Texts {
    /// No text. It takes no memory.
    pub fn new(alloc: Global) -> Texts
        ensures { result ≡ [] }
    {
        Texts {
            items: Vec::new(alloc),
        }
    }

    /// Adds a text at the end. Where the growth was refused nothing changes, and the text comes back.
    pub fn push(&mut self, text: Text) -> Result<(), Text>
        ensures ok { OnOk result (self.new ≡ self.old ++ text ∷ []) }
        ensures err { IfErr result (λ back. (back ≡ text) × (self.new ≡ self.old)) }
    {
        match self.items.push(text) {
            Ok(()) => Ok(()),
            Err(refused) => Err(refused.value),
        }
    }

    /// How many texts there are.
    pub fn len(&self) -> usize
        ensures { result ≡ length self.now }
    {
        self.items.len()
    }

    /// The i-th text, from 0.
    pub fn at(&self, i: usize) -> &Text
        requires { i < length self.now }
        ensures { slice_get self.now i ≡ Some result.now }
    {
        &self.items[i]
    }
}
