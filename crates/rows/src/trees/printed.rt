//! What is printed of a tree.

use ht_values::{Text, Value};
use std::alloc::{AllocError, Global};
use std::fmt::Debug;
use std::io::Write;

/// The bytes that were printed, and whether some are lost for want of memory. So what prints can't fail at each word.
#[derive(Drop)]
pub struct Printed {
    alloc: Global,
    bytes: Vec<u8>,
    is_cut: bool,
}

impl Printed {
    /// Nothing is printed yet.
    pub fn new(alloc: Global) -> Printed {
        Printed {
            alloc,
            bytes: Vec::new(alloc),
            is_cut: false,
        }
    }

    fn push(&mut self, bytes: &[u8]) {
        if self.bytes.extend_from_slice(bytes).is_err() {
            self.is_cut = true;
        }
    }

    /// Prints a word as it is.
    pub fn word(&mut self, word: &str) {
        self.push(word.as_bytes());
    }

    /// Prints the bytes of a text as they are.
    pub fn text(&mut self, text: &Text) {
        self.push(text.as_slice());
    }

    /// Prints the text at a place of a list: all but the first have a space before them.
    pub fn listed(&mut self, place: usize, text: &Text) {
        if place > 0 {
            self.word(" ");
        }
        self.text(text);
    }

    /// Prints the text of a value.
    pub fn value(&mut self, value: &Value) {
        match value.spelled(self.alloc) {
            Ok(spelling) => self.text(spelling.text()),
            Err(_) => self.is_cut = true,
        }
    }

    /// Prints the name that a thing of the grammar has, between two words.
    pub fn named<T: Debug>(&mut self, before: &str, thing: &T, after: &str) {
        if write!(self.bytes, "{before}{thing:?}{after}").is_err() {
            self.is_cut = true;
        }
    }

    /// Prints an opening parenthesis, a word and a space.
    pub fn opening(&mut self, word: &str) {
        self.word("(");
        self.word(word);
        self.word(" ");
    }

    /// Tells that what was to be printed is lost for want of memory.
    pub fn cut(&mut self) {
        self.is_cut = true;
    }

    /// What was printed, or that some is lost.
    pub fn into_bytes(self) -> Result<Vec<u8>, AllocError> {
        if self.is_cut {
            return Err(AllocError);
        }
        Ok(self.bytes)
    }
}
