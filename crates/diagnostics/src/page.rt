//! Bytes that are written for people.

use itoa::Buffer;
use stack_text::spell_into;
use std::alloc::Global;

/// What is written so far. Where memory is refused it is cut there, and remembers that, so that who writes has no error
/// to hand on.
#[derive(Drop)]
pub struct Page {
    bytes: Vec<u8>,
    is_cut: bool,
}

impl Page {
    /// An empty page. It takes no memory.
    pub fn new(alloc: Global) -> Page {
        Page {
            bytes: Vec::new(alloc),
            is_cut: false,
        }
    }

    /// What is written; nothing where memory was refused.
    pub fn as_slice(&self) -> &[u8] {
        if self.is_cut { b"" } else { &self.bytes }
    }

    /// What is written, by itself; nothing where memory was refused.
    pub fn into_bytes(self) -> Vec<u8> {
        let Page { mut bytes, is_cut } = self;
        if is_cut {
            bytes.clear();
        }
        bytes
    }

    /// Whether memory was refused.
    pub fn is_cut(&self) -> bool {
        self.is_cut
    }

    /// Writes bytes as they are.
    pub fn word(&mut self, bytes: &[u8]) {
        if self.bytes.extend_from_slice(bytes).is_err() {
            self.is_cut = true;
        }
    }

    /// Writes a number.
    pub fn number(&mut self, number: usize) {
        let mut digits = Buffer::new();
        self.word(digits.format(number).as_bytes());
    }

    /// Writes a text as a stack text spells it, so that it stands on a line.
    pub fn spelled(&mut self, text: &[u8]) {
        if spell_into(&mut self.bytes, text).is_err() {
            self.is_cut = true;
        }
    }

    /// Writes so many spaces.
    pub fn spaces(&mut self, count: usize) {
        for _ in 0..count {
            self.word(b" ");
        }
    }

    /// How many bytes are written.
    pub fn len(&self) -> usize {
        self.bytes.len()
    }
}
