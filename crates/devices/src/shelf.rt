//! A desk in memory.

ghost use Rattle.std.specs.Prelude.{◌≡◌, ◌⊎◌, [], ◌∷◌, ◌++◌, Some, None, IfSome, IsNone, IsTrue, true, false, not};
ghost use Rattle.object_table.specs.WellFormed.{IsWellFormed};
ghost use Rattle.stack_text.specs.Listing.{spelling};
ghost use Rattle.stack_text.specs.declared.sheets.Version.TheVariants.{Second as second};
ghost use Rattle.devices.specs.Shelves.{text_on, messages_on, has_forgotten, heard_on, explained_on, calls_on};
ghost use Rattle.devices.specs.Shelves.{fails_at as call_of_failure, failures_on};
ghost use Rattle.devices.specs.Desks.{kept_after};
ghost use Rattle.devices.specs.Watching.{counted};

use crate::desk::{Desk, HeardMessage};
use ht_values::Text;
use object_table::{Id, Stack};
use stack_file::write;
use std::alloc::Global;

/// A desk in memory: it keeps the last text, remembers the messages, and may be told to fail at one call.
#[derive(Drop)]
pub struct Shelf {
    alloc: Global,
    text: Vec<u8>,
    messages: Vec<HeardMessage>,
    forgets: bool,
    explains: bool,
    explained: Vec<u8>,
    calls: u64,
    fails_at: Option<u64>,
    failures: u64,
}

impl Shelf {
    /// A shelf that keeps the empty text and remembers no message. It takes no memory.
    pub fn new(alloc: Global) -> Shelf
        ensures text { text_on result ≡ [] }
        ensures messages { messages_on result ≡ [] }
        ensures heard { has_forgotten result ≡ false }
        ensures calls { calls_on result ≡ 0 }
        ensures never { call_of_failure result ≡ None }
        ensures failures { failures_on result ≡ 0 }
    {
        Shelf {
            alloc,
            text: Vec::new(alloc),
            messages: Vec::new(alloc),
            forgets: false,
            explains: false,
            explained: Vec::new(alloc),
            calls: 0,
            fails_at: None,
            failures: 0,
        }
    }

    /// The same shelf, whose call of `keep` of this number, from 1, is to fail.
    pub fn failing_at(self, call: u64) -> Shelf
        ensures { result ≡ record self { fails_at = Some call } }
    {
        Shelf {
            fails_at: Some(call),
            ..self
        }
    }

    /// The same shelf, which wants to hear why lines faulted or were refused.
    pub fn explaining(self) -> Shelf
        ensures { result ≡ record self { explains = true } }
    {
        Shelf {
            explains: true,
            ..self
        }
    }

    /// What it heard of lines that faulted or were refused, each with a line feed behind it, but for those for which it
    /// was out of memory.
    pub fn explained(&self) -> &[u8]
        ensures { result.now ≡ explained_on self.now }
    {
        &self.explained
    }

    /// The text that it keeps.
    pub fn text(&self) -> &[u8]
        ensures { result.now ≡ text_on self.now }
    {
        &self.text
    }

    /// The messages that it heard of, in their order, but for those for which it was out of memory.
    pub fn messages(&self) -> &[HeardMessage]
        ensures { result.now ≡ messages_on self.now }
    {
        &self.messages
    }

    /// Whether it was out of memory for a message.
    pub fn has_forgotten(&self) -> bool
        ensures { result ≡ has_forgotten self.now }
    {
        self.forgets
    }

    /// The text of a stack, or none where this call is to fail, or is out of memory.
    fn text_of(&self, stack: &Stack) -> Option<Vec<u8>>
        requires { IsWellFormed stack.now.content }
        ensures text { IfSome result (λ text. text.items ≡ spelling second stack.now.content) }
        ensures due { call_of_failure self.now ≡ Some (calls_on self.now) → IsNone result }
    {
        if self.fails_at == Some(self.calls) {
            return None;
        }
        write(self.alloc, stack).ok()
    }
}

impl Desk for Shelf {
    ghost seen = { λ s. record { kept = Some (text_on s); heard = heard_on s; failures = failures_on s } };

    /// It fails at the call that it was told, and where it is out of memory.
    fn keep(&mut self, stack: &Stack) -> bool
        requires { IsWellFormed stack.now.content }
        ensures kept { Some (text_on self.new)
            ≡ kept_after result (spelling second stack.now.content) (Some (text_on self.old)) }
        ensures failures { failures_on self.new ≡ counted (not result) (failures_on self.old) }
        ensures due { call_of_failure self.old ≡ Some (calls_on self.new) → ¬ IsTrue result }
        ensures calls { calls_on self.new ≡ counted true (calls_on self.old) }
        ensures at { call_of_failure self.new ≡ call_of_failure self.old }
        ensures messages { messages_on self.new ≡ messages_on self.old }
        ensures heard { has_forgotten self.new ≡ has_forgotten self.old }
    {
        self.calls = self.calls.saturating_add(1);
        match self.text_of(stack) {
            Some(text) => {
                self.text = text;
                true
            }
            None => {
                self.failures = self.failures.saturating_add(1);
                false
            }
        }
    }

    /// It remembers the message, and where it is out of memory, that it has forgotten one.
    fn sent(&mut self, name: &Text, object: Id)
        ensures remembered { ((messages_on self.new ≡ messages_on self.old) × (has_forgotten self.new ≡ true))
            ⊎ ((messages_on self.new ≡ messages_on self.old ++ record { name = name.now; object = object } ∷ [])
            × (has_forgotten self.new ≡ has_forgotten self.old)) }
        ensures text { text_on self.new ≡ text_on self.old }
        ensures failures { failures_on self.new ≡ failures_on self.old }
        ensures calls { calls_on self.new ≡ calls_on self.old }
        ensures due { call_of_failure self.new ≡ call_of_failure self.old }
    {
        let is_heard = match name.try_clone(self.alloc) {
            Ok(name) => self.messages.push(HeardMessage { name, object }).is_ok(),
            Err(_) => false,
        };
        if !is_heard {
            self.forgets = true;
        }
    }

    fn explains(&self) -> bool {
        self.explains
    }

    /// It remembers the text, but where it is out of memory.
    fn explain(&mut self, text: &[u8])
        ensures remembered { (explained_on self.new ≡ explained_on self.old)
            ⊎ (explained_on self.new ≡ explained_on self.old ++ text.now ++ 10 ∷ []) }
        ensures text { text_on self.new ≡ text_on self.old }
        ensures messages { messages_on self.new ≡ messages_on self.old }
        ensures heard { has_forgotten self.new ≡ has_forgotten self.old }
        ensures failures { failures_on self.new ≡ failures_on self.old }
        ensures calls { calls_on self.new ≡ calls_on self.old }
        ensures due { call_of_failure self.new ≡ call_of_failure self.old }
    {
        if self.explained.reserve(text.len().saturating_add(1)).is_ok() {
            let _ = self.explained.extend_from_slice(text);
            let _ = self.explained.push(b'\n');
        }
    }

    fn failures(&self) -> u64 {
        self.failures
    }
}
