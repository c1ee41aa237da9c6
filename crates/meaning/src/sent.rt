//! What a run shows, and the messages that it sends.

ghost use Rattle.std.specs.Prelude.{◌≡◌, ◌<◌, [], ◌∷◌, ◌++◌, length, IfOk, OnOk, OnErr, Some, slice_get};

use crate::trace::Trace;
use ht_values::Text;
use object_table::Id;
use std::alloc::{AllocError, Global};
use std::marker::Model;
use std::rc::Rc;

/// A line that is shown: the bytes after `> `, as they are answered. A text stands there as it is spelled in a stack
/// text.
#[derive(Drop)]
pub struct Line {
    bytes: Vec<u8>,
}

impl Model for Line {
    ghost use Rattle.std.specs.Prelude.{List, ℕ};

    ghost Value = { List ℕ };

    ghost view = { λ l. l.bytes.items };
}

impl Line {
    /// The line of these bytes. It takes no memory.
    pub fn new(bytes: Vec<u8>) -> Line
        ensures { result ≡ bytes.items }
    {
        Line { bytes }
    }

    /// The bytes of the line.
    pub fn as_slice(&self) -> &[u8]
        ensures { result.now ≡ self.now }
    {
        &self.bytes
    }
}

/// Lines that are shown, in their order.
#[derive(Drop)]
pub struct Shown {
    lines: Vec<Line>,
}

impl Model for Shown {
    ghost use Rattle.std.specs.Prelude.{List, ℕ};

    ghost Value = { List (List ℕ) };

    ghost view = { λ s. s.lines.items };
}

impl Shown {
    /// No lines. It takes no memory.
    pub fn new(alloc: Global) -> Shown
        ensures { result ≡ [] }
    {
        Shown {
            lines: Vec::new(alloc),
        }
    }

    /// The lines as a slice.
    pub fn as_slice(&self) -> &[Line]
        ensures { result.now ≡ self.now }
    {
        &self.lines
    }

    /// Adds a line. Where memory was refused nothing changes.
    pub fn push(&mut self, line: Line) -> Result<(), AllocError>
        ensures ok { OnOk result (self.new ≡ self.old ++ line ∷ []) }
        ensures err { OnErr result (self.new ≡ self.old) }
    {
        self.lines.push(line)?;
        Ok(())
    }
}

/// A message that was sent, and the id of the object that it was sent to. Messages of one name that follow each other
/// share it.
pub struct SentMessage {
    name: Rc<Text>,
    object: Id,
}

/// Written here and not derived, so that it is proved once how it is dropped.
impl Drop for SentMessage {
    fn drop(self) {
        let SentMessage { name: _, object: _ } = self;
    }
}

impl Model for SentMessage {
    ghost use Rattle.meaning.specs.Sent.{SentMessage};

    ghost Value = { SentMessage };

    ghost view = { λ m. record { name = m.name.value; object = m.object } };
}

impl SentMessage {
    /// Its name, as it was written.
    pub fn name(&self) -> &Text
        ensures { result.now ≡ self.now.name }
    {
        &self.name
    }

    /// The id of the object that it was sent to.
    pub fn object(&self) -> Id
        ensures { result ≡ self.now.object }
    {
        self.object
    }
}

/// Messages that were sent, in their order. Beside them, where contracts don't see it, stands where their run stopped.
pub struct Sent {
    messages: Vec<SentMessage>,
    trace: Trace,
}

/// Written here and not derived, so that no crate above proves anew how it is dropped.
impl Drop for Sent {
    fn drop(self) {
        let Sent {
            messages: _,
            trace: _,
        } = self;
    }
}

impl Model for Sent {
    ghost use Rattle.std.specs.Prelude.{List};
    ghost use Rattle.meaning.specs.Sent.{SentMessage};

    ghost Value = { List SentMessage };

    ghost view = { λ s. s.messages.items };
}

impl Sent {
    /// No messages. It takes no memory.
    pub fn new(alloc: Global) -> Sent
        ensures { result ≡ [] }
    {
        Sent {
            messages: Vec::new(alloc),
            trace: Trace::new(alloc),
        }
    }

    /// Where the run stopped that sent them.
    pub fn trace(&self) -> &Trace {
        &self.trace
    }

    /// How many messages there are.
    pub fn len(&self) -> usize
        ensures { result ≡ length self.now }
    {
        self.messages.len()
    }

    /// The message at a place, from 0.
    pub fn at(&self, i: usize) -> &SentMessage
        requires { i < length self.now }
        ensures { slice_get self.now i ≡ Some result.now }
    {
        &self.messages[i]
    }

    /// Adds a message, with its name as it is written, which takes no memory where the latest one has it. Where memory
    /// was refused nothing changes.
    pub fn note(&mut self, alloc: Global, name: &Text, object: Id) -> Result<(), AllocError>
        ensures ok { OnOk result (self.new ≡ self.old ++ record { name = name.now; object = object } ∷ []) }
        ensures err { OnErr result (self.new ≡ self.old) }
    {
        let name = shared_name(alloc, self.messages.last(), name)?;
        self.messages.push(SentMessage { name, object })?;
        Ok(())
    }
}

/// A name, shared with a message that has it, or as a copy.
fn shared_name(
    alloc: Global,
    latest: Option<&SentMessage>,
    name: &Text,
) -> Result<Rc<Text>, AllocError>
    ensures { IfOk result (λ shared. shared.value ≡ name.now) }
{
    match latest {
        Some(message) if message.name.as_slice() == name.as_slice() => Ok(message.name.clone()?),
        _ => Ok(Rc::new(alloc, name.try_clone(alloc)?)?),
    }
}
