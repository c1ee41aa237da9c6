//! What a line is answered.

ghost use Rattle.std.specs.Prelude.{◌≡◌};
ghost use Rattle.session.specs.Replies.{ended as ended_by, refused as refused_by, number_of_refusal};
ghost use Rattle.stack_text.specs.declared.sheets.Version.TheVariants.{Second as second};
ghost use Rattle.stack_text.specs.Listing.{spelling};

use ht_values::Fault;
use meaning::{Sent, Shown};
use object_table::Stack;
use std::alloc::Global;
use std::marker::Model;
use std::snapshot::Snapshot;
use thiserror::Error;

/// The bytes of a stack text.
#[derive(Drop)]
pub struct Bytes {
    bytes: Vec<u8>,
}

impl Model for Bytes {
    ghost use Rattle.std.specs.Prelude.{List, ℕ};

    ghost Value = { List ℕ };

    ghost view = { λ b. b.bytes.items };
}

impl Bytes {
    pub(crate) fn new(bytes: Vec<u8>) -> Bytes
        ensures { result ≡ bytes.items }
    {
        Bytes { bytes }
    }

    /// The bytes as a slice.
    pub fn as_slice(&self) -> &[u8]
        ensures { result.now ≡ self.now }
    {
        self.bytes.as_slice()
    }
}

/// The text of a stack, which isn't made: only contracts see it. Whoever keeps it writes it from that stack.
#[derive(Drop)]
pub struct StackText {
    stack: Snapshot<Stack>,
}

impl Model for StackText {
    ghost use Rattle.std.specs.Prelude.{List, ℕ};
    ghost use Rattle.stack_text.specs.declared.sheets.Version.TheVariants.{Second as second};
    ghost use Rattle.stack_text.specs.Listing.{spelling};

    ghost Value = { List ℕ };

    ghost view = { λ t. spelling second t.stack.value.content };
}

impl StackText {
    /// The text of this stack. It takes no memory, and little time.
    pub(crate) fn of(stack: &Stack) -> StackText
        ensures { result ≡ spelling second stack.now.content }
    {
        StackText {
            stack: Snapshot::of(stack),
        }
    }
}

/// Why a line was refused. The session stays as it was, but for the number of its lines. The numbers
/// are this project's profile.
#[derive(Clone, Copy, PartialEq, Eq, Debug, Error)]
pub enum Refusal {
    /// Fewer places can be undone, or none has so low a number.
    #[error("there is nothing to undo")]
    NothingToUndo,
    /// Fewer places can be redone.
    #[error("there is nothing to redo")]
    NothingToRedo,
    /// The line is no command.
    #[error("the line is no command")]
    BadCommand,
    /// A growth of memory was refused.
    #[error("out of memory")]
    NoMemory,
    /// The line is over 30,000 bytes.
    #[error("the line is over 30,000 bytes")]
    LineTooLong,
    /// The field's text is locked.
    #[error("the field is locked")]
    FieldLocked,
    /// The stack could not be saved.
    #[error("the stack could not be saved")]
    SaveFailed,
}

impl Refusal {
    /// The number under which the refusal is answered, 1 to 7.
    pub fn number(self) -> u8
        ensures { result ≡ number_of_refusal self }
    {
        match self {
            Refusal::NothingToUndo => 1,
            Refusal::NothingToRedo => 2,
            Refusal::BadCommand => 3,
            Refusal::NoMemory => 4,
            Refusal::LineTooLong => 5,
            Refusal::FieldLocked => 6,
            Refusal::SaveFailed => 7,
        }
    }
}

/// How a line ended.
#[derive(Drop)]
pub enum Ending {
    Ok,
    /// The command is done as far as it came.
    Fault(Fault),
    Refused(Refusal),
    /// The text of the stack at the cursor is to be kept. A run answers as `Ok` where its desk keeps it, and refuses by
    /// `SaveFailed` where it doesn't.
    Save(StackText),
    /// As `Ok`, and no further line is wanted.
    Quit,
}

/// The answer to a line.
#[derive(Drop)]
pub struct Reply {
    pub shown: Shown,
    pub sent: Sent,
    pub ending: Ending,
}

/// An answer that shows and sends nothing.
pub(crate) fn ended(alloc: Global, ending: Ending) -> Reply
    ensures { result ≡ ended_by ending }
{
    Reply {
        shown: Shown::new(alloc),
        sent: Sent::new(alloc),
        ending,
    }
}

/// A line that is refused.
pub(crate) fn refused(alloc: Global, refusal: Refusal) -> Reply
    ensures { result ≡ refused_by refusal }
{
    ended(alloc, Ending::Refused(refusal))
}
