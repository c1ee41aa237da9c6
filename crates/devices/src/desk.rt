//! Where a stack's text is kept, and who hears of the messages that are sent.

ghost use Rattle.std.specs.Prelude.{◌≡◌, [], ◌∷◌, not};
ghost use Rattle.object_table.specs.WellFormed.{IsWellFormed};
ghost use Rattle.stack_text.specs.Listing.{spelling};
ghost use Rattle.stack_text.specs.declared.sheets.Version.TheVariants.{Second as second};
ghost use Rattle.devices.specs.Desks.{SeenDesk, kept_after, HearsOrForgets};
ghost use Rattle.devices.specs.Watching.{counted};

use ht_values::Text;
use object_table::{Id, Stack};

/// A message that a desk heard of, and the id of the object that it was sent to.
#[derive(Drop)]
pub struct HeardMessage {
    pub name: Text,
    pub object: Id,
}

/// Keeps the last text that was saved, and hears of each message that was sent, of the text with which a session ends,
/// and, if it wants to, why lines faulted or were refused.
///
/// A desk may tell what it keeps and what it heard, as one in memory does; one that keeps it in a file doesn't. One
/// that is out of memory for a message doesn't tell any more of what it heard.
pub trait Desk {
    ghost seen: { Self → SeenDesk };

    /// Keeps the text of a stack in place of the one before it, and says whether it did. Where it didn't, a failure is
    /// counted and what was kept before stands.
    fn keep(&mut self, stack: &Stack) -> bool
        requires { IsWellFormed stack.now.content }
        ensures kept { (seen self.new).kept
            ≡ kept_after result (spelling second stack.now.content) (seen self.old).kept }
        ensures heard { (seen self.new).heard ≡ (seen self.old).heard }
        ensures failures { (seen self.new).failures ≡ counted (not result) (seen self.old).failures };

    /// Hears of a message, by its name and the id of the object that it was sent to. It can't fail: a desk that can't
    /// make use of a message lets it go. Where it tells what it heard, the message stands last.
    fn sent(&mut self, name: &Text, object: Id)
        ensures { HearsOrForgets (record { name = name.now; object = object } ∷ [])
            (seen self.old) (seen self.new) };

    /// Whether it wants to hear why a line faulted or was refused.
    fn explains(&self) -> bool {
        false
    }

    /// Hears why a line faulted or was refused: lines of text, without an end of the last. It can't fail.
    fn explain(&mut self, _text: &[u8])
        ensures { seen self.new ≡ seen self.old }
    {}

    /// Hears with which text of the stack a session ends, and whether that is the text that was read at its beginning.
    /// It can't fail.
    fn leave(&mut self, _text: &[u8], _is_as_read: bool)
        ensures { seen self.new ≡ seen self.old }
    {}

    /// How many calls of `keep` failed. At its greatest value the count stays.
    fn failures(&self) -> u64
        ensures { result ≡ (seen self.now).failures };
}
