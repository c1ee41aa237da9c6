//! Messages of the system.

ghost use Rattle.std.specs.Prelude.{◌≡◌, ◌≤◌, length, IfOk};
ghost use Rattle.meaning.specs.Menu.{message_name};

use ht_values::Text;
use std::alloc::{AllocError, Global};

/// A message that the system sends: as the current card changes, as the stack is opened, and for what is clicked or
/// typed.
#[derive(Clone, Copy, PartialEq, Eq, Debug)]
pub enum SystemMessage {
    CloseCard,
    CloseBackground,
    OpenBackground,
    OpenCard,
    NewCard,
    OpenStack,
    MouseDown,
    MouseUp,
    OpenField,
    /// A field is left whose text was changed by typing.
    CloseField,
    /// A field is left whose text is as it was.
    ExitField,
}

impl SystemMessage {
    /// The name of the message, as handlers are written for it.
    pub fn name(self) -> &'static [u8]
        ensures name { result.now ≡ message_name self }
        ensures short { length result.now ≤ 100 }
    {
        match self {
            SystemMessage::CloseCard => b"closeCard",
            SystemMessage::CloseBackground => b"closeBackground",
            SystemMessage::OpenBackground => b"openBackground",
            SystemMessage::OpenCard => b"openCard",
            SystemMessage::NewCard => b"newCard",
            SystemMessage::OpenStack => b"openStack",
            SystemMessage::MouseDown => b"mouseDown",
            SystemMessage::MouseUp => b"mouseUp",
            SystemMessage::OpenField => b"openField",
            SystemMessage::CloseField => b"closeField",
            SystemMessage::ExitField => b"exitField",
        }
    }

    /// The name of the message as a text.
    pub fn text(self, alloc: Global) -> Result<Text, AllocError>
        ensures { IfOk result (λ t. t ≡ message_name self) }
    {
        Text::fitting(alloc, self.name())
    }
}
