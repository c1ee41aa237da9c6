//! What is built in, by name.

ghost use Rattle.std.specs.Prelude.{◌≡◌, map};
ghost use Rattle.std.specs.List.{list_any};
ghost use Rattle.ht_values.specs.Text.{same};
ghost use Rattle.msg_path.specs.BuiltIns.{built_in_named, is_system_message as is_of_the_system};

use ht_grammar::HandlerKind;
use ht_lex::is_same;
use ht_values::{Func, Text};

/// A command or a function that is built in.
#[derive(Clone, Copy, PartialEq, Eq, Debug)]
pub enum BuiltIn {
    /// The command `doMenu`.
    DoMenu,
    /// The function `value`.
    Value,
    /// A function of texts alone.
    Function(Func),
}

/// The names of the messages that the system sends, and then of those that it doesn't send here.
const SYSTEM_MESSAGES: &[&[u8]] = &[
    b"mouseDown",
    b"mouseUp",
    b"openStack",
    b"openBackground",
    b"openCard",
    b"closeCard",
    b"closeBackground",
    b"newCard",
    b"openField",
    b"closeField",
    b"exitField",
    b"closeStack",
    b"newBackground",
    b"newButton",
    b"newField",
    b"deleteCard",
];

impl BuiltIn {
    /// What is built in for messages of a kind and a name: the command `doMenu`, or a function. Case is ignored. It
    /// takes no memory.
    pub fn named(kind: HandlerKind, name: &Text) -> Option<BuiltIn>
        ensures { result ≡ built_in_named kind name.now }
    {
        match kind {
            HandlerKind::Command if is_same(name.as_slice(), b"doMenu") => Some(BuiltIn::DoMenu),
            HandlerKind::Command => None,
            HandlerKind::Function if is_same(name.as_slice(), b"value") => Some(BuiltIn::Value),
            HandlerKind::Function => Some(BuiltIn::Function(Func::named(name)?)),
        }
    }
}

/// Whether one of these names is the same.
fn has_name(names: &[&[u8]], name: &[u8]) -> bool
    ensures { result ≡ list_any (λ message. same name.now message) (map (λ message. message.now) names.now) }
{
    for message in names {
        if is_same(name, message) {
            return true;
        }
    }
    false
}

/// Whether a command that nothing handles is ignored, since its name is that of a system message. Case is ignored. It
/// takes no memory.
pub fn is_system_message(name: &Text) -> bool
    ensures { result ≡ is_of_the_system name.now }
{
    has_name(SYSTEM_MESSAGES, name.as_slice())
}
