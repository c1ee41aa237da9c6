//! Why nothing is read.

ghost use Rattle.std.specs.Prelude.{◌≡◌, ◌≤◌, length};
ghost use Rattle.ht_values.specs.declared.text.TheConstants.{LIMIT};
ghost use Rattle.ht_lex.specs.Stops.{Gives};

use ht_values::{IN_PLACE, Name, Text};
use std::alloc::{AllocError, AllocFailed, Global};

/// Why no tree is read: the tokens are none, or a growth of memory was refused.
#[derive(Clone, Copy, PartialEq, Eq, Debug)]
pub enum Stop {
    Syntax,
    Memory,
}

impl From<AllocError> for Stop {
    ghost use Rattle.std.specs.Prelude.{◌≡◌};
    ghost use Rattle.ht_lex.specs.declared.stop.Stop.TheVariants.{Memory};

    ghost from_gives = { λ _ e. e ≡ Memory };

    fn from(_: AllocError) -> Stop {
        Stop::Memory
    }
}

impl<T: Drop> From<AllocFailed<T>> for Stop {
    ghost use Rattle.std.specs.Prelude.{◌≡◌};
    ghost use Rattle.ht_lex.specs.declared.stop.Stop.TheVariants.{Memory};

    ghost from_gives = { λ _ e. e ≡ Memory };

    fn from(_: AllocFailed<T>) -> Stop {
        Stop::Memory
    }
}

/// A text of these bytes, unless memory is refused.
pub fn to_text(alloc: Global, bytes: &[u8]) -> Result<Text, Stop>
    requires { length bytes.now ≤ LIMIT }
    ensures { Gives bytes.now result }
{
    Ok(Text::fitting(alloc, bytes)?)
}

/// A name of these bytes, unless memory is refused. Most are short and folded, and take no memory.
#[inline(always)]
pub fn to_name(alloc: Global, bytes: &[u8]) -> Result<Name, Stop>
    requires { length bytes.now ≤ LIMIT }
    ensures { Gives bytes.now result }
{
    if bytes.len() <= IN_PLACE {
        let spelling = Text::copied_in_place(alloc, bytes);
        if spelling.is_folded() {
            return Ok(Name::of_folded(spelling));
        }
    }
    to_long_name(alloc, bytes)
}

/// A name of these bytes, unless memory is refused, with its folded form beside it.
#[inline(never)]
fn to_long_name(alloc: Global, bytes: &[u8]) -> Result<Name, Stop>
    requires { length bytes.now ≤ LIMIT }
    ensures { Gives bytes.now result }
{
    let spelling = to_text(alloc, bytes)?;
    Ok(Name::new(alloc, spelling)?)
}
