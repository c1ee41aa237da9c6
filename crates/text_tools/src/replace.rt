//! Replace: a function that replaces each occurrence of a run of bytes.

ghost use Rattle.std.specs.Prelude.{◌≡◌, ◌<◌, ◌++◌, drop, length, IfOk};
ghost use Rattle.ht_values.specs.Outcome.{Gives, within_limit};
ghost use Rattle.text_tools.specs.Replacing.{replaced, replaced_after, replace_turn};

use externals::{Ask, Input, Texts};
use ht_values::{Failure, Fault, Text};
use std::alloc::{AllocError, Global};

/// What is asked at a turn: the value at once, or a fault.
pub(crate) fn answer(alloc: Global, input: &Input) -> Result<Ask, AllocError>
    ensures { IfOk result (λ a. a ≡ replace_turn input.now) }
{
    match input {
        Input::Start(args) if args.len() == 3 => done(alloc, args),
        _ => Ok(Ask::Fail),
    }
}

fn done(alloc: Global, args: &Texts) -> Result<Ask, AllocError>
    requires { length args.now ≡ 3 }
    ensures { IfOk result (λ a. a ≡ replace_turn (Input.Start args.now)) }
{
    match replace_all(alloc, args.at(0), args.at(1), args.at(2)) {
        Ok(text) => Ok(Ask::Done(text, false)),
        Err(Failure::Fault(_)) => Ok(Ask::Fail),
        Err(Failure::Memory) => Err(AllocError),
    }
}

/// A text with each occurrence of a run replaced. `TooLong` where that is over 30,000 bytes; it stops at the limit.
fn replace_all(alloc: Global, text: &Text, old: &Text, new: &Text) -> Result<Text, Failure>
    ensures { Gives result (within_limit (replaced old.now new.now text.now)) }
{
    if old.len() == 0 {
        return Ok(text.try_clone(alloc)?);
    }
    let bytes = text.as_slice();
    let mut made = Text::new(alloc);
    let mut at = 0;
    while at < bytes.len() {
        let (piece, next) = next_piece(bytes, at, old.as_slice(), new.as_slice());
        made.append(piece)?;
        at = next;
    }
    Ok(made)
}

/// What stands for the next bytes of a text, and where those after them begin: an occurrence of the run is replaced,
/// any other byte stays.
fn next_piece<'a>(text: &'a [u8], at: usize, old: &[u8], new: &'a [u8]) -> (&'a [u8], usize)
    requires at { at < length text.now }
    requires old { 0 < length old.now }
    ensures further { at < result.1 }
    ensures piece { replaced_after old.now new.now 0 (drop at text.now) ≡ result.0.now
        ++ replaced_after old.now new.now 0 (drop result.1 text.now) }
{
    if text[at..].starts_with(old) {
        (new, at + old.len())
    } else {
        (&text[at..at + 1], at + 1)
    }
}
