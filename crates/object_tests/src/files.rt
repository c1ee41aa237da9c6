//! Examples of the stack file, with ample memory: a text is made, and comes to something where it is read. Most are
//! rows of `rows`; here are long texts, those with each byte changed, or cut at each place, and writers that fail.

ghost use Rattle.object_table.specs.WellFormed.{IsWellFormed};

mod changed;
mod limits;
mod pieces;
mod writers;

use crate::stacks::{Fact, hold};
use object_table::Stack;
use stack_file::*;
use std::alloc::Global;

/// What a stack text comes to where it is read.
#[derive(Clone, Copy)]
enum Due {
    Stack(&'static [Fact]),
    /// A stack that is written as it is read.
    Kept(&'static [Fact]),
    Fault(FileError),
}

/// The stack of a text that has one, in a box, which is dropped by one call.
pub(crate) fn stack_of(alloc: Global, text: &[u8]) -> Option<Box<Stack>> {
    Box::new(alloc, read(alloc, text).ok()?).ok()
}

fn fault_of(alloc: Global, text: &[u8]) -> Option<FileError> {
    match read(alloc, text) {
        Err(ReadError::File(fault)) => Some(fault),
        _ => None,
    }
}

fn writes(alloc: Global, stack: &Stack, due: &[u8]) -> bool
    requires { IsWellFormed stack.now.content }
{
    matches!(write(alloc, stack), Ok(text) if text.as_slice() == due)
}

/// Whether the stack of a text is written as that text.
fn is_written(alloc: Global, text: &[u8]) -> bool {
    matches!(read(alloc, text), Ok(stack) if writes(alloc, &stack, text))
}

fn reads(alloc: Global, text: &[u8], facts: &[Fact]) -> bool {
    matches!(stack_of(alloc, text), Some(stack) if hold(alloc, &stack, facts))
}

fn comes_to(alloc: Global, text: &[u8], due: &Due) -> bool {
    match due {
        Due::Stack(facts) => reads(alloc, text, facts),
        Due::Kept(facts) => reads(alloc, text, facts) && is_written(alloc, text),
        Due::Fault(fault) => fault_of(alloc, text) == Some(*fault),
    }
}
