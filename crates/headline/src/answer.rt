//! The bytes of an answer, and how they go out.

ghost use Rattle.std.specs.Prelude.{◌≡◌, ◌++◌, IfSome};
ghost use Rattle.headline.specs.Answers.{answer, ending_line, numbered_line};
ghost use Rattle.headline.specs.Writing.{WritesOut};

use devices::{Watched, write_to};
use itoa::Buffer;
use session::{Ending, Reply};
use std::alloc::Global;
use std::io::Write;

/// The writer failed, and not all of what was to be written went out.
#[derive(Clone, Copy)]
pub struct Cut;

fn write_piece<W: Write>(bytes: &[u8], out: &mut Watched<W>) -> Result<(), Cut>
    ensures { WritesOut W.contents bytes.now out.old result out.new }
{
    match write_to(bytes, out) {
        Ok(()) => Ok(()),
        Err(_) => Err(Cut),
    }
}

/// Writes three pieces, one after another.
fn write_three<W: Write>(
    first: &[u8],
    second: &[u8],
    third: &[u8],
    out: &mut Watched<W>,
) -> Result<(), Cut>
    ensures { WritesOut W.contents (first.now ++ second.now ++ third.now) out.old result out.new }
{
    write_piece(first, out)?;
    write_piece(second, out)?;
    write_piece(third, out)
}

/// Writes a word, a number and the end of the line.
fn write_numbered<W: Write>(word: &[u8], number: u8, out: &mut Watched<W>) -> Result<(), Cut>
    ensures { WritesOut W.contents (numbered_line word.now number) out.old result out.new }
{
    let mut digits = Buffer::new();
    write_three(word, digits.format(number).as_bytes(), b"\n", out)
}

fn write_ending<W: Write>(ending: &Ending, out: &mut Watched<W>) -> Result<(), Cut>
    ensures { WritesOut W.contents (ending_line ending.now) out.old result out.new }
{
    match ending {
        Ending::Ok | Ending::Save(_) | Ending::Quit => write_piece(b"ok\n", out),
        Ending::Fault(fault) => write_numbered(b"fault ", fault.number(), out),
        Ending::Refused(refusal) => write_numbered(b"refused ", refusal.number(), out),
    }
}

/// Writes an answer piece by piece. It takes no memory of its own.
fn write_piecewise<W: Write>(reply: &Reply, out: &mut Watched<W>) -> Result<(), Cut>
    ensures { WritesOut W.contents (answer reply.now) out.old result out.new }
{
    for line in reply.shown.as_slice() {
        write_three(b"> ", line.as_slice(), b"\n", out)?;
    }
    write_ending(&reply.ending, out)
}

/// A copy of an answer, or none where it is refused memory.
fn copy_of(alloc: Global, reply: &Reply) -> Option<Vec<u8>>
    ensures { IfSome result (λ copy. copy.items ≡ answer reply.now) }
{
    let mut copy = Watched::new(Vec::new(alloc));
    match write_piecewise(reply, &mut copy) {
        Ok(()) => Some(copy.into_inner()),
        Err(_) => None,
    }
}

/// Writes an answer: by one write of a copy, where there is memory for one, and else piece by piece.
pub fn write_answer<W: Write>(alloc: Global, reply: &Reply, out: &mut Watched<W>) -> Result<(), Cut>
    ensures { WritesOut W.contents (answer reply.now) out.old result out.new }
{
    match copy_of(alloc, reply) {
        Some(copy) => write_piece(&copy, out),
        None => write_piecewise(reply, out),
    }
}
