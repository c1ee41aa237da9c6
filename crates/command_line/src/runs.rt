//! A whole run: from the bytes of a stack, over a reader, a writer and a desk.

ghost use Rattle.std.specs.Prelude.{◌≡◌, ℕ, List, map, true, IfOk, IfErr, IsErrOf};
ghost use Rattle.std.specs.Io.KnownBytes.{Appends, Consumes, IsAtEnd};
ghost use Rattle.journal_entries.specs.State.{seen_by, are_apart};
ghost use Rattle.headline.specs.Headline.{beginning};
ghost use Rattle.devices.specs.Watching.{device_of, failures_of, Rose};
ghost use Rattle.stack_text.specs.Laws.{Spells};
ghost use Rattle.command_line.specs.Plays.{Plays, Ends, IsRefusal, fault_of_run};

use crate::explaining::InWords;
use crate::fault::CliFault;
use crate::options::Options;
use devices::{Desk, Watched};
use externals::{External, HasTable};
use headline::{Ran, RunFault, run, runs_follow, runs_stay_whole, tables_follow};
use object_table::Stack;
use session::Session;
use stack_file::{ReadError, read, write};
use std::alloc::Global;
use std::io::{Read, Write};

/// The most bytes of a stack's file.
pub const MOST_OF_STACK: usize = 4_000_000_000;

// Whoever opens a stack's file takes the limit from here, and no clause names it, so its value is proved here.
const _: () = prove!(MOST_OF_STACK == 4_000_000_000);

/// The stack of a text, or the fault of the program.
pub(crate) fn stack_of(alloc: Global, bytes: &[u8]) -> Result<Stack, CliFault>
    ensures ok { IfOk result (λ s. Spells bytes.now s.content) }
    ensures err { IfErr result (λ fault. IsRefusal bytes.now fault) }
{
    match read(alloc, bytes) {
        Ok(stack) => Ok(stack),
        Err(ReadError::Memory) => Err(CliFault::Memory),
        Err(ReadError::File(error)) => Err(CliFault::Refused(error)),
    }
}

/// The fault of the program for one of a run.
fn fault_of(fault: RunFault) -> CliFault
    ensures { result ≡ fault_of_run fault }
{
    match fault {
        RunFault::Memory => CliFault::Memory,
        RunFault::Read => CliFault::Read,
        RunFault::Write => CliFault::Write,
        RunFault::TooManyLines => CliFault::TooManyLines,
    }
}

/// Whether a text of a stack is the one that was read, in whichever version that was; also where there is no memory to
/// see it.
fn is_as_read(alloc: Global, given: &[u8], text: &[u8]) -> bool {
    if given == text {
        return true;
    }
    match stack_of(alloc, given) {
        Ok(stack) => match write(alloc, &stack) {
            Ok(again) => again.as_slice() == text,
            Err(_) => true,
        },
        Err(_) => true,
    }
}

/// Tells the desk with which text the session ends, where there is memory for it.
fn leave<E: External, D: Desk>(session: &Session<E>, alloc: Global, given: &[u8], desk: &mut D)
    ensures { D.seen desk.new ≡ D.seen desk.old }
{
    if let Ok(text) = session.saved() {
        desk.leave(text.as_slice(), is_as_read(alloc, given, text.as_slice()));
    }
}

/// Reads the stack text, opens a session with these externals as the options say, and runs the reader to the writer, up
/// to `.quit` or the end of the input, which it tells. The desk keeps what is saved, hears of each message, and hears
/// at the end, however the run ended, with which text of the stack the session ends.
///
/// What is written is the answers to the lines that are read, those of a list of states with a cursor, each of which is
/// whole before each line and after it, however the run ends; the turns in the logs of the externals follow the table
/// of their type. `Refused` where the bytes are no stack text, and `Read`, `Write` and `TooManyLines` as `run` has
/// them; `Memory` only where a growth was refused before the first line was read, so that nothing is read, written or
/// kept. A device is blamed where it failed, and nowhere else.
pub fn play<E: HasTable, R: Read, W: Write, D: Desk>(
    alloc: Global,
    options: &Options,
    bytes: &[u8],
    externals: Vec<E>,
    reader: &mut Watched<R>,
    writer: &mut Watched<W>,
    desk: &mut D,
) -> Result<Ran, CliFault>
    requires { are_apart (map E.title externals.items) ≡ true }
    ensures ok { IfOk result (λ ran. (read : List ℕ) × (written : List ℕ)
        × Consumes (R.remaining (device_of reader.old)) (R.remaining (device_of reader.new)) read
        × Appends (W.contents (device_of writer.old)) (W.contents (device_of writer.new)) written
        × Plays (IsAtEnd (R.remaining (device_of reader.new))) ran bytes.now
        (λ stack. beginning stack (map (seen_by E.title E.sort E.answers_calls E.cells) externals.items)
        (map E.log externals.items) options.now.steps options.now.depth) E.turn_table
        (D.seen desk.old) read written (D.seen desk.new)) }
    ensures err { IfErr result (λ fault. (read : List ℕ) × (written : List ℕ)
        × Consumes (R.remaining (device_of reader.old)) (R.remaining (device_of reader.new)) read
        × Appends (W.contents (device_of writer.old)) (W.contents (device_of writer.new)) written
        × Ends (IsAtEnd (R.remaining (device_of reader.new))) fault bytes.now
        (λ stack. beginning stack (map (seen_by E.title E.sort E.answers_calls E.cells) externals.items)
        (map E.log externals.items) options.now.steps options.now.depth) E.turn_table
        (D.seen desk.old) read written (D.seen desk.new)) }
    ensures read_failed { IsErrOf result CliFault.Read → Rose (failures_of reader.old) (failures_of reader.new) }
    ensures read_sound { ¬ IsErrOf result CliFault.Read → failures_of reader.new ≡ failures_of reader.old }
    ensures write_failed { IsErrOf result CliFault.Write → Rose (failures_of writer.old) (failures_of writer.new) }
    ensures write_sound { ¬ IsErrOf result CliFault.Write → failures_of writer.new ≡ failures_of writer.old }
{
    let stack = stack_of(alloc, bytes)?;
    let mut session = match Session::open(alloc, stack, externals, options.steps, options.depth) {
        Ok(session) => session,
        Err(_) => unreachable!(),
    };
    runs_follow();
    runs_stay_whole();
    tables_follow();
    match run(&mut session, alloc, reader, writer, desk, &InWords) {
        Ok(ran) => {
            session.law_of_table();
            leave(&session, alloc, bytes, desk);
            Ok(ran)
        }
        Err(fault) => {
            session.law_of_table();
            leave(&session, alloc, bytes, desk);
            Err(fault_of(fault))
        }
    }
}
