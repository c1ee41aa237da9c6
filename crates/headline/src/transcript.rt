//! A session over a reader, a writer and a desk: the headline.

ghost use Rattle.std.specs.Prelude.{◌≡◌, ◌+◌, ◌-◌, ◌<◌, ◌≤◌, ◌≢◌, ◌↔◌, ◌⊎◌, ℕ, IsTrue, List, [], ◌∷◌, ◌++◌, length};
ghost use Rattle.std.specs.Prelude.{IfOk, IfErr, OnOk, OnErr, IsErrOf, Ok, true, false};
ghost use Rattle.std.specs.Vec.{vec_capacity};
ghost use Rattle.std.specs.Io.KnownBytes.{Appends, Consumes, IsAtEnd};
ghost use Rattle.devices.specs.Desks.{SeenDesk, HearsOrForgets};
ghost use Rattle.devices.specs.Watching.{device_of, failures_of, Rose};
ghost use Rattle.headline.specs.Answers.{answer};
ghost use Rattle.headline.specs.Saving.{IsSaved, KeptOrNot, Takes, as_heard};
ghost use Rattle.session.specs.SessionView.{SessionView};
ghost use Rattle.stack_text.specs.Listing.{spelling};
ghost use Rattle.stack_text.specs.declared.sheets.Version.TheVariants.{Second as second};
ghost use Rattle.headline.specs.InputLines.{without_return as line_of_ended, AreLines};
ghost use Rattle.headline.specs.Answering.{is_quit, Breaks};
ghost use Rattle.headline.specs.Writing.{IsCut};
ghost use Rattle.headline.specs.Intake.{Reached, Onward, Broken};
ghost use Rattle.headline.specs.Stops.{Ended, Stopped};
ghost use Rattle.headline.specs.Headline.{Headline};
ghost use Rattle.headline.specs.Unzipped.{timeline_of};
ghost use Rattle.headline.specs.declared.transcript.TheConstants.{BLOCK, KEPT};
ghost use Rattle.headline.specs.declared.limits.TheConstants.{MOST_BYTES, MOST_LINES};
ghost use Rattle.session.specs.declared.reply.Reply.{Reply};

use crate::answer::{Cut, write_answer};
use crate::explainer::Explainer;
use crate::limits::{MOST_BYTES, MOST_LINES};
use devices::{Desk, Watched};
use externals::External;
use session::{Ending, LONGEST_LINE, Refusal, Reply, Sent, Session};
use std::alloc::{AllocError, Global};
use std::io::{Read, Write};

/// How a run ended well.
#[derive(Clone, Copy, Debug, PartialEq, Eq)]
pub enum Ran {
    EndOfInput,
    Quit,
}

/// Why a run stopped.
#[derive(Clone, Copy, Debug, PartialEq, Eq)]
pub enum RunFault {
    Memory,
    Read,
    Write,
    TooManyLines,
}

impl From<Cut> for RunFault {
    ghost use Rattle.headline.specs.declared.transcript.RunFault.TheVariants.{Write};

    ghost from_gives = { λ _ fault. fault ≡ Write };

    fn from(_cut: Cut) -> RunFault {
        RunFault::Write
    }
}

fn without_return(line: &[u8]) -> &[u8]
    ensures { result.now ≡ line_of_ended line.now }
{
    match line {
        [front @ .., b'\r'] => front,
        _ => line,
    }
}

/// Tells the desk of the messages that were sent, in their order.
fn tell<D: Desk>(desk: &mut D, sent: &Sent)
    ensures { HearsOrForgets (as_heard sent.now) (D.seen desk.old) (D.seen desk.new) }
{
    for i in 0..sent.len() {
        let message = sent.at(i);
        desk.sent(message.name(), message.object());
    }
}

/// How a line is answered that ended so: the desk is asked to keep the text of the stack for one that saves.
fn settle<E: External, D: Desk>(session: &Session<E>, desk: &mut D, ending: Ending) -> Ending
    requires { IsSaved ending (spelling second session.now.history.now.stack) }
    ensures { KeptOrNot ending (D.seen desk.old) result (D.seen desk.new) }
{
    match ending {
        Ending::Save(_) => {
            if desk.keep(session.stack()) {
                Ending::Ok
            } else {
                Ending::Refused(Refusal::SaveFailed)
            }
        }
        Ending::Ok => Ending::Ok,
        Ending::Fault(fault) => Ending::Fault(fault),
        Ending::Refused(refusal) => Ending::Refused(refusal),
        Ending::Quit => Ending::Quit,
    }
}

/// Tells the desk why a line faulted or was refused, if it wants to hear it.
fn tell_why<E: External, D: Desk, X: Explainer>(
    session: &Session<E>,
    alloc: Global,
    line: &[u8],
    reply: &Reply,
    desk: &mut D,
    explainer: &X,
)
    ensures { D.seen desk.new ≡ D.seen desk.old }
{
    if !desk.explains() {
        return;
    }
    let words = explainer.explain(alloc, session, line, reply);
    if !words.is_empty() {
        desk.explain(&words);
    }
}

/// Takes a line, and has the desk hear of its messages and of why it faulted or was refused, and keep what it saves.
fn take_line<E: External, D: Desk, X: Explainer>(
    session: &mut Session<E>,
    alloc: Global,
    line: &[u8],
    desk: &mut D,
    explainer: &X,
) -> Reply
    ensures { Takes line.now (session.old, D.seen desk.old) result
        (session.new, D.seen desk.new) }
{
    session.law_of_states();
    let Reply {
        shown,
        sent,
        ending,
    } = session.line(line);
    session.law_of_states();
    tell(desk, &sent);
    let ending = settle(session, desk, ending);
    let reply = Reply {
        shown,
        sent,
        ending,
    };
    tell_why(session, alloc, line, &reply, desk, explainer);
    reply
}

/// Answers a line, and says whether it quits.
fn answer_line<E: External, W: Write, D: Desk, X: Explainer>(
    session: &mut Session<E>,
    alloc: Global,
    line: &[u8],
    writer: &mut Watched<W>,
    desk: &mut D,
    explainer: &X,
) -> Result<bool, Cut>
    ensures ok { IfOk result (λ quits. (reply : Reply)
        × Takes line.now (session.old, D.seen desk.old) reply (session.new, D.seen desk.new)
        × (is_quit reply.ending ≡ quits)
        × Appends (W.contents (device_of writer.old)) (W.contents (device_of writer.new))
        (answer reply)) }
    ensures err { OnErr result ((reply : Reply) × (sent : List ℕ)
        × Takes line.now (session.old, D.seen desk.old) reply (session.new, D.seen desk.new) × IsCut (answer reply) sent
        × Appends (W.contents (device_of writer.old)) (W.contents (device_of writer.new)) sent) }
    ensures failed { OnErr result (Rose (failures_of writer.old) (failures_of writer.new)) }
    ensures sound { OnOk result (failures_of writer.new ≡ failures_of writer.old) }
{
    let reply = take_line(session, alloc, line, desk, explainer);
    write_answer(alloc, &reply, writer)?;
    Ok(matches!(reply.ending, Ending::Quit))
}

/// The longest line with its carriage return, and one byte more, which shows that it is too long.
const KEPT: usize = LONGEST_LINE + 2;

/// What is read and not yet answered, and how much was read before.
#[derive(Drop)]
struct Intake {
    pending: Vec<u8>,
    lines: u32,
    bytes: u32,
    ghost few: { lines ≤ MOST_LINES },
    ghost short: { bytes ≤ MOST_BYTES },
    ghost room: { KEPT ≤ vec_capacity pending },
}

impl Intake {
    fn new(alloc: Global) -> Result<Intake, AllocError>
        ensures { IfOk result (λ i. (i.pending.items ≡ []) × (i.lines ≡ 0) × (i.bytes ≡ 0)) }
    {
        Ok(Intake {
            pending: Vec::with_capacity(alloc, KEPT)?,
            lines: 0,
            bytes: 0,
        })
    }

    fn is_full(&self) -> bool
        ensures { IsTrue result ↔ ((self.now.lines ≡ MOST_LINES) ⊎ (self.now.bytes ≡ MOST_BYTES)) }
    {
        self.lines == MOST_LINES || self.bytes == MOST_BYTES
    }
}

/// Takes one byte of the input, and answers the line that it ends.
fn take_byte<E: External, W: Write, D: Desk, X: Explainer>(
    session: &mut Session<E>,
    alloc: Global,
    intake: &mut Intake,
    byte: u8,
    writer: &mut Watched<W>,
    desk: &mut D,
    explainer: &X,
) -> Result<bool, Cut>
    requires lines { intake.old.lines < MOST_LINES }
    requires bytes { intake.old.bytes < MOST_BYTES }
    ensures ok { IfOk result (λ quits. (text : List ℕ)
        × Appends (W.contents (device_of writer.old)) (W.contents (device_of writer.new)) text
        × ((start : SessionView × SeenDesk) (read written : List ℕ)
        → Reached start read written (session.old, D.seen desk.old)
        intake.old.pending.items intake.old.lines intake.old.bytes
        → Onward 0 quits start (read ++ byte ∷ []) (written ++ text) (session.new, D.seen desk.new)
        intake.new.pending.items intake.new.lines intake.new.bytes)) }
    ensures err { OnErr result ((text : List ℕ)
        × Appends (W.contents (device_of writer.old)) (W.contents (device_of writer.new)) text
        × ((start : SessionView × SeenDesk) (read written : List ℕ)
        → Reached start read written (session.old, D.seen desk.old)
        intake.old.pending.items intake.old.lines intake.old.bytes
        → Broken 0 start (read ++ byte ∷ []) (written ++ text) (session.new, D.seen desk.new))) }
    ensures failed { OnErr result (Rose (failures_of writer.old) (failures_of writer.new)) }
    ensures sound { OnOk result (failures_of writer.new ≡ failures_of writer.old) }
{
    intake.bytes += 1;
    if byte == b'\n' {
        let quits = answer_line(
            session,
            alloc,
            without_return(&intake.pending),
            writer,
            desk,
            explainer,
        )?;
        intake.pending.clear();
        intake.lines += 1;
        return Ok(quits);
    }
    if intake.pending.len() < KEPT {
        intake.pending.push_reserved(byte);
    }
    Ok(false)
}

/// Takes the bytes of one read.
fn take_block<E: External, W: Write, D: Desk, X: Explainer>(
    session: &mut Session<E>,
    alloc: Global,
    intake: &mut Intake,
    block: &[u8],
    writer: &mut Watched<W>,
    desk: &mut D,
    explainer: &X,
) -> Result<bool, RunFault>
    requires { length block.now ≤ BLOCK }
    ensures ok { IfOk result (λ quits. (text : List ℕ)
        × Appends (W.contents (device_of writer.old)) (W.contents (device_of writer.new)) text
        × ((start : SessionView × SeenDesk) (read written : List ℕ)
        → Reached start read written (session.old, D.seen desk.old)
        intake.old.pending.items intake.old.lines intake.old.bytes
        → Onward (BLOCK - 1) quits start (read ++ block.now) (written ++ text) (session.new, D.seen desk.new)
        intake.new.pending.items intake.new.lines intake.new.bytes)) }
    ensures err { IfErr result (λ e. (text : List ℕ)
        × Appends (W.contents (device_of writer.old)) (W.contents (device_of writer.new)) text
        × ((start : SessionView × SeenDesk) (read written : List ℕ)
        → Reached start read written (session.old, D.seen desk.old)
        intake.old.pending.items intake.old.lines intake.old.bytes
        → Stopped Takes ⊥ e start (read ++ block.now) (written ++ text) (session.new, D.seen desk.new))) }
    ensures which { IfErr result (λ e. (e ≢ RunFault.Read) × (e ≢ RunFault.Memory)) }
    ensures failed { IsErrOf result RunFault.Write
        → Rose (failures_of writer.old) (failures_of writer.new) }
    ensures sound { ¬ IsErrOf result RunFault.Write
        → failures_of writer.new ≡ failures_of writer.old }
{
    for byte in block {
        if intake.is_full() {
            return Err(RunFault::TooManyLines);
        }
        if take_byte(session, alloc, intake, *byte, writer, desk, explainer)? {
            return Ok(true);
        }
    }
    Ok(false)
}

/// Answers the last line, which nothing ended, if it is not empty.
fn take_last<E: External, W: Write, D: Desk, X: Explainer>(
    session: &mut Session<E>,
    alloc: Global,
    intake: &Intake,
    writer: &mut Watched<W>,
    desk: &mut D,
    explainer: &X,
) -> Result<Ran, Cut>
    ensures ok { IfOk result (λ ran. (text : List ℕ)
        × Appends (W.contents (device_of writer.old)) (W.contents (device_of writer.new)) text
        × ((start : SessionView × SeenDesk) (read written : List ℕ)
        → Reached start read written (session.old, D.seen desk.old)
        intake.now.pending.items intake.now.lines intake.now.bytes
        → Ended Takes (Unit {0}) ran start read (written ++ text) (session.new, D.seen desk.new))) }
    ensures err { OnErr result ((text : List ℕ)
        × Appends (W.contents (device_of writer.old)) (W.contents (device_of writer.new)) text
        × ((start : SessionView × SeenDesk) (read written : List ℕ)
        → Reached start read written (session.old, D.seen desk.old)
        intake.now.pending.items intake.now.lines intake.now.bytes
        → Breaks Takes (Unit {0}) start read (written ++ text) (session.new, D.seen desk.new))) }
    ensures failed { OnErr result (Rose (failures_of writer.old) (failures_of writer.new)) }
    ensures sound { OnOk result (failures_of writer.new ≡ failures_of writer.old) }
{
    if intake.pending.is_empty() {
        return Ok(Ran::EndOfInput);
    }
    if answer_line(session, alloc, &intake.pending, writer, desk, explainer)? {
        return Ok(Ran::Quit);
    }
    Ok(Ran::EndOfInput)
}

/// How many bytes one read may take.
const BLOCK: usize = 4_096;

/// Answers each line of the input, up to the first that quits. A line ends with a line feed, and one
/// carriage return before it is dropped; a last line that nothing ends counts if it isn't empty. The
/// answer to a line is written whole before the next line is done, by one call of the writer if it takes
/// all, and where there is memory for a copy of the answer; an answer needs none. Input is read in blocks
/// of at most 4,096 bytes.
///
/// The desk hears of each message that a line sent, in their order, once the line is done, and then, if it wants to,
/// why the line faulted or was refused, in the words of the explainer. The stack of a line that saves is handed to it
/// then: the answer is `ok` where it keeps its text. Where it doesn't, its `failures` rose, what it kept before stands,
/// and the answer is `refused 7`. Both come before the answer is written.
///
/// `TooManyLines` where a byte comes after 1,000,000 lines or 1,000,000,000 bytes; `Read` and `Write`
/// only where the device failed, and then no line is done further; `Memory` only where none was there to
/// begin, and then nothing is read, done or written.
pub fn run<E: External, R: Read, W: Write, D: Desk, X: Explainer>(
    session: &mut Session<E>,
    alloc: Global,
    reader: &mut Watched<R>,
    writer: &mut Watched<W>,
    desk: &mut D,
    explainer: &X,
) -> Result<Ran, RunFault>
    // The headline: what is written is the answers to the lines that are read, those of a list of
    // whole states with a cursor, beside a desk that keeps what is saved.
    ensures headline { OnOk result ((read : List ℕ) × (lines : List (List ℕ)) × (text : List ℕ)
        × Consumes (R.remaining (device_of reader.old)) (R.remaining (device_of reader.new)) read
        × Appends (W.contents (device_of writer.old)) (W.contents (device_of writer.new)) text
        × AreLines read lines
        × Headline (timeline_of session.old, D.seen desk.old) lines text
        (timeline_of session.new, D.seen desk.new)) }
    // How far it read, and where the session stands, with the weight of each step.
    ensures ok { IfOk result (λ ran. (read : List ℕ) × (written : List ℕ)
        × Consumes (R.remaining (device_of reader.old)) (R.remaining (device_of reader.new)) read
        × Appends (W.contents (device_of writer.old)) (W.contents (device_of writer.new)) written
        × Ended Takes (IsAtEnd (R.remaining (device_of reader.new))) ran
        (session.old, D.seen desk.old) read written (session.new, D.seen desk.new)) }
    // A fault leaves the session after the lines so far.
    ensures err { IfErr result (λ e. (read : List ℕ) × (written : List ℕ)
        × Consumes (R.remaining (device_of reader.old)) (R.remaining (device_of reader.new)) read
        × Appends (W.contents (device_of writer.old)) (W.contents (device_of writer.new)) written
        × Stopped Takes (IsAtEnd (R.remaining (device_of reader.new))) e
        (session.old, D.seen desk.old) read written (session.new, D.seen desk.new)) }
    // A device is blamed where it failed, and nowhere else.
    ensures read_failed { IsErrOf result RunFault.Read
        → Rose (failures_of reader.old) (failures_of reader.new) }
    ensures read_sound { ¬ IsErrOf result RunFault.Read
        → failures_of reader.new ≡ failures_of reader.old }
    ensures write_failed { IsErrOf result RunFault.Write
        → Rose (failures_of writer.old) (failures_of writer.new) }
    ensures write_sound { ¬ IsErrOf result RunFault.Write
        → failures_of writer.new ≡ failures_of writer.old }
{
    let mut intake = match Intake::new(alloc) {
        Ok(intake) => intake,
        Err(_) => return Err(RunFault::Memory),
    };
    let mut block = [0; BLOCK];
    for _ in 0..=MOST_BYTES {
        let count = match reader.read(&mut block) {
            Ok(count) => count,
            Err(_) => return Err(RunFault::Read),
        };
        if count == 0 {
            let ran = take_last(session, alloc, &intake, writer, desk, explainer)?;
            return Ok(ran);
        }
        if take_block(
            session,
            alloc,
            &mut intake,
            &block[..count],
            writer,
            desk,
            explainer,
        )? {
            return Ok(Ran::Quit);
        }
    }
    Err(RunFault::TooManyLines)
}
