//! What ends the program, with its status and its line on standard error.

ghost use Rattle.std.specs.Prelude.{◌≡◌, ◌++◌, take, length, ◌≤◌, codes, IfOk};
ghost use Rattle.ht_values.specs.declared.text.TheConstants.{LIMIT};
ghost use Rattle.command_line.specs.declared.fault.CliFault.TheVariants.{Memory};
ghost use Rattle.command_line.specs.declared.fault.TheConstants.{MOST_OF_NAME};
ghost use Rattle.command_line.specs.Verdicts.{fault_of_bytes, status_of, message_of, refusal_of};

use devices::BytesFault;
use ht_values::{LIMIT, Text};
use itoa::Buffer;
use stack_file::FileError;
use std::alloc::{AllocError, AllocFailed, Global};

/// What ends the program before its input does.
#[derive(Drop)]
pub enum CliFault {
    /// The words are not the program's; the text is `clap`'s, cut after 30,000 bytes.
    Usage(Text),
    /// The file of the stack can't be read.
    CannotRead,
    /// The file is no stack text.
    Refused(FileError),
    /// Standard input failed.
    Read,
    /// Standard output failed.
    Write,
    /// More lines or bytes came than one run takes.
    TooManyLines,
    /// A growth of memory was refused.
    Memory,
}

impl From<AllocError> for CliFault {
    ghost from_gives = { λ _ e. e ≡ Memory };

    fn from(_e: AllocError) -> CliFault {
        CliFault::Memory
    }
}

impl<T: Drop> From<AllocFailed<T>> for CliFault {
    ghost from_gives = { λ _ e. e ≡ Memory };

    fn from(_e: AllocFailed<T>) -> CliFault {
        CliFault::Memory
    }
}

impl From<BytesFault> for CliFault {
    ghost from_gives = { λ fault told. told ≡ fault_of_bytes fault };

    fn from(fault: BytesFault) -> CliFault {
        match fault {
            BytesFault::TooMany | BytesFault::Device => CliFault::CannotRead,
            BytesFault::Memory => CliFault::Memory,
        }
    }
}

/// How much of the name of a stack is shown, in bytes.
const MOST_OF_NAME: usize = 4_096;

// Clauses name this constant and not its value, so the value is proved here.
const _: () = prove!(MOST_OF_NAME == 4_096);

/// The first bytes, or all where there are fewer.
fn first(bytes: &[u8], most: usize) -> &[u8]
    ensures bytes { result.now ≡ take most bytes.now }
    ensures few { length result.now ≤ most }
{
    if most < bytes.len() {
        &bytes[..most]
    } else {
        bytes
    }
}

/// A text of the first bytes, as many as a text takes.
pub fn cut(alloc: Global, bytes: &[u8]) -> Result<Text, AllocError>
    ensures { IfOk result (λ t. t ≡ take LIMIT bytes.now) }
{
    Text::fitting(alloc, first(bytes, LIMIT))
}

/// `card_cli: cannot read` and the name, cut.
fn cannot_read(alloc: Global, stack: &Text) -> Result<Vec<u8>, AllocError>
    ensures { IfOk result (λ m. m.items ≡ codes "card_cli: cannot read " ++ take MOST_OF_NAME stack.now) }
{
    let mut line = Vec::from_slice(alloc, b"card_cli: cannot read ")?;
    line.extend_from_slice(first(stack.as_slice(), MOST_OF_NAME))?;
    Ok(line)
}

/// `card_cli: stack refused`, the number of the fault, and its line where it has one.
fn refused(alloc: Global, fault: FileError) -> Result<Vec<u8>, AllocError>
    ensures { IfOk result (λ m. m.items ≡ refusal_of fault) }
{
    let mut line = Vec::from_slice(alloc, b"card_cli: stack refused ")?;
    let mut digits = Buffer::new();
    line.extend_from_slice(match fault {
        FileError::BadLine(_) => b"1 at line ".as_slice(),
        FileError::BadId(_) => b"2 at line ".as_slice(),
        FileError::Truncated => b"3".as_slice(),
        FileError::TooMany => b"4".as_slice(),
    })?;
    match fault {
        FileError::BadLine(number) | FileError::BadId(number) => {
            line.extend_from_slice(digits.format(number).as_bytes())?;
        }
        FileError::Truncated | FileError::TooMany => {}
    }
    Ok(line)
}

/// The line on standard error for a fault, the name of the stack being given.
fn message(alloc: Global, fault: &CliFault, stack: &Text) -> Result<Vec<u8>, AllocError>
    ensures { IfOk result (λ m. m.items ≡ message_of fault.now stack.now) }
{
    match fault {
        CliFault::Usage(text) => Vec::from_slice(alloc, text.as_slice()),
        CliFault::CannotRead => cannot_read(alloc, stack),
        CliFault::Refused(fault) => refused(alloc, *fault),
        CliFault::Read => Vec::from_slice(alloc, b"card_cli: read fault"),
        CliFault::Write => Vec::from_slice(alloc, b"card_cli: write fault"),
        CliFault::TooManyLines => Vec::from_slice(alloc, b"card_cli: too many lines"),
        CliFault::Memory => Vec::from_slice(alloc, b"card_cli: no memory"),
    }
}

fn status(fault: &CliFault) -> u8
    ensures { result ≡ status_of fault.now }
{
    match fault {
        CliFault::Usage(_) | CliFault::Refused(_) => 2,
        CliFault::CannotRead
        | CliFault::Read
        | CliFault::Write
        | CliFault::TooManyLines
        | CliFault::Memory => 1,
    }
}

/// The exit status for a fault, and the line that goes to standard error; the name of the stack as it was
/// given, which is shown up to 4,096 bytes.
///
/// Status 2 is for words that aren't the program's and for a stack that was refused, 1 for all else.
pub fn verdict(alloc: Global, fault: &CliFault, stack: &Text) -> Result<(u8, Text), AllocError>
    ensures status { IfOk result (λ v. v.0 ≡ status_of fault.now) }
    ensures line { IfOk result (λ v. v.1 ≡ take LIMIT (message_of fault.now stack.now)) }
{
    let line = message(alloc, fault, stack)?;
    Ok((status(fault), cut(alloc, &line)?))
}
