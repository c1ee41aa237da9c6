//! A stack's session over standard input and output: `card_cli STACK [--steps N] [--depth D] [--watch] [--explain]
//! [--check]`.
//!
//! - It opens files and streams, runs `play_with_kit` on them, and promises no more than to be safe and to end.
//! - Only tested: what it writes to standard error, and its statuses, beyond `verdict`.
#![tactic(auto)]

use command_line::{
    Checked, CliFault, MOST_OF_STACK, Options, Page, check_with_kit, cut, file_fault_words,
    options_of, play_with_kit, verdict, write_line,
};
use devices::{Patient, Watched, bytes_of};
use file_desk::{FileDesk, FileState, Plain};
use log::{LevelFilter, Logged};
use stack_file::FileError;
use std::alloc::{AllocError, Global};
use std::env;
use std::fs::File;
use std::io::{Error, ErrorKind, Lock, Write};
use std::process::ExitCode;

/// What `--version` writes.
const VERSION: &[u8] = b"card_cli 1.0 (HyperTalk 2.x, stack text 2)\n";

/// The bytes of the block that is taken and given back at the start. A larger list is still grown by the system, which
/// moves pages and copies none.
const FIRST_BLOCK: usize = 2 * 1024 * 1024;

/// What is told where a word of the program is no text.
const NO_TEXT: &[u8] = b"card_cli: a word is not UTF-8 text";

/// What ends the program before its input does, and lines that say more of it.
#[derive(Drop)]
struct Failure {
    fault: CliFault,
    more: Option<Page>,
}

impl From<CliFault> for Failure {
    fn from(fault: CliFault) -> Failure {
        Failure { fault, more: None }
    }
}

/// The fault for an error of the outside: `Memory` where it is out of memory, or else this one.
fn fault_of(error: &Error, other: CliFault) -> CliFault {
    match error.kind() {
        ErrorKind::OutOfMemory => CliFault::Memory,
        _ => other,
    }
}

/// Takes a large block and gives it back. From the largest that came back the C library learns how much to keep for the
/// next, where it would hand it to the system at once: then long lists, as of a `send` with thousands of arguments, cost
/// page faults each time they are made, a third of their time. Where the block is refused, all is only slower.
fn keep_room(alloc: Global) {
    let _: Result<Vec<u8>, AllocError> = Vec::with_capacity(alloc, FIRST_BLOCK);
}

/// The words of the program: its name, and those behind it.
fn words(rt: &HostRuntime) -> Result<Vec<String>, CliFault> {
    let args = match env::args(rt) {
        Ok(args) => args,
        Err(error) => {
            let usage = CliFault::Usage(cut(rt.alloc(), NO_TEXT)?);
            return Err(fault_of(&error, usage));
        }
    };
    let mut words = Vec::new(rt.alloc());
    for arg in args {
        words.push(arg)?;
    }
    Ok(words)
}

/// Whether the words ask for the version, and for nothing else.
fn asks_version(words: &[String]) -> bool {
    match words {
        [_, word] => word.as_str() == "--version",
        _ => false,
    }
}

/// Writes the version to standard output.
fn write_version(rt: &HostRuntime) -> Result<ExitCode, CliFault> {
    match rt.stdout().lock().write_all(VERSION) {
        Ok(()) => Ok(ExitCode::SUCCESS),
        Err(_) => Err(CliFault::Write),
    }
}

/// The file of the stack, and its state. One whose size is known to be over the limit can't be read.
fn opened(rt: &HostRuntime, path: &str) -> Result<(File, FileState), Error> {
    let file = File::open(rt, path)?;
    let metadata = file.metadata()?;
    if metadata.is_dir() {
        return Err(Error::from(ErrorKind::IsADirectory));
    }
    if metadata.len() > MOST_OF_STACK as u64 {
        return Err(Error::from(ErrorKind::FileTooLarge));
    }
    Ok((file, FileState::new(metadata)))
}

/// Why a file can't be opened, in words.
fn reason_of(error: &Error) -> &'static str {
    match error.kind() {
        ErrorKind::NotFound => "there is no such file",
        ErrorKind::PermissionDenied => "there is no permission to read it",
        ErrorKind::IsADirectory => "it is a folder",
        ErrorKind::FileTooLarge => "it has over 4,000,000,000 bytes",
        _ => "the system can't open it",
    }
}

/// That the file can't be read, and why.
fn unreadable(rt: &HostRuntime, error: &Error) -> Failure {
    let mut more = Page::new(rt.alloc());
    more.word(b"  ");
    more.word(reason_of(error).as_bytes());
    Failure {
        fault: fault_of(error, CliFault::CannotRead),
        more: Some(more),
    }
}

/// The bytes of the stack's file, and its state.
fn stack_bytes(rt: &HostRuntime, options: &Options) -> Result<(Vec<u8>, FileState), Failure> {
    let (file, state) = match opened(rt, options.stack.as_str()) {
        Ok(opened) => opened,
        Err(error) => return Err(unreadable(rt, &error)),
    };
    match bytes_of(rt.alloc(), &mut Watched::new(file), MOST_OF_STACK) {
        Ok(bytes) => Ok((bytes, state)),
        Err(fault) => Err(Failure::from(CliFault::from(fault))),
    }
}

/// The number of the line at which a stack text is refused, if it is refused at one.
fn line_of(fault: FileError) -> Option<u64> {
    match fault {
        FileError::BadLine(number) | FileError::BadId(number) => Some(number),
        FileError::Truncated | FileError::TooMany => None,
    }
}

/// What ended a run, and of a stack text that is refused what is wrong, and its line.
fn failure_of(rt: &HostRuntime, fault: CliFault, bytes: &[u8]) -> Failure {
    let CliFault::Refused(refused) = &fault else {
        return Failure::from(fault);
    };
    let mut more = Page::new(rt.alloc());
    more.word(b"  ");
    more.word(file_fault_words(*refused).as_bytes());
    if let Some(number) = line_of(*refused) {
        write_line(&mut more, bytes, number);
    }
    Failure {
        fault,
        more: Some(more),
    }
}

/// Writes what was found in the scripts of a stack to standard output; the status is 1 where one isn't in the grammar.
fn listed(rt: &HostRuntime, checked: &Checked) -> Result<ExitCode, CliFault> {
    if checked.page.is_cut() {
        return Err(CliFault::Memory);
    }
    match rt.stdout().lock().write_all(checked.page.as_slice()) {
        Ok(()) if checked.reads => Ok(ExitCode::SUCCESS),
        Ok(()) => Ok(ExitCode::from(1)),
        Err(_) => Err(CliFault::Write),
    }
}

/// Runs standard input to standard output, with the externals of the kit; what is saved goes to the file of the stack,
/// and why one isn't saved to standard error. There the messages are shown too, with `--watch`, and with `--explain`
/// why lines fault or are refused.
fn run(
    rt: &HostRuntime,
    options: &Options,
    bytes: &[u8],
    state: FileState,
) -> Result<ExitCode, CliFault> {
    let mut reader = Watched::new(Patient::new(rt, rt.stdin().lock()));
    let mut writer = Watched::new(Patient::new(rt, rt.stdout().lock()));
    let level = if options.watch {
        LevelFilter::Info
    } else {
        LevelFilter::Warn
    };
    let logger = Logged::new(rt, level, Plain(rt));
    let path = options.stack.as_str();
    let mut desk = FileDesk::new(&logger, "card_cli", path, state).explaining(options.explain);
    play_with_kit(
        rt.alloc(),
        options,
        bytes,
        &mut reader,
        &mut writer,
        &mut desk,
    )?;
    Ok(ExitCode::SUCCESS)
}

/// Reads the stack, and runs it or looks at its scripts.
fn run_or_check(rt: &HostRuntime, options: &Options) -> Result<ExitCode, Failure> {
    let (bytes, state) = stack_bytes(rt, options)?;
    let ended = if options.check {
        match check_with_kit(rt.alloc(), &bytes) {
            Ok(checked) => listed(rt, &checked),
            Err(fault) => Err(fault),
        }
    } else {
        run(rt, options, &bytes, state)
    };
    match ended {
        Ok(code) => Ok(code),
        Err(fault) => Err(failure_of(rt, fault, &bytes)),
    }
}

/// Tells a fault on standard error, and gives the status; where it is out of memory for the line, the line is `no
/// memory`.
fn told(rt: &HostRuntime, failure: &Failure, stack: &[u8]) -> ExitCode {
    let answer = match cut(rt.alloc(), stack) {
        Ok(name) => verdict(rt.alloc(), &failure.fault, &name),
        Err(error) => Err(error),
    };
    let mut to = rt.stderr().lock();
    match answer {
        Ok((status, line)) => {
            let _ = to.write_all(line.as_slice());
            let _ = to.write_all(b"\n");
            if let Some(more) = &failure.more {
                let _ = to.write_all(more.as_slice());
                let _ = to.write_all(b"\n");
            }
            ExitCode::from(status)
        }
        Err(_) => {
            let _ = to.write_all(b"card_cli: no memory\n");
            ExitCode::from(1)
        }
    }
}

/// Does what the words say, where they are no request for the version.
fn obey(rt: &HostRuntime, words: &[String]) -> ExitCode {
    let options = match options_of(rt.alloc(), words) {
        Ok(options) => options,
        Err(fault) => return told(rt, &Failure::from(fault), b""),
    };
    match run_or_check(rt, &options) {
        Ok(code) => code,
        Err(failure) => told(rt, &failure, options.stack.as_bytes()),
    }
}

fn main(rt: HostRuntime) -> ExitCode {
    keep_room(rt.alloc());
    let words = match words(&rt) {
        Ok(words) => words,
        Err(fault) => return told(&rt, &Failure::from(fault), b""),
    };
    if !asks_version(words.as_slice()) {
        return obey(&rt, words.as_slice());
    }
    match write_version(&rt) {
        Ok(code) => code,
        Err(fault) => told(&rt, &Failure::from(fault), b""),
    }
}
