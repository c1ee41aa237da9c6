//! A stack's session with two externals, `Replace` and `Table`: `card_tools STACK`, with the options of `card_cli`. It
//! is an example of a program of one's own.
//!
//! - It promises no more than to be safe and to end.
#![tactic(auto)]

use command_line::{CliFault, MOST_OF_STACK, Options, cut, options_of, play};
use devices::{Watched, bytes_of};
use file_desk::{FileDesk, FileState, Plain};
use log::{LevelFilter, Logged};
use std::env;
use std::fs::File;
use std::process::ExitCode;
use text_tools::TextTool;

/// What the words of the program say.
fn options(rt: &HostRuntime) -> Result<Options, CliFault> {
    let Ok(args) = env::args(rt) else {
        return Err(CliFault::Usage(cut(rt.alloc(), b"words are UTF-8")?));
    };
    let words: Vec<String> = args.collect(rt.alloc())?;
    options_of(rt.alloc(), words.as_slice())
}

/// Runs standard input to standard output on the stack that the words name; what is saved goes to its file.
fn run_session(rt: &HostRuntime) -> Result<(), CliFault> {
    let options = options(rt)?;
    let Ok(file) = File::open(rt, options.stack.as_str()) else {
        return Err(CliFault::CannotRead);
    };
    let Ok(metadata) = file.metadata() else {
        return Err(CliFault::CannotRead);
    };
    let state = FileState::new(metadata);
    let bytes = bytes_of(rt.alloc(), &mut Watched::new(file), MOST_OF_STACK)?;
    let replace = TextTool::replace(rt.alloc(), cut(rt.alloc(), b"Replace")?)?;
    let table = TextTool::table(rt.alloc(), cut(rt.alloc(), b"Table")?)?;
    let mut externals = Vec::new(rt.alloc());
    externals.push(replace)?;
    externals.push(table)?;
    let mut reader = Watched::new(rt.stdin().lock());
    let mut writer = Watched::new(rt.stdout().lock());
    let logger = Logged::new(rt, LevelFilter::Warn, Plain(rt));
    let mut desk = FileDesk::new(&logger, "card_tools", options.stack.as_str(), state);
    play(
        rt.alloc(),
        &options,
        &bytes,
        externals,
        &mut reader,
        &mut writer,
        &mut desk,
    )?;
    Ok(())
}

/// Why the program ends before its input does.
fn reason(fault: &CliFault) -> &'static str {
    match fault {
        CliFault::Usage(_) => "name a stack",
        CliFault::CannotRead => "the stack can't be read",
        CliFault::Refused(_) => "the file is no stack",
        CliFault::Read | CliFault::Write => "standard input or output failed",
        CliFault::TooManyLines => "too many lines",
        CliFault::Memory => "out of memory",
    }
}

fn main(rt: HostRuntime) -> ExitCode {
    match run_session(&rt) {
        Ok(()) => ExitCode::SUCCESS,
        Err(fault) => {
            let _ = eprintln!(rt; "card_tools: {}", reason(&fault));
            ExitCode::FAILURE
        }
    }
}
