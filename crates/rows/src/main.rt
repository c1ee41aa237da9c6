//! The trees of a table of texts, then the worked rows and those of the pages, each run as the program would, over
//! memory.
//!
//! - Each line of standard input is a text, whose tree is printed, or `syntax`; the trees that are wanted were written
//!   by hand.
//! - `rows.txt` lists the rows, and a line for each says whether it passed. The rows of the pages are their sessions,
//!   which `tools/pages` writes.
//! - It promises no more than to be safe and to end.
#![tactic(auto)]

mod answers;
mod row;
mod trees;

use crate::answers::{first_unexplained, first_unmet};
use crate::row::{Row, edited, input_of, row_of};
use crate::trees::tree_of;
use command_line::{CliFault, Options, cut, options_of, play_with_kit, verdict};
use devices::{Shelf, Watched};
use ht_values::Text;
use std::alloc::{AllocError, Global};
use std::fs;
use std::io::{self, Write};

/// What a run wrote, the desk that heard its messages, and how it ended.
#[derive(Drop)]
struct Ended {
    answers: Vec<u8>,
    desk: Shelf,
    status: u8,
    stderr: Text,
}

/// What is wrong with how a run ended, or with what it wrote.
#[derive(Clone, Copy)]
enum Wrong<'a> {
    Status(u8),
    Text(&'a str),
}

/// Lists a word.
fn push_word(alloc: Global, word: &str, words: &mut Vec<String>) -> Result<(), AllocError> {
    let word = String::from_str(alloc, word)?;
    Ok(words.push(word)?)
}

/// What the words of the program say: its name, the stack's and those of the row.
fn options(alloc: Global, row: &Row<'_>) -> Result<Options, CliFault> {
    let mut words = Vec::new(alloc);
    push_word(alloc, "card_cli", &mut words)?;
    push_word(alloc, row.stack, &mut words)?;
    for word in row.args.split_whitespace() {
        push_word(alloc, word, &mut words)?;
    }
    options_of(alloc, words.as_slice())
}

/// The desk of a row, which fails at the save of this number; where it is no number it keeps all.
fn desk_of(alloc: Global, fails_at: &str) -> Shelf {
    let desk = Shelf::new(alloc);
    match fails_at.parse() {
        Ok(call) => desk.failing_at(call),
        Err(_) => desk,
    }
}

/// A run that begins at a desk.
fn begun(alloc: Global, desk: Shelf) -> Ended {
    Ended {
        answers: Vec::new(alloc),
        desk,
        status: 0,
        stderr: Text::new(alloc),
    }
}

/// Runs an input on a stack at a desk, and writes the answers.
fn run_on(
    alloc: Global,
    row: &Row<'_>,
    stack: &[u8],
    input: &[u8],
    answers: &mut Vec<u8>,
    desk: &mut Shelf,
) -> Result<(), CliFault> {
    let options = options(alloc, row)?;
    let mut reader = Watched::new(input);
    let mut writer = Watched::new(answers);
    play_with_kit(alloc, &options, stack, &mut reader, &mut writer, desk)?;
    Ok(())
}

/// Keeps what is told of a fault.
fn tell(
    alloc: Global,
    row: &Row<'_>,
    fault: &CliFault,
    ended: &mut Ended,
) -> Result<(), AllocError> {
    let stack = cut(alloc, row.stack.as_bytes())?;
    let (status, stderr) = verdict(alloc, fault, &stack)?;
    ended.status = status;
    ended.stderr = stderr;
    Ok(())
}

/// Runs a row as the program would.
fn run_row(alloc: Global, row: &Row<'_>, stack: &str, ended: &mut Ended) -> Result<(), AllocError> {
    let input = input_of(alloc, row.body)?;
    match run_on(
        alloc,
        row,
        stack.as_bytes(),
        input.as_bytes(),
        &mut ended.answers,
        &mut ended.desk,
    ) {
        Ok(()) => Ok(()),
        Err(fault) => tell(alloc, row, &fault, ended),
    }
}

/// What is wrong with how a run ended, if anything.
fn wrong_end<'a>(row: &Row<'a>, ended: &Ended) -> Option<Wrong<'a>> {
    if row.status.parse() != Ok(ended.status) {
        return Some(Wrong::Status(ended.status));
    }
    if row.stderr != "*" && row.stderr.as_bytes() != ended.stderr.as_slice() {
        return Some(Wrong::Text("standard error"));
    }
    None
}

/// The first line of a row that its answers and messages don't meet, or none.
fn wrong_answer<'a>(
    alloc: Global,
    row: &Row<'a>,
    ended: &Ended,
    shown: &str,
) -> Result<Option<Wrong<'a>>, AllocError> {
    let Ok(answers) = str::from_utf8(ended.answers.as_slice()) else {
        return Ok(Some(Wrong::Text("other bytes")));
    };
    match first_unmet(alloc, row.body, answers, ended.desk.messages(), shown)? {
        None => Ok(None),
        Some(line) => Ok(Some(Wrong::Text(line))),
    }
}

/// What is wrong with a run whose desk hears why lines fault or are refused, beside one whose desk doesn't, if
/// anything: it has other answers, or other lines are explained than the row has.
fn wrong_explained<'a>(row: &Row<'a>, ended: &Ended, heard: &Ended) -> Option<Wrong<'a>> {
    if heard.status != ended.status || heard.answers.as_slice() != ended.answers.as_slice() {
        return Some(Wrong::Text("with explanations it differs"));
    }
    match str::from_utf8(heard.desk.explained()) {
        Ok(explained) => first_unexplained(row.body, explained).map(Wrong::Text),
        Err(_) => Some(Wrong::Text("other bytes are explained")),
    }
}

/// Runs a row once more, at a desk that hears why lines fault or are refused, and tells what is wrong with that, or
/// none.
fn unexplained_on<'a>(
    alloc: Global,
    row: &Row<'a>,
    stack: &str,
    ended: &Ended,
) -> Result<Option<Wrong<'a>>, AllocError> {
    let mut heard = begun(alloc, desk_of(alloc, row.desk).explaining());
    run_row(alloc, row, stack, &mut heard)?;
    Ok(wrong_explained(row, ended, &heard))
}

/// Runs a row on a stack, and tells what it wants and didn't get, or none.
fn unmet_after<'a>(
    alloc: Global,
    row: &Row<'a>,
    stack: &str,
    shown: &str,
    ended: &mut Ended,
) -> Result<Option<Wrong<'a>>, AllocError> {
    run_row(alloc, row, stack, ended)?;
    match wrong_end(row, ended) {
        Some(wrong) => Ok(Some(wrong)),
        None => match wrong_answer(alloc, row, ended, shown)? {
            Some(wrong) => Ok(Some(wrong)),
            None => unexplained_on(alloc, row, stack, ended),
        },
    }
}

/// What a row wants and didn't get, or none, where this is the text of its stack before the edit.
fn unmet<'a>(alloc: Global, row: &Row<'a>, base: &str) -> Result<Option<Wrong<'a>>, AllocError> {
    let shown = edited(alloc, base, "line 1 htstack 2")?;
    let stack = edited(alloc, base, row.edit)?;
    let mut ended = begun(alloc, desk_of(alloc, row.desk));
    unmet_after(alloc, row, stack.as_str(), shown.as_str(), &mut ended)
}

/// Runs a row, and prints how it went.
fn report_row(rt: &HostRuntime, name: &str, row: &Row<'_>) -> io::Result<()> {
    let base = fs::read_to_string(rt, row.stack)?;
    match unmet(rt.alloc(), row, base.as_str())? {
        Some(Wrong::Status(status)) => println!(rt; "{} failed: status {}", name, status),
        Some(Wrong::Text(text)) => println!(rt; "{} failed: {}", name, text),
        None => println!(rt; "{} passed", name),
    }
}

/// Runs a row of the list, and prints how it went.
fn report(rt: &HostRuntime, name: &str) -> io::Result<()> {
    let file = format!(in rt.alloc(); "{}.row", name)?;
    let text = fs::read_to_string(rt, file.as_str())?;
    report_row(rt, name, &row_of(text.as_str()))
}

/// Prints the trees of the texts of standard input.
fn print_trees(rt: &HostRuntime) -> anyhow::Result<()> {
    for line in rt.lines(rt.alloc()) {
        let mut answer = tree_of(rt.alloc(), line?.as_str())?;
        answer.push(b'\n')?;
        io::writer(rt).write_all(&answer)?;
    }
    Ok(())
}

fn main(rt: HostRuntime) -> anyhow::Result<()> {
    print_trees(&rt)?;
    let list = fs::read_to_string(&rt, "rows.txt")?;
    for name in list.lines() {
        report(&rt, name)?;
    }
    Ok(())
}
