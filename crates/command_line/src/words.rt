//! The words that follow the program's name.

ghost use Rattle.std.specs.Prelude.{◌≡◌, ◌≤◌, ◌↔◌, [], map, false, IfOk, IfErr, IsTrue};
ghost use Rattle.std.specs.String.{string_bytes};
ghost use Rattle.clap.specs.Words.{app_of, fault_of, kind_of, found_of, rows_of, rule_of, matches_of, one_of};
ghost use Rattle.command_line.specs.Verdicts.{IsFaultOfWords};
ghost use Rattle.command_line.specs.Words.{program as program_by, stack_rule, number_rule, flag_rule, IsNumber, Says};

use crate::fault::{CliFault, cut};
use crate::options::Options;
use clap::builder::ValueParser;
use clap::error::ErrorKind;
use clap::{Arg, ArgAction, ArgMatches, Command, Error};
use session::{MOST_DEPTH, MOST_STEPS};
use std::alloc::{AllocError, Global};

/// How many steps a command may take unless the words say so. The history is as deep as it can be unless they say so.
const DEFAULT_STEPS: u32 = 100_000;

// Clauses name this constant and not its value, so the value is proved here.
const _: () = prove!(DEFAULT_STEPS == 100_000);

/// An option with a number from 1 to the most.
fn number_option<'a>(alloc: Global, name: &'a str, most: u32, help: &'a str) -> Arg<'a>
    ensures rule { rule_of result ≡ number_rule name.entry.now most }
    ensures local { result.global ≡ false }
{
    Arg::new(alloc, name)
        .long(name)
        .action(ArgAction::Set)
        .value_parser(ValueParser::unsigned(1, most as u64))
        .help(help)
}

/// The word for the file of the stack, which has to be there.
fn stack_word<'a>(alloc: Global) -> Arg<'a>
    ensures rule { rule_of result ≡ stack_rule }
    ensures local { result.global ≡ false }
{
    Arg::new(alloc, "STACK")
        .required(true)
        .action(ArgAction::Set)
        .help("The file of the stack")
}

/// A flag that stands alone.
fn flag<'a>(alloc: Global, name: &'a str, help: &'a str) -> Arg<'a>
    ensures rule { rule_of result ≡ flag_rule name.entry.now }
    ensures local { result.global ≡ false }
{
    Arg::new(alloc, name)
        .long(name)
        .action(ArgAction::SetTrue)
        .help(help)
}

/// What `--help` says behind the options: a line for each dot line.
const DOT_LINES: &str = "Lines of the session:
  HyperTalk                 runs it; a return (byte 13) ends a line of a message of several lines
  .open                     sends openStack, openBackground and openCard
  .click PART               sends mouseDown and mouseUp to a button or a field
  .type \"TEXT\" into FIELD  puts a text into a field, as if it was typed
  .undo [K], .redo [K]      goes back or forth by one command, or K
  .undo to N                goes back to the state after line N of the session
  .show                     shows the stack's text
  .globals, .where          shows the globals, and the id of the current card
  .cells NAME               shows the cells of an external
  .history                  shows how many commands can be undone and redone
  .save                     keeps the stack's text in its file
  .quit                     ends the run";

/// The program as `clap` knows it, with what `--help` says of it.
fn program<'a>(alloc: Global) -> Result<Command<'a>, AllocError>
    ensures { IfOk result (λ c. app_of c ≡ program_by) }
{
    Command::new(alloc, "card_cli")
        .about(
            "Opens a stack of cards and answers each line of standard input: HyperTalk, or a command that begins with a dot",
        )
        .after_help(DOT_LINES)
        .arg(stack_word(alloc))?
        .arg(number_option(
            alloc,
            "steps",
            MOST_STEPS,
            "How many steps a command may take; 100000 unless it is given",
        ))?
        .arg(number_option(
            alloc,
            "depth",
            MOST_DEPTH,
            "How many commands the history keeps; 1000000 unless it is given",
        ))?
        .arg(flag(
            alloc,
            "watch",
            "Show the messages that are sent, on standard error",
        ))?
        .arg(flag(
            alloc,
            "explain",
            "Say on standard error why lines fault or are refused, and where",
        ))?
        .arg(flag(
            alloc,
            "check",
            "Run nothing: list the scripts that aren't in the grammar, and messages that nothing handles",
        ))
}

/// A number that `clap` let through, from 1 to the most, or this one where none was given.
fn number(matches: &ArgMatches<'_>, name: &str, unless: u32, most: u32) -> u32
    requires some { 1 ≤ unless }
    requires few { unless ≤ most }
    ensures some { 1 ≤ result }
    ensures few { result ≤ most }
    ensures value { IsNumber (one_of name.now (rows_of (found_of matches.now))) unless most result }
{
    match matches.get_one::<u64>(name) {
        Some(number) => number.clamp(1, most as u64) as u32,
        None => unless,
    }
}

/// The options that the matches say.
fn options_in(alloc: Global, matches: &ArgMatches<'_>) -> Result<Options, AllocError>
    ensures { IfOk result (Says (rows_of (found_of matches.now))) }
{
    Ok(Options {
        stack: String::from_str(alloc, matches.get_str("STACK").unwrap_or(""))?,
        steps: number(matches, "steps", DEFAULT_STEPS, MOST_STEPS),
        depth: number(matches, "depth", MOST_DEPTH, MOST_DEPTH),
        watch: matches.get_flag("watch"),
        explain: matches.get_flag("explain"),
        check: matches.get_flag("check"),
    })
}

/// Whether an error is of a growth that was refused.
fn is_out_of_memory(error: &Error) -> bool
    ensures { IsTrue result ↔ kind_of error.now ≡ ErrorKind.OutOfMemory }
{
    matches!(error.kind(), ErrorKind::OutOfMemory)
}

/// Reads the words, of which the first is the program's name: what `clap` finds in them, exactly. What `clap` doesn't
/// take, `--help` included, is a usage fault with `clap`'s text, and words that it takes never are; `Memory` where a
/// growth was refused, and no other fault.
pub fn options_of(alloc: Global, words: &[String]) -> Result<Options, CliFault>
    ensures ok { IfOk result (Says (matches_of program_by (map (λ s. string_bytes s) words.now))) }
    ensures taken { IfOk result (λ w. fault_of program_by (map (λ s. string_bytes s) words.now) ≡ []) }
    ensures err { IfErr result IsFaultOfWords }
    ensures memory { IfErr result (λ f. fault_of program_by (map (λ s. string_bytes s) words.now) ≡ []
        → f ≡ CliFault.Memory) }
{
    let command = program(alloc)?;
    match command.try_get_matches_from(words) {
        Ok(matches) => Ok(options_in(alloc, &matches)?),
        Err(error) => {
            if is_out_of_memory(&error) {
                return Err(CliFault::Memory);
            }
            let text = error.to_string(alloc)?;
            Err(CliFault::Usage(cut(alloc, text.as_bytes())?))
        }
    }
}
