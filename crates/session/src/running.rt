//! What a user does, read from a text and run in a world.

ghost use Rattle.std.specs.Prelude.{◌≡◌, ◌≤◌, length, None, IsSome, IfSome, IfOk, IfErr, OnErr};
ghost use Rattle.change_journal.specs.History.{committed, rolled_back};
ghost use Rattle.journal_entries.specs.Trails.{IsOnce};
ghost use Rattle.session.specs.declared.limits.TheConstants.{LONGEST_LINE};
ghost use Rattle.session.specs.Commands.{ReadsAction};
ghost use Rattle.session.specs.Meaning.{reply_of as reply_by};
ghost use Rattle.session.specs.Replies.{IsUnread, refusal_of as refusal_by, refused as refused_by, typed_reply};
ghost use Rattle.session.specs.TakesLine.{Commands, Does};
ghost use Rattle.user_actions.specs.Views.{Fits, action_of};

use crate::command::Reading;
use crate::reply::{Ending, Refusal, Reply, refused};
use change_journal::World;
use externals::External;
use ht_parse::{ParseError, parse_lines, parse_part, parse_type};
use ht_values::Text;
use meaning::{Budget, Stop};
use std::alloc::{AllocError, Global};
use user_actions::{Action, act};

fn refusal_of(error: ParseError) -> Refusal
    ensures { result ≡ refusal_by error }
{
    match error {
        ParseError::Syntax(_) => Refusal::BadCommand,
        ParseError::Memory => Refusal::NoMemory,
    }
}

/// What a text says that a user does. `BadCommand` where it isn't in the grammar, `NoMemory` where a growth was
/// refused.
fn action_in(alloc: Global, reading: Reading, bytes: &[u8]) -> Result<Action, Refusal>
    requires { length bytes.now ≤ LONGEST_LINE }
    ensures ok { IfOk result (λ action. ReadsAction reading bytes.now (action_of action)) }
    ensures fits { IfOk result (λ action. Fits (action_of action)) }
    ensures err { IfErr result (λ refusal. IsUnread (ReadsAction reading) bytes.now refusal) }
{
    let Ok(text) = Text::fitting(alloc, bytes) else {
        return Err(Refusal::NoMemory);
    };
    match reading {
        Reading::Lines => match parse_lines(alloc, &text) {
            Ok(lines) => Ok(Action::RunLines(lines)),
            Err(error) => Err(refusal_of(error)),
        },
        Reading::Opening => Ok(Action::OpenStack),
        Reading::Reference => match parse_part(alloc, &text) {
            Ok(part) => Ok(Action::Click(part)),
            Err(error) => Err(refusal_of(error)),
        },
        Reading::Typing => match parse_type(alloc, &text) {
            Ok(typing) => Ok(Action::TypeText(typing)),
            Err(error) => Err(refusal_of(error)),
        },
    }
}

fn reply_of(run: Budget, ending: Ending) -> Reply
    ensures { result ≡ reply_by run ending }
{
    let (shown, sent) = run.into_shown_and_sent();
    Reply {
        shown,
        sent,
        ending,
    }
}

/// A command has ended so, and adds a place.
fn finished<E: External>(world: &mut World<E>, run: Budget, ending: Ending) -> Reply
    requires { IsSome world.old.history.start }
    ensures answer { result ≡ reply_by run ending }
    ensures history { world.new.history ≡ committed world.old.history }
    ensures once { IfSome world.old.history.start (λ o. IsOnce o.trail) }
{
    world.commit();
    reply_of(run, ending)
}

/// Typing into a locked field is refused, and what its reference did is taken back.
fn kept_out<E: External>(alloc: Global, world: &mut World<E>) -> Reply
    requires { IsSome world.old.history.start }
    ensures answer { result ≡ refused_by Refusal.FieldLocked }
    ensures history { world.new.history ≡ rolled_back world.old.history }
{
    world.roll_back();
    refused(alloc, Refusal::FieldLocked)
}

/// Does what a user does, with so many steps, as the command of the line of this number. Where it is out of memory
/// nothing is left of what it did, but for the logs of externals, and so where a text is typed into a locked field.
fn run_action<E: External>(
    alloc: Global,
    world: &mut World<E>,
    steps: u32,
    number: u32,
    action: &Action,
) -> Result<Reply, AllocError>
    requires closed { world.old.history.start ≡ None }
    requires fits { Fits (action_of action.now) }
    ensures ok { IfOk result (λ reply. Does steps
        (action_of action.now) number world.old.history reply world.new.history) }
    ensures err { OnErr result (world.new.history ≡ record world.old.history { logs = world.new.history.logs }) }
    ensures closed { world.new.history.start ≡ None }
{
    world.begin(number)?;
    world.law_of_states();
    let mut run = Budget::new(alloc, steps);
    match act(world, &mut run, action) {
        Ok(Some(_)) => Ok(finished(world, run, Ending::Ok)),
        Err(Stop::Exited) => Ok(finished(world, run, Ending::Ok)),
        Err(Stop::Fault(fault)) => Ok(finished(world, run, Ending::Fault(fault))),
        Ok(None) => Ok(kept_out(alloc, world)),
        Err(Stop::Memory) => {
            world.roll_back();
            Err(AllocError)
        }
    }
}

/// Reads a text and does what it says that a user does, with so many steps, as the line of this number. `BadCommand`
/// where it isn't in the grammar. `NoMemory` where a growth was refused; then nothing is left of what it did, but for
/// the turns of externals.
pub fn obey<E: External>(
    alloc: Global,
    world: &mut World<E>,
    steps: u32,
    number: u32,
    reading: Reading,
    text: &[u8],
) -> Result<Reply, Refusal>
    requires closed { world.old.history.start ≡ None }
    requires short { length text.now ≤ LONGEST_LINE }
    ensures done { Commands steps reading text.now number world.old.history (typed_reply result) world.new.history }
    ensures closed { world.new.history.start ≡ None }
{
    let action = action_in(alloc, reading, text)?;
    match run_action(alloc, world, steps, number, &action) {
        Ok(reply) => Ok(reply),
        Err(_) => Err(Refusal::NoMemory),
    }
}
