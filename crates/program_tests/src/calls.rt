//! Calls of a session, step by step: a table says what is done, and one function walks it.

use crate::opened::{TWO_CARDS, all_externals, session_of};
use externals::External;
use headline::{
    lines_follow, moves_follow, opens_follow, plugs_follow, runs_follow, saves_follow, stops_follow,
};
use ht_values::Text;
use session::{Ending, PlugError, Refusal, Reply, Session};
use std::alloc::Global;
use std::rc::Rc;

/// A call, and what it answers.
#[derive(Clone, Copy)]
enum Call {
    /// A line ends well, sends nothing, and shows this line or none.
    Line(&'static [u8], Option<&'static [u8]>),
    Undo(u32, Result<(), Refusal>),
    Redo(u32, Result<(), Refusal>),
    UndoTo(u32, Result<(), Refusal>),
    /// The stack is saved so.
    Saved(&'static [u8]),
    /// The last external that is at hand is plugged in, or dropped for this reason.
    Plug(Option<PlugError>),
    /// The external of this name is taken out.
    Unplug(&'static [u8]),
    /// So many externals are there, those at hand among them.
    There(usize),
}

/// The names of the externals of a session and of those at hand, the calls, and how many externals come back at its
/// close.
struct Calls {
    name: &'static str,
    externals: &'static [&'static [u8]],
    at_hand: &'static [&'static [u8]],
    calls: &'static [Call],
    closed: usize,
}

const SESSIONS: &[Calls] = &[
    Calls {
        name: "places are undone and redone",
        externals: &[],
        at_hand: &[],
        calls: &[
            Call::Line(b"put \"1\" into g", None),
            Call::Undo(0, Err(Refusal::BadCommand)),
            Call::Undo(1, Ok(())),
            Call::Redo(1, Ok(())),
            Call::UndoTo(0, Ok(())),
        ],
        closed: 0,
    },
    Calls {
        name: "a stack is saved as it was read",
        externals: &[],
        at_hand: &[],
        calls: &[
            Call::Line(b"put \"1\" into g", None),
            Call::Saved(TWO_CARDS),
        ],
        closed: 0,
    },
    Calls {
        name: "an external is plugged in once, and unplugged",
        externals: &[b"one"],
        at_hand: &[b"QUIET", b"Quiet"],
        calls: &[
            Call::Plug(None),
            Call::Plug(Some(PlugError::DuplicateName)),
            Call::Unplug(b"quiet"),
        ],
        closed: 1,
    },
    Calls {
        name: "places stay where an external isn't plugged in, and go where one is unplugged",
        externals: &[b"a"],
        at_hand: &[b"A"],
        calls: &[
            Call::Line(b"put 1 into g", None),
            Call::Plug(Some(PlugError::DuplicateName)),
            Call::There(1),
            Call::Line(b".history", Some(b"1 0")),
            Call::Unplug(b"A"),
            Call::There(0),
            Call::Line(b".history", Some(b"0 0")),
            Call::Line(b".globals", Some(b"g 1")),
        ],
        closed: 0,
    },
    Calls {
        name: "places stay where an external is plugged in, and go where it is unplugged",
        externals: &[b"a"],
        at_hand: &[b"new"],
        calls: &[
            Call::Line(b"put 1 into g", None),
            Call::Plug(None),
            Call::There(2),
            Call::Line(b".history", Some(b"1 0")),
            Call::Unplug(b"NEW"),
            Call::There(1),
            Call::Line(b".history", Some(b"0 0")),
            Call::Line(b".globals", Some(b"g 1")),
        ],
        closed: 1,
    },
    Calls {
        name: "each external is dropped once",
        externals: &[b"one", b"two"],
        at_hand: &[b"TWO", b"three"],
        calls: &[
            Call::There(4),
            Call::Plug(None),
            Call::Plug(Some(PlugError::DuplicateName)),
            Call::There(3),
            Call::Unplug(b"One"),
            Call::There(2),
        ],
        closed: 2,
    },
];

/// Whether a reply ends well, with this line shown or none, and sends nothing.
fn is_reply(reply: &Reply, shown: Option<&[u8]>) -> bool {
    let is_shown = match shown {
        Some(line) => matches!(reply.shown.as_slice(), [only] if only.as_slice() == line),
        None => reply.shown.as_slice().is_empty(),
    };
    is_shown && matches!(reply.ending, Ending::Ok) && reply.sent.len() == 0
}

// Each call by a function that promises nothing, so that the walk carries no clauses.

fn answers<E: External>(session: &mut Session<E>, line: &[u8], shown: Option<&[u8]>) -> bool {
    is_reply(&session.line(line), shown)
}

fn undone<E: External>(session: &mut Session<E>, places: u32) -> Result<(), Refusal> {
    session.undo(places)
}

fn redone<E: External>(session: &mut Session<E>, places: u32) -> Result<(), Refusal> {
    session.redo(places)
}

fn undone_to<E: External>(session: &mut Session<E>, line: u32) -> Result<(), Refusal> {
    session.undo_to(line)
}

fn saves<E: External>(session: &Session<E>, text: &[u8]) -> bool {
    matches!(session.saved(), Ok(saved) if saved.as_slice() == text)
}

/// Whether the last external at hand is plugged in, or isn't for this reason.
fn plugs<E: External>(
    session: &mut Session<E>,
    at_hand: &mut Vec<E>,
    due: Option<PlugError>,
) -> bool {
    let Some(external) = at_hand.pop() else {
        return false;
    };
    match session.plug(external) {
        Ok(()) => due.is_none(),
        Err((error, _)) => due == Some(error),
    }
}

fn unplugs<E: External>(alloc: Global, session: &mut Session<E>, name: &[u8]) -> bool {
    matches!(Text::from_slice(alloc, name), Ok(name) if session.unplug(&name).is_some())
}

/// Whether a call answers what is wanted. The mark is held once by each external, and once more.
fn is_answered<E: External>(
    alloc: Global,
    session: &mut Session<E>,
    at_hand: &mut Vec<E>,
    mark: &Rc<u8>,
    call: &Call,
) -> bool {
    match *call {
        Call::Line(line, shown) => answers(session, line, shown),
        Call::Undo(places, outcome) => undone(session, places) == outcome,
        Call::Redo(places, outcome) => redone(session, places) == outcome,
        Call::UndoTo(line, outcome) => undone_to(session, line) == outcome,
        Call::Saved(text) => saves(session, text),
        Call::Plug(error) => plugs(session, at_hand, error),
        Call::Unplug(name) => unplugs(alloc, session, name),
        Call::There(count) => Rc::strong_count(mark).saturating_sub(1) == count,
    }
}

/// Whether all calls answer what is wanted.
fn are_answered<E: External>(
    alloc: Global,
    session: &mut Session<E>,
    at_hand: &mut Vec<E>,
    mark: &Rc<u8>,
    calls: &[Call],
) -> bool {
    for call in calls {
        if !is_answered(alloc, session, at_hand, mark, call) {
            return false;
        }
    }
    true
}

/// Whether all calls answer what is wanted, and as many externals come back at the close.
fn goes_so<E: External>(
    alloc: Global,
    externals: Vec<E>,
    at_hand: &mut Vec<E>,
    mark: &Rc<u8>,
    row: &Calls,
) -> Option<bool> {
    let mut session = session_of(alloc, externals, 100)?;
    let answered = are_answered(alloc, &mut session, at_hand, mark, row.calls);
    Some(answered && Box::into_inner(session).close().len() == row.closed)
}

/// Whether a row goes so with its externals.
fn goes(alloc: Global, mark: &Rc<u8>, row: &Calls) -> Option<bool> {
    let mut at_hand = all_externals(alloc, row.at_hand, mark)?;
    let externals = all_externals(alloc, row.externals, mark)?;
    goes_so(alloc, externals, &mut at_hand, mark, row)
}

#[test]
fn calls_of_a_session_are_answered(rt: HostRuntime) {
    for row in SESSIONS {
        let mark = Rc::new(rt.alloc(), 0u8).expect(&rt, "there is memory");
        assert!(rt; goes(rt.alloc(), &mark, row) == Some(true), "{}", row.name);
        // Each external is dropped once in the end.
        assert!(rt; Rc::strong_count(&mark) == 1, "{}", row.name);
    }
}

const REFUSALS: &[(Refusal, u8)] = &[
    (Refusal::NothingToUndo, 1),
    (Refusal::NothingToRedo, 2),
    (Refusal::BadCommand, 3),
    (Refusal::NoMemory, 4),
    (Refusal::LineTooLong, 5),
    (Refusal::FieldLocked, 6),
    (Refusal::SaveFailed, 7),
];

#[test]
fn refusals_are_numbered_from_one_to_seven(rt: HostRuntime) {
    for (refusal, number) in REFUSALS {
        assert!(rt; refusal.number() == *number);
    }
}

#[test]
fn laws_are_called(_rt: HostRuntime) {
    lines_follow();
    moves_follow();
    plugs_follow();
    opens_follow();
    runs_follow();
    stops_follow();
    saves_follow();
}
