//! Runs over devices that may fail, with nondeterministic externals: what is written, what the desk keeps, and who is
//! blamed.

use crate::nondeterministic::{Boxed, Manner, external_of};
use crate::opened::{TWO_CARDS, session_of};
use crate::slow_devices::{Drip, Sip};
use devices::{Desk, Shelf, Watched};
use externals::External;
use headline::{Ran, RunFault, Silent, run};
use session::Session;
use std::alloc::Global;
use std::rc::Rc;

/// Never reached.
const NEVER: usize = 10_000_000;

/// The devices of a run: the reader and the writer take as many bytes at a time and fail at a call, from 0, and the
/// desk fails at a save, from 1.
#[derive(Clone, Copy)]
pub(crate) struct Devices {
    pub(crate) most_read: usize,
    pub(crate) read_fails_at: usize,
    pub(crate) most_written: usize,
    pub(crate) write_fails_at: usize,
    pub(crate) save_fails_at: u64,
}

/// They never fail, and the reader gives one byte at a time.
pub(crate) const SOUND: Devices = Devices {
    most_read: 1,
    read_fails_at: NEVER,
    most_written: 4096,
    write_fails_at: NEVER,
    save_fails_at: 0,
};

/// Lines to a session on the stack of two cards, beside one external or none, and what comes of them.
#[derive(Clone, Copy)]
pub(crate) struct Talk<'a, 'b> {
    pub(crate) name: &'static str,
    pub(crate) manner: Option<Manner>,
    pub(crate) steps: u32,
    pub(crate) devices: Devices,
    pub(crate) input: &'a [u8],
    pub(crate) written: &'b [u8],
    pub(crate) ran: Result<Ran, RunFault>,
    /// How many calls of the reader, of the writer and of the desk failed.
    pub(crate) failures: (u64, u64, u64),
    /// The text that the desk keeps.
    pub(crate) kept: &'static [u8],
}

/// Nothing is typed, and nothing fails.
pub(crate) const EMPTY: Talk<'static, 'static> = Talk {
    name: "",
    manner: None,
    steps: 100_000,
    devices: SOUND,
    input: b"",
    written: b"",
    ran: Ok(Ran::EndOfInput),
    failures: (0, 0, 0),
    kept: b"",
};

/// Whether the run ends as it is wanted, and blames the reader and the writer so.
fn ends_so<E: External>(
    alloc: Global,
    session: &mut Session<E>,
    talk: &Talk<'_, '_>,
    taken: &mut Sip,
    desk: &mut Shelf,
) -> bool {
    let mut reader = Watched::new(Drip {
        bytes: talk.input,
        most: talk.devices.most_read,
        calls: 0,
        fails_at: talk.devices.read_fails_at,
    });
    let mut writer = Watched::new(taken);
    let ran = run(session, alloc, &mut reader, &mut writer, desk, &Silent);
    let (reads, writes, _) = talk.failures;
    ran == talk.ran && reader.failures() == reads && writer.failures() == writes
}

/// Whether the run ends so, the writer took what is wanted, and the desk keeps it and counted so.
fn goes_in<E: External>(alloc: Global, session: &mut Session<E>, talk: &Talk<'_, '_>) -> bool {
    let mut taken = Sip::new(
        alloc,
        talk.devices.most_written,
        talk.devices.write_fails_at,
    );
    let mut desk = Shelf::new(alloc).failing_at(talk.devices.save_fails_at);
    let ends = ends_so(alloc, session, talk, &mut taken, &mut desk);
    let (_, _, saves) = talk.failures;
    ends && taken.taken.as_slice() == talk.written
        && desk.text() == talk.kept
        && desk.failures() == saves
}

/// The external of a talk, which goes by the talk's name, or none.
fn externals_of(alloc: Global, talk: &Talk<'_, '_>) -> Option<Vec<Boxed>> {
    let mut externals = Vec::new(alloc);
    if let Some(manner) = talk.manner {
        let mark = Rc::new(alloc, 0u8).ok()?;
        let external = external_of(alloc, talk.name.as_bytes(), manner, &mark)?;
        externals.push(external).ok()?;
    }
    Some(externals)
}

fn goes_so<E: External>(alloc: Global, externals: Vec<E>, talk: &Talk<'_, '_>) -> Option<bool> {
    let mut session = session_of(alloc, externals, talk.steps)?;
    Some(goes_in(alloc, &mut session, talk))
}

/// Whether a talk goes as it is wanted.
pub(crate) fn is_met(alloc: Global, talk: &Talk<'_, '_>) -> Option<bool> {
    goes_so(alloc, externals_of(alloc, talk)?, talk)
}

/// The writer takes one byte at a time.
const SLOW: Devices = Devices {
    most_written: 1,
    ..SOUND
};

/// The stack of two cards, with the first card under another name.
const RENAMED: &[u8] =
    b"htstack 2\nnext 5\nname |Demo\nscript 0\nbackgrounds 1\nbackground 1\nname |\ncantDelete false\nscript 0\nparts 1\nfield 3\nname |Note\nvisible true\nlockText false\nsharedText false\nscript 0\nshared 0\ncards 2\ncard 2 1\nname |Z\ncantDelete false\nscript 0\nparts 0\ntext 3 0\ncard 4 1\nname |B\ncantDelete false\nscript 0\nparts 0\ntext 3 0\nend\n";

/// Two saves with a change between.
const TWO_SAVES: &[u8] = b".save\n.history\nset name of card 1 to \"Z\"\n.save\n.history\n";

const TALKS: &[Talk<'static, 'static>] = &[
    Talk {
        name: "a last line quits though nothing ends it",
        devices: SLOW,
        input: b".where\n.quit",
        written: b"> 2\nok\nok\n",
        ran: Ok(Ran::Quit),
        ..EMPTY
    },
    Talk {
        name: "a last return is no end of a line",
        devices: SLOW,
        input: b".where\r\n.where\r",
        written: b"> 2\nok\nrefused 3\n",
        ..EMPTY
    },
    Talk {
        name: "a last return may end a statement",
        devices: SLOW,
        input: b"put 1\r\nput 2\r",
        written: b"> 1\nok\n> 2\nok\n",
        ..EMPTY
    },
    Talk {
        name: "a byte that is no text elsewhere",
        devices: SLOW,
        input: b"put \"a\\b\xC9\" into _a\n.globals\n",
        written: b"ok\n> _a a\\5cb\\c9\nok\n",
        ..EMPTY
    },
    Talk {
        name: "a writer that takes nothing has failed",
        devices: Devices {
            most_written: 0,
            ..SOUND
        },
        input: b".where\n",
        ran: Err(RunFault::Write),
        failures: (0, 1, 0),
        ..EMPTY
    },
    Talk {
        name: "a desk that fails at the first save keeps the second",
        devices: Devices {
            save_fails_at: 1,
            ..SOUND
        },
        input: TWO_SAVES,
        written: b"refused 7\n> 0 0\nok\nok\nok\n> 1 0\nok\n",
        failures: (0, 0, 1),
        kept: RENAMED,
        ..EMPTY
    },
    Talk {
        name: "a desk that fails at the second save keeps the first",
        devices: Devices {
            save_fails_at: 2,
            ..SOUND
        },
        input: TWO_SAVES,
        written: b"ok\n> 0 0\nok\nok\nrefused 7\n> 1 0\nok\n",
        failures: (0, 0, 1),
        kept: TWO_CARDS,
        ..EMPTY
    },
    Talk {
        name: "a desk that would fail at a third save keeps the second",
        devices: Devices {
            save_fails_at: 3,
            ..SOUND
        },
        input: TWO_SAVES,
        written: b"ok\n> 0 0\nok\nok\nok\n> 1 0\nok\n",
        kept: RENAMED,
        ..EMPTY
    },
    Talk {
        name: "a desk refuses once",
        devices: Devices {
            save_fails_at: 1,
            ..SOUND
        },
        input: b"put 1 into g\n.save\n.history\n.save\n",
        written: b"ok\nrefused 7\n> 1 0\nok\nok\n",
        failures: (0, 0, 1),
        kept: TWO_CARDS,
        ..EMPTY
    },
    Talk {
        name: "a save is done before its answer",
        devices: Devices {
            write_fails_at: 0,
            ..SOUND
        },
        input: b".save\n.where\n",
        ran: Err(RunFault::Write),
        failures: (0, 1, 0),
        kept: TWO_CARDS,
        ..EMPTY
    },
];

/// What an external does in one conversation is one place, which undo and redo go over.
const CONVERSATIONS: &[Talk<'static, 'static>] = &[
    Talk {
        name: "Turns",
        manner: Some(Manner::End),
        input: b"Turns\nTurns\n.cells Turns\n.undo\n.cells Turns\n.redo\n.cells Turns\n",
        written: b"ok\nok\n> 2\nok\nok\n> 1\nok\nok\n> 2\nok\n",
        ..EMPTY
    },
    Talk {
        name: "Ask",
        manner: Some(Manner::Set),
        steps: 100,
        input: b"Ask\n.cells Ask\n.globals\n.undo\n.cells Ask\n.globals\n.redo\n.cells Ask\n.globals\n",
        written: b"fault 11\n> 98\nok\n> g 98\nok\nok\n> 0\nok\nok\nok\n> 98\nok\n> g 98\nok\n",
        ..EMPTY
    },
    Talk {
        name: "Deep",
        manner: Some(Manner::Send),
        input: b"Deep\n.cells Deep\n.undo\n.cells Deep\n.redo\n.cells Deep\n",
        written: b"fault 12\n> 100\nok\nok\n> 0\nok\nok\n> 100\nok\n",
        ..EMPTY
    },
    Talk {
        name: "Echo",
        manner: Some(Manner::Echo),
        input: b"do \"Echo\" && quote & \"6 * 7\" & quote & return & \"put the result\"\n.cells Echo\n",
        written: b"> 6 * 7=42\nok\n> 2\nok\n",
        ..EMPTY
    },
    Talk {
        // What is passed on comes to what is built in.
        name: "doMenu",
        manner: Some(Manner::Pass),
        input: b"doMenu \"New Card\"\n.where\n.cells doMenu\n.undo\n.where\n.cells doMenu\n",
        written: b"ok\n> 5\nok\n> 1\nok\nok\n> 2\nok\n> 0\nok\n",
        ..EMPTY
    },
    Talk {
        name: "Other",
        manner: Some(Manner::Pass),
        input: b"Other\n.cells Other\n",
        written: b"fault 2\n> 1\nok\n",
        ..EMPTY
    },
    Talk {
        name: "Fill",
        manner: Some(Manner::SetField),
        input: b"Fill \"new\"\nput field \"Note\"\n.cells Fill\n.undo 2\nput field \"Note\"\n.cells Fill\n",
        written: b"ok\n> new\nok\n> 2\nok\nok\n> \nok\n> 0\nok\n",
        ..EMPTY
    },
    Talk {
        name: "Mute",
        manner: Some(Manner::Fail),
        input: b"Mute\n.cells Mute\n.history\n.undo\n.cells Mute\n.redo\n.cells Mute\n",
        written: b"fault 13\n> 1\nok\n> 1 0\nok\nok\n> 0\nok\nok\n> 1\nok\n",
        ..EMPTY
    },
    Talk {
        // A gate of this name lets every second command of the menu through.
        name: "doMenu",
        manner: Some(Manner::Gate),
        input: b"doMenu \"New Card\"\n.where\ndoMenu \"New Card\"\n.where\n.undo 2\n.cells doMenu\n",
        written: b"ok\n> 2\nok\nok\n> 5\nok\nok\n> 0\nok\n",
        ..EMPTY
    },
];

#[test]
fn lines_are_answered(rt: HostRuntime) {
    for talks in [TALKS, CONVERSATIONS] {
        for talk in talks {
            assert!(rt; is_met(rt.alloc(), talk) == Some(true), "at {}", talk.name);
        }
    }
}
