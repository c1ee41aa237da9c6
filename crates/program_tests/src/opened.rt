//! Sessions on the stack of two cards, and why one isn't opened. A session stands in a box, which is dropped by one
//! call.

ghost use Rattle.std.specs.Prelude.{IfSome};
ghost use Rattle.object_table.specs.WellFormed.{IsWellFormed};

use crate::nondeterministic::{Boxed, Manner, external_of};
use externals::External;
use object_table::Stack;
use session::{OpenError, Session};
use stack_file::read;
use std::alloc::Global;
use std::rc::Rc;

pub(crate) const TWO_CARDS: &[u8] =
    b"htstack 2\nnext 5\nname |Demo\nscript 0\nbackgrounds 1\nbackground 1\nname |\ncantDelete false\nscript 0\nparts 1\nfield 3\nname |Note\nvisible true\nlockText false\nsharedText false\nscript 0\nshared 0\ncards 2\ncard 2 1\nname |A\ncantDelete false\nscript 0\nparts 0\ntext 3 0\ncard 4 1\nname |B\ncantDelete false\nscript 0\nparts 0\ntext 3 0\nend\n";

fn two_cards(alloc: Global) -> Option<Stack>
    ensures { IfSome result (λ s. IsWellFormed s.content) }
{
    match read(alloc, TWO_CARDS) {
        Ok(stack) => Some(stack),
        Err(_) => None,
    }
}

/// A session with these externals, which may take as many steps for a command.
pub(crate) fn session_of<E: External>(
    alloc: Global,
    externals: Vec<E>,
    steps: u32,
) -> Option<Box<Session<E>>> {
    let stack = two_cards(alloc)?;
    let session = Session::open(alloc, stack, externals, steps, 1_000_000).ok()?;
    Box::new(alloc, session).ok()
}

/// Externals of these names, that fail at each turn. Each holds the mark.
pub(crate) fn all_externals(alloc: Global, names: &[&[u8]], mark: &Rc<u8>) -> Option<Vec<Boxed>> {
    let mut externals = Vec::new(alloc);
    for name in names {
        externals
            .push(external_of(alloc, name, Manner::Fail, mark)?)
            .ok()?;
    }
    Some(externals)
}

/// The names of externals, the steps and the depth, and why no session is opened with them.
struct Opening {
    names: &'static [&'static [u8]],
    steps: u32,
    depth: u32,
    refusal: Option<OpenError>,
}

const OPENINGS: &[Opening] = &[
    Opening {
        names: &[],
        steps: 0,
        depth: 1,
        refusal: Some(OpenError::BadSteps),
    },
    Opening {
        names: &[],
        steps: 100,
        depth: 0,
        refusal: Some(OpenError::BadDepth),
    },
    Opening {
        names: &[],
        steps: 0,
        depth: 0,
        refusal: Some(OpenError::BadSteps),
    },
    Opening {
        names: &[],
        steps: 10_000_001,
        depth: 1,
        refusal: Some(OpenError::BadSteps),
    },
    Opening {
        names: &[],
        steps: 1,
        depth: 1_000_001,
        refusal: Some(OpenError::BadDepth),
    },
    Opening {
        names: &[],
        steps: 10_000_000,
        depth: 1_000_000,
        refusal: None,
    },
    Opening {
        names: &[b"Echo", b"ECHO"],
        steps: 1,
        depth: 1,
        refusal: Some(OpenError::DuplicateName),
    },
    Opening {
        names: &[b"Echo", b"Other"],
        steps: 1,
        depth: 1,
        refusal: None,
    },
];

/// Why a session isn't opened on the stack, and how many externals come back.
fn refused<E: External>(
    alloc: Global,
    stack: Stack,
    externals: Vec<E>,
    row: &Opening,
) -> Option<(OpenError, usize)>
    requires { IsWellFormed stack.content }
{
    match Session::open(alloc, stack, externals, row.steps, row.depth) {
        Ok(_) => None,
        Err((error, _, externals)) => Some((error, externals.len())),
    }
}

/// Whether a session is opened, or refused with all externals handed back, as it is wanted.
fn opens_so<E: External>(alloc: Global, externals: Vec<E>, row: &Opening) -> Option<bool> {
    let stack = two_cards(alloc)?;
    let refused = refused(alloc, stack, externals, row);
    Some(match row.refusal {
        Some(error) => refused == Some((error, row.names.len())),
        None => refused.is_none(),
    })
}

fn is_met(alloc: Global, row: &Opening) -> Option<bool> {
    let mark = Rc::new(alloc, 0u8).ok()?;
    let externals = all_externals(alloc, row.names, &mark)?;
    opens_so(alloc, externals, row)
}

#[test]
fn steps_come_before_depth_and_names_are_apart(rt: HostRuntime) {
    for row in OPENINGS {
        assert!(rt;
            is_met(rt.alloc(), row) == Some(true),
            "{} {}",
            row.steps,
            row.depth
        );
    }
}
