//! Faults, with the calls that were open.

use crate::typed::write_unread;
use crate::words::{write_fault, write_refusal};
use diagnostics::{
    Page, StateAfter, location_in, write_call, write_front, write_location, write_meant,
    write_statement, write_unread_text,
};
use externals::External;
use ht_values::Fault;
use meaning::Stopped;
use session::{Ending, Refusal, Reply, Session, acted_in};
use std::alloc::Global;

/// The typed line in which a command was called.
fn write_typed(page: &mut Page, line: &[u8], at: Option<usize>, is_first: bool) {
    let Some((_, text)) = acted_in(line) else {
        return;
    };
    write_front(page, is_first);
    let front = line.len().saturating_sub(text.len());
    let place = location_in(line, at.unwrap_or(0).saturating_add(front));
    if at.is_some() {
        write_location(page, place, false);
        page.word(b" of ");
    }
    page.word(b"the typed line:");
    write_statement(
        page,
        if at.is_some() {
            place
        } else {
            location_in(line, 0)
        },
    );
}

/// Where a run stopped: the innermost place first, and then the calls, outwards.
fn write_stopped(
    page: &mut Page,
    state: StateAfter<'_>,
    line: &[u8],
    fault: Fault,
    stopped: &Stopped,
) {
    let mut is_first = true;
    if let Some(unread) = &stopped.unread {
        write_unread_text(page, state, unread);
        is_first = false;
    }
    let last = stopped.calls.len().saturating_sub(1);
    for (number, call) in stopped.calls.iter().enumerate() {
        if number == last && 0 < stopped.left_out {
            page.word(b"\n  (");
            page.number(stopped.left_out);
            page.word(b" more)");
        }
        write_call(page, state, call, is_first);
        if is_first {
            write_meant(page, fault, &stopped.meant);
        }
        is_first = false;
    }
    write_typed(page, line, stopped.place, is_first);
    if is_first {
        write_meant(page, fault, &stopped.meant);
    }
}

fn fault_explained<E: External>(
    page: &mut Page,
    alloc: Global,
    session: &Session<E>,
    line: &[u8],
    reply: &Reply,
    fault: Fault,
) {
    write_fault(page, fault);
    let state = StateAfter {
        alloc,
        stack: session.stack(),
        card: session.current(),
    };
    match reply.sent.trace().stopped() {
        Some(stopped) => write_stopped(page, state, line, fault, &stopped),
        None => write_typed(page, line, None, true),
    }
}

fn refusal_explained(page: &mut Page, alloc: Global, line: &[u8], refusal: Refusal) {
    write_refusal(page, refusal);
    match refusal {
        Refusal::BadCommand => write_unread(page, alloc, line),
        Refusal::NothingToUndo
        | Refusal::NothingToRedo
        | Refusal::NoMemory
        | Refusal::LineTooLong
        | Refusal::FieldLocked
        | Refusal::SaveFailed => {}
    }
}

/// Why a line faulted or was refused, and where, over several lines without an end of the last; nothing for a line that
/// ended well. What there is no memory for is left out.
///
/// A fault is told with its number and name, the innermost place where it came, and the calls that were open, outwards;
/// a typed line that isn't in the grammar with the place from which it couldn't be read on.
pub fn explain<E: External>(
    alloc: Global,
    session: &Session<E>,
    line: &[u8],
    reply: &Reply,
) -> Page {
    let mut page = Page::new(alloc);
    match &reply.ending {
        Ending::Fault(fault) => {
            fault_explained(&mut page, alloc, session, line, reply, *fault);
        }
        Ending::Refused(refusal) => refusal_explained(&mut page, alloc, line, *refusal),
        Ending::Ok | Ending::Save(_) | Ending::Quit => {}
    }
    page
}
