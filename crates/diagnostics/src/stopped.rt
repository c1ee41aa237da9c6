//! The places where a run stopped, and the calls that were open.

use crate::hint::write_hint;
use crate::location::{location_in, write_location, write_pointed, write_statement};
use crate::object::write_object;
use crate::page::Page;
use ht_grammar::HandlerKind;
use ht_parse::{ParseError, parse_script};
use ht_values::{Fault, Text};
use meaning::{OpenCall, TextUse, Unread};
use object_table::{Id, Stack};
use std::alloc::Global;

/// What is looked at while a stop is explained: the stack as the command left it, and the card that was current.
#[derive(Clone, Copy)]
pub struct StateAfter<'a> {
    pub alloc: Global,
    pub stack: &'a Stack,
    pub card: Id,
}

/// The name of a text that is run.
fn name_of_text(text_use: TextUse) -> &'static [u8] {
    match text_use {
        TextUse::Do => b"the text of do",
        TextUse::Value => b"the text of value",
        TextUse::Send => b"the text of send",
        TextUse::CallBack => b"the text of an external's call-back",
    }
}

/// `  at ` before the first place, and `  called from ` before the others.
pub fn write_front(page: &mut Page, is_first: bool) {
    page.word(if is_first {
        b"\n  at "
    } else {
        b"\n  called from "
    });
}

/// The script of an object, and the handler in it.
fn write_handler(
    page: &mut Page,
    state: StateAfter<'_>,
    object: Id,
    kind: HandlerKind,
    name: &Text,
) {
    page.word(b"the script of ");
    write_object(page, state.alloc, state.stack, state.card, object);
    page.word(match kind {
        HandlerKind::Command => b", in on ",
        HandlerKind::Function => b", in function ",
    });
    page.spelled(name.as_slice());
}

/// A place in a handler of a script that its object still has.
fn write_handler_place(
    page: &mut Page,
    state: StateAfter<'_>,
    object: Id,
    kind: HandlerKind,
    name: &Text,
    at: Option<usize>,
) {
    let script = state.stack.object(object).map(|object| &object.script);
    match (script, at) {
        (Some(script), Some(at)) => {
            let place = location_in(script.as_slice(), at);
            write_location(page, place, false);
            page.word(b" of ");
            write_handler(page, state, object, kind, name);
            page.word(b":");
            write_statement(page, place);
        }
        _ => write_handler(page, state, object, kind, name),
    }
}

/// A place in a text that was run.
fn write_text_place(page: &mut Page, name: &[u8], text: &[u8], at: Option<usize>) {
    let place = location_in(text, at.unwrap_or(0));
    write_location(page, place, false);
    page.word(b" of ");
    page.word(name);
    page.word(b":");
    write_statement(page, place);
}

/// A call that was open.
pub fn write_call(page: &mut Page, state: StateAfter<'_>, call: &OpenCall, is_first: bool) {
    write_front(page, is_first);
    match call {
        OpenCall::Handler {
            object,
            kind,
            name,
            place,
            is_current,
        } => {
            if *is_current {
                write_handler_place(page, state, *object, *kind, name, *place);
            } else {
                write_handler(page, state, *object, *kind, name);
                if state.stack.object(*object).is_some() {
                    page.word(b"; that script was replaced meanwhile");
                }
            }
        }
        OpenCall::Text {
            text_use,
            text,
            place,
        } => write_text_place(page, name_of_text(*text_use), text.as_slice(), *place),
    }
}

/// Where the script of an object isn't in the grammar, and whether it isn't.
fn write_unread_script(
    page: &mut Page,
    alloc: Global,
    stack: &Stack,
    card: Id,
    object: Id,
) -> bool {
    let Some(found) = stack.object(object) else {
        return false;
    };
    let Err(ParseError::Syntax(at)) = parse_script(alloc, &found.script) else {
        return false;
    };
    let place = location_in(found.script.as_slice(), at);
    write_front(page, true);
    write_location(page, place, true);
    page.word(b" of the script of ");
    write_object(page, alloc, stack, card, object);
    page.word(b":");
    write_pointed(page, place);
    write_hint(page, alloc, &found.script, at);
    true
}

/// What wasn't in the grammar.
pub fn write_unread_text(page: &mut Page, state: StateAfter<'_>, unread: &Unread) {
    match unread {
        Unread::Script(path) => {
            for object in path {
                if write_unread_script(page, state.alloc, state.stack, state.card, *object) {
                    return;
                }
            }
        }
        Unread::Text {
            text_use,
            text,
            place,
        } => {
            let at = location_in(text.as_slice(), *place);
            write_front(page, true);
            write_location(page, at, true);
            page.word(b" of ");
            page.word(name_of_text(*text_use));
            page.word(b":");
            write_pointed(page, at);
            write_hint(page, state.alloc, text, *place);
        }
    }
}

/// The texts that were meant, each in quotes, after a word for what they were to be.
pub fn write_meant(page: &mut Page, fault: Fault, meant: &[Text]) {
    if meant.is_empty() {
        return;
    }
    page.word(match fault {
        Fault::CantUnderstand => b"\n  sent: ".as_slice(),
        Fault::NoSuchObject => b"\n  sought: ".as_slice(),
        _ => b"\n  values: ".as_slice(),
    });
    let mut is_first = true;
    for text in meant {
        if !is_first {
            page.word(b", ");
        }
        page.word(b"\"");
        let bytes = text.as_slice();
        page.spelled(bytes.get(..100).unwrap_or(bytes));
        page.word(b"\"");
        is_first = false;
    }
}
