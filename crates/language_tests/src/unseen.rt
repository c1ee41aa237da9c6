//! Texts and functions of which no run of the program shows what they give.

use crate::cases::text_of;
use chunks::delete_within;
use ht_parse::{ParseError, parse_message, parse_script};
use ht_values::{Failure, Func, LIMIT, Name, Text, TextError, Value, law_of_text, law_of_value};
use std::alloc::Global;

fn is_name(name: &Name, bytes: &[u8], want: &[u8]) -> bool {
    name.text().as_slice() == bytes && name.folded() == want
}

/// Whether the text of these bytes, and the name that it spells, is folded to those, which are others.
fn is_folded_to(alloc: Global, bytes: &[u8], want: &[u8]) -> bool {
    match text_of(alloc, bytes) {
        Some(text) => {
            let is_right = !text.is_folded()
                && matches!(text.folded(alloc), Ok(folded) if folded.as_slice() == want);
            matches!(Name::new(alloc, text), Ok(name) if is_name(&name, bytes, want)) && is_right
        }
        None => false,
    }
}

fn is_too_long(alloc: Global, length: usize) -> bool {
    match vec![in alloc; b'x'; length] {
        Ok(bytes) => matches!(Text::from_slice(alloc, &bytes), Err(TextError::TooLong)),
        Err(_) => false,
    }
}

fn keeps_laws(alloc: Global) -> bool {
    law_of_value(&Value::of_number(-9));
    match text_of(alloc, b"ab") {
        Some(text) => {
            law_of_text(&text);
            true
        }
        None => false,
    }
}

#[test]
fn texts_have_a_limit_and_laws(rt: HostRuntime) {
    assert!(rt; LIMIT == 30_000 && Text::new(rt.alloc()).len() == 0);
    assert!(rt; is_too_long(rt.alloc(), LIMIT + 1));
    assert!(rt; is_folded_to(rt.alloc(), b"@Z[\xC4", b"@z[\xC4"));
    assert!(rt; keeps_laws(rt.alloc()));
}

/// A script whose deepest line has three levels.
const SCRIPT: &[u8] = b"on mouseUp a, b\r  if a then\r    put b into it\r  end if\rend MouseUp\r";

/// A message whose deepest argument has two levels.
const MESSAGE: &[u8] = b"greet \"you\", 1 + 2";

fn is_script_of_depth(alloc: Global, text: &Text, depth: usize) -> bool {
    matches!(parse_script(alloc, text), Ok(script) if script.depth() == depth)
}

fn is_message_of_depth(alloc: Global, text: &Text, depth: usize) -> bool {
    matches!(parse_message(alloc, text), Ok(message) if message.depth() == depth)
}

/// Whether no call has this name, and nothing of it is deleted without a chunk.
fn is_left(alloc: Global, text: &Text) -> bool {
    Func::named(text).is_none() && matches!(delete_within(alloc, text, &[], b','), Ok(None))
}

/// No call is without a name, or gets as far as the name `value`; nothing is deleted without a chunk.
#[test]
fn answers_that_no_run_shows(rt: HostRuntime) {
    let alloc = rt.alloc();
    assert!(rt; Func::named(&Text::new(alloc)).is_none());
    assert!(rt; Failure::from(ParseError::Memory) == Failure::Memory);
    assert!(rt; matches!(text_of(alloc, b"value"), Some(text) if is_left(alloc, &text)));
    assert!(rt;
        matches!(text_of(alloc, SCRIPT), Some(text) if is_script_of_depth(alloc, &text, 3))
    );
    assert!(rt;
        matches!(text_of(alloc, MESSAGE), Some(text) if is_message_of_depth(alloc, &text, 2))
    );
}
