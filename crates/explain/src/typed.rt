//! Typed lines that aren't in the grammar.

use diagnostics::{Page, location_in, write_hint, write_location, write_pointed};
use ht_parse::{ParseError, parse_lines, parse_part, parse_type};
use ht_values::Text;
use session::{Reading, acted_in};
use std::alloc::Global;

/// Where a text can't be read on; `None` where it can, or memory was refused.
fn unread_at(alloc: Global, reading: Reading, text: &Text) -> Option<usize> {
    let error = match reading {
        Reading::Lines => parse_lines(alloc, text).err(),
        Reading::Reference => parse_part(alloc, text).err(),
        Reading::Typing => parse_type(alloc, text).err(),
        Reading::Opening => None,
    };
    match error {
        Some(ParseError::Syntax(at)) => Some(at),
        Some(ParseError::Memory) | None => None,
    }
}

/// What is told of a dot line that says nothing.
const DOT_LINES: &[u8] =
    b"\n  no dot line says this, or no external has that name; dot lines are .open, .click PART, .type \"TEXT\" into FIELD, .undo [K], .undo to N, .redo [K], .show, .globals, .where, .cells NAME, .history, .save and .quit";

/// Where a typed line isn't in the grammar.
pub(crate) fn write_unread(page: &mut Page, alloc: Global, line: &[u8]) {
    let Some((reading, behind)) = acted_in(line) else {
        page.word(DOT_LINES);
        return;
    };
    let Ok(text) = Text::from_slice(alloc, behind) else {
        return;
    };
    let Some(at) = unread_at(alloc, reading, &text) else {
        return;
    };
    let front = line.len().saturating_sub(behind.len());
    let place = location_in(line, at.saturating_add(front));
    page.word(b"\n  at ");
    write_location(page, place, true);
    page.word(b" of the typed line:");
    write_pointed(page, place);
    write_hint(page, alloc, &text, at);
}
