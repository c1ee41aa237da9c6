//! Places in a text as people count them.

use crate::page::Page;

/// How many bytes of a line are shown before a place, and after it, at most.
const BEFORE: usize = 60;

const AFTER: usize = 100;

/// A place: its line and its column, each from 1, and the bytes of its line.
#[derive(Clone, Copy)]
pub struct Location<'a> {
    pub line: usize,
    pub column: usize,
    pub text: &'a [u8],
}

/// The place of a byte in a text whose lines end with returns; past its end that of its end.
pub fn location_in(text: &[u8], at: usize) -> Location<'_> {
    let mut left = at.min(text.len());
    let mut place = Location {
        line: 1,
        column: 1,
        text: &text[..0],
    };
    let mut line: usize = 0;
    for piece in text.split(|byte| *byte == b'\r') {
        line = line.saturating_add(1);
        place = Location {
            line,
            column: left.saturating_add(1),
            text: piece,
        };
        if left <= piece.len() {
            return place;
        }
        left = left.saturating_sub(piece.len()).saturating_sub(1);
    }
    place
}

/// The bytes from one place up to another, as far as they are there.
fn part(text: &[u8], from: usize, to: usize) -> &[u8] {
    let to = to.min(text.len());
    let from = from.min(to);
    &text[from..to]
}

/// `line L`, or with the column `line L, column C`.
pub fn write_location(page: &mut Page, place: Location<'_>, with_column: bool) {
    page.word(b"line ");
    page.number(place.line);
    if with_column {
        page.word(b", column ");
        page.number(place.column);
    }
}

/// The line of a place without the blanks before it, indented by four spaces; a long one is cut.
pub fn write_statement(page: &mut Page, place: Location<'_>) {
    let blanks = place
        .text
        .iter()
        .take_while(|byte| **byte == b' ' || **byte == b'\t')
        .count();
    page.word(b"\n    ");
    let end = blanks.saturating_add(BEFORE + AFTER);
    page.spelled(part(place.text, blanks, end));
    if end < place.text.len() {
        page.word(b" ..");
    }
}

/// The line of a place, indented by four spaces, and below it a caret at the place; of a long line what stands round
/// it.
pub fn write_pointed(page: &mut Page, place: Location<'_>) {
    let at = place.column.saturating_sub(1);
    let front = at.min(place.text.len()).saturating_sub(BEFORE);
    let end = at.saturating_add(AFTER);
    page.word(b"\n    ");
    if 0 < front {
        page.word(b".. ");
    }
    let start = page.len();
    page.spelled(part(place.text, front, at));
    let width = page.len().saturating_sub(start);
    page.spelled(part(place.text, at, end));
    if end < place.text.len() {
        page.word(b" ..");
    }
    page.word(b"\n    ");
    page.spaces(if 0 < front { 3 } else { 0 });
    page.spaces(width.min(4 * BEFORE));
    page.word(b"^");
}
