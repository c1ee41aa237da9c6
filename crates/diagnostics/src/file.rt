//! Why a stack text is refused, and where.

use crate::page::Page;
use stack_file::FileError;

/// The words of a stack text that is refused: `BadLine: the line isn't of the form that is due there`.
pub fn file_fault_words(fault: FileError) -> &'static str {
    match fault {
        FileError::BadLine(_) =>
            "BadLine: the line isn't of the form that is due there, or something stands after `end`",
        FileError::BadId(_) =>
            "BadId: an id is 0, not below `next`, used already, or not the one that is due; or a background has no card",
        FileError::Truncated =>
            "Truncated: the file ends before the line feed of a line up to `end`",
        FileError::TooMany =>
            "TooMany: `next` is above 1,000,001, a count is above 10,000, or an object is the 10,001st",
    }
}

/// The line of this number, from 1, of a stack text, indented by four spaces; nothing where there is none.
pub fn write_line(page: &mut Page, bytes: &[u8], number: u64) {
    let mut at: u64 = 0;
    for line in bytes.split(|byte| *byte == b'\n') {
        at = at.saturating_add(1);
        if at == number {
            let shown = line.get(..200).unwrap_or(line);
            page.word(b"\n    ");
            page.spelled(shown);
            return;
        }
    }
}
