//! A worked row: what is typed, and what is answered.

use std::alloc::{AllocError, Global};

/// A row as its file has it.
#[derive(Clone, Copy)]
pub struct Row<'a> {
    /// The file of the stack that it runs on.
    pub stack: &'a str,
    /// The words behind the name of the stack.
    pub args: &'a str,
    /// A change of the stack text before it is read.
    pub edit: &'a str,
    /// The save at which the desk fails, from 1; a desk of another word keeps all.
    pub desk: &'a str,
    /// The exit status that is wanted.
    pub status: &'a str,
    /// The line that is wanted on standard error; `*` is any line.
    pub stderr: &'a str,
    /// The lines of the row: what is typed (`< LINE`), each line of the answer (`= LINE`), what a shown stack text has
    /// to be (`~ CHECK`), each message that the run sends, in their order, with the id of its object (`! NAME ID`), and
    /// each line that says why a line faulted or was refused (`? LINE`).
    pub body: &'a str,
}

/// The value of a key at the head of a row, or this one where it isn't there.
fn value_of<'a>(head: &'a str, key: &str, unless: &'a str) -> &'a str {
    for line in head.lines() {
        if let Some((name, value)) = line.split_once(": ") {
            if name == key {
                return value;
            }
        }
    }
    unless
}

/// The row of a file: `key: value` lines, a line `---`, and the row.
pub fn row_of(text: &str) -> Row<'_> {
    let (head, body) = text.split_once("---\n").unwrap_or((text, ""));
    Row {
        stack: value_of(head, "stack", "two_cards.stack"),
        args: value_of(head, "args", ""),
        edit: value_of(head, "edit", ""),
        desk: value_of(head, "desk", ""),
        status: value_of(head, "status", "0"),
        stderr: value_of(head, "stderr", ""),
        body,
    }
}

/// The first characters of a stack's text, so many.
fn push_cut(out: &mut String, stack: &str, count: &str) -> Result<(), AllocError> {
    let count: usize = count.parse().unwrap_or(0);
    for c in stack.chars().take(count) {
        out.push(c)?;
    }
    Ok(())
}

/// A stack's text after an edit `line N TEXT`: with this line of this number, from 1. Another edit changes nothing.
fn push_changed(out: &mut String, stack: &str, edit: &str) -> Result<(), AllocError> {
    let (number, new) = edit
        .strip_prefix("line ")
        .and_then(|rest| rest.split_once(" "))
        .unwrap_or(("0", ""));
    let number: usize = number.parse().unwrap_or(0);
    let mut at: usize = 0;
    for line in stack.lines() {
        at = at.saturating_add(1);
        out.push_str(if at == number { new } else { line })?;
        out.push('\n')?;
    }
    Ok(())
}

/// The text of the stack after the edit: `cut N`, or `line N TEXT`.
pub fn edited(alloc: Global, stack: &str, edit: &str) -> Result<String, AllocError> {
    let mut out = String::new(alloc);
    match edit.strip_prefix("cut ") {
        Some(count) => push_cut(&mut out, stack, count)?,
        None => push_changed(&mut out, stack, edit)?,
    }
    Ok(out)
}

/// A text in which each `~` is a return.
fn push_returns(out: &mut String, text: &str) -> Result<(), AllocError> {
    for c in text.chars() {
        out.push(if c == '~' { '\r' } else { c })?;
    }
    Ok(())
}

/// For `N C` the text C, N times.
fn push_long(out: &mut String, rest: &str) -> Result<(), AllocError> {
    let (count, text) = rest.split_once(" ").unwrap_or(("0", ""));
    let count: u32 = count.parse().unwrap_or(0);
    for _ in 0..count {
        out.push_str(text)?;
    }
    Ok(())
}

/// The line of the input for a line of a row, if it is one that is typed.
fn push_typed(out: &mut String, line: &str) -> Result<(), AllocError> {
    if let Some(text) = line.strip_prefix("< ") {
        out.push_str(text)?;
    } else if let Some(text) = line.strip_prefix("<cr ") {
        push_returns(out, text)?;
    } else if let Some(rest) = line.strip_prefix("<long ") {
        push_long(out, rest)?;
    } else {
        return Ok(());
    }
    out.push('\n')
}

/// The input of a row: a line for `< TEXT`, for `<long N C`, which is the byte C, N times, and for `<cr TEXT`,
/// in which each `~` is a return.
pub fn input_of(alloc: Global, body: &str) -> Result<String, AllocError> {
    let mut out = String::new(alloc);
    for line in body.lines() {
        push_typed(&mut out, line)?;
    }
    Ok(out)
}
