//! What a row's answers have to be.

use devices::HeardMessage;
use std::alloc::{AllocError, Global};

/// A shown text that was kept under a name, to compare later ones with.
#[derive(Drop)]
struct NamedText {
    name: String,
    text: String,
}

/// An answer that ends with `ok`, without that line, and the answers after it.
fn until_ok(answers: &str) -> Option<(&str, &str)> {
    match answers.strip_prefix("ok\n") {
        Some(rest) => Some(("", rest)),
        None => answers.split_once("\nok\n"),
    }
}

/// Writes a line with a line feed.
fn push_line(out: &mut String, line: &str) -> Result<(), AllocError> {
    out.push_str(line)?;
    out.push('\n')
}

/// The shown lines of an answer without `> `, each with a line feed.
fn shown_in(alloc: Global, answer: &str) -> Result<String, AllocError> {
    let mut shown = String::new(alloc);
    for line in answer.lines() {
        push_line(&mut shown, line.strip_prefix("> ").unwrap_or(line))?;
    }
    Ok(shown)
}

/// The part of a stack text that a line begins, if it is there.
fn part_below<'a>(
    alloc: Global,
    text: &'a str,
    header: &str,
) -> Result<Option<&'a str>, AllocError> {
    let mut begin = String::from_str(alloc, "\n")?;
    push_line(&mut begin, header)?;
    match text.split_once(begin.as_str()) {
        Some((_, part)) => Ok(Some(part)),
        None => Ok(None),
    }
}

/// The lines A and B of `A / B`, a line feed before them and one after each.
fn framed_run(alloc: Global, lines: &str) -> Result<String, AllocError> {
    let mut run = String::from_str(alloc, "\n")?;
    for line in lines.split(" / ") {
        push_line(&mut run, line)?;
    }
    Ok(run)
}

/// The lines up to the next card or background, a line feed before them and one after each.
fn framed_part(alloc: Global, part: &str) -> Result<String, AllocError> {
    let mut framed = String::from_str(alloc, "\n")?;
    for line in part.lines() {
        if line.starts_with("card ") || line.starts_with("background ") {
            break;
        }
        push_line(&mut framed, line)?;
    }
    Ok(framed)
}

/// Whether the lines A and B of `HEADER: A / B` stand one after the other in the part of a stack text that the
/// line HEADER begins; one line alone stands there.
fn stands_in(alloc: Global, text: &str, wanted: &str) -> Result<bool, AllocError> {
    let Some((header, lines)) = wanted.split_once(": ") else {
        return Ok(false);
    };
    let Some(part) = part_below(alloc, text, header)? else {
        return Ok(false);
    };
    let run = framed_run(alloc, lines)?;
    Ok(framed_part(alloc, part)?.as_str().contains(run.as_str()))
}

/// Whether the text that was kept under a name is this one.
fn is_kept(kept: &[NamedText], name: &str, shown: &str) -> bool {
    for one in kept {
        if one.name.as_str() == name {
            return one.text.as_str() == shown;
        }
    }
    false
}

/// Whether a shown stack text passes a check of a row; `keep` keeps it.
fn passes(
    alloc: Global,
    check: &str,
    shown: &str,
    stack: &str,
    kept: &mut Vec<NamedText>,
) -> Result<bool, AllocError> {
    if let Some(name) = check.strip_prefix("keep ") {
        let name = String::from_str(alloc, name)?;
        let text = String::from_str(alloc, shown)?;
        kept.push(NamedText { name, text })?;
        return Ok(true);
    }
    if let Some(wanted) = check.strip_prefix("in ") {
        return stands_in(alloc, shown, wanted);
    }
    Ok(match check.strip_prefix("same ") {
        Some(name) => is_kept(kept.as_slice(), name, shown),
        None => check == "stack" && shown == stack,
    })
}

/// The answers that are still to be compared, and what is kept of those before.
#[derive(Drop)]
struct Comparison<'a> {
    rest: &'a str,
    /// The messages that were sent, and how many of them were compared.
    messages: &'a [HeardMessage],
    compared: usize,
    /// The answer that checks look at, up to the next input line.
    checked: Option<&'a str>,
    kept: Vec<NamedText>,
}

impl<'a> Comparison<'a> {
    /// The answer that a check looks at: the one of the check before it, or else the next.
    fn checked(&mut self) -> Option<&'a str> {
        if self.checked.is_none() {
            let (answer, after) = until_ok(self.rest)?;
            self.rest = after;
            self.checked = Some(answer);
        }
        self.checked
    }

    /// Whether the next message is the one of a line: its name, and the id of its object.
    fn is_next_message(&mut self, wanted: &str) -> bool {
        let next = self.messages.get(self.compared);
        self.compared = self.compared.saturating_add(1);
        match (next, wanted.split_once(" ")) {
            (Some(message), Some((name, object))) => {
                message.name.as_slice() == name.as_bytes() && object.parse() == Ok(message.object)
            }
            _ => false,
        }
    }

    /// What comes after the last line of the row, or none. Where a row names messages, it names all.
    fn more(&self) -> Option<&'static str> {
        if self.rest != "" {
            return Some("nothing more");
        }
        if 0 < self.compared && self.compared < self.messages.len() {
            return Some("no more messages");
        }
        None
    }

    /// Whether the next answer passes a check.
    fn is_checked(&mut self, alloc: Global, check: &str, stack: &str) -> Result<bool, AllocError> {
        let Some(answer) = self.checked() else {
            return Ok(false);
        };
        let shown = shown_in(alloc, answer)?;
        passes(alloc, check, shown.as_str(), stack, &mut self.kept)
    }

    /// Whether the next answers, or the next message, are those of a line of the row; an input line has none of its
    /// own.
    fn meets(&mut self, alloc: Global, line: &str, stack: &str) -> Result<bool, AllocError> {
        if let Some(wanted) = line.strip_prefix("= ") {
            let (answer, after) = self.rest.split_once("\n").unwrap_or(("", ""));
            self.rest = after;
            return Ok(answer == wanted);
        }
        if let Some(wanted) = line.strip_prefix("! ") {
            return Ok(self.is_next_message(wanted));
        }
        if let Some(check) = line.strip_prefix("~ ") {
            return self.is_checked(alloc, check, stack);
        }
        self.checked = None;
        Ok(true)
    }
}

/// The first line `? TEXT` of a row that isn't the next line of what was explained, or none. Where a row has such
/// lines, they are all that was explained.
pub fn first_unexplained<'a>(body: &'a str, explained: &str) -> Option<&'a str> {
    let mut rest = explained.lines();
    let mut has_any = false;
    for line in body.lines() {
        if let Some(wanted) = line.strip_prefix("? ") {
            has_any = true;
            if rest.next() != Some(wanted) {
                return Some(line);
            }
        }
    }
    if has_any && rest.next().is_some() {
        return Some("no more explained");
    }
    None
}

/// The first line of a row that its answers and messages don't meet, or none; the stack as it is shown at first.
pub fn first_unmet<'a, 'b>(
    alloc: Global,
    body: &'a str,
    answers: &'b str,
    messages: &'b [HeardMessage],
    stack: &str,
) -> Result<Option<&'a str>, AllocError> {
    let mut comparison = Comparison {
        rest: answers,
        messages,
        compared: 0,
        checked: None,
        kept: Vec::new(alloc),
    };
    for line in body.lines() {
        if !comparison.meets(alloc, line, stack)? {
            return Ok(Some(line));
        }
    }
    Ok(comparison.more())
}
