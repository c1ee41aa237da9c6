//! Texts that are read in turn, some of them again.

use crate::cases::text_of;
use ht_parse::{ParseError, RecentTexts, parse_expr, parse_lines, parse_message};
use ht_values::Text;
use std::alloc::Global;
use std::rc::Rc;

/// What a text is read as.
#[derive(Clone, Copy)]
enum Kind {
    Lines,
    Message,
    Expression,
}

use Kind::{Expression, Lines, Message};

/// A text, and what it is read as.
struct Read(Kind, &'static [u8]);

/// Trees of one kind that stand beside one another have different depths.
const READS: &[Read] = &[
    Read(Lines, b"beep"),
    Read(Expression, b"1"),
    Read(Message, b"greet"),
    Read(Lines, b"put 1 + 2"),
    Read(Lines, b"beep"),
    Read(Expression, b"1 + 2"),
    Read(Expression, b"1"),
    Read(Message, b"greet 1"),
    Read(Message, b"greet"),
    Read(Lines, b"if a then\rput 1 + 2\rend if"),
    Read(Lines, b"put 1 +"),
    Read(Lines, b"put 1 +"),
    Read(Lines, b"put (1 + 2) * 3 & x"),
    Read(Lines, b"put 1"),
    Read(Lines, b"put 1 + 2"),
    Read(Lines, b"beep"),
    Read(Lines, b"put 1"),
    Read(Expression, b"-(1 + 2)"),
    Read(Expression, b"1 +"),
    Read(Expression, b"not (1 = -2)"),
    Read(Expression, b"2"),
    Read(Expression, b"1 + 2"),
    Read(Expression, b"1 +"),
    Read(Expression, b"-(1 + 2)"),
    Read(Expression, b"1"),
    Read(Message, b"greet 1 + 2"),
    Read(Message, b"put 1"),
    Read(Message, b"thank 1"),
    Read(Message, b"thank -(1 + 2)"),
    Read(Message, b"thank"),
    Read(Message, b"put 1"),
    Read(Message, b"greet 1 + 2"),
    Read(Message, b"greet"),
    // One text, read as each.
    Read(Lines, b"greet"),
    Read(Expression, b"greet"),
    Read(Message, b"greet"),
];

/// The depth of the tree that a text is, as parsed anew.
fn depth_of(alloc: Global, kind: Kind, text: &Text) -> Result<usize, ParseError> {
    match kind {
        Lines => Ok(parse_lines(alloc, text)?.depth()),
        Message => Ok(parse_message(alloc, text)?.depth()),
        Expression => Ok(parse_expr(alloc, text)?.depth()),
    }
}

/// The depth of the tree that a text is, where the last texts are kept.
fn kept_depth_of(
    alloc: Global,
    kept: &RecentTexts,
    kind: Kind,
    text: &Text,
) -> Result<usize, ParseError> {
    match kind {
        Lines => Ok(kept.lines(alloc, text)?.depth()),
        Message => Ok(kept.message(alloc, text)?.depth()),
        Expression => Ok(kept.expression(alloc, text)?.depth()),
    }
}

fn is_answered(alloc: Global, kept: &RecentTexts, read: &Read) -> bool {
    match text_of(alloc, read.1) {
        Some(text) => {
            kept_depth_of(alloc, kept, read.0, &text) == depth_of(alloc, read.0, &text)
        }
        None => false,
    }
}

/// The number of the first text that is answered otherwise than it is parsed, if there is one.
fn first_other(alloc: Global, reads: &[Read]) -> Option<usize> {
    let kept = RecentTexts::new(alloc);
    for (i, read) in reads.iter().enumerate() {
        if !is_answered(alloc, &kept, read) {
            return Some(i);
        }
    }
    None
}

/// Whether lines that are read twice are one tree.
fn is_read_once(alloc: Global, kept: &RecentTexts, lines: &[u8]) -> Option<bool> {
    let text = text_of(alloc, lines)?;
    let first = kept.lines(alloc, &text).ok()?;
    let second = kept.lines(alloc, &text).ok()?;
    Some(Rc::ptr_eq(&first, &second))
}

/// Whether a text is met for the first time just once, also where it is parsed in between.
fn is_met_once(alloc: Global, kept: &RecentTexts, expression: &[u8]) -> Option<bool> {
    let text = text_of(alloc, expression)?;
    let is_new = kept.meet_expression(alloc, &text);
    let _parsed = kept.expression(alloc, &text).ok()?;
    Some(is_new && !kept.meet_expression(alloc, &text))
}

#[test]
fn texts_are_answered_as_they_are_parsed(rt: HostRuntime) {
    let alloc = rt.alloc();
    assert!(rt; first_other(alloc, READS) == None);
    assert!(rt; is_read_once(alloc, &RecentTexts::new(alloc), b"put 1 + 2") == Some(true));
    assert!(rt; is_met_once(alloc, &RecentTexts::new(alloc), b"1 + 2") == Some(true));
}
