//! Texts and their trees. A line `KIND TEXT` says what its text is read as. In a text `|` stands for a return and `~`
//! for the byte 0xC2, and `[`, `]` and `#` for 0xB2, 0xB3 and 0xAD. A line `nested N M` is the expression of N opening
//! parentheses, a 1, and M closing ones.

mod expression;
mod printed;
mod script;
mod statement;

use crate::trees::expression::{print_expr, print_part};
use crate::trees::printed::Printed;
use crate::trees::script::{print_message, print_script, print_typing};
use crate::trees::statement::print_lines;
use ht_parse::{
    ParseError, parse_expr, parse_lines, parse_message, parse_part, parse_script, parse_type,
};
use ht_values::Text;
use std::alloc::{AllocError, Global};

/// The byte of a text that a byte of its line stands for.
fn meant(byte: u8) -> u8 {
    match byte {
        b'|' => b'\r',
        b'~' => 0xC2,
        b'[' => 0xB2,
        b']' => 0xB3,
        b'#' => 0xAD,
        _ => byte,
    }
}

/// The text that is written so in a line.
fn written(alloc: Global, text: &str) -> Result<Vec<u8>, AllocError> {
    let mut bytes = Vec::new(alloc);
    for byte in text.as_bytes() {
        bytes.push(meant(*byte))?;
    }
    Ok(bytes)
}

/// Writes a byte so many times.
fn push_times(bytes: &mut Vec<u8>, byte: u8, times: u16) -> Result<(), AllocError> {
    for _ in 0..times {
        bytes.push(byte)?;
    }
    Ok(())
}

/// A 1 in as many opening and closing parentheses as the two numbers say.
fn nested(alloc: Global, counts: &str) -> Result<Vec<u8>, AllocError> {
    let (opening, closing) = counts.split_once(" ").unwrap_or(("0", "0"));
    let mut bytes = Vec::new(alloc);
    push_times(&mut bytes, b'(', opening.parse().unwrap_or(0))?;
    bytes.push(b'1')?;
    push_times(&mut bytes, b')', closing.parse().unwrap_or(0))?;
    Ok(bytes)
}

/// The text of a line of this kind.
fn text_in(alloc: Global, kind: &str, rest: &str) -> anyhow::Result<Text> {
    let bytes = if kind == "nested" {
        nested(alloc, rest)?
    } else {
        written(alloc, rest)?
    };
    Ok(Text::from_vec(bytes)?)
}

/// Prints the tree of a text that is read as its kind says, or that there is no such kind.
fn print_as(alloc: Global, kind: &str, text: &Text, out: &mut Printed) -> Result<(), ParseError> {
    match kind {
        "expr" | "nested" => print_expr(out, &parse_expr(alloc, text)?),
        "lines" => print_lines(out, &parse_lines(alloc, text)?),
        "script" => print_script(out, &parse_script(alloc, text)?),
        "part" => print_part(out, &parse_part(alloc, text)?),
        "type" => print_typing(out, &parse_type(alloc, text)?),
        "message" => print_message(out, &parse_message(alloc, text)?),
        _ => out.word("no such kind"),
    }
    Ok(())
}

/// The tree of a line's text, `syntax` where the text isn't in the grammar, or that the line's first word is no kind.
pub fn tree_of(alloc: Global, line: &str) -> anyhow::Result<Vec<u8>> {
    let (kind, rest) = line.split_once(" ").unwrap_or((line, ""));
    let text = text_in(alloc, kind, rest)?;
    let mut out = Printed::new(alloc);
    match print_as(alloc, kind, &text, &mut out) {
        Ok(()) => {}
        Err(ParseError::Syntax(_)) => out.word("syntax"),
        Err(ParseError::Memory) => out.cut(),
    }
    Ok(out.into_bytes()?)
}
