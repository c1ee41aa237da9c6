//! Lines of a text, written at its end.

ghost use Rattle.std.specs.Prelude.{◌≡◌, ◌≤◌, ◌==◌, ◌∷◌, ◌++◌, [], codes, count_by, decimal, length, map, OnOk};
ghost use Rattle.std.specs.List.{slice_split};
ghost use Rattle.ht_values.specs.Delimited.{delimited};
ghost use Rattle.stack_text.specs.Spelling.{name_line as name_spelled, layer_lines, cant_delete_of as cant_delete_in};
ghost use Rattle.stack_text.specs.Words.{numbered, flagged, barred, spelled_flag, block as block_lines};
ghost use Rattle.stack_file.specs.Lines.{with_lines};

use crate::forms::around;
use itoa::Buffer;
use object_table::{Id, Kind, Object};
use stack_text::spell_into;
use std::alloc::AllocError;

fn put(out: &mut Vec<u8>, bytes: &[u8]) -> Result<(), AllocError>
    ensures { OnOk result (out.new.items ≡ out.old.items ++ bytes.now) }
{
    out.extend_from_slice(bytes)?;
    Ok(())
}

pub(crate) fn put_line(out: &mut Vec<u8>, line: &[u8]) -> Result<(), AllocError>
    ensures { OnOk result (out.new.items ≡ with_lines out.old.items (line.now ∷ [])) }
{
    put(out, line)?;
    put(out, b"\n")
}

/// A space and a number.
fn put_number(out: &mut Vec<u8>, number: usize) -> Result<(), AllocError>
    ensures { OnOk result (out.new.items ≡ out.old.items ++ 32 ∷ decimal number) }
{
    let mut digits = Buffer::new();
    put(out, b" ")?;
    put(out, digits.format(number).as_bytes())
}

/// A key and a number.
fn put_numbered(out: &mut Vec<u8>, key: &[u8], number: usize) -> Result<(), AllocError>
    ensures { OnOk result (out.new.items ≡ out.old.items ++ numbered key.now number) }
{
    put(out, key)?;
    put_number(out, number)
}

/// A space and a flag, and the end of the line.
fn put_flag(out: &mut Vec<u8>, flag: bool) -> Result<(), AllocError>
    ensures { OnOk result (out.new.items ≡ out.old.items ++ (32 ∷ (spelled_flag flag ++ 10 ∷ []))) }
{
    if flag {
        put(out, b" true\n")
    } else {
        put(out, b" false\n")
    }
}

pub(crate) fn number_line(out: &mut Vec<u8>, key: &[u8], number: usize) -> Result<(), AllocError>
    ensures { OnOk result (out.new.items ≡ with_lines out.old.items (numbered key.now number ∷ [])) }
{
    put_numbered(out, key, number)?;
    put(out, b"\n")
}

/// A key and two numbers.
pub(crate) fn numbers_line(
    out: &mut Vec<u8>,
    key: &[u8],
    first: usize,
    second: usize,
) -> Result<(), AllocError>
    ensures { OnOk result (out.new.items ≡ with_lines out.old.items (numbered (numbered key.now first) second ∷ [])) }
{
    put_numbered(out, key, first)?;
    put_number(out, second)?;
    put(out, b"\n")
}

pub(crate) fn flag_line(out: &mut Vec<u8>, key: &[u8], flag: bool) -> Result<(), AllocError>
    ensures { OnOk result (out.new.items ≡ with_lines out.old.items (flagged key.now flag ∷ [])) }
{
    put(out, key)?;
    put_flag(out, flag)
}

/// A key, an id and a flag.
pub(crate) fn hilite_line(out: &mut Vec<u8>, button: Id, lit: bool) -> Result<(), AllocError>
    ensures { OnOk result (out.new.items
        ≡ with_lines out.old.items (flagged (numbered (codes "hilite") button) lit ∷ [])) }
{
    put_numbered(out, b"hilite", button as usize)?;
    put_flag(out, lit)
}

pub(crate) fn name_line(out: &mut Vec<u8>, name: &[u8]) -> Result<(), AllocError>
    ensures { OnOk result (out.new.items ≡ with_lines out.old.items (name_spelled name.now ∷ [])) }
{
    put(out, b"name |")?;
    spell_into(out, name)?;
    put(out, b"\n")
}

fn returns_in(text: &[u8]) -> usize
    ensures value { result ≡ count_by (λ b. b == 13) text.now }
    ensures few { result ≤ length text.now }
{
    let mut returns = 0;
    for byte in text {
        if *byte == b'\r' {
            returns += 1;
        }
    }
    returns
}

/// How many pieces a text has.
#[tactic(auto, using(crate::proofs::Pieced::pieces_counted))]
fn piece_count(text: &[u8]) -> usize
    ensures { result ≡ length (delimited 13 text.now) }
{
    if text.is_empty() {
        0
    } else {
        returns_in(text) + 1
    }
}

/// A piece of a text, on a line of its own.
fn put_piece(out: &mut Vec<u8>, piece: &[u8]) -> Result<(), AllocError>
    ensures { OnOk result (out.new.items ≡ with_lines out.old.items (barred piece.now ∷ [])) }
{
    put(out, b"|")?;
    spell_into(out, piece)?;
    put(out, b"\n")
}

/// A line for each piece of a text that isn't empty.
fn put_each_piece(out: &mut Vec<u8>, text: &[u8]) -> Result<(), AllocError>
    ensures { OnOk result (out.new.items
        ≡ with_lines out.old.items (map barred (slice_split (λ b. b == 13) text.now))) }
{
    let mut rest = text;
    for _ in 0..text.len() {
        let Some((piece, after)) = around(rest, b'\r') else {
            break;
        };
        put_piece(out, piece)?;
        rest = after;
    }
    put_piece(out, rest)
}

/// A line for each piece of a text.
#[tactic(auto, using(crate::proofs::Pieced::no_pieces, crate::proofs::Pieced::some_pieces))]
fn put_pieces(out: &mut Vec<u8>, text: &[u8]) -> Result<(), AllocError>
    ensures { OnOk result (out.new.items ≡ with_lines out.old.items (map barred (delimited 13 text.now))) }
{
    if text.is_empty() {
        Ok(())
    } else {
        put_each_piece(out, text)
    }
}

/// A key with the number of a text's pieces, and the pieces.
pub(crate) fn block(out: &mut Vec<u8>, key: &[u8], text: &[u8]) -> Result<(), AllocError>
    ensures { OnOk result (out.new.items ≡ with_lines out.old.items (block_lines key.now text.now)) }
{
    number_line(out, key, piece_count(text))?;
    put_pieces(out, text)
}

/// The text of a field that a card keeps.
pub(crate) fn text_block(out: &mut Vec<u8>, field: Id, text: &[u8]) -> Result<(), AllocError>
    ensures { OnOk result (out.new.items
        ≡ with_lines out.old.items (block_lines (numbered (codes "text") field) text.now)) }
{
    numbers_line(out, b"text", field as usize, piece_count(text))?;
    put_pieces(out, text)
}

fn cant_delete_of(kind: Kind) -> bool
    ensures { result ≡ cant_delete_in kind }
{
    match kind {
        Kind::Background { cant_delete } | Kind::Card { cant_delete, .. } => cant_delete,
        _ => false,
    }
}

/// The name of a background or a card, whether it can't be deleted, and its script.
pub(crate) fn layer(out: &mut Vec<u8>, object: &Object) -> Result<(), AllocError>
    ensures { OnOk result (out.new.items
        ≡ with_lines out.old.items (layer_lines object.now.name object.now.script (cant_delete_in object.now.kind))) }
{
    name_line(out, object.name.as_text().as_slice())?;
    flag_line(out, b"cantDelete", cant_delete_of(object.kind))?;
    block(out, b"script", object.script.as_slice())
}
