//! Writing the text of a stack, line by line, to a writer.
//!
//! Lines go to a buffer, which is handed to the writer when it is full. So what is between the two is never the whole.

ghost use Rattle.std.specs.Prelude.{◌≡◌, [], List, ℕ, All, IsTrue, flat_map, map, OnOk, IfOk};
ghost use Rattle.std.specs.Io.KnownBytes.{Appends};
ghost use Rattle.object_table.specs.Objects.{has_kind, is_background, is_card, parts_at};
ghost use Rattle.object_table.specs.WellFormed.{IsWellFormed};
ghost use Rattle.stack_text.specs.Laws.{Spells, IsOfVersion};
ghost use Rattle.stack_text.specs.Listing.{part_of, keeping_of, background_sheet, card_sheet, document_of, spelling};
ghost use Rattle.stack_text.specs.Spelling.{part_lines, keeping_lines, parts_lines, background_lines, card_lines};
ghost use Rattle.stack_text.specs.Spelling.{document_lines};
ghost use Rattle.stack_text.specs.declared.sheets.Version.TheVariants.{Second as second};
ghost use Rattle.stack_file.specs.Passing.{Passes};

use crate::objects::{put_background_head, put_card_head, put_head, put_keeping, put_part};
use crate::put::{number_line, put_line};
use object_table::{Id, LayerId, Stack};
use std::alloc::{AllocError, Global};
use std::io;
use std::io::Write;

/// How many bytes a buffer has before it is handed over.
const FULL: usize = 65_536;

/// Hands all that is in a buffer to a writer.
fn hand_over<W: Write>(buffer: &mut Vec<u8>, out: &mut W) -> io::Result<()>
    ensures written { OnOk result (Appends (W.contents out.old) (W.contents out.new) buffer.old.items) }
    ensures empty { OnOk result (buffer.new.items ≡ []) }
{
    out.write_all(buffer.as_slice())?;
    buffer.clear();
    Ok(())
}

/// Hands over a buffer that is full.
fn pass_on<W: Write>(buffer: &mut Vec<u8>, out: &mut W) -> io::Result<()>
    ensures { OnOk result (Passes [] (W.contents out.old) buffer.old.items (W.contents out.new) buffer.new.items) }
{
    if buffer.len() < FULL {
        return Ok(());
    }
    hand_over(buffer, out)
}

fn put_each_part<W: Write>(
    buffer: &mut Vec<u8>,
    out: &mut W,
    stack: &Stack,
    card: Id,
    ids: &[Id],
) -> io::Result<()>
    ensures { OnOk result (Passes (flat_map (part_lines second) (map (part_of stack.now.content card) ids.now))
        (W.contents out.old) buffer.old.items (W.contents out.new) buffer.new.items) }
{
    for id in ids {
        put_part(buffer, stack, card, *id)?;
        pass_on(buffer, out)?;
    }
    Ok(())
}

/// The parts of a card, or with 0 in place of a card those of a background, and how many there are.
fn put_parts<W: Write>(
    buffer: &mut Vec<u8>,
    out: &mut W,
    stack: &Stack,
    card: Id,
    ids: &[Id],
) -> io::Result<()>
    ensures { OnOk result (Passes (parts_lines second (map (part_of stack.now.content card) ids.now))
        (W.contents out.old) buffer.old.items (W.contents out.new) buffer.new.items) }
{
    number_line(buffer, b"parts", ids.len())?;
    put_each_part(buffer, out, stack, card, ids)
}

fn put_keepings<W: Write>(
    buffer: &mut Vec<u8>,
    out: &mut W,
    stack: &Stack,
    card: Id,
    ids: &[Id],
) -> io::Result<()>
    ensures { OnOk result (Passes (flat_map (keeping_lines second) (map (keeping_of stack.now.content card) ids.now))
        (W.contents out.old) buffer.old.items (W.contents out.new) buffer.new.items) }
{
    for id in ids {
        put_keeping(buffer, stack, card, *id)?;
        pass_on(buffer, out)?;
    }
    Ok(())
}

/// The parts of a background.
fn parts_on(stack: &Stack, id: Id) -> &[Id]
    requires { IsTrue (has_kind is_background stack.now.content id) }
    ensures { result.now ≡ parts_at stack.now.content id }
{
    match stack.parts(LayerId::OfBackground(id)) {
        Some(parts) => parts.as_slice(),
        None => &[],
    }
}

/// The parts of a card itself.
fn parts_of(stack: &Stack, id: Id) -> &[Id]
    requires { IsTrue (has_kind is_card stack.now.content id) }
    ensures { result.now ≡ parts_at stack.now.content id }
{
    match stack.parts(LayerId::OfCard(id)) {
        Some(parts) => parts.as_slice(),
        None => &[],
    }
}

fn put_background<W: Write>(
    buffer: &mut Vec<u8>,
    out: &mut W,
    stack: &Stack,
    id: Id,
) -> io::Result<()>
    requires { IsTrue (has_kind is_background stack.now.content id) }
    ensures { OnOk result (Passes (background_lines second (background_sheet stack.now.content id))
        (W.contents out.old) buffer.old.items (W.contents out.new) buffer.new.items) }
{
    put_background_head(buffer, stack, id)?;
    pass_on(buffer, out)?;
    put_parts(buffer, out, stack, 0, parts_on(stack, id))
}

fn put_card<W: Write>(buffer: &mut Vec<u8>, out: &mut W, stack: &Stack, id: Id) -> io::Result<()>
    requires formed { IsWellFormed stack.now.content }
    requires card { IsTrue (has_kind is_card stack.now.content id) }
    ensures { OnOk result (Passes (card_lines second (card_sheet stack.now.content id))
        (W.contents out.old) buffer.old.items (W.contents out.new) buffer.new.items) }
{
    let background = put_card_head(buffer, stack, id)?;
    pass_on(buffer, out)?;
    put_parts(buffer, out, stack, id, parts_of(stack, id))?;
    put_keepings(buffer, out, stack, id, parts_on(stack, background))
}

fn put_backgrounds<W: Write>(
    buffer: &mut Vec<u8>,
    out: &mut W,
    stack: &Stack,
    ids: &[Id],
) -> io::Result<()>
    requires { All (λ id. IsTrue (has_kind is_background stack.now.content id)) ids.now }
    ensures { OnOk result (Passes (flat_map (background_lines second)
        (map (background_sheet stack.now.content) ids.now))
        (W.contents out.old) buffer.old.items (W.contents out.new) buffer.new.items) }
{
    for id in ids {
        put_background(buffer, out, stack, *id)?;
    }
    Ok(())
}

fn put_cards<W: Write>(
    buffer: &mut Vec<u8>,
    out: &mut W,
    stack: &Stack,
    ids: &[Id],
) -> io::Result<()>
    requires formed { IsWellFormed stack.now.content }
    requires cards { All (λ id. IsTrue (has_kind is_card stack.now.content id)) ids.now }
    ensures { OnOk result (Passes (flat_map (card_lines second) (map (card_sheet stack.now.content) ids.now))
        (W.contents out.old) buffer.old.items (W.contents out.new) buffer.new.items) }
{
    for id in ids {
        put_card(buffer, out, stack, *id)?;
    }
    Ok(())
}

/// All lines of a stack. The last ones are left in the buffer.
fn put_stack<W: Write>(buffer: &mut Vec<u8>, out: &mut W, stack: &Stack) -> io::Result<()>
    requires { IsWellFormed stack.now.content }
    ensures { OnOk result (Passes (document_lines second (document_of stack.now.content))
        (W.contents out.old) buffer.old.items (W.contents out.new) buffer.new.items) }
{
    put_head(buffer, stack)?;
    let backgrounds = stack.backgrounds();
    number_line(buffer, b"backgrounds", backgrounds.len())?;
    put_backgrounds(buffer, out, stack, backgrounds.as_slice())?;
    let cards = stack.cards();
    number_line(buffer, b"cards", cards.len())?;
    put_cards(buffer, out, stack, cards.as_slice())?;
    put_line(buffer, b"end")?;
    Ok(())
}

/// Writes the text of a stack in version 2, its only spelling there. It takes time near linear in the text.
///
/// It takes memory for the text of one object and some 64 KiB, and not for the text of the stack. It fails where the
/// writer does, and by `OutOfMemory` where a growth of memory is refused; the writer has a part of the text then.
pub fn write_to<W: Write>(alloc: Global, stack: &Stack, out: &mut W) -> io::Result<()>
    requires { IsWellFormed stack.now.content }
    ensures { OnOk result (Appends (W.contents out.old) (W.contents out.new) (spelling second stack.now.content)) }
{
    let mut buffer = Vec::new(alloc);
    put_stack(&mut buffer, out, stack)?;
    hand_over(&mut buffer, out)
}

/// The text of a stack in version 2, its only spelling there. It takes time near linear in the text.
pub fn write(alloc: Global, stack: &Stack) -> Result<Vec<u8>, AllocError>
    requires { IsWellFormed stack.now.content }
    ensures text { IfOk result (λ v. v.items ≡ spelling second stack.now.content) }
    ensures spells { IfOk result (λ v. Spells v.items stack.now.content) }
    ensures only { (bytes : List ℕ) → IsOfVersion second bytes → Spells bytes stack.now.content
        → IfOk result (λ v. v.items ≡ bytes) }
{
    let mut text = Vec::new(alloc);
    match write_to(alloc, stack, &mut text) {
        Ok(()) => Ok(text),
        Err(_) => Err(AllocError),
    }
}
