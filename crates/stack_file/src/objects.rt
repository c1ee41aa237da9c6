//! The lines of single objects, written at the end of a text.

ghost use Rattle.std.specs.Prelude.{◌≡◌, ◌∷◌, [], IsTrue, codes, unwrap_or, false, OnOk, IfOk};
ghost use Rattle.object_table.specs.PartContents.{text_at, hilite_at};
ghost use Rattle.object_table.specs.Objects.{has_kind, is_background, is_card};
ghost use Rattle.object_table.specs.WellFormed.{IsWellFormed};
ghost use Rattle.stack_text.specs.Document.{background_or};
ghost use Rattle.stack_text.specs.Listing.{object_or, part_of, keeping_of};
ghost use Rattle.stack_text.specs.Spelling.{header, name_line as name_spelled, script_lines, lines_by, part_lines};
ghost use Rattle.stack_text.specs.Spelling.{keeping_lines, layer_lines, cant_delete_of};
ghost use Rattle.stack_text.specs.Words.{numbered};
ghost use Rattle.stack_text.specs.declared.sheets.Version.TheVariants.{Second as second};
ghost use Rattle.stack_text.specs.declared.sheets.PartContent.TheVariants.{Nothing, Written, Lit};
ghost use Rattle.object_table.specs.declared.object.Kind.TheVariants.{CardButton, BackgroundButton, CardField};
ghost use Rattle.object_table.specs.declared.object.Kind.TheVariants.{BackgroundField};
ghost use Rattle.stack_file.specs.Lines.{with_lines};

use crate::backgrounds::background_of;
use crate::put::{
    block, flag_line, hilite_line, layer, name_line, number_line, numbers_line, put_line,
    text_block,
};
use object_table::{Id, Kind, Object, Stack};
use std::alloc::AllocError;

/// The text that is kept for a field, empty where none is.
fn text_of(stack: &Stack, field: Id, card: Id) -> &[u8]
    ensures { result.now ≡ unwrap_or (text_at stack.now.content field card) [] }
{
    match stack.text(field, card) {
        Some(text) => text.as_slice(),
        None => &[],
    }
}

/// Whether a button is lit, by what is kept for it.
fn is_lit(stack: &Stack, button: Id, card: Id) -> bool
    ensures { result ≡ unwrap_or (hilite_at stack.now.content button card) false }
{
    stack.hilite(button, card).unwrap_or(false)
}

fn card_button(
    out: &mut Vec<u8>,
    id: Id,
    object: &Object,
    visible: bool,
    lit: bool,
) -> Result<(), AllocError>
    ensures { OnOk result (out.new.items
        ≡ with_lines out.old.items (lines_by second id object.now.name object.now.script Nothing
        (CardButton visible lit))) }
{
    number_line(out, b"button", id as usize)?;
    name_line(out, object.name.as_text().as_slice())?;
    flag_line(out, b"visible", visible)?;
    flag_line(out, b"hilite", lit)?;
    block(out, b"script", object.script.as_slice())
}

fn background_button(
    out: &mut Vec<u8>,
    id: Id,
    object: &Object,
    flags: (bool, bool),
    lit: bool,
) -> Result<(), AllocError>
    ensures { OnOk result (out.new.items
        ≡ with_lines out.old.items (lines_by second id object.now.name object.now.script (Lit lit)
        (BackgroundButton flags.0 flags.1))) }
{
    let (visible, shared_hilite) = flags;
    number_line(out, b"button", id as usize)?;
    name_line(out, object.name.as_text().as_slice())?;
    flag_line(out, b"visible", visible)?;
    flag_line(out, b"sharedHilite", shared_hilite)?;
    flag_line(out, b"hilite", lit)?;
    block(out, b"script", object.script.as_slice())
}

#[tactic(auto, using(crate::proofs::Adding::with_lines_append))]
fn card_field(
    out: &mut Vec<u8>,
    id: Id,
    object: &Object,
    flags: (bool, bool),
    text: &[u8],
) -> Result<(), AllocError>
    ensures { OnOk result (out.new.items
        ≡ with_lines out.old.items (lines_by second id object.now.name object.now.script (Written text.now)
        (CardField flags.0 flags.1))) }
{
    let (visible, lock_text) = flags;
    number_line(out, b"field", id as usize)?;
    name_line(out, object.name.as_text().as_slice())?;
    flag_line(out, b"visible", visible)?;
    flag_line(out, b"lockText", lock_text)?;
    block(out, b"script", object.script.as_slice())?;
    block(out, b"text", text)
}

#[tactic(auto, using(crate::proofs::Adding::with_lines_append))]
fn background_field(
    out: &mut Vec<u8>,
    id: Id,
    object: &Object,
    flags: (bool, bool, bool),
    text: &[u8],
) -> Result<(), AllocError>
    ensures { OnOk result (out.new.items
        ≡ with_lines out.old.items (lines_by second id object.now.name object.now.script (Written text.now)
        (BackgroundField flags.0 flags.1 flags.2))) }
{
    let (visible, lock_text, shared_text) = flags;
    number_line(out, b"field", id as usize)?;
    name_line(out, object.name.as_text().as_slice())?;
    flag_line(out, b"visible", visible)?;
    flag_line(out, b"lockText", lock_text)?;
    flag_line(out, b"sharedText", shared_text)?;
    block(out, b"script", object.script.as_slice())?;
    block(out, b"shared", text)
}

/// A part of a card, or with 0 in place of a card one of a background. What is no part has no line.
pub(crate) fn put_part(out: &mut Vec<u8>, stack: &Stack, card: Id, id: Id) -> Result<(), AllocError>
    ensures { OnOk result (out.new.items
        ≡ with_lines out.old.items (part_lines second (part_of stack.now.content card id))) }
{
    let Some(object) = stack.object(id) else {
        return Ok(());
    };
    match object.kind {
        Kind::CardButton { visible, hilite } => card_button(out, id, object, visible, hilite),
        Kind::BackgroundButton {
            visible,
            shared_hilite,
        } => {
            let lit = is_lit(stack, id, card);
            background_button(out, id, object, (visible, shared_hilite), lit)
        }
        Kind::CardField { visible, lock_text } => {
            let text = text_of(stack, id, card);
            card_field(out, id, object, (visible, lock_text), text)
        }
        Kind::BackgroundField {
            visible,
            lock_text,
            shared_text,
        } => {
            let text = text_of(stack, id, card);
            background_field(out, id, object, (visible, lock_text, shared_text), text)
        }
        Kind::Stack | Kind::Background { .. } | Kind::Card { .. } => Ok(()),
    }
}

/// What a card keeps for a part of its background.
pub(crate) fn put_keeping(
    out: &mut Vec<u8>,
    stack: &Stack,
    card: Id,
    id: Id,
) -> Result<(), AllocError>
    ensures { OnOk result (out.new.items
        ≡ with_lines out.old.items (keeping_lines second (keeping_of stack.now.content card id))) }
{
    let Some(object) = stack.object(id) else {
        return Ok(());
    };
    match object.kind {
        Kind::BackgroundButton { .. } => hilite_line(out, id, is_lit(stack, id, card)),
        Kind::CardField { .. } | Kind::BackgroundField { .. } => {
            text_block(out, id, text_of(stack, id, card))
        }
        Kind::Stack | Kind::Background { .. } | Kind::Card { .. } | Kind::CardButton { .. } => {
            Ok(())
        }
    }
}

/// The lines of a background before its parts.
pub(crate) fn put_background_head(
    out: &mut Vec<u8>,
    stack: &Stack,
    id: Id,
) -> Result<(), AllocError>
    requires { IsTrue (has_kind is_background stack.now.content id) }
    ensures { OnOk result (out.new.items
        ≡ with_lines out.old.items (numbered (codes "background") id
        ∷ layer_lines (object_or stack.now.content id).name (object_or stack.now.content id).script
        (cant_delete_of (object_or stack.now.content id).kind))) }
{
    let Some(object) = stack.object(id) else {
        unreachable!();
    };
    number_line(out, b"background", id as usize)?;
    layer(out, object)
}

/// The lines of a card before its parts. It gives the id of the card's background.
pub(crate) fn put_card_head(out: &mut Vec<u8>, stack: &Stack, id: Id) -> Result<Id, AllocError>
    requires formed { IsWellFormed stack.now.content }
    requires card { IsTrue (has_kind is_card stack.now.content id) }
    ensures lines { OnOk result (out.new.items
        ≡ with_lines out.old.items (numbered (numbered (codes "card") id)
        (background_or (object_or stack.now.content id).kind)
        ∷ layer_lines (object_or stack.now.content id).name (object_or stack.now.content id).script
        (cant_delete_of (object_or stack.now.content id).kind))) }
    ensures background { IfOk result (λ b. b ≡ background_or (object_or stack.now.content id).kind) }
    ensures there { IfOk result (λ b. IsTrue (has_kind is_background stack.now.content b)) }
{
    let Some(object) = stack.object(id) else {
        unreachable!();
    };
    let background = background_of(object.kind);
    numbers_line(out, b"card", id as usize, background as usize)?;
    layer(out, object)?;
    Ok(background)
}

/// The lines before the backgrounds.
pub(crate) fn put_head(out: &mut Vec<u8>, stack: &Stack) -> Result<(), AllocError>
    requires { IsWellFormed stack.now.content }
    ensures { OnOk result (out.new.items
        ≡ with_lines out.old.items (header second ∷ numbered (codes "next") stack.now.content.next
        ∷ name_spelled (object_or stack.now.content 0).name ∷ script_lines (object_or stack.now.content 0).script)) }
{
    let Some(object) = stack.object(0) else {
        unreachable!();
    };
    put_line(out, b"htstack 2")?;
    number_line(out, b"next", stack.next_id() as usize)?;
    name_line(out, object.name.as_text().as_slice())?;
    block(out, b"script", object.script.as_slice())
}
