//! A stack, built from what the lines of its text say, from the last to the first.

ghost use Rattle.std.specs.Prelude.{◌≡◌, ◌∷◌, [], map, IfOk, IfErr, OnOk, Ok};
ghost use Rattle.std.specs.FinMap.{insert};
ghost use Rattle.object_table.specs.Content.{Content};
ghost use Rattle.stack_text.specs.Document.{part_ids, sheet_ids};
ghost use Rattle.stack_text.specs.Listing.{content_of};
ghost use Rattle.stack_text.specs.Laws.{Spells};
ghost use Rattle.stack_text.specs.Reading.{Gives, Fails, document_at};
ghost use Rattle.stack_file.specs.Building.{with_contents, with_parts, with_keepings, with_list, with_rows, with_sheet};
ghost use Rattle.stack_file.specs.Building.{with_sheets, card_for as card_for_sheet, with_orders, with_all_sheets};
ghost use Rattle.stack_file.specs.Building.{with_document};
ghost use Rattle.stack_file.specs.Views.{sheet_seen, text_seen};

use crate::document::document;
use crate::room::open_sheets;
use crate::sheets::{SheetLines, TextLines};
use ht_values::Text;
use object_table::{FieldText, Id, IdList, Object, Stack};
use stack_text::{Keeping, Part, PartContent, ReadError};
use std::alloc::{AllocError, Global};

fn put_object(stack: &mut Stack, id: Id, object: Object) -> Result<(), AllocError>
    ensures { OnOk result (stack.new.content
        ≡ record stack.old.content { objects = insert stack.old.content.objects id object }) }
{
    stack.open_slot(id)?;
    let mut slot = Some(object);
    stack.swap_object(id, &mut slot);
    Ok(())
}

#[tactic(auto, using(crate::proofs::Built::opened))]
fn put_text(
    stack: &mut Stack,
    alloc: Global,
    field: Id,
    card: Id,
    text: Text,
) -> Result<(), AllocError>
    ensures { OnOk result (stack.new.content
        ≡ record stack.old.content { texts = insert stack.old.content.texts (field, card) text }) }
{
    stack.open_text(field, card)?;
    let mut slot = Some(FieldText::new(alloc, text)?);
    stack.swap_text(field, card, &mut slot);
    Ok(())
}

#[tactic(auto, using(crate::proofs::Built::opened))]
fn put_hilite(stack: &mut Stack, button: Id, card: Id, lit: bool) -> Result<(), AllocError>
    ensures { OnOk result (stack.new.content
        ≡ record stack.old.content { hilites = insert stack.old.content.hilites (button, card) lit }) }
{
    stack.open_hilite(button, card)?;
    let mut slot = Some(lit);
    stack.swap_hilite(button, card, &mut slot);
    Ok(())
}

/// What is kept for a part on a card, or on card 0 what is shared.
fn put_content(
    stack: &mut Stack,
    alloc: Global,
    card: Id,
    part: Id,
    content: PartContent,
) -> Result<(), AllocError>
    ensures { OnOk result (stack.new.content ≡ with_contents card ((part, content) ∷ []) stack.old.content) }
{
    match content {
        PartContent::Nothing => Ok(()),
        PartContent::Written(text) => put_text(stack, alloc, part, card, text),
        PartContent::Lit(lit) => put_hilite(stack, part, card, lit),
    }
}

fn put_part(stack: &mut Stack, alloc: Global, card: Id, part: Part) -> Result<(), AllocError>
    ensures { OnOk result (stack.new.content ≡ with_parts card (part ∷ []) stack.old.content) }
{
    let Part {
        id,
        object,
        content,
    } = part;
    put_object(stack, id, object)?;
    put_content(stack, alloc, card, id, content)
}

fn add_parts(
    stack: &mut Stack,
    alloc: Global,
    card: Id,
    parts: &mut Vec<Part>,
) -> Result<(), AllocError>
    ensures { OnOk result (stack.new.content ≡ with_parts card parts.old.items stack.old.content) }
{
    while let Some(part) = parts.pop() {
        put_part(stack, alloc, card, part)?;
    }
    Ok(())
}

fn put_keeping(
    stack: &mut Stack,
    alloc: Global,
    card: Id,
    keeping: Keeping,
) -> Result<(), AllocError>
    ensures { OnOk result (stack.new.content ≡ with_keepings card (keeping ∷ []) stack.old.content) }
{
    let Keeping { part, content } = keeping;
    put_content(stack, alloc, card, part, content)
}

fn add_keepings(
    stack: &mut Stack,
    alloc: Global,
    card: Id,
    keepings: &mut Vec<Keeping>,
) -> Result<(), AllocError>
    ensures { OnOk result (stack.new.content ≡ with_keepings card keepings.old.items stack.old.content) }
{
    while let Some(keeping) = keepings.pop() {
        put_keeping(stack, alloc, card, keeping)?;
    }
    Ok(())
}

fn ids_of_parts(alloc: Global, parts: &[Part]) -> Result<IdList, AllocError>
    ensures { IfOk result (λ l. l ≡ part_ids parts.now) }
{
    let mut ids = IdList::new(alloc);
    for part in parts {
        ids.push(part.id)?;
    }
    Ok(ids)
}

/// The list of a sheet's parts.
fn put_list(stack: &mut Stack, alloc: Global, id: Id, parts: &[Part]) -> Result<(), AllocError>
    ensures { OnOk result (stack.new.content ≡ with_list id parts.now stack.old.content) }
{
    stack.open_slot(id)?;
    let mut slot = Some(ids_of_parts(alloc, parts)?);
    stack.swap_parts(id, &mut slot);
    Ok(())
}

/// The list of a sheet's parts, what is kept for them, and the parts.
fn add_rows(
    stack: &mut Stack,
    alloc: Global,
    id: Id,
    card: Id,
    parts: &mut Vec<Part>,
    keepings: &mut Vec<Keeping>,
) -> Result<(), AllocError>
    ensures { OnOk result (stack.new.content ≡ with_rows id card parts.old.items keepings.old.items stack.old.content) }
{
    put_list(stack, alloc, id, parts.as_slice())?;
    add_keepings(stack, alloc, card, keepings)?;
    add_parts(stack, alloc, card, parts)
}

/// A background or a card with its parts, and what is kept for them.
fn add_sheet(
    stack: &mut Stack,
    alloc: Global,
    card: Id,
    sheet: SheetLines,
) -> Result<(), AllocError>
    ensures { OnOk result (stack.new.content ≡ with_sheet card (sheet_seen sheet) stack.old.content) }
{
    let SheetLines {
        id,
        object,
        mut parts,
        mut keepings,
    } = sheet;
    add_rows(stack, alloc, id, card, &mut parts, &mut keepings)?;
    put_object(stack, id, object)
}

/// The card for which the parts of a sheet are kept: 0 where they are shared.
fn card_for(shared: bool, id: Id) -> Id
    ensures { result ≡ card_for_sheet shared id }
{
    if shared { 0 } else { id }
}

fn add_sheets(
    stack: &mut Stack,
    alloc: Global,
    shared: bool,
    sheets: &mut Vec<SheetLines>,
) -> Result<(), AllocError>
    ensures { OnOk result (stack.new.content ≡ with_sheets shared (map sheet_seen sheets.old.items) stack.old.content) }
{
    while let Some(sheet) = sheets.pop() {
        add_sheet(stack, alloc, card_for(shared, sheet.id), sheet)?;
    }
    Ok(())
}

fn ids_of_sheets(alloc: Global, sheets: &[SheetLines]) -> Result<IdList, AllocError>
    ensures { IfOk result (λ l. l ≡ sheet_ids (map sheet_seen sheets.now)) }
{
    let mut ids = IdList::new(alloc);
    for sheet in sheets {
        ids.push(sheet.id)?;
    }
    Ok(ids)
}

/// The orders of the backgrounds and of the cards.
fn set_orders(
    stack: &mut Stack,
    alloc: Global,
    backgrounds: &[SheetLines],
    cards: &[SheetLines],
) -> Result<(), AllocError>
    ensures { OnOk result (stack.new.content
        ≡ with_orders (map sheet_seen backgrounds.now) (map sheet_seen cards.now) stack.old.content) }
{
    let mut order = ids_of_sheets(alloc, cards)?;
    stack.swap_order(&mut order);
    let mut order = ids_of_sheets(alloc, backgrounds)?;
    stack.swap_backgrounds(&mut order);
    Ok(())
}

/// The backgrounds and the cards that the lines list, and their orders.
fn add_all_sheets(
    stack: &mut Stack,
    alloc: Global,
    backgrounds: &mut Vec<SheetLines>,
    cards: &mut Vec<SheetLines>,
) -> Result<(), AllocError>
    ensures { OnOk result (stack.new.content
        ≡ with_all_sheets (map sheet_seen backgrounds.old.items) (map sheet_seen cards.old.items) stack.old.content) }
{
    set_orders(stack, alloc, backgrounds.as_slice(), cards.as_slice())?;
    open_sheets(stack, alloc, backgrounds.as_slice(), cards.as_slice())?;
    add_sheets(stack, alloc, false, cards)?;
    add_sheets(stack, alloc, true, backgrounds)
}

fn add_document(stack: &mut Stack, alloc: Global, lines: TextLines) -> Result<(), AllocError>
    ensures { OnOk result (stack.new.content ≡ with_document (text_seen lines) stack.old.content) }
{
    let TextLines {
        mut next,
        stack: object,
        mut backgrounds,
        mut cards,
    } = lines;
    stack.swap_next(&mut next);
    add_all_sheets(stack, alloc, &mut backgrounds, &mut cards)?;
    put_object(stack, 0, object)
}

/// The stack that the lines list.
pub(crate) fn build(alloc: Global, lines: TextLines) -> Result<Stack, AllocError>
    ensures { IfOk result (λ s. s.content ≡ content_of (text_seen lines)) }
{
    let mut stack = Stack::blank(alloc);
    add_document(&mut stack, alloc, lines)?;
    Ok(stack)
}

/// The stack that the bytes spell, in version 1 or 2 of the stack text: this project's profile. The
/// bytes are one stack's text, whole, and no other's. `Memory` where a growth was refused; else `File`,
/// the fault of the first line at fault. Takes time near to linear in the bytes and in the greatest id.
pub fn read(alloc: Global, bytes: &[u8]) -> Result<Stack, ReadError>
    ensures found { IfOk result (λ s. Spells bytes.now s.content) }
    ensures only { (s : Content) → Spells bytes.now s → Gives (λ r. r.content) result (Ok s) }
    ensures fault { IfErr result (λ e. Fails e (document_at bytes.now)) }
{
    let lines = document(alloc, bytes)?;
    Ok(build(alloc, lines)?)
}
