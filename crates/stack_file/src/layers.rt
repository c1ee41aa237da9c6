//! Backgrounds and cards, read with their parts.

ghost use Rattle.std.specs.Prelude.{map};
ghost use Rattle.stack_text.specs.Reading.{Gives, for_each, layer_at, background_header_at, background_at, own_text_at};
ghost use Rattle.stack_text.specs.Reading.{own_hilite_at, keeping_at, card_header_at, card_at};
ghost use Rattle.stack_file.specs.Views.{sheet_seen};

use crate::backgrounds::Backgrounds;
use crate::blocks::{script, text_of_pieces};
use crate::lines::Lines;
use crate::parts::{Owner, parts};
use crate::sheets::SheetLines;
use ht_values::Text;
use object_table::{Id, Kind, Object, ObjectName};
use stack_text::{Keeping, Part, PartContent, ReadError, Version};
use std::alloc::Global;

/// The name of a background or a card, whether it can't be deleted, and its script.
#[tactic(auto, unfolding(stack_text::specs::Reading::layer_at))]
fn layer(lines: &mut Lines, alloc: Global) -> Result<(ObjectName, bool, Text), ReadError>
    ensures { Gives (λ x. (x, lines.new)) result (layer_at lines.old) }
{
    let name = lines.name(alloc)?;
    let cant_delete = lines.flag_after(b"cantDelete ")?;
    let script = script(lines, alloc)?;
    Ok((name, cant_delete, script))
}

#[tactic(auto, unfolding(stack_text::specs::Reading::background_header_at))]
fn background_header(lines: &mut Lines, next: Id) -> Result<Id, ReadError>
    ensures { Gives (λ x. (x, lines.new)) result (background_header_at next lines.old) }
{
    let id = lines.number_after(b"background ")?;
    lines.new_id(next, id, true)?;
    Ok(id)
}

#[tactic(auto, unfolding(stack_text::specs::Reading::background_at))]
pub(crate) fn background(
    lines: &mut Lines,
    alloc: Global,
    version: Version,
    next: Id,
) -> Result<SheetLines, ReadError>
    ensures { Gives (λ x. (sheet_seen x, lines.new)) result (background_at version next lines.old) }
{
    let id = background_header(lines, next)?;
    let (name, cant_delete, script) = layer(lines, alloc)?;
    let parts = parts(lines, alloc, next, Owner::Background(version))?;
    let kind = Kind::Background { cant_delete };
    Ok(SheetLines {
        id,
        object: Object { name, script, kind },
        parts,
        keepings: Vec::new(alloc),
    })
}

/// The text that a card keeps for the field that is due.
#[tactic(auto, unfolding(stack_text::specs::Reading::own_text_at))]
fn own_text(lines: &mut Lines, alloc: Global, due: Id) -> Result<Keeping, ReadError>
    ensures { Gives (λ x. (x, lines.new)) result (own_text_at due lines.old) }
{
    let (field, count) = lines.text_head()?;
    if field != due {
        return Err(lines.bad_id());
    }
    let text = text_of_pieces(lines, alloc, count)?;
    Ok(Keeping {
        part: due,
        content: PartContent::Written(text),
    })
}

/// The hilite that a card keeps for the button that is due.
#[tactic(auto, unfolding(stack_text::specs::Reading::own_hilite_at))]
fn own_hilite(lines: &mut Lines, due: Id) -> Result<Keeping, ReadError>
    ensures { Gives (λ x. (x, lines.new)) result (own_hilite_at due lines.old) }
{
    let (button, lit) = lines.hilite_head()?;
    if button != due {
        return Err(lines.bad_id());
    }
    Ok(Keeping {
        part: due,
        content: PartContent::Lit(lit),
    })
}

/// What a card keeps for a part of its background. In version 1 it lights no button by itself.
fn keeping(
    lines: &mut Lines,
    alloc: Global,
    version: Version,
    part: &Part,
) -> Result<Keeping, ReadError>
    ensures { Gives (λ x. (x, lines.new)) result (keeping_at version part.now lines.old) }
{
    match part.object.kind {
        Kind::BackgroundField { .. } => own_text(lines, alloc, part.id),
        Kind::BackgroundButton { .. } => match version {
            Version::Second => own_hilite(lines, part.id),
            Version::First => Ok(Keeping {
                part: part.id,
                content: PartContent::Lit(false),
            }),
        },
        Kind::Stack
        | Kind::Background { .. }
        | Kind::Card { .. }
        | Kind::CardButton { .. }
        | Kind::CardField { .. } => Ok(Keeping {
            part: part.id,
            content: PartContent::Nothing,
        }),
    }
}

fn keepings(
    lines: &mut Lines,
    alloc: Global,
    version: Version,
    parts: &[Part],
) -> Result<Vec<Keeping>, ReadError>
    ensures { Gives (λ x. (x.items, lines.new)) result (for_each parts.now (keeping_at version) lines.old) }
{
    let mut keepings = Vec::new(alloc);
    for part in parts {
        keepings.push(keeping(lines, alloc, version, part)?)?;
    }
    Ok(keepings)
}

#[tactic(auto, unfolding(stack_text::specs::Reading::card_header_at))]
fn card_header(
    lines: &mut Lines,
    next: Id,
    backgrounds: &Backgrounds,
) -> Result<(Id, Id), ReadError>
    ensures { Gives (λ x. (x, lines.new)) result
        (card_header_at next (map sheet_seen backgrounds.now.list.now) lines.old) }
{
    let (id, background) = lines.card_head()?;
    lines.new_id(next, id, backgrounds.contains(background))?;
    Ok((id, background))
}

#[tactic(auto, unfolding(stack_text::specs::Reading::card_at))]
pub(crate) fn card(
    lines: &mut Lines,
    alloc: Global,
    version: Version,
    next: Id,
    backgrounds: &Backgrounds,
) -> Result<SheetLines, ReadError>
    ensures { Gives (λ x. (sheet_seen x, lines.new)) result
        (card_at version next (map sheet_seen backgrounds.now.list.now) lines.old) }
{
    let (id, background) = card_header(lines, next, backgrounds)?;
    let (name, cant_delete, script) = layer(lines, alloc)?;
    let parts = parts(lines, alloc, next, Owner::Card)?;
    let keepings = keepings(lines, alloc, version, backgrounds.parts_of(background))?;
    let kind = Kind::Card {
        background,
        cant_delete,
    };
    Ok(SheetLines {
        id,
        object: Object { name, script, kind },
        parts,
        keepings,
    })
}
