//! Parts, read with what is kept beside them.

ghost use Rattle.std.specs.Prelude.{true, codes};
ghost use Rattle.stack_text.specs.Reading.{Gives, flag_after, in_second_or, background_button_at, background_field_at};
ghost use Rattle.stack_text.specs.Reading.{background_part_at, card_button_at, card_field_at, card_part_at, part_at};
ghost use Rattle.stack_text.specs.Reading.{parts_at, times};
ghost use Rattle.stack_file.specs.Owners.{rest_of};

use crate::blocks::{block, script};
use crate::lines::{Lines, MOST_OBJECTS};
use ht_values::PartKind;
use object_table::{Id, Kind, Object};
use stack_text::{Part, PartContent, ReadError, Version};
use std::alloc::Global;

/// What a part stands on.
#[derive(Clone, Copy, Debug)]
pub(crate) enum Owner {
    Background(Version),
    Card,
}

/// Whether a button shares its hilite, which version 1 doesn't say.
fn shared_hilite(lines: &mut Lines, version: Version) -> Result<bool, ReadError>
    ensures { Gives (λ x. (x, lines.new)) result
        (in_second_or version true (flag_after (codes "sharedHilite ")) lines.old) }
{
    match version {
        Version::First => Ok(true),
        Version::Second => lines.flag_after(b"sharedHilite "),
    }
}

#[tactic(auto, unfolding(stack_text::specs::Reading::background_button_at))]
fn background_button(
    lines: &mut Lines,
    alloc: Global,
    version: Version,
    id: Id,
) -> Result<Part, ReadError>
    ensures { Gives (λ x. (x, lines.new)) result (background_button_at version id lines.old) }
{
    let name = lines.name(alloc)?;
    let visible = lines.flag_after(b"visible ")?;
    let shared_hilite = shared_hilite(lines, version)?;
    let lit = lines.flag_after(b"hilite ")?;
    let script = script(lines, alloc)?;
    let kind = Kind::BackgroundButton {
        visible,
        shared_hilite,
    };
    let object = Object { name, script, kind };
    Ok(Part {
        id,
        object,
        content: PartContent::Lit(lit),
    })
}

#[tactic(auto, unfolding(stack_text::specs::Reading::background_field_at))]
fn background_field(lines: &mut Lines, alloc: Global, id: Id) -> Result<Part, ReadError>
    ensures { Gives (λ x. (x, lines.new)) result (background_field_at id lines.old) }
{
    let name = lines.name(alloc)?;
    let visible = lines.flag_after(b"visible ")?;
    let lock_text = lines.flag_after(b"lockText ")?;
    let shared_text = lines.flag_after(b"sharedText ")?;
    let script = script(lines, alloc)?;
    let text = block(lines, alloc, b"shared ")?;
    let kind = Kind::BackgroundField {
        visible,
        lock_text,
        shared_text,
    };
    let object = Object { name, script, kind };
    Ok(Part {
        id,
        object,
        content: PartContent::Written(text),
    })
}

#[tactic(auto, unfolding(stack_text::specs::Reading::background_part_at))]
fn background_part(
    lines: &mut Lines,
    alloc: Global,
    version: Version,
    head: (PartKind, Id),
) -> Result<Part, ReadError>
    ensures { Gives (λ x. (x, lines.new)) result (background_part_at version head lines.old) }
{
    match head {
        (PartKind::Button, id) => background_button(lines, alloc, version, id),
        (PartKind::Field, id) => background_field(lines, alloc, id),
    }
}

#[tactic(auto, unfolding(stack_text::specs::Reading::card_button_at))]
fn card_button(lines: &mut Lines, alloc: Global, id: Id) -> Result<Part, ReadError>
    ensures { Gives (λ x. (x, lines.new)) result (card_button_at id lines.old) }
{
    let name = lines.name(alloc)?;
    let visible = lines.flag_after(b"visible ")?;
    let hilite = lines.flag_after(b"hilite ")?;
    let script = script(lines, alloc)?;
    let kind = Kind::CardButton { visible, hilite };
    let object = Object { name, script, kind };
    Ok(Part {
        id,
        object,
        content: PartContent::Nothing,
    })
}

#[tactic(auto, unfolding(stack_text::specs::Reading::card_field_at))]
fn card_field(lines: &mut Lines, alloc: Global, id: Id) -> Result<Part, ReadError>
    ensures { Gives (λ x. (x, lines.new)) result (card_field_at id lines.old) }
{
    let name = lines.name(alloc)?;
    let visible = lines.flag_after(b"visible ")?;
    let lock_text = lines.flag_after(b"lockText ")?;
    let script = script(lines, alloc)?;
    let text = block(lines, alloc, b"text ")?;
    let kind = Kind::CardField { visible, lock_text };
    let object = Object { name, script, kind };
    Ok(Part {
        id,
        object,
        content: PartContent::Written(text),
    })
}

#[tactic(auto, unfolding(stack_text::specs::Reading::card_part_at))]
fn card_part(lines: &mut Lines, alloc: Global, head: (PartKind, Id)) -> Result<Part, ReadError>
    ensures { Gives (λ x. (x, lines.new)) result (card_part_at head lines.old) }
{
    match head {
        (PartKind::Button, id) => card_button(lines, alloc, id),
        (PartKind::Field, id) => card_field(lines, alloc, id),
    }
}

/// The lines of a part behind its header.
fn rest(
    lines: &mut Lines,
    alloc: Global,
    owner: Owner,
    head: (PartKind, Id),
) -> Result<Part, ReadError>
    ensures { Gives (λ x. (x, lines.new)) result (rest_of owner head lines.old) }
{
    match owner {
        Owner::Background(version) => background_part(lines, alloc, version, head),
        Owner::Card => card_part(lines, alloc, head),
    }
}

#[tactic(auto, unfolding(stack_text::specs::Reading::part_at))]
fn part(lines: &mut Lines, alloc: Global, next: Id, owner: Owner) -> Result<Part, ReadError>
    ensures { Gives (λ x. (x, lines.new)) result (part_at next (rest_of owner) lines.old) }
{
    let (kind, id) = lines.part_head()?;
    lines.new_id(next, id, true)?;
    rest(lines, alloc, owner, (kind, id))
}

fn counted_parts(
    lines: &mut Lines,
    alloc: Global,
    next: Id,
    owner: Owner,
    count: u32,
) -> Result<Vec<Part>, ReadError>
    ensures { Gives (λ x. (x.items, lines.new)) result (times count (part_at next (rest_of owner)) lines.old) }
{
    let mut parts = Vec::new(alloc);
    for _ in 0..count {
        parts.push(part(lines, alloc, next, owner)?)?;
    }
    Ok(parts)
}

/// The parts of a background or a card, and how many there are.
#[tactic(auto, unfolding(stack_text::specs::Reading::parts_at))]
pub(crate) fn parts(
    lines: &mut Lines,
    alloc: Global,
    next: Id,
    owner: Owner,
) -> Result<Vec<Part>, ReadError>
    ensures { Gives (λ x. (x.items, lines.new)) result (parts_at next (rest_of owner) lines.old) }
{
    let count = lines.count_after(b"parts ", 0, MOST_OBJECTS)?;
    counted_parts(lines, alloc, next, owner, count)
}
