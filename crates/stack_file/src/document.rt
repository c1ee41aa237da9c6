//! A stack text, read sheet by sheet.

ghost use Rattle.std.specs.Prelude.{map};
ghost use Rattle.stack_text.specs.Reading.{Gives, times, background_at, backgrounds_at, card_at, cards_at, end_at};
ghost use Rattle.stack_text.specs.Reading.{stack_at, body_at, all_lines as all_lines_at, document_at};
ghost use Rattle.stack_file.specs.Views.{sheet_seen, text_seen};

use crate::backgrounds::{Backgrounds, each_has_card};
use crate::blocks::script;
use crate::layers::{background, card};
use crate::lines::{Lines, MOST_OBJECTS};
use crate::sheets::{SheetLines, TextLines};
use object_table::{Id, Kind, Object};
use stack_text::{ReadError, Version};
use std::alloc::Global;

/// The least limit of ids: a stack has a background and a card.
const LEAST_NEXT: u32 = 3;

/// The greatest limit of ids.
const MOST_NEXT: u32 = 1_000_001;

/// The limit of ids, and the stack itself.
#[tactic(auto, unfolding(stack_text::specs::Reading::stack_at))]
fn stack(lines: &mut Lines, alloc: Global) -> Result<(Id, Object), ReadError>
    ensures { Gives (λ x. (x, lines.new)) result (stack_at lines.old) }
{
    let next = lines.count_after(b"next ", LEAST_NEXT, MOST_NEXT)?;
    let name = lines.name(alloc)?;
    let script = script(lines, alloc)?;
    let kind = Kind::Stack;
    Ok((next, Object { name, script, kind }))
}

fn counted_backgrounds(
    lines: &mut Lines,
    alloc: Global,
    version: Version,
    next: Id,
    count: u32,
) -> Result<Vec<SheetLines>, ReadError>
    ensures { Gives (λ x. (map sheet_seen x.items, lines.new)) result
        (times count (background_at version next) lines.old) }
{
    let mut backgrounds = Vec::new(alloc);
    for _ in 0..count {
        backgrounds.push(background(lines, alloc, version, next)?)?;
    }
    Ok(backgrounds)
}

#[tactic(auto, unfolding(stack_text::specs::Reading::backgrounds_at))]
fn backgrounds(
    lines: &mut Lines,
    alloc: Global,
    version: Version,
    next: Id,
) -> Result<Vec<SheetLines>, ReadError>
    ensures { Gives (λ x. (map sheet_seen x.items, lines.new)) result (backgrounds_at version next lines.old) }
{
    let count = lines.count_after(b"backgrounds ", 1, MOST_OBJECTS)?;
    counted_backgrounds(lines, alloc, version, next, count)
}

fn counted_cards(
    lines: &mut Lines,
    alloc: Global,
    version: Version,
    next: Id,
    backgrounds: &Backgrounds,
    count: u32,
) -> Result<Vec<SheetLines>, ReadError>
    ensures { Gives (λ x. (map sheet_seen x.items, lines.new)) result
        (times count (card_at version next (map sheet_seen backgrounds.now.list.now)) lines.old) }
{
    let mut cards = Vec::new(alloc);
    for _ in 0..count {
        cards.push(card(lines, alloc, version, next, backgrounds)?)?;
    }
    Ok(cards)
}

#[tactic(auto, unfolding(stack_text::specs::Reading::cards_at))]
fn cards(
    lines: &mut Lines,
    alloc: Global,
    version: Version,
    next: Id,
    backgrounds: &[SheetLines],
) -> Result<Vec<SheetLines>, ReadError>
    ensures { Gives (λ x. (map sheet_seen x.items, lines.new)) result
        (cards_at version next (map sheet_seen backgrounds.now) lines.old) }
{
    let count = lines.count_after(b"cards ", 1, MOST_OBJECTS)?;
    let backgrounds = Backgrounds::new(alloc, backgrounds)?;
    counted_cards(lines, alloc, version, next, &backgrounds, count)
}

#[tactic(auto, unfolding(stack_text::specs::Reading::end_at))]
fn end(
    lines: &mut Lines,
    alloc: Global,
    backgrounds: &[SheetLines],
    cards: &[SheetLines],
) -> Result<(), ReadError>
    ensures { Gives (λ x. (tt, lines.new)) result
        (end_at (map sheet_seen backgrounds.now) (map sheet_seen cards.now) lines.old) }
{
    lines.exactly(b"end")?;
    if !each_has_card(alloc, backgrounds, cards)? {
        return Err(lines.bad_id());
    }
    lines.nothing_left()
}

/// The lines behind the version.
#[tactic(auto, unfolding(stack_text::specs::Reading::body_at))]
fn body(lines: &mut Lines, alloc: Global, version: Version) -> Result<TextLines, ReadError>
    ensures { Gives (λ x. (text_seen x, lines.new)) result (body_at version lines.old) }
{
    let (next, stack) = stack(lines, alloc)?;
    let backgrounds = backgrounds(lines, alloc, version, next)?;
    let cards = cards(lines, alloc, version, next, &backgrounds)?;
    end(lines, alloc, &backgrounds, &cards)?;
    Ok(TextLines {
        next,
        stack,
        backgrounds,
        cards,
    })
}

#[tactic(auto, unfolding(stack_text::specs::Reading::all_lines))]
fn all_lines(lines: &mut Lines, alloc: Global) -> Result<TextLines, ReadError>
    ensures { Gives (λ x. (text_seen x, lines.new)) result (all_lines_at lines.old) }
{
    let version = lines.version()?;
    body(lines, alloc, version)
}

/// What the lines of a text say, or its first line at fault.
#[tactic(auto, unfolding(stack_text::specs::Reading::document_at))]
pub(crate) fn document(alloc: Global, bytes: &[u8]) -> Result<TextLines, ReadError>
    ensures { Gives text_seen result (document_at bytes.now) }
{
    let mut lines = Lines::new(alloc, bytes);
    all_lines(&mut lines, alloc)
}
