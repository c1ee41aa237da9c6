//! What the lines that look show.

ghost use Rattle.std.specs.Prelude.{◌≡◌, ◌<◌, ◌==◌, [], ◌∷◌, ◌++◌, decimal, length, map, OnOk, IfOk, IfSome, None};
ghost use Rattle.std.specs.Prelude.{List, ℕ, if◌then◌else◌};
ghost use Rattle.std.specs.FinMap.{entries};
ghost use Rattle.std.specs.List.{position};
ghost use Rattle.std.specs.Map.Iter.{deref_pair};
ghost use Rattle.stack_text.specs.declared.sheets.Version.TheVariants.{Second as second};
ghost use Rattle.stack_text.specs.Listing.{spelling};
ghost use Rattle.session.specs.Splits.{Splits};
ghost use Rattle.stack_text.specs.Words.{spelled};
ghost use Rattle.ht_lex.specs.Words.{is_name as is_unreserved};
ghost use Rattle.journal_entries.specs.State.{index_of, titles_of};
ghost use Rattle.session.specs.Replies.{history_line as line_of_history, global_line, global_lines};

use change_journal::World;
use externals::External;
use ht_lex::{is_name, is_same};
use itoa::Buffer;
use meaning::{Line, Shown};
use stack_file::{spell_into, write};
use std::alloc::{AllocError, Global};
use std::collections::BTreeMap;

fn line_feed_in(bytes: &[u8]) -> Option<usize>
    ensures value { result ≡ position (λ b. b == 10) bytes.now }
    ensures within { IfSome result (λ i. i < length bytes.now) }
{
    bytes.iter().position(|b| *b == b'\n')
}

/// The lines of a text that are ended.
pub fn lines_of(alloc: Global, text: &[u8]) -> Result<Shown, AllocError>
    ensures { IfOk result (λ shown. (rest : List ℕ) × Splits text.now shown rest) }
{
    let mut shown = Shown::new(alloc);
    let mut rest = text;
    while let Some(end) = line_feed_in(rest) {
        shown.push(Line::new(Vec::from_slice(alloc, &rest[..end])?))?;
        rest = &rest[end + 1..];
    }
    Ok(shown)
}

fn write_number(out: &mut Vec<u8>, number: usize) -> Result<(), AllocError>
    ensures { OnOk result (out.new.items ≡ out.old.items ++ decimal number) }
{
    let mut digits = Buffer::new();
    out.extend_from_slice(digits.format(number).as_bytes())
}

fn shown_line(alloc: Global, line: Vec<u8>) -> Result<Shown, AllocError>
    ensures { IfOk result (λ shown. shown ≡ line.items ∷ []) }
{
    let mut shown = Shown::new(alloc);
    shown.push(Line::new(line))?;
    Ok(shown)
}

/// The id of the current card.
pub fn card_shown<E: External>(alloc: Global, world: &World<E>) -> Result<Shown, AllocError>
    ensures { IfOk result (λ shown. shown ≡ decimal world.now.history.now.current ∷ []) }
{
    let mut line = Vec::new(alloc);
    write_number(&mut line, world.current() as usize)?;
    shown_line(alloc, line)
}

/// How many places can be undone and redone.
pub fn history_shown<E: External>(alloc: Global, world: &World<E>) -> Result<Shown, AllocError>
    ensures { IfOk result (λ shown. shown
        ≡ line_of_history (length world.now.history.past) (length world.now.history.future) ∷ []) }
{
    let mut line = Vec::new(alloc);
    write_number(&mut line, world.undoable())?;
    line.push(b' ')?;
    write_number(&mut line, world.redoable())?;
    shown_line(alloc, line)
}

/// The lines of the stack's text, as they stand.
pub fn stack_shown<E: External>(alloc: Global, world: &World<E>) -> Result<Shown, AllocError>
    ensures { IfOk result (λ shown. Splits (spelling second world.now.history.now.stack) shown []) }
{
    let text = write(alloc, world.stack())?;
    let shown = lines_of(alloc, &text)?;
    Ok(shown)
}

/// The globals that have a value, in the order of their names' bytes.
fn globals_in_order<'a, E: External>(
    alloc: Global,
    world: &'a World<E>,
) -> Result<BTreeMap<&'a [u8], &'a [u8]>, AllocError>
    ensures { IfOk result (λ ordered.
        map deref_pair ordered.entries ≡ entries world.entry.now.history.now.globals) }
{
    let mut ordered = BTreeMap::new(alloc);
    for i in 0..world.name_count() {
        if let Some((name, value)) = world.global_numbered(i) {
            ordered.insert(name, value.as_slice())?;
        }
    }
    Ok(ordered)
}

/// A name, a space and a value, as a text is spelled.
fn spelled_global(alloc: Global, name: &[u8], value: &[u8]) -> Result<Vec<u8>, AllocError>
    ensures { IfOk result (λ line. line.items ≡ global_line (name.now, value.now)) }
{
    let mut line = Vec::new(alloc);
    spell_into(&mut line, name)?;
    spell_into(&mut line, b" ")?;
    spell_into(&mut line, value)?;
    Ok(line)
}

/// The globals, in the order of their names' bytes.
pub fn globals_shown<E: External>(alloc: Global, world: &World<E>) -> Result<Shown, AllocError>
    ensures { IfOk result (λ shown. shown ≡ global_lines world.now.history.now) }
{
    let ordered = globals_in_order(alloc, world)?;
    let mut shown = Shown::new(alloc);
    for (name, value) in &ordered {
        shown.push(Line::new(spelled_global(alloc, name, value)?))?;
    }
    Ok(shown)
}

/// The number of the external of a name, which is an unreserved word; case is ignored.
pub fn external_named<E: External>(world: &World<E>, name: &[u8]) -> Option<usize>
    ensures value { result ≡ (if is_unreserved name.now then index_of name.now
        (titles_of world.now.history.now.externals) else
        None) }
    ensures there { IfSome result (λ i. i < length world.now.history.now.externals) }
{
    if !is_name(name) {
        return None;
    }
    for i in 0..world.external_count() {
        if is_same(world.external(i).name().as_slice(), name) {
            return Some(i);
        }
    }
    None
}

/// The cells of an external, each spelled as a text.
pub fn cells_shown<E: External>(alloc: Global, external: &E) -> Result<Shown, AllocError>
    ensures { IfOk result (λ shown. shown ≡ map spelled (E.cells external.now)) }
{
    let mut shown = Shown::new(alloc);
    for i in 0..external.cell_count() {
        let mut line = Vec::new(alloc);
        spell_into(&mut line, external.cell(i).as_slice())?;
        shown.push(Line::new(line))?;
    }
    Ok(shown)
}
