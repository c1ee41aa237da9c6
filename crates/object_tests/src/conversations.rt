//! Conversations with an external, by plain values.

ghost use Rattle.std.specs.Prelude.{length};
ghost use Rattle.externals.specs.Cells.{IsProper};

use crate::plain_texts::{Bytes, is_text, text};
use externals::{Ask, External, Input, Patch, Texts};
use ht_values::{Text, text_of};
use std::alloc::Global;

/// What an external is told at a turn; the texts have commas between them.
#[derive(Clone, Copy)]
pub(crate) enum Told {
    Start(&'static str),
    /// A start with a text of so many `a`, with `a` and with `aa`.
    Doubled(usize),
    /// A start with `put`, with a key and with `x`.
    Put(i64),
    /// The note of an answer, and its value.
    Answer(&'static str, Bytes),
}

/// What an external asks.
#[derive(Clone, Copy)]
pub(crate) enum Asked {
    Done(Bytes),
    /// It is done, with any value.
    Any,
    Fail,
}

/// A turn: what is told and asked, and each cell that it changes, with its texts before and after.
#[derive(Clone, Copy)]
pub(crate) struct Turn(pub Told, pub Asked, pub &'static [(usize, Bytes, Bytes)]);

/// What an external is: its name, its kind, whether it is a function, how many cells it has, and which text each of
/// them is.
pub(crate) struct Profile {
    pub name: Bytes,
    pub kind: u32,
    pub is_function: bool,
    pub cells: usize,
    pub text: Bytes,
}

fn is_pushed(alloc: Global, texts: &mut Texts, bytes: &[u8]) -> bool {
    match Text::from_slice(alloc, bytes) {
        Ok(text) => texts.push(text).is_ok(),
        Err(_) => false,
    }
}

/// Adds the texts with commas between them; of no bytes none.
fn push_words(alloc: Global, texts: &mut Texts, line: &str) -> bool {
    if line == "" {
        return true;
    }
    for word in line.split(",") {
        if !is_pushed(alloc, texts, word.as_bytes()) {
            return false;
        }
    }
    true
}

fn texts(alloc: Global, line: &str) -> Option<Texts> {
    let mut texts = Texts::new(alloc);
    push_words(alloc, &mut texts, line).then_some(texts)
}

fn three_texts(alloc: Global, first: &[u8], second: &[u8], third: &[u8]) -> Option<Texts> {
    let mut texts = Texts::new(alloc);
    let are_pushed = is_pushed(alloc, &mut texts, first)
        && is_pushed(alloc, &mut texts, second)
        && is_pushed(alloc, &mut texts, third);
    are_pushed.then_some(texts)
}

fn doubled(alloc: Global, count: usize) -> Option<Texts> {
    let long = vec![in alloc; b'a'; count].ok()?;
    three_texts(alloc, &long, b"a", b"aa")
}

fn put(alloc: Global, key: i64) -> Option<Texts> {
    let key = text_of(alloc, key).ok()?;
    three_texts(alloc, b"put", key.as_slice(), b"x")
}

fn start(args: Option<Texts>) -> Option<Input> {
    Some(Input::Start(args?))
}

fn answer(alloc: Global, note: Texts, value: &[u8]) -> Option<Input> {
    Some(Input::Answer(note, text(alloc, value)?))
}

fn input(alloc: Global, told: Told) -> Option<Input> {
    match told {
        Told::Start(args) => start(texts(alloc, args)),
        Told::Doubled(count) => start(doubled(alloc, count)),
        Told::Put(key) => start(put(alloc, key)),
        Told::Answer(note, value) => answer(alloc, texts(alloc, note)?, value),
    }
}

fn is_done(value: &Text, asked: Asked) -> bool {
    match asked {
        Asked::Done(told) => is_text(value, told),
        Asked::Any => true,
        Asked::Fail => false,
    }
}

fn is_asked(ask: &Ask, asked: Asked) -> bool {
    match ask {
        Ask::Done(value, false) => is_done(value, asked),
        Ask::Fail => matches!(asked, Asked::Fail),
        _ => false,
    }
}

/// Whether cells that are changed have their texts from before, or those from after.
fn have_texts<E: External>(
    external: &E,
    changed: &[(usize, Bytes, Bytes)],
    is_after: bool,
) -> bool {
    for (cell, before, after) in changed {
        let due = if is_after { after } else { before };
        if *cell >= external.cell_count() || external.cell(*cell).as_slice() != *due {
            return false;
        }
    }
    true
}

/// Whether a patch names just these cells, in order.
fn names(patch: &Patch, changed: &[(usize, Bytes, Bytes)]) -> bool {
    if patch.len() != changed.len() {
        return false;
    }
    for i in 0..patch.len() {
        if i < changed.len() && patch.cell_at(i) != changed[i].0 {
            return false;
        }
    }
    true
}

fn flip<E: External>(external: &mut E, patch: &mut Patch)
    requires { IsProper (length (E.cells external.old)) patch.old }
    ensures { IsProper (length (E.cells external.new)) patch.new }
{
    external.flip(patch);
}

/// Whether the cells have the new texts, a flip of the patch gives the old ones back, and another one the new ones.
fn flips<E: External>(
    external: &mut E,
    patch: &mut Patch,
    changed: &[(usize, Bytes, Bytes)],
) -> bool
    requires { IsProper (length (E.cells external.old)) patch.old }
{
    let began = have_texts(external, changed, true);
    flip(external, patch);
    let went_back = have_texts(external, changed, false);
    flip(external, patch);
    began && went_back && have_texts(external, changed, true) && names(patch, changed)
}

fn answers<E: External>(alloc: Global, external: &mut E, input: &Input, turn: &Turn) -> bool {
    match external.turn(alloc, input) {
        Ok((ask, mut patch)) => {
            let asked = is_asked(&ask, turn.1);
            asked & flips(external, &mut patch, turn.2)
        }
        Err(_) => false,
    }
}

/// Whether an external takes a turn like this, by its own and by flips of its patch.
pub(crate) fn takes<E: External>(alloc: Global, external: &mut E, turn: &Turn) -> bool {
    match input(alloc, turn.0) {
        Some(input) => answers(alloc, external, &input, turn),
        None => false,
    }
}

/// The first turn that an external, if there is one, takes in another way.
pub(crate) fn other_turn<E: External>(
    alloc: Global,
    external: Option<E>,
    turns: &[Turn],
) -> Option<usize> {
    let mut external = match external {
        Some(external) => external,
        None => return Some(0),
    };
    for (i, turn) in turns.iter().enumerate() {
        if !takes(alloc, &mut external, turn) {
            return Some(i);
        }
    }
    None
}

fn are_all<E: External>(external: &E, bytes: &[u8]) -> bool {
    for cell in 0..external.cell_count() {
        if external.cell(cell).as_slice() != bytes {
            return false;
        }
    }
    true
}

pub(crate) fn has_profile<E: External>(external: &E, due: &Profile) -> bool {
    is_text(external.name(), due.name)
        && external.kind() == due.kind
        && external.is_function() == due.is_function
        && external.cell_count() == due.cells
        && are_all(external, due.text)
}
