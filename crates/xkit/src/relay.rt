//! Relay: a command that uses each of the four call-backs once.

ghost use Rattle.std.specs.Prelude.{◌≡◌, ◌<◌, ◌≤◌, [], ◌∷◌, codes, drop, length, IfOk, OnErr};
ghost use Rattle.ht_values.specs.declared.text.TheConstants.{LIMIT};
ghost use Rattle.xkit.specs.Table.{is_note, relay_start, relay_answer, relay_turn};
ghost use Rattle.xkit.specs.Steps.{Takes};

use crate::cells::Cells;
use crate::turn_result::{TurnResult, add, changed, unchanged};
use externals::{Ask, Input, Texts};
use ht_values::Text;
use std::alloc::{AllocError, Global};

/// Whether a note has so many texts, and this one first.
fn is_note_of(note: &Texts, count: usize, stage: &[u8]) -> bool
    requires { 0 < count }
    ensures { result ≡ is_note count stage.now note.now }
{
    note.len() == count && note.at(0).as_slice() == stage
}

/// A note of this text and of those of a list from one on.
fn note_of(alloc: Global, stage: &[u8], texts: &Texts, from: usize) -> Result<Texts, AllocError>
    requires { length stage.now ≤ LIMIT }
    ensures { IfOk result (λ n. n ≡ stage.now ∷ drop from texts.now) }
{
    let mut note = Texts::new(alloc);
    let first = Text::fitting(alloc, stage)?;
    add(&mut note, first)?;
    for i in from..texts.len() {
        let copy = texts.at(i).try_clone(alloc)?;
        add(&mut note, copy)?;
    }
    Ok(note)
}

/// One turn.
pub(crate) fn turned(cells: &mut Cells, alloc: Global, input: &Input) -> TurnResult
    requires { length cells.old ≡ 2 }
    ensures ok { IfOk result (λ r. Takes (relay_turn cells.old input.now) cells.old cells.new r.0 r.1) }
    ensures err { OnErr result (cells.new ≡ cells.old) }
    ensures count { length cells.new ≡ length cells.old }
{
    match input {
        Input::Start(args) => started(cells, alloc, args),
        Input::Answer(note, value) => answered(cells, alloc, note, value),
    }
}

/// A start with four texts keeps the name of the global, and sets it.
fn started(cells: &mut Cells, alloc: Global, args: &Texts) -> TurnResult
    requires { length cells.old ≡ 2 }
    ensures ok { IfOk result (λ r. Takes (relay_start cells.old args.now) cells.old cells.new r.0 r.1) }
    ensures err { OnErr result (cells.new ≡ cells.old) }
    ensures count { length cells.new ≡ length cells.old }
{
    if args.len() != 4 {
        return Ok(unchanged(alloc, Ask::Fail));
    }
    let note = note_of(alloc, b"1", args, 1)?;
    let global = args.at(0).try_clone(alloc)?;
    let kept = args.at(0).try_clone(alloc)?;
    let value = Text::fitting(alloc, b"relay")?;
    changed(cells, alloc, 0, kept, Ask::SetGlobal(note, global, value))
}

/// An answer leads to the next call-back, or ends the conversation after the last one.
fn answered(cells: &mut Cells, alloc: Global, note: &Texts, value: &Text) -> TurnResult
    requires { length cells.old ≡ 2 }
    ensures ok { IfOk result (λ r. Takes (relay_answer cells.old note.now value.now) cells.old cells.new r.0 r.1) }
    ensures err { OnErr result (cells.new ≡ cells.old) }
    ensures count { length cells.new ≡ length cells.old }
{
    if is_note_of(note, 4, b"1") {
        let next = note_of(alloc, b"2", note, 2)?;
        let field = note.at(1).try_clone(alloc)?;
        let global = cells.at(0).try_clone(alloc)?;
        Ok(unchanged(alloc, Ask::SetFieldByName(next, false, field, global)))
    } else if is_note_of(note, 3, b"2") {
        let next = note_of(alloc, b"3", note, 2)?;
        let expression = note.at(1).try_clone(alloc)?;
        Ok(unchanged(alloc, Ask::EvalExpr(next, expression)))
    } else if is_note_of(note, 2, b"3") {
        computed(cells, alloc, note.at(1), value)
    } else if is_note_of(note, 2, b"4") {
        let told = note.at(1).try_clone(alloc)?;
        Ok(unchanged(alloc, Ask::Done(told, false)))
    } else {
        Ok(unchanged(alloc, Ask::Fail))
    }
}

/// The value of the expression is kept, and the message is sent.
fn computed(cells: &mut Cells, alloc: Global, message: &Text, value: &Text) -> TurnResult
    requires { length cells.old ≡ 2 }
    ensures ok { IfOk result (λ r. Takes
        (relay_answer cells.old (codes "3" ∷ message.now ∷ []) value.now) cells.old cells.new
        r.0 r.1) }
    ensures err { OnErr result (cells.new ≡ cells.old) }
    ensures count { length cells.new ≡ length cells.old }
{
    let mut note = Texts::new(alloc);
    let stage = Text::fitting(alloc, b"4")?;
    add(&mut note, stage)?;
    let told = value.try_clone(alloc)?;
    add(&mut note, told)?;
    let kept = value.try_clone(alloc)?;
    let sent = message.try_clone(alloc)?;
    changed(cells, alloc, 1, kept, Ask::SendCardMessage(note, sent))
}
