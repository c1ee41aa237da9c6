//! Externals for the examples.

ghost use Rattle.std.specs.Prelude.{◌≡◌, length, IfOk, IfSome, OnErr};
ghost use Rattle.externals.specs.Cells.{IsPatch};

use externals::{Ask, External, Input, Patch, Texts};
use ht_values::{Text, numeral, text_of};
use std::alloc::{AllocError, Global};
use std::rc::Rc;
use std::snapshot::Snapshot;
use xkit::{Cells, KitExternal, TurnLog, TurnResult, changed};

/// What an external asks at each turn.
#[derive(Clone, Copy)]
pub(crate) enum Manner {
    /// That the conversation ends.
    End,
    /// To set the global `g` to the number of the turn, without end.
    Set,
    /// At a start, to send the message that starts it; that the conversation ends once it was sent.
    Send,
    /// At a start, to compute its first argument, which is the note too; that the conversation ends with the note, an
    /// equals sign and the value.
    Echo,
    /// That the conversation ends, and the message is passed on.
    Pass,
    /// At a start, to put its first argument into the field `Note` of the background; that the conversation ends once
    /// that was done.
    SetField,
    /// It fails.
    Fail,
    /// It is none of these, but the gate of the kit.
    Gate,
}

/// A command whose one cell counts its turns. It holds a mark while it is there.
#[derive(Drop)]
struct Nondeterministic {
    name: Text,
    manner: Manner,
    cells: Cells,
    log: TurnLog,
    mark: Rc<u8>,
    ghost one_cell: { length cells ≡ 1 },
}

impl External for Nondeterministic {
    ghost use Rattle.std.specs.Prelude.{false};

    ghost title = { λ e. e.name };

    ghost sort = { λ _. 0 };

    ghost answers_calls = { λ _. false };

    ghost cells = { λ e. e.cells };

    ghost log = { λ e. e.log.turns };

    fn name(&self) -> &Text {
        &self.name
    }

    fn kind(&self) -> u32 {
        0
    }

    fn is_function(&self) -> bool {
        false
    }

    fn cell_count(&self) -> usize {
        self.cells.len()
    }

    fn cell(&self, i: usize) -> &Text {
        self.cells.at(i)
    }

    fn turn(&mut self, alloc: Global, input: &Input) -> Result<(Ask, Patch), AllocError> {
        let before = Snapshot::of(&self.cells);
        let (ask, patch) = turned(self.manner, &mut self.cells, alloc, input)?;
        self.log.record(&before, input, &ask, &self.cells);
        Ok((ask, patch))
    }

    fn flip(&mut self, patch: &mut Patch) {
        self.cells.flip(patch);
    }
}

fn text(alloc: Global, bytes: &[u8]) -> Result<Text, AllocError> {
    Text::from_slice(alloc, bytes).map_err(|_| AllocError)
}

/// The number after the one in the cell.
fn more(cells: &Cells, alloc: Global) -> Result<Text, AllocError>
    requires { length cells.now ≡ 1 }
{
    text_of(alloc, numeral(cells.at(0)).unwrap_or(0).saturating_add(1))
}

fn set_global(alloc: Global, count: &Text) -> Result<Ask, AllocError> {
    let name = text(alloc, b"g")?;
    let told = count.try_clone(alloc)?;
    Ok(Ask::SetGlobal(Texts::new(alloc), name, told))
}

fn send_message(alloc: Global) -> Result<Ask, AllocError> {
    let message = text(alloc, b"Deep")?;
    Ok(Ask::SendCardMessage(Texts::new(alloc), message))
}

/// Starts to compute a text, which is the note too.
fn compute(alloc: Global, expression: &Text) -> Result<Ask, AllocError> {
    let mut note = Texts::new(alloc);
    note.push(expression.try_clone(alloc)?)
        .map_err(|_| AllocError)?;
    Ok(Ask::EvalExpr(note, expression.try_clone(alloc)?))
}

/// Ends a conversation with a note and a value, with an equals sign between.
fn tell(alloc: Global, note: &Text, value: &Text) -> Result<Ask, AllocError> {
    let mut told = note.try_clone(alloc)?;
    told.append(b"=").map_err(|_| AllocError)?;
    told.append(value.as_slice()).map_err(|_| AllocError)?;
    Ok(Ask::Done(told, false))
}

fn echo(alloc: Global, input: &Input) -> Result<Ask, AllocError> {
    match input {
        Input::Start(args) if args.len() > 0 => compute(alloc, args.at(0)),
        Input::Answer(note, value) if note.len() > 0 => tell(alloc, note.at(0), value),
        _ => Ok(Ask::Fail),
    }
}

fn set_field(alloc: Global, input: &Input) -> Result<Ask, AllocError> {
    match input {
        Input::Start(args) if args.len() > 0 => Ok(Ask::SetFieldByName(
            Texts::new(alloc),
            false,
            text(alloc, b"Note")?,
            args.at(0).try_clone(alloc)?,
        )),
        _ => Ok(Ask::Done(Text::new(alloc), false)),
    }
}

/// What is asked at a turn of this number.
fn asked(manner: Manner, alloc: Global, input: &Input, count: &Text) -> Result<Ask, AllocError> {
    match manner {
        Manner::Set => set_global(alloc, count),
        Manner::Send if matches!(input, Input::Start(_)) => send_message(alloc),
        Manner::Send | Manner::End => Ok(Ask::Done(Text::new(alloc), false)),
        Manner::Echo => echo(alloc, input),
        Manner::Pass => Ok(Ask::Done(Text::new(alloc), true)),
        Manner::SetField => set_field(alloc, input),
        Manner::Fail | Manner::Gate => Ok(Ask::Fail),
    }
}

/// One turn, which is counted.
fn turned(manner: Manner, cells: &mut Cells, alloc: Global, input: &Input) -> TurnResult
    requires { length cells.old ≡ 1 }
    ensures ok { IfOk result (λ r. IsPatch cells.old cells.new r.1) }
    ensures err { OnErr result (cells.new ≡ cells.old) }
    ensures count { length cells.new ≡ length cells.old }
{
    let count = more(cells, alloc)?;
    let ask = asked(manner, alloc, input, &count)?;
    changed(cells, alloc, 0, count, ask)
}

fn cells_of(alloc: Global) -> Option<Cells>
    ensures { IfSome result (λ c. length c ≡ 1) }
{
    Cells::one(alloc, Text::from_slice(alloc, b"0").ok()?).ok()
}

fn external_with(
    alloc: Global,
    name: Text,
    manner: Manner,
    mark: &Rc<u8>,
) -> Option<Nondeterministic> {
    let cells = cells_of(alloc)?;
    let mark = mark.clone().ok()?;
    Some(Nondeterministic {
        name,
        manner,
        cells,
        log: TurnLog::new(),
        mark,
    })
}

/// An external as the session holds it.
pub(crate) type Boxed = Box<dyn External>;

fn boxed_external(alloc: Global, name: Text, manner: Manner, mark: &Rc<u8>) -> Option<Boxed> {
    let boxed: Boxed = Box::new(alloc, external_with(alloc, name, manner, mark)?).ok()?;
    Some(boxed)
}

fn boxed_gate(alloc: Global, name: Text) -> Option<Boxed> {
    let boxed: Boxed = Box::new(alloc, KitExternal::gate(alloc, name).ok()?).ok()?;
    Some(boxed)
}

/// An external of this name and manner. It holds the mark while it is there, unless it is a gate.
pub(crate) fn external_of(
    alloc: Global,
    name: &[u8],
    manner: Manner,
    mark: &Rc<u8>,
) -> Option<Boxed> {
    let name = Text::from_slice(alloc, name).ok()?;
    match manner {
        Manner::Gate => boxed_gate(alloc, name),
        _ => boxed_external(alloc, name, manner, mark),
    }
}
