//! The four externals of the kit: each takes its turn as the kit's table says.

ghost use Rattle.std.specs.Prelude.{◌≡◌, ◌∷◌, [], codes, length, replicate, true, false, IfOk, OnErr};
ghost use Rattle.ht_values.specs.Text.{numeral as numeral_of};
ghost use Rattle.externals.specs.Cells.{IsPatch};
ghost use Rattle.externals.specs.Log.{Follows, IsTurnOf};
ghost use Rattle.xkit.specs.Table.{kit_table};
ghost use Rattle.xkit.specs.Members.{cell_count_of, follows_once, kind_of};

use crate::cells::Cells;
use crate::turn_log::TurnLog;
use crate::turn_result::TurnResult;
use crate::{bins, count, gate, relay};
use externals::{Ask, External, HasTable, Input, Patch};
use ht_values::{Text, text_of};
use std::alloc::{AllocError, Global};
use std::snapshot::Snapshot;

/// Which of the four an external is.
#[derive(Clone, Copy)]
enum Member {
    Count,
    Bins,
    Relay,
    Gate,
}

/// An external of the kit. Each of its turns follows from its kind, its cells and what it is handed.
#[derive(Drop)]
pub struct KitExternal {
    member: Member,
    name: Text,
    cells: Cells,
    log: TurnLog,
    ghost count: { length cells ≡ cell_count_of member },
    ghost follows: { Follows kit_table (kind_of member) log.turns } by { follows_once member log.turns },
}

impl KitExternal {
    /// The function that counts its calls, of kind 1, under this name. Its cell is the number of the last call, at
    /// first the start, and a call's value is its number. It fails at the greatest number of 64 bits, and where the
    /// cell is no number.
    pub fn count(alloc: Global, name: Text, start: i64) -> Result<KitExternal, AllocError>
        ensures title { IfOk result (λ e. ⟦<KitExternal as External>⟧.title e ≡ name) }
        ensures kind { IfOk result (λ e. ⟦<KitExternal as External>⟧.sort e ≡ 1) }
        ensures flag { IfOk result (λ e. ⟦<KitExternal as External>⟧.answers_calls e ≡ true) }
        ensures cells { IfOk result (λ e. ⟦<KitExternal as External>⟧.cells e ≡ numeral_of start ∷ []) }
        ensures log { IfOk result (λ e. ⟦<KitExternal as External>⟧.log e ≡ []) }
    {
        let first = text_of(alloc, start)?;
        Ok(KitExternal {
            member: Member::Count,
            name,
            cells: Cells::one(alloc, first)?,
            log: TurnLog::new(),
        })
    }

    /// The command that keeps texts in 16 bins, of kind 2, under this name. Started with a number from 1 to 16 and a
    /// text, it keeps the text in the cell of that number, and its value is the text that was there, at first empty.
    pub fn bins(alloc: Global, name: Text) -> Result<KitExternal, AllocError>
        ensures title { IfOk result (λ e. ⟦<KitExternal as External>⟧.title e ≡ name) }
        ensures kind { IfOk result (λ e. ⟦<KitExternal as External>⟧.sort e ≡ 2) }
        ensures flag { IfOk result (λ e. ⟦<KitExternal as External>⟧.answers_calls e ≡ false) }
        ensures cells { IfOk result (λ e. ⟦<KitExternal as External>⟧.cells e ≡ replicate 16 []) }
        ensures log { IfOk result (λ e. ⟦<KitExternal as External>⟧.log e ≡ []) }
    {
        Ok(KitExternal {
            member: Member::Bins,
            name,
            cells: Cells::empty(alloc, 16)?,
            log: TurnLog::new(),
        })
    }

    /// The command that uses each of the four call-backs once, of kind 3, under this name. Started with the names of a
    /// global and of a field, an expression and a message, it puts `relay` into the global, the global's name into the
    /// background field, computes the expression and sends the message; its value is that of the expression. Its cells
    /// are the name of the global and the value, at first empty.
    pub fn relay(alloc: Global, name: Text) -> Result<KitExternal, AllocError>
        ensures title { IfOk result (λ e. ⟦<KitExternal as External>⟧.title e ≡ name) }
        ensures kind { IfOk result (λ e. ⟦<KitExternal as External>⟧.sort e ≡ 3) }
        ensures flag { IfOk result (λ e. ⟦<KitExternal as External>⟧.answers_calls e ≡ false) }
        ensures cells { IfOk result (λ e. ⟦<KitExternal as External>⟧.cells e ≡ replicate 2 []) }
        ensures log { IfOk result (λ e. ⟦<KitExternal as External>⟧.log e ≡ []) }
    {
        Ok(KitExternal {
            member: Member::Relay,
            name,
            cells: Cells::empty(alloc, 2)?,
            log: TurnLog::new(),
        })
    }

    /// The command that passes every other message on, of kind 4, under this name. Its cell is `0` at first, and `1`
    /// while the next message is to pass; it shuts at the first message.
    pub fn gate(alloc: Global, name: Text) -> Result<KitExternal, AllocError>
        ensures title { IfOk result (λ e. ⟦<KitExternal as External>⟧.title e ≡ name) }
        ensures kind { IfOk result (λ e. ⟦<KitExternal as External>⟧.sort e ≡ 4) }
        ensures flag { IfOk result (λ e. ⟦<KitExternal as External>⟧.answers_calls e ≡ false) }
        ensures cells { IfOk result (λ e. ⟦<KitExternal as External>⟧.cells e ≡ codes "0" ∷ []) }
        ensures log { IfOk result (λ e. ⟦<KitExternal as External>⟧.log e ≡ []) }
    {
        let shut = Text::fitting(alloc, b"0")?;
        Ok(KitExternal {
            member: Member::Gate,
            name,
            cells: Cells::one(alloc, shut)?,
            log: TurnLog::new(),
        })
    }
}

impl External for KitExternal {
    ghost use Rattle.xkit.specs.Members.{answers_calls_of, kind_of};

    ghost title = { λ e. e.name };

    ghost sort = { λ e. kind_of e.member };

    ghost answers_calls = { λ e. answers_calls_of e.member };

    ghost cells = { λ e. e.cells };

    ghost log = { λ e. e.log.turns };

    fn name(&self) -> &Text {
        &self.name
    }

    fn kind(&self) -> u32 {
        match self.member {
            Member::Count => 1,
            Member::Bins => 2,
            Member::Relay => 3,
            Member::Gate => 4,
        }
    }

    fn is_function(&self) -> bool {
        matches!(self.member, Member::Count)
    }

    fn cell_count(&self) -> usize {
        self.cells.len()
    }

    fn cell(&self, i: usize) -> &Text {
        self.cells.at(i)
    }

    fn turn(&mut self, alloc: Global, input: &Input) -> Result<(Ask, Patch), AllocError> {
        let before = Snapshot::of(&self.cells);
        let (ask, patch) = turned(self.member, &mut self.cells, alloc, input)?;
        self.log.record(&before, input, &ask, &self.cells);
        Ok((ask, patch))
    }

    fn flip(&mut self, patch: &mut Patch) {
        self.cells.flip(patch);
    }
}

impl HasTable for KitExternal {
    ghost use Rattle.xkit.specs.Table.{kit_table};

    ghost turn_table = { kit_table };

    ghost follows = { λ e. e.follows };
}

/// One turn of one of the four.
fn turned(member: Member, cells: &mut Cells, alloc: Global, input: &Input) -> TurnResult
    requires { length cells.old ≡ cell_count_of member }
    ensures told { IfOk result (λ r. IsTurnOf kit_table (kind_of member) (record {
      before = cells.old;
      input = input.now;
      ask = r.0;
      cells = cells.new;
    })) }
    ensures patch { IfOk result (λ r. IsPatch cells.old cells.new r.1) }
    ensures err { OnErr result (cells.new ≡ cells.old) }
    ensures count { length cells.new ≡ length cells.old }
{
    match member {
        Member::Count => count::turned(cells, alloc, input),
        Member::Bins => bins::turned(cells, alloc, input),
        Member::Relay => relay::turned(cells, alloc, input),
        Member::Gate => gate::turned(cells, alloc, input),
    }
}
