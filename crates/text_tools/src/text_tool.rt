//! The text tools: each takes its turn as their table says.

ghost use Rattle.std.specs.Prelude.{◌≡◌, [], length, true, false, replicate, IfOk, OnErr};
ghost use Rattle.externals.specs.Cells.{IsPatch};
ghost use Rattle.externals.specs.Log.{Follows, IsTurnOf};
ghost use Rattle.text_tools.specs.Tools.{cell_count_of, follows_once, kind_of, tool_table};

use crate::replace::answer;
use crate::table;
use externals::{Ask, External, HasTable, Input, Patch};
use ht_values::Text;
use std::alloc::{AllocError, Global};
use std::snapshot::Snapshot;
use xkit::{Cells, TurnLog, TurnResult, unchanged};

/// Which tool an external is.
#[derive(Clone, Copy)]
enum Tool {
    Replace,
    Table,
}

/// A text tool. Each of its turns follows from its kind, its cells and what it is handed.
#[derive(Drop)]
pub struct TextTool {
    tool: Tool,
    name: Text,
    cells: Cells,
    log: TurnLog,
    ghost count: { length cells ≡ cell_count_of tool },
    ghost follows: { Follows tool_table (kind_of tool) log.turns } by { follows_once tool log.turns },
}

impl TextTool {
    /// The function `Replace(text, old, new)` under this name: the text with each occurrence of `old` replaced by
    /// `new`, byte for byte, from left to right, none overlapping. An empty `old` occurs nowhere. It fails where the
    /// value would be over 30,000 bytes, and for another number of arguments. It keeps no cells, and its kind is 5.
    pub fn replace(alloc: Global, name: Text) -> Result<TextTool, AllocError>
        ensures title { IfOk result (λ e. ⟦<TextTool as External>⟧.title e ≡ name) }
        ensures kind { IfOk result (λ e. ⟦<TextTool as External>⟧.sort e ≡ 5) }
        ensures flag { IfOk result (λ e. ⟦<TextTool as External>⟧.answers_calls e ≡ true) }
        ensures cells { IfOk result (λ e. ⟦<TextTool as External>⟧.cells e ≡ []) }
        ensures log { IfOk result (λ e. ⟦<TextTool as External>⟧.log e ≡ []) }
    {
        Ok(TextTool {
            tool: Tool::Replace,
            name,
            cells: Cells::empty(alloc, 0)?,
            log: TurnLog::new(),
        })
    }

    /// The command `Table` under this name, which keeps up to 32 values under keys. `Table "put",key,value` keeps a
    /// value, in place of the one that the key has; it fails for an empty key, and for a new one while no place is
    /// free. `Table "get",key` gives the value in `the result`, empty where there is none. `Table "delete",key` forgets
    /// the key. Verbs and keys are compared without case, and a key stays as it was first spelled. Its kind is 6.
    pub fn table(alloc: Global, name: Text) -> Result<TextTool, AllocError>
        ensures title { IfOk result (λ e. ⟦<TextTool as External>⟧.title e ≡ name) }
        ensures kind { IfOk result (λ e. ⟦<TextTool as External>⟧.sort e ≡ 6) }
        ensures flag { IfOk result (λ e. ⟦<TextTool as External>⟧.answers_calls e ≡ false) }
        ensures cells { IfOk result (λ e. ⟦<TextTool as External>⟧.cells e ≡ replicate 64 []) }
        ensures log { IfOk result (λ e. ⟦<TextTool as External>⟧.log e ≡ []) }
    {
        Ok(TextTool {
            tool: Tool::Table,
            name,
            cells: Cells::empty(alloc, 64)?,
            log: TurnLog::new(),
        })
    }
}

impl External for TextTool {
    ghost use Rattle.text_tools.specs.Tools.{answers_calls_of, kind_of};

    ghost title = { λ e. e.name };

    ghost sort = { λ e. kind_of e.tool };

    ghost answers_calls = { λ e. answers_calls_of e.tool };

    ghost cells = { λ e. e.cells };

    ghost log = { λ e. e.log.turns };

    fn name(&self) -> &Text {
        &self.name
    }

    fn kind(&self) -> u32 {
        match self.tool {
            Tool::Replace => 5,
            Tool::Table => 6,
        }
    }

    fn is_function(&self) -> bool {
        matches!(self.tool, Tool::Replace)
    }

    fn cell_count(&self) -> usize {
        self.cells.len()
    }

    fn cell(&self, i: usize) -> &Text {
        self.cells.at(i)
    }

    fn turn(&mut self, alloc: Global, input: &Input) -> Result<(Ask, Patch), AllocError> {
        let before = Snapshot::of(&self.cells);
        let (ask, patch) = turned(self.tool, &mut self.cells, alloc, input)?;
        self.log.record(&before, input, &ask, &self.cells);
        Ok((ask, patch))
    }

    fn flip(&mut self, patch: &mut Patch) {
        self.cells.flip(patch);
    }
}

impl HasTable for TextTool {
    ghost use Rattle.text_tools.specs.Tools.{tool_table};

    ghost turn_table = { tool_table };

    ghost follows = { λ e. e.follows };
}

/// One turn of one of the tools.
fn turned(tool: Tool, cells: &mut Cells, alloc: Global, input: &Input) -> TurnResult
    requires { length cells.old ≡ cell_count_of tool }
    ensures told { IfOk result (λ r. IsTurnOf tool_table (kind_of tool) (record {
      before = cells.old;
      input = input.now;
      ask = r.0;
      cells = cells.new;
    })) }
    ensures patch { IfOk result (λ r. IsPatch cells.old cells.new r.1) }
    ensures err { OnErr result (cells.new ≡ cells.old) }
    ensures count { length cells.new ≡ length cells.old }
{
    match tool {
        Tool::Replace => Ok(unchanged(alloc, answer(alloc, input)?)),
        Tool::Table => table::turned(cells, alloc, input),
    }
}
