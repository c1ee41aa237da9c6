//! The cells of an external: a fixed number of texts, which a plan of new texts changes.

ghost use Rattle.std.specs.Prelude.{◌≡◌, ◌≢◌, ℕ, ◌<◌, List, [], ◌∷◌, ◌++◌, bytes_eq, length, IfOk, OnOk, OnErr};
ghost use Rattle.std.specs.Prelude.{replicate, slice_get, slice_set, Some};
ghost use Rattle.externals.specs.Cells.{Avoids, flipped, taken_out, IsProper, IsPatch};
ghost use Rattle.xkit.specs.Steps.{cell};
ghost use Rattle.xkit.specs.Plans.{IsPlan};

use externals::Patch;
use ht_values::Text;
use std::alloc::{AllocError, Global};
use std::marker::Model;

/// A fixed number of texts, numbered from 0, which contracts see as their list.
///
/// A turn that changes cells makes a plan first: a patch with the new texts, which takes all the memory that is needed.
/// To carry it out takes none, so a turn that is refused memory leaves its cells as they were.
#[derive(Drop)]
pub struct Cells {
    texts: Vec<Text>,
}

impl Model for Cells {
    ghost Value = { List (List ℕ) };

    ghost view = { λ c. c.texts.items };
}

/// Adds a cell to a plan, which is as it was where the growth was refused.
fn push(plan: &mut Patch, cell: usize, text: Text) -> Result<(), AllocError>
    ensures ok { OnOk result (plan.new ≡ plan.old ++ (cell, text) ∷ []) }
    ensures err { OnErr result (plan.new ≡ plan.old) }
{
    match plan.push(cell, text) {
        Ok(()) => Ok(()),
        Err(_) => Err(AllocError),
    }
}

impl Cells {
    /// This many empty cells.
    pub fn empty(alloc: Global, count: usize) -> Result<Cells, AllocError>
        ensures { IfOk result (λ c. c ≡ replicate count []) }
    {
        let mut texts = Vec::new(alloc);
        for _ in 0..count {
            texts.push(Text::new(alloc))?;
        }
        Ok(Cells { texts })
    }

    /// One cell with this text.
    pub fn one(alloc: Global, text: Text) -> Result<Cells, AllocError>
        ensures { IfOk result (λ c. c ≡ text ∷ []) }
    {
        let mut texts = Vec::new(alloc);
        texts.push(text)?;
        Ok(Cells { texts })
    }

    /// How many cells there are.
    pub fn len(&self) -> usize
        ensures { result ≡ length self.now }
    {
        self.texts.len()
    }

    /// The i-th cell, from 0.
    pub fn at(&self, i: usize) -> &Text
        requires { i < length self.now }
        ensures { slice_get self.now i ≡ Some result.now }
    {
        &self.texts[i]
    }

    /// All cells, in order.
    pub fn as_slice(&self) -> &[Text]
        ensures { result.now ≡ self.now }
    {
        &self.texts
    }

    /// Whether the i-th cell, from 0, has just these bytes.
    pub fn has(&self, i: usize, bytes: &[u8]) -> bool
        requires { i < length self.now }
        ensures { result ≡ bytes_eq (cell self.now i) bytes.now }
    {
        self.texts[i].as_slice() == bytes
    }

    /// Exchanges the cells that a patch names with the patch's texts, as `flip` of an external has to. It takes no
    /// memory.
    pub fn flip(&mut self, patch: &mut Patch)
        requires { IsProper (length self.old) patch.old }
        ensures cells { self.new ≡ flipped self.old patch.old }
        ensures patch { patch.new ≡ taken_out self.old patch.old }
        ensures count { length self.new ≡ length self.old }
    {
        for i in 0..patch.len() {
            let cell = patch.cell_at(i);
            patch.swap(i, &mut self.texts[cell]);
        }
    }

    /// Adds to a plan that a cell, from 0, is to get a text. A cell that has it already is left out.
    pub fn plan(&self, plan: &mut Patch, cell: usize, text: Text) -> Result<(), AllocError>
        requires there { cell < length self.now }
        requires plan { IsPlan self.now plan.old }
        requires once { Avoids cell plan.old }
        ensures plan { IsPlan self.now plan.new }
        ensures ok { OnOk result (flipped self.now plan.new ≡ slice_set (flipped self.now plan.old) cell text) }
        ensures names { (i : ℕ) → i ≢ cell → Avoids i plan.old → Avoids i plan.new }
        ensures err { OnErr result (plan.new ≡ plan.old) }
    {
        if self.has(cell, text.as_slice()) {
            return Ok(());
        }
        push(plan, cell, text)?;
        Ok(())
    }

    /// Gives each cell that a plan names its new text. What comes back is the patch of a turn: just these cells with
    /// their old texts. It takes no memory.
    pub fn carry_out(&mut self, plan: Patch) -> Patch
        requires { IsPlan self.old plan }
        ensures cells { self.new ≡ flipped self.old plan }
        ensures patch { IsPatch self.old self.new result }
        ensures count { length self.new ≡ length self.old }
    {
        let mut patch = plan;
        self.flip(&mut patch);
        patch
    }

    /// Gives one cell, from 0, a text. What comes back is the patch of a turn that changes no other cell; it names none
    /// where the cell had that text. Out of memory the cells are as they were.
    pub fn change(&mut self, alloc: Global, cell: usize, text: Text) -> Result<Patch, AllocError>
        requires { cell < length self.old }
        ensures ok { OnOk result (self.new ≡ slice_set self.old cell text) }
        ensures patch { IfOk result (λ p. IsPatch self.old self.new p) }
        ensures err { OnErr result (self.new ≡ self.old) }
        ensures count { length self.new ≡ length self.old }
    {
        let mut plan = Patch::new(alloc);
        self.plan(&mut plan, cell, text)?;
        Ok(self.carry_out(plan))
    }
}
