//! Patches: what goes back over a turn of an external.

ghost use Rattle.std.specs.Prelude.{◌≡◌, ℕ, ◌<◌, List, [], ◌∷◌, ◌++◌, length, IfOk, IfErr, OnOk, slice_set};
ghost use Rattle.std.specs.Prelude.{slice_index_or};
ghost use Rattle.externals.specs.Patches.{changes_of};

use ht_values::Text;
use std::alloc::Global;
use std::marker::Model;
use std::mem;

/// Most turns change one cell, so one that a `u32` numbers needs no list. `Several` may hold any number.
#[derive(Drop)]
enum CellChanges {
    Nothing,
    One(u32, Text),
    Several(Vec<(usize, Text)>),
}

/// Numbers of cells with texts, in order. One cell takes no memory beside its text's.
pub struct Patch {
    alloc: Global,
    changes: CellChanges,
}

/// Written here and not derived, so that no crate above proves anew how it is dropped.
impl Drop for Patch {
    fn drop(self) {
        let Patch {
            alloc: _,
            changes: _,
        } = self;
    }
}

/// The history keeps one for each turn.
const _: () = prove!(size_of::<Patch>() <= 32);

impl Model for Patch {
    ghost Value = { List (ℕ × List ℕ) };

    ghost view = { λ p. changes_of p.changes };
}

fn in_list(
    mut list: Vec<(usize, Text)>,
    cell: usize,
    text: Text,
) -> Result<CellChanges, (CellChanges, Text)>
    ensures ok { IfOk result (λ more. changes_of more ≡ list.items ++ (cell, text) ∷ []) }
    ensures err { IfErr result (λ back. (changes_of back.0 ≡ list.items) × (back.1 ≡ text)) }
{
    match list.push((cell, text)) {
        Ok(()) => Ok(CellChanges::Several(list)),
        Err(refused) => {
            let (_, text) = refused.value;
            Err((CellChanges::Several(list), text))
        }
    }
}

/// Both cells, in a list that has room for them and no more.
fn in_pair(
    alloc: Global,
    first: u32,
    kept: Text,
    cell: usize,
    text: Text,
) -> Result<CellChanges, (CellChanges, Text)>
    ensures ok { IfOk result (λ more. changes_of more ≡ (first, kept) ∷ (cell, text) ∷ []) }
    ensures err { IfErr result (λ back. (changes_of back.0 ≡ (first, kept) ∷ []) × (back.1 ≡ text)) }
{
    let mut list = Vec::new(alloc);
    if list.reserve(2).is_err() {
        return Err((CellChanges::One(first, kept), text));
    }
    list.push_reserved((first as usize, kept));
    list.push_reserved((cell, text));
    Ok(CellChanges::Several(list))
}

fn with_cell(
    alloc: Global,
    changes: CellChanges,
    cell: usize,
    text: Text,
) -> Result<CellChanges, (CellChanges, Text)>
    ensures ok { IfOk result (λ more. changes_of more ≡ changes_of changes ++ (cell, text) ∷ []) }
    ensures err { IfErr result (λ back. (changes_of back.0 ≡ changes_of changes) × (back.1 ≡ text)) }
{
    match changes {
        CellChanges::Nothing => match u32::try_from(cell) {
            Ok(cell) => Ok(CellChanges::One(cell, text)),
            Err(_) => in_list(Vec::new(alloc), cell, text),
        },
        CellChanges::One(first, kept) => in_pair(alloc, first, kept, cell, text),
        CellChanges::Several(list) => in_list(list, cell, text),
    }
}

impl Patch {
    /// A patch of no cell. It takes no memory.
    pub fn new(alloc: Global) -> Patch
        ensures { result ≡ [] }
    {
        Patch {
            alloc,
            changes: CellChanges::Nothing,
        }
    }

    /// Adds a cell, from 0, with a text. Where the growth was refused nothing changes, and the text comes back.
    pub fn push(&mut self, cell: usize, text: Text) -> Result<(), Text>
        ensures ok { OnOk result (self.new ≡ self.old ++ (cell, text) ∷ []) }
        ensures err { IfErr result (λ back. (back ≡ text) × (self.new ≡ self.old)) }
    {
        let changes = mem::replace(&mut self.changes, CellChanges::Nothing);
        match with_cell(self.alloc, changes, cell, text) {
            Ok(changes) => {
                self.changes = changes;
                Ok(())
            }
            Err((changes, text)) => {
                self.changes = changes;
                Err(text)
            }
        }
    }

    /// How many cells it names.
    pub fn len(&self) -> usize
        ensures { result ≡ length self.now }
    {
        match &self.changes {
            CellChanges::Nothing => 0,
            CellChanges::One(_, _) => 1,
            CellChanges::Several(list) => list.len(),
        }
    }

    /// The cell that its i-th member names, both from 0.
    pub fn cell_at(&self, i: usize) -> usize
        requires { i < length self.now }
        ensures { result ≡ (slice_index_or self.now i (0, [])).0 }
    {
        match &self.changes {
            CellChanges::Nothing => 0,
            CellChanges::One(cell, _) => *cell as usize,
            CellChanges::Several(list) => list[i].0,
        }
    }

    /// Exchanges the text of its i-th member, from 0.
    pub fn swap(&mut self, i: usize, text: &mut Text)
        requires { i < length self.old }
        ensures text { text.new ≡ (slice_index_or self.old i (0, [])).1 }
        ensures patch { self.new ≡ slice_set self.old i ((slice_index_or self.old i (0, [])).0, text.old) }
    {
        match &mut self.changes {
            CellChanges::Nothing => {}
            CellChanges::One(_, kept) => mem::swap(kept, text),
            CellChanges::Several(list) => mem::swap(&mut list[i].1, text),
        }
    }
}
