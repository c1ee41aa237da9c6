//! Trees of scripts that were parsed.

ghost use Rattle.std.specs.Prelude.{◌≡◌, ◌+◌, ◌<◌, ◌≤◌, length, IfSome};
ghost use Rattle.ht_grammar.specs.Reads.{Reads, ReadsScript};
ghost use Rattle.ht_tree.specs.ScriptView.{script_of};
ghost use Rattle.object_table.specs.Content.{Content};
ghost use Rattle.stack_places.specs.Exchange.{exchanged};
ghost use Rattle.journal_entries.specs.ScriptTrees.{AreTrees, HasRoomFor, IsCounted, IsTreeOf, KeepsFewer};
ghost use Rattle.journal_entries.specs.ScriptTrees.{changes_script_of, how_many, kept_of, object_script, trees_in};
ghost use Rattle.journal_entries.specs.declared.script_trees.TheConstants.{MOST_KEPT_BYTES};

use ht_tree::Script;
use object_table::{Id, PropValue};
use stack_places::StackEntry;
use std::alloc::{AllocError, Global};
use std::collections::BTreeMap;
use std::rc::Rc;

/// How many bytes the scripts may have together whose trees are kept. A tree takes 12 times the memory of an ordinary
/// script and up to 80 times that of sums of names of one letter, so the trees take some 80 MB at most.
pub(crate) const MOST_KEPT_BYTES: usize = 1_000_000;

const _: () = prove!(MOST_KEPT_BYTES == 1_000_000);

/// The tree of a script of so many bytes.
#[derive(Drop)]
struct KeptTree {
    tree: Rc<Script>,
    bytes: usize,
}

/// The first and the last time that the script of an object was read, since it was put there.
#[derive(Clone, Copy)]
struct Readings {
    first: u64,
    last: u64,
}

/// Trees of scripts that were parsed, at most one for each object. A tree goes before the script of its object changes,
/// so one that is there is that of the script of now. Each reading has a number, by which its tree is kept: so the
/// first tree is the oldest one, and goes where there is no room for another.
#[derive(Drop)]
pub(crate) struct ScriptTrees {
    readings: BTreeMap<Id, Readings>,
    trees: BTreeMap<u64, KeptTree>,
    bytes: usize,
    next_reading: u64,
}

impl ScriptTrees {
    /// No trees. It takes no memory.
    pub(crate) fn new(alloc: Global) -> ScriptTrees
        ensures trees { (s : Content) → AreTrees s (trees_in result) }
        ensures counted { IsCounted result }
    {
        ScriptTrees {
            readings: BTreeMap::new(alloc),
            trees: BTreeMap::new(alloc),
            bytes: 0,
            next_reading: 0,
        }
    }

    /// The tree of an object's script, if it is kept, and the number of the first reading of that script.
    pub(crate) fn get(&self, id: Id) -> Option<(u64, &Rc<Script>)>
        ensures { (s : Content) → AreTrees s (trees_in self.now)
            → IfSome result (λ r. Reads ReadsScript (object_script s id) (script_of r.1.now.value)) }
    {
        let readings = self.readings.get(&id)?;
        let kept = self.trees.get(&readings.last)?;
        Some((readings.first, &kept.tree))
    }

    /// The number of the first reading of an object's script, if it was read. It stays while the script does, also
    /// where the tree goes; no other script gets it.
    pub(crate) fn first_reading(&self, id: Id) -> Option<u64> {
        match self.readings.get(&id) {
            Some(readings) => Some(readings.first),
            None => None,
        }
    }

    /// Keeps the tree of an object's script, which has so many bytes. The oldest trees go where there is no room for
    /// it.
    pub(crate) fn keep(&mut self, id: Id, tree: Rc<Script>, bytes: usize) -> Result<(), AllocError>
        requires counted { IsCounted self.old }
        requires few { bytes ≤ MOST_KEPT_BYTES }
        ensures trees { (s : Content) → AreTrees s (trees_in self.old)
            → Reads ReadsScript (object_script s id) (script_of tree.value) → bytes ≡ length (object_script s id)
            → AreTrees s (trees_in self.new) }
        ensures counted { IsCounted self.new }
    {
        if self.get(id).is_some() {
            return Ok(());
        }
        let Some(next) = self.next_reading.checked_add(1) else {
            return Ok(());
        };
        self.make_room(bytes);
        self.put(id, KeptTree { tree, bytes }, next)
    }

    /// Drops the tree of the script that an exchange may change. It takes no memory.
    pub(crate) fn forget(&mut self, entry: &StackEntry)
        requires counted { IsCounted self.old }
        ensures trees { (s : Content) → AreTrees s (trees_in self.old)
            → AreTrees (exchanged s entry.now) (trees_in self.new) }
        ensures counted { IsCounted self.new }
    {
        let Some(id) = changed_script(entry) else {
            return;
        };
        if let Some(readings) = self.readings.remove(&id) {
            self.drop_tree(readings.last);
        }
    }

    /// Puts the tree of an object's script, for which there is room, behind those that are kept, as that of the next
    /// reading.
    fn put(&mut self, id: Id, kept: KeptTree, next: u64) -> Result<(), AllocError>
        requires counted { IsCounted self.old }
        requires room { HasRoomFor kept.bytes self.old }
        requires next { next ≡ self.old.next_reading + 1 }
        ensures trees { (s : Content) → AreTrees s (trees_in self.old) → IsTreeOf (object_script s id) (kept_of kept)
            → AreTrees s (trees_in self.new) }
        ensures counted { IsCounted self.new }
    {
        let reading = self.next_reading;
        let first = self.first_reading(id).unwrap_or(reading);
        self.next_reading = next;
        self.readings.insert(
            id,
            Readings {
                first,
                last: reading,
            },
        )?;
        let bytes = kept.bytes;
        self.trees.insert(reading, kept)?;
        self.bytes += bytes;
        Ok(())
    }

    /// Drops the tree of this number, if it is kept.
    fn drop_tree(&mut self, number: u64)
        requires counted { IsCounted self.old }
        ensures fewer { KeepsFewer self.old self.new }
        ensures counted { IsCounted self.new }
    {
        if let Some(kept) = self.trees.remove(&number) {
            self.bytes -= kept.bytes;
        }
    }

    /// Drops the oldest tree.
    fn drop_oldest(&mut self)
        requires counted { IsCounted self.old }
        requires some { 0 < self.old.bytes }
        ensures fewer { KeepsFewer self.old self.new }
        ensures counted { IsCounted self.new }
        ensures less { how_many self.new < how_many self.old }
    {
        if let Some((_, kept)) = self.trees.pop_first() {
            self.bytes -= kept.bytes;
        }
    }

    /// Drops the oldest trees, until there is room for a script of so many bytes.
    fn make_room(&mut self, bytes: usize)
        requires counted { IsCounted self.old }
        requires few { bytes ≤ MOST_KEPT_BYTES }
        ensures fewer { KeepsFewer self.old self.new }
        ensures counted { IsCounted self.new }
        ensures room { HasRoomFor bytes self.new }
    {
        while self.bytes > MOST_KEPT_BYTES - bytes {
            self.drop_oldest();
        }
    }
}

/// The object whose script an exchange may change.
fn changed_script(entry: &StackEntry) -> Option<Id>
    ensures { result ≡ changes_script_of entry.now }
{
    match entry {
        StackEntry::Prop(id, PropValue::ScriptIs(_)) | StackEntry::Object(id, _) => Some(*id),
        _ => None,
    }
}
