//! What a message meets next.

ghost use Rattle.std.specs.Prelude.{◌≡◌, ◌<◌, length, IfSome};
ghost use Rattle.ht_grammar.specs.Reads.{Reads, ReadsScript};
ghost use Rattle.ht_tree.specs.ScriptView.{script_of};
ghost use Rattle.object_table.specs.Content.{Content};
ghost use Rattle.journal_entries.specs.ScriptTrees.{object_script};
ghost use Rattle.journal_entries.specs.State.{seen_by};
ghost use Rattle.msg_path.specs.Handlers.{First};
ghost use Rattle.msg_path.specs.BuiltIns.{answers as is_answering, calls_function as is_function_call};
ghost use Rattle.msg_path.specs.BuiltIns.{external_named as external_by_name};
ghost use Rattle.msg_path.specs.Meets.{GivesDue, LeadsOn, Meets};

use crate::built_in::BuiltIn;
use crate::found::FoundHandler;
use crate::scripts::parsed_tree;
use change_journal::World;
use externals::External;
use ht_grammar::HandlerKind;
use ht_tree::Script;
use ht_values::{Failure, Text};
use object_table::Id;
use std::alloc::Global;
use std::rc::Rc;

/// What a message meets.
pub enum Found {
    /// A handler on the path.
    Handler(FoundHandler),
    /// The external with this number, from 0.
    External(usize),
    BuiltIn(BuiltIn),
    Nobody,
}

/// Written here and not derived, so that no crate above proves anew how it is dropped.
impl Drop for Found {
    fn drop(self) {
        match self {
            Found::Handler(_) => {}
            Found::External(_) => {}
            Found::BuiltIn(_) => {}
            Found::Nobody => {}
        }
    }
}

/// The first handler of a kind and a name in the tree of an object's script, with the number of the first reading of
/// that script. The tree is shared only where it has one.
#[inline(always)]
fn handler_in_tree(
    id: Id,
    tree: &Rc<Script>,
    reading: Option<u64>,
    kind: HandlerKind,
    name: &Text,
) -> Result<Option<FoundHandler>, Failure>
    ensures { (s : Content) → Reads ReadsScript (object_script s id) (script_of tree.now.value)
        → GivesDue (LeadsOn s id kind name.now) result }
{
    match tree.first(kind, name) {
        Some(place) => Ok(Some(FoundHandler::new(id, tree.clone()?, place, reading))),
        None => Ok(None),
    }
}

/// The first handler of a kind and a name in the script of an object. `Syntax` where the script isn't in the grammar.
fn handler_here<E: External>(
    alloc: Global,
    world: &mut World<E>,
    id: Id,
    kind: HandlerKind,
    name: &Text,
) -> Result<Option<FoundHandler>, Failure>
    ensures due { GivesDue (LeadsOn world.old.history.now.stack id kind name.now) result }
    ensures world { world.new ≡ world.old }
{
    if let Some((reading, tree)) = world.script_tree(id) {
        return handler_in_tree(id, tree, Some(reading), kind, name);
    }
    let tree = parsed_tree(alloc, world, id)?;
    handler_in_tree(id, &tree, world.script_reading(id), kind, name)
}

/// The first handler of a kind and a name on a path; `None` where no script on it has one. Scripts are parsed one after
/// another, up to the one that has it: one on the way that isn't in the grammar is the fault `Syntax`. The world keeps
/// the trees, which shows nowhere but in time.
pub fn first_handler<E: External>(
    alloc: Global,
    world: &mut World<E>,
    path: &[Id],
    kind: HandlerKind,
    name: &Text,
) -> Result<Option<FoundHandler>, Failure>
    ensures due { GivesDue (First world.old.history.now.stack path.now kind name.now) result }
    ensures world { world.new ≡ world.old }
{
    for id in path {
        if let Some(found) = handler_here(alloc, world, *id, kind, name)? {
            return Ok(Some(found));
        }
    }
    Ok(None)
}

/// Whether messages of this kind are function calls.
fn calls_function(kind: HandlerKind) -> bool
    ensures { result ≡ is_function_call kind }
{
    match kind {
        HandlerKind::Command => false,
        HandlerKind::Function => true,
    }
}

/// Whether an external has this name and answers function calls, or commands.
fn answers<E: External>(external: &E, is_function: bool, name: &Text) -> bool
    ensures { result ≡ is_answering is_function name.now (seen_by E.title E.sort E.answers_calls E.cells external.now) }
{
    external.is_function() == is_function && external.name().same(name)
}

/// The number of the external that answers commands of a name, or with `is_function` calls of it. Case is ignored. It
/// takes no memory.
pub fn external_named<E: External>(
    world: &World<E>,
    is_function: bool,
    name: &Text,
) -> Option<usize>
    ensures value { result ≡ external_by_name world.now.history.now.externals is_function name.now }
    ensures there { IfSome result (λ i. i < length world.now.history.now.externals) }
{
    for i in 0..world.external_count() {
        if answers(world.external(i), is_function, name) {
            return Some(i);
        }
    }
    None
}

/// What a message of a kind and a name meets: the first handler on the path; without one, after the stack, the external
/// of that name; else what is built in. A script on the way that isn't in the grammar is the fault `Syntax`.
#[tactic(auto, using(crate::proofs::Rules::meeting))]
pub fn next_handler<E: External>(
    alloc: Global,
    world: &mut World<E>,
    path: &[Id],
    kind: HandlerKind,
    name: &Text,
) -> Result<Found, Failure>
    ensures due { GivesDue (Meets world.old.history.now path.now kind name.now) result }
    ensures world { world.new ≡ world.old }
{
    if let Some(found) = first_handler(alloc, world, path, kind, name)? {
        return Ok(Found::Handler(found));
    }
    if let Some(i) = external_named(world, calls_function(kind), name) {
        return Ok(Found::External(i));
    }
    Ok(match BuiltIn::named(kind, name) {
        Some(built_in) => Found::BuiltIn(built_in),
        None => Found::Nobody,
    })
}
