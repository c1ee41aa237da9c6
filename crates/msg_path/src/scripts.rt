//! Scripts of objects, as trees.

ghost use Rattle.std.specs.Prelude.{◌≡◌, [], IfOk};
ghost use Rattle.ht_grammar.specs.Reads.{Reads, ReadsScript};
ghost use Rattle.ht_tree.specs.ScriptView.{script_of};
ghost use Rattle.journal_entries.specs.ScriptTrees.{object_script};
ghost use Rattle.msg_path.specs.Trees.{GivesTree};

use change_journal::World;
use externals::External;
use ht_parse::parse_script;
use ht_tree::Script;
use ht_values::{Failure, Text};
use object_table::{Id, Stack};
use std::alloc::{AllocError, Global};
use std::rc::Rc;

/// The script of an object, which is empty where there is no such object.
fn script_text<'a>(stack: &'a Stack, id: Id, empty: &'a Text) -> &'a Text
    requires { empty.now ≡ [] }
    ensures { result.now ≡ object_script stack.now.content id }
{
    match stack.object(id) {
        Some(object) => &object.script,
        None => empty,
    }
}

/// The tree of a script, in no more memory than it needs. `Syntax` where it isn't in the grammar.
fn parsed(alloc: Global, text: &Text) -> Result<Script, Failure>
    ensures { GivesTree script_of text.now result }
{
    let script = parse_script(alloc, text)?;
    Ok(script.fitted())
}

/// Keeps the tree of an object's script in the world, and shares it.
fn kept<E: External>(
    alloc: Global,
    world: &mut World<E>,
    id: Id,
    script: Script,
) -> Result<Rc<Script>, AllocError>
    requires { Reads ReadsScript (object_script world.old.history.now.stack id) (script_of script) }
    ensures tree { IfOk result (λ tree. tree.value ≡ script) }
    ensures world { world.new ≡ world.old }
{
    let tree = Rc::new(alloc, script)?;
    world.keep_script_tree(id, tree.clone()?)?;
    Ok(tree)
}

/// The tree of an object's script, shared. The script is parsed, and the world keeps its tree from then on. `Syntax`
/// where the script isn't in the grammar.
#[inline(never)]
pub(crate) fn parsed_tree<E: External>(
    alloc: Global,
    world: &mut World<E>,
    id: Id,
) -> Result<Rc<Script>, Failure>
    ensures tree { GivesTree (λ tree. script_of tree.value) (object_script world.old.history.now.stack id) result }
    ensures world { world.new ≡ world.old }
{
    let empty = Text::new(alloc);
    let script = parsed(alloc, script_text(world.stack(), id, &empty))?;
    Ok(kept(alloc, world, id, script)?)
}
