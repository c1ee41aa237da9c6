//! A handler that was found.

ghost use Rattle.std.specs.Prelude.{◌≡◌, ◌<◌, Some, length};
ghost use Rattle.ht_tree.specs.ScriptView.{handler_of, handler_at};

use change_journal::World;
use externals::External;
use ht_tree::{Handler, Script};
use object_table::Id;
use std::marker::Model;
use std::rc::Rc;

/// A handler that was found, and the object whose script has it. It shares that script, so it stays as it was found
/// where the object's script is replaced, or the object goes.
pub struct FoundHandler {
    object: Id,
    script: Rc<Script>,
    place: usize,
    /// The first reading of that script.
    reading: Option<u64>,
}

/// Written here and not derived, so that no crate above proves anew how it is dropped.
impl Drop for FoundHandler {
    fn drop(self) {
        let FoundHandler {
            object: _,
            script: _,
            place: _,
            reading: _,
        } = self;
    }
}

impl Model for FoundHandler {
    ghost use Rattle.std.specs.Prelude.{◌<◌, length, unwrap_or};
    ghost use Rattle.ht_tree.specs.contracts.statement.Stmt as stmt;
    ghost use Rattle.ht_tree.specs.ScriptView.{handler_at};
    ghost use Rattle.msg_path.specs.Handlers.{HandlerFound, no_handler};
    ghost use Rattle.msg_path.specs.Codes.{coded_found};

    ghost Value = { HandlerFound };

    ghost coded = { coded_found stmt.the_row.coded };

    ghost view = { λ f. record {
      object = f.object;
      handler = unwrap_or
          (handler_at f.script.value f.place) no_handler;
    } };

    ghost invariant = { λ f. f.place < length f.script.value.handlers.items };
}

impl FoundHandler {
    /// The handler at a place of a script, which is that of this object, with the number of its first reading.
    pub(crate) fn new(
        object: Id,
        script: Rc<Script>,
        place: usize,
        reading: Option<u64>,
    ) -> FoundHandler
        requires { place < length script.value.handlers.items }
        ensures object { result.object ≡ object }
        ensures handler { handler_at script.value place ≡ Some result.handler }
    {
        FoundHandler {
            object,
            script,
            place,
            reading,
        }
    }

    /// The object whose script has it: `me` while it runs.
    pub fn object(&self) -> Id
        ensures { result ≡ self.now.object }
    {
        self.object
    }

    /// Whether its object still has the script in which it stands, also where the world doesn't keep the tree any more.
    /// A script that went and came back is another one. No clause says so, since no model has the readings of scripts.
    pub fn is_current<E: External>(&self, world: &World<E>) -> bool {
        match self.reading {
            Some(reading) => world.script_reading(self.object) == Some(reading),
            None => false,
        }
    }

    /// The handler.
    pub fn handler(&self) -> &Handler
        ensures { handler_of result.now ≡ self.now.handler }
    {
        &self.script.handlers[self.place]
    }
}
