//! Scripts, messages and texts that are typed.

ghost use Rattle.std.specs.Prelude.{◌≡◌, ◌≤◌, ◌<◌, length, IfOk, IfSome, option_and_then};
ghost use Rattle.ht_values.specs.Text.{same};
ghost use Rattle.ht_grammar.specs.Statements as s;
ghost use Rattle.ht_grammar.specs.Depth.{handlers_depth, message_depth, max_depth};
ghost use Rattle.ht_grammar.specs.Handlers.{takes, handler_in};
ghost use Rattle.ht_tree.specs.ScriptView.{handler_of, handler_at, script_of, message_of, with_handler};

use crate::expr::Exprs;
use crate::reference::Part;
use crate::statement::Stmts;
use ht_grammar::HandlerKind;
use ht_values::Text;
use name_lists::Parameters;
use std::alloc::{AllocError, Global};

/// A handler of a script.
pub struct Handler {
    pub kind: HandlerKind,
    pub name: Text,
    pub parameters: Parameters,
    pub lines: Stmts,
}

/// Written here and not derived, so that no crate above proves anew how it is dropped.
impl Drop for Handler {
    fn drop(self) {
        let Handler {
            kind: _,
            name: _,
            parameters: _,
            lines: _,
        } = self;
    }
}

/// The handlers of a script, in order.
pub struct Script {
    pub handlers: Vec<Handler>,
}

/// Written here and not derived, so that no crate above proves anew how a tree is dropped.
impl Drop for Script {
    fn drop(self) {
        let Script { handlers: _ } = self;
    }
}

/// A text for `send`: a name and its arguments.
pub struct Message {
    pub name: Text,
    pub arguments: Exprs,
}

/// Written here and not derived, so that no crate above proves anew how it is dropped.
impl Drop for Message {
    // Else each place that drops one has a copy of it in its frame.
    #[inline(always)]
    fn drop(self) {
        let Message {
            name: _,
            arguments: _,
        } = self;
    }
}

/// A text that is typed, and the field for it.
#[derive(Drop)]
pub struct Typing {
    pub text: Text,
    pub field: Part,
}

impl Handler {
    /// Whether it takes messages of a kind and a name. Case is ignored.
    pub fn takes(&self, kind: HandlerKind, name: &Text) -> bool
        ensures { result ≡ takes kind name.now (handler_of self.now) }
    {
        self.kind == kind && is_same_name(&self.name, name)
    }
}

/// Whether two names are the same. Case is ignored.
#[inline]
fn is_same_name(left: &Text, right: &Text) -> bool
    ensures { result ≡ same left.now right.now }
{
    // Most messages are spelled as their handlers are, and then no letter is folded.
    left.as_slice() == right.as_slice() || left.same(right)
}

impl Script {
    /// No handlers.
    pub fn new(alloc: Global) -> Script
        ensures { script_of result ≡ s.no_handlers }
    {
        Script {
            handlers: Vec::new(alloc),
        }
    }

    /// The script with another handler at its end. An error where a growth of memory was refused.
    #[tactic(auto, using(crate::proofs::Lists::handlers_with))]
    pub fn with(mut self, handler: Handler) -> Result<Script, AllocError>
        ensures { IfOk result (λ script. script_of script ≡ with_handler (script_of self) (handler_of handler)) }
    {
        self.handlers.push(handler)?;
        Ok(self)
    }

    /// The same handlers, in no more memory than they need.
    pub fn fitted(mut self) -> Script
        ensures { script_of result ≡ script_of self }
    {
        self.handlers.shrink_to_fit();
        self
    }

    /// The place of the first handler of a kind and a name, counted from 0. Case in the name is ignored. It takes no
    /// memory.
    pub fn first(&self, kind: HandlerKind, name: &Text) -> Option<usize>
        ensures value { option_and_then (handler_at self.now) result ≡ handler_in (script_of self.now) kind name.now }
        ensures there { IfSome result (λ place. place < length self.now.handlers.items) }
    {
        for (place, handler) in self.handlers.iter().enumerate() {
            if handler.takes(kind, name) {
                return Some(place);
            }
        }
        None
    }

    /// The depth of the deepest statement, 0 where there is none.
    pub fn depth(&self) -> usize
        ensures value { result ≡ handlers_depth (script_of self.now) }
        ensures limit { result ≤ max_depth }
    {
        let mut deepest = 0;
        let mut rest = self.handlers.as_slice();
        while let [first, later @ ..] = rest {
            deepest = deepest.max(first.lines.depth());
            rest = later;
        }
        deepest
    }
}

impl Message {
    /// The depth of the deepest argument, 0 where there is none.
    pub fn depth(&self) -> usize
        ensures value { result ≡ message_depth (message_of self.now) }
        ensures limit { result ≤ max_depth }
    {
        self.arguments.depth()
    }
}
