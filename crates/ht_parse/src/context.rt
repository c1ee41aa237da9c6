//! Where a statement stands.

ghost use Rattle.std.specs.Prelude.{◌≡◌};
ghost use Rattle.ht_grammar.specs.Grammar as g;
ghost use Rattle.ht_parse.specs.Contexts.{context_of};

use ht_lex::is_same;

/// Whether a statement stands inside a repeat, and the name of the handler that it stands in, if in one.
#[derive(Clone, Copy, Debug)]
pub(crate) struct Context<'a> {
    pub in_repeat: bool,
    pub handler: Option<&'a [u8]>,
}

impl<'a> Context<'a> {
    /// Inside a repeat of this context.
    pub(crate) fn inside_repeat(self) -> Context<'a>
        ensures { context_of result ≡ g.inside_repeat (context_of self.entry) }
    {
        Context {
            in_repeat: true,
            handler: self.handler,
        }
    }

    /// Whether this is the name of the handler.
    pub(crate) fn names_handler(self, name: &[u8]) -> bool
        ensures { result ≡ g.names_handler (context_of self.entry).handler name.now }
    {
        match self.handler {
            None => false,
            Some(handler) => is_same(handler, name),
        }
    }
}
