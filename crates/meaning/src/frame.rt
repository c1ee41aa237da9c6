//! The frame of what runs: whose handler it is, to whom the message was sent, and its variables.

ghost use Rattle.std.specs.Prelude.{◌≡◌, [], OnOk};
ghost use Rattle.meaning.specs.State.{handler_frame, typed_frame_at};

use containers::Variables;
use ht_values::Value;
use name_lists::Parameters;
use object_table::Id;
use std::alloc::{AllocError, Global};

/// The frame of a handler, or of a typed line.
pub struct Frame {
    /// The object whose handler runs.
    pub me: Id,
    /// The object to which the message was sent.
    pub target: Id,
    pub variables: Variables,
}

/// Written here and not derived, so that no crate above proves anew how it is dropped.
impl Drop for Frame {
    // Else each place that drops one has a copy of it in its frame.
    #[inline(always)]
    fn drop(self) {
        let Frame {
            me: _,
            target: _,
            variables: _,
        } = self;
    }
}

impl Frame {
    /// The frame of a typed line, of a reference in a dot line or of a call-back, with the card that is current: each
    /// variable is global. It takes no memory.
    pub fn typed(alloc: Global, card: Id) -> Frame
        ensures { result ≡ typed_frame_at card }
    {
        Frame {
            me: card,
            target: card,
            variables: Variables::of_typed_line(alloc),
        }
    }

    /// The frame of a handler of an object, whose parameters have no arguments yet. It takes no memory.
    #[inline(always)]
    pub fn of_handler(alloc: Global, me: Id, target: Id) -> Frame
        ensures { result ≡ handler_frame me target [] [] }
    {
        Frame {
            me,
            target,
            variables: Variables::of_handler(alloc),
        }
    }

    /// Gives the parameters of the handler the arguments. It takes no memory where there are no parameters.
    #[inline(always)]
    pub fn bind(
        &mut self,
        alloc: Global,
        parameters: &Parameters,
        arguments: &[Value],
    ) -> Result<(), AllocError>
        ensures { OnOk result (self.new ≡ handler_frame self.old.me self.old.target parameters.now arguments.now) }
    {
        self.variables.bind(alloc, parameters, arguments)
    }
}
