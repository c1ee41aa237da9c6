//! Who says why lines fault.

use externals::External;
use session::{Reply, Session};
use std::alloc::Global;

/// Says in words, for people, why a line faulted or was refused. No answer, state or saved text depends on it.
pub trait Explainer {
    /// The words for a line with this reply, after which the session stands so: lines of text, without an end of the
    /// last. There are none where there is nothing to say, or no memory for it.
    fn explain<E: External>(
        &self,
        alloc: Global,
        session: &Session<E>,
        line: &[u8],
        reply: &Reply,
    ) -> Vec<u8>;
}

/// Says nothing.
#[derive(Clone, Copy)]
pub struct Silent;

impl Explainer for Silent {
    fn explain<E: External>(
        &self,
        alloc: Global,
        _session: &Session<E>,
        _line: &[u8],
        _reply: &Reply,
    ) -> Vec<u8> {
        Vec::new(alloc)
    }
}
