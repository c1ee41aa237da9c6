//! Who says why lines of a run fault.

use explain::explain;
use externals::External;
use headline::Explainer;
use session::{Reply, Session};
use std::alloc::Global;

/// The words of `explain`.
#[derive(Clone, Copy)]
pub(crate) struct InWords;

impl Explainer for InWords {
    fn explain<E: External>(
        &self,
        alloc: Global,
        session: &Session<E>,
        line: &[u8],
        reply: &Reply,
    ) -> Vec<u8> {
        explain(alloc, session, line, reply).into_bytes()
    }
}
