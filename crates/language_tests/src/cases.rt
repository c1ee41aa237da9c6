//! Tables of cases, and what their rows share.

use ht_values::Text;
use std::alloc::Global;

/// A row of a table.
pub trait Case {
    /// Whether the crates do what the row says.
    fn is_met(&self, alloc: Global) -> bool;
}

/// The number of the first row of a table that isn't met, if there is one.
pub fn first_unmet<C: Case>(alloc: Global, rows: &[C]) -> Option<usize> {
    for (i, row) in rows.iter().enumerate() {
        if !row.is_met(alloc) {
            return Some(i);
        }
    }
    None
}

/// A text of these bytes; none where memory is refused.
pub fn text_of(alloc: Global, bytes: &[u8]) -> Option<Text> {
    Text::from_slice(alloc, bytes).ok()
}
