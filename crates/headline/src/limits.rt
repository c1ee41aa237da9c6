//! The limits of a run.

/// The most lines of one run.
pub const MOST_LINES: u32 = 1_000_000;

/// The most bytes of one run.
pub const MOST_BYTES: u32 = 1_000_000_000;

// Clauses name these constants and not their values, so each value is proved here.
const _: () = prove!(MOST_LINES == 1_000_000);

const _: () = prove!(MOST_BYTES == 1_000_000_000);
