//! The limits of a session.

/// The most steps of a command.
pub const MOST_STEPS: u32 = 10_000_000;

/// The longest line, in bytes.
pub const LONGEST_LINE: usize = 30_000;

/// The greatest number of a line.
pub const LAST_NUMBER: u32 = 9_999_999;

// Clauses name these constants and not their values, so each value is proved here.
const _: () = prove!(MOST_STEPS == 10_000_000);

const _: () = prove!(LONGEST_LINE == 30_000);

const _: () = prove!(LAST_NUMBER == 9_999_999);
