//! The limits of a run.

/// How many calls may be nested. The number is this project's profile.
pub const MOST_NESTED: u32 = 100;

/// How many arguments an external is handed at most. The number is this project's profile.
pub const MOST_ARGUMENTS: usize = 16;

// The rules say the numbers, so each value is proved here.
const _: () = prove!(MOST_NESTED == 100);

const _: () = prove!(MOST_ARGUMENTS == 16);
