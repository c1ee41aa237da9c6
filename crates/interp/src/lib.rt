//! The interpreter of HyperTalk: expressions, statements, messages and conversations on a world.
//!
//! - `run_line` runs the lines of a command, `send_message` sends a message to an object by itself, and `find_ref`
//!   finds the object of a dot line's reference.
//! - Each ends as the rules of `meaning` allow, in that history and that run, and keeps the history round the open
//!   batch.
#![tactic(auto)]

/// Keeps a function apart from the one that calls it, by a second call that is never made. Rattle's own compiler joins
/// a function with its only caller, and then each level of a tree has room for what all forms need.
macro_rules! keep_apart {
    ($call:expr) => {
        if false {
            return $call;
        }
    };
}

mod conversation;
mod expr;
mod functions;
mod line;
mod message;
mod numbers;
mod operators;
mod pieces;
mod reference;
mod repeat;
mod stmt;
mod system;

pub use line::{find_ref, run_line, send_message};
