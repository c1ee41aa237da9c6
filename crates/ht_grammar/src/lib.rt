//! The grammar of HyperTalk as rules: its trees, which tokens are which tree, and the reading of tokens as a function.
//! It is a crate of definitions and laws.
//!
//! - Laws: a text is cut into tokens and read as a tree exactly as the rules say, and no text has two trees
//!   (`texts_are_read_exactly`).
#![tactic(auto)]

mod law;
mod vocabulary;

pub use law::{
    expressions_are_read_exactly, lines_are_read_exactly, messages_are_read_exactly,
    parts_are_read_exactly, scripts_are_read_exactly, texts_are_read_exactly,
    typing_is_read_exactly,
};
pub use vocabulary::{FunctionWord, HandlerKind, Layer, RunProp};
