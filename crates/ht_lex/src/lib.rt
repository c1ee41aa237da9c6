//! The words, symbols and tokens of HyperTalk.
//!
//! - A text is cut into exactly its longest tokens, or the first place where none begins is told (`lex`).
//! - Which words are names (`is_name`), and what a constant stands for (`Constant::bytes`), is exact.
//! - A cursor goes over the tokens, which contracts see as the grammar does (`Cursor`).
//! - Only tested: where a token begins in its text (`Cursor::place`).
//! - Not claimed: which names a text shares (`Cursor::shared_name`), which shows in time and memory alone.
#![tactic(auto)]

mod cursor;
mod cut;
mod key;
mod law;
mod lexeme;
mod names;
mod shared_names;
mod stop;
mod tokens;

pub use cursor::Cursor;
pub use cut::lex;
pub use key::{Constant, Key, Ordinal, TokenKind};
pub use law::texts_are_cut_exactly;
pub use names::{is_name, is_same};
pub use stop::{Stop, to_name, to_text};
pub use tokens::{LexError, Span, Token, Tokens};
