//! The values of HyperTalk: texts of at most 30,000 bytes, names with their folded form, numbers and truth values, and
//! the faults that end a command.
//!
//! - Each operator and each function gives exactly its value or its first fault (`number_of`, `Value::number`,
//!   `Value::truth`, `binary`, `unary`, `built_in`). `Func::named` is the function of a name.
//! - A value that is kept as a number or as a truth value (`Value`) means what its text means. To it another can be
//!   added where its text stands (`Value::append`).
//! - Laws: numerals read back; quotient and remainder make the dividend; the order is total among numbers and among
//!   texts.
#![tactic(auto)]

mod applied;
mod arithmetic;
mod comparison;
mod failure;
mod fault;
mod few_bytes;
mod function;
mod join;
mod law;
mod logic;
mod name;
mod number;
mod on_numbers;
mod operator;
mod search;
mod text;
mod value;
mod word;

pub use applied::{binary, unary};
pub use failure::Failure;
pub use fault::{Fault, TextError};
pub use few_bytes::IN_PLACE;
pub use function::built_in;
pub use join::{joined, joined_fitting};
pub use law::{
    div_and_mod_divide, numerals_read_back, places_are_first, texts_are_ordered, values_are_ordered,
};
pub use logic::{in_word, truth_of};
pub use name::Name;
pub use number::{number_of, numeral, plain_number, without_front_spaces};
pub use on_numbers::{number_by, truth_by};
pub use operator::{Func, Op, UnOp, ValueType};
pub use text::{LIMIT, Text, law_of_text, text_of};
pub use value::{Spelling, Value, law_of_value};
pub use word::{ChunkKind, PartKind, Prop, Where};
