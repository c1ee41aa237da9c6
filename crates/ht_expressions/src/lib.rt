//! Expressions and references, read from tokens. Each rule is a method over a reader of the parts of an expression, and
//! is proved by itself.
//!
//! - They are read exactly as the grammar's reading does (`read`, `arguments`, `chunk_head`, `part`, `field`,
//!   `reference`, `selector`).
//! - Which operator comes next is told exactly, with its rank and the tokens after it (`take_operator`, `end_rank`).
#![tactic(auto)]

mod chunk;
mod contextual_keywords;
mod expr;
mod front;
mod grammar;
mod object;
mod operator;
mod parser;

pub use contextual_keywords::{prop_front, run_prop};
pub use front::{eat_of, referenced_layer, skip_the};
pub use grammar::{Level, WHOLE};
pub use operator::{LeadingOperator, end_rank, take_operator};
pub use parser::{arguments, chunk_head, field, part, read, reference, selector};
