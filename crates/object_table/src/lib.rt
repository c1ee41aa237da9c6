//! The objects of a stack, their orders and the parts of its layers, texts and hilites, with exchanges that take no
//! memory.
//!
//! - Each reader is its definition. Each of the eight exchanges is an exchange at its place and nothing else; memory is
//!   never its answer. Opening room changes nothing else.
//! - The empty stack is well formed, and the blank one holds nothing.
#![tactic(auto)]

mod field_text;
mod ids;
mod name;
mod number;
mod object;
mod pages;
mod pair_table;
mod property;
mod reference;
mod row;
mod slot_table;
mod stack;

pub use field_text::FieldText;
pub use ht_values::{PartKind, Prop};
pub use ids::{Id, IdList};
pub use name::ObjectName;
pub use object::{Kind, LayerId, Object};
pub use property::PropValue;
pub use reference::Which;
pub use stack::Stack;
