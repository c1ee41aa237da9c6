//! What a run of HyperTalk computes or changes between the calls of the interpreter to itself, each step by itself, as
//! the premises of the rules ask for it. What changes a world keeps the history round the open batch. A call that is
//! handed a place for a value writes it there; where it stops, what then stands in the place isn't said.
//!
//! - Values and parsing: expressions with no other one in them (`atom`, `object_count`), what stands in parentheses
//!   (`bare`), and `apply`, `apply_in_chain`, `fit`, `call_function`, `counter`, `expression`, `lines`, `message`.
//! - Places: those of variables and fields and their edits (`field_place`, `edit`, `assign`, `declare_globals`), and
//!   what is read of an operand where it stands (`operand_part`, `operand_count`, `operand_into_text`,
//!   `call_of_operand`).
//! - Objects and messages: objects and changes (`part_in`, `card_to`, `make`, `add`), handlers and externals (`find`,
//!   `bind`, `ends_message`, `take_turn`).
#![tactic(auto)]

pub mod arguments;
pub mod atoms;
pub mod chains;
pub mod joins;
mod meant;
pub mod messages;
pub mod numbers;
pub mod objects;
pub mod operands;
pub mod parens;
pub mod places;
pub mod values;
