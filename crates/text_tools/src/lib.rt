//! Two externals of the kind that people wrote, for texts. They stand beside the kit as an example.
//!
//! - `Replace` gives exactly the text with each occurrence replaced, or fails where it is too long.
//! - `Table` keeps, finds and forgets exactly as its definition says.
//! - Both are in the table of their type (`TextTool`).
#![tactic(auto)]

mod replace;
mod table;
mod text_tool;

pub use text_tool::TextTool;
