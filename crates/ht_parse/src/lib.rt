//! Whole texts are read to trees: scripts, typed lines, expressions, references and messages.
//!
//! - `parse_script`, `parse_lines`, `parse_expr`, `parse_part`, `parse_type` and `parse_message` give the tree that the
//!   grammar gives a text, and no other tree reads it.
//! - They answer `Syntax` exactly where there is no tree; in a command that is the fault of syntax. Nesting is refused
//!   past 100 levels.
//! - `RecentTexts` answers as these do for lines, messages and expressions. It keeps the last texts of each kind with
//!   their trees, and a text that it keeps isn't read again.
//! - Only tested: that a text is kept, which shows in time alone, and the place in the text that a `Syntax` tells.
#![tactic(auto)]

mod container;
mod context;
mod error;
mod line_words;
mod lines;
mod parse;
mod recent;
mod simple;
mod whole;

pub use error::ParseError;
pub use ht_tree::{
    Chunk, Container, ContainerKind, Count, Destination, Expr, ExprKind, Exprs, Handler, Head,
    Message, Names, Owner, Part, Ref, Script, Selector, Stmt, StmtKind, Stmts, Typing, Which,
};
pub use parse::{parse_expr, parse_lines, parse_message, parse_part, parse_script, parse_type};
pub use recent::RecentTexts;
