//! The trees of HyperTalk in memory, which contracts see as the grammar's.
//!
//! - Expressions, containers and statements know their depth, and their types bound it by 100.
//! - `Script::first` is the first handler of a kind and a name in a script.
//! - Only tested: where a statement begins in its text (`Stmt::place`).
#![tactic(auto)]

mod call;
mod chunk;
mod container;
mod expr;
mod operators;
mod reference;
mod script;
mod statement;

pub use call::{CallOf, CallWith};
pub use chunk::{Bounds, Chunk};
pub use container::{Container, ContainerKind};
pub use expr::{Expr, ExprForm, ExprKind, Exprs};
pub use operators::{Binary, Chain, Joined, LeftNested, RightNested, Unary};
pub use reference::{Count, Owner, Part, Ref, Selector, Which};
pub use script::{Handler, Message, Script, Typing};
pub use statement::{
    Branches, Counting, Destination, Head, Names, Stmt, StmtForm, StmtKind, Stmts,
};
