//! Names with what they are called with, where others may have the names too.

use crate::expr::{Expr, Exprs};
use ht_values::Name;
use std::rc::Rc;

/// A function or a command with one argument.
#[cycle(tree)]
pub struct CallOf {
    pub name: Rc<Name>,
    pub argument: Expr,
}

/// Written here and not derived, so that no crate above proves anew how it is dropped.
impl Drop for CallOf {
    #[cycle(tree)]
    fn drop(self) {
        let CallOf {
            name: _,
            argument: _,
        } = self;
    }
}

/// A command with several arguments.
pub struct CallWith {
    pub name: Rc<Name>,
    pub arguments: Exprs,
}

/// Written here and not derived, so that no crate above proves anew how it is dropped.
impl Drop for CallWith {
    fn drop(self) {
        let CallWith {
            name: _,
            arguments: _,
        } = self;
    }
}
