//! Words with a meaning that aren't reserved, and the places that words name.

ghost use Rattle.std.specs.Prelude.{◌≡◌};
ghost use Rattle.ht_grammar.specs.Functions.{func_of};

use ht_values::Func;

/// A property of the run.
#[derive(Clone, Copy, PartialEq, Eq, Debug)]
pub enum RunProp {
    ItemDelimiter,
    LockMessages,
    EditBkgnd,
}

/// A function that is called by `the`, as in `the length of`.
#[derive(Clone, Copy, PartialEq, Eq, Debug)]
pub enum FunctionWord {
    Abs,
    CharToNum,
    NumToChar,
    Length,
    Value,
}

impl FunctionWord {
    /// The function of texts alone that it calls; none for `value`, which computes.
    pub fn func(self) -> Option<Func>
        ensures { result ≡ func_of self }
    {
        match self {
            FunctionWord::Abs => Some(Func::Abs),
            FunctionWord::CharToNum => Some(Func::CharToNum),
            FunctionWord::NumToChar => Some(Func::NumToChar),
            FunctionWord::Length => Some(Func::Length),
            FunctionWord::Value => None,
        }
    }
}

#[derive(Clone, Copy, PartialEq, Eq, Debug)]
pub enum Layer {
    Card,
    Background,
}

#[derive(Clone, Copy, PartialEq, Eq, Debug)]
pub enum HandlerKind {
    Command,
    Function,
}
