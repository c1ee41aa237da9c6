//! How a command can fail.

ghost use Rattle.std.specs.Prelude.{◌≡◌};
ghost use Rattle.ht_values.specs.Faults.{number_of_fault};

use thiserror::Error;

/// What ends a command. What it changed before is kept. The numbers are this project's profile.
#[derive(Clone, Copy, PartialEq, Eq, Debug, Error)]
pub enum Fault {
    #[error("the text is not in the grammar")]
    Syntax,
    #[error("nothing understands the message")]
    CantUnderstand,
    #[error("there is no such object")]
    NoSuchObject,
    #[error("the value is not a number")]
    NotANumber,
    #[error("the number is out of range")]
    OutOfRange,
    #[error("a number was divided by zero")]
    DivideByZero,
    #[error("the quotient is not exact")]
    NotExact,
    #[error("the text is over 30,000 bytes")]
    TooLong,
    #[error("the value is neither true nor false")]
    NotLogical,
    #[error("the object has no such property, or it can't be set")]
    NoSuchProperty,
    #[error("no steps are left")]
    StepLimit,
    #[error("calls are nested too deep")]
    TooDeep,
    #[error("the external failed")]
    ExternalFault,
    #[error("the card can't be deleted")]
    CantDelete,
    #[error("there are too many objects")]
    TooMany,
    #[error("the argument is bad")]
    BadArgument,
}

impl Fault {
    /// The number under which the fault is answered, 1 to 16.
    pub fn number(self) -> u8
        ensures { result ≡ number_of_fault self }
    {
        match self {
            Fault::Syntax => 1,
            Fault::CantUnderstand => 2,
            Fault::NoSuchObject => 3,
            Fault::NotANumber => 4,
            Fault::OutOfRange => 5,
            Fault::DivideByZero => 6,
            Fault::NotExact => 7,
            Fault::TooLong => 8,
            Fault::NotLogical => 9,
            Fault::NoSuchProperty => 10,
            Fault::StepLimit => 11,
            Fault::TooDeep => 12,
            Fault::ExternalFault => 13,
            Fault::CantDelete => 14,
            Fault::TooMany => 15,
            Fault::BadArgument => 16,
        }
    }
}

/// Why bytes could not be made a text.
#[derive(Clone, Copy, PartialEq, Eq, Debug, Error)]
pub enum TextError {
    /// They are over 30,000.
    #[error("the text is over 30,000 bytes")]
    TooLong,
    /// A growth of memory was refused.
    #[error("out of memory")]
    Memory,
}
