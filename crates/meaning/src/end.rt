//! How statements end, and why a run stops.

use ht_values::{Failure, Fault, Text, Value};
use std::alloc::AllocError;

/// How a statement ends that doesn't stop the run, as the rules see it.
#[derive(Drop)]
pub enum How {
    /// What stands after it goes on.
    Next,
    ExitRepeat,
    NextRepeat,
    /// `exit` with the name of the handler.
    Exit,
    /// The message goes on behind the handler's object.
    Pass,
    Returns(Value),
}

/// In which way a statement ends, where what it returns stands in a place of the caller's.
#[derive(Clone, Copy, PartialEq, Eq, Debug)]
pub enum Way {
    Next,
    ExitRepeat,
    NextRepeat,
    Exit,
    Pass,
    Returns,
}

/// Why a part of a run ends the whole.
#[derive(Clone, Copy, PartialEq, Eq, Debug)]
pub enum Stop {
    Fault(Fault),
    /// `exit to HyperCard`.
    Exited,
    /// Out of memory.
    Memory,
}

/// How a command ends that isn't stopped by a fault, for whoever runs one. Within a command `Stop` tells both.
#[derive(Clone, Copy, PartialEq, Eq, Debug)]
pub enum Ended {
    Done,
    /// By `exit to HyperCard`.
    Exited,
}

/// How a conversation with an external ends: with a value, and whether the message goes on to what is built in.
#[derive(Drop)]
pub struct Conversed {
    pub value: Text,
    pub passes: bool,
}

impl From<AllocError> for Stop {
    ghost use Rattle.std.specs.Prelude.{◌≡◌};
    ghost use Rattle.meaning.specs.declared.end.Stop.TheVariants as stop;

    ghost from_gives = { λ _ e. e ≡ stop.Memory };

    fn from(_error: AllocError) -> Stop {
        Stop::Memory
    }
}

impl From<Fault> for Stop {
    ghost use Rattle.std.specs.Prelude.{◌≡◌};
    ghost use Rattle.meaning.specs.declared.end.Stop.TheVariants as stop;

    ghost from_gives = { λ fault e. e ≡ stop.Fault fault };

    fn from(fault: Fault) -> Stop {
        Stop::Fault(fault)
    }
}

impl From<Failure> for Stop {
    ghost use Rattle.std.specs.Prelude.{◌≡◌};
    ghost use Rattle.meaning.specs.Values.{stop_of};

    ghost from_gives = { λ failure e. e ≡ stop_of failure };

    fn from(failure: Failure) -> Stop {
        match failure {
            Failure::Fault(fault) => Stop::Fault(fault),
            Failure::Memory => Stop::Memory,
        }
    }
}
