//! Why a value can't be given.

use crate::fault::Fault;
use std::alloc::AllocError;
use thiserror::Error;

/// Why a call that makes a value gave none: a fault of the command, or it was out of memory.
#[derive(Clone, Copy, PartialEq, Eq, Debug, Error)]
pub enum Failure {
    #[error("{0}")]
    Fault(Fault),
    #[error("out of memory")]
    Memory,
}

impl From<Fault> for Failure {
    ghost use Rattle.std.specs.Prelude.{◌≡◌};
    ghost use Rattle.ht_values.specs.declared.failure.Failure.TheVariants as failure;

    ghost from_gives = { λ fault e. e ≡ failure.Fault fault };

    fn from(fault: Fault) -> Failure {
        Failure::Fault(fault)
    }
}

impl From<AllocError> for Failure {
    ghost use Rattle.std.specs.Prelude.{◌≡◌};
    ghost use Rattle.ht_values.specs.declared.failure.Failure.TheVariants as failure;

    ghost from_gives = { λ _ e. e ≡ failure.Memory };

    fn from(_error: AllocError) -> Failure {
        Failure::Memory
    }
}
