//! Why a machine cannot be made, or a schedule cannot be played.

ghost use Rattle.std.specs.Prelude.{◌≡◌};
ghost use Rattle.fr_core.specs.declared.play_fault.PlayFault.TheVariants.{Memory};

use std::alloc::{AllocError, AllocFailed};
use thiserror::Error;

/// Why a machine cannot be made, or a schedule cannot be played. The variants are listed in the order in which the
/// faults are tested.
#[derive(Debug, Drop, Error, PartialEq, Eq)]
pub enum PlayFault {
    /// The destination is not a node, or a number of the schedule is not a worker.
    #[error("the destination is not a node, or a number of the schedule is not a worker")]
    Range,
    /// The first target, by worker and then by place in the worker's list, that is not a node, has no link, or is a
    /// turn of the destination.
    #[error("target {at} of worker {worker} is not a node, has no link, or is a turn of the destination")]
    BadTarget { worker: usize, at: usize },
    /// An allocation was refused.
    #[error("no memory")]
    Memory,
}

// Written by hand, because clauses say which fault a `?` returns.
impl From<AllocError> for PlayFault {
    ghost from_gives = { λ _ fault. fault ≡ Memory };

    fn from(_refused: AllocError) -> PlayFault {
        PlayFault::Memory
    }
}

impl<T: Drop> From<AllocFailed<T>> for PlayFault {
    ghost from_gives = { λ _ fault. fault ≡ Memory };

    fn from(_refused: AllocFailed<T>) -> PlayFault {
        PlayFault::Memory
    }
}
