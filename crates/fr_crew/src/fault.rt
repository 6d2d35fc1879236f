//! Why a network could not be settled.

ghost use Rattle.std.specs.Prelude.{◌≡◌};
ghost use Rattle.fr_crew.specs.declared.fault.CrewFault.TheVariants.{Memory};

use std::alloc::{AllocError, AllocFailed};
use thiserror::Error;

/// Why a network could not be settled.
#[derive(Clone, Copy, Debug, Drop, Error, PartialEq, Eq)]
pub enum CrewFault {
    /// The destination is not a node of the network. This is tested first.
    #[error("the destination is not a node")]
    Range,
    /// A thread could not be started. The threads that were started have ended.
    #[error("a thread could not be started")]
    Start,
    /// An allocation was refused.
    #[error("no memory")]
    Memory,
}

// Written by hand, because clauses say which fault a `?` returns.
impl From<AllocError> for CrewFault {
    ghost from_gives = { λ _ fault. fault ≡ Memory };

    fn from(_refused: AllocError) -> CrewFault {
        CrewFault::Memory
    }
}

impl<T: Drop> From<AllocFailed<T>> for CrewFault {
    ghost from_gives = { λ _ fault. fault ≡ Memory };

    fn from(_refused: AllocFailed<T>) -> CrewFault {
        CrewFault::Memory
    }
}
