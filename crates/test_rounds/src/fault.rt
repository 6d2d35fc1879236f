//! Why a case has no answer.

use fr_crew::CrewFault;
use fr_net::NetFault;
use fr_round::OpenFault;
use std::alloc::{AllocError, AllocFailed};
use thiserror::Error;

/// Why a case has no answer.
#[derive(Clone, Copy, Debug, Drop, Error)]
pub enum Fault {
    /// The line is not a JSON list with a question.
    #[error("no such case")]
    NoCase,
    /// The links are not those of a network.
    #[error("no network")]
    NoNetwork,
    /// The crew could not settle the network.
    #[error("{0:?}")]
    Crew(CrewFault),
    /// An allocation was refused.
    #[error("no memory")]
    Memory,
}

impl From<AllocError> for Fault {
    fn from(_refused: AllocError) -> Fault {
        Fault::Memory
    }
}

impl<T: Drop> From<AllocFailed<T>> for Fault {
    fn from(_refused: AllocFailed<T>) -> Fault {
        Fault::Memory
    }
}

impl From<OpenFault> for Fault {
    fn from(_refused: OpenFault) -> Fault {
        Fault::Memory
    }
}

impl From<CrewFault> for Fault {
    fn from(fault: CrewFault) -> Fault {
        Fault::Crew(fault)
    }
}

impl From<NetFault> for Fault {
    fn from(_refused: NetFault) -> Fault {
        Fault::NoNetwork
    }
}
