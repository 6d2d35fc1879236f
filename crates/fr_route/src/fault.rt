//! Why a call of a router or of a session fails.

ghost use Rattle.std.specs.Prelude.{◌≡◌};
ghost use Rattle.fr_route.specs.declared.fault.RouteFault.TheVariants.{Memory as RouteMemory};
ghost use Rattle.fr_route.specs.declared.fault.AnswerFault.TheVariants.{Memory as AnswerMemory};
ghost use Rattle.fr_route.specs.Faults.{of_net_fault, of_crew_fault, of_not_edited};
ghost use Rattle.fr_route.specs.Tries.{missing_memory, without_place};

use fr_crew::CrewFault;
use fr_graph::{EditFault, NetFault, NotEdited};
use std::alloc::{AllocError, AllocFailed};
use thiserror::Error;

/// Why a router cannot be opened or changed, or cannot answer.
#[derive(Debug, Drop, Error, PartialEq, Eq)]
pub enum RouteFault {
    /// The links of the change, or an edit of the batch, are refused with this fault, which is never `Memory`.
    #[error("{0}")]
    Net(NetFault),
    /// The destination is not a node of the network.
    #[error("the destination is not a node")]
    Range,
    /// A thread could not be started. The threads that were started have ended.
    #[error("a thread could not be started")]
    Start,
    /// An allocation was refused.
    #[error("no memory")]
    Memory,
}

// Written by hand, because clauses say which fault a `?` returns.
impl From<AllocError> for RouteFault {
    ghost from_gives = { λ _ fault. fault ≡ RouteMemory };

    fn from(_refused: AllocError) -> RouteFault {
        RouteFault::Memory
    }
}

impl<T: Drop> From<AllocFailed<T>> for RouteFault {
    ghost from_gives = { λ _ fault. fault ≡ RouteMemory };

    fn from(_refused: AllocFailed<T>) -> RouteFault {
        RouteFault::Memory
    }
}

impl From<NetFault> for RouteFault {
    ghost from_gives = { λ refused fault. fault ≡ of_net_fault refused };

    fn from(refused: NetFault) -> RouteFault {
        match refused {
            NetFault::Memory => RouteFault::Memory,
            fault => RouteFault::Net(fault),
        }
    }
}

impl From<EditFault> for RouteFault {
    ghost from_gives = { λ refused fault. fault ≡ of_net_fault refused.fault };

    fn from(refused: EditFault) -> RouteFault {
        RouteFault::from(refused.fault)
    }
}

impl From<CrewFault> for RouteFault {
    ghost from_gives = { λ refused fault. fault ≡ of_crew_fault refused };

    fn from(refused: CrewFault) -> RouteFault {
        match refused {
            CrewFault::Range => RouteFault::Range,
            CrewFault::Start => RouteFault::Start,
            CrewFault::Memory => RouteFault::Memory,
        }
    }
}

/// Why a change is not made, and which edit of a batch is refused.
#[derive(Debug, Drop, Error, PartialEq, Eq)]
#[error("{fault}")]
pub struct NotMade {
    /// If an edit of a batch is refused, its index. If a batch has too many edits, the limit of edits. Otherwise it has no
    /// meaning.
    pub at: usize,
    /// Why the change is not made.
    pub fault: RouteFault,
}

impl From<AllocError> for NotMade {
    ghost from_gives = { λ _ undone. undone ≡ missing_memory };

    fn from(_refused: AllocError) -> NotMade {
        NotMade {
            at: 0,
            fault: RouteFault::Memory,
        }
    }
}

impl From<NotEdited<RouteFault>> for NotMade {
    ghost from_gives = { λ reason undone. undone ≡ of_not_edited reason };

    fn from(reason: NotEdited<RouteFault>) -> NotMade {
        match reason {
            NotEdited::Refused(refused) => NotMade {
                at: refused.at,
                fault: RouteFault::from(refused.fault),
            },
            NotEdited::Fault(fault) => NotMade { at: 0, fault },
        }
    }
}

/// Drops the index of the refused edit.
pub(crate) fn without_edit_place<T>(tried: Result<T, NotMade>) -> Result<T, RouteFault>
    ensures { result ≡ without_place tried }
{
    match tried {
        Ok(answer) => Ok(answer),
        Err(undone) => Err(undone.fault),
    }
}

/// Why a session cannot answer. The session is unchanged, and the request can be made again.
#[derive(Clone, Copy, Debug, Drop, Error, PartialEq, Eq)]
pub enum AnswerFault {
    /// A thread could not be started. The threads that were started have ended.
    #[error("a thread could not be started")]
    Start,
    /// An allocation was refused.
    #[error("no memory")]
    Memory,
}

impl From<AllocError> for AnswerFault {
    ghost from_gives = { λ _ fault. fault ≡ AnswerMemory };

    fn from(_refused: AllocError) -> AnswerFault {
        AnswerFault::Memory
    }
}
