//! Why a call is not made, why a round is not closed, and why a run is not made.

use crate::recorder::Recorder;
use fr_graph::Net;
use fr_round::{OpenFault, OpenWhy, Refusal, Round};
use thiserror::Error;

/// Why a recorder made no call. The variants stand in the order in which they are tested.
#[derive(Debug, Drop, Clone, Copy, Error, PartialEq, Eq)]
pub enum CallFault {
    /// The log has no room for a reply.
    #[error("the log is full")]
    Full,
    /// The round refuses the call.
    #[error("{0}")]
    Refused(Refusal),
}

/// A round that could not be closed, because an allocation was refused. It is handed back as it was, with its
/// recorders.
#[derive(Drop)]
pub struct CloseFault {
    pub round: Round,
    pub recorders: Vec<Recorder>,
}

/// A run that was not made or not completed: its network, handed back, and why.
#[derive(Debug, Drop, Error)]
#[error("the run was not completed: {why}")]
pub struct RunFault {
    pub net: Net,
    pub why: OpenWhy,
}

// By hand, since clauses say which fault a `?` gives.
impl From<OpenFault> for RunFault {
    ghost use Rattle.std.specs.Prelude.{◌≡◌};

    ghost from_gives = { λ opening fault. (fault.net ≡ opening.net) × (fault.why ≡ opening.why) };

    fn from(opening: OpenFault) -> RunFault {
        RunFault {
            net: opening.net,
            why: opening.why,
        }
    }
}
