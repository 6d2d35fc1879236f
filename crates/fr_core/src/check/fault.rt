//! Why entries are not a run.

ghost use Rattle.std.specs.Prelude.{◌≡◌};
ghost use Rattle.fr_core.specs.declared.check.fault.CheckFault.TheVariants.{Memory};

use std::alloc::AllocError;
use thiserror::Error;

/// Why an entry is not legal. The variants are listed in the order in which the tests are made.
#[derive(Debug, Drop, Clone, Copy, PartialEq, Eq)]
pub enum Why {
    /// The node is out of range.
    NoNode,
    /// The destination turns.
    Destination,
    /// A node turns that has turned as often as there are nodes.
    Capped,
    /// A node turns that is not a sink, or a look says that it is a sink.
    NotSink,
    /// The count after a turn is not one more than the node's count.
    WrongCount,
    /// No link points from the node to the neighbour that is said to hold it.
    NotHeld,
    /// The count is not that of the node, or it is not greater than the count before.
    NotMoved,
    /// The node is said to be cut, but has turned less often than there are nodes.
    NotCut,
}

/// Why entries are not a run, with the evidence. The variants are listed in the order of the tests.
#[derive(Debug, Drop, Error, PartialEq, Eq)]
pub enum CheckFault {
    /// The destination is not a node.
    #[error("the destination is out of range")]
    Range,
    /// The entry at this place, counted from 0, is the first one that is not legal after those before it.
    #[error("entry {index} is not legal: {why:?}")]
    BadAt { index: usize, why: Why },
    /// An allocation was refused.
    #[error("no memory")]
    Memory,
}

// Written by hand, because a clause says which fault a `?` returns.
impl From<AllocError> for CheckFault {
    ghost from_gives = { λ _ fault. fault ≡ Memory };

    fn from(_refused: AllocError) -> CheckFault {
        CheckFault::Memory
    }
}
