//! Why a call on a node fails.

ghost use Rattle.std.specs.Prelude.{◌≡◌};
ghost use Rattle.fr_node.specs.declared.fault.NodeFault.TheVariants.{Memory};

use std::alloc::AllocError;
use thiserror::Error;

/// Why a call on a node fails. Then the node is unchanged.
#[derive(Debug, Drop, Error, PartialEq, Eq)]
pub enum NodeFault {
    /// The neighbour has the number of the node itself.
    #[error("a router is no neighbour of itself")]
    Itself,
    /// An allocation was refused.
    #[error("no memory")]
    Memory,
    /// A router cannot start at this height.
    #[error("a router starts below a height of 2^63")]
    TooHigh,
    /// A neighbour knows a start of this router with a greater number.
    #[error("a neighbour knows a later start of this router")]
    LaterStart,
    /// The ways and gates after the last event are not written.
    #[error("the ways and gates are not written")]
    Unwritten,
    /// An event came after the ways and gates that were written.
    #[error("an event came after these ways and gates")]
    Outdated,
}

// Written by hand, because clauses say which fault a `?` returns.
impl From<AllocError> for NodeFault {
    ghost from_gives = { λ _ fault. fault ≡ Memory };

    fn from(_refused: AllocError) -> NodeFault {
        NodeFault::Memory
    }
}
