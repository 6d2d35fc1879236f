//! Why links are not those of a network, and why edits are refused.

ghost use Rattle.std.specs.Prelude.{◌≡◌};
ghost use Rattle.fr_graph.specs.declared.fault.NetFault.TheVariants.{Memory};

use std::alloc::{AllocError, AllocFailed};
use std::fmt;
use thiserror::Error;

/// Why links are not those of a network, or why an edit is refused, with the nodes that show it. The variants are
/// listed in the order in which the faults are tested. By the law [`evidence_law`](crate::laws::evidence_law) the
/// links or the edit determine these nodes. Below, an edit joins `u` and `v`.
#[derive(Debug, Drop, Error, PartialEq, Eq)]
pub enum NetFault {
    /// There are more nodes or links than the limits allow.
    #[error("too many nodes or links")]
    TooMany,
    /// An end of a link that is not a node: the first one listed, or 0 if there are no nodes. Of an edit, `u` if it is
    /// not a node, and otherwise `v`.
    #[error("node {0} is out of range")]
    Range(u32),
    /// The node of the first link listed that connects a node with itself.
    #[error("a link connects node {0} with itself")]
    SelfLink(u32),
    /// Two nodes that more than one link joins, in either direction: the lowest such node, and the lowest one that it
    /// is joined with. Of an edit, `u` and `v`.
    #[error(fmt = tell_twice)]
    Twice(u32, u32),
    /// The nodes of a cycle, with the first one again at the end. Start at the lowest node that leads into a cycle,
    /// and always go on to the lowest neighbour that does: this is the cycle that you come to. Of an edit, `u`, `v`,
    /// and then always the lowest neighbour from which links lead to `u`.
    #[error(fmt = tell_cycle)]
    Cycle(Vec<u32>),
    /// No link joins the two nodes. Only a cut fails with this, and a cut fails with no other fault but `Memory`.
    #[error("no link connects the two nodes")]
    NoLink,
    /// An allocation was refused.
    #[error("no memory")]
    Memory,
}

/// Writes which two nodes more than one link joins.
fn tell_twice<W: fmt::Write>(u: &u32, v: &u32, f: &mut fmt::Formatter<W>) -> fmt::Result {
    write!(f, "more than one link connects nodes {u} and {v}")
}

/// Writes how long a cycle is.
fn tell_cycle<W: fmt::Write>(nodes: &Vec<u32>, f: &mut fmt::Formatter<W>) -> fmt::Result {
    let steps = nodes.len().saturating_sub(1);
    write!(f, "the links contain a cycle of {steps} links")
}

/// The first edit of a batch that is refused, and why. If the fault is `Memory`, `at` has no meaning.
#[derive(Debug, Drop, Error, PartialEq, Eq)]
#[error("edit {at} is refused: {fault}")]
pub struct EditFault {
    /// The place of the edit, counted from 0. If there are too many edits, the limit.
    pub at: usize,
    /// Why it is refused.
    pub fault: NetFault,
}

/// Why a network is not edited: an edit is refused, or the caller's function fails on the edited network.
#[derive(Debug, Drop)]
pub enum NotEdited<E> {
    /// The first edit that is refused, and why.
    Refused(EditFault),
    /// What the caller's function failed with on the edited network.
    Fault(E),
}

impl From<AllocError> for EditFault {
    ghost from_gives = { λ _ refused. refused.fault ≡ Memory };

    fn from(_refused: AllocError) -> EditFault {
        EditFault {
            at: 0,
            fault: NetFault::Memory,
        }
    }
}

// Written by hand, because clauses say which fault a `?` returns.
impl From<AllocError> for NetFault {
    ghost from_gives = { λ _ fault. fault ≡ Memory };

    fn from(_refused: AllocError) -> NetFault {
        NetFault::Memory
    }
}

impl<T: Drop> From<AllocFailed<T>> for NetFault {
    ghost from_gives = { λ _ fault. fault ≡ Memory };

    fn from(_refused: AllocFailed<T>) -> NetFault {
        NetFault::Memory
    }
}
