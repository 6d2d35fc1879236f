//! Why a round cannot be opened, and why a call is refused.

use fr_graph::Net;
use thiserror::Error;

/// Why a call on a node is refused and takes no step. The variants are listed in the order in which they are tested.
#[derive(Debug, Drop, Clone, Copy, Error, PartialEq, Eq)]
pub enum Refusal {
    /// The network has no such node.
    #[error("there is no such node")]
    NoNode,
    /// The node is the destination, which never turns.
    #[error("the destination never turns")]
    Destination,
    /// The node has no link.
    #[error("the node has no link")]
    Alone,
}

/// Why a round cannot be opened. The variants are listed in the order in which they are tested.
#[derive(Debug, Drop, Clone, Copy, Error, PartialEq, Eq)]
pub enum OpenWhy {
    /// The destination is not a node, or the number of workers is not 1 to `MAX_WORKERS`.
    #[error("the destination is not a node, or the number of workers is out of range")]
    Range,
    /// An allocation was refused.
    #[error("no memory")]
    Memory,
}

/// A round that could not be opened: its network, which is given back, and why.
#[derive(Debug, Drop, Error)]
#[error("no round was opened: {why}")]
pub struct OpenFault {
    pub net: Net,
    pub why: OpenWhy,
}
