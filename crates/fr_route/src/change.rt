//! Changes of a network, and the report of the round after a change.

use fr_graph::Edit;

/// A change of the network, made between two rounds.
#[derive(Debug, Drop, PartialEq, Eq)]
pub enum Change {
    /// Remove the link between two nodes, whichever way it points.
    Cut {
        /// One end of the link.
        u: u32,
        /// The other end.
        v: u32,
    },
    /// Add a link, which points from `u` to `v` at first.
    Add {
        /// The tail of the link.
        u: u32,
        /// Its head.
        v: u32,
    },
    /// Join two nodes by a link, which points from `u` to `v` at first, or from `v` to `u` if the first would close a
    /// cycle.
    Join {
        /// The tail of the link, unless that would close a cycle.
        u: u32,
        /// The head of the link then.
        v: u32,
    },
    /// Make these edits in order, with one round after the last of them. If one is refused, none is made.
    Batch(Vec<Edit>),
    /// Move the destination to another node.
    Destination {
        /// The destination from now on.
        dest: u32,
    },
}

/// What a round reports.
#[derive(Clone, Copy, Debug, PartialEq, Eq)]
pub struct Report {
    /// How many turns the round took: the sum of the counts.
    pub turned: u64,
    /// How many nodes are cut off: not the destination, and not connected to it.
    pub cut: u64,
}
