//! Edits: changes of one link of a network, which request lines ask for.

/// One change to the links of a network.
#[derive(Clone, Copy, Debug, PartialEq, Eq)]
pub enum Edit {
    /// Remove the link between two nodes, whichever way it points.
    Cut {
        /// One end of the link.
        u: u32,
        /// The other end.
        v: u32,
    },
    /// Add a link.
    Add {
        /// The tail of the link.
        u: u32,
        /// Its head.
        v: u32,
    },
    /// Join two nodes by a link: from `u` to `v`, or from `v` to `u` if the first would close a cycle.
    Join {
        /// The tail of the link, unless that would close a cycle.
        u: u32,
        /// The head of the link then.
        v: u32,
    },
}
