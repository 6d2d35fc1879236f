//! What a walk returns.

ghost use Rattle.std.specs.Prelude.{◌≡◌};
ghost use Rattle.fr_shared.specs.HopWalks.{end_by};

use fr_tables::Hop;

/// A walk from node to node. The nodes are in the caller's list.
#[derive(Clone, Copy, Debug, PartialEq, Eq)]
pub struct Walk {
    /// How many nodes come after the first one.
    pub count: usize,
    /// What ended the walk.
    pub end: WalkEnd,
}

/// What ended a walk, by the hop of its last node.
#[derive(Clone, Copy, Debug, PartialEq, Eq)]
pub enum WalkEnd {
    /// The last node is the destination.
    Arrived,
    /// The last node is cut off.
    CutOff,
    /// The last node sends on to another node, for which there was no room.
    Longer,
}

impl Walk {
    /// A walk with so many nodes after the first one, whose last node has this hop.
    pub(crate) fn with_last_hop(count: usize, hop: Hop) -> Walk
        ensures count { result.count ≡ count }
        ensures end { result.end ≡ end_by hop }
    {
        let end = match hop {
            Hop::Here => WalkEnd::Arrived,
            Hop::To(_) => WalkEnd::Longer,
            Hop::CutOff => WalkEnd::CutOff,
        };
        Walk { count, end }
    }
}
