//! The direction of a link, seen from one of its ends.

ghost use Rattle.std.specs.Prelude.{◌≡◌};
ghost use Rattle.fr_graph.specs.RowLists.{opposite};

/// The direction of a link of the network, seen from the node `x` at one of its ends, before any turn.
#[derive(Debug, Drop, Clone, Copy, PartialEq, Eq)]
pub enum First {
    /// The link points from `x` to the neighbour.
    Outward,
    /// The link points from the neighbour to `x`.
    Inward,
}

impl First {
    /// The direction seen from the other end of the link. O(1).
    pub fn opposite(self) -> First
        ensures { result ≡ opposite self }
    {
        match self {
            First::Outward => First::Inward,
            First::Inward => First::Outward,
        }
    }
}
