//! The list of the nodes that can move at a change.

ghost use Rattle.std.specs.Prelude.{◌≡◌};
ghost use Rattle.fr_route.specs.Outcomes.{nodes_listed};

/// The nodes that can move at a change. Those of a single edit need no allocation.
pub(crate) enum TurnCandidates {
    /// The nodes of a single edit: the old and the new destination, and the ends of the link.
    Few([u32; 4]),
    /// Any nodes.
    Many(Vec<u32>),
}

// Written by hand: code that drops candidates proves this one call. With a derived Drop it proves how each variant is
// dropped.
impl Drop for TurnCandidates {
    fn drop(self) {
        match self {
            TurnCandidates::Few(_) => {}
            TurnCandidates::Many(nodes) => drop(nodes),
        }
    }
}

impl TurnCandidates {
    /// These nodes.
    pub fn nodes(&self) -> &[u32]
        ensures { result.now ≡ nodes_listed self.now }
    {
        match self {
            TurnCandidates::Few(nodes) => nodes,
            TurnCandidates::Many(nodes) => nodes,
        }
    }
}
