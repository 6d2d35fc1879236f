//! The current direction of a link.

/// The current direction of a link, seen from the node `x` at one of its ends.
#[derive(Debug, Drop, Clone, Copy, PartialEq, Eq)]
pub enum Sense {
    /// The link points from `x` to the neighbour.
    Outward,
    /// The link points from the neighbour to `x`.
    Inward,
}
