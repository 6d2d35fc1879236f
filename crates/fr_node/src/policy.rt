//! When a router changes its height. No policy can make a loop.

/// When a router raises its height.
#[derive(Clone, Copy, Debug, PartialEq, Eq)]
pub enum Rise {
    /// It rises above all neighbours if it has no way. This is full link reversal. Routers that are cut off from all
    /// gateways raise their heights for ever.
    Full,
    /// It rises only if no neighbour offers its height or less, and then at once to [`CUT_OFF`](crate::CUT_OFF), the
    /// height of a router without a route. A neighbour offers its own height and the cost of the link together, if that
    /// is below this ceiling. The router comes down to its best offer once each neighbour at a link that is up is let in. So once all is
    /// quiet, routes have the least costs. The ceiling is to be above these.
    Top(u32),
}

/// When a router changes its height, and when it uses a greater height.
#[derive(Clone, Copy, Debug, PartialEq, Eq)]
pub struct Policy {
    /// When the router raises its height.
    pub rise: Rise,
    /// Whether a router with [`Rise::Full`] lowers its height to its distance, if a way with a smaller distance stays
    /// a way then. One with [`Rise::Top`] comes down in any case.
    pub lower: bool,
    /// Whether the router keeps its old height, and so its old ways, until the neighbours that it lets in have
    /// acknowledged a greater one. If not, it uses the greater height at once, and lets a neighbour in only once that
    /// has acknowledged it.
    pub wait: bool,
}
