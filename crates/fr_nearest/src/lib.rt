//! The distance of each node from a destination, and the ways of a node nearest first.
//!
//! The links of a settled network point down to its destination without a cycle. The *distance* of a node is the fewest
//! links that lead from it to the destination. The *ways* of a node are the nodes to which its links point and that
//! have a distance, nearest first: by distance, and then by number. The first way is the nearest, and the others are
//! alternates.
//!
//! [`Distances::measure`] measures all distances, and [`Distances::renew`] updates them after a change of the links, at
//! the cost of what changes. [`Affected`] lists the nodes whose ways may differ then. The laws of ways are in [`laws`].
//!
//! Costs are for n nodes, m links, and d links at a node. They are read off the code, not proved.
#![tactic(auto)]

mod affected;
mod all_ways;
mod distance_changes;
mod distances;
pub mod laws;
mod order;
mod search;
mod update;
mod ways;

pub use affected::Affected;
pub use all_ways::AllWays;
pub use distances::Distances;
pub use update::LinkChanges;
