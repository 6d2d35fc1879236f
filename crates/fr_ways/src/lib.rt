//! Forwarding tables in which a node may have several next hops, its ways.
//!
//! A [`WayTable`] has the ways of each node. [`phases`] lists what a controller has to push to get from one table to
//! another, so that no packet can go round a cycle meanwhile. [`WayChanges`] lists the same for a change whose nodes
//! are known, without looking at other nodes and without allocating. The laws of such tables are in [`laws`].
//!
//! RFC 6976 also updates downstream routers first. Waves, push orders, phases and their laws are this project's own.
//!
//! Costs are for tables of n nodes with m ways in total. They are read off the code, not proved.
#![tactic(auto)]

mod changes;
mod cycle_search;
mod fault;
mod kept_ways;
pub mod laws;
mod plan;
mod push_list;
mod range;
mod reserved_rows;
mod table;
#[cfg(test)]
mod tests;

pub use changes::WayChanges;
pub use fault::WaysFault;
pub use plan::{Pushes, TwoPhases, known_phases, phases};
pub use push_list::PushList;
pub use range::first_outside;
pub use table::WayTable;
