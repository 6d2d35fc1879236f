//! Networks for link reversal: nodes, and directed links that contain no cycle.
//!
//! [`Net::new`] makes a [`Net`], or reports the first fault of the links. To read a network, there are `nodes`,
//! `links`, `degree`, `neighbour` and `row`. To make another network from it, there are `copied`, `with_cut`,
//! `with_link`, `with_join`, `with_edits` and `turned_by`. `edit_if` and `turn` change a network in place; `turn` takes
//! [`Turns`], a table of how often each node has turned. The law [`rows_law`](laws::rows_law) says what the rows of a
//! network contain, and [`join_law`](laws::join_law) in which direction a link can be added.
//!
//! Full reversal is the method of E. Gafni and D. Bertsekas ("Distributed Algorithms for Generating Loop-Free Routes in
//! Networks with Frequently Changing Topology", 1981).
//!
//! Costs are for n nodes, m links, and d links at a node. They are read off the code, not proved.
#![tactic(auto)]

mod checks;
mod cycle;
mod edit;
mod edits;
mod fault;
mod first;
mod graph;
mod half_links;
mod heights;
pub mod laws;
mod limits;
mod links;
mod lowest_cycle;
mod network;
mod path_search;
mod row;
mod row_table;
mod turned_rows;
mod turns;

pub use edit::Edit;
pub use fault::{EditFault, NetFault, NotEdited};
pub use first::First;
pub use limits::{MAX_EDITS, MAX_LINKS, MAX_NODES};
pub use links::Links;
pub use network::Net;
pub use turns::Turns;
