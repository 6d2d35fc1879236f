//! Crews that settle networks: several workers, in threads of their own, turn sinks at the same time. The resulting
//! links and counts do not depend on the schedule.
//!
//! [`settle`] opens a round, runs it with the workers of a [`Plan`], and finishes on one thread what they leave. A
//! [`Gate`] is called before and after each call of a worker. [`settle_telling`] also returns what the workers did.
//! [`settle_alone`] has the same result without threads.
//! [`settled_counts`] and [`settled_counts_alone`] return only the counts, and do not change the network. [`live_walk`]
//! follows the links of an open round while workers turn nodes.
//!
//! Full reversal is the method of E. Gafni and D. Bertsekas ("Distributed Algorithms for Generating Loop-Free Routes in
//! Networks with Frequently Changing Topology", 1981).
//!
//! Costs are for n nodes, m links, and d links at a node. They are read off the code, not proved.
#![tactic(auto)]

mod deques;
mod fault;
mod gate;
mod live_walks;
mod local_queue;
mod members;
mod naming;
mod plan;
mod resting;
mod settlement;
mod shared_nodes;
mod threads;

pub use fault::CrewFault;
pub use gate::{Gate, OpenGate};
pub use live_walks::{LiveEnd, LiveFault, LiveWalk, live_walk};
pub use plan::{Crew, Plan};
pub use settlement::{
    CrewWork, Settled, settle, settle_alone, settle_telling, settled_counts, settled_counts_alone,
};
