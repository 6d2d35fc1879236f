//! Routing by full link reversal: a network that is settled again after each change, the route from each node to the
//! destination, and the answers to request lines.
//!
//! A [`Router`] keeps a settled network, and answers with next hops and routes. [`Router::change`] removes or adds a
//! link, joins two nodes, makes a batch of edits or moves the destination, and then settles the network by a crew of
//! threads. A [`Session`] keeps a router and answers one request after the other. For each call that settles by a crew
//! there is one with the same results that uses only the calling thread: [`Router::open_alone`],
//! [`Router::change_alone`], [`Session::answer_line_alone`], [`Session::answer_telling_alone`]. The laws of routes and
//! answers are in [`laws`].
//!
//! Full link reversal is the method of E. Gafni and D. Bertsekas ("Distributed Algorithms for Generating Loop-Free
//! Routes in Networks with Frequently Changing Topology", 1981). The requests and answers are those of docs/LINES.md.
//!
//! Callers that answer lines in another way can use the parts of an answer: [`is_blank`], [`Reason`],
//! [`fault_number`], [`links_line`] and [`counts_line`]. Callers that change the network of a session without lines can
//! use [`Session::router_mut`] and [`Session::put_router`].
//!
//! Costs are for n nodes, m links, and d links at a node. They are read off the code, not proved.
#![tactic(auto)]

mod blank;
mod change;
mod changed_nodes;
mod fault;
mod form;
mod forwarding;
mod hops;
mod json;
mod kept_distances;
pub mod laws;
mod listed_phases;
mod outcome;
mod pushing;
mod questions;
mod refusals;
mod refusing;
mod replies;
mod reports;
mod reroutes;
mod revision;
mod router;
mod session;
mod settling;
mod space;
mod spare_turns;
mod texts;
mod turn_candidates;
mod version;
mod way_notes;

pub use blank::is_blank;
pub use change::{Change, Report};
pub use fault::{AnswerFault, NotMade, RouteFault};
pub use form::{Answer, Form, Line};
pub use fr_tables::Hop;
pub use hops::Walked;
pub use refusals::{Reason, fault_number};
pub use reroutes::Reroutes;
pub use router::Router;
pub use session::Session;
pub use space::AnswerSpace;
pub use texts::{counts_line, links_line};
pub use version::VERSION;
