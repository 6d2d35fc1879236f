//! A router that finds its ways to a destination by itself, without a controller: a state machine for one destination.
//!
//! Each router has a height, which it announces to its neighbours. It sends packets to neighbours that it knows to be
//! lower, and lets packets in only from neighbours that have acknowledged its height. At no moment do the links that
//! routers use contain a loop, whatever happens to their messages and whichever routers restart ([`laws`]).
//!
//! A [`Node`] takes events: a link comes up or goes down, a [`Message`] is heard. After an event the caller writes the
//! ways and gates into its forwarding table, and says so. Only then can a message leave.
//!
//! Heights and full link reversal are from Gafni and Bertsekas, IEEE Transactions on Communications 29 (1981). Gates,
//! acknowledgements and the law are this project's own.
#![tactic(auto)]

mod fault;
pub mod laws;
mod link;
mod message;
mod node;
mod own;
mod policy;
#[cfg(test)]
mod tests;
mod way;

pub use fault::NodeFault;
pub use message::{CUT_OFF, MESSAGE_LENGTH, Message};
pub use node::{Node, START_HEIGHTS};
pub use policy::{Policy, Rise};
pub use way::Way;
