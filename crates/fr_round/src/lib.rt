//! A round of full link reversal on running threads: the counts of a network in atomic words, which any number of
//! threads share without a lock, and workers that turn its nodes.
//!
//! [`Round::open`] takes a network and returns an open round with its workers. A thread that holds a [`Worker`] calls
//! [`Round::try_turn`] on any nodes, or [`Round::look`] to see where their links point. [`Round::close`] ends the round
//! once no thread shares it. At each moment, all calls so far form one list, in which each reply is the one that full
//! reversal on one thread gives at that point ([`round_law`]).
//!
//! Full reversal is the method of E. Gafni and D. Bertsekas ("Distributed Algorithms for Generating Loop-Free Routes in
//! Networks with Frequently Changing Topology", 1981).
//!
//! Costs are for n nodes, m links, and d links at a node. They are read off the code, not proved.
#![tactic(auto)]

mod closing;
mod faults;
mod laws;
mod look_call;
mod opening;
mod past;
mod round;
mod round_setup;
mod rule;
mod seen_counts;
#[cfg(test)]
mod tests;
mod turn_call;
mod view;
mod words;
mod worker;

pub use closing::Closed;
pub use faults::{OpenFault, OpenWhy, Refusal};
pub use laws::{round_law, step_law};
pub use past::Past;
pub use round::Round;
pub use worker::Worker;
