//! Logs of a round: each thread writes down the replies that it gets, and the logs together are one run of full
//! reversal by one thread.
//!
//! A [`Recorder`] is a worker with a log. It has the calls of a worker, [`Recorder::try_turn`] and [`Recorder::look`],
//! and writes down each reply. [`close_logged`] ends the round and returns the logs. [`run_logged`] does all of it: it
//! opens a round, lets a thread follow each plan, and closes the round.
//!
//! Costs are told for n nodes, m links, and k workers, as read off the code.
#![tactic(auto)]

mod closing;
mod faults;
mod laws;
mod recorder;
mod running;

pub use closing::{Logged, close_logged};
pub use faults::{CallFault, CloseFault, RunFault};
pub use laws::logs_law;
pub use recorder::Recorder;
pub use running::run_logged;
