//! The core of full link reversal, without threads: histories and runs, the counts at which a run ends, and the
//! finisher, which computes them on one thread.
//!
//! [`lawful`] tests the counts of a network. [`sense`] and [`is_sink`] say what lawful counts make of its links.
//! [`finish`] continues to the counts at which every schedule ends. [`finish_turns`] does so with a table of turns,
//! [`finish_from`] for callers that know where to look, and [`finish_if_few`] if few turns lead there. The workers of a
//! [`Machine`] turn nodes and look at them by single atomic steps, in any order. [`play`] follows a schedule, and
//! [`check_run`] checks a history entry by entry. The laws behind these calls are in [`laws`].
//!
//! Full reversal is the method of E. Gafni and D. Bertsekas ("Distributed Algorithms for Generating Loop-Free Routes in
//! Networks with Frequently Changing Topology", 1981).
//!
//! Costs are for n nodes, m links, and d links at a node. They are read off the code, not proved.
#![tactic(auto)]

mod check;
mod counts;
mod cut_off;
mod directions;
mod entry;
mod finisher;
pub mod laws;
mod levels;
mod limits;
mod machine;
mod play_fault;
mod queue;
mod schedules;
mod targets;
mod worker;
mod worklist;

pub use check::{CheckFault, Why, check_run};
pub use counts::{are_settled, can_turn, is_sink, lawful, sense};
pub use directions::Sense;
pub use entry::{Entry, Reply};
pub use finisher::{finish, finish_from, finish_if_few, finish_turns};
pub use limits::MAX_WORKERS;
pub use machine::Machine;
pub use play_fault::PlayFault;
pub use schedules::play;
pub use targets::Target;
