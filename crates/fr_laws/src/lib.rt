//! Laws of full reversal that no code needs and that readers ask for: which call came first, when a network is quiet,
//! which nodes a change touches, which of them gain a way, that next hops have no loop during a round, and that routers
//! without a controller make a run. Each law is a clause of a function that does nothing.
#![tactic(auto)]

mod announcements;
mod gains;
mod hops;
mod linear;
mod locality;
mod quiet;

pub use announcements::{announcements_law, calls_law};
pub use gains::gains_law;
pub use hops::hop_law;
pub use linear::linear_law;
pub use locality::locality_law;
pub use quiet::quiet_law;
