//! A session whose next hops and ways other threads read.
//!
//! A [`PublishedSession`] answers lines and makes changes as a [`Session`](fr_route::Session) does. Once the caller has
//! asked for a [`Reader`], each accepted round pushes the changed hops in push order before its call returns. So the
//! table of the readers has no loop at any moment, and between two calls it has the hops of the session.
//!
//! The ways of the nodes have a table of their own. Once the caller has asked for a [`WayReader`], each call also
//! pushes the ways: first all nodes that lose a way shrink, and then nodes grow. So that table has no cycle at any
//! moment.
//!
//! Costs are for n nodes. They are read off the code, not proved.
#![tactic(auto)]

mod noting;
mod publishing;
mod session;
#[cfg(test)]
mod tests;
mod ways;

pub use fr_shared::hops::{Past, Reader};
pub use fr_shared::ways::{Past as WayPast, Reader as WayReader};
pub use session::PublishedSession;
