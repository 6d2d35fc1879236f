//! The search for a cycle in rows of any form, which is also the search for an order that lists each node after those
//! to which it leads.
#![tactic(auto)]

mod rows;
mod search;

pub use rows::Rows;
pub use search::{CycleOrOrder, find_cycle};
