//! Networks for link reversal, and the lines of JSON that ask for them: what [`fr_graph`] and [`fr_requests`] offer, under
//! one name.
//!
//! They are two crates, so that the crates that use only networks can be proved at the same time as the lines.
#![tactic(auto)]

pub use fr_graph::{
    Edit, EditFault, First, Links, MAX_EDITS, MAX_LINKS, MAX_NODES, Net, NetFault, NotEdited,
    Turns, laws,
};
pub use fr_requests::{LineFault, LineReader, Question, Request, read_line};
