//! The lines of JSON that ask for networks and for changes to them: which line is which request. From `fr_graph` this
//! crate uses only [`Edit`], from `fr_tables` only [`Hop`], and from `fr_ways` only [`WayTable`]. JSON is that of RFC
//! 8259. docs/LINES.md lists the requests.
//!
//! [`Edit`]: fr_graph::Edit
//! [`Hop`]: fr_tables::Hop
//! [`WayTable`]: fr_ways::WayTable
#![tactic(auto)]

mod fronts;
mod lines;
mod lists;
mod numbers;
mod read;
mod requests;
mod word_lines;
mod words;

pub use lines::{LineReader, read_line};
pub use requests::{LineFault, NodeQuestion, Question, Request};
