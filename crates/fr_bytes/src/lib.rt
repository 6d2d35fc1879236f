//! Input and output as bytes, over any readers and writers.
//!
//! [`read_input`] reads all of an input, and [`read_piece`] reads once. [`Lines`] iterates over the lines of an input,
//! [`first_line`] splits off the first one, and [`front_size`] returns its length. [`write_whole`] writes bytes, and
//! [`write_out`] also flushes. A [`Stream`] is a reader and a writer in one, with a log in its contracts; [`Joined`] makes
//! one of a reader and a writer, and [`send_whole`] writes to it. [`RunFault`] says why one of the programs stopped.
#![tactic(auto)]

mod fault;
mod input;
mod lines;
mod output;
mod stream;

pub use fault::RunFault;
pub use input::{MAX_BYTES, PIECE, read_input, read_piece};
pub use lines::{Lines, first_line, front_size};
pub use output::{flush, write_out, write_whole};
pub use stream::{Joined, Stream, send_whole};
