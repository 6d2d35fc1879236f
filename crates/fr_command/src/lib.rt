//! What the commands of the program do, with any readers and writers.
//!
//! [`run`] answers the lines of an input as text, and [`play_drawn`] plays the schedule of a [`Draw`] on its network.
//! [`serve`] answers each line of a [`Stream`] as soon as it has ended. It uses a [`Conversation`], to which a caller can
//! pass bytes from any source. [`run_in`] and [`serve_in`] answer in any [`Form`], as text or as JSON, and return a
//! [`Tally`] of the answered and the refused lines. [`program`] does what the words of a command line ask for.
//!
//! Parts of [`run`] are public, for programs that read an input and write another text: [`read_input`], [`Lines`],
//! [`first_line`] and [`write_whole`]. [`command_line`] and [`task_of`] read the words of a command line, and
//! [`task_end`] says how the program ends if they do not ask for a task.
//!
//! Costs are for n nodes, m links, and d links at a node. They are read off the code, not proved.
#![tactic(auto)]

mod answers;
mod conversation;
mod entries;
mod fault;
pub mod laws;
mod play;
mod programs;
mod responder;
mod runs;
mod serving;
mod words;

pub use conversation::{Conversation, Taken};
pub use fault::run_end;
pub use fr_bytes::{
    Joined, Lines, MAX_BYTES, RunFault, Stream, first_line, read_input, write_whole,
};
pub use fr_cli::{CommandLine, Draw, MAX_STEPS, Task, TaskFault, task_end};
pub use fr_route::Form;
pub use play::play_drawn;
pub use programs::{Failure, program};
pub use responder::Tally;
pub use runs::{run, run_in};
pub use serving::{serve, serve_in};
pub use words::{command_line, task_of};
