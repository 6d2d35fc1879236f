//! The words of a command line, and what they ask for.
//!
//! [`command_line`] reads the words with `clap`, and returns a [`CommandLine`]. Its [`Task`] is to answer requests with
//! a plan, or to play the schedule of a [`Draw`]. [`task_of`] returns only the task. [`task_end`] says how the program
//! ends if the words do not ask for a task.
#![tactic(auto)]

mod command;
mod draws;
mod task;

pub use draws::{Draw, MAX_STEPS};
pub use task::{CommandLine, Task, TaskFault, command_line, task_end, task_of};
