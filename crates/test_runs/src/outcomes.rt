//! The results of runs and plays.

use crate::telling::{tell, tell_lines, tell_value};
use fr_command::RunFault;

/// What a run or a play wrote, and what it returned.
#[derive(Drop, PartialEq)]
pub struct Outcome {
    /// What it wrote.
    pub out: Vec<u8>,
    /// How many lines it answered or how many entries it has, or why it stopped.
    pub end: Result<u64, RunFault>,
}

/// Prints what was written, and then what was returned.
pub fn tell_outcome<R: Print>(rt: &R, outcome: &Outcome) {
    tell_lines(rt, &outcome.out);
    tell_value(rt, &outcome.end);
}

/// Prints the first line that was written.
pub fn tell_first<R: Print>(rt: &R, outcome: &Outcome) {
    match str::from_utf8(&outcome.out) {
        Ok(text) => tell(rt, text.lines().next().unwrap_or("no line")),
        Err(_) => tell(rt, "no text"),
    }
}
