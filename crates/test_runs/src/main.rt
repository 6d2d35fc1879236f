//! Tests of routers, sessions, runs, plays and command lines (fr_route and the crates above it), by public calls only.
//! The cases come from standard input, and their answers go to standard output. The file `stdout` has what is expected.
//!
//! A case is a line with a JSON array whose first item names the question. If the line ends with a colon, the lines up
//! to one that begins with `end` belong to the case. The case is printed, and after it its answer, indented by two
//! blanks. Blank lines and titles, which begin with `#`, are printed as well.
//!
//! The lines of a case are an input, each with its byte 10, with two exceptions. A line that begins with `"` is a JSON
//! string, and the line of the input is its text, so that white space is visible. After `end without newline`, the last
//! byte 10 is missing.
#![tactic(auto)]

mod answers;
mod cases;
mod changes;
mod gates;
mod inputs;
mod outcomes;
mod plays;
mod routers;
mod runs;
mod sessions;
mod streams;
mod tasks;
mod telling;
mod words;

use cases::tell_all;
use fr_command::read_input;

fn main(rt: HostRuntime) {
    match read_input(rt.alloc(), &mut rt.reader()) {
        Ok(input) => tell_all(&rt, &input),
        Err(fault) => {
            let _ = rt.eprintln(fault);
        }
    }
}
