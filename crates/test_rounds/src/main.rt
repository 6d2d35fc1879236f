//! Tests of rounds, crews and logs (fr_round, fr_crew, fr_logs), by public calls only. Each line of standard input is a title, which
//! begins with `#`, or a case: a JSON list whose first item names the question. Each line is printed, and below a case
//! its answer, indented by two blanks. The expected answers were not written by this program. What depends on the order
//! in which threads run is not printed.
#![tactic(auto)]

mod answers;
mod asked;
mod counts;
mod crews;
mod drawn;
mod fault;
mod gates;
mod live_walks;
mod log_checks;
mod logs;
mod merging;
mod rounds;
mod stealing;
mod threads;
mod values;

use answers::Answer;
use asked::answer;
use std::alloc::Global;
use std::io;
use std::rt::HostRuntime;
use std::sync::Wait;
use std::thread::Threads;

fn main(rt: HostRuntime) -> io::Result<()> {
    for line in rt.lines(rt.alloc()) {
        tell(&rt, line?.as_str())?;
    }
    Ok(())
}

/// Prints a line, and its answer unless it is a title.
fn tell<R: Threads + Wait + Sync + Alloc<A = Global> + Print>(
    rt: &R,
    line: &str,
) -> io::Result<()> {
    rt.println(line)?;
    if line.starts_with('#') {
        return Ok(());
    }
    rt.print("  ")?;
    let mut text = Answer::new(rt.alloc());
    match answer(rt, &mut text, line) {
        Ok(()) => rt.println(text.text()),
        Err(fault) => rt.println(fault),
    }
}
