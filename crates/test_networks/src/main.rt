//! Tests of networks, request lines, the finisher, the machine and its checker (fr_net, fr_core), and of tables of hops
//! (fr_tables), by public calls only. Each line of standard input is a case: a JSON array whose first item is a word
//! for the question. The program writes the line, and below it, indented, the answer. A line that begins with `#` is a
//! title. The cases are in the file `stdin`. The file `stdout` has the cases with the expected answers, which were not
//! written by this program.
#![tactic(auto)]

mod answers;
mod cases;
mod edits;
mod faults;
mod finishing;
mod histories;
mod machines;
mod networks;
mod push_orders;
mod request_lines;
mod tables;

use answers::Answer;
use cases::{items, word};
use fr_net::Net;
use networks::{network, tell_fault};
use serde_json::Value;
use std::alloc::Global;
use std::io;

fn main(rt: HostRuntime) -> io::Result<()> {
    for line in rt.lines(rt.alloc()) {
        let line = line?;
        rt.println(line.as_str())?;
        if !line.starts_with('#') {
            tell(&rt, line.as_str())?;
        }
    }
    Ok(())
}

/// Writes the answer to a case.
fn tell<R: Alloc<A = Global> + Print>(rt: &R, line: &str) -> io::Result<()> {
    let mut answer = Answer::new(rt.alloc());
    match Value::from_str(rt.alloc(), line) {
        Ok(case) => answer_case(&mut answer, &case),
        Err(_) => answer.note_no_case(),
    }
    rt.print("  ")?;
    rt.println(answer.text())
}

/// Answers a case.
fn answer_case(answer: &mut Answer, case: &Value) {
    match items(answer, case) {
        [asked, given @ ..] => {
            let asked = word(answer, asked);
            answer_word(answer, asked, given);
        }
        [] => answer.note_no_case(),
    }
}

/// Answers the question of a word about the items after it. Each subject has words of its own. Most questions are about
/// a network, which comes first.
fn answer_word(answer: &mut Answer, asked: &str, given: &[Value]) {
    let is_known = networks::answer(answer, asked, given)
        || tables::answer(answer, asked, given)
        || push_orders::answer(answer, asked, given)
        || finishing::answer(answer, asked, given)
        || request_lines::answer(answer, asked, given)
        || faults::answer(answer, asked, given);
    match given {
        _ if is_known => {}
        [nodes, links, given @ ..] => match network(answer, nodes, links) {
            Ok(net) => answer_network_case(answer, net, asked, given),
            Err(fault) => tell_fault(answer, fault),
        },
        _ => answer.note_no_case(),
    }
}

/// Answers the question of a word about a network.
fn answer_network_case(answer: &mut Answer, mut net: Net, asked: &str, given: &[Value]) {
    let is_known = networks::answer_network_case(answer, &net, asked, given)
        || finishing::answer_network_case(answer, &net, asked, given)
        || machines::answer_network_case(answer, &net, asked, given)
        || histories::answer_network_case(answer, &net, asked, given)
        || edits::answer_network_case(answer, &mut net, asked, given);
    if !is_known {
        answer.note_no_case();
    }
}
