//! The texts of faults.

use crate::answers::Answer;
use crate::cases::{length, number, numbers, word};
use fr_core::{CheckFault, Why};
use fr_net::{EditFault, LineFault, NetFault};
use serde_json::Value;

/// Answers what a fault says of itself. Returns whether a fault is given.
pub fn answer(answer: &mut Answer, asked: &str, given: &[Value]) -> bool {
    match (asked, given) {
        ("net_fault", [named, numbers @ ..]) => tell_net_fault(answer, named, numbers),
        ("line_fault", [named]) => tell_line_fault(answer, named),
        ("edit_fault", [at, named]) => tell_edit_fault(answer, at, named),
        ("check_fault", [index, named]) => tell_check_fault(answer, index, named),
        _ => return false,
    }
    true
}

fn tell_net_fault(answer: &mut Answer, named: &Value, numbers: &[Value]) {
    let fault = net_fault(answer, named, numbers);
    answer.show(&fault);
}

/// A fault of links, with its nodes or the nodes of its cycle.
fn net_fault(answer: &mut Answer, named: &Value, given: &[Value]) -> NetFault {
    match (word(answer, named), given) {
        ("TooMany", []) => return NetFault::TooMany,
        ("Range", [x]) => return NetFault::Range(number(answer, x)),
        ("SelfLink", [x]) => return NetFault::SelfLink(number(answer, x)),
        ("Twice", [u, v]) => return NetFault::Twice(number(answer, u), number(answer, v)),
        ("Cycle", [walk]) => return NetFault::Cycle(numbers(answer, walk)),
        ("NoLink", []) => return NetFault::NoLink,
        ("Memory", []) => {}
        _ => answer.note_no_case(),
    }
    NetFault::Memory
}

fn tell_line_fault(answer: &mut Answer, named: &Value) {
    match word(answer, named) {
        "NotJson" => answer.show(&LineFault::NotJson),
        "NotRequest" => answer.show(&LineFault::NotRequest),
        _ => answer.note_no_case(),
    }
}

fn tell_edit_fault(answer: &mut Answer, at: &Value, named: &Value) {
    let at = length(answer, at);
    let fault = net_fault(answer, named, &[]);
    answer.show(&EditFault { at, fault });
}

fn tell_check_fault(answer: &mut Answer, index: &Value, named: &Value) {
    let index = length(answer, index);
    match word(answer, named) {
        "NotHeld" => answer.show(&CheckFault::BadAt {
            index,
            why: Why::NotHeld,
        }),
        _ => answer.note_no_case(),
    }
}
