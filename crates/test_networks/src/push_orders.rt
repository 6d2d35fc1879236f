//! Tables of hops: loops, push orders, and the table after each push (fr_tables).

use crate::answers::Answer;
use crate::cases::{items, number, numbers};
use fr_tables::{Hop, TableFault, find_loop, push_order};
use serde_json::Value;

/// Answers a question about tables of hops. Returns whether it is such a question.
pub fn answer(answer: &mut Answer, asked: &str, given: &[Value]) -> bool {
    match (asked, given) {
        ("push_order", [old, new]) => order(answer, old, new),
        ("find_loop", [table]) => found(answer, table),
        ("pushed", [old, new, order]) => pushed(answer, old, new, order),
        _ => return false,
    }
    true
}

/// A hop: `"here"`, `"cut"`, or the number of a node.
fn hop(answer: &mut Answer, value: &Value) -> Hop {
    match value.as_str() {
        Some("here") => Hop::Here,
        Some("cut") => Hop::CutOff,
        _ => Hop::To(number(answer, value)),
    }
}

fn table(answer: &mut Answer, value: &Value) -> Vec<Hop> {
    let mut table = Vec::new(answer.alloc);
    for item in items(answer, value) {
        let hop = hop(answer, item);
        answer.note(table.push(hop).is_ok());
    }
    table
}

fn order(answer: &mut Answer, old: &Value, new: &Value) {
    let old = table(answer, old);
    let new = table(answer, new);
    match push_order(answer.alloc, &old, &new) {
        Ok(order) => answer.put(&order),
        Err(fault) => tell_fault(answer, &fault),
    }
}

fn found(answer: &mut Answer, given: &Value) {
    let table = table(answer, given);
    tell_loop(answer, &table);
}

/// Pushes hops in the given order, and writes after each push whether the table has a loop.
fn pushed(answer: &mut Answer, old: &Value, new: &Value, order: &Value) {
    let mut old = table(answer, old);
    let new = table(answer, new);
    for x in numbers(answer, order) {
        push(answer, &mut old, &new, x as usize);
    }
}

fn push(answer: &mut Answer, table: &mut [Hop], new: &[Hop], x: usize) {
    if x >= table.len() || x >= new.len() {
        return answer.note_no_case();
    }
    table[x] = new[x];
    answer.comma();
    tell_loop(answer, table);
}

/// Writes the length of a loop, if there is one. The contracts say that it is a loop.
fn tell_loop(answer: &mut Answer, table: &[Hop]) {
    match find_loop(answer.alloc, table) {
        Ok(None) => answer.say("no loop"),
        Ok(Some(nodes)) => tell_length(answer, &nodes),
        Err(fault) => tell_fault(answer, &fault),
    }
}

fn tell_length(answer: &mut Answer, nodes: &[u32]) {
    answer.say("loop of ");
    answer.put(&nodes.len());
}

/// Writes a fault and its text; of a loop it writes the length.
fn tell_fault(answer: &mut Answer, fault: &TableFault) {
    match fault {
        TableFault::Loop(nodes) => tell_length(answer, nodes),
        other => answer.put(other),
    }
    answer.say(": ");
    answer.show(fault);
}
