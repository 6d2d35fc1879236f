//! Tables of turns.

use crate::answers::Answer;
use crate::cases::{count, counts, items, number, word};
use fr_net::{MAX_NODES, Turns};
use serde_json::Value;

/// Answers a question about tables of turns. Returns whether it is such a question.
pub fn answer(answer: &mut Answer, asked: &str, given: &[Value]) -> bool {
    match (asked, given) {
        ("turns", [nodes, steps]) => turns(answer, nodes, steps),
        ("turns_of", [counts]) => turns_of(answer, counts),
        _ => return false,
    }
    true
}

/// A table for so many nodes in which none has turned.
pub fn none(answer: &mut Answer, nodes: u32) -> Option<Turns> {
    if nodes > MAX_NODES {
        answer.note_no_case();
        return None;
    }
    let turns = Turns::none(answer.alloc, nodes).ok();
    answer.note(turns.is_some());
    turns
}

/// Takes steps with a table that has no turns.
fn turns(answer: &mut Answer, nodes: &Value, steps: &Value) {
    let nodes = number(answer, nodes);
    if let Some(mut turns) = none(answer, nodes) {
        take_all(answer, &mut turns, steps);
    }
}

fn take_all(answer: &mut Answer, turns: &mut Turns, steps: &Value) {
    for step in items(answer, steps) {
        take(answer, turns, step);
    }
}

/// Takes one step, which writes the table or changes it.
fn take(answer: &mut Answer, turns: &mut Turns, step: &Value) {
    match items(answer, step) {
        [asked] => tell_or_clear(answer, turns, asked),
        [asked, given] => change(answer, turns, asked, given),
        _ => answer.note_no_case(),
    }
}

fn tell_or_clear(answer: &mut Answer, turns: &mut Turns, asked: &Value) {
    match word(answer, asked) {
        "tell" => tell(answer, turns),
        "clear" => turns.clear(),
        _ => answer.note_no_case(),
    }
}

/// Writes the counts, the nodes that have turned, and how many turns there are.
fn tell(answer: &mut Answer, turns: &Turns) {
    answer.comma();
    answer.put(&turns.counts());
    answer.say(" ");
    answer.put(&turns.nodes());
    answer.say(" ");
    answer.put(&turns.total());
}

/// Changes a table, if that change is possible.
fn change(answer: &mut Answer, turns: &mut Turns, asked: &Value, given: &Value) {
    match word(answer, asked) {
        "add" => add(answer, turns, given),
        "each" => set_each(answer, turns, given),
        "copy" => copy(answer, turns, given),
        _ => answer.note_no_case(),
    }
}

fn add(answer: &mut Answer, turns: &mut Turns, given: &Value) {
    let x = number(answer, given);
    let counts = turns.counts();
    if x as usize >= counts.len() || counts[x as usize] == u64::MAX {
        return answer.note_no_case();
    }
    turns.add(x);
}

fn set_each(answer: &mut Answer, turns: &mut Turns, given: &Value) {
    let count = count(answer, given);
    if count == 0 {
        return answer.note_no_case();
    }
    turns.set_each(count);
}

fn copy(answer: &mut Answer, turns: &mut Turns, given: &Value) {
    let counts = counts(answer, given);
    if counts.len() != turns.counts().len() {
        return answer.note_no_case();
    }
    turns.copy_from(&counts);
}

/// The counts of a table that is made from counts.
fn turns_of(answer: &mut Answer, given: &Value) {
    let counts = counts(answer, given);
    if counts.len() > MAX_NODES as usize {
        return answer.note_no_case();
    }
    match Turns::of(answer.alloc, counts) {
        Ok(turns) => answer.put(&turns.into_counts()),
        Err(_) => answer.note(false),
    }
}
