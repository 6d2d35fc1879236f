//! The input of a case: words, numbers, links, and lists of them. If an item is of another kind, the answer says so,
//! and 0, no word or an empty list is used for it.

use crate::answers::Answer;
use fr_net::MAX_NODES;
use serde_json::Value;

/// A word.
pub fn word<'a>(answer: &mut Answer, value: &'a Value) -> &'a str {
    if let Some(word) = value.as_str() {
        return word;
    }
    answer.note_no_case();
    ""
}

/// The items of a list.
pub fn items<'a>(answer: &mut Answer, value: &'a Value) -> &'a [Value] {
    if let Some(items) = value.as_array() {
        return items.as_slice();
    }
    answer.note_no_case();
    &[]
}

/// A number that can be a count.
pub fn count(answer: &mut Answer, value: &Value) -> u64 {
    if let Some(count) = value.as_u64() {
        return count;
    }
    answer.note_no_case();
    0
}

/// A number that can be a node.
pub fn number(answer: &mut Answer, value: &Value) -> u32 {
    let count = count(answer, value);
    if count <= u32::MAX as u64 {
        return count as u32;
    }
    answer.note_no_case();
    0
}

/// A number that can be a length.
pub fn length(answer: &mut Answer, value: &Value) -> usize {
    count(answer, value) as usize
}

/// Numbers that can be nodes.
pub fn numbers(answer: &mut Answer, value: &Value) -> Vec<u32> {
    let mut numbers = Vec::new(answer.alloc);
    for item in items(answer, value) {
        let number = number(answer, item);
        answer.note(numbers.push(number).is_ok());
    }
    numbers
}

/// Numbers that can be counts.
pub fn counts(answer: &mut Answer, value: &Value) -> Vec<u64> {
    let mut counts = Vec::new(answer.alloc);
    for item in items(answer, value) {
        let count = count(answer, item);
        answer.note(counts.push(count).is_ok());
    }
    counts
}

/// Links: a list of them, or `["chain", nodes, first]`, or `["down", count]`.
pub fn links(answer: &mut Answer, value: &Value) -> Vec<(u32, u32)> {
    match items(answer, value) {
        [word, nodes, first] if word.as_str() == Some("chain") => chain(answer, nodes, first),
        [word, count] if word.as_str() == Some("down") => down(answer, count),
        items => listed(answer, items),
    }
}

fn listed(answer: &mut Answer, given: &[Value]) -> Vec<(u32, u32)> {
    let mut links = Vec::new(answer.alloc);
    for link in given {
        push_link(answer, &mut links, link);
    }
    links
}

fn push_link(answer: &mut Answer, links: &mut Vec<(u32, u32)>, link: &Value) {
    match items(answer, link) {
        [tail, head] => {
            let link = (number(answer, tail), number(answer, head));
            answer.note(links.push(link).is_ok());
        }
        _ => answer.note_no_case(),
    }
}

/// The links of a chain of so many nodes: each node from `first` on has a link to the next.
fn chain(answer: &mut Answer, nodes: &Value, first: &Value) -> Vec<(u32, u32)> {
    let mut links = Vec::new(answer.alloc);
    for x in number(answer, first)..number(answer, nodes).saturating_sub(1) {
        answer.note(links.push((x, x + 1)).is_ok());
    }
    links
}

/// The first `count` links that lead from a node to a lower one, ordered by tail and then by head.
fn down(answer: &mut Answer, count: &Value) -> Vec<(u32, u32)> {
    let count = length(answer, count);
    let mut links = Vec::new(answer.alloc);
    for tail in 0..MAX_NODES {
        push_down(answer, &mut links, count, tail);
    }
    links
}

/// Adds the links from `tail` to lower nodes, up to `count` links in all.
fn push_down(answer: &mut Answer, links: &mut Vec<(u32, u32)>, count: usize, tail: u32) {
    for head in 0..tail {
        if links.len() == count {
            break;
        }
        answer.note(links.push((tail, head)).is_ok());
    }
}
