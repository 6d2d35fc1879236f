//! Small histories, checked.

use crate::answers::Answer;
use crate::cases::{count, items, number, word};
use fr_core::{Entry, Reply, check_run};
use fr_net::Net;
use serde_json::Value;

/// Answers the counts that a history leads to, or its first entry that is not legal. Returns whether that is the
/// question.
pub fn answer_network_case(answer: &mut Answer, net: &Net, asked: &str, given: &[Value]) -> bool {
    match (asked, given) {
        ("history", [dest, entries]) => history(answer, net, dest, entries),
        _ => return false,
    }
    true
}

fn history(answer: &mut Answer, net: &Net, dest: &Value, given: &Value) {
    let dest = number(answer, dest);
    let mut entries = Vec::new(answer.alloc);
    for entry in items(answer, given) {
        push(answer, &mut entries, entry);
    }
    let checked = check_run(answer.alloc, net, dest, &entries);
    answer.put(&checked);
}

/// Adds an entry: the worker, the node, the word of the reply, and its numbers.
fn push(answer: &mut Answer, entries: &mut Vec<Entry>, given: &Value) {
    match items(answer, given) {
        [worker, node, named, numbers @ ..] => {
            let worker = number(answer, worker);
            let node = number(answer, node);
            let reply = reply(answer, named, numbers);
            let pushed = entries.push(Entry {
                worker,
                node,
                reply,
            });
            answer.note(pushed.is_ok());
        }
        _ => answer.note_no_case(),
    }
}

fn reply(answer: &mut Answer, named: &Value, numbers: &[Value]) -> Reply {
    match (word(answer, named), numbers) {
        ("turned", [turns]) => {
            let count = count(answer, turns);
            return Reply::Turned { count };
        }
        ("held", [by]) => {
            let by = number(answer, by);
            return Reply::Held { by };
        }
        ("moved", [had, turns]) => {
            let had = count(answer, had);
            let count = count(answer, turns);
            return Reply::Moved { had, count };
        }
        ("cut", []) => return Reply::Cut,
        ("sink", []) => {}
        _ => answer.note_no_case(),
    }
    Reply::Sink
}
