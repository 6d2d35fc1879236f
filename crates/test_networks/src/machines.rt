//! The machine, under schedules and stepped by hand.

ghost use Rattle.std.specs.Prelude.{IfOk};
ghost use Rattle.fr_core.specs.Runs.{IsRunTo};

use crate::answers::Answer;
use crate::cases::{items, number, numbers, word};
use fr_core::{Entry, Machine, PlayFault, Target, check_run, play};
use fr_net::Net;
use serde_json::Value;
use std::alloc::Global;

/// Answers a question about a machine on a network, with its destination, the targets of each worker, and the worker of
/// each step. Returns whether it is such a question.
pub fn answer_network_case(answer: &mut Answer, net: &Net, asked: &str, given: &[Value]) -> bool {
    match (asked, given) {
        ("play", [dest, targets, order]) => played(answer, net, dest, targets, order),
        ("by_hand", [dest, targets, order]) => by_hand(answer, net, dest, targets, order),
        ("steps", [dest, targets, order]) => steps(answer, net, dest, targets, order),
        _ => return false,
    }
    true
}

/// The targets of each worker.
fn targets(answer: &mut Answer, value: &Value) -> Vec<Vec<Target>> {
    let mut targets = Vec::new(answer.alloc);
    for worker in items(answer, value) {
        let worker = targets_of_one(answer, worker);
        answer.note(targets.push(worker).is_ok());
    }
    targets
}

/// The targets of a worker.
fn targets_of_one(answer: &mut Answer, value: &Value) -> Vec<Target> {
    let mut targets = Vec::new(answer.alloc);
    for target in items(answer, value) {
        push(answer, &mut targets, target);
    }
    targets
}

/// Adds a target: its word, and a node.
fn push(answer: &mut Answer, targets: &mut Vec<Target>, given: &Value) {
    match items(answer, given) {
        [named, x] => {
            let target = target_of(answer, named, x);
            answer.note(targets.push(target).is_ok());
        }
        _ => answer.note_no_case(),
    }
}

/// The target with this word.
fn target_of(answer: &mut Answer, named: &Value, x: &Value) -> Target {
    let x = number(answer, x);
    match word(answer, named) {
        "turn" => return Target::Turn(x),
        "look" => {}
        _ => answer.note_no_case(),
    }
    Target::Look(x)
}

/// The entries of a play, or its fault.
fn played(answer: &mut Answer, net: &Net, dest: &Value, given: &Value, order: &Value) {
    let dest = number(answer, dest);
    let schedule = numbers(answer, order);
    let targets = targets(answer, given);
    match play(answer.alloc, net, dest, targets, &schedule) {
        Ok(entries) => tell_entries(answer, &entries),
        Err(fault) => answer.put(&fault),
    }
}

/// Writes entries, or that there are none.
fn tell_entries(answer: &mut Answer, entries: &[Entry]) {
    if entries.is_empty() {
        answer.say("no entry");
    }
    for entry in entries {
        tell_entry(answer, entry);
    }
}

/// Writes an entry: the worker, the node and the reply.
fn tell_entry(answer: &mut Answer, entry: &Entry) {
    answer.comma();
    answer.put(&entry.worker);
    answer.say(" ");
    answer.put(&entry.node);
    answer.say(" ");
    answer.put(&entry.reply);
}

/// The counts of a machine after steps by hand, and those to which its entries lead when they are checked.
fn by_hand(answer: &mut Answer, net: &Net, dest: &Value, given: &Value, order: &Value) {
    let dest = number(answer, dest);
    let order = numbers(answer, order);
    let targets = targets(answer, given);
    match step_by_hand(answer.alloc, net, dest, targets, &order) {
        Ok((entries, counts)) => {
            answer.put(&counts);
            answer.say(", checked ");
            let checked = check_run(answer.alloc, net, dest, &entries);
            answer.put(&checked);
        }
        Err(fault) => answer.put(&fault),
    }
}

/// Steps a machine by hand. Each number is the worker of the next step; a number that is not a worker is skipped. The
/// entries, and the counts that they are a run to.
fn step_by_hand(
    alloc: Global,
    net: &Net,
    dest: u32,
    targets: Vec<Vec<Target>>,
    order: &[u32],
) -> Result<(Vec<Entry>, Vec<u64>), PlayFault>
    ensures { IfOk result (λ r. IsRunTo net.now.nodes dest net.now.links r.0.items r.1.items) }
{
    let mut machine = Machine::new(alloc, net, dest, targets)?;
    let mut entries = Vec::new(alloc);
    for worker in order {
        if *worker as usize >= machine.workers() {
            continue;
        }
        if let Some(entry) = machine.step(*worker) {
            entries.push(entry)?;
        }
    }
    let counts = machine.counts().to_vec(alloc)?;
    Ok((entries, counts))
}

/// What each step decides, with the counts after it, and the number of workers. A number that is not a worker is
/// skipped.
fn steps(answer: &mut Answer, net: &Net, dest: &Value, given: &Value, order: &Value) {
    let dest = number(answer, dest);
    let order = numbers(answer, order);
    let targets = targets(answer, given);
    match Machine::new(answer.alloc, net, dest, targets) {
        Ok(machine) => step_all(answer, machine, &order),
        Err(fault) => answer.put(&fault),
    }
}

fn step_all(answer: &mut Answer, mut machine: Machine, order: &[u32]) {
    for worker in order {
        if (*worker as usize) < machine.workers() {
            let decided = machine.step(*worker);
            tell_step(answer, decided, machine.counts());
        }
    }
    answer.comma();
    answer.put(&machine.workers());
}

/// Writes what a step decides, and the counts after it.
fn tell_step(answer: &mut Answer, decided: Option<Entry>, counts: &[u64]) {
    answer.comma();
    match decided {
        Some(entry) => answer.put(&entry.reply),
        None => answer.say("None"),
    }
    answer.say(" ");
    answer.put(&counts);
}
