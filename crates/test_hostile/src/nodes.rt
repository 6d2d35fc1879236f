//! The calls of fr_node.

use crate::telling::{Answer, say};
use fr_node::{Node, Policy, Rise};
use std::alloc::Global;

/// A router that comes to know neighbours, and its message for the last one.
pub fn known<R: Alloc<A = Global> + Print + Eprint>(rt: &R, answer: &mut Answer) {
    let policy = Policy {
        rise: Rise::Full,
        lower: false,
        wait: true,
    };
    let Ok(mut node) = Node::new(rt.alloc(), 1, 1, 7, policy) else {
        return say(rt, "the router has not started");
    };
    // So many neighbours that the router has to allocate more than once.
    for neighbour in [0, 2, 3, 4, 5] {
        if know(rt, answer, &mut node, neighbour).is_none() {
            return;
        }
    }
    // This one is known already.
    if know(rt, answer, &mut node, 2).is_none() {
        return;
    }
    answer.put(&node.neighbours());
    node.link_up(5);
    let written = node.written(node.state());
    if answer.value_or_report(rt, written).is_some() {
        answer.put(&node.say(5));
    }
}

/// Makes a neighbour known. If that fails for want of memory, the router must be unchanged.
fn know<R: Print + Eprint>(
    rt: &R,
    answer: &mut Answer,
    node: &mut Node,
    neighbour: u32,
) -> Option<()> {
    let before = node.neighbours();
    let known = node.know(neighbour, 1);
    let known = answer.value_or_report(rt, known);
    if known.is_none() && (node.neighbours() != before || node.height() != 7) {
        say(rt, "the router has changed");
    }
    known
}
