//! Walks in an open round.

ghost use Rattle.fr_round.specs.Knowledge.{IsOwn};

use crate::answers::Answer;
use crate::fault::Fault;
use crate::rounds::opened_by_two;
use crate::values::{network, small_number};
use fr_crew::{LiveFault, LiveWalk, live_walk};
use serde_json::Value;
use std::alloc::Global;

/// `["walk", nodes, links, node, limit]`: a walk with destination 0 where nobody turns.
pub fn walk(alloc: Global, text: &mut Answer, asked: &[Value]) -> Result<(), Fault> {
    let [nodes, links, node, limit] = asked else {
        return Err(Fault::NoCase);
    };
    let (x, limit) = (small_number(node)?, small_number(limit)?);
    let (round, mut worker, _other) = opened_by_two(alloc, network(alloc, nodes, links)?)?;
    put_walk(text, &live_walk(alloc, &round, &mut worker, x, limit));
    Ok(())
}

/// Appends the result of a walk.
pub fn put_walk(text: &mut Answer, walked: &Result<LiveWalk, LiveFault>) {
    match walked {
        Ok(walk) => {
            text.put("", &walk.nodes);
            text.put(" ", &walk.end);
        }
        Err(fault) => text.put("", fault),
    }
}
