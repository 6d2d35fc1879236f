//! Networks and plans that are drawn from a number.

use fr_core::Target;
use fr_net::{Net, NetFault};
use std::alloc::{AllocError, Global};

/// A sequence of numbers, each of which follows from the one before it.
#[derive(Drop)]
pub struct Draws(u64);

impl Draws {
    pub fn from(seed: u64) -> Draws {
        Draws(seed)
    }

    /// The next number, below `bound`, or 0 if that is 0.
    pub fn below(&mut self, bound: u32) -> u32 {
        self.0 = self
            .0
            .wrapping_mul(6_364_136_223_846_793_005)
            .wrapping_add(1_442_695_040_888_963_407);
        match u64::from(bound) {
            0 => 0,
            bound => ((self.0 >> 33) % bound) as u32,
        }
    }
}

/// A network in two halves that no link joins. All links point from the lower number to the higher one, so nodes turn
/// again and again. In each half a node has a link from the node before it, and drawn links from others.
pub fn network(alloc: Global, draws: &mut Draws, nodes: u32) -> Result<Net, NetFault> {
    let mut links = Vec::new(alloc);
    let half = nodes / 2;
    for to in 0..nodes {
        for from in 0..to {
            let is_next = from.saturating_add(1) == to;
            let are_together = (from < half) == (to < half);
            if are_together && (is_next || draws.below(8) == 0) {
                links.push((from, to))?;
            }
        }
    }
    Net::new(alloc, nodes, &links)
}

/// A plan of so many calls: three turns of drawn nodes for each look.
pub fn plan(
    alloc: Global,
    draws: &mut Draws,
    nodes: u32,
    calls: u32,
) -> Result<Vec<Target>, AllocError> {
    let mut plan = Vec::new(alloc);
    for _call in 0..calls {
        let x = draws.below(nodes);
        let target = if draws.below(4) == 0 {
            Target::Look(x)
        } else {
            Target::Turn(x)
        };
        plan.push(target)?;
    }
    Ok(plan)
}

/// A plan for each of so many workers.
pub fn plans(
    alloc: Global,
    draws: &mut Draws,
    nodes: u32,
    workers: u32,
    calls: u32,
) -> Result<Vec<Vec<Target>>, AllocError> {
    let mut plans = Vec::new(alloc);
    for _worker in 0..workers {
        plans.push(plan(alloc, draws, nodes, calls)?)?;
    }
    Ok(plans)
}
