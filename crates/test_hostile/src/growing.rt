//! A deque of a crew that grows while its worker turns a node.

use crate::telling::Answer;
use fr_crew::{Gate, Plan, Settled, settle};
use fr_net::{Net, NetFault};
use std::alloc::{AllocError, Global};
use std::sync::Wait;
use std::sync::atomic::{AtomicU64, Ordering};
use std::thread::{Threads, yield_now};

/// How many nodes the network has. The deque of worker 0 has room for less than half of them at first.
const NODES: u32 = 1161;

/// The two hubs. Both are dealt to worker 0, as the nodes whose numbers are multiples of 3.
const HUBS: [u32; 2] = [3, 6];

/// How many nodes worker 1 is dealt, and worker 2.
const DEALT: u64 = 387;

/// The first call of worker 0 after it has turned both hubs, which are the first nodes that it is dealt.
const BOTH_TURNED: u64 = 3;

/// The longest that a worker is held, in turns of a loop.
const LIMIT: u64 = 100_000_000;

/// A gate that holds worker 0 before its first call until the two others have taken their last node out of their
/// deques. It holds these until worker 0 has turned both hubs. So worker 0 puts all candidates alone.
#[derive(Drop)]
struct HoldingGate {
    at_last: AtomicU64,
    of_first: AtomicU64,
}

/// Waits until so many are counted, or up to the limit.
fn wait(counted: &AtomicU64, count: u64) {
    for looks in 0..LIMIT {
        if counted.load(Ordering::SeqCst) >= count {
            return;
        }
        if looks % 1000 == 999 {
            yield_now();
        }
    }
}

impl Gate for HoldingGate {
    fn before(&self, worker: u32, call: u64) {
        if worker == 0 {
            self.of_first.fetch_add(1, Ordering::SeqCst);
            if call == 1 {
                wait(&self.at_last, 2);
            }
        } else if call == DEALT {
            self.at_last.fetch_add(1, Ordering::SeqCst);
            wait(&self.of_first, BOTH_TURNED);
        }
    }

    fn after(&self, _worker: u32, _call: u64) {}
}

/// A link from each other node to each hub.
fn links(alloc: Global) -> Result<Vec<(u32, u32)>, AllocError> {
    let mut links = Vec::with_capacity(alloc, 2 * NODES as usize)?;
    for x in 0..NODES {
        if x != HUBS[0] && x != HUBS[1] {
            links.push((x, HUBS[0]))?;
            links.push((x, HUBS[1]))?;
        }
    }
    Ok(links)
}

/// A crew of three, in which the deque of worker 0 has to grow when this worker turns the first hub. If that is refused,
/// one node is dropped. When the worker turns the second hub, the node is a candidate again, and can turn. So no turn is
/// left to the finisher.
pub fn grown<R: Threads + Wait + Sync + Alloc<A = Global> + Eprint>(rt: &R, answer: &mut Answer) {
    if let Some(links) = answer.value_or_report(rt, links(rt.alloc())) {
        if let Some(net) = answer.value_or_report::<Net, NetFault, R>(
            rt,
            Net::new(rt.alloc(), NODES, &links),
        ) {
            settle_hubs(rt, answer, net);
        }
    }
}

fn settle_hubs<R: Threads + Wait + Sync + Alloc<A = Global> + Eprint>(
    rt: &R,
    answer: &mut Answer,
    net: Net,
) {
    let plan = Plan::new(3, 0, 100_000).unwrap();
    let gate = HoldingGate {
        at_last: AtomicU64::new(0),
        of_first: AtomicU64::new(0),
    };
    let settled = settle(rt, rt.alloc(), net, 0, &plan, &gate);
    if let Some(settled) = answer.value_or_report(rt, settled) {
        put_makers(answer, &settled);
    }
}

/// Appends how many turns the workers made, and how many the finisher.
fn put_makers(answer: &mut Answer, settled: &Settled) {
    answer.say("by workers");
    answer.put(&settled.by_workers);
    answer.say("by the finisher");
    answer.put(&settled.by_finisher);
}
