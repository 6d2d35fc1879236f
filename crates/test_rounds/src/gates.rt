//! Gates that hold workers, and one that listens. They test that two threads really run, that the gate is called before
//! and after each call, and that no answer depends on the speed of a worker.

use crate::answers::Answer;
use crate::crews::{
    chain_counts, long_chain, named_plan, plan, put_turns, settle_from_zero, wave, wave_counts,
};
use crate::fault::Fault;
use crate::values::{network, number, small_number};
use fr_crew::{Crew, Gate, Plan, Settled, settle};
use fr_net::Net;
use serde_json::Value;
use std::alloc::{AllocError, Global};
use std::sync::Wait;
use std::sync::atomic::{AtomicU64, Ordering};
use std::thread::{Threads, yield_now};

/// The longest that a gate holds a worker, in turns of a loop.
const LIMIT: u64 = 1_000_000_000;

/// After how many turns of the loop it lets other threads run.
const LOOKS: u64 = 1000;

/// Two ways from node 0 to node 3.
const SQUARE: [(u32, u32); 4] = [(0, 1), (0, 2), (1, 3), (2, 3)];

/// Waits until so many calls are counted, and returns whether that happened before the limit.
pub fn reaches(counted: &AtomicU64, count: u64) -> bool {
    for looks in 0..LIMIT {
        if counted.load(Ordering::SeqCst) >= count {
            return true;
        }
        // On a busy machine the worker that makes the next call may be waiting for this processor.
        if looks % LOOKS == LOOKS - 1 {
            yield_now();
        }
    }
    false
}

/// Which workers a gate holds before their first call.
#[derive(Drop, Clone, Copy)]
enum Held {
    One(u32),
    Odd,
}

/// A gate that holds workers until so many calls of the others are answered. It counts the calls, those of the others,
/// and how often a worker was held up to the limit.
#[derive(Drop)]
struct HoldingGate {
    held: Held,
    until: u64,
    answered: AtomicU64,
    reached: AtomicU64,
    before: AtomicU64,
    after: AtomicU64,
}

impl HoldingGate {
    fn new(held: Held, until: u64) -> HoldingGate {
        HoldingGate {
            held,
            until,
            answered: AtomicU64::new(0),
            reached: AtomicU64::new(0),
            before: AtomicU64::new(0),
            after: AtomicU64::new(0),
        }
    }

    fn holds(&self, worker: u32) -> bool {
        match self.held {
            Held::One(held) => worker == held,
            Held::Odd => worker % 2 == 1,
        }
    }

    fn wait(&self) {
        if !reaches(&self.answered, self.until) {
            self.reached.fetch_add(1, Ordering::SeqCst);
        }
    }

    /// Whether the limit was never reached, and at least four calls passed on both sides.
    fn was_passed(&self) -> bool {
        self.reached.load(Ordering::SeqCst) == 0
            && self.before.load(Ordering::SeqCst) >= 4
            && self.after.load(Ordering::SeqCst) >= 4
    }
}

impl Gate for HoldingGate {
    fn before(&self, worker: u32, call: u64) {
        self.before.fetch_add(1, Ordering::SeqCst);
        if call == 1 && self.holds(worker) {
            self.wait();
        }
    }

    fn after(&self, worker: u32, _call: u64) {
        self.after.fetch_add(1, Ordering::SeqCst);
        if !self.holds(worker) {
            self.answered.fetch_add(1, Ordering::SeqCst);
        }
    }
}

/// A gate that holds worker 3 for a while before each of its first ten calls.
#[derive(Drop)]
struct SlowGate(AtomicU64);

impl Gate for SlowGate {
    fn before(&self, worker: u32, call: u64) {
        if worker == 3 && call <= 10 {
            for _ in 0..1_000_000u64 {
                self.0.fetch_add(1, Ordering::SeqCst);
            }
        }
    }

    fn after(&self, _worker: u32, _call: u64) {}
}

/// A gate that holds worker 0 until the first call of worker 1 is answered, and holds worker 1 after that call until
/// worker 0 comes to its second one.
#[derive(Drop)]
struct CrossingGate {
    answered: AtomicU64,
    came: AtomicU64,
}

impl Gate for CrossingGate {
    fn before(&self, worker: u32, call: u64) {
        match (worker, call) {
            (0, 1) => {
                reaches(&self.answered, 1);
            }
            (0, 2) => {
                self.came.fetch_add(1, Ordering::SeqCst);
            }
            _ => {}
        }
    }

    fn after(&self, worker: u32, call: u64) {
        if (worker, call) == (1, 1) {
            self.answered.fetch_add(1, Ordering::SeqCst);
            reaches(&self.came, 1);
        }
    }
}

/// A gate that makes so many workers take turns with their first calls, worker 1 first and worker 0 last, for so many
/// calls each. It lets all later calls pass. Once a worker has waited up to the limit, nobody waits any more.
#[derive(Drop)]
struct TakingTurnsGate {
    workers: u64,
    calls: u64,
    answered: AtomicU64,
    reached: AtomicU64,
}

impl TakingTurnsGate {
    fn new(workers: u32, calls: u64) -> TakingTurnsGate {
        TakingTurnsGate {
            workers: u64::from(workers),
            calls,
            answered: AtomicU64::new(0),
            reached: AtomicU64::new(0),
        }
    }

    /// How many calls come before this one, if it is one of the first calls.
    fn calls_before(&self, worker: u32, call: u64) -> Option<u64> {
        if call > self.calls {
            return None;
        }
        let of_others = match u64::from(worker).checked_sub(1) {
            Some(before) => before,
            None => self.workers.checked_sub(1)?,
        };
        call.checked_sub(1)?
            .checked_mul(self.workers)?
            .checked_add(of_others)
    }

    /// Whether no worker waited up to the limit.
    fn was_kept(&self) -> bool {
        self.reached.load(Ordering::SeqCst) == 0
    }
}

impl Gate for TakingTurnsGate {
    fn before(&self, worker: u32, call: u64) {
        if let Some(calls) = self.calls_before(worker, call) {
            if self.was_kept() && !reaches(&self.answered, calls) {
                self.reached.fetch_add(1, Ordering::SeqCst);
            }
        }
    }

    fn after(&self, worker: u32, call: u64) {
        if self.calls_before(worker, call).is_some() {
            self.answered.fetch_add(1, Ordering::SeqCst);
        }
    }
}

/// What a gate has seen of the calls of one worker.
#[derive(Drop)]
struct Calls {
    before: AtomicU64,
    after: AtomicU64,
}

impl Calls {
    /// Notes that this call begins. Returns whether it is the next one, and the one before it has been answered.
    fn begins(&self, call: u64) -> bool {
        let passed = self.before.fetch_add(1, Ordering::SeqCst);
        call.checked_sub(1) == Some(passed) && self.after.load(Ordering::SeqCst) == passed
    }

    /// Notes that this call was answered. Returns whether it is the one that began last.
    fn ends(&self, call: u64) -> bool {
        let passed = self.after.fetch_add(1, Ordering::SeqCst);
        call.checked_sub(1) == Some(passed) && self.before.load(Ordering::SeqCst) == call
    }
}

/// A gate that listens: whether it is called for each worker's calls in order, counted from 1, before and after each
/// call.
#[derive(Drop)]
struct ListeningGate {
    workers: Vec<Calls>,
    out_of_order: AtomicU64,
}

impl ListeningGate {
    fn new(alloc: Global, count: u32) -> Result<ListeningGate, AllocError> {
        let mut workers = Vec::new(alloc);
        for _ in 0..count {
            workers.push(Calls {
                before: AtomicU64::new(0),
                after: AtomicU64::new(0),
            })?;
        }
        Ok(ListeningGate {
            workers,
            out_of_order: AtomicU64::new(0),
        })
    }

    fn note(&self, is_next: bool) {
        if !is_next {
            self.out_of_order.fetch_add(1, Ordering::SeqCst);
        }
    }

    /// How many calls were announced to the gate before they were made.
    fn calls(&self) -> u64 {
        let mut calls = 0u64;
        for worker in &self.workers {
            calls = calls.saturating_add(worker.before.load(Ordering::SeqCst));
        }
        calls
    }

    /// Whether all calls were in order, and each one that began was also answered.
    fn was_in_order(&self) -> bool {
        self.out_of_order.load(Ordering::SeqCst) == 0
            && self.workers.iter().all(|worker| {
                worker.before.load(Ordering::SeqCst) == worker.after.load(Ordering::SeqCst)
            })
    }
}

impl Gate for ListeningGate {
    fn before(&self, worker: u32, call: u64) {
        self.note(match self.workers.get(worker as usize) {
            Some(calls) => calls.begins(call),
            None => false,
        });
    }

    fn after(&self, worker: u32, call: u64) {
        self.note(match self.workers.get(worker as usize) {
            Some(calls) => calls.ends(call),
            None => false,
        });
    }
}

/// `["told", nodes, destination, links, workers, budget]`: whether the gate was called for each worker in order, before
/// and after each call; for one worker also how many calls there were.
pub fn gate_in_order<R: Threads + Wait + Sync + Alloc<A = Global>>(
    rt: &R,
    text: &mut Answer,
    asked: &[Value],
) -> Result<(), Fault> {
    let [nodes, dest, links, workers, budget] = asked else {
        return Err(Fault::NoCase);
    };
    let (dest, plan) = (small_number(dest)?, named_plan(workers, budget)?);
    let net = network(rt.alloc(), nodes, links)?;
    let gate = ListeningGate::new(rt.alloc(), plan.workers())?;
    let _settled = settle(rt, rt.alloc(), net, dest, &plan, &gate)?;
    put_told(text, &plan, &gate);
    Ok(())
}

/// Appends what the listening gate found. The number of calls by several workers depends on the order of their steps,
/// so it is left out.
fn put_told(text: &mut Answer, plan: &Plan, gate: &ListeningGate) {
    text.put("in order ", &gate.was_in_order());
    if plan.workers() == 1 {
        text.put(", calls ", &gate.calls());
    }
}

/// Two workers settle the square with this gate.
fn settled_square<R: Threads + Wait + Sync + Alloc<A = Global>>(
    rt: &R,
    gate: &HoldingGate,
) -> Result<Settled, Fault> {
    let plan = plan(2, 1000)?;
    let net = Net::new(rt.alloc(), 4, &SQUARE)?;
    Ok(settle(rt, rt.alloc(), net, 0, &plan, gate)?)
}

/// `["held", worker]`: one of two workers is held until the first call of the other is answered. Whether the gate was
/// passed, and the counts of the square.
pub fn one_held<R: Threads + Wait + Sync + Alloc<A = Global>>(
    rt: &R,
    text: &mut Answer,
    asked: &[Value],
) -> Result<(), Fault> {
    let [held] = asked else {
        return Err(Fault::NoCase);
    };
    let gate = HoldingGate::new(Held::One(small_number(held)?), 1);
    let it = settled_square(rt, &gate)?;
    text.put("counts ", &it.counts);
    text.put(", passed ", &gate.was_passed());
    Ok(())
}

/// Settles the chain of 1,024 nodes, and appends who made how many turns, and whether the counts are right.
fn settle_long_chain<R: Threads + Wait + Sync + Alloc<A = Global>, G: Gate + Sync>(
    rt: &R,
    text: &mut Answer,
    plan: &Plan,
    gate: &G,
) -> Result<(), Fault> {
    let alloc = rt.alloc();
    let crew = Crew {
        rt,
        alloc,
        plan,
        gate,
    };
    let wanted = chain_counts(alloc, 1024, 0)?;
    settle_from_zero(&crew, text, long_chain(alloc, 1024, 0)?, &wanted)
}

/// `["chain held", worker, calls]`: the long chain by two workers, where one is held until so many calls of the other
/// are answered. Who made how many turns, and whether the gate was passed.
pub fn chain_held<R: Threads + Wait + Sync + Alloc<A = Global>>(
    rt: &R,
    text: &mut Answer,
    asked: &[Value],
) -> Result<(), Fault> {
    let [held, calls] = asked else {
        return Err(Fault::NoCase);
    };
    let plan = plan(2, 1_000_000)?;
    let gate = HoldingGate::new(Held::One(small_number(held)?), number(calls)?);
    settle_long_chain(rt, text, &plan, &gate)?;
    text.put(", passed ", &gate.was_passed());
    Ok(())
}

/// `["in turn", workers, calls]`: the wave through 1,024 nodes, where the workers take turns for so many calls each.
/// Who made how many turns, and whether no worker had to wait for one that made fewer calls.
pub fn in_turn<R: Threads + Wait + Sync + Alloc<A = Global>>(
    rt: &R,
    text: &mut Answer,
    asked: &[Value],
) -> Result<(), Fault> {
    let [workers, calls] = asked else {
        return Err(Fault::NoCase);
    };
    let plan = plan(small_number(workers)?, 1_000_000)?;
    let gate = TakingTurnsGate::new(plan.workers(), number(calls)?);
    let alloc = rt.alloc();
    let crew = Crew {
        rt,
        alloc,
        plan: &plan,
        gate: &gate,
    };
    settle_from_zero(&crew, text, wave(alloc, 1024)?, &wave_counts(alloc, 1024)?)?;
    text.put(", in turn ", &gate.was_kept());
    Ok(())
}

/// The long chain, where the odd ones of eight workers are held until ten calls of the others are answered. Who made
/// how many turns, and whether the gate was passed.
pub fn odd_held<R: Threads + Wait + Sync + Alloc<A = Global>>(
    rt: &R,
    text: &mut Answer,
) -> Result<(), Fault> {
    let plan = plan(8, 1_000_000)?;
    let gate = HoldingGate::new(Held::Odd, 10);
    settle_long_chain(rt, text, &plan, &gate)?;
    text.put(", passed ", &gate.was_passed());
    Ok(())
}

/// The long chain, where one of eight workers is slow.
pub fn slow<R: Threads + Wait + Sync + Alloc<A = Global>>(
    rt: &R,
    text: &mut Answer,
) -> Result<(), Fault> {
    let plan = plan(8, 1_000_000)?;
    let gate = SlowGate(AtomicU64::new(0));
    settle_long_chain(rt, text, &plan, &gate)
}

/// The chain of three nodes by two workers: the node that worker 1 finds held is made a candidate again, and turned,
/// before worker 1 goes on. Who made how many turns.
pub fn tried_again<R: Threads + Wait + Sync + Alloc<A = Global>>(
    rt: &R,
    text: &mut Answer,
) -> Result<(), Fault> {
    let plan = plan(2, 1000)?;
    let gate = CrossingGate {
        answered: AtomicU64::new(0),
        came: AtomicU64::new(0),
    };
    let net = long_chain(rt.alloc(), 3, 0)?;
    let it = settle(rt, rt.alloc(), net, 0, &plan, &gate)?;
    put_turns(text, &it);
    text.put(", counts ", &it.counts);
    Ok(())
}
