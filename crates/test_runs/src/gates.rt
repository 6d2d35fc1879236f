//! A run whose network is settled by threads, under a gate that holds one of them.

use crate::outcomes::tell_outcome;
use crate::runs::run_by;
use crate::telling::tell;
use fr_crew::{Gate, Plan};
use std::sync::Wait;
use std::sync::atomic::{AtomicBool, AtomicU64, Ordering};
use std::thread::Threads;

/// The longest that the gate holds a worker, in turns of a loop.
const LIMIT: u64 = 1_000_000_000;

/// A gate that holds the first call of one worker until the first call of another is answered, and counts the calls.
#[derive(Drop)]
struct HoldingGate {
    held: u32,
    until: u32,
    answered: AtomicBool,
    reached: AtomicBool,
    before: AtomicU64,
    after: AtomicU64,
}

impl HoldingGate {
    fn new(held: u32, until: u32) -> HoldingGate {
        HoldingGate {
            held,
            until,
            answered: AtomicBool::new(false),
            reached: AtomicBool::new(false),
            before: AtomicU64::new(0),
            after: AtomicU64::new(0),
        }
    }

    /// Whether the limit was not reached, and at least four calls passed.
    fn is_passed(&self) -> bool {
        !self.reached.load(Ordering::SeqCst)
            && self.before.load(Ordering::SeqCst) >= 4
            && self.after.load(Ordering::SeqCst) >= 4
    }
}

impl Gate for HoldingGate {
    fn before(&self, worker: u32, call: u64) {
        self.before.fetch_add(1, Ordering::SeqCst);
        if worker != self.held || call != 1 {
            return;
        }
        for _ in 0..LIMIT {
            if self.answered.load(Ordering::SeqCst) {
                return;
            }
        }
        self.reached.store(true, Ordering::SeqCst);
    }

    fn after(&self, worker: u32, call: u64) {
        self.after.fetch_add(1, Ordering::SeqCst);
        if worker == self.until && call == 1 {
            self.answered.store(true, Ordering::SeqCst);
        }
    }
}

/// Prints what a run by two workers writes if the first call of one is held until the first call of the other is
/// answered, and whether that happened.
pub fn tell_held<R: Threads + Wait + Sync + AllocGlobal + Print>(
    rt: &R,
    input: &str,
    held: u32,
    until: u32,
) {
    let plan = Plan::new(2, 0, 1000).unwrap();
    let gate = HoldingGate::new(held, until);
    let outcome = run_by(rt, &mut input.as_bytes(), &plan, &gate);
    tell_outcome(rt, &outcome);
    tell(
        rt,
        if gate.is_passed() {
            "passed"
        } else {
            "not passed"
        },
    );
}
