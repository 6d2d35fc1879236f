//! A crew and its plan: how many workers there are, where they look first for work, and how many calls each may make.

ghost use Rattle.std.specs.Prelude.{◌≡◌, ◌≤◌, ◌<◌, ◌⊎◌, ◌↔◌, IsNone, IfSome};
ghost use Rattle.fr_core.specs.Limits.{most_workers};

use fr_core::MAX_WORKERS;
use std::alloc::Global;

/// How many workers turn a network, a seed for their draws, and how many calls each of them may make. The plan
/// determines who does the work, and does not affect links and counts. For these alone, a budget of 0 is fastest, or a
/// call without a plan, such as [`settle_alone`](crate::settle_alone): a few turns or one search settle the network,
/// and no thread is started.
#[derive(Clone, Copy, Debug, PartialEq, Eq)]
pub struct Plan {
    workers: u32,
    seed: u64,
    budget: u64,
    ghost in_range: { (1 ≤ workers) × (workers ≤ most_workers) },
}

impl Plan {
    /// The plan with these workers, each of which makes at most `budget` calls. `None` unless there are 1 to
    /// [`MAX_WORKERS`] workers. The seed determines where each worker looks first for work when it has none of its own;
    /// no link and no count depends on it. O(1).
    pub fn new(workers: u32, seed: u64, budget: u64) -> Option<Plan>
        // Exactly unless there are 1 to `MAX_WORKERS` workers.
        ensures none { IsNone result ↔ ((workers ≡ 0) ⊎ (most_workers < workers)) }
        ensures some { IfSome result (λ plan. (plan.workers ≡ workers) × (plan.seed ≡ seed) × (plan.budget ≡ budget)) }
    {
        if workers == 0 || workers > MAX_WORKERS {
            return None;
        }
        Some(Plan {
            workers,
            seed,
            budget,
        })
    }

    /// The plan with at most so many calls for each worker: the lesser of this number and the budget.
    pub(crate) fn with_at_most(&self, calls: u64) -> Plan
        ensures same { (result.workers ≡ self.now.workers) × (result.seed ≡ self.now.seed) }
        ensures fewer { (result.budget ≤ self.now.budget) × (result.budget ≤ calls) }
        ensures either { (result.budget ≡ self.now.budget) ⊎ (result.budget ≡ calls) }
    {
        Plan {
            workers: self.workers,
            seed: self.seed,
            budget: self.budget.min(calls),
        }
    }

    /// The number of workers, 1 to [`MAX_WORKERS`]. O(1).
    pub fn workers(&self) -> u32
        ensures { result ≡ self.now.workers }
    {
        self.workers
    }

    /// The seed. O(1).
    pub fn seed(&self) -> u64
        ensures { result ≡ self.now.seed }
    {
        self.seed
    }

    /// The greatest number of calls of each worker. O(1).
    pub fn budget(&self) -> u64
        ensures { result ≡ self.now.budget }
    {
        self.budget
    }
}

/// A crew: the runtime that starts its threads, the allocator of its rounds, its plan, and its gate.
#[derive(Drop)]
pub struct Crew<'a, R, G> {
    /// Starts threads and waits for them.
    pub rt: &'a R,
    /// The allocator of rounds.
    pub alloc: Global,
    /// How many workers there are, and how many calls each may make.
    pub plan: &'a Plan,
    /// The gate that is called before and after each call of a worker.
    pub gate: &'a G,
}
