//! How many workers of a crew rest, because they found no candidate.

use std::hint::spin_loop;
use std::sync::atomic::{AtomicU64, Ordering};
use std::thread::yield_now;

/// How often a worker that rests asks whether all do, before it lets other threads run. The crew ends when all workers
/// rest at the same time, so a worker rests longer than it looks.
const ASKS: u32 = 16;

/// How many workers of a crew rest. A worker rests before it begins, between two looks for a candidate, and once it has
/// ended. No proof depends on this number.
#[derive(Drop)]
pub(crate) struct Resting {
    workers: u64,
    count: AtomicU64,
}

impl Resting {
    /// All of so many workers rest.
    pub fn all_of(workers: usize) -> Resting {
        Resting {
            workers: workers as u64,
            count: AtomicU64::new(workers as u64),
        }
    }

    /// A worker that rests begins to work.
    pub fn begin(&self) {
        self.count.fetch_sub(1, Ordering::SeqCst);
    }

    /// A worker that works rests from now on.
    pub fn end(&self) {
        self.count.fetch_add(1, Ordering::SeqCst);
    }

    /// Whether a worker rests.
    #[inline(always)]
    pub fn is_any(&self) -> bool {
        self.count.load(Ordering::SeqCst) > 0
    }

    /// A worker that found no candidate rests, while other threads run. Returns whether all workers rested at one moment.
    /// Those that can still make calls had no candidate then. So what is left is for the finisher.
    pub fn rest(&self) -> bool {
        self.end();
        let is_over = self.all_rest_soon();
        if !is_over {
            yield_now();
        }
        self.begin();
        is_over
    }

    /// Whether all workers rest at the same time while it asks.
    fn all_rest_soon(&self) -> bool {
        for _ in 0..ASKS {
            if self.count.load(Ordering::SeqCst) == self.workers {
                return true;
            }
            spin_loop();
        }
        false
    }
}
