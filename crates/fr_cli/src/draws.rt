//! The schedule of a play: `steps` steps of `workers` workers, drawn from a seed.

ghost use Rattle.std.specs.Prelude.{◌≡◌, ◌≤◌, ◌<◌, ◌⊎◌, ◌↔◌, IsNone, IfSome, IfOk};
ghost use Rattle.fr_core.specs.Limits.{most_workers};
ghost use Rattle.fr_cli.specs.Draws.{drawn, most_steps};

use fr_core::MAX_WORKERS;
use rand_core::SeedableRng;
use rand_core::utils::NextWord;
use rand_pcg::Lcg64Xsh32;
use std::alloc::{AllocError, Global};

/// The greatest number of steps of a play.
pub const MAX_STEPS: u32 = 10_000;

/// A draw determines the schedule of a play: so many steps of so many workers, from a seed. Code that makes a `Draw`
/// has to prove its three bounds. The prover does this by itself for constants; for other numbers, [`Draw::new`] tests
/// them.
#[derive(Clone, Copy, Debug, PartialEq, Eq)]
pub struct Draw {
    /// How many workers there are, 1 to [`MAX_WORKERS`].
    pub workers: u32,
    /// The seed of the schedule.
    pub seed: u64,
    /// How many steps they make, at most [`MAX_STEPS`].
    pub steps: u32,
    pub ghost some_workers: { 1 ≤ workers },
    pub ghost few_workers: { workers ≤ most_workers },
    pub ghost few_steps: { steps ≤ most_steps },
}

impl Draw {
    /// The draw with these numbers. `None` unless there are 1 to [`MAX_WORKERS`] workers and at most [`MAX_STEPS`]
    /// steps. O(1).
    pub fn new(workers: u32, seed: u64, steps: u32) -> Option<Draw>
        ensures none { IsNone result ↔ ((workers ≡ 0) ⊎ (most_workers < workers) ⊎ (most_steps < steps)) }
        ensures some { IfSome result (λ draw. (draw.workers ≡ workers) × (draw.seed ≡ seed) × (draw.steps ≡ steps)) }
    {
        if workers == 0 || workers > MAX_WORKERS || steps > MAX_STEPS {
            return None;
        }
        Some(Draw {
            workers,
            seed,
            steps,
        })
    }

    /// The schedule. For each step, it has the next word of the generator with this seed, modulo the number of workers.
    /// Fails with `AllocError` if an allocation is refused. O(s) for s steps.
    pub fn schedule(&self, alloc: Global) -> Result<Vec<u32>, AllocError>
        ensures { IfOk result (λ schedule. schedule.items ≡ drawn self.now.seed self.now.steps self.now.workers) }
    {
        let mut generator = Lcg64Xsh32::seed_from_u64(self.seed);
        let mut schedule = Vec::with_capacity(alloc, self.steps as usize)?;
        for _step in 0..self.steps {
            schedule.push(generator.next_word() % self.workers)?;
        }
        Ok(schedule)
    }
}
