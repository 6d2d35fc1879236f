//! Plays of a text, in memory.

ghost use Rattle.std.specs.Prelude.{◌≡◌, IfOk, ℕ};
ghost use Rattle.fr_command.specs.Plays.{IsPlayOutput};

use fr_command::{Draw, RunFault, play_drawn};
use std::alloc::Global;

/// A hundred steps of two workers, drawn from a seed.
pub fn hundred_steps(seed: u64) -> Draw
    ensures { (result.workers ≡ 2) × (result.seed ≡ seed) × (result.steps ≡ 100) }
{
    Draw {
        workers: 2,
        seed,
        steps: 100,
    }
}

/// What the play of a text prints.
pub fn play_of(alloc: Global, text: &[u8], draw: Draw) -> Result<Vec<u8>, RunFault>
    ensures { IfOk result (λ out. (count : ℕ) × IsPlayOutput draw text.now out.items count) }
{
    let mut reader = text;
    let mut out = Vec::new(alloc);
    let _count = play_drawn(alloc, &mut reader, &mut out, draw)?;
    Ok(out)
}
