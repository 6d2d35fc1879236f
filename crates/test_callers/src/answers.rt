//! Answers to a text, in memory.

ghost use Rattle.std.specs.Prelude.{IfOk};
ghost use Rattle.fr_command.specs.Outputs.{IsOutput};

use fr_command::{RunFault, run};
use fr_crew::{OpenGate, Plan};
use std::alloc::Global;
use std::sync::Wait;
use std::thread::Threads;

/// The answers to the lines of a text, by four workers.
pub fn answers_to<T: Threads + Wait + Sync>(
    rt: &T,
    alloc: Global,
    text: &[u8],
) -> Result<Vec<u8>, RunFault>
    ensures { IfOk result (λ out. IsOutput text.now out.items) }
{
    let plan = Plan::new(4, 0, 1_000_000).unwrap();
    let mut reader = text;
    let mut out = Vec::new(alloc);
    let _count = run(rt, alloc, &mut reader, &mut out, &plan, &OpenGate)?;
    Ok(out)
}
