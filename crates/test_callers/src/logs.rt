//! Threads whose logs are one run.

ghost use Rattle.std.specs.Prelude.{IfOk};
ghost use Rattle.fr_core.specs.Targets.{lists_of};
ghost use Rattle.fr_logs.specs.Runs.{AreOneRun};

use fr_core::Target;
use fr_logs::{Logged, RunFault, run_logged};
use fr_net::Net;
use std::alloc::Global;
use std::thread::Threads;

/// Lets a thread follow each plan. The logs are one run to the counts at the end.
pub fn one_run<R: Threads + Sync>(
    rt: &R,
    alloc: Global,
    net: Net,
    dest: u32,
    plans: &[Vec<Target>],
) -> Result<Logged, RunFault>
    ensures { IfOk result
        (λ l. AreOneRun net.nodes dest net.links l.closed.counts.items (lists_of l.logs.items)) }
{
    let logged = run_logged(rt, alloc, net, dest, plans)?;
    Ok(logged)
}
