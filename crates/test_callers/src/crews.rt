//! Networks settled by threads.

ghost use Rattle.std.specs.Prelude.{◌≡◌, ◌≤◌, ◌↔◌, IfOk, IfErr};
ghost use Rattle.fr_crew.specs.Settlements.{IsSettlement};
ghost use Rattle.fr_crew.specs.declared.fault.CrewFault.TheVariants.{Range};

use fr_crew::{CrewFault, OpenGate, Plan, Settled, settle};
use fr_net::Net;
use std::alloc::Global;
use std::sync::Wait;
use std::thread::Threads;

/// The settled network, turned by four workers.
pub fn by_four<R: Threads + Wait + Sync>(
    rt: &R,
    alloc: Global,
    net: Net,
    dest: u32,
) -> Result<Settled, CrewFault>
    ensures settled { IfOk result (λ settled. IsSettlement net.nodes dest net.links settled) }
    ensures range { IfErr result (λ fault. (fault ≡ Range) ↔ (net.nodes ≤ dest)) }
{
    let plan = Plan::new(4, 0, 1_000_000).unwrap();
    settle(rt, alloc, net, dest, &plan, &OpenGate)
}
