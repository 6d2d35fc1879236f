//! Histories, and where they end.

ghost use Rattle.std.specs.Prelude.{IfOk};
ghost use Rattle.fr_core.specs.Runs.{IsRunTo};
ghost use Rattle.fr_core.specs.Settled.{AreSettled};

use fr_core::{CheckFault, Entry, check_run, finish};
use fr_net::Net;
use std::alloc::Global;

/// The counts at which a history ends if whoever wrote it goes on: the settled ones, if each of its entries is legal.
pub fn goes_on_to(
    alloc: Global,
    net: &Net,
    dest: u32,
    history: &[Entry],
) -> Result<Vec<u64>, CheckFault>
    ensures { IfOk result (λ counts. AreSettled net.now.nodes dest net.now.links counts.items) }
{
    // By the law there are few enough nodes.
    net.network_law();
    let mut counts = check_run(alloc, net, dest, history)?;
    let _made = finish(net, dest, &mut counts);
    Ok(counts)
}
