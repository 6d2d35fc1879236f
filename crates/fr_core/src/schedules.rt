//! A machine under a schedule.

ghost use Rattle.std.specs.Prelude.{◌≡◌, ◌≢◌, ◌≤◌, ◌↔◌, IsTrue, Any, IfOk, IfErr};
ghost use Rattle.fr_core.specs.Played.{IsPlay};
ghost use Rattle.fr_core.specs.Targets.{IsPlayFault, lists_of};
ghost use Rattle.fr_core.specs.declared.play_fault.PlayFault.TheVariants.{Memory};

use crate::entry::Entry;
use crate::machine::Machine;
use crate::play_fault::PlayFault;
use crate::targets::Target;
use fr_graph::Net;
use std::alloc::Global;

/// Whether a number of the schedule is not a worker.
fn names_unknown_worker(schedule: &[u32], workers: usize) -> bool
    ensures { IsTrue result ↔ Any (λ k. workers ≤ k) schedule.now }
{
    schedule.iter().any(|worker| *worker as usize >= workers)
}

/// Plays a schedule: a machine with a worker for each list of targets makes one step for each number of the schedule.
/// Returns the entries that these steps decide, in order. Each reply is the one that full reversal on one thread gives
/// at that point, and each worker's part of the entries is its replies.
///
/// Fails with `Range` if `dest` is not a node or a number of the schedule is not a worker; with `BadTarget` and the
/// first target that is not a node, has no link, or is a turn of the destination; and with `Memory` if there is no
/// memory for the machine or the entries. The faults are tested in this order. O(n + k + s) for k targets and a
/// schedule of s steps.
pub fn play(
    alloc: Global,
    net: &Net,
    dest: u32,
    targets: Vec<Vec<Target>>,
    schedule: &[u32],
) -> Result<Vec<Entry>, PlayFault>
    // The calls of the workers form one list of legal replies, which leads to the counts of the machine. Each
    // worker's part of the list is its replies.
    ensures ok { IfOk result
        (λ entries. IsPlay net.now.nodes dest net.now.links (lists_of targets.items) schedule.now entries.items) }
    // As for `Machine::new`, and `Range` for a number that is not a worker.
    ensures refused { IfErr result
        (λ fault. fault ≢ Memory
        → IsPlayFault net.now.nodes dest net.now.links (lists_of targets.items) schedule.now fault) }
{
    if dest >= net.nodes() || names_unknown_worker(schedule, targets.len()) {
        return Err(PlayFault::Range);
    }
    let mut machine = Machine::new(alloc, net, dest, targets)?;
    Ok(machine.follow_schedule(alloc, schedule)?)
}
