//! How a round is closed with the logs of its workers.

ghost use Rattle.std.specs.Prelude.{◌≡◌, ◌+◌, ◌≤◌, IfOk, IfErr, [], length, map, vec_len, vec_capacity};
ghost use Rattle.std.specs.List.{AllByRecursion as Each};
ghost use Rattle.fr_core.specs.Targets.{lists_of};
ghost use Rattle.fr_logs.specs.Logged.{IsLogged, IsOwnRecorder, workers_of};
ghost use Rattle.fr_logs.specs.Recording.{log_of};

use crate::faults::CloseFault;
use crate::recorder::Recorder;
use fr_core::Entry;
use fr_round::{Closed, Round, Worker};
use std::alloc::{AllocError, Global};

/// A round that is over, with the logs of its workers.
#[derive(Debug, Drop)]
pub struct Logged {
    /// The network, the counts at the end, and the number and turns of each worker that was handed back.
    pub closed: Closed,
    /// The log of each of these workers, in the same order.
    pub logs: Vec<Vec<Entry>>,
}

/// Workers, and the log of each.
#[derive(Drop)]
struct Parts {
    workers: Vec<Worker>,
    logs: Vec<Vec<Entry>>,
}

/// Room for so many workers and logs.
fn make_room(alloc: Global, count: usize) -> Result<Parts, AllocError>
    ensures workers { IfOk result (λ parts. (parts.workers.items ≡ []) × (count ≤ vec_capacity parts.workers)) }
    ensures logs { IfOk result (λ parts. (parts.logs.items ≡ []) × (count ≤ vec_capacity parts.logs)) }
{
    Ok(Parts {
        workers: Vec::with_capacity(alloc, count)?,
        logs: Vec::with_capacity(alloc, count)?,
    })
}

/// Takes recorders apart, in order.
fn split_recorders(recorders: Vec<Recorder>, mut parts: Parts) -> Parts
    requires workers { (parts.workers.items ≡ []) × (length recorders.items ≤ vec_capacity parts.workers) }
    requires logs { (parts.logs.items ≡ []) × (length recorders.items ≤ vec_capacity parts.logs) }
    ensures workers { result.workers.items ≡ workers_of recorders.items }
    ensures logs { lists_of result.logs.items ≡ map log_of recorders.items }
{
    for recorder in recorders {
        let (worker, log) = recorder.into_parts();
        parts.workers.push_reserved(worker);
        parts.logs.push_reserved(log);
    }
    parts
}

/// Ends the round as [`Round::close`] does, and returns the logs beside what that returns. There is one run of full
/// reversal by one thread, which leads to the counts at the end, and each log is exactly its worker's part of that run.
///
/// The recorders have to be of this round, and no more than it was opened with; some may be missing. If an allocation
/// is refused, nothing has changed, and the fault hands the round and the recorders back. `O(n + k)`.
pub fn close_logged(
    alloc: Global,
    round: Round,
    recorders: Vec<Recorder>,
) -> Result<Logged, CloseFault>
    requires own { Each (IsOwnRecorder round) recorders.items }
    requires few { length recorders.items ≤ round.setup.workers }
    ensures net { IfOk result (λ logged. (logged.closed.net.nodes ≡ round.setup.nodes)
        × (logged.closed.net.links ≡ round.setup.links)) }
    // One run explains the round, and each log is exactly its worker's part.
    ensures logged { IfOk result (IsLogged round (workers_of recorders.items)) }
    // A fault returns the round and the recorders.
    ensures handed_back { IfErr result (λ fault. (fault.round ≡ round) × (fault.recorders ≡ recorders)) }
{
    match make_room(alloc, recorders.len()) {
        Ok(room) => {
            let Parts { workers, logs } = split_recorders(recorders, room);
            Ok(Logged {
                closed: round.close(workers),
                logs,
            })
        }
        Err(_) => Err(CloseFault { round, recorders }),
    }
}
