//! Whether merged logs are a run, and whether what is wrong in a log is found.

use crate::answers::Answer;
use crate::fault::Fault;
use crate::merging::{Seen, merge_logs};
use fr_core::{Entry, Reply, check_run, finish};
use fr_net::Net;
use fr_round::Closed;
use std::alloc::{AllocError, Global};

/// A log with the counts that were noted of each entry.
pub fn log_with(alloc: Global, log: &[Entry], counts: &[(u64, u64)]) -> Result<Vec<Seen>, Fault> {
    if log.len() != counts.len() {
        return Err(Fault::Memory);
    }
    let mut all = Vec::new(alloc);
    for (entry, (own, other)) in log.iter().zip(counts.iter()) {
        all.push(Seen {
            entry: *entry,
            own: *own,
            other: *other,
        })?;
    }
    Ok(all)
}

/// Whether the merged logs are a run to these counts, and how many turns are left then.
fn checked(
    alloc: Global,
    net: &Net,
    logs: &[Vec<Seen>],
    counts: &[u64],
) -> Result<(bool, u64), AllocError> {
    net.network_law();
    let merged = merge_logs(alloc, net, logs)?;
    match check_run(alloc, net, 0, &merged) {
        Ok(mut found) => {
            let is_same = found.as_slice() == counts;
            Ok((is_same, finish(net, 0, &mut found)))
        }
        Err(_) => Ok((false, 0)),
    }
}

fn are_turns_of_one(a: &Entry, b: &Entry) -> bool {
    match (a.reply, b.reply) {
        (Reply::Turned { .. }, Reply::Turned { .. }) => a.node == b.node,
        _ => false,
    }
}

/// The places of two turns of one node in a log.
fn two_turns(log: &[Seen]) -> Option<(usize, usize)> {
    for (later, b) in log.iter().enumerate() {
        for (earlier, a) in log[..later].iter().enumerate() {
            if are_turns_of_one(&a.entry, &b.entry) {
                return Some((earlier, later));
            }
        }
    }
    None
}

/// Exchanges two turns of one node in the first log that has two, and answers whether one has.
fn exchange(logs: &mut [Vec<Seen>]) -> bool {
    for log in logs.iter_mut() {
        if let Some((a, b)) = two_turns(log)
            && a < log.len()
            && b < log.len()
        {
            log.swap(a, b);
            return true;
        }
    }
    false
}

/// Which entry is altered.
#[derive(Clone, Copy)]
pub enum Altered {
    /// A turn, which says one turn more.
    Turn,
    /// A node that is held, which is said to hold itself.
    Held,
}

/// What an entry of this kind says once it is altered.
fn reply_in_place(entry: Entry, kind: Altered) -> Option<Reply> {
    match (kind, entry.reply) {
        (Altered::Turn, Reply::Turned { count }) => Some(Reply::Turned {
            count: count.saturating_add(1),
        }),
        (Altered::Held, Reply::Held { .. }) => Some(Reply::Held { by: entry.node }),
        _ => None,
    }
}

/// Alters the first entry of a log that is of this kind, and answers whether there is one.
fn alter(log: &mut [Seen], kind: Altered) -> bool {
    for seen in log.iter_mut() {
        if let Some(reply) = reply_in_place(seen.entry, kind) {
            seen.entry.reply = reply;
            return true;
        }
    }
    false
}

/// Whether the checker finds two turns of one node that are exchanged in a log. The logs are as before then.
fn finds_exchanged(
    alloc: Global,
    net: &Net,
    logs: &mut [Vec<Seen>],
    counts: &[u64],
) -> Result<bool, AllocError> {
    if !exchange(logs) {
        return Ok(false);
    }
    let (is_run, _left) = checked(alloc, net, logs, counts)?;
    exchange(logs);
    Ok(!is_run)
}

/// Whether the checker finds an entry of this kind that is altered, in the first log that has one. The logs are as
/// before then.
fn finds_altered(
    alloc: Global,
    net: &Net,
    logs: &mut [Vec<Seen>],
    counts: &[u64],
    kind: Altered,
) -> Result<bool, AllocError> {
    for at in 0..logs.len() {
        let kept = logs[at].to_vec(alloc)?;
        let is_altered = alter(&mut logs[at], kind);
        if is_altered {
            let (is_run, _left) = checked(alloc, net, logs, counts)?;
            logs[at] = kept;
            return Ok(!is_run);
        }
    }
    Ok(false)
}

/// Puts whether the logs are a run to the counts at the end, how many turns are left there, and whether faults in them
/// are found: two turns of one node that are exchanged, and entries of these kinds that are altered.
pub fn put_checks(
    alloc: Global,
    text: &mut Answer,
    closed: &Closed,
    logs: &mut [Vec<Seen>],
    kinds: &[Altered],
) -> Result<(), Fault> {
    let (net, counts) = (&closed.net, closed.counts.as_slice());
    let (is_run, left) = checked(alloc, net, logs, counts)?;
    text.put("run ", &is_run);
    text.put(", left ", &left);
    text.put(", exchanged ", &finds_exchanged(alloc, net, logs, counts)?);
    for kind in kinds {
        text.put(
            ", altered ",
            &finds_altered(alloc, net, logs, counts, *kind)?,
        );
    }
    Ok(())
}
