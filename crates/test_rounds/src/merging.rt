//! Logs merged into one list by the counts that their entries name.

use fr_core::{Entry, Reply};
use fr_net::{First, Net};
use std::alloc::{AllocError, Global};

/// An entry of a log, with the counts of its node and of the neighbour that held it, as the worker had seen them after
/// the call.
#[derive(Clone, Copy)]
pub struct Seen {
    pub entry: Entry,
    pub own: u64,
    pub other: u64,
}

/// The node and the neighbours at which it is a sink: they have these counts then.
fn at_sink(alloc: Global, net: &Net, x: u32, count: u64) -> Result<Vec<(u32, u64)>, AllocError> {
    let mut places = Vec::new(alloc);
    places.push((x, count))?;
    if x >= net.nodes() {
        return Ok(places);
    }
    for (w, first) in net.row(x) {
        let there = match first {
            First::Outward => count.saturating_add(1),
            First::Inward => count,
        };
        places.push((u32::from(*w), there))?;
    }
    Ok(places)
}

/// The nodes and counts at which an entry can stand: while each of these nodes has turned so often.
fn places(alloc: Global, net: &Net, seen: &Seen) -> Result<Vec<(u32, u64)>, AllocError> {
    let x = seen.entry.node;
    match seen.entry.reply {
        Reply::Turned { count } => at_sink(alloc, net, x, count.saturating_sub(1)),
        Reply::Sink => at_sink(alloc, net, x, seen.own),
        Reply::Held { by } => Ok(vec![in alloc; (x, seen.own), (by, seen.other)]?),
        Reply::Moved { count, .. } => Ok(vec![in alloc; (x, count)]?),
        Reply::Cut => Ok(vec![in alloc; (x, u64::from(net.nodes()))]?),
    }
}

/// How far the logs are merged.
#[derive(Drop)]
struct Merge<'n> {
    alloc: Global,
    net: &'n Net,
    /// How often each node has turned so far.
    counts: Vec<u64>,
    /// For each node and count how many of the entries that are left stand there.
    left: Vec<Vec<u64>>,
}

/// One more, or one less.
fn change(left: &mut [Vec<u64>], place: (u32, u64), up: bool) {
    let (x, count) = place;
    let Some(row) = left.get_mut(x as usize) else {
        return;
    };
    let Some(number) = row.get_mut(count as usize) else {
        return;
    };
    *number = if up {
        number.saturating_add(1)
    } else {
        number.saturating_sub(1)
    };
}

impl<'n> Merge<'n> {
    fn new(alloc: Global, net: &'n Net, logs: &[Vec<Seen>]) -> Result<Merge<'n>, AllocError> {
        let nodes = net.nodes() as usize;
        let mut left = Vec::new(alloc);
        for _node in 0..nodes {
            left.push(vec![in alloc; 0u64; nodes.saturating_add(2)]?)?;
        }
        for log in logs {
            for seen in log {
                for place in places(alloc, net, seen)? {
                    change(&mut left, place, true);
                }
            }
        }
        Ok(Merge {
            alloc,
            net,
            counts: vec![in alloc; 0u64; nodes]?,
            left,
        })
    }

    fn is_at(&self, place: (u32, u64)) -> bool {
        self.counts.get(place.0 as usize) == Some(&place.1)
    }

    /// Whether no other entry stands at this place.
    fn is_last_at(&self, place: (u32, u64)) -> bool {
        match self.left.get(place.0 as usize) {
            Some(row) => row.get(place.1 as usize) == Some(&1),
            None => false,
        }
    }

    /// Whether an entry can stand next: the nodes have these counts, and a turn takes no count away at which another
    /// entry stands.
    fn can_stand(&self, seen: &Seen) -> Result<bool, AllocError> {
        for place in places(self.alloc, self.net, seen)? {
            if !self.is_at(place) {
                return Ok(false);
            }
        }
        Ok(match seen.entry.reply {
            Reply::Turned { count } => self.is_last_at((seen.entry.node, count.saturating_sub(1))),
            _ => true,
        })
    }

    fn turn(&mut self, x: u32, count: u64) {
        if let Some(now) = self.counts.get_mut(x as usize) {
            *now = count;
        }
    }

    /// Takes an entry.
    fn take(&mut self, seen: &Seen) -> Result<(), AllocError> {
        for place in places(self.alloc, self.net, seen)? {
            change(&mut self.left, place, false);
        }
        if let Reply::Turned { count } = seen.entry.reply {
            self.turn(seen.entry.node, count);
        }
        Ok(())
    }

    /// The log whose next entry comes next: one that can stand, the one of this place if that can, or else any that is
    /// left.
    fn next_log(&self, rests: &[&[Seen]], from: usize) -> Result<Option<usize>, AllocError> {
        let mut any = None;
        for at in (from..rests.len()).chain(0..from) {
            let Some(seen) = rests.get(at).and_then(|rest| rest.first()) else {
                continue;
            };
            if self.can_stand(seen)? {
                return Ok(Some(at));
            }
            any = Some(at);
        }
        Ok(any)
    }
}

/// The entries of all logs in one list, in which each log keeps its order. No worker's number and no time decides
/// where an entry comes, but the counts that it names alone. Where these fit no place, the list is no run.
pub fn merge_logs(alloc: Global, net: &Net, logs: &[Vec<Seen>]) -> Result<Vec<Entry>, AllocError> {
    let mut merge = Merge::new(alloc, net, logs)?;
    let mut merged = Vec::new(alloc);
    let mut rests: Vec<&[Seen]> = Vec::new(alloc);
    for log in logs {
        rests.push(log.as_slice())?;
    }
    let mut last = 0;
    for _entry in 0..u32::MAX {
        let Some(at) = merge.next_log(&rests, last)? else {
            break;
        };
        last = at;
        let Some(rest) = rests.get_mut(at) else {
            break;
        };
        let Some((seen, others)) = rest.split_first() else {
            break;
        };
        merge.take(seen)?;
        merged.push(seen.entry)?;
        *rest = others;
    }
    Ok(merged)
}
