//! Threads that turn the nodes of an open round, and walk in it.

ghost use Rattle.std.specs.Prelude.{◌≡◌, IfOk};
ghost use Rattle.fr_round.specs.Knowledge.{IsOwn};

use crate::answers::Answer;
use crate::fault::Fault;
use crate::live_walks::put_walk;
use crate::rounds::{closed_by_both, opened_by_three, opened_by_two, put_closed};
use fr_core::Reply;
use fr_crew::LiveEnd::Here;
use fr_crew::{LiveWalk, live_walk};
use fr_net::Net;
use fr_round::{Closed, Round, Worker};
use std::alloc::Global;
use std::thread::{Threads, join};

/// The chain whose links all point away from the destination, node 0.
const CHAIN: [(u32, u32); 4] = [(0, 1), (1, 2), (2, 3), (3, 4)];

/// Calls on the node until a call turns it, and returns its count.
fn turn_until(round: &Round, mut worker: Worker, x: u32) -> (Worker, u64)
    requires { IsOwn round.now worker }
    ensures { IsOwn round.now result.0 }
{
    for _ in 0..1_000_000_000u64 {
        if let Ok(Reply::Turned { count }) = round.try_turn(&mut worker, x) {
            return (worker, count);
        }
    }
    (worker, 0)
}

fn two_threads<R: Threads + Sync>(
    rt: &R,
    round: &Round,
    a: Worker,
    b: Worker,
) -> ((Worker, u64), (Worker, u64))
    requires { IsOwn round.now a × IsOwn round.now b }
    ensures { IsOwn round.now result.0.0 × IsOwn round.now result.1.0 }
{
    join(
        rt,
        move || -> (Worker, u64)
            requires { IsOwn round.now a }
            ensures { IsOwn round.entry.now result.0 }
        { turn_until(round, a, 1) },
        move || -> (Worker, u64)
            requires { IsOwn round.now b }
            ensures { IsOwn round.entry.now result.0 }
        { turn_until(round, b, 2) },
    )
}

/// Two threads on the first three nodes of the chain, each with a node that it turns once it can: the counts that they
/// return, and the result of closing the round.
pub fn two_turn<R: Threads + Sync + Alloc<A = Global>>(
    rt: &R,
    text: &mut Answer,
) -> Result<(), Fault> {
    let net = Net::new(rt.alloc(), 3, &CHAIN[..2])?;
    let (round, a, b) = opened_by_two(rt.alloc(), net)?;
    let ((a, first), (b, second)) = two_threads(rt, &round, a, b);
    let closed = closed_by_both(rt.alloc(), round, a, b)?;
    text.put("turned ", &(first, second));
    text.say(", ");
    put_closed(text, &closed);
    Ok(())
}

/// Turns nodes of the chain until none can turn, whatever others do.
fn turn_all(round: &Round, mut worker: Worker) -> Worker
    requires { IsOwn round.now worker }
    ensures { IsOwn round.now result }
{
    for _pass in 0..1_000u32 {
        for x in [4, 3, 2, 1] {
            let _ = round.try_turn(&mut worker, x);
        }
    }
    worker
}

/// Whether each of these nodes of the chain is a neighbour of the next one.
fn are_neighbours(nodes: &[u32]) -> bool {
    for pair in nodes.windows(2) {
        if pair[0].abs_diff(pair[1]) != 1 {
            return false;
        }
    }
    true
}

/// Whether a walk from node 4 of the chain goes from neighbour to neighbour and ends as it claims.
fn is_along_the_chain(walk: &LiveWalk, limit: usize) -> bool {
    let nodes = walk.nodes.as_slice();
    nodes.first() == Some(&4)
        && nodes.len() <= limit.saturating_add(1)
        && (nodes.last() == Some(&0)) == (walk.end == Here)
        && are_neighbours(nodes)
}

/// Whether a walk of the worker from node 4 is one along the chain.
fn walks_right(alloc: Global, round: &Round, worker: &mut Worker) -> bool
    requires { IsOwn round.now worker.old }
    ensures { IsOwn round.now worker.new }
{
    match live_walk(alloc, round, worker, 4, 50) {
        Ok(walk) => is_along_the_chain(&walk, 50),
        Err(_) => false,
    }
}

/// Walks again and again from node 4, and returns whether each walk is one along the chain.
fn walk_often(alloc: Global, round: &Round, mut worker: Worker) -> (Worker, bool)
    requires { IsOwn round.now worker }
    ensures { IsOwn round.now result.0 }
{
    let mut right = true;
    for _walk in 0..200u32 {
        right = walks_right(alloc, round, &mut worker) && right;
    }
    (worker, right)
}

fn turn_on_two_threads<R: Threads + Sync>(
    rt: &R,
    round: &Round,
    a: Worker,
    b: Worker,
) -> (Worker, Worker)
    requires { IsOwn round.now a × IsOwn round.now b }
    ensures { IsOwn round.now result.0 × IsOwn round.now result.1 }
{
    join(
        rt,
        move || -> Worker
            requires { IsOwn round.now a }
            ensures { IsOwn round.entry.now result }
        { turn_all(round, a) },
        move || -> Worker
            requires { IsOwn round.now b }
            ensures { IsOwn round.entry.now result }
        { turn_all(round, b) },
    )
}

fn walk_beside<R: Threads + Sync>(
    rt: &R,
    alloc: Global,
    round: &Round,
    turning: (Worker, Worker),
    walking: Worker,
) -> ((Worker, Worker), (Worker, bool))
    requires { IsOwn round.now turning.0 × IsOwn round.now turning.1 × IsOwn round.now walking }
    ensures { IsOwn round.now result.0.0 × IsOwn round.now result.0.1 × IsOwn round.now result.1.0 }
{
    join(
        rt,
        move || -> (Worker, Worker)
            requires { IsOwn round.now turning.0 × IsOwn round.now turning.1 }
            ensures { IsOwn round.entry.now result.0 × IsOwn round.entry.now result.1 }
        { turn_on_two_threads(rt, round, turning.0, turning.1) },
        move || -> (Worker, bool)
            requires { IsOwn round.now walking }
            ensures { IsOwn round.entry.now result.0 }
        { walk_often(alloc, round, walking) },
    )
}

/// The turns of all workers.
fn all_turns(turned: &[(u32, u64)]) -> u64 {
    let mut sum = 0u64;
    for (_, turns) in turned {
        sum = sum.saturating_add(*turns);
    }
    sum
}

/// Closes the round with all three workers.
fn closed_by_three(
    alloc: Global,
    round: Round,
    turning: (Worker, Worker),
    walking: Worker,
) -> Result<Closed, Fault>
    requires { IsOwn round turning.0 × IsOwn round turning.1 × IsOwn round walking × (round.setup.workers ≡ 3) }
{
    let workers = vec![in alloc; turning.0, turning.1, walking]?;
    Ok(round.close(workers))
}

/// Walks while two threads turn the chain: whether all walks were right, the last walk, the turns of the two threads
/// and of all, and the counts at the end.
pub fn walk_beside_two<R: Threads + Sync + Alloc<A = Global>>(
    rt: &R,
    text: &mut Answer,
) -> Result<(), Fault> {
    let alloc = rt.alloc();
    let (round, turning, walking) = opened_by_three(alloc, Net::new(alloc, 5, &CHAIN)?)?;
    let (turning, (mut walking, right)) = walk_beside(rt, alloc, &round, turning, walking);
    text.put("right ", &right);
    text.say(", ");
    put_walk(text, &live_walk(alloc, &round, &mut walking, 4, 4));
    let turned = turning.0.turned().saturating_add(turning.1.turned());
    text.put(", turned ", &turned);
    put_three(text, &closed_by_three(alloc, round, turning, walking)?);
    Ok(())
}

/// Appends all turns and the counts with which the round was closed.
fn put_three(text: &mut Answer, closed: &Closed) {
    text.put(" of ", &all_turns(&closed.turned));
    text.put(", counts ", &closed.counts);
}
