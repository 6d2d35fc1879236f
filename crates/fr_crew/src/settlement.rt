//! Settling a network.

ghost use Rattle.std.specs.Prelude.{◌≡◌, ◌≢◌, ℕ, ◌*◌, ◌<◌, ◌≤◌, ◌^◌, ◌↔◌, ◌⊎◌, IfOk, IfErr};
ghost use Rattle.std.specs.Prelude.{IfSome, IsTrue, OnOk, length, replicate, sum, sum_by};
ghost use Rattle.std.specs.List.{AllByRecursion as Each};
ghost use Rattle.fr_graph.specs.Counts.{AreLawful};
ghost use Rattle.fr_core.specs.Finish.{HoldsAllThatCanTurn, IsFinish};
ghost use Rattle.fr_core.specs.Settled.{AreSettled};
ghost use Rattle.fr_crew.specs.Settlements.{AreByWorkers, AreNumbered, CanBegin, IsCounted, IsCrewWork, IsSettlement};
ghost use Rattle.fr_crew.specs.declared.fault.CrewFault.TheVariants.{Range, Start, Memory};

use crate::fault::CrewFault;
use crate::gate::Gate;
use crate::plan::{Crew, Plan};
use crate::threads::run_crew;
use fr_core::{are_settled, finish_from, finish_if_few, finish_turns};
use fr_graph::{Net, Turns};
use fr_round::{Closed, Round};
use std::alloc::{AllocError, Global};
use std::marker::Brand;
use std::sync::Wait;
use std::thread::Threads;

/// A settled network: no node except the destination is a sink that can turn.
#[derive(Debug, Drop)]
pub struct Settled {
    /// The network with its settled links.
    pub net: Net,
    /// How often each node turned: the settled counts.
    pub counts: Vec<u64>,
    /// How many turns the workers made, which depends on the schedule.
    pub by_workers: u64,
    /// How many turns the finisher made.
    pub by_finisher: u64,
}

/// A settled network, with what the workers of its crew did. This depends on the schedule.
#[derive(Debug, Drop)]
pub struct CrewWork {
    /// The settled network.
    pub settled: Settled,
    /// How often each node had turned when the workers ended: where the finisher began.
    pub left: Vec<u64>,
    /// The number of each worker, and how often its own calls turned a node. The workers are in no order.
    pub turned: Vec<(u32, u64)>,
}

/// Turns a network until no node can turn, by full reversal (E. Gafni and D. Bertsekas, 1981). The workers of the plan
/// turn nodes, each in a thread of its own, except the last one, which uses the calling thread.
/// [`finish_turns`](fr_core::finish_turns) then turns what they leave. The result does not depend on the plan, the gate
/// and the schedule, except for who made how many turns.
///
/// Each worker has candidates in a deque, from which others steal, and in a queue of its own. At first they are all nodes
/// with a link except the destination, each in the deque of the worker whose number is the node's modulo the number of
/// workers. A worker takes a candidate of its queue, or else of its deque, or else steals one, and tries to turn it. If
/// it does, all neighbours except the destination become its candidates; if another worker was faster, the node itself
/// does. They go into the queue, unless they are in it. When another worker has no candidate, the worker moves half of
/// its queue to its deque. If the gate may wait for another worker, all candidates go into the deque, unless they are in
/// any, so that others can steal them during its calls. The only worker of a crew has all its candidates in the queue. A
/// worker that finds no candidate looks again while others work. It ends when its budget is spent, or when each of the
/// others is without a candidate too or has spent its budget.
///
/// No thread is started for a crew of one, if no node can turn, or if no worker may make a call. There is no lock, and
/// the crew waits only for its threads to end.
///
/// Fails with `Range` if the destination is not a node, which is tested first; with `Memory` if an allocation is
/// refused; and with `Start` if a thread could not be started, which never happens if none has to be. All memory except
/// that for growing deques is allocated before the first thread is started. After that, the only fault is `Start`,
/// because a candidate for which a deque has no room is left to the finisher. If the call fails, the network is
/// dropped. It waits for its threads, which end once the calls of the gate return.
///
/// If no node can turn or no worker may make a call, the cost is that of [`settle_alone`]. Otherwise it is O(m + k n +
/// T d (d + k)) steps of k workers for T turns, besides looks of workers without a candidate.
pub fn settle<R: Threads + Wait + Sync, G: Gate + Sync>(
    rt: &R,
    alloc: Global,
    net: Net,
    dest: u32,
    plan: &Plan,
    gate: &G,
) -> Result<Settled, CrewFault>
    // The settled counts, their links, and the number of turns, which is within the bound of `work_law`. They do not
    // depend on workers, seed, budget and gate.
    ensures settled { IfOk result (λ settled. IsSettlement net.nodes dest net.links settled) }
    // Exactly if the destination is not a node.
    ensures range { IfErr result (λ fault. (fault ≡ Range) ↔ (net.nodes ≤ dest)) }
    // Workers make no more turns than their budgets allow together.
    ensures budget { IfOk result (λ settled. settled.by_workers ≤ plan.now.workers * plan.now.budget) }
    ensures no_start { (plan.now.budget ≡ 0) ⊎ (plan.now.workers ≡ 1) → IfErr result (λ fault. fault ≢ Start) }
    ensures still { AreSettled net.nodes dest net.links (replicate net.nodes 0)
        → IfErr result (λ fault. fault ≢ Start) }
{
    if plan.budget() == 0 {
        return settle_alone(alloc, net, dest);
    }
    let turns = empty_turns(alloc, &net, dest)?;
    if are_settled(&net, dest, turns.counts()) {
        return Ok(finish_and_turn_links(net, dest, turns, 0));
    }
    let crew = Crew {
        rt,
        alloc,
        plan,
        gate,
    };
    let CrewWork { settled, .. } = settle_by_crew(&crew, net, dest, turns)?;
    Ok(settled)
}

/// Settles a network as [`settle`] does, and also returns what the workers did: how often each node had turned when
/// they ended, and how often the calls of each worker turned a node. The calls of the workers form one run of full
/// reversal by one thread, from the first links to those counts. No worker makes more calls than its budget, and each
/// call is within the gate. The finisher goes on from the counts at which the workers ended.
///
/// If no worker makes a call, all counts in `left` are 0, and each worker has the turns 0 in `turned`.
///
/// Its faults and its costs are those of `settle`. Only where no worker makes a call does it allocate more: `left`
/// and `turned`, which takes `O(n + k)` steps for k workers.
pub fn settle_telling<R: Threads + Wait + Sync, G: Gate + Sync>(
    crew: &Crew<'_, R, G>,
    net: Net,
    dest: u32,
) -> Result<CrewWork, CrewFault>
    ensures settled { IfOk result (λ work. IsSettlement net.nodes dest net.links work.settled) }
    // The finisher begins with the counts `left`, and the workers' turns lead to these counts. Each worker's pair has
    // its own turns. No worker makes more calls than its budget, and each of its calls has passed the gate.
    ensures told { IfOk result (IsCrewWork net.nodes dest net.links crew.now.plan.now (G.passed crew.now.gate.now)) }
    ensures range { IfErr result (λ fault. (fault ≡ Range) ↔ (net.nodes ≤ dest)) }
    // Without a budget the finisher makes all turns.
    ensures by_finisher { crew.now.plan.now.budget ≡ 0 → IfOk result (λ work. work.settled.by_workers ≡ 0) }
    ensures no_start { (crew.now.plan.now.budget ≡ 0) ⊎ (crew.now.plan.now.workers ≡ 1)
        → IfErr result (λ fault. fault ≢ Start) }
    ensures still { AreSettled net.nodes dest net.links (replicate net.nodes 0)
        → IfErr result (λ fault. fault ≢ Start) }
{
    let turns = empty_turns(crew.alloc, &net, dest)?;
    if crew.plan.budget() == 0 || are_settled(&net, dest, turns.counts()) {
        return settle_without_workers(crew, net, dest, turns);
    }
    settle_by_crew(crew, net, dest, turns)
}

/// Settles a network on the calling thread, by [`finish_turns`](fr_core::finish_turns). The result is that of
/// [`settle`], with all turns made by the finisher. It starts no thread and does not wait.
///
/// Fails with `Range` if the destination is not a node, which is tested first, and with `Memory` if an allocation is
/// refused; never with `Start`. If it fails, the network is dropped. O(n + m), and the cost of [`Net::turn`].
pub fn settle_alone(alloc: Global, net: Net, dest: u32) -> Result<Settled, CrewFault>
    ensures settled { IfOk result (λ settled. IsSettlement net.nodes dest net.links settled) }
    ensures range { IfErr result (λ fault. (fault ≡ Range) ↔ (net.nodes ≤ dest)) }
    ensures by_finisher { IfOk result (λ settled. settled.by_workers ≡ 0) }
    ensures no_start { IfErr result (λ fault. fault ≢ Start) }
{
    let turns = empty_turns(alloc, &net, dest)?;
    Ok(finish_and_turn_links(net, dest, turns, 0))
}

/// The settled counts of a network, which does not change. If a node can turn, the crew turns a copy of the network,
/// and [`finish_turns`](fr_core::finish_turns) what it leaves. The counts are those of [`settle`], whatever the plan,
/// the gate and the schedule. They are written to `turns`, a table in which no node has turned yet, so a caller that
/// settles networks again and again can use one table for all rounds.
///
/// `from` is for a caller that knows where sinks can be, for example after an edit of a settled network. It must
/// contain only nodes, and each sink except the destination; a node may occur twice. If a few turns settle the network,
/// or none, the calling thread makes them by [`finish_if_few`](fr_core::finish_if_few). This costs a look at each of these
/// nodes and the turns, and no thread is started. Otherwise these nodes are the workers' first candidates instead of
/// all nodes, each dealt to the worker whose number is its place in `from` modulo the number of workers. Each worker
/// then makes at most as many calls as there are nodes, because more calls would take longer than a search.
///
/// Fails with `Range` if the destination is not a node, which is tested first. With the budget 0, or if no node can
/// turn, this is the only fault. Otherwise it fails with `Memory` if an allocation is refused, and with `Start` as
/// `settle` does. With the budget 0, or if a few turns settle the network, the cost is that of
/// [`settled_counts_alone`]; otherwise that of a copy of the network and of [`settle`].
pub fn settled_counts<R: Threads + Wait + Sync, G: Gate + Sync>(
    crew: &Crew<'_, R, G>,
    net: &Net,
    dest: u32,
    from: Option<&[u32]>,
    mut turns: Turns,
) -> Result<Turns, CrewFault>
    // If the caller names nodes, they include each sink except the destination.
    requires { CanBegin net.now dest from turns }
    // The settled counts, within the bound of `work_law`.
    ensures settled { IfOk result (IsCounted net.now.nodes dest net.now.links) }
    ensures range { IfErr result (λ fault. (fault ≡ Range) ↔ (net.now.nodes ≤ dest)) }
    // Without a budget the only fault is `Range`.
    ensures alone { crew.now.plan.now.budget ≡ 0 → IfErr result (λ fault. fault ≡ Range) }
    ensures no_start { (crew.now.plan.now.budget ≡ 0) ⊎ (crew.now.plan.now.workers ≡ 1)
        → IfErr result (λ fault. fault ≢ Start) }
    // If no node can turn, the only fault is `Range`.
    ensures still { AreSettled net.now.nodes dest net.now.links (replicate net.now.nodes 0)
        → IfErr result (λ fault. fault ≡ Range) }
{
    if crew.plan.budget() == 0 {
        return settled_counts_alone(net, dest, from, turns);
    }
    test_destination(net, dest)?;
    // By this law, a settled count is at most the number of nodes.
    net.network_law();
    if settle_if_few(net, dest, from, &mut turns) {
        return Ok(turns);
    }
    let counts = crew_counts(crew, net, dest, from)?;
    turns.copy_from(&counts);
    Ok(finish_counts(net, dest, turns, None))
}

/// Finds the settled counts of a network on the calling thread, by [`finish_turns`](fr_core::finish_turns), or by
/// [`finish_from`](fr_core::finish_from) if `from` is given. The counts are those of [`settled_counts`], and are
/// written to `turns` in the same way; `from` must satisfy the same conditions. It starts no thread, does not wait, and
/// does not allocate.
///
/// Fails only with `Range`, if the destination is not a node. O(n + m), and with `from` the cost of `finish_from`.
pub fn settled_counts_alone(
    net: &Net,
    dest: u32,
    from: Option<&[u32]>,
    turns: Turns,
) -> Result<Turns, CrewFault>
    requires { CanBegin net.now dest from turns }
    ensures settled { IfOk result (IsCounted net.now.nodes dest net.now.links) }
    ensures range { IfErr result (λ fault. (fault ≡ Range) × (net.now.nodes ≤ dest)) }
{
    test_destination(net, dest)?;
    Ok(finish_counts(net, dest, turns, from))
}

/// Tests that the destination is a node. Fails with `Range` if it is not.
fn test_destination(net: &Net, dest: u32) -> Result<(), CrewFault>
    ensures node { OnOk result (dest < net.now.nodes) }
    ensures range { IfErr result (λ fault. (fault ≡ Range) × (net.now.nodes ≤ dest)) }
{
    if dest >= net.nodes() {
        return Err(CrewFault::Range);
    }
    Ok(())
}

/// The table with which every settlement begins: no node has turned. Fails with `Range` if the destination is not a
/// node, which is tested first, and with `Memory` if an allocation is refused.
fn empty_turns(alloc: Global, net: &Net, dest: u32) -> Result<Turns, CrewFault>
    ensures none { IfOk result (λ turns. (dest < net.now.nodes) × (turns ≡ replicate net.now.nodes 0)) }
    ensures range { IfErr result (λ fault. (fault ≡ Range) ↔ (net.now.nodes ≤ dest)) }
    ensures no_start { IfErr result (λ fault. fault ≢ Start) }
{
    test_destination(net, dest)?;
    Ok(Turns::none(alloc, net.nodes())?)
}

/// Turns nodes if a few turns settle the network: none at all, or few from the nodes of `from`, if these are given.
/// Returns whether the network is settled.
fn settle_if_few(net: &Net, dest: u32, from: Option<&[u32]>, turns: &mut Turns) -> bool
    requires node { dest < net.now.nodes }
    requires begin { CanBegin net.now dest from turns.old }
    ensures one_each { length turns.new ≡ net.now.nodes }
    ensures settled { IsTrue result ↔ AreSettled net.now.nodes dest net.now.links turns.new }
    ensures still { AreSettled net.now.nodes dest net.now.links (replicate net.now.nodes 0) → IsTrue result }
{
    net.network_law();
    match from {
        Some(from) => finish_if_few(net, dest, turns, from),
        None => are_settled(net, dest, turns.counts()),
    }
}

/// Settles a network on the calling thread. None of the workers makes a call. No node has turned yet.
fn settle_without_workers<R, G: Gate>(
    crew: &Crew<'_, R, G>,
    net: Net,
    dest: u32,
    turns: Turns,
) -> Result<CrewWork, CrewFault>
    requires node { dest < net.nodes }
    requires none { turns ≡ replicate net.nodes 0 }
    ensures settled { IfOk result (λ work. IsSettlement net.nodes dest net.links work.settled) }
    ensures told { IfOk result
        (IsCrewWork net.nodes dest net.links crew.now.plan.now (G.passed crew.now.gate.now)) }
    ensures by_finisher { IfOk result (λ work. work.settled.by_workers ≡ 0) }
    ensures fault { IfErr result (λ fault. fault ≢ Range) }
    ensures no_start { IfErr result (λ fault. fault ≢ Start) }
{
    net.network_law();
    let left = vec![in crew.alloc; 0u64; net.nodes() as usize]?;
    let turned = no_worker_turns(crew.alloc, crew.plan.workers())?;
    let settled = finish_and_turn_links(net, dest, turns, 0);
    Ok(CrewWork {
        settled,
        left,
        turned,
    })
}

/// The pairs of so many workers that turned no node.
fn no_worker_turns(alloc: Global, workers: u32) -> Result<Vec<(u32, u64)>, AllocError>
    ensures numbered { IfOk result (λ turned. AreNumbered workers turned.items) }
    ensures none { IfOk result (λ turned. Each (λ (p : ℕ × ℕ). p.1 ≡ 0) turned.items) }
{
    let mut turned = Vec::with_capacity(alloc, workers as usize)?;
    for number in 0..workers {
        turned.push_reserved((number, 0));
    }
    Ok(turned)
}

/// Settles a network by a crew, and what that leaves on the calling thread. The table has a count for each node.
fn settle_by_crew<R: Threads + Wait, G: Gate + Sync>(
    crew: &Crew<'_, R, G>,
    net: Net,
    dest: u32,
    mut turns: Turns,
) -> Result<CrewWork, CrewFault>
    requires node { dest < net.nodes }
    requires one_each { length turns ≡ net.nodes }
    ensures settled { IfOk result (λ work. IsSettlement net.nodes dest net.links work.settled) }
    ensures told { IfOk result
        (IsCrewWork net.nodes dest net.links crew.now.plan.now (G.passed crew.now.gate.now)) }
    ensures budget { IfOk result (λ work.
        work.settled.by_workers ≤ crew.now.plan.now.workers * crew.now.plan.now.budget) }
    ensures fault { IfErr result (λ fault. fault ≢ Range) }
    ensures no_start { crew.now.plan.now.workers ≡ 1 → IfErr result (λ fault. fault ≢ Start) }
{
    let Closed {
        net,
        counts,
        turned,
    } = run_crew_round(crew, net, dest, None)?;
    net.network_law();
    let by_workers = sum_of_turns(&turned);
    turns.copy_from(&counts);
    let settled = finish_and_turn_links(net, dest, turns, by_workers);
    Ok(CrewWork {
        settled,
        left: counts,
        turned,
    })
}

/// The counts that a crew leaves on a copy of a network. If it is known which nodes can turn, each worker makes at most
/// as many calls as there are nodes: more would take longer than a search.
fn crew_counts<R: Threads + Wait, G: Gate + Sync>(
    crew: &Crew<'_, R, G>,
    net: &Net,
    dest: u32,
    from: Option<&[u32]>,
) -> Result<Vec<u64>, CrewFault>
    requires { dest < net.now.nodes }
    ensures lawful { IfOk result (λ counts. AreLawful net.now.nodes dest net.now.links counts.items) }
    ensures fault { IfErr result (λ fault. fault ≢ Range) }
    ensures no_start { crew.now.plan.now.workers ≡ 1 → IfErr result (λ fault. fault ≢ Start) }
{
    let plan = match from {
        Some(_) => crew.plan.with_at_most(u64::from(net.nodes())),
        None => *crew.plan,
    };
    let crew = Crew {
        rt: crew.rt,
        alloc: crew.alloc,
        plan: &plan,
        gate: crew.gate,
    };
    let copy = net.copied(crew.alloc)?;
    let closed = run_crew_round(&crew, copy, dest, from)?;
    Ok(closed.counts)
}

/// Opens a round, lets a crew turn its nodes, and closes it. Its workers first try the nodes of `from`, or all nodes if
/// there is no `from`. The network is returned with its first links.
fn run_crew_round<R: Threads + Wait, G: Gate + Sync>(
    crew: &Crew<'_, R, G>,
    net: Net,
    dest: u32,
    from: Option<&[u32]>,
) -> Result<Closed, CrewFault>
    requires { dest < net.nodes }
    ensures net { IfOk result (λ closed. closed.net ≡ net) }
    ensures turned { IfOk result (λ closed. AreByWorkers net.nodes dest net.links crew.now.plan.now
        (G.passed crew.now.gate.now) closed.counts.items closed.turned.items) }
    ensures fault { IfErr result (λ fault. fault ≢ Range) }
    ensures no_start { crew.now.plan.now.workers ≡ 1 → IfErr result (λ fault. fault ≢ Start) }
{
    let Ok((round, workers)) = Round::open(crew.alloc, net, dest, crew.plan.workers()) else {
        return Err(CrewFault::Memory);
    };
    let (round, workers) = run_crew::<Brand, R, G>(crew, round, workers, from)?;
    Ok(round.close(workers))
}

/// How many turns the workers made together. The list has a number and a count for each worker.
fn sum_of_turns(turned: &[(u32, u64)]) -> u64
    requires { sum_by (λ (p : ℕ × ℕ). p.1) turned.now < 2 ^ 64 }
    ensures { result ≡ sum_by (λ (p : ℕ × ℕ). p.1) turned.now }
{
    turned.iter().map(|(_, turns)| turns).sum()
}

/// Finishes on one thread what is left to turn of a network, and turns its links. It does not allocate.
fn finish_and_turn_links(mut net: Net, dest: u32, mut turns: Turns, by_workers: u64) -> Settled
    requires node { dest < net.nodes }
    requires lawful { AreLawful net.nodes dest net.links turns }
    requires turned { by_workers ≡ sum turns }
    ensures settled { IsSettlement net.nodes dest net.links result }
    ensures finisher { IsFinish net.nodes dest net.links turns result.counts.items result.by_finisher }
    ensures by_workers { result.by_workers ≡ by_workers }
{
    net.network_law();
    let by_finisher = finish_turns(&net, dest, &mut turns);
    net.turn(&turns);
    Settled {
        net,
        counts: turns.into_counts(),
        by_workers,
        by_finisher,
    }
}

/// Finishes on one thread what is left to turn, beginning with the nodes of `from`, if these are given. It does not
/// change the links, and does not allocate.
fn finish_counts(net: &Net, dest: u32, mut turns: Turns, from: Option<&[u32]>) -> Turns
    requires node { dest < net.now.nodes }
    requires lawful { AreLawful net.now.nodes dest net.now.links turns }
    requires from { IfSome from (λ from. HoldsAllThatCanTurn net.now.nodes dest net.now.links turns from.now) }
    ensures { IsCounted net.now.nodes dest net.now.links result }
{
    net.network_law();
    match from {
        Some(from) => finish_from(net, dest, &mut turns, from),
        None => {
            let _turns = finish_turns(net, dest, &mut turns);
        }
    }
    turns
}
