//! Networks that crews settle, and their plans.

use crate::answers::Answer;
use crate::counts::are_counted_alike;
use crate::fault::Fault;
use crate::values::{items, network, number, small_number};
use fr_crew::{Crew, CrewWork, Gate, OpenGate, Plan, Settled, settle, settle_telling};
use fr_net::Net;
use serde_json::Value;
use std::alloc::Global;
use std::sync::Wait;
use std::thread::Threads;

/// The plan of so many workers, with this budget.
pub fn plan(workers: u32, budget: u64) -> Result<Plan, Fault> {
    match Plan::new(workers, 0, budget) {
        Some(plan) => Ok(plan),
        None => Err(Fault::NoCase),
    }
}

/// The plan that a case gives.
pub fn named_plan(workers: &Value, budget: &Value) -> Result<Plan, Fault> {
    plan(small_number(workers)?, number(budget)?)
}

/// The plan of a list of workers, seed and budget, if there is such a plan.
fn listed_plan(listed: &[Value]) -> Result<Option<Plan>, Fault> {
    match listed {
        [workers, seed, budget] => Ok(Plan::new(
            small_number(workers)?,
            number(seed)?,
            number(budget)?,
        )),
        _ => Err(Fault::NoCase),
    }
}

/// `["plan", workers, seed, budget]`: the numbers of the plan, if there is one.
pub fn plan_of(text: &mut Answer, asked: &[Value]) -> Result<(), Fault> {
    match listed_plan(asked)? {
        Some(plan) => put_plan(text, &plan),
        None => text.say("no such plan"),
    }
    Ok(())
}

fn put_plan(text: &mut Answer, plan: &Plan) {
    text.put("workers ", &plan.workers());
    text.put(", seed ", &plan.seed());
    text.put(", budget ", &plan.budget());
}

/// `["same plans", plan, plan]`: whether two plans are equal.
pub fn same_plans(text: &mut Answer, asked: &[Value]) -> Result<(), Fault> {
    let [one, other] = asked else {
        return Err(Fault::NoCase);
    };
    let (one, other) = (listed_plan(items(one)?)?, listed_plan(items(other)?)?);
    text.put("", &(one == other));
    Ok(())
}

/// The result of the crew of a case: nodes, destination, links, workers and budget. Then whether the calls that leave
/// the network as it is return the same counts.
fn settled<R: Threads + Wait + Sync + Alloc<A = Global>>(
    rt: &R,
    asked: &[Value],
) -> Result<(Settled, bool), Fault> {
    let [nodes, dest, links, workers, budget] = asked else {
        return Err(Fault::NoCase);
    };
    let (dest, plan) = (small_number(dest)?, named_plan(workers, budget)?);
    let net = network(rt.alloc(), nodes, links)?;
    let first = net.copied(rt.alloc())?;
    let it = settle(rt, rt.alloc(), net, dest, &plan, &OpenGate)?;
    let alike = are_counted_alike(rt, &first, dest, &plan, &it.counts)?;
    Ok((it, alike))
}

/// `["settle", nodes, destination, links, workers, budget]`: who made how many turns, and the settled network.
pub fn settle_all<R: Threads + Wait + Sync + Alloc<A = Global>>(
    rt: &R,
    text: &mut Answer,
    asked: &[Value],
) -> Result<(), Fault> {
    let (it, alike) = settled(rt, asked)?;
    put_turns(text, &it);
    text.say(", ");
    put_end(rt.alloc(), text, &it);
    text.put(", counted alike ", &alike);
    Ok(())
}

/// `["end", nodes, destination, links, workers, budget]`: only the settled network, because the number of turns of each
/// worker depends on the order of the workers' steps.
pub fn settle_to_end<R: Threads + Wait + Sync + Alloc<A = Global>>(
    rt: &R,
    text: &mut Answer,
    asked: &[Value],
) -> Result<(), Fault> {
    let (it, alike) = settled(rt, asked)?;
    put_end(rt.alloc(), text, &it);
    text.put(", counted alike ", &alike);
    Ok(())
}

/// `["telling", nodes, destination, links, workers, budget]`: where the workers ended, the turns of each, those of the finisher, and the
/// settled network.
pub fn settle_and_tell<R: Threads + Wait + Sync + Alloc<A = Global>>(
    rt: &R,
    text: &mut Answer,
    asked: &[Value],
) -> Result<(), Fault> {
    let [nodes, dest, links, workers, budget] = asked else {
        return Err(Fault::NoCase);
    };
    let (dest, plan) = (small_number(dest)?, named_plan(workers, budget)?);
    let net = network(rt.alloc(), nodes, links)?;
    let crew = Crew {
        rt,
        alloc: rt.alloc(),
        plan: &plan,
        gate: &OpenGate,
    };
    let CrewWork {
        settled,
        left,
        turned,
    } = settle_telling(&crew, net, dest)?;
    text.put("left ", &left);
    text.put(", turned ", &turned);
    text.say(", ");
    put_turns(text, &settled);
    text.say(", ");
    put_end(rt.alloc(), text, &settled);
    Ok(())
}

/// Who made how many turns.
pub fn put_turns(text: &mut Answer, it: &Settled) {
    text.put("by workers ", &it.by_workers);
    text.put(", by the finisher ", &it.by_finisher);
}

fn put_end(alloc: Global, text: &mut Answer, it: &Settled) {
    text.put("counts ", &it.counts);
    text.say(", ");
    text.put_links(alloc, &it.net);
}

/// The nodes below `nodes`, where each node from `first` on has a link to the next.
pub fn long_chain(alloc: Global, nodes: u32, first: u32) -> Result<Net, Fault> {
    let mut links = Vec::new(alloc);
    for x in first..nodes.saturating_sub(1) {
        links.push((x, x + 1))?;
    }
    Ok(Net::new(alloc, nodes, &links)?)
}

/// A chain of so many nodes that is settled except for its first link, which points away from node 0. Each node turns
/// once, as soon as the one before it has turned.
pub fn wave(alloc: Global, nodes: u32) -> Result<Net, Fault> {
    let mut links = Vec::new(alloc);
    links.push((0, 1))?;
    for x in 1..nodes.saturating_sub(1) {
        links.push((x + 1, x))?;
    }
    Ok(Net::new(alloc, nodes, &links)?)
}

/// How often each node of the long chain turns if node 0 is the destination: as often as its number says, or as often
/// as there are nodes if node 0 is not connected to the chain.
pub fn chain_counts(alloc: Global, nodes: u32, first: u32) -> Result<Vec<u64>, Fault> {
    let mut counts = Vec::new(alloc);
    for x in 0..nodes {
        let count = if first == 0 { x } else { nodes };
        counts.push(if x < first { 0 } else { u64::from(count) })?;
    }
    Ok(counts)
}

/// How often each node of the wave turns.
pub fn wave_counts(alloc: Global, nodes: u32) -> Result<Vec<u64>, Fault> {
    let mut counts = Vec::new(alloc);
    for x in 0..nodes {
        counts.push(u64::from(x > 0))?;
    }
    Ok(counts)
}

/// `["long chain", nodes, first, workers, budget]`: who makes how many turns on a chain of the nodes from `first` on.
pub fn settle_chain<R: Threads + Wait + Sync + Alloc<A = Global>>(
    rt: &R,
    text: &mut Answer,
    asked: &[Value],
) -> Result<(), Fault> {
    let [nodes, first, workers, budget] = asked else {
        return Err(Fault::NoCase);
    };
    let (nodes, first) = (small_number(nodes)?, small_number(first)?);
    let plan = named_plan(workers, budget)?;
    let alloc = rt.alloc();
    let crew = Crew {
        rt,
        alloc,
        plan: &plan,
        gate: &OpenGate,
    };
    let wanted = chain_counts(alloc, nodes, first)?;
    settle_from_zero(&crew, text, long_chain(alloc, nodes, first)?, &wanted)?;
    let net = long_chain(alloc, nodes, first)?;
    let alike = are_counted_alike(rt, &net, 0, &plan, &wanted)?;
    text.put(", counted alike ", &alike);
    Ok(())
}

/// Settles a network with destination 0. Appends how many turns all workers made, how many the finisher made, the sum
/// of the counts, and whether they are the wanted ones.
pub fn settle_from_zero<R: Threads + Wait + Sync + Alloc<A = Global>, G: Gate + Sync>(
    crew: &Crew<'_, R, G>,
    text: &mut Answer,
    net: Net,
    wanted: &[u64],
) -> Result<(), Fault> {
    let it = settle(crew.rt, crew.alloc, net, 0, crew.plan, crew.gate)?;
    put_turns(text, &it);
    text.put(", turned ", &sum(&it.counts));
    text.put(", counts right ", &(it.counts.as_slice() == wanted));
    Ok(())
}

fn sum(counts: &[u64]) -> u64 {
    let mut sum = 0u64;
    for count in counts {
        sum = sum.saturating_add(*count);
    }
    sum
}
