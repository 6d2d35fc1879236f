//! The settled counts of networks that do not change.

ghost use Rattle.std.specs.Prelude.{◌≡◌, ◌<◌, ◌↔◌, IfOk, IfSome, IsTrue, replicate};
ghost use Rattle.fr_crew.specs.Settlements.{HoldsSinks};
ghost use Rattle.fr_graph.specs.Turn.{IsSink};

use crate::answers::Answer;
use crate::crews::{named_plan, plan};
use crate::fault::Fault;
use crate::values::{named, network, number, small_number, word};
use fr_core::is_sink;
use fr_crew::{Crew, Gate, OpenGate, Plan, settled_counts, settled_counts_alone};
use fr_net::{Net, Turns};
use serde_json::Value;
use std::alloc::Global;
use std::sync::Wait;
use std::sync::atomic::{AtomicU64, Ordering};
use std::thread::Threads;

/// A gate that counts the calls of all workers.
#[derive(Drop)]
struct CountingGate(AtomicU64);

impl Gate for CountingGate {
    fn before(&self, _worker: u32, _call: u64) {
        self.0.fetch_add(1, Ordering::SeqCst);
    }

    fn after(&self, _worker: u32, _call: u64) {}
}

/// A table in which no node has turned.
fn none_yet(alloc: Global, net: &Net) -> Result<Turns, Fault>
    ensures { IfOk result (λ turns. turns ≡ replicate net.now.nodes 0) }
{
    net.network_law();
    Ok(Turns::none(alloc, net.nodes())?)
}

/// Whether node `x` is a sink of a network in which no node has turned.
fn is_first_sink(net: &Net, none: &Turns, x: u32) -> bool
    requires none { none.now ≡ replicate net.now.nodes 0 }
    requires node { x < net.now.nodes }
    ensures { IsTrue result ↔ IsSink net.now.links x }
{
    is_sink(net, none.counts(), x)
}

/// The sinks of a network, in ascending order.
fn sinks(alloc: Global, net: &Net, dest: u32) -> Result<Vec<u32>, Fault>
    ensures { IfOk result (λ sinks. HoldsSinks net.now dest sinks.items) }
{
    net.network_law();
    let none = none_yet(alloc, net)?;
    let mut sinks = Vec::new(alloc);
    for x in 0..net.nodes() {
        if is_first_sink(net, &none, x) {
            sinks.push(x)?;
        }
    }
    Ok(sinks)
}

/// The sinks if the word of a case asks for them, or `None` if it asks for all nodes.
fn candidates(alloc: Global, net: &Net, dest: u32, word: &str) -> Result<Option<Vec<u32>>, Fault>
    ensures { IfOk result (λ listed. IfSome listed (λ sinks. HoldsSinks net.now dest sinks.items)) }
{
    if named(word, &[("sinks", true), ("all", false)])? {
        Ok(Some(sinks(alloc, net, dest)?))
    } else {
        Ok(None)
    }
}

/// The settled counts by a crew, beginning with the nodes of the word.
fn counted<R: Threads + Wait + Sync + Alloc<A = Global>, G: Gate + Sync>(
    rt: &R,
    net: &Net,
    dest: u32,
    word: &str,
    plan: &Plan,
    gate: &G,
) -> Result<Turns, Fault> {
    let from = candidates(rt.alloc(), net, dest, word)?;
    let none = none_yet(rt.alloc(), net)?;
    let crew = Crew {
        rt,
        alloc: rt.alloc(),
        plan,
        gate,
    };
    Ok(settled_counts(&crew, net, dest, from.as_deref(), none)?)
}

/// `["counts", nodes, destination, links, "sinks" or "all", workers, budget]`: the settled counts, beginning with the
/// sinks or with all nodes, and the links, which do not change.
pub fn counts<R: Threads + Wait + Sync + Alloc<A = Global>>(
    rt: &R,
    text: &mut Answer,
    asked: &[Value],
) -> Result<(), Fault> {
    let [nodes, dest, links, from, workers, budget] = asked else {
        return Err(Fault::NoCase);
    };
    let (dest, plan) = (small_number(dest)?, named_plan(workers, budget)?);
    let net = network(rt.alloc(), nodes, links)?;
    let turns = counted(rt, &net, dest, word(from)?, &plan, &OpenGate)?;
    put_counts(rt.alloc(), text, &turns, &net);
    Ok(())
}

/// `["counts alone", nodes, destination, links, "sinks" or "all"]`: the same on this thread.
pub fn counts_alone(alloc: Global, text: &mut Answer, asked: &[Value]) -> Result<(), Fault> {
    let [nodes, dest, links, from] = asked else {
        return Err(Fault::NoCase);
    };
    let dest = small_number(dest)?;
    let net = network(alloc, nodes, links)?;
    let turns = counted_alone(alloc, &net, dest, word(from)?)?;
    put_counts(alloc, text, &turns, &net);
    Ok(())
}

/// The settled counts by this thread, beginning with the nodes of the word.
fn counted_alone(alloc: Global, net: &Net, dest: u32, word: &str) -> Result<Turns, Fault> {
    let from = candidates(alloc, net, dest, word)?;
    let none = none_yet(alloc, net)?;
    Ok(settled_counts_alone(net, dest, from.as_deref(), none)?)
}

/// Whether the calls that leave a network as it is return these counts: by a crew and by this thread, beginning with the
/// sinks and with all nodes.
pub fn are_counted_alike<R: Threads + Wait + Sync + Alloc<A = Global>>(
    rt: &R,
    net: &Net,
    dest: u32,
    plan: &Plan,
    counts: &[u64],
) -> Result<bool, Fault> {
    let mut alike = true;
    for word in ["sinks", "all"] {
        let by_crew = counted(rt, net, dest, word, plan, &OpenGate)?;
        let alone = counted_alone(rt.alloc(), net, dest, word)?;
        alike = alike && by_crew.counts() == counts && alone.counts() == counts;
    }
    Ok(alike)
}

fn put_counts(alloc: Global, text: &mut Answer, turns: &Turns, net: &Net) {
    text.put("counts ", &turns.counts());
    text.say(", ");
    text.put_links(alloc, net);
}

/// `["calls of one", nodes, destination, links, "sinks" or "all", budget]`: how many calls one worker makes, and the
/// settled counts.
pub fn calls_of_one<R: Threads + Wait + Sync + Alloc<A = Global>>(
    rt: &R,
    text: &mut Answer,
    asked: &[Value],
) -> Result<(), Fault> {
    let [nodes, dest, links, from, budget] = asked else {
        return Err(Fault::NoCase);
    };
    let dest = small_number(dest)?;
    let plan = plan(1, number(budget)?)?;
    let net = network(rt.alloc(), nodes, links)?;
    let gate = CountingGate(AtomicU64::new(0));
    let turns = counted(rt, &net, dest, word(from)?, &plan, &gate)?;
    text.put("calls ", &gate.0.load(Ordering::SeqCst));
    text.put(", counts ", &turns.counts());
    Ok(())
}
