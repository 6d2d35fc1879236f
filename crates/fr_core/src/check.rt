//! The checker of histories. It tests whether full reversal on one thread can give each entry after those before it.

ghost use Rattle.std.specs.Prelude.{◌≡◌, ◌≢◌, ℕ, ◌<◌, ◌↔◌, IsTrue, All, length};
ghost use Rattle.std.specs.Prelude.{slice_index, IfOk, IfErr, IfSome, IfNone};
ghost use Rattle.fr_graph.specs.Counts.{AreLawful, IsKept, links_at};
ghost use Rattle.fr_graph.specs.Links.{Points};
ghost use Rattle.fr_graph.specs.Turn.{IsSink};
ghost use Rattle.fr_core.specs.Checks.{Fails, FailsReply, IsCheckFault};
ghost use Rattle.fr_core.specs.Runs.{IsRunTo};
ghost use Rattle.fr_core.specs.History.{moment_of};
ghost use Rattle.fr_core.specs.Legal.{IsLegal, IsLegalReply};
ghost use Rattle.fr_core.specs.declared.check.fault.CheckFault.TheVariants.{Memory};
ghost use Rattle.fr_core.specs.declared.check.fault.Why.TheVariants.{NotSink, NotHeld, NotMoved, NotCut};
ghost use Rattle.fr_core.specs.declared.entry.Reply.TheVariants.{Turned};

mod fault;

use crate::counts::{is_sink, sense};
use crate::directions::Sense;
use crate::entry::{Entry, Reply};
pub use fault::{CheckFault, Why};
use fr_graph::Net;
use std::alloc::Global;

/// Whether a link points from node `x` to `w` now. The answer is `false` if `w` is not a neighbour of `x`, or not a
/// node.
fn points_to(net: &Net, counts: &[u64], x: u32, w: u32) -> bool
    requires one_each { length counts.now ≡ net.now.nodes }
    requires node { x < net.now.nodes }
    ensures { IsTrue result ↔ Points (links_at net.now.links counts.now) x w }
{
    // By this law, the row has each link of `x`.
    net.network_law();
    let row = net.row(x);
    for (neighbour, first) in row {
        if *neighbour as u32 == w {
            return match sense(*first, counts[x as usize], counts[w as usize]) {
                Some(Sense::Outward) => true,
                Some(Sense::Inward) => false,
                None => false,
            };
        }
    }
    false
}

/// The first test that a turn of node `x` to this count fails.
fn turn_fault(net: &Net, dest: u32, counts: &[u64], x: u32, count: u64) -> Option<Why>
    requires lawful { AreLawful net.now.nodes dest net.now.links counts.now }
    requires node { x < net.now.nodes }
    ensures none { IfNone result (IsLegalReply net.now.nodes dest (moment_of net.now.links counts.now) x
        (Turned count)) }
    ensures some { IfSome result (FailsReply net.now.nodes dest (moment_of net.now.links counts.now) x
        (Turned count)) }
{
    let had = counts[x as usize];
    if x == dest {
        Some(Why::Destination)
    } else if had >= net.nodes() as u64 {
        Some(Why::Capped)
    } else if !is_sink(net, counts, x) {
        Some(Why::NotSink)
    } else if count != had + 1 {
        Some(Why::WrongCount)
    } else {
        None
    }
}

/// Tests that `by` holds node `x`: a link points from `x` to it.
fn held_fault(net: &Net, counts: &[u64], x: u32, by: u32) -> Option<Why>
    requires one_each { length counts.now ≡ net.now.nodes }
    requires node { x < net.now.nodes }
    ensures none { IfNone result (Points (links_at net.now.links counts.now) x by) }
    ensures some { IfSome result (λ why. (why ≡ NotHeld) × ¬ Points (links_at net.now.links counts.now) x by) }
{
    if points_to(net, counts, x, by) {
        None
    } else {
        Some(Why::NotHeld)
    }
}

/// Tests that a count moved from `had` to `count`: the node has this count now, and it is greater than `had`.
fn new_count_fault(now: u64, had: u64, count: u64) -> Option<Why>
    ensures none { IfNone result ((count ≡ now) × (had < count)) }
    ensures some { IfSome result (λ why. (why ≡ NotMoved) × ¬ ((count ≡ now) × (had < count))) }
{
    if count == now && had < count {
        None
    } else {
        Some(Why::NotMoved)
    }
}

/// Tests that a node is cut: its count, `now`, is the number of nodes.
fn cut_off_fault(nodes: u32, now: u64) -> Option<Why>
    ensures none { IfNone result (now ≡ nodes) }
    ensures some { IfSome result (λ why. (why ≡ NotCut) × ¬ (now ≡ nodes)) }
{
    if now == nodes as u64 {
        None
    } else {
        Some(Why::NotCut)
    }
}

/// Tests that node `x` is a sink.
fn sink_fault(net: &Net, counts: &[u64], x: u32) -> Option<Why>
    requires one_each { length counts.now ≡ net.now.nodes }
    requires kept { All (IsKept counts.now) net.now.links }
    requires node { x < net.now.nodes }
    ensures none { IfNone result (IsSink (links_at net.now.links counts.now) x) }
    ensures some { IfSome result (λ why. (why ≡ NotSink) × ¬ IsSink (links_at net.now.links counts.now) x) }
{
    if is_sink(net, counts, x) {
        None
    } else {
        Some(Why::NotSink)
    }
}

/// The first test that the entry fails at these counts.
fn fault_of(net: &Net, dest: u32, counts: &[u64], entry: Entry) -> Option<Why>
    requires { AreLawful net.now.nodes dest net.now.links counts.now }
    ensures none { IfNone result (IsLegal net.now.nodes dest (moment_of net.now.links counts.now) entry) }
    ensures some { IfSome result (Fails net.now.nodes dest (moment_of net.now.links counts.now) entry) }
{
    let x = entry.node;
    let nodes = net.nodes();
    if x >= nodes {
        return Some(Why::NoNode);
    }
    let now = counts[x as usize];
    match entry.reply {
        Reply::Turned { count } => turn_fault(net, dest, counts, x, count),
        Reply::Held { by } => held_fault(net, counts, x, by),
        Reply::Moved { had, count } => new_count_fault(now, had, count),
        Reply::Cut => cut_off_fault(nodes, now),
        Reply::Sink => sink_fault(net, counts, x),
    }
}

/// Checks that a history is a run, and returns how often each node has turned at its end. It goes entry by entry,
/// from the counts 0. The answer depends only on the entries, not on how they were made.
///
/// Fails with `Range` if `dest` is not a node, which is tested first; with `BadAt` and the first entry that is not
/// legal after those before it, and the first test that it fails; and with `Memory` if there is no memory for the
/// counts.
///
/// The links are never turned, because the counts determine their directions. O(n), and O(d) for each entry.
pub fn check_run(
    alloc: Global,
    net: &Net,
    dest: u32,
    entries: &[Entry],
) -> Result<Vec<u64>, CheckFault>
    ensures destination { IfOk result (λ _. dest < net.now.nodes) }
    // Only if the history is a run, which leads to these counts.
    ensures run { IfOk result (λ counts. IsRunTo net.now.nodes dest net.now.links entries.now counts.items) }
    // A destination that is not a node, else the first illegal entry, with the first test that it fails.
    ensures refused { IfErr result (λ fault. fault ≢ Memory
        → IsCheckFault net.now.nodes dest net.now.links entries.now fault) }
{
    let nodes = net.nodes();
    if dest >= nodes {
        return Err(CheckFault::Range);
    }
    let mut counts = vec![in alloc; 0u64; nodes as usize]?;
    for (index, entry) in entries.iter().enumerate() {
        if let Some(why) = fault_of(net, dest, &counts, *entry) {
            return Err(CheckFault::BadAt { index, why });
        }
        if let Reply::Turned { .. } = entry.reply {
            counts[entry.node as usize] += 1;
        }
    }
    Ok(counts)
}
