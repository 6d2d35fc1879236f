//! The cycle for which a change or a network is refused, found again. C calls it a closed walk: its first node comes
//! again at the end.

ghost use Rattle.std.specs.Prelude.{◌≡◌, ◌≢◌, ◌≤◌, ◌⊎◌, ◌↔◌, length, map, None};
ghost use Rattle.fr_graph.specs.Faults.{PassFirstTests};
ghost use Rattle.fr_graph.specs.Limits.{most_edits};
ghost use Rattle.fr_graph.specs.declared.fault.NetFault.TheVariants.{Memory};
ghost use Rattle.revroute_c.specs.ClosedWalks.{HasNoWalkOfChange, HasNoWalkOfNetwork, IsNoWalk};
ghost use Rattle.revroute_c.specs.ClosedWalks.{IsWalkOf, IsWalkOfChange, IsWalkOfNetwork};
ghost use Rattle.revroute_c.specs.Records.{AreKnown, link_of};
ghost use Rattle.revroute_c.specs.Replies.{outcome, GivesList};

use crate::link_faults::early_fault;
use crate::records::{Link, LinkEdit, first_unknown};
use crate::replies::hand_out;
use crate::rounds::{network_of, network_with_edits};
use crate::statuses::{ANSWERED, NO_MEMORY, NO_NETWORK, NO_WALK, TOO_SHORT};
use fr_graph::{EditFault, MAX_EDITS, NetFault};
use fr_route::Session;
use std::alloc::Global;

/// Writes the cycle for which these edits are refused, if there is one. `size` must be 0.
pub(crate) fn walk_of_change(
    session: &Session,
    alloc: Global,
    edits: &[LinkEdit],
    nodes: &mut [u32],
    size: &mut usize,
) -> u32
    requires { size.old ≡ 0 }
    ensures gives { GivesList (IsWalkOfChange session.now edits.now) (outcome result nodes.old nodes.new size.new) }
    ensures no_network { (result ≡ NO_NETWORK) ↔ (session.now ≡ None) }
    ensures no_walk { result ≡ NO_WALK → HasNoWalkOfChange session.now edits.now }
    ensures no_memory { result ≡ NO_MEMORY → AreKnown edits.now × (length edits.now ≤ most_edits) }
    ensures status { (result ≡ ANSWERED) ⊎ ((TOO_SHORT ≤ result) × (result ≤ NO_NETWORK)) ⊎ (result ≡ NO_WALK) }
{
    let Some(router) = session.router() else {
        return NO_NETWORK;
    };
    if edits.len() > MAX_EDITS || first_unknown(edits).is_some() {
        return NO_WALK;
    }
    match network_with_edits(router.net(), alloc, edits) {
        Ok(_edited) => NO_WALK,
        Err(EditFault { at: _, fault }) => hand_out_walk(&fault, nodes, size),
    }
}

/// Writes the cycle for which a network is refused, if there is one. `size` must be 0.
pub(crate) fn walk_of_network(
    alloc: Global,
    count: u32,
    links: &[Link],
    nodes: &mut [u32],
    size: &mut usize,
) -> u32
    requires { size.old ≡ 0 }
    ensures gives { GivesList (IsWalkOfNetwork count (map link_of links.now))
        (outcome result nodes.old nodes.new size.new) }
    ensures no_walk { result ≡ NO_WALK → HasNoWalkOfNetwork count (map link_of links.now) }
    ensures no_memory { result ≡ NO_MEMORY → PassFirstTests count (map link_of links.now) }
    ensures status { (result ≡ ANSWERED) ⊎ (result ≡ TOO_SHORT) ⊎ (result ≡ NO_MEMORY) ⊎ (result ≡ NO_WALK) }
{
    if let Some(fault) = early_fault(count, links) {
        return hand_out_walk(&fault, nodes, size);
    }
    match network_of(alloc, count, links) {
        Ok(_net) => NO_WALK,
        Err(fault) => hand_out_walk(&fault, nodes, size),
    }
}

/// Writes the cycle of a fault, if the fault is a cycle. `size` must be 0.
fn hand_out_walk(fault: &NetFault, nodes: &mut [u32], size: &mut usize) -> u32
    requires { size.old ≡ 0 }
    ensures gives { GivesList (IsWalkOf fault.now) (outcome result nodes.old nodes.new size.new) }
    ensures no_memory { result ≡ NO_MEMORY → fault.now ≡ Memory }
    ensures no_walk { result ≡ NO_WALK → IsNoWalk fault.now × (fault.now ≢ Memory) }
    ensures status { (result ≡ ANSWERED) ⊎ (result ≡ TOO_SHORT) ⊎ (result ≡ NO_MEMORY) ⊎ (result ≡ NO_WALK) }
{
    match fault {
        NetFault::Cycle(walk) => hand_out(walk, nodes, size),
        NetFault::Memory => NO_MEMORY,
        _ => NO_WALK,
    }
}
