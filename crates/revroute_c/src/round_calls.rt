//! Calls that begin a round: a network, a change, another destination.

ghost use Rattle.std.specs.Prelude.{◌≡◌, ◌≤◌, ◌<◌, ◌⊎◌, ◌↔◌, None, length, map, IfSome};
ghost use Rattle.fr_graph.specs.Faults.{PassFirstTests};
ghost use Rattle.fr_graph.specs.Limits.{most_edits};
ghost use Rattle.fr_requests.specs.Requests.{make_edits, move_dest, new_network};
ghost use Rattle.fr_readers.specs.Published.{LeadsBetween};
ghost use Rattle.revroute_c.specs.Lending.{held_by};
ghost use Rattle.revroute_c.specs.Questions.{no_network};
ghost use Rattle.revroute_c.specs.Records.{AreKnown, edit_of, link_of};
ghost use Rattle.revroute_c.specs.Rounds.{round_outcome, BeginsRound, IsChangeRefused, IsMoveRefused, IsNewRefused};
ghost use Rattle.revroute_c.specs.Statuses.{REVROUTE_ANSWERED};
ghost use Rattle.revroute_c.specs.Statuses.{REVROUTE_NO_MEMORY, REVROUTE_NO_NETWORK};
ghost use Rattle.revroute_c.specs.Statuses.{REVROUTE_REFUSED};

use crate::handle::Handle;
use crate::link_faults::early_fault;
use crate::records::{Link, LinkEdit, Refusal, Round, first_unknown, unknown_at};
use crate::rounds::{
    NewEdits, NewNetwork, change_in, move_dest_in, open_in, open_in_new_session, refuse_links,
};
use crate::statuses::{ANSWERED, NO_MEMORY, NO_NETWORK, REFUSED};
use std::alloc::Global;

/// Replaces the network, as a line `["net",..]` does, and begins a round. The nodes are 0 to `nodes - 1`. Writes the
/// number of turns and the number of nodes that are cut off to `round`. Returns `ANSWERED`, or:
///
/// - `REFUSED`: there are too many nodes or links, the links have another fault, or the destination is not a node.
///   `refusal` gets the number that lines use for the reason, and the nodes of the first fault.
/// - `NO_MEMORY`: an allocation was refused. There are not too many nodes or links, each link joins two nodes, and no
///   link joins a node with itself, because this is tested first, without memory. All other tests need memory: for a
///   second link between two nodes, for a cycle, and then for the destination. So `NO_MEMORY` can hide these faults.
///
/// In these two cases the session, the handle's own bytes and `round` are unchanged. O(n + m), and the cost of
/// [`Router::open_alone`](fr_route::Router::open_alone).
#[unsafe(no_mangle)]
pub extern "C" fn revroute_open(
    alloc: Global,
    handle: &mut Handle,
    nodes: u32,
    dest: u32,
    links: &[Link],
    round: &mut Round,
    refusal: &mut Refusal,
) -> u32
    // State, rerouted nodes, report and pushes to readers are those of the request. `REFUSED` as the request, with
    // the exact nodes that a JSON answer names. After any status but `ANSWERED` everything is unchanged.
    ensures begins { BeginsRound (new_network nodes dest (map link_of links.now))
        (IsNewRefused nodes dest (map link_of links.now)) (held_by handle.old) (held_by handle.new)
        (round_outcome result round.old round.new refusal.old refusal.new) }
    // Never for too many nodes or links, a link to a number that is not a node, or a link from a node to itself. It
    // can hide other faults.
    ensures no_memory { result ≡ REVROUTE_NO_MEMORY → PassFirstTests nodes (map link_of links.now) }
    // They are kept as by `revroute_change`.
    ensures pushes { handle.new.pushes ≡ handle.old.pushes }
    ensures kept { ¬ (result ≡ REVROUTE_ANSWERED) → handle.new.at ≡ handle.old.at }
    ensures status { (result ≡ REVROUTE_ANSWERED) ⊎ (result ≡ REVROUTE_NO_MEMORY) ⊎ (result ≡ REVROUTE_REFUSED) }
{
    if let Some(fault) = early_fault(nodes, links) {
        return refuse_links(refusal, &fault);
    }
    let asked = NewNetwork { nodes, dest, links };
    match handle.pointer().value_mut() {
        Some(state) => open_in(state, alloc, &asked, round, refusal),
        None => open_in_new_session(handle, alloc, &asked, round, refusal),
    }
}

/// Makes edits in order, with one round after the last, as a line `["batch",..]` does. One edit has the same effect as
/// a line with that change. Returns `ANSWERED`, or:
///
/// - `REFUSED`: an edit has an unknown kind, which is tested first; or there are more than 1,024 edits; or one of them
///   cannot be made. `refusal` gets the number that lines use for the reason, the place of the edit and its nodes. If
///   there are too many edits, the place is the limit.
/// - `NO_NETWORK`: there is no network yet.
/// - `NO_MEMORY`: an allocation was refused. No edit has an unknown kind, and there are not too many.
///
/// In these cases the session, the handle's own bytes and `round` are unchanged. The cost is that of
/// [`Router::change_telling_alone`](fr_route::Router::change_telling_alone). If an edit is refused, finding the
/// evidence costs O(n + m) more.
#[unsafe(no_mangle)]
pub extern "C" fn revroute_change(
    alloc: Global,
    handle: &mut Handle,
    edits: &[LinkEdit],
    round: &mut Round,
    refusal: &mut Refusal,
) -> u32
    // As for `revroute_open`. `REFUSED` comes with the index of the first bad edit.
    ensures begins { BeginsRound (make_edits (map edit_of edits.now)) (IsChangeRefused handle.old.session edits.now)
        (held_by handle.old) (held_by handle.new) (round_outcome result round.old round.new refusal.old refusal.new) }
    // Only for edits of known kinds.
    ensures known { result ≡ REVROUTE_ANSWERED → AreKnown edits.now }
    // The pushes of an earlier `revroute_change_with_ways` are kept.
    ensures pushes { handle.new.pushes ≡ handle.old.pushes }
    // Never for too many edits.
    ensures no_memory { result ≡ REVROUTE_NO_MEMORY → length edits.now ≤ most_edits }
    // An edit of an unknown kind is always refused.
    ensures unknown { ¬ AreKnown edits.now → result ≡ REVROUTE_REFUSED }
    // Exactly without a network, if all kinds are known.
    ensures no_network { (result ≡ REVROUTE_NO_NETWORK) ↔ (AreKnown edits.now × (handle.old.session ≡ None)) }
    ensures kept { handle.new.at ≡ handle.old.at }
    ensures status { (result ≡ REVROUTE_ANSWERED) ⊎ (result ≡ REVROUTE_NO_MEMORY) ⊎ (result ≡ REVROUTE_NO_NETWORK)
        ⊎ (result ≡ REVROUTE_REFUSED) }
{
    if let Some(at) = first_unknown(edits) {
        *refusal = unknown_at(at);
        return REFUSED;
    }
    match handle.pointer().value_mut() {
        Some(state) => {
            let asked = NewEdits {
                edits,
                with_ways: false,
            };
            change_in(state, alloc, &asked, round, refusal)
        }
        None => NO_NETWORK,
    }
}

/// Makes edits as [`revroute_change`] does, and keeps what has to be pushed to routers that hold all their ways, for
/// [`revroute_change_shrink`] and [`revroute_change_grow`]. These are the pushes that [`revroute_shrink`] and
/// [`revroute_grow`] write for a table with the ways before the change, but only the nodes are looked at whose ways may
/// have changed. If the change is not made, the pushes are unchanged too.
///
/// The results are those of [`revroute_change`]. The cost is that of
/// [`Router::change_with_ways_alone`](fr_route::Router::change_with_ways_alone).
#[unsafe(no_mangle)]
pub extern "C" fn revroute_change_with_ways(
    alloc: Global,
    handle: &mut Handle,
    edits: &[LinkEdit],
    round: &mut Round,
    refusal: &mut Refusal,
) -> u32
    // Everything is as for `revroute_change`.
    ensures begins { BeginsRound (make_edits (map edit_of edits.now)) (IsChangeRefused handle.old.session edits.now)
        (held_by handle.old) (held_by handle.new) (round_outcome result round.old round.new refusal.old refusal.new) }
    ensures known { result ≡ REVROUTE_ANSWERED → AreKnown edits.now }
    // The pushes lead from the ways of all nodes before the change to those after it. The session keeps them until
    // the next change by this call, or until it ends.
    ensures pushes { result ≡ REVROUTE_ANSWERED
        → LeadsBetween handle.old.session handle.new.session handle.new.pushes }
    ensures no_memory { result ≡ REVROUTE_NO_MEMORY → length edits.now ≤ most_edits }
    ensures unknown { ¬ AreKnown edits.now → result ≡ REVROUTE_REFUSED }
    ensures no_network { (result ≡ REVROUTE_NO_NETWORK) ↔ (AreKnown edits.now × (handle.old.session ≡ None)) }
    ensures kept { handle.new.at ≡ handle.old.at }
    ensures status { (result ≡ REVROUTE_ANSWERED) ⊎ (result ≡ REVROUTE_NO_MEMORY) ⊎ (result ≡ REVROUTE_NO_NETWORK)
        ⊎ (result ≡ REVROUTE_REFUSED) }
{
    if let Some(at) = first_unknown(edits) {
        *refusal = unknown_at(at);
        return REFUSED;
    }
    match handle.pointer().value_mut() {
        Some(state) => {
            let asked = NewEdits {
                edits,
                with_ways: true,
            };
            change_in(state, alloc, &asked, round, refusal)
        }
        None => NO_NETWORK,
    }
}

/// Moves the destination and begins a round, as a line `["dest",..]` does. Returns `REFUSED` if the new destination is
/// not a node, also if memory is missing. The other results and the cost are those of [`revroute_change`].
#[unsafe(no_mangle)]
pub extern "C" fn revroute_move_dest(
    alloc: Global,
    handle: &mut Handle,
    dest: u32,
    round: &mut Round,
    refusal: &mut Refusal,
) -> u32
    ensures begins { BeginsRound (move_dest dest) (IsMoveRefused handle.old.session dest)
        (held_by handle.old) (held_by handle.new) (round_outcome result round.old round.new refusal.old refusal.new) }
    // They are kept as by `revroute_change`.
    ensures pushes { handle.new.pushes ≡ handle.old.pushes }
    ensures no_network { (result ≡ REVROUTE_NO_NETWORK) ↔ (handle.old.session ≡ None) }
    // Never for a destination that is not a node.
    ensures no_memory { result ≡ REVROUTE_NO_MEMORY → IfSome handle.old.session (λ s. dest < s.nodes) }
    ensures kept { handle.new.at ≡ handle.old.at }
    ensures status { (result ≡ REVROUTE_ANSWERED) ⊎ (result ≡ REVROUTE_NO_MEMORY) ⊎ (result ≡ REVROUTE_NO_NETWORK)
        ⊎ (result ≡ REVROUTE_REFUSED) }
{
    match handle.pointer().value_mut() {
        Some(state) => move_dest_in(state, alloc, dest, round, refusal),
        None => NO_NETWORK,
    }
}
