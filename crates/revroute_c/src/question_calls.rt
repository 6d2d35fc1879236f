//! Questions about the next hops, the links and the last round of a session.

ghost use Rattle.std.specs.Prelude.{◌≡◌, ◌≤◌, ◌⊎◌, ◌↔◌, [], None, length, IfSome};
ghost use Rattle.fr_route.specs.States.{IsReport};
ghost use Rattle.revroute_c.specs.Lending.{IsUnchanged};
ghost use Rattle.revroute_c.specs.PushOrders.{OrdersPushes};
ghost use Rattle.revroute_c.specs.Questions.{AreCounts, AreHopsWritten, AreAsManyAsNodes, AreLinks};
ghost use Rattle.revroute_c.specs.Questions.{HasNoRoute, IsRouteFrom, TellsDest, TellsHop, no_network};
ghost use Rattle.revroute_c.specs.Replies.{outcome, GivesList};
ghost use Rattle.revroute_c.specs.Statuses.{REVROUTE_ANSWERED, REVROUTE_TOO_SHORT};
ghost use Rattle.revroute_c.specs.Statuses.{REVROUTE_NO_MEMORY, REVROUTE_NO_NETWORK, REVROUTE_NO_ROUTE};
ghost use Rattle.revroute_c.specs.Statuses.{REVROUTE_NO_TABLE};
ghost use Rattle.revroute_c.specs.Tables.{ArePushesOf, IsNoTable};
ghost use Rattle.revroute_c.specs.Ways.{HasRoute};

use crate::handle::Handle;
use crate::push_orders::{Tables, order_of};
use crate::questions::{
    HOP_OF_NO_NETWORK, dest_in, hop_in, write_counts, write_hops, write_links, write_report,
    write_size, write_walk,
};
use crate::records::{Link, Refusal, Round};
use crate::replies::hand_out;
use crate::statuses::{ANSWERED, NO_MEMORY, NO_NETWORK, REFUSED, TOO_SHORT};
use crate::tables::write_pushes;
use std::alloc::Global;

/// Returns the next hop of a node, or one of the named values, which are greater than all nodes. It accepts any number
/// and any session. O(1).
#[unsafe(no_mangle)]
pub extern "C" fn revroute_next_hop(handle: &mut Handle, node: u32) -> u32
    // Without a network it is the value for no network.
    ensures hop { TellsHop handle.old.session node result }
    ensures same { IsUnchanged handle.old handle.new }
{
    match handle.pointer().value_mut() {
        Some(state) => hop_in(state.session(), node),
        None => HOP_OF_NO_NETWORK,
    }
}

/// Writes the next hop of each node, in the order of the nodes, to the front of `hops`, and the number of hops to
/// `size`. Returns `TOO_SHORT` if there is too little room, and `NO_NETWORK`, with `size` 0, if there is no network
/// yet. In both cases `hops` is unchanged. O(n).
#[unsafe(no_mangle)]
pub extern "C" fn revroute_hops(handle: &mut Handle, hops: &mut [u32], size: &mut usize) -> u32
    ensures same { IsUnchanged handle.old handle.new }
    ensures gives { GivesList (AreAsManyAsNodes handle.old.session) (outcome result hops.old hops.new size.new) }
    ensures hops { result ≡ REVROUTE_ANSWERED → IfSome handle.old.session (λ s. AreHopsWritten s hops.old hops.new) }
    ensures no_network { (result ≡ REVROUTE_NO_NETWORK) ↔ (handle.old.session ≡ None) }
    ensures status { (result ≡ REVROUTE_ANSWERED) ⊎ (result ≡ REVROUTE_TOO_SHORT) ⊎ (result ≡ REVROUTE_NO_NETWORK) }
{
    *size = 0;
    match handle.pointer().value_mut() {
        Some(state) => write_hops(state.session(), hops, size),
        None => NO_NETWORK,
    }
}

/// Writes the nodes that the last accepted round rerouted to the front of `nodes`, in push order, and their number to
/// `size`. A new network reroutes the nodes whose hop differs from that in the network before. A number that is not a
/// node of one of the two networks counts as cut off there. Returns `TOO_SHORT` if there is too little room, and
/// `NO_NETWORK`, with `size` 0, if there is no network yet. In both cases `nodes` is unchanged. O(r) for r rerouted
/// nodes.
#[unsafe(no_mangle)]
pub extern "C" fn revroute_changed(handle: &mut Handle, nodes: &mut [u32], size: &mut usize) -> u32
    ensures same { IsUnchanged handle.old handle.new }
    ensures gives { GivesList (λ listed. listed ≡ handle.old.rerouted) (outcome result nodes.old nodes.new size.new) }
    ensures no_network { (result ≡ REVROUTE_NO_NETWORK) ↔ (handle.old.session ≡ None) }
    ensures status { (result ≡ REVROUTE_ANSWERED) ⊎ (result ≡ REVROUTE_TOO_SHORT) ⊎ (result ≡ REVROUTE_NO_NETWORK) }
{
    *size = 0;
    let Some(state) = handle.pointer().value_mut() else {
        return NO_NETWORK;
    };
    if state.session().router().is_none() {
        return NO_NETWORK;
    }
    hand_out(state.published.rerouted(), nodes, size)
}

/// Writes the nodes whose hop differs from that in the caller's table to the front of `nodes`, in push order, and their
/// number to `size`. The table has a hop for each node, as [`revroute_hops`] writes them. It may have loops.
/// Returns `ANSWERED`, or:
///
/// - `TOO_SHORT`: there is too little room.
/// - `NO_NETWORK`: there is no network yet.
/// - `NO_TABLE`: the table does not have one hop for each node, or one of its hops does not name a node.
/// - `NO_MEMORY`: an allocation was refused. The table is not one for which the call returns `NO_TABLE`.
///
/// `size` is 0 in the last three cases. In all four cases `nodes` is unchanged. The session never changes. O(n).
#[unsafe(no_mangle)]
pub extern "C" fn revroute_pushes(
    alloc: Global,
    handle: &mut Handle,
    table: &[u32],
    nodes: &mut [u32],
    size: &mut usize,
) -> u32
    ensures same { IsUnchanged handle.old handle.new }
    ensures gives { GivesList (ArePushesOf handle.old.session table.now) (outcome result nodes.old nodes.new size.new) }
    ensures no_network { (result ≡ REVROUTE_NO_NETWORK) ↔ (handle.old.session ≡ None) }
    // Only for another number of hops, or a hop that does not name a node.
    ensures no_table { result ≡ REVROUTE_NO_TABLE → IsNoTable handle.old.session table.now }
    // Never for such a table.
    ensures no_memory { result ≡ REVROUTE_NO_MEMORY → ¬ IsNoTable handle.old.session table.now }
    ensures status { (result ≡ REVROUTE_ANSWERED) ⊎ ((REVROUTE_TOO_SHORT ≤ result) × (result ≤ REVROUTE_NO_NETWORK))
        ⊎ (result ≡ REVROUTE_NO_TABLE) }
{
    *size = 0;
    match handle.pointer().value_mut() {
        Some(state) => write_pushes(state.session(), alloc, table, nodes, size),
        None => NO_NETWORK,
    }
}

/// Writes the nodes at which two tables of the caller's own differ, in push order, to the front of `nodes`, and their
/// number to `size`. The tables have hops as [`revroute_hops`] writes them, whatever method made them. A number past
/// the end of the shorter table is cut off there. Only `old` may have loops. It needs no session. Returns `ANSWERED`,
/// or:
///
/// - `REFUSED`: a table has more than 4,096 hops; or a number in `old`, or otherwise in `new`, does not name a hop; or
///   `new` has a loop. `refusal` gets the number that lines use for the reason and its nodes. For a loop, the loop of
///   the lowest such node is at the front of `nodes`. It begins at this node and has it again at the end, and `size` is
///   its length. Otherwise `size` is 0.
/// - `TOO_SHORT`: there is too little room, for the order or the loop.
/// - `NO_MEMORY`: an allocation was refused. Both tables are within the limit, and all their numbers name hops.
///
/// `nodes` is unchanged after any result but `ANSWERED` and a refusal for a loop. O(n).
#[unsafe(no_mangle)]
pub extern "C" fn revroute_push_order(
    alloc: Global,
    old: &[u32],
    new: &[u32],
    nodes: &mut [u32],
    size: &mut usize,
    refusal: &mut Refusal,
) -> u32
    // Exactly the nodes at which the tables differ. A number past the end of the shorter table counts as cut off
    // there. `REFUSED` for too many hops, the first number that is not a hop, or a loop of the new table, which the
    // call writes. `TOO_SHORT` comes with the wanted length, and `NO_MEMORY` only for tables within the limit whose
    // numbers are hops. After any status but `ANSWERED` and a refusal for a loop, `nodes` is unchanged.
    ensures { OrdersPushes old.now new.now (outcome result nodes.old nodes.new size.new) refusal.old refusal.new }
{
    *size = 0;
    order_of(alloc, &Tables { old, new }, nodes, size, refusal)
}

/// Writes how often each node turned in the last round, in the order of the nodes. All else is as for
/// [`revroute_hops`]. O(n).
#[unsafe(no_mangle)]
pub extern "C" fn revroute_counts(handle: &mut Handle, counts: &mut [u64], size: &mut usize) -> u32
    ensures same { IsUnchanged handle.old handle.new }
    ensures gives { GivesList (AreCounts handle.old.session) (outcome result counts.old counts.new size.new) }
    ensures no_network { (result ≡ REVROUTE_NO_NETWORK) ↔ (handle.old.session ≡ None) }
    ensures status { (result ≡ REVROUTE_ANSWERED) ⊎ (result ≡ REVROUTE_TOO_SHORT) ⊎ (result ≡ REVROUTE_NO_NETWORK) }
{
    *size = 0;
    match handle.pointer().value_mut() {
        Some(state) => write_counts(state.session(), counts, size),
        None => NO_NETWORK,
    }
}

/// Writes the nodes of the route from a node to the destination, both included, to the front of `nodes`, and their
/// number to `size`. Returns `ANSWERED`, or:
///
/// - `TOO_SHORT`: there is too little room.
/// - `NO_ROUTE`: the node is cut off, or the number is not a node.
/// - `NO_NETWORK`: there is no network yet.
/// - `NO_MEMORY`: an allocation was refused. The node has a route.
///
/// `size` is 0 in the last three cases. In all four cases `nodes` is unchanged. O(r) for a route of r nodes.
#[unsafe(no_mangle)]
pub extern "C" fn revroute_walk(
    alloc: Global,
    handle: &mut Handle,
    node: u32,
    nodes: &mut [u32],
    size: &mut usize,
) -> u32
    ensures same { IsUnchanged handle.old handle.new }
    ensures gives { GivesList (IsRouteFrom handle.old.session node) (outcome result nodes.old nodes.new size.new) }
    ensures no_network { (result ≡ REVROUTE_NO_NETWORK) ↔ (handle.old.session ≡ None) }
    // Only for a number that is cut off or not a node.
    ensures no_route { result ≡ REVROUTE_NO_ROUTE → IfSome handle.old.session (λ s. HasNoRoute s node) }
    // Only for a node with a route.
    ensures no_memory { result ≡ REVROUTE_NO_MEMORY → IfSome handle.old.session (λ s. HasRoute s node) }
    ensures status { (result ≡ REVROUTE_ANSWERED) ⊎ ((REVROUTE_TOO_SHORT ≤ result) × (result ≤ REVROUTE_NO_ROUTE)) }
{
    *size = 0;
    match handle.pointer().value_mut() {
        Some(state) => write_walk(state.session(), alloc, node, nodes, size),
        None => NO_NETWORK,
    }
}

/// Writes the links to the front of `links`, ordered by tail and then by head, and their number to `size`. Returns
/// `ANSWERED`, or:
///
/// - `TOO_SHORT`: there is too little room.
/// - `NO_NETWORK`: there is no network yet.
/// - `NO_MEMORY`: an allocation was refused.
///
/// `size` is 0 in the last two cases. In all three cases `links` is unchanged. O(n + m).
#[unsafe(no_mangle)]
pub extern "C" fn revroute_links(
    alloc: Global,
    handle: &mut Handle,
    links: &mut [Link],
    size: &mut usize,
) -> u32
    ensures same { IsUnchanged handle.old handle.new }
    ensures gives { GivesList (AreLinks handle.old.session) (outcome result links.old links.new size.new) }
    ensures no_network { (result ≡ REVROUTE_NO_NETWORK) ↔ (handle.old.session ≡ None) }
    ensures status { (result ≡ REVROUTE_ANSWERED) ⊎ ((REVROUTE_TOO_SHORT ≤ result) × (result ≤ REVROUTE_NO_NETWORK)) }
{
    *size = 0;
    match handle.pointer().value_mut() {
        Some(state) => write_links(state.session(), alloc, links, size),
        None => NO_NETWORK,
    }
}

/// Writes the report of the last round to `round`. Returns `NO_NETWORK`, with 0 for both numbers of the report, if
/// there is no network yet. O(1).
#[unsafe(no_mangle)]
pub extern "C" fn revroute_report(handle: &mut Handle, round: &mut Round) -> u32
    ensures same { IsUnchanged handle.old handle.new }
    ensures report { result ≡ REVROUTE_ANSWERED
        → IfSome handle.old.session (λ s. IsReport s round.new.turned round.new.cut_off) }
    ensures no_network { (result ≡ REVROUTE_NO_NETWORK) ↔ (handle.old.session ≡ None) }
    // Without a network both numbers are 0.
    ensures none { result ≡ REVROUTE_NO_NETWORK → (round.new.turned ≡ 0) × (round.new.cut_off ≡ 0) }
    ensures status { (result ≡ REVROUTE_ANSWERED) ⊎ (result ≡ REVROUTE_NO_NETWORK) }
{
    *round = Round {
        turned: 0,
        cut_off: 0,
    };
    match handle.pointer().value_mut() {
        Some(state) => write_report(state.session(), round),
        None => NO_NETWORK,
    }
}

/// Returns the destination, or the value for no network, which is greater than all nodes. O(1).
#[unsafe(no_mangle)]
pub extern "C" fn revroute_dest(handle: &mut Handle) -> u32
    ensures dest { TellsDest handle.old.session result }
    ensures same { IsUnchanged handle.old handle.new }
{
    match handle.pointer().value_mut() {
        Some(state) => dest_in(state.session()),
        None => HOP_OF_NO_NETWORK,
    }
}

/// Writes the number of nodes to `nodes` and the number of links to `links`. Returns `NO_NETWORK`, with 0 in both, if
/// there is no network yet. O(1).
#[unsafe(no_mangle)]
pub extern "C" fn revroute_size(handle: &mut Handle, nodes: &mut u32, links: &mut usize) -> u32
    ensures same { IsUnchanged handle.old handle.new }
    ensures size { result ≡ REVROUTE_ANSWERED
        → IfSome handle.old.session (λ s. (nodes.new ≡ s.nodes) × (links.new ≡ length s.links)) }
    ensures no_network { (result ≡ REVROUTE_NO_NETWORK) ↔ (handle.old.session ≡ None) }
    // Without a network both numbers are 0.
    ensures none { result ≡ REVROUTE_NO_NETWORK → (nodes.new ≡ 0) × (links.new ≡ 0) }
    ensures status { (result ≡ REVROUTE_ANSWERED) ⊎ (result ≡ REVROUTE_NO_NETWORK) }
{
    *nodes = 0;
    *links = 0;
    match handle.pointer().value_mut() {
        Some(state) => write_size(state.session(), nodes, links),
        None => NO_NETWORK,
    }
}
