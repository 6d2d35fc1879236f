//! Questions about the ways of nodes, and what to push to routers that hold all their ways.

ghost use Rattle.std.specs.Prelude.{◌≡◌, ◌≤◌, ◌⊎◌, ◌↔◌, [], None, length, IfSome};
ghost use Rattle.revroute_c.specs.Lending.{IsUnchanged};
ghost use Rattle.revroute_c.specs.Phases.{AreGrowths, AreShrinks, HoldNoTable, numbers_of};
ghost use Rattle.revroute_c.specs.Questions.{HasNoRoute, no_network};
ghost use Rattle.revroute_c.specs.Replies.{outcome, GivesList};
ghost use Rattle.revroute_c.specs.Statuses.{REVROUTE_ANSWERED, REVROUTE_TOO_SHORT};
ghost use Rattle.revroute_c.specs.Statuses.{REVROUTE_NO_MEMORY, REVROUTE_NO_NETWORK, REVROUTE_NO_ROUTE};
ghost use Rattle.revroute_c.specs.Statuses.{REVROUTE_NO_TABLE};
ghost use Rattle.revroute_c.specs.Ways.{AreWaysFrom, GivesAllWays, HasRoute, IsNearestFrom, TellsDistance};

use crate::handle::Handle;
use crate::phases::{Phase, PhaseRequest, hand_out_pushes, write_way_pushes};
use crate::questions::HOP_OF_NO_NETWORK;
use crate::replies::hand_out;
use crate::statuses::{ANSWERED, NO_MEMORY, NO_NETWORK, TOO_SHORT};
use crate::ways::{distance_in, write_all_ways, write_nearest, write_ways};
use std::alloc::Global;

/// Writes the ways of a node, nearest first, to the front of `ways`, and their number to `size`. The ways are the nodes
/// to which its links point. They are ordered by their distance, the fewest links down to the destination, and then by
/// number. The destination has none. Returns as [`revroute_walk`] does, and `NO_MEMORY` only for a node with a route.
///
/// It puts the ways together in a list that the session keeps, so it allocates only if no node asked about before had
/// as many links. The cost is that of [`Router::ways`](fr_route::Router::ways).
#[unsafe(no_mangle)]
pub extern "C" fn revroute_ways(
    handle: &mut Handle,
    node: u32,
    ways: &mut [u32],
    size: &mut usize,
) -> u32
    ensures same { IsUnchanged handle.old handle.new }
    ensures gives { GivesList (AreWaysFrom handle.old.session node) (outcome result ways.old ways.new size.new) }
    ensures no_network { (result ≡ REVROUTE_NO_NETWORK) ↔ (handle.old.session ≡ None) }
    // Only for a number that is cut off or not a node.
    ensures no_route { result ≡ REVROUTE_NO_ROUTE → IfSome handle.old.session (λ s. HasNoRoute s node) }
    // Only for a node with a route.
    ensures no_memory { result ≡ REVROUTE_NO_MEMORY → IfSome handle.old.session (λ s. HasRoute s node) }
    ensures status { (result ≡ REVROUTE_ANSWERED) ⊎ ((REVROUTE_TOO_SHORT ≤ result) × (result ≤ REVROUTE_NO_ROUTE)) }
{
    *size = 0;
    match handle.pointer().value_mut() {
        Some(state) => write_ways(&mut state.published, &mut state.ways, node, ways, size),
        None => NO_NETWORK,
    }
}

/// Returns the distance of a node: the fewest links that lead from it down to the destination. If it has none, returns
/// one of the named values of [`revroute_next_hop`], which are greater than all distances. It accepts any number and
/// any session. O(1).
#[unsafe(no_mangle)]
pub extern "C" fn revroute_distance(handle: &mut Handle, node: u32) -> u32
    // If it has none, a named value says why.
    ensures distance { TellsDistance handle.old.session node result }
    ensures same { IsUnchanged handle.old handle.new }
{
    match handle.pointer().value_mut() {
        Some(state) => distance_in(&mut state.published, node),
        None => HOP_OF_NO_NETWORK,
    }
}

/// Writes the nodes of the nearest route from a node to the destination, both included, to the front of `nodes`, and
/// their number to `size`. Each node is the first way of the one before, so the route has the fewest links. Returns as
/// [`revroute_ways`] does. The cost is that of [`Router::nearest`](fr_route::Router::nearest).
#[unsafe(no_mangle)]
pub extern "C" fn revroute_nearest(
    alloc: Global,
    handle: &mut Handle,
    node: u32,
    nodes: &mut [u32],
    size: &mut usize,
) -> u32
    ensures same { IsUnchanged handle.old handle.new }
    // Each node is the first way of the node before it.
    ensures gives { GivesList (IsNearestFrom handle.old.session node) (outcome result nodes.old nodes.new size.new) }
    ensures no_network { (result ≡ REVROUTE_NO_NETWORK) ↔ (handle.old.session ≡ None) }
    // Only for a number that is cut off or not a node.
    ensures no_route { result ≡ REVROUTE_NO_ROUTE → IfSome handle.old.session (λ s. HasNoRoute s node) }
    // Only for a node with a route.
    ensures no_memory { result ≡ REVROUTE_NO_MEMORY → IfSome handle.old.session (λ s. HasRoute s node) }
    ensures status { (result ≡ REVROUTE_ANSWERED) ⊎ ((REVROUTE_TOO_SHORT ≤ result) × (result ≤ REVROUTE_NO_ROUTE)) }
{
    *size = 0;
    match handle.pointer().value_mut() {
        Some(state) => write_nearest(&mut state.published, alloc, node, nodes, size),
        None => NO_NETWORK,
    }
}

/// Writes the ways of each node. The lists, as [`revroute_ways`] writes them, come one after the other to the front of
/// `ways`, in the order of the nodes, and their length in all to `size`. Where each list begins comes to the front of
/// `starts`, with the end of the last list: one more number than there are nodes. Returns `ANSWERED`, or:
///
/// - `TOO_SHORT`: there is too little room in one of the two places.
/// - `NO_NETWORK`: there is no network yet.
/// - `NO_MEMORY`: an allocation was refused.
///
/// `size` is 0 in the last two cases. In all three cases both places are unchanged. There are at most as many ways as
/// links. The cost is that of [`Router::all_ways`](fr_route::Router::all_ways).
#[unsafe(no_mangle)]
pub extern "C" fn revroute_all_ways(
    alloc: Global,
    handle: &mut Handle,
    starts: &mut [usize],
    ways: &mut [u32],
    size: &mut usize,
) -> u32
    ensures same { IsUnchanged handle.old handle.new }
    // The destination and nodes that are cut off have no ways. `TOO_SHORT` comes with the number of all ways.
    ensures gives { GivesAllWays handle.old.session (outcome result starts.old starts.new size.new)
        (outcome result ways.old ways.new size.new) }
    ensures no_network { (result ≡ REVROUTE_NO_NETWORK) ↔ (handle.old.session ≡ None) }
    ensures status { (result ≡ REVROUTE_ANSWERED) ⊎ ((REVROUTE_TOO_SHORT ≤ result) × (result ≤ REVROUTE_NO_NETWORK)) }
{
    *size = 0;
    match handle.pointer().value_mut() {
        Some(state) => write_all_ways(state.session(), alloc, starts, ways, size),
        None => NO_NETWORK,
    }
}

/// Writes what to push first to routers that hold other ways than those of the session. `starts` and `ways` have the
/// ways that routers may hold, as [`revroute_all_ways`] writes them. Each node that loses a way gets the ways that it
/// keeps. Nodes that keep a way come first, by number; then those that keep none, by number. Each push is written as the
/// node, the number of its ways, and these ways. The pushes come to the front of `pushes`, and their length in all to
/// `size`. They can be made in any order. Once routers have confirmed them, [`revroute_grow`] says what to push then. If
/// the ways that routers may hold have no cycle, there is none at any moment. Returns `ANSWERED`, or:
///
/// - `TOO_SHORT`: there is too little room. Twice as many numbers as there are nodes, and as many as links, are enough.
/// - `NO_NETWORK`: there is no network yet.
/// - `NO_TABLE`: `starts` does not have one number more than there are nodes; or it does not begin with 0, or falls, or
///   does not end with the length of `ways`.
/// - `NO_MEMORY`: an allocation was refused. The table is not one for which the call returns `NO_TABLE`.
///
/// `size` is 0 in the last three cases. In all four cases `pushes` is unchanged. The ways may have cycles, and may name
/// any number. The session never changes. The cost is that of [`Router::phases`](fr_route::Router::phases).
#[unsafe(no_mangle)]
pub extern "C" fn revroute_shrink(
    alloc: Global,
    handle: &mut Handle,
    starts: &[usize],
    ways: &[u32],
    pushes: &mut [u32],
    size: &mut usize,
) -> u32
    ensures same { IsUnchanged handle.old handle.new }
    // Exactly the nodes that lose a way, each with the ways that it keeps.
    ensures gives { GivesList (AreShrinks handle.old.session starts.now ways.now)
        (outcome result pushes.old pushes.new size.new) }
    ensures no_network { (result ≡ REVROUTE_NO_NETWORK) ↔ (handle.old.session ≡ None) }
    // Only if the caller's arrays hold no table with a list for each node.
    ensures no_table { result ≡ REVROUTE_NO_TABLE → HoldNoTable handle.old.session starts.now ways.now }
    // Only if they hold one.
    ensures no_memory { result ≡ REVROUTE_NO_MEMORY → ¬ HoldNoTable handle.old.session starts.now ways.now }
    ensures status { (result ≡ REVROUTE_ANSWERED) ⊎ ((REVROUTE_TOO_SHORT ≤ result) × (result ≤ REVROUTE_NO_NETWORK))
        ⊎ (result ≡ REVROUTE_NO_TABLE) }
{
    *size = 0;
    match handle.pointer().value_mut() {
        Some(state) => write_way_pushes(
            state.session(),
            alloc,
            &PhaseRequest {
                phase: Phase::Shrink,
                starts,
                ways,
            },
            pushes,
            size,
        ),
        None => NO_NETWORK,
    }
}

/// Writes what to push once routers have confirmed the pushes of [`revroute_shrink`] for the same table: the nodes whose
/// list still differs, by number, each with all its ways, nearest first. All else is as for [`revroute_shrink`]. If the
/// network changes before, ask both calls again with the ways that routers may hold then.
#[unsafe(no_mangle)]
pub extern "C" fn revroute_grow(
    alloc: Global,
    handle: &mut Handle,
    starts: &[usize],
    ways: &[u32],
    pushes: &mut [u32],
    size: &mut usize,
) -> u32
    ensures same { IsUnchanged handle.old handle.new }
    // Exactly the nodes whose list still differs, each with its new list.
    ensures gives { GivesList (AreGrowths handle.old.session starts.now ways.now)
        (outcome result pushes.old pushes.new size.new) }
    ensures no_network { (result ≡ REVROUTE_NO_NETWORK) ↔ (handle.old.session ≡ None) }
    // As for `revroute_shrink`.
    ensures no_table { result ≡ REVROUTE_NO_TABLE → HoldNoTable handle.old.session starts.now ways.now }
    // As for `revroute_shrink`.
    ensures no_memory { result ≡ REVROUTE_NO_MEMORY → ¬ HoldNoTable handle.old.session starts.now ways.now }
    ensures status { (result ≡ REVROUTE_ANSWERED) ⊎ ((REVROUTE_TOO_SHORT ≤ result) × (result ≤ REVROUTE_NO_NETWORK))
        ⊎ (result ≡ REVROUTE_NO_TABLE) }
{
    *size = 0;
    match handle.pointer().value_mut() {
        Some(state) => write_way_pushes(
            state.session(),
            alloc,
            &PhaseRequest {
                phase: Phase::Grow,
                starts,
                ways,
            },
            pushes,
            size,
        ),
        None => NO_NETWORK,
    }
}

/// Writes what the last change that [`revroute_change_with_ways`] made has to push first: the nodes that lose a way, each
/// with the ways that it keeps, in the order and the form of [`revroute_shrink`]. Before such a change there is nothing to
/// push. No other call changes this, so after another change or a new network it is about an earlier change. Returns
/// `ANSWERED`, or:
///
/// - `TOO_SHORT`: there is too little room. `size` is the room that is needed.
/// - `NO_MEMORY`: an allocation was refused. `size` is 0.
///
/// In both cases `pushes` is unchanged. The session never changes. O(p) for p numbers.
#[unsafe(no_mangle)]
pub extern "C" fn revroute_change_shrink(
    alloc: Global,
    handle: &mut Handle,
    pushes: &mut [u32],
    size: &mut usize,
) -> u32
    ensures same { IsUnchanged handle.old handle.new }
    // The kept pushes of the first phase.
    ensures gives { GivesList (λ numbers. numbers ≡ numbers_of handle.old.pushes.shrink)
        (outcome result pushes.old pushes.new size.new) }
    ensures status { (result ≡ REVROUTE_ANSWERED) ⊎ (result ≡ REVROUTE_TOO_SHORT) ⊎ (result ≡ REVROUTE_NO_MEMORY) }
{
    *size = 0;
    match handle.pointer().value_mut() {
        Some(state) => hand_out_pushes(alloc, &state.published.shrink(), pushes, size),
        None => hand_out(&[], pushes, size),
    }
}

/// Writes what to push once routers have confirmed the pushes of [`revroute_change_shrink`]: the nodes whose list still
/// differs, by number, each with all its ways, nearest first. All else is as for [`revroute_change_shrink`].
#[unsafe(no_mangle)]
pub extern "C" fn revroute_change_grow(
    alloc: Global,
    handle: &mut Handle,
    pushes: &mut [u32],
    size: &mut usize,
) -> u32
    ensures same { IsUnchanged handle.old handle.new }
    // The kept pushes of the second phase.
    ensures gives { GivesList (λ numbers. numbers ≡ numbers_of handle.old.pushes.grow)
        (outcome result pushes.old pushes.new size.new) }
    ensures status { (result ≡ REVROUTE_ANSWERED) ⊎ (result ≡ REVROUTE_TOO_SHORT) ⊎ (result ≡ REVROUTE_NO_MEMORY) }
{
    *size = 0;
    match handle.pointer().value_mut() {
        Some(state) => hand_out_pushes(alloc, &state.published.grow(), pushes, size),
        None => hand_out(&[], pushes, size),
    }
}
