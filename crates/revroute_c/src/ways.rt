//! Questions about the ways of nodes. The state of the session stays the same. The first question about a node measures
//! distances, so it needs the session as mutable.

ghost use Rattle.std.specs.Prelude.{◌≡◌, ◌≤◌, ◌⊎◌, ◌↔◌, length, None, IfErr, IfSome, OnOk};
ghost use Rattle.std.specs.List.{concat};
ghost use Rattle.revroute_c.specs.Questions.{HasNoRoute};
ghost use Rattle.revroute_c.specs.Replies.{outcome, GivesList};
ghost use Rattle.revroute_c.specs.Ways.{AreRowsWritten, AreWaysFrom, GivesAllWays, HasRoute, HasRouteIn};
ghost use Rattle.revroute_c.specs.Ways.{IsNearestFrom, IsTooLong, SaysWhyNone, TellsDistance};

use crate::questions::{CUT_OFF, HOP_OF_NO_NETWORK, HOP_OF_NO_NODE};
use crate::replies::hand_out;
use crate::statuses::{ANSWERED, NO_MEMORY, NO_NETWORK, NO_ROUTE, TOO_SHORT};
use fr_readers::PublishedSession;
use fr_route::{Hop, Session, Walked};
use fr_ways::WayTable;
use std::alloc::Global;

/// Succeeds if a node has a route in a session. Otherwise fails with the status that says why not.
#[tactic(auto, using(crate::proofs::Connected::not_cut_off))]
fn expect_route(session: &Session, node: u32) -> Result<(), u32>
    ensures some { OnOk result (HasRouteIn session.now node) }
    ensures none { IfErr result (SaysWhyNone session.now node) }
{
    let Some(router) = session.router() else {
        return Err(NO_NETWORK);
    };
    if node >= router.net().nodes() {
        return Err(NO_ROUTE);
    }
    if router.next_hop(node) == Hop::CutOff {
        return Err(NO_ROUTE);
    }
    Ok(())
}

/// Writes the ways of a node, nearest first, if it has a route. The content of `list` is lost; its room is used again,
/// so that few answers allocate. `size` must be 0.
pub(crate) fn write_ways(
    published: &mut PublishedSession,
    list: &mut Vec<u32>,
    node: u32,
    ways: &mut [u32],
    size: &mut usize,
) -> u32
    requires { size.old ≡ 0 }
    ensures same { published.new ≡ published.old }
    ensures gives { GivesList (AreWaysFrom published.old.session node) (outcome result ways.old ways.new size.new) }
    ensures no_network { (result ≡ NO_NETWORK) ↔ (published.old.session ≡ None) }
    ensures no_route { result ≡ NO_ROUTE → IfSome published.old.session (λ s. HasNoRoute s node) }
    ensures no_memory { result ≡ NO_MEMORY → IfSome published.old.session (λ s. HasRoute s node) }
    ensures status { (result ≡ ANSWERED) ⊎ ((TOO_SHORT ≤ result) × (result ≤ NO_ROUTE)) }
{
    if let Err(status) = expect_route(published.session(), node) {
        return status;
    }
    match published.ways(node, list) {
        Some(Ok(())) => hand_out(list, ways, size),
        Some(Err(_memory)) => NO_MEMORY,
        None => unreachable!(),
    }
}

/// The distance of any node in any session, or the value that says why there is none.
pub(crate) fn distance_in(published: &mut PublishedSession, node: u32) -> u32
    ensures same { published.new ≡ published.old }
    ensures distance { TellsDistance published.old.session node result }
{
    let Some(router) = published.session().router() else {
        return HOP_OF_NO_NETWORK;
    };
    if node >= router.net().nodes() {
        return HOP_OF_NO_NODE;
    }
    match published.distance(node) {
        Some(distance) => distance.unwrap_or(CUT_OFF),
        None => unreachable!(),
    }
}

/// Writes the nodes of the nearest route from a node to the destination, if there is one. `size` must be 0.
pub(crate) fn write_nearest(
    published: &mut PublishedSession,
    alloc: Global,
    node: u32,
    nodes: &mut [u32],
    size: &mut usize,
) -> u32
    requires { size.old ≡ 0 }
    ensures same { published.new ≡ published.old }
    ensures gives { GivesList (IsNearestFrom published.old.session node)
        (outcome result nodes.old nodes.new size.new) }
    ensures no_network { (result ≡ NO_NETWORK) ↔ (published.old.session ≡ None) }
    ensures no_route { result ≡ NO_ROUTE → IfSome published.old.session (λ s. HasNoRoute s node) }
    ensures no_memory { result ≡ NO_MEMORY → IfSome published.old.session (λ s. HasRoute s node) }
    ensures status { (result ≡ ANSWERED) ⊎ ((TOO_SHORT ≤ result) × (result ≤ NO_ROUTE)) }
{
    if let Err(status) = expect_route(published.session(), node) {
        return status;
    }
    match published.nearest(alloc, node) {
        Some(Ok(Walked::Route(route))) => hand_out(&route, nodes, size),
        Some(Err(_memory)) => NO_MEMORY,
        Some(Ok(Walked::CutOff)) | None => unreachable!(),
    }
}

/// Writes the lists of a table: where each begins, and one list after the other. If a place is too short, it writes to
/// none.
fn hand_out_rows(table: &WayTable, starts: &mut [usize], ways: &mut [u32], size: &mut usize) -> u32
    ensures written { result ≡ ANSWERED
        → AreRowsWritten table.now (outcome result starts.old starts.new size.new)
        (outcome result ways.old ways.new size.new) }
    ensures too_short { result ≡ TOO_SHORT
        → IsTooLong table.now (outcome result starts.old starts.new size.new)
        (outcome result ways.old ways.new size.new) }
    ensures unchanged { result ≡ TOO_SHORT → (starts.new ≡ starts.old) × (ways.new ≡ ways.old) }
    ensures size { size.new ≡ length (concat table.now) }
    ensures status { (result ≡ ANSWERED) ⊎ (result ≡ TOO_SHORT) }
{
    let (begins, list) = (table.starts(), table.list());
    *size = list.len();
    if begins.len() > starts.len() || list.len() > ways.len() {
        return TOO_SHORT;
    }
    starts[..begins.len()].copy_from_slice(begins);
    ways[..list.len()].copy_from_slice(list);
    ANSWERED
}

/// Writes the ways of each node, if there is a network. `size` must be 0.
pub(crate) fn write_all_ways(
    session: &Session,
    alloc: Global,
    starts: &mut [usize],
    ways: &mut [u32],
    size: &mut usize,
) -> u32
    requires { size.old ≡ 0 }
    ensures gives { GivesAllWays session.now (outcome result starts.old starts.new size.new)
        (outcome result ways.old ways.new size.new) }
    ensures no_network { (result ≡ NO_NETWORK) ↔ (session.now ≡ None) }
    ensures status { (result ≡ ANSWERED) ⊎ ((TOO_SHORT ≤ result) × (result ≤ NO_NETWORK)) }
{
    let Some(router) = session.router() else {
        return NO_NETWORK;
    };
    match router.all_ways(alloc) {
        Ok(table) => hand_out_rows(&table, starts, ways, size),
        Err(_memory) => NO_MEMORY,
    }
}
