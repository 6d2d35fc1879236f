//! Questions, which change nothing.

ghost use Rattle.std.specs.Prelude.{◌≡◌, ◌<◌, ◌≤◌, ◌⊎◌, ◌↔◌, length, map, None, IfOk, IfSome};
ghost use Rattle.fr_route.specs.States.{IsReport};
ghost use Rattle.revroute_c.specs.Questions.{number_of, AreCounts, AreHopsWritten, AreLinks};
ghost use Rattle.revroute_c.specs.Questions.{AreAsManyAsNodes, HasNoRoute, IsHopNumber, IsRouteFrom};
ghost use Rattle.revroute_c.specs.Questions.{TellsDest, TellsHop};
ghost use Rattle.revroute_c.specs.Records.{link_of};
ghost use Rattle.revroute_c.specs.Replies.{outcome, GivesList};
ghost use Rattle.revroute_c.specs.Ways.{HasRoute};

use crate::records::{Link, Round, round_of};
use crate::replies::hand_out;
use crate::statuses::{ANSWERED, NO_MEMORY, NO_NETWORK, NO_ROUTE, TOO_SHORT};
use fr_route::{Hop, Router, Session, Walked};
use std::alloc::{AllocError, Global};

/// In place of a next hop: the node is the destination.
pub(crate) const HERE: u32 = u32::MAX;

/// In place of a next hop: the node is cut off.
pub(crate) const CUT_OFF: u32 = u32::MAX - 1;

/// In place of a next hop: there is no such node.
pub(crate) const HOP_OF_NO_NODE: u32 = u32::MAX - 2;

/// In place of a next hop: there is no network yet.
pub(crate) const HOP_OF_NO_NETWORK: u32 = u32::MAX - 3;

/// A hop as a number.
fn number(hop: Hop) -> u32
    ensures { result ≡ number_of hop }
{
    match hop {
        Hop::Here => HERE,
        Hop::To(next) => next,
        Hop::CutOff => CUT_OFF,
    }
}

/// The hop of node `x` as a number. The node must be in the network.
fn hop_number(router: &Router, x: u32) -> u32
    requires { x < router.now.nodes }
    ensures { IsHopNumber router.now x result }
{
    number(router.next_hop(x))
}

/// Writes hops as numbers to a place of exactly their length.
fn fill_hops(hops: &[Hop], place: &mut [u32])
    requires { length place.old ≡ length hops.now }
    ensures { place.new ≡ map number_of hops.now }
{
    for at in 0..hops.len() {
        place[at] = number(hops[at]);
    }
}

/// Writes the hop of each node to the front of a place, if there is room.
fn hand_out_hops(router: &Router, place: &mut [u32], size: &mut usize) -> u32
    ensures gives { GivesList (λ numbers. length numbers ≡ router.now.nodes)
        (outcome result place.old place.new size.new) }
    ensures hops { result ≡ ANSWERED → AreHopsWritten router.now place.old place.new }
    ensures status { (result ≡ ANSWERED) ⊎ (result ≡ TOO_SHORT) }
{
    let hops = router.hops();
    *size = hops.len();
    if hops.len() > place.len() {
        return TOO_SHORT;
    }
    fill_hops(hops, &mut place[..hops.len()]);
    ANSWERED
}

/// The hop of any node in any session, as a number.
pub(crate) fn hop_in(session: &Session, node: u32) -> u32
    ensures { TellsHop session.now node result }
{
    let Some(router) = session.router() else {
        return HOP_OF_NO_NETWORK;
    };
    if node >= router.net().nodes() {
        return HOP_OF_NO_NODE;
    }
    hop_number(router, node)
}

/// Writes the hop of each node, if there is a network. `size` must be 0.
pub(crate) fn write_hops(session: &Session, hops: &mut [u32], size: &mut usize) -> u32
    requires { size.old ≡ 0 }
    ensures gives { GivesList (AreAsManyAsNodes session.now) (outcome result hops.old hops.new size.new) }
    ensures hops { result ≡ ANSWERED → IfSome session.now (λ s. AreHopsWritten s hops.old hops.new) }
    ensures no_network { (result ≡ NO_NETWORK) ↔ (session.now ≡ None) }
    ensures status { (result ≡ ANSWERED) ⊎ (result ≡ TOO_SHORT) ⊎ (result ≡ NO_NETWORK) }
{
    match session.router() {
        Some(router) => hand_out_hops(router, hops, size),
        None => NO_NETWORK,
    }
}

/// Writes how often each node turned in the last round, if there is a network. `size` must be 0.
pub(crate) fn write_counts(session: &Session, counts: &mut [u64], size: &mut usize) -> u32
    requires { size.old ≡ 0 }
    ensures gives { GivesList (AreCounts session.now) (outcome result counts.old counts.new size.new) }
    ensures no_network { (result ≡ NO_NETWORK) ↔ (session.now ≡ None) }
    ensures status { (result ≡ ANSWERED) ⊎ (result ≡ TOO_SHORT) ⊎ (result ≡ NO_NETWORK) }
{
    match session.router() {
        Some(router) => hand_out(router.counts(), counts, size),
        None => NO_NETWORK,
    }
}

/// Writes the nodes of the route from a node to the destination, if there is one. `size` must be 0.
#[tactic(auto, using(crate::proofs::Connected::not_cut_off))]
pub(crate) fn write_walk(
    session: &Session,
    alloc: Global,
    node: u32,
    nodes: &mut [u32],
    size: &mut usize,
) -> u32
    requires { size.old ≡ 0 }
    ensures gives { GivesList (IsRouteFrom session.now node) (outcome result nodes.old nodes.new size.new) }
    ensures no_network { (result ≡ NO_NETWORK) ↔ (session.now ≡ None) }
    ensures no_route { result ≡ NO_ROUTE → IfSome session.now (λ s. HasNoRoute s node) }
    ensures no_memory { result ≡ NO_MEMORY → IfSome session.now (λ s. HasRoute s node) }
    ensures status { (result ≡ ANSWERED) ⊎ ((TOO_SHORT ≤ result) × (result ≤ NO_ROUTE)) }
{
    let Some(router) = session.router() else {
        return NO_NETWORK;
    };
    if node >= router.net().nodes() || router.next_hop(node) == Hop::CutOff {
        return NO_ROUTE;
    }
    match router.walk(alloc, node) {
        Ok(Walked::Route(route)) => hand_out(&route, nodes, size),
        Ok(Walked::CutOff) => unreachable!(),
        Err(_memory) => NO_MEMORY,
    }
}

/// Writes the report of the last round, if there is a network.
pub(crate) fn write_report(session: &Session, round: &mut Round) -> u32
    ensures report { result ≡ ANSWERED → IfSome session.now (λ s. IsReport s round.new.turned round.new.cut_off) }
    ensures no_network { (result ≡ NO_NETWORK) ↔ (session.now ≡ None) }
    ensures none { result ≡ NO_NETWORK → round.new ≡ round.old }
    ensures status { (result ≡ ANSWERED) ⊎ (result ≡ NO_NETWORK) }
{
    let Some(router) = session.router() else {
        return NO_NETWORK;
    };
    *round = round_of(router.report());
    ANSWERED
}

/// The destination of a session, or the value for no network.
pub(crate) fn dest_in(session: &Session) -> u32
    ensures { TellsDest session.now result }
{
    match session.router() {
        Some(router) => router.dest(),
        None => HOP_OF_NO_NETWORK,
    }
}

/// Writes the numbers of nodes and links, if there is a network. Both numbers must be 0.
pub(crate) fn write_size(session: &Session, nodes: &mut u32, links: &mut usize) -> u32
    requires { (nodes.old ≡ 0) × (links.old ≡ 0) }
    ensures size { result ≡ ANSWERED → IfSome session.now (λ s. (nodes.new ≡ s.nodes) × (links.new ≡ length s.links)) }
    ensures no_network { (result ≡ NO_NETWORK) ↔ (session.now ≡ None) }
    ensures none { result ≡ NO_NETWORK → (nodes.new ≡ 0) × (links.new ≡ 0) }
    ensures status { (result ≡ ANSWERED) ⊎ (result ≡ NO_NETWORK) }
{
    let Some(router) = session.router() else {
        return NO_NETWORK;
    };
    *nodes = router.net().nodes();
    *links = router.net().link_count();
    ANSWERED
}

/// Writes the links, if there is a network. `size` must be 0.
pub(crate) fn write_links(
    session: &Session,
    alloc: Global,
    links: &mut [Link],
    size: &mut usize,
) -> u32
    requires { size.old ≡ 0 }
    ensures gives { GivesList (AreLinks session.now) (outcome result links.old links.new size.new) }
    ensures no_network { (result ≡ NO_NETWORK) ↔ (session.now ≡ None) }
    ensures status { (result ≡ ANSWERED) ⊎ ((TOO_SHORT ≤ result) × (result ≤ NO_NETWORK)) }
{
    let Some(router) = session.router() else {
        return NO_NETWORK;
    };
    match links_of(router, alloc) {
        Ok(found) => hand_out(&found, links, size),
        Err(_memory) => NO_MEMORY,
    }
}

/// The links of a network.
fn links_of(router: &Router, alloc: Global) -> Result<Vec<Link>, AllocError>
    ensures { IfOk result (λ found. map link_of found.items ≡ router.now.links) }
{
    let links = router.net().links();
    let mut found = Vec::with_capacity(alloc, links.len())?;
    for (tail, head) in links {
        found.push(Link { tail, head })?;
    }
    Ok(found)
}
