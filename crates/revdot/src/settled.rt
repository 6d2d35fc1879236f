//! The graph of a settled network.

ghost use Rattle.std.specs.Prelude.{◌≡◌, ◌++◌, ℕ, List, length, map, slice_get, IfOk, OnOk, string_bytes};
ghost use Rattle.std.specs.List.{range_with_len};
ghost use Rattle.revdot.specs.Settled.{node_style, link_style, settled_node, settled_link, IsGraphOf};
ghost use Rattle.revdot.specs.Settled.{is_first as is_first_of, way_link, way_style, IsWaysGraphOf};

use crate::graphs::{Direction, DrawnLink, DrawnNode, Label, LinkStyle, NodeStyle, push_graph};
use fr_route::{Hop, Router};
use fr_ways::WayTable;
use std::alloc::{AllocError, Global};

/// Appends the graph of a settled network, with this text below it.
pub fn push_settled(
    text: &mut String,
    alloc: Global,
    router: &Router,
    direction: Direction,
    label: Label,
) -> Result<(), AllocError>
    ensures { OnOk result ((graph : List ℕ) × IsGraphOf direction label router.now graph
        × (string_bytes text.new ≡ string_bytes text.old ++ graph)) }
{
    let hops = router.hops();
    let nodes = settled_nodes(alloc, router, hops)?;
    let links = settled_links(alloc, router, hops)?;
    push_graph(text, direction, label, router.dest(), &nodes, &links)
}

/// Appends the graph of a settled network that shows which way of each node is the first.
pub fn push_settled_ways(
    text: &mut String,
    alloc: Global,
    router: &Router,
    direction: Direction,
) -> Result<(), AllocError>
    ensures { OnOk result ((graph : List ℕ) × IsWaysGraphOf direction router.now graph
        × (string_bytes text.new ≡ string_bytes text.old ++ graph)) }
{
    let hops = router.hops();
    let table = router.all_ways(alloc)?;
    let nodes = settled_nodes(alloc, router, hops)?;
    let links = way_links(alloc, router, hops, &table)?;
    push_graph(text, direction, Label::Plain, router.dest(), &nodes, &links)
}

/// The nodes, in order.
fn settled_nodes(alloc: Global, router: &Router, hops: &[Hop]) -> Result<Vec<DrawnNode>, AllocError>
    requires { length hops.now ≡ router.now.nodes }
    ensures { IfOk result
        (λ nodes. nodes.items ≡ map (settled_node router.now.counts hops.now) (range_with_len 0 router.now.nodes)) }
{
    let counts = router.counts();
    let mut nodes = Vec::new(alloc);
    for x in 0..router.net().nodes() {
        nodes.push(DrawnNode {
            node: x,
            count: counts[x as usize],
            style: style_by_hop(hops[x as usize]),
        })?;
    }
    Ok(nodes)
}

/// The style of a node with this hop.
fn style_by_hop(hop: Hop) -> NodeStyle
    ensures { result ≡ node_style hop }
{
    match hop {
        Hop::Here => NodeStyle::Destination,
        Hop::To(_) => NodeStyle::Plain,
        Hop::CutOff => NodeStyle::CutOff,
    }
}

/// The links, in order.
fn settled_links(alloc: Global, router: &Router, hops: &[Hop]) -> Result<Vec<DrawnLink>, AllocError>
    requires { length hops.now ≡ router.now.nodes }
    ensures { IfOk result (λ links. links.items ≡ map (settled_link hops.now) router.now.links) }
{
    let net = router.net();
    net.network_law();
    let mut links = Vec::new(alloc);
    for (tail, head) in net.links() {
        links.push(DrawnLink {
            tail,
            head,
            style: style_of_link(hops[tail as usize], head),
            back: false,
        })?;
    }
    Ok(links)
}

/// The style of a link to `head` whose tail has this hop.
fn style_of_link(hop: Hop, head: u32) -> LinkStyle
    ensures { result ≡ link_style hop head }
{
    match hop {
        Hop::Here => LinkStyle::Plain,
        Hop::To(next) => {
            if next == head {
                LinkStyle::NextHop
            } else {
                LinkStyle::Plain
            }
        }
        Hop::CutOff => LinkStyle::CutOff,
    }
}

/// The links, in order, where ways are shown.
fn way_links(
    alloc: Global,
    router: &Router,
    hops: &[Hop],
    table: &WayTable,
) -> Result<Vec<DrawnLink>, AllocError>
    requires { length hops.now ≡ router.now.nodes }
    ensures { IfOk result (λ links. links.items ≡ map (way_link hops.now table.now) router.now.links) }
{
    let net = router.net();
    net.network_law();
    let mut links = Vec::new(alloc);
    for (tail, head) in net.links() {
        links.push(DrawnLink {
            tail,
            head,
            style: style_of_way(hops[tail as usize], table.row(tail), head),
            back: false,
        })?;
    }
    Ok(links)
}

/// The style of a link to `head` whose tail has this hop and these ways.
fn style_of_way(hop: Hop, ways: &[u32], head: u32) -> LinkStyle
    ensures { result ≡ way_style hop (slice_get ways.now 0) head }
{
    match hop {
        Hop::Here => LinkStyle::Plain,
        Hop::To(next) => match (is_first_way(ways, head), next == head) {
            (true, true) => LinkStyle::FirstWayToHop,
            (true, false) => LinkStyle::FirstWay,
            (false, true) => LinkStyle::WayToHop,
            (false, false) => LinkStyle::Way,
        },
        Hop::CutOff => LinkStyle::CutOff,
    }
}

/// Whether the first of these ways is `head`.
fn is_first_way(ways: &[u32], head: u32) -> bool
    ensures { result ≡ is_first_of (slice_get ways.now 0) head }
{
    match ways.get(0) {
        Some(way) => *way == head,
        None => false,
    }
}
