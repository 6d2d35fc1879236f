//! What a round changed, as lines of a story.

ghost use Rattle.std.specs.Prelude.{◌≡◌, ◌++◌, IfOk, OnOk, codes, decimal, slice_index_or, string_bytes};
ghost use Rattle.std.specs.List.{flat_map, list_any, range_with_len};
ghost use Rattle.fr_graph.specs.Rows.{has_link as has_link_of};
ghost use Rattle.fr_route.specs.Texts.{hop_word};
ghost use Rattle.fr_tables.specs.declared.hop.Hop.TheVariants.{CutOff};
ghost use Rattle.revdot.specs.Changes.{LinksFollow, changes_text, counted_line, gone_links as gone_links_of};
ghost use Rattle.revdot.specs.Changes.{leads_to as leads_to_of, links_line, new_links as new_links_of, of_node};
ghost use Rattle.revdot.specs.Changes.{colon_number, listed_line, new_ways, pushes_line, spaced_counts, spaced_pushes};

use crate::links::push_links;
use fr_graph::{First, Net};
use fr_route::Hop;
use fr_ways::WayTable;
use std::alloc::{AllocError, Global};
use std::fmt::Write;

/// Appends the links that are gone, the new ones, and the nodes that turned, each with its count.
pub fn push_changes(
    story: &mut String,
    alloc: Global,
    before: &Net,
    after: &Net,
    counts: &[u64],
) -> Result<(), AllocError>
    ensures { OnOk result (string_bytes story.new
        ≡ string_bytes story.old ++ changes_text before.now.links after.now.links counts.now) }
{
    push_links_line(story, "gone", &gone_links(alloc, before, after)?)?;
    push_links_line(story, "new", &new_links(alloc, before, after)?)?;
    push_counted(story, counts)
}

/// The law of what a round changed: the links after it follow from this and from the links before it. The function does
/// nothing; call it where a proof needs the law.
pub fn follow_law(before: &Net, after: &Net)
    ensures { LinksFollow before.now.links after.now.links }
{
    before.network_law();
    after.network_law();
}

/// The links before a round between nodes that no link joins after it.
fn gone_links(alloc: Global, before: &Net, after: &Net) -> Result<Vec<(u32, u32)>, AllocError>
    ensures { IfOk result (λ links. links.items ≡ gone_links_of before.now.links after.now.links) }
{
    let mut links = Vec::new(alloc);
    for (tail, head) in before.links() {
        if !has_link(after, tail, head) && !has_link(after, head, tail) {
            links.push((tail, head))?;
        }
    }
    Ok(links)
}

/// The links after a round that were not there before it, or pointed the other way.
fn new_links(alloc: Global, before: &Net, after: &Net) -> Result<Vec<(u32, u32)>, AllocError>
    ensures { IfOk result (λ links. links.items ≡ new_links_of before.now.links after.now.links) }
{
    let mut links = Vec::new(alloc);
    for (tail, head) in after.links() {
        if !has_link(before, tail, head) {
            links.push((tail, head))?;
        }
    }
    Ok(links)
}

/// Whether a link points from `u` to `v`. It reads the row of `u`.
fn has_link(net: &Net, u: u32, v: u32) -> bool
    ensures { result ≡ has_link_of net.now.links u v }
{
    if u >= net.nodes() {
        return false;
    }
    has_link_to(net.row(u), v)
}

/// Whether a row has a link to `v`.
fn has_link_to(row: &[(u16, First)], v: u32) -> bool
    ensures { result ≡ list_any (leads_to_of v) row.now }
{
    for entry in row {
        if leads_to(*entry, v) {
            return true;
        }
    }
    false
}

/// Whether this entry of a row is that of a link to `v`.
fn leads_to(entry: (u16, First), v: u32) -> bool
    ensures { result ≡ leads_to_of v entry }
{
    match entry.1 {
        First::Outward => u32::from(entry.0) == v,
        First::Inward => false,
    }
}

/// Appends a line: a word and these links.
fn push_links_line(story: &mut String, word: &str, links: &[(u32, u32)]) -> Result<(), AllocError>
    ensures { OnOk result (string_bytes story.new ≡ string_bytes story.old ++ links_line word.now links.now) }
{
    story.push_str(word)?;
    push_links(story, links)?;
    story.push_str("\n")
}

/// Appends the nodes that turned, each with its count.
fn push_counted(story: &mut String, counts: &[u64]) -> Result<(), AllocError>
    ensures { OnOk result (string_bytes story.new ≡ string_bytes story.old ++ counted_line counts.now) }
{
    story.push_str("counted")?;
    push_counts(story, counts)?;
    story.push_str("\n")
}

fn push_counts(story: &mut String, counts: &[u64]) -> Result<(), AllocError>
    ensures { OnOk result (string_bytes story.new ≡ string_bytes story.old ++ spaced_counts 0 counts.now) }
{
    for x in 0..counts.len() {
        if counts[x] != 0 {
            write!(story, " {x}:{}", counts[x])?;
        }
    }
    Ok(())
}

/// Appends the nodes whose ways differ in two tables, each with its new ways. The network has this many nodes.
pub fn push_listed(
    story: &mut String,
    nodes: u32,
    old: &WayTable,
    new: &WayTable,
) -> Result<(), AllocError>
    ensures { OnOk result (string_bytes story.new ≡ string_bytes story.old ++ listed_line nodes old.now new.now) }
{
    story.push_str("listed")?;
    push_all_new_ways(story, nodes, old, new)?;
    story.push_str("\n")
}

fn push_all_new_ways(
    story: &mut String,
    nodes: u32,
    old: &WayTable,
    new: &WayTable,
) -> Result<(), AllocError>
    ensures { OnOk result (string_bytes story.new
        ≡ string_bytes story.old ++ flat_map (new_ways old.now new.now) (range_with_len 0 nodes)) }
{
    for x in 0..nodes {
        push_new_ways(story, x, old, new)?;
    }
    Ok(())
}

/// Appends a node and its new ways, if they differ from its old ones.
fn push_new_ways(
    story: &mut String,
    x: u32,
    old: &WayTable,
    new: &WayTable,
) -> Result<(), AllocError>
    ensures { OnOk result (string_bytes story.new ≡ string_bytes story.old ++ new_ways old.now new.now x) }
{
    let row = new.row(x);
    if old.row(x) == row {
        return Ok(());
    }
    write!(story, " {x}")?;
    push_row(story, row)
}

fn push_row(story: &mut String, row: &[u32]) -> Result<(), AllocError>
    ensures { OnOk result (string_bytes story.new ≡ string_bytes story.old ++ flat_map colon_number row.now) }
{
    for way in row {
        write!(story, ":{}", *way)?;
    }
    Ok(())
}

/// Appends the nodes that get new hops, each with its hop.
pub fn push_pushes(story: &mut String, hops: &[Hop], nodes: &[u32]) -> Result<(), AllocError>
    ensures { OnOk result (string_bytes story.new ≡ string_bytes story.old ++ pushes_line hops.now nodes.now) }
{
    story.push_str("pushes")?;
    push_hops(story, hops, nodes)?;
    story.push_str("\n")
}

fn push_hops(story: &mut String, hops: &[Hop], nodes: &[u32]) -> Result<(), AllocError>
    ensures { OnOk result (string_bytes story.new ≡ string_bytes story.old ++ spaced_pushes hops.now nodes.now) }
{
    for node in nodes {
        push_hop(story, *node, hop_of(hops, *node))?;
    }
    Ok(())
}

/// The hop of a node. A node that the network does not have sends to nobody.
fn hop_of(hops: &[Hop], node: u32) -> Hop
    ensures { result ≡ slice_index_or hops.now node CutOff }
{
    match hops.get(node as usize) {
        Some(hop) => *hop,
        None => Hop::CutOff,
    }
}

fn push_hop(story: &mut String, node: u32, hop: Hop) -> Result<(), AllocError>
    ensures { OnOk result (string_bytes story.new ≡ string_bytes story.old ++ of_node node (hop_word hop)) }
{
    match hop {
        Hop::Here => write!(story, " {node}:here"),
        Hop::To(next) => write!(story, " {node}:{next}"),
        Hop::CutOff => write!(story, " {node}:cut"),
    }
}
