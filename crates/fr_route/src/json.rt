//! The answers in JSON. A function whose name ends in `_object` empties the string and writes a whole answer. These
//! functions are not inlined, so that answers in text do not pay for their local variables. A function whose name begins
//! with `push_` appends.

ghost use Rattle.std.specs.Prelude.{◌≡◌, ◌<◌, ◌≤◌, ◌++◌, ◌+◌, ◌*◌, ◌^◌, List, ℕ, length, slice_get};
ghost use Rattle.std.specs.Prelude.{IfOk, OnOk, codes, decimal, string_bytes, true};
ghost use Rattle.fr_route.specs.Json.{change_json, counts_json, hop_json, pushes_json};
ghost use Rattle.fr_route.specs.Json.{list_json, lists_json, more_json, nearest_json, no_more_json, no_nearest_json};
ghost use Rattle.fr_route.specs.Json.{node_ways_json, phases_json, ways_item, ways_items, ways_json};
ghost use Rattle.fr_route.specs.Listed.{ArePhasesListed};
ghost use Rattle.fr_ways.specs.PushLists.{AreListed};
ghost use Rattle.fr_route.specs.Pushing.{changes_of, hop_in};
ghost use Rattle.fr_route.specs.Json.{hops_json, link_json, links_json, no_walk_json, place_json};
ghost use Rattle.fr_route.specs.Json.{refusal_json, refused_json, report_json, round_json, shown_json, walk_json};
ghost use Rattle.fr_route.specs.Refusals.{number_of, plain_refusal};
ghost use Rattle.fr_route.specs.Rooms.{Fits, lists_size};
ghost use Rattle.fr_route.specs.Separated.{comma_before, listed};

use crate::change::Report;
use crate::listed_phases::ListedPhases;
use crate::refusals::Refusal;
use fr_graph::Links;
use fr_tables::Hop;
use fr_ways::{PushList, WayTable};
use itoa::Buffer;
use std::alloc::AllocError;

/// The bytes of a node or a count with a comma, as a rule.
const NUMBER_ROOM: usize = 5;

/// Empties a line, takes room for a text, so many numbers and an end, and writes the text.
fn begin(line: &mut String, text: &str, numbers: usize) -> Result<(), AllocError>
    ensures { OnOk result (string_bytes line.new ≡ text.now) }
{
    let room = numbers.saturating_mul(NUMBER_ROOM).saturating_add(16);
    line.clear();
    line.reserve(room)?;
    line.push_str(text)
}

/// Appends a number.
fn push_number(line: &mut String, number: u64, buffer: &mut Buffer) -> Result<(), AllocError>
    ensures text { OnOk result (string_bytes line.new ≡ string_bytes line.old ++ decimal number) }
    ensures room { Fits line.old line.new result 20 }
{
    line.push_str(buffer.format(number))
}

/// Appends the number of a node.
fn push_node(line: &mut String, node: u32, buffer: &mut Buffer) -> Result<(), AllocError>
    ensures text { OnOk result (string_bytes line.new ≡ string_bytes line.old ++ decimal node) }
    ensures room { Fits line.old line.new result 10 }
{
    line.push_str(buffer.format(node))
}

/// Appends a hop: `"here"`, the number of the next node, or `"cut"`.
fn push_hop(line: &mut String, hop: Hop, buffer: &mut Buffer) -> Result<(), AllocError>
    ensures text { OnOk result (string_bytes line.new ≡ string_bytes line.old ++ hop_json hop) }
    ensures room { Fits line.old line.new result 10 }
{
    match hop {
        Hop::Here => line.push_str("\"here\""),
        Hop::To(node) => push_node(line, node, buffer),
        Hop::CutOff => line.push_str("\"cut\""),
    }
}

/// Appends a comma, but not before the first item.
fn push_comma(line: &mut String, first: bool) -> Result<(), AllocError>
    ensures text { OnOk result (string_bytes line.new ≡ string_bytes line.old ++ comma_before first) }
    ensures room { Fits line.old line.new result 1 }
{
    if first {
        return Ok(());
    }
    line.push_str(",")
}

/// Appends the numbers of nodes, with commas between them.
pub(crate) fn push_nodes(
    line: &mut String,
    nodes: &[u32],
    buffer: &mut Buffer,
) -> Result<(), AllocError>
    ensures text { OnOk result (string_bytes line.new ≡ string_bytes line.old ++ listed decimal nodes.now) }
    ensures room { Fits line.old line.new result (11 * length nodes.now) }
{
    let mut first = true;
    for node in nodes {
        push_comma(line, first)?;
        push_node(line, *node, buffer)?;
        first = false;
    }
    Ok(())
}

/// Appends a link, after a comma unless it is the first.
fn push_link(
    line: &mut String,
    first: bool,
    link: (u32, u32),
    buffer: &mut Buffer,
) -> Result<(), AllocError>
    ensures { OnOk result (string_bytes line.new ≡ string_bytes line.old ++ (comma_before first ++ link_json link)) }
{
    push_comma(line, first)?;
    line.push_str("[")?;
    push_node(line, link.0, buffer)?;
    line.push_str(",")?;
    push_node(line, link.1, buffer)?;
    line.push_str("]")
}

/// `{"links":[[1,0],[2,1]]}`: the links, each from its tail to its head.
#[inline(never)]
pub(crate) fn links_object(line: &mut String, links: Links<'_>) -> Result<(), AllocError>
    ensures { OnOk result (string_bytes line.new ≡ links_json links.entry) }
{
    begin(line, "{\"links\":[", links.len().saturating_mul(2))?;
    let mut buffer = Buffer::new();
    let mut first = true;
    for link in links {
        push_link(line, first, link, &mut buffer)?;
        first = false;
    }
    line.push_str("]}")
}

/// Appends counts, with commas between them.
fn push_counts(line: &mut String, counts: &[u64]) -> Result<(), AllocError>
    ensures { OnOk result (string_bytes line.new ≡ string_bytes line.old ++ listed decimal counts.now) }
{
    let mut buffer = Buffer::new();
    let mut first = true;
    for count in counts {
        push_comma(line, first)?;
        push_number(line, *count, &mut buffer)?;
        first = false;
    }
    Ok(())
}

/// `{"counts":[0,1,2]}`: the count of each node.
#[inline(never)]
pub(crate) fn counts_object(line: &mut String, counts: &[u64]) -> Result<(), AllocError>
    ensures { OnOk result (string_bytes line.new ≡ counts_json counts.now) }
{
    begin(line, "{\"counts\":[", counts.len())?;
    push_counts(line, counts)?;
    line.push_str("]}")
}

/// Appends hops, with commas between them.
fn push_hops(line: &mut String, hops: &[Hop]) -> Result<(), AllocError>
    ensures { OnOk result (string_bytes line.new ≡ string_bytes line.old ++ listed hop_json hops.now) }
{
    let mut buffer = Buffer::new();
    let mut first = true;
    for hop in hops {
        push_comma(line, first)?;
        push_hop(line, *hop, &mut buffer)?;
        first = false;
    }
    Ok(())
}

/// `{"hops":["here",0,"cut"]}`: the hop of each node.
#[inline(never)]
pub(crate) fn hops_object(line: &mut String, hops: &[Hop]) -> Result<(), AllocError>
    ensures { OnOk result (string_bytes line.new ≡ hops_json hops.now) }
{
    begin(line, "{\"hops\":[", hops.len())?;
    push_hops(line, hops)?;
    line.push_str("]}")
}

/// `{"walk":[3,2,1,0]}`: the nodes of a route.
#[inline(never)]
pub(crate) fn walk_object(line: &mut String, nodes: &[u32]) -> Result<(), AllocError>
    ensures { OnOk result (string_bytes line.new ≡ walk_json nodes.now) }
{
    begin(line, "{\"walk\":[", nodes.len())?;
    push_nodes(line, nodes, &mut Buffer::new())?;
    line.push_str("]}")
}

/// The answer for a route from a node that is cut off.
#[inline(never)]
pub(crate) fn no_walk_object(line: &mut String) -> Result<(), AllocError>
    ensures { OnOk result (string_bytes line.new ≡ no_walk_json) }
{
    begin(line, "{\"walk\":null}", 0)
}

/// Appends the ways of a node: `"here"` for the destination, `"cut"` without a way, or the ways in brackets.
fn push_ways(
    line: &mut String,
    home: bool,
    ways: &[u32],
    buffer: &mut Buffer,
) -> Result<(), AllocError>
    ensures { OnOk result (string_bytes line.new ≡ string_bytes line.old ++ ways_item home ways.now) }
{
    if home {
        return line.push_str("\"here\"");
    }
    if ways.is_empty() {
        return line.push_str("\"cut\"");
    }
    line.push_str("[")?;
    push_nodes(line, ways, buffer)?;
    line.push_str("]")
}

/// Appends the ways of each node, with commas between them.
fn push_table(line: &mut String, dest: u32, table: &WayTable) -> Result<(), AllocError>
    requires { length table.now < 2 ^ 32 }
    ensures { OnOk result (string_bytes line.new ≡ string_bytes line.old ++ ways_items dest 0 true table.now) }
{
    let mut buffer = Buffer::new();
    let mut first = true;
    for x in 0..table.len() as u32 {
        push_comma(line, first)?;
        push_ways(line, x == dest, table.row(x), &mut buffer)?;
        first = false;
    }
    Ok(())
}

/// `{"ways":["here",[0],[0,1],"cut"]}`: the ways of each node.
#[inline(never)]
pub(crate) fn ways_object(line: &mut String, dest: u32, table: &WayTable) -> Result<(), AllocError>
    requires { length table.now < 2 ^ 32 }
    ensures { OnOk result (string_bytes line.new ≡ ways_json dest table.now) }
{
    begin(line, "{\"ways\":[", table.list().len())?;
    push_table(line, dest, table)?;
    line.push_str("]}")
}

/// `{"ways":[0,1]}`: these ways of one node. `home` says whether it is the destination.
#[inline(never)]
pub(crate) fn node_ways_object(
    line: &mut String,
    home: bool,
    ways: &[u32],
) -> Result<(), AllocError>
    ensures { OnOk result (string_bytes line.new ≡ node_ways_json home ways.now) }
{
    begin(line, "{\"ways\":", ways.len())?;
    push_ways(line, home, ways, &mut Buffer::new())?;
    line.push_str("}")
}

/// Appends a node with the list that it gets, after a comma unless it is the first.
fn push_list(
    line: &mut String,
    first: bool,
    node: u32,
    list: &[u32],
    buffer: &mut Buffer,
) -> Result<(), AllocError>
    ensures text { OnOk result
        (string_bytes line.new ≡ string_bytes line.old ++ (comma_before first ++ list_json (node, list.now))) }
    ensures room { Fits line.old line.new result (16 + 11 * length list.now) }
{
    push_comma(line, first)?;
    line.push_str("[")?;
    push_node(line, node, buffer)?;
    line.push_str(",[")?;
    push_nodes(line, list, buffer)?;
    line.push_str("]]")
}

/// Appends the pushes of a phase, with commas between them.
fn push_lists(
    line: &mut String,
    pushes: PushList<'_>,
    buffer: &mut Buffer,
) -> Result<(), AllocError>
    requires { (these : List (ℕ × List ℕ)) × AreListed these pushes }
    ensures text { (these : List (ℕ × List ℕ)) → AreListed these pushes.entry
        → OnOk result (string_bytes line.new ≡ string_bytes line.old ++ listed list_json these) }
    ensures room { (these : List (ℕ × List ℕ)) → AreListed these pushes.entry
        → Fits line.old line.new result (lists_size these) }
{
    let mut first = true;
    for at in 0..pushes.nodes.len() {
        push_list(line, first, pushes.nodes[at], pushes.row(at), buffer)?;
        first = false;
    }
    Ok(())
}

/// Appends the pushes of two phases, up to the end of the object: `[5,[2]],[3,[]]],"grow":[[3,[5,7]]]}`.
fn push_phases(
    line: &mut String,
    phases: ListedPhases<'_>,
    buffer: &mut Buffer,
) -> Result<(), AllocError>
    requires { (shrink grow : List (ℕ × List ℕ)) × ArePhasesListed shrink grow phases }
    ensures text { (shrink grow : List (ℕ × List ℕ)) → ArePhasesListed shrink grow phases.entry
        → OnOk result (string_bytes line.new ≡ string_bytes line.old ++ lists_json shrink grow) }
    ensures room { (shrink grow : List (ℕ × List ℕ)) → ArePhasesListed shrink grow phases.entry
        → Fits line.old line.new result (12 + (lists_size shrink + lists_size grow)) }
{
    push_lists(line, phases.shrink, buffer)?;
    line.push_str("],\"grow\":[")?;
    push_lists(line, phases.grow, buffer)?;
    line.push_str("]}")
}

/// `{"shrink":[[5,[2]],[3,[]]],"grow":[[3,[5,7]]]}`: the pushes of two phases.
#[inline(never)]
pub(crate) fn phases_object(line: &mut String, phases: ListedPhases<'_>) -> Result<(), AllocError>
    requires { (shrink grow : List (ℕ × List ℕ)) × ArePhasesListed shrink grow phases }
    ensures { (shrink grow : List (ℕ × List ℕ)) → ArePhasesListed shrink grow phases.entry
        → OnOk result (string_bytes line.new ≡ phases_json shrink grow) }
{
    begin(line, "{\"shrink\":[", 0)?;
    push_phases(line, phases, &mut Buffer::new())
}

/// `{"nearest":[3,1,0]}`: the nodes of a nearest route.
#[inline(never)]
pub(crate) fn nearest_object(line: &mut String, nodes: &[u32]) -> Result<(), AllocError>
    ensures { OnOk result (string_bytes line.new ≡ nearest_json nodes.now) }
{
    begin(line, "{\"nearest\":[", nodes.len())?;
    push_nodes(line, nodes, &mut Buffer::new())?;
    line.push_str("]}")
}

/// The answer for a nearest route from a node that is cut off.
#[inline(never)]
pub(crate) fn no_nearest_object(line: &mut String) -> Result<(), AllocError>
    ensures { OnOk result (string_bytes line.new ≡ no_nearest_json) }
{
    begin(line, "{\"nearest\":null}", 0)
}

/// The hop of a number. A number that is not a node is cut off.
pub(crate) fn hop_at(hops: &[Hop], x: u32) -> Hop
    ensures { result ≡ hop_in (slice_get hops.now x) }
{
    match hops.get(x as usize) {
        Some(hop) => *hop,
        None => Hop::CutOff,
    }
}

/// Appends a number with its hop, after a comma unless it is the first.
fn push_node_hop(
    line: &mut String,
    first: bool,
    change: (u32, Hop),
    buffer: &mut Buffer,
) -> Result<(), AllocError>
    ensures text { OnOk result
        (string_bytes line.new ≡ string_bytes line.old ++ (comma_before first ++ change_json change)) }
    ensures room { Fits line.old line.new result 24 }
{
    push_comma(line, first)?;
    line.push_str("[")?;
    push_node(line, change.0, buffer)?;
    line.push_str(",")?;
    push_hop(line, change.1, buffer)?;
    line.push_str("]")
}

/// Appends each changed number with its hop in this table, with commas between them.
fn push_changes(
    line: &mut String,
    changed: &[u32],
    hops: &[Hop],
    buffer: &mut Buffer,
) -> Result<(), AllocError>
    ensures text { OnOk result
        (string_bytes line.new ≡ string_bytes line.old ++ listed change_json (changes_of hops.now changed.now)) }
    ensures room { Fits line.old line.new result (24 * length changed.now) }
{
    let mut first = true;
    for x in changed {
        push_node_hop(line, first, (*x, hop_at(hops, *x)), buffer)?;
        first = false;
    }
    Ok(())
}

/// `{"pushes":[[3,2],[4,"cut"]]}`: each of these nodes with its hop in this table.
#[inline(never)]
pub(crate) fn pushes_object(
    line: &mut String,
    nodes: &[u32],
    hops: &[Hop],
) -> Result<(), AllocError>
    ensures { OnOk result (string_bytes line.new ≡ pushes_json (changes_of hops.now nodes.now)) }
{
    begin(line, "{\"pushes\":[", nodes.len().saturating_mul(3))?;
    push_changes(line, nodes, hops, &mut Buffer::new())?;
    line.push_str("]}")
}

/// Appends the beginning of an object: how many turns a round took, and how many nodes are cut off.
fn push_round(line: &mut String, report: Report, buffer: &mut Buffer) -> Result<(), AllocError>
    ensures text { OnOk result (string_bytes line.new ≡ string_bytes line.old ++ round_json report.turned report.cut) }
    ensures room { Fits line.old line.new result 61 }
{
    line.push_str("{\"turned\":")?;
    push_number(line, report.turned, buffer)?;
    line.push_str(",\"cut_off\":")?;
    push_number(line, report.cut, buffer)?;
    Ok(())
}

/// Appends the report of a round up to the changed numbers, each with its hop in this table.
#[inline(always)]
fn push_report_front(
    line: &mut String,
    report: Report,
    changed: &[u32],
    hops: &[Hop],
    buffer: &mut Buffer,
) -> Result<(), AllocError>
    ensures text { OnOk result
        ((end : List ℕ) → string_bytes line.new ++ end
        ≡ string_bytes line.old ++ report_json report.turned report.cut (changes_of hops.now changed.now) end) }
    ensures room { Fits line.old line.new result (73 + 24 * length changed.now) }
{
    push_round(line, report, buffer)?;
    line.push_str(",\"changed\":[")?;
    push_changes(line, changed, hops, buffer)
}

/// Appends the report of a round, with the numbers whose hop has changed, and their hops in this table:
/// `{"turned":1,"cut_off":0,"changed":[[3,2],[1,3]]}`.
#[inline(never)]
pub(crate) fn push_report_object(
    line: &mut String,
    report: Report,
    changed: &[u32],
    hops: &[Hop],
) -> Result<(), AllocError>
    ensures text { OnOk result
        (string_bytes line.new ≡ string_bytes line.old
        ++ report_json report.turned report.cut (changes_of hops.now changed.now) no_more_json) }
    ensures room { Fits line.old line.new result (80 + 24 * length changed.now) }
{
    push_report_front(line, report, changed, hops, &mut Buffer::new())?;
    line.push_str("]}")
}

/// Appends the same report with the pushes of two phases:
/// `{"turned":1,"cut_off":0,"changed":[[3,2],[1,3]],"shrink":[[3,[]]],"grow":[[1,[3]],[3,[2]]]}`.
#[inline(never)]
pub(crate) fn push_report_with_ways(
    line: &mut String,
    report: Report,
    changed: &[u32],
    hops: &[Hop],
    phases: ListedPhases<'_>,
) -> Result<(), AllocError>
    requires { (shrink grow : List (ℕ × List ℕ)) × ArePhasesListed shrink grow phases }
    ensures text { (shrink grow : List (ℕ × List ℕ)) → ArePhasesListed shrink grow phases.entry
        → OnOk result
        (string_bytes line.new ≡ string_bytes line.old
        ++ report_json report.turned report.cut (changes_of hops.now changed.now) (more_json shrink grow)) }
    ensures room { (shrink grow : List (ℕ × List ℕ)) → ArePhasesListed shrink grow phases.entry
        → Fits line.old line.new result (100 + 24 * length changed.now + (lists_size shrink + lists_size grow)) }
{
    let mut buffer = Buffer::new();
    push_report_front(line, report, changed, hops, &mut buffer)?;
    line.push_str("],\"shrink\":[")?;
    push_phases(line, phases, &mut buffer)
}

/// The answer to a line that is refused: `{"refused":7,"fault":"cycle","nodes":[0,4,3,2,0],"line":12}`, with
/// `"edit":1` before `"line"` for a batch.
#[inline(never)]
pub(crate) fn refusal_object(
    line: &mut String,
    refusal: &Refusal<'_>,
    number: u64,
) -> Result<(), AllocError>
    ensures { OnOk result (string_bytes line.new ≡ refusal_json (plain_refusal refusal.now) number) }
{
    let mut buffer = Buffer::new();
    begin_refusal(line, refusal, &mut buffer)?;
    push_fault_nodes(line, refusal, &mut buffer)?;
    line.push_str(",\"line\":")?;
    push_number(line, number, &mut buffer)?;
    line.push_str("}")
}

/// Empties a line, takes room for a refusal, and writes the number and the name of the fault.
fn begin_refusal(
    line: &mut String,
    refusal: &Refusal<'_>,
    buffer: &mut Buffer,
) -> Result<(), AllocError>
    ensures { OnOk result (string_bytes line.new ≡ refused_json (number_of refusal.now.reason)) }
{
    begin(
        line,
        "{\"refused\":",
        refusal.nodes.len().saturating_add(16),
    )?;
    push_number(line, u64::from(refusal.reason.number()), buffer)?;
    line.push_str(",\"fault\":\"")?;
    line.push_str(refusal.reason.name())
}

/// Appends the nodes that show the fault, and the place of the refused edit of a batch.
fn push_fault_nodes(
    line: &mut String,
    refusal: &Refusal<'_>,
    buffer: &mut Buffer,
) -> Result<(), AllocError>
    ensures { OnOk result
        (string_bytes line.new ≡ string_bytes line.old ++ shown_json refusal.now.nodes.now refusal.now.edit) }
{
    line.push_str("\",\"nodes\":[")?;
    push_nodes(line, refusal.nodes, buffer)?;
    push_edit_place(line, refusal.edit, buffer)?;
    Ok(())
}

/// Appends the end of the nodes, and the place of the refused edit of a batch.
fn push_edit_place(
    line: &mut String,
    edit: Option<usize>,
    buffer: &mut Buffer,
) -> Result<(), AllocError>
    ensures { OnOk result (string_bytes line.new ≡ string_bytes line.old ++ (codes "]" ++ place_json edit)) }
{
    let Some(at) = edit else {
        return line.push_str("]");
    };
    line.push_str("],\"edit\":")?;
    push_number(line, at as u64, buffer)
}
