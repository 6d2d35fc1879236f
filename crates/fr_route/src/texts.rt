//! The texts of answers. A function whose name begins with `push_` appends to the string. The others empty it and write a
//! whole answer.

ghost use Rattle.std.specs.Prelude.{◌≡◌, ◌<◌, ◌≤◌, ◌++◌, ◌+◌, ◌^◌, ◌∷◌, length, IfOk, OnOk, codes, decimal, string_bytes};
ghost use Rattle.fr_route.specs.Refusals.{number_of};
ghost use Rattle.fr_route.specs.Pushing.{changes_of};
ghost use Rattle.fr_route.specs.Rooms.{Fits};
ghost use Rattle.fr_route.specs.Texts.{counts_text, links_text, hops_text, hop_word};
ghost use Rattle.fr_route.specs.Texts.{no_walk_text, pushes_text, report_text, longest_report, refusal_text};
ghost use Rattle.fr_route.specs.Texts.{list_word, nearest_text, no_nearest_text, node_ways_text, phases_text};
ghost use Rattle.fr_route.specs.Texts.{spaced_links, spaced_lists, spaced_ways, ways_text, ways_word};
ghost use Rattle.fr_route.specs.WayLists.{AreListed, pairs};

use crate::change::Report;
use crate::json::{hop_at, push_nodes};
use crate::refusals::Reason;
use fr_graph::{Links, MAX_NODES};
use fr_tables::Hop;
use fr_ways::{Pushes, TwoPhases, WayTable};
use itoa::Buffer;
use std::alloc::{AllocError, Global};

/// The bytes of a space and a number below 10,000. Nodes and counts are below 10,000, because no count is greater than
/// the number of nodes.
const NUMBER_ROOM: usize = 5;

const _: () = prove!(MAX_NODES < 10_000);

/// Empties a line, takes room for a word, so many numbers and a line end, and writes the word. It is inlined, so that a
/// word is copied as a constant.
#[inline(always)]
pub(crate) fn begin(line: &mut String, word: &str, numbers: usize) -> Result<(), AllocError>
    ensures { OnOk result (string_bytes line.new ≡ word.now) }
{
    let room = numbers.saturating_mul(NUMBER_ROOM).saturating_add(8);
    line.clear();
    line.reserve(room)?;
    line.push_str(word)
}

/// Appends a text and a number. It is inlined, so that the text is copied as a constant.
#[inline(always)]
pub(crate) fn push_text_and_number(
    line: &mut String,
    before: &str,
    number: u64,
    buffer: &mut Buffer,
) -> Result<(), AllocError>
    ensures text { OnOk result (string_bytes line.new ≡ string_bytes line.old ++ (before.now ++ decimal number)) }
    ensures room { Fits line.old line.new result (length before.now + 20) }
{
    line.push_str(before)?;
    push_digits(line, number, buffer)
}

/// Appends a number. The buffer is for the digits, and is reused for each number. A number of one digit, as most counts
/// are, needs no buffer. It is inlined because it is called for each number of a walk.
#[inline(always)]
fn push_digits(line: &mut String, number: u64, buffer: &mut Buffer) -> Result<(), AllocError>
    ensures text { OnOk result (string_bytes line.new ≡ string_bytes line.old ++ decimal number) }
    ensures room { Fits line.old line.new result 20 }
{
    if number < 10 {
        return line.push(char::from(b'0' + number as u8));
    }
    line.push_str(buffer.format(number))
}

/// `links`, and then a space and `tail>head` for each link. Fails with `AllocError` if an allocation is refused. O(b)
/// for b bytes of text.
pub fn links_line(alloc: Global, links: Links<'_>) -> Result<String, AllocError>
    ensures { IfOk result (λ line. string_bytes line ≡ links_text links.entry) }
{
    let mut line = String::new(alloc);
    links_line_into(&mut line, links)?;
    Ok(line)
}

/// Writes the same into this string.
pub(crate) fn links_line_into(line: &mut String, links: Links<'_>) -> Result<(), AllocError>
    ensures { OnOk result (string_bytes line.new ≡ links_text links.entry) }
{
    begin(line, "links", links.len().saturating_mul(2))?;
    push_links(line, links)
}

/// Appends a space and `tail>head` for each link.
fn push_links(line: &mut String, links: Links<'_>) -> Result<(), AllocError>
    ensures { OnOk result (string_bytes line.new ≡ string_bytes line.old ++ spaced_links links.entry) }
{
    let mut buffer = Buffer::new();
    for (tail, head) in links {
        push_text_and_number(line, " ", u64::from(tail), &mut buffer)?;
        push_text_and_number(line, ">", u64::from(head), &mut buffer)?;
    }
    Ok(())
}

/// `counts`, and then a space and the count for each node. Fails with `AllocError` if an allocation is refused. O(b)
/// for b bytes of text.
pub fn counts_line(alloc: Global, counts: &[u64]) -> Result<String, AllocError>
    ensures { IfOk result (λ line. string_bytes line ≡ counts_text counts.now) }
{
    let mut line = String::new(alloc);
    counts_line_into(&mut line, counts)?;
    Ok(line)
}

/// Writes the same into this string.
pub(crate) fn counts_line_into(line: &mut String, counts: &[u64]) -> Result<(), AllocError>
    ensures { OnOk result (string_bytes line.new ≡ counts_text counts.now) }
{
    begin(line, "counts", counts.len())?;
    let mut buffer = Buffer::new();
    for count in counts {
        push_text_and_number(line, " ", *count, &mut buffer)?;
    }
    Ok(())
}

/// Appends a space and the word for a hop: `here`, the number of the next node, or `cut`.
fn push_hop(line: &mut String, hop: Hop, buffer: &mut Buffer) -> Result<(), AllocError>
    ensures { OnOk result (string_bytes line.new ≡ string_bytes line.old ++ (codes " " ++ hop_word hop)) }
{
    match hop {
        Hop::Here => line.push_str(" here"),
        Hop::To(node) => push_text_and_number(line, " ", u64::from(node), buffer),
        Hop::CutOff => line.push_str(" cut"),
    }
}

/// `hops`, and then a space and the word for each hop.
pub(crate) fn hops_line(line: &mut String, hops: &[Hop]) -> Result<(), AllocError>
    ensures { OnOk result (string_bytes line.new ≡ hops_text hops.now) }
{
    begin(line, "hops", hops.len())?;
    let mut buffer = Buffer::new();
    for hop in hops {
        push_hop(line, *hop, &mut buffer)?;
    }
    Ok(())
}

/// Appends `>` and the word for the new hop of a node.
fn push_new_hop(line: &mut String, hop: Hop, buffer: &mut Buffer) -> Result<(), AllocError>
    ensures { OnOk result (string_bytes line.new ≡ string_bytes line.old ++ (codes ">" ++ hop_word hop)) }
{
    match hop {
        Hop::Here => line.push_str(">here"),
        Hop::To(next) => push_text_and_number(line, ">", u64::from(next), buffer),
        Hop::CutOff => line.push_str(">cut"),
    }
}

/// `pushes`, and then a space and `node>hop` for each of these nodes, with its hop in this table.
pub(crate) fn pushes_line(line: &mut String, nodes: &[u32], hops: &[Hop]) -> Result<(), AllocError>
    ensures { OnOk result (string_bytes line.new ≡ pushes_text (changes_of hops.now nodes.now)) }
{
    begin(line, "pushes", nodes.len().saturating_mul(2))?;
    let mut buffer = Buffer::new();
    for node in nodes {
        push_text_and_number(line, " ", u64::from(*node), &mut buffer)?;
        push_new_hop(line, hop_at(hops, *node), &mut buffer)?;
    }
    Ok(())
}

/// The answer for a route from a node that is cut off.
pub(crate) fn no_walk_line(line: &mut String, node: u32) -> Result<(), AllocError>
    ensures { OnOk result (string_bytes line.new ≡ no_walk_text node) }
{
    begin(line, "walk", 1)?;
    push_text_and_number(line, " ", u64::from(node), &mut Buffer::new())?;
    line.push_str(" cut")
}

/// Appends the word for the ways of a node: `here` for the destination, `cut` without a way, or the ways.
fn push_ways(
    line: &mut String,
    home: bool,
    ways: &[u32],
    buffer: &mut Buffer,
) -> Result<(), AllocError>
    ensures { OnOk result (string_bytes line.new ≡ string_bytes line.old ++ ways_word home ways.now) }
{
    if home {
        return line.push_str("here");
    }
    if ways.is_empty() {
        return line.push_str("cut");
    }
    push_nodes(line, ways, buffer)
}

/// Appends a space and the word for the ways of each node.
fn push_table(line: &mut String, dest: u32, table: &WayTable) -> Result<(), AllocError>
    requires { length table.now < 2 ^ 32 }
    ensures { OnOk result (string_bytes line.new ≡ string_bytes line.old ++ spaced_ways dest 0 table.now) }
{
    let mut buffer = Buffer::new();
    for x in 0..table.len() as u32 {
        line.push_str(" ")?;
        push_ways(line, x == dest, table.row(x), &mut buffer)?;
    }
    Ok(())
}

/// `ways`, and then a space and the word for the ways of each node.
#[inline(never)]
pub(crate) fn ways_line(line: &mut String, dest: u32, table: &WayTable) -> Result<(), AllocError>
    requires { length table.now < 2 ^ 32 }
    ensures { OnOk result (string_bytes line.new ≡ ways_text dest table.now) }
{
    begin(line, "ways", table.list().len())?;
    push_table(line, dest, table)
}

/// `ways`, and then a space and the word for these ways of one node. `home` says whether it is the destination.
#[inline(never)]
pub(crate) fn node_ways_line(line: &mut String, home: bool, ways: &[u32]) -> Result<(), AllocError>
    ensures { OnOk result (string_bytes line.new ≡ node_ways_text home ways.now) }
{
    begin(line, "ways ", ways.len())?;
    push_ways(line, home, ways, &mut Buffer::new())
}

/// Appends `>` and the list of a push: its nodes, or `none`.
fn push_list(line: &mut String, list: &[u32], buffer: &mut Buffer) -> Result<(), AllocError>
    ensures { OnOk result (string_bytes line.new ≡ string_bytes line.old ++ (codes ">" ++ list_word list.now)) }
{
    line.push_str(">")?;
    if list.is_empty() {
        return line.push_str("none");
    }
    push_nodes(line, list, buffer)
}

/// Appends a space and `node>list` for each push.
fn push_lists(line: &mut String, pushes: &Pushes, buffer: &mut Buffer) -> Result<(), AllocError>
    requires { AreListed pushes.now }
    ensures { OnOk result (string_bytes line.new ≡ string_bytes line.old ++ spaced_lists (pairs pushes.now)) }
{
    for at in 0..pushes.nodes.len() {
        push_text_and_number(line, " ", u64::from(pushes.nodes[at]), buffer)?;
        push_list(line, pushes.lists.row(at as u32), buffer)?;
    }
    Ok(())
}

/// `phases shrink`, the pushes of the first phase, `grow`, and those of the second.
#[inline(never)]
pub(crate) fn phases_line(line: &mut String, phases: &TwoPhases) -> Result<(), AllocError>
    requires { AreListed phases.now.shrink × AreListed phases.now.grow }
    ensures { OnOk result (string_bytes line.new ≡ phases_text (pairs phases.now.shrink) (pairs phases.now.grow)) }
{
    begin(line, "phases shrink", 0)?;
    let mut buffer = Buffer::new();
    push_lists(line, &phases.shrink, &mut buffer)?;
    line.push_str(" grow")?;
    push_lists(line, &phases.grow, &mut buffer)
}

/// `nearest`, and then a space and the number of each node.
#[inline(never)]
pub(crate) fn nearest_line(line: &mut String, nodes: &[u32]) -> Result<(), AllocError>
    ensures { OnOk result (string_bytes line.new ≡ nearest_text nodes.now) }
{
    begin(line, "nearest", nodes.len())?;
    let mut buffer = Buffer::new();
    for node in nodes {
        push_text_and_number(line, " ", u64::from(*node), &mut buffer)?;
    }
    Ok(())
}

/// The answer for a nearest route from a node that is cut off.
#[inline(never)]
pub(crate) fn no_nearest_line(line: &mut String, node: u32) -> Result<(), AllocError>
    ensures { OnOk result (string_bytes line.new ≡ no_nearest_text node) }
{
    begin(line, "nearest", 1)?;
    push_text_and_number(line, " ", u64::from(node), &mut Buffer::new())?;
    line.push_str(" cut")
}

/// Appends the report of a round: how many turns it took, and how many nodes are cut off.
pub(crate) fn push_report(line: &mut String, report: Report) -> Result<(), AllocError>
    ensures text { OnOk result (string_bytes line.new ≡ string_bytes line.old ++ report_text report.turned report.cut) }
    ensures room { Fits line.old line.new result longest_report }
    ensures short { length (report_text report.turned report.cut) ≤ longest_report }
{
    let mut buffer = Buffer::new();
    line.push_str("turned")?;
    push_text_and_number(line, " ", report.turned, &mut buffer)?;
    push_text_and_number(line, " cut ", report.cut, &mut buffer)
}

/// The answer to a line that is refused.
pub(crate) fn refusal_line(line: &mut String, refusal: Reason) -> Result<(), AllocError>
    ensures { OnOk result (string_bytes line.new ≡ refusal_text (number_of refusal)) }
{
    begin(line, refusal.answer(), 1)
}
