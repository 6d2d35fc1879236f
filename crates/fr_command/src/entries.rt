//! The targets of a play, and the text of its result.

ghost use Rattle.std.specs.Prelude.{◌≡◌, ◌++◌, ℕ, List, decimal, string_bytes, take, map, replicate, IfOk, OnOk};
ghost use Rattle.std.specs.List.{repeat};
ghost use Rattle.fr_core.specs.Targets.{lists_of};
ghost use Rattle.fr_core.specs.Runs.{IsRunTo};
ghost use Rattle.fr_core.specs.declared.targets.Target.TheVariants.{Turn};
ghost use Rattle.fr_route.specs.Texts.{counts_text, links_text};
ghost use Rattle.fr_command.specs.Plays.{turnable_nodes as turnable_nodes_of, targets_for, line_of};
ghost use Rattle.fr_command.specs.Plays.{entry_text, reply_text, entries_text, end_text as end_text_of};

use fr_cli::Draw;
use fr_core::{Entry, Reply, Target, check_run};
use fr_graph::Net;
use fr_route::{counts_line, links_line};
use std::alloc::{AllocError, Global};
use std::fmt::Write;

/// The targets of each worker of a play.
pub(crate) fn targets_of(
    alloc: Global,
    net: &Net,
    dest: u32,
    draw: Draw,
) -> Result<Vec<Vec<Target>>, AllocError>
    ensures { IfOk result (λ targets. lists_of targets.items
        ≡ replicate draw.workers (targets_for net.now.nodes dest net.now.links draw.steps)) }
{
    let nodes = turnable_nodes(alloc, net, dest)?;
    let mut targets = Vec::with_capacity(alloc, draw.workers as usize)?;
    for _worker in 0..draw.workers {
        targets.push(cyclic_targets(alloc, &nodes, draw.steps as usize)?)?;
    }
    Ok(targets)
}

/// The nodes with links, except the destination, in ascending order.
fn turnable_nodes(alloc: Global, net: &Net, dest: u32) -> Result<Vec<u32>, AllocError>
    ensures { IfOk result (λ nodes. nodes.items ≡ turnable_nodes_of net.now.nodes dest net.now.links) }
{
    let mut nodes = Vec::new(alloc);
    for x in 0..net.nodes() {
        if x != dest && net.degree(x) > 0 {
            nodes.push(x)?;
        }
    }
    Ok(nodes)
}

/// `most` turns: one of each of these nodes, and again from the first one. None if there are no nodes.
fn cyclic_targets(alloc: Global, nodes: &[u32], most: usize) -> Result<Vec<Target>, AllocError>
    ensures { IfOk result (λ turns. turns.items ≡ map Turn (take most (repeat most nodes.now))) }
{
    let mut turns = Vec::new(alloc);
    if nodes.is_empty() {
        return Ok(turns);
    }
    for place in 0..most {
        turns.push(Target::Turn(nodes[place % nodes.len()]))?;
    }
    Ok(turns)
}

/// The entries of a play, one on each line, and then the links and the counts at the end.
pub(crate) fn text_of_play(
    alloc: Global,
    net: &Net,
    dest: u32,
    entries: &[Entry],
) -> Result<String, AllocError>
    ensures { IfOk result (λ text. (counts : List ℕ) × IsRunTo net.now.nodes dest net.now.links entries.now counts
        × (string_bytes text ≡ end_text_of net.now.links entries.now counts)) }
{
    let Ok(counts) = check_run(alloc, net, dest, entries) else {
        return Err(AllocError);
    };
    let Ok(end) = net.turned_by(alloc, &counts) else {
        return Err(AllocError);
    };
    play_lines(alloc, entries, &end, &counts)
}

/// The entries, one on each line, and then the links of this network and these counts.
fn play_lines(
    alloc: Global,
    entries: &[Entry],
    end: &Net,
    counts: &[u64],
) -> Result<String, AllocError>
    ensures { IfOk result (λ text. string_bytes text ≡ entries_text entries.now
        ++ (line_of (links_text end.now.links) ++ line_of (counts_text counts.now))) }
{
    let mut text = String::new(alloc);
    push_entries(&mut text, entries)?;
    push_links(&mut text, alloc, end)?;
    push_line(&mut text, &counts_line(alloc, counts)?)?;
    Ok(text)
}

/// Appends the line with a network's links.
fn push_links(text: &mut String, alloc: Global, net: &Net) -> Result<(), AllocError>
    ensures { OnOk result (string_bytes text.new ≡ string_bytes text.old ++ line_of (links_text net.now.links)) }
{
    push_line(text, &links_line(alloc, net.links())?)
}

/// Appends a line and a newline.
pub(crate) fn push_line(text: &mut String, line: &str) -> Result<(), AllocError>
    ensures { OnOk result (string_bytes text.new ≡ string_bytes text.old ++ line_of line.now) }
{
    text.push_str(line)?;
    text.push('\n')
}

/// Appends the entries, one on each line.
fn push_entries(text: &mut String, entries: &[Entry]) -> Result<(), AllocError>
    ensures { OnOk result (string_bytes text.new ≡ string_bytes text.old ++ entries_text entries.now) }
{
    for entry in entries {
        push_entry(text, *entry)?;
        text.push('\n')?;
    }
    Ok(())
}

/// Appends an entry: the worker, the node, and the reply to the call.
fn push_entry(text: &mut String, entry: Entry) -> Result<(), AllocError>
    ensures { OnOk result (string_bytes text.new ≡ string_bytes text.old ++ entry_text entry) }
{
    let worker = entry.worker;
    let node = entry.node;
    write!(text, "{worker} {node} ")?;
    push_reply(text, entry.reply)
}

/// Appends the reply to a call.
fn push_reply(text: &mut String, reply: Reply) -> Result<(), AllocError>
    ensures { OnOk result (string_bytes text.new ≡ string_bytes text.old ++ reply_text reply) }
{
    match reply {
        Reply::Turned { count } => push_count(text, "turned ", count),
        Reply::Held { by } => push_count(text, "held ", u64::from(by)),
        Reply::Moved { had, count } => {
            push_count(text, "moved ", had)?;
            push_count(text, " ", count)
        }
        Reply::Cut => text.push_str("cut"),
        Reply::Sink => text.push_str("sink"),
    }
}

/// Appends a word and a number.
pub(crate) fn push_count(text: &mut String, word: &str, count: u64) -> Result<(), AllocError>
    ensures { OnOk result (string_bytes text.new ≡ string_bytes text.old ++ (word.now ++ decimal count)) }
{
    text.push_str(word)?;
    write!(text, "{count}")
}
