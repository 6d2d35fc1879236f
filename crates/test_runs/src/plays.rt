//! Whether a play follows the schedule that is drawn.

use crate::outcomes::tell_outcome;
use crate::tasks::outcome_of;
use crate::telling::{put, put_word, tell};
use fr_command::{Draw, Task};
use fr_core::{Entry, Reply, Target, check_run, play};
use fr_net::{Net, Request, read_line};
use rand_core::SeedableRng;
use rand_core::utils::NextWord;
use rand_pcg::Lcg64Xsh32;
use std::alloc::Global;
use std::fmt::Write as FmtWrite;
use std::sync::Wait;
use std::thread::Threads;

/// Prints whether a play on the network of a line writes the entries of the schedule that is drawn here from the same
/// seed, and then the links and the counts that they lead to. Node 0 is the destination, and all other nodes have links.
pub fn tell_drawn<R: Threads + Wait + Sync + AllocGlobal + Print>(
    rt: &R,
    draw: Draw,
    seed: u64,
    line: &str,
) -> Option<()> {
    let text = text_of_play(rt.alloc(), draw, seed, line)?;
    let outcome = outcome_of(rt, Task::Play(draw), &mut line.as_bytes());
    if outcome.out.as_slice() == text.as_bytes() {
        tell(rt, "as drawn");
    } else {
        tell_outcome(rt, &outcome);
    }
    Some(())
}

/// The text of a play on the network of a line.
fn text_of_play(alloc: Global, draw: Draw, seed: u64, line: &str) -> Option<String> {
    let net = net_on_line(alloc, line)?;
    let entries = entries_on(alloc, draw, seed, &net)?;
    let counts = check_run(alloc, &net, 0, &entries).ok()?;
    let mut text = String::new(alloc);
    for entry in entries.iter() {
        put_word(&mut text, &entry_text(alloc, *entry));
    }
    put_links(&mut text, &links_at(alloc, &net, &counts)?);
    put_counts(&mut text, &counts);
    Some(text)
}

/// The network of a line.
fn net_on_line(alloc: Global, line: &str) -> Option<Net> {
    match read_line(alloc, line.as_bytes()) {
        Ok(Request::Network { nodes, links, .. }) => Net::new(alloc, nodes, &links).ok(),
        _ => None,
    }
}

/// The links as counts leave them, in ascending order: a link points the other way if its ends turned differently often.
fn links_at(alloc: Global, net: &Net, counts: &[u64]) -> Option<Vec<(u32, u32)>> {
    let mut links = Vec::new(alloc);
    for (tail, head) in net.links() {
        let same = counts.get(tail as usize)? == counts.get(head as usize)?;
        links
            .push(if same { (tail, head) } else { (head, tail) })
            .ok()?;
    }
    links.sort().ok()?;
    Some(links)
}

/// Appends the line of links.
fn put_links(text: &mut String, links: &[(u32, u32)]) {
    put_word(text, "links");
    for (tail, head) in links {
        let _ = write!(text, " {tail}>{head}");
    }
    put_word(text, "\n");
}

/// Appends the line of counts.
fn put_counts(text: &mut String, counts: &[u64]) {
    put_word(text, "counts");
    for count in counts {
        let _ = write!(text, " {count}");
    }
    put_word(text, "\n");
}

/// The entries of a play on a network.
fn entries_on(alloc: Global, draw: Draw, seed: u64, net: &Net) -> Option<Vec<Entry>> {
    let schedule = schedule(alloc, draw, seed);
    let targets = targets(alloc, draw, net.nodes());
    play(alloc, net, 0, targets, &schedule).ok()
}

/// The schedule that is drawn here. If an allocation is refused, it is too short, and the play then differs.
fn schedule(alloc: Global, draw: Draw, seed: u64) -> Vec<u32> {
    let mut generator = Lcg64Xsh32::seed_from_u64(seed);
    let mut schedule = Vec::new(alloc);
    for _step in 0..draw.steps {
        let _ = schedule.push(generator.next_word() % draw.workers);
    }
    schedule
}

/// The targets of the workers.
fn targets(alloc: Global, draw: Draw, nodes: u32) -> Vec<Vec<Target>> {
    let mut targets = Vec::new(alloc);
    for _worker in 0..draw.workers {
        let _ = targets.push(turns(alloc, draw.steps, nodes));
    }
    targets
}

/// So many turns of the nodes 1, 2 and so on, and again from the first.
fn turns(alloc: Global, steps: u32, nodes: u32) -> Vec<Target> {
    let mut turns = Vec::new(alloc);
    let others = nodes.saturating_sub(1).max(1);
    for place in 0..steps {
        let _ = turns.push(Target::Turn(place % others + 1));
    }
    turns
}

/// The line of an entry.
fn entry_text(alloc: Global, entry: Entry) -> String {
    let mut text = String::new(alloc);
    put(&mut text, &entry.worker);
    put(&mut text, &entry.node);
    put_reply(&mut text, entry.reply);
    put_word(&mut text, "\n");
    text
}

fn put_reply(text: &mut String, reply: Reply) {
    match reply {
        Reply::Turned { count } => put_number(text, " turned", count),
        Reply::Held { by } => put_number(text, " held", u64::from(by)),
        Reply::Moved { had, count } => {
            put_number(text, " moved", had);
            put(text, &count);
        }
        Reply::Cut => put_word(text, " cut"),
        Reply::Sink => put_word(text, " sink"),
    }
}

fn put_number(text: &mut String, word: &str, number: u64) {
    put_word(text, word);
    put(text, &number);
}
