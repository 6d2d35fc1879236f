//! A play: single steps of workers turn the network of an input, in the order of a drawn schedule.

ghost use Rattle.std.specs.Prelude.{◌≡◌, ◌<◌, List, ℕ, not, replicate, string_bytes, find, IfErr, IfOk};
ghost use Rattle.std.specs.Option.{option_copied};
ghost use Rattle.fr_requests.specs.Requests.{new_network};
ghost use Rattle.fr_core.specs.Played.{IsPlay};
ghost use Rattle.fr_route.specs.Blank.{is_blank as is_blank_line};
ghost use Rattle.fr_route.specs.Refusals.{number_of};
ghost use Rattle.fr_bytes.specs.Lines.{lines_of};
ghost use Rattle.fr_bytes.specs.Bytes.{ReadsInput, ReadsAtMostOneTooMany};
ghost use Rattle.fr_cli.specs.Draws.{drawn};
ghost use Rattle.fr_command.specs.Faults.{IsDrawnPlayFault};
ghost use Rattle.fr_command.specs.Plays.{targets_for, IsRefusal, IsPlayText, IsPlayOf, IsPlayOutput, WritesPlay};

use crate::entries::{push_count, targets_of, text_of_play};
use fr_bytes::{Lines, RunFault, read_input, write_out};
use fr_cli::Draw;
use fr_core::{Entry, play};
use fr_graph::Net;
use fr_requests::{LineFault, Request, read_line};
use fr_route::{Reason, is_blank};
use std::alloc::{AllocError, Global};
use std::io::{Read, Write};

/// Reads the whole input, and plays the schedule of the draw on the network of the first line that is not blank. Writes
/// the entries, one on each line, and then the links and the counts at the end; flushes once; and returns how many
/// entries there are. Each worker goes through the nodes with links, except the destination, in ascending order and
/// again from the first, for at most as many nodes as there are steps.
///
/// If there is no such line, if it is not a network, or if it is refused as the first line of a run would be, only the
/// refusal is written. At most one byte more than [`MAX_BYTES`](crate::MAX_BYTES) is read.
///
/// Fails with `Read` if a read fails, with `TooLong` if the input is longer than the limit, and with `Memory` if an
/// allocation is refused; then nothing was written. Fails with `Write` if a write or the flush fails; then a prefix
/// of the output was written. It never fails with `Start`.
///
/// O(b) for b bytes of input, the cost of [`read_line`] for one line, O(n + m + w s) for w workers and s steps, O(d)
/// for each entry, and the cost of [`Net::turned_by`] at the end.
pub fn play_drawn<R: Read, W: Write>(
    alloc: Global,
    reader: &mut R,
    writer: &mut W,
    draw: Draw,
) -> Result<u64, RunFault>
    // The play of the pseudo-random schedule, to the byte.
    ensures ok { IfOk result (λ count. (bytes : List ℕ)
        × ReadsInput (R.remaining reader.old) (R.remaining reader.new) bytes
        × WritesPlay draw bytes (W.contents writer.old) (W.contents writer.new) count) }
    ensures limit { ReadsAtMostOneTooMany (R.remaining reader.old) (R.remaining reader.new) }
    // After `Write`, a prefix of the output was written. After any other fault, nothing was written. Never `Start`.
    ensures fault { IfErr result (IsDrawnPlayFault draw (R.remaining reader.old) (R.remaining reader.new)
        (W.contents writer.old) (W.contents writer.new)) }
{
    let input = read_input(alloc, reader)?;
    let (text, count) = play_input(alloc, &input, draw)?;
    write_out(writer, text.as_bytes())?;
    Ok(count)
}

/// The text that the play of an input prints, and how many entries it has.
fn play_input(alloc: Global, input: &[u8], draw: Draw) -> Result<(String, u64), AllocError>
    ensures { IfOk result (λ made. IsPlayOutput draw input.now (string_bytes made.0) made.1) }
{
    let Some(line) = first_nonblank_line(input) else {
        return refusal_output(alloc, Reason::NoNetwork);
    };
    match read_line(alloc, line) {
        Ok(Request::Network { nodes, dest, links }) => play_links(alloc, nodes, dest, &links, draw),
        Ok(_) => refusal_output(alloc, Reason::NoNetwork),
        Err(LineFault::NotJson) => refusal_output(alloc, Reason::NotJson),
        Err(LineFault::NotRequest) => refusal_output(alloc, Reason::NotRequest),
        Err(LineFault::Memory) => Err(AllocError),
    }
}

/// The first line of an input that is not blank.
fn first_nonblank_line(input: &[u8]) -> Option<&[u8]>
    ensures { option_copied result ≡ find (λ line. not (is_blank_line line)) (lines_of input.now) }
{
    Lines::new(input).find(|line| !is_blank(line))
}

/// The text for a refusal, without entries.
fn refusal_output(alloc: Global, refusal: Reason) -> Result<(String, u64), AllocError>
    ensures { IfOk result (λ made. IsRefusal (number_of refusal) (string_bytes made.0) made.1) }
{
    let mut text = String::new(alloc);
    push_count(&mut text, "refused ", u64::from(refusal.number()))?;
    text.push('\n')?;
    Ok((text, 0))
}

/// The play on the network of these links, or why the network is refused.
fn play_links(
    alloc: Global,
    nodes: u32,
    dest: u32,
    links: &[(u32, u32)],
    draw: Draw,
) -> Result<(String, u64), AllocError>
    ensures { IfOk result (λ made. IsPlayOf draw (new_network nodes dest links.now) (string_bytes made.0) made.1) }
{
    let net = match Net::new(alloc, nodes, links) {
        Ok(net) => net,
        Err(fault) => return match Reason::of(&fault) {
            Some(refused) => refusal_output(alloc, refused),
            None => Err(AllocError),
        },
    };
    if dest >= nodes {
        return refusal_output(alloc, Reason::NoNode);
    }
    play_net(alloc, &net, dest, draw)
}

/// The play on a network.
fn play_net(alloc: Global, net: &Net, dest: u32, draw: Draw) -> Result<(String, u64), AllocError>
    requires { dest < net.now.nodes }
    ensures { IfOk result (λ made. IsPlayText draw net.now.nodes dest net.now.links (string_bytes made.0) made.1) }
{
    let entries = entries_of(alloc, net, dest, draw)?;
    let text = text_of_play(alloc, net, dest, &entries)?;
    Ok((text, entries.len() as u64))
}

/// The entries of a play on a network: the calls and their replies.
fn entries_of(alloc: Global, net: &Net, dest: u32, draw: Draw) -> Result<Vec<Entry>, AllocError>
    ensures { IfOk result (λ entries. IsPlay net.now.nodes dest net.now.links
        (replicate draw.workers (targets_for net.now.nodes dest net.now.links draw.steps))
        (drawn draw.seed draw.steps draw.workers) entries.items) }
{
    let targets = targets_of(alloc, net, dest, draw)?;
    let schedule = draw.schedule(alloc)?;
    // The schedule names only workers, and a machine accepts these targets. So `play` can fail only for want of memory.
    match play(alloc, net, dest, targets, &schedule) {
        Ok(entries) => Ok(entries),
        Err(_) => Err(AllocError),
    }
}
