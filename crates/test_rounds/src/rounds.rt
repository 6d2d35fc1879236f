//! Rounds of two or three workers, whose calls are in the case.

ghost use Rattle.std.specs.Prelude.{◌≡◌, ◌≤◌, ◌<◌, length, IfOk, IfSome, vec_len};
ghost use Rattle.std.specs.List.{AllByRecursion as Each};
ghost use Rattle.fr_round.specs.Knowledge.{IsOwn};
ghost use Rattle.fr_round.specs.Opening.{KnowsNothing};

use crate::answers::Answer;
use crate::fault::Fault;
use crate::values::{items, named, network, number, small_number, word};
use fr_core::{Reply, Target};
use fr_net::Net;
use fr_round::{Closed, OpenFault, OpenWhy, Refusal, Round, Worker};
use serde_json::Value;
use std::alloc::{AllocError, Global};

/// What a round refuses whose destination is node 0, and whose node 2 has no link, while there is no node 3.
const REFUSED: [Target; 5] = [
    Target::Turn(0),
    Target::Turn(2),
    Target::Turn(3),
    Target::Look(2),
    Target::Look(3),
];

/// Threads share an open round, and a worker may go to one of them.
fn is_shared<T: Sync>(_value: &T) {}

fn is_sent<T: Send>(_value: &T) {}

/// Which of two workers are given back, and in which order.
#[derive(Clone, Copy)]
enum Back {
    Both,
    Swapped,
    Second,
    None,
}

/// A round and its workers.
pub fn opened(
    alloc: Global,
    net: Net,
    dest: u32,
    count: u32,
) -> Result<(Round, Vec<Worker>), OpenFault>
    ensures own { IfOk result (λ r. Each (IsOwn r.0) r.1.items) }
    ensures fresh { IfOk result (λ r. Each (KnowsNothing r.0.setup) r.1.items) }
    ensures workers { IfOk result (λ r. r.0.setup.workers ≡ count) }
    ensures all { IfOk result (λ r. vec_len r.1 ≡ count) }
{
    match Round::open(alloc, net, dest, count) {
        Ok(opened) => Ok(opened),
        Err(fault) => Err(fault),
    }
}

/// The last of some workers of a round.
fn last_of(round: &Round, workers: &mut Vec<Worker>) -> Result<Worker, Fault>
    requires { Each (IsOwn round.now) workers.old.items }
    ensures own { IfOk result (IsOwn round.now) }
    ensures others { Each (IsOwn round.now) workers.new.items }
{
    match workers.pop() {
        Some(worker) => Ok(worker),
        None => Err(Fault::Memory),
    }
}

/// The last two of some workers of a round.
fn two_of(round: &Round, workers: &mut Vec<Worker>) -> Result<(Worker, Worker), Fault>
    requires { Each (IsOwn round.now) workers.old.items }
    ensures { IfOk result (λ two. IsOwn round.now two.0 × IsOwn round.now two.1) }
{
    let b = last_of(round, workers)?;
    let a = last_of(round, workers)?;
    Ok((a, b))
}

/// The last three of some workers of a round.
fn three_of(round: &Round, workers: &mut Vec<Worker>) -> Result<((Worker, Worker), Worker), Fault>
    requires { Each (IsOwn round.now) workers.old.items }
    ensures two { IfOk result (λ three. IsOwn round.now three.0.0 × IsOwn round.now three.0.1) }
    ensures third { IfOk result (λ three. IsOwn round.now three.1) }
{
    let third = last_of(round, workers)?;
    let two = two_of(round, workers)?;
    Ok((two, third))
}

/// A round with destination 0, and its two workers by number.
pub fn opened_by_two(alloc: Global, net: Net) -> Result<(Round, Worker, Worker), Fault>
    ensures own { IfOk result (λ r. IsOwn r.0 r.1 × IsOwn r.0 r.2) }
    ensures workers { IfOk result (λ r. r.0.setup.workers ≡ 2) }
{
    let (round, mut workers) = opened(alloc, net, 0, 2)?;
    let (a, b) = two_of(&round, &mut workers)?;
    Ok((round, a, b))
}

/// A round with destination 0, and its three workers by number.
pub fn opened_by_three(alloc: Global, net: Net) -> Result<(Round, (Worker, Worker), Worker), Fault>
    ensures two { IfOk result (λ r. IsOwn r.0 r.1.0 × IsOwn r.0 r.1.1) }
    ensures third { IfOk result (λ r. IsOwn r.0 r.2) }
    ensures workers { IfOk result (λ r. r.0.setup.workers ≡ 3) }
{
    let (round, mut workers) = opened(alloc, net, 0, 3)?;
    let (two, third) = three_of(&round, &mut workers)?;
    Ok((round, two, third))
}

/// `["open", nodes, links, destination, workers]`: the state of an open round, or why it is not opened and which links
/// are given back.
pub fn open(alloc: Global, text: &mut Answer, asked: &[Value]) -> Result<(), Fault> {
    let [nodes, links, dest, workers] = asked else {
        return Err(Fault::NoCase);
    };
    let (dest, count) = (small_number(dest)?, small_number(workers)?);
    let net = network(alloc, nodes, links)?;
    match opened(alloc, net, dest, count) {
        Ok((round, workers)) => put_round(text, &round, &workers),
        Err(fault) => put_fault(alloc, text, &fault),
    }
    Ok(())
}

fn put_fault(alloc: Global, text: &mut Answer, fault: &OpenFault) {
    text.put("", &fault.why);
    text.say(", ");
    text.put_links(alloc, &fault.net);
}

/// Appends the state of an open round and of each of its workers.
fn put_round(text: &mut Answer, round: &Round, workers: &[Worker])
    requires { Each (IsOwn round.now) workers.now }
{
    is_shared(round);
    text.put("destination ", &round.dest());
    text.put(", nodes ", &round.net().nodes());
    text.put(", workers ", &round.workers());
    for worker in workers {
        put_worker(text, round, worker);
    }
}

/// Appends the number of a worker, its turns, and the count of each node that it has seen.
fn put_worker(text: &mut Answer, round: &Round, worker: &Worker)
    requires { IsOwn round.now worker.now }
{
    is_sent(worker);
    text.put("; worker ", &worker.number());
    text.put(" turned ", &worker.turned());
    text.say(" and saw");
    for x in 0..round.net().nodes() {
        text.put(" ", &worker.seen(x));
    }
}

/// The workers that a case gives back.
fn who_comes(value: &Value) -> Result<Back, Fault> {
    let table = [
        ("both", Back::Both),
        ("swapped", Back::Swapped),
        ("second", Back::Second),
        ("none", Back::None),
    ];
    named(word(value)?, &table)
}

/// What a worker does: it makes a call, or returns which count of a node it has seen.
#[derive(Clone, Copy)]
enum Deed {
    Call(Target),
    Seen(u32),
}

/// `["calls", nodes, links, [[worker, "turn", "look" or "seen", node], ..], back]`: the replies, and the result of
/// closing the round.
pub fn calls(alloc: Global, text: &mut Answer, asked: &[Value]) -> Result<(), Fault> {
    let [nodes, links, calls, handed] = asked else {
        return Err(Fault::NoCase);
    };
    let handed = who_comes(handed)?;
    let calls = calls_in(alloc, calls)?;
    let (round, mut a, mut b) = opened_by_two(alloc, network(alloc, nodes, links)?)?;
    put_replies(text, &round, &mut a, &mut b, &calls);
    put_closed(text, &closed(alloc, round, a, b, handed)?);
    Ok(())
}

/// `["one worker", nodes, links, ["turn", "look" or "seen", node], ..]`: the replies to the only worker of a round, and
/// the result of closing it.
pub fn one_worker(alloc: Global, text: &mut Answer, asked: &[Value]) -> Result<(), Fault> {
    let [nodes, links, calls @ ..] = asked else {
        return Err(Fault::NoCase);
    };
    let deeds = deeds_in(alloc, calls)?;
    let (round, mut workers) = opened(alloc, network(alloc, nodes, links)?, 0, 1)?;
    let mut worker = last_of(&round, &mut workers)?;
    put_deeds(text, &round, &mut worker, &deeds);
    put_closed(text, &round.close(vec![in alloc; worker]?));
    Ok(())
}

/// What the only worker does.
fn deeds_in(alloc: Global, given: &[Value]) -> Result<Vec<Deed>, Fault> {
    let mut deeds = Vec::new(alloc);
    for value in given {
        deeds.push(deed_in(items(value)?)?)?;
    }
    Ok(deeds)
}

/// Makes a worker do all of these, and appends each result.
fn put_deeds(text: &mut Answer, round: &Round, worker: &mut Worker, deeds: &[Deed])
    requires { IsOwn round.now worker.old }
    ensures { IsOwn round.now worker.new }
{
    for deed in deeds {
        put_deed(text, round, worker, *deed);
    }
}

/// The calls of a list, each with its worker.
fn calls_in(alloc: Global, value: &Value) -> Result<Vec<(u64, Deed)>, Fault> {
    let mut calls = Vec::new(alloc);
    for value in items(value)? {
        calls.push(call(value)?)?;
    }
    Ok(calls)
}

/// Makes the calls, and appends each reply.
fn put_replies(
    text: &mut Answer,
    round: &Round,
    a: &mut Worker,
    b: &mut Worker,
    calls: &[(u64, Deed)],
)
    requires { IsOwn round.now a.old × IsOwn round.now b.old }
    ensures { IsOwn round.now a.new × IsOwn round.now b.new }
{
    for (worker, deed) in calls {
        if *worker == 0 {
            put_deed(text, round, a, *deed);
        } else {
            put_deed(text, round, b, *deed);
        }
    }
}

/// `["refused", times]`: how many calls were refused when a worker made each of [`REFUSED`] so many times, and the
/// result of closing the round. checks/counts/check counts what they cost.
pub fn refused(alloc: Global, text: &mut Answer, asked: &[Value]) -> Result<(), Fault> {
    let [times] = asked else {
        return Err(Fault::NoCase);
    };
    let times = small_number(times)?;
    let (round, mut a, b) = opened_by_two(alloc, Net::new(alloc, 3, &[(0, 1)])?)?;
    text.put("refused ", &refusals(&round, &mut a, times));
    text.say(", ");
    put_closed(text, &closed_by_both(alloc, round, a, b)?);
    Ok(())
}

/// Makes each call of [`REFUSED`] so many times, and counts those that are refused.
fn refusals(round: &Round, worker: &mut Worker, times: u32) -> u64
    requires { IsOwn round.now worker.old }
    ensures { IsOwn round.now worker.new }
{
    let mut refused = 0u64;
    for _time in 0..times {
        for target in REFUSED {
            if reply(round, worker, target).is_err() {
                refused = refused.saturating_add(1);
            }
        }
    }
    refused
}

/// The worker of a call, and what it does.
fn call(value: &Value) -> Result<(u64, Deed), Fault> {
    match items(value)? {
        [worker, deed @ ..] => Ok((number(worker)?, deed_in(deed)?)),
        _ => Err(Fault::NoCase),
    }
}

fn deed_in(given: &[Value]) -> Result<Deed, Fault> {
    let [way, node] = given else {
        return Err(Fault::NoCase);
    };
    let node = small_number(node)?;
    named(
        word(way)?,
        &[
            ("turn", Deed::Call(Target::Turn(node))),
            ("look", Deed::Call(Target::Look(node))),
            ("seen", Deed::Seen(node)),
        ],
    )
}

/// Makes a worker do that, and appends the result.
fn put_deed(text: &mut Answer, round: &Round, worker: &mut Worker, deed: Deed)
    requires { IsOwn round.now worker.old }
    ensures { IsOwn round.now worker.new }
{
    match deed {
        Deed::Call(target) => put_reply(text, reply(round, worker, target)),
        Deed::Seen(x) => put_seen(text, round, worker, x),
    }
}

/// Appends the count of a node that a worker has seen.
fn put_seen(text: &mut Answer, round: &Round, worker: &Worker, x: u32)
    requires { IsOwn round.now worker.now }
{
    if x < round.net().nodes() {
        text.put("seen ", &worker.seen(x));
    }
    text.say("; ");
}

fn reply(round: &Round, worker: &mut Worker, target: Target) -> Result<Reply, Refusal>
    requires { IsOwn round.now worker.old }
    ensures { IsOwn round.now worker.new }
{
    match target {
        Target::Turn(x) => round.try_turn(worker, x),
        Target::Look(x) => round.look(worker, x),
    }
}

/// Appends the reply to a call, or why it was refused.
fn put_reply(text: &mut Answer, replied: Result<Reply, Refusal>) {
    match replied {
        Ok(reply) => text.put("", &reply),
        Err(refusal) => text.put("", &refusal),
    }
    text.say("; ");
}

/// Closes a round with these workers.
fn closed(alloc: Global, round: Round, a: Worker, b: Worker, back: Back) -> Result<Closed, Fault>
    requires { IsOwn round a × IsOwn round b × (round.setup.workers ≡ 2) }
{
    let workers = handed_back(alloc, &round, a, b, back)?;
    Ok(round.close(workers))
}

/// The workers that are given back to their round.
fn handed_back(
    alloc: Global,
    round: &Round,
    a: Worker,
    b: Worker,
    back: Back,
) -> Result<Vec<Worker>, AllocError>
    requires { IsOwn round.now a × IsOwn round.now b }
    ensures { IfOk result (λ workers. Each (IsOwn round.now) workers.items × (length workers.items ≤ 2)) }
{
    Ok(match back {
        Back::Both => vec![in alloc; a, b]?,
        Back::Swapped => vec![in alloc; b, a]?,
        Back::Second => vec![in alloc; b]?,
        Back::None => Vec::new(alloc),
    })
}

/// Appends the result of closing a round.
pub fn put_closed(text: &mut Answer, closed: &Closed) {
    text.put("counts ", &closed.counts);
    text.put(", turned ", &closed.turned);
}

/// Closes a round with both workers.
pub fn closed_by_both(alloc: Global, round: Round, a: Worker, b: Worker) -> Result<Closed, Fault>
    requires { IsOwn round a × IsOwn round b × (round.setup.workers ≡ 2) }
{
    closed(alloc, round, a, b, Back::Both)
}
