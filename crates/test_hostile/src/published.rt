//! The calls of fr_readers.

ghost use Rattle.std.specs.Prelude.{◌≡◌, ◌<◌};

use crate::calls::{CHAIN, NETWORK_LINE};
use crate::telling::{Answer, say};
use fr_net::Net;
use fr_readers::{PublishedSession, Reader};
use fr_route::{Change, Router};
use std::alloc::Global;

/// A reader sees a network, a change of it, and another network.
pub fn published<R: Alloc<A = Global> + Print + Eprint>(rt: &R, answer: &mut Answer) {
    let mut session = PublishedSession::new(rt.alloc());
    let line = session.answer_line(rt.alloc(), NETWORK_LINE);
    if let Some(Some(report)) = answer.value_or_report(rt, line) {
        answer.say(&report);
    }
    if let Some(mut reader) = answer.value_or_report(rt, session.reader(rt.alloc())) {
        session.table_law();
        if let Some(past) = session.past() {
            reader.learn(past);
        }
        change(rt, answer, &mut session, &mut reader);
        change_with_ways(rt, answer, &mut session);
        replace(rt, answer, &mut session, &mut reader);
    }
}

/// Two readers of the hops and two of the ways, before there is a network.
pub fn early_readers<R: Alloc<A = Global> + Eprint>(rt: &R, answer: &mut Answer) {
    let alloc = rt.alloc();
    let mut session = PublishedSession::new(alloc);
    for _ in 0..2 {
        if answer.value_or_report(rt, session.reader(alloc)).is_some() {
            answer.say("reader");
        }
        if answer
            .value_or_report(rt, session.way_reader(alloc))
            .is_some()
        {
            answer.say("way reader");
        }
    }
}

/// Changes the network. If that fails for want of memory, the list must be unchanged.
fn change<R: Alloc<A = Global> + Print + Eprint>(
    rt: &R,
    answer: &mut Answer,
    session: &mut PublishedSession,
    reader: &mut Reader,
)
    requires { 3 < reader.old.nodes }
    ensures { reader.new.nodes ≡ reader.old.nodes }
{
    let Some(changed) = session.change(rt.alloc(), Change::Cut { u: 2, v: 1 }) else {
        return;
    };
    if answer.value_or_report(rt, changed).is_some() {
        answer.put(&session.rerouted());
        answer.put(&reader.hop(2));
    } else if session.rerouted().len() != 4 {
        say(rt, "the list has changed");
    }
}

/// Cuts the last node off, with what has to be pushed to routers that hold all their ways. If that fails for want of
/// memory, there must be nothing to push.
fn change_with_ways<R: Alloc<A = Global> + Print + Eprint>(
    rt: &R,
    answer: &mut Answer,
    session: &mut PublishedSession,
) {
    let Some(changed) = session.change_with_ways(rt.alloc(), Change::Cut { u: 1, v: 0 }) else {
        return;
    };
    if answer.value_or_report(rt, changed).is_some() {
        answer.put(&session.rerouted());
        answer.put(&session.shrink().nodes);
        answer.put(&session.shrink().list);
        answer.put(&session.grow().nodes);
        answer.put(&session.grow().list);
    } else if session.rerouted().len() != 2 || !session.shrink().nodes.is_empty() {
        say(rt, "the list has changed");
    }
}

/// Puts another router in place. If that fails for want of memory, the list must be unchanged.
fn replace<R: Alloc<A = Global> + Print + Eprint>(
    rt: &R,
    answer: &mut Answer,
    session: &mut PublishedSession,
    reader: &mut Reader,
)
    requires { 3 < reader.old.nodes }
{
    let Some(net) = answer.value_or_report(rt, Net::new(rt.alloc(), 2, &CHAIN[..1])) else {
        return;
    };
    let Some(router) = answer.value_or_report(rt, Router::open_alone(rt.alloc(), net, 1)) else {
        return;
    };
    let before = session.rerouted().len();
    let put = session.put_router(rt.alloc(), router);
    if answer.value_or_report(rt, put).is_some() {
        answer.put(&session.rerouted());
        answer.put(&reader.hop(0));
    } else if session.rerouted().len() != before {
        say(rt, "the list has changed");
    }
}
