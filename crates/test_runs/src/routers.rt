//! A router that is opened on a network and changed.

use crate::telling::{echo, put, put_word, tell, tell_value};
use fr_crew::{OpenGate, Plan};
use fr_net::{Net, Request, read_line};
use fr_route::{Change, RouteFault, Router};
use std::alloc::{AllocError, Global};
use std::sync::Wait;
use std::thread::Threads;

/// Opens a router on the network of the first line and prints its state. For each further line, which asks for a
/// change, prints the result and the state after it.
pub fn tell_router<R: Threads + Wait + Sync + AllocGlobal + Print>(rt: &R, lines: &str) {
    let (Some(plan), Some((first, rest))) = (Plan::new(2, 0, 1_000), lines.split_once('\n')) else {
        return;
    };
    echo(rt, first);
    match opened(rt, first, &plan) {
        Some(Ok(mut router)) => tell_changes(rt, &mut router, rest, &plan),
        Some(Err(fault)) => tell_value(rt, &fault),
        None => tell(rt, "no network"),
    }
}

/// The router on the network of a line.
fn opened<R: Threads + Wait + Sync + AllocGlobal>(
    rt: &R,
    line: &str,
    plan: &Plan,
) -> Option<Result<Router, RouteFault>> {
    match read_line(rt.alloc(), line.as_bytes()) {
        Ok(Request::Network { nodes, dest, links }) => Some(opened_on(
            rt, nodes, dest, &links, plan,
        )),
        _ => None,
    }
}

fn opened_on<R: Threads + Wait + Sync + AllocGlobal>(
    rt: &R,
    nodes: u32,
    dest: u32,
    links: &[(u32, u32)],
    plan: &Plan,
) -> Result<Router, RouteFault> {
    let net = Net::new(rt.alloc(), nodes, links)?;
    Router::open(rt, rt.alloc(), net, dest, plan, &OpenGate)
}

/// Prints the state of a router, and each change with its result.
fn tell_changes<R: Threads + Wait + Sync + AllocGlobal + Print>(
    rt: &R,
    router: &mut Router,
    lines: &str,
    plan: &Plan,
) {
    tell_state(rt, router);
    for line in lines.lines() {
        echo(rt, line);
        tell_change(rt, router, line, plan);
    }
}

/// Prints the result of a change, and the state after it.
fn tell_change<R: Threads + Wait + Sync + AllocGlobal + Print>(
    rt: &R,
    router: &mut Router,
    line: &str,
    plan: &Plan,
) {
    match change_of(rt.alloc(), line) {
        Some(change) => {
            let end = router.change(rt, rt.alloc(), change, plan, &OpenGate);
            tell_value(rt, &end);
            tell_state(rt, router);
        }
        None => tell(rt, "no change"),
    }
}

/// The change that a line asks for.
fn change_of(alloc: Global, line: &str) -> Option<Change> {
    match read_line(alloc, line.as_bytes()) {
        Ok(Request::Cut { u, v }) => Some(Change::Cut { u, v }),
        Ok(Request::Add { u, v }) => Some(Change::Add { u, v }),
        Ok(Request::Join { u, v }) => Some(Change::Join { u, v }),
        Ok(Request::Batch { edits }) => Some(Change::Batch(edits)),
        Ok(Request::Destination { dest }) => Some(Change::Destination { dest }),
        _ => None,
    }
}

/// Prints the state of a router.
fn tell_state<R: AllocGlobal + Print>(rt: &R, router: &Router) {
    tell(rt, &state_text(rt.alloc(), router));
}

/// The state of a router: the report of the last round, the destination, the links, the counts, the hop of each node,
/// and the route from the last node.
pub fn state_text(alloc: Global, router: &Router) -> String {
    let mut text = String::new(alloc);
    put(&mut text, &router.report());
    put(&mut text, &router.dest());
    put_links(&mut text, alloc, router.net());
    put(&mut text, &router.counts());
    put_hops(&mut text, router);
    put_walk(&mut text, alloc, router);
    text
}

fn put_links(text: &mut String, alloc: Global, net: &Net) {
    let links: Result<Vec<(u32, u32)>, AllocError> = net.links().collect(alloc);
    match links {
        Ok(links) => put(text, &links),
        Err(_) => put_word(text, " no memory"),
    }
}

fn put_hops(text: &mut String, router: &Router) {
    for x in 0..router.net().nodes() {
        put(text, &router.next_hop(x));
    }
}

fn put_walk(text: &mut String, alloc: Global, router: &Router) {
    let last = router.net().nodes() - 1;
    put(text, &router.walk(alloc, last));
}
