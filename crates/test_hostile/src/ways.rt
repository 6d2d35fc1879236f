//! The calls that list ways: those of routers, of distances, and of tables of ways.

ghost use Rattle.std.specs.Prelude.{◌≡◌, ◌<◌};
ghost use Rattle.fr_nearest.specs.Distances.{IsMeasureOf};

use crate::telling::{Answer, say};
use fr_nearest::Distances;
use fr_net::Net;
use fr_route::Router;
use fr_tables::{Hop, TableFault};
use fr_ways::{Pushes, TwoPhases, WayTable, WaysFault, known_phases, phases};
use std::alloc::{AllocError, Global};

/// Settled links towards node 0. Of the ways of node 3, the one with the higher number is the nearer one.
const DOWN: [(u32, u32); 4] = [(1, 2), (2, 0), (3, 1), (3, 2)];

/// The ways of each of four nodes.
type Ways = [&'static [u32]; 4];

const OLD_WAYS: Ways = [&[], &[0], &[0, 1], &[1, 2]];

/// Node 1 keeps no way, node 2 keeps one, and node 3 prefers the other one.
const NEW_WAYS: Ways = [&[], &[2], &[0], &[2, 1]];

/// Nodes 1 and 2 send to each other.
const CYCLIC_WAYS: Ways = [&[], &[2], &[0, 1], &[]];

/// Appends a list of ways to the answer. If there was no memory for the list, it must be empty.
fn put_list<R: Print + Eprint>(
    rt: &R,
    answer: &mut Answer,
    listed: Result<(), AllocError>,
    list: &[u32],
) {
    if answer.value_or_report(rt, listed).is_some() {
        answer.put(&list);
    } else if !list.is_empty() {
        say(rt, "the list is not empty");
    }
}

/// Appends the ways of each node of a table to the answer. No table here has more than four nodes.
fn put_rows(answer: &mut Answer, table: &WayTable) {
    for x in 0..table.len().min(4) as u32 {
        answer.put(&table.row(x));
    }
}

/// The ways of nodes of a router, those of all nodes, and a nearest route.
pub fn listed<R: Alloc<A = Global> + Print + Eprint>(rt: &R, answer: &mut Answer) {
    let alloc = rt.alloc();
    let Some(net) = answer.value_or_report(rt, Net::new(alloc, 4, &DOWN)) else {
        return;
    };
    let Some(mut router) = answer.value_or_report(rt, Router::open_alone(alloc, net, 0)) else {
        return;
    };
    if router.net().nodes() == 4 {
        list_some(rt, answer, &mut router);
        list_all(rt, answer, &mut router);
        put_way_pushes(rt, answer, &mut router);
    }
}

/// The ways of two nodes in one list. It is full at first, so it has to grow.
fn list_some<R: Alloc<A = Global> + Print + Eprint>(
    rt: &R,
    answer: &mut Answer,
    router: &mut Router,
)
    requires { 3 < router.old.nodes }
    ensures { router.new ≡ router.old }
{
    if let Some(mut list) = answer.value_or_report(rt, Vec::from_array(rt.alloc(), [3])) {
        let listed = router.ways(3, &mut list);
        put_list(rt, answer, listed, &list);
        let listed = router.ways(2, &mut list);
        put_list(rt, answer, listed, &list);
    }
}

/// The ways of all nodes, and a nearest route.
fn list_all<R: Alloc<A = Global> + Eprint>(rt: &R, answer: &mut Answer, router: &mut Router)
    requires { 3 < router.old.nodes }
{
    if let Some(table) = answer.value_or_report(rt, router.all_ways(rt.alloc())) {
        put_rows(answer, &table);
    }
    if let Some(walked) = answer.value_or_report(rt, router.nearest(rt.alloc(), 3)) {
        answer.put(&walked);
    }
}

/// Appends the pushes that lead from other ways to those of a router to the answer.
fn put_way_pushes<R: Alloc<A = Global> + Eprint>(rt: &R, answer: &mut Answer, router: &mut Router) {
    let held = WayTable::from_rows(rt.alloc(), &[0, 0, 1, 3, 5], &[0, 0, 1, 1, 2]);
    if let Some(Some(held)) = answer.value_or_report(rt, held) {
        match router.phases(rt.alloc(), &held) {
            Ok(plan) => put_plan(answer, &plan),
            Err(fault) => answer.lack(rt, fault),
        }
    }
}

/// The route and the nearest route of a node that is cut off, and the fault of a table that is too long.
pub fn cut_off<R: Alloc<A = Global> + Eprint>(rt: &R, answer: &mut Answer) {
    let alloc = rt.alloc();
    let Some(net) = answer.value_or_report(rt, Net::new(alloc, 4, &DOWN[..2])) else {
        return;
    };
    let Some(mut router) = answer.value_or_report(rt, Router::open_alone(alloc, net, 0)) else {
        return;
    };
    if router.net().nodes() == 4 {
        put_walks(rt, answer, &mut router);
        match router.pushes(alloc, &[Hop::CutOff; 5]) {
            Ok(_) => answer.say("pushes"),
            Err(TableFault::Memory) => answer.lack(rt, TableFault::Memory),
            Err(fault) => answer.put(&fault),
        }
    }
}

/// Appends the route and the nearest route of the last of four nodes to the answer.
fn put_walks<R: Alloc<A = Global> + Eprint>(rt: &R, answer: &mut Answer, router: &mut Router)
    requires { 3 < router.old.nodes }
{
    if let Some(walked) = answer.value_or_report(rt, router.walk(rt.alloc(), 3)) {
        answer.put(&walked);
    }
    if let Some(walked) = answer.value_or_report(rt, router.nearest(rt.alloc(), 3)) {
        answer.put(&walked);
    }
}

/// Distances from node 0, measured at once and in room for them, the ways that they give, and a nearest walk.
pub fn measured<R: Alloc<A = Global> + Print + Eprint>(rt: &R, answer: &mut Answer) {
    let Some(net) = answer.value_or_report(rt, Net::new(rt.alloc(), 4, &DOWN)) else {
        return;
    };
    if net.nodes() == 4 {
        match Distances::measure(rt.alloc(), &net, 0) {
            Ok(distances) => put_measured(rt, answer, &net, &distances),
            Err(fault) => answer.lack(rt, fault),
        }
        match Distances::unmeasured(rt.alloc(), &net) {
            Ok(mut distances) => {
                distances.measure_again(&net, 0);
                put_measured(rt, answer, &net, &distances);
            }
            Err(fault) => answer.lack(rt, fault),
        }
    }
}

/// Appends the ways of two nodes, in one list that has to grow, and the walk from the last node to the answer.
fn put_measured<R: Alloc<A = Global> + Print + Eprint>(
    rt: &R,
    answer: &mut Answer,
    net: &Net,
    distances: &Distances,
)
    requires measured { IsMeasureOf net.now distances.now }
    requires node { 3 < net.now.nodes }
{
    if let Some(mut list) = answer.value_or_report(rt, Vec::from_array(rt.alloc(), [3])) {
        let listed = distances.ways(net, 3, &mut list);
        put_list(rt, answer, listed, &list);
        let listed = distances.ways(net, 2, &mut list);
        put_list(rt, answer, listed, &list);
    }
    if let Some(walk) = answer.value_or_report(rt, distances.walk(rt.alloc(), net, 3)) {
        answer.put(&walk);
    }
}

/// The phases from one table to another, with the test of the new table and without it. Then the new table has a cycle.
pub fn phased<R: Alloc<A = Global> + Print + Eprint>(rt: &R, answer: &mut Answer) {
    let Some(old) = table(rt, answer, &OLD_WAYS) else {
        return;
    };
    if let Some(new) = table(rt, answer, &NEW_WAYS) {
        put_phases(rt, answer, &old, &new);
    }
    if let Some(new) = table(rt, answer, &CYCLIC_WAYS) {
        put_cycle(rt, answer, &old, &new);
    }
}

/// A table with these ways. It has room for one node and one way, so it has to grow.
fn table<R: Alloc<A = Global> + Print + Eprint>(
    rt: &R,
    answer: &mut Answer,
    rows: &[&[u32]],
) -> Option<WayTable> {
    let mut table = answer.value_or_report(rt, WayTable::with_capacity(rt.alloc(), 1, 1))?;
    for row in rows {
        push_row(rt, answer, &mut table, row)?;
    }
    Some(table)
}

/// Adds a node to a table. If that fails for want of memory, the table must be unchanged.
fn push_row<R: Print + Eprint>(
    rt: &R,
    answer: &mut Answer,
    table: &mut WayTable,
    ways: &[u32],
) -> Option<()> {
    let before = (table.len(), table.list().len());
    let pushed = table.push_row(ways);
    let pushed = answer.value_or_report(rt, pushed);
    if pushed.is_none() && (table.len(), table.list().len()) != before {
        say(rt, "the table has changed");
    }
    pushed
}

/// Appends the phases from one table to another to the answer, as both calls give them.
fn put_phases<R: Alloc<A = Global> + Eprint>(
    rt: &R,
    answer: &mut Answer,
    old: &WayTable,
    new: &WayTable,
) {
    match phases(rt.alloc(), old, new) {
        Ok(plan) => {
            put_plan(answer, &plan);
            if let Some(plan) = answer.value_or_report(rt, known_phases(rt.alloc(), old, new)) {
                put_plan(answer, &plan);
            }
        }
        Err(fault) => answer.lack(rt, fault),
    }
}

/// Appends the pushes of two phases to the answer.
fn put_plan(answer: &mut Answer, plan: &TwoPhases) {
    answer.say("shrink");
    put_pushes(answer, &plan.shrink);
    answer.say("grow");
    put_pushes(answer, &plan.grow);
}

/// Appends nodes, and the list of each of them, to the answer.
fn put_pushes(answer: &mut Answer, pushes: &Pushes) {
    answer.put(&pushes.nodes);
    put_rows(answer, &pushes.lists);
}

/// Appends the cycle for which a new table is refused to the answer.
fn put_cycle<R: Alloc<A = Global> + Print + Eprint>(
    rt: &R,
    answer: &mut Answer,
    old: &WayTable,
    new: &WayTable,
) {
    match phases(rt.alloc(), old, new) {
        Ok(_) => say(rt, "the cycle was not found"),
        Err(WaysFault::Cycle(nodes)) => answer.put(&nodes),
        Err(fault) => answer.lack(rt, fault),
    }
}
