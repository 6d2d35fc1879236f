//! The calls of the libraries, each on a small network.

ghost use Rattle.std.specs.Prelude.{◌≡◌, IfSome, replicate};

use crate::growing::grown;
use crate::logs::{logged, recorded};
use crate::nodes::known;
use crate::published::{early_readers, published};
use crate::telling::{Answer, say};
use crate::ways::{cut_off, listed, measured, phased};
use fr_core::{Entry, Machine, Target, check_run, play};
use fr_crew::{
    Crew, OpenGate, Plan, Settled, live_walk, settle, settle_alone, settled_counts,
    settled_counts_alone,
};
use fr_net::{Edit, LineFault, Net, NetFault, NotEdited, Question, Request, Turns, read_line};
use fr_round::Round;
use fr_route::{Change, Report, Reroutes, Router, Session, counts_line, fault_number, links_line};
use fr_shared::hops::open;
use fr_tables::{Hop, find_loop, push_order};
use std::alloc::{AllocError, Global};
use std::fmt::Display;
use std::sync::Wait;
use std::thread::Threads;

/// A chain that points away from the destination, node 0.
pub const CHAIN: [(u32, u32); 3] = [(0, 1), (1, 2), (2, 3)];

/// The line of the chain.
pub const NETWORK_LINE: &[u8] = br#"["net",4,0,[[0,1],[1,2],[2,3]]]"#;

/// The edits that move a link of the chain to another place.
const MOVED_LINK: [Edit; 2] = [Edit::Cut { u: 1, v: 2 }, Edit::Add { u: 0, v: 3 }];

/// A link from each of the nodes 0 to 3 to each of the nodes 4 to 7.
const LEFT_TO_RIGHT: [(u32, u32); 16] = [
    (0, 4),
    (0, 5),
    (0, 6),
    (0, 7),
    (1, 4),
    (1, 5),
    (1, 6),
    (1, 7),
    (2, 4),
    (2, 5),
    (2, 6),
    (2, 7),
    (3, 4),
    (3, 5),
    (3, 6),
    (3, 7),
];

/// One call, or a few that belong together.
#[derive(Clone, Copy)]
pub enum Call {
    Network,
    CutNetwork,
    LinkedNetwork,
    RefusedNetworks,
    Request,
    RefusedLine,
    Played,
    Machine,
    Opened,
    Settled,
    SettledByOne,
    Grown,
    Routed,
    EditedNetwork,
    WalkedLive,
    SettledAlone,
    RoutedAlone,
    AnsweredAlone,
    JoinedNetwork,
    EscapedLine,
    EditedInPlace,
    Counted,
    CountedAlone,
    Rerouted,
    ReroutedWays,
    Pushed,
    Shared,
    Logged,
    Recorded,
    Published,
    PushedTo,
    Listed,
    Measured,
    Phased,
    Known,
    CutOff,
    EarlyReaders,
}

/// The calls in the order in which they are made.
pub const CALLS: [Call; 37] = [
    Call::Network,
    Call::CutNetwork,
    Call::LinkedNetwork,
    Call::RefusedNetworks,
    Call::Request,
    Call::RefusedLine,
    Call::Played,
    Call::Machine,
    Call::Opened,
    Call::Settled,
    Call::SettledByOne,
    Call::Grown,
    Call::Routed,
    Call::EditedNetwork,
    Call::WalkedLive,
    Call::SettledAlone,
    Call::RoutedAlone,
    Call::AnsweredAlone,
    Call::JoinedNetwork,
    Call::EscapedLine,
    Call::EditedInPlace,
    Call::Counted,
    Call::CountedAlone,
    Call::Rerouted,
    Call::ReroutedWays,
    Call::Pushed,
    Call::Shared,
    Call::Logged,
    Call::Recorded,
    Call::Published,
    Call::PushedTo,
    Call::Listed,
    Call::Measured,
    Call::Phased,
    Call::Known,
    Call::CutOff,
    Call::EarlyReaders,
];

/// Makes a call, and appends its result to the answer.
pub fn make<R: Threads + Wait + Sync + Alloc<A = Global> + Print + Eprint>(
    rt: &R,
    answer: &mut Answer,
    call: Call,
) {
    match call {
        Call::Request => request(rt, answer),
        Call::RefusedLine => refused_line(rt, answer),
        Call::SettledByOne => settled_by_one(rt, answer),
        Call::Grown => grown(rt, answer),
        Call::WalkedLive => walked_live(rt, answer),
        Call::AnsweredAlone => answered_alone(rt, answer),
        Call::EscapedLine => escaped_line(rt, answer),
        Call::Pushed => pushed(rt, answer),
        Call::Shared => shared(rt, answer),
        Call::Published => published(rt, answer),
        Call::Listed => listed(rt, answer),
        Call::Measured => measured(rt, answer),
        Call::Phased => phased(rt, answer),
        Call::Known => known(rt, answer),
        Call::CutOff => cut_off(rt, answer),
        Call::EarlyReaders => early_readers(rt, answer),
        _ => {
            if let Some(net) = answer.value_or_report(rt, Net::new(rt.alloc(), 4, &CHAIN)) {
                make_on(rt, answer, net, call);
            }
        }
    }
}

/// Makes a call on the chain.
fn make_on<R: Threads + Wait + Sync + Alloc<A = Global> + Print + Eprint>(
    rt: &R,
    answer: &mut Answer,
    net: Net,
    call: Call,
) {
    match call {
        Call::Opened => opened(rt, answer, net),
        Call::Settled => settled(rt, answer, net),
        Call::Routed => routed(rt, answer, net),
        Call::SettledAlone => settled_alone(rt, answer, net),
        Call::RoutedAlone => routed_alone(rt, answer, net),
        Call::EditedInPlace => edited_in_place(rt, answer, net),
        Call::Rerouted => rerouted(rt, answer, net),
        Call::ReroutedWays => rerouted_ways(rt, answer, net),
        Call::Logged => logged(rt, answer, net),
        Call::Recorded => recorded(rt, answer, net),
        Call::PushedTo => pushed_to(rt, answer, net),
        _ => make_beside(rt, answer, &net, call),
    }
}

/// Makes a call beside the chain, which does not change.
fn make_beside<R: Threads + Wait + Sync + Alloc<A = Global> + Eprint>(
    rt: &R,
    answer: &mut Answer,
    net: &Net,
    call: Call,
) {
    match call {
        Call::Network => put_net(rt, answer, net),
        Call::CutNetwork => put_made(rt, answer, net.with_cut(rt.alloc(), 2, 1)),
        Call::LinkedNetwork => put_made(rt, answer, net.with_link(rt.alloc(), 0, 3)),
        // A link from 3 to 0 would close a cycle.
        Call::JoinedNetwork => put_made(rt, answer, net.with_join(rt.alloc(), 3, 0)),
        Call::RefusedNetworks => refused_networks(rt, answer, net),
        Call::Played => played(rt, answer, net),
        Call::Machine => machine(rt, answer, net),
        Call::EditedNetwork => edited_network(rt, answer, net),
        Call::Counted => counted(rt, answer, net),
        Call::CountedAlone => counted_alone(rt, answer, net),
        _ => {}
    }
}

/// Appends a line to the answer.
fn put_line<R: Eprint, E: Display + Drop>(rt: &R, answer: &mut Answer, line: Result<String, E>) {
    if let Some(line) = answer.value_or_report(rt, line) {
        answer.say(&line);
    }
}

fn put_counts<R: Alloc<A = Global> + Eprint>(rt: &R, answer: &mut Answer, counts: &[u64]) {
    put_line(rt, answer, counts_line(rt.alloc(), counts));
}

/// Appends the links of a network to the answer.
fn put_net<R: Alloc<A = Global> + Eprint>(rt: &R, answer: &mut Answer, net: &Net) {
    put_line(rt, answer, links_line(rt.alloc(), net.links()));
}

/// Appends the links of a network that was just made, or why it was not made.
fn put_made<R: Alloc<A = Global> + Eprint>(
    rt: &R,
    answer: &mut Answer,
    made: Result<Net, NetFault>,
) {
    if let Some(net) = answer.value_or_report(rt, made) {
        put_net(rt, answer, &net);
    }
}

/// Whether these are the links of a network.
fn has_links(net: &Net, links: &[(u32, u32)]) -> bool {
    net.links().len() == links.len() && net.links().zip(links).all(|(shown, link)| shown == *link)
}

/// The numbers of faults of links.
fn refused_networks<R: Alloc<A = Global> + Eprint>(rt: &R, answer: &mut Answer, net: &Net) {
    let alloc = rt.alloc();
    answer.say("refused");
    put_number(rt, answer, Net::new(alloc, 3, &[(0, 1), (1, 2), (2, 0)]));
    put_number(rt, answer, Net::new(alloc, 2, &[(0, 1), (1, 0)]));
    put_number(rt, answer, net.with_link(alloc, 3, 0));
    put_number(rt, answer, net.with_cut(alloc, 0, 3));
}

/// Appends the number of the fault of links with which a call fails, or 0 if it succeeds.
fn put_number<R: Eprint>(rt: &R, answer: &mut Answer, outcome: Result<Net, NetFault>) {
    match outcome {
        Ok(_) => answer.say("0"),
        Err(fault) => put_fault(rt, answer, fault),
    }
}

/// Appends the number of a fault of links. Missing memory has no number.
fn put_fault<R: Eprint>(rt: &R, answer: &mut Answer, fault: NetFault) {
    let number = fault_number(&fault);
    if number == 0 {
        answer.lack(rt, fault);
    } else {
        answer.put(&number);
    }
}

/// The chain with a link in another place.
fn edited_network<R: Alloc<A = Global> + Eprint>(rt: &R, answer: &mut Answer, net: &Net) {
    match net.with_edits(rt.alloc(), &MOVED_LINK) {
        Ok(net) => put_net(rt, answer, &net),
        Err(refused) => answer.lack(rt, refused.fault),
    }
}

/// The same in place, with its text made before the edits are kept. If that fails for want of memory, the network must
/// be unchanged.
fn edited_in_place<R: Alloc<A = Global> + Print + Eprint>(
    rt: &R,
    answer: &mut Answer,
    mut net: Net,
) {
    let alloc = rt.alloc();
    match net.edit_if(alloc, &MOVED_LINK, |edited| links_of(alloc, edited)) {
        Ok(links) => answer.say(&links),
        Err(fault) => {
            tell_not_edited(rt, answer, fault);
            if !has_links(&net, &CHAIN) {
                say(rt, "the network has changed");
            }
        }
    }
}

/// The links of a network as text.
fn links_of(alloc: Global, net: &Net) -> Result<String, AllocError> {
    links_line(alloc, net.links())
}

/// Reports why a network was not edited.
fn tell_not_edited<R: Eprint>(rt: &R, answer: &mut Answer, fault: NotEdited<AllocError>) {
    match fault {
        NotEdited::Refused(refused) => answer.lack(rt, refused.fault),
        NotEdited::Fault(fault) => answer.lack(rt, fault),
    }
}

fn request<R: Alloc<A = Global> + Eprint>(rt: &R, answer: &mut Answer) {
    put_read_line(rt, answer, read_line(rt.alloc(), NETWORK_LINE));
}

/// A line that cannot be read by its bytes.
fn escaped_line<R: Alloc<A = Global> + Eprint>(rt: &R, answer: &mut Answer) {
    put_read_line(rt, answer, read_line(rt.alloc(), br#"["w\u0061lk", 3]"#));
}

/// Appends the links of a request to the answer.
fn put_links(answer: &mut Answer, links: &[(u32, u32)]) {
    answer.say("links");
    for (tail, head) in links {
        answer.put_link(*tail, *head);
    }
}

/// Appends the node of a walk or the links of a network to the answer.
fn put_read_line<R: Alloc<A = Global> + Eprint>(
    rt: &R,
    answer: &mut Answer,
    read: Result<Request, LineFault>,
) {
    match answer.value_or_report(rt, read) {
        Some(Request::Walk { x }) => {
            answer.say("walk");
            answer.put(&x);
        }
        Some(Request::Network { links, .. }) => put_links(answer, &links),
        _ => answer.say("another request"),
    }
}

fn refused_line<R: Alloc<A = Global> + Eprint>(rt: &R, answer: &mut Answer) {
    match read_line(rt.alloc(), br#"["net",4,0,[[0,1],[1,2],[2,3]"#) {
        Ok(_) => answer.say("a request"),
        Err(LineFault::NotJson) => answer.say("not json"),
        Err(LineFault::NotRequest) => answer.say("not request"),
        Err(LineFault::Memory) => answer.lack(rt, LineFault::Memory),
    }
}

/// Two workers turn the ends of the chain, step by step. The entries are checked, and the links that they give are
/// made.
fn played<R: Alloc<A = Global> + Eprint>(rt: &R, answer: &mut Answer, net: &Net) {
    let schedule = [0, 1, 0, 1, 0, 1, 0, 1, 0, 1];
    if let Some(targets) = answer.value_or_report(rt, targets(rt.alloc())) {
        let entries = play(rt.alloc(), net, 0, targets, &schedule);
        if let Some(entries) = answer.value_or_report(rt, entries) {
            put_played(rt, answer, net, &entries);
        }
    }
}

/// Appends the links that entries give to the answer.
fn put_played<R: Alloc<A = Global> + Eprint>(
    rt: &R,
    answer: &mut Answer,
    net: &Net,
    entries: &[Entry],
) {
    match check_run(rt.alloc(), net, 0, entries) {
        Ok(counts) => put_made(rt, answer, net.turned_by(rt.alloc(), &counts)),
        Err(fault) => answer.lack(rt, fault),
    }
}

fn machine<R: Alloc<A = Global> + Eprint>(rt: &R, answer: &mut Answer, net: &Net) {
    if let Some(targets) = answer.value_or_report(rt, targets(rt.alloc())) {
        let machine = Machine::new(rt.alloc(), net, 0, targets);
        if let Some(machine) = answer.value_or_report(rt, machine) {
            put_counts(rt, answer, machine.counts());
        }
    }
}

/// The targets of two workers: the ends of the chain, one node each.
fn targets(alloc: Global) -> Result<Vec<Vec<Target>>, AllocError> {
    let mut targets = Vec::new(alloc);
    for x in [3, 2] {
        targets.push([Target::Turn(x)].to_vec(alloc)?)?;
    }
    Ok(targets)
}

/// A round that is opened and closed. If it is not opened, the network must be given back.
fn opened<R: Alloc<A = Global> + Print + Eprint>(rt: &R, answer: &mut Answer, net: Net) {
    match Round::open(rt.alloc(), net, 0, 3) {
        Ok((round, workers)) => {
            let closed = round.close(workers);
            put_net(rt, answer, &closed.net);
        }
        Err(fault) => {
            if fault.net.nodes() != 4 || !has_links(&fault.net, &CHAIN) {
                say(rt, "another network was handed back");
            }
            answer.lack(rt, fault.why);
        }
    }
}

fn settled<R: Threads + Wait + Sync + Alloc<A = Global> + Eprint>(
    rt: &R,
    answer: &mut Answer,
    net: Net,
) {
    let plan = Plan::new(3, 0, 1000).unwrap();
    let settled = settle(rt, rt.alloc(), net, 0, &plan, &OpenGate);
    put_settled(rt, answer, settled);
}

fn settled_alone<R: Alloc<A = Global> + Eprint>(rt: &R, answer: &mut Answer, net: Net) {
    put_settled(rt, answer, settle_alone(rt.alloc(), net, 0));
}

/// Appends the counts of a settled network to the answer.
fn put_settled<R: Alloc<A = Global> + Eprint, E: Display + Drop>(
    rt: &R,
    answer: &mut Answer,
    settled: Result<Settled, E>,
) {
    if let Some(settled) = answer.value_or_report(rt, settled) {
        put_counts(rt, answer, &settled.counts);
    }
}

/// The only worker of a crew has all its candidates in a queue that has room for all nodes. So nothing is left to the
/// finisher, whatever is refused.
fn settled_by_one<R: Threads + Wait + Sync + Alloc<A = Global> + Eprint>(
    rt: &R,
    answer: &mut Answer,
) {
    let plan = Plan::new(1, 0, 1000).unwrap();
    if let Some(net) = answer.value_or_report(rt, Net::new(rt.alloc(), 8, &LEFT_TO_RIGHT)) {
        let settled = settle(rt, rt.alloc(), net, 0, &plan, &OpenGate);
        if let Some(settled) = answer.value_or_report(rt, settled) {
            put_settlement(rt, answer, &settled);
        }
    }
}

/// Appends how many turns settled a network, the counts and the links.
fn put_settlement<R: Alloc<A = Global> + Eprint>(rt: &R, answer: &mut Answer, settled: &Settled) {
    answer.say("turned");
    answer.put(&settled.by_workers.saturating_add(settled.by_finisher));
    answer.say("by the finisher");
    answer.put(&settled.by_finisher);
    put_counts(rt, answer, &settled.counts);
    put_net(rt, answer, &settled.net);
}

/// A router that changes and walks. If a change fails for want of memory or a thread, the router must be unchanged.
fn routed<R: Threads + Wait + Sync + Alloc<A = Global> + Print + Eprint>(
    rt: &R,
    answer: &mut Answer,
    net: Net,
) {
    let plan = Plan::new(3, 0, 1000).unwrap();
    let opened = Router::open(rt, rt.alloc(), net, 0, &plan, &OpenGate);
    if let Some(mut router) = answer.value_or_report(rt, opened) {
        change_and_walk(rt, answer, &mut router, &plan);
    }
}

fn change_and_walk<R: Threads + Wait + Sync + Alloc<A = Global> + Print + Eprint>(
    rt: &R,
    answer: &mut Answer,
    router: &mut Router,
    plan: &Plan,
) {
    let cut = Change::Cut { u: 2, v: 1 };
    let changed = router.change(rt, rt.alloc(), cut, plan, &OpenGate);
    if answer.value_or_report(rt, changed).is_none() {
        return look_for_change(rt, answer, router);
    }
    let add = Change::Add { u: 0, v: 3 };
    let changed = router.change(rt, rt.alloc(), add, plan, &OpenGate);
    if answer.value_or_report(rt, changed).is_some() {
        put_walked(rt, answer, router);
    }
}

/// Reports if the router is not that of the chain after it is settled.
fn look_for_change<R: Alloc<A = Global> + Print + Eprint>(
    rt: &R,
    answer: &mut Answer,
    router: &Router,
) {
    let home = [(1, 0), (2, 1), (3, 2)];
    if !has_turned_home(router) || !has_links(router.net(), &home) {
        say(rt, "the router has changed");
    }
}

/// Whether the router reports the turns that settle the chain.
fn has_turned_home(router: &Router) -> bool {
    let Report { turned, cut } = router.report();
    turned == 6 && cut == 0 && router.dest() == 0 && matches!(router.counts(), [0, 1, 2, 3])
}

/// Appends the links of a router and the route from node 2 to the answer.
fn put_walked<R: Alloc<A = Global> + Eprint>(rt: &R, answer: &mut Answer, router: &Router) {
    put_net(rt, answer, router.net());
    if router.net().nodes() == 4 {
        if let Some(walked) = answer.value_or_report(rt, router.walk(rt.alloc(), 2)) {
            answer.put(&walked);
        }
    }
}

/// A table of the nodes of a network in which none has turned.
fn unturned<R: Alloc<A = Global> + Eprint>(rt: &R, answer: &mut Answer, net: &Net) -> Option<Turns>
    ensures { IfSome result (λ turns. turns ≡ replicate net.now.nodes 0) }
{
    answer.value_or_report(rt, Turns::none(rt.alloc(), net.nodes()))
}

fn counted<R: Threads + Wait + Sync + Alloc<A = Global> + Eprint>(
    rt: &R,
    answer: &mut Answer,
    net: &Net,
) {
    let plan = Plan::new(3, 0, 1000).unwrap();
    let crew = Crew {
        rt,
        alloc: rt.alloc(),
        plan: &plan,
        gate: &OpenGate,
    };
    if let Some(turns) = unturned(rt, answer, net) {
        put_counted(rt, answer, settled_counts(&crew, net, 0, None, turns));
    }
}

fn counted_alone<R: Alloc<A = Global> + Eprint>(rt: &R, answer: &mut Answer, net: &Net) {
    if let Some(turns) = unturned(rt, answer, net) {
        put_counted(rt, answer, settled_counts_alone(net, 0, None, turns));
    }
}

/// Appends the counts of turns to the answer.
fn put_counted<R: Alloc<A = Global> + Eprint, E: Display + Drop>(
    rt: &R,
    answer: &mut Answer,
    counted: Result<Turns, E>,
) {
    if let Some(turns) = answer.value_or_report(rt, counted) {
        put_counts(rt, answer, turns.counts());
    }
}

/// A router that uses only the calling thread. If its change fails for want of memory, it must be unchanged.
fn routed_alone<R: Alloc<A = Global> + Print + Eprint>(rt: &R, answer: &mut Answer, net: Net) {
    if let Some(mut router) = answer.value_or_report(rt, Router::open_alone(rt.alloc(), net, 0)) {
        let changed = router.change_alone(rt.alloc(), Change::Cut { u: 2, v: 1 });
        if answer.value_or_report(rt, changed).is_some() {
            put_net(rt, answer, router.net());
        } else {
            look_for_change(rt, answer, &router);
        }
    }
}

/// The nodes that a cut reroutes. If it fails for want of memory, the router must be unchanged.
fn rerouted<R: Alloc<A = Global> + Print + Eprint>(rt: &R, answer: &mut Answer, net: Net) {
    if let Some(mut router) = answer.value_or_report(rt, Router::open_alone(rt.alloc(), net, 0)) {
        let all = router.changed_since(rt.alloc(), None);
        if let Some(mut nodes) = answer.value_or_report(rt, all) {
            reroute(rt, answer, &mut router, &mut nodes);
        }
    }
}

fn reroute<R: Alloc<A = Global> + Print + Eprint>(
    rt: &R,
    answer: &mut Answer,
    router: &mut Router,
    nodes: &mut Vec<u32>,
) {
    let cut = Change::Cut { u: 2, v: 1 };
    let changed = router.change_telling_alone(rt.alloc(), cut, nodes);
    if answer.value_or_report(rt, changed).is_some() {
        answer.put(nodes);
    } else {
        look_for_change(rt, answer, router);
    }
}

/// What the move of the destination reroutes, with the pushes to routers that hold all their ways. If it fails for want of
/// memory, the router must be unchanged.
fn rerouted_ways<R: Alloc<A = Global> + Print + Eprint>(rt: &R, answer: &mut Answer, net: Net) {
    if let Some(mut router) = answer.value_or_report(rt, Router::open_alone(rt.alloc(), net, 0)) {
        if let Some(mut reroutes) = answer.value_or_report(rt, Reroutes::none(rt.alloc())) {
            reroute_ways(rt, answer, &mut router, &mut reroutes);
        }
    }
}

fn reroute_ways<R: Alloc<A = Global> + Print + Eprint>(
    rt: &R,
    answer: &mut Answer,
    router: &mut Router,
    reroutes: &mut Reroutes,
) {
    let to = Change::Destination { dest: 3 };
    let changed = router.change_with_ways_alone(rt.alloc(), to, reroutes);
    if answer.value_or_report(rt, changed).is_some() {
        answer.put(&reroutes.nodes());
        answer.put(&reroutes.shrink().nodes);
        answer.put(&reroutes.shrink().list);
        answer.put(&reroutes.grow().nodes);
        answer.put(&reroutes.grow().list);
    } else {
        look_for_change(rt, answer, router);
    }
}

/// A line and a request, answered on the calling thread.
fn answered_alone<R: Alloc<A = Global> + Eprint>(rt: &R, answer: &mut Answer) {
    let mut session = Session::new();
    let report = session.answer_line_alone(rt.alloc(), NETWORK_LINE);
    if let Some(Some(report)) = answer.value_or_report(rt, report) {
        answer.say(&report);
    }
    let request = Request::Ask(Question::Links);
    let mut rerouted = Vec::new(rt.alloc());
    put_line(
        rt,
        answer,
        session.answer_telling_alone(rt.alloc(), &request, &mut rerouted),
    );
}

/// A walk in an open round, on a settled chain.
fn walked_live<R: Alloc<A = Global> + Eprint>(rt: &R, answer: &mut Answer) {
    let alloc = rt.alloc();
    let Some(net) = answer.value_or_report(rt, Net::new(alloc, 4, &[(1, 0), (2, 1), (3, 2)])) else {
        return;
    };
    let (round, mut workers) = match Round::open(alloc, net, 0, 1) {
        Ok(opened) => opened,
        Err(fault) => return answer.lack(rt, fault.why),
    };
    if let Some(mut worker) = workers.pop() {
        let walk = live_walk(alloc, &round, &mut worker, 3, 10);
        if let Some(walk) = answer.value_or_report(rt, walk) {
            answer.put(&walk.nodes);
            answer.put(&walk.end);
        }
    }
}

/// The push order after node 1 sends on to 2, and the loop that is there if node 1 comes first.
fn pushed<R: Alloc<A = Global> + Eprint>(rt: &R, answer: &mut Answer) {
    let old = [Hop::Here, Hop::To(0), Hop::To(1), Hop::To(0)];
    let new = [Hop::Here, Hop::To(2), Hop::To(3), Hop::To(0)];
    if let Some(order) = answer.value_or_report(rt, push_order(rt.alloc(), &old, &new)) {
        answer.put(&order);
    }
    let between = [Hop::Here, Hop::To(2), Hop::To(1), Hop::To(0)];
    if let Some(found) = answer.value_or_report(rt, find_loop(rt.alloc(), &between)) {
        answer.put(&found);
    }
}

/// The nodes of a settled chain that are pushed into a table in which all are cut off.
fn pushed_to<R: Alloc<A = Global> + Eprint>(rt: &R, answer: &mut Answer, net: Net) {
    if let Some(router) = answer.value_or_report(rt, Router::open_alone(rt.alloc(), net, 0)) {
        let pushes = router.pushes(rt.alloc(), &[Hop::CutOff; 4]);
        if let Some(nodes) = answer.value_or_report(rt, pushes) {
            answer.put(&nodes);
        }
    }
}

/// A table that threads share, with three readers, each of which reads the hop of another node.
fn shared<R: Alloc<A = Global> + Eprint>(rt: &R, answer: &mut Answer) {
    let Some((mut publisher, mut first)) = answer.value_or_report(rt, open(rt.alloc(), 4)) else {
        return;
    };
    answer.put(&first.hop(1));
    if let Some(mut second) = answer.value_or_report(rt, publisher.reader()) {
        answer.put(&second.hop(2));
    }
    if let Some(mut third) = answer.value_or_report(rt, first.try_clone()) {
        answer.put(&third.hop(3));
    }
}
