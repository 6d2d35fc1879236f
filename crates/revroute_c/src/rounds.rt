//! The calls with numbers that begin a round: a network, edits, another destination.

ghost use Rattle.std.specs.Prelude.{◌≡◌, ◌≢◌, ◌<◌, ◌≤◌, ◌⊎◌, ◌↔◌, false, length, map, true, None, IfOk, IfErr, IfSome};
ghost use Rattle.fr_graph.specs.Batches.{AreMade, IsBatchFault};
ghost use Rattle.fr_graph.specs.Evidence.{NamesFirst, NamesInBatch};
ghost use Rattle.fr_graph.specs.Faults.{IsFirstFault, IsNetworkOf};
ghost use Rattle.fr_graph.specs.Limits.{most_edits};
ghost use Rattle.fr_requests.specs.Requests.{make_edits, move_dest, new_network};
ghost use Rattle.fr_graph.specs.declared.fault.EditFault.{EditFault};
ghost use Rattle.fr_graph.specs.declared.fault.NetFault.TheVariants.{Memory};
ghost use Rattle.fr_readers.specs.Answers.{MakesChange, NotesPushes};
ghost use Rattle.fr_route.specs.Answers.{IsAccepted};
ghost use Rattle.fr_route.specs.Changes.{IsPlaced};
ghost use Rattle.fr_route.specs.States.{State, net_at};
ghost use Rattle.fr_route.specs.declared.fault.RouteFault.TheVariants.{Start};
ghost use Rattle.revroute_c.specs.Lending.{held_by, IsNull};
ghost use Rattle.revroute_c.specs.Records.{AreKnown, edit_of, link_of};
ghost use Rattle.revroute_c.specs.Rounds.{round_outcome, BeginsRound, IsChangeRefused, IsEditRefused, IsMoveRefused};
ghost use Rattle.revroute_c.specs.Rounds.{IsNewFault, IsNewRefused, KeepsPushes, first_step, nodes_named, nodes_of_edit};
ghost use Rattle.revroute_c.specs.Rounds.{refusal_at};

use crate::handle::Handle;
use crate::records::{Link, LinkEdit, Refusal, Round, edits_of, pairs_of, round_of};
use crate::session_state::SessionState;
use crate::statuses::{ANSWERED, NO_MEMORY, NO_NETWORK, REFUSED};
use fr_graph::{EditFault, MAX_EDITS, Net, NetFault};
use fr_readers::PublishedSession;
use fr_route::{Change, NotMade, Report, RouteFault, Router, fault_number};
use std::alloc::Global;

/// The first step along a cycle.
fn step_of(walk: &[u32]) -> (u32, u32)
    ensures { result ≡ first_step walk.now }
{
    if walk.len() < 2 {
        return (0, 0);
    }
    (walk[0], walk[1])
}

/// The nodes that a fault of links names.
pub(crate) fn named_nodes(fault: &NetFault) -> (u32, u32)
    ensures { result ≡ nodes_named fault.now }
{
    match fault {
        NetFault::Range(x) => (*x, *x),
        NetFault::SelfLink(x) => (*x, *x),
        NetFault::Twice(u, v) => (*u, *v),
        NetFault::Cycle(walk) => step_of(walk),
        NetFault::TooMany | NetFault::NoLink | NetFault::Memory => (0, 0),
    }
}

/// The nodes that a fault of an edit names.
fn edited_nodes(edit: LinkEdit, fault: &NetFault) -> (u32, u32)
    ensures { result ≡ nodes_of_edit edit fault.now }
{
    match fault {
        NetFault::Cycle(_) | NetFault::NoLink => (edit.u, edit.v),
        _ => named_nodes(fault),
    }
}

/// The refusal for a fault at this place, with these nodes.
pub(crate) fn refusal_for(at: usize, fault: &NetFault, nodes: (u32, u32)) -> Refusal
    ensures { result ≡ refusal_at at fault.now nodes }
{
    Refusal {
        number: fault_number(fault),
        u: nodes.0,
        v: nodes.1,
        at,
    }
}

/// The network with these links.
pub(crate) fn network_of(alloc: Global, nodes: u32, links: &[Link]) -> Result<Net, NetFault>
    ensures ok { IfOk result (IsNetworkOf nodes (map link_of links.now)) }
    ensures refused { IfErr result (λ fault. fault ≢ Memory → IsFirstFault nodes (map link_of links.now) fault) }
    ensures names { IfErr result (NamesFirst nodes (map link_of links.now)) }
{
    let pairs = pairs_of(alloc, links)?;
    Net::new(alloc, nodes, &pairs)
}

/// A network that a caller asks for, with its destination.
#[derive(Drop)]
pub(crate) struct NewNetwork<'a> {
    pub(crate) nodes: u32,
    pub(crate) dest: u32,
    pub(crate) links: &'a [Link],
}

impl<'a> NewNetwork<'a> {
    /// The router of the network. Fails with `Range` if the destination is not a node.
    fn open_router(&self, alloc: Global) -> Result<Router, NetFault>
        ensures accepted { IfOk result (IsAccepted None
            (new_network self.now.nodes self.now.dest (map link_of self.now.links.now))) }
        ensures refused { IfErr result (λ fault. fault ≢ Memory
            → IsNewFault self.now.nodes self.now.dest (map link_of self.now.links.now) fault) }
    {
        let net = network_of(alloc, self.nodes, self.links)?;
        if self.dest >= self.nodes {
            return Err(NetFault::Range(self.dest));
        }
        match Router::open_alone(alloc, net, self.dest) {
            Ok(router) => Ok(router),
            Err(RouteFault::Memory) => Err(NetFault::Memory),
            Err(RouteFault::Net(_) | RouteFault::Range | RouteFault::Start) => unreachable!(),
        }
    }
}

/// Refuses a network for a fault.
pub(crate) fn refuse_links(refusal: &mut Refusal, fault: &NetFault) -> u32
    ensures status { result ≡ REFUSED }
    ensures refused { refusal.new ≡ refusal_at 0 fault.now (nodes_named fault.now) }
{
    *refusal = refusal_for(0, fault, named_nodes(fault));
    REFUSED
}

/// Replaces the network, and lists the nodes whose hop has changed.
pub(crate) fn open_in(
    state: &mut SessionState,
    alloc: Global,
    asked: &NewNetwork,
    round: &mut Round,
    refusal: &mut Refusal,
) -> u32
    ensures begins { BeginsRound (new_network asked.now.nodes asked.now.dest (map link_of asked.now.links.now))
        (IsNewRefused asked.now.nodes asked.now.dest (map link_of asked.now.links.now)) state.old state.new
        (round_outcome result round.old round.new refusal.old refusal.new) }
    ensures pushes { state.new.pushes ≡ state.old.pushes }
    ensures status { (result ≡ ANSWERED) ⊎ (result ≡ NO_MEMORY) ⊎ (result ≡ REFUSED) }
{
    let router = match asked.open_router(alloc) {
        Ok(router) => router,
        Err(NetFault::Memory) => return NO_MEMORY,
        Err(fault) => return refuse_links(refusal, &fault),
    };
    let report = router.report();
    if state.published.put_router(alloc, router).is_err() {
        return NO_MEMORY;
    }
    *round = round_of(report);
    ANSWERED
}

/// Opens a network in a new session, and lists the nodes whose hop has changed. The null handle gets the session if the
/// network is accepted.
pub(crate) fn open_in_new_session(
    handle: &mut Handle,
    alloc: Global,
    asked: &NewNetwork,
    round: &mut Round,
    refusal: &mut Refusal,
) -> u32
    requires null { IsNull handle.old }
    ensures begins { BeginsRound (new_network asked.now.nodes asked.now.dest (map link_of asked.now.links.now))
        (IsNewRefused asked.now.nodes asked.now.dest (map link_of asked.now.links.now))
        (held_by handle.old) (held_by handle.new)
        (round_outcome result round.old round.new refusal.old refusal.new) }
    ensures pushes { handle.new.pushes ≡ handle.old.pushes }
    ensures kept { ¬ (result ≡ ANSWERED) → handle.new ≡ handle.old }
    ensures status { (result ≡ ANSWERED) ⊎ (result ≡ NO_MEMORY) ⊎ (result ≡ REFUSED) }
{
    let Ok(mut state) = Box::new(alloc, SessionState::new(alloc)) else {
        return NO_MEMORY;
    };
    let status = open_in(&mut state, alloc, asked, round, refusal);
    if status == ANSWERED {
        handle.pointer().put(alloc, state);
    }
    status
}

/// The network with these edits made, or the first edit that is refused. Each kind must be known.
pub(crate) fn network_with_edits(
    net: &Net,
    alloc: Global,
    edits: &[LinkEdit],
) -> Result<Net, EditFault>
    ensures few { IfOk result (λ _. length edits.now ≤ most_edits) }
    ensures made { IfOk result (AreMade net.now (map edit_of edits.now)) }
    ensures refused { IfErr result (λ refused. refused.fault ≢ Memory
        → IsBatchFault net.now (map edit_of edits.now) refused × NamesInBatch net.now (map edit_of edits.now) refused) }
{
    let made = edits_of(alloc, edits)?;
    net.with_edits(alloc, &made)
}

/// Writes why edits of a network are not made, and which of them is refused.
fn report_refused_edit(edits: &[LinkEdit], undone: NotMade, refusal: &mut Refusal) -> u32
    requires few { length edits.now ≤ most_edits }
    requires undone { (s : State) × IsPlaced s (map edit_of edits.now) s.dest undone × (undone.fault ≢ Start) }
    ensures refused { result ≡ REFUSED → (s : State) → IsPlaced s (map edit_of edits.now) s.dest undone
        → IsEditRefused (net_at s) edits.now refusal.new }
    ensures unrefused { ¬ (result ≡ REFUSED) → refusal.new ≡ refusal.old }
    ensures status { (result ≡ NO_MEMORY) ⊎ (result ≡ REFUSED) }
{
    let NotMade { at, fault } = undone;
    match fault {
        RouteFault::Net(fault) => {
            *refusal = refusal_for(at, &fault, edited_nodes(edits[at], &fault));
            REFUSED
        }
        RouteFault::Memory => NO_MEMORY,
        RouteFault::Range | RouteFault::Start => unreachable!(),
    }
}

/// Edits that a caller asks for, and whether he also asks what they do to the ways of nodes.
#[derive(Drop)]
pub(crate) struct NewEdits<'a> {
    pub(crate) edits: &'a [LinkEdit],
    pub(crate) with_ways: bool,
}

/// Makes a change, and keeps what it does to the ways of nodes if the caller asks for that.
fn change_published(
    published: &mut PublishedSession,
    alloc: Global,
    change: Change,
    with_ways: bool,
) -> Option<Result<Report, NotMade>>
    ensures changes { MakesChange published.old change result published.new }
    ensures noted { with_ways ≡ true → NotesPushes published.old result published.new }
    ensures kept { with_ways ≡ false → published.new.pushes ≡ published.old.pushes }
{
    if with_ways {
        published.change_with_ways(alloc, change)
    } else {
        published.change(alloc, change)
    }
}

/// Makes edits of known kinds, with one round after the last, and lists the nodes that it reroutes.
pub(crate) fn change_in(
    state: &mut SessionState,
    alloc: Global,
    asked: &NewEdits<'_>,
    round: &mut Round,
    refusal: &mut Refusal,
) -> u32
    requires { AreKnown asked.now.edits.now }
    ensures begins { BeginsRound (make_edits (map edit_of asked.now.edits.now))
        (IsChangeRefused state.old.session asked.now.edits.now) state.old state.new
        (round_outcome result round.old round.new refusal.old refusal.new) }
    ensures pushes { KeepsPushes asked.now.with_ways result state.old state.new }
    ensures no_network { (result ≡ NO_NETWORK) ↔ (state.old.session ≡ None) }
    ensures no_memory { result ≡ NO_MEMORY → length asked.now.edits.now ≤ most_edits }
    ensures status { (result ≡ ANSWERED) ⊎ (result ≡ NO_MEMORY) ⊎ (result ≡ NO_NETWORK) ⊎ (result ≡ REFUSED) }
{
    if state.session().router().is_none() {
        return NO_NETWORK;
    }
    let edits = asked.edits;
    if edits.len() > MAX_EDITS {
        *refusal = refusal_for(MAX_EDITS, &NetFault::TooMany, (0, 0));
        return REFUSED;
    }
    let Ok(made) = edits_of(alloc, edits) else {
        return NO_MEMORY;
    };
    let change = Change::Batch(made);
    match change_published(&mut state.published, alloc, change, asked.with_ways) {
        Some(Ok(report)) => {
            *round = round_of(report);
            ANSWERED
        }
        Some(Err(undone)) => report_refused_edit(edits, undone, refusal),
        None => unreachable!(),
    }
}

/// Moves the destination, with one round after it, and lists the nodes that it reroutes.
pub(crate) fn move_dest_in(
    state: &mut SessionState,
    alloc: Global,
    dest: u32,
    round: &mut Round,
    refusal: &mut Refusal,
) -> u32
    ensures begins { BeginsRound (move_dest dest) (IsMoveRefused state.old.session dest) state.old state.new
        (round_outcome result round.old round.new refusal.old refusal.new) }
    ensures pushes { state.new.pushes ≡ state.old.pushes }
    ensures no_network { (result ≡ NO_NETWORK) ↔ (state.old.session ≡ None) }
    ensures no_memory { result ≡ NO_MEMORY → IfSome state.old.session (λ s. dest < s.nodes) }
    ensures status { (result ≡ ANSWERED) ⊎ (result ≡ NO_MEMORY) ⊎ (result ≡ NO_NETWORK) ⊎ (result ≡ REFUSED) }
{
    let Some(router) = state.session().router() else {
        return NO_NETWORK;
    };
    if dest >= router.net().nodes() {
        *refusal = refusal_for(0, &NetFault::Range(dest), (dest, dest));
        return REFUSED;
    }
    match state.published.change(alloc, Change::Destination { dest }) {
        Some(Ok(report)) => {
            *round = round_of(report);
            ANSWERED
        }
        Some(Err(undone)) => match undone.fault {
            RouteFault::Memory => NO_MEMORY,
            RouteFault::Net(_) | RouteFault::Range | RouteFault::Start => unreachable!(),
        },
        None => unreachable!(),
    }
}
