//! A router: a settled network with its next hops and routes, and the changes after which it settles again.

ghost use Rattle.std.specs.Prelude.{◌≡◌, ◌≢◌, ◌<◌, ◌≤◌, [], ◌∷◌, length, max, replicate, take};
ghost use Rattle.std.specs.Prelude.{Some, IfOk, IfErr, IfSome, MatchOption, OnErr, OnOk};
ghost use Rattle.std.specs.Option.{option_copied};
ghost use Rattle.fr_graph.specs.Limits.{most_edits};
ghost use Rattle.fr_crew.specs.Settlements.{CanBegin, IsCounted};
ghost use Rattle.fr_route.specs.Ways.{Settles, NeverStarts};
ghost use Rattle.fr_route.specs.declared.fault.RouteFault.TheVariants.{Start, Memory};
ghost use Rattle.fr_route.specs.Listing.{nodes_told};
ghost use Rattle.fr_route.specs.NodeWays.{AreAllWays, AreNodeWays, AreWaysBelow, HasDistance, IsNearest};
ghost use Rattle.fr_route.specs.States.{IsAfterRound, IsCutOff, IsRound, IsReport};
ghost use Rattle.fr_route.specs.Routes.{IsHop, AreHops, IsWalked};
ghost use Rattle.fr_route.specs.Changes.{IsChanged, IsOpenFault, IsPlaced, IsRouteFault, IsStill, IsUndone};
ghost use Rattle.fr_route.specs.Reroutes.{ArePushes, AreReplaced, AreWaysIn, IsPushesFault, IsTableIn, LeadFromWays};
ghost use Rattle.fr_route.specs.Reroutes.{TellsRerouted, TellsReroutes, nodes_in};
ghost use Rattle.fr_route.specs.WayPushes.{IsPhasesFault, LeadToWays};
ghost use Rattle.fr_route.specs.Tries.{IsTried, change_of, edit_of, revision_of};
ghost use Rattle.fr_route.specs.Outcomes.{IsRoundFault};
ghost use Rattle.fr_tables.specs.Tables.{IsInRange as NamesNodes};
ghost use Rattle.fr_ways.specs.Ways.{IsInRange};
ghost use Rattle.fr_route.specs.Outcomes.{IsSettledTable, cut_off_nodes, movable, nodes_listed};

use crate::change::{Change, Report};
use crate::changed_nodes::ChangedNodes;
use crate::fault::{NotMade, RouteFault, without_edit_place};
use crate::forwarding::{ForwardingState, Moved, begin_telling};
use crate::hops::{AfterRound, Walked, resized_hops};
use crate::kept_distances::table_of_ways;
use crate::outcome::{
    count_isolated_nodes, ends_of_edit, push_capped_nodes, report_of, touched_nodes,
};
use crate::reroutes::Reroutes;
use crate::revision::Revision;
use crate::settling::{Settler, counts_without_crew};
use crate::spare_turns::SpareTurns;
use crate::turn_candidates::TurnCandidates;
use fr_crew::{Crew, CrewFault, Gate, Plan, settled_counts};
use fr_graph::{Edit, MAX_EDITS, Net, NetFault, Turns};
use fr_nearest::Distances;
use fr_tables::{Hop, TableFault, first_outside, known_push_order};
use fr_ways::{TwoPhases, WayTable, WaysFault, known_phases};
use std::alloc::{AllocError, Global};
use std::marker::Model;
use std::mem;
use std::sync::Wait;
use std::thread::Threads;

/// How many nodes of a route there is room for at first, so that the list of a short route never grows.
pub(crate) const ROUTE_ROOM: usize = 16;

/// A settled network: the links and counts after the last round, and the next hop of each node. The value in contracts
/// is the state: the number of nodes, the destination, the links in order, and the counts.
#[derive(Debug)]
pub struct Router {
    net: Net,
    dest: u32,
    turns: Turns,
    spare: SpareTurns,
    forwarding: ForwardingState,
    report: Report,
}

// Written by hand: code that drops a router proves this one call. With a derived Drop it proves how each part is dropped.
impl Drop for Router {
    fn drop(self) {
        let Router {
            net,
            dest: _,
            turns,
            spare,
            forwarding,
            report: _,
        } = self;
        drop(net);
        drop(turns);
        drop(spare);
        drop(forwarding);
    }
}

impl Model for Router {
    ghost use Rattle.fr_route.specs.States.{State};

    ghost Value = { State };

    ghost use Rattle.fr_route.specs.RouterInside.{state_of, IsSoundRouter};

    ghost view = { state_of };

    ghost invariant = { IsSoundRouter };
}

/// Replaces the turns of the last round by these, and keeps the old table for the next round.
fn keep_turns(last: &mut Turns, spare: &mut SpareTurns, turns: Turns)
    ensures { last.new ≡ turns }
{
    spare.store_cleared(mem::replace(last, turns));
}

/// The hops of the numbers below `count` in the router that another one replaces. Without a router, all are cut off.
fn hops_before(alloc: Global, before: Option<&Router>, count: u32) -> Result<Vec<Hop>, AllocError>
    requires { nodes_in (option_copied before) ≤ count }
    ensures { IfOk result (λ hops. IsTableIn (option_copied before.entry) count hops.items) }
{
    match before {
        Some(router) => router.hops_below(alloc, count),
        None => vec![in alloc; Hop::CutOff; count as usize],
    }
}

/// The ways of the nodes of the router that another one replaces. Without a router, there are none.
fn ways_before(alloc: Global, before: Option<&Router>) -> Result<WayTable, AllocError>
    ensures { IfOk result (AreWaysIn (option_copied before.entry)) }
{
    match before {
        Some(router) => router.all_ways(alloc),
        None => WayTable::with_capacity(alloc, 0, 0),
    }
}

impl<'a, F: Fn(&Net, u32, Option<&[u32]>, Turns) -> Result<Turns, CrewFault>> Settler<'a, F> {
    /// Settles a network.
    pub(crate) fn open(&self, net: Net, dest: u32) -> Result<Router, RouteFault>
        requires { Settles F.pre F.post self.now.settle.now }
        ensures opened { IfOk result (λ router. (dest < net.nodes) × IsRound net.nodes dest net.links router) }
        ensures fault { IfErr result (IsRoundFault (NeverStarts F.post self.now.settle.now) net dest) }
    {
        let turns = self.first_counts(&net, dest)?;
        Router::settled(self.alloc, net, dest, turns)
    }

    /// Changes the network or its destination in place, settles it again, and returns the report. All that the change needs
    /// is allocated and computed before anything is put in place.
    pub(crate) fn change(
        &self,
        router: &mut Router,
        change: &Change,
        told: &mut ChangedNodes,
    ) -> Result<Report, NotMade>
        requires { Settles F.pre F.post self.now.settle.now }
        ensures { IsTried (NeverStarts F.post self.now.settle.now) (change_of router.old change.now)
            router.old told.old result router.new told.new }
    {
        let dest = router.dest();
        match change {
            Change::Cut { u, v } => self.edit_one(router, Edit::Cut { u: *u, v: *v }, told),
            Change::Add { u, v } => self.edit_one(router, Edit::Add { u: *u, v: *v }, told),
            Change::Join { u, v } => self.edit_one(router, Edit::Join { u: *u, v: *v }, told),
            Change::Batch(edits) => self.edit(router, &Revision { edits, dest }, told),
            Change::Destination { dest } => {
                if *dest >= router.net.nodes() {
                    return Err(NotMade {
                        at: 0,
                        fault: RouteFault::Range,
                    });
                }
                let edits = &[];
                let dest = *dest;
                self.edit(router, &Revision { edits, dest }, told)
            }
        }
    }

    /// Makes one edit in place, and settles the network again.
    fn edit_one(
        &self,
        router: &mut Router,
        edit: Edit,
        told: &mut ChangedNodes,
    ) -> Result<Report, NotMade>
        requires { Settles F.pre F.post self.now.settle.now }
        ensures { IsTried (NeverStarts F.post self.now.settle.now) (edit_of router.old edit router.old.dest)
            router.old told.old result router.new told.new }
    {
        let dest = router.dest();
        let edits = &[edit];
        self.edit(router, &Revision { edits, dest }, told)
    }

    /// Makes these edits in place, and settles the network again, with the destination after them.
    pub(crate) fn edit(
        &self,
        router: &mut Router,
        revision: &Revision<'_>,
        told: &mut ChangedNodes,
    ) -> Result<Report, NotMade>
        requires settles { Settles F.pre F.post self.now.settle.now }
        requires node { revision.now.dest < router.old.nodes }
        ensures { IsTried (NeverStarts F.post self.now.settle.now) (revision_of router.old revision.now)
            router.old told.old result router.new told.new }
    {
        let movable = router.turn_candidates(self.alloc, revision)?;
        let distances = &mut router.forwarding.distances;
        begin_telling(told, distances, &router.net, router.dest, revision.edits)?;
        let from = movable.nodes();
        let spare = &mut router.spare;
        let outcome = self.edited_outcome(&mut router.net, spare, revision, from)?;
        let moved = Moved {
            edits: revision.edits,
            nodes: from,
        };
        router
            .forwarding
            .follow(&mut router.net, &outcome, &moved, told);
        keep_turns(&mut router.turns, &mut router.spare, outcome.turns);
        router.dest = revision.dest;
        router.report = outcome.report;
        Ok(outcome.report)
    }
}

impl Router {
    /// Settles a network by a crew, with this plan and gate. It waits for the threads of the crew, which end once the
    /// calls of the gate return.
    ///
    /// Fails with `Range` if the destination is not a node, with `Start` if a thread could not be started, and with
    /// `Memory` if an allocation is refused; never with `Net`. It does not fail with `Start` if the budget is 0, if
    /// there is one worker, or if no node can turn. If it fails, the network is dropped.
    ///
    /// O(n + m), and the cost of [`settle`](fr_crew::settle).
    pub fn open<R: Threads + Wait + Sync, G: Gate + Sync>(
        rt: &R,
        alloc: Global,
        net: Net,
        dest: u32,
        plan: &Plan,
        gate: &G,
    ) -> Result<Router, RouteFault>
        // Settled counts, their links, and a hop for each node.
        ensures opened { IfOk result (λ router. (dest < net.nodes) × IsRound net.nodes dest net.links router) }
        // `Range` exactly if the destination is not a node. Never `Net`.
        ensures fault { IfErr result (IsOpenFault net.nodes dest) }
        ensures still { IsStill net dest → IfErr result (λ fault. fault ≢ Start) }
        ensures one_worker { plan.now.workers ≡ 1 → IfErr result (λ fault. fault ≢ Start) }
        ensures no_start { plan.now.budget ≡ 0 → IfErr result (λ fault. fault ≢ Start) }
    {
        let crew = Crew {
            rt,
            alloc,
            plan,
            gate,
        };
        Settler::new(
            alloc,
            &|net, dest, from, turns|
                requires { CanBegin net.now dest from turns }
            { settled_counts(&crew, net, dest, from, turns) },
        )
        .open(net, dest)
    }

    /// Opens a router as [`open`](Self::open) does, on the calling thread. It starts no thread, does not wait, and
    /// never fails with `Start`. O(n + m), and the cost of [`Net::turn`].
    pub fn open_alone(alloc: Global, net: Net, dest: u32) -> Result<Router, RouteFault>
        ensures opened { IfOk result (λ router. (dest < net.nodes) × IsRound net.nodes dest net.links router) }
        ensures fault { IfErr result (IsOpenFault net.nodes dest) }
        ensures no_start { IfErr result (λ fault. fault ≢ Start) }
    {
        Settler::new(alloc, &counts_without_crew).open(net, dest)
    }

    /// The router of a network with these settled counts.
    fn settled(alloc: Global, mut net: Net, dest: u32, turns: Turns) -> Result<Router, RouteFault>
        requires { IsCounted net.nodes dest net.links turns }
        ensures opened { IfOk result (λ router. (dest < net.nodes) × IsRound net.nodes dest net.links router) }
        ensures fault { IfErr result (IsOpenFault net.nodes dest) }
        ensures no_start { IfErr result (λ fault. fault ≢ Start) }
    {
        net.network_law();
        let report = report_of(&net, dest, &turns);
        net.turn(&turns);
        let round = AfterRound {
            net: &net,
            dest,
            turns: &turns,
        };
        let forwarding = ForwardingState::after(alloc, &round)?;
        Ok(Router {
            net,
            dest,
            turns,
            spare: SpareTurns::none(),
            forwarding,
            report,
        })
    }

    /// Changes the network or its destination, settles the network again, and returns the report of the round. A crew
    /// settles it, with this plan and gate. A batch takes one round, after its last edit.
    ///
    /// Fails with `Net` and the fault for which the change is refused: a cut only for `NoLink`, an added link or a join
    /// for the faults of `Net::with_link` or `Net::with_join`, and a batch for its length or the first edit that
    /// `Net::with_edits` refuses. The fault names exactly the nodes or the cycle that these calls name. Fails with
    /// `Range` only for a destination that is not a node. Fails with `Start` and `Memory` as `open` does, but never
    /// with `Start` if the change is refused, nor with `Memory` for a destination that is not a node or for a batch that
    /// is too long. If it fails, the router is unchanged.
    ///
    /// The change is made in place, and everything that can fail comes before anything is kept. To find nodes that can
    /// turn, the call looks only at the ends of the edited links, at the two destinations, and at the nodes with links
    /// that the last round cut off. If none of these can turn, only their hops are updated. Otherwise the hops of all
    /// nodes that turn are updated too, and those of their neighbours that sent on to them. Parts with links that stay
    /// cut off turn again in each round, each of their nodes as often as there are nodes.
    ///
    /// The cost is that of [`Net::edit_if`], and O((e + k + 1) d) for e edits and k nodes with links that the last
    /// round cut off. It is O(n) more if k is not 0, at the first change, and after a failed call. If nodes turn, there
    /// is also the cost of [`settled_counts`] and [`Net::turn`], and one step for each link of these nodes and of the
    /// neighbours that sent on to them.
    pub fn change<R: Threads + Wait + Sync, G: Gate + Sync>(
        &mut self,
        rt: &R,
        alloc: Global,
        change: Change,
        plan: &Plan,
        gate: &G,
    ) -> Result<Report, RouteFault>
        // One round of a cut, an added link, a join, a batch or another destination.
        ensures changed { IfOk result (λ _. IsChanged self.old change self.new) }
        ensures report { IfOk result (λ report. IsReport self.new report.turned report.cut) }
        // `Net` with the exact fault, in a batch that of the first bad edit. `Range` only for a destination, `Start`
        // only for an accepted change. `Memory` never hides that a destination is not a node, or that a batch is too
        // long.
        ensures fault { IfErr result (IsRouteFault self.old change) }
        ensures unchanged { OnErr result (self.new ≡ self.old) }
        ensures one_worker { plan.now.workers ≡ 1 → IfErr result (λ fault. fault ≢ Start) }
        ensures no_start { plan.now.budget ≡ 0 → IfErr result (λ fault. fault ≢ Start) }
    {
        let crew = Crew {
            rt,
            alloc,
            plan,
            gate,
        };
        without_edit_place(Settler::new(
            alloc,
            &|net, dest, from, turns|
                requires { CanBegin net.now dest from turns }
            { settled_counts(&crew, net, dest, from, turns) },
        )
        .change(self, &change, &mut ChangedNodes::Unlisted))
    }

    /// Changes the network as [`change`](Self::change) does, on the calling thread. It starts no thread, does not wait,
    /// and never fails with `Start`. The cost is that of `change`, with [`settled_counts_alone`] if nodes turn.
    pub fn change_alone(&mut self, alloc: Global, change: Change) -> Result<Report, RouteFault>
        ensures changed { IfOk result (λ _. IsChanged self.old change self.new) }
        ensures report { IfOk result (λ report. IsReport self.new report.turned report.cut) }
        ensures fault { IfErr result (IsRouteFault self.old change) }
        ensures unchanged { OnErr result (self.new ≡ self.old) }
        ensures no_start { IfErr result (λ fault. fault ≢ Start) }
    {
        without_edit_place(Settler::new(alloc, &counts_without_crew).change(
            self,
            &change,
            &mut ChangedNodes::Unlisted,
        ))
    }

    /// Changes the network as `change_alone` does, and lists the rerouted nodes in the caller's list: those that now send on
    /// to another node, that are now cut off, or that are no longer cut off. The hops of all other nodes are unchanged.
    /// The nodes are in push order: each one comes after the rerouted nodes on its new route. If routers get their hops
    /// in this order, no packet goes round a loop at any moment ([`push_law`](fr_tables::laws::push_law)). If the call
    /// fails, the list and the router are unchanged.
    ///
    /// The list gets room for all nodes before anything is changed, and keeps it. A caller that passes the same list
    /// each time pays for this once. The cost is that of `change_alone`, and for more than one rerouted node that of
    /// [`PushRoom::order`](fr_tables::PushRoom::order): little for a few nodes, at most O(n).
    pub fn change_telling_alone(
        &mut self,
        alloc: Global,
        change: Change,
        rerouted: &mut Vec<u32>,
    ) -> Result<Report, NotMade>
        ensures changed { IfOk result (λ _. IsChanged self.old change self.new) }
        ensures report { IfOk result (λ report. IsReport self.new report.turned report.cut) }
        // Exactly the nodes whose hop changed, in push order.
        ensures told { TellsRerouted self.old result self.new rerouted.old.items rerouted.new.items }
        // As for `change`. `Net` names exactly the nodes, or the cycle, that `evidence_law` determines.
        ensures fault { IfErr result (IsUndone self.old change) }
        ensures unchanged { OnErr result (self.new ≡ self.old) }
        ensures no_start { IfErr result (λ undone. undone.fault ≢ Start) }
    {
        let mut told = ChangedNodes::from_list(rerouted, alloc);
        let report = Settler::new(alloc, &counts_without_crew).change(self, &change, &mut told);
        *rerouted = told.into_list(alloc);
        report
    }

    /// Changes the network as `change_telling_alone` does, and also lists what has to be pushed to routers that hold all
    /// their ways. First each node that loses ways gets those that it keeps. Once all of them have confirmed that, each node
    /// whose list still differs gets its new list. Each phase can be made in any order
    /// ([`phase_law`](fr_ways::laws::phase_law)). These are the pushes that [`phases`](Router::phases) lists from the ways
    /// before the change. If the call fails, the reroutes and the router are unchanged.
    ///
    /// The first call measures the distances, as [`ways`](Router::ways) does, and takes the memory for all nodes and links.
    /// A caller that passes the same reroutes each time pays for this once. The cost is that of `change_telling_alone`, and
    /// O(d log d) for each node whose list may have changed, which has d links.
    pub fn change_with_ways_alone(
        &mut self,
        alloc: Global,
        change: Change,
        reroutes: &mut Reroutes,
    ) -> Result<Report, NotMade>
        ensures changed { IfOk result (λ _. IsChanged self.old change self.new) }
        ensures report { IfOk result (λ report. IsReport self.new report.turned report.cut) }
        // The pushes that `Router::phases` lists from the ways before the change.
        ensures told { TellsReroutes self.old result self.new reroutes.old reroutes.new }
        // As for `change_telling_alone`. Then the lists are unchanged too.
        ensures fault { IfErr result (IsUndone self.old change) }
        ensures unchanged { OnErr result (self.new ≡ self.old) }
        ensures no_start { IfErr result (λ undone. undone.fault ≢ Start) }
    {
        Settler::new(alloc, &counts_without_crew).change(self, &change, &mut reroutes.told)
    }

    /// The nodes that can be sinks after these edits and the move of the destination, and whose hops can be wrong even
    /// if no node turns: those that the edits and the new destination touch, and those with links that the last round
    /// cut off. Every other node with a link still has a link that points away from it. Too many edits are refused
    /// before anything is allocated.
    fn turn_candidates(
        &self,
        alloc: Global,
        revision: &Revision<'_>,
    ) -> Result<TurnCandidates, NotMade>
        ensures movable { IfOk result
            (λ them. nodes_listed them ≡ movable self.now revision.now.dest revision.now.edits.now) }
        ensures few { OnOk result (length revision.now.edits.now ≤ most_edits) }
        ensures fault { IfErr result (IsPlaced self.now revision.now.edits.now revision.now.dest) }
        ensures no_start { IfErr result (λ undone. undone.fault ≢ Start) }
    {
        if revision.edits.len() > MAX_EDITS {
            return Err(NotMade {
                at: MAX_EDITS,
                fault: RouteFault::Net(NetFault::TooMany),
            });
        }
        let cut_off = self.linked_cut_off();
        if cut_off == 0 && revision.edits.len() == 1 {
            let (u, v) = ends_of_edit(revision.edits[0]);
            return Ok(TurnCandidates::Few([self.dest, revision.dest, u, v]));
        }
        let mut nodes = touched_nodes(alloc, self.dest, revision.dest, revision.edits)?;
        if cut_off > 0 {
            nodes.reserve(cut_off as usize)?;
            push_capped_nodes(&mut nodes, self.net.nodes(), self.turns.counts())?;
        }
        Ok(TurnCandidates::Many(nodes))
    }

    /// How many nodes with links the last round cut off. Each such node has turned as often as there are nodes.
    fn linked_cut_off(&self) -> u64
        ensures { result ≡ length (cut_off_nodes self.now) }
    {
        self.net.network_law();
        self.report.cut - count_isolated_nodes(&self.net, self.dest)
    }

    /// The report of the last round: how many turns it took, and how many nodes are cut off. O(1).
    pub fn report(&self) -> Report
        ensures { IsReport self.now result.turned result.cut }
    {
        self.report
    }

    /// The network after the last round. O(1).
    pub fn net(&self) -> &Net
        ensures nodes { result.now.nodes ≡ self.now.nodes }
        ensures links { result.now.links ≡ self.now.links }
    {
        &self.net
    }

    /// The destination, which is a node of the network. O(1).
    pub fn dest(&self) -> u32
        ensures value { result ≡ self.now.dest }
        ensures node { self.now.dest < self.now.nodes }
    {
        self.dest
    }

    /// How often each node turned in the last round: one count for each node. O(1).
    pub fn counts(&self) -> &[u64]
        ensures value { result.now ≡ self.now.counts }
        ensures one_each { length self.now.counts ≡ self.now.nodes }
    {
        self.turns.counts()
    }

    /// The hop of each node: a table without loops, by [`hops_law`](crate::laws::hops_law). O(1).
    pub fn hops(&self) -> &[Hop]
        ensures { AreHops self.now self.now.nodes result.now }
    {
        &self.forwarding.hops
    }

    /// The law of a router: its network is the result of a round. The function does nothing; call it where a proof
    /// needs the law.
    pub fn state_law(&self)
        // The router is in the state after a round.
        ensures { IsAfterRound self.now }
    {
        // A field has to be read, because only then the proof can use the invariant.
        let _dest = self.dest;
    }

    /// Lists the nodes whose hop differs from that in `before`, the router that this one replaces. They are in push
    /// order: each one comes after those of them on its route. A caller that keeps the hops of all nodes can push the
    /// new ones in this order. Numbers that are not nodes of a router count as cut off there. Without `before`, all
    /// nodes count as cut off before.
    ///
    /// Fails only with `Memory`, if an allocation is refused. O(n) for the n nodes of the larger network.
    pub fn changed_since(
        &self,
        alloc: Global,
        before: Option<&Router>,
    ) -> Result<Vec<u32>, RouteFault>
        // In push order. A number that is not a node of one of the two routers counts as cut off there.
        ensures changed { IfOk result (λ nodes. AreReplaced (option_copied before.entry) self.now nodes.items) }
        ensures memory { IfErr result (λ fault. fault ≡ Memory) }
    {
        let count = self.larger_node_count(before);
        let old = hops_before(alloc, before, count)?;
        let new = self.hops_below(alloc, count)?;
        Ok(known_push_order(alloc, &old, &new)?)
    }

    /// The pushes of both phases that lead from the ways of `before`, the router that this one replaces, to the ways of
    /// this one. Numbers that are not nodes of a router have no ways there. Without `before`, no node has ways before.
    pub(crate) fn phases_since(
        &self,
        alloc: Global,
        before: Option<&Router>,
    ) -> Result<TwoPhases, AllocError>
        ensures { IfOk result (LeadFromWays (option_copied before.entry) self.now) }
    {
        self.net.network_law();
        let old = ways_before(alloc, before)?;
        let new = self.ways_below(alloc, self.larger_node_count(before))?;
        known_phases(alloc, &old, &new)
    }

    /// How many numbers are nodes of this router or of the one that it replaces.
    fn larger_node_count(&self, before: Option<&Router>) -> u32
        ensures { result ≡ max self.now.nodes (nodes_in (option_copied before.entry)) }
    {
        let nodes = self.net.nodes();
        match before {
            Some(router) => nodes.max(router.net.nodes()),
            None => nodes,
        }
    }

    /// The ways of the numbers below `count`. A number that is not a node has none.
    fn ways_below(&self, alloc: Global, count: u32) -> Result<WayTable, AllocError>
        requires { self.now.nodes ≤ count }
        ensures ways { IfOk result (AreWaysBelow self.now count) }
        ensures range { IfOk result IsInRange }
    {
        self.net.network_law();
        let mut table = self.all_ways(alloc)?;
        'rows: while table.len() < count as usize {
            table.push_row(&[])?;
        }
        Ok(table)
    }

    /// The hops of the numbers below `count`. A number that is not a node is cut off.
    fn hops_below(&self, alloc: Global, count: u32) -> Result<Vec<Hop>, AllocError>
        requires { self.now.nodes ≤ count }
        ensures { IfOk result (λ hops. IsSettledTable self.now count hops.items) }
    {
        resized_hops(alloc, &self.forwarding.hops, count)
    }

    /// Lists the nodes whose hop in `table` differs from the hop here, in push order: each one comes after those of
    /// them on its route. A caller that pushes the hops of these nodes into the table, one after the other, ends with
    /// the hops of this router. At no moment is there a loop that was not in the table at first
    /// ([`push_law`](fr_tables::laws::push_law)), and no node that has a route in the table and here loses it
    /// ([`hops_law`](crate::laws::hops_law)). The table can have loops.
    ///
    /// The faults are tested in this order. Fails with `Length` if the table does not have one hop for each node, with
    /// `Range` and the node that the first out-of-range hop names, and with `Memory` if an allocation is refused; never
    /// with `Loop`. O(n).
    pub fn pushes(&self, alloc: Global, table: &[Hop]) -> Result<Vec<u32>, TableFault>
        ensures pushes { IfOk result (λ nodes. ArePushes self.now table.now nodes.items) }
        // `Length` exactly for another number of hops. `Range` with the first number out of range. Never `Loop`.
        // `Memory` only if neither `Length` nor `Range` applies.
        ensures fault { IfErr result (IsPushesFault self.now table.now) }
    {
        if table.len() != self.forwarding.hops.len() {
            return Err(TableFault::Length);
        }
        if let Some(x) = first_outside(table) {
            return Err(TableFault::Range(x));
        }
        Ok(self.known_pushes(alloc, table)?)
    }

    /// Lists the same nodes as [`pushes`](Router::pushes) without any test: the table must have one hop for each node, and
    /// each hop must name a node. Fails with `AllocError` if an allocation is refused. O(n).
    pub fn known_pushes(&self, alloc: Global, table: &[Hop]) -> Result<Vec<u32>, AllocError>
        requires nodes { length table.now ≡ self.now.nodes }
        // Each hop names a node.
        requires range { NamesNodes table.now }
        ensures { IfOk result (λ nodes. ArePushes self.now table.now nodes.items) }
    {
        self.net.network_law();
        known_push_order(alloc, table, &self.forwarding.hops)
    }

    /// The next hop of node `x`, which must be in the network: the neighbour with the lowest number to which a link
    /// from `x` points. `CutOff` if no path of links joins the node with the destination. O(1).
    pub fn next_hop(&self, x: u32) -> Hop
        requires { x < self.now.nodes }
        // `Here` only at the destination, `CutOff` exactly if there is no route.
        ensures { IsHop self.now x result }
    {
        self.forwarding.hops[x as usize]
    }

    /// Lists the ways of node `x`, which must be in the network: the nodes to which its links point, nearest first. Ways of
    /// the same distance are in ascending order. The destination has no way, and neither has a node that is cut off. The
    /// list is cleared first. It keeps its capacity, so that a caller who asks often allocates rarely.
    ///
    /// A packet may take any of the ways at each node: it visits no node twice, because the links contain no cycle.
    ///
    /// Fails with `AllocError`, and an empty list, if an allocation is refused. O(d log d) for d links of the node. The
    /// first such question also measures the distances of all nodes, in O(n + m). From then on each change keeps them up
    /// to date, so the router is needed as mutable, although its state stays the same.
    pub fn ways(&mut self, x: u32, list: &mut Vec<u32>) -> Result<(), AllocError>
        requires { x < self.old.nodes }
        ensures same { self.new ≡ self.old }
        // All nodes that the node's links point to, nearest first.
        ensures ways { OnOk result (AreNodeWays self.old x list.new.items) }
        ensures empty { OnErr result (list.new.items ≡ []) }
    {
        self.forwarding
            .distances
            .keep_from_now(&self.net, self.dest);
        self.forwarding.distances.table.ways(&self.net, x, list)
    }

    /// Lists the ways of node `x`, which must be in the network, as [`ways`](Router::ways) does, but in a caller's
    /// slice. It writes them to the front of the slice, and returns how many they are. The rest of the slice is space
    /// for the work: its values then mean nothing. So a caller who cannot allocate can ask for ways.
    ///
    /// The slice must have one place for each node of the network. It does not allocate. The cost is that of
    /// [`ways`](Router::ways).
    pub fn write_ways(&mut self, x: u32, space: &mut [u32]) -> usize
        requires node { x < self.old.nodes }
        requires space { self.old.nodes ≤ length space.old }
        ensures same { self.new ≡ self.old }
        ensures ways { AreNodeWays self.old x (take result space.new) }
        ensures few { result ≤ length space.new }
        ensures length { length space.new ≡ length space.old }
    {
        self.forwarding
            .distances
            .keep_from_now(&self.net, self.dest);
        self.forwarding
            .distances
            .table
            .write_ways(&self.net, x, space)
    }

    /// The distance of node `x`, which must be in the network: the fewest links that lead from it down to the
    /// destination. `None` if the node is cut off. O(1), and the first time as [`ways`](Router::ways) says.
    pub fn distance(&mut self, x: u32) -> Option<u32>
        requires { x < self.old.nodes }
        ensures same { self.new ≡ self.old }
        // The fewest links down to the destination. `None` exactly for a node that is cut off.
        ensures distance { HasDistance self.old x result }
    {
        self.forwarding
            .distances
            .keep_from_now(&self.net, self.dest);
        self.forwarding.distances.table.distance(x)
    }

    /// The ways of each node, as [`ways`](Router::ways) lists them. Fails with `AllocError` if an allocation is refused.
    /// O(n + m). It also measures the distances, unless they are kept.
    pub fn all_ways(&self, alloc: Global) -> Result<WayTable, AllocError>
        ensures { IfOk result (AreAllWays self.now) }
    {
        if self.forwarding.distances.are_kept {
            return table_of_ways(alloc, &self.net, &self.forwarding.distances.table);
        }
        let measured = Distances::measure(alloc, &self.net, self.dest)?;
        table_of_ways(alloc, &self.net, &measured)
    }

    /// What a controller pushes so that routers which hold the ways of `table` end with [all ways](Router::all_ways) of
    /// this router. First each node that loses a way gets those that it keeps; once all of them have confirmed that, each
    /// node whose list still differs gets its new list. Each phase can be made in any order. At each moment the ways
    /// that routers hold are a part of the table or of the new ways, so they have no cycle if the table has none
    /// ([`phase_law`](fr_ways::laws::phase_law)). The table can have cycles, and ways that are out of range.
    ///
    /// Fails with `Length` if the table does not have one list for each node, and with `Memory` if an allocation is
    /// refused; never with `Range` or `Cycle`. O(n + m), and the time to read the table.
    pub fn phases(&self, alloc: Global, table: &WayTable) -> Result<TwoPhases, WaysFault>
        // From any table of ways, the pushes of two phases lead to the ways of all nodes.
        ensures phases { IfOk result (LeadToWays self.now table.now) }
        // `Length` exactly if the table does not have a list for each node. Otherwise only `Memory`.
        ensures fault { IfErr result (IsPhasesFault self.now table.now) }
    {
        self.net.network_law();
        if table.len() != self.net.nodes() as usize {
            return Err(WaysFault::Length);
        }
        let wanted = self.all_ways(alloc)?;
        Ok(known_phases(alloc, table, &wanted)?)
    }

    /// A route of the fewest links from node `x` along the links to the destination: each node is the nearest way of the
    /// one before. The node must be in the network. Fails only with `Memory`, if an allocation is refused. O(r d) for a
    /// route of r nodes, none of which has more than d links, and the first time as [`ways`](Router::ways) says.
    pub fn nearest(&mut self, alloc: Global, x: u32) -> Result<Walked, RouteFault>
        requires { x < self.old.nodes }
        ensures same { self.new ≡ self.old }
        // The route follows first ways, unless the node is cut off.
        ensures walked { IfOk result (IsNearest self.old x) }
        // `Memory` is the only fault.
        ensures memory { IfErr result (λ fault. fault ≡ Memory) }
    {
        self.forwarding
            .distances
            .keep_from_now(&self.net, self.dest);
        match self.forwarding.distances.table.walk(alloc, &self.net, x)? {
            Some(route) => Ok(Walked::Route(route)),
            None => Ok(Walked::CutOff),
        }
    }

    /// The route from node `x` to the destination, hop by hop. The node must be in the network. Fails only with
    /// `Memory`, if an allocation is refused. O(r) for a route of r nodes.
    pub fn walk(&self, alloc: Global, x: u32) -> Result<Walked, RouteFault>
        requires { x < self.now.nodes }
        // The whole route. `Here` only at the destination, `CutOff` exactly if there is no route.
        ensures walked { IfOk result (IsWalked self.now x) }
        ensures memory { IfErr result (λ fault. fault ≡ Memory) }
    {
        self.net.network_law();
        if self.next_hop(x) == Hop::CutOff {
            return Ok(Walked::CutOff);
        }
        let mut route = Vec::with_capacity(alloc, ROUTE_ROOM)?;
        route.push(x)?;
        let mut at = x;
        'hops: while let Hop::To(next) = self.next_hop(at) {
            route.push(next)?;
            at = next;
        }
        Ok(Walked::Route(route))
    }
}
