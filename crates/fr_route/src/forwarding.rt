//! What a router keeps to forward packets, and how it follows a round.

ghost use Rattle.std.specs.Prelude.{◌≡◌, ℕ, ◌<◌, ◌≤◌, List, IfOk, IsTrue, length};
ghost use Rattle.fr_graph.specs.Counts.{links_at};
ghost use Rattle.fr_graph.specs.Limits.{most_edits};
ghost use Rattle.fr_graph.specs.Network.{net_of};
ghost use Rattle.fr_route.specs.Forwarding.{CanFollow, CanTell, HasFollowed, IsReady};
ghost use Rattle.fr_route.specs.KeptDistances.{KeepsDistances};
ghost use Rattle.fr_route.specs.Outcomes.{state_after};
ghost use Rattle.fr_route.specs.Routes.{AreHops};
ghost use Rattle.fr_route.specs.States.{IsAfterRound, State, state_with};

use crate::changed_nodes::ChangedNodes;
use crate::hops::{AfterRound, hop_table};
use crate::kept_distances::KeptDistances;
use crate::outcome::{Outcome, apply_outcome};
use fr_graph::{Edit, Net};
use fr_tables::{Hop, PushRoom};
use std::alloc::{AllocError, Global};

/// What a router keeps to forward packets, beside its network: the next hops, the distances, and room to put rerouted
/// nodes in order.
#[derive(Debug)]
pub(crate) struct ForwardingState {
    pub(crate) hops: Vec<Hop>,
    pub(crate) distances: KeptDistances,
    pub(crate) room: PushRoom,
}

// Written by hand: code that drops a forwarding state proves this one call. With a derived Drop it proves how each part
// is dropped.
impl Drop for ForwardingState {
    fn drop(self) {
        let ForwardingState {
            hops,
            distances,
            room,
        } = self;
        drop(hops);
        drop(distances);
        drop(room);
    }
}

/// What edits and a new destination change before nodes turn.
#[derive(Clone, Copy)]
pub(crate) struct Moved<'a> {
    /// The edits, which are made.
    pub(crate) edits: &'a [Edit],
    /// The nodes that can be sinks, or whose hops can be wrong even if no node turns.
    pub(crate) nodes: &'a [u32],
}

/// Gets ready to tell of a change of this network by these edits, before it is made: makes room in the list, and takes
/// the memory to note ways, if the caller asks for that. Then the distances are kept from now on.
pub(crate) fn begin_telling(
    told: &mut ChangedNodes,
    distances: &mut KeptDistances,
    net: &Net,
    dest: u32,
    edits: &[Edit],
) -> Result<(), AllocError>
    requires node { dest < net.now.nodes }
    requires kept { (counts : List ℕ) × KeepsDistances (state_with net.now dest counts) distances.old }
    requires few { length edits.now ≤ most_edits }
    ensures { IsReady net.now dest edits.now told.old result told.new distances.new }
{
    told.make_room(net.nodes())?;
    distances.keep_if_asked(told.wants_ways(), net, dest);
    told.begin_ways(net, &distances.table, edits)
}

impl ForwardingState {
    /// The forwarding state after this round. Its distances are not kept yet.
    pub(crate) fn after(
        alloc: Global,
        round: &AfterRound<'_>,
    ) -> Result<ForwardingState, AllocError>
        requires { IsAfterRound (state_after round.now) }
        ensures hops { IfOk result (λ made. AreHops (state_after round.now) round.now.net.now.nodes made.hops.items) }
        ensures distances { IfOk result (λ made. length made.distances.table.table ≡ round.now.net.now.nodes) }
        ensures unkept { IfOk result (λ made. ¬ IsTrue made.distances.are_kept) }
        ensures room { IfOk result (λ made. made.room ≡ round.now.net.now.nodes) }
    {
        Ok(ForwardingState {
            hops: hop_table(alloc, round)?,
            distances: KeptDistances::unmeasured(alloc, round.net)?,
            room: PushRoom::new(alloc, round.net.nodes())?,
        })
    }

    /// Puts a round in place on a network whose edits are made: turns its links, and updates the hops and the
    /// distances. Lists the rerouted nodes in push order and notes ways, if the caller asks for that.
    pub(crate) fn follow(
        &mut self,
        net: &mut Net,
        outcome: &Outcome,
        moved: &Moved<'_>,
        told: &mut ChangedNodes,
    )
        requires follows { CanFollow net.old outcome.now moved.now self.old }
        requires tells { (s : State) × CanTell s net.old outcome.now moved.now.edits.now self.old told.old }
        ensures net { net.new ≡ net_of net.old.nodes (links_at net.old.links outcome.now.turns) }
        ensures followed { HasFollowed net.old outcome.now moved.now.edits.now self.old told.old self.new told.new }
    {
        net.network_law();
        apply_outcome(net, &mut self.hops, outcome, moved.nodes, told);
        let distances = &mut self.distances;
        distances.renew(net, outcome, moved.edits);
        told.put_in_order(&mut self.room, &self.hops);
        told.note_ways(net, &outcome.turns, &distances.table, moved.edits);
    }
}
