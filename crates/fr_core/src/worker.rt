//! The workers of a machine.

ghost use Rattle.std.specs.Prelude.{◌≡◌, ◌<◌, ◌≤◌, ◌^◌, All, length};
ghost use Rattle.fr_graph.specs.Rows.{row};
ghost use Rattle.fr_core.specs.Machine.{fresh, all_but_first, load_own, load_to_look, load_neighbour};
ghost use Rattle.fr_core.specs.Machine.{exchange, confirm, phase_unheld, step_idle, outcome, bound_of};
ghost use Rattle.fr_core.specs.Targets.{node_of};
ghost use Rattle.fr_core.specs.Sound.{CanStep, IsOnNode, outcome_with};
ghost use Rattle.fr_core.specs.declared.worker.Phase.TheVariants.{Idle};

use crate::entry::Reply;
use crate::targets::Target;
use fr_graph::{First, Net};
use std::collections::VecDeque;
use std::marker::Model;

/// How far a worker is in a call on a node.
#[derive(Debug, Drop, Clone, Copy, PartialEq, Eq)]
pub(crate) enum Phase {
    /// The worker is not in a call.
    Idle,
    /// The node of the target had this count, and the neighbour at this place of its row is the next one to look at.
    Looking {
        target: Target,
        count: u64,
        place: u32,
    },
    /// The node of a turn had this count, and no neighbour held it.
    Swapping {
        node: u32,
        count: u64,
    },
    /// The node of a look had this count, and no neighbour held it.
    Confirming {
        node: u32,
        count: u64,
    },
}

/// A worker: the targets that it has not used up, and how far it is in the call on the first of them.
#[derive(Debug, Drop)]
pub(crate) struct Worker {
    left: VecDeque<Target>,
    phase: Phase,
}

/// A call that has begun: its target, and the count of the target's node that the worker loaded.
#[derive(Drop, Clone, Copy)]
struct Call {
    target: Target,
    count: u64,
}

impl Model for Worker {
    ghost use Rattle.fr_core.specs.Machine.{WorkerState};

    ghost Value = { WorkerState };

    ghost view = { λ s. record { left = s.left.items; phase = s.phase } };
}

/// The bound of a neighbour. Its link points to a node with this count once the neighbour's count is at least the
/// bound.
fn neighbour_bound(first: First, count: u64) -> u64
    requires { count < 2 ^ 32 }
    ensures { result ≡ bound_of first count }
{
    match first {
        First::Outward => count + 1,
        First::Inward => count,
    }
}

/// The phase of a call after no neighbour held the node.
fn phase_if_not_held(target: Target, count: u64) -> Phase
    ensures { result ≡ phase_unheld target count }
{
    match target {
        Target::Turn(node) => Phase::Swapping { node, count },
        Target::Look(node) => Phase::Confirming { node, count },
    }
}

impl Worker {
    /// A worker before its first step.
    pub fn new(targets: Vec<Target>) -> Worker
        ensures { result ≡ fresh targets.items }
    {
        Worker {
            left: VecDeque::from_vec(targets),
            phase: Phase::Idle,
        }
    }

    fn phase(&self) -> Phase
        ensures { result ≡ self.now.phase }
    {
        self.phase
    }

    /// Ends a decided call, which uses up its target.
    fn end_call(&mut self)
        ensures { self.new ≡ record { left = all_but_first self.old.left; phase = Idle } }
    {
        self.left.pop_front();
        self.phase = Phase::Idle;
    }

    /// Loads the own count for a turn.
    fn load_own_for_turn(&mut self, nodes: u32, counts: &[u64], node: u32) -> Option<(u32, Reply)>
        requires { node < length counts.now }
        ensures { outcome_with counts.now self.new result ≡ load_own nodes counts.now self.old.left node }
    {
        let count = counts[node as usize];
        if count == u64::from(nodes) {
            self.end_call();
            return Some((node, Reply::Cut));
        }
        self.phase = Phase::Looking {
            target: Target::Turn(node),
            count,
            place: 0,
        };
        None
    }

    /// Loads the own count for a look.
    fn load_own_for_look(&mut self, counts: &[u64], node: u32) -> Option<(u32, Reply)>
        requires { node < length counts.now }
        ensures { outcome_with counts.now self.new result ≡ load_to_look counts.now self.old.left node }
    {
        self.phase = Phase::Looking {
            target: Target::Look(node),
            count: counts[node as usize],
            place: 0,
        };
        None
    }

    /// Makes the first step of a call.
    fn begin_call(&mut self, nodes: u32, counts: &[u64]) -> Option<(u32, Reply)>
        requires inside { All (IsOnNode (length counts.now)) self.old.left }
        requires phase { self.old.phase ≡ Idle }
        ensures { outcome_with counts.now self.new result ≡ step_idle nodes counts.now self.old.left }
    {
        let Some(target) = self.left.front() else {
            return None;
        };
        match *target {
            Target::Turn(node) => self.load_own_for_turn(nodes, counts, node),
            Target::Look(node) => self.load_own_for_look(counts, node),
        }
    }

    /// Loads a neighbour's count.
    fn load_neighbour_count(
        &mut self,
        net: &Net,
        counts: &[u64],
        call: Call,
        place: u32,
    ) -> Option<(u32, Reply)>
        requires node { node_of call.target < net.now.nodes }
        requires place { place < length (row net.now.nodes net.now.links (node_of call.target)) }
        requires one_each { length counts.now ≡ net.now.nodes }
        requires capped { call.count ≤ net.now.nodes }
        ensures { outcome_with counts.now self.new result
            ≡ load_neighbour (row net.now.nodes net.now.links (node_of call.target)) counts.now self.old.left call.target call.count place }
    {
        // By this law, there are few nodes, and so few neighbours.
        net.network_law();
        let node = call.target.node();
        let degree = net.degree(node);
        let (neighbour, first) = net.neighbour(node, place);
        if counts[neighbour as usize] < neighbour_bound(first, call.count) {
            self.end_call();
            return Some((node, Reply::Held { by: neighbour }));
        }
        self.phase = if place + 1 == degree {
            phase_if_not_held(call.target, call.count)
        } else {
            Phase::Looking {
                target: call.target,
                count: call.count,
                place: place + 1,
            }
        };
        None
    }

    /// Exchanges the own count.
    fn exchange_own_count(
        &mut self,
        counts: &mut [u64],
        node: u32,
        count: u64,
    ) -> Option<(u32, Reply)>
        requires node { node < length counts.old }
        requires below_cap { count < 2 ^ 32 }
        ensures { outcome_with counts.new self.new result ≡ exchange counts.old self.old.left node count }
    {
        let found = counts[node as usize];
        self.end_call();
        let reply = if found == count {
            counts[node as usize] = count + 1;
            Reply::Turned { count: count + 1 }
        } else {
            Reply::Moved {
                had: count,
                count: found,
            }
        };
        Some((node, reply))
    }

    /// Loads the own count a second time, which ends a look.
    fn confirm_own_count(&mut self, counts: &[u64], node: u32, count: u64) -> Option<(u32, Reply)>
        requires { node < length counts.now }
        ensures { outcome_with counts.now self.new result ≡ confirm counts.now self.old.left node count }
    {
        self.end_call();
        let found = counts[node as usize];
        if found == count {
            return Some((node, Reply::Sink));
        }
        Some((
            node,
            Reply::Moved {
                had: count,
                count: found,
            },
        ))
    }

    /// Makes one step: the load or the exchange of one count. Returns the node and the reply of the call if the step
    /// decides it.
    pub fn step(&mut self, net: &Net, counts: &mut [u64]) -> Option<(u32, Reply)>
        requires one_each { length counts.old ≡ net.now.nodes }
        requires can { CanStep net.now.nodes net.now.links self.old }
        ensures { outcome_with counts.new self.new result
            ≡ outcome net.now.nodes net.now.links counts.old self.old.left self.old.phase }
    {
        let nodes = net.nodes();
        match self.phase() {
            Phase::Idle => self.begin_call(nodes, counts),
            Phase::Looking {
                target,
                count,
                place,
            } => self.load_neighbour_count(net, counts, Call { target, count }, place),
            Phase::Swapping { node, count } => self.exchange_own_count(counts, node, count),
            Phase::Confirming { node, count } => self.confirm_own_count(counts, node, count),
        }
    }
}
