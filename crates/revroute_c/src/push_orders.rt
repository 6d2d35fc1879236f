//! The push order between two tables of the caller.

ghost use Rattle.std.specs.Prelude.{◌≡◌, ◌<◌, ◌≤◌, ◌++◌, [], ◌∷◌, find, length, slice_index};
ghost use Rattle.std.specs.Prelude.{IfErr, IfNone, IfOk, IfSome};
ghost use Rattle.fr_graph.specs.Limits.{most_nodes};
ghost use Rattle.fr_tables.specs.Faults.{IsFaultOf, IsOrdered};
ghost use Rattle.revroute_c.specs.PushOrders.{hops_of, nodes_of, AreInRange, AreNoTables, OrdersPushes};
ghost use Rattle.revroute_c.specs.PushOrders.{TellsCycle};
ghost use Rattle.revroute_c.specs.Replies.{outcome};
ghost use Rattle.revroute_c.specs.Tables.{is_outside};

use crate::records::Refusal;
use crate::replies::hand_out;
use crate::rounds::{named_nodes, refusal_for};
use crate::statuses::{ANSWERED, NO_MEMORY, REFUSED};
use crate::tables::{first_outside, table_of};
use fr_graph::{MAX_NODES, NetFault};
use fr_route::Hop;
use fr_tables::{TableFault, push_order};
use std::alloc::{AllocError, Global};

/// Two tables of the caller, with hops as numbers. A node past the end of a table is cut off.
#[derive(Drop)]
pub(crate) struct Tables<'a> {
    pub(crate) old: &'a [u32],
    pub(crate) new: &'a [u32],
}

impl<'a> Tables<'a> {
    /// How many nodes the tables have.
    fn nodes(&self) -> usize
        ensures { result ≡ nodes_of self.now.old.now self.now.new.now }
    {
        self.old.len().max(self.new.len())
    }

    /// The first of their numbers that names no hop.
    fn first_invalid_hop(&self) -> Option<u32>
        requires { nodes_of self.now.old.now self.now.new.now ≤ most_nodes }
        ensures { result ≡ find (is_outside (nodes_of self.now.old.now self.now.new.now))
            (self.now.old.now ++ self.now.new.now) }
    {
        let nodes = self.nodes() as u32;
        first_outside(nodes, self.old).or(first_outside(nodes, self.new))
    }

    /// Why the tables are refused, whatever hops the new one has.
    fn refusal(&self) -> Option<Refusal>
        ensures refused { IfSome result (AreNoTables self.now.old.now self.now.new.now) }
        ensures none { IfNone result (AreInRange self.now.old.now self.now.new.now) }
    {
        if self.nodes() > MAX_NODES as usize {
            return Some(refusal_for(0, &NetFault::TooMany, (0, 0)));
        }
        let x = self.first_invalid_hop()?;
        Some(refusal_for(0, &NetFault::Range(x), (x, x)))
    }

    /// The push order.
    #[tactic(auto, using(crate::proofs::InRange::are_tables))]
    fn order(&self, alloc: Global) -> Result<Vec<u32>, TableFault>
        requires { AreInRange self.now.old.now self.now.new.now }
        ensures order { IfOk result (λ order.
            IsOrdered (hops_of (nodes_of self.now.old.now self.now.new.now) self.now.old.now)
            (hops_of (nodes_of self.now.old.now self.now.new.now) self.now.new.now) order.items) }
        ensures fault { IfErr result (IsFaultOf (hops_of (nodes_of self.now.old.now self.now.new.now) self.now.old.now)
            (hops_of (nodes_of self.now.old.now self.now.new.now) self.now.new.now)) }
    {
        let nodes = self.nodes();
        let old = hops(alloc, self.old, nodes)?;
        let new = hops(alloc, self.new, nodes)?;
        push_order(alloc, &old, &new)
    }
}

/// The hops of a table for this many nodes, at least as many as it has.
fn hops(alloc: Global, table: &[u32], nodes: usize) -> Result<Vec<Hop>, AllocError>
    requires { length table.now ≤ nodes }
    ensures { IfOk result (λ hops. hops.items ≡ hops_of nodes table.now) }
{
    let mut hops = table_of(alloc, table)?;
    hops.resize(nodes, Hop::CutOff)?;
    Ok(hops)
}

/// Writes the nodes at which the tables differ, in push order, or refuses the tables. `size` must be 0.
pub(crate) fn order_of(
    alloc: Global,
    tables: &Tables,
    nodes: &mut [u32],
    size: &mut usize,
    refusal: &mut Refusal,
) -> u32
    requires { size.old ≡ 0 }
    ensures { OrdersPushes tables.now.old.now tables.now.new.now (outcome result nodes.old nodes.new size.new)
        refusal.old refusal.new }
{
    if let Some(why) = tables.refusal() {
        *refusal = why;
        return REFUSED;
    }
    match tables.order(alloc) {
        Ok(order) => hand_out(&order, nodes, size),
        Err(TableFault::Memory) => NO_MEMORY,
        Err(TableFault::Loop(walk)) => refuse_loop(walk, nodes, size, refusal),
        Err(TableFault::Length) => unreachable!(),
        Err(TableFault::Range(_)) => unreachable!(),
    }
}

/// Refuses a table for a loop, which it writes with the first node again at the end. `size` must be 0.
fn refuse_loop(
    mut walk: Vec<u32>,
    nodes: &mut [u32],
    size: &mut usize,
    refusal: &mut Refusal,
) -> u32
    requires some { 0 < length walk.items }
    requires size { size.old ≡ 0 }
    ensures { TellsCycle (walk.items ++ slice_index walk.items 0 ∷ []) (outcome result nodes.old nodes.new size.new)
        refusal.old refusal.new }
{
    let first = walk[0];
    if walk.push(first).is_err() {
        return NO_MEMORY;
    }
    let status = hand_out(&walk, nodes, size);
    if status != ANSWERED {
        return status;
    }
    let fault = NetFault::Cycle(walk);
    *refusal = refusal_for(0, &fault, named_nodes(&fault));
    REFUSED
}
