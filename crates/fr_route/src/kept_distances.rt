//! The distances of a router, which are kept once somebody has asked for them.

ghost use Rattle.std.specs.Prelude.{◌≡◌, ℕ, ◌<◌, List, IfOk, IsTrue, length};
ghost use Rattle.fr_nearest.specs.Distances.{IsMeasureOf, IsRenewed};
ghost use Rattle.fr_route.specs.KeptDistances.{KeepsDistances};
ghost use Rattle.fr_route.specs.NodeWays.{AreAllWays, AreOldDistances};
ghost use Rattle.fr_route.specs.States.{state_with};

use crate::outcome::Outcome;
use fr_graph::{Edit, Net};
use fr_nearest::{Distances, LinkChanges};
use fr_ways::WayTable;
use std::alloc::{AllocError, Global};

/// The distances of the nodes of a router. As long as nobody asks for ways, changes need not update them. So the first
/// question measures them, in room that is there from the beginning, and from then on each change updates them.
#[derive(Debug)]
pub(crate) struct KeptDistances {
    pub(crate) are_kept: bool,
    pub(crate) table: Distances,
}

// Written by hand: code that drops distances proves this one call. With a derived Drop it proves how each part is
// dropped.
impl Drop for KeptDistances {
    fn drop(self) {
        let KeptDistances { are_kept: _, table } = self;
        drop(table);
    }
}

impl KeptDistances {
    /// Room for the distances in a network. They are not kept yet.
    pub(crate) fn unmeasured(alloc: Global, net: &Net) -> Result<KeptDistances, AllocError>
        ensures one_each { IfOk result (λ made. length made.table.table ≡ net.now.nodes) }
        ensures none { IfOk result (λ made. ¬ IsTrue made.are_kept) }
    {
        Ok(KeptDistances {
            are_kept: false,
            table: Distances::unmeasured(alloc, net)?,
        })
    }

    /// Keeps the distances from now on. Measures them if they were not kept.
    pub(crate) fn keep_from_now(&mut self, net: &Net, dest: u32)
        requires node { dest < net.now.nodes }
        requires one_each { length self.old.table.table ≡ net.now.nodes }
        requires old { IsTrue self.old.are_kept → IsMeasureOf net.now self.old.table × (self.old.table.dest ≡ dest) }
        ensures kept { IsTrue self.new.are_kept }
        ensures measured { IsMeasureOf net.now self.new.table }
        ensures dest { self.new.table.dest ≡ dest }
    {
        if !self.are_kept {
            self.table.measure_again(net, dest);
            self.are_kept = true;
        }
    }

    /// Keeps the distances from now on, if this is asked for.
    pub(crate) fn keep_if_asked(&mut self, is_asked: bool, net: &Net, dest: u32)
        requires node { dest < net.now.nodes }
        requires one_each { length self.old.table.table ≡ net.now.nodes }
        requires old { IsTrue self.old.are_kept → IsMeasureOf net.now self.old.table × (self.old.table.dest ≡ dest) }
        ensures kept { IsTrue is_asked → IsTrue self.new.are_kept }
        ensures measured { IsTrue self.new.are_kept → IsMeasureOf net.now self.new.table × (self.new.table.dest ≡ dest) }
        ensures one_each { length self.new.table.table ≡ net.now.nodes }
    {
        if is_asked {
            self.keep_from_now(net, dest);
        }
    }

    /// Updates the distances, if they are kept, after the round on a network with these edits is put in place.
    pub(crate) fn renew(&mut self, net: &Net, outcome: &Outcome, edits: &[Edit])
        requires node { outcome.now.dest < net.now.nodes }
        requires one_each { length self.old.table.table ≡ net.now.nodes }
        requires old { IsTrue self.old.are_kept
            → AreOldDistances net.now outcome.now.turns edits.now self.old.table }
        ensures keeps { KeepsDistances (state_with net.now outcome.now.dest outcome.now.turns) self.new }
        ensures renewed { IsTrue self.old.are_kept → IsRenewed net.now outcome.now.dest self.old.table self.new.table }
    {
        if self.are_kept {
            let touched = LinkChanges {
                edits,
                turned: outcome.turns.nodes(),
            };
            self.table.renew(net, outcome.dest, &touched);
        }
    }
}

/// The ways of each node of the network that these are the distances of.
pub(crate) fn table_of_ways(
    alloc: Global,
    net: &Net,
    distances: &Distances,
) -> Result<WayTable, AllocError>
    requires { IsMeasureOf net.now distances.now }
    ensures { IfOk result (λ table. (counts : List ℕ)
        → AreAllWays (state_with net.now distances.now.dest counts) table) }
{
    let nodes = net.nodes();
    let mut table = WayTable::with_capacity(alloc, nodes as usize, net.link_count())?;
    let ways = distances.all_ways(alloc, net)?;
    for x in 0..nodes {
        table.push_row(ways.row(x))?;
    }
    Ok(table)
}
