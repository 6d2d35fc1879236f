//! The distance of each node from the destination, kept while links change.

ghost use Rattle.std.specs.Prelude.{◌≡◌, ◌<◌, [], IfOk, length, slice_index};
ghost use Rattle.fr_nearest.specs.Distances.{AreChanged, IsMeasureOf, IsRenewed, distance_of};
ghost use Rattle.fr_nearest.specs.LinkChanges.{IsOutOfDate};

use crate::distance_changes::DistanceChanges;
use crate::search::measure_all;
use crate::update::{LinkChanges, try_update};
use fr_graph::Net;
use std::alloc::{AllocError, Global};
use std::marker::Model;

/// Stands for the distance of a node from which no links lead to the destination.
pub(crate) const NONE: u16 = u16::MAX;

/// The distance of each node of a network from its destination, and which distances the last update has changed. In
/// contracts its value has a number for each node: the distance, or `no_distance` for a node that has none.
#[derive(Debug)]
pub struct Distances {
    dest: u32,
    of: Vec<u16>,
    changes: DistanceChanges,
    // Its capacity is the number of nodes.
    list: Vec<u16>,
}

// Written by hand: code that drops distances proves this one call. With a derived Drop it proves how each part is
// dropped.
impl Drop for Distances {
    fn drop(self) {
        let Distances {
            dest: _,
            of,
            changes,
            list,
        } = self;
        drop(of);
        drop(changes);
        drop(list);
    }
}

impl Model for Distances {
    ghost use Rattle.fr_nearest.specs.Distances.{Measured};

    ghost Value = { Measured };

    ghost use Rattle.fr_nearest.specs.Inside.{measured_in, IsKept};

    ghost view = { measured_in };

    ghost invariant = { IsKept };
}

/// The distance that this number stands for.
fn distance_of_number(number: u16) -> Option<u32>
    ensures { result ≡ distance_of number }
{
    if number == NONE {
        None
    } else {
        Some(number as u32)
    }
}

impl Distances {
    /// Measures the distance of each node from `dest`, which must be a node. Fails with `AllocError` if an allocation
    /// is refused. O(n + m).
    pub fn measure(alloc: Global, net: &Net, dest: u32) -> Result<Distances, AllocError>
        requires { dest < net.now.nodes }
        ensures measured { IfOk result (IsMeasureOf net.now) }
        ensures dest { IfOk result (λ made. made.dest ≡ dest) }
        ensures same { IfOk result (λ made. made.before ≡ made.table) }
        ensures none { IfOk result (λ made. made.changed ≡ []) }
    {
        let nodes = net.nodes() as usize;
        let mut of = vec![in alloc; NONE; nodes]?;
        let mut list = Vec::with_capacity(alloc, nodes)?;
        measure_all(net, dest, &mut of, &mut list);
        let changes = DistanceChanges::none(alloc, &of)?;
        Ok(Distances {
            dest,
            of,
            changes,
            list,
        })
    }

    /// Room for the distances in a network. None is measured: in the table no node has a distance. Fails with
    /// `AllocError` if an allocation is refused. O(n).
    pub fn unmeasured(alloc: Global, net: &Net) -> Result<Distances, AllocError>
        ensures { IfOk result (λ made. length made.table ≡ net.now.nodes) }
    {
        let nodes = net.nodes() as usize;
        let of = vec![in alloc; NONE; nodes]?;
        let list = Vec::with_capacity(alloc, nodes)?;
        let changes = DistanceChanges::none(alloc, &of)?;
        Ok(Distances {
            dest: 0,
            of,
            changes,
            list,
        })
    }

    /// Measures the distances anew, whatever has changed since the last time but the number of nodes. It cannot fail and
    /// does not allocate. O(n + m).
    pub fn measure_again(&mut self, net: &Net, dest: u32)
        requires node { dest < net.now.nodes }
        requires one_each { length self.old.table ≡ net.now.nodes }
        ensures { IsRenewed net.now dest self.old self.new }
    {
        self.dest = dest;
        self.changes.reset(&self.of);
        measure_all(net, dest, &mut self.of, &mut self.list);
        self.changes.note_all_changed(&self.of);
    }

    /// Updates the distances after a change of the links or of the destination. Each earlier link must be removed by
    /// one of the edits, still be there, or be reversed at a node that has turned. Each link of the network must be
    /// added by one of the edits, have been there, or have an end that has turned. The number of nodes must be the same
    /// as before. It cannot fail and does not allocate.
    ///
    /// O(e + (l + c d) d) for e edits, l nodes that a lost or gained way can make wrong, and c changes of distances. Of
    /// an edited link that is only the farther end, if at all. Of a node that has turned, it is the node itself and
    /// neighbours that are farther from the destination. If more than n nodes have to be looked at, or if the destination
    /// has moved, the distances are measured anew, in O(n + m).
    pub fn renew(&mut self, net: &Net, dest: u32, touched: &LinkChanges<'_>)
        requires node { dest < net.now.nodes }
        requires old { IsOutOfDate net.now touched.now self.old.dest self.old.table }
        // The update cannot fail. It lists exactly the nodes whose distance changed, each once, and keeps the
        // distance that each had before.
        ensures { IsRenewed net.now dest self.old self.new }
    {
        net.network_law();
        let last = self.dest;
        self.dest = dest;
        self.changes.reset(&self.of);
        if try_update(net, last, dest, touched, &mut self.of, &mut self.list) {
            self.changes.note_changed_among(&self.of, &self.list);
        } else {
            measure_all(net, dest, &mut self.of, &mut self.list);
            self.changes.note_all_changed(&self.of);
        }
    }

    /// The destination. O(1).
    pub fn dest(&self) -> u32
        ensures { result ≡ self.now.dest }
    {
        self.dest
    }

    /// The distance of node `x`, which must be in the network. `None` if no links lead from it to the destination.
    /// O(1).
    pub fn distance(&self, x: u32) -> Option<u32>
        requires { x < length self.now.table }
        ensures { result ≡ distance_of (slice_index self.now.table x) }
    {
        distance_of_number(self.of[x as usize])
    }

    /// The nodes whose distance the last update has changed, each once, in no particular order. They are `u16`, as in
    /// the rows of a network. O(1).
    pub fn changed(&self) -> &[u16]
        ensures value { result.now ≡ self.now.changed }
        ensures changed { AreChanged self.now.before self.now.table self.now.changed }
    {
        &self.changes.nodes
    }

    /// The distances as numbers.
    pub(crate) fn numbers(&self) -> &[u16]
        ensures { result.now ≡ self.now.table }
    {
        &self.of
    }

    /// The distances before the last update, as numbers.
    pub(crate) fn numbers_before(&self) -> &[u16]
        ensures { result.now ≡ self.now.before }
    {
        &self.changes.before
    }
}
