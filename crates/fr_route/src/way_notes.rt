//! What a change does to the ways of nodes. It is noted once the change is made.

ghost use Rattle.std.specs.Prelude.{◌≡◌, ℕ, ◌<◌, ◌≤◌, ◌+◌, List, IfOk, OnOk, length};
ghost use Rattle.fr_graph.specs.Limits.{most_edits};
ghost use Rattle.fr_graph.specs.declared.edit.Edit.{Edit};
ghost use Rattle.fr_nearest.specs.Distances.{IsMeasureOf};
ghost use Rattle.fr_ways.specs.Changes.{HasNoPushes, IsNotedTo, KeepsPushes};
ghost use Rattle.fr_route.specs.States.{State, state_with};
ghost use Rattle.fr_route.specs.WayNotes.{AreEnds, AreWaysOf, HasSameMemory, IsBegun, IsNext, LeadsOn};
ghost use Rattle.fr_route.specs.WayPushes.{AreWayChanges};

use crate::outcome::push_ends;
use fr_graph::{Edit, Net, Turns};
use fr_nearest::{Affected, Distances, LinkChanges};
use fr_ways::{WayChanges, WayTable};
use std::alloc::{AllocError, Global};

/// Memory to note what a change does to the ways of nodes. It is kept from one change to the next, and all of it is taken
/// before a change is made, because a change that is made cannot fail.
#[derive(Debug)]
pub(crate) struct WayNotes {
    // The ends of the edits, by number, and the ways that they had before the change. The earlier ways of all other nodes
    // can be told from the links after the change.
    pub(crate) ends: Vec<u32>,
    pub(crate) end_ways: WayTable,
    // The nodes whose ways may have changed.
    pub(crate) affected: Affected,
    // Space for the ways of a node before and after the change.
    pub(crate) before: Vec<u32>,
    pub(crate) after: Vec<u32>,
    // What has to be pushed.
    pub(crate) changes: WayChanges,
}

// Written by hand: code that drops notes proves this one call. With a derived Drop it proves how each part is dropped.
impl Drop for WayNotes {
    fn drop(self) {
        let WayNotes {
            ends,
            end_ways,
            affected,
            before,
            after,
            changes,
        } = self;
        drop(ends);
        drop(end_ways);
        drop(affected);
        drop(before);
        drop(after);
        drop(changes);
    }
}

/// Lists the ends of these edits, by number. A node that is an end of several edits is listed several times.
fn list_ends(ends: &mut Vec<u32>, edits: &[Edit]) -> Result<(), AllocError>
    ensures { OnOk result (AreEnds edits.now ends.new.items) }
{
    ends.clear();
    push_ends(ends, edits)?;
    ends.sort_unstable();
    Ok(())
}

/// Lists the ways of these nodes, one list for each. A number that is not a node has none. The slice is space for the
/// work.
fn list_ways(
    table: &mut WayTable,
    net: &Net,
    distances: &Distances,
    nodes: &[u32],
    space: &mut [u32],
) -> Result<(), AllocError>
    requires measured { IsMeasureOf net.now distances.now }
    requires space { net.now.nodes ≤ length space.old }
    ensures { OnOk result (AreWaysOf net.now.nodes net.now.links distances.now.dest nodes.now table.new) }
{
    table.clear();
    for x in nodes {
        let count = if *x < net.nodes() {
            distances.write_ways(net, *x, space)
        } else {
            0
        };
        table.push_row(&space[..count])?;
    }
    Ok(())
}

/// Makes a list as long as there are nodes, or leaves it if it is longer.
fn lengthen_list(list: &mut Vec<u32>, nodes: usize) -> Result<(), AllocError>
    ensures { OnOk result (nodes ≤ length list.new.items) }
{
    if list.len() < nodes {
        list.resize(nodes, 0)?;
    }
    Ok(())
}

impl WayNotes {
    /// No notes, and no memory for any.
    pub(crate) fn new(alloc: Global) -> Result<WayNotes, AllocError>
        ensures { IfOk result (λ notes. HasNoPushes notes.changes) }
    {
        Ok(WayNotes {
            ends: Vec::new(alloc),
            end_ways: WayTable::with_capacity(alloc, 0, 0)?,
            affected: Affected::new(alloc),
            before: Vec::new(alloc),
            after: Vec::new(alloc),
            changes: WayChanges::new(alloc)?,
        })
    }

    /// Takes the memory for a change of this network by these edits, and lists the ways of their ends before it. It is not
    /// inlined, so that changes that nobody asks the ways of do not pay for its local variables.
    #[inline(never)]
    pub(crate) fn note_ways_before(
        &mut self,
        net: &Net,
        distances: &Distances,
        edits: &[Edit],
    ) -> Result<(), AllocError>
        requires measured { IsMeasureOf net.now distances.now }
        requires few { length edits.now ≤ most_edits }
        ensures begun { OnOk result (IsBegun net.now.nodes net.now.links distances.now.dest edits.now self.new) }
        ensures same { KeepsPushes self.old.changes self.new.changes }
    {
        let nodes = net.nodes() as usize;
        lengthen_list(&mut self.before, nodes)?;
        lengthen_list(&mut self.after, nodes)?;
        self.affected.make_room(nodes)?;
        self.changes
            .make_room(nodes, net.link_count() + edits.len())?;
        list_ends(&mut self.ends, edits)?;
        list_ways(
            &mut self.end_ways,
            net,
            distances,
            &self.ends,
            &mut self.before,
        )
    }

    /// Notes what has to be pushed after a change by these edits: the network has turned as a round says, and the distances
    /// are updated. It is not inlined, for the same reason.
    #[inline(never)]
    pub(crate) fn note(&mut self, net: &Net, turns: &Turns, distances: &Distances, edits: &[Edit])
        requires { (s : State) × LeadsOn s (state_with net.now distances.now.dest turns.now) edits.now distances.now
            self.old }
        ensures { (s : State) → LeadsOn s (state_with net.now distances.now.dest turns.now) edits.now distances.now
            self.old → AreWayChanges s (state_with net.now distances.now.dest turns.now) self.new.changes.shrink
            self.new.changes.grow }
    {
        net.network_law();
        let touched = LinkChanges {
            edits,
            turned: turns.nodes(),
        };
        self.affected.list(net, &touched, distances);
        self.changes.clear();
        let mut read = 0;
        while read < self.affected.nodes().len() {
            let x = self.affected.nodes()[read];
            self.note_node(net, turns.counts(), distances, x);
            read += 1;
        }
        self.changes.finish();
    }

    /// Notes what has to be pushed to node `x`, which has a higher number than those before.
    fn note_node(&mut self, net: &Net, counts: &[u64], distances: &Distances, x: u32)
        requires { (s : State) × (edits : List Edit) × (before : List (List ℕ)) × (after : List (List ℕ))
            × IsNext s (state_with net.now distances.now.dest counts.now) edits distances.now before after x self.old }
        ensures noted { (s : State) (edits : List Edit) (before after : List (List ℕ))
            → IsNext s (state_with net.now distances.now.dest counts.now) edits distances.now before after x self.old
            → IsNotedTo before after (x + 1) self.new.changes }
        ensures same { HasSameMemory self.old self.new }
        ensures affected { self.new.affected ≡ self.old.affected }
    {
        let count = distances.write_ways(net, x, &mut self.after);
        let now = &self.after[..count];
        match self.ends.binary_search(&x) {
            Ok(place) => self.changes.note(x, self.end_ways.row(place as u32), now),
            Err(_) => {
                let had = distances.write_ways_before(net, counts, x, &mut self.before);
                self.changes.note(x, &self.before[..had], now);
            }
        }
    }
}
