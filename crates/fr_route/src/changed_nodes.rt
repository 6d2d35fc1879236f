//! The list of rerouted nodes, if the caller asks for it.

ghost use Rattle.std.specs.Prelude.{◌≡◌, ℕ, ◌<◌, ◌≤◌, ◌↔◌, IsTrue, List, [], ◌∷◌, ◌++◌, OnOk, length};
ghost use Rattle.fr_graph.specs.Limits.{most_edits};
ghost use Rattle.fr_nearest.specs.Distances.{IsMeasureOf};
ghost use Rattle.fr_ways.specs.Changes.{KeepsPushes};
ghost use Rattle.fr_route.specs.Listing.{AsksWays, HasLedOn, HasPlaces, HasSameList, HaveBegun, IsListing, KeepsPlaces};
ghost use Rattle.fr_route.specs.Listing.{nodes_told, notes_told, ways_told};
ghost use Rattle.fr_route.specs.States.{State, state_with};
ghost use Rattle.fr_route.specs.WayPushes.{AreWayChanges};
ghost use Rattle.fr_route.specs.Outcomes.{AreOthers};
ghost use Rattle.fr_tables.specs.Pushes.{IsPushOrder};
ghost use Rattle.fr_tables.specs.Tables.{IsInRange, IsLoopFree};

use crate::way_notes::WayNotes;
use fr_graph::{Edit, Net, Turns};
use fr_nearest::Distances;
use fr_tables::{Hop, PushRoom};
use fr_ways::WayChanges;
use std::alloc::{AllocError, Global};
use std::mem;

/// The list of rerouted nodes, if the caller asks for it.
#[derive(Debug)]
pub(crate) enum ChangedNodes {
    /// The caller does not ask for them.
    Unlisted,
    /// The caller's list. If he also asks what changes do to the ways of nodes, there are notes of that.
    InList(Vec<u32>, Option<Box<WayNotes>>),
}

// Written by hand: code that drops a list proves this one call. With a derived Drop it proves how each variant is
// dropped.
impl Drop for ChangedNodes {
    fn drop(self) {
        match self {
            ChangedNodes::Unlisted => {}
            ChangedNodes::InList(list, notes) => {
                drop(list);
                drop(notes);
            }
        }
    }
}

impl ChangedNodes {
    /// Takes the caller's list, which is empty meanwhile.
    pub fn from_list(list: &mut Vec<u32>, alloc: Global) -> ChangedNodes
        ensures listing { IsListing result }
        ensures same { nodes_told result ≡ list.old.items }
    {
        ChangedNodes::InList(mem::replace(list, Vec::new(alloc)), None)
    }

    /// Returns the list for the caller.
    pub fn into_list(self, alloc: Global) -> Vec<u32>
        ensures { result.items ≡ nodes_told self }
    {
        match self {
            ChangedNodes::Unlisted => Vec::new(alloc),
            ChangedNodes::InList(list, _notes) => list,
        }
    }

    /// The list and the notes, if there is a list.
    pub fn into_parts(self) -> Option<(Vec<u32>, Option<Box<WayNotes>>)> {
        match self {
            ChangedNodes::Unlisted => None,
            ChangedNodes::InList(list, notes) => Some((list, notes)),
        }
    }

    /// The nodes in the list.
    pub fn nodes(&self) -> &[u32]
        ensures { result.now ≡ nodes_told self.now }
    {
        match self {
            ChangedNodes::Unlisted => &[],
            ChangedNodes::InList(list, _) => list,
        }
    }

    /// Replaces the list, if there is one.
    pub fn replace_list(&mut self, nodes: Vec<u32>)
        ensures { IsListing self.old → nodes_told self.new ≡ nodes.items }
    {
        match self {
            ChangedNodes::Unlisted => {}
            ChangedNodes::InList(list, _) => *list = nodes,
        }
    }

    /// Makes room for all nodes, if there is a list.
    pub fn make_room(&mut self, nodes: u32) -> Result<(), AllocError>
        ensures room { IsListing self.old → OnOk result (HasPlaces nodes self.new) }
        ensures same { nodes_told self.new ≡ nodes_told self.old }
        ensures keeps { KeepsPlaces self.old self.new }
    {
        match self {
            ChangedNodes::Unlisted => Ok(()),
            ChangedNodes::InList(list, _) => list.reserve(
                (nodes as usize).saturating_sub(list.len()),
            ),
        }
    }

    /// Clears the nodes of an earlier change.
    pub fn clear(&mut self)
        ensures none { nodes_told self.new ≡ [] }
        ensures keeps { KeepsPlaces self.old self.new }
    {
        match self {
            ChangedNodes::Unlisted => {}
            ChangedNodes::InList(list, _) => list.clear(),
        }
    }

    /// Appends a node. Each node is noted only once, so a list with room for each node has room for this one.
    pub fn note(&mut self, x: u32)
        ensures noted { (n : ℕ) → HasPlaces n self.old → length (nodes_told self.old) < n
            → nodes_told self.new ≡ nodes_told self.old ++ x ∷ [] }
        ensures keeps { KeepsPlaces self.old self.new }
    {
        match self {
            ChangedNodes::Unlisted => {}
            ChangedNodes::InList(list, _) => {
                if list.len() < list.capacity() {
                    list.push_reserved(x);
                }
            }
        }
    }

    /// Puts the noted nodes, whose hop differs from that in the table before, in push order.
    pub fn put_in_order(&mut self, room: &mut PushRoom, hops: &[Hop])
        requires room { length hops.now ≡ room.old }
        requires table { IsInRange hops.now × IsLoopFree hops.now }
        requires others { (old : List Hop) × (IsListing self.old → AreOthers old hops.now (nodes_told self.old)) }
        ensures order { (old : List Hop) → length old ≡ length hops.now → IsListing self.old
            → AreOthers old hops.now (nodes_told self.old) → IsPushOrder old hops.now (nodes_told self.new) }
        ensures kept { room.new ≡ room.old }
        ensures notes { notes_told self.new ≡ notes_told self.old }
    {
        match self {
            ChangedNodes::Unlisted => {}
            ChangedNodes::InList(list, _) => room.order(hops, list),
        }
    }

    /// Whether the caller asks what changes do to the ways of nodes.
    pub fn wants_ways(&self) -> bool
        ensures { IsTrue result ↔ AsksWays self.now }
    {
        match self {
            ChangedNodes::Unlisted => false,
            ChangedNodes::InList(_, notes) => notes.is_some(),
        }
    }

    /// What the last change has done to the ways of nodes.
    pub fn way_changes(&self) -> &WayChanges
        requires { AsksWays self.now }
        ensures { result.now ≡ ways_told self.now }
    {
        match self {
            ChangedNodes::InList(_, Some(notes)) => &notes.changes,
            _ => unreachable!(),
        }
    }

    /// Takes the memory to note what edits do to the ways of nodes, if the caller asks for that.
    pub fn begin_ways(
        &mut self,
        net: &Net,
        distances: &Distances,
        edits: &[Edit],
    ) -> Result<(), AllocError>
        requires measured { AsksWays self.old → IsMeasureOf net.now distances.now }
        requires few { length edits.now ≤ most_edits }
        ensures begun { OnOk result (HaveBegun net.now.nodes net.now.links distances.now.dest edits.now self.new) }
        ensures same { KeepsPushes (ways_told self.old) (ways_told self.new) }
        ensures list { HasSameList self.old self.new }
    {
        match self {
            ChangedNodes::InList(_, Some(notes)) => notes.note_ways_before(net, distances, edits),
            _ => Ok(()),
        }
    }

    /// Notes what a change by these edits has done to the ways of nodes, if the caller asks for that.
    pub fn note_ways(&mut self, net: &Net, turns: &Turns, distances: &Distances, edits: &[Edit])
        requires { (s : State)
            × HasLedOn s (state_with net.now distances.now.dest turns.now) edits.now distances.now self.old }
        ensures ways { (s : State)
            → HasLedOn s (state_with net.now distances.now.dest turns.now) edits.now distances.now self.old
            → AsksWays self.old → AreWayChanges s (state_with net.now distances.now.dest turns.now) (ways_told self.new).shrink
            (ways_told self.new).grow }
        ensures list { HasSameList self.old self.new }
    {
        if let ChangedNodes::InList(_, Some(notes)) = self {
            notes.note(net, turns, distances, edits);
        }
    }
}
