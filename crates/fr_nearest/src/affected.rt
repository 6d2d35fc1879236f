//! The nodes whose ways a change may have altered.

ghost use Rattle.std.specs.Prelude.{◌≡◌, ℕ, ◌<◌, ◌≤◌, ◌↔◌, [], All, IsTrue, OnOk, length};
ghost use Rattle.fr_nearest.specs.Affected.{AreAffected};
ghost use Rattle.fr_nearest.specs.Affected.{HasOne, IsEnd};
ghost use Rattle.fr_nearest.specs.Marks.{AreMarks, ComesFirst, HasMarked, HasOneEach, IsBehind};
ghost use Rattle.fr_nearest.specs.Affected.{IsNextTo};
ghost use Rattle.fr_nearest.specs.Marks.{IsMoved, IsReordered, IsUnmarked, StaysInOrder};
ghost use Rattle.fr_nearest.specs.LinkChanges.{HasEndsBelow};

use crate::distances::{Distances, NONE};
use crate::update::LinkChanges;
use crate::ways::way_rank;
use fr_graph::{Edit, First, Net};
use std::alloc::{AllocError, Global};
use std::marker::Model;

/// A list of nodes, each once.
#[derive(Debug, Drop)]
struct Marks {
    // Whether each node is listed.
    marked: Vec<bool>,
    // Its capacity is the number of nodes that can be listed.
    nodes: Vec<u32>,
}

/// Removes the marks of these nodes.
fn unmark(marked: &mut [bool], nodes: &[u32])
    requires { All (λ (x : ℕ). x < length marked.old) nodes.now }
    ensures { IsUnmarked nodes.now marked.old marked.new }
{
    for x in nodes {
        marked[*x as usize] = false;
    }
}

impl Marks {
    /// Lists no node.
    fn clear(&mut self)
        requires { AreMarks self.old }
        ensures marks { AreMarks self.new }
        ensures none { self.new.nodes.items ≡ [] }
        ensures long { length self.new.marked.items ≡ length self.old.marked.items }
    {
        unmark(&mut self.marked, &self.nodes);
        self.nodes.clear();
    }

    /// Lists node `x`, unless it is listed.
    fn mark(&mut self, x: u32)
        requires marks { AreMarks self.old }
        requires node { x < length self.old.marked.items }
        ensures { HasMarked (λ y. y ≡ x) (λ y. y ≡ x) self.old self.new }
    {
        if !self.marked[x as usize] {
            self.marked[x as usize] = true;
            self.nodes.push_reserved(x);
        }
    }

    /// Lists the ends of each edited link.
    fn mark_edits(&mut self, edits: &[Edit])
        requires marks { AreMarks self.old }
        requires below { All (HasEndsBelow (length self.old.marked.items)) edits.now }
        ensures { HasMarked (HasOne IsEnd edits.now) (HasOne IsEnd edits.now) self.old self.new }
    {
        for edit in edits {
            self.mark_ends(*edit);
        }
    }

    /// Lists the ends of an edited link.
    fn mark_ends(&mut self, edit: Edit)
        requires marks { AreMarks self.old }
        requires below { HasEndsBelow (length self.old.marked.items) edit }
        ensures { HasMarked (IsEnd edit) (IsEnd edit) self.old self.new }
    {
        match edit {
            Edit::Cut { u, v } | Edit::Add { u, v } | Edit::Join { u, v } => {
                self.mark(u);
                self.mark(v);
            }
        }
    }

    /// Lists each node that has turned, and its neighbours.
    fn mark_turned(&mut self, net: &Net, turned: &[u32])
        requires marks { AreMarks self.old }
        requires room { net.now.nodes ≤ length self.old.marked.items }
        requires below { All (λ (x : ℕ). x < net.now.nodes) turned.now }
        ensures { HasMarked (HasOne (IsNextTo net.now.links) turned.now) (HasOne (IsNextTo net.now.links) turned.now)
            self.old self.new }
    {
        for x in turned {
            self.mark_with_neighbours(net, *x);
        }
    }

    /// Lists node `x` and its neighbours.
    fn mark_with_neighbours(&mut self, net: &Net, x: u32)
        requires marks { AreMarks self.old }
        requires room { net.now.nodes ≤ length self.old.marked.items }
        requires node { x < net.now.nodes }
        ensures { HasMarked (IsNextTo net.now.links x) (IsNextTo net.now.links x) self.old self.new }
    {
        net.network_law();
        self.mark(x);
        let row = net.row(x);
        for (w, _) in row {
            self.mark(*w as u32);
        }
    }

    /// Lists the nodes with a link to one of these nodes, whose distances have changed, unless their ways are in the
    /// same order as before.
    fn mark_changed(&mut self, net: &Net, changed: &[u16], distances: &Distances)
        requires marks { AreMarks self.old }
        requires room { net.now.nodes ≤ length self.old.marked.items }
        requires below { All (λ (x : ℕ). x < net.now.nodes) changed.now }
        requires one_each { HasOneEach net.now.nodes distances.now }
        ensures { HasMarked (HasOne (IsReordered net.now.links distances.now.before distances.now.table) changed.now)
            (HasOne (IsBehind net.now.links) changed.now) self.old self.new }
    {
        for w in changed {
            self.mark_neighbours_of(net, *w, distances);
        }
    }

    /// Does this for one node `w`.
    fn mark_neighbours_of(&mut self, net: &Net, w: u16, distances: &Distances)
        requires marks { AreMarks self.old }
        requires room { net.now.nodes ≤ length self.old.marked.items }
        requires node { w < net.now.nodes }
        requires one_each { HasOneEach net.now.nodes distances.now }
        ensures { HasMarked (IsReordered net.now.links distances.now.before distances.now.table w)
            (IsBehind net.now.links w) self.old self.new }
    {
        net.network_law();
        let row = net.row(w as u32);
        for (y, first) in row {
            if *first == First::Inward {
                self.mark_reordered(net, *y, w, distances);
            }
        }
    }

    /// Lists node `y`, unless it is listed or stays as it is although the distance of its neighbour `w` has changed.
    fn mark_reordered(&mut self, net: &Net, y: u16, w: u16, distances: &Distances)
        requires marks { AreMarks self.old }
        requires room { net.now.nodes ≤ length self.old.marked.items }
        requires nodes { (y < net.now.nodes) × (w < net.now.nodes) }
        requires one_each { HasOneEach net.now.nodes distances.now }
        ensures { HasMarked (IsMoved net.now.links distances.now.before distances.now.table y w) (λ z. z ≡ y)
            self.old self.new }
    {
        if !self.marked[y as usize] && !keeps_order(net, y, w, distances) {
            self.mark(y as u32);
        }
    }
}

/// Whether node `w` comes before node `u` by these distances.
fn comes_first(table: &[u16], w: u16, u: u16) -> bool
    requires { (w < length table.now) × (u < length table.now) }
    ensures { IsTrue result ↔ ComesFirst table.now w u }
{
    way_rank(table[w as usize], w) < way_rank(table[u as usize], u)
}

/// Whether node `w` comes before node `u` by both tables, or by neither.
fn has_same_order(before: &[u16], table: &[u16], w: u16, u: u16) -> bool
    requires before { (w < length before.now) × (u < length before.now) }
    requires table { (w < length table.now) × (u < length table.now) }
    ensures { IsTrue result → ComesFirst before.now w u ↔ ComesFirst table.now w u }
{
    if comes_first(before, w, u) {
        comes_first(table, w, u)
    } else {
        !comes_first(table, w, u)
    }
}

/// Whether neighbour `w` of node `x` had a distance before and has one now, and is in the same order with each node to
/// which a link of `x` points.
fn keeps_order(net: &Net, x: u16, w: u16, distances: &Distances) -> bool
    requires nodes { (x < net.now.nodes) × (w < net.now.nodes) }
    requires one_each { HasOneEach net.now.nodes distances.now }
    ensures { IsTrue result → StaysInOrder net.now.links distances.now.before distances.now.table x w }
{
    net.network_law();
    let before = distances.numbers_before();
    let table = distances.numbers();
    if before[w as usize] == NONE || table[w as usize] == NONE {
        return false;
    }
    let row = net.row(x as u32);
    for (u, first) in row {
        if *first == First::Outward && !has_same_order(before, table, w, *u) {
            return false;
        }
    }
    true
}

/// Room to list the nodes whose ways a change may have altered. It keeps its memory from one change to the next. In
/// contracts its value has the listed nodes, and for how many nodes there is room.
#[derive(Debug, Drop)]
pub struct Affected {
    marks: Marks,
}

impl Model for Affected {
    ghost use Rattle.fr_nearest.specs.Affected.{Affecting};

    ghost Value = { Affecting };

    ghost use Rattle.fr_nearest.specs.Marks.{affected_in, IsListing};

    ghost view = { affected_in };

    ghost invariant = { IsListing };
}

impl Affected {
    /// Lists no node, and has no room. It does not allocate.
    pub fn new(alloc: Global) -> Affected
        ensures none { result.nodes ≡ [] }
        ensures room { result.room ≡ 0 }
    {
        Affected {
            marks: Marks {
                marked: Vec::new(alloc),
                nodes: Vec::new(alloc),
            },
        }
    }

    /// Makes room for so many nodes, unless there is room, and lists none. Fails with `AllocError` if an allocation is
    /// refused. O(n).
    pub fn make_room(&mut self, nodes: usize) -> Result<(), AllocError>
        ensures room { OnOk result (nodes ≤ self.new.room) }
        ensures stays { self.old.room ≤ self.new.room }
        ensures none { self.new.nodes ≡ [] }
    {
        self.marks.clear();
        if self.marks.marked.len() < nodes {
            self.marks.nodes.reserve(nodes)?;
            self.marks.marked.resize(nodes, false)?;
        }
        Ok(())
    }

    /// Lists the nodes whose ways the last change may have altered, in ascending order: the ends of the edited links,
    /// the nodes that have turned and their neighbours, and the nodes with a link to a node whose distance has changed,
    /// if that has changed which ways they have, or their order. The ways of each other node are the same as before. It
    /// cannot fail and does not allocate.
    ///
    /// O(e + (t + c d) d + k log k) for e edits, t nodes that have turned, c changes of distances, and k listed nodes.
    pub fn list(&mut self, net: &Net, touched: &LinkChanges<'_>, distances: &Distances)
        requires room { net.now.nodes ≤ self.old.room }
        requires one_each { length distances.now.table ≡ net.now.nodes }
        requires edits { All (HasEndsBelow net.now.nodes) touched.now.edits.now }
        requires turned { All (λ (x : ℕ). x < net.now.nodes) touched.now.turned.now }
        // All nodes whose ways the change has altered, and only nodes near the change.
        ensures affected { AreAffected net.now touched.now distances.now.before distances.now.table self.new.nodes }
        ensures room { self.new.room ≡ self.old.room }
    {
        net.network_law();
        self.marks.clear();
        self.marks.mark_edits(touched.edits);
        self.marks.mark_turned(net, touched.turned);
        self.marks.mark_changed(net, distances.changed(), distances);
        self.marks.nodes.sort_unstable();
    }

    /// The listed nodes. O(1).
    pub fn nodes(&self) -> &[u32]
        ensures { result.now ≡ self.now.nodes }
    {
        &self.marks.nodes
    }
}
