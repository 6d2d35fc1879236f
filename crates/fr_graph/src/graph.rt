//! The state of a network, changed in place: a link is removed or added, and the change can be undone.

ghost use Rattle.std.specs.Prelude.{◌≡◌, ◌≢◌, ◌<◌, ◌≤◌, ◌++◌, [], ◌∷◌, ◌⊎◌, length, true};
ghost use Rattle.std.specs.Prelude.{◌↔◌, IfOk, IfErr, IfSome, IfNone, IsTrue, OnOk, OnErr};
ghost use Rattle.fr_graph.specs.Links.{HasPath, Joins, Points};
ghost use Rattle.fr_graph.specs.Network.{Network};
ghost use Rattle.fr_graph.specs.Rows.{row};
ghost use Rattle.fr_graph.specs.Halves.{AreUnjoined};
ghost use Rattle.fr_graph.specs.Faults.{IsNetworkOf};
ghost use Rattle.fr_graph.specs.Edits.{IsJoinFault, without};
ghost use Rattle.fr_graph.specs.Batches.{AreMade, IsEditFault};
ghost use Rattle.fr_graph.specs.Evidence.{NamesOfEdit, NamesOfLink};
ghost use Rattle.fr_graph.specs.Limits.{most_edits, most_links};
ghost use Rattle.fr_graph.specs.Graph.{CanPut, CanUndo, HasRoomFor, IsDone};
ghost use Rattle.fr_graph.specs.Graph.{IsEdited, IsGraph, IsRefusal, IsSame, shown};
ghost use Rattle.fr_graph.specs.Tables.{HaveRoom};
ghost use Rattle.fr_graph.specs.declared.fault.NetFault.TheVariants.{Memory};
ghost use Rattle.fr_graph.specs.declared.edit.Edit.TheVariants.{Cut, Add, Join};

use crate::checks::first_outside;
use crate::cycle::find_cycle;
use crate::edit::Edit;
use crate::edits::{insert_link_in_rows, remove_link_from_rows};
use crate::fault::{EditFault, NetFault};
use crate::first::First;
use crate::heights::Heights;
use crate::limits::MAX_LINKS;
use crate::lowest_cycle::lowest_cycle;
use crate::path_search::{PathAnswer, path_between};
use crate::row::place_in_row;
use crate::row_table::RowTable;
use fr_search::CycleOrOrder;
use std::alloc::{AllocError, Global};

/// The rows of a network, which hold its links, and heights of its nodes. If the heights are known, each link leads
/// from a higher node to a lower one: it falls.
#[derive(Debug, Drop)]
pub(crate) struct Graph {
    pub(crate) nodes: u32,
    pub(crate) link_count: usize,
    pub(crate) rows: RowTable,
    pub(crate) heights: Heights,
}

/// What an edit did to the links.
#[derive(Debug, Drop, Clone, Copy)]
pub(crate) enum Effect {
    /// The link was removed.
    Removed {
        /// Its tail.
        tail: u32,
        /// Its head.
        head: u32,
    },
    /// The link was added.
    Added {
        /// Its tail.
        tail: u32,
        /// Its head.
        head: u32,
    },
}

impl Graph {
    /// The neighbours of node `x` in ascending order, each with the direction of its link seen from `x`.
    pub(crate) fn row(&self, x: u32) -> &[(u16, First)]
        requires graph { IsGraph self.now }
        requires node { x < self.now.nodes }
        ensures { result.now ≡ row self.now.nodes (shown self.now).links x }
    {
        self.rows.row(x)
    }

    /// The link that joins `u` and `v`, from its tail to its head, if there is one.
    fn link_between(&self, u: u32, v: u32) -> Option<(u32, u32)>
        requires { IsGraph self.now }
        ensures stands { IfSome result (λ link. Points (shown self.now).links link.0 link.1) }
        ensures ends { IfSome result (λ link. (link ≡ (u, v)) ⊎ (link ≡ (v, u))) }
        ensures none { IfNone result (¬ Joins (shown self.now).links u v) }
    {
        if u >= self.nodes {
            return None;
        }
        let row = self.row(u);
        let (w, first) = *row.get(place_in_row(row, v))?;
        if w as u32 != v {
            return None;
        }
        match first {
            First::Outward => Some((u, v)),
            First::Inward => Some((v, u)),
        }
    }

    /// Tests whether a link can join `u` and `v`, in either direction. Returns the fault if neither can.
    fn test_join(&self, u: u32, v: u32) -> Result<(), NetFault>
        requires { IsGraph self.now }
        ensures few { OnOk result (length (shown self.now).links < most_links) }
        ensures nodes { OnOk result (AreUnjoined self.now.nodes (shown self.now).links u v) }
        ensures refused { IfErr result (IsJoinFault self.now.nodes (shown self.now).links u v) }
        ensures names { IfErr result (NamesOfLink (shown self.now) u v) }
    {
        if self.link_count >= MAX_LINKS {
            return Err(NetFault::TooMany);
        }
        if let Some(x) = first_outside(self.nodes, &[(u, v)]) {
            return Err(NetFault::Range(x));
        }
        if u == v {
            return Err(NetFault::SelfLink(u));
        }
        if self.link_between(u, v).is_some() {
            return Err(NetFault::Twice(u, v));
        }
        Ok(())
    }

    /// A copy with the same room in its rows.
    pub(crate) fn copied(&self, alloc: Global) -> Result<Graph, AllocError>
        requires { IsGraph self.now }
        ensures { IfOk result (λ copy. copy ≡ self.now) }
    {
        Ok(Graph {
            nodes: self.nodes,
            link_count: self.link_count,
            rows: self.rows.copied(alloc)?,
            heights: self.heights.copied(alloc)?,
        })
    }

    /// Removes the link from `tail` to `head`. There must be one.
    fn remove_link(&mut self, tail: u32, head: u32)
        requires graph { IsGraph self.old }
        requires stands { Points (shown self.old).links tail head }
        ensures graph { IsGraph self.new }
        ensures taken { IsNetworkOf self.old.nodes (without tail head (shown self.old).links) (shown self.new) }
        ensures rooms { self.new.rows.rooms ≡ self.old.rows.rooms }
    {
        remove_link_from_rows(&mut self.rows, tail, head);
        self.link_count -= 1;
    }

    /// Makes room for a link between the nodes `u` and `v` in their rows.
    fn make_room(&mut self, alloc: Global, u: u32, v: u32) -> Result<(), AllocError>
        requires graph { IsGraph self.old }
        requires u { u < self.old.nodes }
        requires v { v < self.old.nodes }
        ensures same { IsSame self.old self.new }
        ensures room { OnOk result (HaveRoom self.new.rows u v) }
    {
        self.rows.make_room(alloc, u)?;
        self.rows.make_room(alloc, v)
    }

    /// Adds a link from `tail` to `head`. Both rows must have room for it.
    fn insert_link(&mut self, tail: u32, head: u32)
        requires graph { IsGraph self.old }
        requires link { CanPut (shown self.old) tail head }
        requires room { HaveRoom self.old.rows tail head }
        ensures graph { IsGraph self.new }
        ensures put { IsNetworkOf self.old.nodes ((shown self.old).links ++ (tail, head) ∷ []) (shown self.new) }
        ensures rooms { self.new.rows.rooms ≡ self.old.rows.rooms }
    {
        insert_link_in_rows(&mut self.rows, tail, head);
        self.link_count += 1;
        self.heights.update_for_link(tail, head);
    }

    /// Computes the heights again, unless they are known.
    fn renew_heights(&mut self, alloc: Global) -> Result<(), AllocError>
        requires graph { IsGraph self.old }
        ensures same { IsSame self.old self.new }
        ensures known { OnOk result (self.new.heights.known ≡ true) }
    {
        if self.heights.are_valid() {
            return Ok(());
        }
        let CycleOrOrder::Order(order) = find_cycle(alloc, self.nodes, &self.rows)? else {
            unreachable!();
        };
        self.heights.set_from_order(&order);
        Ok(())
    }

    /// Whether links lead from `v` to `u`. Most often the heights already show that they do not. If it takes a search
    /// to find that out, the nodes that were met get new heights, so that a link from `u` to `v` falls, if there is
    /// room between the heights.
    fn has_path_back(&mut self, alloc: Global, u: u32, v: u32) -> Result<bool, AllocError>
        requires graph { IsGraph self.old }
        requires nodes { AreUnjoined self.old.nodes (shown self.old).links u v }
        ensures same { IsSame self.old self.new }
        ensures leads { IfOk result (λ found. IsTrue found ↔ HasPath (shown self.old).links v u) }
        ensures known { IfOk result (λ found. IsTrue found → self.new.heights.known ≡ true) }
    {
        self.renew_heights(alloc)?;
        if self.heights.link_would_fall(u, v) {
            return Ok(false);
        }
        match path_between(alloc, &self.rows, &self.heights, v, u)? {
            PathAnswer::Leads => Ok(true),
            PathAnswer::Ends { nodes, low, high } => {
                self.heights.put_between(nodes, low, high);
                Ok(false)
            }
        }
    }

    /// Removes the link between `u` and `v`, whichever way it points.
    fn cut(&mut self, u: u32, v: u32) -> Result<Effect, NetFault>
        requires graph { IsGraph self.old }
        ensures ok { IfOk result (IsEdited self.old (Cut u v) self.new) }
        ensures refused { IfErr result (IsEditFault (shown self.old) (Cut u v)) }
        ensures unchanged { OnErr result (self.new ≡ self.old) }
    {
        let Some((tail, head)) = self.link_between(u, v) else {
            return Err(NetFault::NoLink);
        };
        self.rows.room_law();
        self.remove_link(tail, head);
        Ok(Effect::Removed { tail, head })
    }

    /// Adds the link from `u` to `v`.
    fn add(&mut self, alloc: Global, u: u32, v: u32) -> Result<Effect, NetFault>
        requires { IsGraph self.old }
        ensures ok { IfOk result (IsEdited self.old (Add u v) self.new) }
        ensures refused { IfErr result (λ fault. fault ≢ Memory → IsEditFault (shown self.old) (Add u v) fault) }
        ensures names { IfErr result (NamesOfEdit (shown self.old) (Add u v)) }
        ensures unchanged { OnErr result (IsSame self.old self.new) }
    {
        self.test_join(u, v)?;
        if self.has_path_back(alloc, u, v)? {
            let walk = lowest_cycle(alloc, &self.rows, &self.heights, u, v)?;
            return Err(NetFault::Cycle(walk));
        }
        self.make_room(alloc, u, v)?;
        self.rows.room_law();
        self.insert_link(u, v);
        Ok(Effect::Added { tail: u, head: v })
    }

    /// Joins `u` and `v` by a link from `u` to `v`, or from `v` to `u` if the first would close a cycle.
    fn join(&mut self, alloc: Global, u: u32, v: u32) -> Result<Effect, NetFault>
        requires { IsGraph self.old }
        ensures ok { IfOk result (IsEdited self.old (Join u v) self.new) }
        ensures refused { IfErr result (λ fault. fault ≢ Memory → IsEditFault (shown self.old) (Join u v) fault) }
        ensures names { IfErr result (NamesOfEdit (shown self.old) (Join u v)) }
        ensures unchanged { OnErr result (IsSame self.old self.new) }
    {
        self.test_join(u, v)?;
        let (tail, head) = if self.has_path_back(alloc, u, v)? {
            (v, u)
        } else {
            (u, v)
        };
        self.make_room(alloc, u, v)?;
        self.rows.room_law();
        self.insert_link(tail, head);
        Ok(Effect::Added { tail, head })
    }

    /// Makes an edit. If it is refused or an allocation fails, the network is unchanged.
    pub(crate) fn edit(&mut self, alloc: Global, edit: Edit) -> Result<Effect, NetFault>
        requires { IsGraph self.old }
        ensures ok { IfOk result (IsEdited self.old edit self.new) }
        ensures refused { IfErr result (λ fault. fault ≢ Memory → IsEditFault (shown self.old) edit fault) }
        ensures names { IfErr result (NamesOfEdit (shown self.old) edit) }
        ensures unchanged { OnErr result (IsSame self.old self.new) }
    {
        match edit {
            Edit::Cut { u, v } => self.cut(u, v),
            Edit::Add { u, v } => self.add(alloc, u, v),
            Edit::Join { u, v } => self.join(alloc, u, v),
        }
    }

    /// Undoes what an edit did. It does not allocate.
    fn undo(&mut self, done: Effect)
        requires graph { IsGraph self.old }
        requires done { (net : Network) × IsDone net done (shown self.old) × HasRoomFor self.old net }
        ensures graph { IsGraph self.new }
        ensures undone { (net : Network) → IsDone net done (shown self.old) → shown self.new ≡ net }
        ensures rooms { self.new.rows.rooms ≡ self.old.rows.rooms }
    {
        match done {
            Effect::Removed { tail, head } => self.insert_link(tail, head),
            Effect::Added { tail, head } => self.remove_link(tail, head),
        }
    }

    /// Undoes what edits did, the last one first. It does not allocate.
    pub(crate) fn undo_all(&mut self, done: &mut Vec<Effect>)
        requires graph { IsGraph self.old }
        requires done { (first : Network) × CanUndo first done.old.items self.old }
        ensures graph { IsGraph self.new }
        ensures undone { (first : Network) → CanUndo first done.old.items self.old → shown self.new ≡ first }
    {
        while let Some(last) = done.pop() {
            self.undo(last);
        }
    }

    /// Makes the edits in order, and lists in `done` what they did. If one is refused or an allocation fails, all of them
    /// are undone.
    pub(crate) fn edit_all(
        &mut self,
        alloc: Global,
        edits: &[Edit],
        done: &mut Vec<Effect>,
    ) -> Result<(), EditFault>
        requires graph { IsGraph self.old }
        requires few { length edits.now ≤ most_edits }
        ensures graph { IsGraph self.new }
        ensures ok { OnOk result (AreMade (shown self.old) edits.now (shown self.new)
            × CanUndo (shown self.old) done.new.items self.new) }
        ensures refused { IfErr result (IsRefusal (shown self.old) edits.now) }
        ensures unchanged { OnErr result (shown self.new ≡ shown self.old) }
    {
        done.clear();
        done.reserve(edits.len())?;
        self.rows.give_back_room(alloc)?;
        for (at, edit) in edits.iter().enumerate() {
            match self.edit(alloc, *edit) {
                Ok(step) => done.push_reserved(step),
                Err(fault) => {
                    self.undo_all(done);
                    return Err(EditFault { at, fault });
                }
            }
        }
        Ok(())
    }
}
