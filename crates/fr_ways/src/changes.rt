//! The pushes of both phases for a change that alters the ways of few nodes.

ghost use Rattle.std.specs.Prelude.{◌≡◌, ℕ, ◌<◌, ◌≤◌, ◌+◌, ◌++◌, [], ◌∷◌, IfOk, List, OnOk, cond, false, length};
ghost use Rattle.std.specs.Prelude.{max, replicate, vec_capacity};
ghost use Rattle.fr_ways.specs.Changes.{HasNoPushes, HasSameRoom, IsNotedTo, KeepsPushes, MayNote};
ghost use Rattle.fr_ways.specs.Phases.{growths, shrinks};
ghost use Rattle.fr_ways.specs.PushLists.{AreListed};

use crate::kept_ways::loses_way;
use crate::push_list::PushList;
use crate::reserved_rows::{Rows, reserve_room};
use std::alloc::{AllocError, Global};
use std::marker::Model;

/// The pushes of both phases for a change that alters the ways of few nodes: those that
/// [`known_phases`](crate::known_phases) lists for the whole tables.
///
/// Call [`WayChanges::clear`], then [`WayChanges::note`] for each node whose list can have changed, in ascending order,
/// and then [`WayChanges::finish`]. Other nodes are not looked at.
///
/// None of these calls allocates, and none can fail: [`WayChanges::make_room`] allocates the memory beforehand, and one
/// change after another uses it. When the pushes are listed the change has been made, so it would be too late to fail.
///
/// The value in contracts is the pushes so far, and the size of the tables for which there is room.
#[derive(Debug, Drop)]
pub struct WayChanges {
    // The first phase. The emptied nodes come to it at the call of `finish`.
    shrink: Rows,
    // The nodes that keep no way, until the call of `finish`.
    emptied: Vec<u32>,
    // The second phase.
    grow: Rows,
    // For the comparison of lists, a place for each node. Between calls all are `false`.
    marks: Vec<bool>,
}

impl Model for WayChanges {
    ghost use Rattle.fr_ways.specs.Changes.{Noted};

    ghost Value = { Noted };

    ghost use Rattle.fr_ways.specs.ChangesInside.{noted_in, IsSound};

    ghost view = { noted_in };

    ghost invariant = { IsSound };
}

impl WayChanges {
    /// No pushes, and no room. Fails with `AllocError` if an allocation is refused. O(1).
    pub fn new(alloc: Global) -> Result<WayChanges, AllocError>
        ensures { IfOk result HasNoPushes }
    {
        Ok(WayChanges {
            shrink: Rows::new(alloc)?,
            emptied: Vec::new(alloc),
            grow: Rows::new(alloc)?,
            marks: Vec::new(alloc),
        })
    }

    /// Makes room for changes to tables of so many nodes, with so many ways in total. The pushes so far stay, whatever
    /// the result, and the room never gets less. Fails with `AllocError` if an allocation is refused.
    /// O(nodes + ways), or O(1) if there is room already.
    pub fn make_room(&mut self, nodes: usize, ways: usize) -> Result<(), AllocError>
        ensures room { OnOk result ((nodes ≤ self.new.nodes) × (ways ≤ self.new.ways)) }
        ensures kept { KeepsPushes self.old self.new }
    {
        self.shrink.make_room(nodes, ways)?;
        self.grow.make_room(nodes, ways)?;
        reserve_room(&mut self.emptied, nodes)?;
        add_marks(&mut self.marks, nodes)
    }

    /// Removes all pushes. The room stays. O(1).
    pub fn clear(&mut self)
        ensures none { HasNoPushes self.new }
        ensures room { HasSameRoom self.old self.new }
    {
        self.shrink.clear();
        self.emptied.clear();
        self.grow.clear();
    }

    /// Notes the ways of node `x` before and after the change. Each node below `x` whose list has changed must be
    /// noted, and there must be room for the table after the change. `old` can have any ways; all ways of `new` must
    /// name nodes of that table. O(ways in both lists).
    pub fn note(&mut self, x: u32, old: &[u32], new: &[u32])
        // Each node below `x` whose list has changed is noted. There is room for the table after the change, whose ways
        // name nodes of it.
        requires { (before after : List (List ℕ)) × MayNote before after x old.now new.now self.old }
        // The pushes so far are those of `phases` at the nodes up to this one. The call needs no memory and cannot
        // fail.
        ensures noted { (before after : List (List ℕ)) → MayNote before after x old.now new.now self.old
            → IsNotedTo before after (x + 1) self.new }
        ensures room { HasSameRoom self.old self.new }
    {
        if old == new {
            return;
        }
        if !loses_way(&mut self.marks, old, new) {
            self.grow.push(x, new);
            return;
        }
        let kept = self.shrink.push_kept(x, old, new, &mut self.marks);
        push_if(&mut self.emptied, kept == 0, x);
        self.grow.push_if(kept < new.len(), x, new);
    }

    /// Adds the nodes that keep no way to the first phase, each with an empty list: they come last. Each node whose
    /// list has changed must be noted. O(these nodes).
    pub fn finish(&mut self)
        // The pushes are then those that `phases` lists.
        ensures phases { (before after : List (List ℕ)) → IsNotedTo before after (length after) self.old
            → (self.new.shrink ≡ shrinks before after) × (self.new.grow ≡ growths before after) }
        ensures room { HasSameRoom self.old self.new }
    {
        self.shrink.push_empty(&self.emptied);
        self.emptied.clear();
    }

    /// The pushes of the first phase. O(1).
    pub fn shrink(&self) -> PushList<'_>
        ensures { AreListed self.now.shrink result }
    {
        self.shrink.as_list()
    }

    /// The pushes of the second phase. O(1).
    pub fn grow(&self) -> PushList<'_>
        ensures { AreListed self.now.grow result }
    {
        self.grow.as_list()
    }
}

/// Appends a node, if the test holds.
fn push_if(nodes: &mut Vec<u32>, test: bool, x: u32)
    requires { length nodes.old.items < vec_capacity nodes.old }
    ensures items { nodes.new.items ≡ nodes.old.items ++ cond test (x ∷ []) [] }
    ensures same_room { vec_capacity nodes.new ≡ vec_capacity nodes.old }
{
    if test {
        nodes.push_reserved(x);
    }
}

/// Adds marks, up to one for each of so many nodes.
fn add_marks(marks: &mut Vec<bool>, nodes: usize) -> Result<(), AllocError>
    requires { marks.old.items ≡ replicate (length marks.old.items) false }
    ensures clear { marks.new.items ≡ replicate (length marks.new.items) false }
    ensures room { OnOk result (nodes ≤ length marks.new.items) }
    ensures more { length marks.old.items ≤ length marks.new.items }
    ensures few { length marks.new.items ≤ max (length marks.old.items) nodes }
{
    if marks.len() < nodes {
        marks.resize(nodes, false)?;
    }
    Ok(())
}
