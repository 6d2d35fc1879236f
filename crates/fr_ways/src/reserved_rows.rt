//! Lists for nodes, in memory that is reserved beforehand.

ghost use Rattle.std.specs.Prelude.{◌≡◌, ℕ, ◌<◌, ◌≤◌, ◌+◌, ◌++◌, [], ◌∷◌, All, IfOk, OnOk, cond, false, filter};
ghost use Rattle.std.specs.Prelude.{length, map, not, replicate, vec_capacity};
ghost use Rattle.fr_ways.specs.Held.{HasPlace, HoldsAsMuch, KeepsLists};
ghost use Rattle.fr_ways.specs.Phases.{is_empty, is_way};
ghost use Rattle.fr_ways.specs.PushLists.{AreListed};

use crate::kept_ways::copy_kept;
use crate::push_list::PushList;
use std::alloc::{AllocError, Global};
use std::marker::Model;

/// Nodes, each with a list. Its value in contracts is these pairs, and how many nodes and ways there is room for.
#[derive(Debug, Drop)]
pub(crate) struct Rows {
    nodes: Vec<u32>,
    // Where the list of each node begins, and after the last node the number of all ways.
    starts: Vec<usize>,
    list: Vec<u32>,
}

impl Model for Rows {
    ghost use Rattle.fr_ways.specs.Held.{Held};

    ghost Value = { Held };

    ghost use Rattle.fr_ways.specs.HeldInside.{held_in, IsHeld};

    ghost view = { held_in };

    ghost invariant = { IsHeld };
}

impl Rows {
    /// No nodes.
    pub(crate) fn new(alloc: Global) -> Result<Rows, AllocError>
        ensures { IfOk result (λ rows. rows.pairs ≡ []) }
    {
        let mut starts = Vec::with_capacity(alloc, 1)?;
        starts.push_reserved(0);
        Ok(Rows {
            nodes: Vec::new(alloc),
            starts,
            list: Vec::new(alloc),
        })
    }

    /// Makes room for so many nodes, with so many ways in total.
    pub(crate) fn make_room(&mut self, nodes: usize, ways: usize) -> Result<(), AllocError>
        ensures room { OnOk result ((nodes ≤ self.new.nodes) × (ways ≤ self.new.ways)) }
        ensures kept { KeepsLists self.old self.new }
    {
        reserve_room(&mut self.nodes, nodes)?;
        reserve_room(&mut self.starts, nodes + 1)?;
        reserve_room(&mut self.list, ways)
    }

    /// Removes all nodes.
    pub(crate) fn clear(&mut self)
        ensures none { self.new.pairs ≡ [] }
        ensures room { HoldsAsMuch self.old self.new }
    {
        self.nodes.clear();
        self.starts.truncate(1);
        self.list.clear();
    }

    /// Adds a node with its list.
    pub(crate) fn push(&mut self, x: u32, row: &[u32])
        requires { HasPlace row.now self.old }
        ensures pairs { self.new.pairs ≡ self.old.pairs ++ (x, row.now) ∷ [] }
        ensures room { HoldsAsMuch self.old self.new }
    {
        append_ways(row, &mut self.list);
        self.nodes.push_reserved(x);
        self.starts.push_reserved(self.list.len());
    }

    /// Adds a node with its list, if the test holds.
    pub(crate) fn push_if(&mut self, test: bool, x: u32, row: &[u32])
        requires { HasPlace row.now self.old }
        ensures pairs { self.new.pairs ≡ self.old.pairs ++ cond test ((x, row.now) ∷ []) [] }
        ensures room { HoldsAsMuch self.old self.new }
    {
        if test {
            self.push(x, row);
        }
    }

    /// Adds nodes that have empty lists.
    pub(crate) fn push_empty(&mut self, nodes: &[u32])
        requires { length self.old.pairs + length nodes.now ≤ self.old.nodes }
        ensures pairs { self.new.pairs ≡ self.old.pairs ++ map (λ x. (x, [])) nodes.now }
        ensures room { HoldsAsMuch self.old self.new }
    {
        for x in nodes {
            self.push(*x, &[]);
        }
    }

    /// Adds a node with those of its new ways that are old ones too, unless there are none. Returns how many there are.
    /// `noted` is as for [`copy_kept`].
    pub(crate) fn push_kept(
        &mut self,
        x: u32,
        old: &[u32],
        new: &[u32],
        noted: &mut [bool],
    ) -> usize
        requires place { HasPlace new.now self.old }
        requires clear { noted.old ≡ replicate (length noted.old) false }
        requires range { All (λ (y : ℕ). y < length noted.old) new.now }
        ensures kept { (result ≡ length (filter (is_way old.now) new.now)) × (self.new.pairs ≡ self.old.pairs
            ++ cond (not (is_empty (filter (is_way old.now) new.now))) ((x, filter (is_way old.now) new.now) ∷ []) []) }
        ensures room { HoldsAsMuch self.old self.new }
        ensures same { noted.new ≡ noted.old }
    {
        let start = self.list.len();
        copy_kept(noted, old, new, &mut self.list);
        let end = self.list.len();
        if start < end {
            self.nodes.push_reserved(x);
            self.starts.push_reserved(end);
        }
        end - start
    }

    /// The nodes with their lists.
    pub(crate) fn as_list(&self) -> PushList<'_>
        ensures { AreListed self.now.pairs result }
    {
        PushList {
            nodes: self.nodes.as_slice(),
            starts: self.starts.as_slice(),
            list: self.list.as_slice(),
        }
    }
}

/// Makes room for so many elements in all.
pub(crate) fn reserve_room<T>(list: &mut Vec<T>, count: usize) -> Result<(), AllocError>
    ensures room { OnOk result (count ≤ vec_capacity list.new) }
    ensures items { list.new.items ≡ list.old.items }
    ensures more { vec_capacity list.old ≤ vec_capacity list.new }
{
    list.reserve(count.saturating_sub(list.len()))
}

/// Appends these ways to the list.
fn append_ways(ways: &[u32], list: &mut Vec<u32>)
    requires { length list.old.items + length ways.now ≤ vec_capacity list.old }
    ensures items { list.new.items ≡ list.old.items ++ ways.now }
    ensures same_room { vec_capacity list.new ≡ vec_capacity list.old }
{
    for y in ways {
        list.push_reserved(*y);
    }
}
