//! The lowest cycle that a link would close. It is found by a depth-first search from the head of the link to its tail.
//! The search keeps its path as a stack and reads rows in their order, so the first path that it finds always goes on
//! to the lowest node from which links lead to the tail. All links fall, so the search skips nodes that are lower than
//! the tail. It needs few rows, because it stops at the first path.

ghost use Rattle.std.specs.Prelude.{◌≡◌, ◌≢◌, ℕ, ◌<◌, ◌≤◌, ◌∷◌, length, vec_len, slice_index_or, All, IfOk};
ghost use Rattle.fr_graph.specs.Descents.{GoesOn, HasBegun, HasHeights, IsDescent, IsSkipped, LeadsOnlyTo};
ghost use Rattle.fr_graph.specs.Descents.{LeadsToUnmet, last_of, nodes_of};
ghost use Rattle.fr_graph.specs.Evidence.{IsLowestCycleBy};
ghost use Rattle.fr_graph.specs.KeptRows.{net_in};
ghost use Rattle.fr_graph.specs.Links.{HasPath};
ghost use Rattle.fr_graph.specs.PathSearch.{AreFallingRows};

use crate::first::First;
use crate::heights::Heights;
use crate::row_table::RowTable;
use std::alloc::{AllocError, Global};

/// A node of the path, and the next place to read in its row.
#[derive(Drop, Clone, Copy)]
struct Step {
    node: u32,
    next: usize,
}

/// The state of the search.
#[derive(Drop)]
struct Descent {
    // The node that it looks for.
    to: u32,
    // It has space for each node that the search has not met.
    path: Vec<Step>,
    // Which nodes it has met. From those that have left the path, no links lead to `to`.
    met: Vec<bool>,
}

impl Descent {
    /// A search from `from` to `to`, among this number of nodes, that has read no row.
    fn from_start(alloc: Global, nodes: usize, from: u32, to: u32) -> Result<Descent, AllocError>
        requires { from < nodes }
        ensures { IfOk result (HasBegun nodes from to) }
    {
        let mut met = vec![in alloc; false; nodes]?;
        met[from as usize] = true;
        let mut path = Vec::with_capacity(alloc, nodes)?;
        path.push_reserved(Step {
            node: from,
            next: 0,
        });
        Ok(Descent { to, path, met })
    }

    /// The last node of the path.
    fn last_on_path(&self) -> u32
        requires { 0 < vec_len self.now.path }
        ensures { result ≡ last_of self.now }
    {
        self.path[self.path.len() - 1].node
    }

    /// The first place of the row, from `from` on, whose link leads to a node that the search does not skip, or the
    /// length of the row. It skips nodes that it has met, and those lower than the node that it looks for.
    fn first_allowed_place(&self, row: &[(u16, First)], heights: &Heights, from: usize) -> usize
        requires below { All (λ (e : ℕ × First). e.0 < length self.now.met.items) row.now }
        requires heights { HasHeights heights.now.heights self.now }
        requires from { from ≤ length row.now }
        ensures reach { (from ≤ result) × (result ≤ length row.now) }
        ensures skipped { (k : ℕ) (d : ℕ × First) → from ≤ k → k < result
            → LeadsOnlyTo (IsSkipped heights.now.heights self.now) (slice_index_or row.now k d) }
        ensures stops { (d : ℕ × First) → result < length row.now
            → LeadsToUnmet self.now (slice_index_or row.now result d) }
    {
        let low = heights.height(self.to);
        for place in from..row.len() {
            let (head, first) = row[place];
            if first == First::Outward
                && !self.met[head as usize]
                && low <= heights.height(head as u32)
            {
                return place;
            }
        }
        row.len()
    }

    /// Goes on from the last node of the path, which must not be the node that it looks for: to the next neighbour that
    /// it does not skip, or back if there is none.
    fn search_one_step(&mut self, rows: &RowTable, heights: &Heights)
        requires rows { AreFallingRows rows.now heights.now.heights }
        requires descent { IsDescent rows.now self.old }
        requires apart { last_of self.old ≢ self.old.to }
        ensures { GoesOn rows.now self.old self.new }
    {
        let last = self.path.len() - 1;
        let top = self.path[last];
        let row = rows.row(top.node);
        let place = self.first_allowed_place(row, heights, top.next);
        if place == row.len() {
            let _left = self.path.pop();
            return;
        }
        let (head, _) = row[place];
        self.path[last] = Step {
            node: top.node,
            next: place,
        };
        self.path.push_reserved(Step {
            node: head as u32,
            next: 0,
        });
        self.met[head as usize] = true;
    }

    /// The walk from the end of the path to its beginning, by a link, and then along the path.
    fn closed_walk(&self, alloc: Global) -> Result<Vec<u32>, AllocError>
        ensures { IfOk result (λ walk. walk.items ≡ self.now.to ∷ nodes_of self.now.path.items) }
    {
        let mut walk = Vec::with_capacity(alloc, self.path.len() + 1)?;
        walk.push(self.to)?;
        for step in &self.path {
            walk.push(step.node)?;
        }
        Ok(walk)
    }
}

/// The cycle that a link from `u` to `v` would close: from `v` it always goes on to the lowest node from which links
/// lead to `u`. All links must fall, and links must lead from `v` to `u`.
pub(crate) fn lowest_cycle(
    alloc: Global,
    rows: &RowTable,
    heights: &Heights,
    u: u32,
    v: u32,
) -> Result<Vec<u32>, AllocError>
    requires rows { AreFallingRows rows.now heights.now.heights }
    requires u { u < length rows.now.rows }
    requires v { v < length rows.now.rows }
    requires leads { HasPath (net_in rows.now).links v u }
    ensures { IfOk result (λ walk. IsLowestCycleBy (net_in rows.now).links u v walk.items) }
{
    let mut descent = Descent::from_start(alloc, rows.len(), v, u)?;
    while descent.last_on_path() != u {
        descent.search_one_step(rows, heights);
    }
    descent.closed_walk(alloc)
}
