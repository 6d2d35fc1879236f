//! The search for a cycle. It is a depth-first search that keeps its path as a stack, and reads each entry at most twice.
//! An entry that leads back to a node of the path closes a cycle. If none does, the search leaves the heads of each node
//! before the node.

ghost use Rattle.std.specs.Prelude.{◌≡◌, ◌≢◌, ℕ, ◌<◌, ◌-◌, ◌++◌, List, Option, [], ◌∷◌, length, drop, vec_len};
ghost use Rattle.std.specs.Prelude.{Some, slice_index, IfOk, IfSome, IfNone, OnOk, IsTrue, Contains};
ghost use Rattle.fr_search.specs.Heads.{AreRowsOf, HeadRows, IsFound, IsInOrder};
ghost use Rattle.fr_search.specs.Search.{GoesOn, HasLeft, HasOpened, HasReadOn, IsAtRest, IsNext, IsOnPath, IsSearch};
ghost use Rattle.fr_search.specs.Search.{IsDone, IsRead, LeadsToDone, left_count, mark_of, nodes_of, top_of};

use crate::rows::Rows;
use std::alloc::{AllocError, Global};

/// The state of a node: not met, on the path, or done. No cycle leads from a done node.
#[derive(Drop, Clone, Copy)]
enum Mark {
    Fresh,
    Open,
    Done,
}

/// The result of the search.
#[derive(Drop)]
pub enum CycleOrOrder {
    /// A cycle: its nodes, with the first one again at the end.
    Cycle(Vec<u32>),
    /// There is no cycle. The order lists all nodes, and the heads of each node before the node.
    Order(Vec<u32>),
}

/// A node of the path, and the next place to read in its row.
#[derive(Drop, Clone, Copy)]
struct Step {
    node: u32,
    next: usize,
}

/// The head, if there is one and it is not done.
fn if_unfinished(head: Option<u32>, marks: &[Mark]) -> Option<u32>
    requires { IfSome head (λ y. y < length marks.now) }
    ensures some { IfSome result (λ y. (head ≡ Some y) × (mark_of marks.now y ≢ Mark.Done)) }
    ensures none { IfNone result (IfSome head (IsDone marks.now)) }
{
    let head = head?;
    match marks[head as usize] {
        Mark::Done => None,
        _ => Some(head),
    }
}

/// The next entry of the row whose head is not done: its place and its head.
fn next_unfinished<R: Rows>(rows: &R, marks: &[Mark], step: Step) -> Option<(usize, u32)>
    requires rows { AreRowsOf (length marks.now) (R.shown rows.now) }
    requires node { step.node < length marks.now }
    requires read { IsRead (R.shown rows.now) marks.now step }
    ensures some { IfSome result (IsNext (R.shown rows.now) marks.now step.node) }
    ensures none { IfNone result (LeadsToDone (R.shown rows.now) marks.now step.node) }
{
    let row = rows.row(step.node);
    for place in step.next..row.len() {
        if let Some(head) = if_unfinished(R::head_of(row[place]), marks) {
            return Some((place, head));
        }
    }
    None
}

/// The place of a node on the path. The node must be on it.
fn place_on_path(path: &[Step], node: u32) -> usize
    requires { IsOnPath path.now node }
    ensures inside { result < length path.now }
    ensures is { slice_index (nodes_of path.now) result ≡ node }
{
    let mut at = 0;
    while path[at].node != node {
        at += 1;
    }
    at
}

/// The cycle that an entry which leads from the last node of `path` back to `node` closes.
fn cycle_closed_at(alloc: Global, path: &[Step], node: u32) -> Result<Vec<u32>, AllocError>
    requires { IsOnPath path.now node }
    ensures { IfOk result (λ walk. (k : ℕ) × (k < length path.now) × (slice_index (nodes_of path.now) k ≡ node)
        × (walk.items ≡ drop k (nodes_of path.now) ++ node ∷ [])) }
{
    let at = place_on_path(path, node);
    let mut walk = Vec::with_capacity(alloc, path.len() - at + 1)?;
    for step in &path[at..] {
        walk.push(step.node)?;
    }
    walk.push(node)?;
    Ok(walk)
}

/// The state of the search.
#[derive(Drop)]
struct Search {
    marks: Vec<Mark>,
    path: Vec<Step>,
    // The done nodes, in the order in which the search left them.
    order: Vec<u32>,
}

impl Search {
    /// A search that has met no node.
    fn before_first_visit(alloc: Global, nodes: u32) -> Result<Search, AllocError>
        ensures rest { IfOk result (λ search. (rows : HeadRows) → AreRowsOf nodes rows
            → IsAtRest rows search) }
        ensures one_each { IfOk result (λ search. length search.marks.items ≡ nodes) }
    {
        Ok(Search {
            marks: vec![in alloc; Mark::Fresh; nodes as usize]?,
            path: Vec::new(alloc),
            order: Vec::with_capacity(alloc, nodes as usize)?,
        })
    }

    /// Whether the search has met this node.
    fn has_visited(&self, node: u32) -> bool
        requires { node < length self.now.marks.items }
        ensures met { IsTrue result → mark_of self.now.marks.items node ≢ Mark.Fresh }
        ensures fresh { ¬ IsTrue result → mark_of self.now.marks.items node ≡ Mark.Fresh }
    {
        !matches!(&self.marks[node as usize], Mark::Fresh)
    }

    /// Puts `node` at the end of the path.
    fn push_on_path(&mut self, node: u32) -> Result<(), AllocError>
        requires below { node < length self.old.marks.items }
        requires fresh { mark_of self.old.marks.items node ≡ Mark.Fresh }
        ensures { OnOk result (HasOpened node self.old self.new) }
    {
        self.path.push(Step { node, next: 0 })?;
        self.marks[node as usize] = Mark::Open;
        Ok(())
    }

    /// Removes the last node from the path. All its entries must lead to done nodes.
    fn pop_finished(&mut self) -> Result<(), AllocError>
        requires full { 0 < vec_len self.old.path }
        requires below { top_of self.old < length self.old.marks.items }
        ensures { OnOk result (HasLeft self.old self.new) }
    {
        let top = self.path[self.path.len() - 1].node;
        let _last = self.path.pop();
        self.marks[top as usize] = Mark::Done;
        self.order.push(top)?;
        Ok(())
    }

    /// Continues to read the row of the last node of the path. Returns its next head that is not done, if there is one.
    fn next_unfinished_head<R: Rows>(&mut self, rows: &R) -> Option<u32>
        requires search { IsSearch (R.shown rows.now) self.old }
        requires full { 0 < vec_len self.old.path }
        ensures { HasReadOn (R.shown rows.now) self.old self.new result }
    {
        let last = self.path.len() - 1;
        let top = self.path[last];
        let (place, head) = next_unfinished(rows, &self.marks, top)?;
        self.path[last] = Step {
            node: top.node,
            next: place,
        };
        Some(head)
    }

    /// Takes a step from the last node of the path: on to a node that has not been met, or back if there is none. If an
    /// entry leads back to a node of the path, it takes no step and returns that node.
    fn search_one_step<R: Rows>(&mut self, rows: &R) -> Result<Option<u32>, AllocError>
        requires search { IsSearch (R.shown rows.now) self.old }
        requires full { 0 < vec_len self.old.path }
        ensures on { IfOk result (GoesOn (R.shown rows.now) self.old self.new) }
        ensures fewer { IfOk result (λ back. IfNone back (left_count self.new < left_count self.old)) }
    {
        let Some(head) = self.next_unfinished_head(rows) else {
            self.pop_finished()?;
            return Ok(None);
        };
        if self.has_visited(head) {
            return Ok(Some(head));
        }
        self.push_on_path(head)?;
        Ok(None)
    }

    /// Takes steps until the path is empty. If an entry leads back to a node of the path, it stops and returns that
    /// node.
    fn search_until_empty<R: Rows>(&mut self, rows: &R) -> Result<Option<u32>, AllocError>
        requires { IsSearch (R.shown rows.now) self.old }
        ensures on { IfOk result (GoesOn (R.shown rows.now) self.old self.new) }
        ensures empty { IfOk result (λ back. IfNone back (self.new.path.items ≡ [])) }
    {
        'walk: while !self.path.is_empty() {
            if let Some(node) = self.search_one_step(rows)? {
                return Ok(Some(node));
            }
        }
        Ok(None)
    }

    /// Searches from `root`, unless the search has met it already. If an entry leads back to a node of the path, it
    /// returns that node.
    fn search_from_root<R: Rows>(&mut self, rows: &R, root: u32) -> Result<Option<u32>, AllocError>
        requires rest { IsAtRest (R.shown rows.now) self.old }
        requires root { root < length self.old.marks.items }
        requires lower { (w : ℕ) → w < root → mark_of self.old.marks.items w ≢ Mark.Fresh }
        ensures on { IfOk result (GoesOn (R.shown rows.now) self.old self.new) }
        ensures empty { IfOk result (λ back. IfNone back (self.new.path.items ≡ [])) }
        ensures met { OnOk result (mark_of self.new.marks.items root ≢ Mark.Fresh) }
    {
        if self.has_visited(root) {
            return Ok(None);
        }
        self.push_on_path(root)?;
        self.search_until_empty(rows)
    }

    /// Searches from each node. If an entry leads back to a node of the path, it returns that node and stops.
    fn search_from_each_node<R: Rows>(
        &mut self,
        nodes: u32,
        rows: &R,
    ) -> Result<Option<u32>, AllocError>
        requires rest { IsAtRest (R.shown rows.now) self.old }
        requires one_each { length self.old.marks.items ≡ nodes }
        ensures on { IfOk result (GoesOn (R.shown rows.now) self.old self.new) }
        ensures order { IfOk result (λ back. IfNone back (IsInOrder nodes (R.shown rows.now) self.new.order.items)) }
    {
        for root in 0..nodes {
            if let Some(node) = self.search_from_root(rows, root)? {
                return Ok(Some(node));
            }
        }
        Ok(None)
    }
}

/// Finds a cycle, or an order of all nodes that lists the heads of each node before the node. The cycle is the first
/// one: the way into it begins at the lowest node that leads into a cycle, and always goes on by the first entry that
/// does. Fails with `AllocError` if an allocation is refused. O(n + m) for n nodes and m entries.
pub fn find_cycle<R: Rows>(alloc: Global, nodes: u32, rows: &R) -> Result<CycleOrOrder, AllocError>
    requires { AreRowsOf nodes (R.shown rows.now) }
    // The first cycle, or an order of all nodes that lists the heads of each node before the node.
    ensures { IfOk result (IsFound nodes (R.shown rows.now)) }
{
    let mut search = Search::before_first_visit(alloc, nodes)?;
    match search.search_from_each_node(nodes, rows)? {
        Some(node) => Ok(CycleOrOrder::Cycle(cycle_closed_at(alloc, &search.path, node)?)),
        None => Ok(CycleOrOrder::Order(search.order)),
    }
}
