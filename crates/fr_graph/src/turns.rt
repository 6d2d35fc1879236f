//! The turns of a round: how often each node has turned, and which nodes have turned.

ghost use Rattle.std.specs.Prelude.{◌≡◌, ℕ, ◌<◌, ◌≤◌, ◌+◌, ◌-◌, ◌^◌, length, map, min, replicate};
ghost use Rattle.std.specs.Prelude.{slice_index, slice_set, sum, sum_by, vec_capacity, All, IfOk};
ghost use Rattle.fr_graph.specs.Limits.{most_nodes};
ghost use Rattle.fr_graph.specs.Turns.{AreSet, AreTurned, set_to};

use std::alloc::{AllocError, Global};
use std::marker::Model;

/// How often each node has turned, with a list of the nodes that have. Work after a few turns goes over this list only.
/// The value in contracts is the counts, one for each node.
#[derive(Debug, Drop)]
pub struct Turns {
    counts: Vec<u64>,
    // Its capacity is the number of nodes, so that a turn does not allocate.
    nodes: Vec<u32>,
}

impl Model for Turns {
    ghost use Rattle.std.specs.Prelude.{ℕ, List};

    ghost Value = { List ℕ };

    ghost use Rattle.fr_graph.specs.Turns.{counts_in, AreSound};

    ghost view = { counts_in };

    ghost invariant = { AreSound };
}

/// Lists the nodes that have turned.
fn list_turned(nodes: &mut Vec<u32>, counts: &[u64])
    requires few { length counts.now ≤ most_nodes }
    requires room { length counts.now ≤ vec_capacity nodes.old }
    ensures turned { AreTurned counts.now nodes.new.items }
    ensures same_room { vec_capacity nodes.new ≡ vec_capacity nodes.old }
{
    nodes.clear();
    for x in 0..counts.len() as u32 {
        if counts[x as usize] > 0 {
            nodes.push_reserved(x);
        }
    }
}

/// Sets the count of each of these nodes to `count`.
fn set_counts(counts: &mut [u64], nodes: &[u32], count: u64)
    requires { All (λ (x : ℕ). x < length counts.old) nodes.now }
    ensures one_each { length counts.new ≡ length counts.old }
    ensures set { AreSet nodes.now count counts.old counts.new }
{
    for x in nodes {
        counts[*x as usize] = count;
    }
}

/// The sum of the counts of these nodes, at most `u64::MAX`.
fn sum_of(counts: &[u64], nodes: &[u32]) -> u64
    requires { All (λ (x : ℕ). x < length counts.now) nodes.now }
    ensures { result ≡ min (sum_by (slice_index counts.now) nodes.now) (2 ^ 64 - 1) }
{
    let mut sum = 0u64;
    for x in nodes {
        sum = sum.saturating_add(counts[*x as usize]);
    }
    sum
}

impl Turns {
    /// No turns yet, for at most [`MAX_NODES`](crate::MAX_NODES) nodes, with memory for all turns that can come. Fails
    /// with `AllocError` if an allocation is refused. O(n).
    pub fn none(alloc: Global, nodes: u32) -> Result<Turns, AllocError>
        requires { nodes ≤ most_nodes }
        ensures { IfOk result (λ turns. turns ≡ replicate nodes 0) }
    {
        Ok(Turns {
            counts: vec![in alloc; 0u64; nodes as usize]?,
            nodes: Vec::with_capacity(alloc, nodes as usize)?,
        })
    }

    /// The turns with these counts, of at most [`MAX_NODES`](crate::MAX_NODES) nodes. Fails with `AllocError` if an
    /// allocation is refused. O(n).
    pub fn of(alloc: Global, counts: Vec<u64>) -> Result<Turns, AllocError>
        requires { length counts.items ≤ most_nodes }
        ensures { IfOk result (λ turns. turns ≡ counts.items) }
    {
        let mut nodes = Vec::with_capacity(alloc, counts.len())?;
        list_turned(&mut nodes, &counts);
        Ok(Turns { counts, nodes })
    }

    /// How often each node has turned: one count for each node. O(1).
    pub fn counts(&self) -> &[u64]
        ensures { result.now ≡ self.now }
    {
        &self.counts
    }

    /// The nodes that have turned, each once, in no particular order. O(1).
    pub fn nodes(&self) -> &[u32]
        ensures { AreTurned self.now result.now }
    {
        &self.nodes
    }

    /// The total number of turns, at most `u64::MAX`. O(k) for k nodes that have turned.
    pub fn total(&self) -> u64
        ensures { result ≡ min (sum self.now) (2 ^ 64 - 1) }
    {
        sum_of(&self.counts, &self.nodes)
    }

    /// Adds a turn of node `x`, which must be in the table and have a count below `u64::MAX`. It does not allocate.
    /// O(1).
    pub fn add(&mut self, x: u32)
        requires node { x < length self.old }
        requires fits { slice_index self.old x < 2 ^ 64 - 1 }
        ensures { self.new ≡ slice_set self.old x (slice_index self.old x + 1) }
    {
        let count = self.counts[x as usize];
        if count == 0 {
            self.nodes.push_reserved(x);
        }
        self.counts[x as usize] = count + 1;
    }

    /// Copies these counts, one for each node. It does not allocate. O(n).
    pub fn copy_from(&mut self, counts: &[u64])
        requires { length counts.now ≡ length self.old }
        ensures { self.new ≡ counts.now }
    {
        self.counts.copy_from_slice(counts);
        list_turned(&mut self.nodes, counts);
    }

    /// Sets the count of each node that has turned to `count`, which must not be 0. O(k) for k nodes that have turned.
    pub fn set_each(&mut self, count: u64)
        requires { 0 < count }
        ensures { self.new ≡ map (set_to count) self.old }
    {
        set_counts(&mut self.counts, &self.nodes, count);
    }

    /// Sets all counts to 0. O(k) for k nodes that had turned.
    pub fn clear(&mut self)
        ensures { self.new ≡ replicate (length self.old) 0 }
    {
        set_counts(&mut self.counts, &self.nodes, 0);
        self.nodes.clear();
    }

    /// Returns only the counts. O(1).
    pub fn into_counts(self) -> Vec<u64>
        ensures { result.items ≡ self }
    {
        self.counts
    }
}
