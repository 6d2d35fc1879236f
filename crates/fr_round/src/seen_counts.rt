//! The counts that a worker has seen.

ghost use Rattle.std.specs.Prelude.{◌≡◌, ◌≢◌, ℕ, ◌<◌, ◌≤◌, IfOk, IsTrue, not, nat_lt};
ghost use Rattle.std.specs.Prelude.{◌&&◌, ◌↔◌, length, slice_index, slice_set, replicate};
ghost use Rattle.fr_graph.specs.RowLists.{opposite};
ghost use Rattle.fr_core.specs.Machine.{bound_of};
ghost use Rattle.fr_round.specs.Missing.{misses, missing_of, IsCounted};

use fr_graph::{First, Net};
use std::alloc::{AllocError, Global};

/// The counts that a worker has seen, one for each node, and for each node how many of its neighbours miss their bounds
/// according to the seen counts. Counts never fall, so a bound that was seen to be met is still met.
#[derive(Drop)]
pub(crate) struct Seen {
    counts: Vec<u16>,
    missing: Vec<u16>,
}

/// The bound that a neighbour of a node with count `own` must meet, for a link with the first direction `first`.
fn neighbour_bound(first: First, own: u16) -> u32
    ensures { result ≡ bound_of first own }
{
    match first {
        First::Outward => u32::from(own) + 1,
        First::Inward => u32::from(own),
    }
}

/// Whether a neighbour with this count misses that bound.
fn is_below_bound(first: First, own: u16, count: u16) -> bool
    ensures { result ≡ nat_lt count (bound_of first own) }
{
    u32::from(count) < neighbour_bound(first, own)
}

/// Whether a node whose count rises from `had` to `count` begins to meet its bound for a neighbour with count `other`.
/// `first` is the first direction of their link seen from the node. It does exactly if the neighbour begins to miss its
/// own bound.
fn newly_meets_bound(first: First, other: u16, had: u16, count: u16) -> bool
    ensures { result ≡ (nat_lt had (bound_of (opposite first) other)
        && not (nat_lt count (bound_of (opposite first) other))) }
{
    is_below_bound(first, count, other) && !is_below_bound(first, had, other)
}

/// How many links of node `x` first point away from it. So many of its neighbours miss their bounds while no node has
/// turned.
fn count_outward(net: &Net, x: u32) -> u16
    requires { x < net.now.nodes }
    ensures { result ≡ missing_of net.now.nodes net.now.links (replicate net.now.nodes 0) x }
{
    net.network_law();
    let mut outward = 0;
    for (_, first) in net.row(x) {
        if let First::Outward = first {
            outward += 1;
        }
    }
    outward
}

/// Goes through the row of node `y`, whose seen count becomes `count`, while the other counts are as they were seen
/// before. It updates the number of each neighbour for which `y` begins to meet its bound, and returns how many
/// neighbours of `y` miss theirs.
fn update_row_for_count(net: &Net, counts: &[u16], missing: &mut [u16], y: u32, count: u16) -> u16
    requires node { y < net.now.nodes }
    requires one_each { (length counts.now ≡ net.now.nodes) × (length missing.old ≡ net.now.nodes) }
    requires up { slice_index counts.now y ≤ count }
    requires right { (z : ℕ) → z < net.now.nodes
        → slice_index missing.old z ≡ missing_of net.now.nodes net.now.links counts.now z }
    ensures others { (z : ℕ) → z < net.now.nodes → z ≢ y
        → slice_index missing.new z ≡ missing_of net.now.nodes net.now.links (slice_set counts.now y count) z }
    ensures own { result ≡ missing_of net.now.nodes net.now.links (slice_set counts.now y count) y }
{
    net.network_law();
    let had = counts[y as usize];
    let mut own = 0;
    for (neighbour, first) in net.row(y) {
        let at = *neighbour as usize;
        let other = counts[at];
        own += u16::from(is_below_bound(*first, count, other));
        if newly_meets_bound(*first, other, had, count) {
            missing[at] -= 1;
        }
    }
    own
}

impl Seen {
    /// No turns of any node: all counts are 0, and the neighbours that miss their bounds are those to which a link
    /// first points.
    pub fn new(alloc: Global, net: &Net) -> Result<Seen, AllocError>
        ensures counts { IfOk result (λ seen. seen.counts.items ≡ replicate net.now.nodes 0) }
        ensures counted { IfOk result (IsCounted net.now.nodes net.now.links) }
    {
        let nodes = net.nodes();
        let counts = vec![in alloc; 0u16; nodes as usize]?;
        let mut missing = vec![in alloc; 0u16; nodes as usize]?;
        for x in 0..nodes {
            missing[x as usize] = count_outward(net, x);
        }
        Ok(Seen { counts, missing })
    }

    /// A copy in memory of its own.
    pub fn to_copy(&self, alloc: Global) -> Result<Seen, AllocError>
        ensures counts { IfOk result (λ seen. seen.counts.items ≡ self.now.counts.items) }
        ensures missing { IfOk result (λ seen. seen.missing.items ≡ self.now.missing.items) }
    {
        Ok(Seen {
            counts: self.counts.to_vec(alloc)?,
            missing: self.missing.to_vec(alloc)?,
        })
    }

    /// The seen count of node `x`.
    pub fn count(&self, x: u32) -> u64
        requires { x < length self.now.counts.items }
        ensures { result ≡ slice_index self.now.counts.items x }
    {
        u64::from(self.counts[x as usize])
    }

    /// Whether every neighbour of node `x` meets its bound for the seen count of `x`, according to the seen counts.
    pub fn all_meet_bounds(&self, x: u32) -> bool
        requires { x < length self.now.missing.items }
        ensures { IsTrue result ↔ (slice_index self.now.missing.items x ≡ 0) }
    {
        self.missing[x as usize] == 0
    }

    /// Whether a neighbour, given by its entry in a row, misses its bound for the count `own`, according to the seen
    /// counts.
    pub fn misses_bound(&self, entry: (u16, First), own: u64) -> bool
        requires { entry.0 < length self.now.counts.items }
        ensures { result ≡ misses self.now.counts.items own entry }
    {
        let count = self.count(entry.0 as u32);
        match entry.1 {
            First::Outward => count <= own,
            First::Inward => count < own,
        }
    }

    /// Notes a count of node `y`, which is at least its seen count. If it is greater, the numbers of `y` and of its
    /// neighbours are updated, by going through the row of `y`.
    #[inline(always)]
    pub fn raise_seen_count(&mut self, net: &Net, y: u32, count: u64)
        requires node { y < net.now.nodes }
        requires up { slice_index self.old.counts.items y ≤ count }
        requires low { count ≤ net.now.nodes }
        requires counted { IsCounted net.now.nodes net.now.links self.old }
        ensures counts { self.new.counts.items ≡ slice_set self.old.counts.items y count }
        ensures counted { IsCounted net.now.nodes net.now.links self.new }
    {
        if self.count(y) == count {
            return;
        }
        net.network_law();
        let count = count as u16;
        let missing = update_row_for_count(net, &self.counts, &mut self.missing, y, count);
        self.counts[y as usize] = count;
        self.missing[y as usize] = missing;
    }
}
