//! The ways of a node, nearest first, and the walk by first ways.

ghost use Rattle.std.specs.Prelude.{◌≡◌, ◌≢◌, ℕ, ◌<◌, ◌≤◌, ◌+◌, ◌*◌, ◌^◌, ◌↔◌, List, [], ◌∷◌, length, map, take};
ghost use Rattle.std.specs.Prelude.{IfOk, IsTrue, MatchOption, OnErr, OnOk, slice_set};
ghost use Rattle.fr_graph.specs.Links.{HasPath};
ghost use Rattle.fr_graph.specs.Rows.{row};
ghost use Rattle.fr_graph.specs.declared.first.First.TheVariants.{Outward};
ghost use Rattle.fr_nearest.specs.Distances.{AreDistances, IsMeasureOf, no_distance};
ghost use Rattle.fr_nearest.specs.LinkChanges.{HadLinks};
ghost use Rattle.fr_nearest.specs.Ways.{AreWays, IsFirstWay, IsNearestWalk, IsWay};
ghost use Rattle.fr_nearest.specs.Ranks.{AreRanked, AreSortedTo, PointedAway, number_of};

use crate::distances::{Distances, NONE};
use fr_graph::{First, Net};
use std::alloc::{AllocError, Global};

/// The key by which ways are sorted: nearer ways first, and ways of the same distance by number.
pub(crate) fn way_rank(distance: u16, w: u16) -> u32
    ensures { result ≡ distance * 2 ^ 16 + w }
{
    (distance as u32) * (1 << 16) + w as u32
}

/// Whether a link that a node sees so points away from it.
pub(crate) fn points_away(first: First) -> bool
    ensures { IsTrue result ↔ (first ≡ Outward) }
{
    match first {
        First::Outward => true,
        First::Inward => false,
    }
}

/// Writes the rank of a neighbour `w` at the place `count`. Returns how many ranks are kept then: one more if the link
/// points to `w` and `w` has a distance.
fn write_rank_if_way(ranks: &mut [u32], count: usize, distance: u16, w: u16, is_out: bool) -> usize
    requires { count < length ranks.old }
    ensures written { ranks.new ≡ slice_set ranks.old count (distance * 2 ^ 16 + w) }
    ensures way { IsTrue is_out → distance ≢ no_distance → result ≡ count + 1 }
    ensures other { ¬ (IsTrue is_out × (distance ≢ no_distance)) → result ≡ count }
    ensures few { result ≤ count + 1 }
{
    // Whether this is a way is hard to predict, and a store costs less than a branch that was predicted wrongly.
    ranks[count] = way_rank(distance, w);
    if is_out && distance != NONE {
        count + 1
    } else {
        count
    }
}

/// Writes the ranks of the ways of node `x` over the first elements of a slice, by number. Returns how many there are.
fn rank_ways(net: &Net, x: u32, distances: &[u16], ranks: &mut [u32]) -> usize
    requires node { x < net.now.nodes }
    requires one_each { length distances.now ≡ net.now.nodes }
    requires room { length (row net.now.nodes net.now.links x) ≤ length ranks.old }
    ensures ranked { AreRanked net.now.links distances.now x (take result ranks.new) }
    ensures few { result ≤ length ranks.new }
    ensures same { length ranks.new ≡ length ranks.old }
{
    net.network_law();
    let mut count = 0;
    let row = net.row(x);
    for (w, first) in row {
        let is_out = points_away(*first);
        count = write_rank_if_way(ranks, count, distances[*w as usize], *w, is_out);
    }
    count
}

/// Whether a link that a node sees so now pointed away from it before a round in which the node has turned `own` times
/// and its neighbour `other` times.
fn pointed_away(first: First, own: u64, other: u64) -> bool
    ensures { IsTrue result ↔ PointedAway first own other }
{
    match first {
        First::Outward => own == other,
        First::Inward => own != other,
    }
}

/// Ranks the ways that node `x` had before a round in which each node has turned so often, as [`rank_ways`] ranks those
/// that it has. The distances are those before the round.
fn rank_ways_before(
    net: &Net,
    x: u32,
    counts: &[u64],
    distances: &[u16],
    ranks: &mut [u32],
) -> usize
    requires node { x < net.now.nodes }
    requires counted { length counts.now ≡ net.now.nodes }
    requires one_each { length distances.now ≡ net.now.nodes }
    requires room { length (row net.now.nodes net.now.links x) ≤ length ranks.old }
    ensures ranked { (links : List (ℕ × ℕ)) → HadLinks net.now.links counts.now links x
        → AreRanked links distances.now x (take result ranks.new) }
    ensures few { result ≤ length ranks.new }
    ensures same { length ranks.new ≡ length ranks.old }
{
    net.network_law();
    let own = counts[x as usize];
    let mut count = 0;
    let row = net.row(x);
    for (w, first) in row {
        let is_out = pointed_away(*first, own, counts[*w as usize]);
        count = write_rank_if_way(ranks, count, distances[*w as usize], *w, is_out);
    }
    count
}

/// Replaces each rank by the number of its node.
fn ranks_to_numbers(ranks: &mut [u32])
    ensures { ranks.new ≡ map number_of ranks.old }
{
    for rank in ranks.iter_mut() {
        *rank %= 1 << 16;
    }
}

/// Sorts the first `count` ranks of a slice, and replaces each of them by the number of its node.
fn sort_ways(ranks: &mut [u32], count: usize)
    requires { count ≤ length ranks.old }
    ensures { AreSortedTo count ranks.old ranks.new }
{
    let first = &mut ranks[..count];
    first.sort_unstable();
    ranks_to_numbers(first);
}

impl Distances {
    /// Lists the ways of node `x` of the network that these are the distances of, nearest first: by distance, and then
    /// by number. The list is cleared first, and gets capacity for all neighbours of the node, which it keeps.
    ///
    /// Fails with `AllocError`, and an empty list, if an allocation is refused. O(d log d).
    pub fn ways(&self, net: &Net, x: u32, list: &mut Vec<u32>) -> Result<(), AllocError>
        requires measured { IsMeasureOf net.now self.now }
        requires node { x < net.now.nodes }
        ensures ways { OnOk result (AreWays net.now.links self.now.dest x list.new.items) }
        ensures empty { OnErr result (list.new.items ≡ []) }
    {
        net.network_law();
        list.clear();
        list.resize(net.row(x).len(), 0)?;
        let count = rank_ways(net, x, self.numbers(), list);
        list.truncate(count);
        list.sort_unstable();
        ranks_to_numbers(list);
        Ok(())
    }

    /// Lists the ways of node `x` as [`ways`](Self::ways) does, in a caller's slice, for callers that cannot allocate.
    /// It writes them to the front of the slice, and returns how many they are. The rest of the slice is space for the
    /// work: its values then mean nothing.
    ///
    /// The slice must have one place for each node of the network. O(d log d).
    pub fn write_ways(&self, net: &Net, x: u32, space: &mut [u32]) -> usize
        requires measured { IsMeasureOf net.now self.now }
        requires node { x < net.now.nodes }
        requires space { net.now.nodes ≤ length space.old }
        ensures ways { AreWays net.now.links self.now.dest x (take result space.new) }
        ensures few { result ≤ length space.new }
        ensures same { length space.new ≡ length space.old }
    {
        net.network_law();
        let count = rank_ways(net, x, self.numbers(), space);
        sort_ways(space, count);
        count
    }

    /// Lists the ways that node `x` had before the last update, as `write_ways` lists those that it has. Since then a round
    /// may have reversed links, and `counts` says how often each node has turned in it. No link of the node may have
    /// been added or removed.
    ///
    /// The slice must have one place for each node of the network. O(d log d).
    pub fn write_ways_before(&self, net: &Net, counts: &[u64], x: u32, space: &mut [u32]) -> usize
        requires counted { length counts.now ≡ net.now.nodes }
        requires before { length self.now.before ≡ net.now.nodes }
        requires node { x < net.now.nodes }
        requires space { net.now.nodes ≤ length space.old }
        // This holds if no edit has changed the links of the node.
        ensures ways { (links : List (ℕ × ℕ)) (d : ℕ) → AreDistances net.now.nodes links d self.now.before
            → HadLinks net.now.links counts.now links x → AreWays links d x (take result space.new) }
        ensures few { result ≤ length space.new }
        ensures same { length space.new ≡ length space.old }
    {
        net.network_law();
        let count = rank_ways_before(net, x, counts, self.numbers_before(), space);
        sort_ways(space, count);
        count
    }

    /// The nearest way of node `x` of the network that these are the distances of. `None` if the node has no way. O(d).
    pub fn first_way(&self, net: &Net, x: u32) -> Option<u32>
        requires measured { IsMeasureOf net.now self.now }
        requires node { x < net.now.nodes }
        // `None` exactly if the node has no way.
        ensures { MatchOption result ((w : ℕ) → ¬ IsWay net.now.links self.now.dest x w)
            (IsFirstWay net.now.links self.now.dest x) }
    {
        net.network_law();
        let distances = self.numbers();
        let mut nearest = None;
        let mut least = NONE;
        let row = net.row(x);
        for (w, first) in row {
            let distance = distances[*w as usize];
            if *first == First::Outward && distance < least {
                nearest = Some(*w as u32);
                least = distance;
            }
        }
        nearest
    }

    /// The walk from node `x` to the destination by first ways: no path is shorter. `None` if no links lead from the
    /// node to the destination. Fails with `AllocError` if an allocation is refused. O(r d) for a walk of r nodes.
    pub fn walk(&self, alloc: Global, net: &Net, x: u32) -> Result<Option<Vec<u32>>, AllocError>
        requires measured { IsMeasureOf net.now self.now }
        requires node { x < net.now.nodes }
        // `None` exactly if no path leads to the destination.
        ensures { IfOk result (λ answer. MatchOption answer (¬ HasPath net.now.links x self.now.dest)
            (λ walk. (rest : List ℕ) × IsNearestWalk net.now.links self.now.dest x rest × (walk.items ≡ x ∷ rest))) }
    {
        net.network_law();
        let Some(distance) = self.distance(x) else {
            return Ok(None);
        };
        let mut walk = Vec::with_capacity(alloc, distance as usize + 1)?;
        walk.push_reserved(x);
        let mut at = x;
        'ways: while let Some(next) = self.first_way(net, at) {
            walk.push_reserved(next);
            at = next;
        }
        Ok(Some(walk))
    }
}
