//! Which distances the last update has changed.

ghost use Rattle.std.specs.Prelude.{◌≡◌, ℕ, ◌<◌, ◌≤◌, List, All, IfOk, length, vec_capacity};
ghost use Rattle.fr_nearest.specs.Changes.{AreAllNoted, AreNoted, IsForgotten, IsTakenOver, NotesOne};
ghost use Rattle.fr_graph.specs.Limits.{most_nodes};
ghost use Rattle.fr_nearest.specs.Update.{KeepsOthers};

use std::alloc::{AllocError, Global};

/// The distances before the last update, and the nodes whose distance it has changed.
#[derive(Debug, Drop)]
pub(crate) struct DistanceChanges {
    // Equal to the distances now, except at the listed nodes.
    pub(crate) before: Vec<u16>,
    // Whether each node is listed.
    pub(crate) noted: Vec<bool>,
    pub(crate) nodes: Vec<u16>,
}

/// Copies the distances of these nodes, and removes their notes.
fn copy_and_unmark(before: &mut [u16], noted: &mut [bool], distances: &[u16], nodes: &[u16])
    requires before_each { length before.old ≡ length distances.now }
    requires noted_each { length noted.old ≡ length distances.now }
    requires nodes { All (λ (x : ℕ). x < length distances.now) nodes.now }
    ensures { IsTakenOver distances.now nodes.now before.old noted.old before.new noted.new }
{
    for x in nodes {
        before[*x as usize] = distances[*x as usize];
        noted[*x as usize] = false;
    }
}

impl DistanceChanges {
    /// No change of these distances, with room for a change of each of them.
    pub(crate) fn none(alloc: Global, distances: &[u16]) -> Result<DistanceChanges, AllocError>
        ensures { IfOk result (IsForgotten distances.now) }
    {
        Ok(DistanceChanges {
            before: distances.to_vec(alloc)?,
            noted: vec![in alloc; false; distances.len()]?,
            nodes: Vec::with_capacity(alloc, distances.len())?,
        })
    }

    /// Forgets the changes: the distances before are those now.
    pub(crate) fn reset(&mut self, distances: &[u16])
        requires { AreAllNoted distances.now self.old }
        ensures { IsForgotten distances.now self.new }
    {
        copy_and_unmark(&mut self.before, &mut self.noted, distances, &self.nodes);
        self.nodes.clear();
    }

    /// Notes those of these nodes whose distance has changed. No other node may have another distance.
    pub(crate) fn note_changed_among(&mut self, distances: &[u16], nodes: &[u16])
        requires noted { (before : List ℕ) × IsForgotten before self.old × (length before ≡ length distances.now)
            × KeepsOthers before distances.now nodes.now }
        requires below { All (λ (x : ℕ). x < length distances.now) nodes.now }
        requires few { length nodes.now ≤ length distances.now }
        ensures noted { AreAllNoted distances.now self.new }
        ensures before { self.new.before ≡ self.old.before }
    {
        for x in nodes {
            self.note_if_changed(distances, *x);
        }
    }

    /// Notes all nodes whose distance has changed.
    pub(crate) fn note_all_changed(&mut self, distances: &[u16])
        requires noted { (before : List ℕ) × IsForgotten before self.old × (length before ≡ length distances.now) }
        requires few { length distances.now ≤ most_nodes }
        ensures noted { AreAllNoted distances.now self.new }
        ensures before { self.new.before ≡ self.old.before }
    {
        for x in 0..distances.len() as u16 {
            self.note_if_changed(distances, x);
        }
    }

    /// Notes node `x` if its distance has changed, unless it is noted.
    fn note_if_changed(&mut self, distances: &[u16], x: u16)
        requires noted { AreNoted distances.now self.old }
        requires node { x < length distances.now }
        requires room { length self.old.nodes.items < vec_capacity self.old.nodes }
        ensures { NotesOne distances.now x self.old self.new }
    {
        if distances[x as usize] != self.before[x as usize] && !self.noted[x as usize] {
            self.noted[x as usize] = true;
            self.nodes.push_reserved(x);
        }
    }
}
