//! The queue of a search, and of nodes that may turn.

ghost use Rattle.std.specs.Prelude.{◌≡◌, ℕ, ◌+◌, ◌<◌, ◌≤◌, ◌↔◌, IsTrue, List, [], ◌∷◌, ◌++◌, length, take, slice_index};

use fr_graph::MAX_NODES;
use std::marker::Model;

/// How many places a queue needs for all nodes of a network.
pub(crate) const ALL_NODES: usize = MAX_NODES as usize;

/// Nodes in the order in which they were added: those that a search reached, or those that may turn. There is room for
/// `PLACES` nodes. Making a queue clears all its places, so a long queue costs more than a short one, even if it stays
/// empty.
#[derive(Drop)]
pub(crate) struct Queue<const PLACES: usize> {
    places: [u32; PLACES],
    len: usize,
}

impl<const PLACES: usize> Model for Queue<PLACES> {
    ghost Value = { List ℕ };

    ghost view = { λ q. take q.len q.places };

    ghost invariant = { λ q. q.len ≤ PLACES };
}

impl<const PLACES: usize> Queue<PLACES> {
    pub fn new() -> Self
        ensures { result ≡ [] }
    {
        Queue {
            places: [0; PLACES],
            len: 0,
        }
    }

    pub fn len(&self) -> usize
        ensures value { result ≡ length self.now }
        ensures few { length self.now ≤ PLACES }
    {
        self.len
    }

    /// The node at a place.
    pub fn node(&self, at: usize) -> u32
        requires { at < length self.now }
        ensures { result ≡ slice_index self.now at }
    {
        self.places[..self.len][at]
    }

    /// All nodes, in the order in which they were added.
    pub fn nodes(&self) -> &[u32]
        ensures { result.now ≡ self.now }
    {
        &self.places[..self.len]
    }

    /// Whether there is room for so many more nodes.
    pub fn has_room(&self, more: usize) -> bool
        ensures { IsTrue result ↔ (length self.now + more ≤ PLACES) }
    {
        more <= PLACES - self.len
    }

    pub fn push(&mut self, node: u32)
        requires { length self.old < PLACES }
        ensures { self.new ≡ self.old ++ node ∷ [] }
    {
        self.places[self.len] = node;
        self.len += 1;
    }
}
