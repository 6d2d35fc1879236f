//! The pushes that lead from one table of ways to another.

ghost use Rattle.std.specs.Prelude.{◌≡◌, ◌<◌, ℕ, ◌++◌, [], ◌∷◌, Bool, cond, length, slice_set, true};
ghost use Rattle.fr_ways.specs.Phases.{kept};
ghost use Rattle.fr_ways.specs.Ways.{IsPartOf, ways};
ghost use Rattle.fr_shared.specs.Histories.{push};
ghost use Rattle.fr_shared.specs.WayParts.{changes, drops, push_if, pushes_below};
ghost use Rattle.fr_shared.specs.WayTables.{IsTable, ListsChanges, last_ways, pushes_of, ways_of, word_of};

use crate::publisher::Publisher;
use crate::ways::first::FirstWays;
use crate::ways::words::{MOST, kept_ways_of_loser, word};
use std::collections::LinkedList;

impl Publisher<LinkedList<u32>> {
    /// Pushes the ways of the new table in two phases. First each node that loses a way gets those that it keeps, and
    /// nodes that keep none come last. Then each node whose ways still differ gets its new ones. Within each part nodes
    /// come in the order of their numbers. At each moment the words are a part of the table before the call, or of the
    /// new one ([`phase_law`](fr_ways::laws::phase_law)).
    ///
    /// The new table must have as many nodes as this one, all ways in range and no cycle.
    ///
    /// It makes three loads for each node, and one store for each push. It does not allocate or wait. O(n).
    pub fn push_phases(&mut self, new: &FirstWays)
        requires { IsTable self.old.nodes new.now }
        // The pushes are exactly those of `phases`: first all shrinks, with nodes that keep no way last, then all
        // grows.
        ensures history { self.new
            ≡ record self.old { known = self.old.known ++ pushes_of (last_ways self.old) new.now } }
        // The words are then the new table.
        ensures table { last_ways self.new ≡ new.now }
    {
        self.history_law();
        self.shrink(new, false);
        self.shrink(new, true);
        self.grow(new);
    }

    /// Pushes the ways of the new table in two phases as [`push_phases`](Self::push_phases) does, but looks only at
    /// these nodes. Each other node must have the same ways in the new table as in this one. The nodes must be sorted by
    /// number. A node may be listed more than once: it gets its pushes once.
    ///
    /// It makes three loads for each listed node, and one store for each push. It does not allocate or wait. O(k) for k
    /// listed nodes.
    pub fn push_listed(&mut self, new: &FirstWays, nodes: &[u32])
        requires new { IsTable self.old.nodes new.now }
        // Each node whose ways differ is listed. The list is sorted by number.
        requires listed { ListsChanges nodes.now (last_ways self.old) new.now }
        ensures history { self.new
            ≡ record self.old { known = self.old.known ++ pushes_of (last_ways self.old) new.now } }
        ensures table { last_ways self.new ≡ new.now }
    {
        self.history_law();
        self.shrink_listed(new, nodes, false);
        self.shrink_listed(new, nodes, true);
        self.grow_listed(new, nodes);
    }

    /// Pushes to each node that loses a way those that it keeps: if `emptied`, to the nodes that keep none, and
    /// otherwise to the others.
    fn shrink(&mut self, new: &FirstWays, emptied: bool)
        requires { length new.now ≡ self.old.nodes }
        ensures history { self.new ≡ record self.old {
          known = self.old.known
              ++ pushes_below (drops emptied (last_ways self.old) new.now) (kept (last_ways self.old) new.now)
              self.old.nodes;
        } }
        ensures ways { (y : ℕ) → ways (last_ways self.new) y ≡ cond (drops emptied (last_ways self.old) new.now y)
            (kept (last_ways self.old) new.now y) (ways (last_ways self.old) y) }
    {
        for x in 0..self.nodes() {
            self.shrink_node(new, x, emptied);
        }
    }

    /// Pushes to nodes that lose ways as [`shrink`](Self::shrink) does, but looks only at these nodes.
    fn shrink_listed(&mut self, new: &FirstWays, nodes: &[u32], emptied: bool)
        requires one_each { length new.now ≡ self.old.nodes }
        requires listed { ListsChanges nodes.now (last_ways self.old) new.now }
        ensures history { self.new ≡ record self.old {
          known = self.old.known
              ++ pushes_below (drops emptied (last_ways self.old) new.now) (kept (last_ways self.old) new.now)
              self.old.nodes;
        } }
        ensures ways { (y : ℕ) → ways (last_ways self.new) y ≡ cond (drops emptied (last_ways self.old) new.now y)
            (kept (last_ways self.old) new.now y) (ways (last_ways self.old) y) }
    {
        for x in nodes {
            self.shrink_node(new, *x, emptied);
        }
    }

    /// Does so for one node.
    fn shrink_node(&mut self, new: &FirstWays, x: u32, emptied: bool)
        requires node { x < self.old.nodes }
        requires one_each { length new.now ≡ self.old.nodes }
        ensures { self.new ≡ record self.old {
          known = self.old.known
              ++ push_if (drops emptied (last_ways self.old) new.now x) x (kept (last_ways self.old) new.now x);
        } }
    {
        self.history_law();
        let mut list = [0; MOST];
        let Some(count) = kept_ways_of_loser(self.word(x), new.word(x), &mut list) else {
            return;
        };
        if (count == 0) == emptied {
            self.push(x, &list[..count]);
        }
    }

    /// Pushes its new ways to each node whose ways differ from them.
    fn grow(&mut self, new: &FirstWays)
        requires new { IsTable self.old.nodes new.now }
        requires part { IsPartOf (last_ways self.old) new.now }
        ensures history { self.new ≡ record self.old {
          known = self.old.known
              ++ pushes_below (changes (last_ways self.old) new.now) (ways new.now) self.old.nodes;
        } }
        ensures table { last_ways self.new ≡ new.now }
    {
        for x in 0..self.nodes() {
            self.grow_node(new, x);
        }
    }

    /// Pushes new ways as [`grow`](Self::grow) does, but looks only at these nodes.
    fn grow_listed(&mut self, new: &FirstWays, nodes: &[u32])
        requires new { IsTable self.old.nodes new.now }
        requires part { IsPartOf (last_ways self.old) new.now }
        requires listed { ListsChanges nodes.now (last_ways self.old) new.now }
        ensures history { self.new ≡ record self.old {
          known = self.old.known
              ++ pushes_below (changes (last_ways self.old) new.now) (ways new.now) self.old.nodes;
        } }
        ensures table { last_ways self.new ≡ new.now }
    {
        for x in nodes {
            self.grow_node(new, *x);
        }
    }

    /// Does so for one node.
    fn grow_node(&mut self, new: &FirstWays, x: u32)
        requires node { x < self.old.nodes }
        requires new { IsTable self.old.nodes new.now }
        requires part { IsPartOf (last_ways self.old) new.now }
        ensures { self.new ≡ record self.old {
          known = self.old.known
              ++ push_if (changes (last_ways self.old) new.now x) x (ways new.now x);
        } }
    {
        self.history_law();
        let word = new.word(x);
        if self.word(x) != word {
            self.store(x, word);
        }
    }

    /// The word of node `x` after the last push.
    fn word(&mut self, x: u32) -> u64
        requires { x < self.old.nodes }
        ensures kept { self.new ≡ self.old }
        ensures word { result ≡ word_of (ways (last_ways self.old) x) }
        ensures held { ways_of result ≡ ways (last_ways self.old) x }
    {
        self.load(x)
    }

    /// Pushes the ways of one node. With them the table must have no cycle.
    fn push(&mut self, x: u32, ways: &[u32])
        requires node { x < self.old.nodes }
        requires table { IsTable self.old.nodes (slice_set (last_ways self.old) x ways.now) }
        ensures { self.new ≡ record self.old { known = self.old.known ++ push x ways.now ∷ [] } }
    {
        self.few_law();
        self.store(x, word(ways));
    }
}
