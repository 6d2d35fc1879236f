//! The pushes of a push order.

ghost use Rattle.std.specs.Prelude.{◌≡◌, ◌<◌, ◌++◌, [], ◌∷◌, Some, slice_get, slice_index_or, slice_set};
ghost use Rattle.fr_tables.specs.Pushes.{IsPushOrder};
ghost use Rattle.fr_tables.specs.declared.hop.Hop.TheVariants.{CutOff};
ghost use Rattle.fr_shared.specs.Histories.{push};
ghost use Rattle.fr_shared.specs.HopTables.{IsTable, last_hops, padded, pushes_of};

use crate::hops::words::{hop_in, word};
use crate::publisher::Publisher;
use fr_tables::Hop;
use fr_tables::laws::push_law;

impl Publisher<Hop> {
    /// Pushes the hops of the new table, one node after the other in this order. The new table can have fewer nodes
    /// than this one: the nodes past its end are cut off.
    ///
    /// The new table must have no more nodes than this one, all hops in range and no loop. The order must be the push
    /// order from the table of the last push to the new one, as [`known_push_order`](fr_tables::known_push_order) and
    /// [`PushRoom::order`](fr_tables::PushRoom::order) return it. Then no table on the way has a loop, by
    /// [`push_law`](fr_tables::laws::push_law), and a node that has a route before and after the call has one at each
    /// moment, by [`route_law`](crate::hops::route_law).
    ///
    /// It makes one store for each node of the order. It does not allocate or wait. O(p) for p nodes in the order.
    pub fn push_all(&mut self, new: &[Hop], order: &[u32])
        requires new { IsTable self.old.nodes (padded self.old.nodes new.now) }
        requires order { IsPushOrder (last_hops self.old) (padded self.old.nodes new.now) order.now }
        // The pushes are made one by one, in the given order.
        ensures history { self.new
            ≡ record self.old { known = self.old.known ++ pushes_of (padded self.old.nodes new.now) order.now } }
        // The words are then the new table; nodes past its end are cut off.
        ensures table { last_hops self.new ≡ padded self.old.nodes new.now }
    {
        self.history_law();
        push_law();
        for x in order {
            self.push(*x, hop_at(new, *x));
        }
    }

    /// Pushes one hop. With it the table must have no loop.
    fn push(&mut self, x: u32, hop: Hop)
        requires node { x < self.old.nodes }
        requires table { IsTable self.old.nodes (slice_set (last_hops self.old) x hop) }
        ensures { self.new ≡ record self.old { known = self.old.known ++ push x hop ∷ [] } }
    {
        self.store(x, word(hop));
    }

    /// Returns the hop of node `x` after the last push. The node must be in the table.
    ///
    /// It makes one load, and does not allocate or wait. O(1).
    pub fn hop(&mut self, x: u32) -> Hop
        requires { x < self.old.nodes }
        ensures kept { self.new ≡ self.old }
        ensures hop { slice_get (last_hops self.old) x ≡ Some result }
    {
        hop_in(self.load(x))
    }
}

/// The hop of node `x` in a table. A node past its end is cut off.
fn hop_at(table: &[Hop], x: u32) -> Hop
    ensures { result ≡ slice_index_or table.now x CutOff }
{
    table.get(x as usize).copied().unwrap_or(Hop::CutOff)
}
