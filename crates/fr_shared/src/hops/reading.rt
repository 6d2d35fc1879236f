//! Reads of hops, and walks along them.

ghost use Rattle.std.specs.Prelude.{◌≡◌, ◌<◌, drop};
ghost use Rattle.fr_shared.specs.Histories.{StartsWith};
ghost use Rattle.fr_shared.specs.HopTables.{hop_codec, hop_of};
ghost use Rattle.fr_shared.specs.HopWalks.{HasWalked};
ghost use Rattle.fr_shared.specs.Reading.{HasRead};

use crate::hops::walks::Walk;
use crate::hops::words::hop_in;
use crate::reader::Reader;
use fr_tables::Hop;

impl Reader<Hop> {
    /// Returns the hop of node `x`, which must be in the table. It is the hop in the last table of a history that
    /// extends what the reader knew, and no table of this history has a loop. Two calls can read different tables.
    ///
    /// It makes one load, and does not allocate or wait. O(1).
    pub fn hop(&mut self, x: u32) -> Hop
        requires { x < self.old.nodes }
        // It is the hop in the last table that the reader then knows. The reader's tables continue what it knew
        // before, and none has a loop. The hop may be old if the reader never learns.
        ensures { HasRead hop_codec self.old self.new x result }
    {
        hop_in(self.load(x))
    }

    /// Returns the word that holds the hop of node `x`, for callers that have numbers of their own for hops. A word
    /// below [`HERE`](crate::hops::HERE) is the node to which `x` sends on; `HERE` means that `x` is the destination;
    /// any other word means that `x` is cut off.
    ///
    /// It makes one load. O(1).
    pub fn word(&mut self, x: u32) -> u64
        requires { x < self.old.nodes }
        // The hop is as for `Reader::hop`.
        ensures { HasRead hop_codec self.old self.new x (hop_of result) }
    {
        self.load(x)
    }

    /// Walks hop by hop from node `x`, which must be in the table. It writes the nodes after `x` to the front of
    /// `nodes`, and returns how many they are and what ended the walk. The rest of `nodes` is unchanged.
    ///
    /// Each node is the hop of the one before it in some table. Later steps can read later tables, so the walk can
    /// visit a node more than once while hops are pushed. A walk that sees only pushes of one `push_all` visits no node
    /// more than twice, if the reader knows all pushes before them: [`shared_law`](crate::hops::shared_law).
    ///
    /// It makes one load for each node written, and one more. It does not allocate or wait. O(n) for n nodes written.
    pub fn walk(&mut self, x: u32, nodes: &mut [u32]) -> Walk
        requires { x < self.old.nodes }
        ensures same { self.new ≡ record self.old { known = self.new.known } }
        ensures grows { StartsWith self.new.known self.old.known }
        // Each node is the hop of the node before it, in a table that the reader then knew. These tables come in
        // their order. The last read found the destination (`Arrived`), no hop (`CutOff`), or one more node and a
        // full slice (`Longer`).
        ensures walked { HasWalked self.old self.new x nodes.new result }
        // The slice is unchanged after the nodes of the walk.
        ensures rest { drop result.count nodes.new ≡ drop result.count nodes.old }
    {
        self.history_law();
        let mut hop = self.hop(x);
        for count in 0..nodes.len() {
            let Hop::To(next) = hop else {
                return Walk::with_last_hop(count, hop);
            };
            nodes[count] = next;
            hop = self.hop(next);
        }
        Walk::with_last_hop(nodes.len(), hop)
    }
}
