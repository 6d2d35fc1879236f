//! The counts at which every schedule ends, found on one thread.

ghost use Rattle.std.specs.Prelude.{◌≡◌, ℕ, ◌<◌, ◌≤◌, ◌+◌, ◌↔◌, ◌^◌, IsTrue, length, slice_index, sum};
ghost use Rattle.fr_graph.specs.Counts.{AreLawful};
ghost use Rattle.fr_graph.specs.Links.{IsNet};
ghost use Rattle.fr_core.specs.Finish.{HoldsAllThatCanTurn, IsFinish};
ghost use Rattle.fr_core.specs.Settled.{AreSettled};
ghost use Rattle.fr_core.specs.Work.{IsWithinWork};

use crate::counts::are_settled;
use crate::levels;
use crate::worklist::{turn_all_while_cheap, turn_while_cheap};
use fr_graph::{MAX_NODES, Net, Turns};

/// Searches for the settled counts in a table of its own, and sets the turns to them. It is not inlined, so that the
/// table takes no stack if a few turns are enough.
#[inline(never)]
fn settle_by_search(net: &Net, dest: u32, turns: &mut Turns)
    requires one_each { length turns.old ≡ net.now.nodes }
    requires node { dest < net.now.nodes }
    ensures { AreSettled net.now.nodes dest net.now.links turns.new }
{
    let mut table = [0; MAX_NODES as usize];
    let counts = &mut table[..net.nodes() as usize];
    levels::settle(net, dest, counts);
    turns.copy_from(counts);
}

/// The number of turns of these counts.
fn total_turns(counts: &[u64]) -> u64
    requires { sum counts.now < 2 ^ 64 }
    ensures { result ≡ sum counts.now }
{
    counts.iter().sum()
}

/// Continues to the settled counts: node by node if few turns are left, otherwise by a search.
fn settle(net: &Net, dest: u32, turns: &mut Turns)
    requires net { IsNet net.now.nodes net.now.links }
    requires node { dest < net.now.nodes }
    requires lawful { AreLawful net.now.nodes dest net.now.links turns.old }
    ensures { AreSettled net.now.nodes dest net.now.links turns.new }
{
    if !turn_all_while_cheap(net, dest, turns) {
        settle_by_search(net, dest, turns);
    }
}

/// Continues from lawful counts to the settled ones, and returns how many turns are between them. The clause `leads` of
/// [`schedule_law`](crate::laws::schedule_law) says what this means: a run of this many turns leads from the old counts
/// to the new ones, and then no node can turn. By its clause `alike`, every run after which no node can turn ends at
/// these counts.
///
/// Together with the turns before them, they are within the bound of [`work_law`](crate::laws::work_law).
///
/// A search writes the settled counts. It is always a full search, because the counts alone do not show where nodes
/// have turned. The destination must be a node, and the counts must be lawful, as [`lawful`](crate::lawful) tests; the
/// counts 0 are. The call does not allocate. O(n + m), however many turns there are.
pub fn finish(net: &Net, dest: u32, counts: &mut [u64]) -> u64
    requires node { dest < net.now.nodes }
    requires lawful { AreLawful net.now.nodes dest net.now.links counts.old }
    ensures settled { AreSettled net.now.nodes dest net.now.links counts.new }
    // A run of as many turns as the call returns leads to them.
    ensures run { IsFinish net.now.nodes dest net.now.links counts.old counts.new result }
    // The turns of this run and all turns before it are together within the bound of `work_law`, and so at most n(n -
    // 1).
    ensures work { IsWithinWork net.now.nodes dest net.now.links (sum counts.old + result) }
{
    // By this law, there are few nodes, so the totals are exact.
    net.network_law();
    let before = total_turns(counts);
    levels::settle(net, dest, counts);
    total_turns(counts) - before
}

/// Continues from lawful counts to the settled ones as [`finish`] does, in [`Turns`]. Few turns are made one by one. A
/// small part that is cut off is detected by its turns, and gets its final counts. If turning would cost more, a search
/// writes the settled counts. The destination must be a node, and the counts must be lawful. The call does not
/// allocate. O(n + m), however many turns there are.
pub fn finish_turns(net: &Net, dest: u32, turns: &mut Turns) -> u64
    requires node { dest < net.now.nodes }
    requires lawful { AreLawful net.now.nodes dest net.now.links turns.old }
    ensures settled { AreSettled net.now.nodes dest net.now.links turns.new }
    ensures run { IsFinish net.now.nodes dest net.now.links turns.old turns.new result }
    ensures work { IsWithinWork net.now.nodes dest net.now.links (sum turns.old + result) }
{
    // By this law, there are few nodes, so the totals are exact.
    net.network_law();
    let before = turns.total();
    settle(net, dest, turns);
    let after = turns.total();
    after - before
}

/// Continues to the settled counts, like [`finish`], for a caller that knows which nodes can turn. It looks for nodes
/// that can turn only in `from`, and among the neighbours of nodes that it turns. If few nodes turn, other nodes cost
/// nothing.
///
/// The destination must be a node, and the counts must be lawful. `from` must contain each node that can turn. All its
/// elements must be nodes; they need not be able to turn, and may occur twice. The call does not allocate. O(d) for
/// each node of `from`, and O(d²) for each turn if few nodes turn; otherwise the cost of [`finish_turns`].
pub fn finish_from(net: &Net, dest: u32, turns: &mut Turns, from: &[u32])
    requires node { dest < net.now.nodes }
    requires lawful { AreLawful net.now.nodes dest net.now.links turns.old }
    // The list has all nodes that can turn.
    requires from { HoldsAllThatCanTurn net.now.nodes dest net.now.links turns.old from.now }
    ensures { AreSettled net.now.nodes dest net.now.links turns.new }
{
    net.network_law();
    if !turn_while_cheap(net, dest, turns, from) {
        settle_by_search(net, dest, turns);
    }
}

/// Continues to the settled counts, like [`finish_from`], if few turns lead there. It is for a caller that has other
/// means, such as threads, if there is more to turn. Returns whether the counts are settled: `true` exactly if no node
/// can turn any more. Otherwise the counts are lawful, and turns may have been made; no turn is ever taken back.
///
/// A small part that is cut off gets its final counts. The call stops turning once it has looked at as many neighbours
/// as there are nodes and then at as many as all rows have, or if it has no room for more nodes that may turn. It tries
/// at most twice, first with little room and then with room for as many nodes as a network can have. When it stops, it
/// looks for a node that can turn, as [`are_settled`] does.
///
/// What the destination, the counts and `from` must be is the same as for [`finish_from`]. The call does not allocate.
/// The cost is that of [`finish_from`] if few nodes turn, and at most O(n + m) in addition to looking at `from`.
pub fn finish_if_few(net: &Net, dest: u32, turns: &mut Turns, from: &[u32]) -> bool
    requires node { dest < net.now.nodes }
    requires lawful { AreLawful net.now.nodes dest net.now.links turns.old }
    requires from { HoldsAllThatCanTurn net.now.nodes dest net.now.links turns.old from.now }
    ensures lawful { AreLawful net.now.nodes dest net.now.links turns.new }
    // No count falls.
    ensures forth { (x : ℕ) → slice_index turns.old x ≤ slice_index turns.new x }
    // The result says whether the counts are settled.
    ensures settled { IsTrue result ↔ AreSettled net.now.nodes dest net.now.links turns.new }
{
    // By this law, a network is settled exactly if no node can turn.
    net.network_law();
    turn_while_cheap(net, dest, turns, from) || are_settled(net, dest, turns.counts())
}
