//! Nodes that are cut off, detected from turns: if no link joins the nodes that have turned with the others, no walk
//! leads from them to the destination, which never turns.

ghost use Rattle.std.specs.Prelude.{◌≡◌, ℕ, ◌<◌, ◌≤◌, ◌↔◌, IsTrue, All, length, map};
ghost use Rattle.fr_graph.specs.Counts.{AreLawful};
ghost use Rattle.fr_graph.specs.Rows.{row};
ghost use Rattle.fr_graph.specs.Turns.{set_to};
ghost use Rattle.fr_core.specs.CutOff.{AreApart, HasTurned};
ghost use Rattle.fr_core.specs.History.{moment_of};
ghost use Rattle.fr_core.specs.Legal.{CanTurn};
ghost use Rattle.fr_core.specs.Worklist.{AreLater};

use fr_graph::{Net, Turns};

/// Whether each neighbour of node `x` has turned.
fn have_neighbours_turned(net: &Net, counts: &[u64], x: u32) -> bool
    requires one_each { length counts.now ≡ net.now.nodes }
    requires node { x < net.now.nodes }
    ensures { IsTrue result ↔ All (HasTurned counts.now) (row net.now.nodes net.now.links x) }
{
    let row = net.row(x);
    for (w, _) in row {
        if counts[*w as usize] == 0 {
            return false;
        }
    }
    true
}

/// Whether no link joins a node that has turned with one that has not.
fn are_turned_nodes_apart(net: &Net, turns: &Turns) -> bool
    requires { length turns.now ≡ net.now.nodes }
    ensures { IsTrue result ↔ AreApart net.now.links turns.now }
{
    // By this law, each row has all links of its node.
    net.network_law();
    let counts = turns.counts();
    let turned = turns.nodes();
    for x in turned {
        if !have_neighbours_turned(net, counts, *x) {
            return false;
        }
    }
    true
}

/// If no link joins the nodes that have turned with the others, they are cut off, and would turn up to the cap. Then
/// they get this count; otherwise the counts are unchanged. No node can turn afterwards that could not before. The call
/// looks at most at each neighbour of a node that has turned.
pub(crate) fn cap_cut_off_counts(net: &Net, dest: u32, turns: &mut Turns)
    requires node { dest < net.now.nodes }
    requires lawful { AreLawful net.now.nodes dest net.now.links turns.old }
    ensures later { AreLater net.now dest turns.old turns.new }
    ensures fewer { (x : ℕ) → CanTurn net.now.nodes dest (moment_of net.now.links turns.new) x
        → CanTurn net.now.nodes dest (moment_of net.now.links turns.old) x }
    ensures apart { AreApart net.now.links turns.old → turns.new ≡ map (set_to net.now.nodes) turns.old }
    ensures still { ¬ AreApart net.now.links turns.old → turns.new ≡ turns.old }
{
    if are_turned_nodes_apart(net, turns) {
        turns.set_each(u64::from(net.nodes()));
    }
}
