//! Turning node by node, as long as that is cheap.

ghost use Rattle.std.specs.Prelude.{◌≡◌, ℕ, ◌<◌, ◌≤◌, ◌++◌, [], true, false, map, length, slice_index};
ghost use Rattle.fr_graph.specs.Counts.{AreLawful};
ghost use Rattle.fr_graph.specs.Links.{IsNet};
ghost use Rattle.fr_graph.specs.Rows.{row};
ghost use Rattle.fr_graph.specs.declared.first.First.{First};
ghost use Rattle.fr_core.specs.Finish.{HoldsAllThatCanTurn};
ghost use Rattle.fr_core.specs.History.{moment_of};
ghost use Rattle.fr_core.specs.Legal.{NoneCanTurn};
ghost use Rattle.fr_core.specs.Worklist.{AreLater, Carries, IsWorklist};

use crate::counts::can_turn;
use crate::cut_off::cap_cut_off_counts;
use crate::queue::{ALL_NODES, Queue};
use fr_graph::{Net, Turns};

/// How many places the short list has, which is used first if the nodes that can turn are known. Clearing so few places
/// costs less than the turns of most changes.
const FEW: usize = 256;

/// Puts all nodes that can turn into the empty worklist.
fn add_sinks(net: &Net, dest: u32, counts: &[u64], work: &mut Queue<ALL_NODES>)
    requires lawful { AreLawful net.now.nodes dest net.now.links counts.now }
    requires empty { work.old ≡ [] }
    ensures { IsWorklist net.now dest counts.now work.new 0 }
{
    for x in 0..net.nodes() {
        if can_turn(net, dest, counts, x) {
            work.push(x);
        }
    }
}

/// Puts all nodes that can turn into the empty worklist, and returns whether there was room. It looks for them among
/// the nodes of `from`, which may contain a node twice.
fn add_sinks_among<const PLACES: usize>(
    net: &Net,
    dest: u32,
    counts: &[u64],
    from: &[u32],
    work: &mut Queue<PLACES>,
) -> bool
    requires lawful { AreLawful net.now.nodes dest net.now.links counts.now }
    requires from { HoldsAllThatCanTurn net.now.nodes dest net.now.links counts.now from.now }
    requires empty { work.old ≡ [] }
    ensures { result ≡ true → IsWorklist net.now dest counts.now work.new 0 }
{
    for x in from {
        if can_turn(net, dest, counts, *x) {
            if !work.has_room(1) {
                return false;
            }
            work.push(*x);
        }
    }
    true
}

/// Adds the neighbours of node `x` to the worklist, if there is room for all of them, and returns whether there was.
fn add_neighbours<const PLACES: usize>(net: &Net, x: u32, work: &mut Queue<PLACES>) -> bool
    requires node { x < net.now.nodes }
    ensures added { result ≡ true
        → work.new ≡ work.old ++ map (λ (e : ℕ × First). e.0) (row net.now.nodes net.now.links x) }
    ensures full { result ≡ false → work.new ≡ work.old }
{
    let row = net.row(x);
    if !work.has_room(row.len()) {
        return false;
    }
    for (w, _) in row {
        work.push(*w as u32);
    }
    true
}

/// Turns node `x` if it can turn, and adds its neighbours to the worklist, because they may be sinks afterwards. If
/// there is no room for them, it turns nothing and returns `false`.
fn turn_if_it_can<const PLACES: usize>(
    net: &Net,
    dest: u32,
    turns: &mut Turns,
    x: u32,
    work: &mut Queue<PLACES>,
) -> bool
    requires net { IsNet net.now.nodes net.now.links }
    requires lawful { AreLawful net.now.nodes dest net.now.links turns.old }
    requires node { x < net.now.nodes }
    ensures later { AreLater net.now dest turns.old turns.new }
    ensures carries { result ≡ true → Carries net.now dest x turns.old work.old turns.new work.new }
    ensures unchanged { result ≡ false → (turns.new ≡ turns.old) × (work.new ≡ work.old) }
{
    if !can_turn(net, dest, turns.counts(), x) {
        return true;
    }
    if !add_neighbours(net, x, work) {
        return false;
    }
    turns.add(x);
    true
}

/// A stage of turning: the place of the worklist at which it starts, and how many neighbours it may look at.
#[derive(Drop, Clone, Copy)]
struct Stage {
    start: usize,
    allowance: usize,
}

/// Turns nodes from a worklist, and returns how far it came. If it reaches the end of the list, no node can turn any
/// more. It stops earlier if the worklist is full, or if it would look at more neighbours than the stage allows.
fn turn_queued_sinks<const PLACES: usize>(
    net: &Net,
    dest: u32,
    turns: &mut Turns,
    work: &mut Queue<PLACES>,
    stage: Stage,
) -> usize
    requires net { IsNet net.now.nodes net.now.links }
    requires lawful { AreLawful net.now.nodes dest net.now.links turns.old }
    requires work { IsWorklist net.now dest turns.old work.old stage.start }
    ensures later { AreLater net.now dest turns.old turns.new }
    ensures work { IsWorklist net.now dest turns.new work.new result }
{
    let mut at = stage.start;
    let mut allowance = stage.allowance;
    while at < work.len() {
        let x = work.node(at);
        let cost = net.degree(x) as usize;
        if cost > allowance || !turn_if_it_can(net, dest, turns, x, work) {
            return at;
        }
        allowance -= cost;
        at += 1;
    }
    at
}

/// Turns nodes from a worklist while that is cheap, and returns how far it came. If it reaches the end of the list, no
/// node can turn any more. It stops earlier if the worklist is full, or once it has looked at as many neighbours as
/// there are nodes, and then at as many as all rows have.
fn turn_queued_while_cheap<const PLACES: usize>(
    net: &Net,
    dest: u32,
    turns: &mut Turns,
    work: &mut Queue<PLACES>,
) -> usize
    requires node { dest < net.now.nodes }
    requires lawful { AreLawful net.now.nodes dest net.now.links turns.old }
    requires work { IsWorklist net.now dest turns.old work.old 0 }
    ensures later { AreLater net.now dest turns.old turns.new }
    ensures work { IsWorklist net.now dest turns.new work.new result }
{
    // By this law, there are so few links that twice their number fits. That is how many entries all rows have
    // together.
    net.network_law();
    // A small part that is cut off would turn again and again. A few turns show this, and the rest of the turns is
    // skipped.
    let few = Stage {
        start: 0,
        allowance: net.nodes() as usize,
    };
    let start = turn_queued_sinks(net, dest, turns, work, few);
    if start < work.len() {
        cap_cut_off_counts(net, dest, turns);
    }
    let rest = Stage {
        start,
        allowance: 2 * net.link_count(),
    };
    turn_queued_sinks(net, dest, turns, work, rest)
}

/// Turns nodes while that is cheap, from a long list of all that can turn. Returns whether no node can turn any more.
/// It is not inlined, so that the list takes no stack while its caller searches.
#[inline(never)]
pub(crate) fn turn_all_while_cheap(net: &Net, dest: u32, turns: &mut Turns) -> bool
    requires node { dest < net.now.nodes }
    requires lawful { AreLawful net.now.nodes dest net.now.links turns.old }
    ensures lawful { AreLawful net.now.nodes dest net.now.links turns.new }
    ensures none { result ≡ true → NoneCanTurn net.now.nodes dest (moment_of net.now.links turns.new) }
{
    let mut work: Queue<ALL_NODES> = Queue::new();
    add_sinks(net, dest, turns.counts(), &mut work);
    let end = turn_queued_while_cheap(net, dest, turns, &mut work);
    end >= work.len()
}

/// Turns nodes from a list that has room for all, beginning with those of `from` that can turn. Returns whether no node
/// can turn any more. It is not inlined, because the short list of [`turn_while_cheap`] is enough most often.
#[inline(never)]
fn turn_with_long_list(net: &Net, dest: u32, turns: &mut Turns, from: &[u32]) -> bool
    requires node { dest < net.now.nodes }
    requires lawful { AreLawful net.now.nodes dest net.now.links turns.old }
    requires from { HoldsAllThatCanTurn net.now.nodes dest net.now.links turns.old from.now }
    ensures lawful { AreLawful net.now.nodes dest net.now.links turns.new }
    ensures forth { (x : ℕ) → slice_index turns.old x ≤ slice_index turns.new x }
    ensures none { result ≡ true → NoneCanTurn net.now.nodes dest (moment_of net.now.links turns.new) }
{
    let mut work: Queue<ALL_NODES> = Queue::new();
    if !add_sinks_among(net, dest, turns.counts(), from, &mut work) {
        return false;
    }
    let end = turn_queued_while_cheap(net, dest, turns, &mut work);
    end >= work.len()
}

/// Turns nodes while that is cheap, beginning with those of `from`, which contains all that can turn. Returns whether
/// no node can turn any more. It tries a short list and then a long one, turns nodes from both as
/// [`turn_queued_while_cheap`] does, and stops at the end of the long one.
pub(crate) fn turn_while_cheap(net: &Net, dest: u32, turns: &mut Turns, from: &[u32]) -> bool
    requires node { dest < net.now.nodes }
    requires lawful { AreLawful net.now.nodes dest net.now.links turns.old }
    requires from { HoldsAllThatCanTurn net.now.nodes dest net.now.links turns.old from.now }
    ensures lawful { AreLawful net.now.nodes dest net.now.links turns.new }
    ensures forth { (x : ℕ) → slice_index turns.old x ≤ slice_index turns.new x }
    ensures none { result ≡ true → NoneCanTurn net.now.nodes dest (moment_of net.now.links turns.new) }
{
    let mut work: Queue<FEW> = Queue::new();
    if !add_sinks_among(net, dest, turns.counts(), from, &mut work) {
        return turn_with_long_list(net, dest, turns, from);
    }
    let end = turn_queued_while_cheap(net, dest, turns, &mut work);
    end >= work.len() || turn_with_long_list(net, dest, turns, &work.nodes()[end..])
}
