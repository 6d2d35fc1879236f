//! Putting nodes in push order without allocating: the memory is allocated beforehand.

ghost use Rattle.std.specs.Prelude.{◌≡◌, ℕ, ◌<◌, ◌+◌, ◌^◌, ◌↔◌, All, Contains, IfOk, IsTrue, List, [], Some};
ghost use Rattle.std.specs.Prelude.{length, nat_eq, replicate, slice_index, slice_index_or, false, true};
ghost use Rattle.std.specs.List.{IsDistinct};
ghost use Rattle.fr_tables.specs.Inside.{AreListed, AreNoted, HasKeyUpTo, IsChange, IsLast, IsPutInOrder};
ghost use Rattle.fr_tables.specs.Inside.{key_of, routed_wave};
ghost use Rattle.fr_tables.specs.Pushes.{DifferAt, IsPushOrder};
ghost use Rattle.fr_tables.specs.Sorting.{IsByKey};
ghost use Rattle.fr_tables.specs.Tables.{IsInRange, IsLoopFree};
ghost use Rattle.fr_tables.specs.declared.hop.Hop.{Hop};
ghost use Rattle.fr_tables.specs.declared.waves.Group.{Group};

use crate::hop::Hop;
use crate::short_walks::order_by_walks;
use crate::sorting::list_by_key;
use crate::waves::{Group, mark_at, mark_groups};
use std::alloc::{AllocError, Global};
use std::marker::Model;

/// At most this many changed nodes are ordered by following their walks, if these are short. So few are sorted by
/// insertion, with at most 120 comparisons. For more nodes, `order_many` goes over the whole table once.
const FEW: usize = 16;

/// Memory to put the nodes of one table in push order, allocated beforehand. Its value in contracts is the number of
/// nodes.
#[derive(Debug, Drop)]
pub struct PushRoom {
    // Whether the hop of each node has changed. Between calls all are `false`.
    differ: Vec<bool>,
    // The groups that are known. `order_few` sets and reads only those of the changed nodes.
    marks: Vec<Option<Group>>,
    // Its capacity is the number of nodes.
    walk: Vec<u32>,
    // For `order_many`: a key for the group of each node whose hop has changed, and 0 for every other node.
    keys: Vec<u32>,
    places: Vec<u32>,
}

impl Model for PushRoom {
    ghost use Rattle.std.specs.Prelude.{ℕ};

    ghost Value = { ℕ };

    ghost use Rattle.fr_tables.specs.Rooms.{nodes_of, IsRoom};

    ghost view = { nodes_of };

    ghost invariant = { IsRoom };
}

impl PushRoom {
    /// Allocates room for tables of this many nodes. Fails with `AllocError` if an allocation is refused. O(n).
    pub fn new(alloc: Global, nodes: u32) -> Result<PushRoom, AllocError>
        ensures { IfOk result (λ room. room ≡ nodes) }
    {
        let nodes = nodes as usize;
        Ok(PushRoom {
            differ: vec![in alloc; false; nodes]?,
            marks: vec![in alloc; None; nodes]?,
            walk: Vec::with_capacity(alloc, nodes)?,
            keys: vec![in alloc; 0; nodes]?,
            places: vec![in alloc; 0; nodes + 2]?,
        })
    }

    /// Puts the nodes whose hop has changed in push order, the order that [`push_order`](crate::push_order) returns.
    /// `new` is the table after the change. It must have as many nodes as there is room for, all hops in range and no
    /// loop; `changed` must list nodes of it, each once. The call allocates nothing.
    ///
    /// O(1) for at most one node. For k nodes, up to 16, the time is that of following their walks, if no walk has more
    /// than n / k nodes. Otherwise O(n).
    pub fn order(&mut self, new: &[Hop], changed: &mut [u32])
        requires room { length new.now ≡ self.old }
        requires new { IsInRange new.now × IsLoopFree new.now }
        requires changed { IsDistinct nat_eq changed.old × All (λ (x : ℕ). x < length new.now) changed.old }
        // It is the push order if `changed` has exactly the nodes that differ. The call tests and allocates nothing.
        ensures order { (old : List Hop) → length old ≡ length new.now
            → ((x : ℕ) → Contains changed.old x ↔ DifferAt old new.now x) → IsPushOrder old new.now changed.new }
        ensures kept { self.new ≡ self.old }
    {
        if changed.len() < 2 {
            return;
        }
        if !self.order_few(new, changed) {
            self.order_many(new, changed);
        }
    }

    /// Orders few nodes with short walks, and reads only these walks. Returns `false`, with no node moved, if there are
    /// too many nodes or a walk is too long.
    fn order_few(&mut self, new: &[Hop], changed: &mut [u32]) -> bool
        requires room { length new.now ≡ self.old }
        requires change { IsChange new.now changed.old }
        ensures order { IsTrue result → IsPutInOrder new.now changed.old changed.new }
        ensures same { ¬ IsTrue result → changed.new ≡ changed.old }
        ensures kept { self.new ≡ self.old }
    {
        if changed.len() > FEW {
            return false;
        }
        mark_changed(&mut self.differ, changed);
        let is_ordered = order_by_walks(&self.differ, new, &mut self.marks, changed);
        clear_marks(&mut self.differ, changed);
        is_ordered
    }

    /// Orders any number of nodes, going over the whole table.
    fn order_many(&mut self, new: &[Hop], changed: &mut [u32])
        requires room { length new.now ≡ self.old }
        requires change { IsChange new.now changed.old }
        ensures order { IsPutInOrder new.now changed.old changed.new }
        ensures kept { self.new ≡ self.old }
    {
        self.marks.fill(None);
        self.walk.clear();
        self.keys.fill(0);
        self.places.fill(0);
        mark_changed(&mut self.differ, changed);
        mark_groups(&self.differ, new, &mut self.marks, &mut self.walk, changed);
        order_by_marks(&self.marks, &mut self.keys, &mut self.places, changed);
        self.differ.fill(false);
    }
}

/// Marks the nodes whose hops have changed.
fn mark_changed(differ: &mut [bool], changed: &[u32])
    requires nodes { All (λ (x : ℕ). x < length differ.old) changed.now }
    requires none { differ.old ≡ replicate (length differ.old) false }
    ensures one_each { length differ.new ≡ length differ.old }
    ensures noted { AreNoted changed.now differ.new }
{
    for x in changed {
        differ[*x as usize] = true;
    }
}

/// Clears the marks of these nodes. No other node is marked.
fn clear_marks(differ: &mut [bool], changed: &[u32])
    requires nodes { All (λ (x : ℕ). x < length differ.old) changed.now }
    requires noted { AreNoted changed.now differ.old }
    ensures { differ.new ≡ replicate (length differ.old) false }
{
    for x in changed {
        differ[*x as usize] = false;
    }
}

/// Orders the changed nodes by the groups in their marks, and the nodes of one group by number.
fn order_by_marks(
    marks: &[Option<Group>],
    keys: &mut [u32],
    places: &mut [u32],
    changed: &mut [u32],
)
    requires few { length keys.old < 2 ^ 32 }
    requires none { (last : ℕ) → AreListed marks.now last [] keys.old places.old }
    requires once { IsDistinct nat_eq changed.old }
    requires groups { (last : ℕ) → IsLast marks.now changed.old last
        → All (λ (x : ℕ). (x < length keys.old) × HasKeyUpTo (length keys.old) last marks.now x) changed.old }
    ensures one_each { (length keys.new ≡ length keys.old) × (length places.new ≡ length places.old) }
    ensures order { (last : ℕ) × (counts : List ℕ) × IsLast marks.now changed.old last
        × AreListed marks.now last changed.old keys.new counts × IsByKey keys.new changed.new }
{
    let last = last_routed(marks, changed);
    list_keys(marks, last, changed, keys, places);
    list_by_key(keys, places, changed);
}

/// The last wave of those of these nodes that have a route. 0 if none has one.
fn last_routed(marks: &[Option<Group>], changed: &[u32]) -> u32
    ensures { IsLast marks.now changed.now result }
{
    let mut last = 0;
    for x in changed {
        let wave = routed_wave(mark_at(marks, *x));
        if wave > last {
            last = wave;
        }
    }
    last
}

/// The wave of a node with a route, and 0 for any other node.
fn routed_wave(mark: Option<Group>) -> u32
    ensures { result ≡ routed_wave mark }
{
    match mark {
        Some(group) if group.arrives => group.wave,
        _ => 0,
    }
}

/// Takes the groups of the changed nodes as their keys, and counts how many nodes have each key.
fn list_keys(
    marks: &[Option<Group>],
    last: u32,
    changed: &[u32],
    keys: &mut [u32],
    places: &mut [u32],
)
    requires few { length keys.old < 2 ^ 32 }
    requires none { AreListed marks.now last [] keys.old places.old }
    requires once { IsDistinct nat_eq changed.now }
    requires groups { All (λ (x : ℕ). (x < length keys.old) × HasKeyUpTo (length keys.old) last marks.now x) changed.now }
    ensures one_each { length keys.new ≡ length keys.old }
    ensures listed { AreListed marks.now last changed.now keys.new places.new }
{
    for x in changed {
        let key = key_of(mark_at(marks, *x), last);
        keys[*x as usize] = key;
        places[key as usize + 1] += 1;
    }
}

/// The key of a group: the waves of nodes without a route follow those of nodes with one.
fn key_of(mark: Option<Group>, last: u32) -> u32
    requires { (group : Group) → mark ≡ Some group → key_of last group < 2 ^ 32 }
    ensures { (group : Group) → mark ≡ Some group → result ≡ key_of last group }
{
    match mark {
        Some(group) => {
            if group.arrives {
                group.wave
            } else {
                last + group.wave
            }
        }
        None => 0,
    }
}
