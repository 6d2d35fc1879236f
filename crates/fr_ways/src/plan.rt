//! The two phases from one table to another.

ghost use Rattle.std.specs.Prelude.{◌≡◌, ℕ, ◌<◌, ◌+◌, ◌++◌, ◌^◌, [], ◌∷◌, IfErr, IfOk, List, OnOk, cond, length, map};
ghost use Rattle.std.specs.Prelude.{not};
ghost use Rattle.fr_ways.specs.Faults.{ArePhases, ArePushes, IsFaultOf, IsPlanned};
ghost use Rattle.fr_ways.specs.Phases.{differs, is_empty};
ghost use Rattle.fr_ways.specs.Plans.{IsClear, IsPlan, IsPushedIf};
ghost use Rattle.fr_ways.specs.PushLists.{AreListed};
ghost use Rattle.fr_ways.specs.Ways.{IsInRange};

use crate::cycle_search::find_cycle;
use crate::fault::WaysFault;
use crate::kept_ways::Comparison;
use crate::push_list::PushList;
use crate::range::first_outside;
use crate::table::WayTable;
use std::alloc::{AllocError, Global};

/// Nodes, and a list of ways for each of them: what a controller pushes in one phase.
#[derive(Debug, Drop)]
pub struct Pushes {
    /// The nodes that get a list, in the order in which to push.
    pub nodes: Vec<u32>,
    /// The list of each of these nodes, in the same order.
    pub lists: WayTable,
}

impl Pushes {
    /// No pushes.
    fn none(alloc: Global) -> Result<Pushes, AllocError>
        ensures nodes { IfOk result (λ pushes. pushes.nodes.items ≡ []) }
        ensures lists { IfOk result (λ pushes. pushes.lists ≡ []) }
    {
        Ok(Pushes {
            nodes: Vec::new(alloc),
            lists: WayTable::with_capacity(alloc, 0, 0)?,
        })
    }

    /// Adds a node with its list.
    fn add(&mut self, x: u32, list: &[u32]) -> Result<(), AllocError>
        ensures nodes { OnOk result (self.new.nodes.items ≡ self.old.nodes.items ++ x ∷ []) }
        ensures lists { OnOk result (self.new.lists ≡ self.old.lists ++ list.now ∷ []) }
    {
        self.nodes.push(x)?;
        self.lists.push_row(list)
    }

    /// The same pushes in plain lists. O(1).
    pub fn as_list(&self) -> PushList<'_>
        ensures { (nodes : List ℕ) (list_of : ℕ → List ℕ) → ArePushes nodes list_of self.now
            → AreListed (map (λ x. (x, list_of x)) nodes) result }
    {
        PushList {
            nodes: self.nodes.as_slice(),
            starts: self.lists.starts(),
            list: self.lists.list(),
        }
    }
}

/// What to push in each of the two phases. All pushes of the first have to be confirmed before the second begins. Those
/// of one phase can be made in any order, and at the same time ([`phase_law`](crate::laws::phase_law)).
#[derive(Debug, Drop)]
pub struct TwoPhases {
    /// The first phase: the nodes that lose a way. Each gets those of its old ways that are also ways in the new table.
    /// Nodes that keep a way come first, by number; then come those that keep none, by number.
    pub shrink: Pushes,
    /// The second phase: the nodes whose list after the first phase differs from their new list, by number. Each gets
    /// its new list.
    pub grow: Pushes,
}

/// Plans the pushes that lead from one table to another without a cycle in between. A node *shrinks* if it loses a way,
/// that is, if one of its ways in `old` is not among its ways in `new`. Once all these nodes have shrunk, nodes *grow* to
/// their new lists. A node whose list only changes its order grows too. At each moment the table is a part of `old` or
/// of `new`.
///
/// `old` can be any table, even one with cycles, or with ways that are out of range.
///
/// The faults are tested in this order. Fails with `Length` if the tables differ in length or are longer than
/// 4,294,967,295 nodes; with `Range` if a way of `new` names a node that is not in the table (the first such way); with
/// `Cycle` if `new` has a cycle; and with `Memory` if an allocation is refused. Only the search for a cycle and what
/// follows it need memory.
///
/// O(n + m) time and memory.
pub fn phases(alloc: Global, old: &WayTable, new: &WayTable) -> Result<TwoPhases, WaysFault>
    // First exactly the nodes that lose ways, each with the ways that it keeps, those that keep none last; then
    // exactly the nodes whose list still differs. Each group is sorted by number.
    ensures phases { IfOk result (IsPlanned old.now new.now) }
    // The first of `Length`, `Range` (with the first way that is not a node) and `Cycle`. `Memory` only if the tables
    // have the same length and the new one is in range.
    ensures fault { IfErr result (IsFaultOf old.now new.now) }
{
    if old.len() != new.len() || new.len() > u32::MAX as usize {
        return Err(WaysFault::Length);
    }
    if let Some(y) = first_outside(new) {
        return Err(WaysFault::Range(y));
    }
    if let Some(nodes) = find_cycle(alloc, new)? {
        return Err(WaysFault::Cycle(nodes));
    }
    Ok(known_phases(alloc, old, new)?)
}

/// Plans the pushes that lead from one table to another as [`phases`] does, without any test. All ways of `new` must
/// name nodes. A node that is missing at the end of `old` has no ways there, and `old` should not be longer than `new`:
/// its other nodes get no push. Fails with `AllocError` if an allocation is refused.
///
/// O(n + m) time and memory.
pub fn known_phases(alloc: Global, old: &WayTable, new: &WayTable) -> Result<TwoPhases, AllocError>
    requires few { length new.now < 2 ^ 32 }
    requires range { IsInRange new.now }
    ensures { IfOk result (ArePhases old.now new.now) }
{
    let mut plan = Plan {
        phases: TwoPhases {
            shrink: Pushes::none(alloc)?,
            grow: Pushes::none(alloc)?,
        },
        emptied: Vec::new(alloc),
    };
    let mut spare = Comparison::new(alloc, new.len())?;
    for x in 0..new.len() as u32 {
        plan.add(old, new, x, &mut spare)?;
    }
    let Plan {
        mut phases,
        emptied,
    } = plan;
    add_emptied(&mut phases.shrink, &emptied)?;
    Ok(phases)
}

/// The pushes for the nodes up to one of them.
#[derive(Debug, Drop)]
struct Plan {
    phases: TwoPhases,
    // The nodes that keep no way. They come last in the first phase.
    emptied: Vec<u32>,
}

impl Plan {
    /// Adds what has to be pushed to node `x`.
    fn add(
        &mut self,
        old: &WayTable,
        new: &WayTable,
        x: u32,
        spare: &mut Comparison,
    ) -> Result<(), AllocError>
        requires range { IsInRange new.now }
        requires plan { IsPlan old.now new.now x self.old }
        requires spare { IsClear (length new.now) spare.old }
        ensures plan { OnOk result (IsPlan old.now new.now (x + 1) self.new) }
        ensures spare { OnOk result (IsClear (length new.now) spare.new) }
    {
        let was = old.row(x);
        let now = new.row(x);
        // Most nodes keep their list.
        if was == now {
            return Ok(());
        }
        if !spare.loses_way(was, now) {
            self.add_growing(x, was, now)?;
            return Ok(());
        }
        spare.keep_common_ways(was, now)?;
        self.add_shrinking(x, &spare.kept)?;
        self.add_growing(x, &spare.kept, now)?;
        Ok(())
    }

    /// Adds a node that loses ways, and keeps these.
    fn add_shrinking(&mut self, x: u32, kept: &[u32]) -> Result<(), AllocError>
        ensures shrink { OnOk result (IsPushedIf (not (is_empty kept.now)) x kept.now self.old.phases.shrink
            self.new.phases.shrink) }
        ensures emptied { OnOk result (self.new.emptied.items
            ≡ self.old.emptied.items ++ cond (is_empty kept.now) (x ∷ []) []) }
        ensures grow { OnOk result (self.new.phases.grow ≡ self.old.phases.grow) }
    {
        if kept.is_empty() {
            self.emptied.push(x)?;
            return Ok(());
        }
        self.phases.shrink.add(x, kept)?;
        Ok(())
    }

    /// Adds a node to the second phase, if its new ways differ from those after the first.
    fn add_growing(&mut self, x: u32, after: &[u32], now: &[u32]) -> Result<(), AllocError>
        ensures grow { OnOk result (IsPushedIf (differs after.now now.now) x now.now self.old.phases.grow
            self.new.phases.grow) }
        ensures shrink { OnOk result (self.new.phases.shrink ≡ self.old.phases.shrink) }
        ensures emptied { OnOk result (self.new.emptied ≡ self.old.emptied) }
    {
        if after == now {
            return Ok(());
        }
        self.phases.grow.add(x, now)?;
        Ok(())
    }
}

/// Adds nodes that keep no way.
fn add_emptied(pushes: &mut Pushes, nodes: &[u32]) -> Result<(), AllocError>
    ensures nodes { OnOk result (pushes.new.nodes.items ≡ pushes.old.nodes.items ++ nodes.now) }
    ensures lists { OnOk result (pushes.new.lists ≡ pushes.old.lists ++ map (λ (x : ℕ). []) nodes.now) }
{
    for x in nodes {
        pushes.add(*x, &[])?;
    }
    Ok(())
}
