//! A network: how it is made from links, read by nodes and rows, and changed by edits and by counts.

ghost use Rattle.std.specs.Prelude.{◌≡◌, ◌≢◌, ℕ, ◌<◌, ◌≤◌, ◌+◌, ◌++◌, List, [], ◌∷◌, length, slice_get, slice_index};
ghost use Rattle.std.specs.Prelude.{Some, Ok, IfOk, IfErr, IfSome, IfNone, MatchOption, OnOk, OnErr, All, ◌⊎◌};
ghost use Rattle.std.specs.List.{HoldsAt};
ghost use Rattle.std.specs.Borrow.{Bor};
ghost use Rattle.std.specs.Fn.{FnOnceReturnsAt};
ghost use Rattle.fr_graph.specs.Network.{Network};
ghost use Rattle.fr_graph.specs.Graph.{IsGraph, shown};
ghost use Rattle.fr_graph.specs.Halves.{AreHalvesOf};
ghost use Rattle.fr_graph.specs.Heights.{HasHeadsFirst};
ghost use Rattle.fr_graph.specs.KeptRows.{AreRows, net_in};
ghost use Rattle.fr_graph.specs.Links.{HasNoSelfLink, Joins};
ghost use Rattle.fr_graph.specs.Order.{AreRising};
ghost use Rattle.fr_graph.specs.Counts.{IsKept, links_at};
ghost use Rattle.fr_graph.specs.Rows.{alone_count, row};
ghost use Rattle.fr_graph.specs.declared.fault.NetFault.TheVariants.{Memory, TooMany};
ghost use Rattle.fr_graph.specs.Faults.{IsFaultless, IsFirstFault, IsInRange, IsNetworkOf, PassFirstTests};
ghost use Rattle.fr_graph.specs.Edits.{IsCutFault, IsJoined, IsJoinFault, without};
ghost use Rattle.fr_graph.specs.Evidence.{NamesFirst, NamesIfRefused, NamesInBatch, NamesOfEdit};
ghost use Rattle.fr_graph.specs.Batches.{AreMade, IsBatchFault, IsEditFault, IsMade, IsNotEdited, AreFewIfMemory};
ghost use Rattle.fr_graph.specs.Limits.{IsWithinLimits, most_edits};
ghost use Rattle.fr_graph.specs.declared.edit.Edit.TheVariants.{Add, Join};

use crate::checks::{first_outside, first_self_link};
use crate::cycle::find_cycle;
use crate::edit::Edit;
use crate::fault::{EditFault, NetFault, NotEdited};
use crate::first::First;
use crate::graph::{Effect, Graph};
use crate::half_links::{HalfLink, first_duplicate_link, row_entries_of, sorted_half_links};
use crate::heights::Heights;
use crate::limits::{MAX_EDITS, MAX_LINKS, MAX_NODES};
use crate::links::Links;
use crate::row_table::RowTable;
use crate::turned_rows::turn_rows;
use crate::turns::Turns;
use fr_search::CycleOrOrder;
use std::alloc::{AllocError, Global};
use std::marker::Model;

/// Tests that nodes and links are within the limits, and that each link joins two different nodes. Returns the first
/// fault if not.
fn test_links(nodes: u32, links: &[(u32, u32)]) -> Result<(), NetFault>
    ensures limits { OnOk result (IsWithinLimits nodes links.now) }
    ensures range { OnOk result (IsInRange nodes links.now) }
    ensures clear { OnOk result (HasNoSelfLink links.now) }
    ensures refused { IfErr result (IsFirstFault nodes links.now) }
    ensures names { IfErr result (NamesFirst nodes links.now) }
{
    if nodes > MAX_NODES || links.len() > MAX_LINKS {
        return Err(NetFault::TooMany);
    }
    if let Some(x) = first_outside(nodes, links) {
        return Err(NetFault::Range(x));
    }
    if let Some(node) = first_self_link(links) {
        return Err(NetFault::SelfLink(node));
    }
    Ok(())
}

/// The rows of links. `halves` are their sorted half-links, and `starts` is where those of each node start.
fn rows_from_half_links(
    alloc: Global,
    halves: &[HalfLink],
    starts: Vec<usize>,
) -> Result<RowTable, AllocError>
    requires { (nodes : ℕ) × (links : List (ℕ × ℕ)) × AreHalvesOf nodes links halves.now starts.items }
    ensures { IfOk result (λ rows. (nodes : ℕ) (links : List (ℕ × ℕ))
        → AreHalvesOf nodes links halves.now starts.items → AreRows nodes links rows) }
{
    RowTable::packed(alloc, starts, row_entries_of(alloc, halves)?)
}

/// The graph of the rows of links that have no fault. `order` lists the head of each link before its tail.
fn graph_with_order(
    alloc: Global,
    nodes: u32,
    link_count: usize,
    rows: RowTable,
    order: &[u32],
) -> Result<Graph, AllocError>
    requires links { (links : List (ℕ × ℕ)) × IsFaultless nodes links × AreRows nodes links rows
        × (link_count ≡ length links) }
    requires order { HasHeadsFirst nodes (net_in rows).links order.now }
    ensures graph { IfOk result IsGraph }
    ensures shown { IfOk result (λ graph. (links : List (ℕ × ℕ)) → IsFaultless nodes links
        → AreRows nodes links rows → IsNetworkOf nodes links (shown graph)) }
{
    let mut heights = Heights::unknown(alloc, nodes)?;
    heights.set_from_order(order);
    Ok(Graph {
        nodes,
        link_count,
        rows,
        heights,
    })
}

/// Tests that there are no more edits than the limit.
fn test_edit_limit(edits: &[Edit]) -> Result<(), EditFault>
    ensures few { OnOk result (length edits.now ≤ most_edits) }
    ensures refused { IfErr result (λ refused. (most_edits < length edits.now) × (refused.at ≡ most_edits)
        × (refused.fault ≡ TooMany)) }
{
    if edits.len() > MAX_EDITS {
        return Err(EditFault {
            at: MAX_EDITS,
            fault: NetFault::TooMany,
        });
    }
    Ok(())
}

/// A network: nodes, and links that contain no cycle. The value in contracts is the number of nodes, and the links
/// ordered by tail and then by head.
#[derive(Debug)]
pub struct Net {
    graph: Graph,
    // Memory for what edits did, which is kept from one call to the next. What it contains has no meaning.
    done: Vec<Effect>,
}

// Written by hand: code that drops a network proves this one call. With a derived Drop it proves how each part is
// dropped.
impl Drop for Net {
    fn drop(self) {
        let Net { graph, done } = self;
        drop(graph);
        drop(done);
    }
}

impl Model for Net {
    ghost use Rattle.fr_graph.specs.Network.{Network};

    ghost Value = { Network };

    ghost use Rattle.fr_graph.specs.Inside.{network_of, IsNetwork};

    ghost view = { network_of };

    ghost invariant = { IsNetwork };
}

impl Net {
    /// Makes the network with the nodes 0 to `nodes - 1` and these links, each from its tail to its head. The links
    /// can be listed in any order.
    ///
    /// Fails with the first fault, with its evidence. Each fault is tested over the whole list before the next one, in
    /// the order of [`NetFault`]: `TooMany`, `Range`, `SelfLink`, `Twice`, `Cycle`. The first three tests need no memory.
    /// Fails with `Memory` only after them, if an allocation is refused.
    ///
    /// O(n + m) time and memory.
    pub fn new(alloc: Global, nodes: u32, links: &[(u32, u32)]) -> Result<Net, NetFault>
        // The network has exactly the listed links, in ascending order.
        ensures ok { IfOk result (IsNetworkOf nodes links.now) }
        // The first fault, in the order from `TooMany` to `Cycle`. `Cycle` names the cycle.
        ensures refused { IfErr result (λ fault. fault ≢ Memory → IsFirstFault nodes links.now fault) }
        // `Memory` never hides `TooMany`, `Range` or `SelfLink`.
        ensures memory { IfErr result (λ fault. fault ≡ Memory → PassFirstTests nodes links.now) }
        // The first end that is not a node, the first self link, the lowest pair that is linked twice, or the lowest
        // cycle.
        ensures names { IfErr result (NamesFirst nodes links.now) }
    {
        test_links(nodes, links)?;
        let (halves, starts) = sorted_half_links(alloc, nodes, links)?;
        if let Some((u, v)) = first_duplicate_link(&halves) {
            return Err(NetFault::Twice(u, v));
        }
        let rows = rows_from_half_links(alloc, &halves, starts)?;
        match find_cycle(alloc, nodes, &rows)? {
            CycleOrOrder::Cycle(walk) => Err(NetFault::Cycle(walk)),
            CycleOrOrder::Order(order) => Ok(Net {
                graph: graph_with_order(alloc, nodes, links.len(), rows, &order)?,
                done: Vec::new(alloc),
            }),
        }
    }

    /// The number of nodes, at least 1. O(1).
    pub fn nodes(&self) -> u32
        ensures value { result ≡ self.now.nodes }
        ensures faultless { IsFaultless self.now.nodes self.now.links }
    {
        self.graph.nodes
    }

    /// The law of a network: its links have none of the faults of [`NetFault`]. The function does nothing; call it
    /// where a proof needs the law.
    pub fn network_law(&self)
        // The network has no fault.
        ensures { IsFaultless self.now.nodes self.now.links }
    {
        // A field has to be read, because only then the proof can use the invariant.
        let _nodes = self.graph.nodes;
    }

    /// The number of links. O(1).
    pub fn link_count(&self) -> usize
        ensures { result ≡ length self.now.links }
    {
        self.graph.link_count
    }

    /// The links, by tail and then by head, none twice: a view of the rows, which does not allocate. Collect it if you
    /// need a list. O(1), and O(n + m) to read them all.
    pub fn links(&self) -> Links<'_>
        ensures { result ≡ self.now.links }
    {
        Links::of_rows(&self.graph.rows, self.graph.link_count)
    }

    /// The law of the order of a network's links: they increase by tail, and with equal tails by head. The function
    /// does nothing, like [`network_law`](Net::network_law).
    pub fn link_order_law(&self)
        // The links are in ascending order, and none is there twice.
        ensures { AreRising self.now.links }
    {
        let _nodes = self.graph.nodes;
    }

    /// The number of nodes without a link. O(1).
    pub fn isolated_count(&self) -> u32
        ensures { result ≡ alone_count self.now.nodes self.now.links }
    {
        self.graph.rows.empty_rows() as u32
    }

    /// The number of neighbours of node `x`, which must be in the network. O(1).
    pub fn degree(&self, x: u32) -> u32
        requires { x < self.now.nodes }
        ensures { result ≡ length (row self.now.nodes self.now.links x) }
    {
        self.graph.row(x).len() as u32
    }

    /// The neighbour at place `j` of the row of node `x`, and the direction of its link seen from `x`. Places count
    /// from 0, in ascending order of the neighbours. The node and the place must exist. O(1).
    pub fn neighbour(&self, x: u32, j: u32) -> (u32, First)
        requires node { x < self.now.nodes }
        requires place { j < length (row self.now.nodes self.now.links x) }
        ensures value { slice_get (row self.now.nodes self.now.links x) j ≡ Some result }
        ensures at { HoldsAt (λ e. e ≡ result) (row self.now.nodes self.now.links x) j }
    {
        let (neighbour, first) = self.graph.row(x)[j as usize];
        (neighbour as u32, first)
    }

    /// All neighbours of node `x` in ascending order, each with the direction of its link seen from `x`. It is for
    /// loops over a whole row. The node must be in the network. The neighbours are `u16`, as the rows keep them,
    /// which halves their memory; other calls take them `as u32`. O(1).
    pub fn row(&self, x: u32) -> &[(u16, First)]
        requires { x < self.now.nodes }
        ensures { result.now ≡ row self.now.nodes self.now.links x }
    {
        self.graph.row(x)
    }

    /// A copy. Fails with `AllocError` if an allocation is refused. O(n + m) time and memory.
    pub fn copied(&self, alloc: Global) -> Result<Net, AllocError>
        ensures { IfOk result (λ net. net ≡ self.now) }
    {
        let graph = self.graph.copied(alloc)?;
        let done = Vec::new(alloc);
        Ok(Net { graph, done })
    }

    /// The network after this edit, made on a copy.
    fn with_edit(&self, alloc: Global, edit: Edit) -> Result<Net, NetFault>
        ensures ok { IfOk result (IsMade self.now edit) }
        ensures refused { IfErr result (λ fault. fault ≢ Memory → IsEditFault self.now edit fault) }
        ensures names { IfErr result (NamesOfEdit self.now edit) }
    {
        let mut graph = self.graph.copied(alloc)?;
        graph.edit(alloc, edit)?;
        let done = Vec::new(alloc);
        Ok(Net { graph, done })
    }

    /// The network without the link between `u` and `v`, whichever way it points. Fails with `NoLink` if no link joins
    /// them (also if one is not a node, or both are the same), and with `Memory` if an allocation is refused. O(n + m)
    /// time and memory, because it copies the network.
    pub fn with_cut(&self, alloc: Global, u: u32, v: u32) -> Result<Net, NetFault>
        // Only if there is such a link.
        ensures joined { OnOk result (Joins self.now.links u v) }
        ensures ok { IfOk result (IsNetworkOf self.now.nodes (without u v self.now.links)) }
        ensures refused { IfErr result (λ fault. fault ≢ Memory → IsCutFault self.now.links u v fault) }
    {
        self.with_edit(alloc, Edit::Cut { u, v })
    }

    /// The network with the added link from `u` to `v`. Fails with the first fault of the links with the new one, in
    /// the order of [`NetFault`]: `Cycle` has the lowest cycle through the new link. Fails with `Memory` if an
    /// allocation is refused. O(n + m) for the copy, and the cost of [`edit_if`](Net::edit_if).
    pub fn with_link(&self, alloc: Global, u: u32, v: u32) -> Result<Net, NetFault>
        ensures ok { IfOk result (IsNetworkOf self.now.nodes (self.now.links ++ (u, v) ∷ [])) }
        // The first fault of the links with the added one.
        ensures refused { IfErr result (λ fault. fault ≢ Memory
            → IsFirstFault self.now.nodes (self.now.links ++ (u, v) ∷ []) fault) }
        // The nodes of the edit, or the lowest cycle through its link.
        ensures names { IfErr result (NamesOfEdit self.now (Add u v)) }
    {
        self.with_edit(alloc, Edit::Add { u, v })
    }

    /// The network with an added link between `u` and `v`: from `u` to `v`, or from `v` to `u` if the first would
    /// close a cycle. By the law [`join_law`](crate::laws::join_law) the second closes none then. Fails as `with_link`
    /// does, but never with `Cycle`. O(n + m) for the copy, and the cost of [`edit_if`](Net::edit_if).
    pub fn with_join(&self, alloc: Global, u: u32, v: u32) -> Result<Net, NetFault>
        // The link points from `v` to `u` only if one from `u` to `v` would close a cycle.
        ensures ok { IfOk result (IsJoined self.now.nodes self.now.links u v) }
        // The first fault. A join is never refused because of a cycle.
        ensures refused { IfErr result (λ fault. fault ≢ Memory
            → IsJoinFault self.now.nodes self.now.links u v fault) }
        // The nodes of the edit.
        ensures names { IfErr result (NamesOfEdit self.now (Join u v)) }
    {
        self.with_edit(alloc, Edit::Join { u, v })
    }

    /// The network after these edits, made in order. If one is refused, this fails with the first refused edit and the
    /// fault that `with_cut`, `with_link` or `with_join` has. More than [`MAX_EDITS`] edits fail with `TooMany` at
    /// `MAX_EDITS`: none is tried, and no memory is needed. Fails with `Memory` if an allocation is refused. O(n + m) for
    /// one copy, and the cost of [`edit_if`](Net::edit_if).
    pub fn with_edits(&self, alloc: Global, edits: &[Edit]) -> Result<Net, EditFault>
        // Only if there are not too many edits.
        ensures few { OnOk result (length edits.now ≤ most_edits) }
        // Each edit applies to the result of those before it.
        ensures ok { IfOk result (AreMade self.now edits.now) }
        // The first bad edit and its fault, or `TooMany`.
        ensures refused { IfErr result (λ refused. refused.fault ≢ Memory → IsBatchFault self.now edits.now refused) }
        // `Memory` never hides `TooMany`.
        ensures memory { IfErr result (λ refused. refused.fault ≡ Memory → length edits.now ≤ most_edits) }
        // As for each edit alone.
        ensures names { IfErr result (NamesInBatch self.now edits.now) }
    {
        test_edit_limit(edits)?;
        let mut net = self.copied(alloc)?;
        net.graph.edit_all(alloc, edits, &mut net.done)?;
        Ok(net)
    }

    /// Makes these edits in place and in order, if `accept` succeeds on the edited network, and returns what `accept`
    /// returns. What `accept` requires must hold of the edited network.
    ///
    /// Fails with `Refused` if an edit is refused, as by `with_edits`, or an allocation is refused, and with `Fault`
    /// if `accept` fails. Then the network is unchanged. The number of edits is tested first, and needs no memory.
    ///
    /// O(d) for each edit. An added link or a join compares two heights; if these do not decide, it searches between
    /// them, with tables of O(n). A link that would close a cycle takes one more search, which names the cycle. O(n +
    /// m) if heights have to be computed again, or if a row is full, so that all rows are laid out again with more
    /// room.
    pub fn edit_if<T, E, F: FnOnce(&Net) -> Result<T, E>>(
        &mut self,
        alloc: Global,
        edits: &[Edit],
        accept: F,
    ) -> Result<T, NotEdited<E>>
        requires callable { (made : Bor Network) → AreMade self.old edits.now made.now → F.pre accept made }
        ensures few { OnOk result (length edits.now ≤ most_edits) }
        // The edits are made exactly if `accept` returns `Ok` for the edited network.
        ensures ok { IfOk result (λ answer. AreMade self.old edits.now self.new
            × FnOnceReturnsAt F.FnOnce accept self.new (Ok answer)) }
        // As for `with_edits`, or the fault of `accept`.
        ensures refused { IfErr result (IsNotEdited self.old edits.now (FnOnceReturnsAt F.FnOnce accept)) }
        // `Memory` never hides that there are too many edits.
        ensures memory { IfErr result (AreFewIfMemory edits.now) }
        // As for each edit alone.
        ensures names { IfErr result (NamesIfRefused self.old edits.now) }
        ensures unchanged { OnErr result (self.new ≡ self.old) }
    {
        if let Err(refused) = test_edit_limit(edits) {
            return Err(NotEdited::Refused(refused));
        }
        if let Err(refused) = self.graph.edit_all(alloc, edits, &mut self.done) {
            return Err(NotEdited::Refused(refused));
        }
        match accept(self) {
            Ok(answer) => Ok(answer),
            Err(fault) => {
                self.graph.undo_all(&mut self.done);
                Err(NotEdited::Fault(fault))
            }
        }
    }

    /// The network of the links that the counts give, one count for each node. A link keeps its direction if its ends
    /// have turned equally often, and is reversed if its head has turned once more. The counts must leave no other
    /// case. Fails only with `Memory`, if an allocation is refused. O(n + m) for the copy, and the cost of
    /// [`turn`](Net::turn).
    pub fn turned_by(&self, alloc: Global, counts: &[u64]) -> Result<Net, NetFault>
        requires one_each { length counts.now ≡ self.now.nodes }
        requires kept { All (IsKept counts.now) self.now.links }
        ensures ok { IfOk result (IsNetworkOf self.now.nodes (links_at self.now.links counts.now)) }
        ensures memory { IfErr result (λ fault. fault ≡ Memory) }
    {
        self.network_law();
        let turns = Turns::of(alloc, counts.to_vec(alloc)?)?;
        let mut net = self.copied(alloc)?;
        net.turn(&turns);
        Ok(net)
    }

    /// Turns the links as these turns say, in place. What `turned_by` requires of counts must hold of the turns. It
    /// cannot fail and does not allocate. It changes only the rows of nodes that turned, and their entries in the rows
    /// of others. O(k d log d + k log k) for k nodes that have turned.
    pub fn turn(&mut self, turns: &Turns)
        requires one_each { length turns.now ≡ self.old.nodes }
        requires kept { All (IsKept turns.now) self.old.links }
        ensures { IsNetworkOf self.old.nodes (links_at self.old.links turns.now) self.new }
    {
        turn_rows(&mut self.graph.rows, turns);
        self.graph.heights.raise_turned_nodes(turns);
    }
}
