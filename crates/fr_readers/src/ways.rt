//! Pushing the ways of a session into a table.

ghost use Rattle.std.specs.Prelude.{◌≡◌, ℕ, ◌+◌, ◌<◌, ◌≤◌, ◌⊎◌, ◌++◌, List, [], Some, false};
ghost use Rattle.std.specs.Prelude.{All, Contains, IfOk, IfSome, MatchBool, length, take, vec_capacity};
ghost use Rattle.std.specs.List.Sorted.{IsNonDecreasing, IsPermutation};
ghost use Rattle.fr_graph.specs.Limits.{most_nodes};
ghost use Rattle.fr_route.specs.NodeWays.{AreNodeWays};
ghost use Rattle.fr_ways.specs.Ways.{ways};
ghost use Rattle.fr_shared.specs.WayTables.{IsTable, ListsChanges, last_ways};
ghost use Rattle.fr_readers.specs.Inside.{pushes_in};
ghost use Rattle.fr_readers.specs.Published.{AreFirstWays, HasWaysOf};
ghost use Rattle.fr_readers.specs.Publishing.{AlterWays, IsSettled, IsSettledSession, PublishesWays};
ghost use Rattle.fr_readers.specs.Publishing.{PublishesWaysIn};

use crate::noting::{grow_of, push_nodes, shrink_of};
use crate::publishing::router_law;
use fr_graph::MAX_NODES;
use fr_route::{Reroutes, Router, Session};
use fr_shared::ways::{FirstWays, Publisher, Reader, open};
use std::alloc::{AllocError, Global};
use std::marker::Model;

/// A table of ways for readers, and the memory to fill it. So publishing cannot fail once this is open.
#[derive(Drop)]
pub(crate) struct WayTables {
    publisher: Publisher,
    // The ways that are to be pushed. Between two calls they are those of the table.
    wanted: FirstWays,
    // Space for the ways of one node.
    space: Vec<u32>,
    // Space for the nodes of a change: those that shrink, and those that grow.
    listed: Vec<u32>,
}

impl Model for WayTables {
    ghost use Rattle.fr_shared.specs.WayTables.{WayKnowledge};

    ghost Value = { WayKnowledge };

    ghost use Rattle.fr_readers.specs.Inside.{AreReady, ways_known};

    ghost view = { ways_known };

    ghost invariant = { AreReady };
}

impl WayTables {
    /// A table without ways, for as many nodes as the largest network has.
    pub(crate) fn open(alloc: Global) -> Result<WayTables, AllocError>
        ensures nodes { IfOk result (λ k. k.nodes ≡ most_nodes) }
        ensures none { IfOk result (λ k. k.known ≡ []) }
    {
        let (publisher, _) = open(alloc, MAX_NODES)?;
        Ok(WayTables {
            publisher,
            wanted: FirstWays::new(alloc, MAX_NODES)?,
            space: vec![in alloc; 0u32; MAX_NODES as usize]?,
            listed: Vec::with_capacity(alloc, 2 * MAX_NODES as usize)?,
        })
    }

    /// Pushes the ways of a session.
    pub(crate) fn push_session_ways(&mut self, session: &mut Session)
        requires { IsSettledSession session.old }
        ensures same { session.new ≡ session.old }
        ensures published { PublishesWays self.old session.old self.new }
    {
        set_session_ways(&mut self.wanted, &mut self.space, session);
        self.publisher.push_phases(&self.wanted);
    }

    /// Pushes the ways of a router that a change has altered, which these reroutes note. It looks at no other node.
    fn push_changed_ways(&mut self, router: &mut Router, reroutes: &Option<Reroutes>)
        requires { AlterWays (last_ways self.old) router.old (pushes_in reroutes.now) }
        ensures same { router.new ≡ router.old }
        ensures published { PublishesWays self.old (Some router.old) self.new }
    {
        set_changed_ways(
            &mut self.wanted,
            &mut self.space,
            &mut self.listed,
            router,
            reroutes,
        );
        self.publisher.push_listed(&self.wanted, &self.listed);
    }

    /// Makes a reader, which knows all pushes made so far.
    pub(crate) fn reader(&mut self) -> Result<Reader, AllocError>
        ensures kept { self.new ≡ self.old }
        ensures reader { IfOk result (λ reader. reader ≡ self.old) }
    {
        self.publisher.reader()
    }
}

/// Puts the first ways of a session into a table.
fn set_session_ways(wanted: &mut FirstWays, space: &mut [u32], session: &mut Session)
    requires settled { IsSettledSession session.old }
    requires long { length wanted.old ≡ most_nodes }
    requires space { length space.old ≡ most_nodes }
    ensures same { session.new ≡ session.old }
    ensures ways { AreFirstWays session.old wanted.new }
    ensures long { length wanted.new ≡ most_nodes }
    ensures space { length space.new ≡ most_nodes }
{
    match session.router_mut() {
        Some(router) => {
            set_router_ways(wanted, space, router);
            clear_ways_from(wanted, router.net().nodes());
        }
        None => clear_ways_from(wanted, 0),
    }
}

/// Puts the first ways of each node of a router into a table.
fn set_router_ways(wanted: &mut FirstWays, space: &mut [u32], router: &mut Router)
    requires settled { IsSettled router.old }
    requires long { length wanted.old ≡ most_nodes }
    requires space { length space.old ≡ most_nodes }
    ensures same { router.new ≡ router.old }
    ensures long { length wanted.new ≡ most_nodes }
    ensures space { length space.new ≡ most_nodes }
    ensures each { (x : ℕ) → x < router.old.nodes
        → (list : List ℕ) × AreNodeWays router.old x list × (ways wanted.new x ≡ take 5 list) }
{
    for x in 0..router.net().nodes() {
        let count = router.write_ways(x, space);
        wanted.set(x, &space[..count]);
    }
}

/// Puts the first ways after a change into the table of those before it, and lists the nodes that these reroutes note.
fn set_changed_ways(
    wanted: &mut FirstWays,
    space: &mut [u32],
    listed: &mut Vec<u32>,
    router: &mut Router,
    reroutes: &Option<Reroutes>,
)
    requires altered { AlterWays wanted.old router.old (pushes_in reroutes.now) }
    requires space { length space.old ≡ most_nodes }
    requires room { most_nodes + most_nodes ≤ vec_capacity listed.old }
    ensures same { (router.new ≡ router.old) × (length space.new ≡ most_nodes)
        × (most_nodes + most_nodes ≤ vec_capacity listed.new) }
    ensures first { AreFirstWays (Some router.old) wanted.new × IsTable most_nodes wanted.new }
    ensures listed { ListsChanges listed.new.items wanted.old wanted.new }
{
    router_law(router);
    list_nodes(listed, shrink_of(reroutes).nodes, grow_of(reroutes).nodes);
    set_listed_ways(wanted, space, router, listed);
}

/// Lists the nodes of two lists by number. A node that is in both is listed twice.
fn list_nodes(list: &mut Vec<u32>, some: &[u32], others: &[u32])
    requires { length some.now + length others.now ≤ vec_capacity list.old }
    ensures these { IsPermutation (some.now ++ others.now) list.new.items }
    ensures by_number { IsNonDecreasing list.new.items }
    ensures room { vec_capacity list.new ≡ vec_capacity list.old }
{
    list.clear();
    push_nodes(list, some);
    push_nodes(list, others);
    list.sort_unstable();
}

/// Puts the first ways of these nodes of a router into a table.
fn set_listed_ways(wanted: &mut FirstWays, space: &mut [u32], router: &mut Router, nodes: &[u32])
    requires settled { IsSettled router.old }
    requires long { length wanted.old ≡ most_nodes }
    requires space { length space.old ≡ most_nodes }
    requires nodes { All (λ (x : ℕ). x < router.old.nodes) nodes.now }
    ensures same { (router.new ≡ router.old) × (length wanted.new ≡ most_nodes) × (length space.new ≡ most_nodes) }
    ensures listed { (x : ℕ) → Contains nodes.now x
        → (list : List ℕ) × AreNodeWays router.old x list × (ways wanted.new x ≡ take 5 list) }
    ensures others { (x : ℕ) → Contains nodes.now x ⊎ (ways wanted.new x ≡ ways wanted.old x) }
{
    for x in nodes {
        let count = router.write_ways(*x, space);
        wanted.set(*x, &space[..count]);
    }
}

/// Takes the ways of all numbers from this one on out of a table.
fn clear_ways_from(wanted: &mut FirstWays, from: u32)
    requires { length wanted.old ≡ most_nodes }
    ensures long { length wanted.new ≡ most_nodes }
    ensures none { (x : ℕ) → from ≤ x → ways wanted.new x ≡ [] }
    ensures others { (x : ℕ) → x < from → ways wanted.new x ≡ ways wanted.old x }
{
    for x in from..MAX_NODES {
        wanted.set(x, &[]);
    }
}

/// Pushes the ways of a session, if there is a table of them. If `may_differ` is false, the table must have them
/// already, and no node is looked at.
pub(crate) fn publish_ways(tables: &mut Option<WayTables>, session: &mut Session, may_differ: bool)
    requires settled { IsSettledSession session.old }
    requires had { may_differ ≡ false → IfSome tables.old (HasWaysOf session.old) }
    ensures same { session.new ≡ session.old }
    ensures published { PublishesWaysIn tables.old session.old tables.new }
{
    if !may_differ {
        return;
    }
    if let Some(tables) = tables {
        tables.push_session_ways(session);
    }
}

/// Pushes the ways that a change has altered, which these reroutes note, if there is a table of ways. If the change was
/// not made, nothing is pushed.
pub(crate) fn publish_changes(
    tables: &mut Option<WayTables>,
    router: &mut Router,
    reroutes: &Option<Reroutes>,
    is_made: bool,
)
    requires { IfSome tables.old (λ k. MatchBool is_made
        (AlterWays (last_ways k) router.old (pushes_in reroutes.now)) (HasWaysOf (Some router.old) k)) }
    ensures same { router.new ≡ router.old }
    ensures published { PublishesWaysIn tables.old (Some router.old) tables.new }
{
    if !is_made {
        return;
    }
    if let Some(tables) = tables {
        tables.push_changed_ways(router, reroutes);
    }
}
