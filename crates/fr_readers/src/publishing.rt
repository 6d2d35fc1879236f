//! Pushing the hops of a session into a table.

ghost use Rattle.std.specs.Prelude.{◌≡◌, ◌≤◌, ◌↔◌, IfOk, IfSome, IsTrue, length, slice_index_or};
ghost use Rattle.std.specs.Option.{option_copied};
ghost use Rattle.fr_route.specs.Reroutes.{AreReplaced};
ghost use Rattle.fr_readers.specs.Published.{HasHopsOf};
ghost use Rattle.fr_readers.specs.Publishing.{AreHopsOf, CanPublish, HasHopAt};
ghost use Rattle.fr_readers.specs.Publishing.{IsSettled, IsSettledSession, Publishes, PublishesIn};
ghost use Rattle.fr_shared.specs.HopTables.{last_hops, padded};
ghost use Rattle.fr_tables.specs.declared.hop.Hop.TheVariants.{CutOff};

use fr_graph::MAX_NODES;
use fr_route::{Hop, Router, Session};
use fr_shared::hops::{Publisher, open};
use std::alloc::{AllocError, Global};

/// The network of a router is the result of a round. The function does nothing.
pub(crate) fn router_law(router: &Router)
    ensures { IsSettled router.now }
{
    router.state_law();
    router.net().network_law();
}

/// The same for the network of a session, if it has one. The function does nothing.
pub(crate) fn session_law(session: &Session)
    ensures { IsSettledSession session.now }
{
    if let Some(router) = session.router() {
        router_law(router);
    }
}

/// The nodes that a router reroutes when it replaces the one before it, if there was one.
pub(crate) fn nodes_rerouted_by(
    alloc: Global,
    before: Option<&Router>,
    router: &Router,
) -> Result<Vec<u32>, AllocError>
    ensures { IfOk result (λ nodes. AreReplaced (option_copied before.entry) router.now nodes.items) }
{
    match router.changed_since(alloc, before) {
        Ok(nodes) => Ok(nodes),
        Err(_) => Err(AllocError),
    }
}

/// The hops of the network of a session; empty without a network.
fn hops_in(session: &Session) -> &[Hop]
    ensures { AreHopsOf session.now result.now }
{
    match session.router() {
        Some(router) => router.hops(),
        None => &[],
    }
}

/// Whether a published table has the same hop of node `x` as these hops. A node past their end is cut off.
fn has_hop(publisher: &mut Publisher, hops: &[Hop], x: u32) -> bool
    requires { length hops.now ≤ publisher.old.nodes }
    ensures same { IsTrue result ↔ HasHopAt (last_hops publisher.old) (padded publisher.old.nodes hops.now) x }
    ensures kept { publisher.new ≡ publisher.old }
{
    publisher.history_law();
    if x >= publisher.nodes() {
        return true;
    }
    publisher.hop(x) == hop_in(hops, x)
}

/// The hop of node `x` in a table. A node past its end is cut off.
fn hop_in(hops: &[Hop], x: u32) -> Hop
    ensures { result ≡ slice_index_or hops.now x CutOff }
{
    hops.get(x as usize).copied().unwrap_or(Hop::CutOff)
}

/// Pushes the hops of a session into a table, for these nodes and in their order. If the table already has the hop of
/// the first node, the nodes were pushed before, and nothing is pushed.
fn push_rerouted_hops(publisher: &mut Publisher, session: &Session, rerouted: &[u32])
    requires settled { IsSettledSession session.now }
    requires can { CanPublish publisher.old session.now rerouted.now }
    ensures { Publishes publisher.old session.now rerouted.now publisher.new }
{
    publisher.history_law();
    let Some(first) = rerouted.first() else {
        return;
    };
    let hops = hops_in(session);
    if has_hop(publisher, hops, *first) {
        return;
    }
    publisher.push_all(hops, rerouted);
}

/// Pushes the hops of a session into a table as [`push_rerouted_hops`] does, if there is a table.
pub(crate) fn publish_rerouted_hops(
    publisher: &mut Option<Publisher>,
    session: &Session,
    rerouted: &[u32],
)
    requires settled { IsSettledSession session.now }
    requires can { IfSome publisher.old (λ k. CanPublish k session.now rerouted.now) }
    ensures { PublishesIn publisher.old session.now rerouted.now publisher.new }
{
    if let Some(publisher) = publisher {
        push_rerouted_hops(publisher, session, rerouted);
    }
}

/// Opens a table with the hops of a session, for as many nodes as the largest network has.
pub(crate) fn open_hop_table(alloc: Global, session: &Session) -> Result<Publisher, AllocError>
    ensures { IfOk result (HasHopsOf session.now) }
{
    let (mut publisher, _) = open(alloc, MAX_NODES)?;
    session_law(session);
    if let Some(router) = session.router() {
        let rerouted = nodes_rerouted_by(alloc, None, router)?;
        push_rerouted_hops(&mut publisher, session, &rerouted);
    }
    Ok(publisher)
}
