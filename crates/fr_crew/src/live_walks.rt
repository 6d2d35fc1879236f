//! Walks along the links of an open round, while workers turn its nodes.

ghost use Rattle.std.specs.Prelude.{◌≡◌, IfOk, IfErr};
ghost use Rattle.fr_core.specs.Targets.{IsLookable};
ghost use Rattle.fr_round.specs.Knowledge.{IsOwn, KeepsWorker};
ghost use Rattle.fr_crew.specs.LiveWalks.{IsLiveWalk, IsLiveFault, HasRoomToWalk, HasWalked};
ghost use Rattle.fr_crew.specs.declared.live_walks.LiveFault.TheVariants.{Memory};

use fr_core::Reply;
use fr_round::{Round, Worker};
use std::alloc::{AllocError, Global};
use thiserror::Error;

/// How a walk ended.
#[derive(Clone, Copy, Debug, Drop, PartialEq, Eq)]
pub enum LiveEnd {
    /// It reached the destination.
    Here,
    /// The last node was a sink when it was looked at.
    AtSink,
    /// It made the greatest number of looks without reaching the destination.
    Limit,
}

/// A walk: its nodes from the first to the last, and how it ended.
#[derive(Debug, Drop, PartialEq, Eq)]
pub struct LiveWalk {
    pub nodes: Vec<u32>,
    pub end: LiveEnd,
}

/// Why a walk is not begun. The variants are listed in the order in which they are tested.
#[derive(Clone, Copy, Debug, Drop, Error, PartialEq, Eq)]
pub enum LiveFault {
    /// The network has no such node.
    #[error("there is no such node")]
    NoNode,
    /// The node has no link.
    #[error("the node has no link")]
    Alone,
    /// An allocation was refused.
    #[error("no memory")]
    Memory,
}

// Written by hand, because a clause says which fault a `?` returns.
impl From<AllocError> for LiveFault {
    ghost from_gives = { λ _ fault. fault ≡ Memory };

    fn from(_refused: AllocError) -> LiveFault {
        LiveFault::Memory
    }
}

/// Continues a walk from node `x`, which is the only one in `nodes`, and appends each node to which it hops.
fn continue_walk(
    round: &Round,
    worker: &mut Worker,
    nodes: &mut Vec<u32>,
    x: u32,
    limit: u32,
) -> LiveEnd
    requires own { IsOwn round.now worker.old }
    requires node { IsLookable round.now.setup.nodes round.now.setup.links x }
    requires room { HasRoomToWalk nodes.old x limit }
    ensures keeps { KeepsWorker worker.old worker.new }
    ensures walked { HasWalked worker.old worker.new round.now.setup.dest x limit nodes.new.items result }
{
    // The call shows that what the worker knows is true, even if the walk makes no look.
    let _seen = worker.seen(x);
    // By this law, a link joins two nodes of the network.
    round.net().network_law();
    let dest = round.dest();
    let mut here = x;
    for _made in 0..limit {
        if here == dest {
            return LiveEnd::Here;
        }
        let Ok(reply) = round.look(worker, here) else {
            // Each node of a walk has a link.
            unreachable!()
        };
        match reply {
            Reply::Held { by } => {
                nodes.push_reserved(by);
                here = by;
            }
            // The node turned meanwhile, and is looked at again.
            Reply::Moved { .. } => {}
            Reply::Sink => return LiveEnd::AtSink,
            Reply::Turned { .. } | Reply::Cut => unreachable!(),
        }
    }
    if here == dest {
        LiveEnd::Here
    } else {
        LiveEnd::Limit
    }
}

/// Walks from node `x` by looks, while other workers turn nodes. The walk hops to the neighbour that holds the current
/// node, and looks again if the node has moved meanwhile. It ends at the destination, at a sink, or after `limit`
/// looks. Each look is true at its own moment, but not all at the same one, so the walk may visit a node twice. It does
/// not wait.
///
/// The worker must be one of this round. Fails with `NoNode` or `Alone`, tested in this order, if `x` is not a node or
/// has no link. Before the first look, the call allocates room for `limit + 1` nodes, and fails with `Memory` if that
/// is refused. If it fails, nothing has changed, and the worker knows what it knew before. It makes at most `limit`
/// looks, of O(d²) each.
pub fn live_walk(
    alloc: Global,
    round: &Round,
    worker: &mut Worker,
    x: u32,
    limit: u32,
) -> Result<LiveWalk, LiveFault>
    requires { IsOwn round.now worker.old }
    ensures keeps { KeepsWorker worker.old worker.new }
    ensures begun { IfOk result (λ _. IsLookable round.now.setup.nodes round.now.setup.links x) }
    // As by `Round::look`.
    ensures refused { IfErr result (λ fault. IsLiveFault round.now.setup x fault × (worker.new ≡ worker.old)) }
    // Each node held the one before it. The walk ends at the destination (`Here`), at a sink (`AtSink`), or when no
    // looks are left (`Limit`).
    ensures walked { IfOk result (λ walk. IsLiveWalk worker.old worker.new round.now.setup.dest x limit walk) }
{
    let net = round.net();
    if x >= net.nodes() {
        return Err(LiveFault::NoNode);
    }
    if net.degree(x) == 0 {
        return Err(LiveFault::Alone);
    }
    let mut nodes = Vec::with_capacity(alloc, limit as usize + 1)?;
    nodes.push_reserved(x);
    let end = continue_walk(round, worker, &mut nodes, x, limit);
    Ok(LiveWalk { nodes, end })
}
