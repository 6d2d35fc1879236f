//! Workers with their own deques, and the handles with which the others steal from them.

ghost use Rattle.std.specs.Prelude.{◌≡◌, ◌<◌, ◌≤◌, IfOk, length, vec_len};
ghost use Rattle.std.specs.List.{AllByRecursion as Each};
ghost use Rattle.fr_round.specs.Knowledge.{OpenRound};
ghost use Rattle.fr_crew.specs.Crews.{IsNew, IsOwnMember};

use crate::deques::{Deque, DequePlan, Stealer};
use crate::naming::Naming;
use crate::shared_nodes::SharedNodes;
use fr_round::{Round, Worker};
use std::alloc::{AllocError, Global};

/// A worker with its deque.
#[derive(Drop)]
pub(crate) struct Member<J: Naming> {
    pub worker: Worker,
    pub deque: Deque<J>,
}

/// All members of a crew, and in the same order the handles with which the others steal from each.
#[derive(Drop)]
pub(crate) struct Members<J: Naming> {
    pub members: Vec<Member<J>>,
    pub stealers: Vec<Stealer<J>>,
}

/// Gives each worker a deque of its own.
pub(crate) fn make_deques<J: Naming>(
    alloc: Global,
    round: &Round,
    workers: Vec<Worker>,
    plan: DequePlan,
) -> Result<Members<J>, AllocError>
    requires named { round.now.setup ≡ J.setup }
    ensures own { IfOk result (λ all. (round : OpenRound) → Each (IsNew round) workers.items
        → Each (IsOwnMember round) all.members.items) }
    ensures members { IfOk result (λ all. vec_len all.members ≡ vec_len workers) }
    ensures stealers { IfOk result (λ all. vec_len all.stealers ≡ vec_len workers) }
{
    let mut members = Vec::with_capacity(alloc, workers.len())?;
    let mut stealers = Vec::with_capacity(alloc, workers.len())?;
    for worker in workers {
        let deque = Deque::new(alloc, round, plan, worker.number())?;
        stealers.push_reserved(deque.stealer()?);
        members.push_reserved(Member { worker, deque });
    }
    Ok(Members { members, stealers })
}

/// How much more room a deque has at first than it is dealt: a turn makes candidates of all neighbours of a node.
const SLACK: usize = 64;

/// How many candidates the deque of each worker has room for at first: as many as are dealt to one worker and some
/// more, but at most as many as there are nodes, because no node is in a deque twice. A deque grows if that is too
/// little.
pub(crate) fn deque_room(round: &Round, from: Option<&[u32]>, workers: usize) -> usize
    requires { 0 < workers }
    ensures { result ≤ round.now.setup.nodes }
{
    let nodes = round.net().nodes() as usize;
    let dealt = match from {
        Some(from) => from.len(),
        None => nodes,
    };
    let room = dealt / workers + SLACK;
    if room < nodes { room } else { nodes }
}

/// Deals a node to the member whose number is `turn` modulo the number of members, if the node is a candidate: it has a
/// link, and is not the destination.
fn deal_node<J: Naming>(
    round: &Round,
    shared_nodes: &SharedNodes<J>,
    members: &mut [Member<J>],
    turn: usize,
    x: u32,
)
    requires named { round.now.setup ≡ J.setup }
    requires some { 0 < length members.old }
    ensures own { (own : OpenRound) → Each (IsOwnMember own) members.old → Each (IsOwnMember own) members.new }
{
    let net = round.net();
    if x < net.nodes() && x != round.dest() && net.degree(x) > 0 {
        let to = turn % members.len();
        members[to].deque.put_shared(shared_nodes, x);
    }
}

/// Deals all candidates in ascending order, each to the member whose number is the node's modulo the number of
/// members.
fn deal_all_candidates<J: Naming>(
    round: &Round,
    shared_nodes: &SharedNodes<J>,
    members: &mut [Member<J>],
)
    requires named { round.now.setup ≡ J.setup }
    requires some { 0 < length members.old }
    ensures own { (own : OpenRound) → Each (IsOwnMember own) members.old → Each (IsOwnMember own) members.new }
{
    for x in 0..round.net().nodes() {
        deal_node(round, shared_nodes, members, x as usize, x);
    }
}

/// Deals the candidates among these nodes, each to the member whose number is the node's place modulo the number of
/// members.
fn deal_listed_candidates<J: Naming>(
    round: &Round,
    shared_nodes: &SharedNodes<J>,
    members: &mut [Member<J>],
    nodes: &[u32],
)
    requires named { round.now.setup ≡ J.setup }
    requires some { 0 < length members.old }
    ensures own { (own : OpenRound) → Each (IsOwnMember own) members.old → Each (IsOwnMember own) members.new }
{
    for (turn, x) in nodes.iter().enumerate() {
        deal_node(round, shared_nodes, members, turn, *x);
    }
}

/// Deals the first candidates: those among the nodes of `from`, or all candidates if there is no `from`.
pub(crate) fn deal_first_candidates<J: Naming>(
    round: &Round,
    shared_nodes: &SharedNodes<J>,
    members: &mut [Member<J>],
    from: Option<&[u32]>,
)
    requires named { round.now.setup ≡ J.setup }
    requires some { 0 < length members.old }
    ensures own { (own : OpenRound) → Each (IsOwnMember own) members.old → Each (IsOwnMember own) members.new }
{
    match from {
        Some(from) => deal_listed_candidates(round, shared_nodes, members, from),
        None => deal_all_candidates(round, shared_nodes, members),
    }
}
