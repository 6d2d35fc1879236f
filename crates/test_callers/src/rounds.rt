//! A round with workers of one's own.

ghost use Rattle.std.specs.Prelude.{IfOk};
ghost use Rattle.fr_graph.specs.Counts.{AreLawful};
ghost use Rattle.fr_round.specs.Histories.{StartsWith};
ghost use Rattle.fr_round.specs.Knowledge.{IsOwn};

use fr_core::Reply;
use fr_net::Net;
use fr_round::{Closed, OpenFault, Refusal, Round, Worker};
use std::alloc::Global;

/// Tries node `x` up to `times` times, until it turns or is known not to: what a thread does that shares the round.
pub fn turn_soon(round: &Round, worker: &mut Worker, x: u32, times: u32) -> Result<bool, Refusal>
    requires { IsOwn round.now worker.old }
    ensures { IsOwn round.now worker.new }
{
    for _try in 0..times {
        match round.try_turn(worker, x)? {
            Reply::Turned { .. } => return Ok(true),
            Reply::Moved { .. } => {}
            _ => return Ok(false),
        }
    }
    Ok(false)
}

/// A round of two workers, both on this thread, which try node `x` one after the other.
pub fn round_of_two(alloc: Global, net: Net, dest: u32, x: u32) -> Result<Closed, OpenFault>
    ensures { IfOk result (λ closed. AreLawful net.nodes dest net.links closed.counts.items) }
{
    let (round, mut workers) = Round::open(alloc, net, dest, 2)?;
    let _first = turn_soon(&round, &mut workers[0], x, 1);
    let _second = turn_soon(&round, &mut workers[1], x, 1);
    Ok(round.close(workers))
}

/// Looks at node `x` by the second worker after the first one has called: a join or a message has made one thread go on
/// after the other. The second worker then knows that call, so its reply is no older.
pub fn look_after(
    round: &Round,
    first: &mut Worker,
    second: &mut Worker,
    x: u32,
) -> Result<Reply, Refusal>
    requires first { IsOwn round.now first.old }
    requires second { IsOwn round.now second.old }
    ensures { StartsWith second.new.known first.old.known }
{
    let past = round.past(first);
    round.learn(second, past);
    round.look(second, x)
}
