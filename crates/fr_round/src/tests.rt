ghost use Rattle.std.specs.Prelude.{◌≡◌};
ghost use Rattle.fr_round.specs.Knowledge.{IsOwn};

use crate::{Past, Round, Worker};
use fr_core::Reply;
use fr_graph::Net;
use std::test::Fail;
use std::thread::{Threads, join};

/// Tries to turn node `x`, and returns what the worker knows then.
fn turn(round: &Round, mut worker: Worker, x: u32) -> Past
    requires { IsOwn round.now worker }
    ensures { result.table ≡ round.now.table }
{
    let _reply = round.try_turn(&mut worker, x);
    round.past(&mut worker)
}

/// Looks at node `x` once the worker has learned what another one knew.
fn look_after(round: &Round, mut worker: Worker, past: Past, x: u32) -> Option<Reply>
    requires worker { IsOwn round.now worker }
    requires past { past.table ≡ round.now.table }
{
    round.learn(&mut worker, past);
    round.look(&mut worker, x).ok()
}

/// One thread turns node 1. Another one gets what the first knows then, and looks at node 0 beside a third.
fn look_beside<R: Threads + Sync>(
    rt: &R,
    round: &Round,
    first: Worker,
    second: Worker,
    third: Worker,
) -> (Option<Reply>, Past)
    requires first { IsOwn round.now first }
    requires second { IsOwn round.now second }
    requires third { IsOwn round.now third }
{
    let past = turn(round, first, 1);
    join(
        rt,
        || -> Option<Reply>
            requires worker { IsOwn round.now second }
            requires past { past.table ≡ round.now.table }
        { look_after(round, second, past, 0) },
        || -> Past
            requires { IsOwn round.now third }
        { turn(round, third, 1) },
    )
}

/// A worker in another thread learns that node 1 has turned, and a look tells it the same.
#[test]
fn learns_what_another_worker_did(rt: HostRuntime) -> Result<(), Fail> {
    let net = Net::new(rt.alloc(), 2, &[(0, 1)]).expect(&rt, "a network");
    let (round, mut workers) = Round::open(rt.alloc(), net, 0, 3).expect(&rt, "a round");
    let third = workers.pop().expect(&rt, "a worker");
    let second = workers.pop().expect(&rt, "a worker");
    let first = workers.pop().expect(&rt, "a worker");
    let (reply, _past) = look_beside(&rt, &round, first, second, third);
    assert!(rt; reply == Some(Reply::Sink));
    Ok(())
}
