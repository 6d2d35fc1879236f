//! The calls of fr_logs, on a chain that points away from the destination, node 0.

ghost use Rattle.std.specs.Prelude.{◌≡◌, ◌<◌, ◌≤◌, [], length};
ghost use Rattle.std.specs.List.{AllByRecursion as Each};
ghost use Rattle.fr_core.specs.History.{part};
ghost use Rattle.fr_logs.specs.Logged.{IsOwnRecorder};
ghost use Rattle.fr_round.specs.Knowledge.{IsOwn};

use crate::telling::{Answer, say};
use fr_core::Target;
use fr_logs::{Logged, Recorder, close_logged, run_logged};
use fr_net::Net;
use fr_round::{Round, Worker};
use std::alloc::{AllocError, Global};
use std::thread::Threads;

/// A thread turns the last node, and another one looks at node 1, which node 2 holds.
pub fn logged<R: Threads + Sync + Alloc<A = Global> + Eprint>(
    rt: &R,
    answer: &mut Answer,
    net: Net,
) {
    let Some(plans) = answer.value_or_report(rt, plans(rt.alloc())) else {
        return;
    };
    match run_logged(rt, rt.alloc(), net, 0, &plans) {
        Ok(logged) => put_logged(answer, &logged),
        Err(fault) => answer.lack(rt, fault.why),
    }
}

/// The plans of two threads.
fn plans(alloc: Global) -> Result<Vec<Vec<Target>>, AllocError> {
    let mut plans = Vec::new(alloc);
    for target in [Target::Turn(3), Target::Look(1)] {
        plans.push([target].to_vec(alloc)?)?;
    }
    Ok(plans)
}

/// Appends the counts at the end and the replies in the logs to the answer.
fn put_logged(answer: &mut Answer, logged: &Logged) {
    answer.put(&logged.closed.counts);
    for log in &logged.logs {
        for entry in log {
            answer.put(&entry.reply);
        }
    }
}

/// A worker turns the last node, and sees that the one before it is a sink then.
pub fn recorded<R: Alloc<A = Global> + Print + Eprint>(rt: &R, answer: &mut Answer, net: Net) {
    match Round::open(rt.alloc(), net, 0, 1) {
        Ok((round, mut workers)) => {
            if let Some(worker) = workers.pop() {
                record(rt, answer, round, worker);
            }
        }
        Err(fault) => answer.lack(rt, fault.why),
    }
}

/// Writes both replies down. The log gets room for the second one only after the first.
fn record<R: Alloc<A = Global> + Print + Eprint>(
    rt: &R,
    answer: &mut Answer,
    round: Round,
    worker: Worker,
)
    requires own { IsOwn round worker }
    requires fresh { part worker.number worker.known ≡ [] }
    requires some { 0 < round.setup.workers }
{
    let Ok(mut recorder) = Recorder::new(rt.alloc(), worker, 1) else {
        return answer.lack(rt, AllocError);
    };
    let _ = recorder.try_turn(&round, 3);
    if answer.value_or_report(rt, recorder.reserve(1)).is_some() {
        let _ = recorder.look(&round, 2);
    }
    if let Some(recorders) = answer.value_or_report(rt, Vec::from_array(rt.alloc(), [recorder])) {
        close(rt, answer, round, recorders);
    }
}

/// Closes the round. If that fails for want of memory, the round and the recorder must come back.
fn close<R: Alloc<A = Global> + Print + Eprint>(
    rt: &R,
    answer: &mut Answer,
    round: Round,
    recorders: Vec<Recorder>,
)
    requires own { Each (IsOwnRecorder round) recorders.items }
    requires few { length recorders.items ≤ round.setup.workers }
{
    match close_logged(rt.alloc(), round, recorders) {
        Ok(logged) => put_logged(answer, &logged),
        Err(fault) => {
            if fault.round.net().nodes() != 4 || fault.recorders.len() != 1 {
                say(rt, "another round was handed back");
            }
            answer.lack(rt, AllocError);
        }
    }
}
