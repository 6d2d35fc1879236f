//! Logs of threads, which have to be one run.

ghost use Rattle.std.specs.Prelude.{◌≤◌, IfOk, vec_len};
ghost use Rattle.std.specs.List.{AllByRecursion as Each};
ghost use Rattle.fr_round.specs.Knowledge.{IsOwn};
ghost use Rattle.fr_round.specs.Opening.{KnowsNothing};
ghost use Rattle.fr_logs.specs.Logged.{IsOwnRecorder};

use crate::answers::Answer;
use crate::drawn::{Draws, network, plans};
use crate::fault::Fault;
use crate::log_checks::{Altered, log_with, put_checks};
use crate::merging::Seen;
use crate::rounds::opened;
use crate::values::{number, small_number};
use fr_core::{Entry, Reply, Target};
use fr_logs::{Logged, Recorder, close_logged, run_logged};
use fr_net::Net;
use fr_round::{Round, Worker};
use serde_json::Value;
use std::alloc::{AllocError, Global};
use std::thread;
use std::thread::Threads;

/// A recorder, and for each entry of its log the counts of the node and of the neighbour that held it, as the worker
/// had seen them then.
#[derive(Drop)]
struct Noted {
    recorder: Recorder,
    counts: Vec<(u64, u64)>,
}

/// What a thread is given.
#[derive(Drop)]
struct Job<'p> {
    noted: Noted,
    plan: &'p [Target],
}

/// The count of a node that the worker has seen.
fn seen_count(round: &Round, worker: &Worker, x: u32) -> u64
    requires { IsOwn round.now worker.now }
{
    if x < round.net().nodes() {
        worker.seen(x)
    } else {
        0
    }
}

/// Makes a call, and answers which counts of its node and of the neighbour that held it the worker has seen after it.
fn call(round: &Round, recorder: &mut Recorder, target: Target) -> Option<(u64, u64)>
    requires { IsOwnRecorder round.now recorder.old }
    ensures { IsOwnRecorder round.now recorder.new }
{
    let Ok(reply) = recorder.call(round, target) else {
        return None;
    };
    let (Target::Turn(x) | Target::Look(x)) = target;
    let other = match reply {
        Reply::Held { by } => seen_count(round, recorder.worker(), by),
        _ => 0,
    };
    Some((seen_count(round, recorder.worker(), x), other))
}

/// Follows a plan, and notes the counts after each call.
fn follow(round: &Round, noted: &mut Noted, plan: &[Target]) -> Result<(), AllocError>
    requires { IsOwnRecorder round.now noted.old.recorder }
    ensures { IsOwnRecorder round.now noted.new.recorder }
{
    for target in plan {
        if let Some(seen) = call(round, &mut noted.recorder, *target) {
            noted.counts.push(seen)?;
        }
    }
    Ok(())
}

/// What a thread does. If it finds no memory, it has noted too little.
fn do_job(round: &Round, job: Job<'_>) -> Noted
    requires { IsOwnRecorder round.now job.noted.recorder }
    ensures { IsOwnRecorder round.now result.recorder }
{
    let Job { mut noted, plan } = job;
    let _ = follow(round, &mut noted, plan);
    noted
}

fn make_jobs<'p>(
    alloc: Global,
    round: &Round,
    workers: Vec<Worker>,
    plans: &'p [Vec<Target>],
) -> Result<Vec<Job<'p>>, AllocError>
    requires own { Each (IsOwn round.now) workers.items }
    requires fresh { Each (KnowsNothing round.now.setup) workers.items }
    ensures own { IfOk result (λ jobs. Each (λ job. IsOwnRecorder round.now job.noted.recorder) jobs.items) }
    ensures few { IfOk result (λ jobs. vec_len jobs ≤ vec_len workers) }
{
    let mut jobs = Vec::new(alloc);
    for worker in workers {
        let Some(plan) = plans.get(jobs.len()) else {
            break;
        };
        let noted = Noted {
            recorder: Recorder::new(alloc, worker, plan.len())?,
            counts: Vec::new(alloc),
        };
        jobs.push(Job {
            noted,
            plan: plan.as_slice(),
        })?;
    }
    Ok(jobs)
}

/// Each job in a thread of its own.
fn do_each<R: Threads + Sync>(
    rt: &R,
    round: &Round,
    jobs: Vec<Job<'_>>,
) -> Result<Vec<Noted>, AllocError>
    requires { Each (λ job. IsOwnRecorder round.now job.noted.recorder) jobs.items }
    ensures own { IfOk result (λ all. Each (λ noted. IsOwnRecorder round.now noted.recorder) all.items) }
    ensures few { IfOk result (λ all. vec_len all ≤ vec_len jobs.entry) }
{
    thread::map_vec(
        rt,
        jobs,
        &|job: Job<'_>| -> Noted
            requires { IsOwnRecorder round.now job.noted.recorder }
            ensures { IsOwnRecorder round.entry.now result.recorder }
        { do_job(round, job) },
    )
}

/// What comes back of a round: what it closed with, and what was noted beside each log.
struct Ended {
    logged: Logged,
    counts: Vec<Vec<(u64, u64)>>,
}

/// Ends a round with the logs.
fn close(alloc: Global, round: Round, all: Vec<Noted>) -> Result<Ended, Fault>
    requires own { Each (λ noted. IsOwnRecorder round noted.recorder) all.items }
    requires few { vec_len all ≤ round.setup.workers }
{
    let mut recorders = Vec::new(alloc);
    let mut counts = Vec::new(alloc);
    for noted in all {
        recorders.push(noted.recorder)?;
        counts.push(noted.counts)?;
    }
    match close_logged(alloc, round, recorders) {
        Ok(logged) => Ok(Ended { logged, counts }),
        Err(_) => Err(Fault::Memory),
    }
}

/// Has threads follow the plans, with destination 0.
fn noted_run<R: Threads + Sync>(
    rt: &R,
    alloc: Global,
    net: Net,
    plans: &[Vec<Target>],
) -> Result<Ended, Fault> {
    let Ok(count) = u32::try_from(plans.len()) else {
        return Err(Fault::NoCase);
    };
    let (round, workers) = opened(alloc, net, 0, count)?;
    let jobs = make_jobs(alloc, &round, workers, plans)?;
    let all = do_each(rt, &round, jobs)?;
    close(alloc, round, all)
}

/// What a case draws: a network, and a plan for each worker.
struct Drawn {
    net: Net,
    plans: Vec<Vec<Target>>,
}

fn draw(alloc: Global, asked: &[Value]) -> Result<Drawn, Fault> {
    let [nodes, seed, workers, calls] = asked else {
        return Err(Fault::NoCase);
    };
    let nodes = small_number(nodes)?;
    let mut draws = Draws::from(number(seed)?);
    let net = network(alloc, &mut draws, nodes)?;
    let plans = plans(
        alloc,
        &mut draws,
        nodes,
        small_number(workers)?,
        small_number(calls)?,
    )?;
    Ok(Drawn { net, plans })
}

/// `["logs", nodes, seed, workers, calls]`: threads follow drawn plans. Whether their logs, merged by counts alone,
/// are a run to the counts at the end, and whether a checker of runs finds what is exchanged or altered in a log.
pub fn logs<R: Threads + Sync + Alloc<A = Global>>(
    rt: &R,
    text: &mut Answer,
    asked: &[Value],
) -> Result<(), Fault> {
    let alloc = rt.alloc();
    let Drawn { net, plans } = draw(alloc, asked)?;
    let Ended { logged, counts } = noted_run(rt, alloc, net, &plans)?;
    let mut logs = Vec::new(alloc);
    for (log, counts) in logged.logs.iter().zip(counts.iter()) {
        logs.push(log_with(alloc, log, counts)?)?;
    }
    put_checks(
        alloc,
        text,
        &logged.closed,
        &mut logs,
        &[Altered::Turn, Altered::Held],
    )
}

/// Whether each log has an entry for each target of its plan that is not refused: all but turns of node 0.
fn are_answered(plans: &[Vec<Target>], logs: &[Vec<Entry>]) -> bool {
    for (plan, log) in plans.iter().zip(logs.iter()) {
        let answered = plan
            .iter()
            .filter(|target| **target != Target::Turn(0))
            .count();
        if log.len() != answered {
            return false;
        }
    }
    plans.len() == logs.len()
}

/// The entries of a log that say how often their node has turned: all but those of nodes that are held, and of sinks.
fn counting(alloc: Global, log: &[Entry]) -> Result<Vec<Seen>, AllocError> {
    let mut counting = Vec::new(alloc);
    for entry in log {
        match entry.reply {
            Reply::Held { .. } | Reply::Sink => {}
            _ => counting.push(Seen {
                entry: *entry,
                own: 0,
                other: 0,
            })?,
        }
    }
    Ok(counting)
}

/// `["plans", nodes, seed, workers, calls]`: the same of the whole program of `fr_logs`, and whether each log answers
/// its plan. What it returns does not say which counts a node that is held had seen, so these entries and those of
/// sinks, which turn nothing, are left out.
pub fn plans_followed<R: Threads + Sync + Alloc<A = Global>>(
    rt: &R,
    text: &mut Answer,
    asked: &[Value],
) -> Result<(), Fault> {
    let alloc = rt.alloc();
    let Drawn { net, plans } = draw(alloc, asked)?;
    let Ok(logged) = run_logged(rt, alloc, net, 0, &plans) else {
        return Err(Fault::Memory);
    };
    let mut logs = Vec::new(alloc);
    for log in &logged.logs {
        logs.push(counting(alloc, log)?)?;
    }
    text.put("answered ", &are_answered(&plans, &logged.logs));
    text.say(", ");
    put_checks(alloc, text, &logged.closed, &mut logs, &[Altered::Turn])
}
