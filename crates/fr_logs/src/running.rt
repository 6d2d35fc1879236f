//! Threads that follow plans and write down the replies that they get.

ghost use Rattle.std.specs.Prelude.{◌≡◌, ◌≤◌, IfOk, IfErr, length};
ghost use Rattle.fr_core.specs.Targets.{lists_of};
ghost use Rattle.fr_round.specs.Knowledge.{IsOwn, IsWhyNotOpened, new_workers};
ghost use Rattle.fr_round.specs.declared.faults.OpenWhy.TheVariants.{Memory};
ghost use Rattle.fr_logs.specs.Logged.{IsOwnRecorder};
ghost use Rattle.fr_logs.specs.Recording.{HasFollowed};
ghost use Rattle.fr_logs.specs.Runs.{IsRunOfPlans};
ghost use Rattle.fr_logs.specs.Jobs.{AreJobs, AreDone, IsOfRound};

use crate::closing::{Logged, close_logged};
use crate::faults::RunFault;
use crate::recorder::Recorder;
use fr_core::{MAX_WORKERS, Target};
use fr_graph::Net;
use fr_round::{OpenWhy, Round, Worker};
use std::alloc::{AllocError, Global};
use std::thread;
use std::thread::Threads;

/// What a thread is given: a recorder, and the plan that it follows.
#[derive(Drop)]
struct Job<'p> {
    recorder: Recorder,
    plan: &'p [Target],
}

/// A job for each worker, with the plan of its number.
fn make_jobs<'p>(
    alloc: Global,
    round: &Round,
    workers: Vec<Worker>,
    plans: &'p [Vec<Target>],
) -> Result<Vec<Job<'p>>, AllocError>
    requires { workers.items ≡ new_workers round.now.table round.now.setup (length plans.now) }
    ensures { IfOk result (λ jobs. AreJobs round.now (lists_of plans.now) jobs.items) }
{
    let mut jobs = Vec::with_capacity(alloc, plans.len())?;
    for worker in workers {
        let plan = plans[jobs.len()].as_slice();
        let recorder = Recorder::new(alloc, worker, plan.len())?;
        jobs.push_reserved(Job { recorder, plan });
    }
    Ok(jobs)
}

/// Follows the plan of a job, and returns the recorder.
fn follow_job(round: &Round, job: Job<'_>) -> Recorder
    requires own { IsOwnRecorder round.now job.recorder }
    requires room { length job.plan.now ≤ job.recorder.room }
    ensures { HasFollowed round.now.setup job.entry.recorder job.entry.plan.now result }
{
    let Job { mut recorder, plan } = job;
    recorder.follow(round, plan);
    recorder
}

/// Does each job in a thread of its own, where one can be made, and returns the recorders in their order.
fn follow_each<R: Threads + Sync>(
    rt: &R,
    round: &Round,
    jobs: Vec<Job<'_>>,
    plans: &[Vec<Target>],
) -> Result<Vec<Recorder>, AllocError>
    requires { AreJobs round.now (lists_of plans.now) jobs.items }
    ensures { IfOk result (λ recorders. AreDone round.now (lists_of plans.now) recorders.items) }
{
    thread::map_vec(
        rt,
        jobs,
        &|job: Job<'_>| -> Recorder
            requires own { IsOwnRecorder round.now job.recorder }
            requires room { length job.plan.now ≤ job.recorder.room }
            ensures { HasFollowed round.entry.now.setup job.entry.recorder job.entry.plan.now result }
        { follow_job(round, job) },
    )
}

/// Has threads follow the plans, each with a worker of its own.
fn follow_all<R: Threads + Sync>(
    rt: &R,
    alloc: Global,
    round: &Round,
    workers: Vec<Worker>,
    plans: &[Vec<Target>],
) -> Result<Vec<Recorder>, AllocError>
    requires { workers.items ≡ new_workers round.now.table round.now.setup (length plans.now) }
    ensures { IfOk result (λ recorders. AreDone round.now (lists_of plans.now) recorders.items) }
{
    let jobs = make_jobs(alloc, round, workers, plans)?;
    follow_each(rt, round, jobs, plans)
}

/// Gives a run up for want of memory, and takes the network back.
fn abandon_run(alloc: Global, round: Round) -> RunFault
    ensures net { (result.net.nodes ≡ round.setup.nodes) × (result.net.links ≡ round.setup.links) }
    ensures why { result.why ≡ Memory }
{
    RunFault {
        net: round.close(Vec::new(alloc)).net,
        why: OpenWhy::Memory,
    }
}

/// Closes the round with the logs of these recorders, whose plans they followed.
fn close_run(
    alloc: Global,
    round: Round,
    recorders: Vec<Recorder>,
    plans: &[Vec<Target>],
) -> Result<Logged, RunFault>
    requires done { AreDone round (lists_of plans.now) recorders.items }
    requires workers { round.setup.workers ≡ length plans.now }
    ensures net { IfOk result (λ logged. IsOfRound round logged.closed.net) }
    ensures run { IfOk result (IsRunOfPlans round.setup (lists_of plans.now)) }
    ensures fault { IfErr result (λ fault. IsOfRound round fault.net × (fault.why ≡ Memory)) }
{
    match close_logged(alloc, round, recorders) {
        Ok(logged) => Ok(logged),
        Err(fault) => Err(abandon_run(alloc, fault.round)),
    }
}

/// Opens a round, has a thread follow each plan, and closes the round with the logs. A plan is a list of turns and
/// looks. A thread makes the calls of its plan one after the other, passes over targets that the round refuses, and
/// writes down each reply. Worker k follows plan k, and log k is its log. If no thread can be made, the calling thread
/// follows plans one after the other.
///
/// Fails with `Range` if the destination is no node of the network, or if there is no plan or more than
/// [`MAX_WORKERS`], and else with `Memory` if an allocation is refused; the fault hands the network back. It waits for
/// its own threads alone. `O(m + k n)` beside the calls.
pub fn run_logged<R: Threads + Sync>(
    rt: &R,
    alloc: Global,
    net: Net,
    dest: u32,
    plans: &[Vec<Target>],
) -> Result<Logged, RunFault>
    ensures net { IfOk result (λ logged. logged.closed.net ≡ net) }
    // Each log answers its plan, and together the logs are one run, which has no other entry.
    ensures run { IfOk result (IsRunOfPlans (record {
      nodes = net.nodes;
      dest = dest;
      links = net.links;
      workers = length plans.now;
    }) (lists_of plans.now)) }
    // A refusal returns the network.
    ensures handed_back { IfErr result (λ fault. fault.net ≡ net) }
    // `Range` exactly if the destination is not a node, or if there is no plan or too many plans.
    ensures why { IfErr result (λ fault. IsWhyNotOpened net.nodes dest (length plans.now) fault.why) }
{
    if plans.len() > MAX_WORKERS as usize {
        return Err(RunFault {
            net,
            why: OpenWhy::Range,
        });
    }
    let (round, workers) = Round::open(alloc, net, dest, plans.len() as u32)?;
    match follow_all(rt, alloc, &round, workers, plans) {
        Ok(recorders) => close_run(alloc, round, recorders, plans),
        Err(_) => Err(abandon_run(alloc, round)),
    }
}
