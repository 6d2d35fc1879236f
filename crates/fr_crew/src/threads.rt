//! Workers in threads of their own. Only the joining of the threads waits.

ghost use Rattle.std.specs.Prelude.{◌≡◌, ◌≢◌, ◌+◌, ◌<◌, ◌≤◌, IfOk, IfErr, IfSome, vec_len, vec_capacity};
ghost use Rattle.std.specs.List.{AllByRecursion as Each};
ghost use Rattle.fr_round.specs.Knowledge.{IsOwn};
ghost use Rattle.fr_crew.specs.Candidates.{IsCandidate};
ghost use Rattle.fr_crew.specs.Crews.{AreStarted, ComeBack, HasCalled, HasWorked, IsDone, IsNew, IsOwnMember};
ghost use Rattle.fr_crew.specs.Crews.{IsOwnThread, Shift, calls_of, shift};
ghost use Rattle.fr_crew.specs.Gates.{EachBefore};
ghost use Rattle.fr_crew.specs.declared.fault.CrewFault.TheVariants.{Range, Start};

use crate::deques::{Deque, DequePlan, Sharing, Stealer};
use crate::fault::CrewFault;
use crate::gate::Gate;
use crate::members::{Member, Members, deal_first_candidates, deque_room, make_deques};
use crate::naming::Naming;
use crate::plan::Crew;
use crate::resting::Resting;
use crate::shared_nodes::SharedNodes;
use fr_core::Reply;
use fr_round::{Round, Worker};
use std::alloc::{AllocError, Global};
use std::snapshot::Snapshot;
use std::sync::Wait;
use std::thread;
use std::thread::{Promise, PromisedHandle, Scope, Threads};

/// What the threads of a crew share.
#[derive(Drop)]
struct Job<J: Naming> {
    round: Round,
    stealers: Vec<Stealer<J>>,
    shared_nodes: SharedNodes<J>,
    resting: Resting,
    budget: u64,
    ghost some_stealer: { 0 < vec_len stealers },
}

/// A promise of a thread: it returns the worker that it was given, which has made at most `budget` calls, each within the
/// gate.
#[derive(Drop)]
struct GivesBack<G> {
    worker: Snapshot<Worker>,
    gate: Snapshot<G>,
    budget: u64,
}

impl<G: Gate> Promise<Worker> for GivesBack<G> {
    ghost use Rattle.fr_crew.specs.Crews.{HasWorked};

    ghost kept_by = { λ promise worker.
        HasWorked G.passed promise.gate.value promise.budget promise.worker.value worker };
}

type Thread<G> = PromisedHandle<Worker, GivesBack<G>>;

/// The memory that is allocated before the first thread is started.
#[derive(Drop)]
struct Rooms<G: Gate> {
    back: Vec<Worker>,
    threads: Vec<Thread<G>>,
}

/// The threads that were started, and whether these are all.
struct Started<G: Gate> {
    threads: Vec<Thread<G>>,
    all: bool,
}

/// How often a worker without a candidate looks for one, if it finds none and another worker still works. This takes
/// minutes, and is only reached if a call of the gate takes as long.
const LOOKS: u64 = 1_000_000_000;

/// The next candidate of a worker: one of its own, or one stolen from another worker. If another worker has none, this
/// worker shares first.
fn next_candidate<J: Naming>(job: &Job<J>, deque: &mut Deque<J>) -> Option<u32>
    ensures { IfSome result (IsCandidate J.setup) }
{
    if job.resting.is_any() {
        deque.share(&job.shared_nodes);
    }
    match deque.take(&job.shared_nodes) {
        Some(x) => Some(x),
        None => stolen_candidate(job, deque),
    }
}

/// A candidate stolen from another worker. While others work, a worker that finds none looks again, because their calls
/// make candidates. Between two looks it lets other threads run.
fn stolen_candidate<J: Naming>(job: &Job<J>, deque: &mut Deque<J>) -> Option<u32>
    ensures { IfSome result (IsCandidate J.setup) }
{
    for _ in 0..LOOKS {
        if let Some(x) = deque.steal(&job.shared_nodes, &job.stealers) {
            return Some(x);
        }
        if job.resting.rest() {
            return None;
        }
    }
    None
}

/// Makes a worker's call with this number on a candidate, and puts the candidates that follow from the reply.
fn try_candidate<J: Naming, G: Gate>(
    job: &Job<J>,
    gate: &G,
    member: &mut Member<J>,
    call: u64,
    x: u32,
)
    requires named { job.now.round.setup ≡ J.setup }
    requires own { IsOwn job.now.round member.old.worker }
    requires candidate { IsCandidate J.setup x }
    requires call { call ≡ calls_of member.old.worker + 1 }
    requires in_order { EachBefore call (G.passed gate.now member.old.worker.number) }
    ensures { HasCalled G.passed gate.now call member.old.worker member.new.worker }
{
    let Member { worker, deque } = member;
    let number = worker.number();
    gate.before(number, call);
    let reply = job.round.try_turn(worker, x);
    gate.after(number, call);
    match reply {
        Ok(Reply::Turned { .. }) => deque.put_neighbours(&job.shared_nodes, &job.round, x),
        Ok(Reply::Moved { .. }) => deque.put(&job.shared_nodes, x),
        // The worker that turns the neighbour that held the node will make the node a candidate again.
        Ok(Reply::Held { .. }) | Ok(Reply::Cut) => {}
        // No candidate is refused.
        Err(_) => unreachable!(),
        // Only a look has this reply.
        Ok(Reply::Sink) => unreachable!(),
    }
}

/// The work of one worker: it takes candidates and tries to turn them, until there is none or its budget is spent.
fn run_worker<J: Naming, G: Gate>(job: &Job<J>, gate: &G, mut member: Member<J>) -> Worker
    requires named { job.now.round.setup ≡ J.setup }
    requires new { IsNew job.now.round member.worker }
    ensures { HasWorked G.passed gate.now job.now.budget member.worker result }
{
    job.resting.begin();
    for made in 0..job.budget {
        // The candidate is taken out before the call. So if a neighbour turns during the call, the node becomes a
        // candidate again.
        let Some(x) = next_candidate(job, &mut member.deque) else {
            break;
        };
        try_candidate(job, gate, &mut member, made + 1, x);
    }
    job.resting.end();
    member.worker
}

/// Starts a thread for each member. It stops at the first thread that cannot be started.
fn start_each<'s, 'e, J: Naming + Send + Sync, G: Gate + Sync>(
    scope: &'s Scope<'s, &'e ()>,
    job: &'e Job<J>,
    gate: &'e G,
    mut threads: Vec<Thread<G>>,
    members: Vec<Member<J>>,
) -> Started<G>
    requires named { job.now.round.setup ≡ J.setup }
    requires own { Each (IsOwnMember job.now.round) members.items }
    requires room { (vec_len threads ≡ 0) × (vec_len members ≤ vec_capacity threads) }
    ensures { AreStarted (shift job.now.round job.now.budget gate.now) (vec_len members) result }
{
    for member in members {
        let promise = GivesBack {
            worker: Snapshot::of(&member.worker),
            gate: Snapshot::of(gate),
            budget: job.budget,
        };
        match scope.spawn_with(promise, move || run_worker(job, gate, member)) {
            Ok(thread) => threads.push_reserved(thread),
            Err(_) => return Started {
                threads,
                all: false,
            },
        }
    }
    Started { threads, all: true }
}

/// Joins the threads in order, and takes their workers back.
fn join_each<R: Threads, G: Gate>(
    rt: &R,
    threads: Vec<Thread<G>>,
    mut workers: Vec<Worker>,
) -> Vec<Worker>
    requires { (vec_len workers ≡ 0) × (vec_len threads ≤ vec_capacity workers) }
    ensures done { (s : Shift G) → Each (IsOwnThread s) threads.items → Each (IsDone G.passed s) result.items }
    ensures len { vec_len result ≡ vec_len threads }
    ensures room { vec_capacity result ≡ vec_capacity workers }
{
    for thread in threads {
        workers.push_reserved(thread.join(rt));
    }
    workers
}

/// Memory for so many workers that come back, and for their threads.
fn make_room<G: Gate>(alloc: Global, members: usize) -> Result<Rooms<G>, AllocError>
    ensures back { IfOk result (λ rooms. (vec_len rooms.back ≡ 0) × (members ≤ vec_capacity rooms.back)) }
    ensures threads { IfOk result (λ rooms. (vec_len rooms.threads ≡ 0) × (members ≤ vec_capacity rooms.threads)) }
{
    Ok(Rooms {
        back: Vec::with_capacity(alloc, members)?,
        threads: Vec::with_capacity(alloc, members)?,
    })
}

/// Starts the threads, works, and joins the threads. All memory is allocated before the first thread is started. The
/// last member works on the calling thread, which would otherwise only wait for the others. If a thread cannot be
/// started, those that were started are joined, and the last member does nothing.
fn run_each<'s, 'e, J: Naming + Send + Sync, R: Threads, G: Gate + Sync>(
    scope: &'s Scope<'s, &'e ()>,
    crew: &'e Crew<'e, R, G>,
    job: &'e Job<J>,
    members: Vec<Member<J>>,
) -> Result<Vec<Worker>, CrewFault>
    requires named { job.now.round.setup ≡ J.setup }
    requires own { Each (IsOwnMember job.now.round) members.items }
    ensures done { IfOk result (λ back.
        Each (IsDone G.passed (shift job.now.round job.now.budget crew.now.gate.now)) back.items) }
    ensures len { IfOk result (λ back. vec_len back ≡ vec_len members) }
    ensures fault { IfErr result (λ fault. fault ≢ Range) }
    ensures no_start { vec_len members ≡ 1 → IfErr result (λ fault. fault ≢ Start) }
{
    let rooms = make_room(crew.alloc, members.len())?;
    run_each_in_rooms(scope, crew, job, members, rooms)
}

/// Starts the threads, works, and joins the threads as [`run_each`] does, in memory that was allocated before.
fn run_each_in_rooms<'s, 'e, J: Naming + Send + Sync, R: Threads, G: Gate + Sync>(
    scope: &'s Scope<'s, &'e ()>,
    crew: &'e Crew<'e, R, G>,
    job: &'e Job<J>,
    mut members: Vec<Member<J>>,
    rooms: Rooms<G>,
) -> Result<Vec<Worker>, CrewFault>
    requires own { (job.now.round.setup ≡ J.setup) × Each (IsOwnMember job.now.round) members.items }
    requires room { (vec_len rooms.back ≡ 0) × (vec_len members ≤ vec_capacity rooms.back)
        × (vec_len rooms.threads ≡ 0) × (vec_len members ≤ vec_capacity rooms.threads) }
    ensures done { IfOk result (λ back.
        Each (IsDone G.passed (shift job.now.round job.now.budget crew.now.gate.now)) back.items) }
    ensures len { IfOk result (λ back. vec_len back ≡ vec_len members) }
    ensures fault { IfErr result (λ fault. fault ≡ Start) }
    ensures no_start { vec_len members ≡ 1 → IfErr result (λ fault. fault ≢ Start) }
{
    let Rooms { back, threads } = rooms;
    let Some(last) = members.pop() else {
        return Ok(back);
    };
    let Started { threads, all } = start_each(scope, job, crew.gate, threads, members);
    if !all {
        join_each(crew.rt, threads, back);
        return Err(CrewFault::Start);
    }
    let last = run_worker(job, crew.gate, last);
    let mut back = join_each(crew.rt, threads, back);
    back.push_reserved(last);
    Ok(back)
}

/// Starts the threads in a scope, which ends when all of them have ended.
fn run_threads<J: Naming + Send + Sync, R: Threads + Wait, G: Gate + Sync>(
    crew: &Crew<'_, R, G>,
    job: &Job<J>,
    members: Vec<Member<J>>,
) -> Result<Vec<Worker>, CrewFault>
    requires named { job.now.round.setup ≡ J.setup }
    requires own { Each (IsOwnMember job.now.round) members.items }
    ensures done { IfOk result (λ back.
        Each (IsDone G.passed (shift job.now.round job.now.budget crew.now.gate.now)) back.items) }
    ensures len { IfOk result (λ back. vec_len back ≡ vec_len members) }
    ensures fault { IfErr result (λ fault. fault ≢ Range) }
    ensures no_start { vec_len members ≡ 1 → IfErr result (λ fault. fault ≢ Start) }
{
    thread::scope(
        thread::scope_env(),
        crew.rt,
        |scope| -> Result<Vec<Worker>, CrewFault>
            requires { (job.now.round.setup ≡ J.setup) × Each (IsOwnMember job.now.round) members.items }
            ensures done { IfOk result (λ back. Each
                (IsDone G.passed (shift job.entry.now.round job.entry.now.budget crew.entry.now.gate.now)) back.items) }
            ensures len { IfOk result (λ back. vec_len back ≡ vec_len members) }
            ensures fault { IfErr result (λ fault. fault ≢ Range) }
            ensures no_start { vec_len members ≡ 1 → IfErr result (λ fault. fault ≢ Start) }
        { run_each(scope, crew, job, members) },
    )
}

/// The members of a crew, who were dealt their first candidates.
fn members_with_candidates<J: Naming, R: Threads, G: Gate>(
    crew: &Crew<'_, R, G>,
    round: &Round,
    shared_nodes: &SharedNodes<J>,
    workers: Vec<Worker>,
    from: Option<&[u32]>,
) -> Result<Members<J>, AllocError>
    requires named { round.now.setup ≡ J.setup }
    requires own { Each (IsNew round.now) workers.items }
    requires some { 0 < vec_len workers }
    ensures own { IfOk result (λ all. Each (IsOwnMember round.now) all.members.items) }
    ensures members { IfOk result (λ all. vec_len all.members ≡ vec_len workers) }
    ensures stealers { IfOk result (λ all. vec_len all.stealers ≡ vec_len workers) }
{
    let plan = DequePlan {
        room: deque_room(round, from, workers.len()),
        seed: crew.plan.seed(),
        sharing: Sharing::of(workers.len(), crew.gate.may_wait()),
    };
    let mut all = make_deques::<J>(crew.alloc, round, workers, plan)?;
    deal_first_candidates(round, shared_nodes, &mut all.members, from);
    Ok(all)
}

/// The job of these workers, and the members of the crew, who were dealt their first candidates.
fn make_job<J: Naming, R: Threads, G: Gate>(
    crew: &Crew<'_, R, G>,
    round: Round,
    workers: Vec<Worker>,
    from: Option<&[u32]>,
) -> Result<(Job<J>, Vec<Member<J>>), AllocError>
    requires named { round.setup ≡ J.setup }
    requires own { Each (IsNew round) workers.items }
    requires some { 0 < vec_len workers }
    ensures round { IfOk result (λ made. (made.0.round ≡ round) × (made.0.budget ≡ crew.now.plan.now.budget)) }
    ensures own { IfOk result (λ made. Each (IsOwnMember round) made.1.items) }
    ensures len { IfOk result (λ made. vec_len made.1 ≡ vec_len workers) }
{
    let shared_nodes = SharedNodes::none(crew.alloc, &round)?;
    let resting = Resting::all_of(workers.len());
    let Members { members, stealers } = members_with_candidates(
        crew,
        &round,
        &shared_nodes,
        workers,
        from,
    )?;
    let job = Job {
        round,
        stealers,
        shared_nodes,
        resting,
        budget: crew.plan.budget(),
    };
    Ok((job, members))
}

/// Lets all workers work at the same time, each in a thread of its own, except the last one, which uses the calling
/// thread. Returns them in their order, with their round. At first they are dealt the nodes of `from`, or all nodes if
/// there is no `from`. Their deques have room for all dealt nodes before the first thread is started. If a thread
/// cannot be started, those that were started are joined first, and the last worker does nothing.
pub(crate) fn run_crew<J: Naming + Send + Sync, R: Threads + Wait, G: Gate + Sync>(
    crew: &Crew<'_, R, G>,
    round: Round,
    workers: Vec<Worker>,
    from: Option<&[u32]>,
) -> Result<(Round, Vec<Worker>), CrewFault>
    requires named { round.setup ≡ J.setup }
    requires own { Each (IsNew round) workers.items }
    requires some { 0 < vec_len workers }
    ensures back { IfOk result
        (ComeBack G.passed (shift round crew.now.plan.now.budget crew.now.gate.now) (vec_len workers)) }
    ensures fault { IfErr result (λ fault. fault ≢ Range) }
    ensures no_start { vec_len workers ≡ 1 → IfErr result (λ fault. fault ≢ Start) }
{
    let (job, members) = make_job::<J, R, G>(crew, round, workers, from)?;
    let workers = run_threads(crew, &job, members)?;
    let Job { round, .. } = job;
    Ok((round, workers))
}
