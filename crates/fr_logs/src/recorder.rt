//! Workers that write down the replies that they get.

ghost use Rattle.std.specs.Prelude.{◌≡◌, ◌≤◌, IfOk, IfErr, [], length};
ghost use Rattle.fr_core.specs.History.{part};
ghost use Rattle.fr_core.specs.Replies.{IsAnswerTo};
ghost use Rattle.fr_core.specs.Targets.{node_of};
ghost use Rattle.fr_core.specs.declared.targets.Target.TheVariants.{Turn, Look};
ghost use Rattle.fr_round.specs.Histories.{entry};
ghost use Rattle.fr_round.specs.Knowledge.{IsOwn, KeepsWorker, LearnsPast, LearnsReply, past_of};
ghost use Rattle.fr_logs.specs.Recording.{log_of, IsCallFault, IsRefused, RefusesTarget, Records, HasFollowed};

use crate::faults::CallFault;
use fr_core::{Entry, Reply, Target};
use fr_round::{Past, Refusal, Round, Worker};
use std::alloc::{AllocError, AllocFailed, Global};
use std::marker::Model;

/// A worker with a log, in which it writes down each reply that it gets, in order. Contracts see what the worker knows
/// and how much room the log has: the log is always exactly the worker's own part of the history that it knows.
#[derive(Drop)]
pub struct Recorder {
    worker: Worker,
    log: Vec<Entry>,
}

impl Model for Recorder {
    ghost use Rattle.fr_logs.specs.Recording.{Recording};

    ghost Value = { Recording };

    ghost use Rattle.fr_logs.specs.RecorderInside.{recording_of, IsSoundRecorder};

    ghost view = { recording_of };

    ghost invariant = { IsSoundRecorder };
}

/// The node of a target.
fn node_of_target(target: Target) -> u32
    ensures { result ≡ node_of target }
{
    match target {
        Target::Turn(x) | Target::Look(x) => x,
    }
}

/// The call that a target asks for.
fn make_call_for(round: &Round, worker: &mut Worker, target: Target) -> Result<Reply, Refusal>
    requires { IsOwn round.now worker.old }
    ensures keeps { KeepsWorker worker.old worker.new }
    ensures accepted { IfOk result (λ _. ¬ IsRefused round.now.setup target) }
    ensures answers { IfOk result (λ reply. IsAnswerTo target (node_of target, reply)) }
    ensures learns { IfOk result (λ reply. LearnsReply worker.old (node_of target) reply worker.new) }
    ensures refused { IfErr result (λ why. RefusesTarget round.now.setup target why × (worker.new ≡ worker.old)) }
{
    match target {
        Target::Turn(x) => round.try_turn(worker, x),
        Target::Look(x) => round.look(worker, x),
    }
}

/// The entry of a call that a worker made.
fn entry_of_call(worker: &Worker, node: u32, reply: Reply) -> Entry
    ensures { result ≡ entry worker.now.number node reply }
{
    Entry {
        worker: worker.number(),
        node,
        reply,
    }
}

/// Makes the calls of a plan by a recorder.
fn follow_plan(recorder: &mut Recorder, round: &Round, plan: &[Target])
    requires own { IsOwn round.now recorder.old.worker }
    requires room { length plan.now ≤ recorder.old.room }
    ensures { HasFollowed round.now.setup recorder.old plan.now recorder.new }
{
    for target in plan {
        match recorder.call(round, *target) {
            Ok(_) | Err(CallFault::Refused(_)) => {}
            // There is room for an entry of each target.
            Err(CallFault::Full) => unreachable!(),
        }
    }
}

impl Recorder {
    /// Gives a worker an empty log with room for so many entries. The worker must have made no call yet. Fails if an
    /// allocation is refused, and gives the worker back.
    pub fn new(alloc: Global, worker: Worker, room: usize) -> Result<Recorder, AllocFailed<Worker>>
        requires { part worker.number worker.known ≡ [] }
        ensures made { IfOk result (λ recorder. recorder ≡ record { worker = worker; room = room }) }
        ensures handed_back { IfErr result (λ fault. fault.value ≡ worker) }
    {
        match Vec::with_capacity(alloc, room) {
            Ok(log) => Ok(Recorder { worker, log }),
            Err(_) => Err(AllocFailed { value: worker }),
        }
    }

    /// Its worker.
    pub fn worker(&self) -> &Worker
        ensures { result.now ≡ self.now.worker }
    {
        &self.worker
    }

    /// Its log. `O(1)`.
    pub fn log(&self) -> &[Entry]
        ensures { result.now ≡ log_of self.now }
    {
        &self.log
    }

    /// For how many entries more the log has room. `O(1)`.
    pub fn room(&self) -> usize
        ensures { result ≡ self.now.room }
    {
        self.log.capacity() - self.log.len()
    }

    /// Makes room for so many entries more. Fails if an allocation is refused, and changes nothing then.
    pub fn reserve(&mut self, entries: usize) -> Result<(), AllocError>
        ensures worker { self.new.worker ≡ self.old.worker }
        ensures room { IfOk result (λ _. entries ≤ self.new.room) }
        ensures kept { self.old.room ≤ self.new.room }
        ensures failed { IfErr result (λ _. self.new ≡ self.old) }
    {
        self.log.reserve(entries)
    }

    /// Makes the call that a target asks for, a turn or a look, and writes down the reply.
    ///
    /// The worker must be one of this round. Fails with `Full` if the log has no room, before any step, and with
    /// `Refused` if the round refuses the call. Then nothing has changed, and nothing is written down. The call does
    /// not allocate or wait.
    pub fn call(&mut self, round: &Round, target: Target) -> Result<Reply, CallFault>
        requires { IsOwn round.now self.old.worker }
        // The reply is written down once. The log is exactly the worker's own part of what it knows.
        ensures records { IfOk result (λ reply. Records round.now.setup self.old target reply self.new) }
        // `Full` if the log is full, or what the round refuses.
        ensures fault { IfErr result
            (λ fault. IsCallFault round.now.setup self.old target fault × (self.new ≡ self.old)) }
    {
        if self.room() == 0 {
            return Err(CallFault::Full);
        }
        match make_call_for(round, &mut self.worker, target) {
            Ok(reply) => {
                self.log
                    .push_reserved(entry_of_call(&self.worker, node_of_target(target), reply));
                Ok(reply)
            }
            Err(why) => Err(CallFault::Refused(why)),
        }
    }

    /// Turns node `x` if it is a sink, by [`Round::try_turn`], and writes down the reply. Fails as [`Recorder::call`]
    /// does.
    pub fn try_turn(&mut self, round: &Round, x: u32) -> Result<Reply, CallFault>
        requires { IsOwn round.now self.old.worker }
        ensures records { IfOk result (λ reply. Records round.now.setup self.old (Turn x) reply self.new) }
        ensures fault { IfErr result
            (λ fault. IsCallFault round.now.setup self.old (Turn x) fault × (self.new ≡ self.old)) }
    {
        self.call(round, Target::Turn(x))
    }

    /// Looks where a link of node `x` points, by [`Round::look`], and writes down the reply. Fails as
    /// [`Recorder::call`] does.
    pub fn look(&mut self, round: &Round, x: u32) -> Result<Reply, CallFault>
        requires { IsOwn round.now self.old.worker }
        ensures records { IfOk result (λ reply. Records round.now.setup self.old (Look x) reply self.new) }
        ensures fault { IfErr result
            (λ fault. IsCallFault round.now.setup self.old (Look x) fault × (self.new ≡ self.old)) }
    {
        self.call(round, Target::Look(x))
    }

    /// Makes the calls of a plan, one after the other, and writes down each reply. It skips targets that the round
    /// refuses. The log must have room for as many entries as there are targets.
    pub fn follow(&mut self, round: &Round, plan: &[Target])
        requires own { IsOwn round.now self.old.worker }
        requires room { length plan.now ≤ self.old.room }
        // The log then has the replies in order, and is exactly the worker's own part of what it knows.
        ensures { HasFollowed round.now.setup self.old plan.now self.new }
    {
        follow_plan(self, round, plan);
    }

    /// What its worker knows, to hand to another thread, as by [`Round::past`]. It changes nothing.
    pub fn past(&mut self, round: &Round) -> Past
        requires { IsOwn round.now self.old.worker }
        ensures kept { self.new ≡ self.old }
        ensures past { result ≡ past_of self.old.worker }
    {
        round.past(&mut self.worker)
    }

    /// Its worker learns what another one knew, as by [`Round::learn`]. Nothing is written down.
    pub fn learn(&mut self, round: &Round, past: Past)
        requires worker { IsOwn round.now self.old.worker }
        requires past { past.table ≡ round.now.table }
        ensures learns { LearnsPast self.old.worker past self.new.worker }
        ensures room { self.new.room ≡ self.old.room }
    {
        round.learn(&mut self.worker, past);
    }

    /// Its worker and its log.
    pub fn into_parts(self) -> (Worker, Vec<Entry>)
        ensures worker { result.0 ≡ self.worker }
        ensures log { result.1.items ≡ log_of self }
    {
        let Recorder { worker, log } = self;
        (worker, log)
    }
}
