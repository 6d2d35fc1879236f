//! An open round, which threads share by reference: opening it, the calls of its workers, and closing it.

ghost use Rattle.std.specs.Prelude.{◌≡◌, ◌≤◌, IfOk, IfErr, length};
ghost use Rattle.std.specs.List.{AllByRecursion as Each};
ghost use Rattle.fr_core.specs.Replies.{IsReplyToTurn, IsReplyToLook};
ghost use Rattle.fr_core.specs.Targets.{IsTurnable, IsLookable};
ghost use Rattle.fr_round.specs.Knowledge.{IsOwn, IsOpenable, IsWhyNotOpened};
ghost use Rattle.fr_round.specs.Knowledge.{KeepsWorker, LearnsPast, LearnsReply, Refuses};
ghost use Rattle.fr_round.specs.Knowledge.{RefusesLook, new_workers, past_of};
ghost use Rattle.fr_round.specs.Closing.{Closes};
ghost use Rattle.fr_round.specs.Opening.{HasNotBegun};

use crate::closing::{Closed, read_counts, take_back_workers};
use crate::faults::{OpenFault, OpenWhy, Refusal};
use crate::opening::{Prepared, prepare_round};
use crate::past::Past;
use crate::round_setup::RoundSetup;
use crate::rule::BeginClosing;
use crate::words::Words;
use crate::worker::Worker;
use fr_core::{MAX_WORKERS, Reply};
use fr_graph::Net;
use std::alloc::Global;
use std::marker::Model;

/// An open round: one atomic word for each node, which counts its turns. Threads share it by reference, and each thread
/// turns nodes with a worker of its own.
#[derive(Drop)]
pub struct Round {
    words: Words,
    // Memory that `close` needs.
    counts: Vec<u64>,
    turned: Vec<(u32, u64)>,
}

impl Model for Round {
    ghost use Rattle.fr_round.specs.Knowledge.{OpenRound};

    ghost Value = { OpenRound };

    ghost use Rattle.fr_round.specs.RoundInside.{open_round_of, IsSoundRound};

    ghost view = { open_round_of };

    ghost invariant = { IsSoundRound };
}

impl Round {
    /// Opens a round on a network, and returns it with its workers, whose numbers are 0, 1 and so on. The list of calls
    /// is empty, all counts are 0, and no worker knows a call or has seen a turn.
    ///
    /// The clause `not_begun` describes the state that the rule allows before the first call. It does not read the words
    /// in memory, because the call that makes the table of words has no clause for them. That call requires that the
    /// rule allows its words, and by `only` of [`round_law`](crate::round_law) the rule allows none but 0.
    ///
    /// Fails with `Range` if the destination is not a node of the network, or if `workers` is not 1 to [`MAX_WORKERS`];
    /// and with `Memory` if an allocation is refused. The fault gives the network back. The round allocates all its
    /// memory here. O(m + k n) for k workers.
    pub fn open(
        alloc: Global,
        net: Net,
        dest: u32,
        workers: u32,
    ) -> Result<(Round, Vec<Worker>), OpenFault>
        // Only if the destination is a node and there are 1 to `MAX_WORKERS` workers.
        ensures openable { IfOk result (λ _. IsOpenable net.nodes dest workers) }
        ensures setup { IfOk result
            (λ r. r.0.setup ≡ record { nodes = net.nodes; dest = dest; links = net.links; workers = workers }) }
        // The workers are numbered from 0.
        ensures workers { IfOk result (λ r. r.1.items ≡ new_workers r.0.table r.0.setup workers) }
        // They have made no call.
        ensures not_begun { IfOk result (λ r. HasNotBegun r.0 r.1.items) }
        // A refusal returns the network.
        ensures handed_back { IfErr result (λ fault. fault.net ≡ net) }
        ensures why { IfErr result (λ fault. IsWhyNotOpened net.nodes dest workers fault.why) }
    {
        if dest >= net.nodes() || workers == 0 || workers > MAX_WORKERS {
            return Err(OpenFault {
                net,
                why: OpenWhy::Range,
            });
        }
        let round_setup = RoundSetup { net, dest, workers };
        match prepare_round(alloc, &round_setup) {
            Ok(
                Prepared {
                    table,
                    workers,
                    counts,
                    turned,
                },
            ) => {
                let round = Round {
                    words: Words { round_setup, table },
                    counts,
                    turned,
                };
                Ok((round, workers))
            }
            Err(_) => Err(OpenFault {
                net: round_setup.into_network(),
                why: OpenWhy::Memory,
            }),
        }
    }

    /// The number of workers with which the round was opened. It takes no step, and does not allocate. O(1).
    pub fn workers(&self) -> u32
        ensures { result ≡ self.now.setup.workers }
    {
        self.words.round_setup.workers
    }

    /// The network, with its first links. It takes no step, and does not allocate. O(1).
    pub fn net(&self) -> &Net
        ensures nodes { result.now.nodes ≡ self.now.setup.nodes }
        ensures links { result.now.links ≡ self.now.setup.links }
    {
        &self.words.round_setup.net
    }

    /// The destination. It takes no step, and does not allocate. O(1).
    pub fn dest(&self) -> u32
        ensures { result ≡ self.now.setup.dest }
    {
        self.words.round_setup.dest
    }

    /// Turns node `x` if it is a sink: full reversal (E. Gafni and D. Bertsekas, 1981), by single atomic loads and one
    /// exchange. It does not allocate or wait, whatever other threads do or do not do.
    ///
    /// The worker must be one of this round. A call is refused with `NoNode`, `Destination` or `Alone`, tested in this
    /// order, if `x` is not a node, is the destination, or has no link. A refused call takes no step and changes
    /// nothing. Every other call is decided:
    ///
    /// - `Turned`: the call turned the node.
    /// - `Held`: a link points to this neighbour.
    /// - `Moved`: another worker has turned the node since this one saw its count, which may have been before the call.
    /// - `Cut`: the node has turned as often as there are nodes.
    ///
    /// Full reversal on one thread gives the same reply after a history that extends what the worker knew. This
    /// history, with the reply, is what the worker knows afterwards. The call makes at most d + 1 loads and an
    /// exchange, and goes through the row of each node whose seen count rises: O(d²).
    pub fn try_turn(&self, worker: &mut Worker, x: u32) -> Result<Reply, Refusal>
        requires { IsOwn self.now worker.old }
        // Counts that the worker has seen never fall, and never exceed the turns that it knows of.
        ensures keeps { KeepsWorker worker.old worker.new }
        // Only for a node with links that is not the destination. The call takes no lock and no memory, and waits for
        // nobody.
        ensures decided { IfOk result
            (λ _. IsTurnable self.now.setup.nodes self.now.setup.dest self.now.setup.links x) }
        // A number that is not a node, a node without links, or the destination. Every other call is decided.
        ensures refused { IfErr result (λ refusal. Refuses self.now.setup x refusal × (worker.new ≡ worker.old)) }
        ensures kind { IfOk result IsReplyToTurn }
        // The worker then knows a run that continues what it knew, and ends with this call.
        ensures learns { IfOk result (λ reply. LearnsReply worker.old x reply worker.new) }
    {
        self.words.round_setup.check_turn(x)?;
        Ok(worker.turn(&self.words, x))
    }

    /// Looks whether a link points away from node `x`, and turns nothing: it only loads counts. It does not allocate or
    /// wait, whatever other threads do or do not do.
    ///
    /// The worker must be one of this round. A look is refused with `NoNode` or `Alone`, tested in this order, if `x`
    /// is not a node or has no link. A refused look takes no step and changes nothing. The destination can be looked at
    /// like any other node, and so can a node that has reached the cap. Every other look is decided:
    ///
    /// - `Held`: a link points to this neighbour.
    /// - `Sink`: all links point to the node.
    /// - `Moved`: another worker turned the node between the two loads of its count.
    ///
    /// Each reply is true at one point of a history that extends what the worker knew: the point of its entry. This
    /// history, with the reply, is what the worker knows afterwards. The call makes at most d + 2 loads, and goes
    /// through the row of each node whose seen count rises: O(d²).
    pub fn look(&self, worker: &mut Worker, x: u32) -> Result<Reply, Refusal>
        requires { IsOwn self.now worker.old }
        ensures keeps { KeepsWorker worker.old worker.new }
        // Only for a node with links.
        ensures decided { IfOk result (λ _. IsLookable self.now.setup.nodes self.now.setup.links x) }
        // A number that is not a node, or a node without links.
        ensures refused { IfErr result (λ refusal. RefusesLook self.now.setup x refusal × (worker.new ≡ worker.old)) }
        ensures kind { IfOk result IsReplyToLook }
        // As for `try_turn`.
        ensures learns { IfOk result (λ reply. LearnsReply worker.old x reply worker.new) }
    {
        self.words.round_setup.check_look(x)?;
        Ok(worker.look(&self.words, x))
    }

    /// What the worker knows, to hand to another thread. It changes nothing.
    ///
    /// The worker must be one of this round. The call makes one load, and does not allocate or wait. O(1).
    pub fn past(&self, worker: &mut Worker) -> Past
        requires { IsOwn self.now worker.old }
        ensures kept { worker.new ≡ worker.old }
        ensures past { result ≡ past_of worker.old }
    {
        worker.past(&self.words)
    }

    /// The worker learns what another worker knew. All calls that either of them knew come before the worker's next
    /// call in the list of calls.
    ///
    /// Hand a [`Past`] on wherever one thread continues after another, as after a join or a message. Contracts promise
    /// no order between calls of two workers if nothing was handed on.
    ///
    /// The worker and the past must be of this round. The call makes two loads, and does not allocate or wait. O(1).
    pub fn learn(&self, worker: &mut Worker, past: Past)
        requires worker { IsOwn self.now worker.old }
        requires past { past.table ≡ self.now.table }
        // The worker then knows what both workers knew, and its own calls are as before.
        ensures { LearnsPast worker.old past worker.new }
    {
        worker.learn(&self.words, past);
    }

    /// Ends the round. Returns the network, the counts at the end, and the number and turns of each worker that is
    /// given back. The workers must be of this round, and at most as many as it was opened with; some may be missing.
    /// The caller owns the round, so no thread shares it any more. The call does not allocate or wait. O(n + k) for k
    /// workers.
    pub fn close(self, workers: Vec<Worker>) -> Closed
        requires own { Each (IsOwn self) workers.items }
        requires few { length workers.items ≤ self.setup.workers }
        // The network is as it was opened.
        ensures net { (result.net.nodes ≡ self.setup.nodes) × (result.net.links ≡ self.setup.links) }
        // One run leads to the counts. Each worker knows a prefix of this run, and the worker's part of it is exactly
        // what the worker did. If all workers come back, their turns add up to the counts.
        ensures history { Closes self workers.items result.counts.items result.turned.items }
    {
        let Round {
            words: Words { round_setup, table },
            mut counts,
            mut turned,
        } = self;
        let (_, mut seat) = table.shared.load_new_seat::<BeginClosing>(0);
        take_back_workers(&table, &mut seat, &mut turned, workers);
        let closed = table.close_with(seat);
        read_counts(&closed, counts.as_mut_slice());
        closed.free();
        Closed {
            net: round_setup.into_network(),
            counts,
            turned,
        }
    }
}
