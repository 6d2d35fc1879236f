//! Where the workers find the nodes that they try: each has a queue, and a deque from which the others steal. No call
//! waits.

ghost use Rattle.std.specs.Prelude.{◌≡◌, ◌<◌, ◌≤◌, IfSome, length};
ghost use Rattle.fr_crew.specs.Candidates.{IsCandidate};

use crate::local_queue::LocalQueue;
use crate::naming::{CandidateProtocol, Naming};
use crate::shared_nodes::SharedNodes;
use crossbeam_deque::{Steal, Worker};
use fr_round::Round;
use rand_core::SeedableRng;
use rand_core::utils::NextWord;
use rand_pcg::Lcg64Xsh32;
use std::alloc::{AllocError, Global};
use std::thread::yield_now;

/// How often a steal is tried while others take from the same deque. After that, the deque is skipped.
const TRIES: u32 = 64;

/// The handle with which other workers steal from a deque.
pub(crate) type Stealer<J> = crossbeam_deque::Stealer<u32, Global, (), CandidateProtocol<J>>;

/// How many calls in a row a worker makes while another worker rests and nobody steals what it shares. At the next one
/// it lets other threads run.
const CALLS_BEFORE_YIELD: u8 = 4;

/// Which candidates of a worker others can steal.
#[derive(Clone, Copy, PartialEq, Eq)]
pub(crate) enum Sharing {
    /// None: it is the only worker of its crew.
    Nothing,
    /// Half of them, as soon as another worker has none.
    Half,
    /// All of them at any time, since its gate may wait for another worker.
    All,
}

impl Sharing {
    /// How much each of so many workers shares, whose gate may wait or not.
    pub fn of(workers: usize, may_wait: bool) -> Sharing {
        if workers == 1 {
            Sharing::Nothing
        } else if may_wait {
            Sharing::All
        } else {
            Sharing::Half
        }
    }
}

/// How the deques of a crew are made: for how many candidates each has room at first, the seed of the draws, and how
/// much the workers share.
#[derive(Clone, Copy)]
pub(crate) struct DequePlan {
    pub room: usize,
    pub seed: u64,
    pub sharing: Sharing,
}

/// The candidates of a worker: those in its deque, from which others steal, and those in its queue, from which nobody
/// does. Then the draws of the deque from which the worker steals first.
#[derive(Drop)]
pub(crate) struct Deque<J: Naming> {
    own: Worker<u32, Global, (), CandidateProtocol<J>>,
    queue: LocalQueue<J>,
    sharing: Sharing,
    // How many calls it made since candidates were in the deque, while another worker had none.
    not_stolen: u8,
    number: usize,
    draws: Lcg64Xsh32,
}

impl<J: Naming> Deque<J> {
    /// No candidates yet, for the worker with this number.
    pub fn new(
        alloc: Global,
        round: &Round,
        plan: DequePlan,
        number: u32,
    ) -> Result<Deque<J>, AllocError>
        requires { round.now.setup ≡ J.setup }
    {
        Ok(Deque {
            own: Worker::fifo_as(alloc, plan.room)?,
            queue: LocalQueue::new(alloc, round)?,
            sharing: plan.sharing,
            not_stolen: 0,
            number: number as usize,
            draws: Lcg64Xsh32::seed_from_u64(plan.seed.wrapping_add(u64::from(number))),
        })
    }

    /// The handle with which other workers steal from it.
    pub fn stealer(&self) -> Result<Stealer<J>, AllocError> {
        self.own.stealer()
    }

    /// Puts a candidate into the deque, unless it is in a deque already. A candidate for which there is no memory is
    /// dropped. It is left to the finisher, or to the worker that puts it next.
    pub fn put_shared(&mut self, shared_nodes: &SharedNodes<J>, x: u32)
        requires { IsCandidate J.setup x }
    {
        if self.sharing == Sharing::Nothing {
            self.queue.put(x);
        } else if shared_nodes.mark_shared(x) {
            self.push_shared(shared_nodes, x);
        }
    }

    /// Puts a candidate that follows from a call into the queue, or into the deque if it shares all, unless it is there
    /// already. Other workers may have the same node in their queues. A call for it fails if it cannot turn any more.
    #[inline(always)]
    pub fn put(&mut self, shared_nodes: &SharedNodes<J>, x: u32)
        requires { IsCandidate J.setup x }
    {
        if self.sharing == Sharing::All {
            self.put_shared(shared_nodes, x);
        } else {
            self.queue.put(x);
        }
    }

    /// Lets a worker steal that has no candidate: moves half of the queue to the deque, if nothing is in the deque. If
    /// nobody steals what is there, the other worker may be waiting for this processor. So now and then it lets other
    /// threads run. If its queue has no two candidates, it does nothing.
    pub fn share(&mut self, shared_nodes: &SharedNodes<J>) {
        if self.queue.len() < 2 {
            return;
        }
        if self.own.len_as::<CandidateProtocol<J>>() == 0 {
            self.move_half(shared_nodes);
            self.not_stolen = 0;
        } else if self.not_stolen < CALLS_BEFORE_YIELD {
            self.not_stolen += 1;
        } else {
            self.not_stolen = 0;
            yield_now();
        }
    }

    /// Moves the first half of the queue to the deque.
    fn move_half(&mut self, shared_nodes: &SharedNodes<J>) {
        for _ in 0..self.queue.len() / 2 {
            if let Some(x) = self.queue.take() {
                self.put_shared(shared_nodes, x);
            }
        }
    }

    /// Puts a candidate that was just marked at the end of the deque.
    #[inline(never)]
    fn push_shared(&mut self, shared_nodes: &SharedNodes<J>, x: u32)
        requires { IsCandidate J.setup x }
    {
        if self.own.push_as::<CandidateProtocol<J>>(x).is_err() {
            shared_nodes.unmark_shared(x);
        }
    }

    /// Puts all neighbours of a node, except the destination: each of them may be a sink after the node has turned.
    pub fn put_neighbours(&mut self, shared_nodes: &SharedNodes<J>, round: &Round, x: u32)
        requires named { round.now.setup ≡ J.setup }
        requires node { x < J.setup.nodes }
    {
        let dest = round.dest();
        for (neighbour, _) in round.net().row(x) {
            let neighbour = *neighbour as u32;
            if neighbour != dest {
                self.put(shared_nodes, neighbour);
            }
        }
    }

    /// Takes the first candidate of its queue, or else of its deque.
    pub fn take(&mut self, shared_nodes: &SharedNodes<J>) -> Option<u32>
        ensures { IfSome result (IsCandidate J.setup) }
    {
        if let Some(x) = self.queue.take() {
            return Some(x);
        }
        let x = self.own.pop_as::<CandidateProtocol<J>>()?;
        shared_nodes.unmark_shared(x);
        Some(x)
    }

    /// Steals a candidate of another worker. The candidate is then in no deque.
    pub fn steal(&mut self, shared_nodes: &SharedNodes<J>, stealers: &[Stealer<J>]) -> Option<u32>
        requires { 0 < length stealers.now }
        ensures { IfSome result (IsCandidate J.setup) }
    {
        let x = self.steal_from_each(stealers)?;
        shared_nodes.unmark_shared(x);
        Some(x)
    }

    /// Steals a candidate of another worker. A draw names the deque from which the worker steals first. The others
    /// follow in the order of their numbers, and continue with 0 after the last.
    fn steal_from_each(&mut self, stealers: &[Stealer<J>]) -> Option<u32>
        requires { 0 < length stealers.now }
        ensures { IfSome result (IsCandidate J.setup) }
    {
        let mut at = self.draws.next_word() as usize % stealers.len();
        for _ in 0..stealers.len() {
            if at != self.number {
                if let Some(x) = steal(&stealers[at]) {
                    return Some(x);
                }
            }
            at = if at + 1 < stealers.len() { at + 1 } else { 0 };
        }
        None
    }
}

/// Steals the first candidate of another worker's deque.
fn steal<J: Naming>(stealer: &Stealer<J>) -> Option<u32>
    ensures { IfSome result (IsCandidate J.setup) }
{
    let mut pass = stealer.pass();
    for _ in 0..TRIES {
        match stealer.steal_as::<CandidateProtocol<J>>(&mut pass) {
            Steal::Success(x) => return Some(x),
            Steal::Empty => return None,
            Steal::Retry => {}
        }
    }
    None
}
