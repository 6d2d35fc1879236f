//! The candidates that a worker keeps for itself.

ghost use Rattle.std.specs.Prelude.{◌≡◌, All, IfSome, vec_len};
ghost use Rattle.fr_crew.specs.Candidates.{IsCandidate};

use crate::naming::Naming;
use fr_round::Round;
use std::alloc::{AllocError, Global};
use std::collections::VecDeque;
use std::marker::PhantomData;

/// A queue of candidates from which no other worker steals. The first candidate put is the first one taken, and no step
/// is atomic.
#[derive(Drop)]
pub(crate) struct LocalQueue<J: Naming> {
    queue: VecDeque<u32>,
    // Whether each node is in the queue, so that none is there twice.
    queued: Vec<bool>,
    of: PhantomData<J>,
    ghost candidates: { All (IsCandidate J.setup) queue.items },
    ghost one_each: { vec_len queued ≡ J.setup.nodes },
}

impl<J: Naming> LocalQueue<J> {
    /// An empty queue, with room for all nodes, so that it never grows.
    pub fn new(alloc: Global, round: &Round) -> Result<LocalQueue<J>, AllocError>
        requires { round.now.setup ≡ J.setup }
    {
        let nodes = round.net().nodes() as usize;
        Ok(LocalQueue {
            queue: VecDeque::with_capacity(alloc, nodes)?,
            queued: vec![in alloc; false; nodes]?,
            of: PhantomData,
        })
    }

    /// Puts a candidate at the end, unless it is in the queue.
    #[inline(always)]
    pub fn put(&mut self, x: u32)
        requires { IsCandidate J.setup x }
    {
        if !self.queued[x as usize] && self.queue.push_back(x).is_ok() {
            self.queued[x as usize] = true;
        }
    }

    /// How many candidates it has.
    pub fn len(&self) -> usize {
        self.queue.len()
    }

    /// Takes the first candidate.
    #[inline(always)]
    pub fn take(&mut self) -> Option<u32>
        ensures { IfSome result (IsCandidate J.setup) }
    {
        let x = self.queue.pop_front()?;
        self.queued[x as usize] = false;
        Some(x)
    }
}
