//! Which nodes are in the deques of a crew, so that none is there twice.

ghost use Rattle.std.specs.Prelude.{◌≡◌, ◌<◌, IfOk, vec_len};

use crate::naming::Naming;
use fr_round::Round;
use std::alloc::{AllocError, Global};
use std::marker::PhantomData;
use std::sync::atomic::{AtomicBool, Ordering};

/// A flag for each node, shared by all workers: whether the node is in a deque. No proof depends on the flags.
#[derive(Drop)]
pub(crate) struct SharedNodes<J: Naming> {
    flags: Vec<AtomicBool>,
    of: PhantomData<J>,
    ghost one_each: { vec_len flags ≡ J.setup.nodes },
}

impl<J: Naming> SharedNodes<J> {
    /// No node is in a deque yet.
    pub fn none(alloc: Global, round: &Round) -> Result<SharedNodes<J>, AllocError>
        requires { round.now.setup ≡ J.setup }
    {
        let nodes = round.net().nodes();
        let mut flags = Vec::with_capacity(alloc, nodes as usize)?;
        for _ in 0..nodes {
            flags.push_reserved(AtomicBool::new(false));
        }
        Ok(SharedNodes {
            flags,
            of: PhantomData,
        })
    }

    /// Notes that a node enters a deque. Returns whether it was in none.
    pub fn mark_shared(&self, x: u32) -> bool
        requires { x < J.setup.nodes }
    {
        !self.flags[x as usize].swap(true, Ordering::SeqCst)
    }

    /// Notes that a node is in no deque any more.
    pub fn unmark_shared(&self, x: u32)
        requires { x < J.setup.nodes }
    {
        self.flags[x as usize].store(false, Ordering::SeqCst);
    }
}
