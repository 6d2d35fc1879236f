//! A table of first ways that is to be pushed.

ghost use Rattle.std.specs.Prelude.{◌≡◌, ◌<◌, ◌≤◌, ℕ, All, IfOk, length, slice_set, take};
ghost use Rattle.fr_ways.specs.Ways.{ways};
ghost use Rattle.fr_shared.specs.Histories.{blank};
ghost use Rattle.fr_shared.specs.WayTables.{way_codec, ways_of, word_of};

use crate::ways::words::{MOST, word};
use std::alloc::{AllocError, Global};
use std::marker::Model;

/// The first ways of each node, up to five, as a [`Publisher`](crate::ways::Publisher) pushes them. The value in
/// contracts is a list of lists, one for each node.
///
/// All its memory is allocated when it is made. So a caller that has to publish after a change cannot run out of memory
/// then.
#[derive(Debug, Drop)]
pub struct FirstWays {
    // The word of each node, as the shared table holds it.
    words: Vec<u64>,
}

impl Model for FirstWays {
    ghost use Rattle.std.specs.Prelude.{ℕ, List};
    ghost use Rattle.fr_shared.specs.WayParts.{AreWords, held_table};

    ghost Value = { List (List ℕ) };

    ghost view = { λ f. held_table f.words.items };

    ghost invariant = { λ f. AreWords f.words.items };
}

impl FirstWays {
    /// A table of this many nodes, none of which has a way. Fails with `AllocError` if an allocation is refused. O(n)
    /// for n nodes.
    pub fn new(alloc: Global, nodes: u32) -> Result<FirstWays, AllocError>
        ensures { IfOk result (λ table. table ≡ blank way_codec nodes) }
    {
        Ok(FirstWays {
            words: vec![in alloc; 0u64; nodes as usize]?,
        })
    }

    /// Gives node `x` the first five of these ways, in their order, or all of them if there are fewer. It does not
    /// allocate.
    ///
    /// The node must be in the table, and each way must be below 4,096. O(1).
    pub fn set(&mut self, x: u32, ways: &[u32])
        requires node { x < length self.old }
        requires low { All (λ (y : ℕ). y < 4096) ways.now }
        ensures { self.new ≡ slice_set self.old x (take 5 ways.now) }
    {
        self.words[x as usize] = word(first_five(ways));
    }

    /// The word of node `x`.
    pub(crate) fn word(&self, x: u32) -> u64
        requires { x < length self.now }
        ensures word { result ≡ word_of (ways self.now x) }
        ensures held { ways_of result ≡ ways self.now x }
        ensures few { length (ways self.now x) ≤ 5 }
    {
        self.words[x as usize]
    }
}

/// The first five of a list, or the whole list if it is shorter.
fn first_five(ways: &[u32]) -> &[u32]
    ensures { result.now ≡ take 5 ways.now }
{
    if ways.len() < MOST {
        ways
    } else {
        &ways[..MOST]
    }
}
