//! A table that one round leaves for the next one.

ghost use Rattle.std.specs.Prelude.{◌≡◌, ◌≤◌, IfOk, IfSome, length, replicate};
ghost use Rattle.std.proofs.Props.{props};
ghost use Rattle.fr_graph.specs.Limits.{most_nodes};

use fr_graph::Turns;
use std::alloc::{AllocError, Global};

/// A table for the next round, in which no node has turned. There is none before the first change, and after a failed
/// change.
#[derive(Debug, Drop)]
pub(crate) struct SpareTurns {
    table: Option<Turns>,
    ghost clear: { IfSome table (λ turns. turns ≡ replicate (length turns) 0) } by { Prim.hlevel props },
}

impl SpareTurns {
    /// No table yet.
    pub fn none() -> SpareTurns {
        SpareTurns { table: None }
    }

    /// A table for this many nodes in which none has turned: the spare one if it fits, otherwise a new one.
    pub fn take(&mut self, alloc: Global, nodes: u32) -> Result<Turns, AllocError>
        requires { nodes ≤ most_nodes }
        ensures { IfOk result (λ turns. turns ≡ replicate nodes 0) }
    {
        match self.table.take() {
            Some(turns) if turns.counts().len() == nodes as usize => Ok(turns),
            _ => Turns::none(alloc, nodes),
        }
    }

    /// Clears a table and keeps it.
    pub fn store_cleared(&mut self, mut turns: Turns) {
        turns.clear();
        self.table = Some(turns);
    }
}
