//! Why there are no phases between two tables.

ghost use Rattle.std.specs.Prelude.{◌≡◌};
ghost use Rattle.fr_ways.specs.declared.fault.WaysFault.TheVariants.{Memory};

use std::alloc::AllocError;
use std::fmt;
use thiserror::Error;

/// Why a call on tables of ways fails. The variants are listed in the order in which the calls test for them.
#[derive(Debug, Drop, Error, PartialEq, Eq)]
pub enum WaysFault {
    /// The tables differ in length, or are longer than 4,294,967,295 nodes.
    #[error("the tables differ in length, or are too long")]
    Length,
    /// A way of the new table names this node, which is not in the table.
    #[error("node {0} is out of range")]
    Range(u32),
    /// The new table has this cycle: each node may send on to the next one, and the last to the first. No node is
    /// listed twice.
    #[error(fmt = tell_cycle)]
    Cycle(Vec<u32>),
    /// An allocation was refused.
    #[error("no memory")]
    Memory,
}

/// Writes how long a cycle is.
fn tell_cycle<W: fmt::Write>(nodes: &Vec<u32>, f: &mut fmt::Formatter<W>) -> fmt::Result {
    write!(f, "the new table has a cycle of length {}", nodes.len())
}

// Written by hand, because clauses say which fault a `?` returns.
impl From<AllocError> for WaysFault {
    ghost from_gives = { λ _ fault. fault ≡ Memory };

    fn from(_refused: AllocError) -> WaysFault {
        WaysFault::Memory
    }
}
