//! Tables of ways, pushed in two phases. The word of a node holds its first ways, up to five. So a table has no cycle,
//! whichever of its ways each node uses.

ghost use Rattle.std.specs.Prelude.{◌≡◌, ◌<◌, ◌≤◌, IfOk};
ghost use Rattle.fr_shared.specs.Knowledge.{IsOpened};

mod first;
mod laws;
mod publishing;
mod reading;
#[cfg(test)]
mod tests;
mod words;

use crate::item::Item;
use crate::opening::open_table;
pub use first::FirstWays;
pub use laws::shared_law;
use std::alloc::{AllocError, Global};
use std::collections::LinkedList;

/// Writes a table of ways.
pub type Publisher = crate::publisher::Publisher<LinkedList<u32>>;

/// Reads a table of ways, for one thread at a time.
pub type Reader = crate::reader::Reader<LinkedList<u32>>;

/// What a publisher or a reader of ways knew at one moment.
pub type Past = crate::past::Past<LinkedList<u32>>;

/// The ways of a node. Only contracts have such lists: code has words.
impl Item for LinkedList<u32> {
    ghost use Rattle.fr_shared.specs.WayTables.{way_codec};

    ghost codec = { way_codec };
}

/// Opens a table for `nodes` nodes, from 1 to 4,096. No node has a way until some are pushed for it, so a table can be
/// opened for more nodes than the network has.
///
/// This call allocates all the memory of the table. Fails with `AllocError` if an allocation is refused.
///
/// O(n) for n nodes.
pub fn open(alloc: Global, nodes: u32) -> Result<(Publisher, Reader), AllocError>
    requires some { 0 < nodes }
    requires few { nodes ≤ 4096 }
    // No node has a way. There are a publisher and a reader.
    ensures { IfOk result (λ r. IsOpened nodes r.0 r.1) }
{
    open_table(alloc, nodes, 0)
}
