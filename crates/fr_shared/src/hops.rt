//! Tables of next hops, pushed one by one in a push order. The word of a node holds its hop.

ghost use Rattle.std.specs.Prelude.{◌≡◌, ◌<◌, IfOk};
ghost use Rattle.fr_shared.specs.Knowledge.{IsOpened};

mod laws;
mod publishing;
mod reading;
#[cfg(test)]
mod tests;
mod walks;
mod words;

use crate::item::Item;
use crate::opening::open_table;
use fr_tables::Hop;
pub use laws::{route_law, shared_law};
use std::alloc::{AllocError, Global};
pub use walks::{Walk, WalkEnd};
pub use words::HERE;

/// Writes a table of next hops.
pub type Publisher = crate::publisher::Publisher<Hop>;

/// Reads a table of next hops, for one thread at a time.
pub type Reader = crate::reader::Reader<Hop>;

/// What a publisher or a reader of next hops knew at one moment.
pub type Past = crate::past::Past<Hop>;

impl Item for Hop {
    ghost use Rattle.fr_shared.specs.HopTables.{hop_codec};

    ghost codec = { hop_codec };
}

/// Opens a table for `nodes` nodes, at least one. Every node is cut off until a hop is pushed for it, so a table can be
/// opened for more nodes than the network has.
///
/// This call allocates all the memory of the table. Fails with `AllocError` if an allocation is refused.
///
/// O(n) for n nodes.
pub fn open(alloc: Global, nodes: u32) -> Result<(Publisher, Reader), AllocError>
    requires { 0 < nodes }
    // Every node is cut off. There are a publisher and a reader.
    ensures { IfOk result (λ r. IsOpened nodes r.0 r.1) }
{
    open_table(alloc, nodes, words::CUT_OFF)
}
