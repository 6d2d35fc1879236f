//! The search for a cycle: that of fr_search, along the ways of each node.

ghost use Rattle.std.specs.Prelude.{◌≡◌, ℕ, ◌<◌, ◌^◌, IfOk, MatchOption, Some, length};
ghost use Rattle.fr_ways.specs.Faults.{IsOnceRound};
ghost use Rattle.fr_ways.specs.Ways.{HasNoCycle, IsInRange, rows_of};

use crate::table::WayTable;
use fr_search::{CycleOrOrder, Rows};
use std::alloc::{AllocError, Global};

impl Rows for WayTable {
    type Entry = u32;

    ghost shown = { rows_of };

    ghost head = { λ way. Some way };

    fn row(&self, x: u32) -> &[u32] {
        self.row(x)
    }

    fn head_of(way: u32) -> Option<u32> {
        Some(way)
    }
}

/// Finds a cycle of a table. `None` if it has none. Fails with `AllocError` if an allocation is refused. O(n + m).
pub(crate) fn find_cycle(alloc: Global, table: &WayTable) -> Result<Option<Vec<u32>>, AllocError>
    requires few { length table.now < 2 ^ 32 }
    requires range { IsInRange table.now }
    ensures { IfOk result (λ found. MatchOption found (HasNoCycle table.now)
        (λ nodes. IsOnceRound table.now nodes.items)) }
{
    match fr_search::find_cycle(alloc, table.len() as u32, table)? {
        CycleOrOrder::Cycle(mut walk) => {
            let _again = walk.pop();
            Ok(Some(walk))
        }
        CycleOrOrder::Order(_) => Ok(None),
    }
}
