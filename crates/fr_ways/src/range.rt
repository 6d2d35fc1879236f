//! Whether each way of a table names a node of the table.

ghost use Rattle.std.specs.Prelude.{MatchOption};
ghost use Rattle.fr_ways.specs.Faults.{IsFirstOutside};
ghost use Rattle.fr_ways.specs.Ways.{IsInRange};

use crate::table::WayTable;

/// Returns the first way that is not a node of the table, in the order of the nodes. Returns `None` if all ways are
/// nodes. O(m).
pub fn first_outside(table: &WayTable) -> Option<u32>
    ensures { MatchOption result (IsInRange table.now) (IsFirstOutside table.now) }
{
    let nodes = table.len();
    for y in table.list() {
        if *y as usize >= nodes {
            return Some(*y);
        }
    }
    None
}
