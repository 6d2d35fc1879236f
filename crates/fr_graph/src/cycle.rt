//! The search for a cycle: that of fr_search, along the links. It starts from the lowest nodes and reads rows in their
//! order, so the cycle is the lowest one.

ghost use Rattle.std.specs.Prelude.{◌≡◌, length, IfOk};
ghost use Rattle.fr_graph.specs.Heads.{AreEntriesBelow, AreRowsRising, IsFoundIn, head_of, head_rows};
ghost use Rattle.fr_graph.specs.KeptRows.{net_in};

use crate::first::First;
use crate::row_table::RowTable;
use fr_search::{CycleOrOrder, Rows};
use std::alloc::{AllocError, Global};

impl Rows for RowTable {
    type Entry = (u16, First);

    ghost shown = { head_rows };

    ghost head = { head_of };

    fn row(&self, x: u32) -> &[(u16, First)] {
        self.row(x)
    }

    fn head_of(entry: (u16, First)) -> Option<u32> {
        match entry.1 {
            First::Outward => Some(entry.0 as u32),
            First::Inward => None,
        }
    }
}

/// Finds the lowest cycle of the links that these rows show, or an order of the nodes that lists the head of each link
/// before its tail.
pub(crate) fn find_cycle(
    alloc: Global,
    nodes: u32,
    rows: &RowTable,
) -> Result<CycleOrOrder, AllocError>
    requires one_each { length rows.now.rows ≡ nodes }
    requires below { AreEntriesBelow nodes rows.now }
    requires rising { AreRowsRising rows.now }
    ensures { IfOk result (IsFoundIn nodes (net_in rows.now).links) }
{
    fr_search::find_cycle(alloc, nodes, rows)
}
