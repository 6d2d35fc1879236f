//! New hops for routers, pushed one after the other.

ghost use Rattle.std.specs.Prelude.{◌≡◌, OnOk, OnErr};
ghost use Rattle.fr_tables.specs.Tables.{IsLoopFree};

use fr_tables::laws::{push_law, push_order_law};
use fr_tables::{Hop, TableFault, push_order};
use std::alloc::Global;

/// Pushes the hops of `new` into a table. By `push_law` no loop stands after any of the pushes that was not in the table before.
pub fn push_all(alloc: Global, table: &mut [Hop], new: &[Hop]) -> Result<(), TableFault>
    ensures pushed { OnOk result (table.new ≡ new.now) }
    ensures loop_free { OnOk result (IsLoopFree table.new) }
    ensures unchanged { OnErr result (table.new ≡ table.old) }
{
    let order = push_order(alloc, table, new)?;
    push_law();
    push_order_law();
    for x in &order {
        table[*x as usize] = new[*x as usize];
    }
    Ok(())
}
