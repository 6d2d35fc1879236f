//! Readers of ways, which other threads use while the session changes.

ghost use Rattle.std.specs.Prelude.{◌≡◌, ◌⊎◌, IfOk};
ghost use Rattle.revroute_c.specs.Replies.{outcome};
ghost use Rattle.revroute_c.specs.WayReaders.{TellsWayRead, TellsWaysRead};

use crate::questions::{CUT_OFF, HOP_OF_NO_NODE};
use crate::replies::hand_out;
use crate::statuses::{ANSWERED, NO_ROUTE, TOO_SHORT};
use fr_shared::ways::Reader;
use std::alloc::{AllocError, Global};

/// One more reader of the same table.
pub(crate) fn copy_way_reader(reader: &mut Reader, alloc: Global) -> Result<Box<Reader>, AllocError>
    ensures same { reader.new ≡ reader.old }
    ensures other { IfOk result (λ other. other.value ≡ reader.old) }
{
    let other = reader.try_clone()?;
    Ok(Box::new(alloc, other)?)
}

/// Writes the first ways of a node to the front of a place. `size` must be 0.
pub(crate) fn read_ways(reader: &mut Reader, node: u32, ways: &mut [u32], size: &mut usize) -> u32
    requires { size.old ≡ 0 }
    ensures ways { TellsWaysRead reader.old reader.new node (outcome result ways.old ways.new size.new) }
    ensures status { (result ≡ ANSWERED) ⊎ (result ≡ TOO_SHORT) ⊎ (result ≡ NO_ROUTE) }
{
    if node >= reader.nodes() {
        return NO_ROUTE;
    }
    let mut list = [0; 5];
    let count = reader.ways(node, &mut list);
    hand_out(&list[..count], ways, size)
}

/// The chosen way of a node as a number.
pub(crate) fn read_way(reader: &mut Reader, node: u32, choice: u32) -> u32
    ensures { TellsWayRead reader.old reader.new node choice result }
{
    if node >= reader.nodes() {
        return HOP_OF_NO_NODE;
    }
    match reader.way(node, choice) {
        Some(way) => way,
        None => CUT_OFF,
    }
}
