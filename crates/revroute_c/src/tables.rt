//! Where the caller's table differs from the settled hops.

ghost use Rattle.std.specs.Prelude.{◌≡◌, ◌≤◌, ◌⊎◌, ◌↔◌, find, map, true, None, IfOk};
ghost use Rattle.revroute_c.specs.Replies.{outcome, GivesList};
ghost use Rattle.revroute_c.specs.Tables.{ArePushesOf, IsNoTable, hop_of as hop_named, is_outside as is_outside_of};

use crate::questions::{CUT_OFF, HERE};
use crate::replies::hand_out;
use crate::statuses::{ANSWERED, NO_MEMORY, NO_NETWORK, NO_TABLE, TOO_SHORT};
use fr_route::{Hop, Session};
use std::alloc::{AllocError, Global};

/// The hop that a number names.
fn hop_of(number: u32) -> Hop
    ensures { result ≡ hop_named number }
{
    match number {
        HERE => Hop::Here,
        CUT_OFF => Hop::CutOff,
        next => Hop::To(next),
    }
}

/// Whether a number is neither a node below `count` nor one of the two values in place of a node.
fn is_outside(count: u32, number: u32) -> bool
    ensures { result ≡ is_outside_of count number }
{
    number >= count && number != HERE && number != CUT_OFF
}

/// The first number that does not name a hop in a table of `count` nodes.
pub(crate) fn first_outside(count: u32, numbers: &[u32]) -> Option<u32>
    ensures { result ≡ find (is_outside_of count) numbers.now }
{
    numbers
        .iter()
        .copied()
        .find(|number| is_outside(count, *number))
}

/// The table of these numbers.
pub(crate) fn table_of(alloc: Global, numbers: &[u32]) -> Result<Vec<Hop>, AllocError>
    ensures { IfOk result (λ table. table.items ≡ map hop_named numbers.now) }
{
    let mut table = Vec::with_capacity(alloc, numbers.len())?;
    for number in numbers {
        table.push_reserved(hop_of(*number));
    }
    Ok(table)
}

/// Writes the nodes whose hop differs from that in the caller's table, in push order. `size` must be 0.
pub(crate) fn write_pushes(
    session: &Session,
    alloc: Global,
    table: &[u32],
    nodes: &mut [u32],
    size: &mut usize,
) -> u32
    requires { size.old ≡ 0 }
    ensures gives { GivesList (ArePushesOf session.now table.now) (outcome result nodes.old nodes.new size.new) }
    ensures no_network { (result ≡ NO_NETWORK) ↔ (session.now ≡ None) }
    ensures no_table { result ≡ NO_TABLE → IsNoTable session.now table.now }
    ensures no_memory { result ≡ NO_MEMORY → ¬ IsNoTable session.now table.now }
    ensures status { (result ≡ ANSWERED) ⊎ ((TOO_SHORT ≤ result) × (result ≤ NO_NETWORK)) ⊎ (result ≡ NO_TABLE) }
{
    let Some(router) = session.router() else {
        return NO_NETWORK;
    };
    let count = router.net().nodes();
    if table.len() != count as usize {
        return NO_TABLE;
    }
    if let Some(_number) = first_outside(count, table) {
        return NO_TABLE;
    }
    let Ok(hops) = table_of(alloc, table) else {
        return NO_MEMORY;
    };
    match router.known_pushes(alloc, &hops) {
        Ok(pushes) => hand_out(&pushes, nodes, size),
        Err(_) => NO_MEMORY,
    }
}
